//! Laws of packets and streams. Each function does nothing: its contract is the law.

ghost use Rattle.std.specs.Prelude.{◌≡◌, ◌+◌, ◌∷◌, ◌++◌, ℕ, List, [], length, true, Ok};
ghost use Rattle.osi_unit.specs.Octets.{IsOctets};
ghost use Rattle.osi_tpkt.specs.Packet.{IsPacket, IsOnePacket, IsPartial};
ghost use Rattle.osi_tpkt.specs.Stream.{ArePackets, Cuts, Ending};
ghost use Rattle.osi_tpkt.specs.Held.{Held, IsHolding, fresh};
ghost use Rattle.osi_tpkt.specs.Runs.{CutterCall, CutterRun, CutterReads, CutterReadsOn};
ghost use Rattle.osi_tpkt.specs.Runs.CutterCall.{Feed, Advance};
ghost use Rattle.osi_tpkt.specs.Cutter.{Passes};

pub use osi_unit::laws::are_octets;

/// No packet is a proper prefix of another: two packets at the front of the same octets are the same packet, with the
/// same transport unit.
pub fn no_packet_begins_another()
    ensures { (u v b c x y : List ℕ) → IsPacket u b → IsPacket v c → b ++ x ≡ c ++ y →
        (b ≡ c) × (u ≡ v) }
{}

/// The empty list is a proper prefix of a packet, every prefix of a proper prefix is one, and no complete packet is
/// one.
pub fn a_prefix_of_a_packet()
    ensures nothing { IsPartial [] }
    ensures front { (r more : List ℕ) → IsPartial (r ++ more) → IsPartial r }
    ensures proper { (r : List ℕ) → IsPartial r → IsOnePacket r → ⊥ }
{}

/// A stream is cut into packets in at most one way, and has at most one ending. The same holds if an unfinished packet
/// is left at the end.
pub fn a_stream_has_one_cut()
    ensures packets { (s r q : List ℕ) (us vs : List (List ℕ)) → IsPartial r → IsPartial q →
        ArePackets us s r → ArePackets vs s q → (us ≡ vs) × (r ≡ q) }
    ensures cut { (s : List ℕ) (us vs : List (List ℕ)) (e f : Ending) → Cuts s us e → Cuts s vs f →
        (us ≡ vs) × (e ≡ f) }
{}

/// Every stream of octets is a list of packets followed by an ending.
pub fn a_stream_has_a_cut()
    ensures { (s : List ℕ) → IsOctets s → (us : List (List ℕ)) × (e : Ending) × Cuts s us e }
{}

/// Two lists of packets, one after the other, are one list of packets; and if a list of packets is split, its octets
/// are split at the same place.
pub fn packets_follow_one_another()
    ensures joined { (us vs : List (List ℕ)) (s m t r : List ℕ) → ArePackets us s m → ArePackets vs (m ++ t) r →
        ArePackets (us ++ vs) (s ++ t) r }
    ensures parted { (us vs : List (List ℕ)) (s r : List ℕ) → ArePackets (us ++ vs) s r →
        (m : List ℕ) × ArePackets us s m × ArePackets vs m r }
{}

/// A packet taken by [`crate::Cutter::pass`] is one that is fed from the same piece and then dropped. So what is said
/// of runs of `feed` and `advance` also holds of runs with `pass`.
pub fn a_packet_passed_by_is_fed_and_dropped()
    ensures { (old new : Held) (unit piece : List ℕ) → Passes old unit piece new →
        CutterRun old (Feed piece (Ok (record { used = 4 + length unit; whole = true })) ∷ Advance ∷ []) (unit ∷ []) new }
{}

/// The pieces don't matter. Whatever calls are made of a new cutter, and however the stream is cut into pieces, the
/// packets that it gives are the packets of the octets that it used, and a fault is the fault of these octets followed
/// by the refused piece. The same holds of a cutter in any state, for the octets that it holds and those that follow.
/// Two runs of calls, one after the other, are one run.
pub fn the_pieces_do_not_matter()
    ensures new { (calls : List CutterCall) (units : List (List ℕ)) (held : Held) →
        CutterRun fresh calls units held → CutterReads calls units held }
    ensures any { (old new : Held) (calls : List CutterCall) (units : List (List ℕ)) → IsHolding old →
        CutterRun old calls units new → CutterReadsOn old calls units new }
    ensures joined { (old mid new : Held) (calls more : List CutterCall) (us vs : List (List ℕ)) →
        CutterRun old calls us mid → CutterRun mid more vs new → CutterRun old (calls ++ more) (us ++ vs) new }
{}
