//! Laws of runs. The functions do nothing: their contracts are the laws.

ghost use Rattle.std.specs.Prelude.{◌≡◌, ◌≤◌, ℕ, List, map};
ghost use Rattle.osi_message.specs.Words.{Word};
ghost use Rattle.osi_session.specs.Standing.{Seen};
ghost use Rattle.osi_side.specs.declared.findings.Finding.{Finding as Found};
ghost use Rattle.osi_side.specs.declared.members.Member.{Member};
ghost use Rattle.osi_side.specs.Explaining.{Explains, IsExplained};
ghost use Rattle.osi_side.specs.Kept.{after_word};
ghost use Rattle.osi_side.specs.Onward.{IsAmong};
ghost use Rattle.osi_side.specs.Sides.{observed};
ghost use Rattle.osi_side.specs.Walking.{the_remark};
ghost use Rattle.osi_witness.specs.declared.streams.Kept.{Kept};
ghost use Rattle.osi_witness.specs.declared.streams.Said.{Said};
ghost use Rattle.osi_witness.specs.declared.streams.Stream.{Stream};
ghost use Rattle.osi_witness.specs.Found.{ComesFrom};
ghost use Rattle.osi_witness.specs.Streams.{tsdus_of};
ghost use Rattle.osi_witness.specs.Told.{IsTold};
ghost use Rattle.osi_witness.specs.Trails.{Runs, remark_of};
ghost use Rattle.osi_witness.specs.Whole.{HasRun, IsWhole, octets_told};

/// A run that is told of a side explains the units that the side sent, as `osi_side` means it: a session that begins there, and takes
/// TSDUs of the other side only after they had passed, sends them all.
#[tactic(auto, using(crate::proofs::a_run_explains_what_a_side_sent::run_explains))]
pub fn a_run_explains_what_its_side_sent()
    ensures { (own us : List (List ℕ)) (kept : List Kept) (said : List Said) (taken : ℕ) (begin : Seen) →
        Runs own us kept said taken begin → Explains us (map (remark_of own) kept) taken begin }
{}

/// So if a run is told of a side of a capture, a session explains all TSDUs of the side: those before its limit, or all if it has none.
/// Each of them it sends after TSDUs of the other side that had passed before it.
#[tactic(auto, using(crate::proofs::a_run_is_told_of_each_side::explains_all))]
pub fn a_run_that_is_told_explains_its_side()
    ensures { (own heard : Stream) (begin : Seen) (whole : IsWhole own) → IsTold own heard begin
        → IsExplained begin (tsdus_of heard) whole.told }
{}

/// `Capture::trace` finds a run of each side, unless memory runs out (its clause `found`). If the judge found that the side kept the
/// protocol, this run sends all that the side sent: the TSDUs that it explains are those that passed, and none is left out.
pub fn a_side_that_kept_the_protocol_is_told_to_its_end()
    ensures { (own heard : Stream) (begin : Seen) (run : HasRun own heard begin) → (observed own.side).finding ≡ Found.Kept →
        (map octets_told run.whole.told ≡ tsdus_of own) × IsExplained begin (tsdus_of heard) run.whole.told }
{}

/// Each session that the judge keeps after a unit comes from one that it kept before it: that one takes TSDUs of the other side, and then
/// sends the unit or answers by it; after a restart it may take more of them that change nothing (`comes`). If those that are kept before
/// the unit took only what had passed before it, so did those that are kept after it (`passed`). So a run can be read off backwards.
#[tactic(auto, using(crate::proofs::each_session_that_is_kept_comes_from_one::comes_from_one, crate::proofs::each_session_that_is_kept_comes_from_one::comes_in_time))]
pub fn a_session_that_is_kept_comes_from_one()
    ensures comes { (us : List (List ℕ)) (w : Word) (octets before : ℕ) (members : List Member) (x : Member)
        → IsAmong x (after_word us octets before members w) → ComesFrom us (the_remark w octets before) members x }
    ensures passed { (us : List (List ℕ)) (w : Word) (octets before : ℕ) (members : List Member) (x : Member)
        → ((y : Member) → IsAmong y members → y.taken ≤ before) → IsAmong x (after_word us octets before members w) → x.taken ≤ before }
{}
