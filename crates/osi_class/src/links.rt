//! What both classes of links promise.

use crate::faults::LinkFault;
use crate::handing::Handed;
use crate::units::{Out, Room, Slot};
use osi_tpdu::Tpdu;
use std::alloc::AllocError;

/// One end of an open transport connection, between its user's TSDUs and the units of its class.
///
/// TSDUs that are handed in are cut into data units, which [`Link::next_out`] gives to be written. Units that are
/// received are taken, and their octets joined to TSDUs, which [`Link::next_tsdu`] hands out. Both keep the order.
/// What a link holds and what each call does is stated on its `standing`, which both classes have; the laws over lists
/// of calls are in [`crate::laws`].
pub trait Link {
    ghost use Rattle.std.specs.Prelude.{ℕ, List, ◌≡◌, ◌<◌, ◌≤◌, ◌+◌, ◌*◌, ◌^◌, [], None, Ok, true, false, length, map, min, IfSome, IfNone};
    ghost use Rattle.std.specs.Prelude.{IfOk, IsOk, IsSome, OnOk, OnErr, option_map};
    ghost use Rattle.std.specs.Borrow.{sem};
    ghost use Rattle.std.specs.Io.BufRead.{Rests};
    ghost use Rattle.osi_tpdu.specs.View.{value};
    ghost use Rattle.osi_class.specs.Giving.{all_given, octets_in, most_given, AllGoAtOnce, GoesAtOnce, GivesSlot, IsNumbered};
    ghost use Rattle.osi_class.specs.Handing.{tsdu_handed, user_of, IsAlone, IsLent};
    ghost use Rattle.osi_class.specs.Limits.{longest_tsdu};
    ghost use Rattle.osi_class.specs.Link.{Standing, with_tsdu, with_tsdus, unsent_octets, given, taken, needs_memory, next, with_handed};
    ghost use Rattle.osi_class.specs.Link.{Gives, Hands, FitsAUnit};
    ghost use Rattle.osi_class.specs.Sound.{IsSound};
    ghost use Rattle.osi_class.specs.Taking.{TakesUnit};
    ghost use Rattle.osi_class.specs.Tsdus.{octets_of_tsdus};

    ghost standing: { Self → Standing };

    /// Hands in a TSDU of any length, to be sent after those that are queued. Its octets are copied once. An
    /// allocation failure changes nothing.
    fn send_tsdu(&mut self, tsdu: &[u8]) -> Result<(), AllocError>
        ensures ok { OnOk result (standing self.new ≡ with_tsdu (standing self.old) tsdu.now) }
        ensures err { OnErr result (self.new ≡ self.old) }
        ensures limit { (standing self.new).ends.limit ≡ (standing self.old).ends.limit };

    /// Hands in TSDUs together, in order, as [`Link::send_tsdu`] does with each: all of them or none. An allocation
    /// failure changes nothing; an empty list needs no memory.
    fn send_tsdus(&mut self, tsdus: &[Vec<u8>]) -> Result<(), AllocError>
        ensures ok { OnOk result (standing self.new ≡ with_tsdus (standing self.old) (map (λ v. v.items) tsdus.now)) }
        ensures err { OnErr result (self.new ≡ self.old) }
        ensures nothing { tsdus.now ≡ [] → IsOk result }
        ensures limit { (standing self.new).ends.limit ≡ (standing self.old).ends.limit };

    /// Hands in a TSDU as [`Link::send_tsdu`] does, and takes over the buffer with its octets: none is copied. If
    /// nothing is to be sent before it, no memory is needed. An allocation failure changes nothing.
    fn send_owned(&mut self, tsdu: Vec<u8>) -> Result<(), AllocError>
        ensures ok { OnOk result (standing self.new ≡ with_tsdu (standing self.old) tsdu.items) }
        ensures err { OnErr result (self.new ≡ self.old) }
        ensures alone { (standing self.old).ends.unsent ≡ [] → IsOk result }
        ensures limit { (standing self.new).ends.limit ≡ (standing self.old).ends.limit };

    /// Hands in TSDUs together as [`Link::send_tsdus`] does, and takes over their buffers: no octet is copied. An
    /// allocation failure changes nothing. No memory is needed for an empty list, nor if nothing is to be sent before
    /// them and they have fewer than 2^64 octets together.
    fn send_owned_tsdus(&mut self, tsdus: Vec<Vec<u8>>) -> Result<(), AllocError>
        ensures ok { OnOk result (standing self.new ≡ with_tsdus (standing self.old) (map (λ v. v.items) tsdus.items)) }
        ensures err { OnErr result (self.new ≡ self.old) }
        ensures nothing { tsdus.items ≡ [] → IsOk result }
        ensures alone { (standing self.old).ends.unsent ≡ [] → octets_of_tsdus (map (λ v. v.items) tsdus.items) < 2 ^ 64 → IsOk result }
        ensures limit { (standing self.new).ends.limit ≡ (standing self.old).ends.limit };

    /// Lets the caller send the first part of a TSDU at once: as many octets as a unit carries ([`Link::limit`]), or
    /// all of them, and then the unit ends the TSDU. The link sees no octet of the TSDU and keeps none. What is left
    /// of it has to be sent by further calls of this one, or handed in by [`Link::send_tsdu`].
    ///
    /// A part may be sent if nothing is queued and, in class 2, no Ack is due and there is credit. `None` in all other
    /// cases, and then nothing has changed.
    fn give_slot(&mut self) -> Option<Slot>
        ensures given { IfSome result (λ slot. GivesSlot slot (standing self.old) (standing self.new)) }
        ensures at_once { GoesAtOnce (standing self.old) → IsSome result }
        ensures number { IfSome result IsNumbered }
        ensures none { IfNone result (self.new ≡ self.old) }
        ensures alone { IfSome result (λ _. (standing self.new).ends.unsent ≡ []) }
        ensures at_least { 123 ≤ (standing self.old).ends.limit };

    /// Takes a unit that was received for this connection. A bad unit is refused with the first fault that applies, in
    /// the order of [`LinkFault`], and the link is unchanged. `OutOfMemory` is possible only for a DT that would be
    /// taken and that has an octet or ends its TSDU.
    fn take(&mut self, unit: &Tpdu<'_>) -> Result<(), LinkFault>
        ensures taken { TakesUnit result (needs_memory (value unit.now)) (taken (standing self.old) (value unit.now)) (standing
            self.old) (standing self.new) }
        ensures limit { (standing self.new).ends.limit ≡ (standing self.old).ends.limit };

    /// Takes a unit as [`Link::take`] does, and then hands out the first complete TSDU as [`Link::next_tsdu`] does. If no
    /// other TSDU is begun or waits, a unit that is a whole TSDU is [`Handed::Whole`]: its octets are not copied, and no
    /// memory is needed. A fault is one of [`Link::take`], and changes nothing.
    fn receive(&mut self, unit: &Tpdu<'_>) -> Result<Handed, LinkFault>
        ensures taken { IfOk result (λ handed. taken (standing self.old) (value unit.now)
            ≡ Ok (with_handed (tsdu_handed (user_of (value unit.now)) handed) (standing self.new))) }
        ensures none { IfOk result (λ handed.
            IfNone (tsdu_handed (user_of (value unit.now)) handed) ((standing self.new).ends.joining.whole ≡ [])) }
        ensures alone { IsAlone (standing self.old) (value unit.now) → IsLent result }
        ensures refused { OnErr
            result (TakesUnit result (needs_memory (value unit.now)) (taken (standing self.old) (value unit.now)) (standing
            self.old) (standing self.new)) }
        ensures limit { (standing self.new).ends.limit ≡ (standing self.old).ends.limit };

    /// The next unit to be written; `None` exactly if no Ack is due and either no data is left or, in class 2, there
    /// is no credit. A part of a TSDU is borrowed from the buffer of the TSDU, and nothing is allocated. A unit
    /// carries at least 123 octets, except the last of a TSDU, and at most 8,189. Each unit leaves less to give, so a
    /// loop terminates ([`crate::laws::giving_ends`]).
    fn next_out(&mut self) -> Option<Out<'_>>
        ensures* given { sem 𝓛 (Rests Self.row self.entry (λ new.
            Gives result (next (standing self.old)) (standing self.old) (standing new))) }
        ensures fits { IfSome result FitsAUnit }
        ensures at_least { 123 ≤ (standing self.old).ends.limit }
        ensures at_most { (standing self.old).ends.limit ≤ 8189 };

    /// The first TSDU of which all units were taken; `None` exactly if none is complete. It is not copied.
    fn next_tsdu(&mut self) -> Option<Vec<u8>>
        ensures handed { Hands (option_map (λ v. v.items) result) (standing self.old) (standing self.new) }
        ensures limit { (standing self.new).ends.limit ≡ (standing self.old).ends.limit };

    /// How many octets of a TSDU a unit carries at most, 123 to 8,189.
    fn limit(&self) -> usize
        ensures value { result ≡ (standing self.now).ends.limit }
        ensures at_least { 123 ≤ result }
        ensures at_most { result ≤ 8189 };

    /// How many octets of the unfinished TSDU were taken, at most 1,048,576.
    fn begun_octets(&self) -> usize
        ensures value { result ≡ length (standing self.now).ends.joining.begun }
        ensures at_most { result ≤ longest_tsdu }
        ensures sound { IsSound (standing self.now) };

    /// How many octets of TSDUs were handed in and are not yet in units that [`Link::next_out`] gave: in class 2 what
    /// waits for credit, in class 0 what was not given yet. Allocates nothing.
    fn unsent(&self) -> usize
        ensures value { result ≡ unsent_octets (standing self.now) };

    /// If a TSDU of this many octets is handed in at a link that gives no unit now: how many units [`Link::next_out`]
    /// then gives until it gives none, and how many octets of TSDUs are in them.
    fn room_for(&self, octets: usize) -> Room
        ensures units { (tsdu : List ℕ) → length tsdu ≡ octets → next (standing self.now) ≡ None →
            result.units ≡ length (all_given (with_tsdu (standing self.now) tsdu)) }
        ensures octets { (tsdu : List ℕ) → length tsdu ≡ octets → next (standing self.now) ≡ None →
            result.octets ≡ octets_in (all_given (with_tsdu (standing self.now) tsdu)) }
        ensures few_units { 123 * result.units ≤ octets + 123 }
        ensures few_octets { result.octets ≤ octets }
        ensures some_octets { 0 < result.units → min 123 octets ≤ result.octets };

    /// If these TSDUs are handed in together at a link that gives no unit now: the most octets of the units that
    /// [`Link::next_out`] then gives until it gives none, with this many octets of headers for each unit
    /// ([`crate::laws::what_units_take`]). `None` only if they don't fit a `usize`.
    fn room_for_all(&self, tsdus: &[Vec<u8>], headers: u8) -> Option<usize>
        ensures value { IfSome result (λ room. next (standing self.now) ≡ None →
            room ≡ most_given headers (with_tsdus (standing self.now) (map (λ v. v.items) tsdus.now))) }
        ensures none { IfNone result (next (standing self.now) ≡ None →
            2 ^ 64 ≤ most_given headers (with_tsdus (standing self.now) (map (λ v. v.items) tsdus.now))) }
        ensures at_least { 123 ≤ (standing self.now).ends.limit };

    /// Whether all units of these TSDUs may be given now, one after the other: nothing is to be sent before them and, in
    /// class 2, no Ack waits and there is credit for all of them.
    fn gives_all(&self, tsdus: &[Vec<u8>]) -> bool
        ensures all { result ≡ true → AllGoAtOnce (standing self.now) (map (λ v. v.items) tsdus.now) }
        ensures some_wait { result ≡ false → AllGoAtOnce (standing self.now) (map (λ v. v.items) tsdus.now) → ⊥ };
}
