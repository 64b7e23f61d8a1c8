//! The TSDUs of one side of a connection.

ghost use Rattle.std.specs.Prelude.{◌≡◌, ◌≤◌, ◌<◌, ◌+◌, ◌++◌, [], true, false, length, max, IsOk, OnOk, OnErr};
ghost use Rattle.std.specs.Vec.{vec_capacity};
ghost use Rattle.osi_session.specs.Standing.{Seen};
ghost use Rattle.osi_tpkt.specs.Stream.{offset_of};
ghost use Rattle.osi_side.specs.Keeping.{once, room_in};
ghost use Rattle.osi_side.specs.Sides.{observed, Tells};
ghost use Rattle.osi_judge.specs.Lines.{Spoken, added, begun_before};
ghost use Rattle.osi_judge.specs.Holding.{lined, unheard, begun_in, is_unheard, last_place, Lined, HoldsBoth};

use osi_side::{Finding, Side};
use std::alloc::{AllocError, Global};

/// The most room, in octets, that is kept for the next TSDU once one was handed over.
const MOST_SPARE: usize = 4_096;

/// The room that is kept for further parts of a TSDU: one octet for so many that it has.
const OF_EACH_SPARE: usize = 8;

/// How far a side is with its current TSDU.
#[derive(Clone, Copy)]
pub(crate) enum Stage {
    /// It is between two TSDUs.
    Between,
    /// It is within a TSDU.
    Within,
    /// It has ended a TSDU that the other side's session has still to be given.
    Unheard,
}

/// One side of a connection: its session, and its TSDUs as far as they passed.
#[derive(Drop)]
pub(crate) struct Line {
    pub(crate) side: Side,
    /// The octets of the unfinished TSDU, or of the one that is unheard.
    pub(crate) begun: Vec<u8>,
    pub(crate) stage: Stage,
    /// How many TSDUs of the other side had passed before the first packet of the unfinished one.
    pub(crate) begun_since: usize,
    /// How many had passed before the current packet.
    pub(crate) since: usize,
    /// The offset of the packet in which the TSDU ended at which the session broke the protocol; of the last TSDU while it
    /// keeps it.
    pub(crate) last: u64,
}

/// The packet that ended the TSDU at which a session broke the protocol, or the last while it keeps it.
fn last_place(finding: Finding, at: u64, last: u64) -> u64
    ensures { result ≡ last_place finding at last }
{
    match finding {
        Finding::Kept => at,
        Finding::Broke(_) | Finding::Left(_) | Finding::TooMany => last,
    }
}

/// Makes room for so many more octets, if there is none: just for these, and for this many after them.
fn make_room(octets: &mut Vec<u8>, more: usize, spare: usize) -> Result<(), AllocError>
    ensures items { octets.new.items ≡ octets.old.items }
    ensures room { OnOk result (length octets.old.items + more ≤ vec_capacity octets.new) }
    ensures most { vec_capacity octets.new ≤ max (vec_capacity octets.old) (length octets.old.items + more + spare) }
    ensures needed { OnErr result (vec_capacity octets.old < length octets.old.items + more) }
{
    if more <= octets.capacity() - octets.len() {
        return Ok(());
    }
    octets.reserve_exact(more.saturating_add(spare))
}

impl Line {
    pub(crate) fn new(alloc: Global, side: Side) -> Line
        ensures { lined result ≡ record { side = observed side; begun = []; stage = Stage.Between; begun_since = 0; since = 0; last = 0 } }
    {
        Line {
            side,
            begun: Vec::new(alloc),
            stage: Stage::Between,
            begun_since: 0,
            since: 0,
            last: 0,
        }
    }

    /// Whether it has ended a TSDU that the other session has still to be given.
    fn is_unheard(&self) -> bool
        ensures { result ≡ is_unheard self.now.stage }
    {
        match self.stage {
            Stage::Between => false,
            Stage::Within => false,
            Stage::Unheard => true,
        }
    }

    /// How many of its TSDUs the other session has still to be given.
    fn unheard(&self) -> usize
        ensures { result ≡ length (unheard (lined self.now)) }
    {
        match self.stage {
            Stage::Between => 0,
            Stage::Within => 0,
            Stage::Unheard => 1,
        }
    }

    /// The room that its TSDUs take as the other session has heard them, and the octets that are kept here.
    pub(crate) fn kept(&self, other: &Line) -> usize
        ensures { result ≡ offset_of (room_in (once (lined other.now).side.heard) + length (lined self.now).begun) }
    {
        other.side.room().saturating_add(self.begun.len())
    }

    /// How many TSDUs of the other side had passed before the TSDU to which the current packet adds.
    fn since_first(&self) -> usize
        ensures { result ≡ begun_before (begun_in (lined self.now)) self.now.since }
    {
        match self.stage {
            Stage::Within => self.begun_since,
            Stage::Between => self.since,
            Stage::Unheard => self.since,
        }
    }

    /// A packet of this side begins.
    pub(crate) fn begin(&mut self, other: &Line)
        ensures { lined self.new ≡ record (lined self.old) {
          since = offset_of (length (lined self.old).side.heard + length (unheard
              (lined other.now)));
        } }
    {
        self.since = self.side.heard().saturating_add(other.unheard());
    }

    /// A part of an unfinished TSDU passes. `Err` changes nothing.
    fn add_part(&mut self, octets: &[u8], since: usize) -> Result<(), AllocError>
        ensures ok { OnOk result (lined self.new ≡ record (lined self.old) {
          begun = (lined self.old).begun ++ octets.now;
          stage = Stage.Within;
          begun_since = since;
        }) }
        ensures err { OnErr result (lined self.new ≡ lined self.old) }
    {
        let spare = self.begun.len() / OF_EACH_SPARE;
        make_room(&mut self.begun, octets.len(), spare)?;
        self.begun.extend_from_slice(octets)?;
        self.stage = Stage::Within;
        self.begun_since = since;
        Ok(())
    }

    /// The last part of a TSDU passes, in the packet at this offset. `Err` changes nothing.
    fn end_part(&mut self, at: u64, octets: &[u8], since: usize) -> Result<(), AllocError>
        ensures ok { OnOk result (lined self.new ≡ record (lined self.old) {
          side = observed self.new.side;
          begun = (lined self.old).begun ++ octets.now;
          stage = Stage.Unheard;
          last = last_place (lined self.old).side.finding at (lined self.old).last;
        }) }
        ensures tells { OnOk result (Tells ((lined self.old).begun ++ octets.now) since (observed self.old.side) (observed self.new.side)) }
        ensures err { OnErr result (lined self.new ≡ lined self.old) }
    {
        let begun = self.begun.len();
        let last = last_place(self.side.finding(), at, self.last);
        make_room(&mut self.begun, octets.len(), 0)?;
        self.begun.extend_from_slice(octets)?;
        match self.side.tell(self.begun.as_slice(), since) {
            Ok(()) => {
                self.stage = Stage::Unheard;
                self.last = last;
                Ok(())
            }
            Err(_) => {
                self.begun.truncate(begun);
                Err(AllocError)
            }
        }
    }
}

/// The octets are given up, and so is their room if it is more than [`MOST_SPARE`].
fn give_up(octets: &mut Vec<u8>)
    ensures none { octets.new.items ≡ [] }
    ensures room { vec_capacity octets.new ≤ 4096 }
{
    octets.clear();
    if octets.capacity() > MOST_SPARE {
        octets.shrink_to_fit();
    }
}

/// The other session is given the TSDU that it has not heard yet, if there is one. `Err` changes nothing.
pub(crate) fn hand_over(own: &mut Line, other: &mut Line) -> Result<(), AllocError>
    ensures holds { (s t : Seen) (a b : Spoken) → HoldsBoth s t (lined own.old) (lined other.old) a b
        → HoldsBoth s t (lined own.new) (lined other.new) a b }
    ensures heard { OnOk result (is_unheard own.new.stage ≡ false) }
    ensures free { is_unheard own.old.stage ≡ false → IsOk result }
    ensures room { OnOk result (is_unheard own.old.stage ≡ true → vec_capacity own.new.begun ≤ 4096) }
    ensures stage { other.new.stage ≡ other.old.stage }
    ensures own { (lined own.new).side.finding ≡ (lined own.old).side.finding }
    ensures other { (lined other.new).side.finding ≡ (lined other.old).side.finding }
{
    if !own.is_unheard() {
        return Ok(());
    }
    other.side.hear(own.begun.as_slice())?;
    give_up(&mut own.begun);
    own.stage = Stage::Between;
    Ok(())
}

/// Each of the two sessions is given what it has not heard yet. After `Err` one of them may have been.
pub(crate) fn hand_over_both(own: &mut Line, other: &mut Line) -> Result<(), AllocError>
    ensures holds { (s t : Seen) (a b : Spoken) → HoldsBoth s t (lined own.old) (lined other.old) a b
        → HoldsBoth s t (lined own.new) (lined other.new) a b }
    ensures own { OnOk result (is_unheard own.new.stage ≡ false) }
    ensures other { OnOk result (is_unheard other.new.stage ≡ false) }
    ensures free { is_unheard own.old.stage ≡ false → is_unheard other.old.stage ≡ false → IsOk result }
    ensures own_finding { (lined own.new).side.finding ≡ (lined own.old).side.finding }
    ensures other_finding { (lined other.new).side.finding ≡ (lined other.old).side.finding }
{
    match hand_over(own, other) {
        Ok(()) => hand_over(other, own),
        Err(refused) => Err(refused),
    }
}

/// A DT of a side passes, in the packet at this offset; the other session has heard all TSDUs before it. `Err` changes
/// nothing.
fn add_heard(own: &mut Line, at: u64, end: bool, octets: &[u8]) -> Result<(), AllocError>
    requires { is_unheard own.old.stage ≡ false }
    ensures ok { OnOk result ((s t : Seen) (other : Lined) (a b : Spoken) → HoldsBoth s t (lined own.old) other a b
        → HoldsBoth s t (lined own.new) other (added at end octets.now a) b) }
    ensures err { OnErr result (lined own.new ≡ lined own.old) }
{
    let since = own.since_first();
    if end {
        return own.end_part(at, octets, since);
    }
    own.add_part(octets, since)
}

/// A DT of a side passes, in the packet at this offset; the other session has heard all TSDUs before it. The TSDU that it may
/// end is handed over: if memory is short, the other session is given it before its next one. `Err` changes nothing.
pub(crate) fn add_last(
    own: &mut Line,
    other: &mut Line,
    at: u64,
    end: bool,
    octets: &[u8],
) -> Result<(), AllocError>
    requires { is_unheard own.old.stage ≡ false }
    ensures ok { OnOk result ((s t : Seen) (a b : Spoken) → HoldsBoth s t (lined own.old) (lined other.old) a b
        → HoldsBoth s t (lined own.new) (lined other.new) (added at end octets.now a) b) }
    ensures err { OnErr result ((s t : Seen) (a b : Spoken) → HoldsBoth s t (lined own.old) (lined other.old) a b
        → HoldsBoth s t (lined own.new) (lined other.new) a b) }
    ensures own { OnErr result ((lined own.new).side.finding ≡ (lined own.old).side.finding) }
    ensures other { (lined other.new).side.finding ≡ (lined other.old).side.finding }
{
    match add_heard(own, at, end, octets) {
        Ok(()) => {
            let _ = hand_over(own, other);
            Ok(())
        }
        Err(refused) => Err(refused),
    }
}
