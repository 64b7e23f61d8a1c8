//! The TSDUs of the other side of a connection, in order, without their user data.

ghost use Rattle.std.specs.Prelude.{◌≡◌, ◌<◌, ◌+◌, ◌++◌, ◌∷◌, [], true, false, IfSome, OnOk, OnErr, get_or, length};
ghost use Rattle.osi_side.specs.Keeping.{is_same, once, room_in};
ghost use Rattle.osi_side.specs.Runs.{AreFrom, HasPlace, last_in};

use osi_message::Octets;
use std::alloc::{AllocError, Global};
use std::marker::Model;

/// The room that each TSDU takes beside its octets.
const OF_EACH: usize = 48;

/// Equal TSDUs in a row.
#[derive(Drop)]
struct Run {
    tsdu: Octets,
    /// The place of the first of them.
    from: usize,
}

/// TSDUs in order. Equal ones in a row are kept once.
#[derive(Drop)]
pub(crate) struct Heard {
    runs: Vec<Run>,
    count: usize,
    /// The room that those take that are kept.
    room: usize,
}

impl Model for Heard {
    ghost use Rattle.std.specs.Prelude.{◌≡◌, ℕ, List};

    ghost Value = { List (List ℕ) };

    ghost use Rattle.osi_side.specs.Runs.{room_of, spread, AreApart, AreFrom};

    ghost view = { λ h. spread h.runs.items h.count };

    ghost invariant = { λ h. AreFrom 0 h.runs.items h.count × AreApart h.runs.items × (h.room ≡ room_of h.runs.items) };
}

/// The run that has a place, found by bisection.
fn run_at(runs: &[Run], count: usize, place: usize) -> usize
    requires runs { AreFrom 0 runs.now count }
    requires there { place < count }
    ensures { HasPlace runs.now count place result }
{
    let mut low = 0;
    let mut high = runs.len();
    'halves: while high - low > 1 {
        let middle = low + (high - low) / 2;
        if runs[middle].from <= place {
            low = middle;
        } else {
            high = middle;
        }
    }
    low
}

/// Whether the last run is of this TSDU.
fn ends_with(runs: &[Run], tsdu: &[u8]) -> bool
    ensures some { result ≡ true → 0 < length runs.now }
    ensures same { 0 < length runs.now → result ≡ is_same (last_in runs.now) tsdu.now }
{
    if runs.is_empty() {
        return false;
    }
    runs[runs.len() - 1].tsdu.as_slice() == tsdu
}

/// The room with one TSDU more, if it can be counted.
fn room_with(room: usize, tsdu: &[u8]) -> Option<usize>
    ensures { IfSome result (λ n. n ≡ room + (length tsdu.now + 48)) }
{
    room.checked_add(tsdu.len() + OF_EACH)
}

impl Heard {
    /// No TSDU.
    pub(crate) fn new(alloc: Global) -> Heard
        ensures { result ≡ [] }
    {
        Heard {
            runs: Vec::new(alloc),
            count: 0,
            room: 0,
        }
    }

    /// How many TSDUs there are.
    pub(crate) fn len(&self) -> usize
        ensures { result ≡ length self.now }
    {
        self.count
    }

    /// How many of them are kept: of equal ones in a row only one.
    pub(crate) fn kept(&self) -> usize
        ensures { result ≡ length (once self.now) }
    {
        self.runs.len()
    }

    /// The room that these take: their octets, and 48 more for each.
    pub(crate) fn room(&self) -> usize
        ensures { result ≡ room_in (once self.now) }
    {
        self.room
    }

    /// The TSDU at this place, counted from 0.
    pub(crate) fn at(&self, place: usize) -> &[u8]
        requires { place < length self.now }
        ensures { result.now ≡ get_or self.now place [] }
    {
        let runs = self.runs.as_slice();
        let at = run_at(runs, self.count, place);
        runs[at].tsdu.as_slice()
    }

    /// One more TSDU. `Err` changes nothing.
    pub(crate) fn push(&mut self, tsdu: Octets) -> Result<(), AllocError>
        ensures ok { OnOk result (self.new ≡ self.old ++ tsdu ∷ []) }
        ensures err { OnErr result (self.new ≡ self.old) }
    {
        let from = self.count;
        if from == usize::MAX {
            return Err(AllocError);
        }
        if ends_with(&self.runs, tsdu.as_slice()) {
            self.count = from + 1;
            return Ok(());
        }
        let Some(room) = room_with(self.room, tsdu.as_slice()) else {
            return Err(AllocError);
        };
        self.runs.push(Run { tsdu, from })?;
        self.count = from + 1;
        self.room = room;
        Ok(())
    }

    /// Counts a TSDU once more, if it is the last one again. Says whether it is.
    fn again(&mut self, tsdu: &[u8]) -> bool
        ensures same { result ≡ true → self.new ≡ self.old ++ tsdu.now ∷ [] }
        ensures other { result ≡ false → self.new ≡ self.old }
    {
        let from = self.count;
        if from == usize::MAX {
            return false;
        }
        if !ends_with(&self.runs, tsdu) {
            return false;
        }
        self.count = from + 1;
        true
    }

    /// One more TSDU, of which a copy is kept if it is not the last one again. `Err` changes nothing.
    pub(crate) fn push_copy(&mut self, alloc: Global, tsdu: &[u8]) -> Result<(), AllocError>
        ensures ok { OnOk result (self.new ≡ self.old ++ tsdu.now ∷ []) }
        ensures err { OnErr result (self.new ≡ self.old) }
    {
        if self.again(tsdu) {
            return Ok(());
        }
        let copy = Octets::copy(alloc, tsdu)?;
        self.push(copy)
    }
}
