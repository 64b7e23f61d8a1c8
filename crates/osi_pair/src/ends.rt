//! Two ends, and the effect of an event on them.

use crate::asking::{call, connect};
use crate::breaking::tell_break;
use crate::carrying::carry;
use crate::entries::Entry;
use crate::events::{Applied, DONE, Event};
use crate::faults::PairError;
use crate::reach::{Reach, reach_after, within};
use crate::sides::Side;
use osi_carrier::Ref;
use osi_class::Local;
use osi_session::Request;
use osi_stack::{Connect, Stack};
use std::alloc::Global;

/// Two ends, how many octets still arrive once the byte connection is broken, and the journal; without their invariant.
#[derive(Drop)]
pub(crate) struct Ends {
    alloc: Global,
    pub(crate) left: Stack,
    pub(crate) right: Stack,
    reach: Option<Reach>,
    pub(crate) journal: Vec<Entry>,
}

impl Ends {
    ghost use Rattle.std.specs.Prelude.{◌≡◌, ◌+◌, ◌<◌, ◌≤◌, ◌⊎◌, None, true, false, not, length, min, is_some, vec_capacity, IfOk, IfErr};
    ghost use Rattle.std.specs.Prelude.{OnOk, OnErr, IsOk};
    ghost use Rattle.osi_session.specs.Calls.{called_by};
    ghost use Rattle.osi_stack.specs.State.{waits};
    ghost use Rattle.osi_pair.specs.Carrying.{CarriesFrom, IsHeldUp, crossing};
    ghost use Rattle.osi_pair.specs.Ends.{fresh_ends, end_at, after_connect, after_call, after_break, sent_by, reachable};
    ghost use Rattle.osi_pair.specs.Events.{misfit, misfit_told, error_by_rule, WantsMemory, TellsBreak, Does, CarriesWhereQuiet, Moves};
    ghost use Rattle.osi_pair.specs.Events.{NotesWhereQuiet, IsFullWhereQuiet};
    ghost use Rattle.osi_pair.specs.Memory.{ends_in, pairing_in};
    ghost use Rattle.osi_pair.specs.Pairings.{IsFull};
    ghost use Rattle.osi_pair.specs.Sides.{other};

    /// Two fresh ends.
    pub(crate) fn new(alloc: Global, left: Local, right: Local) -> Self
        ensures { ends_in result ≡ fresh_ends left right }
    {
        Ends {
            alloc,
            left: Stack::caller(alloc, left),
            right: Stack::called(alloc, right),
            reach: None,
            journal: Vec::new(alloc),
        }
    }

    /// Makes room in the journal for this many more entries.
    pub(crate) fn reserve(&mut self, entries: usize) -> Result<(), PairError>
        ensures memory { IfErr result (λ error. error ≡ PairError.OutOfMemory) }
        ensures same { ends_in self.new ≡ ends_in self.old }
        ensures ok { OnOk result (length (ends_in self.new).journal + entries ≤ vec_capacity self.new.journal) }
        ensures needed { OnErr result (vec_capacity self.old.journal < length (ends_in self.old).journal + entries) }
        ensures capacity { vec_capacity self.old.journal ≤ vec_capacity self.new.journal }
        ensures none { entries ≡ 0 → IsOk result }
    {
        match self.journal.reserve(entries) {
            Ok(()) => Ok(()),
            Err(_) => Err(PairError::OutOfMemory),
        }
    }

    fn connect(&mut self, asked: &Connect) -> Result<(), PairError>
        ensures ok { OnOk result (ends_in self.new ≡ after_connect asked.now (ends_in self.old)) }
        ensures memory { IfErr result (λ error. error ≡ PairError.OutOfMemory) }
        ensures err { OnErr result (ends_in self.new ≡ ends_in self.old) }
        ensures capacity { vec_capacity self.old.journal ≤ vec_capacity self.new.journal }
    {
        connect(self.alloc, &mut self.left, asked, &mut self.journal)?;
        Ok(())
    }

    fn call(&mut self, side: Side, reference: Ref, request: Request) -> Result<(), PairError>
        ensures ok { OnOk result (ends_in self.new ≡ after_call side reference.0 (called_by request.entry) (ends_in self.old)) }
        ensures memory { IfErr result (λ error. error ≡ PairError.OutOfMemory) }
        ensures err { OnErr result (ends_in self.new ≡ ends_in self.old) }
        ensures capacity { vec_capacity self.old.journal ≤ vec_capacity self.new.journal }
    {
        let journal = &mut self.journal;
        match side {
            Side::Left => call(
                self.alloc,
                side,
                &mut self.left,
                reference,
                request,
                journal,
            )?,
            Side::Right => call(
                self.alloc,
                side,
                &mut self.right,
                reference,
                request,
                journal,
            )?,
        }
        Ok(())
    }

    /// How many octets of a side can be carried.
    fn reachable(&self, side: Side) -> usize
        ensures value { result ≡ reachable side (ends_in self.now) }
        ensures at_most { result ≤ sent_by side (ends_in self.now) }
    {
        match side {
            Side::Left => within(self.reach, side, self.left.outgoing().len()),
            Side::Right => within(self.reach, side, self.right.outgoing().len()),
        }
    }

    fn carry(&mut self, side: Side, octets: usize) -> Result<Applied, PairError>
        ensures ok { IfOk result (λ applied. CarriesFrom side octets (ends_in self.old) applied.carried (ends_in self.new)) }
        ensures moves { IfOk result (λ applied. Moves (not (waits (end_at (other side) (ends_in self.old)).end.lines))
            (min octets (reachable side (ends_in self.old))) applied) }
        ensures cut { IfOk result (λ applied. applied.is_cut_short ≡ true →
            (length (ends_in self.old).journal < length (ends_in self.new).journal)
            ⊎ IsHeldUp (other side) (min octets (reachable side (ends_in self.old))) (crossing side (ends_in self.old))) }
        ensures full { IfOk result (λ applied. applied.is_cut_short ≡ true → IsFull (pairing_in self.new)
            ⊎ IsHeldUp (other side) (min octets (reachable side (ends_in self.old))) (crossing side (ends_in self.old))) }
        ensures memory { IfErr result (λ error. error ≡ PairError.OutOfMemory) }
        ensures some { OnErr result (0 < min octets (reachable side (ends_in self.old))) }
        ensures err { OnErr result (ends_in self.new ≡ ends_in self.old) }
        ensures capacity { vec_capacity self.old.journal ≤ vec_capacity self.new.journal }
    {
        let most = octets.min(self.reachable(side));
        let journal = &mut self.journal;
        match side {
            Side::Left => {
                let applied = carry(Side::Right, &mut self.left, &mut self.right, most, journal)?;
                self.reach = reach_after(side, applied.carried, self.reach);
                Ok(applied)
            }
            Side::Right => {
                let applied = carry(Side::Left, &mut self.right, &mut self.left, most, journal)?;
                self.reach = reach_after(side, applied.carried, self.reach);
                Ok(applied)
            }
        }
    }

    fn break_off(&mut self, left: usize, right: usize) -> Result<(), PairError>
        ensures ok { OnOk result (ends_in self.new ≡ after_break left right (ends_in self.old)) }
        ensures first { OnOk result (is_some self.old.reach ≡ false) }
        ensures refused { IfErr result (λ error. (error ≡ PairError.AlreadyBroken) × (is_some self.old.reach ≡ true)) }
        ensures err { OnErr result (ends_in self.new ≡ ends_in self.old) }
        ensures capacity { vec_capacity self.old.journal ≤ vec_capacity self.new.journal }
    {
        if self.reach.is_some() {
            return Err(PairError::AlreadyBroken);
        }
        self.reach = Some(Reach {
            left: left.min(self.left.outgoing().len()),
            right: right.min(self.right.outgoing().len()),
        });
        Ok(())
    }

    fn tell(&mut self, side: Side) -> Result<(), PairError>
        ensures ok { OnOk result (TellsBreak side (ends_in self.old) (ends_in self.new)) }
        ensures broken { OnOk result (is_some self.old.reach ≡ true) }
        ensures refused { IfErr result (λ error. error_by_rule error ≡ misfit_told self.old.reach) }
        ensures lasts { IfErr result (λ error. error ≡ PairError.OutOfMemory → (end_at side (ends_in self.old)).end.carrier.ended ≡ None) }
        ensures err { OnErr result (ends_in self.new ≡ ends_in self.old) }
        ensures capacity { vec_capacity self.old.journal ≤ vec_capacity self.new.journal }
    {
        if self.reach.is_none() {
            return Err(PairError::NotBroken);
        }
        let journal = &mut self.journal;
        match side {
            Side::Left => tell_break(side, &mut self.left, journal),
            Side::Right => tell_break(side, &mut self.right, journal),
        }
    }

    /// Applies an event, and returns how many octets were carried.
    pub(crate) fn apply(&mut self, event: &Event) -> Result<Applied, PairError>
        ensures does { IfOk result (λ applied. Does event.now (ends_in self.old) applied.carried (ends_in self.new)) }
        ensures fits { OnOk result (misfit event.now (ends_in self.old) ≡ None) }
        ensures refused { IfErr result (λ error. error_by_rule error ≡ misfit event.now (ends_in self.old)) }
        ensures needed { IfErr result (λ error. error ≡ PairError.OutOfMemory → WantsMemory event.now (ends_in self.old)) }
        ensures err { OnErr result (ends_in self.new ≡ ends_in self.old) }
        ensures capacity { vec_capacity self.old.journal ≤ vec_capacity self.new.journal }
        ensures carried { IfOk result (λ applied. CarriesWhereQuiet event.now (ends_in self.old) applied) }
        ensures cut { IfOk result (λ applied. NotesWhereQuiet event.now (ends_in self.old) applied (ends_in self.new)) }
        ensures full { IfOk result (λ applied. IsFullWhereQuiet event.now (ends_in self.old) applied (pairing_in self.new)) }
    {
        match *event {
            Event::Connect(asked) => {
                self.connect(&asked)?;
                Ok(DONE)
            }
            Event::Call(side, reference, request) => {
                self.call(side, reference, request)?;
                Ok(DONE)
            }
            Event::Carry(side, octets) => self.carry(side, octets),
            Event::Break(left, right) => {
                self.break_off(left, right)?;
                Ok(DONE)
            }
            Event::Told(side) => {
                self.tell(side)?;
                Ok(DONE)
            }
        }
    }
}
