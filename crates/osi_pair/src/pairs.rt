//! Two ends of one byte connection, and the promises about them.

ghost use Rattle.std.specs.Prelude.{◌≡◌, ◌||◌};

use crate::ends::Ends;
use crate::entries::Entry;
use crate::events::{Applied, Event};
use crate::faults::{PairError, RunError};
use crate::octets::can_happen;
use crate::promises::what_two_ends_tell;
use crate::sides::Side;
use crate::standing::{how_two_ends_are_called, how_two_ends_carry, how_two_ends_stand};
use osi_class::Local;
use osi_stack::Stack;
use std::alloc::Global;
use std::marker::Model;

/// Whether one of them holds.
fn either(one: bool, other: bool) -> bool
    ensures { result ≡ (one || other) }
{
    one || other
}

/// Two ends of one byte connection, the left one a caller, and the journal of what their users asked for and received.
pub struct Pair {
    ends: Ends,
}

/// Its parts are dropped here, so the proof of a caller that owns two ends is short.
impl Drop for Pair {
    fn drop(self) {
        let Pair { ends: _ends } = self;
    }
}

impl Model for Pair {
    ghost use Rattle.osi_pair.specs.Pairings.{Pairing};

    ghost Value = { Pairing };

    ghost use Rattle.osi_pair.specs.Memory.{ends_in, pairing_in};
    ghost use Rattle.osi_pair.specs.Reached.{IsReached};

    ghost view = { λ p. pairing_in p.ends };

    ghost invariant = { λ p. IsReached (ends_in p.ends) };
}

impl Pair {
    ghost use Rattle.std.specs.Prelude.{◌≡◌, ◌+◌, ◌<◌, ◌≤◌, Bool, List, [], None, length, map, IfOk, IfErr, OnOk, OnErr, IsOk};
    ghost use Rattle.osi_machine.specs.Machine.{Step};
    ghost use Rattle.osi_pair.specs.Advancing.{StandsAfter};
    ghost use Rattle.osi_pair.specs.Ends.{fresh_ends, end_at};
    ghost use Rattle.osi_pair.specs.Entries.{entry_by};
    ghost use Rattle.osi_pair.specs.Events.{misfit, error_by_rule, WantsMemory, Does, CarriesAsMuch, NotesIfCutShort, Adds};
    ghost use Rattle.osi_pair.specs.Events.{IsFullIfCutShort};
    ghost use Rattle.osi_pair.specs.Promises.{AgreeUnlessDuplex, AllWereAskedFor, ConfirmedIsSeen, EndsForFewReasons, HasNoFault};
    ghost use Rattle.osi_pair.specs.Promises.{HaveOneHolder, IsLegalJournal, IsSafe, IsShownAsAsked, LoseAsTheyEnd};
    ghost use Rattle.osi_pair.specs.Promises.{OfEachConnection, TakeWhatWasSent};
    ghost use Rattle.osi_pair.specs.Reached.{IsReached};
    ghost use Rattle.osi_pair.specs.Running.{RunsThrough, StopsAt};
    ghost use Rattle.osi_pair.specs.Standing.{StandsAt};

    /// Two fresh ends.
    pub fn new(alloc: Global, left: Local, right: Local) -> Self
        ensures value { result.ends ≡ fresh_ends left right }
        ensures stands { StandsAt result.ends [] }
        ensures safe { IsSafe result.ends }
    {
        how_two_ends_stand();
        what_two_ends_tell();
        Pair {
            ends: Ends::new(alloc, left, right),
        }
    }

    /// How many entries the journal has memory for, those that it holds included.
    pub fn capacity(&self) -> usize
        ensures { result ≡ self.now.capacity }
    {
        self.ends.journal.capacity()
    }

    /// Makes room in the journal for this many more entries; if there is room for them, nothing is allocated. Neither
    /// success nor an error changes anything else.
    ///
    /// An event makes the room that it needs. If you know how many entries will come, this call saves the journal from
    /// growing with them. A carry is cut short only if fewer than 82 of them are left.
    pub fn reserve(&mut self, entries: usize) -> Result<(), PairError>
        ensures memory { IfErr result (λ error. error ≡ PairError.OutOfMemory) }
        ensures same { self.new.ends ≡ self.old.ends }
        ensures ok { OnOk result (length self.new.ends.journal + entries ≤ self.new.capacity) }
        ensures needed { OnErr result (self.old.capacity < length self.old.ends.journal + entries) }
        ensures capacity { self.old.capacity ≤ self.new.capacity }
        ensures none { entries ≡ 0 → IsOk result }
    {
        self.ends.reserve(entries)
    }

    /// The invariant of two ends between any two calls. The function does nothing.
    fn is_safe(&self)
        ensures reached { IsReached self.now.ends }
        ensures safe { IsSafe self.now.ends }
    {
        what_two_ends_tell();
        // For the proof: looking at the ends gives the invariant of their type.
        let _ends = &self.ends;
    }

    /// Applies an event. An error changes nothing but the memory that the journal has. An allocation can fail only if the
    /// journal gets an entry, or octets are carried.
    ///
    /// Octets that a side has sent and the other has not been fed are in flight. An [`Event::Carry`] carries the first
    /// of them, and the users of the other end receive the indications that these cause. If memory runs out for the
    /// entries that more octets may cause, the carry is cut short, as [`Applied`] tells. That is so only after it has
    /// noted something, and only if the journal is left without room for 82 more entries: as many as one packet may
    /// cause. The journal keeps the memory that it has. After an [`Event::Break`] only the octets that it leaves can be
    /// carried, and an [`Event::Told`] ends an end that has not ended.
    ///
    /// If the two ends matched a list of steps of the machine, they match that list followed by the steps of this
    /// event. The steps of a carry are the deliveries of what arrived, and the end of the other side if it ran out of
    /// memory. So whatever happens to two ends, their journal is an execution of the machine, and [`IsSafe`] holds of
    /// them.
    ///
    /// [`IsSafe`]: ../specs/Promises.antt
    #[tactic(auto, using(crate::proofs::event::the_journal_only_grows::does_add))]
    pub fn apply(&mut self, event: &Event) -> Result<Applied, PairError>
        ensures does { IfOk result (λ applied. Does event.now self.old.ends applied.carried self.new.ends) }
        ensures carried { IfOk result (λ applied. CarriesAsMuch event.now self.old.ends applied) }
        ensures cut { IfOk result (λ applied. NotesIfCutShort self.old.ends applied self.new.ends) }
        ensures full { IfOk result (λ applied. IsFullIfCutShort applied self.new) }
        ensures capacity { self.old.capacity ≤ self.new.capacity }
        ensures fits { OnOk result (misfit event.now self.old.ends ≡ None) }
        ensures refused { IfErr result (λ error. error_by_rule error ≡ misfit event.now self.old.ends) }
        ensures needed { IfErr result (λ error. error ≡ PairError.OutOfMemory → WantsMemory event.now self.old.ends) }
        ensures err { OnErr result (self.new.ends ≡ self.old.ends) }
        ensures journal { OnOk result (Adds self.old.ends.journal self.new.ends.journal) }
        ensures stands { OnOk result ((steps : List Step) → StandsAt self.old.ends steps →
            StandsAfter event.now self.old.ends self.new.ends steps) }
        ensures safe { IsSafe self.new.ends }
    {
        can_happen(event);
        how_two_ends_stand();
        how_two_ends_are_called();
        how_two_ends_carry();
        what_two_ends_tell();
        self.ends.apply(event)
    }

    /// Applies events one after the other, up to the first that is refused.
    ///
    /// Each event does what [`Pair::apply`] says. So if the two ends matched a list of steps of the machine, they match
    /// that list followed by the steps of all events. An error gives the place of the refused event, counted from 0,
    /// and the reason; the events before it have been applied.
    ///
    /// [`Pair::run_telling_cuts`] does the same, and returns whether a carry among the events was cut short. None is if
    /// the journal has room for as many entries as the events cause, and for 82 more ([`Pair::reserve`]).
    pub fn run(&mut self, events: &[Event]) -> Result<(), RunError>
        ensures all { OnOk result ((is_cut : Bool) × RunsThrough events.now self.old is_cut self.new) }
        ensures stops { IfErr result (λ error. StopsAt events.now self.old error self.new) }
        ensures safe { IsSafe self.new.ends }
    {
        match self.run_telling_cuts(events) {
            Ok(_is_cut_short) => Ok(()),
            Err(error) => Err(error),
        }
    }

    /// Does what [`Pair::run`] does, and returns whether a carry among the events was cut short.
    pub fn run_telling_cuts(&mut self, events: &[Event]) -> Result<bool, RunError>
        ensures all { IfOk result (λ is_cut. RunsThrough events.now self.old is_cut self.new) }
        ensures stops { IfErr result (λ error. StopsAt events.now self.old error self.new) }
        ensures safe { IsSafe self.new.ends }
    {
        let mut is_cut_short = false;
        'events: for (place, event) in events.iter().enumerate() {
            match self.apply(event) {
                Ok(applied) => is_cut_short = either(is_cut_short, applied.is_cut_short),
                Err(error) => return Err(RunError { place, error }),
            }
        }
        self.is_safe();
        Ok(is_cut_short)
    }

    /// What the users asked for, how they were answered and what they received, the oldest entry first.
    pub fn journal(&self) -> &[Entry]
        ensures value { map entry_by result.now ≡ self.now.ends.journal }
        ensures legal_journal { IsLegalJournal self.now.ends }
        ensures asked { AllWereAskedFor self.now.ends }
        ensures agreement { OfEachConnection AgreeUnlessDuplex self.now.ends }
        ensures duplex { OfEachConnection IsShownAsAsked self.now.ends }
        ensures no_fault { HasNoFault self.now.ends }
        ensures losses { LoseAsTheyEnd self.now.ends }
    {
        self.is_safe();
        self.ends.journal.as_slice()
    }

    /// The end of a side.
    pub fn stack(&self, side: Side) -> &Stack
        ensures value { result.now ≡ end_at side self.now.ends }
        ensures reached { IsReached self.now.ends }
        ensures one_holder { HaveOneHolder self.now.ends }
        ensures confirmed_is_seen { OfEachConnection (ConfirmedIsSeen self.now.ends) self.now.ends }
        ensures ends { EndsForFewReasons self.now.ends }
        ensures taken { TakeWhatWasSent self.now.ends }
    {
        self.is_safe();
        match side {
            Side::Left => &self.ends.left,
            Side::Right => &self.ends.right,
        }
    }
}
