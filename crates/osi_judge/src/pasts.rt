//! What is left of a connection that is over and whose place was given to another.

ghost use Rattle.std.specs.Prelude.{◌≡◌, IfOk};
ghost use Rattle.osi_judge.specs.Connections.{Joined, reference_of};
ghost use Rattle.osi_judge.specs.Outcomes.{IsOutcomeOf};
ghost use Rattle.osi_judge.specs.Pasts.{HoldsPast, outcome_in, outcome_of};
ghost use Rattle.osi_judge.specs.Rooms.{is_over};

use crate::outcomes::{Outcome, SessionState, Violation};
use osi_class::Class;
use osi_session::Reply;
use osi_side::Direction;
use std::alloc::{AllocError, Global};

/// An outcome, as it is kept: a break has memory of its own, since few sides have one.
#[derive(Drop)]
pub(crate) enum Ended {
    Kept(usize, SessionState, Option<Reply>),
    Broke(u64, Box<Violation>),
    Left(u64, Box<Violation>),
    TooMany,
}

/// A connection that is over and whose place another has: what is told of it, and nothing of what passed.
#[derive(Drop)]
pub struct Past {
    pub(crate) number: usize,
    pub(crate) calling: u16,
    pub(crate) called: Option<u16>,
    pub(crate) class: Option<Class>,
    pub(crate) closed: bool,
    pub(crate) over: bool,
    pub(crate) left: Ended,
    pub(crate) right: Ended,
}

/// A violation in memory of its own.
fn boxed(alloc: Global, by: Violation) -> Result<Box<Violation>, AllocError>
    ensures { IfOk result (λ b. b.value ≡ by) }
{
    match Box::new(alloc, by) {
        Ok(boxed) => Ok(boxed),
        Err(_) => Err(AllocError),
    }
}

impl Ended {
    pub(crate) fn new(alloc: Global, outcome: Outcome) -> Result<Ended, AllocError>
        ensures { IfOk result (λ e. outcome_of e ≡ outcome) }
    {
        match outcome {
            Outcome::Kept(tsdus, state, owes) => Ok(Ended::Kept(tsdus, state, owes)),
            Outcome::Broke(offset, by) => Ok(Ended::Broke(offset, boxed(alloc, by)?)),
            Outcome::Left(offset, by) => Ok(Ended::Left(offset, boxed(alloc, by)?)),
            Outcome::TooMany => Ok(Ended::TooMany),
        }
    }

    fn outcome(&self) -> Outcome
        ensures { result ≡ outcome_of self.now }
    {
        match self {
            Ended::Kept(tsdus, state, owes) => Outcome::Kept(*tsdus, *state, *owes),
            Ended::Broke(offset, by) => Outcome::Broke(*offset, **by),
            Ended::Left(offset, by) => Outcome::Left(*offset, **by),
            Ended::TooMany => Outcome::TooMany,
        }
    }
}

impl Past {
    /// Its place in the order of the CRs, counted from 0.
    pub fn number(&self) -> usize
        ensures { (j : Joined) → HoldsPast self.now j → result ≡ j.number }
    {
        self.number
    }

    /// The reference that a side gave it: that of its CR or CC.
    pub fn reference(&self, direction: Direction) -> Option<u16>
        ensures { (j : Joined) → HoldsPast self.now j → result ≡ reference_of direction j }
    {
        match direction {
            Direction::Left => Some(self.calling),
            Direction::Right => self.called,
        }
    }

    /// The class that its CC selects; `None` if it was not accepted.
    pub fn class(&self) -> Option<Class>
        ensures { (j : Joined) → HoldsPast self.now j → result ≡ j.class }
    {
        self.class
    }

    /// Whether a DR or an ER passed that refuses it or closes it.
    pub fn is_closed(&self) -> bool
        ensures { (j : Joined) → HoldsPast self.now j → result ≡ j.closed }
    {
        self.closed
    }

    /// Whether there was no room for a DT on it: see [`crate::Connection::is_over`].
    pub fn is_over(&self) -> bool
        ensures { (j : Joined) → HoldsPast self.now j → result ≡ is_over j.room }
    {
        self.over
    }

    /// What was found of the session of a side, by all that both sides sent.
    pub fn outcome(&self, direction: Direction) -> Outcome
        ensures value { result ≡ outcome_in direction self.now }
        ensures found { (j : Joined) → HoldsPast self.now j → IsOutcomeOf direction j result }
    {
        match direction {
            Direction::Left => self.left.outcome(),
            Direction::Right => self.right.outcome(),
        }
    }
}
