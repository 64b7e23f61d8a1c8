//! One connection on the byte connection.

ghost use Rattle.std.specs.Prelude.{◌≡◌, true, IfOk, IsOk, OnOk, OnErr};
ghost use Rattle.osi_side.specs.Sides.{observed};
ghost use Rattle.osi_side.specs.Captures.{other};
ghost use Rattle.osi_side.specs.Judging.{IsFound, HasRoom};
ghost use Rattle.osi_side.specs.Outlines.{outlines};
ghost use Rattle.osi_side.specs.Findings.{broke_session};
ghost use Rattle.osi_side.specs.Sides.{begin_of};
ghost use Rattle.osi_tpkt.specs.Stream.{offset_of};
ghost use Rattle.osi_judge.specs.Lines.{told, heard};
ghost use Rattle.osi_judge.specs.Connections.{Joined, asked, packet_begins, opened, shut, adds, adds_all, kept_on, spoken, reference_of};
ghost use Rattle.osi_judge.specs.Outcomes.{SaysSo, violation_of};
ghost use Rattle.osi_judge.specs.Pasts.{HoldsPast};
ghost use Rattle.osi_judge.specs.Rooms.{is_over};
ghost use Rattle.osi_judge.specs.Holding.{lined, line_in, HoldsJoined, IsHeard, IsPlace};

use crate::lines::{Line, add_last, hand_over_both};
use crate::outcomes::{Outcome, Violation, state_of, violation_of};
use crate::pasts::{Ended, Past};
use crate::rooms::Room;
use osi_class::Class;
use osi_side::{Direction, Finding, Side};
use std::alloc::{AllocError, Global};

/// A connection: its references, its class, and the session of each side.
#[derive(Drop)]
pub struct Connection {
    pub(crate) number: usize,
    pub(crate) calling: u16,
    pub(crate) called: Option<u16>,
    pub(crate) class: Option<Class>,
    pub(crate) closed: bool,
    pub(crate) room: Room,
    pub(crate) left: Line,
    pub(crate) right: Line,
}

impl Connection {
    /// A connection that a CR with this reference requests, of which so much may be kept.
    pub(crate) fn new(
        alloc: Global,
        number: usize,
        calling: u16,
        room: Room,
    ) -> Result<Connection, AllocError>
        ensures { IfOk result (λ c. HoldsJoined c (asked number calling room)) }
    {
        let left = Side::caller(alloc)?;
        let right = Side::called(alloc)?;
        Ok(Connection {
            number,
            calling,
            called: None,
            class: None,
            closed: false,
            room,
            left: Line::new(alloc, left),
            right: Line::new(alloc, right),
        })
    }

    /// A packet of a side begins.
    pub(crate) fn begin(&mut self, direction: Direction)
        ensures { (j : Joined) → HoldsJoined self.old j → HoldsJoined self.new (packet_begins direction j) }
    {
        match direction {
            Direction::Left => self.left.begin(&self.right),
            Direction::Right => self.right.begin(&self.left),
        }
    }

    /// A CC opens it.
    pub(crate) fn open(&mut self, called: u16, class: Class)
        ensures holds { (j : Joined) → HoldsJoined self.old j → HoldsJoined self.new (opened called class j) }
        ensures left { self.new.left ≡ self.old.left }
        ensures right { self.new.right ≡ self.old.right }
    {
        self.called = Some(called);
        self.class = Some(class);
    }

    /// A DR or an ER refuses or closes it.
    pub(crate) fn shut(&mut self)
        ensures holds { (j : Joined) → HoldsJoined self.old j → HoldsJoined self.new (shut j) }
        ensures left { self.new.left ≡ self.old.left }
        ensures right { self.new.right ≡ self.old.right }
    {
        self.closed = true;
    }

    /// How much is kept of both sides.
    fn kept(&self) -> usize
        ensures { (j : Joined) → HoldsJoined self.now j → IsHeard self.now → result ≡ offset_of (kept_on j) }
    {
        let left = self.left.kept(&self.right);
        left.saturating_add(self.right.kept(&self.left))
    }

    /// A DT of a side passes, in the packet at this offset: it is judged if there is room for it. `Err` changes nothing but that
    /// the session of a side may have been given what it had not heard yet.
    pub(crate) fn add(
        &mut self,
        direction: Direction,
        at: u64,
        end: bool,
        octets: &[u8],
    ) -> Result<(), AllocError>
        ensures ok { OnOk result ((j : Joined) → HoldsJoined self.old j → HoldsJoined self.new (adds direction at end octets.now j)) }
        ensures err { OnErr result ((j : Joined) → HoldsJoined self.old j → HoldsJoined self.new j) }
        ensures own { OnErr result ((line_in direction self.new).side.finding ≡ (line_in direction self.old).side.finding) }
        ensures other { (line_in (other direction) self.new).side.finding ≡ (line_in (other direction) self.old).side.finding }
        ensures free { is_over self.old.room ≡ true → IsOk result }
    {
        if self.room.is_over() {
            return Ok(());
        }
        match self.hand_over() {
            Ok(()) => self.add_heard(direction, at, end, octets),
            Err(refused) => Err(refused),
        }
    }

    /// A DT of a side passes, and each session has heard all before it. `Err` changes nothing.
    fn add_heard(
        &mut self,
        direction: Direction,
        at: u64,
        end: bool,
        octets: &[u8],
    ) -> Result<(), AllocError>
        requires { IsHeard self.old }
        ensures ok { OnOk result ((j : Joined) → HoldsJoined self.old j → HoldsJoined self.new (adds direction at end octets.now j)) }
        ensures err { OnErr result ((j : Joined) → HoldsJoined self.old j → HoldsJoined self.new j) }
        ensures own { OnErr result ((line_in direction self.new).side.finding ≡ (line_in direction self.old).side.finding) }
        ensures other { (line_in (other direction) self.new).side.finding ≡ (line_in (other direction) self.old).side.finding }
    {
        let kept = self.kept();
        if !self.room.fits(kept, octets.len()) {
            self.room = Room::Over;
            return Ok(());
        }
        self.add_all(direction, at, end, octets)
    }

    /// A DT of a side passes, for which there is room, and each session has heard all before it. `Err` changes nothing.
    fn add_all(
        &mut self,
        direction: Direction,
        at: u64,
        end: bool,
        octets: &[u8],
    ) -> Result<(), AllocError>
        requires { IsHeard self.old }
        ensures ok { OnOk result ((j : Joined) → HoldsJoined self.old j → HoldsJoined self.new (adds_all direction at end octets.now j)) }
        ensures err { OnErr result ((j : Joined) → HoldsJoined self.old j → HoldsJoined self.new j) }
        ensures own { OnErr result ((line_in direction self.new).side.finding ≡ (line_in direction self.old).side.finding) }
        ensures other { (line_in (other direction) self.new).side.finding ≡ (line_in (other direction) self.old).side.finding }
    {
        match direction {
            Direction::Left => add_last(&mut self.left, &mut self.right, at, end, octets),
            Direction::Right => add_last(&mut self.right, &mut self.left, at, end, octets),
        }
    }

    /// The session of each side is given what it has not heard yet. After `Err` one of them may have been.
    pub(crate) fn hand_over(&mut self) -> Result<(), AllocError>
        ensures holds { (j : Joined) → HoldsJoined self.old j → HoldsJoined self.new j }
        ensures heard { OnOk result (IsHeard self.new) }
        ensures free { IsHeard self.old → IsOk result }
        ensures left { (lined self.new.left).side.finding ≡ (lined self.old.left).side.finding }
        ensures right { (lined self.new.right).side.finding ≡ (lined self.old.right).side.finding }
    {
        hand_over_both(&mut self.left, &mut self.right)
    }

    fn line(&self, direction: Direction) -> &Line
        ensures { lined result.now ≡ line_in direction self.now }
    {
        match direction {
            Direction::Left => &self.left,
            Direction::Right => &self.right,
        }
    }

    /// Its place in the order of the CRs, counted from 0.
    pub fn number(&self) -> usize
        ensures { (j : Joined) → HoldsJoined self.now j → result ≡ j.number }
    {
        self.number
    }

    /// The reference that a side gave it: that of its CR or CC.
    pub fn reference(&self, direction: Direction) -> Option<u16>
        ensures { (j : Joined) → HoldsJoined self.now j → result ≡ reference_of direction j }
    {
        match direction {
            Direction::Left => Some(self.calling),
            Direction::Right => self.called,
        }
    }

    /// The class that its CC selects; `None` if it was not accepted.
    pub fn class(&self) -> Option<Class>
        ensures { (j : Joined) → HoldsJoined self.now j → result ≡ j.class }
    {
        self.class
    }

    /// Whether a DR or an ER passed that refuses it or closes it.
    pub fn is_closed(&self) -> bool
        ensures { (j : Joined) → HoldsJoined self.now j → result ≡ j.closed }
    {
        self.closed
    }

    /// Whether there was no room for a DT on it ([`crate::Judge::within`]): then what both sides sent from that DT on is not judged,
    /// and what was found of them is of what they had sent before.
    pub fn is_over(&self) -> bool
        ensures { (j : Joined) → HoldsJoined self.now j → result ≡ is_over j.room }
    {
        self.room.is_over()
    }

    /// The session of a side. Once [`crate::Judge::settle`] has said `Ok`, it has heard all that the other side said.
    pub fn side(&self, direction: Direction) -> &Side
        ensures value { observed result.now ≡ (line_in direction self.now).side }
        ensures heard { (j : Joined) → HoldsJoined self.now j → IsHeard self.now
            → (observed result.now).heard ≡ outlines (heard (spoken (other direction) j)) }
    {
        &self.line(direction).side
    }

    /// What was found of the session of a side, by what both sides sent. [`Finding::TooMany`] means that it is not judged any
    /// further: it kept the protocol up to one of its TSDUs and with it, and then more than 4,096 sessions explained it.
    /// That stays, and it is no break.
    pub fn finding(&self, direction: Direction) -> Finding
        ensures value { result ≡ (line_in direction self.now).side.finding }
        ensures found { (j : Joined) → HoldsJoined self.now j
            → IsFound (begin_of direction) (heard (spoken (other direction) j)) (told (spoken direction j)) result }
        ensures room { (j : Joined) → HoldsJoined self.now j
            → HasRoom (begin_of direction) (heard (spoken (other direction) j)) (told (spoken direction j)) result }
    {
        self.side(direction).finding()
    }

    /// Where the session of a side broke the protocol or left the profile: the offset, in its direction, of the packet in
    /// which that TSDU ended. Of a side that did neither it says nothing.
    pub fn offset(&self, direction: Direction) -> u64
        ensures { (j : Joined) → HoldsJoined self.now j
            → IsPlace (line_in direction self.now).side.finding (spoken direction j).said result }
    {
        self.line(direction).last
    }

    /// How the session of a side broke the protocol or left the profile. It has no meaning for a side that did neither.
    pub fn violation(&self, direction: Direction) -> Violation
        ensures { result ≡ violation_of (line_in direction self.now).side.by }
    {
        violation_of(&self.side(direction).by())
    }

    /// What was found of the session of a side that kept the protocol, and how it stands.
    fn kept_outcome(&self, direction: Direction) -> Result<Outcome, AllocError>
        requires { (line_in direction self.now).side.finding ≡ Finding.Kept }
        ensures { IfOk result (λ o. (j : Joined) → HoldsJoined self.now j → SaysSo direction j (line_in direction self.now).side o) }
    {
        let side = self.side(direction);
        let stands = side.stands()?;
        Ok(Outcome::Kept(side.told(), state_of(&stands.standing), stands.owes))
    }

    /// What was found of the session of a side, by all that it sent and what it has heard.
    pub fn outcome(&self, direction: Direction) -> Result<Outcome, AllocError>
        ensures { IfOk result (λ o. (j : Joined) → HoldsJoined self.now j → SaysSo direction j (line_in direction self.now).side o) }
    {
        let offset = self.offset(direction);
        match self.finding(direction) {
            Finding::Kept => self.kept_outcome(direction),
            Finding::Broke(_) => Ok(Outcome::Broke(offset, self.violation(direction))),
            Finding::Left(_) => Ok(Outcome::Left(offset, self.violation(direction))),
            Finding::TooMany => Ok(Outcome::TooMany),
        }
    }

    /// What is kept of it once it is over and each session has heard all.
    fn past(&self, alloc: Global) -> Result<Past, AllocError>
        requires { IsHeard self.now }
        ensures { IfOk result (λ p. (j : Joined) → HoldsJoined self.now j → HoldsPast p j) }
    {
        let left = self.outcome(Direction::Left)?;
        let right = self.outcome(Direction::Right)?;
        let left = Ended::new(alloc, left)?;
        let right = Ended::new(alloc, right)?;
        Ok(Past {
            number: self.number,
            calling: self.calling,
            called: self.called,
            class: self.class,
            closed: self.closed,
            over: self.room.is_over(),
            left,
            right,
        })
    }

    /// What is kept of it once it is over. The session of each side is given what it has not heard yet; after `Err` one of them may
    /// have been.
    pub(crate) fn sum_up(&mut self, alloc: Global) -> Result<Past, AllocError>
        ensures holds { (j : Joined) → HoldsJoined self.old j → HoldsJoined self.new j }
        ensures past { IfOk result (λ p. (j : Joined) → HoldsJoined self.old j → HoldsPast p j) }
    {
        self.hand_over()?;
        self.past(alloc)
    }

    /// Whether the session of a side broke the protocol or left the profile.
    pub(crate) fn has_broken(&self, direction: Direction) -> bool
        ensures { result ≡ broke_session (line_in direction self.now).side.finding }
    {
        match self.finding(direction) {
            Finding::Broke(_) | Finding::Left(_) => true,
            Finding::Kept | Finding::TooMany => false,
        }
    }
}
