//! A script that is played as it is written.

use crate::ends::Ends;
use crate::wires::Wire;
use crate::{Halt, other, push_line};
use osi_carrier::{EndReason, Ref};
use osi_pair::{Event, Pair, PairError};
use osi_script::{Command, Side};
use osi_session::Request;
use osi_transcript::asking::{event_of, side_of};
use std::alloc::{AllocError, Global};
use std::mem::replace;

/// The most octets of a script.
pub(crate) const LONGEST: usize = 16_777_216;

/// Room for the last comment.
const ROOM: usize = 256;

/// How often octets are carried both ways until all that waits for credit has left.
const MOST_TURNS: usize = 65_536;

/// The most octets that one line carries.
const MOST: usize = 4_294_967_295;

/// A script, and two ends that do what it says.
pub(crate) struct Player {
    alloc: Global,
    pair: Pair,
    script: Vec<u8>,
    left: Wire,
    right: Wire,
    /// The reference of the current connection, on both sides.
    reference: u16,
    /// The right end refuses a CR.
    refuses: bool,
}

/// Its parts are dropped here, so the proof of whoever owns a player is short.
impl Drop for Player {
    fn drop(self) {
        let Player {
            alloc: _,
            pair: _pair,
            script: _script,
            left: _left,
            right: _right,
            reference: _,
            refuses: _,
        } = self;
    }
}

impl Player {
    /// Two ends, and the line that declares them.
    pub(crate) fn new(alloc: Global, ends: &Ends) -> Result<Player, AllocError> {
        let mut script = Vec::new(alloc);
        let Ends {
            caller,
            called,
            size,
            window,
            refuses,
        } = *ends;
        let line = Command::Ends {
            caller,
            called,
            size,
            window,
        };
        push_line(alloc, &mut script, &line)?;
        Ok(Player {
            alloc,
            pair: Pair::new(
                alloc,
                caller.local(size, window),
                called.local(size, window),
            ),
            script,
            left: Wire::new(alloc),
            right: Wire::new(alloc),
            reference: 0,
            refuses,
        })
    }

    /// Whether the right end refuses a CR.
    pub(crate) fn refuses(&self) -> bool {
        self.refuses
    }

    fn wire(&self, side: Side) -> &Wire {
        match side {
            Side::Left => &self.left,
            Side::Right => &self.right,
        }
    }

    fn wire_mut(&mut self, side: Side) -> &mut Wire {
        match side {
            Side::Left => &mut self.left,
            Side::Right => &mut self.right,
        }
    }

    fn outgoing(&self, side: Side) -> &[u8] {
        self.pair.stack(side_of(side)).outgoing()
    }

    /// How many octets a side has sent.
    fn sent(&self, side: Side) -> usize {
        let waiting = self.outgoing(side).len();
        self.wire(side).carried().saturating_add(waiting)
    }

    /// How many octets of user data of a side wait for credit on the current connection.
    fn unsent(&self, side: Side) -> usize {
        self.pair.stack(side_of(side)).unsent(Ref(self.reference))
    }

    /// How many octets of user data a side has sent on the current connection. Those that wait for credit are counted.
    fn asked(&self, side: Side) -> usize {
        self.wire(side).user().saturating_add(self.unsent(side))
    }

    /// How many TSDUs of the capture the user of a side has sent.
    pub(crate) fn tsdus(&self, side: Side) -> usize {
        self.wire(side).tsdus()
    }

    /// A TSDU of the capture ends with what the user of a side has sent so far.
    pub(crate) fn end_tsdu(&mut self, side: Side) -> Result<(), AllocError> {
        let asked = self.asked(side);
        self.wire_mut(side).mark(asked)
    }

    /// Whether an end has ended because memory ran out.
    fn is_starved(&self) -> bool {
        matches!(
            self.pair.stack(osi_pair::Side::Left).ended(),
            Some(EndReason::NoMemory)
        ) || matches!(
            self.pair.stack(osi_pair::Side::Right).ended(),
            Some(EndReason::NoMemory)
        )
    }

    /// Applies an event to the two ends, and looks at what they send then.
    fn apply(&mut self, event: &Event<'_>) -> Result<(), Halt> {
        match self.pair.apply(event) {
            Ok(applied) if applied.is_cut_short || self.is_starved() => {
                return Err(Halt::OutOfMemory);
            }
            Ok(_) => (),
            Err(PairError::OutOfMemory) => return Err(Halt::OutOfMemory),
            Err(_) => return Err(Halt::NoCall),
        }
        self.look()?;
        Ok(())
    }

    fn look(&mut self) -> Result<(), AllocError> {
        let left = self.pair.stack(osi_pair::Side::Left).outgoing();
        self.left.look(left, self.reference)?;
        let right = self.pair.stack(osi_pair::Side::Right).outgoing();
        self.right.look(right, self.reference)
    }

    /// Writes a line and does what it asks for.
    fn play(&mut self, command: &Command<'_>) -> Result<(), Halt> {
        push_line(self.alloc, &mut self.script, command)?;
        if self.script.len() > LONGEST - ROOM {
            return Err(Halt::TooLong);
        }
        match event_of(*command) {
            Some(event) => self.apply(&event),
            None => Err(Halt::NoCall),
        }
    }

    /// Writes a line that makes a side send something, at once or when the other side gives credit, and does it. An error leaves the
    /// script as it was.
    fn ask(&mut self, side: Side, command: &Command<'_>) -> Result<(), Halt> {
        let length = self.script.len();
        let (sent, asked) = (self.sent(side), self.asked(side));
        let played = self.play(command);
        if played.is_ok() && (self.sent(side) > sent || self.asked(side) > asked) {
            return Ok(());
        }
        self.script.truncate(length);
        played?;
        Err(Halt::NoCall)
    }

    /// The left end asks for another connection. An error leaves the current one as it is.
    pub(crate) fn connect(&mut self, command: &Command<'_>) -> Result<(), Halt> {
        self.ask(Side::Left, command)?;
        self.reference = self.reference.saturating_add(1);
        self.left.begin();
        self.right.begin();
        Ok(())
    }

    /// The user of a side makes a call.
    pub(crate) fn call(&mut self, side: Side, request: Request<'_>) -> Result<(), Halt> {
        let reference = self.reference;
        self.ask(
            side,
            &Command::Call {
                side,
                reference,
                request,
            },
        )
    }

    /// The user of a side sends data. In the capture it passed in TSDUs of which each but the last ended after so many octets of it,
    /// and the last after so many.
    pub(crate) fn send_parts(
        &mut self,
        side: Side,
        user_data: &[u8],
        cuts: &[usize],
        length: usize,
    ) -> Result<(), Halt> {
        let before = self.asked(side);
        self.call(side, Request::Data { user_data })?;
        let is_same = self.asked(side).saturating_sub(before) == length;
        'cuts: for cut in cuts {
            let more = if is_same { *cut } else { 0 };
            self.wire_mut(side).mark(before.saturating_add(more))?;
        }
        Ok(())
    }

    /// Carries what a side has sent up to an octet. Returns whether there was something to carry.
    fn carry_to(&mut self, side: Side, end: usize) -> Result<bool, Halt> {
        let count = end.saturating_sub(self.wire(side).carried());
        if count == 0 {
            return Ok(false);
        }
        let length = self.script.len();
        let octets = count.min(MOST) as u32;
        // What is left to be carried is looked at as soon as the line is played.
        let carried = self.wire(side).carried();
        self.wire_mut(side).carry(end);
        if let Err(halt) = self.play(&Command::Carry { side, octets }) {
            self.wire_mut(side).carry(carried);
            self.script.truncate(length);
            return Err(halt);
        }
        Ok(true)
    }

    /// Carries what a side has sent before the next CR, CC or DT that comes at this octet or after it.
    fn carry_quiet(&mut self, side: Side, octet: usize) -> Result<bool, Halt> {
        let end = self.wire(side).quiet_from(octet, self.outgoing(side));
        self.carry_to(side, end)
    }

    /// Carries what acknowledges the data of both sides and closes the connection, if no data comes before it.
    pub(crate) fn carry_rest(&mut self) -> Result<(), Halt> {
        'turns: for _ in 0..2 {
            self.carry_quiet(Side::Left, 0)?;
            self.carry_quiet(Side::Right, 0)?;
        }
        Ok(())
    }

    /// Carries all that a side has sent. The other side sends something then.
    pub(crate) fn carry_opening(&mut self, side: Side) -> Result<(), Halt> {
        let sent = self.sent(other(side));
        self.carry_to(side, self.sent(side))?;
        if self.sent(other(side)) == sent {
            return Err(Halt::NoCall);
        }
        Ok(())
    }

    /// Carries all that a side has sent. The other side sends user data then, or does not.
    pub(crate) fn carry_all(&mut self, side: Side, answers: bool) -> Result<(), Halt> {
        let asked = self.asked(other(side));
        self.carry_to(side, self.sent(side))?;
        if (self.asked(other(side)) != asked) != answers {
            return Err(Halt::NoCall);
        }
        Ok(())
    }

    /// Whether so many TSDUs of a side have left its end.
    pub(crate) fn has_left(&self, side: Side, count: usize) -> bool {
        self.wire(side).has_left(count)
    }

    /// A side takes so many TSDUs of the capture, and sends something by itself then, or does not. Returns whether it could: the other
    /// side has sent so many, and they have left. If they wait for credit, the other side first takes up to so many TSDUs.
    pub(crate) fn bring(
        &mut self,
        side: Side,
        count: usize,
        answers: bool,
        most: usize,
    ) -> Result<bool, Halt> {
        if self.tsdus(other(side)) < count {
            return Ok(false);
        }
        let (own, others) = (self.asked(side), self.asked(other(side)));
        let has_left = self.relieve(other(side), count, most)?;
        if self.asked(side) != own || self.asked(other(side)) != others {
            return Err(Halt::NoCall);
        }
        if !has_left {
            return Ok(false);
        }
        let end = self.wire(other(side)).end_of(count);
        self.carry_to(other(side), end)?;
        if (self.asked(side) != own) != answers {
            return Err(Halt::NoCall);
        }
        Ok(true)
    }

    /// Carries octets both ways until so many TSDUs of a side have left. The side takes up to so many TSDUs of the other, with what
    /// acknowledges its own. Returns whether they have left.
    fn relieve(&mut self, side: Side, count: usize, most: usize) -> Result<bool, Halt> {
        'turns: for _ in 0..MOST_TURNS {
            if self.wire(side).has_left(count) {
                return Ok(true);
            }
            let end = self.wire(other(side)).end_of(most);
            let has_more = self.carry_quiet(other(side), end)?;
            if self.wire(side).has_left(count) {
                return Ok(true);
            }
            if !self.carry_to(side, self.sent(side))? && !has_more {
                break;
            }
        }
        Ok(false)
    }

    /// Carries octets both ways until nothing waits for credit.
    pub(crate) fn drain(&mut self) -> Result<(), Halt> {
        'turns: for _ in 0..MOST_TURNS {
            if self.unsent(Side::Left) == 0 && self.unsent(Side::Right) == 0 {
                return Ok(());
            }
            let from_left = self.carry_to(Side::Left, self.sent(Side::Left))?;
            let from_right = self.carry_to(Side::Right, self.sent(Side::Right))?;
            if !from_left && !from_right {
                break;
            }
        }
        Err(Halt::NoCall)
    }

    /// Hands the script out.
    pub(crate) fn take_script(&mut self) -> Vec<u8> {
        replace(&mut self.script, Vec::new(self.alloc))
    }
}
