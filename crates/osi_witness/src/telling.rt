//! The runs of both sides of a connection as a part of a script.

use crate::players::Player;
use crate::{
    Asking, Conversation, Halt, Offer, Place, Said, Stop, Stream, acting_unit, asked_by,
    has_no_effect, hears, is_before, other, request_of, selected_by,
};
use bitflags::Flags;
use osi_message::{Message, Place as Part};
use osi_script::{Command, Side};
use osi_session::Standing;
use osi_spdu::{Requirements, Serial, Spdu, TokenSetting, TsduSizes, Wish};
use std::alloc::{AllocError, Global};

/// Both runs of a connection, how far they were told, and the player that they are told to.
#[derive(Drop)]
pub(crate) struct Telling<'c, 'p> {
    alloc: Global,
    conversation: &'c Conversation,
    /// Nothing is told from here on.
    bound: Option<Stop>,
    /// How many units of each side were told.
    told_left: usize,
    told_right: usize,
    offer: Offer,
    player: &'p mut Player,
}

/// A connect whose CN is not known.
fn any_asking() -> Asking<'static> {
    Asking {
        requirements: Requirements::from_bits_retain(0x00B9),
        serial: Serial { number: 1 },
        wishes: TokenSetting {
            data_token: Wish::Asker,
            minor: Wish::Asker,
            major: Wish::Asker,
            release: Wish::Asker,
        },
        sizes: TsduSizes::NONE,
        user_data: &[],
    }
}

/// A unit of a run.
fn unit_of<'c>(stream: &'c Stream, said: &Said) -> Option<Spdu<'c>> {
    acting_unit(stream.tsdu(said.tsdu), said.place)
}

/// The message of a side that comes first.
fn first_message(stream: &Stream) -> Option<Message<'_>> {
    let said = stream.said.first()?;
    let unit = unit_of(stream, said)?;
    Some(Message::of(&unit))
}

/// Data in parts that was joined.
#[derive(Drop)]
struct Joined {
    octets: Vec<u8>,
    /// After how many octets of its TSDUs each of them ended but the last.
    cuts: Vec<usize>,
    /// How many octets they had, and how many units of the side were sent up to the last of them.
    length: usize,
    units: usize,
}

impl Joined {
    fn new(alloc: Global) -> Joined {
        Joined {
            octets: Vec::new(alloc),
            cuts: Vec::new(alloc),
            length: 0,
            units: 0,
        }
    }

    /// The next unit of the side comes, after this one. It may begin another TSDU.
    fn begin(&mut self, before: Option<&Said>, said: &Said) -> Result<(), AllocError> {
        self.units = self.units.saturating_add(1);
        match before {
            Some(before) if before.tsdu < said.tsdu => self.cuts.push(self.length)?,
            _ => (),
        }
        Ok(())
    }

    /// It is a part, in a TSDU of so many octets.
    fn add(&mut self, part: &[u8], tsdu: usize) -> Result<(), AllocError> {
        self.octets.extend_from_slice(part)?;
        self.length = self.length.saturating_add(tsdu);
        Ok(())
    }
}

fn stop_at(side: Side, place: Place, halt: Halt) -> Stop {
    Stop { side, place, halt }
}

/// The session of a side that has just begun.
fn begin_of(side: Side) -> Standing {
    match side {
        Side::Left => Standing::calling(),
        Side::Right => Standing::called(),
    }
}

/// A stop after all packets of a side.
fn stop_behind(side: Side, halt: Halt) -> Stop {
    let place = Place {
        first: usize::MAX,
        last: usize::MAX,
        offset: usize::MAX,
    };
    Stop { side, place, halt }
}

impl<'c, 'p> Telling<'c, 'p> {
    /// Nothing of a connection is told yet.
    pub(crate) fn new(
        alloc: Global,
        conversation: &'c Conversation,
        bound: Option<Stop>,
        player: &'p mut Player,
    ) -> Telling<'c, 'p> {
        Telling {
            alloc,
            conversation,
            bound,
            told_left: 0,
            told_right: 0,
            offer: Offer {
                requirements: 0,
                serial: None,
            },
            player,
        }
    }

    fn told(&self, side: Side) -> usize {
        match side {
            Side::Left => self.told_left,
            Side::Right => self.told_right,
        }
    }

    /// The functional units that the AC of the connection names.
    fn selected(&self) -> Option<u16> {
        selected_by(&first_message(&self.conversation.right)?)
    }

    /// The connect of this connection.
    fn asking(&mut self) -> Option<Asking<'c>> {
        let Some(message) = first_message(&self.conversation.left) else {
            return Some(any_asking());
        };
        let (asking, offer) = asked_by(&message, self.selected())?;
        self.offer = offer;
        Some(asking)
    }

    /// The left end asks for the connection.
    fn connect(&mut self) -> Result<(), Halt> {
        let Some(asking) = self.asking() else {
            return Err(Halt::NoCall);
        };
        self.player.connect(&Command::Connect {
            requirements: asking.requirements,
            serial: asking.serial,
            wishes: asking.wishes,
            sizes: asking.sizes,
            user_data: asking.user_data,
        })
    }

    /// The right end answers the CR.
    fn answer(&mut self, is_refusal: bool) -> Result<(), Halt> {
        if is_refusal && !self.player.refuses() {
            return Err(Halt::NoCall);
        }
        self.player.carry_opening(Side::Left)
    }

    /// The CR.
    fn request(&mut self) -> Result<(), Stop> {
        let place = match self.conversation.left.tsdus.first() {
            Some(tsdu) => tsdu.place,
            None => self.conversation.request.place,
        };
        match self.connect() {
            Ok(()) => Ok(()),
            Err(halt) => Err(stop_at(Side::Left, place, halt)),
        }
    }

    /// The answer to the CR, if there is one.
    fn open(&mut self) -> Result<(), Stop> {
        let Some(answer) = self.conversation.answer else {
            return Ok(());
        };
        if !self.is_told(Side::Right, answer.place) {
            return Ok(());
        }
        match self.answer(answer.is_refusal) {
            Ok(()) => Ok(()),
            Err(halt) => Err(stop_at(Side::Right, answer.place, halt)),
        }
    }

    /// The left end takes the CC, and sends the CN.
    fn say_connect(&mut self) -> Result<(), Halt> {
        match self.conversation.answer {
            Some(answer) if !answer.is_refusal => self.player.carry_all(Side::Right, true),
            _ => Err(Halt::Transport),
        }
    }

    /// Whether what a side sent at a place is told.
    fn is_told(&self, side: Side, place: Place) -> bool {
        match self.bound {
            Some(stop) => is_before(side, place, &stop),
            None => true,
        }
    }

    /// The next unit of a side that is told, and its place.
    fn next_of(&self, side: Side) -> Option<(Said, Place)> {
        let stream = self.conversation.stream(side);
        let said = stream.said.get(self.told(side))?;
        let place = stream.tsdus.get(said.tsdu)?.place;
        if !self.is_told(side, place) {
            return None;
        }
        Some((*said, place))
    }

    /// The side whose next unit passed first, and its place.
    fn next(&self) -> Option<(Side, Place)> {
        match (self.next_of(Side::Left), self.next_of(Side::Right)) {
            (None, None) => None,
            (Some((_, place)), None) => Some((Side::Left, place)),
            (None, Some((_, place))) => Some((Side::Right, place)),
            (Some((_, left)), Some((_, right))) => {
                if left.first <= right.first {
                    Some((Side::Left, left))
                } else {
                    Some((Side::Right, right))
                }
            }
        }
    }

    /// The data in parts that comes next from a side; none if something else comes between them, or their end is missing.
    fn joined(&self, side: Side) -> Result<Option<Joined>, AllocError> {
        let mut joined = Joined::new(self.alloc);
        let stream = self.conversation.stream(side);
        let said = stream.said.get(self.told(side)..).unwrap_or_default();
        let mut before = said.first();
        'units: for said in said {
            joined.begin(before, said)?;
            before = Some(said);
            let Some(unit) = unit_of(stream, said) else {
                return Ok(None);
            };
            match Part::of(&unit) {
                Some(part) => {
                    joined.add(unit.information(), stream.tsdu(said.tsdu).len())?;
                    if matches!(part, Part::Last) {
                        return Ok(Some(joined));
                    }
                }
                None if has_no_effect(&Message::of(&unit)) => (),
                None => return Ok(None),
            }
        }
        Ok(None)
    }

    /// How many TSDUs of the other side, of those that were told, a side may take before it sends its next unit; if it sends none, up to
    /// one that it would answer.
    fn ahead(&self, side: Side) -> Result<usize, AllocError> {
        match self.next_of(side) {
            Some((said, _)) => {
                let most = if said.is_answer {
                    said.taken.saturating_sub(1)
                } else {
                    said.taken
                };
                Ok(most.min(self.player.tsdus(other(side))))
            }
            None => self.reach(side),
        }
    }

    /// A side takes TSDUs of the other side up to this one, and answers the last of them by itself or not. Returns whether it could: they
    /// may have to wait for credit until the other side has sent more.
    fn bring(&mut self, side: Side, count: usize, answers: bool) -> Result<bool, Halt> {
        let most = if self.player.has_left(other(side), count) {
            0
        } else {
            self.ahead(other(side))?
        };
        self.player.bring(side, count, answers, most)
    }

    /// A side sends data in parts. Says how many of its units are told then.
    fn say_parts(&mut self, side: Side) -> Result<usize, Halt> {
        let Some(joined) = self.joined(side)? else {
            return Err(Halt::NoCall);
        };
        let Joined {
            octets,
            cuts,
            length,
            units,
        } = joined;
        self.player
            .send_parts(side, octets.as_slice(), cuts.as_slice(), length)?;
        Ok(units)
    }

    /// A side sends a message.
    fn say_message(&mut self, side: Side, message: &Message<'_>) -> Result<(), Halt> {
        if has_no_effect(message) {
            return Ok(());
        }
        if let Message::Connect { .. } = message {
            return self.say_connect();
        }
        match request_of(message, self.offer) {
            Some(request) => self.player.call(side, request),
            None => Err(Halt::NoCall),
        }
    }

    /// A side sends its next unit, and the parts of the same data after it. Says how many units are told then.
    fn say(&mut self, side: Side, said: &Said) -> Result<usize, Halt> {
        if said.is_answer {
            return Ok(1);
        }
        let Some(unit) = unit_of(self.conversation.stream(side), said) else {
            return Err(Halt::NoCall);
        };
        match Part::of(&unit) {
            Some(Part::First) => self.say_parts(side),
            Some(_) => Err(Halt::NoCall),
            None => {
                self.say_message(side, &Message::of(&unit))?;
                Ok(1)
            }
        }
    }

    /// So many units more of a side are told.
    fn advance(&mut self, side: Side, tsdu: usize, units: usize) -> Result<(), AllocError> {
        let told = self.told(side).saturating_add(units);
        match side {
            Side::Left => self.told_left = told,
            Side::Right => self.told_right = told,
        }
        let whole = match self.conversation.stream(side).said.get(told) {
            Some(next) => next.tsdu,
            None => tsdu.saturating_add(1),
        };
        if self.player.tsdus(side) < whole {
            self.player.end_tsdu(side)?;
        }
        Ok(())
    }

    /// Tells a unit of a side, if this can take what its session takes before it. Returns whether it could.
    fn tell_next(&mut self, side: Side, said: &Said) -> Result<bool, Halt> {
        if !self.bring(side, said.taken, said.is_answer)? {
            return Ok(false);
        }
        let units = self.say(side, said)?;
        self.advance(side, said.tsdu, units)?;
        Ok(true)
    }

    /// Tells the next unit of a side, if there is one and it can be told now. Returns whether it was.
    fn tell_one(&mut self, side: Side) -> Result<bool, Stop> {
        let Some((said, place)) = self.next_of(side) else {
            return Ok(false);
        };
        match self.tell_next(side, &said) {
            Ok(is_told) => Ok(is_told),
            Err(halt) => Err(stop_at(side, place, halt)),
        }
    }

    /// Tells both runs in the order in which their units passed. If a side waits for what the other side can't send before it has credit,
    /// the other side goes on.
    fn tell_all(&mut self) -> Result<(), Stop> {
        self.open()?;
        let (left, right) = (&self.conversation.left, &self.conversation.right);
        let units = left.said.len().saturating_add(right.said.len());
        'units: for _ in 0..units {
            let Some((side, place)) = self.next() else {
                return Ok(());
            };
            if !self.tell_one(side)? && !self.tell_one(other(side))? {
                return Err(stop_at(side, place, Halt::NoCall));
            }
        }
        Ok(())
    }

    /// How many TSDUs a side has taken with its last unit that was told, and its state.
    fn standing(&self, side: Side) -> (usize, Standing) {
        let said = &self.conversation.stream(side).said;
        match said.get(..self.told(side)).unwrap_or_default().last() {
            Some(said) => (said.taken, said.standing),
            None => (0, begin_of(side)),
        }
    }

    /// How many TSDUs of the other side, of those that were told, a side has taken if it sends nothing more and takes all up to one that
    /// it would answer.
    fn reach(&self, side: Side) -> Result<usize, AllocError> {
        let (taken, mut standing) = self.standing(side);
        let heard = self.conversation.stream(other(side));
        let mut count = taken;
        'tsdus: for number in taken..self.player.tsdus(other(side)) {
            let Some(next) = hears(self.alloc, &standing, heard.tsdu(number))? else {
                break;
            };
            standing = next;
            count = number.saturating_add(1);
        }
        Ok(count)
    }

    /// A side takes what was told of the other side, up to what it would answer, if it can.
    fn settle(&mut self, side: Side) -> Result<(), Halt> {
        let count = self.reach(side)?;
        self.bring(side, count, false)?;
        Ok(())
    }

    /// A connection that was refused is over when left knows it. What acknowledges data and closes the connection is carried.
    fn finish(&mut self) -> Result<(), Halt> {
        match self.conversation.answer {
            Some(answer) if answer.is_refusal => self.player.carry_all(Side::Right, false),
            Some(answer) if answer.class == 2 => self.player.carry_rest(),
            _ => Ok(()),
        }
    }

    /// Both sides take what was told of each other. What then still waits for credit leaves, even if a side answers something for it.
    fn close(&mut self) -> Result<(), Stop> {
        if let Err(halt) = self.settle(Side::Left) {
            return Err(stop_behind(Side::Left, halt));
        }
        if let Err(halt) = self.settle(Side::Right) {
            return Err(stop_behind(Side::Right, halt));
        }
        if let Err(halt) = self.player.drain() {
            return Err(stop_behind(Side::Left, halt));
        }
        match self.finish() {
            Ok(()) => Ok(()),
            Err(halt) => Err(stop_behind(Side::Left, halt)),
        }
    }

    /// Whether there is nothing to tell but the CR and its answer: neither side sent a whole TSDU that has a run.
    fn is_silent(&self) -> bool {
        self.conversation.left.said.is_empty() && self.conversation.right.said.is_empty()
    }

    /// Tells both runs, and says where the script stops before their end. A connection without a TSDU is left out if the left end can't
    /// ask for it now, as before it knows the class.
    pub(crate) fn tell(&mut self) -> Result<(), Stop> {
        match self.request() {
            Err(stop) if self.is_silent() && matches!(stop.halt, Halt::NoCall) => return Ok(()),
            requested => requested?,
        }
        match self.tell_all() {
            Ok(()) => self.close(),
            Err(stop) => {
                if !matches!(stop.halt, Halt::OutOfMemory) {
                    self.close()?;
                }
                Err(stop)
            }
        }
    }
}
