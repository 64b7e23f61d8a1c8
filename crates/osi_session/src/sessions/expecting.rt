//! The fast path for TSDUs that a session expects: whole data, a part of it, a minor point or its confirmation, and brief
//! messages. Each TSDU is tried once; any other goes to the general reader.

use super::Session;
use crate::expected::{Expected, after_ack, after_point, confirmation_shown, minor_shown};
use crate::grouping::expects_data;
use crate::hearing::take_message;
use crate::indications::Indication;
use crate::joining::{PartVerdict, join, judge_part, shown_behind};
use crate::reactions::Reaction;
use osi_message::{Message, Octets, Place, PlainUnit};
use std::alloc::AllocError;

/// The SI of a DT.
const DATA: u8 = 0x01;

/// The SI of a MIP.
const MINOR_POINT: u8 = 0x31;

/// The SI of a MIA.
const MINOR_ACK: u8 = 0x32;

/// The most octets of the TSDU of a brief message.
const LONGEST_BRIEF: usize = 5;

/// Whether a TSDU may be a unit of this SI after a GT that names no token: each other one has another third octet.
#[inline(always)]
fn has_unit(tsdu: &[u8], si: u8) -> bool {
    tsdu.len() > 2 && tsdu[2] == si
}

impl Session {
    ghost use Rattle.std.specs.Prelude.{◌≡◌, true, [], drop, IfOk, IfErr, IfNone, IfSome, OnOk, OnErr};
    ghost use Rattle.osi_message.specs.Words.{part};
    ghost use Rattle.osi_session.specs.Expecting.{Meets, Tries};
    ghost use Rattle.osi_session.specs.Joining.{heard, respond_word, word_verdict};
    ghost use Rattle.osi_session.specs.Listening.{came, moved, react, taker_of};
    ghost use Rattle.osi_session.specs.Phases.{is_wait_transport};
    ghost use Rattle.osi_session.specs.Respond.{fine};
    ghost use Rattle.osi_session.specs.Points.{only_shows};
    ghost use Rattle.osi_session.specs.Sessions.{takes_memory};
    ghost use Rattle.osi_session.specs.Shown.{Data, Minor, MinorConfirmed, shown_by};
    ghost use Rattle.osi_session.specs.Sound.{IsSound};
    ghost use Rattle.osi_session.specs.Steps.{outcome_of};

    /// Tries a TSDU as one that is expected: the written form of whole data, of a part of it, or of a minor point or a
    /// confirmation without other parameters, after a GT that names no token; or that of a brief message. `Shown` and `Joined` are all that
    /// [`Session::take_tsdu`] would do apart from the state. `Other` changes nothing: pass the TSDU to
    /// [`Session::take_unexpected`], which doesn't try this again. `Err` changes nothing, and is possible only if
    /// something is indicated or octets are joined.
    #[inline(always)]
    pub fn take_expected(&mut self, tsdu: &[u8]) -> Result<Expected, AllocError>
        ensures taken { IfOk result (λ e. Meets e (react self.old (came tsdu.now)) self.old self.new) }
        ensures err { OnErr result (self.new ≡ self.old) }
        ensures memory { OnErr result (takes_memory self.old (react self.old (came tsdu.now)) ≡ true) }
    {
        if let Some(user_data) = self.expected_data(tsdu) {
            return match Octets::copy(self.alloc, user_data) {
                Ok(user_data) => Ok(Expected::Shown(Indication::Data { user_data })),
                Err(error) => Err(error),
            };
        }
        if let Some(number) = self.try_minor(tsdu) {
            return Ok(Expected::Shown(minor_shown(self.alloc, number)));
        }
        if let Some(number) = self.try_confirmation(tsdu) {
            return Ok(Expected::Shown(confirmation_shown(self.alloc, number)));
        }
        // A value of its own: otherwise the indication of data, too, would be built in the stack space of this one.
        let answer = self.take_plain(tsdu);
        answer
    }

    /// The user data of a TSDU, if it is whole data that is expected: it is all that is indicated, nothing is sent, and the
    /// session is as it was. `None` for any other TSDU, which [`Session::take_tsdu`] takes.
    #[inline(always)]
    pub fn expected_data<'t>(&self, tsdu: &'t [u8]) -> Option<&'t [u8]>
        ensures { IfSome result (λ d. react self.now (came tsdu.now) ≡ only_shows self.now (Data d.now)) }
    {
        let user_data = PlainUnit::data(tsdu)?;
        if self.joined.is_some() || !expects_data(&self.state) {
            return None;
        }
        Some(user_data)
    }

    /// The number of a minor point that asks for its confirmation, if the TSDU is one with no other parameter, and is
    /// expected: the session then has the numbers after it, the point is all that is indicated, and nothing is sent. `None`
    /// changes nothing. A number is small, so the caller builds the indication where it needs it.
    #[inline(always)]
    pub fn take_minor(&mut self, tsdu: &[u8]) -> Option<u32>
        ensures shown { IfSome result (λ n. react self.old (came tsdu.now) ≡ only_shows self.new (Minor n true [])) }
        ensures rests { IfNone result (self.new ≡ self.old) }
    {
        if !has_unit(tsdu, MINOR_POINT) {
            return None;
        }
        self.take_minor_point(tsdu)
    }

    /// The same, of a TSDU that may be one.
    #[inline(always)]
    fn take_minor_point(&mut self, tsdu: &[u8]) -> Option<u32>
        ensures shown { IfSome result (λ n. react self.old (came tsdu.now) ≡ only_shows self.new (Minor n true [])) }
        ensures rests { IfNone result (self.new ≡ self.old) }
    {
        let number = PlainUnit::minor_point(tsdu)?;
        if self.joined.is_some() {
            return None;
        }
        let Some(numbers) = after_point(&self.state, number) else {
            return None;
        };
        self.state.numbers = numbers;
        Some(number.number)
    }

    /// The same as [`Session::take_minor`], for a caller that also takes data, which is more frequent: a TSDU that may be a
    /// point is read out of line.
    #[inline(always)]
    pub(super) fn try_minor(&mut self, tsdu: &[u8]) -> Option<u32>
        ensures shown { IfSome result (λ n. react self.old (came tsdu.now) ≡ only_shows self.new (Minor n true [])) }
        ensures rests { IfNone result (self.new ≡ self.old) }
    {
        if has_unit(tsdu, MINOR_POINT) {
            return self.take_minor_apart(tsdu);
        }
        None
    }

    #[inline(never)]
    fn take_minor_apart(&mut self, tsdu: &[u8]) -> Option<u32>
        ensures shown { IfSome result (λ n. react self.old (came tsdu.now) ≡ only_shows self.new (Minor n true [])) }
        ensures rests { IfNone result (self.new ≡ self.old) }
    {
        self.take_minor(tsdu)
    }

    /// The number of the confirmation of a minor point, if the TSDU is one with no other parameter, and is expected: the
    /// session then has the numbers after it, the confirmation is all that is indicated, and nothing is sent. `None` changes
    /// nothing.
    #[inline(always)]
    pub fn take_confirmation(&mut self, tsdu: &[u8]) -> Option<u32>
        ensures shown { IfSome result (λ n. react self.old (came tsdu.now) ≡ only_shows self.new (MinorConfirmed n [])) }
        ensures rests { IfNone result (self.new ≡ self.old) }
    {
        if !has_unit(tsdu, MINOR_ACK) {
            return None;
        }
        self.take_minor_ack(tsdu)
    }

    /// The same, of a TSDU that may be one.
    #[inline(always)]
    fn take_minor_ack(&mut self, tsdu: &[u8]) -> Option<u32>
        ensures shown { IfSome result (λ n. react self.old (came tsdu.now) ≡ only_shows self.new (MinorConfirmed n [])) }
        ensures rests { IfNone result (self.new ≡ self.old) }
    {
        let number = PlainUnit::minor_ack(tsdu)?;
        if self.joined.is_some() {
            return None;
        }
        let Some(numbers) = after_ack(&self.state, number) else {
            return None;
        };
        self.state.numbers = numbers;
        Some(number.number)
    }

    /// The same as [`Session::take_confirmation`], for a caller that also takes data.
    #[inline(always)]
    pub(super) fn try_confirmation(&mut self, tsdu: &[u8]) -> Option<u32>
        ensures shown { IfSome result (λ n. react self.old (came tsdu.now) ≡ only_shows self.new (MinorConfirmed n [])) }
        ensures rests { IfNone result (self.new ≡ self.old) }
    {
        if has_unit(tsdu, MINOR_ACK) {
            return self.take_confirmation_apart(tsdu);
        }
        None
    }

    #[inline(never)]
    fn take_confirmation_apart(&mut self, tsdu: &[u8]) -> Option<u32>
        ensures shown { IfSome result (λ n. react self.old (came tsdu.now) ≡ only_shows self.new (MinorConfirmed n [])) }
        ensures rests { IfNone result (self.new ≡ self.old) }
    {
        self.take_confirmation(tsdu)
    }

    /// Tries a TSDU, with the buffer that its octets are in, as whole data that is expected. Such data is indicated
    /// from that buffer, and no octet is copied; the session is unchanged, and nothing is allocated. Any other TSDU is
    /// returned.
    #[inline(always)]
    pub fn show_data(&self, tsdu: Vec<u8>) -> Result<Indication, Vec<u8>>
        ensures octets { IfOk result (λ i. shown_by i ≡ Data (drop 4 tsdu.items)) }
        ensures shown { OnOk result (react self.now (came tsdu.items) ≡ only_shows self.now (Data (drop 4 tsdu.items))) }
        ensures other { IfErr result (λ t. t ≡ tsdu) }
    {
        let Some(_user_data) = PlainUnit::data(tsdu.as_slice()) else {
            return Err(tsdu);
        };
        if self.joined.is_some() || !expects_data(&self.state) {
            return Err(tsdu);
        }
        Ok(Indication::Data {
            user_data: Octets::behind(tsdu, 4),
        })
    }

    /// Tries a TSDU as [`Session::take_expected`] does after [`Session::expected_data`], [`Session::take_minor`] and
    /// [`Session::take_confirmation`] returned `None`: as a part of one Data, or as a brief message. The function is kept out of
    /// line, because data and points are more frequent.
    #[inline(never)]
    pub fn take_plain(&mut self, tsdu: &[u8]) -> Result<Expected, AllocError>
        ensures { Tries result (react self.old (came tsdu.now)) self.old self.new }
    {
        if tsdu.len() <= LONGEST_BRIEF {
            let answer = self.take_brief(tsdu);
            return answer;
        }
        if !has_unit(tsdu, DATA) {
            return Ok(Expected::Other);
        }
        match PlainUnit::read(tsdu) {
            Some(PlainUnit::Part { place, user_data }) => self.take_part(place, user_data),
            _ => Ok(Expected::Other),
        }
    }

    /// A brief message. The function is kept out of line, because points are more frequent.
    #[inline(never)]
    fn take_brief(&mut self, tsdu: &[u8]) -> Result<Expected, AllocError>
        ensures { Tries result (react self.old (came tsdu.now)) self.old self.new }
    {
        let Some(message) = Message::brief(tsdu) else {
            return Ok(Expected::Other);
        };
        match take_message(self.alloc, &self.state, self.joined.as_ref(), message) {
            Ok(reaction) => Ok(self.show_alone(reaction)),
            Err(error) => Err(error),
        }
    }

    /// The effect of a message, if it has an indication and nothing else but a new state. Any other is left to the general
    /// reader.
    #[tactic(auto, using(crate::proofs::moves::a_tsdu_that_is_read_straight::shows_alone))]
    fn show_alone(&mut self, reaction: Reaction) -> Expected
        requires sound { IsSound reaction.next }
        requires begun { is_wait_transport reaction.next.phase ≡ true → is_wait_transport self.old.state.phase ≡ true }
        ensures { Meets result (moved self.old (heard self.old.joined (outcome_of reaction))) self.old self.new }
    {
        match reaction {
            Reaction {
                next,
                shown: Some(indication),
                reply: None,
                closes: false,
            } => {
                self.go(next);
                Expected::Shown(indication)
            }
            other => {
                drop(other);
                Expected::Other
            }
        }
    }

    /// A part of one Data, which is joined to those before it. The function is kept out of line, because points are
    /// more frequent.
    #[inline(never)]
    fn take_part(&mut self, place: Place, user_data: &[u8]) -> Result<Expected, AllocError>
        ensures { Tries result (moved self.old (respond_word (taker_of self.old) (part place user_data.now))) self.old self.new }
    {
        match judge_part(&self.state, self.joined.as_ref(), place, user_data) {
            PartVerdict::Good => self.join(place, user_data),
            PartVerdict::Dropped | PartVerdict::Bad(_) => Ok(Expected::Other),
        }
    }

    /// Joins a good part. The octets of the last part are added to those joined, which are then indicated without a
    /// copy.
    fn join(&mut self, place: Place, user_data: &[u8]) -> Result<Expected, AllocError>
        requires { word_verdict (taker_of self.old) (part place user_data.now) ≡ fine }
        ensures { Tries result (moved self.old (respond_word (taker_of self.old) (part place user_data.now))) self.old self.new }
    {
        match join(self.alloc, &mut self.joined, place, user_data) {
            Ok(()) => Ok(Expected::behind(shown_behind(place, &mut self.joined))),
            Err(error) => Err(error),
        }
    }
}
