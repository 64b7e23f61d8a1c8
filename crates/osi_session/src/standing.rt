//! One side of a session as an observer sees it.

ghost use Rattle.std.specs.Prelude.{◌≡◌, ◌≢◌, [], MatchBool, ◌+◌, ◌||◌, true, false, not, is_none, unwrap_or, IfOk, IfSome, IfNone};
ghost use Rattle.osi_message.specs.Reading.{word};
ghost use Rattle.osi_session.specs.Standing.{Seen, seen_called, seen_calling, listens, Takes, after_count, answers, answers_word, goes};
ghost use Rattle.osi_session.specs.Standing.{said, said_within, parting, SaysAs};
ghost use Rattle.osi_session.specs.Breaches.{breach_of, broken_in, part_breach, word_breach};
ghost use Rattle.osi_session.specs.Joining.{begins_anew};
ghost use Rattle.osi_session.specs.Sound.{IsSound};
ghost use Rattle.osi_session.specs.Steps.{reply_of, word_by};
ghost use Rattle.osi_session.specs.Taking.{count_taken};
ghost use Rattle.osi_message.specs.Meanings.{AB, meant_by};
ghost use Rattle.osi_message.specs.Tokens.{token_octet};
ghost use Rattle.osi_spdu.specs.Fields.{bits_of};
ghost use Rattle.osi_message.specs.Words.{says};
ghost use Rattle.osi_spdu.specs.Units.{said_by};

use crate::breaches::Breach;
use crate::counting::{behind_part, count_tsdu};
use crate::faults::CallError;
use crate::hearing::begins_anew;
use crate::numbers::Numbers;
use crate::phases::Phase;
use crate::reactions::Reply;
use crate::saying::{is_in_size, may_send, said_message, stands_in_place};
use crate::sizes::limit_of;
use crate::state::State;
use crate::taking::has_no_effect;
use crate::words::Word;
use osi_message::{Message, Place};
use osi_spdu::{Spdu, TokenSet};
use std::alloc::{AllocError, Global};
use std::marker::Model;

/// The bit of an AB of a user.
const BY_USER: u8 = 0x02;

/// One side of a session as an observer sees it (X.225 version 2), without user data: its state, how many octets of
/// the peer's unfinished SSDU it has joined, how many of its own it has sent, and whether it has closed the transport
/// connection by itself.
#[derive(Clone, Copy)]
pub struct Standing {
    state: State,
    joined: Option<usize>,
    sent: Option<usize>,
    closed: bool,
}

impl Model for Standing {
    ghost use Rattle.osi_session.specs.Standing.{Seen};
    ghost use Rattle.osi_session.specs.Sound.{IsSound};

    ghost Value = { Seen };

    ghost view = { λ s. record { state = s.state; joined = s.joined; sent = s.sent; closed = s.closed } };

    ghost inverse = { λ s. record { state = s.state; joined = s.joined; sent = s.sent; closed = s.closed } };

    ghost invariant = { λ s. IsSound s.state };
}

/// The effect of a TSDU on the side that takes it: the new state, and the answer.
#[derive(Clone, Copy)]
pub struct Taking {
    /// The side afterwards.
    pub next: Standing,
    /// The answer, which it sends before anything else.
    pub reply: Option<Reply>,
}

/// Whether two counts are equal.
fn is_same_count(one: Option<usize>, other: Option<usize>) -> bool
    ensures { MatchBool result (one ≡ other) (one ≢ other) }
{
    match (one, other) {
        (None, None) => true,
        (Some(one), Some(other)) => one == other,
        _ => false,
    }
}

impl Reply {
    /// Whether a unit that was sent is this answer: an RF with any reason, an AB with any bits except that of the
    /// user, or AA (X.225 sections 8.3.5, 8.3.9, 8.3.10).
    pub fn is_said_by(self, unit: &Spdu) -> bool
        ensures { result ≡ answers_word (reply_of self) (word (said_by unit.now)) }
    {
        match Word::of(unit) {
            Word::Says(message) => self.is_meant_by(&message),
            Word::Part(..) => false,
        }
    }

    fn is_meant_by(self, message: &Message) -> bool
        ensures { result ≡ answers (reply_of self) (meant_by message.now) }
    {
        match self {
            Reply::VersionNotSupported | Reply::ImplementationRestriction => {
                matches!(message, Message::Refuse { .. })
            }
            Reply::ProtocolError => is_providers_abort(message),
            Reply::AbortAccept => matches!(message, Message::AbortAccept),
        }
    }
}

/// Whether a message is an AB that is not the user's.
fn is_providers_abort(message: &Message) -> bool
    ensures { result ≡ answers (AB 5 []) (meant_by message.now) }
{
    match message {
        Message::Abort {
            transport_disconnect,
            ..
        } => transport_disconnect & BY_USER != BY_USER,
        _ => false,
    }
}

impl Standing {
    /// Whether the two are equal.
    pub fn is_same(&self, other: &Standing) -> bool
        ensures { MatchBool result (self.now ≡ other.now) (self.now ≢ other.now) }
    {
        if !self.state.is_same(&other.state) {
            return false;
        }
        if !is_same_count(self.joined, other.joined) {
            return false;
        }
        if !is_same_count(self.sent, other.sent) {
            return false;
        }
        self.closed == other.closed
    }

    /// Its phase.
    pub fn phase(&self) -> Phase
        ensures { result ≡ self.now.state.phase }
    {
        self.state.phase
    }

    /// Whether it is the calling side, which sent the CN or is to send it.
    pub fn is_caller(&self) -> bool
        ensures { result ≡ self.now.state.is_caller }
    {
        self.state.is_caller
    }

    /// The tokens that it holds.
    pub fn held(&self) -> TokenSet
        ensures { bits_of result ≡ token_octet self.now.state.held }
    {
        self.state.held.set()
    }

    /// V(M), V(A), V(R) and the answer flag, with their last values; 0 before the CN is accepted (X.225 section 5.9).
    pub fn numbers(&self) -> Numbers
        ensures { result ≡ self.now.state.numbers }
    {
        self.state.numbers
    }

    /// The first number of the connection; 0 until the CN is accepted, or if no functional unit has points (X.225 section 5.9).
    pub fn first_number(&self) -> u32
        ensures { result ≡ self.now.state.base }
    {
        self.state.base
    }

    /// Whether the functional unit resynchronize is selected, or named by a CN that isn't answered yet.
    pub fn has_resynchronize(&self) -> bool
        ensures { result ≡ self.now.state.units.resynchronize }
    {
        self.state.units.resynchronize
    }

    /// The called side, which waits for a CN.
    #[tactic(auto, using(crate::proofs::runs::the_invariant_in_memory::awaiting_sound))]
    pub fn called() -> Standing
        ensures { result ≡ seen_called }
    {
        Standing {
            state: State::AWAITING,
            joined: None,
            sent: None,
            closed: false,
        }
    }

    /// The calling side, whose transport connection is open, before its CN.
    #[tactic(auto, using(crate::proofs::sent::what_a_side_may_send::calling_sound))]
    pub fn calling() -> Standing
        ensures { result ≡ seen_calling }
    {
        Standing {
            state: State {
                phase: Phase::WaitTransport,
                is_caller: true,
                ..State::AWAITING
            },
            joined: None,
            sent: None,
            closed: false,
        }
    }
}

impl Standing {
    /// Takes a TSDU of the peer: the effect on every session in this state, whichever octets it has joined, as long as
    /// there are this many. `None` if it may take none ([`Standing::listens`]). Memory is needed for the indications
    /// to its user. `Err` changes nothing.
    pub fn take(&self, alloc: Global, tsdu: &[u8]) -> Result<Option<Taking>, AllocError>
        ensures listens { IfOk result (λ t. IfSome t (λ _. listens self.now ≡ true)) }
        ensures deaf { IfOk result (λ t. IfNone t (listens self.now ≡ false)) }
        ensures counted { IfOk result (λ t. IfSome t (λ taking. Takes self.now tsdu.now (count_taken taking))) }
        ensures sent { IfOk result (λ t. IfSome t (λ taking. taking.next ≡ after_count self.now (count_taken taking))) }
    {
        if !self.listens() {
            return Ok(None);
        }
        let counting = count_tsdu(alloc, &self.state, self.joined, tsdu)?;
        let is_kept = counting.next.phase.may_hold();
        Ok(Some(Taking {
            next: Standing {
                state: counting.next,
                joined: counting.joined,
                sent: if is_kept { self.sent } else { None },
                closed: counting.closes,
            },
            reply: counting.reply,
        }))
    }

    /// Whether a TSDU of the peer may be taken: the CN was sent or is awaited, and the transport connection was not
    /// closed.
    pub fn listens(&self) -> bool
        ensures { result ≡ listens self.now }
    {
        !(self.closed || self.state.phase.is_wait_transport())
    }

    /// The side with another state, whose phase decides whether an unfinished SSDU is kept or dropped.
    fn goes(&self, next: State) -> Standing
        requires { IsSound next }
        ensures { result ≡ goes self.now next }
    {
        let is_kept = next.phase.may_hold();
        Standing {
            state: next,
            joined: if is_kept { self.joined } else { None },
            sent: if is_kept { self.sent } else { None },
            closed: self.closed,
        }
    }

    /// A unit that this side sends, in a TSDU of this many octets: the side afterwards; or why no session in this
    /// state sends it, which is the first rule that it breaks.
    #[tactic(auto, unfolding(crate::specs::Standing::said, crate::specs::Breaches::breach_of))]
    pub fn say(&self, unit: &Spdu, tsdu_octets: usize) -> Result<Standing, Breach>
        ensures left { SaysAs result (said self.now (word (said_by unit.now)) tsdu_octets) }
        ensures rule { broken_in result ≡ breach_of self.now (word (said_by unit.now)) tsdu_octets }
    {
        if self.closed {
            return Err(Breach::Call(CallError::Ended));
        }
        let next = self.say_word(Word::of(unit))?;
        if !is_in_size(&self.state, tsdu_octets) {
            return Err(Breach::Call(CallError::TooLong));
        }
        Ok(next)
    }

    fn say_word(&self, word: Word) -> Result<Standing, Breach>
        ensures left { SaysAs result (said_within self.now (word_by word.entry)) }
        ensures rule { broken_in result ≡ word_breach self.now (word_by word.entry) }
    {
        match word {
            Word::Says(message) => self.say_message(&message),
            Word::Part(place, user_data) => self.say_part(place, user_data.len()),
        }
    }

    /// A message. Within an unfinished SSDU, a message that may not occur within one is a breach.
    #[tactic(auto, using(crate::proofs::sent::what_a_side_may_send::message_sound, crate::proofs::sent::what_a_side_may_send::not_said))]
    fn say_message(&self, message: &Message) -> Result<Standing, Breach>
        ensures left { SaysAs result (said_within self.now (says (meant_by message.now))) }
        ensures rule { broken_in result ≡ word_breach self.now (says (meant_by message.now)) }
    {
        if has_no_effect(message) {
            return Ok(*self);
        }
        let next = said_message(&self.state, message)?;
        if self.is_misplaced(message) {
            return Err(Breach::BadEnclosure);
        }
        Ok(self.goes(next))
    }

    /// Whether a message may not occur within an unfinished SSDU, and this side has sent one in part.
    fn is_misplaced(&self, message: &Message) -> bool
        ensures { result ≡ not (is_none self.now.sent || not (begins_anew (meant_by message.now))) }
    {
        match self.sent {
            None => false,
            Some(_) => begins_anew(message).is_some(),
        }
    }

    /// A part of one Data, with this many octets.
    fn say_part(&self, place: Place, octets: usize) -> Result<Standing, Breach>
        ensures left { SaysAs result (parting self.now place (unwrap_or self.now.sent 0 + octets)) }
        ensures rule { broken_in result ≡ part_breach self.now place (unwrap_or self.now.sent 0 + octets) }
    {
        let sent = self.sent.unwrap_or(0);
        may_send(&self.state, sent, octets)?;
        if !stands_in_place(self.sent, place) || limit_of(&self.state) == 0 {
            return Err(Breach::BadEnclosure);
        }
        Ok(Standing {
            sent: behind_part(place, sent + octets),
            ..*self
        })
    }
}
