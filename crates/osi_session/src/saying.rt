//! What a side may send: what the calls of this library send, and what a session of another make may send as well. If it may
//! not send a message, the first rule is told that it breaks, in the order of the tests.

ghost use Rattle.osi_spdu.specs.Fields.{unit_bits};
ghost use Rattle.std.specs.Prelude.{◌≡◌, ◌==◌, ◌+◌, true, is_ok, option_map};
ghost use Rattle.osi_message.specs.Meanings.{meant_by, RS, RA, AB, MAA};
ghost use Rattle.osi_message.specs.Tokens.{each};
ghost use Rattle.osi_session.specs.Allowed.{has_right};
ghost use Rattle.osi_session.specs.Breaches.{then_rule, numbered, call_breach, connect_breach, accept_breach, finish_breach};
ghost use Rattle.osi_session.specs.Breaches.{broken_in, data_breach, is_at_number, is_by_call, message_breach};
ghost use Rattle.osi_session.specs.Calls.{called_by};
ghost use Rattle.osi_session.specs.Respond.{agreed_base, has_terms};
ghost use Rattle.osi_session.specs.Sound.{IsSound};
ghost use Rattle.osi_session.specs.Standing.{Leaves, calling, connecting, accepting_in, finishing, where_is, said_message, may_send};
ghost use Rattle.osi_session.specs.Standing.{is_in_size, stands_in_place};

use crate::breaches::Breach;
use crate::calling::{MOST_DATA, MOST_USER_DATA, decide_row, fits, may_call};
use crate::faults::CallError;
use crate::numbers::Numbers;
use crate::phases::Phase;
use crate::requests::{Refusal, Request};
use crate::selected::FunctionalUnits;
use crate::sides::{Sides, answers_wishes};
use crate::sizes::{are_sizes, limit_of, smaller_sizes};
use crate::state::State;
use osi_message::{Message, Place};
use osi_spdu::{Requirements, ResyncType, Serial, TokenSetting, TsduMaximumSize};

/// The bit of an AB for a protocol error.
const PROTOCOL_ERROR: u8 = 0x04;

impl State {
    /// Each token that is available is held.
    fn has_all_rights(&self) -> bool
        ensures { result ≡ each (has_right self.now) }
    {
        let rights = self.rights();
        rights.data_token && rights.minor && rights.major && rights.release
    }
}

/// The state after a call. The size of its TSDU is tested separately.
#[tactic(auto, using(crate::proofs::sent::what_a_side_may_send::over_refuses))]
fn calling(state: &State, request: &Request) -> Result<State, Breach>
    requires { IsSound state.now }
    ensures left { Leaves result (calling state.now (called_by request.now)) }
    ensures rule { broken_in result ≡ call_breach state.now (called_by request.now) }
{
    if state.phase.is_over() {
        return Err(Breach::Call(CallError::Ended));
    }
    if !may_call(state.phase, request) {
        return Err(Breach::Call(CallError::BadState));
    }
    match decide_row(state, request) {
        Ok(step) => {
            if !fits(request) {
                return Err(Breach::Call(CallError::TooLong));
            }
            Ok(step.next)
        }
        Err(error) => Err(Breach::Call(error)),
    }
}

/// CN, once the transport connection is open.
fn connect(
    state: &State,
    requirements: Requirements,
    serial: Option<Serial>,
    wishes: TokenSetting,
    sizes: TsduMaximumSize,
    user_data: &[u8],
) -> Result<State, Breach>
    ensures left { Leaves result (connecting state.now (unit_bits requirements) (option_map (λ s. s.number) serial) wishes sizes
        user_data.now) }
    ensures rule { broken_in result ≡ connect_breach state.now sizes user_data.now }
{
    if !state.phase.is_wait_transport() {
        return Err(Breach::Call(CallError::BadState));
    }
    if user_data.len() > MOST_USER_DATA {
        return Err(Breach::Call(CallError::TooLong));
    }
    if !are_sizes(sizes) {
        return Err(Breach::Outside);
    }
    let proposed = match serial {
        Some(serial) => serial.number,
        None => 0,
    };
    Ok(State {
        phase: Phase::Connecting,
        units: FunctionalUnits::of(requirements),
        wishes,
        proposed,
        sizes,
        ..*state
    })
}

/// The first number of a connection: the AC's, or the CN's if the AC names none.
fn agreed_base(units: FunctionalUnits, serial: Option<Serial>, proposed: u32) -> u32
    ensures { result ≡ agreed_base units (option_map (λ s. s.number) serial) proposed }
{
    match serial {
        Some(serial) => units.base(serial.number),
        None => units.base(proposed),
    }
}

/// AC: version 2, half-duplex or duplex among the units that both name, sizes that a user may give, and sides that the
/// wishes allow.
fn accept(
    state: &State,
    version_2: bool,
    units: FunctionalUnits,
    serial: Option<Serial>,
    answer: TokenSetting,
    sizes: TsduMaximumSize,
    user_data: &[u8],
) -> Result<State, Breach>
    ensures left { Leaves result (accepting_in units state.now version_2 (option_map (λ s. s.number) serial) answer sizes user_data.now) }
    ensures rule { broken_in result ≡ accept_breach units state.now version_2 answer sizes user_data.now }
{
    if !state.phase.is_answering() {
        return Err(Breach::Call(CallError::BadState));
    }
    if user_data.len() > MOST_USER_DATA {
        return Err(Breach::Call(CallError::TooLong));
    }
    if !version_2 || !are_sizes(sizes) {
        return Err(Breach::Outside);
    }
    if !units.has_data() {
        return Err(Breach::Call(CallError::NotSelected));
    }
    if !answers_wishes(units, state.wishes, answer) {
        return Err(Breach::BadTokens);
    }
    let base = agreed_base(units, serial, state.proposed);
    Ok(State {
        phase: Phase::Ready,
        units,
        held: Sides::stated(units, answer).of_answerer(units),
        base,
        numbers: Numbers::from_base(base),
        sizes: smaller_sizes(state.sizes, sizes),
        ..*state
    })
}

/// FN, of a side that has all available tokens; with duplex, of either side.
fn finish(state: &State, user_data: &[u8]) -> Result<State, Breach>
    ensures left { Leaves result (finishing state.now user_data.now) }
    ensures rule { broken_in result ≡ finish_breach state.now user_data.now }
{
    if state.phase.is_over() {
        return Err(Breach::Call(CallError::Ended));
    }
    if !state.phase.is_ready() {
        return Err(Breach::Call(CallError::BadState));
    }
    if !state.has_all_rights() {
        return Err(Breach::Call(CallError::TokenNotHeld));
    }
    if user_data.len() > MOST_USER_DATA {
        return Err(Breach::Call(CallError::TooLong));
    }
    Ok(State {
        phase: Phase::Releasing,
        ..*state
    })
}

/// A point, or a confirmation, whose number has to be the session's own.
fn numbered(state: &State, number: u32, own: u32, request: &Request) -> Result<State, Breach>
    requires { IsSound state.now }
    ensures left { Leaves result (where_is (number == own) (calling state.now (called_by request.now))) }
    ensures rule { broken_in result ≡ then_rule (call_breach state.now (called_by request.now)) (numbered (number == own)) }
{
    let left = calling(state, request)?;
    if number != own {
        return Err(Breach::Call(CallError::BadNumber));
    }
    Ok(left)
}

/// RS: a restart, and no other resynchronization.
fn restart(
    state: &State,
    kind: ResyncType,
    number: Serial,
    wishes: TokenSetting,
    user_data: &[u8],
) -> Result<State, Breach>
    requires { IsSound state.now }
    ensures left { Leaves result (said_message state.now (RS kind number.number wishes user_data.now)) }
    ensures rule { broken_in result ≡ message_breach state.now (RS kind number.number wishes user_data.now) }
{
    let number = number.number;
    let request = Request::Restart {
        number,
        wishes,
        user_data,
    };
    let left = calling(state, &request)?;
    if !matches!(kind, ResyncType::Restart) {
        return Err(Breach::Outside);
    }
    Ok(left)
}

/// RA, with sides that the wishes allow.
#[tactic(auto, using(crate::proofs::sent::what_a_side_may_send::none_where))]
fn restart_ack(
    state: &State,
    number: Serial,
    answer: TokenSetting,
    user_data: &[u8],
) -> Result<State, Breach>
    requires { IsSound state.now }
    ensures left { Leaves result (said_message state.now (RA number.number answer user_data.now)) }
    ensures rule { broken_in result ≡ message_breach state.now (RA number.number answer user_data.now) }
{
    let sides = Sides::stated(state.units, answer);
    let request = Request::RestartConfirm { sides, user_data };
    let left = calling(state, &request)?;
    if number.number != state.numbers.next {
        return Err(Breach::Call(CallError::BadNumber));
    }
    if !answers_wishes(state.units, state.wishes, answer) {
        return Err(Breach::BadTokens);
    }
    Ok(left)
}

/// AB, of a user or of a provider that gives up. A protocol error is only sent in answer to a bad unit.
fn abort(state: &State, bits: u8, user_data: &[u8]) -> Result<State, Breach>
    requires { IsSound state.now }
    ensures left { Leaves result (said_message state.now (AB bits user_data.now)) }
    ensures rule { broken_in result ≡ message_breach state.now (AB bits user_data.now) }
{
    let request = Request::Abort { user_data };
    let left = calling(state, &request)?;
    if bits & PROTOCOL_ERROR == PROTOCOL_ERROR {
        return Err(Breach::NoFault);
    }
    Ok(left)
}

/// MAA: its number is that of the major point that is due, V(M) - 1.
fn major_ack(state: &State, number: Serial, user_data: &[u8]) -> Result<State, Breach>
    requires { IsSound state.now }
    ensures left { Leaves result (said_message state.now (MAA number.number user_data.now)) }
    ensures rule { broken_in result ≡ message_breach state.now (MAA number.number user_data.now) }
{
    let request = Request::MajorConfirm { user_data };
    numbered(state, number.number + 1, state.numbers.next, &request)
}

/// The state after a message that opens a connection or names functional units.
fn said_opening(state: &State, message: &Message) -> Result<State, Breach>
    requires { has_terms (meant_by message.now) ≡ true }
    ensures left { Leaves result (said_message state.now (meant_by message.now)) }
    ensures rule { broken_in result ≡ message_breach state.now (meant_by message.now) }
{
    match *message {
        Message::Connect {
            requirements,
            serial,
            wishes,
            sizes,
            user_data,
            ..
        } => connect(state, requirements, serial, wishes, sizes, user_data),
        Message::Accept {
            version_2,
            requirements,
            serial,
            sides,
            sizes,
            user_data,
        } => {
            let units = state.units.both(FunctionalUnits::of(requirements));
            accept(state, version_2, units, serial, sides, sizes, user_data)
        }
        _ => Err(Breach::NothingToAnswer),
    }
}

/// The state after a message on which the call that sends it decides alone.
fn said_by_call(state: &State, message: &Message) -> Result<State, Breach>
    requires sound { IsSound state.now }
    requires call { is_by_call (meant_by message.now) ≡ true }
    ensures left { Leaves result (said_message state.now (meant_by message.now)) }
    ensures rule { broken_in result ≡ message_breach state.now (meant_by message.now) }
{
    match *message {
        Message::Refuse { user_data, .. } => {
            let refusal = Refusal::with(user_data);
            calling(state, &Request::Refuse { refusal })
        }
        Message::Data { user_data } => calling(state, &Request::Data { user_data }),
        Message::Give { tokens } => {
            let tokens = tokens.set();
            calling(state, &Request::Give { tokens })
        }
        Message::Please { tokens, user_data } => {
            let tokens = tokens.set();
            calling(state, &Request::Please { tokens, user_data })
        }
        Message::MinorAck { number, user_data } => {
            let number = number.number;
            calling(state, &Request::MinorConfirm { number, user_data })
        }
        Message::Disconnect { user_data } => calling(state, &Request::ReleaseAccept { user_data }),
        Message::NotFinished { user_data } => calling(state, &Request::ReleaseRefuse { user_data }),
        _ => Err(Breach::NothingToAnswer),
    }
}

/// The state after a message with the serial number of a point, or of the restart that it confirms.
fn said_with_number(state: &State, message: &Message) -> Result<State, Breach>
    requires sound { IsSound state.now }
    requires number { is_at_number (meant_by message.now) ≡ true }
    ensures left { Leaves result (said_message state.now (meant_by message.now)) }
    ensures rule { broken_in result ≡ message_breach state.now (meant_by message.now) }
{
    let next = state.numbers.next;
    match *message {
        Message::MinorPoint {
            confirm,
            number,
            user_data,
        } => {
            let request = Request::Minor { confirm, user_data };
            numbered(state, number.number, next, &request)
        }
        Message::MajorPoint { number, user_data } => {
            numbered(state, number.number, next, &Request::Major { user_data })
        }
        Message::MajorAck { number, user_data } => major_ack(state, number, user_data),
        Message::RestartAck {
            number,
            sides,
            user_data,
        } => restart_ack(state, number, sides, user_data),
        _ => Err(Breach::NothingToAnswer),
    }
}

/// The state after a message that may be sent.
pub(crate) fn said_message(state: &State, message: &Message) -> Result<State, Breach>
    requires { IsSound state.now }
    ensures left { Leaves result (said_message state.now (meant_by message.now)) }
    ensures rule { broken_in result ≡ message_breach state.now (meant_by message.now) }
{
    match *message {
        Message::Connect { .. } | Message::Accept { .. } => said_opening(state, message),
        Message::Refuse { .. }
        | Message::Data { .. }
        | Message::Give { .. }
        | Message::Please { .. }
        | Message::MinorAck { .. }
        | Message::Disconnect { .. }
        | Message::NotFinished { .. } => said_by_call(state, message),
        Message::MinorPoint { .. }
        | Message::MajorPoint { .. }
        | Message::MajorAck { .. }
        | Message::RestartAck { .. } => said_with_number(state, message),
        Message::Restart {
            kind,
            number,
            wishes,
            user_data,
        } => restart(state, kind, number, wishes, user_data),
        Message::Finish { user_data } => finish(state, user_data),
        Message::Abort {
            transport_disconnect,
            user_data,
        } => abort(state, transport_disconnect, user_data),
        Message::AbortAccept => Err(Breach::NothingToAnswer),
    }
}

/// No size is agreed, or a TSDU of this many octets is within it.
pub(crate) fn is_in_size(state: &State, tsdu_octets: usize) -> bool
    ensures { result ≡ is_in_size state.now tsdu_octets }
{
    let limit = limit_of(state);
    limit == 0 || tsdu_octets <= limit as usize
}

/// Whether this many octets of one Data may be sent, after so many that were sent.
pub(crate) fn may_send(state: &State, sent: usize, octets: usize) -> Result<(), Breach>
    ensures kept { is_ok result ≡ may_send state.now (sent + octets) }
    ensures rule { broken_in result ≡ data_breach state.now (sent + octets) }
{
    if state.phase.is_over() {
        return Err(Breach::Call(CallError::Ended));
    }
    if !state.phase.is_ready() {
        return Err(Breach::Call(CallError::BadState));
    }
    if !state.rights().data_token {
        return Err(Breach::Call(CallError::TokenNotHeld));
    }
    if sent == 0 && octets == 0 {
        return Err(Breach::Call(CallError::Empty));
    }
    if sent > MOST_DATA || octets > MOST_DATA - sent {
        return Err(Breach::Call(CallError::TooLong));
    }
    Ok(())
}

/// A first part is in place if nothing is unfinished, and a later one if something is.
pub(crate) fn stands_in_place(sent: Option<usize>, place: Place) -> bool
    ensures { result ≡ stands_in_place sent place }
{
    match place {
        Place::First => sent.is_none(),
        Place::Middle | Place::Last => sent.is_some(),
    }
}
