//! The table of calls.

ghost use Rattle.osi_spdu.specs.Fields.{bits_of, unit_bits};
ghost use Rattle.osi_spdu.specs.Sizes.{named_by};
ghost use Rattle.std.specs.Prelude.{◌≡◌, ◌<◌, ◌≤◌, ◌&&◌, if◌then◌else◌, true, [], length, nat_le, nat_lt, None, Some, Ok, Err, IfOk, OnOk};
ghost use Rattle.std.specs.Prelude.{IfErr};
ghost use Rattle.osi_session.specs.Allowed.{after, allowed, met, needs, may_call, octets_of, most_of, has_right, point_needs};
ghost use Rattle.osi_session.specs.Allowed.{is_restartable};
ghost use Rattle.osi_session.specs.Calls.{called_by, refusal_by, Accept, Refuse, Data, Give, Please, Minor, MinorConfirm, Major};
ghost use Rattle.osi_session.specs.Calls.{MajorConfirm, Restart, RestartConfirm, Release, ReleaseAccept, ReleaseRefuse, Abort};
ghost use Rattle.osi_message.specs.Meanings.{meant_by, DT, MIP, MIA};
ghost use Rattle.osi_session.specs.Numbers.{minor_confirmed, point_sent};
ghost use Rattle.osi_session.specs.Points.{call_for, may_advance};
ghost use Rattle.osi_session.specs.Room.{most_whole};
ghost use Rattle.osi_session.specs.Sound.{IsSound};
ghost use Rattle.osi_session.specs.State.{without_tokens};
ghost use Rattle.osi_session.specs.Steps.{Answers, Finds, step_of};
ghost use Rattle.osi_message.specs.Tokens.{named, no_token, set_of};
ghost use Rattle.osi_message.specs.Tokens as token;
ghost use Rattle.osi_session.specs.Units.{available};

use crate::faults::CallError;
use crate::numbers::Numbers;
use crate::phases::Phase;
use crate::plans::SentPoint;
use crate::requests::{Refusal, Request};
use crate::selected::{FunctionalUnits, is_profile};
use crate::sides::{Sides, offered};
use crate::sizes::{answered_sizes, fits_ack, fits_limit, fits_point, limit_of, most_within};
use crate::state::State;
use osi_message::{Message, Tokens};
use osi_spdu::{Requirements, ResyncType, Serial, TokenSet, TokenSetting, TsduSizes};

/// The most octets of user data in a call other than data.
pub(crate) const MOST_USER_DATA: usize = 10_240;

/// The most octets of data: a TSDU has 4 more.
pub(crate) const MOST_DATA: usize = 1_048_572;

/// The number of the last point that is possible.
const LAST_NUMBER: u32 = 999_999;

/// A user's abort, which also releases the transport connection.
const USER_ABORT: u8 = 0x03;

/// The state after a call, and the unit that it sends.
#[derive(Clone, Copy)]
pub(crate) struct Step<'a> {
    pub(crate) next: State,
    pub(crate) sent: Message<'a>,
}

/// Whether the phase allows the call.
pub(crate) fn may_call(phase: Phase, request: &Request) -> bool
    ensures { result ≡ may_call phase (called_by request.now) }
{
    match request {
        Request::Accept { .. } | Request::Refuse { .. } => phase.is_answering(),
        Request::Data { .. } | Request::Minor { .. } => phase.is_ready(),
        Request::Major { .. } | Request::Release { .. } => phase.is_ready(),
        Request::Give { .. } => phase.may_give(),
        Request::Please { .. } => phase.may_ask(),
        Request::MinorConfirm { .. } => phase.may_confirm_minor(),
        Request::MajorConfirm { .. } => phase.is_major_due(),
        Request::Restart { .. } => phase.may_restart(),
        Request::RestartConfirm { .. } => phase.is_restart_due(),
        Request::ReleaseAccept { .. } | Request::ReleaseRefuse { .. } => phase.is_release_due(),
        Request::Abort { .. } => phase.may_abort(),
    }
}

/// Whether the user data of a call is not too long.
pub(crate) fn fits(request: &Request) -> bool
    ensures { result ≡ nat_le (length (octets_of (called_by request.now))) (most_of (called_by request.now)) }
{
    match request {
        Request::Data { user_data } => user_data.len() <= MOST_DATA,
        Request::Give { .. } => true,
        Request::Refuse { refusal } => refusal.user_data().len() <= MOST_USER_DATA,
        Request::Accept { user_data, .. }
        | Request::Please { user_data, .. }
        | Request::Minor { user_data, .. }
        | Request::MinorConfirm { user_data, .. }
        | Request::Major { user_data }
        | Request::MajorConfirm { user_data }
        | Request::Restart { user_data, .. }
        | Request::RestartConfirm { user_data, .. }
        | Request::Release { user_data }
        | Request::ReleaseAccept { user_data }
        | Request::ReleaseRefuse { user_data }
        | Request::Abort { user_data } => user_data.len() <= MOST_USER_DATA,
    }
}

impl State {
    /// The state without a token, in a phase in which none is held.
    pub(crate) fn without_tokens(self, phase: Phase) -> State
        ensures { result ≡ without_tokens phase self }
    {
        State {
            phase,
            held: Tokens::NONE,
            ..self
        }
    }

    /// The tokens that are held, or not available.
    #[tactic(auto, unfolding(crate::specs::Units::available))]
    pub(crate) fn rights(&self) -> Tokens
        ensures { result ≡ set_of (has_right self.now) }
    {
        let there = self.units.available();
        Tokens {
            data_token: !there.data_token || self.held.data_token,
            minor: !there.minor || self.held.minor,
            major: !there.major || self.held.major,
            release: !there.release || self.held.release,
        }
    }

    /// The tokens that a minor point needs are held, or not available.
    fn has_minor_rights(&self) -> bool
        ensures { result ≡ (has_right self.now token.data_token && has_right self.now token.minor) }
    {
        let rights = self.rights();
        rights.data_token && rights.minor
    }

    /// The tokens that a major point needs are held, or not available.
    fn has_major_rights(&self) -> bool
        ensures { result ≡ (has_right self.now token.data_token
            && (has_right self.now token.minor && has_right self.now token.major)) }
    {
        let rights = self.rights();
        rights.data_token && rights.minor && rights.major
    }
}

#[tactic(auto, unfolding(crate::specs::Allowed::met))]
fn accept<'a>(
    state: &State,
    requirements: Requirements,
    serial: Serial,
    sides: Sides,
    sizes: TsduSizes,
    user_data: &'a [u8],
) -> Result<Step<'a>, CallError>
    ensures { Answers result (met state.now (Accept (unit_bits requirements) serial.number sides (named_by sizes) user_data.entry.now)) }
{
    let units = FunctionalUnits::of(requirements);
    if !(units.is_within(state.units) && is_profile(requirements)) {
        return Err(CallError::NotSelected);
    }
    let settled = sides.settle(units, state.wishes);
    let base = units.base(serial.number);
    let sizes = answered_sizes(state.sizes, sizes.named());
    Ok(Step {
        next: State {
            phase: Phase::Ready,
            units,
            held: settled.of_answerer(units),
            base,
            numbers: Numbers::from_base(base),
            sizes,
            ..*state
        },
        sent: Message::Accept {
            version_2: true,
            requirements,
            serial: units.initial_number(serial),
            sides: settled.setting(),
            sizes,
            user_data,
        },
    })
}

/// Data needs the data token, if it is available, and at least one octet.
#[tactic(auto, unfolding(crate::specs::Allowed::met))]
fn data<'a>(state: &State, user_data: &'a [u8]) -> Result<Step<'a>, CallError>
    ensures { Answers result (met state.now (Data user_data.entry.now)) }
{
    if !state.rights().data_token {
        return Err(CallError::TokenNotHeld);
    }
    if user_data.is_empty() {
        return Err(CallError::Empty);
    }
    Ok(Step {
        next: *state,
        sent: Message::Data { user_data },
    })
}

#[tactic(auto, unfolding(crate::specs::Allowed::met))]
fn give<'a>(state: &State, tokens: TokenSet) -> Result<Step<'a>, CallError>
    ensures { Answers result (met state.now (Give (named (bits_of tokens)))) }
{
    let tokens = Tokens::of(tokens);
    if !tokens.is_within(state.units.available()) {
        return Err(CallError::NotSelected);
    }
    if !tokens.is_within(state.held) {
        return Err(CallError::TokenNotHeld);
    }
    if tokens.is_empty() {
        return Err(CallError::Empty);
    }
    Ok(Step {
        next: State {
            held: state.held.without(tokens),
            ..*state
        },
        sent: Message::Give { tokens },
    })
}

#[tactic(auto, unfolding(crate::specs::Allowed::met))]
fn please<'a>(state: &State, tokens: TokenSet, user_data: &'a [u8]) -> Result<Step<'a>, CallError>
    ensures { Answers result (met state.now (Please (named (bits_of tokens)) user_data.entry.now)) }
{
    let tokens = Tokens::of(tokens);
    if !tokens.is_within(state.units.available()) {
        return Err(CallError::NotSelected);
    }
    if !tokens.is_disjoint(state.held) {
        return Err(CallError::TokenAlreadyHeld);
    }
    if tokens.is_empty() {
        return Err(CallError::Empty);
    }
    Ok(Step {
        next: *state,
        sent: Message::Please { tokens, user_data },
    })
}

/// The number of the next point, if its functional unit is selected, each of its tokens is held or not available, and
/// there is a number for it.
fn next_point(state: &State, is_selected: bool, has_rights: bool) -> Result<Serial, CallError>
    ensures tests { Finds result (point_needs state.now is_selected has_rights) }
    ensures number { IfOk result (λ s. s.number ≡ state.now.numbers.next) }
{
    if !is_selected {
        return Err(CallError::NotSelected);
    }
    if !has_rights {
        return Err(CallError::TokenNotHeld);
    }
    if state.numbers.next > LAST_NUMBER {
        return Err(CallError::SerialsUsedUp);
    }
    Ok(Serial {
        number: state.numbers.next,
    })
}

/// The number of the next minor point.
fn next_minor(state: &State) -> Result<Serial, CallError>
    ensures tests { Finds result (point_needs state.now state.now.units.minor (has_right state.now token.data_token
        && has_right state.now token.minor)) }
    ensures number { IfOk result (λ s. s.number ≡ state.now.numbers.next) }
{
    let serial = next_point(state, state.units.minor, state.has_minor_rights())?;
    Ok(serial)
}

#[tactic(auto, unfolding(crate::specs::Allowed::met))]
fn minor<'a>(state: &State, confirm: bool, user_data: &'a [u8]) -> Result<Step<'a>, CallError>
    ensures { Answers result (met state.now (Minor confirm user_data.entry.now)) }
{
    let number = next_minor(state)?;
    Ok(Step {
        next: State {
            numbers: state.numbers.point_sent(),
            ..*state
        },
        sent: Message::MinorPoint {
            confirm,
            number,
            user_data,
        },
    })
}

/// A minor point may be confirmed once, up to the last one, if points were taken last.
fn is_confirmable(numbers: Numbers, number: u32) -> bool
    ensures { result ≡ (numbers.answers && (nat_le numbers.confirmed number && nat_lt number numbers.next)) }
{
    numbers.answers && numbers.confirmed <= number && number < numbers.next
}

#[tactic(auto, unfolding(crate::specs::Allowed::met))]
fn minor_confirm<'a>(state: &State, number: u32, user_data: &'a [u8]) -> Result<Step<'a>, CallError>
    requires { state.now.numbers.next ≤ 1000000 }
    ensures { Answers result (met state.now (MinorConfirm number user_data.entry.now)) }
{
    if !state.units.minor {
        return Err(CallError::NotSelected);
    }
    let numbers = state.numbers;
    if !is_confirmable(numbers, number) {
        return Err(CallError::BadNumber);
    }
    Ok(Step {
        next: State {
            numbers: numbers.minor_confirmed(number),
            ..*state
        },
        sent: Message::MinorAck {
            number: Serial { number },
            user_data,
        },
    })
}

#[tactic(auto, unfolding(crate::specs::Allowed::met))]
fn major<'a>(state: &State, user_data: &'a [u8]) -> Result<Step<'a>, CallError>
    ensures { Answers result (met state.now (Major user_data.entry.now)) }
{
    let number = next_point(state, state.units.major, state.has_major_rights())?;
    Ok(Step {
        next: State {
            phase: Phase::MajorAsked,
            numbers: state.numbers.point_sent(),
            ..*state
        },
        sent: Message::MajorPoint { number, user_data },
    })
}

#[tactic(auto, unfolding(crate::specs::Allowed::met))]
fn major_confirm<'a>(state: &State, user_data: &'a [u8]) -> Step<'a>
    requires point { 0 < state.now.numbers.next }
    requires last { state.now.numbers.next ≤ 1000000 }
    ensures { Answers (Ok result) (met state.now (MajorConfirm user_data.entry.now)) }
{
    let number = Serial {
        number: state.numbers.next - 1,
    };
    Step {
        next: State {
            phase: Phase::Ready,
            numbers: state.numbers.major_confirmed(),
            ..*state
        },
        sent: Message::MajorAck { number, user_data },
    }
}

/// Whether the user may restart at this number: from V(R) to V(M), and below V(M) while a major
/// point is outstanding.
fn is_restartable(state: &State, number: u32) -> bool
    ensures { result ≡ is_restartable state.now number }
{
    let numbers = state.numbers;
    let below = if state.phase.in_major() {
        number < numbers.next
    } else {
        number <= numbers.next
    };
    numbers.lowest <= number && number <= LAST_NUMBER && below
}

#[tactic(auto, unfolding(crate::specs::Allowed::met))]
fn restart<'a>(
    state: &State,
    number: u32,
    wishes: TokenSetting,
    user_data: &'a [u8],
) -> Result<Step<'a>, CallError>
    ensures { Answers result (met state.now (Restart number wishes user_data.entry.now)) }
{
    if !state.units.resynchronize {
        return Err(CallError::NotSelected);
    }
    if !is_restartable(state, number) {
        return Err(CallError::BadNumber);
    }
    let wishes = offered(state.units, wishes);
    Ok(Step {
        next: State {
            wishes,
            numbers: state.numbers.restarted_at(number),
            ..state.without_tokens(Phase::Restarting)
        },
        sent: Message::Restart {
            kind: ResyncType::Restart,
            number: Serial { number },
            wishes,
            user_data,
        },
    })
}

#[tactic(auto, unfolding(crate::specs::Allowed::met))]
fn restart_confirm<'a>(state: &State, sides: Sides, user_data: &'a [u8]) -> Step<'a>
    requires { state.now.numbers.next < 1000000 }
    ensures { Answers (Ok result) (met state.now (RestartConfirm sides user_data.entry.now)) }
{
    let settled = sides.settle(state.units, state.wishes);
    let number = Serial {
        number: state.numbers.next,
    };
    Step {
        next: State {
            phase: Phase::Ready,
            held: settled.of_answerer(state.units),
            ..*state
        },
        sent: Message::RestartAck {
            number,
            sides: settled.setting(),
            user_data,
        },
    }
}

/// Release needs all available tokens. With duplex no token decides who may request it, so only the caller may.
#[tactic(auto, unfolding(crate::specs::Allowed::met))]
fn release<'a>(state: &State, user_data: &'a [u8]) -> Result<Step<'a>, CallError>
    ensures { Answers result (met state.now (Release user_data.entry.now)) }
{
    let rights = state.rights();
    let has_all = rights.data_token && rights.minor && rights.major && rights.release;
    if !(has_all && (!state.units.duplex || state.is_caller)) {
        return Err(CallError::TokenNotHeld);
    }
    Ok(Step {
        next: State {
            phase: Phase::Releasing,
            ..*state
        },
        sent: Message::Finish { user_data },
    })
}

#[tactic(auto, unfolding(crate::specs::Allowed::met))]
fn release_refuse<'a>(state: &State, user_data: &'a [u8]) -> Result<Step<'a>, CallError>
    ensures { Answers result (met state.now (ReleaseRefuse user_data.entry.now)) }
{
    if !state.units.negotiated_release {
        return Err(CallError::NotSelected);
    }
    Ok(Step {
        next: State {
            phase: Phase::Ready,
            ..*state
        },
        sent: Message::NotFinished { user_data },
    })
}

/// A call that ends the connection, or begins to end it.
fn over<'a>(state: &State, phase: Phase, sent: Message<'a>) -> Step<'a>
    ensures { step_of result ≡ record { next = without_tokens phase state.now; sent = meant_by sent.entry } }
{
    Step {
        next: state.without_tokens(phase),
        sent,
    }
}

#[tactic(auto, unfolding(crate::specs::Allowed::met))]
fn refuse<'a>(state: &State, refusal: Refusal<'a>) -> Step<'a>
    ensures { Answers (Ok result) (met state.now (Refuse (refusal_by refusal.entry))) }
{
    let reason = refusal.reason();
    let user_data = refusal.user_data();
    over(state, Phase::Ended, Message::Refuse { reason, user_data })
}

#[tactic(auto, unfolding(crate::specs::Allowed::met))]
fn release_accept<'a>(state: &State, user_data: &'a [u8]) -> Step<'a>
    ensures { Answers (Ok result) (met state.now (ReleaseAccept user_data.entry.now)) }
{
    over(state, Phase::Ended, Message::Disconnect { user_data })
}

#[tactic(auto, unfolding(crate::specs::Allowed::met))]
fn abort<'a>(state: &State, user_data: &'a [u8]) -> Step<'a>
    ensures { Answers (Ok result) (met state.now (Abort user_data.entry.now)) }
{
    let transport_disconnect = USER_ABORT;
    let sent = Message::Abort {
        transport_disconnect,
        user_data,
    };
    over(state, Phase::Aborting, sent)
}

/// The result of a call that its phase allows.
#[tactic(auto, unfolding(crate::specs::Allowed::met))]
pub(crate) fn decide_row<'a>(state: &State, request: &Request<'a>) -> Result<Step<'a>, CallError>
    requires sound { IsSound state.now }
    requires allowed { may_call state.now.phase (called_by request.now) ≡ true }
    ensures { Answers result (met state.now (called_by request.now)) }
{
    match *request {
        Request::Accept {
            requirements,
            serial,
            sides,
            sizes,
            user_data,
        } => accept(state, requirements, serial, sides, sizes, user_data),
        Request::Refuse { refusal } => Ok(refuse(state, refusal)),
        Request::Data { user_data } => data(state, user_data),
        Request::Give { tokens } => give(state, tokens),
        Request::Please { tokens, user_data } => please(state, tokens, user_data),
        Request::Minor { confirm, user_data } => minor(state, confirm, user_data),
        Request::MinorConfirm { number, user_data } => minor_confirm(state, number, user_data),
        Request::Major { user_data } => major(state, user_data),
        Request::MajorConfirm { user_data } => Ok(major_confirm(state, user_data)),
        Request::Restart {
            number,
            wishes,
            user_data,
        } => restart(state, number, wishes, user_data),
        Request::RestartConfirm { sides, user_data } => Ok(restart_confirm(
            state, sides, user_data,
        )),
        Request::Release { user_data } => release(state, user_data),
        Request::ReleaseAccept { user_data } => Ok(release_accept(state, user_data)),
        Request::ReleaseRefuse { user_data } => release_refuse(state, user_data),
        Request::Abort { user_data } => Ok(abort(state, user_data)),
    }
}

/// The first error of a call, or the state after it and the unit that it sends.
#[tactic(auto, unfolding(crate::specs::Allowed::allowed))]
pub(crate) fn decide<'a>(state: &State, request: &Request<'a>) -> Result<Step<'a>, CallError>
    requires { IsSound state.now }
    ensures { Answers result (allowed state.now (called_by request.now)) }
{
    if state.phase.is_over() {
        return Err(CallError::Ended);
    }
    if !may_call(state.phase, request) {
        return Err(CallError::BadState);
    }
    let step = decide_row(state, request)?;
    if !fits(request) {
        return Err(CallError::TooLong);
    }
    if !fits_limit(state, request, &step.sent) {
        return Err(CallError::TooLong);
    }
    Ok(step)
}

/// The first error of data; without an error the state is unchanged, and DT is sent.
#[tactic(auto, unfolding(crate::specs::Allowed::allowed, crate::specs::Allowed::met))]
pub(crate) fn allow_data(state: &State, user_data: &[u8]) -> Result<(), CallError>
    ensures ok { OnOk result (allowed state.now (Data user_data.now) ≡ Ok (record { next = state.now; sent = DT user_data.now })) }
    ensures err { IfErr result (λ e. allowed state.now (Data user_data.now) ≡ Err e) }
{
    if state.phase.is_over() {
        return Err(CallError::Ended);
    }
    if !state.phase.is_ready() {
        return Err(CallError::BadState);
    }
    if !state.rights().data_token {
        return Err(CallError::TokenNotHeld);
    }
    if user_data.is_empty() {
        return Err(CallError::Empty);
    }
    if user_data.len() > MOST_DATA {
        return Err(CallError::TooLong);
    }
    Ok(())
}

/// The most octets of data that may be sent in one TSDU now; 0 if no data may be sent.
#[tactic(auto, unfolding(crate::specs::Room::most_whole))]
pub(crate) fn most_whole(state: &State) -> usize
    ensures { result ≡ most_whole state.now }
{
    if !state.phase.is_ready() {
        return 0;
    }
    if !state.rights().data_token {
        return 0;
    }
    most_within(limit_of(state))
}

/// The first error of a minor point, or its number; then only the numbers change, and MIP is sent.
#[tactic(auto, unfolding(crate::specs::Allowed::allowed, crate::specs::Allowed::met, osi_message::specs::Written::user_data_of))]
pub(crate) fn allow_minor(
    state: &State,
    confirm: bool,
    user_data: &[u8],
) -> Result<Serial, CallError>
    requires { IsSound state.now }
    ensures ok { IfOk result (λ n. allowed state.now (Minor confirm user_data.now)
        ≡ Ok (record { next = record state.now { numbers = point_sent state.now.numbers }; sent = MIP confirm n.number user_data.now })) }
    ensures number { IfOk result (λ n. n.number ≡ state.now.numbers.next) }
    ensures err { IfErr result (λ e. allowed state.now (Minor confirm user_data.now) ≡ Err e) }
{
    if state.phase.is_over() {
        return Err(CallError::Ended);
    }
    if !state.phase.is_ready() {
        return Err(CallError::BadState);
    }
    let number = next_minor(state)?;
    if user_data.len() > MOST_USER_DATA {
        return Err(CallError::TooLong);
    }
    if !fits_point(state, confirm, number, user_data) {
        return Err(CallError::TooLong);
    }
    Ok(number)
}

/// The first error of a confirmation, or its number; then only the numbers change, and MIA is sent.
#[tactic(auto, unfolding(crate::specs::Allowed::allowed, crate::specs::Allowed::met, osi_message::specs::Written::user_data_of))]
pub(crate) fn allow_minor_confirm(
    state: &State,
    number: u32,
    user_data: &[u8],
) -> Result<Serial, CallError>
    requires { IsSound state.now }
    ensures ok { IfOk result (λ n. allowed state.now (MinorConfirm number user_data.now)
        ≡ Ok (record {
          next = record state.now { numbers = minor_confirmed number state.now.numbers };
          sent = MIA n.number user_data.now;
        })) }
    ensures number { IfOk result (λ n. n.number ≡ number) }
    ensures err { IfErr result (λ e. allowed state.now (MinorConfirm number user_data.now) ≡ Err e) }
{
    if state.phase.is_over() {
        return Err(CallError::Ended);
    }
    if !state.phase.may_confirm_minor() {
        return Err(CallError::BadState);
    }
    if !state.units.minor {
        return Err(CallError::NotSelected);
    }
    let numbers = state.numbers;
    if !is_confirmable(numbers, number) {
        return Err(CallError::BadNumber);
    }
    if user_data.len() > MOST_USER_DATA {
        return Err(CallError::TooLong);
    }
    let serial = Serial { number };
    if !fits_ack(state, serial, user_data) {
        return Err(CallError::TooLong);
    }
    Ok(serial)
}

/// Whether a point or a confirmation may be sent now, whatever its user data: the phase, the functional unit and the
/// tokens allow it, and it still has the right number.
#[inline(always)]
fn may_advance(state: &State, point: SentPoint) -> bool
    ensures { result ≡ may_advance state.now point }
{
    match point {
        SentPoint::Minor(number) => {
            state.phase.is_ready()
                && number.number == state.numbers.next
                && state.units.minor
                && state.has_minor_rights()
                && state.numbers.next <= LAST_NUMBER
        }
        SentPoint::Confirmation(number) => {
            state.phase.may_confirm_minor()
                && state.units.minor
                && is_confirmable(state.numbers, number.number)
        }
    }
}

/// The numbers after a point or a confirmation that may be sent now.
#[inline(always)]
pub(crate) fn numbers_after(state: &State, point: SentPoint) -> Option<Numbers>
    ensures { result ≡ (if may_advance state.now point then Some (after state.now (call_for point true [])).numbers else None) }
{
    if !may_advance(state, point) {
        return None;
    }
    match point {
        SentPoint::Minor(_) => Some(state.numbers.point_sent()),
        SentPoint::Confirmation(number) => Some(state.numbers.minor_confirmed(number.number)),
    }
}
