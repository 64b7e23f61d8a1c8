//! Synchronization points and their confirmations.

ghost use Rattle.std.specs.Prelude.{◌≡◌, ◌&&◌, ◌<◌};
ghost use Rattle.osi_message.specs.Meanings.{MIP, MIA, MAP, MAA};
ghost use Rattle.osi_message.specs.Tokens as token;
ghost use Rattle.osi_session.specs.Respond.{in_phase, first_fault, is_acknowledgeable, lacks, point_conditions};
ghost use Rattle.osi_session.specs.Steps.{Reacts};

use crate::faults::UnitFault;
use crate::indications::Indication;
use crate::phases::Phase;
use crate::reactions::Reaction;
use crate::state::State;
use osi_message::Octets;
use osi_spdu::{Kind, Serial};
use std::alloc::{AllocError, Global};

impl State {
    /// This end holds no token that a minor point needs.
    fn lacks_minor_tokens(&self) -> bool
        ensures { result ≡ (lacks self.now token.data_token && lacks self.now token.minor) }
    {
        !self.held.data_token && !self.held.minor
    }

    /// This end holds no token that a major point needs.
    fn lacks_major_tokens(&self) -> bool
        ensures { result ≡ (lacks self.now token.data_token
            && (lacks self.now token.minor && lacks self.now token.major)) }
    {
        !self.held.data_token && !self.held.minor && !self.held.major
    }
}

/// The fault of a point: its functional unit is not selected, this end holds one of its tokens, or its
/// number is not V(M).
fn point_fault(
    state: &State,
    si: u8,
    is_selected: bool,
    is_lacking: bool,
    number: u32,
) -> Option<UnitFault>
    ensures { result ≡ first_fault si (point_conditions state.now is_selected is_lacking number) }
{
    if !is_selected {
        return Some(UnitFault::NotSelected(si));
    }
    if !is_lacking {
        return Some(UnitFault::TokenHeld(si));
    }
    if number != state.numbers.next {
        return Some(UnitFault::BadNumber(si));
    }
    None
}

/// MIP, of a peer that has the tokens of data and of minor points; its number is V(M).
#[tactic(auto, unfolding(crate::specs::Respond::take_expected))]
pub(super) fn minor_point(
    alloc: Global,
    state: &State,
    confirm: bool,
    number: Serial,
    user_data: &[u8],
) -> Result<Reaction, AllocError>
    ensures { Reacts result (in_phase state.now (MIP confirm number.number user_data.now)) }
{
    if !state.phase.is_ready() {
        return Ok(Reaction::unexpected(state, Kind::MinorSyncPoint));
    }
    let si = Kind::MinorSyncPoint.si();
    let number = number.number;
    let is_lacking = state.lacks_minor_tokens();
    if let Some(fault) = point_fault(state, si, state.units.minor, is_lacking, number) {
        return Ok(Reaction::bad(state, fault));
    }
    let next = State {
        numbers: state.numbers.point_taken(),
        ..*state
    };
    let user_data = Octets::copy(alloc, user_data)?;
    let shown = Indication::Minor {
        number,
        confirm,
        user_data,
    };
    Ok(Reaction::showing(next, shown))
}

/// Whether the peer may confirm the minor points up to this one: they were sent last, are not confirmed, and no major
/// point is outstanding.
fn is_acknowledgeable(state: &State, number: u32) -> bool
    requires { number < 1000000 }
    ensures { result ≡ is_acknowledgeable state.now number }
{
    let numbers = state.numbers;
    let above = if state.phase.is_major_asked() {
        number + 1
    } else {
        number
    };
    !numbers.answers && numbers.confirmed <= number && above < numbers.next
}

/// MIA.
#[tactic(auto, unfolding(crate::specs::Respond::take_expected))]
pub(super) fn minor_ack(
    alloc: Global,
    state: &State,
    number: Serial,
    user_data: &[u8],
) -> Result<Reaction, AllocError>
    ensures { Reacts result (in_phase state.now (MIA number.number user_data.now)) }
{
    if !state.phase.takes_minor_ack() {
        return Ok(Reaction::unexpected(state, Kind::MinorSyncAck));
    }
    let si = Kind::MinorSyncAck.si();
    let number = number.number;
    if !state.units.minor {
        return Ok(Reaction::bad(state, UnitFault::NotSelected(si)));
    }
    if !is_acknowledgeable(state, number) {
        return Ok(Reaction::bad(state, UnitFault::BadNumber(si)));
    }
    let next = State {
        numbers: state.numbers.minor_confirmed(number),
        ..*state
    };
    let user_data = Octets::copy(alloc, user_data)?;
    Ok(Reaction::showing(next, Indication::MinorConfirmed { number, user_data }))
}

/// MAP, of a peer that has the tokens of data, minor and major points; its number is V(M).
#[tactic(auto, unfolding(crate::specs::Respond::take_expected))]
pub(super) fn major_point(
    alloc: Global,
    state: &State,
    number: Serial,
    user_data: &[u8],
) -> Result<Reaction, AllocError>
    ensures { Reacts result (in_phase state.now (MAP number.number user_data.now)) }
{
    if !state.phase.is_ready() {
        return Ok(Reaction::unexpected(state, Kind::MajorSyncPoint));
    }
    let si = Kind::MajorSyncPoint.si();
    let number = number.number;
    let is_lacking = state.lacks_major_tokens();
    if let Some(fault) = point_fault(state, si, state.units.major, is_lacking, number) {
        return Ok(Reaction::bad(state, fault));
    }
    let next = State {
        phase: Phase::MajorDue,
        numbers: state.numbers.point_taken(),
        ..*state
    };
    let user_data = Octets::copy(alloc, user_data)?;
    Ok(Reaction::showing(next, Indication::Major { number, user_data }))
}

/// MAA: its number is that of the outstanding major point, V(M) - 1.
#[tactic(auto, unfolding(crate::specs::Respond::take_expected))]
pub(super) fn major_ack(
    alloc: Global,
    state: &State,
    number: Serial,
    user_data: &[u8],
) -> Result<Reaction, AllocError>
    ensures { Reacts result (in_phase state.now (MAA number.number user_data.now)) }
{
    if !state.phase.is_major_asked() {
        return Ok(Reaction::unexpected(state, Kind::MajorSyncAck));
    }
    if number.number + 1 != state.numbers.next {
        return Ok(Reaction::bad(state, UnitFault::BadNumber(Kind::MajorSyncAck.si())));
    }
    let next = State {
        phase: Phase::Ready,
        numbers: state.numbers.major_confirmed(),
        ..*state
    };
    let user_data = Octets::copy(alloc, user_data)?;
    Ok(Reaction::showing(next, Indication::MajorConfirmed { user_data }))
}
