//! Resynchronization.

ghost use Rattle.std.specs.Prelude.{◌≡◌};
ghost use Rattle.osi_message.specs.Meanings.{RS, RA};
ghost use Rattle.osi_session.specs.Respond.{in_phase, stands};
ghost use Rattle.osi_session.specs.Steps.{Reacts};

use crate::faults::UnitFault;
use crate::indications::Indication;
use crate::phases::Phase;
use crate::reactions::Reaction;
use crate::sides::{Sides, answers_wishes};
use crate::state::State;
use osi_message::Octets;
use osi_spdu::{Kind, ResyncType, Serial, TokenSetting};
use std::alloc::{AllocError, Global};

/// Whether a restart of the peer takes effect: this end has not requested one, or has requested one at a higher number,
/// or one at the same number and is the called end.
#[tactic(auto, unfolding(crate::specs::Respond::stands))]
fn stands(state: &State, number: u32) -> bool
    ensures { result ≡ stands state.now number }
{
    let own = state.numbers.next;
    !state.phase.is_restarting() || number < own || (number == own && !state.is_caller)
}

/// RS, at a number from the base to V(M); an end that has itself requested a restart takes any number from the base on.
#[tactic(auto, unfolding(crate::specs::Respond::take_expected))]
pub(super) fn restart(
    alloc: Global,
    state: &State,
    kind: ResyncType,
    number: Serial,
    wishes: TokenSetting,
    user_data: &[u8],
) -> Result<Reaction, AllocError>
    ensures { Reacts result (in_phase state.now (RS kind number.number wishes user_data.now)) }
{
    if !state.phase.takes_restart() {
        return Ok(Reaction::unexpected(state, Kind::Resynchronize));
    }
    let si = Kind::Resynchronize.si();
    let number = number.number;
    if !(state.units.resynchronize && matches!(kind, ResyncType::Restart)) {
        return Ok(Reaction::bad(state, UnitFault::NotSelected(si)));
    }
    let is_taken = state.phase.is_restarting() || number <= state.numbers.next;
    if !(state.base <= number && is_taken) {
        return Ok(Reaction::bad(state, UnitFault::BadNumber(si)));
    }
    if !stands(state, number) {
        return Ok(Reaction::silent(*state));
    }
    let next = State {
        wishes,
        numbers: state.numbers.restarted_at(number),
        ..state.without_tokens(Phase::RestartDue)
    };
    let user_data = Octets::copy(alloc, user_data)?;
    let shown = Indication::Restart {
        number,
        wishes,
        user_data,
    };
    Ok(Reaction::showing(next, shown))
}

/// RA: its number is that of the restart, and the sides are ones that the wishes allow.
#[tactic(auto, unfolding(crate::specs::Respond::take_expected))]
pub(super) fn restart_ack(
    alloc: Global,
    state: &State,
    number: Serial,
    answer: TokenSetting,
    user_data: &[u8],
) -> Result<Reaction, AllocError>
    ensures { Reacts result (in_phase state.now (RA number.number answer user_data.now)) }
{
    if !state.phase.is_restarting() {
        return Ok(Reaction::unexpected(state, Kind::ResynchronizeAck));
    }
    let si = Kind::ResynchronizeAck.si();
    let number = number.number;
    if number != state.numbers.next {
        return Ok(Reaction::bad(state, UnitFault::BadNumber(si)));
    }
    if !answers_wishes(state.units, state.wishes, answer) {
        return Ok(Reaction::bad(state, UnitFault::BadTokens(si)));
    }
    let sides = Sides::stated(state.units, answer);
    let next = State {
        phase: Phase::Ready,
        held: sides.of_asker(state.units),
        ..*state
    };
    let user_data = Octets::copy(alloc, user_data)?;
    let shown = Indication::Restarted {
        number,
        sides,
        user_data,
    };
    Ok(Reaction::showing(next, shown))
}
