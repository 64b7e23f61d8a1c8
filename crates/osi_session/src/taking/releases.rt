//! Release, and abort.

ghost use Rattle.std.specs.Prelude.{◌≡◌};
ghost use Rattle.osi_message.specs.Meanings.{FN, DN, NF, AB};
ghost use Rattle.osi_session.specs.Respond.{in_phase};
ghost use Rattle.osi_session.specs.Steps.{Reacts};

use crate::faults::UnitFault;
use crate::indications::{AbortCause, Indication};
use crate::phases::Phase;
use crate::reactions::{Reaction, Reply};
use crate::state::State;
use osi_message::Octets;
use osi_spdu::Kind;
use std::alloc::{AllocError, Global};

/// The bit of a user's abort.
const BY_USER: u8 = 0x02;

/// FN: the peer holds all tokens, so this end holds none.
#[tactic(auto, unfolding(crate::specs::Respond::take_expected))]
pub(super) fn finish(alloc: Global, state: &State, user_data: &[u8]) -> Result<Reaction, AllocError>
    ensures { Reacts result (in_phase state.now (FN user_data.now)) }
{
    if !state.phase.is_ready() {
        return Ok(Reaction::unexpected(state, Kind::Finish));
    }
    if !state.held.is_empty() {
        return Ok(Reaction::bad(state, UnitFault::TokenHeld(Kind::Finish.si())));
    }
    let next = State {
        phase: Phase::ReleaseDue,
        ..*state
    };
    let user_data = Octets::copy(alloc, user_data)?;
    Ok(Reaction::showing(next, Indication::Release { user_data }))
}

/// DN.
#[tactic(auto, unfolding(crate::specs::Respond::take_expected))]
pub(super) fn disconnect(
    alloc: Global,
    state: &State,
    user_data: &[u8],
) -> Result<Reaction, AllocError>
    ensures { Reacts result (in_phase state.now (DN user_data.now)) }
{
    if !state.phase.is_releasing() {
        return Ok(Reaction::unexpected(state, Kind::Disconnect));
    }
    let user_data = Octets::copy(alloc, user_data)?;
    Ok(Reaction {
        closes: true,
        ..Reaction::showing(
            state.without_tokens(Phase::Ended),
            Indication::Released { user_data },
        )
    })
}

/// NF, if the release may be refused.
#[tactic(auto, unfolding(crate::specs::Respond::take_expected))]
pub(super) fn not_finished(
    alloc: Global,
    state: &State,
    user_data: &[u8],
) -> Result<Reaction, AllocError>
    ensures { Reacts result (in_phase state.now (NF user_data.now)) }
{
    if !state.phase.is_releasing() {
        return Ok(Reaction::unexpected(state, Kind::NotFinished));
    }
    if !state.units.negotiated_release {
        return Ok(Reaction::bad(state, UnitFault::NotSelected(Kind::NotFinished.si())));
    }
    let next = State {
        phase: Phase::Ready,
        ..*state
    };
    let user_data = Octets::copy(alloc, user_data)?;
    Ok(Reaction::showing(next, Indication::ReleaseRefused { user_data }))
}

/// AB, of the peer's user or of its provider. Before a CN was taken there is no user to be told.
#[tactic(auto, unfolding(crate::specs::Respond::take_expected))]
pub(super) fn abort(
    alloc: Global,
    state: &State,
    bits: u8,
    user_data: &[u8],
) -> Result<Reaction, AllocError>
    ensures { Reacts result (in_phase state.now (AB bits user_data.now)) }
{
    let shown = if state.phase.is_wait_cn() {
        None
    } else if bits & BY_USER == BY_USER {
        let user_data = Octets::copy(alloc, user_data)?;
        Some(Indication::Aborted { user_data })
    } else {
        let cause = AbortCause::Peer(bits);
        Some(Indication::ProviderAbort { cause })
    };
    Ok(Reaction {
        next: state.without_tokens(Phase::Ended),
        shown,
        reply: Some(Reply::AbortAccept),
        closes: false,
    })
}
