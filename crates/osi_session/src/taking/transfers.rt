//! Data, and tokens that are given and asked for.

ghost use Rattle.std.specs.Prelude.{◌≡◌};
ghost use Rattle.osi_message.specs.Meanings.{DT, GT, PT};
ghost use Rattle.osi_session.specs.Respond.{in_phase};
ghost use Rattle.osi_session.specs.Steps.{Reacts, outcome_of};

use crate::faults::UnitFault;
use crate::indications::Indication;
use crate::reactions::Reaction;
use crate::state::State;
use osi_message::{Octets, Tokens};
use osi_spdu::Kind;
use std::alloc::{AllocError, Global};

/// DT, of a peer that has the data token.
#[tactic(auto, unfolding(crate::specs::Respond::take_expected))]
pub(super) fn data(alloc: Global, state: &State, user_data: &[u8]) -> Result<Reaction, AllocError>
    ensures { Reacts result (in_phase state.now (DT user_data.now)) }
{
    if !state.phase.takes_data() {
        return Ok(Reaction::unexpected(state, Kind::DataTransfer));
    }
    if state.held.data_token {
        return Ok(Reaction::bad(state, UnitFault::TokenHeld(Kind::DataTransfer.si())));
    }
    let user_data = Octets::copy(alloc, user_data)?;
    Ok(Reaction::showing(*state, Indication::Data { user_data }))
}

/// GT: tokens that are available, and that this end does not hold.
#[tactic(auto, unfolding(crate::specs::Respond::take_expected))]
pub(super) fn give(state: &State, tokens: Tokens) -> Reaction
    ensures { outcome_of result ≡ in_phase state.now (GT tokens) }
{
    if !state.phase.takes_give() {
        return Reaction::unexpected(state, Kind::GiveTokens);
    }
    if !(tokens.is_within(state.units.available()) && tokens.is_disjoint(state.held)) {
        return Reaction::bad(state, UnitFault::BadTokens(Kind::GiveTokens.si()));
    }
    let next = State {
        held: state.held.united(tokens),
        ..*state
    };
    let tokens = tokens.set();
    Reaction::showing(next, Indication::Given { tokens })
}

/// PT: tokens that are available.
#[tactic(auto, unfolding(crate::specs::Respond::take_expected))]
pub(super) fn please(
    alloc: Global,
    state: &State,
    tokens: Tokens,
    user_data: &[u8],
) -> Result<Reaction, AllocError>
    ensures { Reacts result (in_phase state.now (PT tokens user_data.now)) }
{
    if !state.phase.takes_please() {
        return Ok(Reaction::unexpected(state, Kind::PleaseTokens));
    }
    if !tokens.is_within(state.units.available()) {
        return Ok(Reaction::bad(state, UnitFault::BadTokens(Kind::PleaseTokens.si())));
    }
    let tokens = tokens.set();
    let user_data = Octets::copy(alloc, user_data)?;
    Ok(Reaction::showing(*state, Indication::Asked { tokens, user_data }))
}
