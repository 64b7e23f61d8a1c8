//! The table of units.

ghost use Rattle.std.specs.Prelude.{◌≡◌, false};
ghost use Rattle.osi_message.specs.Meanings.{meant_by};
ghost use Rattle.osi_session.specs.Respond.{drops, has_no_effect, passes_restarting, is_resynchronize, has_terms, in_phase, in_aborting};
ghost use Rattle.osi_session.specs.Respond.{in_ended, respond_unit};
ghost use Rattle.osi_session.specs.Steps.{Reacts, outcome_of};

use crate::phases::Phase;
use crate::reactions::{Reaction, Reply};
use crate::state::State;
use openings::{accept, connect, refuse};
use osi_message::Message;
use osi_spdu::Kind;
use points::{major_ack, major_point, minor_ack, minor_point};
use releases::{abort, disconnect, finish, not_finished};
use restarts::{restart, restart_ack};
use std::alloc::{AllocError, Global};
use transfers::{data, give, please};

mod openings;
mod points;
mod releases;
mod restarts;
mod transfers;

/// A token item that names no token has no effect.
pub(crate) fn has_no_effect(message: &Message) -> bool
    ensures { result ≡ has_no_effect (meant_by message.now) }
{
    match message {
        Message::Give { tokens } | Message::Please { tokens, .. } => tokens.is_empty(),
        _ => false,
    }
}

/// An end that has requested a restart takes this unit; it discards all others.
fn passes_restarting(message: &Message) -> bool
    ensures { result ≡ passes_restarting (meant_by message.now) }
{
    matches!(
        message,
        Message::Restart { .. } | Message::RestartAck { .. } | Message::Abort { .. }
    )
}

/// What is discarded: a token item that names no token, and while a restart is awaited what does not
/// pass.
pub(crate) fn drops(state: &State, message: &Message) -> bool
    ensures { result ≡ drops state.now (meant_by message.now) }
{
    has_no_effect(message) || (state.phase.is_restarting() && !passes_restarting(message))
}

/// RS: a token item before it has no effect.
pub(crate) fn is_restart(message: &Message) -> bool
    ensures { result ≡ is_resynchronize (meant_by message.now) }
{
    matches!(message, Message::Restart { .. })
}

/// A unit that arrives while the connection lives. Its row first tests whether the phase expects it.
#[tactic(auto, unfolding(crate::specs::Respond::take_expected))]
fn take_live(alloc: Global, state: &State, message: Message<'_>) -> Result<Reaction, AllocError>
    ensures { Reacts result (in_phase state.now (meant_by message.entry)) }
{
    match message {
        Message::Connect {
            version_2,
            requirements,
            serial,
            wishes,
            sizes,
            user_data,
            ..
        } => connect(
            alloc,
            state,
            version_2,
            requirements,
            serial,
            wishes,
            sizes,
            user_data,
        ),
        Message::Accept {
            version_2,
            requirements,
            serial,
            sides,
            sizes,
            user_data,
        } => accept(
            alloc,
            state,
            version_2,
            requirements,
            serial,
            sides,
            sizes,
            user_data,
        ),
        _ => take_within(alloc, state, message),
    }
}

/// A unit that names no functional units. No phase of a live connection expects an AA.
fn take_within(alloc: Global, state: &State, message: Message<'_>) -> Result<Reaction, AllocError>
    requires { has_terms (meant_by message) ≡ false }
    ensures { Reacts result (in_phase state.now (meant_by message.entry)) }
{
    match message {
        Message::Refuse { reason, user_data } => refuse(alloc, state, reason, user_data),
        Message::Data { user_data } => data(alloc, state, user_data),
        Message::Give { tokens } => Ok(give(state, tokens)),
        Message::Please { tokens, user_data } => please(alloc, state, tokens, user_data),
        Message::MinorPoint {
            confirm,
            number,
            user_data,
        } => minor_point(alloc, state, confirm, number, user_data),
        Message::MinorAck { number, user_data } => minor_ack(alloc, state, number, user_data),
        Message::MajorPoint { number, user_data } => major_point(alloc, state, number, user_data),
        Message::MajorAck { number, user_data } => major_ack(alloc, state, number, user_data),
        Message::Restart {
            kind,
            number,
            wishes,
            user_data,
        } => restart(alloc, state, kind, number, wishes, user_data),
        Message::RestartAck {
            number,
            sides,
            user_data,
        } => restart_ack(alloc, state, number, sides, user_data),
        Message::Finish { user_data } => finish(alloc, state, user_data),
        Message::Disconnect { user_data } => disconnect(alloc, state, user_data),
        Message::NotFinished { user_data } => not_finished(alloc, state, user_data),
        Message::Abort {
            transport_disconnect,
            user_data,
        } => abort(alloc, state, transport_disconnect, user_data),
        _ => Ok(Reaction::unexpected(state, Kind::AbortAccept)),
    }
}

/// A unit in Aborting: AB and AA end the phase, any other unit is discarded.
fn take_aborting(state: &State, message: &Message) -> Reaction
    ensures { outcome_of result ≡ in_aborting state.now (meant_by message.now) }
{
    match message {
        Message::Abort { .. } | Message::AbortAccept => Reaction {
            closes: true,
            ..Reaction::silent(state.without_tokens(Phase::Ended))
        },
        _ => Reaction::silent(*state),
    }
}

/// A unit in Ended: AB is answered, any other unit is discarded.
fn take_ended(state: &State, message: &Message) -> Reaction
    ensures { outcome_of result ≡ in_ended state.now (meant_by message.now) }
{
    match message {
        Message::Abort { .. } => Reaction {
            reply: Some(Reply::AbortAccept),
            ..Reaction::silent(*state)
        },
        _ => Reaction::silent(*state),
    }
}

/// The effect of one unit.
#[tactic(auto, unfolding(crate::specs::Respond::respond_unit))]
pub(crate) fn take_unit(
    alloc: Global,
    state: &State,
    message: Message<'_>,
) -> Result<Reaction, AllocError>
    ensures { Reacts result (respond_unit state.now (meant_by message.entry)) }
{
    if state.phase.is_aborting() {
        return Ok(take_aborting(state, &message));
    }
    if state.phase.is_ended() {
        return Ok(take_ended(state, &message));
    }
    if drops(state, &message) {
        return Ok(Reaction::silent(*state));
    }
    take_live(alloc, state, message)
}
