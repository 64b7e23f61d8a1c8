//! The effect of a unit, and the answer to it.

ghost use Rattle.std.specs.Prelude.{◌≡◌, [], Some};
ghost use Rattle.osi_session.specs.Respond.{nothing, shows, bad, lost, replies_abort};
ghost use Rattle.osi_session.specs.Shown.{shown_by};
ghost use Rattle.osi_session.specs.Steps.{outcome_of, reply_of};
ghost use Rattle.osi_session.specs.State.{without_tokens};
ghost use Rattle.osi_session.specs.declared.faults.UnitFault.TheVariants.{Unexpected};
ghost use Rattle.osi_session.specs.declared.phases.Phase.TheVariants.{Ended};
ghost use Rattle.osi_spdu.specs.Kinds.{si_of};
ghost use Rattle.osi_message.specs.Meanings.{meant_by};
ghost use Rattle.osi_message.specs.Written.{user_data_of};

use crate::faults::UnitFault;
use crate::indications::{AbortCause, Indication};
use crate::phases::Phase;
use crate::state::State;
use osi_message::Message;
use osi_spdu::Kind;

/// The reason of an RF if the version is not supported.
const VERSION_NOT_SUPPORTED: u8 = 132;

/// The reason of an RF for a restriction of the implementation.
const IMPLEMENTATION_RESTRICTION: u8 = 134;

/// The octet of an AB for a protocol error, which also releases the transport connection.
const PROTOCOL_ERROR: u8 = 0x05;

/// An automatic answer to a unit, apart from what the user sends.
#[derive(Clone, Copy)]
pub enum Reply {
    /// RF with reason 132: the peer does not have version 2.
    VersionNotSupported,
    /// RF with reason 134: there is neither half-duplex nor duplex, or a size is one that no user can give.
    ImplementationRestriction,
    /// AB for a protocol error, which also releases the transport connection.
    ProtocolError,
    /// AA.
    AbortAccept,
}

impl Reply {
    /// The unit that is sent.
    #[tactic(auto, unfolding(osi_message::specs::Written::user_data_of))]
    pub(crate) fn message(self) -> Message<'static>
        ensures meaning { meant_by result ≡ reply_of self }
        ensures short { user_data_of (meant_by result) ≡ [] }
    {
        match self {
            Reply::VersionNotSupported => Message::Refuse {
                reason: VERSION_NOT_SUPPORTED,
                user_data: &[],
            },
            Reply::ImplementationRestriction => Message::Refuse {
                reason: IMPLEMENTATION_RESTRICTION,
                user_data: &[],
            },
            Reply::ProtocolError => Message::Abort {
                transport_disconnect: PROTOCOL_ERROR,
                user_data: &[],
            },
            Reply::AbortAccept => Message::AbortAccept,
        }
    }
}

/// The effect of a unit: the state after it, the indication, the answer, and whether the transport connection is
/// closed.
#[derive(Drop)]
pub(crate) struct Reaction {
    pub(crate) next: State,
    pub(crate) shown: Option<Indication>,
    pub(crate) reply: Option<Reply>,
    pub(crate) closes: bool,
}

impl Reaction {
    /// Only the state may change.
    pub(crate) fn silent(next: State) -> Reaction
        ensures { outcome_of result ≡ nothing next }
    {
        Reaction {
            next,
            shown: None,
            reply: None,
            closes: false,
        }
    }

    /// An indication, and nothing is sent.
    pub(crate) fn showing(next: State, indication: Indication) -> Reaction
        ensures { outcome_of result ≡ shows next (shown_by indication) }
    {
        Reaction {
            next,
            shown: Some(indication),
            reply: None,
            closes: false,
        }
    }

    /// A CN that can't be accepted: RF is sent, and nothing is indicated.
    pub(crate) fn refusing(state: &State, reply: Reply) -> Reaction
        ensures { outcome_of result ≡ record (nothing (without_tokens Ended state.now)) { reply = Some (reply_of reply) } }
    {
        Reaction {
            reply: Some(reply),
            ..Reaction::silent(state.without_tokens(Phase::Ended))
        }
    }

    /// A bad unit: AB is sent. Before a CN was taken there is no user to be told.
    pub(crate) fn bad(state: &State, fault: UnitFault) -> Reaction
        ensures { outcome_of result ≡ bad state.now fault }
    {
        let cause = AbortCause::Unit(fault);
        let shown = if state.phase.is_wait_cn() {
            None
        } else {
            Some(Indication::ProviderAbort { cause })
        };
        Reaction {
            next: state.without_tokens(Phase::Aborting),
            shown,
            reply: Some(Reply::ProtocolError),
            closes: false,
        }
    }

    /// A unit that the phase does not expect is bad.
    pub(crate) fn unexpected(state: &State, kind: Kind) -> Reaction
        ensures { outcome_of result ≡ bad state.now (Unexpected (si_of kind)) }
    {
        Reaction::bad(state, UnitFault::Unexpected(kind.si()))
    }

    /// Whether the unit was bad.
    pub(crate) fn is_bad(&self) -> bool
        ensures { result ≡ replies_abort (outcome_of self.now).reply }
    {
        matches!(self.reply, Some(Reply::ProtocolError))
    }

    /// The transport connection was closed or broken, or had a fault.
    pub(crate) fn lost(state: &State) -> Reaction
        ensures { outcome_of result ≡ lost state.now }
    {
        let cause = AbortCause::Lost;
        let shown = if state.phase.shows_loss() {
            Some(Indication::ProviderAbort { cause })
        } else {
            None
        };
        Reaction {
            next: state.without_tokens(Phase::Ended),
            shown,
            reply: None,
            closes: false,
        }
    }
}
