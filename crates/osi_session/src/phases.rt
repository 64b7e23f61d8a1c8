//! The phases of a session connection.

ghost use Rattle.std.specs.Prelude.{◌≡◌};
ghost use Rattle.osi_session.specs.Phases.{is_over, is_wait_transport, is_wait_cn, is_connecting, is_answering, is_ready, is_major_asked};
ghost use Rattle.osi_session.specs.Phases.{is_major_due, is_releasing, is_release_due, is_restarting, is_restart_due, is_aborting};
ghost use Rattle.osi_session.specs.Phases.{is_ended, is_settled, in_major, may_give, may_ask, may_confirm_minor, may_restart, takes_data};
ghost use Rattle.osi_session.specs.Phases.{takes_give, takes_please, takes_minor_ack, takes_restart, may_abort, may_hold, shows_loss};

/// The phase of a session connection (X.225 annex A, states).
#[derive(Clone, Copy, PartialEq, Eq)]
pub enum Phase {
    /// The transport connection is requested; at the caller.
    WaitTransport,
    /// The transport connection is open, and a CN is awaited.
    WaitCn,
    /// CN was sent, and its answer is awaited.
    Connecting,
    /// CN was taken, and the user is to answer it.
    Answering,
    /// Data, tokens and points may go both ways.
    Ready,
    /// A major point was sent, and its confirmation is awaited.
    MajorAsked,
    /// A major point was taken, and the user is to confirm it.
    MajorDue,
    /// Release was requested, and its answer is awaited.
    Releasing,
    /// The peer requested release, and the user is to answer.
    ReleaseDue,
    /// A restart was requested, and its answer is awaited.
    Restarting,
    /// The peer requested a restart, and the user is to answer.
    RestartDue,
    /// AB was sent, and AA is awaited.
    Aborting,
    /// The connection is gone.
    Ended,
}

// Which calls and units each phase allows.
impl Phase {
    /// The connection is aborted or gone.
    pub(crate) fn is_over(self) -> bool
        ensures { result ≡ is_over self }
    {
        matches!(self, Phase::Aborting | Phase::Ended)
    }

    /// The CN is answered.
    pub(crate) fn is_settled(self) -> bool
        ensures { result ≡ is_settled self }
    {
        !matches!(
            self,
            Phase::WaitTransport | Phase::WaitCn | Phase::Connecting | Phase::Answering
        )
    }

    /// The transport connection is awaited.
    pub(crate) fn is_wait_transport(self) -> bool
        ensures { result ≡ is_wait_transport self }
    {
        matches!(self, Phase::WaitTransport)
    }

    /// A CN is awaited, so there is no user yet.
    pub(crate) fn is_wait_cn(self) -> bool
        ensures { result ≡ is_wait_cn self }
    {
        matches!(self, Phase::WaitCn)
    }

    /// The answer to the CN is awaited.
    pub(crate) fn is_connecting(self) -> bool
        ensures { result ≡ is_connecting self }
    {
        matches!(self, Phase::Connecting)
    }

    /// The user is to answer the CN.
    pub(crate) fn is_answering(self) -> bool
        ensures { result ≡ is_answering self }
    {
        matches!(self, Phase::Answering)
    }

    /// Data may be sent.
    pub(crate) fn is_ready(self) -> bool
        ensures { result ≡ is_ready self }
    {
        matches!(self, Phase::Ready)
    }

    /// The confirmation of a major point is awaited.
    pub(crate) fn is_major_asked(self) -> bool
        ensures { result ≡ is_major_asked self }
    {
        matches!(self, Phase::MajorAsked)
    }

    /// The user is to confirm a major point.
    pub(crate) fn is_major_due(self) -> bool
        ensures { result ≡ is_major_due self }
    {
        matches!(self, Phase::MajorDue)
    }

    /// The answer to the release is awaited.
    pub(crate) fn is_releasing(self) -> bool
        ensures { result ≡ is_releasing self }
    {
        matches!(self, Phase::Releasing)
    }

    /// The user is to answer the release.
    pub(crate) fn is_release_due(self) -> bool
        ensures { result ≡ is_release_due self }
    {
        matches!(self, Phase::ReleaseDue)
    }

    /// The answer to the restart is awaited.
    pub(crate) fn is_restarting(self) -> bool
        ensures { result ≡ is_restarting self }
    {
        matches!(self, Phase::Restarting)
    }

    /// The user is to answer the restart.
    pub(crate) fn is_restart_due(self) -> bool
        ensures { result ≡ is_restart_due self }
    {
        matches!(self, Phase::RestartDue)
    }

    /// AB was sent.
    pub(crate) fn is_aborting(self) -> bool
        ensures { result ≡ is_aborting self }
    {
        matches!(self, Phase::Aborting)
    }

    /// The connection is gone.
    pub(crate) fn is_ended(self) -> bool
        ensures { result ≡ is_ended self }
    {
        matches!(self, Phase::Ended)
    }

    /// A major point is outstanding.
    pub(crate) fn in_major(self) -> bool
        ensures { result ≡ in_major self }
    {
        matches!(self, Phase::MajorAsked | Phase::MajorDue)
    }

    /// Tokens may be given.
    pub(crate) fn may_give(self) -> bool
        ensures { result ≡ may_give self }
    {
        matches!(self, Phase::Ready | Phase::MajorDue)
    }

    /// Tokens may be requested.
    pub(crate) fn may_ask(self) -> bool
        ensures { result ≡ may_ask self }
    {
        matches!(self, Phase::Ready | Phase::MajorAsked | Phase::MajorDue)
    }

    /// Minor points may be confirmed.
    pub(crate) fn may_confirm_minor(self) -> bool
        ensures { result ≡ may_confirm_minor self }
    {
        matches!(self, Phase::Ready | Phase::ReleaseDue)
    }

    /// A restart may be requested.
    pub(crate) fn may_restart(self) -> bool
        ensures { result ≡ may_restart self }
    {
        matches!(
            self,
            Phase::Ready | Phase::MajorAsked | Phase::MajorDue | Phase::ReleaseDue
        )
    }

    /// Tokens are held, and an unfinished SSDU is kept.
    pub(crate) fn may_hold(self) -> bool
        ensures { result ≡ may_hold self }
    {
        matches!(
            self,
            Phase::Ready
                | Phase::MajorAsked
                | Phase::MajorDue
                | Phase::Releasing
                | Phase::ReleaseDue
        )
    }

    /// Data is taken.
    pub(crate) fn takes_data(self) -> bool
        ensures { result ≡ takes_data self }
    {
        matches!(self, Phase::Ready | Phase::Releasing)
    }

    /// Tokens are taken, in the phases in which they may be requested.
    pub(crate) fn takes_give(self) -> bool
        ensures { result ≡ takes_give self }
    {
        self.may_ask()
    }

    /// A request for tokens is taken.
    pub(crate) fn takes_please(self) -> bool
        ensures { result ≡ takes_please self }
    {
        matches!(
            self,
            Phase::Ready | Phase::MajorAsked | Phase::MajorDue | Phase::Releasing
        )
    }

    /// The confirmation of minor points is taken.
    pub(crate) fn takes_minor_ack(self) -> bool
        ensures { result ≡ takes_minor_ack self }
    {
        matches!(self, Phase::Ready | Phase::MajorAsked | Phase::Releasing)
    }

    /// A restart is taken.
    pub(crate) fn takes_restart(self) -> bool
        ensures { result ≡ takes_restart self }
    {
        matches!(
            self,
            Phase::Ready
                | Phase::MajorAsked
                | Phase::MajorDue
                | Phase::Releasing
                | Phase::ReleaseDue
                | Phase::Restarting
        )
    }

    /// The user may abort.
    pub(crate) fn may_abort(self) -> bool
        ensures { result ≡ may_abort self }
    {
        !matches!(
            self,
            Phase::WaitTransport | Phase::WaitCn | Phase::Aborting | Phase::Ended
        )
    }

    /// The user is told if the transport connection is lost.
    pub fn shows_loss(self) -> bool
        ensures { result ≡ shows_loss self }
    {
        !matches!(self, Phase::WaitCn | Phase::Aborting | Phase::Ended)
    }
}
