//! Calls that are planned before they are done.

ghost use Rattle.std.specs.Prelude.{◌≡◌};

use crate::state::State;
use osi_message::Sent;
use osi_spdu::Serial;
use std::marker::Model;

/// The plan of a call: the state in which it was made, the state after the call, and the TSDUs to send. `Session::plan`
/// makes it, and `Session::commit` carries it out.
#[derive(Drop)]
pub struct Plan {
    pub(crate) was: State,
    pub(crate) next: State,
    pub(crate) sent: Sent,
}

impl Model for Plan {
    ghost use Rattle.std.specs.Prelude.{◌≡◌, false};
    ghost use Rattle.osi_session.specs.Phases.{is_wait_transport};
    ghost use Rattle.osi_session.specs.Sessions.{Planned};
    ghost use Rattle.osi_session.specs.Sound.{IsSound};

    ghost Value = { Planned };

    ghost view = { λ p. record { was = p.was; next = p.next; sent = p.sent } };

    ghost invariant = { λ p. IsSound p.next × (is_wait_transport p.next.phase ≡ false) };
}

impl Plan {
    /// What is to be sent.
    pub fn sent(&self) -> &Sent
        ensures { result.now ≡ self.now.sent }
    {
        &self.sent
    }
}

/// A minor point, or the confirmation of one, that may be sent; it changes only the numbers of the session.
/// `Session::plan_minor` and `Session::plan_minor_confirm` make it.
#[derive(Drop)]
pub struct PlannedPoint {
    /// What is to be sent.
    pub sent: Sent,
    /// The point or confirmation. Once it is sent, `Session::advance` changes the numbers.
    pub point: SentPoint,
}

/// A minor point, or the confirmation of one, that is sent.
#[derive(Clone, Copy)]
pub enum SentPoint {
    /// The point of this number.
    Minor(Serial),
    /// The confirmation of the points up to this number.
    Confirmation(Serial),
}
