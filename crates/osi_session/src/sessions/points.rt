//! Calls for minor points and their confirmations: only the numbers change, so that no whole state is built.

use super::Session;
use crate::calling::{allow_minor, allow_minor_confirm, numbers_after};
use crate::faults::CallError;
use crate::plans::{PlannedPoint, SentPoint};
use osi_message::Sent;

impl Session {
    ghost use Rattle.std.specs.Prelude.{◌≡◌, true, false, None, IfOk, IfErr};
    ghost use Rattle.osi_session.specs.Calls.{Minor, MinorConfirm};
    ghost use Rattle.osi_session.specs.Listening.{called, react};
    ghost use Rattle.osi_session.specs.Points.{PlansPoint, advanced, may_advance};
    ghost use Rattle.osi_session.specs.Sessions.{Refused};

    /// What a call for a minor point would send, and the point; nothing changes.
    #[inline(always)]
    #[tactic(auto, using(crate::proofs::tables::what_the_table_of_calls_answers::refused, crate::proofs::tables::what_the_table_of_calls_answers::wanting))]
    pub fn plan_minor(&self, confirm: bool, user_data: &[u8]) -> Result<PlannedPoint, CallError>
        ensures planned { IfOk result (λ p. PlansPoint self.now (Minor confirm user_data.now) p) }
        ensures refused { IfErr result (λ e. Refused e (react self.now (called (Minor confirm user_data.now))).error) }
    {
        let number = allow_minor(&self.state, confirm, user_data)?;
        match Sent::minor_point(self.alloc, confirm, number, user_data) {
            Ok(sent) => Ok(PlannedPoint {
                sent,
                point: SentPoint::Minor(number),
            }),
            Err(_) => Err(CallError::OutOfMemory),
        }
    }

    /// The same of a call for the confirmation of a minor point.
    #[inline(always)]
    #[tactic(auto, using(crate::proofs::tables::what_the_table_of_calls_answers::refused, crate::proofs::tables::what_the_table_of_calls_answers::wanting))]
    pub fn plan_minor_confirm(
        &self,
        number: u32,
        user_data: &[u8],
    ) -> Result<PlannedPoint, CallError>
        ensures planned { IfOk result (λ p. PlansPoint self.now (MinorConfirm number user_data.now) p) }
        ensures refused { IfErr result (λ e. Refused e (react self.now (called (MinorConfirm number user_data.now))).error) }
    {
        let serial = allow_minor_confirm(&self.state, number, user_data)?;
        match Sent::minor_ack(self.alloc, serial, user_data) {
            Ok(sent) => Ok(PlannedPoint {
                sent,
                point: SentPoint::Confirmation(serial),
            }),
            Err(_) => Err(CallError::OutOfMemory),
        }
    }

    /// Continues after a planned point or confirmation was sent: the numbers are those after it, and nothing else
    /// changes. Returns `false`, and changes nothing, if the session would not send it now, because it was already
    /// sent, or because the tokens, the phase or the numbers have changed.
    #[inline(always)]
    pub fn advance(&mut self, point: SentPoint) -> bool
        ensures done { result ≡ may_advance self.old.state point }
        ensures state { result ≡ true → self.new ≡ advanced self.old point }
        ensures rests { result ≡ false → self.new ≡ self.old }
    {
        let Some(numbers) = numbers_after(&self.state, point) else {
            return false;
        };
        self.state.numbers = numbers;
        true
    }
}
