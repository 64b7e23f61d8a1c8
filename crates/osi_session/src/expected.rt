//! The fast path of a session: a TSDU that it expects; and minor points and confirmations that it expects, which change
//! only the numbers, so that no whole state is built.

ghost use Rattle.std.specs.Prelude.{◌≡◌, ◌==◌, [], false, true, IfSome, nat_le, nat_lt};
ghost use Rattle.osi_message.specs.Meanings.{MIP, MIA};
ghost use Rattle.osi_session.specs.Expecting.{met_by};
ghost use Rattle.osi_session.specs.Respond.{respond_unit, shows};
ghost use Rattle.osi_session.specs.Shown.{Minor, MinorConfirmed, shown_by};

use crate::indications::Indication;
use crate::numbers::Numbers;
use crate::state::State;
use osi_message::Octets;
use osi_spdu::Serial;
use std::alloc::Global;

/// The result of trying a TSDU as one that the session expects ([`Session::take_expected`]).
///
/// [`Session::take_expected`]: crate::Session::take_expected
#[derive(Drop)]
pub enum Expected {
    /// It was expected: the user receives this indication, and nothing is sent.
    Shown(Indication),
    /// It was expected: a part of a Data that is not the last was joined. There is no indication, and nothing is sent.
    Joined,
    /// It was not expected, and the session is unchanged. `Session::take_unexpected` takes it.
    Other,
}

impl Expected {
    /// The result of a part that was joined: this indication, or none.
    pub(crate) fn behind(shown: Option<Indication>) -> Expected
        ensures { result ≡ met_by shown }
    {
        match shown {
            Some(indication) => Expected::Shown(indication),
            None => Expected::Joined,
        }
    }
}

/// The numbers after a minor point that asks for its confirmation, if it is expected.
#[tactic(auto, using(crate::proofs::tables::points_that_are_expected::point_is_shown))]
pub(crate) fn after_point(state: &State, number: Serial) -> Option<Numbers>
    ensures { IfSome result (λ n. respond_unit state.now (MIP true number.number [])
        ≡ shows (record state.now { numbers = n }) (Minor number.number true [])) }
{
    if !state.phase.is_ready() || !state.units.minor {
        return None;
    }
    if state.held.data_token || state.held.minor {
        return None;
    }
    if number.number != state.numbers.next {
        return None;
    }
    Some(state.numbers.point_taken())
}

/// The numbers after a confirmation, if it is expected and no major point is outstanding.
#[tactic(auto, using(crate::proofs::tables::points_that_are_expected::ack_is_shown))]
pub(crate) fn after_ack(state: &State, number: Serial) -> Option<Numbers>
    ensures { IfSome result (λ n. respond_unit state.now (MIA number.number [])
        ≡ shows (record state.now { numbers = n }) (MinorConfirmed number.number [])) }
{
    if !state.phase.is_ready() || !state.units.minor {
        return None;
    }
    let numbers = state.numbers;
    if numbers.answers || number.number < numbers.confirmed || number.number >= numbers.next {
        return None;
    }
    Some(numbers.minor_confirmed(number.number))
}

/// The indication of a minor point that asks for its confirmation, without user data.
#[inline(always)]
pub(crate) fn minor_shown(alloc: Global, number: u32) -> Indication
    ensures { shown_by result ≡ Minor number true [] }
{
    Indication::Minor {
        number,
        confirm: true,
        user_data: Octets::new(alloc),
    }
}

/// The indication of a confirmation without user data.
#[inline(always)]
pub(crate) fn confirmation_shown(alloc: Global, number: u32) -> Indication
    ensures { shown_by result ≡ MinorConfirmed number [] }
{
    Indication::MinorConfirmed {
        number,
        user_data: Octets::new(alloc),
    }
}
