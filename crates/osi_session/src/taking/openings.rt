//! Units that open a connection, or refuse one.

ghost use Rattle.osi_spdu.specs.Fields.{unit_bits};
ghost use Rattle.std.specs.Prelude.{◌≡◌, None, option_map};
ghost use Rattle.osi_message.specs.Meanings.{CN, AC, RF};
ghost use Rattle.osi_session.specs.Allowed.{opened_with};
ghost use Rattle.osi_session.specs.Respond.{in_phase, agreed_base};
ghost use Rattle.osi_session.specs.Sides.{of_asker};
ghost use Rattle.osi_session.specs.Sizes.{smaller_sizes};
ghost use Rattle.osi_session.specs.Steps.{Reacts};

use crate::faults::UnitFault;
use crate::indications::Indication;
use crate::numbers::Numbers;
use crate::phases::Phase;
use crate::reactions::{Reaction, Reply};
use crate::selected::FunctionalUnits;
use crate::sides::{Sides, answers_wishes};
use crate::sizes::{are_sizes, smaller_sizes};
use crate::state::State;
use osi_message::Octets;
use osi_spdu::{Kind, Requirements, Serial, TokenSetting, TsduMaximumSize};
use std::alloc::{AllocError, Global};

/// CN. It is refused, without an indication, if it does not have version 2, names neither half-duplex nor duplex, or
/// names a size that no user can give.
#[tactic(auto, unfolding(crate::specs::Respond::take_expected))]
pub(super) fn connect(
    alloc: Global,
    state: &State,
    version_2: bool,
    requirements: Requirements,
    serial: Option<Serial>,
    wishes: TokenSetting,
    sizes: TsduMaximumSize,
    user_data: &[u8],
) -> Result<Reaction, AllocError>
    ensures { Reacts result (in_phase state.now
        (CN version_2 (unit_bits requirements) (option_map (λ s. s.number) serial) wishes None None sizes user_data.now)) }
{
    if !state.phase.is_wait_cn() {
        return Ok(Reaction::unexpected(state, Kind::Connect));
    }
    let units = FunctionalUnits::of(requirements);
    if !version_2 {
        return Ok(Reaction::refusing(state, Reply::VersionNotSupported));
    }
    if !(units.has_data() && are_sizes(sizes)) {
        return Ok(Reaction::refusing(state, Reply::ImplementationRestriction));
    }
    let serial = number_of(serial);
    let next = State {
        phase: Phase::Answering,
        units,
        wishes,
        proposed: serial.unwrap_or(0),
        sizes,
        ..*state
    };
    let user_data = Octets::copy(alloc, user_data)?;
    let shown = Indication::Connect {
        requirements,
        serial,
        wishes,
        sizes,
        user_data,
    };
    Ok(Reaction::showing(next, shown))
}

fn number_of(serial: Option<Serial>) -> Option<u32>
    ensures { result ≡ option_map (λ s. s.number) serial }
{
    Some(serial?.number)
}

/// AC: version 2, half-duplex or duplex among the units that both name, sizes that a user may give, and sides that the
/// wishes allow.
#[tactic(auto, unfolding(crate::specs::Respond::take_expected))]
pub(super) fn accept(
    alloc: Global,
    state: &State,
    version_2: bool,
    requirements: Requirements,
    serial: Option<Serial>,
    answer: TokenSetting,
    sizes: TsduMaximumSize,
    user_data: &[u8],
) -> Result<Reaction, AllocError>
    ensures { Reacts result (in_phase state.now
        (AC version_2 (unit_bits requirements) (option_map (λ s. s.number) serial) answer sizes user_data.now)) }
{
    if !state.phase.is_connecting() {
        return Ok(Reaction::unexpected(state, Kind::Accept));
    }
    let units = state.units.both(FunctionalUnits::of(requirements));
    if !(version_2 && units.has_data() && are_sizes(sizes)) {
        return Ok(Reaction::bad(state, UnitFault::NotSelected(Kind::Accept.si())));
    }
    if !answers_wishes(units, state.wishes, answer) {
        return Ok(Reaction::bad(state, UnitFault::BadTokens(Kind::Accept.si())));
    }
    let serial = number_of(serial);
    let sides = Sides::stated(units, answer);
    let user_data = Octets::copy(alloc, user_data)?;
    let shown = Indication::Connected {
        requirements,
        serial,
        sides,
        sizes,
        user_data,
    };
    let next = opened(state, units, sides, serial, sizes);
    Ok(Reaction::showing(next, shown))
}

/// The state of the caller once its CN is accepted.
fn opened(
    state: &State,
    units: FunctionalUnits,
    sides: Sides,
    serial: Option<u32>,
    sizes: TsduMaximumSize,
) -> State
    ensures { result ≡ opened_with units (of_asker units sides) (agreed_base units serial state.now.proposed)
        (smaller_sizes state.now.sizes sizes) state.now }
{
    let base = units.base(serial.unwrap_or(state.proposed));
    State {
        phase: Phase::Ready,
        units,
        held: sides.of_asker(units),
        base,
        numbers: Numbers::from_base(base),
        sizes: smaller_sizes(state.sizes, sizes),
        ..*state
    }
}

/// RF.
#[tactic(auto, unfolding(crate::specs::Respond::take_expected))]
pub(super) fn refuse(
    alloc: Global,
    state: &State,
    reason: u8,
    user_data: &[u8],
) -> Result<Reaction, AllocError>
    ensures { Reacts result (in_phase state.now (RF reason user_data.now)) }
{
    if !state.phase.is_connecting() {
        return Ok(Reaction::unexpected(state, Kind::Refuse));
    }
    let user_data = Octets::copy(alloc, user_data)?;
    let shown = Indication::RefusedBySession { reason, user_data };
    Ok(Reaction {
        closes: true,
        ..Reaction::showing(state.without_tokens(Phase::Ended), shown)
    })
}
