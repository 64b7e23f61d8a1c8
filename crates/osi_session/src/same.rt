//! Comparing two states.

ghost use Rattle.std.specs.Prelude.{◌≡◌, ◌≢◌, MatchBool};
ghost use Rattle.osi_session.specs.Same.{same_bit, same_wish, place_of, same_setting, same_tokens, same_units, same_numbers, same_sizes};
ghost use Rattle.osi_session.specs.Same.{same_state};

use crate::numbers::Numbers;
use crate::phases::Phase;
use crate::selected::FunctionalUnits;
use crate::state::State;
use osi_message::Tokens;
use osi_spdu::{TokenSetting, TsduMaximumSize, Wish};

fn same_bit(one: bool, other: bool) -> bool
    ensures { result ≡ same_bit one other }
{
    if one { other } else { !other }
}

fn same_wish(one: Wish, other: Wish) -> bool
    ensures { result ≡ same_wish one other }
{
    match one {
        Wish::Asker => matches!(other, Wish::Asker),
        Wish::Answerer => matches!(other, Wish::Answerer),
        Wish::Choice => matches!(other, Wish::Choice),
    }
}

/// The place of a phase in the order of all phases.
fn place_of(phase: Phase) -> u8
    ensures { result ≡ place_of phase }
{
    match phase {
        Phase::WaitTransport => 0,
        Phase::WaitCn => 1,
        Phase::Connecting => 2,
        Phase::Answering => 3,
        Phase::Ready => 4,
        Phase::MajorAsked => 5,
        Phase::MajorDue => 6,
        Phase::Releasing => 7,
        Phase::ReleaseDue => 8,
        Phase::Restarting => 9,
        Phase::RestartDue => 10,
        Phase::Aborting => 11,
        Phase::Ended => 12,
    }
}

#[tactic(auto, unfolding(crate::specs::Same::same_setting))]
fn same_setting(one: TokenSetting, other: TokenSetting) -> bool
    ensures { result ≡ same_setting one other }
{
    same_wish(one.data_token, other.data_token)
        && same_wish(one.minor, other.minor)
        && same_wish(one.major, other.major)
        && same_wish(one.release, other.release)
}

#[tactic(auto, unfolding(crate::specs::Same::same_tokens))]
fn same_tokens(one: Tokens, other: Tokens) -> bool
    ensures { result ≡ same_tokens one other }
{
    same_bit(one.data_token, other.data_token)
        && same_bit(one.minor, other.minor)
        && same_bit(one.major, other.major)
        && same_bit(one.release, other.release)
}

#[tactic(auto, unfolding(crate::specs::Same::same_units))]
fn same_units(one: FunctionalUnits, other: FunctionalUnits) -> bool
    ensures { result ≡ same_units one other }
{
    same_bit(one.half_duplex, other.half_duplex)
        && same_bit(one.duplex, other.duplex)
        && same_bit(one.minor, other.minor)
        && same_bit(one.major, other.major)
        && same_bit(one.resynchronize, other.resynchronize)
        && same_bit(one.negotiated_release, other.negotiated_release)
}

#[tactic(auto, unfolding(crate::specs::Same::same_numbers))]
fn same_numbers(one: Numbers, other: Numbers) -> bool
    ensures { result ≡ same_numbers one other }
{
    one.next == other.next
        && one.confirmed == other.confirmed
        && one.lowest == other.lowest
        && same_bit(one.answers, other.answers)
}

#[tactic(auto, unfolding(crate::specs::Same::same_sizes))]
fn same_sizes(one: TsduMaximumSize, other: TsduMaximumSize) -> bool
    ensures { result ≡ same_sizes one other }
{
    one.from_asker == other.from_asker && one.from_answerer == other.from_answerer
}

#[tactic(auto, unfolding(crate::specs::Same::same_state))]
fn same_state(one: &State, other: &State) -> bool
    ensures { result ≡ same_state one.now other.now }
{
    place_of(one.phase) == place_of(other.phase)
        && same_bit(one.is_caller, other.is_caller)
        && same_units(one.units, other.units)
        && same_setting(one.wishes, other.wishes)
        && same_tokens(one.held, other.held)
        && one.proposed == other.proposed
        && one.base == other.base
        && same_numbers(one.numbers, other.numbers)
        && same_sizes(one.sizes, other.sizes)
}

impl State {
    /// Whether the states are equal.
    #[tactic(auto, using(crate::proofs::values::equal_parts_make_equal_states::told))]
    pub(crate) fn is_same(&self, other: &State) -> bool
        ensures { MatchBool result (self.now ≡ other.now) (self.now ≢ other.now) }
    {
        same_state(self, other)
    }
}
