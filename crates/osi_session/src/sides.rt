//! Which side holds each token at first.

ghost use Rattle.std.specs.Prelude.{◌≡◌};
ghost use Rattle.osi_session.specs.Sides.{settled, settle, stated, stated_side, allows, answers_wishes, offered, offered_wish, of_asker};
ghost use Rattle.osi_session.specs.Sides.{of_answerer, is_asker, setting_of};
ghost use Rattle.osi_session.specs.Units.{available};

use crate::selected::FunctionalUnits;
use osi_message::Tokens;
use osi_spdu::{Side, TokenSetting, Wish};

/// The side that holds each token at first, once it is settled (X.215 section 12.1.2).
#[derive(Clone, Copy, PartialEq, Eq)]
pub struct Sides {
    /// The data token.
    pub data_token: Side,
    /// The synchronize-minor token.
    pub minor: Side,
    /// The major or activity token.
    pub major: Side,
    /// The release token.
    pub release: Side,
}

/// The requested side, or for a choice the one that the answer gives. A token that is not available is settled as the
/// asker's, which is written as 0.
fn settled(is_available: bool, wish: Wish, answer: Side) -> Side
    ensures { result ≡ settled is_available wish answer }
{
    match wish {
        _ if !is_available => Side::Asker,
        Wish::Asker => Side::Asker,
        Wish::Answerer => Side::Answerer,
        Wish::Choice => answer,
    }
}

/// The side that an answer states. A token that is not available is read as the asker's.
fn stated_side(is_available: bool, wish: Wish) -> Side
    ensures { result ≡ stated_side is_available wish }
{
    match wish {
        Wish::Answerer if is_available => Side::Answerer,
        _ => Side::Asker,
    }
}

/// Whether the side in an answer is one that the wish allows.
fn allows(is_available: bool, wish: Wish, answer: Wish) -> bool
    ensures { result ≡ allows is_available wish answer }
{
    match (wish, answer) {
        _ if !is_available => true,
        (_, Wish::Choice) => false,
        (Wish::Choice, _) => true,
        (Wish::Asker, Wish::Asker) => true,
        (Wish::Answerer, Wish::Answerer) => true,
        _ => false,
    }
}

/// A wish for a token that is not available is written as 0.
fn offered_wish(is_available: bool, wish: Wish) -> Wish
    ensures { result ≡ offered_wish is_available wish }
{
    if is_available { wish } else { Wish::Asker }
}

fn is_asker(side: Side) -> bool
    ensures { result ≡ is_asker side }
{
    matches!(side, Side::Asker)
}

impl Sides {
    /// The sides that an answer settles: each as requested, or for a choice as the answer says.
    #[tactic(auto, unfolding(crate::specs::Sides::settle))]
    pub(crate) fn settle(self, units: FunctionalUnits, wishes: TokenSetting) -> Sides
        ensures { result ≡ settle units wishes self }
    {
        let there = units.available();
        Sides {
            data_token: settled(there.data_token, wishes.data_token, self.data_token),
            minor: settled(there.minor, wishes.minor, self.minor),
            major: settled(there.major, wishes.major, self.major),
            release: settled(there.release, wishes.release, self.release),
        }
    }

    /// The sides that an answer states.
    #[tactic(auto, unfolding(crate::specs::Sides::stated))]
    pub(crate) fn stated(units: FunctionalUnits, answer: TokenSetting) -> Sides
        ensures { result ≡ stated units answer }
    {
        let there = units.available();
        Sides {
            data_token: stated_side(there.data_token, answer.data_token),
            minor: stated_side(there.minor, answer.minor),
            major: stated_side(there.major, answer.major),
            release: stated_side(there.release, answer.release),
        }
    }

    /// The available tokens that the asker holds.
    #[tactic(auto, unfolding(crate::specs::Sides::of_asker))]
    pub(crate) fn of_asker(self, units: FunctionalUnits) -> Tokens
        ensures { result ≡ of_asker units self }
    {
        let there = units.available();
        Tokens {
            data_token: there.data_token && is_asker(self.data_token),
            minor: there.minor && is_asker(self.minor),
            major: there.major && is_asker(self.major),
            release: there.release && is_asker(self.release),
        }
    }

    /// The available tokens that the answerer holds.
    #[tactic(auto, unfolding(crate::specs::Sides::of_answerer))]
    pub(crate) fn of_answerer(self, units: FunctionalUnits) -> Tokens
        ensures { result ≡ of_answerer units self }
    {
        let there = units.available();
        Tokens {
            data_token: there.data_token && !is_asker(self.data_token),
            minor: there.minor && !is_asker(self.minor),
            major: there.major && !is_asker(self.major),
            release: there.release && !is_asker(self.release),
        }
    }

    /// The sides as they are written.
    pub(crate) fn setting(self) -> TokenSetting
        ensures { result ≡ setting_of self }
    {
        TokenSetting {
            data_token: Wish::from(self.data_token),
            minor: Wish::from(self.minor),
            major: Wish::from(self.major),
            release: Wish::from(self.release),
        }
    }
}

/// Whether an answer gives each available token a side that the wish allows.
#[tactic(auto, unfolding(crate::specs::Sides::answers_wishes))]
pub(crate) fn answers_wishes(
    units: FunctionalUnits,
    wishes: TokenSetting,
    answer: TokenSetting,
) -> bool
    ensures { result ≡ answers_wishes units wishes answer }
{
    let there = units.available();
    allows(there.data_token, wishes.data_token, answer.data_token)
        && allows(there.minor, wishes.minor, answer.minor)
        && allows(there.major, wishes.major, answer.major)
        && allows(there.release, wishes.release, answer.release)
}

/// The wishes for the available tokens; the others are written as 0.
#[tactic(auto, unfolding(crate::specs::Sides::offered))]
pub(crate) fn offered(units: FunctionalUnits, wishes: TokenSetting) -> TokenSetting
    ensures { result ≡ offered units wishes }
{
    let there = units.available();
    TokenSetting {
        data_token: offered_wish(there.data_token, wishes.data_token),
        minor: offered_wish(there.minor, wishes.minor),
        major: offered_wish(there.major, wishes.major),
        release: offered_wish(there.release, wishes.release),
    }
}
