//! Which side is to hold each token at first.

ghost use Rattle.std.specs.Prelude.{◌≡◌, true, false, ◌+◌, ◌*◌, ◌<◌, [], ◌∷◌, option_map, MatchOption};
ghost use Rattle.osi_spdu.specs.Values.{canonical, is_setting};
ghost use Rattle.osi_spdu.specs.Fields.{wish_number, wish_of, setting_octets};
ghost use Rattle.osi_spdu.specs.Octets.{octets_of};

use crate::codes::Code;
use crate::octets::Value;

/// The side that is to hold a token at first (X.225 section 8, token setting).
#[derive(Clone, Copy, PartialEq, Eq)]
pub enum Wish {
    /// The side that asks for the connection or the resynchronization.
    Asker,
    /// The side that answers.
    Answerer,
    /// The side that the responder chooses in its answer.
    Choice,
}

/// The side that holds a token at first, once this is settled.
#[derive(Clone, Copy, PartialEq, Eq)]
pub enum Side {
    /// The side that asks for the connection or the resynchronization.
    Asker,
    /// The side that answers.
    Answerer,
}

/// The wish for each token (X.225 section 8, token setting).
#[derive(Clone, Copy, PartialEq, Eq)]
pub struct TokenSetting {
    /// The data token.
    pub data_token: Wish,
    /// The synchronize-minor token.
    pub minor: Wish,
    /// The major or activity token.
    pub major: Wish,
    /// The release token.
    pub release: Wish,
}

impl Wish {
    fn number(self) -> u8
        ensures value { result ≡ wish_number self }
        ensures small { result < 3 }
    {
        match self {
            Wish::Asker => 0,
            Wish::Answerer => 1,
            Wish::Choice => 2,
        }
    }

    fn of(number: u8) -> Option<Wish>
        requires { number < 4 }
        ensures { MatchOption result (number ≡ 3) (λ w. wish_number w ≡ number) }
    {
        match number {
            0 => Some(Wish::Asker),
            1 => Some(Wish::Answerer),
            2 => Some(Wish::Choice),
            _ => None,
        }
    }
}

impl From<Side> for Wish {
    ghost from_gives = { λ side w. w ≡ wish_of side };

    fn from(side: Side) -> Wish {
        match side {
            Side::Asker => Wish::Asker,
            Side::Answerer => Wish::Answerer,
        }
    }
}

impl TokenSetting {
    /// The octet: two bits for each token.
    pub(crate) fn octet(self) -> u8
        ensures { result ∷ [] ≡ setting_octets self }
    {
        self.data_token.number()
            + 4 * self.minor.number()
            + 16 * self.major.number()
            + 64 * self.release.number()
    }

    fn of(octet: u8) -> Option<TokenSetting>
        ensures { MatchOption result (is_setting octet ≡ false)
            (λ s. (is_setting octet ≡ true) × (setting_octets s ≡ octet ∷ [])) }
    {
        let data_token = Wish::of(octet % 4)?;
        let minor = Wish::of(octet / 4 % 4)?;
        let major = Wish::of(octet / 16 % 4)?;
        let release = Wish::of(octet / 64)?;
        Some(TokenSetting {
            data_token,
            minor,
            major,
            release,
        })
    }

    #[tactic(auto, unfolding(crate::specs::Values::canonical))]
    pub(crate) fn read(value: &[u8]) -> Option<TokenSetting>
        ensures { canonical Code.TokenSetting value.now ≡ option_map setting_octets result }
    {
        match value {
            [octet] => TokenSetting::of(*octet),
            _ => None,
        }
    }

    pub(crate) fn value<'a>(self) -> Value<'a>
        ensures { octets_of result ≡ setting_octets self }
    {
        Value::of_octet(self.octet())
    }
}
