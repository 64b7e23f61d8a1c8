//! Sets of tokens.

ghost use Rattle.std.specs.Prelude.{⊤, ◌≡◌, ◌/◌, ◌%◌, ◌==◌, ◌-◌, ◌^◌, [], ◌∷◌, codes, true, option_map};
ghost use Rattle.osi_spdu.specs.Values.{token_bits, canonical};
ghost use Rattle.osi_spdu.specs.Fields.{bits_of, token_octets, tokens_alone};
ghost use Rattle.osi_spdu.specs.Octets.{octets_of};

use crate::codes::Code;
use crate::octets::Value;
use bitflags::{Flag, Flags};

/// A set of tokens, each with a bit of its own (X.225 section 8, token item). Bits that name no token are kept in
/// memory but never written. Union, intersection and difference are functions of [`bitflags::Flags`].
#[derive(Clone, Copy, PartialEq, Eq)]
pub struct TokenSet(u8);

impl TokenSet {
    /// The data token.
    pub const DATA: TokenSet = TokenSet(0x01);
    /// The synchronize-minor token.
    pub const MINOR: TokenSet = TokenSet(0x04);
    /// The major or activity token.
    pub const MAJOR: TokenSet = TokenSet(0x10);
    /// The release token.
    pub const RELEASE: TokenSet = TokenSet(0x40);

    /// The tokens with their names.
    pub const FLAGS: &'static [Flag<TokenSet>] = &[
        Flag {
            name: "DATA",
            value: TokenSet::DATA,
        },
        Flag {
            name: "MINOR",
            value: TokenSet::MINOR,
        },
        Flag {
            name: "MAJOR",
            value: TokenSet::MAJOR,
        },
        Flag {
            name: "RELEASE",
            value: TokenSet::RELEASE,
        },
    ];

    #[tactic(auto, unfolding(crate::specs::Values::canonical))]
    pub(crate) fn read(value: &[u8]) -> Option<TokenSet>
        ensures value { canonical Code.TokenItem value.now ≡ option_map token_octets result }
        // The other bits are dropped when the octet is read.
        ensures alone { tokens_alone result ≡ true }
    {
        match value {
            [octet] => Some(TokenSet(*octet & 0x55)),
            _ => None,
        }
    }

    /// The octet of a token item.
    pub(crate) fn octet(self) -> u8
        ensures { result ∷ [] ≡ token_octets self }
    {
        self.0 & 0x55
    }

    /// The set without bits that name no token.
    pub(crate) fn alone(self) -> TokenSet
        ensures { bits_of result ≡ token_bits (bits_of self) }
    {
        TokenSet(self.0 & 0x55)
    }

    pub(crate) fn value<'a>(self) -> Value<'a>
        ensures { octets_of result ≡ token_octets self }
    {
        Value::of_octet(self.octet())
    }
}

impl Flags for TokenSet {
    type Bits = u8;

    ghost exact = { ⊤ };

    ghost table = { (codes "DATA", 1) ∷ (codes "MINOR", 4) ∷ (codes "MAJOR", 16) ∷ (codes "RELEASE", 64) ∷ [] };

    ghost set_of = { λ t. t.0 };

    fn flags<'a>() -> &'a [Flag<TokenSet>] {
        TokenSet::FLAGS
    }

    fn bits(&self) -> u8 {
        self.0
    }

    fn from_bits_retain(bits: u8) -> TokenSet {
        TokenSet(bits)
    }
}
