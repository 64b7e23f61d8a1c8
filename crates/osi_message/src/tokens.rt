//! The four tokens, by name.

ghost use Rattle.osi_spdu.specs.Fields.{bits_of};
ghost use Rattle.std.specs.Prelude.{◌≡◌};
ghost use Rattle.osi_message.specs.Tokens.{named, token_octet, no_token, is_empty, is_within, is_disjoint, without, united};

use bitflags::Flags;
use osi_spdu::TokenSet;

/// A set of the four tokens (X.215 section 7), with a field for each.
#[derive(Clone, Copy, PartialEq, Eq)]
pub struct Tokens {
    /// The data token.
    pub data_token: bool,
    /// The synchronize-minor token.
    pub minor: bool,
    /// The major or activity token.
    pub major: bool,
    /// The release token.
    pub release: bool,
}

impl Tokens {
    /// No token.
    pub const NONE: Tokens = Tokens {
        data_token: false,
        minor: false,
        major: false,
        release: false,
    };

    /// The tokens that a set names; other bits of it are ignored.
    pub fn of(set: TokenSet) -> Tokens
        ensures { result ≡ named (bits_of set) }
    {
        Tokens {
            data_token: set.contains(TokenSet::DATA),
            minor: set.contains(TokenSet::MINOR),
            major: set.contains(TokenSet::MAJOR),
            release: set.contains(TokenSet::RELEASE),
        }
    }

    /// The tokens as a set.
    #[tactic(auto, using(crate::proofs::the_octet_of_a_set_of_tokens::named_octet))]
    pub fn set(self) -> TokenSet
        ensures named { named (bits_of result) ≡ self }
        ensures octet { bits_of result ≡ token_octet self }
    {
        TokenSet::from_bits_retain(self.octet())
    }

    /// The octet of a token item.
    #[tactic(auto, unfolding(crate::specs::Tokens::token_octet))]
    pub(crate) fn octet(self) -> u8
        ensures { result ≡ token_octet self }
    {
        let data_token = if self.data_token { 0x01 } else { 0 };
        let minor = if self.minor { 0x04 } else { 0 };
        let major = if self.major { 0x10 } else { 0 };
        let release = if self.release { 0x40 } else { 0 };
        data_token + minor + major + release
    }

    /// Whether there is no token.
    #[tactic(auto, unfolding(crate::specs::Tokens::is_empty))]
    pub fn is_empty(self) -> bool
        ensures { result ≡ is_empty self }
    {
        !(self.data_token || self.minor || self.major || self.release)
    }

    /// Whether each token is also in the other set.
    #[tactic(auto, unfolding(crate::specs::Tokens::is_within))]
    pub fn is_within(self, other: Tokens) -> bool
        ensures { result ≡ is_within self other }
    {
        (!self.data_token || other.data_token)
            && (!self.minor || other.minor)
            && (!self.major || other.major)
            && (!self.release || other.release)
    }

    /// Whether no token is also in the other set.
    #[tactic(auto, unfolding(crate::specs::Tokens::is_disjoint))]
    pub fn is_disjoint(self, other: Tokens) -> bool
        ensures { result ≡ is_disjoint self other }
    {
        !(self.data_token && other.data_token)
            && !(self.minor && other.minor)
            && !(self.major && other.major)
            && !(self.release && other.release)
    }

    /// The tokens that are not in the other set.
    #[tactic(auto, unfolding(crate::specs::Tokens::without))]
    pub fn without(self, other: Tokens) -> Tokens
        ensures { result ≡ without self other }
    {
        Tokens {
            data_token: self.data_token && !other.data_token,
            minor: self.minor && !other.minor,
            major: self.major && !other.major,
            release: self.release && !other.release,
        }
    }

    /// The tokens that are in either set.
    #[tactic(auto, unfolding(crate::specs::Tokens::united))]
    pub fn united(self, other: Tokens) -> Tokens
        ensures { result ≡ united self other }
    {
        Tokens {
            data_token: self.data_token || other.data_token,
            minor: self.minor || other.minor,
            major: self.major || other.major,
            release: self.release || other.release,
        }
    }
}
