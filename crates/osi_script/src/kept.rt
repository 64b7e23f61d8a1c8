//! The octets that a word of a script spells.

ghost use Rattle.std.specs.Prelude.{◌≡◌, ◌≤◌, length, option_map};
ghost use Rattle.std.specs.Result.{result_ok};
ghost use Rattle.hex.specs.Hex.{decode_of};

use std::marker::Model;

/// The most digits whose octets are stored inline.
pub(crate) const LONGEST: usize = 64;

/// Octets, at most 32.
#[derive(Drop)]
pub(crate) struct Short {
    octets: [u8; 32],
    length: usize,
}

impl Model for Short {
    ghost use Rattle.std.specs.Prelude.{ℕ, ◌≤◌, List, take};

    ghost Value = { List ℕ };

    ghost view = { λ s. take s.length s.octets };

    ghost invariant = { λ s. s.length ≤ 32 };
}

impl Short {
    ghost use Rattle.std.specs.Prelude.{◌≡◌};

    /// The octets.
    #[inline(always)]
    pub(crate) fn octets(&self) -> &[u8]
        ensures { result.now ≡ self.now }
    {
        &self.octets[..self.length]
    }
}

/// The octets that a word spells. A few octets are stored inline, without an allocation.
#[derive(Drop)]
pub(crate) enum Kept {
    /// None.
    None,
    /// Few.
    Short(Short),
    /// More.
    Long(Vec<u8>),
}

/// The octets that a word of at most 64 hexadecimal digits of either case spells.
#[inline(always)]
pub(crate) fn decoded(word: &[u8]) -> Option<Short>
    requires { length word.now ≤ 64 }
    ensures { option_map (λ s. s) result ≡ result_ok (decode_of word.now) }
{
    let mut octets = [0; 32];
    let length = word.len() / 2;
    if hex::decode_to_slice(word, &mut octets[..length]).is_err() {
        return None;
    }
    Some(Short { octets, length })
}
