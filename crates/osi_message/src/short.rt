//! The octets of a short TSDU, stored inline.

ghost use Rattle.std.specs.Prelude.{◌≡◌, ◌≤◌, take};

use std::marker::Model;

/// The octets of a TSDU, at most 12. They are stored inline, so that no memory is needed.
#[derive(Drop)]
pub struct Short {
    octets: [u8; 12],
    length: usize,
}

impl Model for Short {
    ghost use Rattle.std.specs.Prelude.{ℕ, ◌≤◌, List, take};

    ghost Value = { List ℕ };

    ghost view = { λ s. take s.length s.octets };

    ghost invariant = { λ s. s.length ≤ 12 };
}

impl Short {
    /// The first `count` of these octets.
    #[inline(always)]
    pub(crate) fn of(octets: [u8; 12], length: usize) -> Short
        requires { length ≤ 12 }
        ensures { result ≡ take length octets }
    {
        Short { octets, length }
    }

    /// The octets.
    #[inline(always)]
    pub fn as_slice(&self) -> &[u8]
        ensures { result.now ≡ self.now }
    {
        &self.octets[..self.length]
    }
}
