//! The largest TSDU in each direction, as a user gives it and as a unit carries it.

ghost use Rattle.std.specs.Prelude.{◌≡◌, true};
ghost use Rattle.osi_spdu.specs.Values.{is_size};

use crate::fields::TsduMaximumSize;

/// The largest TSDU in one direction, as a user gives it: no limit, or 64 to 65,535 octets (X.225
/// section 8, TSDU maximum size).
#[derive(Clone, Copy, PartialEq, Eq)]
pub struct TsduSize {
    octets: u16,
    pub ghost is_size: { is_size octets ≡ true },
}

/// The largest TSDU in each direction, as a user gives it.
#[derive(Clone, Copy, PartialEq, Eq)]
pub struct TsduSizes {
    /// From the side that asks for the connection.
    pub from_asker: TsduSize,
    /// From the side that answers.
    pub from_answerer: TsduSize,
}

impl TsduSize {
    ghost use Rattle.std.specs.Prelude.{false, MatchOption};
    ghost use Rattle.osi_spdu.specs.Sizes.{size_of};

    /// No limit.
    pub const NONE: TsduSize = TsduSize { octets: 0 };

    /// The size with this number of octets, 0 for no limit. `None` for 1 to 63.
    pub fn new(octets: u16) -> Option<TsduSize>
        ensures { MatchOption result (is_size octets ≡ false)
            (λ s. (size_of s ≡ octets) × (is_size octets ≡ true)) }
    {
        if octets > 0 && octets < 64 {
            return None;
        }
        Some(TsduSize { octets })
    }

    /// The number of octets, 0 for no limit.
    pub fn octets(self) -> u16
        ensures { result ≡ size_of self }
    {
        self.octets
    }
}

impl TsduSizes {
    ghost use Rattle.osi_spdu.specs.Sizes.{named_by, are_sizes};

    /// No limit in either direction.
    pub const NONE: TsduSizes = TsduSizes {
        from_asker: TsduSize::NONE,
        from_answerer: TsduSize::NONE,
    };

    /// The sizes as a unit carries them, each 0 or at least 64.
    pub fn named(self) -> TsduMaximumSize
        ensures named { result ≡ named_by self }
        ensures sizes { are_sizes result ≡ true }
    {
        TsduMaximumSize {
            from_asker: self.from_asker.octets(),
            from_answerer: self.from_answerer.octets(),
        }
    }
}

impl TsduMaximumSize {
    ghost use Rattle.osi_spdu.specs.Sizes.{written_sizes};

    /// No limit in either direction.
    pub const NONE: TsduMaximumSize = TsduMaximumSize {
        from_asker: 0,
        from_answerer: 0,
    };

    /// The parameter of a unit: none if both sizes are 0.
    pub fn written(self) -> Option<TsduMaximumSize>
        ensures { result ≡ written_sizes self }
    {
        if self.from_asker == 0 && self.from_answerer == 0 {
            return None;
        }
        Some(self)
    }
}
