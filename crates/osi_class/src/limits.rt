//! The greatest lengths and counts of links.

ghost use Rattle.std.specs.Prelude.{◌≡◌, ◌≤◌, ◌↔◌, min, IsSome, IfSome};

/// The longest TSDU that is taken, in octets.
pub const LONGEST_TSDU: usize = 1_048_576;

/// How many units of class 2 may be sent: the credit that a CR, a CC or an AK gives (X.224 section
/// 13.3.3).
#[derive(Clone, Copy, PartialEq, Eq, PartialOrd, Ord)]
pub struct Credit {
    units: u8,
    pub ghost at_most: { units ≤ 15 },
}

impl Credit {
    ghost use Rattle.osi_class.specs.Limits.{credit_units};

    /// A credit of 0 to 15 units; `None` for every other number.
    pub fn new(units: u8) -> Option<Self>
        ensures range { IsSome result ↔ (units ≤ 15) }
        ensures value { IfSome result (λ c. credit_units c ≡ units) }
    {
        if units <= 15 {
            Some(Credit { units })
        } else {
            None
        }
    }

    /// The credit of this many units, or of 15 if they are more, because no CR, CC or AK gives more.
    pub fn up_to(units: u8) -> Self
        ensures { credit_units result ≡ min units 15 }
    {
        Credit {
            units: units.min(15),
        }
    }

    /// The number of units, 0 to 15.
    pub fn units(self) -> u8
        ensures value { result ≡ credit_units self }
        ensures at_most { result ≤ 15 }
    {
        self.units
    }
}
