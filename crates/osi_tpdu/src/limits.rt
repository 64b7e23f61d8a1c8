//! Sizes of units, and windows.

ghost use Rattle.std.specs.Prelude.{◌≡◌, ◌≤◌, ◌^◌, ◌↔◌, IsSome, IfSome};

/// The largest length of a unit, header included, as the code of the parameter TPDU size: the
/// length is the power of two with this exponent (X.224 section 13.3.4).
#[derive(Clone, Copy, PartialEq, Eq, PartialOrd, Ord)]
pub struct SizeCode {
    code: u8,
    pub ghost at_least: { 7 ≤ code },
    pub ghost at_most: { code ≤ 13 },
}

impl SizeCode {
    ghost use Rattle.osi_tpdu.specs.Limits.{size_code};

    /// The code, from 7 for 128 octets to 13 for 8192; `None` for every other number.
    pub fn new(code: u8) -> Option<Self>
        ensures range { IsSome result ↔ ((7 ≤ code) × (code ≤ 13)) }
        ensures value { IfSome result (λ s. size_code s ≡ code) }
    {
        if 7 <= code && code <= 13 {
            Some(SizeCode { code })
        } else {
            None
        }
    }

    /// The code, which is known to be 7 to 13.
    #[inline(always)]
    pub(crate) fn known(code: u8) -> Self
        requires at_least { 7 ≤ code }
        requires at_most { code ≤ 13 }
        ensures { size_code result ≡ code }
    {
        SizeCode { code }
    }

    /// The code, 7 to 13.
    pub fn code(self) -> u8
        ensures value { result ≡ size_code self }
        ensures at_least { 7 ≤ result }
        ensures at_most { result ≤ 13 }
    {
        self.code
    }

    /// The size in octets, 128 to 8192.
    pub fn octets(self) -> usize
        ensures value { result ≡ 2 ^ size_code self }
        ensures at_least { 128 ≤ result }
        ensures at_most { result ≤ 8192 }
    {
        1 << self.code
    }
}

/// How many units of class 2 a receiver lets its peer send ahead: the credit that a CR or CC
/// gives (X.224 section 6.16).
#[derive(Clone, Copy, PartialEq, Eq, PartialOrd, Ord)]
pub struct Window {
    units: u8,
    pub ghost at_least: { 1 ≤ units },
    pub ghost at_most: { units ≤ 15 },
}

impl Window {
    ghost use Rattle.osi_tpdu.specs.Limits.{window_units};

    /// A window of 1 to 15 units; `None` for every other number.
    pub fn new(units: u8) -> Option<Self>
        ensures range { IsSome result ↔ ((1 ≤ units) × (units ≤ 15)) }
        ensures value { IfSome result (λ w. window_units w ≡ units) }
    {
        if 1 <= units && units <= 15 {
            Some(Window { units })
        } else {
            None
        }
    }

    /// The number of units, 1 to 15.
    pub fn units(self) -> u8
        ensures value { result ≡ window_units self }
        ensures at_least { 1 ≤ result }
        ensures at_most { result ≤ 15 }
    {
        self.units
    }
}
