//! Functional units, and which of them go together.

ghost use Rattle.osi_spdu.specs.Fields.{unit_bits};
ghost use Rattle.std.specs.Prelude.{◌≡◌, option_map};
ghost use Rattle.osi_session.specs.Allowed.{base_for, serial_for};
ghost use Rattle.osi_session.specs.Units.{functional_units, both_units, has_points, has_data, is_profile, units_within, available};

use bitflags::Flags;
use osi_message::Tokens;
use osi_spdu::{Requirements, Serial};

/// The functional units that have a meaning here (X.215 section 6.3), by name.
#[derive(Clone, Copy, PartialEq, Eq)]
pub(crate) struct FunctionalUnits {
    pub(crate) half_duplex: bool,
    pub(crate) duplex: bool,
    pub(crate) minor: bool,
    pub(crate) major: bool,
    pub(crate) resynchronize: bool,
    pub(crate) negotiated_release: bool,
}

impl FunctionalUnits {
    pub(crate) const NONE: FunctionalUnits = FunctionalUnits {
        half_duplex: false,
        duplex: false,
        minor: false,
        major: false,
        resynchronize: false,
        negotiated_release: false,
    };

    /// The functional units that are named; other bits are ignored.
    pub(crate) fn of(requirements: Requirements) -> FunctionalUnits
        ensures { result ≡ functional_units (unit_bits requirements) }
    {
        FunctionalUnits {
            half_duplex: requirements.contains(Requirements::HALF_DUPLEX),
            duplex: requirements.contains(Requirements::DUPLEX),
            minor: requirements.contains(Requirements::MINOR),
            major: requirements.contains(Requirements::MAJOR),
            resynchronize: requirements.contains(Requirements::RESYNCHRONIZE),
            negotiated_release: requirements.contains(Requirements::NEGOTIATED_RELEASE),
        }
    }

    /// The functional units that are named by both.
    #[tactic(auto, unfolding(crate::specs::Units::both_units))]
    pub(crate) fn both(self, other: FunctionalUnits) -> FunctionalUnits
        ensures { result ≡ both_units self other }
    {
        FunctionalUnits {
            half_duplex: self.half_duplex && other.half_duplex,
            duplex: self.duplex && other.duplex,
            minor: self.minor && other.minor,
            major: self.major && other.major,
            resynchronize: self.resynchronize && other.resynchronize,
            negotiated_release: self.negotiated_release && other.negotiated_release,
        }
    }

    /// Each functional unit is also in the other set.
    #[tactic(auto, unfolding(crate::specs::Units::units_within))]
    pub(crate) fn is_within(self, other: FunctionalUnits) -> bool
        ensures { result ≡ units_within self other }
    {
        (!self.half_duplex || other.half_duplex)
            && (!self.duplex || other.duplex)
            && (!self.minor || other.minor)
            && (!self.major || other.major)
            && (!self.resynchronize || other.resynchronize)
            && (!self.negotiated_release || other.negotiated_release)
    }

    /// Half-duplex or duplex is there, so that data can be sent.
    #[tactic(auto, unfolding(crate::specs::Units::has_data))]
    pub(crate) fn has_data(self) -> bool
        ensures { result ≡ has_data self }
    {
        self.half_duplex || self.duplex
    }

    /// There are synchronization points, or restarts at them.
    #[tactic(auto, unfolding(crate::specs::Units::has_points))]
    pub(crate) fn has_points(self) -> bool
        ensures { result ≡ has_points self }
    {
        self.minor || self.major || self.resynchronize
    }

    /// The number of the first point, if there are points or restarts; else 0.
    pub(crate) fn base(self, serial: u32) -> u32
        ensures { result ≡ base_for self serial }
    {
        if self.has_points() { serial } else { 0 }
    }

    /// The number of the first point as it is written: if there are points or restarts.
    pub(crate) fn initial_number(self, serial: Serial) -> Option<Serial>
        ensures { option_map (λ s. s.number) result ≡ serial_for self serial.number }
    {
        if self.has_points() {
            return Some(serial);
        }
        None
    }

    /// The available tokens (X.225 section 5.8): a token is available if its unit is selected.
    #[tactic(auto, unfolding(crate::specs::Units::available))]
    pub(crate) fn available(self) -> Tokens
        ensures { result ≡ available self }
    {
        Tokens {
            data_token: self.half_duplex,
            minor: self.minor,
            major: self.major,
            release: self.negotiated_release,
        }
    }
}

/// Whether these functional units can be selected together: half-duplex, with or without points, restart and negotiated
/// release; or only duplex.
#[tactic(auto, unfolding(crate::specs::Units::is_profile))]
pub fn is_profile(requirements: Requirements) -> bool
    ensures { result ≡ is_profile (unit_bits requirements) }
{
    let bits = requirements.bits();
    bits == 0x0002 || (bits & 0x00B9 == bits && bits & 0x0001 == 0x0001)
}
