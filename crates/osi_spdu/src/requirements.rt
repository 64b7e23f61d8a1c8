//! Sets of functional units.

ghost use Rattle.std.specs.Prelude.{⊤, ◌≡◌, ◌/◌, ◌%◌, ◌==◌, ◌-◌, ◌^◌, [], ◌∷◌, codes, option_map};
ghost use Rattle.osi_spdu.specs.Values.{canonical};
ghost use Rattle.osi_spdu.specs.Fields.{requirement_octets};
ghost use Rattle.osi_spdu.specs.Octets.{octets_of};

use crate::codes::Code;
use crate::octets::{Short, Value};
use bitflags::{Flag, Flags};

/// The functional units of a session (X.225 section 8, session user requirements). All 16 bits are kept as they were
/// read.
#[derive(Clone, Copy, PartialEq, Eq)]
pub struct Requirements(u16);

impl Requirements {
    /// Half-duplex.
    pub const HALF_DUPLEX: Requirements = Requirements(0x0001);
    /// Duplex.
    pub const DUPLEX: Requirements = Requirements(0x0002);
    /// Expedited data.
    pub const EXPEDITED: Requirements = Requirements(0x0004);
    /// Minor synchronize.
    pub const MINOR: Requirements = Requirements(0x0008);
    /// Major synchronize.
    pub const MAJOR: Requirements = Requirements(0x0010);
    /// Resynchronize.
    pub const RESYNCHRONIZE: Requirements = Requirements(0x0020);
    /// Activity management.
    pub const ACTIVITY: Requirements = Requirements(0x0040);
    /// Negotiated release.
    pub const NEGOTIATED_RELEASE: Requirements = Requirements(0x0080);
    /// Capability data.
    pub const CAPABILITY: Requirements = Requirements(0x0100);
    /// Exceptions.
    pub const EXCEPTIONS: Requirements = Requirements(0x0200);
    /// Typed data.
    pub const TYPED_DATA: Requirements = Requirements(0x0400);

    /// The functional units with their names.
    pub const FLAGS: &'static [Flag<Requirements>] = &[
        Flag {
            name: "HALF_DUPLEX",
            value: Requirements::HALF_DUPLEX,
        },
        Flag {
            name: "DUPLEX",
            value: Requirements::DUPLEX,
        },
        Flag {
            name: "EXPEDITED",
            value: Requirements::EXPEDITED,
        },
        Flag {
            name: "MINOR",
            value: Requirements::MINOR,
        },
        Flag {
            name: "MAJOR",
            value: Requirements::MAJOR,
        },
        Flag {
            name: "RESYNCHRONIZE",
            value: Requirements::RESYNCHRONIZE,
        },
        Flag {
            name: "ACTIVITY",
            value: Requirements::ACTIVITY,
        },
        Flag {
            name: "NEGOTIATED_RELEASE",
            value: Requirements::NEGOTIATED_RELEASE,
        },
        Flag {
            name: "CAPABILITY",
            value: Requirements::CAPABILITY,
        },
        Flag {
            name: "EXCEPTIONS",
            value: Requirements::EXCEPTIONS,
        },
        Flag {
            name: "TYPED_DATA",
            value: Requirements::TYPED_DATA,
        },
    ];

    #[tactic(auto, unfolding(crate::specs::Values::canonical))]
    pub(crate) fn read(value: &[u8]) -> Option<Requirements>
        ensures { canonical Code.UserRequirements value.now ≡ option_map requirement_octets result }
    {
        match value {
            [high, low] => Some(Requirements(*high as u16 * 256 + *low as u16)),
            _ => None,
        }
    }

    pub(crate) fn value<'a>(self) -> Value<'a>
        ensures { octets_of result ≡ requirement_octets self }
    {
        Value::of_short(Short::two(self.0))
    }
}

impl Flags for Requirements {
    type Bits = u16;

    ghost exact = { ⊤ };

    ghost table = { (codes "HALF_DUPLEX", 1) ∷ (codes "DUPLEX", 2) ∷ (codes "EXPEDITED", 4)
        ∷ (codes "MINOR", 8) ∷ (codes "MAJOR", 16) ∷ (codes "RESYNCHRONIZE", 32) ∷ (codes "ACTIVITY", 64)
        ∷ (codes "NEGOTIATED_RELEASE", 128) ∷ (codes "CAPABILITY", 256) ∷ (codes "EXCEPTIONS", 512)
        ∷ (codes "TYPED_DATA", 1024) ∷ [] };

    ghost set_of = { λ r. r.0 };

    fn flags<'a>() -> &'a [Flag<Requirements>] {
        Requirements::FLAGS
    }

    fn bits(&self) -> u16 {
        self.0
    }

    fn from_bits_retain(bits: u16) -> Requirements {
        Requirements(bits)
    }
}
