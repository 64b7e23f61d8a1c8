//! Which part of one Data a DT has.

ghost use Rattle.std.specs.Prelude.{◌≡◌};
ghost use Rattle.osi_spdu.specs.declared.codes.Code.TheVariants as code;
ghost use Rattle.osi_spdu.specs.Params.{known_of};
ghost use Rattle.osi_spdu.specs.Units.{said_by};
ghost use Rattle.osi_message.specs.Reading.{place_in, place_of};

use osi_spdu::{Enclosure, Kind, Params, Spdu};

/// Which part of one Data a DT has (X.225 section 8, enclosure item).
#[derive(Clone, Copy, PartialEq, Eq)]
pub enum Place {
    /// The first.
    First,
    /// One between the first and the last.
    Middle,
    /// The last.
    Last,
}

/// Which part of one Data a DT with these parameters has.
fn part_of_data(params: &Params) -> Option<Place>
    ensures { result ≡ place_in (known_of params.now code.Enclosure) }
{
    match params.enclosure() {
        None | Some(Enclosure::Whole) => None,
        Some(Enclosure::First) => Some(Place::First),
        Some(Enclosure::Middle) => Some(Place::Middle),
        Some(Enclosure::Last) => Some(Place::Last),
    }
}

impl Place {
    /// Which part of a Data a unit has; none if it is not a DT, or has the whole.
    pub fn of(unit: &Spdu) -> Option<Place>
        ensures { result ≡ place_of (said_by unit.now) }
    {
        match unit.kind() {
            Kind::DataTransfer => part_of_data(unit.params()),
            _ => None,
        }
    }
}
