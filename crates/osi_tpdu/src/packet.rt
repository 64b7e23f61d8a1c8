//! The units of a whole packet (X.224 section 6.4).

ghost use Rattle.std.specs.Prelude.{◌≡◌, ◌+◌, ◌<◌, ◌^◌, true, length};
ghost use Rattle.osi_tpdu.specs.Rest.{can_be_read};

use crate::known::{known_fields, known_front};
use crate::unit::Tpdu;
use std::iter::FusedIterator;

mod whole;

pub use whole::read_units;

/// The units of one packet, in order. Each is read again when it is given, so nothing is allocated.
#[derive(Clone, Copy)]
pub struct Units<'a> {
    at: usize,
    rest: &'a [u8],
    ghost room: { at + length rest.now < 2 ^ 64 },
    ghost readable: { can_be_read at rest.now ≡ true },
}

impl<'a> Iterator for Units<'a> {
    ghost use Rattle.std.specs.Iterator.{item_count};
    ghost use Rattle.osi_tpdu.specs.Units.{units_left, GivesUnit};

    type Item = Tpdu<'a>;

    ghost next_gives = { GivesUnit };

    ghost remaining = { item_count units_left };

    /// The next unit, in the order of the packet.
    #[inline(always)]
    fn next(&mut self) -> Option<Tpdu<'a>> {
        if self.rest.is_empty() {
            return None;
        }
        let (place, octets) = (self.at, self.rest);
        let (header, behind, used) = known_front(place, octets);
        let (_, rest) = octets.split_at(used);
        let at = place + used;
        *self = Units { at, rest };
        // The unit is built last, so that it is moved to the caller without a copy.
        Some(known_fields(place, header, behind))
    }
}

impl FusedIterator for Units<'_> {}
