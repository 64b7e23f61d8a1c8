//! Where something passed in a capture, and which of two passed first.

ghost use Rattle.std.specs.Prelude.{◌≡◌};
ghost use Rattle.osi_witness.specs.Places.{other_side, comes_before, earlier_stop};

use crate::halts::Halt;
use osi_script::Side;

/// Where octets of a side are in a capture. Pieces are counted over both sides.
#[derive(Clone, Copy)]
pub struct Place {
    /// The piece in which the first of them passed.
    pub first: usize,
    /// The piece in which the last of them passed.
    pub last: usize,
    /// The offset, in the direction of the side, of the packet in which they end.
    pub offset: usize,
}

/// Where a side is told no further, and why.
#[derive(Clone, Copy)]
pub struct Stop {
    pub side: Side,
    pub place: Place,
    pub halt: Halt,
}

/// The other side.
pub fn other(side: Side) -> Side
    ensures { result ≡ other_side side }
{
    match side {
        Side::Left => Side::Right,
        Side::Right => Side::Left,
    }
}

/// Whether what a side sent at a place comes before a stop. Of two that begin in the same piece, that of left comes first.
pub fn is_before(side: Side, place: Place, stop: &Stop) -> bool
    ensures { result ≡ comes_before side place stop.now.side stop.now.place }
{
    match (side, stop.side) {
        (Side::Left, Side::Left) | (Side::Right, Side::Right) => place.offset < stop.place.offset,
        (Side::Left, Side::Right) => place.first <= stop.place.first,
        (Side::Right, Side::Left) => place.first < stop.place.first,
    }
}

/// The earlier of two stops; the first of two at one packet.
pub fn earlier(one: Option<Stop>, other: Option<Stop>) -> Option<Stop>
    ensures { result ≡ earlier_stop one other }
{
    match (one, other) {
        (Some(one), Some(other)) => {
            if is_before(other.side, other.place, &one) {
                Some(other)
            } else {
                Some(one)
            }
        }
        (Some(one), None) => Some(one),
        (None, other) => other,
    }
}
