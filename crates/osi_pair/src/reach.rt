//! How many octets still arrive once the byte connection is broken.

ghost use Rattle.std.specs.Prelude.{◌≡◌};
ghost use Rattle.osi_pair.specs.Reaching.{within, reach_after};

use crate::sides::Side;

/// Once the byte connection is broken: how many octets of each side can still be carried.
#[derive(Clone, Copy, PartialEq, Eq, Debug)]
pub(crate) struct Reach {
    pub(crate) left: usize,
    pub(crate) right: usize,
}

/// How many of these octets of a side can be carried.
pub(crate) fn within(reach: Option<Reach>, side: Side, octets: usize) -> usize
    ensures { result ≡ within reach side octets }
{
    match reach {
        None => octets,
        Some(reach) => match side {
            Side::Left => octets.min(reach.left),
            Side::Right => octets.min(reach.right),
        },
    }
}

/// What can still be carried after this many octets of a side were.
pub(crate) fn reach_after(side: Side, octets: usize, reach: Option<Reach>) -> Option<Reach>
    ensures { result ≡ reach_after side octets reach }
{
    let reach = reach?;
    match side {
        Side::Left => Some(Reach {
            left: reach.left.saturating_sub(octets),
            right: reach.right,
        }),
        Side::Right => Some(Reach {
            left: reach.left,
            right: reach.right.saturating_sub(octets),
        }),
    }
}
