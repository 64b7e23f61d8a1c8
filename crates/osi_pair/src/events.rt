//! The events of two ends.

use crate::sides::Side;
use osi_carrier::Ref;
use osi_session::Request;
use osi_stack::Connect;

/// Something that happens to two ends.
#[derive(Clone, Copy)]
pub enum Event<'a> {
    /// The user of the left end requests a connection.
    Connect(Connect<'a>),
    /// A call of the user of one connection.
    Call(Side, Ref, Request<'a>),
    /// The first octets that a side has sent are carried to the other side: this many, or all if there are fewer.
    Carry(Side, usize),
    /// The byte connection breaks. Of the octets that the left side has sent, and of those of the right side, this many
    /// can still be carried, or all if there are fewer.
    Break(usize, usize),
    /// A side is told of the break.
    Told(Side),
}

/// The result of an event that was applied.
#[derive(Clone, Copy, PartialEq, Eq, Debug)]
pub struct Applied {
    /// The number of octets carried; 0 for all events but a carry.
    pub carried: usize,
    /// Whether a carry stopped early, because memory ran out for the entries that more octets may cause. Only a carry
    /// that has noted something stops early, and only if the journal has no room for 82 more entries. `false` for all
    /// other events.
    pub is_cut_short: bool,
}

/// The result of an event that carries nothing.
pub(crate) const DONE: Applied = Applied {
    carried: 0,
    is_cut_short: false,
};
