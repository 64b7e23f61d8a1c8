//! The events that a carrier reports to its user.

ghost use Rattle.std.specs.Prelude.{◌≡◌, ◌++◌, ◌∷◌, [], true};

use osi_class::{LinkFault, Queue};

/// The reference that this end gave a connection: 1 to 65,535, and never twice the same.
#[derive(Clone, Copy, PartialEq, Eq)]
pub struct Ref(pub u16);

/// An event that a carrier reports to its user.
#[derive(Drop)]
pub enum Event {
    /// The connection is open: a CC arrived for it, or this end accepted it.
    Opened(Ref),
    /// The peer refused the connection, with this reason (X.224 section 13.5.3).
    Refused(Ref, u8),
    /// A whole TSDU of this connection arrived.
    Tsdu(Ref, Vec<u8>),
    /// The peer closed the connection, with this reason.
    Closed(Ref, u8),
    /// The peer broke a rule on this connection, and a DR was sent. Other connections go on.
    Faulted(Ref, LinkFault),
}

/// Queues an event, for which there is room.
#[inline(always)]
pub(crate) fn tell(events: &mut Queue<Event>, event: Event)
    requires { events.old.has_room ≡ true }
    ensures { events.new.items ≡ events.old.items ++ event ∷ [] }
{
    let Ok(()) = events.push(event) else {
        unreachable!()
    };
}
