//! The entries of the journal.

use crate::owned::{OwnedConnect, OwnedRequest};
use crate::sides::Side;
use osi_carrier::{EndReason, Ref};
use osi_session::{CallError, Indication};
use osi_stack::ConnectError;

/// An entry in the journal of two ends.
#[derive(Drop)]
pub enum Entry {
    /// The user of the left end requested a connection.
    Connect {
        /// The request. It has addresses, and so more octets than any other entry; a box keeps the other entries small.
        asked: Box<OwnedConnect>,
        /// The reference of the connection, or why there is none.
        answer: Result<Ref, ConnectError>,
    },
    /// A call of a user.
    Call {
        /// Whose call it was.
        side: Side,
        /// The connection.
        reference: Ref,
        /// Whether it was done, or why it was refused.
        answer: Result<(), CallError>,
        /// The request.
        request: OwnedRequest,
    },
    /// An indication that a user received.
    Indication {
        /// The side of the user.
        side: Side,
        /// The connection.
        reference: Ref,
        /// The indication.
        indication: Indication,
    },
    /// The end of an end.
    End {
        /// The end.
        side: Side,
        /// Why it ended.
        reason: EndReason,
    },
}
