//! What is told of one side of a connection.

use osi_judge::Outcome;

/// What is reported of the connection of one side.
#[derive(Clone, Copy)]
pub enum Connection {
    /// There is none, or it is not judged any further.
    Silent,
    /// It was requested with this reference, and refused.
    Refused(u16),
    /// It was requested with this reference, and not answered.
    Unanswered(u16),
    /// A session ran on it; the side gave it this reference.
    Session(u16, Outcome),
}
