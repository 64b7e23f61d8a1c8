//! Why events are not applied.

use thiserror::Error;

/// Why an event was not applied. Nothing has changed.
#[derive(Clone, Copy, PartialEq, Eq, Debug, Error)]
pub enum PairError {
    /// A side is told of a break, but the byte connection is not broken.
    #[error("not broken")]
    NotBroken,
    /// The byte connection breaks, but is already broken.
    #[error("already broken")]
    AlreadyBroken,
    /// An allocation failed for the event, or for its entry in the journal.
    #[error("out of memory")]
    OutOfMemory,
}

/// Why a list of events was not applied as a whole. All events before this one were applied.
#[derive(Clone, Copy, PartialEq, Eq, Debug, Error)]
#[error("event {place}: {error}")]
pub struct RunError {
    /// The place of the event, counted from 0.
    pub place: usize,
    /// Why it was not applied.
    pub error: PairError,
}
