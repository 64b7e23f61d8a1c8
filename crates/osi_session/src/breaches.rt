//! Why a side may not send what it sent.

use crate::faults::CallError;
use thiserror::Error;

/// Why no side that keeps the protocol sends this unit at this point (X.225 section 7).
#[derive(Clone, Copy, PartialEq, Eq, Debug, Error)]
pub enum Breach {
    /// The call that would send it is refused.
    #[error("{0}")]
    Call(CallError),
    /// The side of a token is not one that the wish allows.
    #[error("bad tokens")]
    BadTokens,
    /// A unit that may not occur within an unfinished SSDU, a later part without a first one, or a part although no
    /// size is agreed.
    #[error("bad enclosure")]
    BadEnclosure,
    /// AB for a protocol error, although no unit was bad.
    #[error("no fault to abort for")]
    NoFault,
    /// AA, although no AB was received.
    #[error("nothing to answer")]
    NothingToAnswer,
    /// Something that X.225 allows but no session of this library does: a size from 1 to 63, version 1, or a
    /// resynchronization other than a restart.
    #[error("outside of the profile")]
    Outside,
}
