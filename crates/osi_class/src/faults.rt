//! Why a link does not take a unit.

use thiserror::Error;

/// Why a unit is not taken. The call returns the first fault in this order, and the link is as before.
#[derive(Clone, Copy, PartialEq, Eq, Debug, Error)]
pub enum LinkFault {
    /// An open connection of this class takes no such unit.
    #[error("unit of the wrong form")]
    WrongForm,
    /// A DT without the expected number, or beyond the window; or an AK that acknowledges units that were not sent
    /// (X.224 section 6.16).
    #[error("number out of sequence")]
    OutOfSequence,
    /// An AK that takes credit back (X.224 section 6.16).
    #[error("credit reduced")]
    CreditReduced,
    /// A TSDU of more than 1,048,576 octets.
    #[error("TSDU too long")]
    TsduTooLong,
    /// An allocation for the unit's octets failed.
    #[error("out of memory")]
    OutOfMemory,
}
