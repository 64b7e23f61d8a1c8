//! Why a call is refused, and why a unit is bad.

use osi_spdu::SpduFault;
use thiserror::Error;

/// Why a call of the user is refused: the first reason that applies. A refused call changes nothing.
#[derive(Clone, Copy, PartialEq, Eq, Debug, Error)]
pub enum CallError {
    /// There never was such a connection. A session by itself never returns this.
    #[error("no such connection")]
    NoSuchConnection,
    /// The connection is aborted or gone.
    #[error("the connection has ended")]
    Ended,
    /// The phase does not allow the call (X.225 annex A).
    #[error("the call is not allowed now")]
    BadState,
    /// The call needs a functional unit or a token that is not selected.
    #[error("functional unit not selected")]
    NotSelected,
    /// A token that the call needs is not held.
    #[error("token not held")]
    TokenNotHeld,
    /// A token that the call asks for is already held.
    #[error("token already held")]
    TokenAlreadyHeld,
    /// The call may not name this number.
    #[error("bad synchronization point serial number")]
    BadNumber,
    /// All numbers up to 999,999 have been used.
    #[error("synchronization point serial numbers used up")]
    SerialsUsedUp,
    /// The data is empty, or there is no token.
    #[error("nothing to send")]
    Empty,
    /// There are more than 10,240 octets of user data, or 1,048,572 octets of data; or the TSDU is longer than the size
    /// agreed for its direction.
    #[error("too long")]
    TooLong,
    /// An allocation for what is to be sent failed.
    #[error("out of memory")]
    OutOfMemory,
}

/// Why a received unit is bad: the first reason that applies, with the SI of the unit (X.225 section 8).
#[derive(Clone, Copy, PartialEq, Eq, Debug, Error)]
pub enum UnitFault {
    /// The octets of the TSDU are not session units.
    #[error("malformed TSDU: {0}")]
    Spelling(SpduFault),
    /// The phase does not expect this unit.
    #[error("unexpected unit {0}")]
    Unexpected(u8),
    /// The version, a functional unit, a size or the type of resynchronization is not selected.
    #[error("unit {0} is not selected")]
    NotSelected(u8),
    /// The unit needs a token that this end holds.
    #[error("unit {0} without its token")]
    TokenHeld(u8),
    /// The unit may not name this number.
    #[error("bad number in unit {0}")]
    BadNumber(u8),
    /// The unit may not name these tokens.
    #[error("bad tokens in unit {0}")]
    BadTokens(u8),
    /// A first part or whole data, a token item with tokens, a point or a finish within an unfinished SSDU; or a later
    /// part without a first one.
    #[error("bad enclosure in unit {0}")]
    BadEnclosure(u8),
    /// The parts of a Data have more than 1,048,572 octets.
    #[error("too much data in unit {0}")]
    DataTooLong(u8),
}
