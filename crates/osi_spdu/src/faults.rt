//! Why a TSDU holds no session units.

use thiserror::Error;

/// Why a TSDU holds no session units (X.225 section 8): the first fault from left to right.
///
/// An offset is the place of an octet in the TSDU, counted from 0. A code is the octet that names a parameter or a
/// parameter group.
#[derive(Clone, Copy, PartialEq, Eq, Debug, Error)]
pub enum SpduFault {
    /// The octet at the offset is the SI of no unit.
    #[error("no session unit at {0}: its SI is unknown")]
    UnknownSi(usize),
    /// The length of the unit or parameter at the offset is missing, or exceeds what contains it: the TSDU, the unit or
    /// the parameter group.
    #[error("a length goes past its end at {0}")]
    LengthPastEnd(usize),
    /// The unit at the offset lacks the parameter with this code, which is mandatory.
    #[error("the session unit at {1} has no parameter {0}")]
    MissingParameter(u8, usize),
    /// The parameter or group at the offset occurs for the second time.
    #[error("parameter {0} at {1} is there twice")]
    DuplicateParameter(u8, usize),
    /// The parameter at the offset has a value that its code does not allow.
    #[error("parameter {0} at {1} has no value of its kind")]
    BadValue(u8, usize),
    /// The unit at the offset may not occur in this place.
    #[error("the session unit at {0} may not stand there")]
    BadConcatenation(usize),
    /// Octets are left after the last unit, from the offset on.
    #[error("octets are left at {0}")]
    TrailingOctets(usize),
}
