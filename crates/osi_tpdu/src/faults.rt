//! Why octets are not transport units.

use thiserror::Error;

/// Why the octets of a packet are not transport units (X.224 sections 13.2 and 13.3).
///
/// A fault is the first one from left to right. Its offset is counted in octets from 0 in what follows the packet's
/// header.
#[derive(Clone, Copy, PartialEq, Eq, Debug, Error)]
pub enum TpduFault {
    /// The length indicator at this offset is missing, 0 or 255, exceeds the packet, or is impossible for a unit with
    /// this code.
    #[error("bad length indicator at {0}")]
    BadLi(usize),
    /// The code at this offset belongs to no unit of classes 0 and 2.
    #[error("unknown unit code at {0}")]
    UnknownCode(usize),
    /// The parameter at this offset has no length, exceeds the header, or has a length that its code does not allow.
    #[error("bad parameter length at {0}")]
    BadParameterLength(usize),
    /// The parameter at this offset has a value that its code does not allow.
    #[error("bad parameter value at {0}")]
    BadParameterValue(usize),
    /// The parameter at this offset has a known code that already occurred.
    #[error("parameter repeated at {0}")]
    DuplicateParameter(usize),
}
