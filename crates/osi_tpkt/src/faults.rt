//! Why octets are not a packet.

use thiserror::Error;

/// Why octets are not a packet (RFC 1006 section 6), or were not taken.
///
/// An offset is the place in the stream, counted from 0, where the faulty packet begins. An offset above 2^64 - 1 is
/// given as 2^64 - 1.
#[derive(Clone, Copy, PartialEq, Eq, Debug, Error)]
pub enum TpktFault {
    /// The first octet of a packet is not the version, 3. This is found at that octet.
    #[error("no packet at {0}: the version is not 3")]
    BadVersion(u64),
    /// The length in a packet's header is below 7, the shortest packet. This is found at the header's fourth octet.
    #[error("no packet at {0}: its length is below 7")]
    BadLength(u64),
    /// An allocation failed. Nothing was taken.
    #[error("out of memory")]
    OutOfMemory,
}
