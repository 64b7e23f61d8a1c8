//! How far a direction of a capture was read.

/// What was read of a direction.
#[derive(Clone, Copy, PartialEq, Eq)]
pub struct Reading {
    /// Complete packets.
    pub packets: u64,
    /// All octets.
    pub octets: u64,
    /// The octets after the last complete packet.
    pub rest: u64,
}
