//! The TSDUs in which a message is sent: one, or those of the parts of a Data.

use crate::short::Short;

/// The TSDUs to send, which own their octets.
#[derive(Drop)]
pub enum Tsdus {
    /// One TSDU of few octets.
    Short(Short),
    /// One TSDU.
    One(Vec<u8>),
    /// The parts of a Data, at least two.
    Parts(Vec<Vec<u8>>),
}

/// The TSDUs to send, borrowed.
#[derive(Clone, Copy)]
pub enum LentTsdus<'a> {
    /// The octets of one TSDU.
    One(&'a [u8]),
    /// The parts of a Data, at least two.
    Parts(&'a [Vec<u8>]),
}
