//! What was found of a side.

/// What was found of one side of a connection.
#[derive(Clone, Copy, PartialEq, Eq)]
pub enum Finding {
    /// Each TSDU that it sent is explained.
    Kept,
    /// It broke the protocol with this one of its TSDUs, counted from 0: the TSDUs before it are explained, but not
    /// together with it.
    Broke(usize),
    /// With this one of its TSDUs, counted from 0, it left the profile: it sent something that X.225 allows and a
    /// session of this library never sends. The TSDUs before it are explained.
    Left(usize),
    /// Too many sessions explain it, so it is not judged any further.
    TooMany,
}
