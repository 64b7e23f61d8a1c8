//! Why a call of a carrier is refused.

use thiserror::Error;

/// Why no connection was requested: the first reason that applies, in this order.
#[derive(Clone, Copy, PartialEq, Eq, Debug, Error)]
pub enum OpenError {
    /// This is the called end, which only answers.
    #[error("not the calling end")]
    NotCaller,
    /// The carrier has ended.
    #[error("the carrier has ended")]
    Ended,
    /// The first connection is requested and not answered yet, so the class is not known.
    #[error("the class is being negotiated")]
    Negotiating,
    /// The class is 0, which allows one connection.
    #[error("class 0 has one connection")]
    OneConnection,
    /// 64 connections are live.
    #[error("too many connections")]
    TooMany,
    /// All 65,535 references were given.
    #[error("references used up")]
    ReferencesUsedUp,
    /// An allocation for the connection or its CR failed.
    #[error("out of memory")]
    OutOfMemory,
}

/// Why a TSDU was not sent, or a connection not closed: the first reason that applies, in this order.
#[derive(Clone, Copy, PartialEq, Eq, Debug, Error)]
pub enum SendError {
    /// No open connection has this reference.
    #[error("no open connection")]
    NotOpen,
    /// The TSDU has more than 1,048,576 octets.
    #[error("TSDU too long")]
    TooLong,
    /// An allocation for the TSDU or its units failed.
    #[error("out of memory")]
    OutOfMemory,
}
