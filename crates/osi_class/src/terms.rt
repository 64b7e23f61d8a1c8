//! What an end supports, and what is agreed.

use osi_tpdu::{SizeCode, Window};

/// The classes of the transport protocol that are known here (X.224 section 5.4).
#[derive(Clone, Copy, PartialEq, Eq)]
pub enum Class {
    /// Class 0, simple: one connection on a byte stream, no flow control.
    Zero,
    /// Class 2, multiplexing: many connections on a byte stream, each with flow control.
    Two,
}

/// What this end supports and prefers.
#[derive(Clone, Copy, PartialEq, Eq)]
pub struct Local {
    /// Whether class 0 is supported.
    pub class0: bool,
    /// Whether class 2 is supported.
    pub class2: bool,
    /// The largest TPDU size that it offers and accepts.
    pub size: SizeCode,
    /// How many data units of class 2 it lets a peer send ahead.
    pub window: Window,
}

/// The answer to a CR (X.224 section 6.5).
#[derive(Clone, Copy, PartialEq, Eq)]
pub enum Answer {
    /// A CC, with the class and the TPDU size that it selects. Without a size units have at most
    /// 128 octets.
    Accept {
        class: Class,
        size: Option<SizeCode>,
    },
    /// A DR with this reason (X.224 section 13.5): 0, not specified, or 128 + 2, negotiation failed.
    Disconnect(u8),
}
