//! Units that a link gives.

/// A data unit that a link lets its caller send at once, with octets that the link does not see: what is written
/// before them.
#[derive(Clone, Copy)]
pub enum Slot {
    /// DT of class 0 (X.224 section 13.7).
    Data0,
    /// DT of class 2 with this number, 0 to 127 (X.224 section 13.7).
    Data2(u8),
}

/// A unit that a link gives, to be written for its peer.
#[derive(Clone, Copy, PartialEq, Eq)]
pub enum Out<'a> {
    /// DT of class 0, a part of a TSDU (X.224 section 13.7).
    Data0 {
        /// EOT: this part is the last of its TSDU.
        end: bool,
        /// The octets, borrowed from the buffer of the TSDU.
        octets: &'a [u8],
    },
    /// DT of class 2, a numbered part of a TSDU (X.224 section 13.7).
    Data2 {
        /// The number of this unit, 0 to 127.
        number: u8,
        /// EOT: this part is the last of its TSDU.
        end: bool,
        /// The octets, borrowed from the buffer of the TSDU.
        octets: &'a [u8],
    },
    /// AK of class 2 (X.224 section 13.9).
    Ack {
        /// The number of the unit that is expected next, 0 to 127.
        number: u8,
        /// How many units may be sent from that number on, 1 to 15.
        credit: u8,
    },
}

/// The units that a link gives for a TSDU.
#[derive(Clone, Copy, PartialEq, Eq)]
pub struct Room {
    /// How many there are.
    pub units: usize,
    /// How many octets of the TSDU they carry, headers not counted.
    pub octets: usize,
}
