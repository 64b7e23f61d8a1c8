//! What was moved from one end to the other.

/// What was received: TSDUs and their octets, each modulo 2^64.
#[derive(Clone, Copy)]
pub(crate) struct Moved {
    tsdus: u64,
    octets: u64,
}

impl Moved {
    /// Nothing was received.
    pub(crate) fn nothing() -> Self {
        Moved {
            tsdus: 0,
            octets: 0,
        }
    }

    /// The checksum of what was received.
    pub(crate) fn number(self) -> u64 {
        self.tsdus.wrapping_mul(1_000_003).wrapping_add(self.octets)
    }

    /// With one more TSDU.
    pub(crate) fn with(self, tsdu: &[u8]) -> Self {
        Moved {
            tsdus: self.tsdus.wrapping_add(1),
            octets: self.octets.wrapping_add(tsdu.len() as u64),
        }
    }
}
