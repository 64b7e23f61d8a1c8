//! AK, data acknowledgement (X.224 section 13.9).

ghost use Rattle.std.specs.Prelude.{◌≡◌, ◌<◌};

use crate::octets::{low_half, number};

/// AK of class 2 in normal format, which acknowledges units and gives credit (X.224 section 13.9).
#[derive(Clone, Copy, PartialEq, Eq)]
pub struct DataAcknowledgement {
    /// CDT: how many units may be sent from that number on, 0 to 15.
    pub credit: u8,
    /// DST-REF: the reference that the receiver gave the connection.
    pub destination: u16,
    /// YR-TU-NR: the number of the next unit expected, 0 to 127.
    pub number: u8,
    pub ghost credit_fits: { credit < 16 },
    pub ghost number_fits: { number < 128 },
}

impl DataAcknowledgement {
    ghost use Rattle.std.specs.Prelude.{◌+◌, ◌*◌, ◌%◌};

    /// The unit with these octets: CDT below the code, DST-REF, the high octet first, and YR-TU-NR.
    #[inline(always)]
    pub(crate) fn from_header(first: u8, high: u8, low: u8, last: u8) -> DataAcknowledgement
        ensures credit { result.credit ≡ first % 16 }
        ensures destination { result.destination ≡ 256 * high + low }
        ensures number { result.number ≡ last % 128 }
    {
        DataAcknowledgement {
            credit: low_half(first),
            destination: u16::from_be_bytes([high, low]),
            number: number(last),
        }
    }

    /// CDT: how many units may be sent from that number on, 0 to 15 (X.224 section 13.9).
    pub fn credit(&self) -> u8
        ensures { result ≡ self.now.credit }
    {
        self.credit
    }

    /// DST-REF: the reference that the receiver gave the connection.
    pub fn destination(&self) -> u16
        ensures { result ≡ self.now.destination }
    {
        self.destination
    }

    /// YR-TU-NR: the number of the next unit expected, 0 to 127.
    pub fn number(&self) -> u8
        ensures { result ≡ self.now.number }
    {
        self.number
    }
}
