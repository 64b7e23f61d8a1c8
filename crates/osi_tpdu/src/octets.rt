//! Halves, bits and references in octets.

ghost use Rattle.std.specs.Prelude.{◌≡◌, ◌+◌, ◌<◌, ◌≤◌, ◌/◌, ◌%◌, ◌∷◌, [], length};
ghost use Rattle.osi_tpdu.specs.Reading.{reference_at};
ghost use Rattle.osi_tpdu.specs.Spelling.{below_bit};

/// The high half of an octet: a unit's code, or a class.
pub(crate) fn high_half(octet: u8) -> u8
    ensures value { result ≡ octet / 16 }
    ensures bound { result < 16 }
{
    octet >> 4
}

/// The low half of an octet: a credit, or options.
pub(crate) fn low_half(octet: u8) -> u8
    ensures value { result ≡ octet % 16 }
    ensures bound { result < 16 }
{
    octet & 0x0F
}

/// The seven low bits of an octet, a unit's number.
pub(crate) fn number(octet: u8) -> u8
    ensures value { result ≡ octet % 128 }
    ensures bound { result < 128 }
{
    octet & 0x7F
}

/// A number below 128 with a bit above it.
pub(crate) fn with_bit(bit: bool, number: u8) -> u8
    requires { number < 128 }
    ensures { result ≡ below_bit bit number }
{
    if bit { 0x80 + number } else { number }
}

/// The reference at a place of a header, two octets, the high one first.
pub(crate) fn reference(place: usize, header: &[u8]) -> u16
    requires { place + 1 < length header.now }
    ensures { result ≡ reference_at place header.now }
{
    u16::from_be_bytes([header[place], header[place + 1]])
}

/// The high octet of a reference.
pub(crate) fn high_octet(reference: u16) -> u8
    ensures { result ≡ reference / 256 }
{
    (reference >> 8) as u8
}

/// The low octet of a reference.
pub(crate) fn low_octet(reference: u16) -> u8
    ensures { result ≡ reference % 256 }
{
    (reference & 0xFF) as u8
}
