//! Octets by their two digits, which a table tells.

ghost use Rattle.std.specs.Prelude.{◌≡◌, ◌≤◌, ◌+◌, ◌*◌, length, IfSome, None, Some};
ghost use Rattle.hex.specs.Hex.{hex_digit_value};
ghost use Rattle.osi_listing.specs.Digits.{octet_of, value_or_no};
ghost use Rattle.osi_listing.specs.Capture.{octets_from};

/// What the table has for a character that is no digit. It is more than four octets together.
const NO: u32 = 65_536;

/// The value of each character as a digit.
static VALUES: [u32; 256] = [
    NO, NO, NO, NO, NO, NO, NO, NO, NO, NO, NO, NO, NO, NO, NO, NO, NO, NO, NO, NO, NO, NO, NO, NO,
    NO, NO, NO, NO, NO, NO, NO, NO, NO, NO, NO, NO, NO, NO, NO, NO, NO, NO, NO, NO, NO, NO, NO, NO,
    0, 1, 2, 3, 4, 5, 6, 7, 8, 9, NO, NO, NO, NO, NO, NO, NO, 10, 11, 12, 13, 14, 15, NO, NO, NO,
    NO, NO, NO, NO, NO, NO, NO, NO, NO, NO, NO, NO, NO, NO, NO, NO, NO, NO, NO, NO, NO, NO, NO, 10,
    11, 12, 13, 14, 15, NO, NO, NO, NO, NO, NO, NO, NO, NO, NO, NO, NO, NO, NO, NO, NO, NO, NO, NO,
    NO, NO, NO, NO, NO, NO, NO, NO, NO, NO, NO, NO, NO, NO, NO, NO, NO, NO, NO, NO, NO, NO, NO, NO,
    NO, NO, NO, NO, NO, NO, NO, NO, NO, NO, NO, NO, NO, NO, NO, NO, NO, NO, NO, NO, NO, NO, NO, NO,
    NO, NO, NO, NO, NO, NO, NO, NO, NO, NO, NO, NO, NO, NO, NO, NO, NO, NO, NO, NO, NO, NO, NO, NO,
    NO, NO, NO, NO, NO, NO, NO, NO, NO, NO, NO, NO, NO, NO, NO, NO, NO, NO, NO, NO, NO, NO, NO, NO,
    NO, NO, NO, NO, NO, NO, NO, NO, NO, NO, NO, NO, NO, NO, NO, NO, NO, NO, NO, NO, NO, NO, NO, NO,
    NO, NO, NO, NO, NO, NO, NO, NO, NO, NO, NO, NO, NO, NO,
];

/// The octet of two digits of either case, or none if one of the characters is no digit.
#[inline(always)]
#[tactic(auto, using(crate::proofs::two_digits_make_an_octet::is_octet, crate::proofs::two_digits_make_an_octet::is_none, crate::proofs::two_digits_make_an_octet::is_small))]
pub(crate) fn octet_of(high: u8, low: u8) -> Option<u8>
    ensures { result ≡ octet_of high low }
{
    let octet = joined(high, low);
    if octet < NO { Some(octet as u8) } else { None }
}

/// The four octets of eight characters, if all are digits. One comparison tells whether they are.
#[inline(always)]
#[tactic(auto, using(crate::proofs::two_digits_make_an_octet::eight_are, crate::proofs::two_digits_make_an_octet::is_small))]
pub(crate) fn octets_of_eight(characters: &[u8]) -> Option<[u8; 4]>
    requires { length characters.now ≡ 8 }
    ensures { IfSome result (λ octets. octets_from characters.now None ≡ Some octets) }
{
    let [a, b, c, d, e, f, g, h] = characters else {
        return None;
    };
    let (first, second) = (joined(*a, *b), joined(*c, *d));
    let (third, fourth) = (joined(*e, *f), joined(*g, *h));
    if first + second + third + fourth < NO {
        Some([first as u8, second as u8, third as u8, fourth as u8])
    } else {
        None
    }
}

/// The octet of two digits, or a number above all octets.
#[inline(always)]
fn joined(high: u8, low: u8) -> u32
    ensures value { result ≡ value_or_no (hex_digit_value high) * 16 + value_or_no (hex_digit_value low) }
    ensures most { result ≤ 1114112 }
{
    value_of(high) * 16 + value_of(low)
}

/// The value of a character as a digit, or 65,536 if it is none.
#[inline(always)]
fn value_of(character: u8) -> u32
    ensures value { result ≡ value_or_no (hex_digit_value character) }
    ensures most { result ≤ 65536 }
{
    VALUES[character as usize]
}
