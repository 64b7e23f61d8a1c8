//! Reading the text of a capture.

ghost use Rattle.std.specs.Prelude.{◌≡◌, ◌<◌, ◌≤◌, ◌∷◌, ℕ, List, [], length, None, IfErr, IfOk, IfSome, Err};
ghost use Rattle.hex.specs.Hex.{hex_digit_value};
ghost use Rattle.osi_listing.specs.Capture.{after_octets, digits_of, digits_left, is_blank, octets_from, with_digit, Captures, IsNoCapture};

use crate::runs::read_run;
use std::alloc::Global;
use thiserror::Error;

/// Why a text gives no octets.
#[derive(Clone, Copy, PartialEq, Eq, Debug, Error)]
pub enum CaptureFault {
    /// The text is not a capture: it has a character other than digits, blanks and comments, or an odd number of
    /// digits.
    #[error("not the digits of octets")]
    BadHex,
    /// An allocation failed.
    #[error("out of memory")]
    OutOfMemory,
}

/// Where in a text the next character is.
#[derive(Clone, Copy)]
struct Place {
    /// The value of the first digit of an octet, if its second digit is still to come.
    high: Option<u8>,
    /// Whether a comment continues.
    in_comment: bool,
}

/// The octets that a text captures: two hexadecimal digits of either case for each. Blanks, tabs and line ends are
/// skipped, also between the two digits of an octet, and so are comments from `#` to the end of the line.
#[tactic(auto, using(crate::proofs::digits_give_octets::captures_at_end, crate::proofs::digits_give_octets::no_capture_at_end, crate::proofs::digits_give_octets::no_capture_here, crate::proofs::digits_give_octets::after_none))]
pub fn octets_of(alloc: Global, text: &[u8]) -> Result<Vec<u8>, CaptureFault>
    ensures ok { IfOk result (λ octets. Captures text.now octets.items) }
    ensures bad_hex { result ≡ Err CaptureFault.BadHex → IsNoCapture text.now }
{
    let Ok(mut octets) = Vec::with_capacity(alloc, text.len() / 2) else {
        return Err(CaptureFault::OutOfMemory);
    };
    let mut place = Place {
        high: None,
        in_comment: false,
    };
    let mut rest = text;
    'text: while let Some((character, behind)) = rest.split_first() {
        place = read_character(&mut octets, place, *character)?;
        rest = read_whole(&mut octets, place, behind)?;
    }
    match place.high {
        None => Ok(octets),
        Some(_) => Err(CaptureFault::BadHex),
    }
}

/// Reads octets, unless the place is within one or in a comment, and returns the rest of the text.
#[tactic(auto, using(crate::proofs::digits_give_octets::run_read, crate::proofs::digits_give_octets::run_shorter))]
fn read_whole<'t>(
    octets: &mut Vec<u8>,
    place: Place,
    text: &'t [u8],
) -> Result<&'t [u8], CaptureFault>
    ensures ok { IfOk result (λ rest.
        after_octets octets.new.items (octets_from (digits_left place.in_comment rest.now) place.high)
        ≡ after_octets octets.old.items (octets_from (digits_left place.in_comment text.now) place.high)) }
    ensures shorter { IfOk result (λ rest. length rest.now ≤ length text.now) }
    ensures memory { IfErr result (λ fault. fault ≡ CaptureFault.OutOfMemory) }
{
    if place.in_comment || place.high.is_some() {
        return Ok(text);
    }
    let Ok(rest) = read_run(octets, text) else {
        return Err(CaptureFault::OutOfMemory);
    };
    Ok(rest)
}

/// Reads a character of a text, and returns the place after it.
#[inline(always)]
#[tactic(auto, using(crate::proofs::digits_give_octets::digit_read, crate::proofs::digits_give_octets::digit_skipped))]
fn read_character(octets: &mut Vec<u8>, place: Place, character: u8) -> Result<Place, CaptureFault>
    requires { IfSome place.high (λ high. high < 16) }
    ensures small { IfOk result (λ after. IfSome after.high (λ high. high < 16)) }
    ensures ok { IfOk result (λ after. (rest : List ℕ) →
        after_octets octets.new.items (octets_from (digits_left after.in_comment rest) after.high)
        ≡ after_octets octets.old.items (octets_from (digits_left place.in_comment (character ∷ rest)) place.high)) }
    ensures bad_hex { result ≡ Err CaptureFault.BadHex → (rest : List ℕ) →
        octets_from (digits_left place.in_comment (character ∷ rest)) place.high ≡ None }
{
    let Some(digit) = digit_value(character) else {
        return read_other(place, character);
    };
    if place.in_comment {
        return Ok(place);
    }
    let high = take_digit(octets, place.high, digit)?;
    Ok(Place {
        high,
        in_comment: false,
    })
}

/// Reads a character that is no digit: the beginning or the end of a comment, a character within it, or a blank.
#[tactic(auto, using(crate::proofs::digits_from_octet_to_octet::left_blank_of, crate::proofs::digits_give_octets::no_digit))]
fn read_other(place: Place, character: u8) -> Result<Place, CaptureFault>
    requires { hex_digit_value character ≡ None }
    ensures high { IfOk result (λ after. after.high ≡ place.high) }
    ensures ok { IfOk result (λ after. (rest : List ℕ) →
        digits_left after.in_comment rest ≡ digits_left place.in_comment (character ∷ rest)) }
    ensures bad_hex { result ≡ Err CaptureFault.BadHex → (rest : List ℕ) →
        octets_from (digits_left place.in_comment (character ∷ rest)) place.high ≡ None }
{
    let high = place.high;
    if character == b'\n' {
        return Ok(Place {
            high,
            in_comment: false,
        });
    }
    if character == b'#' {
        return Ok(Place {
            high,
            in_comment: true,
        });
    }
    if place.in_comment || is_blank_octet(character) {
        return Ok(place);
    }
    Err(CaptureFault::BadHex)
}

/// Takes a digit: the first one of an octet is kept, and the second one completes the octet. Returns the digit that is
/// kept.
#[inline(always)]
fn take_digit(octets: &mut Vec<u8>, high: Option<u8>, digit: u8) -> Result<Option<u8>, CaptureFault>
    requires first { IfSome high (λ value. value < 16) }
    requires second { digit < 16 }
    ensures small { IfOk result (λ kept. IfSome kept (λ value. value < 16)) }
    ensures ok { IfOk result (λ kept. (digits : List ℕ) → after_octets octets.new.items (octets_from digits kept)
        ≡ after_octets octets.old.items (with_digit high digit (octets_from digits))) }
    ensures memory { IfErr result (λ fault. fault ≡ CaptureFault.OutOfMemory) }
{
    let Some(high) = high else {
        return Ok(Some(digit));
    };
    match octets.push(high * 16 + digit) {
        Ok(()) => Ok(None),
        Err(_) => Err(CaptureFault::OutOfMemory),
    }
}

/// The value of a digit of either case.
#[inline(always)]
fn digit_value(character: u8) -> Option<u8>
    ensures value { result ≡ hex_digit_value character }
    ensures small { IfSome result (λ value. value < 16) }
{
    // A decimal digit takes one comparison.
    let digit = character.wrapping_sub(b'0');
    if digit < 10 {
        return Some(digit);
    }
    match character {
        b'a'..=b'f' => Some(character - b'a' + 10),
        b'A'..=b'F' => Some(character - b'A' + 10),
        _ => None,
    }
}

/// Whether an octet may occur between digits and means nothing.
fn is_blank_octet(octet: u8) -> bool
    ensures { result ≡ is_blank octet }
{
    octet == b' ' || octet == b'\t' || octet == b'\r'
}
