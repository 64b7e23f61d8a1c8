//! Pieces of a line of a transcript.

ghost use Rattle.std.specs.Prelude.{◌≡◌, ◌++◌, ◌∷◌, [], ◌+◌, ◌*◌, ◌<◌, ◌≤◌, length, codes, vec_len, vec_capacity};
ghost use Rattle.std.specs.Fmt.{decimal};
ghost use Rattle.hex.specs.Hex.{encode_lower};
ghost use Rattle.osi_tpdu.specs.Spelling.{two};
ghost use Rattle.osi_script.specs.Names.{side_name};
ghost use Rattle.osi_script.specs.Texts.{wish_letter, side_letter, wishes_text, sides_text};

use crate::sides::Side as End;
use osi_session::Sides;
use osi_spdu::{Side, TokenSetting, Wish};

/// An upper bound on the octets of a line without its user data.
pub(crate) const LINE: usize = 192;

/// Adds octets one by one, for which there is room. If their number is known when the code is compiled, as for a
/// literal, this becomes one or two stores.
#[inline(always)]
fn put_octets(text: Vec<u8>, octets: &[u8]) -> Vec<u8>
    requires { vec_len text + length octets.now ≤ vec_capacity text }
    ensures items { result.items ≡ text.items ++ octets.now }
    ensures len { vec_len result ≡ vec_len text + length octets.now }
    ensures capacity { vec_capacity text ≤ vec_capacity result }
{
    let mut text = text;
    'octets: for octet in octets {
        text.push_reserved(*octet);
    }
    text
}

/// Adds one of several words, for which there is room.
#[inline(always)]
pub(crate) fn put_word(text: Vec<u8>, word: &str) -> Vec<u8>
    requires { vec_len text + length word.now ≤ vec_capacity text }
    ensures items { result.items ≡ text.items ++ word.now }
    ensures len { vec_len result ≡ vec_len text + length word.now }
    ensures capacity { vec_capacity text ≤ vec_capacity result }
{
    let mut text = text;
    match text.extend_from_slice(word.as_bytes()) {
        Ok(()) => text,
        Err(_) => unreachable!(),
    }
}

/// Adds a piece of text, for which there is room.
#[inline(always)]
pub(crate) fn put(text: Vec<u8>, piece: &str) -> Vec<u8>
    requires { vec_len text + length piece.now ≤ vec_capacity text }
    ensures items { result.items ≡ text.items ++ piece.now }
    ensures len { vec_len result ≡ vec_len text + length piece.now }
    ensures capacity { vec_capacity text ≤ vec_capacity result }
{
    put_octets(text, piece.as_bytes())
}

/// Adds the word for a side and a blank, for which there is room.
#[inline(always)]
pub(crate) fn put_side(text: Vec<u8>, side: End) -> Vec<u8>
    requires { vec_len text + 6 ≤ vec_capacity text }
    ensures items { result.items ≡ text.items ++ (side_name side ++ codes " ") }
    ensures len { vec_len result ≤ vec_len text + 6 }
    ensures capacity { vec_capacity text ≤ vec_capacity result }
{
    match side {
        End::Left => put(text, "left "),
        End::Right => put(text, "right "),
    }
}

/// Adds a digit, for which there is room.
#[inline(always)]
#[tactic(auto, using(std::proofs::lemmas::Fmt::decimal_digit))]
fn put_digit(text: Vec<u8>, digit: u8) -> Vec<u8>
    requires digit { digit < 10 }
    requires room { vec_len text < vec_capacity text }
    ensures items { result.items ≡ text.items ++ decimal digit }
    ensures len { vec_len result ≡ vec_len text + 1 }
    ensures capacity { vec_capacity text ≤ vec_capacity result }
{
    let mut text = text;
    text.push_reserved(b'0' + digit);
    text
}

/// Adds a number with many digits in decimal, for which there is room.
#[inline(always)]
fn put_digits(text: Vec<u8>, number: u64) -> Vec<u8>
    requires { vec_len text + 20 ≤ vec_capacity text }
    ensures items { result.items ≡ text.items ++ decimal number }
    ensures len { vec_len result ≤ vec_len text + 20 }
    ensures capacity { vec_capacity text ≤ vec_capacity result }
{
    let mut digits = itoa::Buffer::new();
    put_word(text, digits.format(number))
}

/// Adds a number with one or two digits in decimal, for which there is room.
#[inline(always)]
#[tactic(auto, using(crate::proofs::a_number_is_written_digit_by_digit::digits_joined))]
fn put_tens(text: Vec<u8>, number: u64) -> Vec<u8>
    requires number { number < 100 }
    requires room { vec_len text + 2 ≤ vec_capacity text }
    ensures items { result.items ≡ text.items ++ decimal number }
    ensures len { vec_len result ≤ vec_len text + 2 }
    ensures capacity { vec_capacity text ≤ vec_capacity result }
{
    if number < 10 {
        return put_digit(text, number as u8);
    }
    let text = put_digit(text, (number / 10) as u8);
    put_digit(text, (number % 10) as u8)
}

/// Adds a number in decimal, for which there is room. Most numbers of a transcript have few digits.
#[inline(always)]
#[tactic(auto, using(crate::proofs::a_number_is_written_digit_by_digit::hundreds_joined))]
pub(crate) fn put_decimal(text: Vec<u8>, number: u64) -> Vec<u8>
    requires { vec_len text + 20 ≤ vec_capacity text }
    ensures items { result.items ≡ text.items ++ decimal number }
    ensures len { vec_len result ≤ vec_len text + 20 }
    ensures capacity { vec_capacity text ≤ vec_capacity result }
{
    if number < 100 {
        put_tens(text, number)
    } else if number < 10_000 {
        let text = put_tens(text, number / 100);
        let text = put_digit(text, (number / 10 % 10) as u8);
        put_digit(text, (number % 10) as u8)
    } else {
        put_digits(text, number)
    }
}

/// Adds octets in hexadecimal, for which there is room.
#[inline(always)]
pub(crate) fn put_hex(text: Vec<u8>, octets: &[u8]) -> Vec<u8>
    requires { vec_len text + 2 * length octets.now ≤ vec_capacity text }
    ensures items { result.items ≡ text.items ++ encode_lower octets.now }
    ensures len { vec_len result ≡ vec_len text + 2 * length octets.now }
    ensures capacity { vec_capacity text ≤ vec_capacity result }
{
    let mut text = text;
    let before = text.len();
    match text.resize(before + octets.len() * 2, 0) {
        Ok(()) => (),
        Err(_) => unreachable!(),
    }
    let _ = hex::encode_to_slice(octets, &mut text[before..]);
    text
}

/// Adds an octet in hexadecimal, for which there is room.
pub(crate) fn put_octet(text: Vec<u8>, octet: u8) -> Vec<u8>
    requires { vec_len text + 2 ≤ vec_capacity text }
    ensures items { result.items ≡ text.items ++ encode_lower (octet ∷ []) }
    ensures len { vec_len result ≡ vec_len text + 2 }
    ensures capacity { vec_capacity text ≤ vec_capacity result }
{
    let mut digits = [0; 2];
    let _ = hex::encode_to_slice([octet].as_slice(), &mut digits);
    put_octets(text, &digits)
}

/// Adds 16 bits in hexadecimal, for which there is room.
pub(crate) fn put_short(text: Vec<u8>, bits: u16) -> Vec<u8>
    requires { vec_len text + 4 ≤ vec_capacity text }
    ensures items { result.items ≡ text.items ++ encode_lower (two bits) }
    ensures len { vec_len result ≡ vec_len text + 4 }
    ensures capacity { vec_capacity text ≤ vec_capacity result }
{
    let mut digits = [0; 4];
    let octets = [(bits / 256) as u8, (bits % 256) as u8];
    let _ = hex::encode_to_slice(octets.as_slice(), &mut digits);
    put_octets(text, &digits)
}

/// Adds the letters of four tokens, for which there is room.
pub(crate) fn put_letters(text: Vec<u8>, letters: [u8; 4]) -> Vec<u8>
    requires { vec_len text + 4 ≤ vec_capacity text }
    ensures items { result.items ≡ text.items ++ letters }
    ensures len { vec_len result ≡ vec_len text + 4 }
    ensures capacity { vec_capacity text ≤ vec_capacity result }
{
    put_octets(text, &letters)
}

fn letter_of_wish(wish: Wish) -> u8
    ensures { result ≡ wish_letter wish }
{
    match wish {
        Wish::Asker => b'a',
        Wish::Answerer => b'r',
        Wish::Choice => b'c',
    }
}

fn letter_of_side(side: Side) -> u8
    ensures { result ≡ side_letter side }
{
    match side {
        Side::Asker => b'a',
        Side::Answerer => b'r',
    }
}

/// The letters of the sides wished for as the holder of each token.
pub(crate) fn letters_of_wishes(wishes: TokenSetting) -> [u8; 4]
    ensures { result ≡ wishes_text wishes }
{
    [
        letter_of_wish(wishes.data_token),
        letter_of_wish(wishes.minor),
        letter_of_wish(wishes.major),
        letter_of_wish(wishes.release),
    ]
}

/// The letters of the sides that hold each token.
pub(crate) fn letters_of_sides(sides: Sides) -> [u8; 4]
    ensures { result ≡ sides_text sides }
{
    [
        letter_of_side(sides.data_token),
        letter_of_side(sides.minor),
        letter_of_side(sides.major),
        letter_of_side(sides.release),
    ]
}
