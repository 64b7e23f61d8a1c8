//! Pieces of a line of the listing.

ghost use Rattle.std.specs.Prelude.{◌≡◌, ◌++◌, ◌<◌, ◌≤◌, ◌^◌, ◌+◌, ◌∷◌, [], length, codes, option_copied, OnOk};
ghost use Rattle.std.specs.Fmt.{decimal};
ghost use Rattle.hex.specs.Hex.{encode_lower};
ghost use Rattle.osi_listing.specs.Lines.{code_end, packet_line, fault_line, rest_line, unit_fault_line, tsdu_line, too_long_line};
ghost use Rattle.osi_listing.specs.Lines.{number_field, reference_field, octet_field, octets_field};

use osi_tpdu::TpduFault;
use osi_tpkt::TpktFault;
use std::alloc::AllocError;

/// The digits of octets in hexadecimal.
const DIGITS: &[u8; 16] = b"0123456789abcdef";

/// Adds words to a text.
#[inline(always)]
pub fn push_words(text: &mut Vec<u8>, words: &str) -> Result<(), AllocError>
    ensures { OnOk result (text.new.items ≡ text.old.items ++ words.now) }
{
    text.extend_from_slice(words.as_bytes())
}

/// Adds a number in decimal.
#[inline(always)]
pub fn push_decimal(text: &mut Vec<u8>, number: u64) -> Result<(), AllocError>
    ensures { OnOk result (text.new.items ≡ text.old.items ++ decimal number) }
{
    if number < 10 {
        return push_digit(text, number as u8);
    }
    if number < 100 {
        return push_two_digits(text, number as u8);
    }
    push_long_decimal(text, number)
}

/// Adds a number of one digit.
#[inline(always)]
#[tactic(auto, using(std::proofs::lemmas::Fmt::decimal_digit))]
fn push_digit(text: &mut Vec<u8>, number: u8) -> Result<(), AllocError>
    requires { number < 10 }
    ensures { OnOk result (text.new.items ≡ text.old.items ++ decimal number) }
{
    text.push(b'0' + number)?;
    Ok(())
}

/// Adds a number of two digits.
#[inline(always)]
#[tactic(auto, using(crate::proofs::fields_one_after_the_other::two_digits))]
fn push_two_digits(text: &mut Vec<u8>, number: u8) -> Result<(), AllocError>
    requires at_least { 10 ≤ number }
    requires at_most { number < 100 }
    ensures { OnOk result (text.new.items ≡ text.old.items ++ decimal number) }
{
    text.extend_from_slice(&[b'0' + number / 10, b'0' + number % 10])
}

/// Adds a number of any length.
fn push_long_decimal(text: &mut Vec<u8>, number: u64) -> Result<(), AllocError>
    ensures { OnOk result (text.new.items ≡ text.old.items ++ decimal number) }
{
    let mut buffer = itoa::Buffer::new();
    text.extend_from_slice(buffer.format(number).as_bytes())
}

/// Adds octets in hexadecimal. Most values have one octet or two.
#[inline(always)]
#[tactic(auto, unfolding(hex::specs::Hex::encode_with))]
pub(crate) fn push_hex(text: &mut Vec<u8>, octets: &[u8]) -> Result<(), AllocError>
    ensures { OnOk result (text.new.items ≡ text.old.items ++ encode_lower octets.now) }
{
    match octets {
        [] => Ok(()),
        [octet] => push_octet(text, *octet),
        [first, second] => push_two_octets(text, *first, *second),
        _ => push_long_hex(text, octets),
    }
}

/// Adds any number of octets in hexadecimal.
#[tactic(auto, using(crate::proofs::fields_one_after_the_other::encode_lower_cons))]
fn push_long_hex(text: &mut Vec<u8>, octets: &[u8]) -> Result<(), AllocError>
    ensures { OnOk result (text.new.items ≡ text.old.items ++ encode_lower octets.now) }
{
    'octets: for octet in octets {
        push_octet(text, *octet)?;
    }
    Ok(())
}

/// Adds two octets in hexadecimal.
#[inline(always)]
#[tactic(auto, unfolding(hex::specs::Hex::encode_with))]
fn push_two_octets(text: &mut Vec<u8>, first: u8, second: u8) -> Result<(), AllocError>
    ensures { OnOk result (text.new.items ≡ text.old.items ++ encode_lower (first ∷ second ∷ [])) }
{
    let digits = [
        DIGITS[usize::from(first / 16)],
        DIGITS[usize::from(first % 16)],
        DIGITS[usize::from(second / 16)],
        DIGITS[usize::from(second % 16)],
    ];
    text.extend_from_slice(&digits)
}

/// Adds an octet in hexadecimal.
#[inline(always)]
#[tactic(auto, unfolding(hex::specs::Hex::encode_with))]
pub fn push_octet(text: &mut Vec<u8>, octet: u8) -> Result<(), AllocError>
    ensures { OnOk result (text.new.items ≡ text.old.items ++ encode_lower (octet ∷ [])) }
{
    let digits = [
        DIGITS[usize::from(octet / 16)],
        DIGITS[usize::from(octet % 16)],
    ];
    text.extend_from_slice(&digits)
}

/// Adds a word and a number.
#[inline(always)]
pub fn push_number_field(text: &mut Vec<u8>, word: &str, number: u64) -> Result<(), AllocError>
    ensures { OnOk result (text.new.items ≡ text.old.items ++ number_field word.now number) }
{
    push_words(text, word)?;
    push_decimal(text, number)
}

/// Adds a word and a number that ends a line.
#[inline(always)]
pub(crate) fn push_last_field(text: &mut Vec<u8>, word: &str, count: u64) -> Result<(), AllocError>
    ensures { OnOk result (text.new.items
        ≡ text.old.items ++ (number_field word.now count ++ codes "\n")) }
{
    push_words(text, word)?;
    push_last_number(text, count)
}

/// Adds a word and a reference.
#[inline(always)]
pub(crate) fn push_reference_field(
    text: &mut Vec<u8>,
    word: &str,
    reference: u16,
) -> Result<(), AllocError>
    ensures { OnOk result (text.new.items ≡ text.old.items ++ reference_field word.now reference) }
{
    push_words(text, word)?;
    push_octet(text, (reference / 256) as u8)?;
    push_octet(text, (reference % 256) as u8)
}

/// Adds a word and an octet, if there is one.
pub(crate) fn push_octet_field(
    text: &mut Vec<u8>,
    word: &str,
    octet: Option<u8>,
) -> Result<(), AllocError>
    ensures { OnOk result (text.new.items ≡ text.old.items ++ octet_field word.now octet) }
{
    match octet {
        None => Ok(()),
        Some(octet) => {
            push_words(text, word)?;
            push_octet(text, octet)
        }
    }
}

/// Adds a word and octets, if there are any.
pub(crate) fn push_octets_field(
    text: &mut Vec<u8>,
    word: &str,
    octets: Option<&[u8]>,
) -> Result<(), AllocError>
    ensures { OnOk result (text.new.items
        ≡ text.old.items ++ octets_field word.now (option_copied octets.entry)) }
{
    match octets {
        None => Ok(()),
        Some(octets) => {
            push_words(text, word)?;
            push_hex(text, octets)
        }
    }
}

/// Adds the line of a packet, by its offset in the capture and its transport unit.
#[tactic(auto, unfolding(crate::specs::Lines::packet_line))]
pub(crate) fn push_packet(text: &mut Vec<u8>, offset: u64, unit: &[u8]) -> Result<(), AllocError>
    requires some { 1 < length unit.now }
    requires fits { length unit.now + 4 < 2 ^ 64 }
    ensures { OnOk result (text.new.items ≡ text.old.items ++ packet_line offset unit.now) }
{
    push_words(text, "packet ")?;
    push_decimal(text, offset)?;
    push_packet_end(text, unit.len() as u64 + 4, unit[1])
}

/// Ends the line of a packet with its length and the code of its first transport unit. A length of one or two digits
/// is added in one piece with what is around it.
#[inline(always)]
fn push_packet_end(text: &mut Vec<u8>, length: u64, code: u8) -> Result<(), AllocError>
    ensures { OnOk result (text.new.items
        ≡ text.old.items ++ (codes " length " ++ decimal length ++ code_end code)) }
{
    if length < 10 {
        return push_end_of_one_digit(text, length as u8, code);
    }
    if length < 100 {
        return push_end_of_two_digits(text, length as u8, code);
    }
    push_words(text, " length ")?;
    push_decimal(text, length)?;
    push_code(text, code)
}

#[inline(always)]
#[tactic(auto, using(std::proofs::lemmas::Fmt::decimal_digit), unfolding(hex::specs::Hex::encode_with))]
fn push_end_of_one_digit(text: &mut Vec<u8>, length: u8, code: u8) -> Result<(), AllocError>
    requires { length < 10 }
    ensures { OnOk result (text.new.items
        ≡ text.old.items ++ (codes " length " ++ decimal length ++ code_end code)) }
{
    let mut end = *b" length 0 code 00\n";
    end[8] = b'0' + length;
    end[15] = DIGITS[usize::from(code / 16)];
    end[16] = DIGITS[usize::from(code % 16)];
    text.extend_from_slice(&end)
}

#[inline(always)]
#[tactic(auto, using(crate::proofs::fields_one_after_the_other::two_digits), unfolding(hex::specs::Hex::encode_with))]
fn push_end_of_two_digits(text: &mut Vec<u8>, length: u8, code: u8) -> Result<(), AllocError>
    requires at_least { 10 ≤ length }
    requires at_most { length < 100 }
    ensures { OnOk result (text.new.items
        ≡ text.old.items ++ (codes " length " ++ decimal length ++ code_end code)) }
{
    let mut end = *b" length 00 code 00\n";
    end[8] = b'0' + length / 10;
    end[9] = b'0' + length % 10;
    end[16] = DIGITS[usize::from(code / 16)];
    end[17] = DIGITS[usize::from(code % 16)];
    text.extend_from_slice(&end)
}

/// Ends the line of a packet with the code of its first transport unit.
fn push_code(text: &mut Vec<u8>, code: u8) -> Result<(), AllocError>
    ensures { OnOk result (text.new.items ≡ text.old.items ++ code_end code) }
{
    push_words(text, " code ")?;
    push_octet(text, code)?;
    push_words(text, "\n")
}

/// Adds the line of a fault that ends a capture.
#[tactic(auto, unfolding(crate::specs::Lines::fault_line))]
pub(crate) fn push_fault(text: &mut Vec<u8>, fault: TpktFault) -> Result<(), AllocError>
    ensures { OnOk result (text.new.items ≡ text.old.items ++ fault_line fault) }
{
    let (offset, name) = match fault {
        TpktFault::BadVersion(offset) => (offset, "BadVersion"),
        TpktFault::BadLength(offset) => (offset, "BadLength"),
        TpktFault::OutOfMemory => (0, "OutOfMemory"),
    };
    push_words(text, "fault ")?;
    push_decimal(text, offset)?;
    push_words(text, " ")?;
    push_words(text, name)?;
    push_words(text, "\n")
}

/// Adds the line of the octets left over.
#[tactic(auto, unfolding(crate::specs::Lines::rest_line))]
pub(crate) fn push_rest(text: &mut Vec<u8>, octets: u64) -> Result<(), AllocError>
    ensures { OnOk result (text.new.items ≡ text.old.items ++ rest_line octets) }
{
    push_words(text, "rest ")?;
    push_decimal(text, octets)?;
    push_words(text, "\n")
}

/// Adds the line of the fault of a packet's units.
#[tactic(auto, unfolding(crate::specs::Lines::unit_fault_line))]
pub(crate) fn push_unit_fault(text: &mut Vec<u8>, fault: TpduFault) -> Result<(), AllocError>
    ensures { OnOk result (text.new.items ≡ text.old.items ++ unit_fault_line fault) }
{
    let (offset, name) = match fault {
        TpduFault::BadLi(offset) => (offset, "BadLi"),
        TpduFault::UnknownCode(offset) => (offset, "UnknownCode"),
        TpduFault::BadParameterLength(offset) => (offset, "BadParameterLength"),
        TpduFault::BadParameterValue(offset) => (offset, "BadParameterValue"),
        TpduFault::DuplicateParameter(offset) => (offset, "DuplicateParameter"),
    };
    push_words(text, "  fault ")?;
    push_decimal(text, offset as u64)?;
    push_words(text, " ")?;
    push_words(text, name)?;
    push_words(text, "\n")
}

/// Adds the line of a complete TSDU, by the number of its octets.
#[tactic(auto, unfolding(crate::specs::Lines::tsdu_line))]
pub(crate) fn push_tsdu(text: &mut Vec<u8>, octets: u64) -> Result<(), AllocError>
    ensures { OnOk result (text.new.items ≡ text.old.items ++ tsdu_line octets) }
{
    push_words(text, "    tsdu ")?;
    push_last_number(text, octets)
}

/// Adds a number that ends a line.
#[inline(always)]
pub(crate) fn push_last_number(text: &mut Vec<u8>, count: u64) -> Result<(), AllocError>
    ensures { OnOk result (text.new.items ≡ text.old.items ++ (decimal count ++ codes "\n")) }
{
    if count < 10 {
        return push_last_digit(text, count as u8);
    }
    push_decimal(text, count)?;
    push_words(text, "\n")
}

#[inline(always)]
#[tactic(auto, using(std::proofs::lemmas::Fmt::decimal_digit))]
fn push_last_digit(text: &mut Vec<u8>, digit: u8) -> Result<(), AllocError>
    requires { digit < 10 }
    ensures { OnOk result (text.new.items ≡ text.old.items ++ (decimal digit ++ codes "\n")) }
{
    text.extend_from_slice(&[b'0' + digit, b'\n'])
}

/// Adds the line of a TSDU that has passed its limit.
#[tactic(auto, unfolding(crate::specs::Lines::too_long_line))]
pub(crate) fn push_too_long(text: &mut Vec<u8>) -> Result<(), AllocError>
    ensures { OnOk result (text.new.items ≡ text.old.items ++ too_long_line) }
{
    push_words(text, "  fault 0 TsduTooLong\n")
}
