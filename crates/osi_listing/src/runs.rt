//! Octets whose digits stand side by side: they are read in blocks of 32 characters, by fours, and one by one.

ghost use Rattle.std.specs.Prelude.{◌≡◌, ◌≤◌, ◌<◌, ◌+◌, ◌∷◌, [], max, length, take, IfNone, IfOk, IfSome, None, Some};
ghost use Rattle.hex.specs.Hex.{hex_digit_value};
ghost use Rattle.osi_listing.specs.Capture.{octets_from};
ghost use Rattle.osi_listing.specs.Runs.{BeginsNoOctet, BeginsWith, ReadsRun, greatest, pairs_joined, value_or_255, values_of};

use crate::digits::{octet_of, octets_of_eight};
use std::alloc::AllocError;

/// How many characters a block has.
const BLOCK: usize = 32;

/// How many characters four octets have.
const FOUR: usize = 8;

/// How many times four octets are read before blocks are tried, which a short line doesn't have.
const FOURS: usize = 4;

/// The values of the characters of a block as digits: 255 for a character that is none.
#[derive(Clone, Copy)]
struct Values {
    each: [u8; BLOCK],
    greatest: u8,
}

/// Adds the octets that a text begins with, up to the first place where two digits don't stand side by side. Returns the text from
/// there on.
///
/// # Errors
/// An allocation failed. Then some of these octets may have been added.
pub fn read_run<'t>(octets: &mut Vec<u8>, text: &'t [u8]) -> Result<&'t [u8], AllocError>
    ensures reads { IfOk result (λ rest. ReadsRun text.now octets.old.items octets.new.items rest.now) }
    ensures whole { IfOk result (λ rest. BeginsNoOctet rest.now) }
{
    let rest = read_by_fours(octets, text)?;
    if text.len() - rest.len() < BLOCK {
        return read_by_ones(octets, rest);
    }
    let rest = read_by_blocks(octets, rest)?;
    let rest = read_by_fours(octets, rest)?;
    read_by_ones(octets, rest)
}

/// Reads octets in blocks, and returns the rest of the text.
#[tactic(auto, using(crate::proofs::octets_side_by_side::run_none, crate::proofs::octets_side_by_side::run_split))]
fn read_by_blocks<'t>(octets: &mut Vec<u8>, text: &'t [u8]) -> Result<&'t [u8], AllocError>
    ensures { IfOk result (λ rest. ReadsRun text.now octets.old.items octets.new.items rest.now) }
{
    let mut rest = text;
    'sixteens: while let Some(sixteen) = front_block(rest) {
        octets.extend_from_slice(&sixteen)?;
        let (_, behind) = rest.split_at(BLOCK);
        rest = behind;
    }
    Ok(rest)
}

/// Reads octets four at a time, at most 16, and returns the rest of the text.
#[inline(always)]
#[tactic(auto, using(crate::proofs::octets_side_by_side::run_none, crate::proofs::octets_side_by_side::run_split))]
fn read_by_fours<'t>(octets: &mut Vec<u8>, text: &'t [u8]) -> Result<&'t [u8], AllocError>
    ensures reads { IfOk result (λ rest. ReadsRun text.now octets.old.items octets.new.items rest.now) }
    ensures shorter { IfOk result (λ rest. length rest.now ≤ length text.now) }
{
    let mut rest = text;
    let mut turns = 0;
    'fours: while turns < FOURS {
        let Some(four) = front_four(rest) else {
            return Ok(rest);
        };
        octets.extend_from_slice(&four)?;
        let (_, behind) = rest.split_at(FOUR);
        rest = behind;
        turns += 1;
    }
    Ok(rest)
}

/// Reads octets one at a time, and returns the rest of the text.
#[inline(always)]
#[tactic(auto, using(crate::proofs::octets_side_by_side::run_none, crate::proofs::octets_side_by_side::run_more))]
fn read_by_ones<'t>(octets: &mut Vec<u8>, text: &'t [u8]) -> Result<&'t [u8], AllocError>
    ensures reads { IfOk result (λ rest. ReadsRun text.now octets.old.items octets.new.items rest.now) }
    ensures whole { IfOk result (λ rest. BeginsNoOctet rest.now) }
{
    let mut rest = text;
    'octets: while let Some((octet, behind)) = front_octet(rest) {
        octets.push(octet)?;
        rest = behind;
    }
    Ok(rest)
}

/// The octet whose two digits a text begins with, and the text after them.
#[inline(always)]
#[tactic(auto, using(crate::proofs::octets_side_by_side::octet_begins, crate::proofs::octets_side_by_side::begins_short, crate::proofs::octets_side_by_side::begins_other))]
fn front_octet(text: &[u8]) -> Option<(u8, &[u8])>
    ensures some { IfSome result (λ front. BeginsWith text.now (front.0 ∷ []) front.1.now) }
    ensures none { IfNone result (BeginsNoOctet text.now) }
    ensures shorter { IfSome result (λ front. length front.1.now + 2 ≡ length text.now) }
{
    let [high, low, rest @ ..] = text else {
        return None;
    };
    let octet = octet_of(*high, *low)?;
    Some((octet, rest))
}

/// The four octets whose digits are the first eight characters of a text.
#[inline(always)]
fn front_four(text: &[u8]) -> Option<[u8; 4]>
    ensures octets { IfSome result (λ octets. octets_from (take 8 text.now) None ≡ Some octets) }
    ensures long { IfSome result (λ octets. 8 ≤ length text.now) }
{
    if text.len() < FOUR {
        return None;
    }
    let (characters, _) = text.split_at(FOUR);
    octets_of_eight(characters)
}

/// The 16 octets whose digits are the first 32 characters of a text.
#[inline(always)]
fn front_block(text: &[u8]) -> Option<[u8; 16]>
    ensures octets { IfSome result (λ octets. octets_from (take 32 text.now) None ≡ Some octets) }
    ensures long { IfSome result (λ octets. 32 ≤ length text.now) }
{
    if text.len() < BLOCK {
        return None;
    }
    let (characters, _) = text.split_at(BLOCK);
    block_octets(characters)
}

/// The octets of a block, if all its characters are digits.
// The values are kept before they are joined, so that the compiler compares 16 characters at a time.
#[inline(always)]
#[tactic(auto, using(crate::proofs::a_block_is_read_as_its_digits::block_read))]
fn block_octets(characters: &[u8]) -> Option<[u8; 16]>
    requires { length characters.now ≡ 32 }
    ensures { IfSome result (λ octets. octets_from characters.now None ≡ Some octets) }
{
    let values = values_of(characters);
    if values.greatest > 15 {
        return None;
    }
    Some(pairs_joined(&values.each))
}

/// The values of the characters of a block.
#[inline(always)]
fn values_of(characters: &[u8]) -> Values
    requires { length characters.now ≡ 32 }
    ensures each { result.each ≡ values_of characters.now }
    ensures greatest { result.greatest ≡ greatest (values_of characters.now) }
{
    let mut each = [0; BLOCK];
    let mut greatest = 0;
    let mut at = 0;
    'characters: while at < BLOCK {
        let value = value_of(characters[at]);
        each[at] = value;
        greatest = larger(greatest, value);
        at += 1;
    }
    Values { each, greatest }
}

#[inline(always)]
fn larger(a: u8, b: u8) -> u8
    ensures { result ≡ max a b }
{
    if a < b { b } else { a }
}

/// The octets of these values, two for each.
#[inline(always)]
#[tactic(auto, using(crate::proofs::a_block_is_read_as_its_digits::pairs_go_on, crate::proofs::a_block_is_read_as_its_digits::pairs_end, crate::proofs::a_block_is_read_as_its_digits::at_most))]
fn pairs_joined(values: &[u8; BLOCK]) -> [u8; 16]
    requires { greatest values.now < 16 }
    ensures { result ≡ pairs_joined values.now }
{
    let mut octets = [0; 16];
    let mut at = 0;
    'pairs: while at < 16 {
        octets[at] = values[2 * at] * 16 + values[2 * at + 1];
        at += 1;
    }
    octets
}

/// The value of a character as a digit of either case, or 255 if it is none.
#[inline(always)]
fn value_of(character: u8) -> u8
    ensures { result ≡ value_or_255 (hex_digit_value character) }
{
    let digit = character.wrapping_sub(b'0');
    if digit < 10 {
        return digit;
    }
    // A capital letter becomes a small one.
    let letter = (character | 32).wrapping_sub(b'a');
    if letter < 6 { letter + 10 } else { 255 }
}
