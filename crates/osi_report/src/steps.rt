//! Reads the text of a capture character by character, and run by run where the digits of octets stand side by side.

ghost use Rattle.std.specs.Prelude.{◌≡◌, ◌≤◌, ◌<◌, ◌++◌, true, ℕ, List, length, IfOk, IfSome};
ghost use Rattle.hex.specs.Hex.{hex_digit_value};
ghost use Rattle.osi_side.specs.Captures.{piece};
ghost use Rattle.osi_side.specs.declared.directions.Direction.{Direction};
ghost use Rattle.osi_listing.specs.Capture.{is_blank};
ghost use Rattle.osi_report.specs.Passing.{EndsWith, PassesTo, after_passed, digit_of, digit_read, on_line, passed_from, plain};
ghost use Rattle.osi_report.specs.Passing.{quiet, side_at, start, step_of};
ghost use Rattle.osi_report.specs.Rows.{side_of};

use crate::places::{Half, Passing, Place, Step};
use osi_listing::read_run;
use osi_side::Direction;
use std::alloc::AllocError;

/// The most characters that are read at once: the digits of 4,096 octets.
const MOST: usize = 8192;

/// Where a text begins.
pub(crate) fn start_of_text() -> Place
    ensures { result ≡ start }
{
    Place {
        direction: Direction::Left,
        begins: true,
        in_comment: false,
        half: None,
    }
}

/// The side of a line: it is of the called side if it begins with a tab.
fn direction_of(is_tabbed: bool) -> Direction
    ensures { result ≡ side_of is_tabbed }
{
    if is_tabbed {
        Direction::Right
    } else {
        Direction::Left
    }
}

/// The side of the line on which a character is.
fn side_at(place: Place, character: u8) -> Direction
    ensures { result ≡ side_at character place }
{
    if place.begins {
        return direction_of(character == b'\t');
    }
    place.direction
}

/// A character after which the next one is here, and with which no octet passes.
fn quiet(place: Place) -> Step
    ensures { result ≡ quiet place }
{
    Step {
        place,
        passing: None,
    }
}

/// What a character does; none if it can't be read.
pub(crate) fn step(place: Place, character: u8) -> Option<Step>
    requires { digit_of place.half < 16 }
    ensures value { result ≡ step_of place character }
    ensures small { IfSome result (λ s. digit_of s.place.half < 16) }
{
    if character == b'\n' {
        return Some(quiet(Place {
            direction: place.direction,
            begins: true,
            in_comment: false,
            half: place.half,
        }));
    }
    step_on_line(
        Place {
            direction: side_at(place, character),
            begins: false,
            in_comment: place.in_comment,
            half: place.half,
        },
        character,
    )
}

/// What a character of a line does.
fn step_on_line(place: Place, character: u8) -> Option<Step>
    requires { digit_of place.half < 16 }
    ensures value { result ≡ on_line character place }
    ensures small { IfSome result (λ s. digit_of s.place.half < 16) }
{
    if place.in_comment {
        return Some(quiet(place));
    }
    if character == b'#' {
        return Some(quiet(Place {
            direction: place.direction,
            begins: place.begins,
            in_comment: true,
            half: place.half,
        }));
    }
    if is_blank_octet(character) {
        return Some(quiet(place));
    }
    let digit = digit_value(character)?;
    Some(read_digit(place, digit))
}

/// A digit: the first one of an octet is kept for what follows, and the second one completes the octet.
fn read_digit(place: Place, digit: u8) -> Step
    requires first { digit_of place.half < 16 }
    requires second { digit < 16 }
    ensures value { result ≡ digit_read place.half digit place }
    ensures small { digit_of result.place.half < 16 }
{
    let Some(half) = place.half else {
        return quiet(with_half(
            place,
            Some(Half {
                direction: place.direction,
                digit,
            }),
        ));
    };
    Step {
        place: with_half(place, None),
        passing: Some(Passing {
            direction: half.direction,
            octet: half.digit * 16 + digit,
        }),
    }
}

/// The same place, with this first digit of an octet.
fn with_half(place: Place, half: Option<Half>) -> Place
    ensures { result ≡ record place { half = half } }
{
    Place {
        direction: place.direction,
        begins: place.begins,
        in_comment: place.in_comment,
        half,
    }
}

/// Whether the next characters are of a line whose side is known, outside comments and between two octets.
pub(crate) fn is_plain(place: Place) -> bool
    ensures { result ≡ true → place ≡ plain place.direction }
{
    !place.begins && !place.in_comment && place.half.is_none()
}

/// The place of the first character of a text, with the side of its line: the first character of a line tells it.
pub(crate) fn place_on_line(place: Place, text: &[u8]) -> Place
    ensures same { (more : List ℕ) → passed_from result (text.now ++ more) ≡ passed_from place (text.now ++ more) }
    ensures half { result.half ≡ place.half }
{
    let [first, ..] = text else {
        return place;
    };
    if *first == b'\n' {
        return place;
    }
    Place {
        direction: side_at(place, *first),
        begins: false,
        in_comment: place.in_comment,
        half: place.half,
    }
}

/// Reads octets of a line, at most 4,096, and returns the rest of the text. The two digits of an octet stand side by side, and
/// there may be blanks between two octets.
#[tactic(auto, using(crate::proofs::what_is_read_run_by_run::first_is_read))]
pub(crate) fn read_octets<'t>(octets: &mut Vec<u8>, text: &'t [u8]) -> Result<&'t [u8], AllocError>
    ensures ok { IfOk result (λ rest. (d : Direction) (more : List ℕ) → passed_from (plain d) (text.now ++ more)
        ≡ after_passed (piece d octets.new.items) (passed_from (plain d) (rest.now ++ more))) }
    ensures shorter { IfOk result (λ rest. length rest.now ≤ length text.now) }
{
    octets.clear();
    let (front, _) = text.split_at(text.len().min(MOST));
    let left = read_runs(octets, front)?;
    let (_, rest) = text.split_at(front.len() - left.len());
    Ok(rest)
}

/// Reads all octets up to the first character that is no blank and begins none, and returns the rest of the text.
#[tactic(auto, using(crate::proofs::what_is_read_run_by_run::run_passes, crate::proofs::what_is_read_run_by_run::run_ends, crate::proofs::what_is_read_run_by_run::ends_shorter))]
fn read_runs<'t>(octets: &mut Vec<u8>, text: &'t [u8]) -> Result<&'t [u8], AllocError>
    ensures passes { IfOk result (λ rest. PassesTo text.now octets.old.items octets.new.items rest.now) }
    ensures ends { IfOk result (λ rest. EndsWith text.now rest.now) }
    ensures shorter { IfOk result (λ rest. length rest.now ≤ length text.now) }
{
    let mut rest = read_run(octets, text)?;
    'blanks: while let Some(behind) = after_blank(rest) {
        rest = read_run(octets, behind)?;
    }
    Ok(rest)
}

/// The text after the blank that it begins with.
fn after_blank(text: &[u8]) -> Option<&[u8]>
    ensures same { IfSome result (λ behind. (d : Direction) (more : List ℕ) →
        passed_from (plain d) (behind.now ++ more) ≡ passed_from (plain d) (text.now ++ more)) }
    ensures ends { IfSome result (λ behind. EndsWith text.now behind.now) }
    ensures shorter { IfSome result (λ behind. length behind.now < length text.now) }
{
    let [first, rest @ ..] = text else {
        return None;
    };
    if is_blank_octet(*first) {
        return Some(rest);
    }
    None
}

/// The value of a digit of either case.
#[inline(always)]
fn digit_value(character: u8) -> Option<u8>
    ensures value { result ≡ hex_digit_value character }
    ensures small { IfSome result (λ value. value < 16) }
{
    // A decimal digit takes one comparison.
    let digit = character.wrapping_sub(b'0');
    if digit < 10 {
        return Some(digit);
    }
    match character {
        b'a'..=b'f' => Some(character - b'a' + 10),
        b'A'..=b'F' => Some(character - b'A' + 10),
        _ => None,
    }
}

/// Whether an octet may occur between digits and means nothing.
fn is_blank_octet(octet: u8) -> bool
    ensures { result ≡ is_blank octet }
{
    octet == b' ' || octet == b'\t' || octet == b'\r'
}
