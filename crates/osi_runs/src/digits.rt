//! Octets in hexadecimal digits.

use crate::output::Output;
use hex::FromHexError;
use std::alloc::Global;
use std::io::ErrorKind;

/// The octets of a capture: blanks and line ends are skipped, and so are lines that begin with `#`. Without them, what is
/// written fails.
pub(crate) fn octets_in(out: &mut Output, text: &str) -> Vec<u8> {
    let digits = digits_in(out.alloc(), text);
    out.fail_as(&digits);
    decoded(out, digits.octets())
}

fn decoded(out: &mut Output, digits: &[u8]) -> Vec<u8> {
    match hex::decode(out.alloc(), digits) {
        Ok(octets) => octets,
        Err(error) => none(out, error),
    }
}

/// No octets, because of this error.
fn none(out: &mut Output, error: FromHexError) -> Vec<u8> {
    out.fail(kind_of(error));
    Vec::new(out.alloc())
}

fn kind_of(error: FromHexError) -> ErrorKind {
    match error {
        FromHexError::OutOfMemory => ErrorKind::OutOfMemory,
        _ => ErrorKind::InvalidData,
    }
}

fn digits_in(alloc: Global, text: &str) -> Output {
    let mut out = Output::new(alloc);
    push_all_digits(&mut out, text);
    out
}

fn push_all_digits(out: &mut Output, text: &str) {
    for line in text.lines() {
        if !line.starts_with('#') {
            push_digits(out, line);
        }
    }
}

/// Adds all digits of a line, without blanks.
fn push_digits(out: &mut Output, line: &str) {
    for digits in line.split_ascii_whitespace() {
        out.say(digits);
    }
}
