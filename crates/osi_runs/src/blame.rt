//! Captures in which an end of this product may not be blamed.

use crate::calls;
use crate::output::Output;
use osi_listing::CaptureFault;
use std::alloc::Global;
use std::io::ErrorKind;

/// How many captures were judged, and what was found of those in which an end is blamed.
#[derive(Drop)]
pub(crate) struct Blame {
    pub(crate) captures: u32,
    pub(crate) found: Output,
}

impl Blame {
    pub(crate) fn new(alloc: Global) -> Blame {
        Blame {
            captures: 0,
            found: Output::new(alloc),
        }
    }

    /// Keeps what was found of a capture, if it blames this side; an empty name means both sides.
    fn note(&mut self, lines: &[u8], side: &str) {
        self.captures = self.captures.wrapping_add(1);
        if blames(lines, side) {
            self.found.add(lines);
        }
    }
}

/// Judges a capture in which this side is an end of this product; an empty name means both sides.
pub(crate) fn judge(blame: &mut Blame, capture: &Output, side: &str) {
    blame.found.fail_as(capture);
    match calls::judge(capture.alloc(), capture.octets()) {
        Ok(judgement) => blame.note(judgement.lines.as_slice(), side),
        Err(fault) => blame.found.fail(kind_of(fault)),
    }
}

fn kind_of(fault: CaptureFault) -> ErrorKind {
    match fault {
        CaptureFault::BadHex => ErrorKind::InvalidData,
        CaptureFault::OutOfMemory => ErrorKind::OutOfMemory,
    }
}

/// Whether a line says that this side broke the protocol or left the profile.
fn blames(lines: &[u8], side: &str) -> bool {
    match str::from_utf8(lines) {
        Ok(lines) => lines.lines().any(|line| is_of(line, side)),
        Err(_) => true,
    }
}

fn is_of(line: &str, side: &str) -> bool {
    line.starts_with(side) && (line.contains(" broke ") || line.contains(" leaves "))
}

/// How the lines of a side begin in a capture.
pub(crate) fn mark(is_called: bool) -> &'static str {
    if is_called { "\t" } else { "" }
}
