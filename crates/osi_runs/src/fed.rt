//! Ends that are fed octets which the other end has not sent: what passes at each of them, judged.
//!
//! The lines of a file of octets with their results are a capture of each end: `> feed left HEX` and `left sends HEX` of
//! the left one. They are also judged as a tap far from the end may see them: from some line on, all that the end is fed
//! passes before what it sends.

use crate::blame::{Blame, judge, mark};
use crate::output::Output;
use std::alloc::Global;

/// How the lines of an end begin.
#[derive(Clone, Copy)]
struct End {
    /// What it is fed.
    feed: &'static str,
    /// What it sends.
    sends: &'static str,
    /// Its name in a judgement.
    name: &'static str,
    is_called: bool,
}

const ENDS: [End; 2] = [
    End {
        feed: "> feed left ",
        sends: "left sends ",
        name: "left ",
        is_called: false,
    },
    End {
        feed: "> feed right ",
        sends: "right sends ",
        name: "right ",
        is_called: true,
    },
];

/// Octets that an end is fed, or that it sends.
#[derive(Clone, Copy)]
struct Piece<'a> {
    is_fed: bool,
    digits: &'a str,
}

/// Judges what passed at the ends of a file of octets, whose lines have their results.
pub(crate) fn judge_ends(alloc: Global, blame: &mut Blame, text: &str) {
    for end in ENDS {
        judge_end(alloc, blame, end, text);
    }
}

fn judge_end(alloc: Global, blame: &mut Blame, end: End, text: &str) {
    let mut pieces = Vec::new(alloc);
    for line in text.lines() {
        take_line(blame, end, &mut pieces, line);
    }
    judge_pieces(blame, end, pieces.as_slice());
}

/// Keeps the octets of a line; a line that asks for two ends ends the capture of those before.
fn take_line<'a>(blame: &mut Blame, end: End, pieces: &mut Vec<Piece<'a>>, line: &'a str) {
    if line.starts_with("> ends ") {
        judge_pieces(blame, end, pieces.as_slice());
        pieces.clear();
    }
    if let Some(piece) = piece_in(end, line) {
        blame.found.note(pieces.push(piece).is_ok());
    }
}

fn piece_in<'a>(end: End, line: &'a str) -> Option<Piece<'a>> {
    match line.strip_prefix(end.feed) {
        Some(digits) => Some(Piece {
            is_fed: true,
            digits,
        }),
        None => Some(Piece {
            is_fed: false,
            digits: line.strip_prefix(end.sends)?,
        }),
    }
}

/// Judges what passed between two ends, if it begins with octets of the calling side.
fn judge_pieces(blame: &mut Blame, end: End, pieces: &[Piece<'_>]) {
    if begins_with_caller(end, pieces) {
        judge_each_late(blame, end, pieces);
    }
}

fn begins_with_caller(end: End, pieces: &[Piece<'_>]) -> bool {
    match pieces.first() {
        Some(piece) => piece.is_fed == end.is_called,
        None => false,
    }
}

fn judge_each_late(blame: &mut Blame, end: End, pieces: &[Piece<'_>]) {
    for first in 0..pieces.len() {
        judge_late(blame, end, pieces, first.saturating_add(1));
    }
}

/// Judges it where all that the end is fed after the first pieces passes before what it sends after them.
fn judge_late(blame: &mut Blame, end: End, pieces: &[Piece<'_>], first: usize) {
    let mut capture = Output::new(blame.found.alloc());
    push_first(&mut capture, end, pieces, first);
    push_since(&mut capture, end, pieces, first, true);
    push_since(&mut capture, end, pieces, first, false);
    judge(blame, &capture, end.name);
}

fn push_first(out: &mut Output, end: End, pieces: &[Piece<'_>], first: usize) {
    for piece in pieces.iter().take(first) {
        push_piece(out, end, *piece);
    }
}

/// Adds the later pieces that the end is fed, or those that it sends.
fn push_since(out: &mut Output, end: End, pieces: &[Piece<'_>], first: usize, is_fed: bool) {
    for piece in pieces.iter().skip(first) {
        if piece.is_fed == is_fed {
            push_piece(out, end, *piece);
        }
    }
}

fn push_piece(out: &mut Output, end: End, piece: Piece<'_>) {
    out.push_behind(mark(piece.is_fed != end.is_called), piece.digits);
}
