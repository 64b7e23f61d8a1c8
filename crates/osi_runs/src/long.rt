//! Scripts and transcripts with abbreviations.
//!
//! The word `41*10240` means the two digits this many times, and `0100+41*10240` means the same after others. A line `3
//! times A | B` means the lines `A` and `B`, three times; a word `@` in them is the number of the turn, from 1. Comments
//! are not expanded. So a small file can ask for the greatest lengths, and for many connections.

use crate::output::Output;
use std::alloc::Global;

/// No word or line may be repeated more often than this.
const MOST: u32 = 2_000_000;

/// A text with its repetitions expanded.
pub(crate) fn written_out(alloc: Global, text: &str) -> Output {
    let mut out = Output::new(alloc);
    push_all(&mut out, text);
    out
}

fn push_all(out: &mut Output, text: &str) {
    for line in text.lines() {
        push_line(out, line);
    }
}

fn push_line(out: &mut Output, line: &str) {
    if line.starts_with('#') {
        out.push(line);
    } else {
        push_times(out, line);
    }
}

/// Adds a line that is no comment, or the lines that it means.
fn push_times(out: &mut Output, line: &str) {
    match line.split_once(" times ") {
        Some((count, lines)) => push_repeated(out, lines, number(count)),
        None => push_words(out, line, 1),
    }
}

fn push_repeated(out: &mut Output, lines: &str, times: u32) {
    for turn in 0..times {
        push_lines(out, lines, turn + 1);
    }
}

fn push_lines(out: &mut Output, lines: &str, turn: u32) {
    for line in lines.split(" | ") {
        push_words(out, line, turn);
    }
}

/// Adds the words of a line, and the line's end.
fn push_words(out: &mut Output, line: &str, turn: u32) {
    for (place, word) in line.split(' ').enumerate() {
        if place > 0 {
            out.say(" ");
        }
        push_word_of(out, word, turn);
    }
    out.say("\n");
}

/// Adds a word, or the number of the turn.
fn push_word_of(out: &mut Output, word: &str, turn: u32) {
    if word == "@" {
        out.show(&turn);
    } else {
        push_word(out, word);
    }
}

fn push_word(out: &mut Output, word: &str) {
    for part in word.split('+') {
        push_part(out, part);
    }
}

fn push_part(out: &mut Output, part: &str) {
    match part.split_once('*') {
        Some((digits, count)) => push_digits(out, digits, number(count)),
        None => out.say(part),
    }
}

fn push_digits(out: &mut Output, digits: &str, times: u32) {
    for _ in 0..times {
        out.say(digits);
    }
}

/// How often a word or a line is repeated.
fn number(digits: &str) -> u32 {
    match digits.parse::<u32>() {
        Ok(number) => number.min(MOST),
        Err(_) => 0,
    }
}
