//! Scripts of two ends, whose octets are seen at taps: what passes at each tap, judged.
//!
//! A line `ends` begins two fresh ends, so a file can have many scripts.

use crate::asked::{asks, ends_read, event_in};
use crate::blame::{Blame, judge, mark};
use crate::calls;
use crate::output::{Output, lines_of};
use crate::ways::{WAYS, Way, script_in};
use osi_class::Local;
use osi_pair::{Event, Pair, Side};
use osi_script::Line;
use std::alloc::Global;
use std::io::ErrorKind;

/// When a tap sees octets: as they are sent, or as they arrive.
#[derive(Clone, Copy)]
enum Sight {
    Sent,
    Carried,
}

/// When it sees those of each side.
#[derive(Clone, Copy)]
struct Tap {
    left: Sight,
    right: Sight,
}

/// At the left end, at the right end, and between them, early and late.
const TAPS: [Tap; 4] = [
    Tap {
        left: Sight::Sent,
        right: Sight::Carried,
    },
    Tap {
        left: Sight::Carried,
        right: Sight::Sent,
    },
    Tap {
        left: Sight::Sent,
        right: Sight::Sent,
    },
    Tap {
        left: Sight::Carried,
        right: Sight::Carried,
    },
];

/// Two ends, and what has passed at a tap.
#[derive(Drop)]
struct Run {
    pair: Pair,
    tap: Tap,
    capture: Output,
    /// The octets of each side that had not arrived before the current event.
    left: Output,
    right: Output,
    /// A line does not fit: the script ends before it.
    is_over: bool,
}

/// Judges what passes at each tap, as the scripts are written and in each other way to run them.
pub(crate) fn judge_each_way(blame: &mut Blame, text: &str) {
    judge_runs(blame, text);
    for way in WAYS {
        judge_in(blame, text, way);
    }
}

fn judge_in(blame: &mut Blame, text: &str, way: Way) {
    let script = script_in(blame.found.alloc(), text, way);
    blame.found.fail_as(&script);
    judge_runs(blame, script.text());
}

/// Judges what passes at each tap.
pub(crate) fn judge_runs(blame: &mut Blame, text: &str) {
    let lines = lines_of(&mut blame.found, text);
    judge_at_taps(blame, lines.as_slice());
}

fn judge_at_taps(blame: &mut Blame, lines: &[&str]) {
    for tap in TAPS {
        judge_lines(blame, tap, lines);
    }
}

/// Judges what passes between the two ends of each script.
fn judge_lines(blame: &mut Blame, tap: Tap, lines: &[&str]) {
    for (at, line) in lines.iter().enumerate() {
        if begins(*line) {
            let behind = lines.get(at.saturating_add(1)..).unwrap_or_default();
            judge_script(blame, tap, *line, behind);
        }
    }
}

/// Whether a line begins two fresh ends.
fn begins(line: &str) -> bool {
    line.starts_with("ends ")
}

fn judge_script(blame: &mut Blame, tap: Tap, ends: &str, lines: &[&str]) {
    if let Some((left, right)) = ends_read(&mut blame.found, ends) {
        let alloc = blame.found.alloc();
        judge_run(blame, &mut run_between(alloc, tap, left, right), lines);
    }
}

fn run_between(alloc: Global, tap: Tap, left: Local, right: Local) -> Run {
    Run {
        pair: calls::two_ends(alloc, left, right),
        tap,
        capture: Output::new(alloc),
        left: Output::new(alloc),
        right: Output::new(alloc),
        is_over: false,
    }
}

fn judge_run(blame: &mut Blame, run: &mut Run, lines: &[&str]) {
    play_all(run, lines);
    finish_run(blame, run);
}

/// Plays the lines of a script, up to the next two ends.
fn play_all(run: &mut Run, lines: &[&str]) {
    for line in lines {
        if begins(*line) {
            break;
        }
        play_line(run, *line);
    }
}

/// Judges what passed between two ends.
fn finish_run(blame: &mut Blame, run: &Run) {
    blame.found.fail_as(&run.left);
    blame.found.fail_as(&run.right);
    blame.found.fail_as(&run.capture);
    if !run.capture.is_empty() {
        judge(blame, &run.capture, "");
    }
}

fn play_line(run: &mut Run, asked: &str) {
    if !run.is_over && asks(asked) {
        ask(run, asked);
    }
}

fn ask(run: &mut Run, asked: &str) {
    match Line::read(run.capture.alloc(), asked.as_bytes()) {
        Ok(line) => play_event(run, event_in(&line)),
        Err(_) => run.capture.fail(ErrorKind::OutOfMemory),
    }
}

fn play_event(run: &mut Run, event: Option<Event>) {
    match event {
        Some(event) => happen(run, &event),
        None => run.is_over = true,
    }
}

/// An event happens, and the octets pass that it sends or carries: first those that it carries.
fn happen(run: &mut Run, event: &Event) {
    keep(&mut run.left, &run.pair, Side::Left);
    keep(&mut run.right, &run.pair, Side::Right);
    match calls::apply(&mut run.pair, event) {
        Ok(_) => pass_both(run, first_side(event)),
        Err(_) => run.is_over = true,
    }
}

/// The side whose octets an event carries; left if it carries none.
fn first_side(event: &Event) -> Side {
    match *event {
        Event::Carry(side, _) => side,
        _ => Side::Left,
    }
}

/// Keeps the octets of a side that have not arrived.
fn keep(out: &mut Output, pair: &Pair, side: Side) {
    out.clear();
    out.add(calls::stack_of(pair, side).outgoing());
}

fn pass_both(run: &mut Run, first: Side) {
    pass(run, first);
    pass(run, first.other());
}

/// Adds the octets of a side that the tap sees.
fn pass(run: &mut Run, side: Side) {
    let now = calls::stack_of(&run.pair, side).outgoing();
    match side {
        Side::Left => push_seen(&mut run.capture, run.tap.left, &run.left, now, false),
        Side::Right => push_seen(&mut run.capture, run.tap.right, &run.right, now, true),
    }
}

fn push_seen(out: &mut Output, sight: Sight, before: &Output, now: &[u8], is_called: bool) {
    let octets = seen(sight, before.octets(), now);
    if !octets.is_empty() {
        out.push_digits(mark(is_called), octets);
    }
}

/// The octets that were sent since, or those that have arrived.
fn seen<'a>(sight: Sight, before: &'a [u8], now: &'a [u8]) -> &'a [u8] {
    match sight {
        Sight::Sent => now.get(before.len()..).unwrap_or_default(),
        Sight::Carried => {
            let gone = before.len().saturating_sub(now.len());
            before.get(..gone).unwrap_or_default()
        }
    }
}
