//! Scripts of two ends that continue when memory runs out.
//!
//! An event that runs out of memory has changed nothing, so it is applied again; if a carry stopped early, the rest is
//! carried. So the transcript is the same whichever allocation fails, with one exception: if an end that is fed runs
//! out of memory, the end is over, and so is the script.

use crate::asked::{asks, ends_asked, event_in};
use crate::calls;
use crate::octets::{push_phase, push_where};
use crate::output::Output;
use osi_carrier::{EndReason, Ref};
use osi_pair::{Entry, Event, Pair, PairError};
use osi_script::{Line, Side};
use osi_session::{CallError, Phase};
use osi_stack::{ConnectError, Stack};
use osi_transcript::asking::named;
use std::alloc::Global;
use std::io::ErrorKind;

/// One more than the largest reference that is looked at.
const ALL: u16 = 65;

/// The result of running a script.
#[derive(Drop)]
pub(crate) struct Replay {
    /// Its transcript.
    pub(crate) lines: Output,
    /// How many events ran out of memory.
    pub(crate) refused: u32,
    /// How many carries stopped early.
    pub(crate) stopped: u32,
    /// Whether an end is over because memory ran out.
    pub(crate) is_over: bool,
    /// Whether everything was as it should be whenever memory ran out.
    pub(crate) is_good: bool,
}

/// Runs a script, all lines of which can be read and fit.
pub(crate) fn replayed(alloc: Global, script: &str) -> Replay {
    let mut replay = Replay {
        lines: Output::new(alloc),
        refused: 0,
        stopped: 0,
        is_over: false,
        is_good: true,
    };
    play_script(&mut replay, script);
    replay
}

fn play_script(replay: &mut Replay, script: &str) {
    if let Some((left, right)) = ends_asked(&mut replay.lines, script) {
        let alloc = replay.lines.alloc();
        play_all(replay, &mut calls::two_ends(alloc, left, right), script);
    }
}

fn play_all(replay: &mut Replay, pair: &mut Pair, script: &str) {
    play_each(replay, pair, script);
    push_standings(&mut replay.lines, pair, osi_pair::Side::Left);
    push_standings(&mut replay.lines, pair, osi_pair::Side::Right);
}

fn play_each(replay: &mut Replay, pair: &mut Pair, script: &str) {
    for line in script.lines() {
        if asks(line) && !replay.is_over {
            play(replay, pair, line);
        }
    }
}

fn play(replay: &mut Replay, pair: &mut Pair, asked: &str) {
    match Line::read(replay.lines.alloc(), asked.as_bytes()) {
        Ok(line) => play_line(replay, pair, asked, event_in(&line)),
        Err(_) => replay.lines.fail(ErrorKind::OutOfMemory),
    }
}

fn play_line(replay: &mut Replay, pair: &mut Pair, asked: &str, event: Option<Event>) {
    match event {
        Some(event) => play_event(replay, pair, asked, &event),
        None => replay.lines.fail(ErrorKind::InvalidData),
    }
}

fn play_event(replay: &mut Replay, pair: &mut Pair, asked: &str, event: &Event) {
    let before = calls::journal(pair).len();
    let carried = apply_whole(replay, pair, event);
    push_said(&mut replay.lines, event, carried);
    push_since(&mut replay.lines, asked, pair, before);
    note_end(replay, pair, osi_pair::Side::Left);
    note_end(replay, pair, osi_pair::Side::Right);
}

/// Adds the lines of the new entries of a journal, each with the verb of the line that asked for it.
fn push_since(out: &mut Output, asked: &str, pair: &Pair, first: usize) {
    let added = calls::journal(pair).get(first..).unwrap_or_default();
    push_entries(out, asked, added);
}

/// Adds the lines of entries, each with the verb of the line that asked for it.
pub(crate) fn push_entries(out: &mut Output, asked: &str, entries: &[Entry]) {
    for entry in entries {
        push_entry(out, asked, entry);
    }
}

/// Applies an event, and carries the rest if a carry stopped early.
fn apply_whole(replay: &mut Replay, pair: &mut Pair, event: &Event) -> usize {
    let carried = apply(replay, pair, event);
    match *event {
        Event::Carry(side, most) => {
            let rest = Event::Carry(side, most.saturating_sub(carried));
            carried.saturating_add(carry_rest(replay, pair, &rest))
        }
        _ => carried,
    }
}

/// Carries what a carry has left, and returns how many octets that were.
fn carry_rest(replay: &mut Replay, pair: &mut Pair, rest: &Event) -> usize {
    let more = apply(replay, pair, rest);
    if more > 0 {
        replay.stopped = replay.stopped.wrapping_add(1);
    }
    more
}

/// Applies an event, and applies it again if it runs out of memory.
fn apply(replay: &mut Replay, pair: &mut Pair, event: &Event) -> usize {
    let before = state_of(&mut replay.lines, pair);
    apply_from(replay, pair, event, before.octets())
}

/// Applies an event to two ends in this state.
fn apply_from(replay: &mut Replay, pair: &mut Pair, event: &Event, before: &[u8]) -> usize {
    match calls::apply(pair, event) {
        Ok(carried) => carried,
        Err(PairError::OutOfMemory) => apply_again(replay, pair, event, before),
        Err(_) => not_applied(replay),
    }
}

/// Applies an event again that ran out of memory, after testing that nothing has changed.
fn apply_again(replay: &mut Replay, pair: &mut Pair, event: &Event, before: &[u8]) -> usize {
    replay.refused = replay.refused.wrapping_add(1);
    replay.is_good &= is_in(&mut replay.lines, pair, before);
    match calls::apply(pair, event) {
        Ok(carried) => carried,
        Err(_) => not_applied(replay),
    }
}

/// The script fails: an event does not fit, or ran out of memory twice. Nothing is carried.
fn not_applied(replay: &mut Replay) -> usize {
    replay.lines.fail(ErrorKind::InvalidData);
    0
}

/// Whether two ends are in this state. If memory does not suffice to say so, what is written fails.
fn is_in(out: &mut Output, pair: &Pair, state: &[u8]) -> bool {
    let now = state_of(out, pair);
    now.octets() == state
}

/// The state of two ends as octets. If memory does not suffice for it, what is written fails.
fn state_of(out: &mut Output, pair: &Pair) -> Output {
    let mut state = Output::new(out.alloc());
    state.reserve(10_000);
    push_state(&mut state, pair);
    out.fail_as(&state);
    state
}

/// Adds everything that can be asked of two ends, and of the journal its length and its last entry.
pub(crate) fn push_state(out: &mut Output, pair: &Pair) {
    push_side(out, pair, osi_pair::Side::Left);
    push_side(out, pair, osi_pair::Side::Right);
    push_journal(out, calls::journal(pair));
}

fn push_side(out: &mut Output, pair: &Pair, side: osi_pair::Side) {
    let stack = calls::stack_of(pair, side);
    push_where(out, named(side), stack, ALL);
    out.add(stack.outgoing());
}

/// Adds the number of entries and the last one.
fn push_journal(out: &mut Output, journal: &[Entry]) {
    out.push_number("entries", journal.len());
    if let Some(entry) = journal.last() {
        push_entry(out, "", entry);
    }
}

/// Adds the answer to an event, if the journal does not have it.
fn push_said(out: &mut Output, event: &Event, carried: usize) {
    match *event {
        Event::Connect(_) | Event::Call(_, _, _) => {}
        Event::Carry(side, _) => push_carried(out, named(side), carried),
        Event::Break(_, _) => out.push("broken"),
        Event::Told(side) => out.push_behind(named(side).name(), "told"),
    }
}

fn push_carried(out: &mut Output, side: Side, carried: usize) {
    out.say(side.name());
    out.push_number(" carried", carried);
}

/// Adds the line of an entry, with the verb of the line that asked for it.
fn push_entry(out: &mut Output, asked: &str, entry: &Entry) {
    match entry {
        Entry::Connect { answer, .. } => push_connect(out, *answer),
        Entry::Call {
            side,
            reference,
            answer,
            ..
        } => push_call(out, named(*side), *reference, verb_of(asked), *answer),
        Entry::Indication {
            side,
            reference,
            indication,
        } => out.push_indication(named(*side), reference.0, indication),
        Entry::End { .. } => {}
    }
}

/// The verb with which a line asks something of a connection.
fn verb_of(asked: &str) -> &str {
    asked.split(' ').nth(2).unwrap_or("")
}

/// Adds a request and its answer.
fn push_call(
    out: &mut Output,
    side: Side,
    reference: Ref,
    verb: &str,
    answer: Result<(), CallError>,
) {
    out.say(side.name());
    out.say(" ");
    out.show(&reference.0);
    out.say(" ");
    out.say(verb);
    push_answer(out, answer);
}

fn push_answer(out: &mut Output, answer: Result<(), CallError>) {
    match answer {
        Ok(()) => out.push(" ok"),
        Err(error) => out.push_name(" refused", &error),
    }
}

fn push_connect(out: &mut Output, answer: Result<Ref, ConnectError>) {
    match answer {
        Ok(Ref(reference)) => out.push_number("left connect ok", usize::from(reference)),
        Err(ConnectError::Open(error)) => out.push_name("left connect refused", &error),
        Err(error) => out.push_name("left connect refused", &error),
    }
}

/// Adds the state of each connection of a side that has not ended.
fn push_standings(out: &mut Output, pair: &Pair, side: osi_pair::Side) {
    let stack = calls::stack_of(pair, side);
    for reference in 1..ALL {
        if !matches!(stack.phase(Ref(reference)), Some(Phase::Ended)) {
            push_phase(out, named(side), stack, Ref(reference));
        }
    }
}

/// Notes whether an end is over because memory ran out. Such an end holds no token.
fn note_end(replay: &mut Replay, pair: &Pair, side: osi_pair::Side) {
    let stack = calls::stack_of(pair, side);
    if matches!(stack.ended(), Some(EndReason::NoMemory)) {
        replay.is_over = true;
        replay.is_good &= holds_nothing(stack);
    }
}

/// Whether an end holds no token of any connection.
fn holds_nothing(stack: &Stack) -> bool {
    for reference in 1..ALL {
        if calls::holds_a_token(stack, Ref(reference)) {
            return false;
        }
    }
    true
}
