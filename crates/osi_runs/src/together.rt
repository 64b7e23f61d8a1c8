//! Scripts of two ends whose events are given in one list.

use crate::again::{push_entries, push_state};
use crate::asked::{asks, ends_asked, event_in};
use crate::calls;
use crate::output::Output;
use osi_class::Local;
use osi_pair::{Event, Pair, RunError};
use osi_script::Line;
use osi_stack::Connect;
use osi_tpdu::Tsap;
use std::io::ErrorKind;

/// A transport address and a session address of the greatest length.
const TSAP: [u8; 32] = [0x54; 32];

const SELECTOR: [u8; 16] = [0x53; 16];

/// How events are given: in one list, or one by one.
#[derive(Clone, Copy)]
enum Given {
    InOneList,
    OneByOne,
}

/// The outcome of a list of events: which one was refused and why, and the final state of the two ends.
#[derive(Drop)]
struct Outcome {
    refused: Option<RunError>,
    said: Output,
}

/// Runs the events of a script, all lines of which can be read, together and one by one, and reports whether the two
/// ends, their journal and the error are the same.
pub(crate) fn judge_together(report: &mut Output, script: &str) {
    let lines = lines_in(report, script);
    judge_lines(report, script, lines.as_slice());
}

fn judge_lines<'a>(report: &mut Output, script: &str, lines: &'a [Line<'a>]) {
    let events = events_in(report, lines);
    judge_events(report, script, events.as_slice());
}

fn judge_events(report: &mut Output, script: &str, events: &[Event]) {
    let run = outcome_of(report, script, events, Given::InOneList);
    judge_beside(report, script, events, &run);
}

fn judge_beside(report: &mut Output, script: &str, events: &[Event], run: &Outcome) {
    let applied = outcome_of(report, script, events, Given::OneByOne);
    compare(report, run, &applied);
}

fn compare(report: &mut Output, run: &Outcome, applied: &Outcome) {
    report.fail_as(&run.said);
    report.fail_as(&applied.said);
    if run.refused == applied.refused && run.said.octets() == applied.said.octets() {
        say_same(report, run.refused);
    } else {
        report.say("GIVES SOMETHING ELSE");
    }
}

fn say_same(report: &mut Output, refused: Option<RunError>) {
    match refused {
        Some(error) => {
            report.say("as one by one, up to ");
            report.show(&error);
        }
        None => report.say("as one by one"),
    }
}

/// The outcome of events that are given in this way, on the two ends that a script asks for.
fn outcome_of(report: &mut Output, script: &str, events: &[Event], given: Given) -> Outcome {
    let mut outcome = Outcome {
        refused: None,
        said: Output::new(report.alloc()),
    };
    give(&mut outcome, script, events, given);
    outcome
}

fn give(outcome: &mut Outcome, script: &str, events: &[Event], given: Given) {
    if let Some((left, right)) = ends_asked(&mut outcome.said, script) {
        let alloc = outcome.said.alloc();
        give_to(
            outcome,
            &mut calls::two_ends(alloc, left, right),
            events,
            given,
        );
    }
}

fn give_to(outcome: &mut Outcome, pair: &mut Pair, events: &[Event], given: Given) {
    outcome.refused = match given {
        Given::InOneList => run_all(pair, events),
        Given::OneByOne => apply_each(pair, events),
    };
    push_state(&mut outcome.said, pair);
    push_entries(&mut outcome.said, "", calls::journal(pair));
}

/// Runs events that are given in one list, up to the first that is refused.
fn run_all(pair: &mut Pair, events: &[Event]) -> Option<RunError> {
    pair.run(events).err()
}

/// The lines that ask for events.
fn lines_in<'a>(report: &mut Output, script: &'a str) -> Vec<Line<'a>> {
    let mut lines = Vec::new(report.alloc());
    keep_lines(report, &mut lines, script);
    lines
}

fn keep_lines<'a>(report: &mut Output, lines: &mut Vec<Line<'a>>, script: &'a str) {
    for line in script.lines() {
        if asks(line) {
            keep_line(report, lines, line);
        }
    }
}

fn keep_line<'a>(report: &mut Output, lines: &mut Vec<Line<'a>>, asked: &'a str) {
    match Line::read(report.alloc(), asked.as_bytes()) {
        Ok(line) => report.note(lines.push(line).is_ok()),
        Err(_) => report.fail(ErrorKind::OutOfMemory),
    }
}

fn events_in<'a>(report: &mut Output, lines: &'a [Line<'a>]) -> Vec<Event<'a>> {
    let mut events = Vec::new(report.alloc());
    for line in lines {
        keep_event(report, &mut events, event_in(line));
    }
    events
}

fn keep_event<'a>(report: &mut Output, events: &mut Vec<Event<'a>>, event: Option<Event<'a>>) {
    match event {
        Some(event) => report.note(events.push(with_addresses(event)).is_ok()),
        None => report.fail(ErrorKind::InvalidData),
    }
}

/// The event; a request for a connection gets addresses of the greatest lengths.
fn with_addresses<'a>(event: Event<'a>) -> Event<'a> {
    match event {
        Event::Connect(connect) => Event::Connect(addressed(connect)),
        other => other,
    }
}

/// A request for a connection, with addresses of the greatest lengths.
fn addressed<'a>(connect: Connect<'a>) -> Connect<'a> {
    Connect {
        calling_tsap: tsap(),
        called_tsap: tsap(),
        calling_selector: Some(&SELECTOR),
        called_selector: Some(&SELECTOR),
        ..connect
    }
}

fn tsap() -> Option<Tsap> {
    Tsap::new(&TSAP)
}

/// Applies events one by one, up to the first that is refused.
fn apply_each(pair: &mut Pair, events: &[Event]) -> Option<RunError> {
    for (place, event) in events.iter().enumerate() {
        if let Err(error) = calls::apply(pair, event) {
            return Some(RunError { place, error });
        }
    }
    None
}
