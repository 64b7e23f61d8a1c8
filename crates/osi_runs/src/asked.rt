//! What lines of scripts ask for.

use crate::output::Output;
use osi_class::Local;
use osi_pair::Event;
use osi_script::{Command, Line};
use osi_transcript::asking::event_of;
use std::io::ErrorKind;

/// Whether a line asks for an event.
pub(crate) fn asks(line: &str) -> bool {
    !line.is_empty() && !line.starts_with('#') && !line.starts_with("ends ")
}

/// The event that a line asks for; none for the line of the two ends, and for a line that can't be read.
pub(crate) fn event_in<'a>(line: &'a Line<'a>) -> Option<Event<'a>> {
    event_of(line.command()?)
}

/// The configuration of the two ends of a script; without them, what is written fails.
pub(crate) fn ends_asked(out: &mut Output, script: &str) -> Option<(Local, Local)> {
    let line = script.lines().find(|line| line.starts_with("ends "));
    ends_read(out, line.unwrap_or_default())
}

/// The configuration of the two ends that this line has to ask for; without them, what is written fails.
pub(crate) fn ends_read(out: &mut Output, asked: &str) -> Option<(Local, Local)> {
    match Line::read(out.alloc(), asked.as_bytes()) {
        Ok(line) => ends_found(out, ends_in(&line)),
        Err(_) => ends_failed(out, ErrorKind::OutOfMemory),
    }
}

fn ends_found(out: &mut Output, ends: Option<(Local, Local)>) -> Option<(Local, Local)> {
    match ends {
        Some(ends) => Some(ends),
        None => ends_failed(out, ErrorKind::InvalidData),
    }
}

fn ends_failed(out: &mut Output, kind: ErrorKind) -> Option<(Local, Local)> {
    out.fail(kind);
    None
}

/// The configuration of the two ends that a line asks for; none for every other line.
fn ends_in(line: &Line) -> Option<(Local, Local)> {
    ends_of(line.command()?)
}

fn ends_of(command: Command) -> Option<(Local, Local)> {
    match command {
        Command::Ends {
            caller,
            called,
            size,
            window,
        } => Some((caller.local(size, window), called.local(size, window))),
        _ => None,
    }
}
