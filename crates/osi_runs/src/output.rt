//! What is written line by line, and what becomes of it if memory runs out.

use osi_listing::list;
use osi_script::{Side, Standing, push_indication, push_standing};
use osi_session::Indication;
use std::alloc::{AllocError, Global};
use std::fmt::{Debug, Display};
use std::io;
use std::io::ErrorKind;

/// Lines and a status, as a program gives them. An output remembers the first failure of what writes it, as a stream of
/// C does: so functions that write return nothing, and only who wants the whole output asks whether it is whole.
#[derive(Drop)]
pub(crate) struct Output {
    alloc: Global,
    octets: Vec<u8>,
    pub(crate) status: u8,
    failure: Option<ErrorKind>,
}

impl Output {
    pub(crate) fn new(alloc: Global) -> Output {
        Output {
            alloc,
            octets: Vec::new(alloc),
            status: 0,
            failure: None,
        }
    }

    /// The allocator of its octets.
    pub(crate) fn alloc(&self) -> Global {
        self.alloc
    }

    /// What was written so far.
    pub(crate) fn octets(&self) -> &[u8] {
        self.octets.as_slice()
    }

    /// The same as text; none of it if it is no text.
    pub(crate) fn text(&self) -> &str {
        str::from_utf8(self.octets.as_slice()).unwrap_or_default()
    }

    pub(crate) fn is_empty(&self) -> bool {
        self.octets.is_empty()
    }

    /// The whole text; the first failure, if there was one.
    pub(crate) fn whole(&self) -> io::Result<&str> {
        match self.failure {
            None => read(self.octets.as_slice()),
            Some(kind) => Err(io::Error::from(kind)),
        }
    }

    /// Remembers a failure, if it is the first.
    pub(crate) fn fail(&mut self, kind: ErrorKind) {
        if self.failure.is_none() {
            self.failure = Some(kind);
        }
    }

    /// Remembers the failure of another output that this one is made of.
    pub(crate) fn fail_as(&mut self, other: &Output) {
        if self.failure.is_none() {
            self.failure = other.failure;
        }
    }

    /// Remembers that memory ran out, unless something was done.
    pub(crate) fn note(&mut self, is_done: bool) {
        if !is_done {
            self.fail(ErrorKind::OutOfMemory);
        }
    }

    /// Takes everything back that was written, but no failure.
    pub(crate) fn clear(&mut self) {
        self.octets.clear();
    }

    /// Makes room for so many octets more.
    pub(crate) fn reserve(&mut self, octets: usize) {
        let is_done = self.octets.reserve(octets).is_ok();
        self.note(is_done);
    }

    /// Adds octets.
    pub(crate) fn add(&mut self, octets: &[u8]) {
        let is_done = self.octets.extend_from_slice(octets).is_ok();
        self.note(is_done);
    }

    /// Adds text.
    pub(crate) fn say(&mut self, text: &str) {
        self.add(text.as_bytes());
    }

    /// Adds a text that was made for this, if memory sufficed.
    pub(crate) fn say_made(&mut self, made: Result<String, AllocError>) {
        match made {
            Ok(text) => self.add(text.as_bytes()),
            Err(_) => self.fail(ErrorKind::OutOfMemory),
        }
    }

    /// Adds a value as it is printed.
    pub(crate) fn show<T: Display>(&mut self, shown: &T) {
        let text = shown.to_string(self.alloc);
        self.say_made(text);
    }

    /// Adds a line.
    pub(crate) fn push(&mut self, line: &str) {
        self.say(line);
        self.say("\n");
    }

    /// Adds a line with a label and a text.
    pub(crate) fn push_behind(&mut self, said: &str, rest: &str) {
        self.say(said);
        self.say(" ");
        self.push(rest);
    }

    /// Adds a line with a label and a number.
    pub(crate) fn push_number(&mut self, said: &str, number: usize) {
        let line = format!(in self.alloc; "{said} {number}\n");
        self.say_made(line);
    }

    /// Adds a line with a label and a name.
    pub(crate) fn push_name<T: Debug>(&mut self, said: &str, name: &T) {
        let line = format!(in self.alloc; "{said} {name:?}\n");
        self.say_made(line);
    }

    /// Adds a line with a label and octets in digits.
    pub(crate) fn push_digits(&mut self, said: &str, octets: &[u8]) {
        self.say(said);
        self.say(" ");
        self.say_made(hex::encode(self.alloc, octets));
        self.say("\n");
    }

    /// Adds the listing of a capture, and takes over its status.
    pub(crate) fn list(&mut self, capture: &[u8]) {
        match list(self.alloc, &mut self.octets, capture) {
            Ok(status) => self.status = status,
            Err(_) => self.fail(ErrorKind::OutOfMemory),
        }
    }

    /// Adds the line of an indication.
    pub(crate) fn push_indication(&mut self, side: Side, reference: u16, indication: &Indication) {
        let is_done = push_indication(
            self.alloc,
            &mut self.octets,
            side,
            reference,
            indication,
        ).is_ok();
        self.note(is_done);
    }

    /// Adds the line of the state of a connection.
    pub(crate) fn push_standing(&mut self, standing: &Standing) {
        let is_done = push_standing(self.alloc, &mut self.octets, standing).is_ok();
        self.note(is_done);
    }
}

fn read(octets: &[u8]) -> io::Result<&str> {
    match str::from_utf8(octets) {
        Ok(text) => Ok(text),
        Err(_) => Err(io::Error::from(ErrorKind::InvalidData)),
    }
}

/// The lines of a text.
pub(crate) fn lines_of<'a>(out: &mut Output, text: &'a str) -> Vec<&'a str> {
    match text.lines().collect(out.alloc()) {
        Ok(lines) => lines,
        Err(_) => none(out),
    }
}

/// No lines, since memory ran out.
fn none<'a>(out: &mut Output) -> Vec<&'a str> {
    out.fail(ErrorKind::OutOfMemory);
    Vec::new(out.alloc())
}
