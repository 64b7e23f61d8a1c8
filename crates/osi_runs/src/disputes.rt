//! Captures of both sides in one file, and what is found of each.
//!
//! A line that begins with `== ` names a capture, and the lines of the capture follow it. The line `-- status S` ends
//! them; after it comes what is printed.

use crate::calls;
use crate::output::Output;
use osi_listing::CaptureFault;
use std::alloc::Global;
use std::io::ErrorKind;

/// The lines of a file, as they are written again.
#[derive(Drop)]
struct Rows {
    came: Output,
    /// The lines of the current capture.
    capture: Output,
    /// The capture was judged: the lines that follow are the expected result.
    is_judged: bool,
}

impl Rows {
    fn begin(&mut self, name: &str) {
        self.capture.clear();
        self.is_judged = false;
        self.came.push(name);
    }

    fn keep(&mut self, line: &str) {
        self.capture.push(line);
        self.came.push(line);
    }

    fn judge(&mut self) {
        self.is_judged = true;
        self.came.fail_as(&self.capture);
        match calls::judge(self.came.alloc(), self.capture.octets()) {
            Ok(judgement) => tell(&mut self.came, judgement.status, judgement.lines.as_slice()),
            Err(fault) => tell_fault(&mut self.came, fault),
        }
    }
}

fn tell(out: &mut Output, status: u8, lines: &[u8]) {
    out.push_number("-- status", usize::from(status));
    out.add(lines);
}

fn tell_fault(out: &mut Output, fault: CaptureFault) {
    match fault {
        CaptureFault::BadHex => out.push("-- BadHex"),
        CaptureFault::OutOfMemory => out.fail(ErrorKind::OutOfMemory),
    }
}

fn take_line(rows: &mut Rows, line: &str) {
    if line.starts_with("== ") {
        rows.begin(line);
    } else if !rows.is_judged {
        take_more(rows, line);
    }
}

/// Takes a line of a capture, or the line after its last.
fn take_more(rows: &mut Rows, line: &str) {
    if line.starts_with("-- ") {
        rows.judge();
    } else {
        rows.keep(line);
    }
}

/// The lines of a file, with what is found of each capture.
pub(crate) fn disputed(alloc: Global, text: &str) -> Output {
    let mut rows = Rows {
        came: Output::new(alloc),
        capture: Output::new(alloc),
        is_judged: false,
    };
    for line in text.lines() {
        take_line(&mut rows, line);
    }
    rows.came
}
