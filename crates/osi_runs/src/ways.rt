//! The ways in which a script is run.

use crate::output::Output;
use std::alloc::Global;

/// One class at both ends, and octets carried all at once or one by one.
#[derive(Clone, Copy)]
pub(crate) struct Way {
    ends: &'static str,
    is_slow: bool,
}

pub(crate) const WAYS: [Way; 4] = [
    Way {
        ends: "ends 0 0 10 4",
        is_slow: false,
    },
    Way {
        ends: "ends 0 0 10 4",
        is_slow: true,
    },
    Way {
        ends: "ends 2 2 10 4",
        is_slow: false,
    },
    Way {
        ends: "ends 2 2 10 4",
        is_slow: true,
    },
];

/// A script rewritten for another way.
pub(crate) fn script_in(alloc: Global, script: &str, way: Way) -> Output {
    let mut out = Output::new(alloc);
    push_all_in(&mut out, script, way);
    out
}

fn push_all_in(out: &mut Output, script: &str, way: Way) {
    for line in script.lines() {
        push_in(out, line, way);
    }
}

fn push_in(out: &mut Output, line: &str, way: Way) {
    if line.starts_with("ends ") {
        out.push(way.ends);
    } else if !way.is_slow || !line.starts_with("carry ") {
        out.push(line);
    } else if line.starts_with("carry left ") {
        push_often(out, "carry left 1");
    } else {
        push_often(out, "carry right 1");
    }
}

/// Adds a line as often as a side may have octets to carry.
fn push_often(out: &mut Output, line: &str) {
    for _ in 0..400u16 {
        out.push(line);
    }
}

/// A transcript without the lines that say how many octets were carried.
pub(crate) fn counts_left_out(alloc: Global, transcript: &str) -> Output {
    let mut out = Output::new(alloc);
    push_others(&mut out, transcript);
    out
}

fn push_others(out: &mut Output, transcript: &str) {
    for line in transcript.lines() {
        if !line.contains(" carried ") {
            out.push(line);
        }
    }
}
