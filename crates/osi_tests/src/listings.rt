//! Listings of TSDUs that are too long for a capture of `osi_runs`, and of octets that arrive one by one.

use crate::checks::{Checks, OUT_OF_MEMORY};
use osi_listing::{Counts, Lister, Trace, list};
use std::alloc::{AllocError, Global};
use std::test::Fail;

/// Packets after 16 data units of 65,528 octets, and the last lines of the listing of all.
#[derive(Clone, Copy)]
struct Last {
    /// A header, and this many octets after it.
    header: &'static [u8],
    octets: &'static [u8],
    /// Packets with no octets.
    behind: &'static [u8],
    lines: &'static [u8],
}

/// A TSDU has at most 1,048,576 octets.
static LONGEST: Last = Last {
    header: &[3, 0, 0, 135, 2, 0xF0, 0x80],
    octets: &[0; 128],
    behind: &[],
    lines: b"octets 128\n    tsdu 1048576\n    fault 0 UnknownSi\nrest 0\n",
};

static TOO_LONG: Last = Last {
    header: &[3, 0, 0, 136, 2, 0xF0, 0x80],
    octets: &[0; 129],
    behind: &[],
    lines: b"octets 129\n  fault 0 TsduTooLong\nrest 0\n",
};

/// The rest of a TSDU that is too long is dropped.
static DROPPED: Last = Last {
    header: &[3, 0, 0, 136, 2, 0xF0, 0],
    octets: &[0; 129],
    behind: &[3, 0, 0, 7, 2, 0xF0, 0x80, 3, 0, 0, 7, 2, 0xF0, 0x80],
    lines: b"octets 129
  fault 0 TsduTooLong
packet 1048696 length 7 code f0
  DT number 0 eot 1 octets 0
packet 1048703 length 7 code f0
  DT number 0 eot 1 octets 0
    tsdu 0
    fault 0 LengthPastEnd
rest 0
",
};

/// Adds 16 data units of 65,528 octets.
fn push_long(out: &mut Vec<u8>, checks: &Checks) {
    for _ in 0..16u8 {
        checks.memory(out.extend_from_slice(&[3, 0, 255, 255, 2, 0xF0, 0]));
        checks.memory(out.extend_from_slice(&[0; 65_528]));
    }
}

/// Adds the last packets.
fn push_last(out: &mut Vec<u8>, last: &Last, checks: &Checks) {
    for part in [last.header, last.octets, last.behind] {
        checks.memory(out.extend_from_slice(part));
    }
}

/// The listing ends with these lines.
fn is_listed(
    alloc: Global,
    octets: &mut Vec<u8>,
    text: &mut Vec<u8>,
    last: &Last,
    checks: &Checks,
) {
    push_long(octets, checks);
    push_last(octets, last, checks);
    checks.that(list(alloc, text, octets.as_slice()).is_ok(), OUT_OF_MEMORY);
    checks.that(text.as_slice().ends_with(last.lines), "another listing");
}

/// The listing of new octets into a new text ends with these lines.
fn ends_so(alloc: Global, last: &Last, checks: &Checks) {
    is_listed(
        alloc,
        &mut Vec::new(alloc),
        &mut Vec::new(alloc),
        last,
        checks,
    );
}

#[test]
fn a_tsdu_has_at_most_1_048_576_octets(rt: HostRuntime) -> Result<(), Fail> {
    let checks = Checks::new();
    ends_so(rt.alloc(), &LONGEST, &checks);
    ends_so(rt.alloc(), &TOO_LONG, &checks);
    checks.end()
}

#[test]
fn what_is_too_long_is_dropped_up_to_its_end(rt: HostRuntime) -> Result<(), Fail> {
    let checks = Checks::new();
    ends_so(rt.alloc(), &DROPPED, &checks);
    checks.end()
}

/// A packet of two session units, one with a bad transport unit, and two octets more.
static MIXED: [u8; 22] = [
    3, 0, 0, 13, 2, 0xF0, 0x80, 1, 0, 1, 0, 0x41, 0x42, 3, 0, 0, 7, 2, 0, 0x80, 3, 0,
];

/// Feeds a lister octets, one by one.
fn feed_singly(
    alloc: Global,
    lister: &mut Lister,
    text: &mut Vec<u8>,
    octets: &[u8],
    checks: &Checks,
) {
    for octet in octets {
        checks.memory(lister.feed(alloc, text, &[*octet]));
    }
}

/// What `MIXED` has is counted.
fn is_counted(lister: &Lister, checks: &Checks) {
    let counts = Counts {
        packets: 2,
        units: 1,
        tsdus: 1,
        session_units: 2,
        refused: 1,
    };
    checks.that(lister.counts() == counts, "other counts");
    checks.that(lister.octets() == 22, "another number of octets");
    checks.that(!lister.is_lost(), "lost");
}

/// The status of a listing, if there is memory for it.
fn status(answer: Result<u8, AllocError>, checks: &Checks) -> Option<u8> {
    let status = answer.ok();
    checks.that(status.is_some(), OUT_OF_MEMORY);
    status
}

/// The status of the listing of `MIXED`, which arrives octet by octet.
fn listed_singly(
    alloc: Global,
    lister: &mut Lister,
    text: &mut Vec<u8>,
    checks: &Checks,
) -> Option<u8> {
    feed_singly(alloc, lister, text, &MIXED, checks);
    is_counted(lister, checks);
    status(lister.finish(text), checks)
}

/// The status of the listing of `MIXED` by a new lister.
fn listed_anew(alloc: Global, text: &mut Vec<u8>, checks: &Checks) -> Option<u8> {
    listed_singly(alloc, &mut Lister::new(alloc), text, checks)
}

/// `MIXED` is listed octet by octet as all at once.
fn is_listed_alike(alloc: Global, singly: &mut Vec<u8>, at_once: &mut Vec<u8>, checks: &Checks) {
    let one = listed_anew(alloc, singly, checks);
    let other = status(list(alloc, at_once, &MIXED), checks);
    checks.that(one == Some(1), "another status");
    checks.that(one == other, "two statuses");
    checks.that(singly.as_slice() == at_once.as_slice(), "two listings");
}

#[test]
fn octets_that_come_one_by_one_are_listed_as_all_at_once(rt: HostRuntime) -> Result<(), Fail> {
    let alloc = rt.alloc();
    let checks = Checks::new();
    is_listed_alike(alloc, &mut Vec::new(alloc), &mut Vec::new(alloc), &checks);
    checks.end()
}

/// Feeds a trace 10,000 packets, each with an empty TSDU of class 0: more than 900,000 octets of lines.
fn feed_packets(alloc: Global, trace: &mut Trace) {
    for _ in 0..10_000u16 {
        trace.feed(alloc, &[3, 0, 0, 7, 2, 0xF0, 0x80]);
    }
}

/// Feeds a trace the first octet of a TSDU of class 2 for each of 64 references.
fn begin_streams(alloc: Global, trace: &mut Trace) {
    for reference in 0..64u8 {
        trace.feed(alloc, &[3, 0, 0, 0x0A, 4, 0xF0, 0, reference, 0, 0x41]);
    }
}

/// A trace goes on with all of these.
fn goes_on(alloc: Global, trace: &mut Trace, checks: &Checks) {
    feed_packets(alloc, trace);
    begin_streams(alloc, trace);
    checks.that(!trace.is_stopped(), "it has stopped");
    checks.that(trace.octets() == 70_640, "another number of octets");
    checks.that(trace.counts().tsdus == 10_000, "another number of TSDUs");
}

/// A fresh trace of lines, or of counters alone.
fn trace(alloc: Global, has_lines: bool) -> Trace {
    if has_lines {
        Trace::lines(alloc)
    } else {
        Trace::counters(alloc)
    }
}

fn trace_goes_on(alloc: Global, has_lines: bool, checks: &Checks) {
    let mut trace = trace(alloc, has_lines);
    goes_on(alloc, &mut trace, checks);
    drop(trace);
}

#[test]
fn a_trace_goes_on_within_its_bounds(rt: HostRuntime) -> Result<(), Fail> {
    let checks = Checks::new();
    trace_goes_on(rt.alloc(), true, &checks);
    trace_goes_on(rt.alloc(), false, &checks);
    checks.end()
}
