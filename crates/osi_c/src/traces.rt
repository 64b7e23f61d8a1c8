//! The traces of an end: one of the octets that it was fed, and one of those that it sent.

ghost use Rattle.std.specs.Prelude.{◌≡◌, Some};
ghost use Rattle.osi_c.specs.Traced.{HandsOut, IsNew, IsUntraced, kind_of, line_answer, tally, Means};

use crate::codes::{NO_MEMORY, NOTHING, OK};
use osi_listing::Trace;
use std::alloc::Global;
use std::mem::replace;

/// The traces of an end, and the lines that C fetched last. These are lent until the next call.
#[derive(Drop)]
pub struct Traces {
    pub received: Option<Trace>,
    pub sent: Option<Trace>,
    pub lines: Vec<u8>,
}

/// What was counted in one direction. Each count stops at 2^64 - 1.
#[repr(C)]
#[derive(Clone, Copy)]
pub struct OsiTally {
    pub octets: u64,
    pub packets: u64,
    pub units: u64,
    pub tsdus: u64,
    pub session_units: u64,
    pub refused: u64,
}

impl Traces {
    /// No trace.
    pub(crate) fn none(alloc: Global) -> Self
        ensures { IsUntraced result }
    {
        Traces {
            received: None,
            sent: None,
            lines: Vec::new(alloc),
        }
    }
}

/// What a new trace keeps.
#[derive(Clone, Copy)]
pub(crate) enum Kind {
    /// There is none.
    Off,
    /// Only what it counts.
    Counters,
    /// Lines too.
    Lines,
}

/// What a number says that a new trace keeps.
pub(crate) fn kind_by(number: u32) -> Option<Kind>
    ensures { result ≡ kind_of number }
{
    match number {
        0 => Some(Kind::Off),
        1 => Some(Kind::Counters),
        2 => Some(Kind::Lines),
        _ => None,
    }
}

/// A new trace.
pub(crate) fn begun(alloc: Global, kind: Kind) -> Option<Trace>
    ensures { IsNew kind result }
{
    match kind {
        Kind::Off => None,
        Kind::Counters => Some(Trace::counters(alloc)),
        Kind::Lines => Some(Trace::lines(alloc)),
    }
}

/// Hands out the lines of a trace that nobody has fetched yet. A trace that has stopped says so once it has no lines,
/// and ends.
pub(crate) fn hand_out(alloc: Global, trace: &mut Option<Trace>, lines: &mut Vec<u8>) -> u32
    ensures { HandsOut (line_answer result) trace.old trace.new lines.new.items }
{
    let Some(going) = trace else {
        *lines = Vec::new(alloc);
        return NOTHING;
    };
    *lines = going.fetch(alloc);
    if !lines.is_empty() {
        return OK;
    }
    if !going.is_stopped() {
        return NOTHING;
    }
    *trace = None;
    NO_MEMORY
}

/// What a trace counted; nothing if there is none.
pub(crate) fn count(trace: &Option<Trace>) -> OsiTally
    ensures value { result ≡ tally trace.now }
    ensures meant { Means trace.now result }
{
    match trace {
        None => OsiTally {
            octets: 0,
            packets: 0,
            units: 0,
            tsdus: 0,
            session_units: 0,
            refused: 0,
        },
        Some(trace) => counted(trace),
    }
}

fn counted(trace: &Trace) -> OsiTally
    ensures value { result ≡ tally (Some trace.now) }
    ensures meant { Means (Some trace.now) result }
{
    let counts = trace.counts();
    OsiTally {
        octets: trace.octets(),
        packets: counts.packets,
        units: counts.units,
        tsdus: counts.tsdus,
        session_units: counts.session_units,
        refused: counts.refused,
    }
}
