//! Tracing an end, for C.

ghost use types.Logic.{sem};
ghost use Rattle.std.specs.Prelude.{◌≡◌};
ghost use Rattle.osi_c.specs.Codes.{answer_of};
ghost use Rattle.osi_c.specs.Lent.{KeepsSlot};
ghost use Rattle.osi_c.specs.Traced.{line_answer};
ghost use Rattle.osi_c.specs.Tracing.{Switches, FetchesLines, last_lines, counters, MeansBoth};

use crate::codes::{BAD_ARGUMENT, CLOSED, OK};
use crate::slots::OsiEnd;
use crate::traces::{OsiTally, Traces, begun, count, hand_out, kind_by};
use std::alloc::Global;

/// What was counted in both directions.
#[repr(C)]
#[derive(Clone, Copy)]
pub struct OsiCounters {
    pub received: OsiTally,
    pub sent: OsiTally,
}

/// Begins new traces of the octets that pass from now on, or ends them: 0 is none, 1 counts, 2 counts and keeps lines.
#[unsafe(no_mangle)]
pub extern "C" fn osi_trace(alloc: Global, end: &mut OsiEnd, what: u32) -> u32
    ensures { Switches what (answer_of result) end.old.inner.value end.new.inner.value }
{
    let Some(kind) = kind_by(what) else {
        return BAD_ARGUMENT;
    };
    if !end.full {
        return CLOSED;
    }
    end.get_mut().traces = Traces {
        received: begun(alloc, kind),
        sent: begun(alloc, kind),
        lines: Vec::new(alloc),
    };
    OK
}

/// Fetches the lines of a direction that nobody has fetched yet, which [`osi_trace_lines`] then lends: 0 is what was
/// received, 1 what was sent.
#[unsafe(no_mangle)]
pub extern "C" fn osi_trace_fetch(alloc: Global, end: &mut OsiEnd, direction: u32) -> u32
    ensures { FetchesLines direction (line_answer result) end.old.inner.value end.new.inner.value }
{
    if direction > 1 {
        return BAD_ARGUMENT;
    }
    if !end.full {
        return CLOSED;
    }
    let traces = &mut end.get_mut().traces;
    if direction == 0 {
        hand_out(alloc, &mut traces.received, &mut traces.lines)
    } else {
        hand_out(alloc, &mut traces.sent, &mut traces.lines)
    }
}

/// The lines that were fetched last; none for an empty slot.
fn lines(end: &mut OsiEnd) -> &[u8]
    ensures* same { sem 𝓛 (KeepsSlot end.entry) }
    ensures value { result.now ≡ last_lines end.old.inner.value }
{
    match end.get() {
        None => &[],
        Some(contents) => contents.traces.lines.as_slice(),
    }
}

/// Lends the lines that were fetched last; none for an empty slot.
#[unsafe(no_mangle)]
pub extern "C" fn osi_trace_lines<'a>(end: &'a mut OsiEnd, octets: &mut &'a [u8])
    ensures* same { sem 𝓛 (KeepsSlot end.entry) }
    ensures value { octets.new.now ≡ last_lines end.old.inner.value }
{
    *octets = lines(end);
}

/// What the traces of an end counted; nothing for a direction without a trace, and for an empty slot.
#[unsafe(no_mangle)]
pub extern "C" fn osi_counts(end: &mut OsiEnd, shown: &mut OsiCounters)
    ensures value { shown.new ≡ counters end.old.inner.value }
    ensures meant { MeansBoth end.old.inner.value shown.new }
    ensures same { end.new.inner.value ≡ end.old.inner.value }
{
    if !end.full {
        *shown = OsiCounters {
            received: count(&None),
            sent: count(&None),
        };
        return;
    }
    let traces = &end.get_mut().traces;
    *shown = OsiCounters {
        received: count(&traces.received),
        sent: count(&traces.sent),
    };
}
