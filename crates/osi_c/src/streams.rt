//! Octets in and out, and the end of an end.

ghost use types.Logic.{sem};
ghost use Rattle.std.specs.Prelude.{◌≡◌, ◌≤◌, Some};
ghost use Rattle.osi_c.specs.Codes.{answer_of, reason_of, detail_of};
ghost use Rattle.osi_c.specs.Ends.{FeedsTo, outgoing, Carries, Breaks, wants_write, is_over, ended, kept, most_kept, unsent, backlog, live};
ghost use Rattle.osi_c.specs.Lent.{KeepsSlot};

use crate::codes::{BAD_ARGUMENT, CLOSED, OK, end_code};
use crate::slots::OsiEnd;
use osi_carrier::Ref;
use std::alloc::Global;

/// The result of feeding.
#[repr(C)]
#[derive(Clone, Copy)]
pub struct OsiFed {
    /// How many octets of the piece were used. Fetch the indications, then feed the others again.
    pub used: usize,
    /// Whether an indication is pending.
    pub waits: bool,
}

/// Feeds octets from the peer.
#[unsafe(no_mangle)]
pub extern "C" fn osi_feed(alloc: Global, end: &mut OsiEnd, piece: &[u8], fed: &mut OsiFed) -> u32
    ensures { FeedsTo piece.now fed.new.used fed.new.waits (answer_of result) end.old.inner.value end.new.inner.value }
{
    if !end.full {
        *fed = OsiFed {
            used: 0,
            waits: false,
        };
        return CLOSED;
    }
    let contents = end.get_mut();
    let did = contents.stack.feed(piece);
    fed.used = did.used;
    fed.waits = did.whole;
    match &mut contents.traces.received {
        None => OK,
        Some(trace) => {
            trace.feed(alloc, &piece[..did.used]);
            OK
        }
    }
}

/// The octets to send; none for an empty slot.
fn lent(end: &mut OsiEnd) -> &[u8]
    ensures* same { sem 𝓛 (KeepsSlot end.entry) }
    ensures value { result.now ≡ outgoing end.old.inner.value }
{
    match end.get() {
        None => &[],
        Some(contents) => contents.stack.outgoing(),
    }
}

/// Lends the octets to send to the peer; none for an empty slot.
#[unsafe(no_mangle)]
pub extern "C" fn osi_outgoing<'a>(end: &'a mut OsiEnd, octets: &mut &'a [u8])
    ensures* same { sem 𝓛 (KeepsSlot end.entry) }
    ensures value { octets.new.now ≡ outgoing end.old.inner.value }
{
    *octets = lent(end);
}

/// Says that the first `octets` of the lent octets were sent.
#[unsafe(no_mangle)]
pub extern "C" fn osi_taken(alloc: Global, end: &mut OsiEnd, octets: usize) -> u32
    ensures { Carries octets (answer_of result) end.old.inner.value end.new.inner.value }
{
    if !end.full {
        return CLOSED;
    }
    let contents = end.get_mut();
    let outgoing = contents.stack.outgoing();
    if octets > outgoing.len() {
        return BAD_ARGUMENT;
    }
    match &mut contents.traces.sent {
        None => {
            contents.stack.taken(octets);
            OK
        }
        Some(trace) => {
            trace.feed(alloc, &outgoing[..octets]);
            contents.stack.taken(octets);
            OK
        }
    }
}

/// Says that the byte connection broke.
#[unsafe(no_mangle)]
pub extern "C" fn osi_broken(end: &mut OsiEnd) -> u32
    ensures { Breaks (answer_of result) end.old.inner.value end.new.inner.value }
{
    if !end.full {
        return CLOSED;
    }
    end.get_mut().stack.broken();
    OK
}

/// Why the end has ended, and its detail: a reason, or the offset of an octet. 0 if it has not ended, and for an empty
/// slot.
#[unsafe(no_mangle)]
pub extern "C" fn osi_ended(end: &mut OsiEnd, detail: &mut u64) -> u32
    ensures value { reason_of result detail.new ≡ Some (ended end.old.inner.value) }
    ensures detail { detail.new ≡ detail_of (ended end.old.inner.value) }
    ensures same { end.new.inner.value ≡ end.old.inner.value }
{
    if !end.full {
        *detail = 0;
        return 0;
    }
    let why = end_code(end.get_mut().stack.ended());
    *detail = why.detail;
    why.code
}

/// Whether there are octets to send to the peer; not for an empty slot.
#[unsafe(no_mangle)]
pub extern "C" fn osi_wants_write(end: &mut OsiEnd) -> bool
    ensures value { result ≡ wants_write end.old.inner.value }
    ensures same { end.new.inner.value ≡ end.old.inner.value }
{
    if !end.full {
        return false;
    }
    !end.get_mut().stack.outgoing().is_empty()
}

/// Whether the byte connection may be closed now: nothing is to be sent, and the end has ended, or there were
/// connections and none is live. Not for an empty slot.
#[unsafe(no_mangle)]
pub extern "C" fn osi_is_over(end: &mut OsiEnd) -> bool
    ensures value { result ≡ is_over end.old.inner.value }
    ensures same { end.new.inner.value ≡ end.old.inner.value }
{
    if !end.full {
        return false;
    }
    end.get_mut().stack.is_over()
}

/// How many octets of unfinished packets, TSDUs and data in parts are kept: at most 65,535, and 2,097,148 for each live
/// connection; 0 for an empty slot.
#[unsafe(no_mangle)]
pub extern "C" fn osi_kept(end: &mut OsiEnd) -> usize
    ensures value { result ≡ kept end.old.inner.value }
    ensures at_most { result ≤ most_kept end.old.inner.value }
    ensures same { end.new.inner.value ≡ end.old.inner.value }
{
    if !end.full {
        return 0;
    }
    end.get_mut().stack.kept()
}

/// How many octets of a connection were handed in and are not yet in what `osi_outgoing` lends: those of TSDUs that
/// wait for the peer's credit in class 2. 0 for a connection that is gone or never existed, and for an empty slot.
#[unsafe(no_mangle)]
pub extern "C" fn osi_unsent(end: &mut OsiEnd, reference: u16) -> usize
    ensures value { result ≡ unsent reference end.old.inner.value }
    ensures same { end.new.inner.value ≡ end.old.inner.value }
{
    if !end.full {
        return 0;
    }
    end.get_mut().stack.unsent(Ref(reference))
}

/// The same for all connections together, or the largest `size_t` if it is more; 0 for an empty slot.
#[unsafe(no_mangle)]
pub extern "C" fn osi_backlog(end: &mut OsiEnd) -> usize
    ensures value { result ≡ backlog end.old.inner.value }
    ensures same { end.new.inner.value ≡ end.old.inner.value }
{
    if !end.full {
        return 0;
    }
    end.get_mut().stack.backlog()
}

/// How many connections are live, at most 64: those whose transport connection is requested, open or closing; 0 for an
/// empty slot.
#[unsafe(no_mangle)]
pub extern "C" fn osi_live(end: &mut OsiEnd) -> usize
    ensures value { result ≡ live end.old.inner.value }
    ensures at_most { result ≤ 64 }
    ensures same { end.new.inner.value ≡ end.old.inner.value }
{
    if !end.full {
        return 0;
    }
    end.get_mut().stack.live()
}
