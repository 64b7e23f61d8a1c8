//! Calls of one end and of two. Each is in a function without clauses, so that no proof of a caller has to look at the
//! contract of the call.

use bitflags::Flags;
use osi_carrier::Ref;
use osi_class::Local;
use osi_listing::CaptureFault;
use osi_pair::{Entry, Event, Pair, PairError, Side};
use osi_report::{Judgement, judge_text};
use osi_session::{CallError, Indication, Request};
use osi_stack::{Connect, ConnectError, Stack};
use osi_tpkt::Fed;
use std::alloc::Global;

/// Asks an end for a connection.
pub(crate) fn connect(stack: &mut Stack, connect: &Connect) -> Result<Ref, ConnectError> {
    stack.connect(connect)
}

/// A call of the user of a connection.
pub(crate) fn call(stack: &mut Stack, reference: Ref, request: Request) -> Result<(), CallError> {
    stack.call(reference, request)
}

/// Feeds an end octets.
pub(crate) fn feed(stack: &mut Stack, octets: &[u8]) -> Fed {
    stack.feed(octets)
}

/// Tells an end that its byte connection broke.
pub(crate) fn tell_of_a_break(stack: &mut Stack) {
    stack.broken();
}

/// The next pending indication of an end.
pub(crate) fn next(stack: &mut Stack) -> Option<(Ref, Indication)> {
    stack.next_indication()
}

/// Takes everything that an end has to send.
pub(crate) fn take_all(stack: &mut Stack) {
    stack.taken(stack.outgoing().len());
}

/// Whether a side holds a token of a connection.
pub(crate) fn holds_a_token(stack: &Stack, reference: Ref) -> bool {
    !stack.held(reference).is_empty()
}

/// The end of a side.
pub(crate) fn stack_of(pair: &Pair, side: Side) -> &Stack {
    pair.stack(side)
}

/// The journal of two ends.
pub(crate) fn journal(pair: &Pair) -> &[Entry] {
    pair.journal()
}

/// Two fresh ends.
pub(crate) fn two_ends(alloc: Global, left: Local, right: Local) -> Pair {
    Pair::new(alloc, left, right)
}

/// Applies an event, and returns how many octets it carried.
pub(crate) fn apply(pair: &mut Pair, event: &Event) -> Result<usize, PairError> {
    match pair.apply(event) {
        Ok(applied) => Ok(applied.carried),
        Err(error) => Err(error),
    }
}

/// Judges a capture.
pub(crate) fn judge(alloc: Global, capture: &[u8]) -> Result<Judgement, CaptureFault> {
    judge_text(alloc, capture)
}
