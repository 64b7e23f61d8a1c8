//! TSDUs that are sent on connection 1 of a carrier: one or several in a call, borrowed or given away.

use crate::checks::{Checks, OUT_OF_MEMORY, add, octets};
use osi_carrier::*;
use std::alloc::Global;

/// TSDUs that are sent on connection 1.
#[derive(Clone, Copy)]
pub(crate) enum Sending {
    /// These octets, or they are refused with this error.
    One(&'static [u8], Option<SendError>),
    /// This many octets, or they are refused with this error.
    Long(usize, Option<SendError>),
    /// These octets, given away.
    Owned(&'static [u8]),
    /// This many octets, given away.
    OwnedLong(usize),
    /// Five TSDUs of one octet, in one call.
    Five,
    /// This many TSDUs of so many octets in one call, and as many again that are given away.
    Together(u16, usize),
    /// An empty list, which may be refused with this error.
    Nothing(Option<SendError>),
    /// The pieces of `PIECES`.
    Pieces,
}

/// An answer to sending or closing, which may be this error.
pub(crate) fn is_answered(
    answer: Result<(), SendError>,
    error: Option<SendError>,
    checks: &Checks,
) {
    let found = answer.err();
    checks.that(found != Some(SendError::OutOfMemory), OUT_OF_MEMORY);
    checks.that(found == error, "another answer to sending");
}

/// Sends a TSDU on connection 1.
fn sends_one(carrier: &mut Carrier, tsdu: &[u8], error: Option<SendError>, checks: &Checks) {
    is_answered(carrier.send(Ref(1), tsdu), error, checks);
}

fn sends_long(
    carrier: &mut Carrier,
    alloc: Global,
    count: usize,
    error: Option<SendError>,
    checks: &Checks,
) {
    sends_one(
        carrier,
        octets(alloc, count, checks).as_slice(),
        error,
        checks,
    );
}

/// Sends a TSDU on connection 1 that is given away.
fn sends_owned(carrier: &mut Carrier, tsdu: Vec<u8>, checks: &Checks) {
    is_answered(carrier.send_owned(Ref(1), tsdu), None, checks);
}

/// Five octets in pieces of two, each after a head.
static PIECES: Pieces<'static> = Pieces {
    size: 2,
    first: &[0x46],
    middle: &[0x4D],
    last: &[0x4C],
    octets: &[0x41, 0x42, 0x43, 0x44, 0x45],
};

/// Sends them on connection 1 in one call.
fn sends_pieces(carrier: &mut Carrier, checks: &Checks) {
    is_answered(carrier.send_all_headed(Ref(1), &PIECES), None, checks);
}

/// A TSDU with these octets; an empty one if memory runs out.
fn copy(alloc: Global, octets: &[u8], checks: &Checks) -> Vec<u8> {
    let mut tsdu = Vec::new(alloc);
    checks.memory(tsdu.extend_from_slice(octets));
    tsdu
}

/// This many TSDUs of so many octets.
fn copies(alloc: Global, times: u16, count: usize, checks: &Checks) -> Vec<Vec<u8>> {
    let mut tsdus = Vec::new(alloc);
    for _ in 0..times {
        add(&mut tsdus, octets(alloc, count, checks), checks);
    }
    tsdus
}

/// Five TSDUs of one octet.
fn five(alloc: Global, checks: &Checks) -> Vec<Vec<u8>> {
    let mut tsdus = Vec::new(alloc);
    for octet in b"ABCDE" {
        add(&mut tsdus, copy(alloc, &[*octet], checks), checks);
    }
    tsdus
}

/// Sends TSDUs in one call. If memory runs out, nothing is written, and they are sent again as if for the first time.
fn sends_all(carrier: &mut Carrier, tsdus: &[Vec<u8>], error: Option<SendError>, checks: &Checks) {
    match carrier.send_all(Ref(1), tsdus) {
        Err(SendError::OutOfMemory) => sends_once_more(carrier, tsdus, checks),
        answer => is_answered(answer, error, checks),
    }
}

fn sends_once_more(carrier: &mut Carrier, tsdus: &[Vec<u8>], checks: &Checks) {
    let is_unwritten = carrier.outgoing().is_empty();
    checks.that(is_unwritten, "want of memory has written octets");
    is_answered(carrier.send_all(Ref(1), tsdus), None, checks);
}

fn sends_five(carrier: &mut Carrier, alloc: Global, checks: &Checks) {
    sends_all(carrier, five(alloc, checks).as_slice(), None, checks);
}

/// Sends copies of a TSDU in one call, and as many again that are given away.
fn sends_together(carrier: &mut Carrier, alloc: Global, times: u16, count: usize, checks: &Checks) {
    let lent = copies(alloc, times, count, checks);
    is_answered(carrier.send_all(Ref(1), lent.as_slice()), None, checks);
    is_answered(carrier.send_all_owned(Ref(1), lent), None, checks);
}

/// Sends TSDUs on connection 1.
pub(crate) fn sends(carrier: &mut Carrier, alloc: Global, sending: Sending, checks: &Checks) {
    match sending {
        Sending::One(tsdu, error) => sends_one(carrier, tsdu, error, checks),
        Sending::Long(count, error) => sends_long(carrier, alloc, count, error, checks),
        Sending::Owned(tsdu) => sends_owned(carrier, copy(alloc, tsdu, checks), checks),
        Sending::OwnedLong(count) => sends_owned(carrier, octets(alloc, count, checks), checks),
        Sending::Five => sends_five(carrier, alloc, checks),
        Sending::Together(times, count) => sends_together(carrier, alloc, times, count, checks),
        Sending::Nothing(error) => sends_all(carrier, &[], error, checks),
        Sending::Pieces => sends_pieces(carrier, checks),
    }
}
