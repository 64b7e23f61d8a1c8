//! TSDUs over a pair of carriers: the caller sends, the called end receives. All octets between them are taken from one
//! and fed to the other in pieces.

use crate::moved::Moved;
use osi_carrier::{Carrier, Event, FedLent, Lent, Ref};
use osi_class::Local;
use osi_tpdu::{SizeCode, Window};
use std::alloc::Global;

/// Takes a TSDU that is lent into a block of its own, and counts it.
fn count_lent(alloc: Global, lent: &Lent<'_>, moved: &mut Moved) {
    if let Ok(tsdu) = Vec::from_slice(alloc, lent.octets) {
        *moved = moved.with(tsdu.as_slice());
    }
}

/// Takes the next event, and counts its TSDU.
fn count(end: &mut Carrier, moved: &mut Moved) {
    if let Some(Event::Tsdu(_, tsdu)) = end.next_event() {
        *moved = moved.with(tsdu.as_slice());
    }
}

/// Carries the next octets of the backlog, at most this many, and counts a TSDU that arrives. False if the backlog was
/// empty.
fn carry_piece(
    alloc: Global,
    from: &mut Carrier,
    to: &mut Carrier,
    piece: usize,
    moved: &mut Moved,
) -> bool {
    let octets = from.outgoing();
    let octets_now = octets.len().min(piece);
    if octets_now == 0 {
        return false;
    }
    let FedLent { fed, lent } = to.feed_lent(&octets[..octets_now]);
    match lent {
        Some(lent) => count_lent(alloc, &lent, moved),
        None if fed.whole => count(to, moved),
        None => {}
    }
    from.taken(fed.used);
    true
}

/// Carries the whole backlog, if there is one. Each piece has at least one octet.
#[inline(always)]
fn carry(alloc: Global, from: &mut Carrier, to: &mut Carrier, piece: usize, moved: &mut Moved) {
    if !from.outgoing().is_empty() {
        carry_all(alloc, from, to, piece, moved);
    }
}

/// It is kept out of line, so that a way with nothing to carry costs no call.
#[inline(never)]
fn carry_all(alloc: Global, from: &mut Carrier, to: &mut Carrier, piece: usize, moved: &mut Moved) {
    for _ in 0..=from.outgoing().len() {
        if !carry_piece(alloc, from, to, piece, moved) {
            return;
        }
    }
}

/// Carries both ways until the caller's backlog is empty, at most this many times.
fn exchange(
    alloc: Global,
    caller: &mut Carrier,
    called: &mut Carrier,
    piece: usize,
    times: usize,
    moved: &mut Moved,
) {
    for _ in 0..=times {
        carry(alloc, caller, called, piece, moved);
        carry(alloc, called, caller, piece, moved);
        if caller.outgoing().is_empty() {
            return;
        }
    }
}

/// One class, the largest size and the largest window.
fn local(class_two: bool) -> Option<Local> {
    Some(Local {
        class0: !class_two,
        class2: class_two,
        size: SizeCode::new(13)?,
        window: Window::new(15)?,
    })
}

/// Opens one more connection.
fn open_one(
    alloc: Global,
    caller: &mut Carrier,
    called: &mut Carrier,
    moved: &mut Moved,
) -> Option<()> {
    caller.connect(None, None).ok()?;
    exchange(alloc, caller, called, 65_536, 1, moved);
    Some(())
}

/// Opens this many connections.
fn open_all(
    alloc: Global,
    caller: &mut Carrier,
    called: &mut Carrier,
    connections: u16,
    moved: &mut Moved,
) -> Option<()> {
    for _ in 0..connections {
        open_one(alloc, caller, called, moved)?;
    }
    Some(())
}

/// Moves a TSDU this many times over this many connections, in turn.
fn take_turns(
    alloc: Global,
    caller: &mut Carrier,
    called: &mut Carrier,
    tsdu: &[u8],
    rounds: usize,
    connections: u16,
    piece: usize,
    moved: &mut Moved,
) -> Option<()> {
    let mut reference = 0u16;
    for _ in 0..rounds {
        reference = if reference < connections {
            reference + 1
        } else {
            1
        };
        caller.send(Ref(reference), tsdu).ok()?;
        exchange(alloc, caller, called, piece, tsdu.len(), moved);
    }
    Some(())
}

/// Moves a TSDU this many times over two fresh ends.
fn over_ends(
    alloc: Global,
    caller: &mut Carrier,
    called: &mut Carrier,
    tsdu: &[u8],
    rounds: usize,
    connections: u16,
    piece: usize,
) -> Option<Moved> {
    let mut moved = Moved::nothing();
    open_all(alloc, caller, called, connections, &mut moved)?;
    take_turns(
        alloc,
        caller,
        called,
        tsdu,
        rounds,
        connections,
        piece,
        &mut moved,
    )?;
    Some(moved)
}

/// Moves a TSDU this many times over a pair of carriers with this many connections, at most 64, in turn. Octets are
/// carried in pieces of at most this many.
pub(crate) fn over_carriers(
    alloc: Global,
    tsdu: &[u8],
    rounds: usize,
    connections: u16,
    piece: usize,
    class_two: bool,
) -> Option<Moved> {
    let local = local(class_two)?;
    let mut caller = Carrier::caller(alloc, local);
    let mut called = Carrier::called(alloc, local);
    over_ends(
        alloc,
        &mut caller,
        &mut called,
        tsdu,
        rounds,
        connections,
        piece,
    )
}
