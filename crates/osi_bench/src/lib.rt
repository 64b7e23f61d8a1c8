//! The work that the benchmarks measure, as C functions over octets and numbers. Each returns a checksum of what it
//! saw, so that no work can be optimised away. A program of `trials/` uses the module `round_trips`.
#![tactic(auto)]

mod carriers;
mod links;
mod moved;
mod round_trips;
mod sessions;
mod stacks;
mod tsdus;
mod units;
mod writes;

use osi_tpkt::Cutter;
use std::alloc::Global;
use units::Sum;

/// What a run saw: packets, and octets of their transport units, each modulo 2^64.
#[derive(Clone, Copy)]
struct Seen {
    packets: u64,
    octets: u64,
}

/// Feeds one piece of a stream, and takes each packet that it completes.
fn feed_piece(cutter: &mut Cutter, piece: &[u8], seen: &mut Seen) {
    let mut rest = piece;
    for _ in 0..=piece.len() {
        let Ok(fed) = cutter.feed(rest) else {
            return;
        };
        if !fed.whole {
            return;
        }
        if let Some(unit) = cutter.packet() {
            seen.packets = seen.packets.wrapping_add(1);
            seen.octets = seen.octets.wrapping_add(unit.len() as u64);
        }
        cutter.advance();
        rest = &rest[fed.used..];
    }
}

/// Cuts a stream fed in pieces of this many octets, and returns a checksum of what was seen. The last piece may be
/// shorter; 0 counts as 1.
#[unsafe(no_mangle)]
pub extern "C" fn osi_bench_cut(alloc: Global, stream: &[u8], piece: usize) -> u64 {
    let mut cutter = Cutter::new(alloc);
    let mut seen = Seen {
        packets: 0,
        octets: 0,
    };
    for octets in stream.chunks(piece.max(1)) {
        feed_piece(&mut cutter, octets, &mut seen);
    }
    seen.packets
        .wrapping_mul(1_000_003)
        .wrapping_add(seen.octets)
}

/// Reads the units of consecutive packets with these lengths, up to the first that exceeds the octets, and returns a
/// checksum of what was seen.
#[unsafe(no_mangle)]
pub extern "C" fn osi_bench_units(packets: &[u8], lengths: &[usize]) -> u64 {
    let mut sum = Sum::zero();
    let mut rest = packets;
    for length in lengths {
        let Some((packet, behind)) = rest.split_at_checked(*length) else {
            break;
        };
        sum = sum.with_packet(packet);
        rest = behind;
    }
    sum.number()
}

/// Reads a TSDU this many times, and returns a checksum of what was seen. If the checksum is 0 so far, a round reads no
/// octets instead of the TSDU: so each round depends on the one before.
#[unsafe(no_mangle)]
pub extern "C" fn osi_bench_tsdus(tsdu: &[u8], rounds: usize) -> u64 {
    let mut sum = Sum::zero().with(1, 1);
    for _ in 0..rounds {
        let octets = if sum.number() == 0 { &[] } else { tsdu };
        sum = sum.with_tsdu(octets);
    }
    sum.number()
}

/// Reads a TSDU, writes its units this many times, and returns a checksum of the octets; 0 if the TSDU holds no units.
#[unsafe(no_mangle)]
pub extern "C" fn osi_bench_writes(alloc: Global, tsdu: &[u8], rounds: usize) -> u64 {
    match writes::written(alloc, tsdu, rounds) {
        Some(number) => number,
        None => 0,
    }
}

/// Does a part of a round this many times over a pair of sessions, and returns the number of octets of the TSDUs.
#[unsafe(no_mangle)]
pub extern "C" fn osi_bench_sessions(
    alloc: Global,
    data: &[u8],
    rounds: usize,
    part: usize,
) -> u64 {
    sessions::over_a_connection(alloc, data, rounds, part)
}

/// Does this many rounds over a pair of stacks with this many connections, in class 2 or class 0, and returns a
/// checksum of what their users received. A round sends data and, if points are made, a point and its confirmation. The
/// rounds take turns over the connections from the `first` to the last; the first of all is 1. A TSDU has at most
/// `size` octets, 0 for no limit: longer data is sent in parts.
#[unsafe(no_mangle)]
pub extern "C" fn osi_bench_stacks(
    alloc: Global,
    data: &[u8],
    rounds: usize,
    connections: u16,
    first: u16,
    class_two: bool,
    points: bool,
    size: u16,
) -> u64 {
    match stacks::over_stacks(
        alloc,
        data,
        rounds,
        connections,
        first,
        class_two,
        points,
        size,
    ) {
        Some(number) => number,
        None => 0,
    }
}

/// Moves a TSDU this many times over a pair of links of class 2 or class 0, and returns a checksum of what was
/// received.
#[unsafe(no_mangle)]
pub extern "C" fn osi_bench_links(
    alloc: Global,
    tsdu: &[u8],
    rounds: usize,
    class_two: bool,
) -> u64 {
    if !class_two {
        return links::over_class0(alloc, tsdu, rounds).number();
    }
    match links::over_class2(alloc, tsdu, rounds) {
        Some(moved) => moved.number(),
        None => 0,
    }
}

/// Moves a TSDU this many times over a pair of carriers with this many connections, in class 2 or class 0, in pieces of
/// at most this many octets, and returns a checksum of what was received.
#[unsafe(no_mangle)]
pub extern "C" fn osi_bench_carriers(
    alloc: Global,
    tsdu: &[u8],
    rounds: usize,
    connections: u16,
    piece: usize,
    class_two: bool,
) -> u64 {
    match carriers::over_carriers(alloc, tsdu, rounds, connections, piece, class_two) {
        Some(moved) => moved.number(),
        None => 0,
    }
}
