//! Data, minor synchronization points and their confirmations over a pair of stacks: the caller sends data and points,
//! the called end confirms. All octets between them are taken from one and fed to the other.

use bitflags::Flags;
use osi_carrier::Ref;
use osi_class::Local;
use osi_session::{Indication, Request, Sides};
use osi_spdu::{Requirements, Serial, Side, TokenSetting, TsduSize, TsduSizes, Wish};
use osi_stack::{Connect, Stack};
use osi_tpdu::{SizeCode, Window};
use std::alloc::Global;

/// Half-duplex and minor synchronize.
const UNITS: u16 = 0x0009;

/// The caller holds each token.
const WISHES: TokenSetting = TokenSetting {
    data_token: Wish::Asker,
    minor: Wish::Asker,
    major: Wish::Asker,
    release: Wish::Asker,
};

/// The caller holds each token.
const SIDES: Sides = Sides {
    data_token: Side::Asker,
    minor: Side::Asker,
    major: Side::Asker,
    release: Side::Asker,
};

/// A point that asks for its confirmation.
const MINOR: Request = Request::Minor {
    confirm: true,
    user_data: &[],
};

/// What users received: indications of data, of points and of confirmations, and the octets of data, each modulo 2^64.
#[derive(Clone, Copy)]
struct Shown {
    messages: u64,
    octets: u64,
}

/// The two ends, and what their users received.
#[derive(Drop)]
struct Ends {
    caller: Stack,
    called: Stack,
    shown: Shown,
}

/// With one more indication.
fn with(shown: Shown, indication: &Indication) -> Shown {
    let octets = match indication {
        Indication::Data { user_data } => user_data.as_slice().len() as u64,
        Indication::Minor { .. } | Indication::MinorConfirmed { .. } => 0,
        _ => return shown,
    };
    Shown {
        messages: shown.messages.wrapping_add(1),
        octets: shown.octets.wrapping_add(octets),
    }
}

/// Hands over octets of the backlog until an indication is pending, and returns whether one is; `None` if the backlog
/// was empty.
fn hand_over(from: &mut Stack, to: &mut Stack) -> Option<bool> {
    let octets = from.outgoing();
    if octets.is_empty() {
        return None;
    }
    let fed = to.feed(octets);
    from.taken(fed.used);
    Some(fed.whole)
}

/// Takes the next indication, if one is pending.
fn show(end: &mut Stack, shown: &mut Shown) {
    if let Some((_, indication)) = end.next_indication() {
        *shown = with(*shown, &indication);
    }
}

/// Carries octets of the backlog until an indication is pending; false if the backlog was empty.
fn carry_some(from: &mut Stack, to: &mut Stack, shown: &mut Shown) -> bool {
    let Some(whole) = hand_over(from, to) else {
        return false;
    };
    if whole {
        show(to, shown);
    }
    true
}

/// Carries the whole backlog.
fn carry(from: &mut Stack, to: &mut Stack, shown: &mut Shown) {
    for _ in 0..=from.outgoing().len() {
        if !carry_some(from, to, shown) {
            return;
        }
    }
}

/// Carries both ways until the caller's backlog is empty, at most this many times.
fn exchange(ends: &mut Ends, times: usize) {
    for _ in 0..=times {
        carry(&mut ends.caller, &mut ends.called, &mut ends.shown);
        carry(&mut ends.called, &mut ends.caller, &mut ends.shown);
        if ends.caller.outgoing().is_empty() {
            return;
        }
    }
}

/// One class, the largest size and the largest window.
fn local(class_two: bool) -> Option<Local> {
    Some(Local {
        class0: !class_two,
        class2: class_two,
        size: SizeCode::new(13)?,
        window: Window::new(15)?,
    })
}

/// A connection whose first point has number 0.
fn asked<'a>(serial: Serial, sizes: TsduSizes) -> Connect<'a> {
    Connect {
        requirements: Requirements::from_bits_retain(UNITS),
        serial,
        wishes: WISHES,
        calling_tsap: None,
        called_tsap: None,
        calling_selector: None,
        called_selector: None,
        sizes,
        user_data: &[],
    }
}

/// Accepts it.
fn accepted<'a>(serial: Serial) -> Request<'a> {
    Request::Accept {
        requirements: Requirements::from_bits_retain(UNITS),
        serial,
        sides: SIDES,
        sizes: TsduSizes::NONE,
        user_data: &[],
    }
}

/// Asks for one more connection.
fn ask(ends: &mut Ends, serial: Serial, sizes: TsduSizes) -> Option<Ref> {
    let reference = ends.caller.connect(&asked(serial, sizes)).ok()?;
    exchange(ends, 3);
    Some(reference)
}

/// Makes a call of the called end.
#[inline(always)]
fn answer(ends: &mut Ends, reference: Ref, request: Request) -> Option<()> {
    ends.called.call(reference, request).ok()?;
    exchange(ends, 3);
    Some(())
}

/// Opens one more connection.
fn open_one(ends: &mut Ends, serial: Serial, sizes: TsduSizes) -> Option<()> {
    let reference = ask(ends, serial, sizes)?;
    answer(ends, reference, accepted(serial))
}

/// Sends data on a connection.
fn data(ends: &mut Ends, reference: Ref, user_data: &[u8]) -> Option<()> {
    ends.caller
        .call(reference, Request::Data { user_data })
        .ok()?;
    exchange(ends, user_data.len());
    Some(())
}

/// A point on a connection: its number.
fn point(ends: &mut Ends, reference: Ref) -> Option<u32> {
    let number = ends.caller.next_serial(reference);
    ends.caller.call(reference, MINOR).ok()?;
    exchange(ends, 3);
    Some(number)
}

/// A point on a connection, and its confirmation.
fn confirmed(ends: &mut Ends, reference: Ref) -> Option<()> {
    let number = point(ends, reference)?;
    let confirm = Request::MinorConfirm {
        number,
        user_data: &[],
    };
    answer(ends, reference, confirm)
}

/// Data and, if points are made, a point and its confirmation.
fn round(ends: &mut Ends, reference: Ref, user_data: &[u8], points: bool) -> Option<()> {
    data(ends, reference, user_data)?;
    if points {
        confirmed(ends, reference)?;
    }
    Some(())
}

/// Two fresh ends.
fn fresh(alloc: Global, local: Local) -> Ends {
    Ends {
        caller: Stack::caller(alloc, local),
        called: Stack::called(alloc, local),
        shown: Shown {
            messages: 0,
            octets: 0,
        },
    }
}

/// Opens this many connections. A TSDU has at most `size` octets, 0 for no limit.
fn open_all(ends: &mut Ends, connections: u16, size: u16) -> Option<()> {
    let size = TsduSize::new(size)?;
    let sizes = TsduSizes {
        from_asker: size,
        from_answerer: size,
    };
    let serial = Serial::new(0)?;
    for _ in 0..connections {
        open_one(ends, serial, sizes)?;
    }
    Some(())
}

/// This many rounds over the connections from the first to the last of these, in turn.
fn take_turns(
    ends: &mut Ends,
    user_data: &[u8],
    rounds: usize,
    first: u16,
    last: u16,
    points: bool,
) -> Option<()> {
    let mut reference = first;
    for _ in 0..rounds {
        round(ends, Ref(reference), user_data, points)?;
        reference = if reference < last {
            reference + 1
        } else {
            first
        };
    }
    Some(())
}

/// This many rounds over two fresh ends; a checksum of what their users received.
fn over_ends(
    ends: &mut Ends,
    user_data: &[u8],
    rounds: usize,
    connections: u16,
    first: u16,
    points: bool,
    size: u16,
) -> Option<u64> {
    open_all(ends, connections, size)?;
    take_turns(ends, user_data, rounds, first, connections, points)?;
    let Shown { messages, octets } = ends.shown;
    Some(messages.wrapping_mul(1_000_003).wrapping_add(octets))
}

/// This many rounds over a pair of stacks with this many connections, at most 64: those from the `first` to the last are
/// used, in turn. A checksum of what their users received. A TSDU has at most `size` octets, 0 for no limit.
pub(crate) fn over_stacks(
    alloc: Global,
    user_data: &[u8],
    rounds: usize,
    connections: u16,
    first: u16,
    class_two: bool,
    points: bool,
    size: u16,
) -> Option<u64> {
    let local = local(class_two)?;
    let mut ends = fresh(alloc, local);
    over_ends(
        &mut ends,
        user_data,
        rounds,
        connections,
        first,
        points,
        size,
    )
}
