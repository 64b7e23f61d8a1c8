//! Data, a minor synchronization point and its confirmation over a pair of sessions, by the calls that an end makes. As
//! there, data leaves after its head; here both are written into a buffer that is kept, where an end has its packet.

ghost use Rattle.std.specs.Prelude.{◌≡◌, true};
ghost use Rattle.osi_session.specs.Points.{may_advance};

use bitflags::Flags;
use bytes::BytesMut;
use osi_message::{LentTsdus, Sent};
use osi_session::{Opening, PlannedPoint, Request, Session, Sides};
use osi_spdu::{Requirements, Serial, Side, TokenSetting, TsduSizes, Wish};
use std::alloc::Global;

/// Half-duplex and minor synchronize.
const UNITS: u16 = 0x0009;

/// The caller holds each token.
const WISHES: TokenSetting = TokenSetting {
    data_token: Wish::Asker,
    minor: Wish::Asker,
    major: Wish::Asker,
    release: Wish::Asker,
};

/// The caller holds each token.
const SIDES: Sides = Sides {
    data_token: Side::Asker,
    minor: Side::Asker,
    major: Side::Asker,
    release: Side::Asker,
};

/// The two sides of a connection, and the buffer for data with its head.
#[derive(Drop)]
struct Ends {
    caller: Session,
    called: Session,
    out: BytesMut,
}

/// Hands a TSDU to a side; false if the side answers it, or indicates nothing.
fn pass(tsdu: &[u8], to: &mut Session) -> bool {
    match to.take_tsdu(tsdu) {
        Ok(taken) => taken.first.is_some() && taken.reply.is_none(),
        Err(_) => false,
    }
}

/// Hands what was sent to the other side, and returns the length of the TSDU.
fn hand(sent: &Sent, to: &mut Session) -> Option<usize> {
    match sent.tsdus() {
        LentTsdus::One(tsdu) if pass(tsdu, to) => Some(tsdu.len()),
        _ => None,
    }
}

/// Makes a call at one side, hands what it sends to the other, and returns the length of the TSDU.
fn tell(from: &mut Session, request: Request, to: &mut Session) -> Option<usize> {
    let sent = from.call(request).ok()?;
    hand(&sent, to)
}

/// The length of the TSDU, which is not delivered.
fn length_of(sent: &Sent) -> Option<usize> {
    match sent.tsdus() {
        LentTsdus::One(tsdu) => Some(tsdu.len()),
        _ => None,
    }
}

/// The call for data, as an end makes it: the head of its TSDU is written into the buffer, and the data stays where it
/// is. Returns the length of the TSDU.
fn data(from: &Session, user_data: &[u8], out: &mut BytesMut) -> Option<usize> {
    let head = from.data_head(user_data)?;
    out.clear();
    out.reserve(head.len()).ok()?;
    out.extend_reserved(head);
    head.len().checked_add(user_data.len())
}

/// The same call, and the data is written after its head.
fn data_written(from: &Session, user_data: &[u8], out: &mut BytesMut) -> Option<usize> {
    let head = from.data_head(user_data)?;
    let octets = head.len().checked_add(user_data.len())?;
    out.clear();
    out.reserve(octets).ok()?;
    out.extend_reserved(head);
    out.extend_reserved(user_data);
    Some(octets)
}

/// The same, and the TSDU is handed to the other side.
fn data_handed(ends: &mut Ends, user_data: &[u8]) -> Option<usize> {
    let octets = data_written(&ends.caller, user_data, &mut ends.out)?;
    if !pass(ends.out.as_slice(), &mut ends.called) {
        return None;
    }
    Some(octets)
}

/// The call for data that returns its TSDU in a block of its own. What owns a block is kept out of line: otherwise each part
/// of a round would clear the room for it.
#[inline(never)]
fn data_owned(from: &Session, user_data: &[u8]) -> Option<usize> {
    let sent = from.call_data(user_data).ok()?;
    length_of(&sent)
}

/// Continues after a planned point, as an end does once it has sent it.
fn go_on(from: &mut Session, plan: PlannedPoint) -> Sent
    requires { may_advance from.old.state plan.point ≡ true }
{
    let PlannedPoint { sent, point } = plan;
    if !from.advance(point) {
        unreachable!()
    }
    sent
}

/// The call for a point that asks for its confirmation, as an end makes it.
fn point(from: &mut Session) -> Option<Sent> {
    let plan = from.plan_minor(true, &[]).ok()?;
    Some(go_on(from, plan))
}

/// The call for a point; the length of its TSDU, which is not delivered.
#[inline(never)]
fn point_called(from: &mut Session) -> Option<usize> {
    length_of(&point(from)?)
}

/// The same, and the TSDU is handed to the other side.
#[inline(never)]
fn point_handed(ends: &mut Ends) -> Option<usize> {
    hand(&point(&mut ends.caller)?, &mut ends.called)
}

/// The call that confirms this point, as an end makes it.
fn confirmation(from: &mut Session, number: u32) -> Option<Sent> {
    let plan = from.plan_minor_confirm(number, &[]).ok()?;
    Some(go_on(from, plan))
}

/// Sends the CN.
fn ask(caller: &mut Session, called: &mut Session) -> Option<usize> {
    let connect = caller.opened()?;
    hand(&connect, called)
}

/// Sends the CN, and accepts it.
fn open(caller: &mut Session, called: &mut Session, serial: Serial) -> Option<usize> {
    ask(caller, called)?;
    let accept = Request::Accept {
        requirements: Requirements::from_bits_retain(UNITS),
        serial,
        sides: SIDES,
        sizes: TsduSizes::NONE,
        user_data: &[],
    };
    tell(called, accept, caller)
}

/// A connection whose first point has number 0.
fn connected(alloc: Global) -> Option<Ends> {
    let serial = Serial::new(0)?;
    let opening = Opening {
        requirements: Requirements::from_bits_retain(UNITS),
        serial,
        wishes: WISHES,
        calling_selector: None,
        called_selector: None,
        sizes: TsduSizes::NONE,
        user_data: &[],
    };
    let mut caller = Session::caller(alloc, &opening).ok()?;
    let mut called = Session::called(alloc);
    match open(&mut caller, &mut called, serial) {
        Some(_) => Some(Ends {
            caller,
            called,
            out: BytesMut::new(alloc),
        }),
        None => None,
    }
}

/// A point and its confirmation, which is handed over or not; the octets of both TSDUs.
fn confirmed(ends: &mut Ends, handed: bool) -> Option<usize> {
    let number = ends.caller.next_serial();
    let first = hand(&point(&mut ends.caller)?, &mut ends.called)?;
    let answer = confirmation(&mut ends.called, number)?;
    let second = if handed {
        hand(&answer, &mut ends.caller)?
    } else {
        length_of(&answer)?
    };
    first.checked_add(second)
}

/// A part of a round, and the octets of its TSDUs. 0 sends data, 7 also writes it after its head, and 1 then hands it
/// over; 2 sends a point, and 3 hands it over too; 4 hands a point over and sends its confirmation, and 5 hands both over;
/// 8 sends data in a block of its own; any other number does 1 and 5. It is kept out of line, as in C: so nothing that it
/// tests is taken out of the loop over rounds.
#[inline(never)]
fn part(ends: &mut Ends, user_data: &[u8], number: usize) -> Option<usize> {
    match number {
        0 => data(&ends.caller, user_data, &mut ends.out),
        1 => data_handed(ends, user_data),
        2 => point_called(&mut ends.caller),
        3 => point_handed(ends),
        4 => confirmed(ends, false),
        5 => confirmed(ends, true),
        7 => data_written(&ends.caller, user_data, &mut ends.out),
        8 => data_owned(&ends.caller, user_data),
        _ => {
            let octets = data_handed(ends, user_data)?;
            octets.checked_add(confirmed(ends, true)?)
        }
    }
}

/// This many rounds of this part over a new connection; the octets of their TSDUs modulo 2^64, up to the first round
/// that fails.
pub(crate) fn over_a_connection(alloc: Global, data: &[u8], rounds: usize, number: usize) -> u64 {
    match connected(alloc) {
        Some(mut ends) => repeated(&mut ends, data, rounds, number),
        None => 0,
    }
}

fn repeated(ends: &mut Ends, data: &[u8], rounds: usize, number: usize) -> u64 {
    let mut octets: u64 = 0;
    for _ in 0..rounds {
        let Some(more) = part(ends, data, number) else {
            break;
        };
        octets = octets.wrapping_add(more as u64);
    }
    octets
}
