//! TSDUs over a pair of links: one sends, the other receives.

ghost use Rattle.osi_class.specs.Link.{FitsAUnit};

use crate::moved::Moved;
use osi_class::{Class0, Class2, Credit, Link, Out};
use osi_tpdu::{DataAcknowledgement, DataClass0, DataClass2, SizeCode, Tpdu, Window};
use std::alloc::Global;

/// The reference of all units of class 2.
const REFERENCE: u16 = 1;

/// The unit that a link gives, for its peer's reference.
fn unit_of(out: Out<'_>) -> Tpdu<'_>
    requires { FitsAUnit out }
{
    match out {
        Out::Data0 { end, octets } => Tpdu::Dt0(DataClass0 { end, user: octets }),
        Out::Data2 {
            number,
            end,
            octets,
        } => Tpdu::Dt2(DataClass2 {
            destination: REFERENCE,
            number,
            end,
            user: octets,
        }),
        Out::Ack { number, credit } => Tpdu::Ak(DataAcknowledgement {
            credit,
            destination: REFERENCE,
            number,
        }),
    }
}

/// Hands the next unit of one end to the other; false if there is none, or it is refused.
fn pass(from: &mut impl Link, to: &mut impl Link) -> bool {
    match from.next_out() {
        None => false,
        Some(out) => to.take(&unit_of(out)).is_ok(),
    }
}

/// Moves a TSDU over two ends of class 0. A unit has at least one octet, unless it is the only one.
fn move_class0(from: &mut Class0, to: &mut Class0, tsdu: &[u8]) -> Option<Vec<u8>> {
    from.send_tsdu(tsdu).ok()?;
    for _ in 0..=tsdu.len() {
        if !pass(from, to) {
            break;
        }
    }
    to.next_tsdu()
}

/// Moves a TSDU over two ends of class 2. Each unit is acknowledged.
fn move_class2(from: &mut Class2, to: &mut Class2, tsdu: &[u8]) -> Option<Vec<u8>> {
    from.send_tsdu(tsdu).ok()?;
    for _ in 0..=tsdu.len() {
        if !pass(from, to) || !pass(to, from) {
            break;
        }
    }
    to.next_tsdu()
}

/// Moves a TSDU this many times over two ends of class 0.
fn repeat_class0(from: &mut Class0, to: &mut Class0, tsdu: &[u8], rounds: usize) -> Moved {
    let mut moved = Moved::nothing();
    for _ in 0..rounds {
        if let Some(whole) = move_class0(from, to, tsdu) {
            moved = moved.with(whole.as_slice());
        }
    }
    moved
}

/// Moves a TSDU this many times over a pair of links of class 0.
pub(crate) fn over_class0(alloc: Global, tsdu: &[u8], rounds: usize) -> Moved {
    let mut from = Class0::new(alloc, SizeCode::new(13));
    let mut to = Class0::new(alloc, SizeCode::new(13));
    repeat_class0(&mut from, &mut to, tsdu, rounds)
}

/// Moves a TSDU this many times over two ends of class 2.
fn repeat_class2(from: &mut Class2, to: &mut Class2, tsdu: &[u8], rounds: usize) -> Moved {
    let mut moved = Moved::nothing();
    for _ in 0..rounds {
        if let Some(whole) = move_class2(from, to, tsdu) {
            moved = moved.with(whole.as_slice());
        }
    }
    moved
}

/// A link of class 2 with the largest size.
fn class2(alloc: Global, window: Window, credit: Credit) -> Class2 {
    Class2::new(alloc, SizeCode::new(13), window, credit)
}

/// Moves a TSDU this many times over a pair of links of class 2 with the largest window and first credit.
pub(crate) fn over_class2(alloc: Global, tsdu: &[u8], rounds: usize) -> Option<Moved> {
    let window = Window::new(15)?;
    let credit = Credit::new(15)?;
    let mut from = class2(alloc, window, credit);
    let mut to = class2(alloc, window, credit);
    Some(repeat_class2(&mut from, &mut to, tsdu, rounds))
}
