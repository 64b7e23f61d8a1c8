//! Transport units, read and written.

ghost use Rattle.std.specs.Prelude.{IfSome};
ghost use Rattle.osi_tpdu.specs.View.{value};
ghost use Rattle.osi_tpdu.specs.Writing.{HasRoom, Fits};

use crate::checks::Checks;
use crate::packets::is_appended;
use bytes::BytesMut;
use osi_tpdu::*;
use osi_tpkt::Unit;
use std::alloc::Global;
use std::test::Fail;

// Transport units in their written form.
static WRITTEN: [&[u8]; 16] = [
    &[
        0x11, 0xE0, 0, 0, 0, 1, 0, 0xC0, 1, 0x0A, 0xC1, 2, 1, 0, 0xC2, 2, 1, 2,
    ],
    &[
        0x11, 0xD0, 0, 1, 0, 1, 0, 0xC0, 1, 0x0A, 0xC1, 2, 1, 0, 0xC2, 2, 1, 2,
    ],
    &[
        0x0F, 0xE3, 0, 0, 0, 1, 0x20, 0xC0, 1, 0x0A, 0xC6, 1, 0, 0xC7, 1, 0,
    ],
    &[0x0C, 0xD4, 0, 1, 0, 1, 0x20, 0xC0, 1, 0x0A, 0xC6, 1, 0],
    &[0x09, 0xD0, 0, 1, 0, 1, 0, 0xC0, 1, 0x0A],
    &[0x06, 0x80, 0, 1, 0, 0, 0x82],
    &[0x06, 0x80, 0, 2, 0, 2, 0x85],
    &[0x06, 0x80, 0, 2, 0, 2, 0x80],
    &[0x05, 0xC0, 0, 2, 0, 2],
    &[0x02, 0xF0, 0x80, 1, 0, 1, 0, 0x41, 0x42],
    &[0x02, 0xF0, 0x80],
    &[0x02, 0xF0, 0, 1, 0, 1, 0],
    &[0x02, 0xF0, 0x80, 0x0A, 0],
    &[0x04, 0xF0, 0, 1, 0, 1, 0, 1, 0],
    &[0x04, 0xF0, 0, 1, 0x81, 7],
    &[0x04, 0x61, 0, 1, 5],
];

/// The unit of a packet that has no other; `None` is reported.
pub(crate) fn only_unit<'a>(packet: &'a [u8], checks: &Checks) -> Option<Tpdu<'a>>
    ensures fits { IfSome result (λ unit. Fits (value unit)) }
    ensures room { IfSome result (λ unit. HasRoom (value unit)) }
{
    let unit = single(packet);
    checks.that(unit.is_some(), "other than one transport unit");
    unit
}

/// The unit of a packet, if it is read and has no other.
fn single(packet: &[u8]) -> Option<Tpdu<'_>>
    ensures fits { IfSome result (λ unit. Fits (value unit)) }
    ensures room { IfSome result (λ unit. HasRoom (value unit)) }
{
    let Ok(mut units) = read_units(packet) else {
        return None;
    };
    let first = units.next();
    match units.next() {
        None => first,
        Some(_) => None,
    }
}

/// A unit has this written form.
fn is_written(out: &mut BytesMut, unit: &Tpdu<'_>, octets: &[u8], checks: &Checks)
    requires { HasRoom (value unit.now) }
{
    checks.memory(write(unit, out));
    checks.that(out.as_slice() == octets, "another written form");
}

/// A packet has exactly this unit.
fn has_unit(packet: &[u8], unit: &Tpdu<'_>, checks: &Checks) {
    if let Some(found) = only_unit(packet, checks) {
        checks.that(found == *unit, "another unit");
    }
}

/// Octets are one unit, and its written form.
fn is_its_own(out: &mut BytesMut, octets: &[u8], checks: &Checks) {
    let Some(unit) = only_unit(octets, checks) else {
        return;
    };
    checks.that(written_len(&unit) == octets.len(), "another written length");
    is_written(out, &unit, octets, checks);
    has_unit(out.as_slice(), &unit, checks);
}

fn comes_back(alloc: Global, octets: &[u8], checks: &Checks) {
    is_its_own(&mut BytesMut::new(alloc), octets, checks);
}

fn all_come_back(alloc: Global, checks: &Checks) {
    for octets in &WRITTEN {
        comes_back(alloc, octets, checks);
    }
}

/// A DT of class 0 of the greatest length comes back.
fn the_longest_comes_back(alloc: Global, checks: &Checks) {
    let mut longest = Vec::new(alloc);
    checks.memory(longest.extend_from_slice(&[0x02, 0xF0, 0x80]));
    checks.memory(longest.extend_from_slice(&[0x5A; 65_528]));
    comes_back(alloc, longest.as_slice(), checks);
}

#[test]
fn written_units_come_back(rt: HostRuntime) -> Result<(), Fail> {
    let checks = Checks::new();
    all_come_back(rt.alloc(), &checks);
    the_longest_comes_back(rt.alloc(), &checks);
    checks.end()
}

/// DST-REF 1234, then C6, an unknown parameter, C0, C7 and two octets of user data.
const REQUEST: [u8; 21] = [
    0x12, 0xE7, 0x12, 0x34, 0xAB, 0xCD, 0x4E, 0xC6, 1, 3, 0x85, 0, 0xC0, 1, 7, 0xC7, 2, 0x20, 0, 8,
    9,
];

/// The same in its written form.
const REQUEST_WRITTEN: [u8; 19] = [
    0x10, 0xE7, 0, 0, 0xAB, 0xCD, 0x4E, 0xC0, 1, 7, 0xC6, 1, 3, 0xC7, 2, 0x20, 0, 8, 9,
];

/// The one unit of a packet has this written form.
fn is_written_so(out: &mut BytesMut, packet: &[u8], octets: &[u8], checks: &Checks) {
    if let Some(unit) = only_unit(packet, checks) {
        is_written(out, &unit, octets, checks);
    }
}

fn has_the_spelling(alloc: Global, packet: &[u8], octets: &[u8], checks: &Checks) {
    is_written_so(&mut BytesMut::new(alloc), packet, octets, checks);
}

/// Transport units as they are read, and in their written form: a CR; a CC with a selector and user data; a DR with an
/// unknown parameter; an ER; and a DT of class 0 with ignored bits.
static SPELLINGS: [(&[u8], &[u8]); 5] = [
    (&REQUEST, &REQUEST_WRITTEN),
    (
        &[0x0A, 0xD4, 0, 1, 0, 2, 0x20, 0xC1, 2, 1, 0, 9],
        &[0x0A, 0xD4, 0, 1, 0, 2, 0x20, 0xC1, 2, 1, 0, 9],
    ),
    (
        &[0x08, 0x80, 0, 1, 0, 2, 0x85, 0xE0, 0, 7],
        &[0x06, 0x80, 0, 1, 0, 2, 0x85, 7],
    ),
    (&[0x04, 0x70, 0, 3, 2], &[0x04, 0x70, 0, 3, 2]),
    (&[0x02, 0xF0, 0x7F, 5], &[0x02, 0xF0, 0, 5]),
];

fn all_have_one_spelling(alloc: Global, checks: &Checks) {
    for (octets, written) in &SPELLINGS {
        has_the_spelling(alloc, octets, written, checks);
    }
}

#[test]
fn units_are_written_in_one_spelling(rt: HostRuntime) -> Result<(), Fail> {
    let checks = Checks::new();
    all_have_one_spelling(rt.alloc(), &checks);
    checks.end()
}

/// The unit of any grammar at the front, if it has this many octets.
fn front<'a, U: Unit<'a>>(octets: &'a [u8], count: usize) -> Option<U> {
    match U::read(octets) {
        Ok(Some((unit, used))) if used == count => Some(unit),
        _ => None,
    }
}

/// A transport unit is at the front, has this many octets, and may be followed by another or not.
fn is_at_the_front(octets: &[u8], count: usize, may_be_followed: bool, checks: &Checks) {
    let unit: Option<Tpdu> = front(octets, count);
    let is_such = match unit {
        Some(unit) => unit.may_be_followed() == may_be_followed,
        None => false,
    };
    checks.that(is_such, "another unit at the front");
}

/// The high bit of the number of an AK is ignored.
fn is_an_ack(out: &mut BytesMut, checks: &Checks) {
    if let Some(ack) = only_unit(&[0x04, 0x61, 0, 1, 0x85], checks) {
        checks.made(
            is_appended(&ack, &[0x04, 0x61, 0, 1, 5], out),
            "another written form",
        );
    }
}

#[test]
fn a_unit_at_the_front(rt: HostRuntime) -> Result<(), Fail> {
    let checks = Checks::new();
    // Anything may follow an AK; a DT extends to the end.
    is_at_the_front(&[0x04, 0x61, 0, 1, 0x85, 0xFF], 5, true, &checks);
    is_at_the_front(&[0x02, 0xF0, 0x80, 0xFF], 4, false, &checks);
    is_an_ack(&mut BytesMut::new(rt.alloc()), &checks);
    checks.end()
}

/// Codes, and how many octets their sizes have.
static SIZES: [(u8, Option<usize>); 4] = [(6, None), (7, Some(128)), (13, Some(8192)), (14, None)];

/// A code is that of a size of this many octets, or of no size.
fn is_size(code: u8, octets: Option<usize>) -> bool {
    match SizeCode::new(code) {
        Some(size) => size.code() == code && Some(size.octets()) == octets,
        None => octets.is_none(),
    }
}

fn sizes_have_bounds(checks: &Checks) {
    for (code, octets) in &SIZES {
        checks.that(is_size(*code, *octets), "another size");
    }
}

/// Whether a number of units is a window.
fn is_window(units: u8) -> bool {
    match Window::new(units) {
        Some(window) => window.units() == units,
        None => false,
    }
}

fn windows_have_bounds() -> bool {
    is_window(15) && Window::new(0).is_none() && Window::new(16).is_none()
}

#[test]
fn sizes_and_windows_have_bounds() -> Result<(), Fail> {
    let checks = Checks::new();
    sizes_have_bounds(&checks);
    checks.that(windows_have_bounds(), "another window");
    checks.end()
}

/// Octets are too long for a selector.
fn is_too_long(octets: &[u8]) -> bool {
    Tsap::new(octets).is_none() && Selector::new(octets).is_none()
}

/// A transport address keeps these octets.
fn keeps(octets: &[u8]) -> bool {
    match Tsap::new(octets) {
        Some(tsap) => tsap.octets() == octets && tsap.selector().octets() == octets,
        None => false,
    }
}

/// Whether addresses are equal exactly if their octets are.
fn octets_tell_addresses_apart() -> bool {
    let address = Tsap::new(&[1, 2]);
    address == Tsap::new(&[1, 2]) && address != Tsap::new(&[1, 2, 0])
}

#[test]
fn selectors_have_a_bound(rt: HostRuntime) {
    assert!(rt; is_too_long(&[7; 33]) && keeps(&[7; 32]) && keeps(&[]));
    assert!(rt; octets_tell_addresses_apart());
}

#[test]
fn laws_can_be_called() {
    laws::one_unit();
    laws::whole_packet();
    laws::written_form();
}
