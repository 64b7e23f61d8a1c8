//! Session units: sets, bounds and constructors. What is read and written is in the files of `osi_runs`.

use crate::checks::Checks;
use bitflags::Flags;
use bytes::BytesMut;
use osi_spdu::*;
use osi_tpkt::Unit;
use std::test::Fail;

/// A CN: units 00B9, serial 1, each token for the asker.
const CONNECT: [u8; 20] = [
    0x0D, 0x12, 0x05, 0x0C, 0x13, 0x01, 0x00, 0x16, 0x01, 0x02, 0x17, 0x01, 0x31, 0x1A, 0x01, 0x00,
    0x14, 0x02, 0x00, 0xB9,
];

/// The units of a TSDU have this as their written form.
fn is_written_again(out: &mut BytesMut, tsdu: &[u8], checks: &Checks) {
    let Ok(group) = read_tsdu(tsdu) else {
        return checks.that(false, "the TSDU is not read");
    };
    checks.memory(group.write(out));
    checks.that(group.written_len() == tsdu.len(), "another written length");
    checks.that(out.as_slice() == tsdu, "another written form");
}

#[test]
fn a_connect_is_written_as_it_is_read(rt: HostRuntime) -> Result<(), Fail> {
    let checks = Checks::new();
    is_written_again(&mut BytesMut::new(rt.alloc()), &CONNECT, &checks);
    checks.end()
}

/// The kind of the second unit of a minor point after a token unit.
fn kind_behind_a_token_unit(number: Serial) -> Option<Kind> {
    let group = Group::behind_give_tokens(Spdu::minor_point(None, number, &[0x5A]));
    match group.behind().next() {
        Some(unit) => Some(unit.kind()),
        None => None,
    }
}

/// Whether this is a minor point, which has room for four parameters.
fn is_minor_point(kind: Option<Kind>) -> bool {
    match kind {
        Some(kind) => matches!(kind, Kind::MinorSyncPoint) && kind.codes().len() == 4,
        None => false,
    }
}

/// A minor point after a token unit is the second unit.
#[test]
fn a_minor_point_stands_behind_a_token_unit(rt: HostRuntime) {
    let is_such = match Serial::new(1) {
        Some(number) => is_minor_point(kind_behind_a_token_unit(number)),
        None => false,
    };
    assert!(rt; is_such);
}

#[test]
fn sets_of_tokens(rt: HostRuntime) {
    let tokens = TokenSet::DATA.union(TokenSet::RELEASE);
    assert!(rt; tokens.contains(TokenSet::RELEASE) && !tokens.contains(TokenSet::MINOR));
    let others = tokens.difference(TokenSet::DATA);
    let common = tokens.intersection(TokenSet::DATA);
    let all = TokenSet::from_bits_truncate(0xFF);
    assert!(rt;
        [tokens.bits(), others.bits(), common.bits(), all.bits()] == [0x41, 0x40, 0x01, 0x55]
    );
}

#[test]
fn sets_of_units(rt: HostRuntime) {
    let units = Requirements::HALF_DUPLEX.union(Requirements::MAJOR);
    let all = Requirements::from_bits_retain(0xFFFF);
    assert!(rt; units.intersects(Requirements::MAJOR.union(Requirements::MINOR)));
    assert!(rt; [units.bits(), all.bits()] == [0x0011, 0xFFFF]);
}

/// The bits of the functional units (X.225 section 8, session user requirements), and what is reported of them.
static BITS: [(Requirements, u16, &str); 11] = [
    (Requirements::HALF_DUPLEX, 0x0001, "half-duplex"),
    (Requirements::DUPLEX, 0x0002, "duplex"),
    (Requirements::EXPEDITED, 0x0004, "expedited data"),
    (Requirements::MINOR, 0x0008, "minor points"),
    (Requirements::MAJOR, 0x0010, "major points"),
    (Requirements::RESYNCHRONIZE, 0x0020, "resynchronize"),
    (Requirements::ACTIVITY, 0x0040, "activities"),
    (
        Requirements::NEGOTIATED_RELEASE,
        0x0080,
        "negotiated release",
    ),
    (Requirements::CAPABILITY, 0x0100, "capability data"),
    (Requirements::EXCEPTIONS, 0x0200, "exceptions"),
    (Requirements::TYPED_DATA, 0x0400, "typed data"),
];

#[test]
fn each_functional_unit_has_its_bit() -> Result<(), Fail> {
    let checks = Checks::new();
    for (units, bits, name) in &BITS {
        checks.that(units.bits() == *bits, name);
    }
    checks.end()
}

/// Whether these are a serial number and one that is too great.
fn serials_are_bounded() -> bool {
    Serial::new(999_999).is_some() && Serial::new(1_000_000).is_none()
}

fn selectors_are_bounded() -> bool {
    Selector::new(&[0; 16]).is_some() && Selector::new(&[0; 17]).is_none()
}

/// Numbers of octets, and whether they are the size of a TSDU.
static SIZES: [(u16, bool); 4] = [(0, true), (63, false), (64, true), (65_535, true)];

fn sizes_are_bounded(checks: &Checks) {
    for (octets, is_size) in &SIZES {
        checks.that(TsduSize::new(*octets).is_some() == *is_size, "another size");
    }
}

#[test]
fn numbers_selectors_sizes_and_wishes() -> Result<(), Fail> {
    let checks = Checks::new();
    checks.that(serials_are_bounded(), "another serial number");
    checks.that(selectors_are_bounded(), "another selector");
    sizes_are_bounded(&checks);
    checks.that(Wish::from(Side::Answerer) == Wish::Answerer, "another wish");
    checks.end()
}
