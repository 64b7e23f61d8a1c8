//! Judges of byte connections: what a bound counts, and what is read and kept if memory is ample.

use crate::checks::{Checks, OUT_OF_MEMORY};
use crate::sessions::cut;
use Direction::{Left, Right};
use osi_judge::{Found, Judge, Outcome};
use osi_side::{Direction, Finding};
use std::alloc::Global;
use std::test::Fail;

/// A CR for class 0 with the reference 1.
pub(crate) const CR: &[u8] = &[
    0x03, 0x00, 0x00, 0x0E, 0x09, 0xE0, 0x00, 0x00, 0x00, 0x01, 0x00, 0xC0, 0x01, 0x0A,
];
/// The CC for it, with the reference 1.
pub(crate) const CC: &[u8] = &[
    0x03, 0x00, 0x00, 0x0E, 0x09, 0xD0, 0x00, 0x01, 0x00, 0x01, 0x00, 0xC0, 0x01, 0x0A,
];
/// A CN: duplex alone.
const CN: &[u8] = &[
    0x03, 0x00, 0x00, 0x15, 0x02, 0xF0, 0x80, 0x0D, 0x0C, 0x05, 0x06, 0x13, 0x01, 0x01, 0x16, 0x01,
    0x02, 0x14, 0x02, 0x00, 0x02,
];
/// The AC that accepts it.
const AC: &[u8] = &[
    0x03, 0x00, 0x00, 0x15, 0x02, 0xF0, 0x80, 0x0E, 0x0C, 0x05, 0x06, 0x13, 0x01, 0x01, 0x16, 0x01,
    0x02, 0x14, 0x02, 0x00, 0x02,
];
/// DT with four octets.
pub(crate) const DT: &[u8] = &[
    0x03, 0x00, 0x00, 0x0F, 0x02, 0xF0, 0x80, 0x01, 0x00, 0x01, 0x00, 0x64, 0x61, 0x74, 0x61,
];
/// A point, which duplex alone doesn't have.
pub(crate) const MIP: &[u8] = &[
    0x03, 0x00, 0x00, 0x0E, 0x02, 0xF0, 0x80, 0x01, 0x00, 0x31, 0x03, 0x2A, 0x01, 0x31,
];
/// The header of a DT of 65,528 octets that does not end its TSDU, and the units before the octets of data.
const PART: &[u8] = &[
    0x03, 0x00, 0xFF, 0xFF, 0x02, 0xF0, 0x00, 0x01, 0x00, 0x01, 0x00,
];
/// The header of another one in the same TSDU.
const NEXT_PART: &[u8] = &[0x03, 0x00, 0xFF, 0xFF, 0x02, 0xF0, 0x00];
/// The last four octets of its user data.
const REST: &[u8] = &[0x5A, 0x5A, 0x5A, 0x5A];
/// A DT of four octets that ends it.
const LAST_PART: &[u8] = &[
    0x03, 0x00, 0x00, 0x0B, 0x02, 0xF0, 0x80, 0x64, 0x61, 0x74, 0x61,
];

/// A CR for class 2 with the reference 1, the CC with the reference 2, and the DR and the DC that close the connection.
const CR_2: &[u8] = &[
    0x03, 0x00, 0x00, 0x11, 0x0C, 0xE4, 0x00, 0x00, 0x00, 0x01, 0x20, 0xC0, 0x01, 0x0A, 0xC6, 0x01,
    0x00,
];

const CC_2: &[u8] = &[
    0x03, 0x00, 0x00, 0x11, 0x0C, 0xD4, 0x00, 0x01, 0x00, 0x02, 0x20, 0xC0, 0x01, 0x0A, 0xC6, 0x01,
    0x00,
];

const DR_2: &[u8] = &[
    0x03, 0x00, 0x00, 0x0B, 0x06, 0x80, 0x00, 0x02, 0x00, 0x01, 0x80,
];

const DC_2: &[u8] = &[0x03, 0x00, 0x00, 0x0A, 0x05, 0xC0, 0x00, 0x01, 0x00, 0x02];
/// A point on it, before any CN.
const MIP_2: &[u8] = &[
    0x03, 0x00, 0x00, 0x10, 0x04, 0xF0, 0x00, 0x02, 0x80, 0x01, 0x00, 0x31, 0x03, 0x2A, 0x01, 0x31,
];
/// The header of a packet with 300 AKs, and one of them: none of left's DTs has passed.
const AKS: &[u8] = &[0x03, 0x00, 0x05, 0xE0];

const AK: &[u8] = &[0x04, 0x64, 0x00, 0x01, 0x00];

/// How a connection begins.
const OPENING: &[(Direction, &[u8])] = &[(Left, CR), (Right, CC), (Left, CN), (Right, AC)];
/// How a connection of class 2 begins and ends.
const IN_TURN: &[(Direction, &[u8])] = &[(Left, CR_2), (Right, CC_2), (Left, DR_2), (Right, DC_2)];

/// How many octets a judge takes, all of them if memory runs out.
pub(crate) fn taken(
    checks: &Checks,
    judge: &mut Judge,
    direction: Direction,
    octets: &[u8],
) -> usize {
    match judge.feed(direction, octets) {
        Ok(used) => used,
        Err(_) => {
            checks.fail(OUT_OF_MEMORY);
            octets.len()
        }
    }
}

fn feed(checks: &Checks, judge: &mut Judge, direction: Direction, octets: &[u8]) {
    let mut rest = octets;
    for _octet in octets {
        if rest.is_empty() {
            return;
        }
        let (_, behind) = cut(rest, taken(checks, judge, direction, rest));
        rest = behind;
    }
}

fn feed_all(checks: &Checks, judge: &mut Judge, pieces: &[(Direction, &[u8])]) {
    for (direction, octets) in pieces {
        feed(checks, judge, *direction, *octets);
    }
}

/// Whether the first connection is judged on, this is found of left, and it said this many TSDUs.
fn is_found(checks: &Checks, judge: &Judge, is_over: bool, left: Finding, told: usize) {
    match judge.connection(0) {
        Some(Found::Placed(connection)) => checks.that(
            connection.is_over() == is_over
                && connection.finding(Left) == left
                && connection.side(Left).told() == told,
            "the first connection is judged otherwise",
        ),
        _ => checks.fail("there is no connection"),
    }
}

/// Data both ways on a duplex association take the room of one, and the last message is judged. If the bound is too low for
/// one, nothing is judged after it.
fn data_pass(checks: &Checks, judge: &mut Judge, goes_on: bool) {
    feed_all(checks, judge, OPENING);
    for _ in 0..600u16 {
        feed(checks, judge, Left, DT);
        feed(checks, judge, Right, DT);
    }
    feed(checks, judge, Left, MIP);
    if goes_on {
        is_found(checks, judge, false, Finding::Broke(601), 601);
    } else {
        is_found(checks, judge, true, Finding::Kept, 2);
    }
}

/// A TSDU of 131,060 octets passes in one piece of 131,081, and again in two.
fn a_long_tsdu_passes(checks: &Checks, judge: &mut Judge, tsdu: &[u8]) {
    feed_all(checks, judge, OPENING);
    feed(checks, judge, Left, tsdu);
    let (front, behind) = cut(tsdu, 40_000);
    feed(checks, judge, Left, front);
    feed(checks, judge, Left, behind);
    is_found(checks, judge, false, Finding::Kept, 3);
}

/// A packet with many units passes.
fn many_units_pass(checks: &Checks, judge: &mut Judge, packet: &[u8]) {
    feed(checks, judge, Left, CR_2);
    feed(checks, judge, Right, CC_2);
    feed(checks, judge, Right, packet);
    checks.that(
        judge.broke(Right).is_none() && judge.count() == 1,
        "many units are a break",
    );
}

/// How one begins and ends on which left breaks the protocol.
const BROKEN: &[(Direction, &[u8])] = &[
    (Left, CR_2),
    (Right, CC_2),
    (Left, MIP_2),
    (Left, DR_2),
    (Right, DC_2),
];

/// Connections pass one after the other.
fn connections_pass(checks: &Checks, judge: &mut Judge) {
    for _ in 0..300u16 {
        feed_all(checks, judge, IN_TURN);
    }
    checks.that(
        judge.first().is_none() && judge.count() == 300,
        "connections in turn are a break",
    );
    checks.that(
        judge.connection(299).is_some() && judge.connection(300).is_none(),
        "the last connection is not found",
    );
    feed_all(checks, judge, BROKEN);
    feed_all(checks, judge, IN_TURN);
    is_past(checks, judge);
}

/// What was found of the connections whose place was given to another is told: left broke the protocol on the last of them.
fn is_past(checks: &Checks, judge: &Judge) {
    checks.that(
        judge.placed().len() == 1 && judge.replaced().len() == 301,
        "another place is given to a connection",
    );
    let Some(Found::Replaced(past)) = judge.connection(300) else {
        checks.fail("the connection that is over is not found");
        return;
    };
    checks.that(
        past.number() == 300 && past.is_closed() && past.reference(Right) == Some(2),
        "another connection is told",
    );
    checks.that(
        matches!(past.outcome(Left), Outcome::Broke(offset, _) if offset == 8_417),
        "the break of a connection that is over is not told",
    );
    checks.that(
        matches!(past.outcome(Right), Outcome::Kept(0, ..)),
        "another side is told to have broken the protocol",
    );
}

/// What a judge is fed.
#[derive(Clone, Copy)]
enum Fed<'a> {
    Data(bool),
    LongTsdu(&'a [u8]),
    ManyUnits(&'a [u8]),
    Connections,
}

/// What a judge with this bound does. This function owns it.
fn as_judged(checks: &Checks, alloc: Global, most: usize, fed: Fed) {
    let mut judge = Judge::within(alloc, most);
    match fed {
        Fed::Data(goes_on) => data_pass(checks, &mut judge, goes_on),
        Fed::LongTsdu(tsdu) => a_long_tsdu_passes(checks, &mut judge, tsdu),
        Fed::ManyUnits(packet) => many_units_pass(checks, &mut judge, packet),
        Fed::Connections => connections_pass(checks, &mut judge),
    }
}

/// The bound counts what is kept: CN, AC and data both ways count 228 octets, and the DT that passes 56 more.
#[test]
fn a_bound_counts_what_is_kept(rt: HostRuntime) -> Result<(), Fail> {
    let checks = Checks::new();
    as_judged(&checks, rt.alloc(), 284, Fed::Data(true));
    as_judged(&checks, rt.alloc(), 283, Fed::Data(false));
    checks.end()
}

#[test]
fn long_tsdus_and_pieces_pass(rt: HostRuntime) -> Result<(), Fail> {
    let octets = vec![in rt.alloc(); 0x5A; 65_524]?;
    let mut tsdu = Vec::from_slice(rt.alloc(), PART)?;
    tsdu.extend_from_slice(octets.as_slice())?;
    tsdu.extend_from_slice(NEXT_PART)?;
    tsdu.extend_from_slice(octets.as_slice())?;
    tsdu.extend_from_slice(REST)?;
    tsdu.extend_from_slice(LAST_PART)?;
    let checks = Checks::new();
    as_judged(
        &checks,
        rt.alloc(),
        1_048_576,
        Fed::LongTsdu(tsdu.as_slice()),
    );
    checks.end()
}

#[test]
fn many_units_and_connections_pass(rt: HostRuntime) -> Result<(), Fail> {
    let mut packet = Vec::from_slice(rt.alloc(), AKS)?;
    for _ in 0..300u16 {
        packet.extend_from_slice(AK)?;
    }
    let checks = Checks::new();
    as_judged(
        &checks,
        rt.alloc(),
        1_048_576,
        Fed::ManyUnits(packet.as_slice()),
    );
    as_judged(&checks, rt.alloc(), 1_048_576, Fed::Connections);
    checks.end()
}
