//! Captures of one connection of class 0, whose outcome was worked out by hand. Each is fed to a judge in the pieces given
//! here, and octet by octet.

use crate::checks::Checks;
use crate::judges::{CC, CR, DT, MIP, taken};
use crate::sessions::cut;
use osi_judge::{Found, Judge};
use osi_side::{Direction, Finding};
use std::alloc::Global;
use std::test::Fail;

/// A CN: units 00B9, serial 1, each token for the asker.
const CN: &[u8] = &[
    0x03, 0x00, 0x00, 0x1B, 0x02, 0xF0, 0x80, 0x0D, 0x12, 0x05, 0x0C, 0x13, 0x01, 0x01, 0x16, 0x01,
    0x02, 0x17, 0x01, 0x31, 0x1A, 0x01, 0x00, 0x14, 0x02, 0x00, 0xB9,
];
/// The AC that accepts all of it.
const AC: &[u8] = &[
    0x03, 0x00, 0x00, 0x1B, 0x02, 0xF0, 0x80, 0x0E, 0x12, 0x05, 0x0C, 0x13, 0x01, 0x01, 0x16, 0x01,
    0x02, 0x17, 0x01, 0x31, 0x1A, 0x01, 0x00, 0x14, 0x02, 0x00, 0xB9,
];
/// The first octet of a DT.
const DT_FRONT: &[u8] = &[0x03];

const DT_BEHIND: &[u8] = &[
    0x00, 0x00, 0x0F, 0x02, 0xF0, 0x80, 0x01, 0x00, 0x01, 0x00, 0x64, 0x61, 0x74, 0x61,
];
/// GT with the data token.
const GT: &[u8] = &[
    0x03, 0x00, 0x00, 0x0C, 0x02, 0xF0, 0x80, 0x01, 0x03, 0x10, 0x01, 0x01,
];
/// GT without its last octet.
const GT_FRONT: &[u8] = &[
    0x03, 0x00, 0x00, 0x0C, 0x02, 0xF0, 0x80, 0x01, 0x03, 0x10, 0x01,
];

const GT_LAST: &[u8] = &[0x01];

/// AB for a protocol error.
const AB_5: &[u8] = &[
    0x03, 0x00, 0x00, 0x0C, 0x02, 0xF0, 0x80, 0x19, 0x03, 0x11, 0x01, 0x05,
];

const AA: &[u8] = &[0x03, 0x00, 0x00, 0x09, 0x02, 0xF0, 0x80, 0x1A, 0x00];
/// FN in two data units, of which the second has no user data and EOT.
const FN_IN_PARTS: &[u8] = &[
    0x03, 0x00, 0x00, 0x09, 0x02, 0xF0, 0x00, 0x09, 0x00, 0x03, 0x00, 0x00, 0x07, 0x02, 0xF0, 0x80,
];

const NO_PACKET: &[u8] = &[0x04, 0x00, 0x00, 0x07];

use Direction::{Left, Right};

/// What passes, what is found of both sides, whose break passed first, and the offset of the packet with which left first
/// broke a rule of transport.
struct Capture {
    pieces: &'static [(Direction, &'static [u8])],
    left: Finding,
    right: Finding,
    first: Option<Direction>,
    broke: Option<u64>,
}

const KEPT: Finding = Finding::Kept;

/// Captures in which the transport is right.
const CAPTURES: &[Capture] = &[
    // a token that was given
    Capture {
        pieces: &[
            (Left, CR),
            (Right, CC),
            (Left, CN),
            (Right, AC),
            (Left, GT),
            (Right, DT),
        ],
        left: KEPT,
        right: KEPT,
        first: None,
        broke: None,
    },
    // and that was still in flight when the data began
    Capture {
        pieces: &[
            (Left, CR),
            (Right, CC),
            (Left, CN),
            (Right, AC),
            (Left, GT_FRONT),
            (Right, DT_FRONT),
            (Left, GT_LAST),
            (Right, DT_BEHIND),
        ],
        left: KEPT,
        right: Finding::Broke(1),
        first: Some(Right),
        broke: None,
    },
    // a point without the token, and the abort for it
    Capture {
        pieces: &[
            (Left, CR),
            (Right, CC),
            (Left, CN),
            (Right, AC),
            (Right, MIP),
            (Left, AB_5),
            (Right, AA),
        ],
        left: KEPT,
        right: Finding::Broke(1),
        first: Some(Right),
        broke: None,
    },
    // both sides break it, right first
    Capture {
        pieces: &[
            (Left, CR),
            (Right, CC),
            (Left, CN),
            (Right, AC),
            (Right, MIP),
            (Left, DT),
            (Left, AB_5),
            (Left, DT),
        ],
        left: Finding::Broke(3),
        right: Finding::Broke(1),
        first: Some(Right),
        broke: None,
    },
];

/// Captures in which the transport is looked at, too.
const TRANSPORT_CAPTURES: &[Capture] = &[
    // no packet
    Capture {
        pieces: &[
            (Left, CR),
            (Right, CC),
            (Left, CN),
            (Right, AC),
            (Left, NO_PACKET),
        ],
        left: KEPT,
        right: KEPT,
        first: Some(Left),
        broke: Some(41),
    },
    // a TSDU in two data units
    Capture {
        pieces: &[
            (Left, CR),
            (Right, CC),
            (Left, CN),
            (Right, AC),
            (Left, FN_IN_PARTS),
        ],
        left: KEPT,
        right: KEPT,
        first: None,
        broke: None,
    },
    // a CN before the CC: a break of left
    Capture {
        pieces: &[(Left, CR), (Left, CN), (Right, CC), (Right, AC)],
        left: KEPT,
        right: KEPT,
        first: Some(Left),
        broke: Some(14),
    },
    // data before the CC: a break of right
    Capture {
        pieces: &[(Left, CR), (Right, DT), (Right, CC)],
        left: KEPT,
        right: KEPT,
        first: Some(Right),
        broke: None,
    },
];

/// Feeds octets, at most this many at once.
fn feed(checks: &Checks, judge: &mut Judge, direction: Direction, octets: &[u8], most: usize) {
    let mut rest = octets;
    for _octet in octets {
        if rest.is_empty() {
            return;
        }
        let (piece, _) = cut(rest, most);
        let (_, behind) = cut(rest, taken(checks, judge, direction, piece));
        rest = behind;
    }
}

/// Whether this is found of both sides of the connection.
fn are_found(judge: &Judge, left: Finding, right: Finding) -> bool {
    match judge.connection(0) {
        Some(Found::Placed(connection)) => {
            connection.finding(Left) == left && connection.finding(Right) == right
        }
        _ => false,
    }
}

fn first_of(judge: &Judge) -> Option<Direction> {
    match judge.first() {
        Some(first) => Some(first.direction),
        None => None,
    }
}

fn broke_at(judge: &Judge) -> Option<u64> {
    match judge.broke(Left) {
        Some(mark) => Some(mark.offset),
        None => None,
    }
}

fn is_found(checks: &Checks, judge: &Judge, capture: &Capture) {
    checks.that(
        are_found(judge, capture.left, capture.right),
        "something else is found",
    );
    checks.that(
        first_of(judge) == capture.first,
        "another break is the first",
    );
    checks.that(
        broke_at(judge) == capture.broke,
        "left's transport stands otherwise",
    );
}

/// Feeds pieces of both sides, one after the other, at most this many octets at once.
fn feed_all(checks: &Checks, judge: &mut Judge, pieces: &[(Direction, &[u8])], most: usize) {
    for (direction, octets) in pieces {
        feed(checks, judge, *direction, *octets, most);
    }
}

/// A capture is judged if at most this many octets are fed at once.
fn is_judged_in(checks: &Checks, judge: &mut Judge, capture: &Capture, most: usize) {
    feed_all(checks, judge, capture.pieces, most);
    is_found(checks, judge, capture);
}

/// Left sends all these octets.
fn feed_left(checks: &Checks, judge: &mut Judge, octets: &[u8]) {
    feed(checks, judge, Left, octets, usize::MAX);
}

/// The header of a DT of 65,528 octets that does not end its TSDU.
const PART: &[u8] = &[0x03, 0x00, 0xFF, 0xFF, 0x02, 0xF0, 0x00];
/// The header of a DT of 128 octets that ends it.
const LAST_PART: &[u8] = &[0x03, 0x00, 0x00, 0x87, 0x02, 0xF0, 0x80];
/// The units before the octets of data in a TSDU.
const DATA_FRONT: &[u8] = &[0x01, 0x00, 0x01, 0x00];

/// Left sends a packet of a part, with these octets.
fn feed_part(checks: &Checks, judge: &mut Judge, header: &[u8], front: &[u8], octets: &[u8]) {
    feed_left(checks, judge, header);
    feed_left(checks, judge, front);
    feed_left(checks, judge, octets);
}

/// Left sends a Data of 1,048,572 octets in 17 packets. The octets are 65,528.
fn feed_the_longest(checks: &Checks, judge: &mut Judge, octets: &[u8]) {
    let (front, behind) = cut(octets, 4);
    let (last, _) = cut(octets, 128);
    feed_part(checks, judge, PART, DATA_FRONT, behind);
    for _ in 0..15u8 {
        feed_part(checks, judge, PART, front, behind);
    }
    feed_part(checks, judge, LAST_PART, &[], last);
}

/// Left sends a thousand Data of four octets.
fn feed_a_thousand(checks: &Checks, judge: &mut Judge) {
    for _ in 0..1000u16 {
        feed_left(checks, judge, DT);
    }
}

/// Whether left said this many TSDUs, and the session of right heard them.
fn are_said(judge: &Judge, told: usize) -> bool {
    match judge.connection(0) {
        Some(Found::Placed(connection)) => {
            connection.side(Left).told() == told && connection.side(Right).heard() == told
        }
        _ => false,
    }
}

/// How a connection begins.
const OPENING: &[(Direction, &[u8])] = &[(Left, CR), (Right, CC), (Left, CN), (Right, AC)];

fn a_long_capture_goes_on(checks: &Checks, judge: &mut Judge, octets: &[u8]) {
    feed_all(checks, judge, OPENING, usize::MAX);
    feed_a_thousand(checks, judge);
    feed_the_longest(checks, judge, octets);
    checks.that(
        are_found(judge, KEPT, KEPT) && are_said(judge, 1002),
        "something else or another number of TSDUs is found",
    );
}

/// What a judge is fed.
#[derive(Clone, Copy)]
enum Fed<'a> {
    /// A capture, at most this many octets at once.
    Capture(&'a Capture, usize),
    /// A long capture; the octets are 65,528.
    Long(&'a [u8]),
}

fn is_judged(checks: &Checks, judge: &mut Judge, fed: Fed) {
    match fed {
        Fed::Capture(capture, most) => is_judged_in(checks, judge, capture, most),
        Fed::Long(octets) => a_long_capture_goes_on(checks, judge, octets),
    }
}

/// What a fresh judge finds. This function owns it.
fn judged(checks: &Checks, alloc: Global, fed: Fed) {
    let mut judge = Judge::new(alloc);
    is_judged(checks, &mut judge, fed);
}

/// Each is fed in the pieces given, and octet by octet.
fn captures_are_judged(checks: &Checks, alloc: Global, captures: &[Capture]) {
    for capture in captures {
        judged(checks, alloc, Fed::Capture(capture, usize::MAX));
        judged(checks, alloc, Fed::Capture(capture, 1));
    }
}

// One function for each table: what a function costs to prove grows faster than the tables in it.

fn sessions_are_judged(checks: &Checks, alloc: Global) {
    captures_are_judged(checks, alloc, CAPTURES);
}

fn transports_are_judged(checks: &Checks, alloc: Global) {
    captures_are_judged(checks, alloc, TRANSPORT_CAPTURES);
}

#[test]
fn a_capture_is_judged_in_any_pieces(rt: HostRuntime) -> Result<(), Fail> {
    let checks = Checks::new();
    sessions_are_judged(&checks, rt.alloc());
    transports_are_judged(&checks, rt.alloc());
    checks.end()
}

#[test]
fn a_long_capture_is_judged(rt: HostRuntime) -> Result<(), Fail> {
    let octets = vec![in rt.alloc(); 0x5A; 65_528]?;
    let checks = Checks::new();
    judged(&checks, rt.alloc(), Fed::Long(octets.as_slice()));
    checks.end()
}
