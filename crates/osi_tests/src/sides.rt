//! Which side of a connection first broke the protocol: runs whose outcome was worked out by hand. In most of them each
//! TSDU arrives before the next is sent.

use crate::checks::{Checks, OUT_OF_MEMORY};
use osi_side::{Finding, Side, TellError};
use std::alloc::Global;
use std::test::Fail;

/// A CN: units 00B9, serial 1, each token for the asker.
const CN: &[u8] = &[
    0x0D, 0x12, 0x05, 0x0C, 0x13, 0x01, 0x01, 0x16, 0x01, 0x02, 0x17, 0x01, 0x31, 0x1A, 0x01, 0x00,
    0x14, 0x02, 0x00, 0xB9,
];
/// The AC that accepts all of it.
const AC: &[u8] = &[
    0x0E, 0x12, 0x05, 0x0C, 0x13, 0x01, 0x01, 0x16, 0x01, 0x02, 0x17, 0x01, 0x31, 0x1A, 0x01, 0x00,
    0x14, 0x02, 0x00, 0xB9,
];
/// An AC that gives the data token to the answerer, although the CN fixed it for the asker.
const OTHER_AC: &[u8] = &[
    0x0E, 0x12, 0x05, 0x0C, 0x13, 0x01, 0x01, 0x16, 0x01, 0x02, 0x17, 0x01, 0x31, 0x1A, 0x01, 0x01,
    0x14, 0x02, 0x00, 0xB9,
];

const DT: &[u8] = &[0x01, 0x00, 0x01, 0x00, 0x64];

const FIRST_PART: &[u8] = &[0x01, 0x00, 0x01, 0x03, 0x19, 0x01, 0x01, 0x64];

const GT: &[u8] = &[0x01, 0x03, 0x10, 0x01, 0x01];

const GT_AND_DT: &[u8] = &[0x01, 0x03, 0x10, 0x01, 0x01, 0x01, 0x00, 0x64];

const MIP_1: &[u8] = &[0x01, 0x00, 0x31, 0x03, 0x2A, 0x01, 0x31];

const MIP_2: &[u8] = &[0x01, 0x00, 0x31, 0x03, 0x2A, 0x01, 0x32];

const MIP_3: &[u8] = &[0x01, 0x00, 0x31, 0x03, 0x2A, 0x01, 0x33];

const MIA_1: &[u8] = &[0x01, 0x00, 0x32, 0x03, 0x2A, 0x01, 0x31];

const MIA_2: &[u8] = &[0x01, 0x00, 0x32, 0x03, 0x2A, 0x01, 0x32];

const RS_1: &[u8] = &[
    0x01, 0x00, 0x35, 0x09, 0x1A, 0x01, 0x00, 0x1B, 0x01, 0x00, 0x2A, 0x01, 0x31,
];

const RS_2: &[u8] = &[
    0x01, 0x00, 0x35, 0x09, 0x1A, 0x01, 0x00, 0x1B, 0x01, 0x00, 0x2A, 0x01, 0x32,
];

const RS_3: &[u8] = &[
    0x01, 0x00, 0x35, 0x09, 0x1A, 0x01, 0x00, 0x1B, 0x01, 0x00, 0x2A, 0x01, 0x33,
];

const RS_4: &[u8] = &[
    0x01, 0x00, 0x35, 0x09, 0x1A, 0x01, 0x00, 0x1B, 0x01, 0x00, 0x2A, 0x01, 0x34,
];

const RA_1: &[u8] = &[0x01, 0x00, 0x22, 0x06, 0x1A, 0x01, 0x00, 0x2A, 0x01, 0x31];

const RA_2: &[u8] = &[0x01, 0x00, 0x22, 0x06, 0x1A, 0x01, 0x00, 0x2A, 0x01, 0x32];

const RA_4: &[u8] = &[0x01, 0x00, 0x22, 0x06, 0x1A, 0x01, 0x00, 0x2A, 0x01, 0x34];

const FN: &[u8] = &[0x09, 0x00];

const NF: &[u8] = &[0x08, 0x00];
/// AB for a protocol error.
const AB_5: &[u8] = &[0x19, 0x03, 0x11, 0x01, 0x05];
/// AB of a user.
const AB_3: &[u8] = &[0x19, 0x03, 0x11, 0x01, 0x03];
/// AB of a provider without a reason.
const AB_8: &[u8] = &[0x19, 0x03, 0x11, 0x01, 0x08];

const AA: &[u8] = &[0x1A, 0x00];

/// Who sends a TSDU.
#[derive(Clone, Copy)]
enum Who {
    Left,
    Right,
    /// Right, before the last TSDU of left arrived.
    RightEarly,
}

use Who::{Left, Right, RightEarly};

/// The TSDUs of a run, and the findings for both sides.
type Run = (&'static [(Who, &'static [u8])], Finding, Finding);

const KEPT: Finding = Finding::Kept;

/// Tokens that move.
const TOKEN_RUNS: &[Run] = &[
    // the data token is given, and its new holder sends data
    (
        &[(Left, CN), (Right, AC), (Left, GT), (Right, DT)],
        KEPT,
        KEPT,
    ),
    // the new holder sends data before the token has arrived
    (
        &[(Left, CN), (Right, AC), (Left, GT), (RightEarly, DT)],
        KEPT,
        Finding::Broke(1),
    ),
    // data after the answer to a restart that gives all tokens to the other side
    (
        &[
            (Left, CN),
            (Right, AC),
            (Right, RS_1),
            (Left, RA_1),
            (Left, DT),
        ],
        Finding::Broke(2),
        KEPT,
    ),
    // a second answer, and one that moves a token that the CN had fixed
    (
        &[(Left, CN), (Right, AC), (Right, AC)],
        KEPT,
        Finding::Broke(1),
    ),
    (&[(Left, CN), (Right, OTHER_AC)], KEPT, Finding::Broke(0)),
];

/// Restarts, and points confirmed again after one.
const RESTART_RUNS: &[Run] = &[
    // restarts that cross: the lower number wins
    (
        &[
            (Left, CN),
            (Right, AC),
            (Left, MIP_1),
            (Left, MIP_2),
            (Left, RS_3),
            (Right, RS_2),
            (Left, RA_2),
        ],
        KEPT,
        KEPT,
    ),
    // a point is confirmed again after a restart, and the abort for it is right
    (
        &[
            (Left, CN),
            (Right, AC),
            (Left, MIP_1),
            (Left, MIP_2),
            (Left, MIP_3),
            (Right, MIA_1),
            (Right, MIA_2),
            (Left, RS_4),
            (Right, RA_4),
            (Right, MIA_1),
            (Left, AB_5),
        ],
        KEPT,
        Finding::Broke(4),
    ),
    // if this is its first confirmation, the abort for it is wrong
    (
        &[
            (Left, CN),
            (Right, AC),
            (Left, MIP_1),
            (Left, MIP_2),
            (Left, MIP_3),
            (Left, RS_4),
            (Right, RA_4),
            (Right, MIA_1),
            (Left, AB_5),
        ],
        Finding::Broke(5),
        KEPT,
    ),
];

/// Points that are not allowed, and aborts.
const ABORT_RUNS: &[Run] = &[
    // a point with a wrong number
    (
        &[(Left, CN), (Right, AC), (Left, MIP_2)],
        Finding::Broke(1),
        KEPT,
    ),
    // a point without its tokens, and the abort for it
    (
        &[
            (Left, CN),
            (Right, AC),
            (Right, MIP_1),
            (Left, AB_5),
            (Right, AA),
        ],
        KEPT,
        Finding::Broke(1),
    ),
    // an abort without a fault, one of a provider that gives up, and one of a user
    (
        &[(Left, CN), (Right, AC), (Left, MIP_1), (Right, AB_5)],
        KEPT,
        Finding::Broke(1),
    ),
    (
        &[(Left, CN), (Right, AC), (Left, MIP_1), (Right, AB_8)],
        KEPT,
        KEPT,
    ),
    (
        &[(Left, CN), (Right, AC), (Left, AB_3), (Right, AA)],
        KEPT,
        KEPT,
    ),
];

/// Releases, units in one TSDU, and octets that are no units.
const OTHER_RUNS: &[Run] = &[
    // data after a release that was asked for
    (
        &[(Left, CN), (Right, AC), (Left, FN), (Left, DT), (Right, NF)],
        Finding::Broke(2),
        KEPT,
    ),
    // the tokens of a TSDU are given after its data
    (
        &[(Left, CN), (Right, AC), (Left, GT_AND_DT), (Left, DT)],
        Finding::Broke(2),
        KEPT,
    ),
    (
        &[(Left, CN), (Right, AC), (Left, GT_AND_DT), (Right, DT)],
        KEPT,
        KEPT,
    ),
    // a part although no size is agreed, and octets that are not units
    (
        &[(Left, CN), (Right, AC), (Left, FIRST_PART)],
        Finding::Broke(1),
        KEPT,
    ),
    (
        &[(Left, CN), (Right, AC), (Left, &[0xFF])],
        Finding::Broke(1),
        KEPT,
    ),
    // an answer to an abort, although no abort was sent
    (
        &[(Left, CN), (Right, AC), (Right, AA)],
        KEPT,
        Finding::Broke(1),
    ),
];

/// A side sends a TSDU, when all but this many of those sent to it had arrived.
fn says(checks: &Checks, side: &mut Side, missed: usize, tsdu: &[u8]) {
    let heard = side.heard();
    checks.that(missed <= heard, "a TSDU passes too early");
    match side.tell(tsdu, heard.saturating_sub(missed)) {
        Ok(()) => {}
        Err(TellError::OutOfMemory) => checks.fail(OUT_OF_MEMORY),
        Err(TellError::OutOfOrder) => checks.fail("a TSDU is out of its order"),
    }
}

/// Whether a side takes a TSDU that it is sent: memory may run out.
fn hears(side: &mut Side, tsdu: &[u8]) -> bool {
    side.hear(tsdu).is_ok()
}

/// A TSDU passes, when all but this many of those in the other direction had arrived.
fn passes(checks: &Checks, from: &mut Side, to: &mut Side, missed: usize, tsdu: &[u8]) {
    says(checks, from, missed, tsdu);
    checks.that(hears(to, tsdu), OUT_OF_MEMORY);
}

fn is_found(side: &Side, wanted: Finding) -> bool {
    side.finding() == wanted
}

/// What passes between two sides.
fn passes_all(checks: &Checks, left: &mut Side, right: &mut Side, tsdus: &[(Who, &[u8])]) {
    for (who, tsdu) in tsdus {
        match who {
            Left => passes(checks, left, right, 0, *tsdu),
            Right => passes(checks, right, left, 0, *tsdu),
            RightEarly => passes(checks, right, left, 1, *tsdu),
        }
    }
}

fn is_run(checks: &Checks, left: &mut Side, right: &mut Side, run: &Run) {
    passes_all(checks, left, right, run.0);
    checks.that(is_found(left, run.1), "something else is found of left");
    checks.that(is_found(right, run.2), "something else is found of right");
}

/// Data with other octets, and with more of them.
const OTHER_DT: &[u8] = &[0x01, 0x00, 0x01, 0x00, 0x01, 0x00, 0x01, 0x00];

/// A part with another octet, and one with two.
const OTHER_PART: &[u8] = &[0x01, 0x00, 0x01, 0x03, 0x19, 0x01, 0x01, 0x65];

const LONGER_PART: &[u8] = &[0x01, 0x00, 0x01, 0x03, 0x19, 0x01, 0x01, 0x64, 0x65];

/// The first point with user data.
const MIP_1_AND_DATA: &[u8] = &[0x01, 0x00, 0x31, 0x06, 0x2A, 0x01, 0x31, 0xC1, 0x01, 0x64];

/// TSDUs in a row, and how many of them are kept: those that differ in user data alone are kept once.
const ROWS: &[(&[&[u8]], usize)] = &[
    (&[], 0),
    (&[DT, OTHER_DT, DT], 1),
    (&[DT, MIP_1, MIP_1_AND_DATA, MIP_2, DT], 4),
    (&[FIRST_PART, OTHER_PART, LONGER_PART], 2),
    (&[CN, AC, AC, OTHER_AC], 3),
    (&[GT_AND_DT, GT_AND_DT, GT, DT], 3),
];

fn is_kept(checks: &Checks, side: &mut Side, tsdus: &[&[u8]], wanted: usize) {
    for tsdu in tsdus {
        checks.that(hears(side, *tsdu), OUT_OF_MEMORY);
    }
    checks.that(side.kept() == wanted, "another number is kept");
    checks.that(side.heard() == tsdus.len(), "another number is heard");
}

/// What a calling side is judged by: a run, or TSDUs in a row that it is sent, and how many of them are kept.
#[derive(Clone, Copy)]
enum Case<'a> {
    Run(&'a Run),
    Row(&'a [&'a [u8]], usize),
}

/// This function owns the called side.
fn run_with(checks: &Checks, alloc: Global, left: &mut Side, run: &Run) {
    match Side::called(alloc) {
        Ok(mut right) => is_run(checks, left, &mut right, run),
        Err(_) => checks.fail(OUT_OF_MEMORY),
    }
}

fn is_judged(checks: &Checks, alloc: Global, left: &mut Side, what: Case) {
    match what {
        Case::Run(run) => run_with(checks, alloc, left, run),
        Case::Row(tsdus, wanted) => is_kept(checks, left, tsdus, wanted),
    }
}

/// This function owns the calling side.
fn judged(checks: &Checks, alloc: Global, what: Case) {
    match Side::caller(alloc) {
        Ok(mut left) => is_judged(checks, alloc, &mut left, what),
        Err(_) => checks.fail(OUT_OF_MEMORY),
    }
}

fn runs_are_judged(checks: &Checks, alloc: Global, runs: &[Run]) {
    for run in runs {
        judged(checks, alloc, Case::Run(run));
    }
}

// One function for each table: what a function costs to prove grows faster than the tables in it.

fn tokens_are_judged(checks: &Checks, alloc: Global) {
    runs_are_judged(checks, alloc, TOKEN_RUNS);
}

fn restarts_are_judged(checks: &Checks, alloc: Global) {
    runs_are_judged(checks, alloc, RESTART_RUNS);
}

fn aborts_are_judged(checks: &Checks, alloc: Global) {
    runs_are_judged(checks, alloc, ABORT_RUNS);
}

fn others_are_judged(checks: &Checks, alloc: Global) {
    runs_are_judged(checks, alloc, OTHER_RUNS);
}

#[test]
fn who_says_what_no_session_could_is_found(rt: HostRuntime) -> Result<(), Fail> {
    let checks = Checks::new();
    tokens_are_judged(&checks, rt.alloc());
    restarts_are_judged(&checks, rt.alloc());
    aborts_are_judged(&checks, rt.alloc());
    others_are_judged(&checks, rt.alloc());
    checks.end()
}

fn rows_are_judged(checks: &Checks, alloc: Global) {
    for (tsdus, wanted) in ROWS {
        judged(checks, alloc, Case::Row(*tsdus, *wanted));
    }
}

#[test]
fn what_differs_in_user_data_alone_is_kept_once(rt: HostRuntime) -> Result<(), Fail> {
    let checks = Checks::new();
    rows_are_judged(&checks, rt.alloc());
    checks.end()
}
