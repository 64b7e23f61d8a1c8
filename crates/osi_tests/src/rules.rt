//! The rules of transport on one byte connection: what is found of each unit, row by row.

use crate::checks::{Checks, OUT_OF_MEMORY};
use crate::transport_units::only_unit;
use osi_rules::{Direction, Finding, Rule, Traffic};
use std::alloc::Global;
use std::test::Fail;

/// What passes.
#[derive(Clone, Copy)]
enum Step {
    /// The first octet of a packet of this side.
    Begins(Direction),
    /// The transport unit with these octets, in the packet of this side that began last.
    Passes(Direction, &'static [u8], Finding),
    /// A packet of its own with this unit: it begins, and the unit passes.
    Sends(Direction, &'static [u8], Finding),
}

const LEFT: Direction = Direction::Left;

const RIGHT: Direction = Direction::Right;

const KEPT: Finding = Finding::Kept;

const UNSEEN: Finding = Finding::NotJudged;

/// A CR of reference 1 that offers class 2 with a credit of 3.
const REQUEST: &[u8] = &[6, 0xe3, 0, 0, 0, 1, 0x20];
/// Its CC, of reference 7 with a credit of 2.
const CONFIRM: &[u8] = &[6, 0xd2, 0, 1, 0, 7, 0x20];

fn passes(
    traffic: &mut Traffic,
    direction: Direction,
    octets: &[u8],
    finding: Finding,
    checks: &Checks,
) {
    if let Some(unit) = only_unit(octets, checks) {
        match traffic.take(direction, &unit) {
            Ok(told) => checks.that(told.finding == finding, "another finding"),
            Err(_) => checks.that(false, OUT_OF_MEMORY),
        }
    }
}

fn does(traffic: &mut Traffic, step: Step, checks: &Checks) {
    match step {
        Step::Begins(direction) => traffic.begin(direction),
        Step::Passes(direction, octets, finding) => {
            passes(traffic, direction, octets, finding, checks);
        }
        Step::Sends(direction, octets, finding) => {
            traffic.begin(direction);
            passes(traffic, direction, octets, finding, checks);
        }
    }
}

fn goes(traffic: &mut Traffic, steps: &[Step], checks: &Checks) {
    for step in steps {
        does(traffic, *step, checks);
    }
}

/// A DT of left with number 0.
const DATA_0: &[u8] = &[4, 0xf0, 0, 7, 0x80, 5];
/// DTs of left with the numbers 1 to 3.
const DATA_1: &[u8] = &[4, 0xf0, 0, 7, 0x81, 5];

const DATA_2: &[u8] = &[4, 0xf0, 0, 7, 0x82, 5];

const DATA_3: &[u8] = &[4, 0xf0, 0, 7, 0x83, 5];
/// An AK of right for number 0, with a credit of 2.
const ACK_1: &[u8] = &[4, 0x62, 0, 1, 1];
/// An AK of right that acknowledges nothing.
const ACK_0: &[u8] = &[4, 0x62, 0, 1, 0];
/// A DR of left, and the DC of right that answers it.
const CLOSE: &[u8] = &[6, 0x80, 0, 7, 0, 1, 128];

const CLOSED: &[u8] = &[5, 0xc0, 0, 1, 0, 7];
/// A CR and a CC of class 0, a DT, and a DR of right.
const REQUEST_0: &[u8] = &[6, 0xe0, 0, 0, 0, 1, 0];

const CONFIRM_0: &[u8] = &[6, 0xd0, 0, 1, 0, 7, 0];

const DATA: &[u8] = &[2, 0xf0, 0x80, 5];

const CLOSE_0: &[u8] = &[6, 0x80, 0, 1, 0, 7, 128];

/// An AK counts from the packet on that begins after it.
const CREDIT: [Step; 8] = [
    Step::Sends(LEFT, REQUEST, KEPT),
    Step::Sends(RIGHT, CONFIRM, KEPT),
    Step::Sends(LEFT, DATA_0, KEPT),
    Step::Sends(LEFT, DATA_1, KEPT),
    Step::Begins(LEFT),
    Step::Sends(RIGHT, ACK_1, KEPT),
    Step::Passes(LEFT, DATA_2, Finding::Broke(Rule::NoCredit)),
    Step::Sends(LEFT, DATA_3, Finding::Broke(Rule::NoCredit)),
];

const NUMBERS: [Step; 5] = [
    Step::Sends(LEFT, REQUEST, KEPT),
    Step::Sends(RIGHT, CONFIRM, KEPT),
    Step::Sends(LEFT, DATA_1, Finding::Broke(Rule::OutOfSequence)),
    Step::Sends(LEFT, DATA_0, UNSEEN),
    Step::Sends(RIGHT, ACK_1, UNSEEN),
];

/// A DT that had not passed is acknowledged.
const EARLY: [Step; 5] = [
    Step::Sends(LEFT, REQUEST, KEPT),
    Step::Sends(RIGHT, CONFIRM, KEPT),
    Step::Begins(RIGHT),
    Step::Sends(LEFT, DATA_0, KEPT),
    Step::Passes(RIGHT, ACK_1, Finding::Broke(Rule::OutOfSequence)),
];

const REDUCED: [Step; 4] = [
    Step::Sends(LEFT, REQUEST, KEPT),
    Step::Sends(RIGHT, CONFIRM, KEPT),
    Step::Sends(LEFT, DATA_0, KEPT),
    Step::Sends(
        RIGHT,
        &[4, 0x60, 0, 1, 1],
        Finding::Broke(Rule::CreditReduced),
    ),
];

/// A reference may be given again once its connection is closed. A CR is not answered by a DC.
const CLOSING: [Step; 7] = [
    Step::Sends(LEFT, REQUEST, KEPT),
    Step::Sends(RIGHT, CONFIRM, KEPT),
    Step::Sends(LEFT, CLOSE, KEPT),
    Step::Sends(LEFT, DATA_0, Finding::Broke(Rule::Closed)),
    Step::Sends(RIGHT, CLOSED, KEPT),
    Step::Sends(LEFT, REQUEST, KEPT),
    Step::Sends(RIGHT, CLOSED, Finding::Broke(Rule::UnknownReference)),
];

/// The DC of another connection: it answers a DR only if one has closed nothing.
const CLOSED_ELSEWHERE: &[u8] = &[5, 0xc0, 0, 1, 0, 9];

/// A DC has the reference of its sender.
const OTHER_SOURCE: [Step; 5] = [
    Step::Sends(LEFT, REQUEST, KEPT),
    Step::Sends(RIGHT, CONFIRM, KEPT),
    Step::Sends(LEFT, CLOSE, KEPT),
    Step::Sends(
        RIGHT,
        CLOSED_ELSEWHERE,
        Finding::Broke(Rule::NothingToAnswer),
    ),
    Step::Sends(RIGHT, CLOSED, UNSEEN),
];

/// After a DR that closed nothing a DC may have another reference, and the connection waits for its own.
const STRAY: [Step; 7] = [
    Step::Sends(LEFT, REQUEST, KEPT),
    Step::Sends(RIGHT, CONFIRM, KEPT),
    Step::Sends(LEFT, CLOSE, KEPT),
    Step::Sends(LEFT, CLOSE, Finding::Broke(Rule::Closed)),
    Step::Sends(RIGHT, CLOSED_ELSEWHERE, UNSEEN),
    Step::Sends(RIGHT, ACK_0, KEPT),
    Step::Sends(RIGHT, CLOSED, KEPT),
];

/// A CR of reference 2, the DR of right that refuses it, and DCs for it, of left and of right.
const REQUEST_2: &[u8] = &[6, 0xe3, 0, 0, 0, 2, 0x20];

const REFUSE_2: &[u8] = &[6, 0x80, 0, 2, 0, 0, 128];

const REFUSED_2: &[u8] = &[5, 0xc0, 0, 9, 0, 2];

const REFUSED_BACK: &[u8] = &[5, 0xc0, 0, 2, 0, 9];

/// A DC of left with any references answers a DR that refuses a CR, if that had passed when its packet began. It does not
/// answer one of its own side.
const REFUSED: [Step; 4] = [
    Step::Sends(LEFT, REQUEST_2, KEPT),
    Step::Sends(RIGHT, REFUSE_2, KEPT),
    Step::Sends(LEFT, REFUSED_2, UNSEEN),
    Step::Sends(RIGHT, REFUSED_BACK, Finding::Broke(Rule::UnknownReference)),
];

const REFUSED_EARLY: [Step; 4] = [
    Step::Sends(LEFT, REQUEST_2, KEPT),
    Step::Begins(LEFT),
    Step::Sends(RIGHT, REFUSE_2, KEPT),
    Step::Passes(LEFT, REFUSED_2, Finding::Broke(Rule::UnknownReference)),
];

/// The same in class 2, beside an open connection.
const REFUSED_IN_2: [Step; 6] = [
    Step::Sends(LEFT, REQUEST, KEPT),
    Step::Sends(RIGHT, CONFIRM, KEPT),
    Step::Sends(LEFT, REQUEST_2, KEPT),
    Step::Sends(RIGHT, REFUSE_2, KEPT),
    Step::Sends(LEFT, REFUSED_2, UNSEEN),
    Step::Sends(RIGHT, REFUSED_BACK, Finding::Broke(Rule::UnknownReference)),
];

const REFUSED_EARLY_IN_2: [Step; 6] = [
    Step::Sends(LEFT, REQUEST, KEPT),
    Step::Sends(RIGHT, CONFIRM, KEPT),
    Step::Sends(LEFT, REQUEST_2, KEPT),
    Step::Begins(LEFT),
    Step::Sends(RIGHT, REFUSE_2, KEPT),
    Step::Passes(LEFT, REFUSED_2, Finding::Broke(Rule::UnknownReference)),
];

const IN_USE: [Step; 4] = [
    Step::Sends(LEFT, REQUEST, KEPT),
    Step::Sends(RIGHT, CONFIRM, KEPT),
    Step::Sends(LEFT, REQUEST, Finding::Broke(Rule::ReferenceInUse)),
    Step::Sends(RIGHT, DATA, UNSEEN),
];

const NEGOTIATING: [Step; 3] = [
    Step::Sends(LEFT, REQUEST, KEPT),
    Step::Sends(
        LEFT,
        &[6, 0xe3, 0, 0, 0, 2, 0x20],
        Finding::Broke(Rule::Negotiating),
    ),
    Step::Sends(RIGHT, CONFIRM, UNSEEN),
];

/// The packet of the DT began before the CC had passed.
const TOO_EARLY: [Step; 4] = [
    Step::Sends(LEFT, REQUEST, KEPT),
    Step::Begins(LEFT),
    Step::Sends(RIGHT, CONFIRM, KEPT),
    Step::Passes(LEFT, DATA_0, Finding::Broke(Rule::UnexpectedUnit)),
];

const UNKNOWN: [Step; 3] = [
    Step::Sends(LEFT, REQUEST, KEPT),
    Step::Sends(RIGHT, CONFIRM, KEPT),
    Step::Sends(
        RIGHT,
        &[4, 0xf0, 0, 9, 0x80],
        Finding::Broke(Rule::UnknownReference),
    ),
];

const TWICE: [Step; 4] = [
    Step::Sends(LEFT, REQUEST, KEPT),
    Step::Sends(RIGHT, CONFIRM, KEPT),
    Step::Sends(RIGHT, CONFIRM, Finding::Broke(Rule::WrongForm)),
    Step::Sends(LEFT, DATA_0, UNSEEN),
];

const NOT_OFFERED: [Step; 2] = [
    Step::Sends(LEFT, REQUEST, KEPT),
    Step::Sends(RIGHT, CONFIRM_0, Finding::Broke(Rule::BadAnswer)),
];

/// Class 2 without flow control, and with extended formats: offered or not.
const OUTSIDE: [Step; 2] = [
    Step::Sends(LEFT, &[6, 0xe0, 0, 0, 0, 1, 0x21], KEPT),
    Step::Sends(RIGHT, &[6, 0xd0, 0, 1, 0, 7, 0x21], Finding::Outside),
];

const OUTSIDE_TOO: [Step; 2] = [
    Step::Sends(LEFT, &[6, 0xe3, 0, 0, 0, 1, 0x22], KEPT),
    Step::Sends(RIGHT, &[6, 0xd2, 0, 1, 0, 7, 0x22], Finding::Outside),
];

const UNASKED: [Step; 2] = [
    Step::Sends(LEFT, REQUEST, KEPT),
    Step::Sends(
        RIGHT,
        &[6, 0xd0, 0, 1, 0, 7, 0x21],
        Finding::Broke(Rule::BadAnswer),
    ),
];

const UNASKED_TOO: [Step; 2] = [
    Step::Sends(LEFT, &[6, 0xe3, 0, 0, 0, 1, 0x21], KEPT),
    Step::Sends(
        RIGHT,
        &[6, 0xd2, 0, 1, 0, 7, 0x22],
        Finding::Broke(Rule::BadAnswer),
    ),
];

/// 256 octets for a CR that names 128. The DT is not longer than that.
const LARGER: [Step; 3] = [
    Step::Sends(LEFT, &[9, 0xe3, 0, 0, 0, 1, 0x20, 0xc0, 1, 7], KEPT),
    Step::Sends(
        RIGHT,
        &[9, 0xd2, 0, 1, 0, 7, 0x20, 0xc0, 1, 8],
        Finding::Broke(Rule::LargerSize),
    ),
    Step::Sends(LEFT, DATA_0, KEPT),
];

/// In class 0 who did not break a rule is judged on.
const CLASS_0: [Step; 6] = [
    Step::Sends(LEFT, REQUEST_0, KEPT),
    Step::Sends(RIGHT, CONFIRM_0, KEPT),
    Step::Sends(RIGHT, CLOSE_0, Finding::Broke(Rule::WrongForm)),
    Step::Sends(LEFT, DATA, KEPT),
    Step::Sends(RIGHT, DATA, UNSEEN),
    Step::Sends(LEFT, REQUEST, Finding::Broke(Rule::OneConnection)),
];

/// An ER of left, and one of right.
const REPORT: &[u8] = &[4, 0x70, 0, 7, 0];

const REPORT_BACK: &[u8] = &[4, 0x70, 0, 1, 0];
/// A CR that names 128 octets, and a CC of class 2 that selects 256.
const REQUEST_128: &[u8] = &[9, 0xe3, 0, 0, 0, 1, 0x20, 0xc0, 1, 7];

const CONFIRM_256: &[u8] = &[9, 0xd2, 0, 1, 0, 7, 0x20, 0xc0, 1, 8];

/// An ER may answer a break that the other side passes over. Who has broken no rule is sent none.
const REPORTED: [Step; 5] = [
    Step::Sends(LEFT, REQUEST_128, KEPT),
    Step::Sends(RIGHT, CONFIRM_256, Finding::Broke(Rule::LargerSize)),
    Step::Sends(LEFT, REPORT, UNSEEN),
    Step::Sends(LEFT, DATA_0, KEPT),
    Step::Sends(RIGHT, REPORT_BACK, Finding::Broke(Rule::WrongForm)),
];

/// Also on a connection that is gone for its sender.
const REPORTED_LATE: [Step; 6] = [
    Step::Sends(LEFT, REQUEST, KEPT),
    Step::Sends(RIGHT, CONFIRM, KEPT),
    Step::Sends(LEFT, CLOSE, KEPT),
    Step::Sends(LEFT, DATA_0, Finding::Broke(Rule::Closed)),
    Step::Sends(RIGHT, CLOSED, KEPT),
    Step::Sends(RIGHT, REPORT_BACK, UNSEEN),
];

/// An ER still refuses a CR then.
const REFUSED_LATER: [Step; 6] = [
    Step::Sends(LEFT, REQUEST, KEPT),
    Step::Sends(RIGHT, CONFIRM, KEPT),
    Step::Sends(LEFT, CLOSE, KEPT),
    Step::Sends(LEFT, CLOSE, Finding::Broke(Rule::Closed)),
    Step::Sends(LEFT, REQUEST_2, KEPT),
    Step::Sends(RIGHT, &[4, 0x70, 0, 2, 0], KEPT),
];

/// The same in class 0.
const REPORTED_0: [Step; 4] = [
    Step::Sends(LEFT, &[9, 0xe0, 0, 0, 0, 1, 0, 0xc0, 1, 7], KEPT),
    Step::Sends(
        RIGHT,
        &[9, 0xd0, 0, 1, 0, 7, 0, 0xc0, 1, 8],
        Finding::Broke(Rule::LargerSize),
    ),
    Step::Sends(LEFT, REPORT, KEPT),
    Step::Sends(RIGHT, REPORT_BACK, Finding::Broke(Rule::WrongForm)),
];

const CALLED_ASKS: [Step; 1] = [Step::Sends(RIGHT, REQUEST, Finding::Broke(Rule::UnexpectedUnit))];

const ROWS: [&[Step]; 28] = [
    &CREDIT,
    &NUMBERS,
    &EARLY,
    &REDUCED,
    &CLOSING,
    &OTHER_SOURCE,
    &STRAY,
    &REFUSED,
    &REFUSED_EARLY,
    &REFUSED_IN_2,
    &REFUSED_EARLY_IN_2,
    &IN_USE,
    &NEGOTIATING,
    &TOO_EARLY,
    &UNKNOWN,
    &TWICE,
    &NOT_OFFERED,
    &OUTSIDE,
    &OUTSIDE_TOO,
    &UNASKED,
    &UNASKED_TOO,
    &LARGER,
    &CLASS_0,
    &REPORTED,
    &REPORTED_LATE,
    &REFUSED_LATER,
    &REPORTED_0,
    &CALLED_ASKS,
];

/// What passes on a fresh byte connection, which this function owns.
fn row_goes(alloc: Global, steps: &[Step], checks: &Checks) {
    goes(&mut Traffic::new(alloc), steps, checks);
}

/// What passes on a fresh byte connection for each row.
fn rows_go(alloc: Global, checks: &Checks) {
    for steps in ROWS {
        row_goes(alloc, steps, checks);
    }
}

/// A CR with this reference passes in a packet of its own. It offers class 2.
fn asks(traffic: &mut Traffic, reference: u8, finding: Finding, checks: &Checks) {
    traffic.begin(LEFT);
    let request = [6, 0xe3, 0, 0, 0, reference, 0x20];
    passes(traffic, LEFT, &request, finding, checks);
}

/// After the first connection, 127 more are requested and kept. One more is too many.
fn many_ask(traffic: &mut Traffic, checks: &Checks) {
    for reference in 2..129 {
        asks(traffic, reference, KEPT, checks);
    }
    asks(traffic, 129, Finding::TooMany, checks);
}

/// What passes on a fresh byte connection with many connections, which this function owns.
fn many_are_judged(alloc: Global, checks: &Checks) {
    let mut traffic = Traffic::new(alloc);
    goes(
        &mut traffic,
        &[
            Step::Sends(LEFT, REQUEST, KEPT),
            Step::Sends(RIGHT, CONFIRM, KEPT),
        ],
        checks,
    );
    many_ask(&mut traffic, checks);
}

#[test]
fn a_hundred_and_twenty_eight_connections_are_judged(rt: HostRuntime) -> Result<(), Fail> {
    let checks = Checks::new();
    many_are_judged(rt.alloc(), &checks);
    checks.end()
}

#[test]
fn units_are_found_right_or_broken(rt: HostRuntime) -> Result<(), Fail> {
    let checks = Checks::new();
    rows_go(rt.alloc(), &checks);
    checks.end()
}
