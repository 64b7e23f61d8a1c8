//! Sessions by themselves: plans, requests that change nothing, the greatest lengths, and that calls succeed if memory
//! is ample.
//!
//! `opens_and_does` and `called_does` own the session of each test; `is_shown` and `is_answered` own what it returns.

use crate::checks::{Checks, OUT_OF_MEMORY};
use bitflags::Flags;
use osi_message::{LentTsdus, Sent};
use osi_session::*;
use osi_spdu::{
    Group, Requirements, Serial, Side, SpduFault, TokenSet, TokenSetting, TsduSizes, Wish,
    read_tsdu,
};
use std::alloc::{AllocError, Global};
use std::test::Fail;

pub(crate) const ASKER_WISHES: TokenSetting = TokenSetting {
    data_token: Wish::Asker,
    minor: Wish::Asker,
    major: Wish::Asker,
    release: Wish::Asker,
};

const ASKER_SIDES: Sides = Sides {
    data_token: Side::Asker,
    minor: Side::Asker,
    major: Side::Asker,
    release: Side::Asker,
};

/// Half-duplex, minor, major, resynchronize and negotiated release.
pub(crate) const ALL_UNITS: u16 = 0x00B9;

/// A CN: units 00B9, serial 1, each token for the asker.
const CONNECT: [u8; 20] = [
    0x0D, 0x12, 0x05, 0x0C, 0x13, 0x01, 0x01, 0x16, 0x01, 0x02, 0x17, 0x01, 0x31, 0x1A, 0x01, 0x00,
    0x14, 0x02, 0x00, 0xB9,
];

/// The AC that accepts all of it.
const ACCEPT: [u8; 20] = [
    0x0E, 0x12, 0x05, 0x0C, 0x13, 0x01, 0x01, 0x16, 0x01, 0x02, 0x17, 0x01, 0x31, 0x1A, 0x01, 0x00,
    0x14, 0x02, 0x00, 0xB9,
];

/// What was wrong if a call failed by this.
pub(crate) fn failure(error: CallError) -> &'static str {
    match error {
        CallError::OutOfMemory => OUT_OF_MEMORY,
        _ => "a call is refused",
    }
}

/// A serial number.
pub(crate) fn serial() -> Serial {
    Serial::new(1).unwrap()
}

/// The first `count` octets, and the others.
pub(crate) fn cut(octets: &[u8], count: usize) -> (&[u8], &[u8]) {
    octets.split_at(count.min(octets.len()))
}

/// Whether these octets are sent, in one TSDU.
fn is_one(sent: &Sent, wanted: &[u8]) -> bool {
    match sent.tsdus() {
        LentTsdus::One(tsdu) => tsdu == wanted,
        _ => false,
    }
}

fn is_sent(sent: &Option<Sent>, wanted: &[u8]) -> bool {
    match sent {
        Some(sent) => is_one(sent, wanted),
        None => false,
    }
}

fn length_in(sent: &Sent) -> usize {
    match sent.tsdus() {
        LentTsdus::One(tsdu) => tsdu.len(),
        _ => 0,
    }
}

/// What answers a call.
#[derive(Clone, Copy)]
enum Answer<'a> {
    /// These octets are sent, in one TSDU.
    Octets(&'a [u8]),
    /// One TSDU of this many octets is sent.
    Length(usize),
    Refused(CallError),
}

fn is_right(sent: &Sent, wanted: Answer) -> bool {
    match wanted {
        Answer::Octets(octets) => is_one(sent, octets),
        Answer::Length(length) => length_in(sent) == length,
        Answer::Refused(_) => false,
    }
}

fn is_refusal(error: CallError, wanted: Answer) -> bool {
    match wanted {
        Answer::Refused(refusal) => error == refusal,
        _ => false,
    }
}

/// This function owns the answer to a call.
fn is_answered(checks: &Checks, answer: Result<Sent, CallError>, wanted: Answer) {
    match &answer {
        Ok(sent) => checks.that(is_right(sent, wanted), "something else is sent"),
        Err(error) => checks.that(is_refusal(*error, wanted), failure(*error)),
    }
}

/// A call of the user.
fn call(session: &mut Session, request: Request) -> Result<Sent, CallError> {
    session.call(request)
}

/// A call of the user is answered by this.
fn calls(checks: &Checks, session: &mut Session, request: Request, wanted: Answer) {
    is_answered(checks, call(session, request), wanted);
}

/// What arrives: the octets of a TSDU, the units of a TSDU, or octets with this fault.
#[derive(Clone, Copy)]
enum Arrived<'a> {
    Tsdu(&'a [u8]),
    Units(&'a [u8]),
    Bad(SpduFault),
}

/// What is shown of it.
#[derive(Clone, Copy)]
enum Shown {
    /// Anything.
    Any,
    /// The connection is aborted for data that is too long.
    TooLong,
    /// The connection is aborted for a unit that does not exist, and AB is sent.
    UnknownUnit,
}

/// Octets that are no units are taken as such.
fn take_units(session: &mut Session, tsdu: &[u8]) -> Result<Taken, AllocError> {
    match read_tsdu(tsdu) {
        Ok(group) => session.take(&group),
        Err(fault) => session.take_bad(fault),
    }
}

fn take(session: &mut Session, arrived: Arrived) -> Result<Taken, AllocError> {
    match arrived {
        Arrived::Tsdu(tsdu) => session.take_tsdu(tsdu),
        Arrived::Units(tsdu) => take_units(session, tsdu),
        Arrived::Bad(fault) => session.take_bad(fault),
    }
}

/// An AB for an error of the protocol, which releases the transport connection too.
const PROTOCOL_ERROR: [u8; 5] = [0x19, 0x03, 0x11, 0x01, 0x05];

/// Whether the connection is aborted for this fault of a unit.
fn is_abort(shown: &Option<Indication>, fault: UnitFault) -> bool {
    match shown {
        Some(
            Indication::ProviderAbort {
                cause: AbortCause::Unit(found),
            },
        ) => *found == fault,
        _ => false,
    }
}

/// Whether this is shown of what arrived.
fn shows(taken: &Taken, shown: Shown) -> bool {
    match shown {
        Shown::Any => true,
        Shown::TooLong => is_abort(&taken.first, UnitFault::DataTooLong(1)),
        Shown::UnknownUnit => {
            is_abort(&taken.first, UnitFault::Spelling(SpduFault::UnknownSi(0)))
                && is_sent(&taken.reply, &PROTOCOL_ERROR)
        }
    }
}

/// This function owns what the session returned.
fn is_shown(taken: Taken, shown: Shown) -> bool {
    let is_met = shows(&taken, shown);
    drop(taken);
    is_met
}

fn takes(checks: &Checks, session: &mut Session, arrived: Arrived, shown: Shown) {
    match take(session, arrived) {
        Ok(taken) => checks.that(is_shown(taken, shown), "something else is shown or sent"),
        Err(_) => checks.fail(OUT_OF_MEMORY),
    }
}

/// The request for a connection.
fn opening<'a>() -> Opening<'a> {
    Opening {
        requirements: Requirements::from_bits_retain(ALL_UNITS),
        serial: serial(),
        wishes: ASKER_WISHES,
        calling_selector: None,
        called_selector: None,
        sizes: TsduSizes::NONE,
        user_data: &[],
    }
}

/// A session that asks for a connection.
fn caller(alloc: Global) -> Result<Session, CallError> {
    Session::caller(alloc, &opening())
}

fn holds(session: &Session, tokens: u8) -> bool {
    session.held().bits() == tokens
}

/// A GT that gives the data token.
const GIVES: [u8; 5] = [0x01, 0x03, 0x10, 0x01, 0x01];

/// The plan to give the data token.
fn plans(left: &Session) -> Result<Plan, CallError> {
    left.plan(Request::Give {
        tokens: TokenSet::from_bits_retain(0x01),
    })
}

/// The plan is to send a GT, and no token is given before it is committed.
fn is_planned(left: &Session, plan: &Plan) -> bool {
    is_one(plan.sent(), &GIVES) && holds(left, 0x55)
}

/// Commits the plan, and sends its unit.
fn commits(left: &mut Session, plan: Plan) -> bool {
    is_sent(&left.commit(plan), &GIVES)
}

fn plan_goes_on(checks: &Checks, left: &mut Session) {
    match plans(left) {
        Ok(plan) => {
            checks.that(is_planned(left, &plan), "a plan changes something");
            checks.that(commits(left, plan), "other octets are sent");
        }
        Err(error) => checks.fail(failure(error)),
    }
}

/// Data is sent, which changes nothing.
fn sends_data(left: &Session, user_data: &[u8]) -> Result<Sent, CallError> {
    left.call_data(user_data)
}

/// A DT with three octets.
const DATA: [u8; 7] = [0x01, 0x00, 0x01, 0x00, 0x61, 0x62, 0x63];

fn data_goes_on(checks: &Checks, left: &Session) {
    is_answered(checks, sends_data(left, b"abc"), Answer::Octets(&DATA));
}

fn gives_a_token(checks: &Checks, left: &mut Session) {
    data_goes_on(checks, left);
    plan_goes_on(checks, left);
    checks.that(holds(left, 0x54), "other tokens");
}

/// The head of whole data.
const DATA_HEAD: &[u8] = &[0x01, 0x00, 0x01, 0x00];

/// Whether data goes in one TSDU, after the head of whole data.
fn keeps_data_whole(left: &Session) -> bool {
    match left.data_parts(b"abc") {
        Ok(parts) => parts.last == DATA_HEAD,
        Err(_) => false,
    }
}

/// A minor point is planned.
fn plans_point(left: &Session) -> Result<PlannedPoint, CallError> {
    left.plan_minor(true, &[])
}

/// The session continues after a point.
fn goes_on(left: &mut Session, point: SentPoint) -> bool {
    left.advance(point)
}

/// MIP with number 1, which asks for its confirmation.
const POINT: [u8; 7] = [0x01, 0x00, 0x31, 0x03, 0x2A, 0x01, 0x31];

/// The planned point is sent in this unit, and the session continues after it once; after that the plan is stale.
fn goes_on_after(left: &mut Session, plan: &PlannedPoint) -> bool {
    is_one(&plan.sent, &POINT)
        && goes_on(left, plan.point)
        && !goes_on(left, plan.point)
        && left.next_serial() == 2
}

fn goes_on_once(checks: &Checks, left: &mut Session) {
    match plans_point(left) {
        Ok(plan) => checks.that(
            goes_on_after(left, &plan),
            "the session does not go on once",
        ),
        Err(error) => checks.fail(failure(error)),
    }
}

/// The octets are one more than the greatest length of data.
fn lengths_go_on(checks: &Checks, left: &mut Session, octets: &[u8]) {
    let (user_data, _) = cut(octets, 10_241);
    let (_, longest) = cut(octets, 1);
    let abort = Request::Abort { user_data };
    let too_long = Answer::Refused(CallError::TooLong);
    calls(checks, left, Request::Data { user_data: octets }, too_long);
    calls(checks, left, abort, too_long);
    calls(
        checks,
        left,
        Request::Data { user_data: longest },
        Answer::Length(1_048_576),
    );
}

/// What a calling session does once it is connected.
#[derive(Clone, Copy)]
enum Calling<'a> {
    GiveAToken,
    KeepDataWhole,
    GoOnOnce,
    RefuseOctets,
    /// These octets are one more than the greatest length of data.
    SendLongest(&'a [u8]),
}

fn sends_its_cn(left: &mut Session) -> bool {
    is_sent(&left.opened(), &CONNECT)
}

/// The CN is sent, and the AC arrives; all tokens are held.
fn is_connected(checks: &Checks, left: &mut Session) {
    checks.that(sends_its_cn(left), "another CN is sent");
    takes(checks, left, Arrived::Tsdu(&ACCEPT), Shown::Any);
    checks.that(holds(left, 0x55), "other tokens");
}

fn is_aborted(checks: &Checks, left: &mut Session) {
    let unknown = Arrived::Bad(SpduFault::UnknownSi(0));
    takes(checks, left, unknown, Shown::UnknownUnit);
}

fn connects_and_does(checks: &Checks, left: &mut Session, what: Calling) {
    is_connected(checks, left);
    match what {
        Calling::GiveAToken => gives_a_token(checks, left),
        Calling::KeepDataWhole => checks.that(keeps_data_whole(left), "data is cut"),
        Calling::GoOnOnce => goes_on_once(checks, left),
        Calling::RefuseOctets => is_aborted(checks, left),
        Calling::SendLongest(octets) => lengths_go_on(checks, left, octets),
    }
}

/// This function owns the session.
fn opens_and_does(checks: &Checks, alloc: Global, what: Calling) {
    match caller(alloc) {
        Ok(mut left) => connects_and_does(checks, &mut left, what),
        Err(error) => checks.fail(failure(error)),
    }
}

fn caller_does(alloc: Global, what: Calling) -> Result<(), Fail> {
    let checks = Checks::new();
    opens_and_does(&checks, alloc, what);
    checks.end()
}

#[test]
fn a_plan_changes_nothing(rt: HostRuntime) -> Result<(), Fail> {
    caller_does(rt.alloc(), Calling::GiveAToken)
}

#[test]
fn data_is_not_cut_without_a_limit(rt: HostRuntime) -> Result<(), Fail> {
    caller_does(rt.alloc(), Calling::KeepDataWhole)
}

#[test]
fn a_planned_point_is_stale_once_it_is_sent(rt: HostRuntime) -> Result<(), Fail> {
    caller_does(rt.alloc(), Calling::GoOnOnce)
}

#[test]
fn octets_that_are_no_units_are_answered_by_an_abort(rt: HostRuntime) -> Result<(), Fail> {
    caller_does(rt.alloc(), Calling::RefuseOctets)
}

#[test]
fn data_has_a_greatest_length(rt: HostRuntime) -> Result<(), Fail> {
    let octets = vec![in rt.alloc(); 0u8; 1_048_573]?;
    caller_does(rt.alloc(), Calling::SendLongest(octets.as_slice()))
}

fn accepts(checks: &Checks, right: &mut Session) {
    let accept = Request::Accept {
        requirements: Requirements::from_bits_retain(ALL_UNITS),
        serial: serial(),
        sides: ASKER_SIDES,
        sizes: TsduSizes::NONE,
        user_data: &[],
    };
    calls(checks, right, accept, Answer::Octets(&ACCEPT));
}

fn is_over(right: &Session) -> bool {
    right.joined() == 0 && right.phase() == Phase::Aborting
}

/// The connection is accepted, and then a first part of data arrives that is too long.
fn begins_too_long(checks: &Checks, right: &mut Session, part: &[u8]) {
    accepts(checks, right);
    takes(checks, right, Arrived::Tsdu(part), Shown::TooLong);
    checks.that(is_over(right), "the session is not over");
}

/// What a called session does after the CN arrived.
#[derive(Clone, Copy)]
enum Called<'a> {
    /// It accepts, and takes this first part of data.
    TakeTooLong(&'a [u8]),
    /// It refuses, by this RF.
    Refuse(Refusal<'a>, &'a [u8]),
}

fn is_asked_and_does(checks: &Checks, right: &mut Session, what: Called) {
    takes(checks, right, Arrived::Units(&CONNECT), Shown::Any);
    match what {
        Called::TakeTooLong(part) => begins_too_long(checks, right, part),
        Called::Refuse(refusal, wanted) => {
            calls(
                checks,
                right,
                Request::Refuse { refusal },
                Answer::Octets(wanted),
            )
        }
    }
}

fn called_does(checks: &Checks, alloc: Global, what: Called) {
    is_asked_and_does(checks, &mut Session::called(alloc), what);
}

/// The head of a first part of data of one octet more than the greatest length.
const PART_HEAD: [u8; 7] = [0x01, 0x00, 0x01, 0x03, 0x19, 0x01, 0x01];

fn begin_part(part: &mut [u8]) {
    if let Some(head) = part.first_chunk_mut() {
        *head = PART_HEAD;
    }
}

#[test]
fn a_part_of_data_may_be_too_long(rt: HostRuntime) -> Result<(), Fail> {
    let mut part = vec![in rt.alloc(); 0x41u8; 1_048_580]?;
    begin_part(part.as_mut_slice());
    let checks = Checks::new();
    called_does(&checks, rt.alloc(), Called::TakeTooLong(part.as_slice()));
    checks.end()
}

/// A refusal, and the RF that it sends.
const REFUSALS: [(Refusal<'static>, &[u8]); 4] = [
    (
        Refusal::Unspecified,
        &[0x0C, 0x06, 0x11, 0x01, 0x01, 0x32, 0x01, 0x00],
    ),
    (
        Refusal::Congestion,
        &[0x0C, 0x06, 0x11, 0x01, 0x01, 0x32, 0x01, 0x01],
    ),
    (
        Refusal::WithData(&[]),
        &[0x0C, 0x06, 0x11, 0x01, 0x01, 0x32, 0x01, 0x02],
    ),
    (
        Refusal::WithData(&[0x6E, 0x6F]),
        &[0x0C, 0x08, 0x11, 0x01, 0x01, 0x32, 0x03, 0x02, 0x6E, 0x6F],
    ),
];

fn refusals_are_sent(checks: &Checks, alloc: Global) {
    for (refusal, wanted) in REFUSALS {
        called_does(checks, alloc, Called::Refuse(refusal, wanted));
    }
}

#[test]
fn a_refusal_says_why(rt: HostRuntime) -> Result<(), Fail> {
    let checks = Checks::new();
    refusals_are_sent(&checks, rt.alloc());
    checks.end()
}
