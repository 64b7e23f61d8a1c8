//! Carriers: cases that no whole end shows (an end of neither class, all references, sending if nothing is open), and
//! that calls succeed if memory is ample.
//!
//! Each test is a list of steps of one carrier, which `fresh_goes` owns.

ghost use Rattle.std.specs.Prelude.{◌<◌};

use crate::checks::{Checks, OUT_OF_MEMORY};
use crate::sending::{Sending, is_answered, sends};
use osi_carrier::*;
use osi_class::{LinkFault, Local};
use osi_tpdu::{SizeCode, Window};
use std::alloc::Global;
use std::test::Fail;

/// What happens to a connection.
#[derive(Clone, Copy)]
pub(crate) enum Told {
    /// The first is open.
    Opened,
    /// The one with this reference was refused, for reason 130.
    Refused(u16),
    /// A unit of the first is out of sequence.
    Faulted,
    /// A TSDU arrived on the first.
    Tsdu(&'static [u8]),
}

/// What is asked of a carrier, and what it answers.
#[derive(Clone, Copy)]
pub(crate) enum Step {
    /// A connection is asked for, and is given this reference.
    Connect(u16),
    /// No connection may be asked for, by `may_connect` and by `connect`.
    NoConnect(OpenError),
    /// A connection is asked for with each reference in turn, and refused.
    ConnectEach,
    /// TSDUs are sent.
    Send(Sending),
    /// All of these octets are used.
    Take(&'static [u8]),
    /// All of these octets are used, and this TSDU of connection 1 is lent from them, or none.
    Lend(&'static [u8], Option<&'static [u8]>),
    /// This many AKs are taken, each of the 15 units sent since the one before it, with credit for 15 more.
    TakeAcks(u8),
    /// The backlog is exactly these octets, and they are taken.
    Write(&'static [u8]),
    /// The backlog has at least this many octets, and ends with these.
    KeepToWrite(usize, &'static [u8]),
    /// The whole backlog is taken.
    Carry,
    /// The next event.
    Tell(Told),
    /// This many octets are unsent, all of them of connection 1, and this many connections are live.
    HoldBack(usize, usize),
    /// Connection 1 is closed for reason 128.
    Close,
}

/// The answer to a request for a connection is this one.
fn connects(carrier: &mut Carrier, wanted: Result<Ref, OpenError>, checks: &Checks) {
    let answer = carrier.connect(None, None);
    checks.that(answer != Err(OpenError::OutOfMemory), OUT_OF_MEMORY);
    checks.that(answer == wanted, "another answer to connecting");
}

fn refuses_to_connect(carrier: &mut Carrier, error: OpenError, checks: &Checks) {
    let is_told = carrier.may_connect() == Err(error);
    checks.that(is_told, "another answer before connecting");
    connects(carrier, Err(error), checks);
}

/// Takes the whole backlog.
fn all_is_taken(carrier: &mut Carrier) {
    carrier.taken(carrier.outgoing().len());
}

fn writes(carrier: &mut Carrier, octets: &[u8], checks: &Checks) {
    let is_written = carrier.outgoing() == octets;
    checks.that(is_written, "other octets are written");
    all_is_taken(carrier);
}

fn keeps_to_write(carrier: &Carrier, count: usize, last: &[u8], checks: &Checks) {
    let octets = carrier.outgoing();
    checks.that(octets.len() >= count, "too few octets are written");
    checks.that(octets.ends_with(last), "other octets are written last");
}

/// All octets were used, which are so many.
fn are_used(carrier: &Carrier, used: usize, count: usize, checks: &Checks) {
    let reason = carrier.ended();
    checks.that(reason != Some(EndReason::NoMemory), OUT_OF_MEMORY);
    checks.that(reason.is_none(), "the carrier has ended");
    checks.that(used == count, "octets are left");
}

fn takes(carrier: &mut Carrier, octets: &[u8], checks: &Checks) {
    let fed = carrier.feed(octets);
    are_used(carrier, fed.used, octets.len(), checks);
}

/// All octets are used, and this TSDU is lent, or none.
fn lends(carrier: &mut Carrier, octets: &[u8], wanted: Option<&[u8]>, checks: &Checks) {
    let told = carrier.feed_lent(octets);
    checks.that(is_lent(told.lent, wanted), "another TSDU is lent");
    are_used(carrier, told.fed.used, octets.len(), checks);
}

/// Whether this TSDU of connection 1 is lent, or none.
fn is_lent(lent: Option<Lent<'_>>, wanted: Option<&[u8]>) -> bool {
    match (lent, wanted) {
        (None, None) => true,
        (Some(lent), Some(tsdu)) => lent.reference == Ref(1) && lent.octets == tsdu,
        _ => false,
    }
}

fn takes_acks(carrier: &mut Carrier, acks: u8, checks: &Checks) {
    for turn in 0..acks {
        let number = turn.wrapping_mul(15).wrapping_add(4) % 128;
        takes(carrier, &[3, 0, 0, 9, 4, 0x6F, 0, 1, number], checks);
    }
}

/// Whether the event is this one.
fn is_told(event: &Option<Event>, told: Told) -> bool {
    match (event, told) {
        (Some(Event::Opened(Ref(1))), Told::Opened) => true,
        (Some(Event::Refused(Ref(found), 130)), Told::Refused(reference)) => *found == reference,
        (Some(Event::Faulted(Ref(1), LinkFault::OutOfSequence)), Told::Faulted) => true,
        (Some(Event::Tsdu(Ref(1), tsdu)), Told::Tsdu(octets)) => tsdu.as_slice() == octets,
        _ => false,
    }
}

/// The next event is this one.
fn tells(carrier: &mut Carrier, told: Told, checks: &Checks) {
    let event = carrier.next_event();
    checks.that(is_told(&event, told), "another event");
    drop(event);
}

/// A connection is asked for and refused.
fn is_refused(carrier: &mut Carrier, reference: u16, checks: &Checks) {
    let [high, low] = reference.to_be_bytes();
    connects(carrier, Ok(Ref(reference)), checks);
    all_is_taken(carrier);
    takes(
        carrier,
        &[3, 0, 0, 0x0B, 6, 0x80, high, low, 0, 0, 0x82],
        checks,
    );
    tells(carrier, Told::Refused(reference), checks);
}

/// Each reference is given once.
fn each_is_refused(carrier: &mut Carrier, checks: &Checks) {
    for reference in 1..=65_535u16 {
        is_refused(carrier, reference, checks);
    }
}

fn holds_back(carrier: &Carrier, octets: usize, live: usize, checks: &Checks) {
    let counts = [
        carrier.unsent(Ref(1)),
        carrier.unsent(Ref(2)),
        carrier.backlog(),
    ];
    checks.that(counts == [octets, 0, octets], "other octets are unsent");
    checks.that(carrier.live() == live, "other connections are live");
}

/// Closes connection 1.
fn closes(carrier: &mut Carrier, checks: &Checks) {
    is_answered(carrier.close(Ref(1), 128), None, checks);
}

fn does(carrier: &mut Carrier, alloc: Global, step: Step, checks: &Checks) {
    match step {
        Step::Connect(reference) => connects(carrier, Ok(Ref(reference)), checks),
        Step::NoConnect(error) => refuses_to_connect(carrier, error, checks),
        Step::ConnectEach => each_is_refused(carrier, checks),
        Step::Send(sending) => sends(carrier, alloc, sending, checks),
        Step::Take(octets) => takes(carrier, octets, checks),
        Step::Lend(octets, tsdu) => lends(carrier, octets, tsdu, checks),
        Step::TakeAcks(acks) => takes_acks(carrier, acks, checks),
        Step::Write(octets) => writes(carrier, octets, checks),
        Step::KeepToWrite(count, last) => keeps_to_write(carrier, count, last, checks),
        Step::Carry => all_is_taken(carrier),
        Step::Tell(told) => tells(carrier, told, checks),
        Step::HoldBack(octets, live) => holds_back(carrier, octets, live, checks),
        Step::Close => closes(carrier, checks),
    }
}

fn goes(carrier: &mut Carrier, alloc: Global, steps: &[Step], checks: &Checks) {
    for step in steps {
        does(carrier, alloc, *step, checks);
    }
}

fn goes_on(
    carrier: &mut Carrier,
    alloc: Global,
    opening: &[Step],
    steps: &[Step],
    checks: &Checks,
) {
    goes(carrier, alloc, opening, checks);
    goes(carrier, alloc, steps, checks);
}

/// Which end takes steps: one that asks for connections or one that is asked, with both classes or neither.
#[derive(Clone, Copy)]
struct End {
    is_caller: bool,
    classes: bool,
}

const CALLER: End = End {
    is_caller: true,
    classes: true,
};

/// What an end with size 0A and window 4 has, with both classes or neither; `None` is reported.
fn local(classes: bool, checks: &Checks) -> Option<Local> {
    match (SizeCode::new(10), Window::new(4)) {
        (Some(size), Some(window)) => Some(Local {
            class0: classes,
            class2: classes,
            size,
            window,
        }),
        _ => {
            checks.that(false, "no size, or no window");
            None
        }
    }
}

fn fresh(alloc: Global, is_caller: bool, local: Local) -> Carrier {
    if is_caller {
        Carrier::caller(alloc, local)
    } else {
        Carrier::called(alloc, local)
    }
}

/// A fresh end takes steps that open a connection, and then others. It is dropped by a call of its own.
fn fresh_goes(
    alloc: Global,
    is_caller: bool,
    local: Local,
    opening: &[Step],
    steps: &[Step],
    checks: &Checks,
) {
    let mut carrier = fresh(alloc, is_caller, local);
    goes_on(&mut carrier, alloc, opening, steps, checks);
    drop(carrier);
}

fn end_does(rt: &HostRuntime, end: End, opening: &[Step], steps: &[Step]) -> Result<(), Fail> {
    let checks = Checks::new();
    if let Some(local) = local(end.classes, &checks) {
        fresh_goes(rt.alloc(), end.is_caller, local, opening, steps, &checks);
    }
    checks.end()
}

/// A caller of both classes takes these steps.
pub(crate) fn caller_does(rt: &HostRuntime, opening: &[Step], steps: &[Step]) -> Result<(), Fail> {
    end_does(rt, CALLER, opening, steps)
}

/// The CR of a caller with both classes and window 3, and the DR that refuses connection 1, since no class can be
/// selected.
static NO_CLASS: [Step; 2] = [
    Step::Take(&[
        0x03, 0x00, 0x00, 0x14, 0x0F, 0xE3, 0x00, 0x00, 0x00, 0x01, 0x20, 0xC0, 0x01, 0x0A, 0xC6,
        0x01, 0x00, 0xC7, 0x01, 0x00,
    ]),
    Step::Write(&[
        0x03, 0x00, 0x00, 0x0B, 0x06, 0x80, 0x00, 0x01, 0x00, 0x00, 0x82,
    ]),
];

#[test]
fn an_end_of_neither_class_refuses_a_request(rt: HostRuntime) -> Result<(), Fail> {
    let end = End {
        is_caller: false,
        classes: false,
    };
    end_does(&rt, end, &[], &NO_CLASS)
}

/// A CR of class 0 from reference 1.
static CLASS_0: [Step; 2] = [
    Step::Connect(1),
    Step::Write(&[
        0x03, 0x00, 0x00, 0x0E, 0x09, 0xE0, 0x00, 0x00, 0x00, 0x01, 0x00, 0xC0, 0x01, 0x0A,
    ]),
];

#[test]
fn an_end_of_neither_class_proposes_class_0(rt: HostRuntime) -> Result<(), Fail> {
    let end = End {
        is_caller: true,
        classes: false,
    };
    end_does(&rt, end, &[], &CLASS_0)
}

static NO_CONNECT: [Step; 1] = [Step::NoConnect(OpenError::NotCaller)];

#[test]
fn a_called_end_asks_for_nothing(rt: HostRuntime) -> Result<(), Fail> {
    let end = End {
        is_caller: false,
        classes: true,
    };
    end_does(&rt, end, &[], &NO_CONNECT)
}

static EACH_REFERENCE: [Step; 2] = [
    Step::ConnectEach,
    Step::NoConnect(OpenError::ReferencesUsedUp),
];

#[test]
fn references_1_to_65535_are_given_once(rt: HostRuntime) -> Result<(), Fail> {
    caller_does(&rt, &[], &EACH_REFERENCE)
}

static NOT_OPEN: [Step; 3] = [
    Step::Send(Sending::One(b"A", Some(SendError::NotOpen))),
    Step::Connect(1),
    Step::Send(Sending::One(b"A", Some(SendError::NotOpen))),
];

#[test]
fn a_tsdu_is_sent_on_an_open_connection_alone(rt: HostRuntime) -> Result<(), Fail> {
    caller_does(&rt, &[], &NOT_OPEN)
}

/// A CC of class 2 for connection 1, with window 4.
const CONFIRM: [u8; 17] = [
    0x03, 0x00, 0x00, 0x11, 0x0C, 0xD4, 0x00, 0x01, 0x00, 0x01, 0x20, 0xC0, 0x01, 0x0A, 0xC6, 0x01,
    0x00,
];

/// Connection 1 is opened in class 2.
pub(crate) static OPEN_IN_CLASS_2: [Step; 4] = [
    Step::Connect(1),
    Step::Carry,
    Step::Take(&CONFIRM),
    Step::Tell(Told::Opened),
];

/// Connection 1 is opened by a CC of class 0.
pub(crate) static OPEN_IN_CLASS_0: [Step; 4] = [
    Step::Connect(1),
    Step::Carry,
    Step::Take(&[
        0x03, 0x00, 0x00, 0x0E, 0x09, 0xD0, 0x00, 0x01, 0x00, 0x01, 0x00, 0xC0, 0x01, 0x0A,
    ]),
    Step::Tell(Told::Opened),
];

/// A TSDU of the greatest length is sent in each way, and one of one octet more is refused. The peer has not given
/// enough credit for the first, so most of it and all others wait.
static LENGTHS: [Step; 5] = [
    Step::Send(Sending::Long(1_048_577, Some(SendError::TooLong))),
    Step::Send(Sending::Long(1_048_576, None)),
    Step::Send(Sending::Long(1_048_576, None)),
    Step::Send(Sending::OwnedLong(1_048_576)),
    Step::Send(Sending::Together(2, 1_048_576)),
];

#[test]
fn a_sent_tsdu_has_at_most_1048576_octets(rt: HostRuntime) -> Result<(), Fail> {
    caller_does(&rt, &OPEN_IN_CLASS_2, &LENGTHS)
}

/// A TSDU arrives with number 5, where 0 is expected.
static FAULT: [Step; 3] = [
    Step::Take(&[3, 0, 0, 0x0A, 4, 0xF0, 0, 1, 0x85, 0x5A]),
    Step::Write(&[3, 0, 0, 0x0B, 6, 0x80, 0, 1, 0, 1, 0x85]),
    Step::Tell(Told::Faulted),
];

#[test]
fn a_fault_is_told_of_its_connection(rt: HostRuntime) -> Result<(), Fail> {
    caller_does(&rt, &OPEN_IN_CLASS_2, &FAULT)
}

/// A TSDU is sent in a DT with number 0. One that was given away is sent in a DT with number 1. One arrives and is
/// acknowledged. The connection is closed with a DR, and nothing can be sent on it after that.
static CARRY_AND_CLOSE: [Step; 10] = [
    Step::Send(Sending::One(b"A", None)),
    Step::Write(&[3, 0, 0, 0x0A, 4, 0xF0, 0, 1, 0x80, 0x41]),
    Step::Send(Sending::Owned(b"C")),
    Step::Write(&[3, 0, 0, 0x0A, 4, 0xF0, 0, 1, 0x81, 0x43]),
    Step::Take(&[3, 0, 0, 0x0A, 4, 0xF0, 0, 1, 0x80, 0x42]),
    Step::Write(&[3, 0, 0, 9, 4, 0x64, 0, 1, 1]),
    Step::Tell(Told::Tsdu(b"B")),
    Step::Close,
    Step::Write(&[3, 0, 0, 0x0B, 6, 0x80, 0, 1, 0, 1, 0x80]),
    Step::Send(Sending::One(b"A", Some(SendError::NotOpen))),
];

#[test]
fn a_connection_of_class_2_carries_and_is_closed(rt: HostRuntime) -> Result<(), Fail> {
    caller_does(&rt, &OPEN_IN_CLASS_2, &CARRY_AND_CLOSE)
}

/// Five DTs of class 0.
static FIVE_IN_CLASS_0: [Step; 2] = [
    Step::Send(Sending::Five),
    Step::Write(&[
        3, 0, 0, 8, 2, 0xF0, 0x80, 0x41, 3, 0, 0, 8, 2, 0xF0, 0x80, 0x42, 3, 0, 0, 8, 2, 0xF0,
        0x80, 0x43, 3, 0, 0, 8, 2, 0xF0, 0x80, 0x44, 3, 0, 0, 8, 2, 0xF0, 0x80, 0x45,
    ]),
];

#[test]
fn tsdus_are_sent_together_in_class_0(rt: HostRuntime) -> Result<(), Fail> {
    caller_does(&rt, &OPEN_IN_CLASS_0, &FIVE_IN_CLASS_0)
}

/// Four DTs of class 2, with the numbers 0 to 3, and the last TSDU after an AK with number 4 and credit 4.
static FIVE_IN_CLASS_2: [Step; 4] = [
    Step::Send(Sending::Five),
    Step::Write(&[
        3, 0, 0, 0x0A, 4, 0xF0, 0, 1, 0x80, 0x41, 3, 0, 0, 0x0A, 4, 0xF0, 0, 1, 0x81, 0x42, 3, 0,
        0, 0x0A, 4, 0xF0, 0, 1, 0x82, 0x43, 3, 0, 0, 0x0A, 4, 0xF0, 0, 1, 0x83, 0x44,
    ]),
    Step::Take(&[3, 0, 0, 9, 4, 0x64, 0, 1, 4]),
    Step::Write(&[3, 0, 0, 0x0A, 4, 0xF0, 0, 1, 0x84, 0x45]),
];

#[test]
fn tsdus_are_sent_together_in_class_2(rt: HostRuntime) -> Result<(), Fail> {
    caller_does(&rt, &OPEN_IN_CLASS_2, &FIVE_IN_CLASS_2)
}

/// Three DTs of class 0.
static PIECES_IN_CLASS_0: [Step; 2] = [
    Step::Send(Sending::Pieces),
    Step::Write(&[
        3, 0, 0, 0x0A, 2, 0xF0, 0x80, 0x46, 0x41, 0x42, 3, 0, 0, 0x0A, 2, 0xF0, 0x80, 0x4D, 0x43,
        0x44, 3, 0, 0, 9, 2, 0xF0, 0x80, 0x4C, 0x45,
    ]),
];

#[test]
fn octets_are_cut_into_tsdus_in_class_0(rt: HostRuntime) -> Result<(), Fail> {
    caller_does(&rt, &OPEN_IN_CLASS_0, &PIECES_IN_CLASS_0)
}

/// Three DTs of class 2, with the numbers 0 to 2. Then there is credit for one more, with number 3. The other two go after
/// an AK with number 4 and credit 4.
static PIECES_IN_CLASS_2: [Step; 6] = [
    Step::Send(Sending::Pieces),
    Step::Write(&[
        3, 0, 0, 0x0C, 4, 0xF0, 0, 1, 0x80, 0x46, 0x41, 0x42, 3, 0, 0, 0x0C, 4, 0xF0, 0, 1, 0x81,
        0x4D, 0x43, 0x44, 3, 0, 0, 0x0B, 4, 0xF0, 0, 1, 0x82, 0x4C, 0x45,
    ]),
    Step::Send(Sending::Pieces),
    Step::Write(&[3, 0, 0, 0x0C, 4, 0xF0, 0, 1, 0x83, 0x46, 0x41, 0x42]),
    Step::Take(&[3, 0, 0, 9, 4, 0x64, 0, 1, 4]),
    Step::Write(&[
        3, 0, 0, 0x0C, 4, 0xF0, 0, 1, 0x84, 0x4D, 0x43, 0x44, 3, 0, 0, 0x0B, 4, 0xF0, 0, 1, 0x85,
        0x4C, 0x45,
    ]),
];

#[test]
fn octets_are_cut_into_tsdus_in_class_2(rt: HostRuntime) -> Result<(), Fail> {
    caller_does(&rt, &OPEN_IN_CLASS_2, &PIECES_IN_CLASS_2)
}

/// An empty list is refused before connection 1 is opened. After that it changes nothing.
static REFUSED_AND_OPEN: [Step; 5] = [
    Step::Send(Sending::Nothing(Some(SendError::NotOpen))),
    Step::Connect(1),
    Step::Carry,
    Step::Take(&CONFIRM),
    Step::Tell(Told::Opened),
];

static NOTHING: [Step; 2] = [Step::Send(Sending::Nothing(None)), Step::Write(&[])];

#[test]
fn an_empty_list_is_sent_on_an_open_connection_alone(rt: HostRuntime) -> Result<(), Fail> {
    caller_does(&rt, &REFUSED_AND_OPEN, &NOTHING)
}

/// Sends six TSDUs of two octets with credit for four. An AK of the four gives credit for one more. Then the connection
/// is closed, which a DC answers.
static HELD_BACK: [Step; 14] = [
    Step::Send(Sending::One(b"AB", None)),
    Step::Send(Sending::One(b"AB", None)),
    Step::Send(Sending::One(b"AB", None)),
    Step::Send(Sending::One(b"AB", None)),
    Step::Send(Sending::One(b"AB", None)),
    Step::Send(Sending::One(b"AB", None)),
    Step::Carry,
    Step::HoldBack(4, 1),
    Step::Take(&[3, 0, 0, 9, 4, 0x61, 0, 1, 4]),
    Step::HoldBack(2, 1),
    Step::Close,
    Step::HoldBack(0, 1),
    Step::Take(&[3, 0, 0, 0x0A, 5, 0xC0, 0, 1, 0, 1]),
    Step::HoldBack(0, 0),
];

#[test]
fn what_credit_holds_back_is_unsent(rt: HostRuntime) -> Result<(), Fail> {
    caller_does(&rt, &OPEN_IN_CLASS_2, &HELD_BACK)
}

/// A thousand TSDUs of one octet are sent in one call, and a thousand that are given away: credit holds all but four
/// back.
static THOUSANDS: [Step; 2] = [
    Step::Send(Sending::Together(1000, 1)),
    Step::HoldBack(1996, 1),
];

#[test]
fn a_thousand_tsdus_are_sent_together(rt: HostRuntime) -> Result<(), Fail> {
    caller_does(&rt, &OPEN_IN_CLASS_2, &THOUSANDS)
}

/// Sends 18 TSDUs of 1,048,576 octets, of which credit lets four units of 1,019 octets out. Before the last one almost 17
/// MiB wait. After 140 AKs the connection is closed, when nobody has taken more than 2 MiB: the DR is the last of them.
static EIGHTEEN: [Step; 22] = [
    Step::Send(Sending::Long(1_048_576, None)),
    Step::Send(Sending::Long(1_048_576, None)),
    Step::Send(Sending::Long(1_048_576, None)),
    Step::Send(Sending::Long(1_048_576, None)),
    Step::Send(Sending::Long(1_048_576, None)),
    Step::Send(Sending::Long(1_048_576, None)),
    Step::Send(Sending::Long(1_048_576, None)),
    Step::Send(Sending::Long(1_048_576, None)),
    Step::Send(Sending::Long(1_048_576, None)),
    Step::Send(Sending::Long(1_048_576, None)),
    Step::Send(Sending::Long(1_048_576, None)),
    Step::Send(Sending::Long(1_048_576, None)),
    Step::Send(Sending::Long(1_048_576, None)),
    Step::Send(Sending::Long(1_048_576, None)),
    Step::Send(Sending::Long(1_048_576, None)),
    Step::Send(Sending::Long(1_048_576, None)),
    Step::Send(Sending::Long(1_048_576, None)),
    Step::Send(Sending::Long(1_048_576, None)),
    Step::HoldBack(18_870_292, 1),
    Step::TakeAcks(140),
    Step::Close,
    Step::KeepToWrite(2_097_152, &[3, 0, 0, 0x0B, 6, 0x80, 0, 1, 0, 1, 0x80]),
];

#[test]
fn eighteen_mib_wait_and_a_close_follows_two(rt: HostRuntime) -> Result<(), Fail> {
    caller_does(&rt, &OPEN_IN_CLASS_2, &EIGHTEEN)
}
