//! Links of both classes, call by call, and the longest TSDUs between two of them.
//!
//! Most tests are a list of steps of one link, which `zero_goes`, `two_goes` or `any_goes` owns.

ghost use Rattle.std.specs.Prelude.{◌<◌};
ghost use Rattle.osi_class.specs.Link.{FitsAUnit};

use crate::checks::{Checks, OUT_OF_MEMORY, add, octets};
use crate::transport_units::only_unit;
use osi_class::*;
use osi_tpdu::{DataAcknowledgement, DataClass0, DataClass2, SizeCode, Tpdu, Window};
use std::alloc::Global;
use std::test::Fail;

/// What a link gives next: nothing; a DT of class 0 or of class 2 with this many octets; an AK.
#[derive(Clone, Copy)]
enum Given {
    Nothing,
    Part { end: bool, count: usize },
    Data { number: u8, end: bool, count: usize },
    Ack { number: u8, credit: u8 },
}

/// What a link hands out with a unit that it takes: nothing; the TSDU that this unit alone is; a TSDU with these octets,
/// joined from several.
#[derive(Clone, Copy)]
enum Received {
    Nothing,
    Whole,
    Joined(&'static [u8]),
}

/// What is asked of a link, and what it answers.
#[derive(Clone, Copy)]
enum Step {
    /// A TSDU is handed in.
    Send(&'static [u8]),
    /// A TSDU of 126 octets and an empty one are handed in together.
    SendTwo,
    /// This many TSDUs of an octet are handed in, and each goes at once, with the numbers from 0.
    SendEach(u8),
    /// The transport unit with these octets is taken, or refused with this fault.
    Take(&'static [u8], Option<LinkFault>),
    /// 16 units of 65,528 octets and one of 128 are taken, none of which ends its TSDU.
    TakeLong,
    /// This many units of an octet are taken, with the numbers from 0. Each is answered by the number after its own, and
    /// credit for one more.
    TakeEach(u8),
    /// The unit with these octets is taken, and the TSDU that it completes is handed out.
    Receive(&'static [u8], Received),
    /// The next unit.
    Give(Given),
    /// This many units of 123 octets are given, one after the other, and each is acknowledged.
    GiveEach(u8),
    /// The next TSDU, if there is one.
    HandOut(Option<&'static [u8]>),
    /// The next TSDU, which is the longest.
    HandOutLongest,
}

fn sends(link: &mut impl Link, tsdu: &[u8], checks: &Checks) {
    checks.memory(link.send_tsdu(tsdu));
}

/// A unit is taken, or refused with this fault.
fn takes(link: &mut impl Link, unit: &Tpdu<'_>, fault: Option<LinkFault>, checks: &Checks) {
    let found = link.take(unit).err();
    checks.that(found != Some(LinkFault::OutOfMemory), OUT_OF_MEMORY);
    checks.that(found == fault, "another answer to a unit");
}

fn takes_octets(link: &mut impl Link, octets: &[u8], fault: Option<LinkFault>, checks: &Checks) {
    if let Some(unit) = only_unit(octets, checks) {
        takes(link, &unit, fault, checks);
    }
}

/// Whether the unit is as wanted.
fn is_given(out: &Option<Out<'_>>, wanted: Given) -> bool {
    match (out, wanted) {
        (None, Given::Nothing) => true,
        (Some(Out::Data0 { end: e, octets }), Given::Part { end, count }) => {
            *e == end && octets.len() == count
        }
        (
            Some(
                Out::Data2 {
                    number: n,
                    end: e,
                    octets,
                },
            ),
            Given::Data { number, end, count },
        ) => *n == number && *e == end && octets.len() == count,
        (
            Some(
                Out::Ack {
                    number: n,
                    credit: c,
                },
            ),
            Given::Ack { number, credit },
        ) => *n == number && *c == credit,
        _ => false,
    }
}

fn gives(link: &mut impl Link, wanted: Given, checks: &Checks) {
    checks.that(is_given(&link.next_out(), wanted), "another unit");
}

/// Whether this TSDU was handed out, or none.
fn is_handed(handed: &Option<Vec<u8>>, wanted: Option<&[u8]>) -> bool {
    match handed {
        None => wanted.is_none(),
        Some(tsdu) => wanted == Some(tsdu.as_slice()),
    }
}

fn hands_out(link: &mut impl Link, wanted: Option<&[u8]>, checks: &Checks) {
    checks.that(is_handed(&link.next_tsdu(), wanted), "another TSDU");
}

/// The longest TSDU is handed out.
fn hands_out_longest(link: &mut impl Link, alloc: Global, checks: &Checks) {
    let longest = octets(alloc, LONGEST_TSDU, checks);
    hands_out(link, Some(longest.as_slice()), checks);
}

/// The answer to a unit is as wanted.
fn is_received(answer: &Result<Handed, LinkFault>, wanted: Received, checks: &Checks) {
    let is_wanted = match (answer, wanted) {
        (Ok(Handed::Nothing), Received::Nothing) | (Ok(Handed::Whole), Received::Whole) => true,
        (Ok(Handed::Joined(tsdu)), Received::Joined(octets)) => tsdu.as_slice() == octets,
        (Err(LinkFault::OutOfMemory), _) => return checks.that(false, OUT_OF_MEMORY),
        _ => false,
    };
    checks.that(is_wanted, "another TSDU is received");
}

fn receives(link: &mut impl Link, octets: &[u8], wanted: Received, checks: &Checks) {
    if let Some(unit) = only_unit(octets, checks) {
        let answer = link.receive(&unit);
        is_received(&answer, wanted, checks);
        drop(answer);
    }
}

/// A TSDU of 126 octets and an empty one are handed in together.
fn sends_two(link: &mut impl Link, alloc: Global, checks: &Checks) {
    let mut tsdus = Vec::new(alloc);
    add(&mut tsdus, octets(alloc, 126, checks), checks);
    add(&mut tsdus, Vec::new(alloc), checks);
    checks.memory(link.send_tsdus(tsdus.as_slice()));
}

fn sends_each(link: &mut impl Link, count: u8, checks: &Checks) {
    for number in 0..count {
        sends(link, b"A", checks);
        let data = Given::Data {
            number,
            end: true,
            count: 1,
        };
        gives(link, data, checks);
    }
}

/// Takes a DT of class 0 that does not end its TSDU.
fn takes_part(link: &mut impl Link, user: &[u8], checks: &Checks) {
    takes(
        link,
        &Tpdu::Dt0(DataClass0 { end: false, user }),
        None,
        checks,
    );
}

/// The octets of one of 16 units.
static PART: [u8; 65_528] = [0x5a; 65_528];

/// Those of one more, after which the longest TSDU is complete.
static LAST_PART: [u8; 128] = [0x5a; 128];

fn takes_long(link: &mut impl Link, checks: &Checks) {
    for _ in 0..16u8 {
        takes_part(link, &PART, checks);
    }
    takes_part(link, &LAST_PART, checks);
}

fn takes_each(link: &mut impl Link, count: u8, checks: &Checks) {
    for before in 0..count {
        takes_octets(link, &[4, 0xF0, 0, 1, 0x80 | before, 0x41], None, checks);
        let ack = Given::Ack {
            number: before.wrapping_add(1),
            credit: 1,
        };
        gives(link, ack, checks);
    }
}

/// One unit is sent and no other, and it is acknowledged.
fn a_unit_passes(link: &mut impl Link, number: u8, checks: &Checks) {
    let data = Given::Data {
        number,
        end: false,
        count: 123,
    };
    gives(link, data, checks);
    gives(link, Given::Nothing, checks);
    let next = number.wrapping_add(1) % 128;
    takes_octets(link, &[4, 0x61, 0, 1, next], None, checks);
}

fn gives_each(link: &mut impl Link, count: u8, checks: &Checks) {
    for unit in 0..count {
        a_unit_passes(link, unit % 128, checks);
    }
}

fn does(link: &mut impl Link, alloc: Global, step: Step, checks: &Checks) {
    match step {
        Step::Send(tsdu) => sends(link, tsdu, checks),
        Step::SendTwo => sends_two(link, alloc, checks),
        Step::SendEach(count) => sends_each(link, count, checks),
        Step::Take(octets, fault) => takes_octets(link, octets, fault, checks),
        Step::TakeLong => takes_long(link, checks),
        Step::TakeEach(count) => takes_each(link, count, checks),
        Step::Receive(octets, wanted) => receives(link, octets, wanted, checks),
        Step::Give(wanted) => gives(link, wanted, checks),
        Step::GiveEach(count) => gives_each(link, count, checks),
        Step::HandOut(wanted) => hands_out(link, wanted, checks),
        Step::HandOutLongest => hands_out_longest(link, alloc, checks),
    }
}

fn goes(link: &mut impl Link, alloc: Global, steps: &[Step], checks: &Checks) {
    for step in steps {
        does(link, alloc, *step, checks);
    }
}

/// The window and the credit of these numbers of units; `None` is reported.
fn flow(window: u8, credit: u8, checks: &Checks) -> Option<(Window, Credit)> {
    match (Window::new(window), Credit::new(credit)) {
        (Some(window), Some(credit)) => Some((window, credit)),
        _ => {
            checks.that(false, "no window, or no credit");
            None
        }
    }
}

/// A link of class 2 with this window and the credit that its peer gave; or one of class 0.
fn any(alloc: Global, size: Option<SizeCode>, flow: Option<(Window, Credit)>) -> AnyLink {
    match flow {
        Some((window, credit)) => AnyLink::Two(Class2::new(alloc, size, window, credit)),
        None => AnyLink::Zero(Class0::new(alloc, size)),
    }
}

/// A link of class 0 takes these steps.
fn zero_goes(alloc: Global, size: Option<SizeCode>, steps: &[Step], checks: &Checks) {
    let mut link = Class0::new(alloc, size);
    goes(&mut link, alloc, steps, checks);
    drop(link);
}

/// A link of class 2 takes these steps.
fn two_goes(
    alloc: Global,
    size: Option<SizeCode>,
    flow: (Window, Credit),
    steps: &[Step],
    checks: &Checks,
) {
    let mut link = Class2::new(alloc, size, flow.0, flow.1);
    goes(&mut link, alloc, steps, checks);
    drop(link);
}

/// A link of any class takes these steps.
fn any_goes(alloc: Global, flow: Option<(Window, Credit)>, steps: &[Step], checks: &Checks) {
    let mut link = any(alloc, None, flow);
    goes(&mut link, alloc, steps, checks);
    drop(link);
}

fn class_0_does(rt: &HostRuntime, size: Option<SizeCode>, steps: &[Step]) -> Result<(), Fail> {
    let checks = Checks::new();
    zero_goes(rt.alloc(), size, steps, &checks);
    checks.end()
}

fn class_2_does(
    rt: &HostRuntime,
    size: Option<SizeCode>,
    window: u8,
    credit: u8,
    steps: &[Step],
) -> Result<(), Fail> {
    let checks = Checks::new();
    if let Some(flow) = flow(window, credit, &checks) {
        two_goes(rt.alloc(), size, flow, steps, &checks);
    }
    checks.end()
}

/// A link of class 0, or of class 2 with a window of 2, takes these steps.
fn any_does(rt: &HostRuntime, is_class_2: bool, steps: &[Step]) -> Result<(), Fail> {
    let checks = Checks::new();
    let flow = if is_class_2 {
        flow(2, 0, &checks)
    } else {
        None
    };
    any_goes(rt.alloc(), flow, steps, &checks);
    checks.end()
}

static NO_ACK: [Step; 6] = [
    Step::Take(&[2, 0xF0, 0, 0x41], None),
    Step::Take(&[4, 0x63, 0, 1, 0], Some(LinkFault::WrongForm)),
    Step::Take(&[2, 0xF0, 0x80, 0x42], None),
    Step::HandOut(Some(b"AB")),
    Step::HandOut(None),
    Step::Give(Given::Nothing),
];

#[test]
fn class_0_takes_no_ack(rt: HostRuntime) -> Result<(), Fail> {
    class_0_does(&rt, None, &NO_ACK)
}

/// A TSDU in two parts, and one in a single unit.
static RECEIVED: [Step; 3] = [
    Step::Receive(&[2, 0xF0, 0, 0x41], Received::Nothing),
    Step::Receive(&[2, 0xF0, 0x80, 0x42], Received::Joined(b"AB")),
    Step::Receive(&[2, 0xF0, 0x80, 0x43], Received::Whole),
];

#[test]
fn a_unit_that_ends_a_tsdu_hands_it_out(rt: HostRuntime) -> Result<(), Fail> {
    class_0_does(&rt, None, &RECEIVED)
}

static PARTS: [Step; 6] = [
    Step::Send(&[0x5a; 126]),
    Step::Send(&[]),
    Step::Give(Given::Part {
        end: false,
        count: 125,
    }),
    Step::Give(Given::Part {
        end: true,
        count: 1,
    }),
    Step::Give(Given::Part {
        end: true,
        count: 0,
    }),
    Step::Give(Given::Nothing),
];

#[test]
fn a_tsdu_is_cut_at_the_size(rt: HostRuntime) -> Result<(), Fail> {
    class_0_does(&rt, SizeCode::new(7), &PARTS)
}

static LIST: [Step; 7] = [
    Step::Send(b"A"),
    Step::SendTwo,
    Step::Give(Given::Part {
        end: true,
        count: 1,
    }),
    Step::Give(Given::Part {
        end: false,
        count: 125,
    }),
    Step::Give(Given::Part {
        end: true,
        count: 1,
    }),
    Step::Give(Given::Part {
        end: true,
        count: 0,
    }),
    Step::Give(Given::Nothing),
];

#[test]
fn tsdus_are_handed_in_together(rt: HostRuntime) -> Result<(), Fail> {
    class_0_does(&rt, SizeCode::new(7), &LIST)
}

/// Fifteen TSDUs of an octet each are sent at once, and no more.
static EDGE: [Step; 6] = [
    Step::Take(&[4, 0x62, 0, 1, 0], Some(LinkFault::CreditReduced)),
    Step::Take(&[4, 0x63, 0, 1, 1], Some(LinkFault::OutOfSequence)),
    Step::Take(&[4, 0x6F, 0, 1, 0], None),
    Step::SendEach(15),
    Step::Send(b"A"),
    Step::Give(Given::Nothing),
];

#[test]
fn an_ack_sets_the_upper_edge(rt: HostRuntime) -> Result<(), Fail> {
    assert!(rt; Credit::new(16).is_none());
    class_2_does(&rt, SizeCode::new(7), 4, 3, &EDGE)
}

/// 129 units pass, so that numbers wrap around, and then the last one.
static NUMBERS: [Step; 5] = [
    Step::Send(&[0x5a; 15_868]),
    Step::GiveEach(129),
    Step::Give(Given::Data {
        number: 1,
        end: true,
        count: 1,
    }),
    Step::Take(&[4, 0x61, 0, 1, 2], None),
    Step::Give(Given::Nothing),
];

#[test]
fn numbers_go_round(rt: HostRuntime) -> Result<(), Fail> {
    class_2_does(&rt, SizeCode::new(7), 1, 1, &NUMBERS)
}

static WINDOW: [Step; 9] = [
    Step::Take(&[4, 0xF0, 0, 1, 0x81, 0x41], Some(LinkFault::OutOfSequence)),
    Step::Take(&[4, 0xF0, 0, 1, 0, 0x41], None),
    Step::Take(&[4, 0xF0, 0, 1, 0x81, 0x42], None),
    Step::Take(&[4, 0xF0, 0, 1, 0x82, 0x43], Some(LinkFault::OutOfSequence)),
    Step::Give(Given::Ack {
        number: 1,
        credit: 2,
    }),
    Step::Give(Given::Ack {
        number: 2,
        credit: 2,
    }),
    Step::Give(Given::Nothing),
    Step::Take(&[4, 0xF0, 0, 1, 0x82, 0x43], None),
    Step::HandOut(Some(b"AB")),
];

#[test]
fn each_unit_taken_gives_one_ack(rt: HostRuntime) -> Result<(), Fail> {
    any_does(&rt, true, &WINDOW)
}

/// A unit completes a TSDU, and is acknowledged.
static RECEIVED_AND_ANSWERED: [Step; 2] = [
    Step::Receive(&[4, 0xF0, 0, 1, 0x80, 0x41], Received::Whole),
    Step::Give(Given::Ack {
        number: 1,
        credit: 2,
    }),
];

#[test]
fn a_unit_of_class_2_hands_out_its_tsdu(rt: HostRuntime) -> Result<(), Fail> {
    any_does(&rt, true, &RECEIVED_AND_ANSWERED)
}

static FIVE: [Step; 1] = [Step::TakeEach(5)];

#[test]
fn the_fifth_unit_of_a_window_of_1_is_answered_by_number_5(rt: HostRuntime) -> Result<(), Fail> {
    class_2_does(&rt, None, 1, 0, &FIVE)
}

/// A link takes no more than the longest TSDU.
static LONGEST: [Step; 4] = [
    Step::TakeLong,
    Step::Take(&[2, 0xF0, 0x80, 0x41], Some(LinkFault::TsduTooLong)),
    Step::Take(&[2, 0xF0, 0x80], None),
    Step::HandOutLongest,
];

#[test]
fn a_tsdu_has_at_most_1048576_octets(rt: HostRuntime) -> Result<(), Fail> {
    any_does(&rt, false, &LONGEST)
}

/// The unit that a link gives, for reference 1.
fn unit_of(out: Out<'_>) -> Tpdu<'_>
    requires { FitsAUnit out }
{
    match out {
        Out::Data0 { end, octets } => Tpdu::Dt0(DataClass0 { end, user: octets }),
        Out::Data2 {
            number,
            end,
            octets,
        } => Tpdu::Dt2(DataClass2 {
            destination: 1,
            number,
            end,
            user: octets,
        }),
        Out::Ack { number, credit } => Tpdu::Ak(DataAcknowledgement {
            credit,
            destination: 1,
            number,
        }),
    }
}

/// Hands the next unit of one link to the other, for reference 1; false if there is none.
fn passes(from: &mut AnyLink, to: &mut AnyLink, checks: &Checks) -> bool {
    match from.next_out() {
        None => false,
        Some(out) => {
            takes(to, &unit_of(out), None, checks);
            true
        }
    }
}

/// Hands each unit that one link gives to the other, until it gives none.
fn pass_all(from: &mut AnyLink, to: &mut AnyLink, checks: &Checks) {
    for _ in 0..300u16 {
        if !passes(from, to, checks) {
            return;
        }
    }
}

/// Moves two TSDUs of the greatest length.
fn two_go_over(from: &mut AnyLink, to: &mut AnyLink, longest: &[u8], checks: &Checks) {
    for _ in 0..18u8 {
        pass_all(from, to, checks);
        pass_all(to, from, checks);
    }
    hands_out(to, Some(longest), checks);
    hands_out(to, Some(longest), checks);
}

/// Sends the longest TSDU, which is given away.
fn gives_away(link: &mut AnyLink, alloc: Global, checks: &Checks) {
    let longest = octets(alloc, LONGEST_TSDU, checks);
    checks.memory(link.send_owned(longest));
}

/// Moves the longest TSDU, once borrowed and once given away, in both orders.
fn all_go_over(from: &mut AnyLink, to: &mut AnyLink, alloc: Global, checks: &Checks) {
    let longest = octets(alloc, LONGEST_TSDU, checks);
    sends(from, longest.as_slice(), checks);
    gives_away(from, alloc, checks);
    two_go_over(from, to, longest.as_slice(), checks);
    gives_away(from, alloc, checks);
    sends(from, longest.as_slice(), checks);
    two_go_over(from, to, longest.as_slice(), checks);
}

/// A link with 8,192 octets in a unit.
fn wide(alloc: Global, flow: Option<(Window, Credit)>) -> AnyLink {
    any(alloc, SizeCode::new(13), flow)
}

/// All go over from this link to a new one.
fn all_go_over_from(
    from: &mut AnyLink,
    alloc: Global,
    flow: Option<(Window, Credit)>,
    checks: &Checks,
) {
    let mut to = wide(alloc, flow);
    all_go_over(from, &mut to, alloc, checks);
    drop(to);
}

/// All go over from one new link to another.
fn all_go_over_wide(alloc: Global, flow: Option<(Window, Credit)>, checks: &Checks) {
    let mut from = wide(alloc, flow);
    all_go_over_from(&mut from, alloc, flow, checks);
    drop(from);
}

#[test]
fn the_longest_tsdu_goes_over_class_0(rt: HostRuntime) -> Result<(), Fail> {
    let checks = Checks::new();
    all_go_over_wide(rt.alloc(), None, &checks);
    checks.end()
}

#[test]
fn the_longest_tsdu_goes_over_class_2(rt: HostRuntime) -> Result<(), Fail> {
    let checks = Checks::new();
    let flow = flow(15, 15, &checks);
    all_go_over_wide(rt.alloc(), flow, &checks);
    checks.end()
}
