//! Whole ends: cases that no script of `osi_runs` can ask for, and the addresses that distinguish two connections of
//! one port.

use crate::checks::{Checks, OUT_OF_MEMORY};
use crate::sessions::{ALL_UNITS, ASKER_WISHES, failure, serial};
use bitflags::Flags;
use osi_carrier::{EndReason, OpenError, Ref};
use osi_class::Local;
use osi_session::{CallError, Indication, Phase, Refusal, Request};
use osi_spdu::{Requirements, Serial, TsduSizes};
use osi_stack::{Addresses, Connect, ConnectError, SessionSelector, Stack};
use osi_tpdu::{SizeCode, Tsap, Window};
use std::alloc::Global;
use std::test::Fail;

const HERE: [u8; 4] = [0x48, 0x45, 0x52, 0x45];

const ONE: [u8; 3] = [0x4F, 0x4E, 0x45];

const TWO: [u8; 16] = [0x32; 16];

/// A session address of 17 octets.
const TOO_LONG: [u8; 17] = [0x41; 17];

/// Two ends.
#[derive(Drop)]
struct Ends {
    left: Stack,
    right: Stack,
}

/// One of two ends.
#[derive(Clone, Copy)]
enum End {
    Left,
    Right,
}

/// What an end does, or what is seen of it.
#[derive(Clone, Copy)]
enum Step {
    /// It asks for a connection with the user at this address, or that is refused.
    Asks(&'static [u8], Option<ConnectError>),
    /// Its backlog is carried to the other end, up to an indication.
    Carries,
    /// The same; and whether there is an indication.
    Shows(bool),
    /// Its user refuses this connection.
    Refuses(u16),
    /// It gives up one connection, or that is refused.
    GivesUp(u16, Option<CallError>),
    /// This connection was asked for at this address, or has no addresses.
    IsFor(u16, Option<&'static [u8]>),
    /// Its backlog is exactly these octets.
    HasToSend(&'static [u8]),
    /// This many connections are live, and this one is in this phase.
    Stands(usize, u16, Phase),
    IsOver(bool),
}

use End::{Left, Right};
use Step::{Asks, Carries, GivesUp, HasToSend, IsFor, IsOver, Refuses, Shows, Stands};

type Steps = &'static [(End, Step)];

/// Class 2, with size 0A and window 4.
fn local() -> Local {
    Local {
        class0: false,
        class2: true,
        size: SizeCode::new(10).unwrap(),
        window: Window::new(4).unwrap(),
    }
}

fn two_ends(alloc: Global) -> Ends {
    Ends {
        left: Stack::caller(alloc, local()),
        right: Stack::called(alloc, local()),
    }
}

/// The answer to a request for a connection.
fn connect(stack: &mut Stack, connect: &Connect) -> Result<Ref, ConnectError> {
    stack.connect(connect)
}

/// What was wrong if a connection was not asked for.
fn no_connection(error: ConnectError) -> &'static str {
    match error {
        ConnectError::Open(OpenError::OutOfMemory) => OUT_OF_MEMORY,
        _ => "no connection is asked for",
    }
}

/// The connection is asked for, or refused.
fn asks(checks: &Checks, stack: &mut Stack, asked: &Connect, refused: Option<ConnectError>) {
    match connect(stack, asked) {
        Ok(_) => checks.that(refused.is_none(), "a connection is asked for"),
        Err(error) => checks.that(refused == Some(error), no_connection(error)),
    }
}

/// A request for a connection with the user at this address, without a calling address.
fn asking(user: &[u8]) -> Connect<'_> {
    Connect {
        requirements: Requirements::from_bits_retain(ALL_UNITS),
        serial: serial(),
        wishes: ASKER_WISHES,
        calling_tsap: Tsap::new(&HERE),
        called_tsap: None,
        calling_selector: None,
        called_selector: Some(user),
        sizes: TsduSizes::NONE,
        user_data: &[],
    }
}

/// Asks for a connection with addresses and user data of the greatest lengths.
fn asks_at_length(checks: &Checks, left: &mut Stack, user_data: &[u8]) {
    let asked = Connect {
        calling_tsap: Tsap::new(&[0x42; 32]),
        called_tsap: Tsap::new(&[0x42; 32]),
        calling_selector: Some(&TWO),
        user_data,
        ..asking(&TWO)
    };
    asks(checks, left, &asked, None);
}

/// Feeds an end with the backlog of the other.
fn feeds(from: &mut Stack, to: &mut Stack) {
    let fed = to.feed(from.outgoing());
    from.taken(fed.used);
}

/// Why an end is over, if it is.
fn ended(stack: &Stack) -> Option<EndReason> {
    stack.ended()
}

/// Whether an end showed something. This function owns it.
fn is_something(shown: Option<(Ref, Indication)>) -> bool {
    shown.is_some()
}

/// Whether an indication is pending; it is fetched.
fn shows(stack: &mut Stack) -> bool {
    is_something(stack.next_indication())
}

/// Carries the backlog of an end, up to an indication; whether there is one.
fn carry(checks: &Checks, from: &mut Stack, to: &mut Stack) -> bool {
    feeds(from, to);
    checks.that(ended(to) != Some(EndReason::NoMemory), OUT_OF_MEMORY);
    shows(to)
}

fn is_user(address: &Option<SessionSelector>, user: &[u8]) -> bool {
    match address {
        None => false,
        Some(address) => address.octets() == user,
    }
}

fn is_tsap(address: &Option<Tsap>, octets: &[u8]) -> bool {
    match address {
        None => false,
        Some(address) => address.octets() == octets,
    }
}

/// Whether the connection was asked for at this address, without a calling address.
fn name(addresses: &Addresses, user: &[u8]) -> bool {
    is_tsap(&addresses.calling_tsap, &HERE)
        && is_user(&addresses.called_selector, user)
        && addresses.called_tsap.is_none()
        && addresses.calling_selector.is_none()
}

fn addresses_at(end: &Stack, connection: u16) -> Option<Addresses> {
    end.addresses(Ref(connection))
}

fn are_addresses(addresses: &Option<Addresses>, user: Option<&[u8]>) -> bool {
    match addresses {
        None => user.is_none(),
        Some(addresses) => match user {
            None => false,
            Some(user) => name(addresses, user),
        },
    }
}

/// Whether the connection was asked for at this address, or has no addresses.
fn is_for(end: &Stack, connection: u16, user: Option<&[u8]>) -> bool {
    are_addresses(&addresses_at(end, connection), user)
}

/// A user refuses a connection.
fn refuses(checks: &Checks, stack: &mut Stack, connection: u16) {
    let refusal = Refusal::Unspecified;
    match stack.call(Ref(connection), Request::Refuse { refusal }) {
        Ok(()) => {}
        Err(error) => checks.fail(failure(error)),
    }
}

/// One connection is given up, or that is refused.
fn gives_up(checks: &Checks, stack: &mut Stack, connection: u16, refused: Option<CallError>) {
    match stack.disconnect(Ref(connection)) {
        Ok(()) => checks.that(refused.is_none(), "a connection is given up"),
        Err(error) => checks.that(refused == Some(error), failure(error)),
    }
}

/// Whether the backlog of an end is exactly these octets.
fn has_to_send(stack: &Stack, octets: &[u8]) -> bool {
    stack.outgoing() == octets
}

/// Whether this many connections are live, and this one is in this phase.
fn stands(stack: &Stack, live: usize, connection: u16, phase: Phase) -> bool {
    stack.live() == live && stack.phase(Ref(connection)) == Some(phase)
}

fn is_over(stack: &Stack) -> bool {
    stack.is_over()
}

/// What an end does, beside the other end.
fn does(checks: &Checks, end: &mut Stack, other: &mut Stack, step: Step) {
    match step {
        Asks(user, refused) => asks(checks, end, &asking(user), refused),
        Carries => {
            carry(checks, end, other);
        }
        Shows(is_shown) => checks.that(
            carry(checks, end, other) == is_shown,
            "an indication is shown, or none",
        ),
        Refuses(connection) => refuses(checks, end, connection),
        GivesUp(connection, refused) => gives_up(checks, end, connection, refused),
        _ => is_seen(checks, end, step),
    }
}

/// What is seen of an end.
fn is_seen(checks: &Checks, end: &Stack, step: Step) {
    match step {
        IsFor(connection, user) => checks.that(is_for(end, connection, user), "other addresses"),
        HasToSend(octets) => checks.that(has_to_send(end, octets), "other octets are to be sent"),
        Stands(live, connection, phase) => {
            checks.that(
                stands(end, live, connection, phase),
                "another phase or number of connections",
            )
        }
        IsOver(wanted) => checks.that(is_over(end) == wanted, "it is over too early or too late"),
        _ => {}
    }
}

fn are_done(checks: &Checks, ends: &mut Ends, steps: Steps) {
    for (at, step) in steps {
        match at {
            Left => does(checks, &mut ends.left, &mut ends.right, *step),
            Right => does(checks, &mut ends.right, &mut ends.left, *step),
        }
    }
}

/// This function owns two ends that take these steps.
fn two_ends_do(alloc: Global, steps: Steps) -> Result<(), Fail> {
    let checks = Checks::new();
    are_done(&checks, &mut two_ends(alloc), steps);
    checks.end()
}

/// A selector of 17 octets is refused, and so is a request for a connection at a called end.
const REFUSED: Steps = &[
    (Left, Asks(&TOO_LONG, Some(ConnectError::TooLong))),
    (
        Right,
        Asks(&ONE, Some(ConnectError::Open(OpenError::NotCaller))),
    ),
];

#[test]
fn a_long_selector_and_a_called_end_are_refused(rt: HostRuntime) -> Result<(), Fail> {
    two_ends_do(rt.alloc(), REFUSED)
}

#[test]
fn a_connection_is_asked_for_at_the_greatest_lengths(rt: HostRuntime) -> Result<(), Fail> {
    let checks = Checks::new();
    asks_at_length(
        &checks,
        &mut Stack::caller(rt.alloc(), local()),
        &[0x41; 10_240],
    );
    checks.end()
}

/// Two connections are distinguished by their addresses, which the called end has once the CN arrived. The first is
/// refused: an RF goes to the caller, whose DR is answered by a DC.
const TOLD_APART: Steps = &[
    (Left, Asks(&ONE, None)),
    (Left, Carries),
    (Left, IsFor(1, Some(&ONE))),
    (Right, IsFor(1, None)),
    (Right, Carries),
    (Left, Shows(true)),
    (Left, Asks(&TWO, None)),
    (Left, Carries),
    (Left, IsFor(2, Some(&TWO))),
    (Right, IsFor(2, None)),
    (Right, Carries),
    (Left, Shows(true)),
    (Left, IsFor(1, Some(&ONE))),
    (Right, IsFor(1, Some(&ONE))),
    (Left, IsFor(2, Some(&TWO))),
    (Right, IsFor(2, Some(&TWO))),
    (Left, IsFor(3, None)),
    (Right, IsFor(3, None)),
    (Right, Refuses(1)),
    (Right, Carries),
    (Left, Carries),
    (Right, Carries),
    (Left, IsFor(1, None)),
    (Right, IsFor(1, None)),
    (Left, IsFor(0, None)),
    (Right, IsFor(0, None)),
    (Left, IsFor(2, Some(&TWO))),
    (Right, IsFor(2, Some(&TWO))),
];

#[test]
fn connections_are_told_apart_by_whom_they_ask_for(rt: HostRuntime) -> Result<(), Fail> {
    two_ends_do(rt.alloc(), TOLD_APART)
}

/// The DR by which the first connection is closed, with reason 128.
const GIVEN_UP: [u8; 11] = [
    0x03, 0x00, 0x00, 0x0B, 0x06, 0x80, 0x00, 0x01, 0x00, 0x01, 0x80,
];

const GIVEN_UP_ALONE: Steps = &[
    // before its CC a connection can't be given up, nor can one that was never asked for
    (Left, Asks(&ONE, None)),
    (Left, GivesUp(1, Some(CallError::BadState))),
    (Left, GivesUp(2, Some(CallError::NoSuchConnection))),
    (Left, Carries),
    (Right, Carries),
    (Left, Shows(true)),
    // a second connection
    (Left, Asks(&TWO, None)),
    (Left, Carries),
    (Left, IsFor(2, Some(&TWO))),
    (Right, IsFor(2, None)),
    (Right, Carries),
    (Left, Shows(true)),
    // the first is given up: a DR is sent, the other user is told of the loss, and the DC that answers causes no
    // indication; the second continues
    (Left, GivesUp(1, None)),
    (Left, HasToSend(&GIVEN_UP)),
    (Left, Stands(2, 1, Phase::Ended)),
    (Left, Shows(true)),
    (Right, Shows(false)),
    (Left, Stands(1, 2, Phase::Connecting)),
    (Right, Stands(1, 2, Phase::Answering)),
    // after both are given up, the byte connection may be closed
    (Right, GivesUp(2, None)),
    (Right, IsOver(false)),
    (Right, Shows(true)),
    (Left, Carries),
    (Left, GivesUp(2, None)),
    (Left, IsOver(true)),
    (Right, IsOver(true)),
];

#[test]
fn a_connection_is_given_up_alone(rt: HostRuntime) -> Result<(), Fail> {
    two_ends_do(rt.alloc(), GIVEN_UP_ALONE)
}
