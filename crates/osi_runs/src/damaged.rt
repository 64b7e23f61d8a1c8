//! Damaged packets, and what ends and the listing do with them.
//!
//! Each packet of a capture is cut to each shorter length, and each of its octets is set to each value. The result is
//! listed, and fed to twelve ends, in one piece and octet by octet. The ends have class 0, class 2 or both; there are
//! fresh callers and fresh called ends, callers that have asked for a connection, and called ends, the last two fed
//! with the packets that come before.

use crate::calls;
use crate::output::Output;
use bitflags::Flags;
use osi_carrier::{EndReason, Ref};
use osi_class::Local;
use osi_session::Phase;
use osi_spdu::{Requirements, Serial, TokenSetting, TsduSizes, Wish};
use osi_stack::{Connect, Stack};
use osi_tpdu::{SizeCode, Window};
use osi_tpkt::Fed;
use std::alloc::Global;
use std::io::ErrorKind;

/// The most octets that an end keeps of an unfinished packet.
const OF_A_PACKET: usize = 65_535;

/// The most octets that an end keeps of a connection's unfinished TSDU and unfinished data.
const OF_A_CONNECTION: usize = 2_097_148;

/// The past of an end before it is fed a damaged packet.
#[derive(Clone, Copy)]
enum Past {
    /// A fresh caller.
    OfCaller,
    /// A fresh called end.
    OfCalled,
    /// A caller that has asked for a connection, and was fed the packets before.
    OfAsking,
    /// A called end that was fed the packets before.
    OfAnswering,
}

const PASTS: [Past; 4] = [
    Past::OfCaller,
    Past::OfCalled,
    Past::OfAsking,
    Past::OfAnswering,
];

/// The classes of an end: whether it has class 0, and class 2.
const CLASSES: [(bool, bool); 3] = [(true, false), (false, true), (true, true)];

/// How many runs there were, how many behaved as they should, and the listing of the current damaged packet.
#[derive(Drop)]
struct Tally {
    runs: u64,
    good: u64,
    listing: Output,
}

impl Tally {
    fn add(&mut self, is_good: bool) {
        self.runs = self.runs.wrapping_add(1);
        if is_good {
            self.good = self.good.wrapping_add(1);
        }
    }

    /// Lists a damaged packet.
    fn list(&mut self, octets: &[u8]) {
        self.listing.clear();
        self.listing.list(octets);
        let is_good = (self.listing.status == 1) == self.lists("fault ");
        self.add(is_good);
    }

    /// Whether the listing has this word.
    fn lists(&self, word: &str) -> bool {
        self.listing.text().contains(word)
    }
}

/// A damaged packet, the packets before it, and whether it should be refused as no packet.
#[derive(Clone, Copy)]
struct Case<'a> {
    before: &'a [u8],
    octets: &'a [u8],
    is_no_packet: bool,
}

/// Damages each packet of a capture, and reports how many runs there were.
pub(crate) fn judge_damage(report: &mut Output, capture: &[u8]) {
    let mut tally = Tally {
        runs: 0,
        good: 0,
        listing: Output::new(report.alloc()),
    };
    if damage_each(&mut tally, capture) != capture.len() {
        report.fail(ErrorKind::InvalidData);
    }
    report.fail_as(&tally.listing);
    say_tally(report, tally.runs, tally.good);
}

fn say_tally(report: &mut Output, runs: u64, good: u64) {
    let said = format!(in report.alloc(); "{runs} runs, {good} as they should be");
    report.say_made(said);
}

/// Damages each packet of a capture, and returns where the last one ends.
fn damage_each(tally: &mut Tally, capture: &[u8]) -> usize {
    let mut at: usize = 0;
    for _ in 0..capture.len() {
        at = at.saturating_add(damage_at(tally, capture, at));
    }
    at
}

/// Damages the packet that begins at this octet, and returns its length; 0 if there is none.
fn damage_at(tally: &mut Tally, capture: &[u8], at: usize) -> usize {
    match packet_at(capture, at) {
        Some(packet) => damage(tally, capture.get(..at).unwrap_or_default(), packet),
        None => 0,
    }
}

fn damage(tally: &mut Tally, before: &[u8], packet: &[u8]) -> usize {
    cut(tally, before, packet);
    set(tally, before, packet);
    packet.len()
}

/// The packet that begins at this octet, if there is one.
fn packet_at(capture: &[u8], at: usize) -> Option<&[u8]> {
    let rest = capture.get(at..)?;
    match length_of(rest)? {
        0 => None,
        length => rest.get(..length),
    }
}

/// The length in the header of a packet.
fn length_of(packet: &[u8]) -> Option<usize> {
    match packet {
        [_, _, high, low, ..] => Some(usize::from(u16::from_be_bytes([*high, *low]))),
        _ => None,
    }
}

/// Cuts a packet to each length; the last run has the whole packet.
fn cut(tally: &mut Tally, before: &[u8], packet: &[u8]) {
    for length in 0..packet.len() {
        run(tally, before, &packet[..length]);
    }
    run(tally, before, packet);
}

/// Sets each octet of a packet, one after the other.
fn set(tally: &mut Tally, before: &[u8], packet: &[u8]) {
    for at in 0..packet.len() {
        set_at(tally, before, packet, at);
    }
}

/// Sets an octet of a packet to each value.
fn set_at(tally: &mut Tally, before: &[u8], packet: &[u8], at: usize) {
    match Vec::from_slice(tally.listing.alloc(), packet) {
        Ok(mut octets) => set_each(tally, before, octets.as_mut_slice(), at),
        Err(_) => tally.listing.fail(ErrorKind::OutOfMemory),
    }
}

fn set_each(tally: &mut Tally, before: &[u8], packet: &mut [u8], at: usize) {
    for value in 0..=u8::MAX {
        if let Some(octet) = packet.get_mut(at) {
            *octet = value;
        }
        run(tally, before, packet);
    }
}

/// Lists a damaged packet, and feeds it to ends with each past.
fn run<'a>(tally: &mut Tally, before: &'a [u8], octets: &'a [u8]) {
    tally.list(octets);
    let is_no_packet = !tally.lists("rest ");
    run_case(
        tally,
        Case {
            before,
            octets,
            is_no_packet,
        },
    );
}

fn run_case(tally: &mut Tally, case: Case) {
    for past in PASTS {
        run_with(tally, case, past);
    }
}

/// Feeds it to ends with each class.
fn run_with(tally: &mut Tally, case: Case, past: Past) {
    for classes in CLASSES {
        let is_good = ends_of_classes_behave(tally.listing.alloc(), case, past, classes);
        tally.add(is_good);
    }
}

/// Whether two ends with these classes, one fed in one piece and the other octet by octet, behave as they should and
/// end in the same state.
fn ends_of_classes_behave(alloc: Global, case: Case, past: Past, classes: (bool, bool)) -> bool {
    match local(classes) {
        Some(local) => ends_behave(alloc, case, past, local),
        None => false,
    }
}

/// The same of ends with this configuration.
fn ends_behave(alloc: Global, case: Case, past: Past, local: Local) -> bool {
    let mut whole = fresh(alloc, past, local);
    behaves_octet_by_octet(alloc, &mut whole, case, past, local)
}

/// The same of this end, fed in one piece, and of a second one, fed octet by octet.
fn behaves_octet_by_octet(
    alloc: Global,
    whole: &mut Stack,
    case: Case,
    past: Past,
    local: Local,
) -> bool {
    let mut single = fresh(alloc, past, local);
    both_behave(whole, &mut single, case, past)
}

/// Whether the two behave as they should and end in the same state.
fn both_behave(whole: &mut Stack, single: &mut Stack, case: Case, past: Past) -> bool {
    behaves(whole, case, past, usize::MAX)
        && behaves(single, case, past, 1)
        && is_as_far(whole, single)
}

/// Whether two ends are in the same state.
fn is_as_far(one: &Stack, other: &Stack) -> bool {
    if one.outgoing() != other.outgoing() || one.ended() != other.ended() {
        return false;
    }
    one.ended().is_some() || one.kept() == other.kept()
}

/// Feeds an end with this past, in pieces of at most this many octets; false if it does not behave as it should.
fn behaves(stack: &mut Stack, case: Case, past: Past, piece: usize) -> bool {
    begins(stack, case, past) && feed(stack, case.octets, piece) && ends_well(stack, case)
}

/// Whether an end that was fed a damaged packet is over if it should be, and behaves as such an end.
fn ends_well(stack: &mut Stack, case: Case) -> bool {
    match stack.ended() {
        Some(_) => is_still(stack, case.octets),
        None => !case.is_no_packet,
    }
}

/// Brings an end into its past.
fn begins(stack: &mut Stack, case: Case, past: Past) -> bool {
    match past {
        Past::OfCaller | Past::OfCalled => true,
        Past::OfAsking => asks(stack) && feed(stack, case.before, usize::MAX),
        Past::OfAnswering => feed(stack, case.before, usize::MAX),
    }
}

/// Whether an end that is over uses all that it is fed, indicates nothing and sends nothing.
fn is_still(stack: &mut Stack, octets: &[u8]) -> bool {
    let sent = stack.outgoing().len();
    let fed = calls::feed(stack, octets);
    fed.used == octets.len() && !fed.whole && stack.outgoing().len() == sent
}

/// A fresh end.
fn fresh(alloc: Global, past: Past, local: Local) -> Stack {
    match past {
        Past::OfCaller | Past::OfAsking => Stack::caller(alloc, local),
        Past::OfCalled | Past::OfAnswering => Stack::called(alloc, local),
    }
}

/// The configuration of an end with these classes.
fn local(classes: (bool, bool)) -> Option<Local> {
    let (class0, class2) = classes;
    Some(Local {
        class0,
        class2,
        size: SizeCode::new(10)?,
        window: Window::new(4)?,
    })
}

/// Asks for a connection with points, restarts and negotiated release; the other side chooses who holds the tokens.
fn asks(stack: &mut Stack) -> bool {
    match Serial::new(1) {
        Some(serial) => calls::connect(stack, &connect_from(serial)).is_ok(),
        None => false,
    }
}

fn connect_from(serial: Serial) -> Connect<'static> {
    Connect {
        requirements: Requirements::from_bits_retain(0x00B9),
        serial,
        wishes: TokenSetting {
            data_token: Wish::Choice,
            minor: Wish::Choice,
            major: Wish::Choice,
            release: Wish::Choice,
        },
        calling_tsap: None,
        called_tsap: None,
        calling_selector: None,
        called_selector: None,
        sizes: TsduSizes::NONE,
        user_data: &[],
    }
}

/// Feeds octets, and fetches the indications; false if something is not as it should be.
fn feed(stack: &mut Stack, octets: &[u8], piece: usize) -> bool {
    let mut rest = octets;
    for _ in 0..octets.len() {
        let used = feed_piece(stack, rest.get(..piece).unwrap_or(rest));
        if used == 0 {
            break;
        }
        rest = rest.get(used..).unwrap_or_default();
    }
    rest.is_empty()
}

/// Feeds a piece, and returns how many octets were used; 0 if it is empty or something is not as it should be.
fn feed_piece(stack: &mut Stack, piece: &[u8]) -> usize {
    if piece.is_empty() {
        0
    } else {
        feed_octets(stack, piece)
    }
}

fn feed_octets(stack: &mut Stack, piece: &[u8]) -> usize {
    let was_over = stack.ended().is_some();
    let fed = calls::feed(stack, piece);
    if uses_enough(stack, was_over, fed, piece.len()) && is_in_order(stack, fed.whole) {
        fed.used
    } else {
        0
    }
}

/// Some of a piece has to be used, and all of it unless an indication is pending; an end that is over, or that ends by a
/// fault, uses all.
fn uses_enough(stack: &Stack, was_over: bool, fed: Fed, length: usize) -> bool {
    let is_spoilt = matches!(stack.ended(), Some(EndReason::Fault(_)));
    if fed.used < length {
        fed.used > 0 && fed.whole && !was_over && !is_spoilt
    } else {
        fed.used == length
    }
}

/// Whether an indication is pending just if the end says so, and all is well when all are fetched.
fn is_in_order(stack: &mut Stack, is_pending: bool) -> bool {
    is_pending == shows(stack) && fetch(stack) && is_within_bounds(stack)
}

/// Fetches the next indication; false if none is pending.
fn shows(stack: &mut Stack) -> bool {
    calls::next(stack).is_some()
}

/// Fetches all pending indications.
fn fetch(stack: &mut Stack) -> bool {
    for _ in 0..100u8 {
        if !shows(stack) {
            return true;
        }
    }
    false
}

/// Whether the octets kept are within their bound, and an end that is over holds no token.
fn is_within_bounds(stack: &Stack) -> bool {
    let mut most = OF_A_PACKET;
    for reference in 1..65u16 {
        let Some(phase) = stack.phase(Ref(reference)) else {
            break;
        };
        if !matches!(phase, Phase::Ended) {
            most = most.saturating_add(OF_A_CONNECTION);
        }
        if stack.ended().is_some() && calls::holds_a_token(stack, Ref(reference)) {
            return false;
        }
    }
    stack.kept() <= most
}
