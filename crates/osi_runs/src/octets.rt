//! Two ends that are fed octets, line by line, and the result of each line.
//!
//! A line that begins with `> ` asks for something; its result is in the lines below. It is a line of a script of two
//! ends (`ends`, `connect`, a call of a user, or `told`), or one of these: `feed left HEX` and `feed right HEX` feed
//! octets to an end, without the other; `where` gives the state of the first connections of both ends; `tsdu HEX` reads
//! session units and writes them again.

ghost use Rattle.std.specs.Prelude.{IfOk};
ghost use Rattle.osi_spdu.specs.Groups.{units_of};
ghost use Rattle.osi_spdu.specs.Writing.{TsduFits};

use crate::asked::{ends_read, event_in};
use crate::calls;
use crate::digits::octets_in;
use crate::output::{Output, lines_of};
use bytes::BytesMut;
use osi_carrier::Ref;
use osi_class::Local;
use osi_pair::Event;
use osi_script::{Line, Side, Standing};
use osi_session::{Indication, Request};
use osi_spdu::{Group, SpduFault, read_tsdu, write_tsdu};
use osi_stack::{Connect, Stack};
use std::alloc::Global;
use std::io::ErrorKind;

/// Two ends with nothing between them.
#[derive(Drop)]
struct Ends {
    left: Stack,
    right: Stack,
}

impl Ends {
    /// The end of a side.
    fn at(&mut self, side: osi_pair::Side) -> &mut Stack {
        match side {
            osi_pair::Side::Left => &mut self.left,
            osi_pair::Side::Right => &mut self.right,
        }
    }
}

/// The lines of a text, with the result of each line that asks for something.
pub(crate) fn played(alloc: Global, text: &str) -> Output {
    let mut out = Output::new(alloc);
    play_text(&mut out, text);
    out
}

fn play_text(out: &mut Output, text: &str) {
    let lines = lines_of(out, text);
    play_first(out, lines.as_slice());
    play_scripts(out, lines.as_slice());
}

/// Whether a line asks for two fresh ends.
fn begins(line: &str) -> bool {
    line.starts_with("> ends ")
}

/// The lines before the first two ends: session units that are written again.
fn play_first(out: &mut Output, lines: &[&str]) {
    for line in lines {
        if begins(*line) {
            break;
        }
        play_units(out, *line);
    }
}

fn play_units(out: &mut Output, line: &str) {
    push_kept_line(out, line);
    match line.strip_prefix("> tsdu ") {
        Some(digits) => write_again(out, digits),
        None => no_result(out, line),
    }
}

/// A line that asks for anything else fails.
fn no_result(out: &mut Output, line: &str) {
    if line.starts_with("> ") {
        out.fail(ErrorKind::InvalidInput);
    }
}

/// Adds a line that is no result.
fn push_kept_line(out: &mut Output, line: &str) {
    if line.is_empty() || line.starts_with('#') || line.starts_with("> ") {
        out.push(line);
    }
}

fn play_scripts(out: &mut Output, lines: &[&str]) {
    for (at, line) in lines.iter().enumerate() {
        if begins(*line) {
            let behind = lines.get(at.saturating_add(1)..).unwrap_or_default();
            play_script(out, *line, behind);
        }
    }
}

/// The line that asks for two ends, and the lines after it, up to the next such line.
fn play_script(out: &mut Output, asked: &str, lines: &[&str]) {
    out.push(asked);
    if let Some((left, right)) = ends_read(out, asked.strip_prefix("> ").unwrap_or_default()) {
        play_between(out, &mut ends_of(out.alloc(), left, right), lines);
    }
}

/// Two fresh ends.
fn ends_of(alloc: Global, caller: Local, called: Local) -> Ends {
    Ends {
        left: Stack::caller(alloc, caller),
        right: Stack::called(alloc, called),
    }
}

fn play_between(out: &mut Output, ends: &mut Ends, lines: &[&str]) {
    for line in lines {
        if begins(*line) {
            break;
        }
        play(out, ends, *line);
    }
}

fn play(out: &mut Output, ends: &mut Ends, line: &str) {
    push_kept_line(out, line);
    if let Some(asked) = line.strip_prefix("> ") {
        play_asked(out, ends, asked);
    }
}

fn play_asked(out: &mut Output, ends: &mut Ends, asked: &str) {
    match asked.strip_prefix("tsdu ") {
        Some(digits) => write_again(out, digits),
        None => play_at(out, ends, asked),
    }
}

fn play_at(out: &mut Output, ends: &mut Ends, asked: &str) {
    act(out, ends, asked);
    push_told(out, Side::Left, &mut ends.left);
    push_told(out, Side::Right, &mut ends.right);
}

/// Feeds an end, reports the state of both, or does what a line of a script asks for.
fn act(out: &mut Output, ends: &mut Ends, asked: &str) {
    match fed_in(asked) {
        Some((side, digits)) => feed(out, ends.at(side), digits),
        None => act_unfed(out, ends, asked),
    }
}

/// The end that a line feeds, and what it is fed.
fn fed_in(asked: &str) -> Option<(osi_pair::Side, &str)> {
    match asked.strip_prefix("feed left ") {
        Some(digits) => Some((osi_pair::Side::Left, digits)),
        None => Some((osi_pair::Side::Right, asked.strip_prefix("feed right ")?)),
    }
}

fn act_unfed(out: &mut Output, ends: &mut Ends, asked: &str) {
    if asked == "where" {
        push_where(out, Side::Left, &ends.left, 4);
        push_where(out, Side::Right, &ends.right, 4);
    } else {
        ask(out, ends, asked);
    }
}

fn ask(out: &mut Output, ends: &mut Ends, asked: &str) {
    match Line::read(out.alloc(), asked.as_bytes()) {
        Ok(line) => happen(out, ends, event_in(&line)),
        Err(_) => out.fail(ErrorKind::OutOfMemory),
    }
}

fn happen(out: &mut Output, ends: &mut Ends, event: Option<Event>) {
    match event {
        Some(Event::Connect(connect)) => connect_at(out, &mut ends.left, &connect),
        Some(Event::Call(side, reference, request)) => call_at(
            out,
            ends.at(side),
            reference,
            request,
        ),
        Some(Event::Told(side)) => calls::tell_of_a_break(ends.at(side)),
        _ => out.push("asks for nothing"),
    }
}

fn connect_at(out: &mut Output, stack: &mut Stack, connect: &Connect) {
    match calls::connect(stack, connect) {
        Ok(Ref(reference)) => out.push_number("connection", usize::from(reference)),
        Err(error) => out.push_name("refused", &error),
    }
}

fn call_at(out: &mut Output, stack: &mut Stack, reference: Ref, request: Request) {
    match calls::call(stack, reference, request) {
        Ok(()) => out.push("ok"),
        Err(error) => out.push_name("refused", &error),
    }
}

/// Feeds octets, and reports how many were used if some are left.
fn feed(out: &mut Output, stack: &mut Stack, digits: &str) {
    let octets = octets_in(out, digits);
    feed_octets(out, stack, octets.as_slice());
}

fn feed_octets(out: &mut Output, stack: &mut Stack, octets: &[u8]) {
    let used = calls::feed(stack, octets).used;
    if used != octets.len() {
        out.push_number("uses", used);
    }
}

/// Adds what the users of an end receive, and what the end sends.
fn push_told(out: &mut Output, side: Side, stack: &mut Stack) {
    for _ in 0..100u8 {
        push_next(out, side, stack);
    }
    push_sent(out, side, stack);
}

/// Adds the next pending indication of an end, if there is one.
fn push_next(out: &mut Output, side: Side, stack: &mut Stack) {
    match calls::next(stack) {
        Some((Ref(reference), indication)) => push_shown(out, side, reference, &indication),
        None => {}
    }
}

/// Adds an indication, and the cause of a provider abort.
fn push_shown(out: &mut Output, side: Side, reference: u16, indication: &Indication) {
    out.push_indication(side, reference, indication);
    if let Indication::ProviderAbort { cause } = indication {
        out.push_name("by", cause);
    }
}

fn push_sent(out: &mut Output, side: Side, stack: &mut Stack) {
    if !stack.outgoing().is_empty() {
        out.push_digits(sends(side), stack.outgoing());
        calls::take_all(stack);
    }
}

fn sends(side: Side) -> &'static str {
    match side {
        Side::Left => "left sends",
        Side::Right => "right sends",
    }
}

/// Adds the state of the connections of an end with references below this one, how many octets it keeps, and why it has
/// ended.
pub(crate) fn push_where(out: &mut Output, side: Side, stack: &Stack, references: u16) {
    for reference in 1..references {
        push_phase(out, side, stack, Ref(reference));
    }
    push_kept(out, side, stack);
    push_end(out, side, stack);
}

fn push_kept(out: &mut Output, side: Side, stack: &Stack) {
    if stack.kept() > 0 {
        out.push_number(keeps(side), stack.kept());
    }
}

fn keeps(side: Side) -> &'static str {
    match side {
        Side::Left => "left keeps",
        Side::Right => "right keeps",
    }
}

fn push_end(out: &mut Output, side: Side, stack: &Stack) {
    if let Some(reason) = stack.ended() {
        out.push_name(ended(side), &reason);
    }
}

fn ended(side: Side) -> &'static str {
    match side {
        Side::Left => "left ended",
        Side::Right => "right ended",
    }
}

pub(crate) fn push_phase(out: &mut Output, side: Side, stack: &Stack, reference: Ref) {
    if let Some(standing) = standing(side, stack, reference) {
        out.push_standing(&standing);
    }
}

/// The state of a connection, if it has been asked for.
fn standing(side: Side, stack: &Stack, reference: Ref) -> Option<Standing> {
    Some(Standing {
        side,
        reference: reference.0,
        phase: stack.phase(reference)?,
        held: stack.held(reference),
        next_serial: stack.next_serial(reference),
        confirmed_below: stack.confirmed_below(reference),
        lowest_restart: stack.lowest_restart(reference),
    })
}

/// Adds the written form of session units, or their fault.
fn write_again(out: &mut Output, digits: &str) {
    let tsdu = octets_in(out, digits);
    push_written(out, &mut BytesMut::new(out.alloc()), tsdu.as_slice());
}

/// Reads session units and, if they have no fault, writes them.
fn push_written(out: &mut Output, written: &mut BytesMut, tsdu: &[u8]) {
    match group_in(tsdu) {
        Ok(group) => {
            out.note(write_tsdu(&group, written).is_ok());
            out.push_digits("writes", written.as_slice());
        }
        Err(fault) => push_fault(out, fault),
    }
}

fn push_fault(out: &mut Output, fault: SpduFault) {
    out.show(&fault);
    out.say("\n");
}

/// The session units of a TSDU.
fn group_in(tsdu: &[u8]) -> Result<Group<'_>, SpduFault>
    ensures { IfOk result (λ group. TsduFits (units_of group)) }
{
    read_tsdu(tsdu)
}
