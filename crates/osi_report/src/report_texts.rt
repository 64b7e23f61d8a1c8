//! Writes a report as text: the lines of each connection, those of transport, and the last line, which says who was first.

ghost use Rattle.std.specs.Prelude.{◌≡◌, ◌++◌, ◌<◌, ◌&&◌, ◌||◌, true, ℕ, List, IfOk, OnOk};
ghost use Rattle.osi_judge.specs.Connections.{count, numbered};
ghost use Rattle.osi_judge.specs.Standing.{HoldsState, IsSettled};
ghost use Rattle.osi_judge.specs.States.{State};
ghost use Rattle.osi_tpkt.specs.Stream.{offset_of};
ghost use Rattle.osi_report.specs.Adding.{AddsJudgement, AddsPair, AddsPairs, AddsReport, AddsUnjudged};
ghost use Rattle.osi_report.specs.Openings.{Opens, unjudged_in};
ghost use Rattle.osi_report.specs.Reports.{HoldsReached, IsReached, carried};
ghost use Rattle.osi_report.specs.ReportTexts.{mark_text, is_outside, mark_verb, mark_line, mark_lines, halt_line, halt_lines};
ghost use Rattle.osi_report.specs.ReportTexts.{first_verb, mark_first, last_line, pair_lines, transport_lines, read_lines, last_status};
ghost use Rattle.osi_report.specs.ReportTexts.{ends_itself, halt_told, is_at, is_of, is_side, limit_lines, over_lines};
ghost use Rattle.osi_report.specs.Quiet.{lines_if};

use crate::causes;
use crate::lines::{push_reading, push_side, push_without};
use crate::openings::Opening;
use crate::quiet::push_quiet;
use crate::reports::{Last, Pair, Together, Transport, last_of, pair_at, transport_of, unjudged};
use crate::told::Connection;
use crate::told_texts::{push_broke_first, push_connection, push_first, push_left_first};
use osi_judge::{Cause, Judge, Mark, Outcome};
use osi_listing::{push_number_field, push_words};
use osi_side::Direction;
use std::alloc::AllocError;

/// Adds what a mark is at, and what was found there.
#[tactic(auto, unfolding(crate::specs::ReportTexts::mark_text))]
fn push_mark_text(text: &mut Vec<u8>, mark: &Mark) -> Result<(), AllocError>
    ensures { OnOk result (text.new.items ≡ text.old.items ++ mark_text mark.now) }
{
    push_words(text, causes::marked_at(mark))?;
    push_words(text, " ")?;
    push_words(text, causes::cause(mark.cause))
}

/// Whether the side left the profile there.
fn is_outside(cause: Cause) -> bool
    ensures { result ≡ is_outside cause }
{
    matches!(cause, Cause::Outside)
}

fn mark_verb(cause: Cause) -> &'static str
    ensures { result.now ≡ mark_verb (is_outside cause) }
{
    if is_outside(cause) {
        " leaves packet "
    } else {
        " broke packet "
    }
}

/// Adds the line of the transport of a side that broke a rule, or left the profile.
#[tactic(auto, unfolding(crate::specs::ReportTexts::mark_line))]
fn push_mark(text: &mut Vec<u8>, direction: Direction, mark: &Mark) -> Result<(), AllocError>
    ensures { OnOk result (text.new.items ≡ text.old.items ++ mark_line direction mark.now) }
{
    push_side(text, direction)?;
    push_number_field(text, mark_verb(mark.cause), mark.offset)?;
    push_words(text, " ")?;
    push_mark_text(text, mark)?;
    push_words(text, "\n")
}

pub(crate) fn push_marks(
    text: &mut Vec<u8>,
    direction: Direction,
    broke: Option<Mark>,
) -> Result<(), AllocError>
    ensures { OnOk result (text.new.items ≡ text.old.items ++ mark_lines direction broke) }
{
    match broke {
        None => Ok(()),
        Some(mark) => push_mark(text, direction, &mark),
    }
}

/// Adds the line of a side of which nothing more is judged.
#[tactic(auto, unfolding(crate::specs::ReportTexts::halt_line))]
pub(crate) fn push_halt(
    text: &mut Vec<u8>,
    direction: Direction,
    mark: &Mark,
) -> Result<(), AllocError>
    ensures { OnOk result (text.new.items ≡ text.old.items ++ halt_line direction mark.now) }
{
    push_side(text, direction)?;
    push_words(text, " not judged after ")?;
    push_side(text, mark.direction)?;
    push_number_field(text, " packet ", mark.offset)?;
    push_words(text, " ")?;
    push_mark_text(text, mark)?;
    push_words(text, "\n")
}

fn push_halts(
    text: &mut Vec<u8>,
    direction: Direction,
    halted: Option<Mark>,
) -> Result<(), AllocError>
    ensures { OnOk result (text.new.items ≡ text.old.items ++ halt_lines direction halted) }
{
    match halted {
        None => Ok(()),
        Some(mark) => push_halt(text, direction, &mark),
    }
}

fn is_side(one: Direction, other: Direction) -> bool
    ensures { result ≡ is_side one other }
{
    match (one, other) {
        (Direction::Left, Direction::Left) => true,
        (Direction::Right, Direction::Right) => true,
        (Direction::Left, Direction::Right) => false,
        (Direction::Right, Direction::Left) => false,
    }
}

/// Whether the packet of a mark is of this side.
fn is_of(direction: Direction, mark: Option<Mark>) -> bool
    ensures { result ≡ is_of direction mark }
{
    match mark {
        None => false,
        Some(mark) => is_side(direction, mark.direction),
    }
}

/// Whether two marks are of packets at one offset.
fn is_at(one: Option<Mark>, other: Option<Mark>) -> bool
    ensures { result ≡ is_at one other }
{
    match (one, other) {
        (Some(one), Some(other)) => one.offset == other.offset,
        _ => false,
    }
}

/// Whether the packet with the first break of a side ends the judging of this side alone.
fn ends_itself(direction: Direction, own: &Transport, other: &Transport) -> bool
    ensures { result ≡ ends_itself direction own.now other.now }
{
    if !is_of(direction, own.halted) {
        return false;
    }
    if !is_at(own.broke, own.halted) {
        return false;
    }
    !is_of(direction, other.halted)
}

/// After which packet nothing more of a side is judged, if the line of its break does not say so.
pub(crate) fn halt_told(direction: Direction, own: &Transport, other: &Transport) -> Option<Mark>
    ensures { result ≡ halt_told direction own.now other.now }
{
    if ends_itself(direction, own, other) {
        return None;
    }
    own.halted
}

/// Adds the line of a side of a connection that is judged no further, if it kept the protocol as long as it was.
fn push_limit(
    text: &mut Vec<u8>,
    direction: Direction,
    connection: &Connection,
) -> Result<(), AllocError>
    ensures { OnOk result (text.new.items ≡ text.old.items ++ limit_lines direction connection.now) }
{
    match *connection {
        Connection::Session(reference, Outcome::Kept(..)) => {
            push_without(text, direction, reference, " not judged Limit")
        }
        _ => Ok(()),
    }
}

/// Adds the lines of both sides of a connection, if it is judged no further.
fn push_over(text: &mut Vec<u8>, pair: &Pair) -> Result<(), AllocError>
    ensures { OnOk result (text.new.items ≡ text.old.items ++ over_lines pair.now.over pair.now.left pair.now.right) }
{
    if !pair.over {
        return Ok(());
    }
    push_limit(text, Direction::Left, &pair.left)?;
    push_limit(text, Direction::Right, &pair.right)
}

/// Adds the lines of both sides of a connection.
fn push_pair(text: &mut Vec<u8>, pair: &Pair) -> Result<(), AllocError>
    ensures { OnOk result (text.new.items ≡ text.old.items ++ pair_lines pair.now) }
{
    push_connection(text, Direction::Left, &pair.left)?;
    push_connection(text, Direction::Right, &pair.right)?;
    push_over(text, pair)
}

fn both(one: bool, other: bool) -> bool
    ensures { result ≡ (one && other) }
{
    one && other
}

fn either(one: bool, other: bool) -> bool
    ensures { result ≡ (one || other) }
{
    one || other
}

/// The same of a capture that is judged; of another one those that blame nobody.
fn push_pair_if(text: &mut Vec<u8>, is_judged: bool, pair: &Pair) -> Result<(), AllocError>
    ensures { OnOk result (text.new.items ≡ text.old.items ++ lines_if is_judged pair.now) }
{
    if is_judged {
        push_pair(text, pair)
    } else {
        push_quiet(text, pair)
    }
}

/// Adds the lines of the connection with this number. Returns what is reported of it.
fn push_pair_at(
    text: &mut Vec<u8>,
    judge: &Judge,
    is_judged: bool,
    number: usize,
) -> Result<Pair, AllocError>
    ensures { IfOk result (λ pair. (s : State) → HoldsState judge.now s → IsSettled judge.now
        → AddsPair is_judged (numbered number s.course.sessions) text.old.items text.new.items pair) }
{
    let Ok(pair) = pair_at(judge, number) else {
        return Err(AllocError);
    };
    push_pair_if(text, is_judged, &pair)?;
    Ok(pair)
}

/// Adds the lines of all connections. Returns what is reported of them together.
fn push_pairs(text: &mut Vec<u8>, judge: &Judge, is_judged: bool) -> Result<Together, AllocError>
    ensures { IfOk result (λ all. (s : State) → HoldsState judge.now s → IsSettled judge.now
        → AddsPairs is_judged s.course.sessions (offset_of (count s.course.sessions)) text.old.items text.new.items all) }
{
    let count = judge.count();
    let mut all = Together {
        keeps: true,
        over: false,
    };
    let mut number = 0;
    'connections: while number < count {
        let Ok(pair) = push_pair_at(text, judge, is_judged, number) else {
            return Err(AllocError);
        };
        all = Together {
            keeps: both(all.keeps, pair.keeps),
            over: either(all.over, pair.over),
        };
        number += 1;
    }
    Ok(all)
}

/// Adds the lines of the transport of both sides.
#[tactic(auto, unfolding(crate::specs::ReportTexts::transport_lines))]
fn push_transport(text: &mut Vec<u8>, left: &Transport, right: &Transport) -> Result<(), AllocError>
    ensures { OnOk result (text.new.items ≡ text.old.items ++ transport_lines left.now right.now) }
{
    push_marks(text, Direction::Left, left.broke)?;
    push_marks(text, Direction::Right, right.broke)?;
    push_halts(
        text,
        Direction::Left,
        halt_told(Direction::Left, left, right),
    )?;
    push_halts(
        text,
        Direction::Right,
        halt_told(Direction::Right, right, left),
    )
}

/// What a side did first in its transport.
fn first_verb(cause: Cause) -> &'static str
    ensures { result.now ≡ first_verb (is_outside cause) }
{
    if is_outside(cause) {
        " leaves the profile"
    } else {
        " broke the protocol"
    }
}

#[tactic(auto, unfolding(crate::specs::ReportTexts::mark_first))]
fn push_mark_first(text: &mut Vec<u8>, direction: Direction, mark: &Mark) -> Result<(), AllocError>
    ensures { OnOk result (text.new.items ≡ text.old.items ++ mark_first direction mark.now) }
{
    push_first(text, direction, first_verb(mark.cause), mark.offset)?;
    push_mark_text(text, mark)?;
    push_words(text, "\n")
}

/// Adds the last line.
fn push_last(text: &mut Vec<u8>, last: &Last) -> Result<(), AllocError>
    ensures { OnOk result (text.new.items ≡ text.old.items ++ last_line last.now) }
{
    match *last {
        Last::BothKept => push_words(text, "both kept the protocol\n"),
        Last::Broke(direction, offset, by) => push_broke_first(text, direction, offset, &by),
        Last::Left(direction, offset, by) => push_left_first(text, direction, offset, &by),
        Last::Transport(direction, mark) => push_mark_first(text, direction, &mark),
        Last::TooManySessions => {
            push_words(text, "not judged: too many sessions explain a side\n")
        }
        Last::Limit => push_words(
            text,
            "not judged: more passed on a connection than is kept\n",
        ),
        Last::TooManyConnections => push_words(
            text,
            "not judged: there are more than 128 connections at once\n",
        ),
        Last::NoOctets => push_words(text, "not judged: no octets\n"),
        Last::OneDirection => push_words(text, "not judged: only one direction is here\n"),
        Last::BeginsLate => push_words(
            text,
            "not judged: the capture begins in the middle of a connection\n",
        ),
    }
}

/// Adds what was read of both sides.
#[tactic(auto, unfolding(crate::specs::ReportTexts::read_lines))]
fn push_read(text: &mut Vec<u8>, left: &Transport, right: &Transport) -> Result<(), AllocError>
    ensures { OnOk result (text.new.items ≡ text.old.items ++ read_lines left.now right.now) }
{
    push_reading(text, Direction::Left, &left.reading)?;
    push_reading(text, Direction::Right, &right.reading)
}

/// Whether there are so few connections that each has a number of its own: fewer than 2^64 - 1. Memory never holds more.
fn is_numbered(judge: &Judge) -> bool
    ensures { (s : State) → IsReached s → HoldsState judge.now s → IsSettled judge.now → result ≡ true → HoldsReached judge.now s }
{
    judge.count() < usize::MAX
}

/// Adds the text of a report on everything that a judge was fed, once it is settled: what was read of each side, what is
/// reported of each connection, what was broken below the sessions, and who was first. Returns 0 if both sides kept the
/// protocol on all connections, and 1 in any other case. `Err` means that memory ran out.
pub fn push_report(text: &mut Vec<u8>, judge: &Judge) -> Result<u8, AllocError>
    ensures told { IfOk result (λ status. (s : State) → IsReached s → HoldsState judge.now s → IsSettled judge.now
        → AddsReport s text.old.items text.new.items status) }
    ensures small { IfOk result (λ status. status < 2) }
{
    if !is_numbered(judge) {
        return Err(AllocError);
    }
    let left = transport_of(judge, Direction::Left);
    let right = transport_of(judge, Direction::Right);
    push_read(text, &left, &right)?;
    let all = push_pairs(text, judge, true)?;
    push_transport(text, &left, &right)?;
    let last = last_of(judge, &left, &right, all);
    push_last(text, &last)?;
    Ok(last_status(&last))
}

/// Adds what was read of both sides, the lines of connections that blame nobody, and why nothing is judged.
fn push_why(
    text: &mut Vec<u8>,
    judge: &Judge,
    left: &Transport,
    right: &Transport,
    why: &Last,
) -> Result<u8, AllocError>
    ensures told { IfOk result (λ status. (s : State) → HoldsState judge.now s → IsSettled judge.now
        → left.now ≡ carried Direction.Left s → right.now ≡ carried Direction.Right s
        → AddsUnjudged s why.now text.old.items text.new.items status) }
    ensures small { IfOk result (λ status. status < 2) }
{
    push_read(text, left, right)?;
    push_pairs(text, judge, false)?;
    push_last(text, why)?;
    Ok(last_status(why))
}

/// Adds the text of a judgement of everything that a judge was fed, once it is settled: a report, or why nothing is judged. `opening`
/// knows how the octets of left begin. Returns 0 if both sides kept the protocol on all connections, and 1 in any other case. `Err`
/// means that memory ran out.
pub fn push_judgement(
    text: &mut Vec<u8>,
    judge: &Judge,
    opening: &Opening,
) -> Result<u8, AllocError>
    ensures told { IfOk result (λ status. (s : State) (left : List ℕ) → IsReached s → HoldsState judge.now s → IsSettled judge.now
        → Opens opening.now left → AddsJudgement (unjudged_in s left) s text.old.items text.new.items status) }
    ensures small { IfOk result (λ status. status < 2) }
{
    let left = transport_of(judge, Direction::Left);
    let right = transport_of(judge, Direction::Right);
    match unjudged(&left, &right, opening) {
        Some(why) => push_why(text, judge, &left, &right, &why),
        None => push_report(text, judge),
    }
}

/// 0 if both sides kept the protocol on all connections, and 1 in any other case.
fn last_status(last: &Last) -> u8
    ensures value { result ≡ last_status last.now }
    ensures small { result < 2 }
{
    match *last {
        Last::BothKept => 0,
        _ => 1,
    }
}
