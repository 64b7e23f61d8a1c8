//! What C is told of a byte connection, in the numbers of C.

ghost use Rattle.std.specs.Prelude.{◌≡◌, Some};
ghost use Rattle.osi_judge.specs.Connections.{Joined, numbered, reference_of};
ghost use Rattle.osi_judge.specs.Holding.{HoldsJoined};
ghost use Rattle.osi_judge.specs.Pasts.{HoldsPast};
ghost use Rattle.osi_judge.specs.Standing.{HoldsState, IsSettled};
ghost use Rattle.osi_judge.specs.States.{State};
ghost use Rattle.osi_c.specs.Verdicts.{transport_rule_code, cause_code, unit_said_code, unread_said_code, mark_said_code};
ghost use Rattle.osi_c.specs.Verdicts.{mark_kind_code, kind_code};
ghost use Rattle.osi_c.specs.Verdicts.{IsRuleOf, said_in, offset_in, by_in, number_of_mark, number_in, number_code};
ghost use Rattle.osi_c.specs.Verdicts.{named_in, IsNamed, Shows, nothing};
ghost use Rattle.osi_c.specs.Subjects.{side_in};
ghost use Rattle.osi_c.specs.Verdicts.{reference_code};
ghost use Rattle.osi_c.specs.Judges.{side_of};

use crate::header;
use crate::notes::Note;
use crate::rules::{packet_code, rule_code, said_code, unit_code};
use crate::subjects::Subject;
use osi_judge::{Cause, Connection, Found, Judge, Past, UnitKind};
use osi_rules::Rule;
use osi_side::Direction;

/// A verdict on a side of a byte connection, in the numbers of C.
#[repr(C)]
#[derive(Clone, Copy)]
pub struct OsiVerdict {
    pub offset: u64,
    pub connection: u64,
    pub kind: u32,
    pub side: u32,
    pub by: u32,
    pub rule: u32,
    pub said: u32,
    pub left: u16,
    pub right: u16,
}

/// The references of a connection: 0 for one that was not given.
#[derive(Clone, Copy)]
pub(crate) struct References {
    pub(crate) left: u16,
    pub(crate) right: u16,
}

/// No verdict.
pub(crate) fn nothing() -> OsiVerdict
    ensures { result ≡ nothing }
{
    OsiVerdict {
        offset: 0,
        connection: 0,
        kind: 0,
        side: 0,
        by: 0,
        rule: 0,
        said: 0,
        left: 0,
        right: 0,
    }
}

/// The side of a number.
pub(crate) fn side_by(number: u32) -> Option<Direction>
    ensures { result ≡ side_of number }
{
    match number {
        0 => Some(Direction::Left),
        1 => Some(Direction::Right),
        _ => None,
    }
}

fn side_code(side: Direction) -> u32
    ensures { side_of result ≡ Some side }
{
    match side {
        Direction::Left => 0,
        Direction::Right => 1,
    }
}

/// The number of a reference: 0 if there is none.
fn reference_code(reference: Option<u16>) -> u16
    ensures { result ≡ reference_code reference }
{
    match reference {
        Some(reference) => reference,
        None => 0,
    }
}

fn transport_rule_code(rule: Rule) -> u32
    ensures { result ≡ transport_rule_code rule }
{
    match rule {
        Rule::UnexpectedUnit => header::RULE_UNEXPECTED_UNIT,
        Rule::OneConnection => header::RULE_ONE_CONNECTION,
        Rule::Negotiating => header::RULE_NEGOTIATING,
        Rule::ReferenceInUse => header::RULE_REFERENCE_IN_USE,
        Rule::UnknownReference => header::RULE_UNKNOWN_REFERENCE,
        Rule::WrongForm => header::RULE_WRONG_FORM,
        Rule::BadAnswer => header::RULE_BAD_ANSWER,
        Rule::LargerSize => header::RULE_LARGER_SIZE,
        Rule::Closed => header::RULE_CLOSED,
        Rule::OutOfSequence => header::RULE_OUT_OF_SEQUENCE,
        Rule::NoCredit => header::RULE_NO_CREDIT,
        Rule::SizeExceeded => header::RULE_SIZE_EXCEEDED,
        Rule::TsduTooLong => header::RULE_TSDU_TOO_LONG,
        Rule::CreditReduced => header::RULE_CREDIT_REDUCED,
        Rule::NothingToAnswer => header::RULE_NOTHING_TO_ANSWER,
    }
}

fn cause_code(cause: Cause) -> u32
    ensures { result ≡ cause_code cause }
{
    match cause {
        Cause::BadPacket(fault) => packet_code(fault),
        Cause::BadUnit(fault) => unit_code(fault),
        Cause::Broke(rule) => transport_rule_code(rule),
        Cause::Outside => header::RULE_OUTSIDE,
        Cause::TooMany => header::RULE_TOO_MANY_CONNECTIONS,
    }
}

fn unit_said_code(unit: UnitKind) -> u32
    ensures { result ≡ unit_said_code unit }
{
    match unit {
        UnitKind::Cr => header::SAID_TRANSPORT_CR,
        UnitKind::Cc => header::SAID_TRANSPORT_CC,
        UnitKind::Dr => header::SAID_TRANSPORT_DR,
        UnitKind::Dc => header::SAID_TRANSPORT_DC,
        UnitKind::Dt => header::SAID_TRANSPORT_DT,
        UnitKind::Ak => header::SAID_TRANSPORT_AK,
        UnitKind::Er => header::SAID_TRANSPORT_ER,
    }
}

/// Octets that begin no packet, or a packet whose units can't be read.
fn unread_said_code(cause: Cause) -> u32
    ensures { result ≡ unread_said_code cause }
{
    match cause {
        Cause::BadPacket(_) => header::SAID_TPKT,
        _ => header::SAID_TPDU,
    }
}

/// What was sent: a unit, or what could not be read.
fn mark_said_code(unit: Option<UnitKind>, cause: Cause) -> u32
    ensures { result ≡ mark_said_code unit cause }
{
    match unit {
        Some(unit) => unit_said_code(unit),
        None => unread_said_code(cause),
    }
}

/// Whether a side broke a rule, or left the profile.
fn mark_kind_code(cause: Cause) -> u32
    ensures { result ≡ mark_kind_code cause }
{
    match cause {
        Cause::Outside => 3,
        _ => 2,
    }
}

fn kind_code(note: &Note) -> u32
    ensures { result ≡ kind_code note.now }
{
    match *note {
        Note::Silent => 0,
        Note::Kept => 1,
        Note::Broke(..) => 2,
        Note::Leaves(..) => 3,
        Note::TooMany => 4,
        Note::Over => 5,
        Note::Stopped(mark) => mark_kind_code(mark.cause),
        Note::Halted(_) => 5,
        Note::Unopened(_) => 5,
    }
}

fn rule_of(note: &Note) -> u32
    ensures { IsRuleOf note.now result }
{
    match *note {
        Note::Silent => 0,
        Note::Kept => 0,
        Note::Broke(_, by) => rule_code(by.rule),
        Note::Leaves(..) => header::RULE_OUTSIDE,
        Note::TooMany => 0,
        Note::Over => header::RULE_LIMIT,
        Note::Stopped(mark) => cause_code(mark.cause),
        Note::Halted(mark) => cause_code(mark.cause),
        Note::Unopened(_) => header::RULE_NO_OPENING,
    }
}

fn said_in(note: &Note) -> u32
    ensures { result ≡ said_in note.now }
{
    match *note {
        Note::Silent => 0,
        Note::Kept => 0,
        Note::Broke(_, by) => said_code(by.said),
        Note::Leaves(_, by) => said_code(by.said),
        Note::TooMany => 0,
        Note::Over => 0,
        Note::Stopped(mark) => mark_said_code(mark.unit, mark.cause),
        Note::Halted(mark) => mark_said_code(mark.unit, mark.cause),
        Note::Unopened(mark) => mark_said_code(mark.unit, mark.cause),
    }
}

fn offset_in(note: &Note) -> u64
    ensures { result ≡ offset_in note.now }
{
    match *note {
        Note::Silent => 0,
        Note::Kept => 0,
        Note::Broke(offset, _) => offset,
        Note::Leaves(offset, _) => offset,
        Note::TooMany => 0,
        Note::Over => 0,
        Note::Stopped(mark) => mark.offset,
        Note::Halted(mark) => mark.offset,
        Note::Unopened(mark) => mark.offset,
    }
}

fn side_in(subject: Subject) -> Direction
    ensures { result ≡ side_in subject }
{
    match subject {
        Subject::Session(_, side) => side,
        Subject::Transport(side) => side,
        Subject::Rest(side) => side,
    }
}

/// The side that sent the packet.
fn by_in(subject: Subject, note: &Note) -> Direction
    ensures { result ≡ by_in subject note.now }
{
    match *note {
        Note::Stopped(mark) => mark.direction,
        Note::Halted(mark) => mark.direction,
        Note::Unopened(mark) => mark.direction,
        _ => side_in(subject),
    }
}

fn number_of_mark(note: &Note) -> Option<usize>
    ensures { result ≡ number_of_mark note.now }
{
    match *note {
        Note::Stopped(mark) => mark.connection,
        Note::Halted(mark) => mark.connection,
        Note::Unopened(mark) => mark.connection,
        _ => None,
    }
}

/// The number of the connection; none if it is of no single one.
fn number_in(subject: Subject, note: &Note) -> Option<usize>
    ensures { result ≡ number_in subject note.now }
{
    match subject {
        Subject::Session(number, _) => Some(number),
        Subject::Transport(_) => number_of_mark(note),
        Subject::Rest(_) => number_of_mark(note),
    }
}

/// The side that is told of.
fn side_code_in(subject: Subject) -> u32
    ensures { side_of result ≡ Some (side_in subject) }
{
    side_code(side_in(subject))
}

/// The side that sent the packet.
fn by_code_in(subject: Subject, note: &Note) -> u32
    ensures { side_of result ≡ Some (by_in subject note.now) }
{
    side_code(by_in(subject, note))
}

fn number_code(number: Option<usize>) -> u64
    ensures { result ≡ number_code number }
{
    match number {
        None => u64::MAX,
        Some(number) => number as u64,
    }
}

/// The references that both sides gave a connection.
fn references_by(left: Option<u16>, right: Option<u16>) -> References
    ensures { (j : Joined) → left ≡ reference_of Direction.Left j → right ≡ reference_of Direction.Right j → result ≡ named_in (Some j) }
{
    References {
        left: reference_code(left),
        right: reference_code(right),
    }
}

/// The references of a connection.
fn references_in(joint: &Connection) -> References
    ensures { (j : Joined) → HoldsJoined joint.now j → result ≡ named_in (Some j) }
{
    let left = joint.reference(Direction::Left);
    let right = joint.reference(Direction::Right);
    references_by(left, right)
}

/// The same of one whose place was given to another.
fn references_past(past: &Past) -> References
    ensures { (j : Joined) → HoldsPast past.now j → result ≡ named_in (Some j) }
{
    let left = past.reference(Direction::Left);
    let right = past.reference(Direction::Right);
    references_by(left, right)
}

/// The same of the connection with this number.
fn references_at(judge: &Judge, number: usize) -> References
    ensures { (s : State) → HoldsState judge.now s → IsSettled judge.now → result ≡ named_in (numbered number s.course.sessions) }
{
    match judge.connection(number) {
        None => References { left: 0, right: 0 },
        Some(Found::Placed(joint)) => references_in(joint),
        Some(Found::Replaced(past)) => references_past(past),
    }
}

/// The same, if it is known which connection that is.
fn references_of(judge: &Judge, number: Option<usize>) -> References
    ensures { IsNamed judge.now number result.left result.right }
{
    match number {
        None => References { left: 0, right: 0 },
        Some(number) => references_at(judge, number),
    }
}

/// The number of the connection.
fn connection_code(subject: Subject, note: &Note) -> u64
    ensures { result ≡ number_code (number_in subject note.now) }
{
    number_code(number_in(subject, note))
}

/// Its references.
fn references_for(judge: &Judge, subject: Subject, note: &Note) -> References
    ensures { IsNamed judge.now (number_in subject note.now) result.left result.right }
{
    references_of(judge, number_in(subject, note))
}

/// What is told, in the numbers of C.
pub(crate) fn shown(judge: &Judge, subject: Subject, note: &Note) -> OsiVerdict
    ensures { Shows judge.now subject note.now result }
{
    let references = references_for(judge, subject, note);
    OsiVerdict {
        offset: offset_in(note),
        connection: connection_code(subject, note),
        kind: kind_code(note),
        side: side_code_in(subject),
        by: by_code_in(subject, note),
        rule: rule_of(note),
        said: said_in(note),
        left: references.left,
        right: references.right,
    }
}
