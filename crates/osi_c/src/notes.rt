//! What C is told of a byte connection.

ghost use Rattle.std.specs.Prelude.{◌≡◌, ◌&&◌, not};
ghost use Rattle.osi_side.specs.Captures.{Capture};
ghost use Rattle.osi_judge.specs.Connections.{Joined, numbered};
ghost use Rattle.osi_judge.specs.Holding.{HoldsJoined, IsHeard};
ghost use Rattle.osi_judge.specs.Pasts.{HoldsPast};
ghost use Rattle.osi_judge.specs.Standing.{HoldsState, IsSettled};
ghost use Rattle.osi_judge.specs.States.{State};
ghost use Rattle.osi_report.specs.Telling.{is_left, is_dropped, leaves};
ghost use Rattle.osi_c.specs.Fed.{WasFed};
ghost use Rattle.osi_c.specs.Notes.{note_of_found, note_of_kept, note_of_outcome, note_unless};
ghost use Rattle.osi_c.specs.Notes.{note_of_break, note_of_halt, is_certain, is_late_in};
ghost use Rattle.osi_c.specs.Notes.{IsNoteOf, IsNoteAt, StillIf, StillPastIf, Tells};

use crate::judges::HeldJudge;
use crate::subjects::Subject;
use osi_judge::{Connection, Found, Judge, Mark, Outcome, Past, Violation};
use osi_side::{Direction, Finding};

/// What is told.
#[derive(Clone, Copy)]
pub(crate) enum Note {
    /// Nothing.
    Silent,
    /// It kept the protocol so far.
    Kept,
    /// The session of the side broke the protocol by the packet at this offset.
    Broke(u64, Violation),
    /// It left the profile by the packet at this offset.
    Leaves(u64, Violation),
    /// Too many sessions explain it, so it is judged no further.
    TooMany,
    /// It is judged no further, since more passed on its connection than is judged.
    Over,
    /// The transport of the side broke a rule, or left the profile.
    Stopped(Mark),
    /// After this packet nothing more of the side is judged.
    Halted(Mark),
    /// Nothing of the side is judged, since the capture begins in the middle of a connection with this packet.
    Unopened(Mark),
}

fn is_left(finding: Finding) -> bool
    ensures { result ≡ is_left finding }
{
    matches!(finding, Finding::Left(_))
}

/// Whether nothing is told of a side: the other side left the profile, and this side did not.
fn is_dropped(own: Finding, other: Finding) -> bool
    ensures { result ≡ is_dropped own other }
{
    is_left(other) && !is_left(own)
}

/// What is told of a session that kept the protocol.
fn note_of_kept(is_over: bool) -> Note
    ensures { result ≡ note_of_kept is_over }
{
    if is_over {
        return Note::Over;
    }
    Note::Kept
}

/// What is told of a session of which this was found.
fn note_of_found(is_over: bool, finding: Finding, offset: u64, by: Violation) -> Note
    ensures { result ≡ note_of_found is_over finding offset by }
{
    match finding {
        Finding::Kept => note_of_kept(is_over),
        Finding::Broke(_) => Note::Broke(offset, by),
        Finding::Left(_) => Note::Leaves(offset, by),
        Finding::TooMany => Note::TooMany,
    }
}

fn note_unless(is_dropped: bool, note: Note) -> Note
    ensures { result ≡ note_unless is_dropped note }
{
    if is_dropped {
        return Note::Silent;
    }
    note
}

/// What is told of the session of a side of a connection.
fn note_of_joint(joint: &Connection, direction: Direction) -> Note
    ensures { (j : Joined) → HoldsJoined joint.now j → IsHeard joint.now → IsNoteOf direction j result }
{
    let own = joint.finding(direction);
    let beside = joint.finding(direction.other());
    let offset = joint.offset(direction);
    let by = joint.violation(direction);
    let is_over = joint.is_over();
    note_unless(
        is_dropped(own, beside),
        note_of_found(is_over, own, offset, by),
    )
}

/// What is told of a session with this outcome.
fn note_of_outcome(is_over: bool, outcome: Outcome) -> Note
    ensures { result ≡ note_of_outcome is_over outcome }
{
    match outcome {
        Outcome::Kept(..) => note_of_kept(is_over),
        Outcome::Broke(offset, by) => Note::Broke(offset, by),
        Outcome::Left(offset, by) => Note::Leaves(offset, by),
        Outcome::TooMany => Note::TooMany,
    }
}

fn leaves(outcome: Outcome) -> bool
    ensures { result ≡ leaves outcome }
{
    matches!(outcome, Outcome::Left(..))
}

/// Whether nothing is told of a side with this outcome, where the other side has that.
fn is_dropped_by(own: Outcome, beside: Outcome) -> bool
    ensures { result ≡ (leaves beside && not (leaves own)) }
{
    leaves(beside) && !leaves(own)
}

/// The same of the session of a side of a connection whose place was given to another.
pub(crate) fn note_of_past(past: &Past, direction: Direction) -> Note
    ensures { (j : Joined) → HoldsPast past.now j → IsNoteOf direction j result }
{
    let own = past.outcome(direction);
    let beside = past.outcome(direction.other());
    note_unless(
        is_dropped_by(own, beside),
        note_of_outcome(past.is_over(), own),
    )
}

/// The same of the connection with this number.
fn note_of_session(judge: &Judge, number: usize, direction: Direction) -> Note
    ensures { (s : State) → HoldsState judge.now s → IsSettled judge.now → IsNoteAt direction (numbered number s.course.sessions) result }
{
    match judge.connection(number) {
        None => Note::Silent,
        Some(Found::Placed(joint)) => note_of_joint(joint, direction),
        Some(Found::Replaced(past)) => note_of_past(past, direction),
    }
}

/// Whether nothing is certain of either side of a connection.
pub(crate) fn is_still(joint: &Connection) -> bool
    ensures { StillIf result joint.now }
{
    let left = note_of_joint(joint, Direction::Left);
    if is_certain(&left) {
        return false;
    }
    let right = note_of_joint(joint, Direction::Right);
    if is_certain(&right) {
        return false;
    }
    true
}

/// The same of one whose place was given to another.
pub(crate) fn is_still_past(past: &Past) -> bool
    ensures { StillPastIf result past.now }
{
    let left = note_of_past(past, Direction::Left);
    if is_certain(&left) {
        return false;
    }
    let right = note_of_past(past, Direction::Right);
    if is_certain(&right) {
        return false;
    }
    true
}

/// What is told of the first break of the transport of a side.
fn note_of_break(is_late: bool, broke: Option<Mark>) -> Note
    ensures { result ≡ note_of_break is_late broke }
{
    match broke {
        None => Note::Kept,
        Some(mark) => {
            if is_late {
                return Note::Silent;
            }
            Note::Stopped(mark)
        }
    }
}

/// What is told of a side of which nothing more is judged.
fn note_of_halt(is_late: bool, halted: Option<Mark>) -> Note
    ensures { result ≡ note_of_halt is_late halted }
{
    match halted {
        None => Note::Kept,
        Some(mark) => {
            if is_late {
                return Note::Unopened(mark);
            }
            Note::Halted(mark)
        }
    }
}

/// Whether the capture begins in the middle of a connection.
fn is_late(held: &HeldJudge) -> bool
    ensures { (capture : Capture) → WasFed held.now capture → IsSettled held.now.judge → result ≡ is_late_in capture }
{
    osi_report::is_late(&held.judge, &held.opening)
}

/// What is told, once all that passed is judged.
pub(crate) fn note_of(held: &HeldJudge, subject: Subject) -> Note
    ensures { Tells held.now subject result }
{
    let judge = &held.judge;
    match subject {
        Subject::Session(number, direction) => note_of_session(judge, number, direction),
        Subject::Transport(direction) => note_of_break(is_late(held), judge.broke(direction)),
        Subject::Rest(direction) => note_of_halt(is_late(held), judge.halted(direction)),
    }
}

/// Whether it stays so, whatever passes.
pub(crate) fn is_certain(note: &Note) -> bool
    ensures { result ≡ is_certain note.now }
{
    !matches!(note, Note::Silent | Note::Kept)
}
