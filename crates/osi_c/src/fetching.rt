//! The verdicts on a byte connection that C fetches.

ghost use Rattle.std.specs.Prelude.{◌≡◌, ◌≤◌, false, Some, IfSome, IfNone};
ghost use Rattle.osi_judge.specs.Standing.{IsSettled, first_in};
ghost use Rattle.osi_c.specs.Subjects.{leading, told_by};
ghost use Rattle.osi_c.specs.Fetching.{HasNoneBy, HasNoneByEach, HasNoneByPast, HasNoneByPasts};
ghost use Rattle.osi_c.specs.Fetching.{IsDue, HasNone, HasNoneOf, HasNoneOfTransport, HasNoneOfSessions, HasNoLeading, InTurn};
ghost use Rattle.osi_c.specs.Fetching.{AreDoneBy, DoneByBothIf, DoneByIf, LooksOn};
ghost use Rattle.osi_c.specs.Fetching.{HasNothing, HasFetched, MayBeLate, Fetches, fetching_of};

use crate::codes::{CLOSED, NO_MEMORY, NOTHING, OK};
use crate::judge_slots::OsiJudge;
use crate::judges::HeldJudge;
use crate::notes::{Note, is_certain, is_still, is_still_past, note_of, note_of_past};
use crate::subjects::{Subject, leading};
use crate::told::Told;
use crate::verdicts::{OsiVerdict, nothing, shown};
use osi_judge::{Connection, Past};
use osi_side::Direction;
use std::alloc::AllocError;

/// What is to be told, and of what.
#[derive(Clone, Copy)]
struct Due {
    subject: Subject,
    note: Note,
}

/// What is certain of it, unless C was told.
fn due_of(held: &HeldJudge, subject: Subject) -> Option<Due>
    ensures some { IfSome result (λ d. IsDue held.now (told_by held.now.told) d.subject d.note) }
    ensures of_it { IfSome result (λ d. d.subject ≡ subject) }
    ensures none { IfNone result (HasNone held.now (told_by held.now.told) subject) }
{
    if held.told.contains(subject) {
        return None;
    }
    let note = note_of(held, subject);
    if !is_certain(&note) {
        return None;
    }
    Some(Due { subject, note })
}

/// The same of one or the other.
fn due_of_either(held: &HeldJudge, one: Subject, other: Subject) -> Option<Due>
    ensures some { IfSome result (λ d. IsDue held.now (told_by held.now.told) d.subject d.note) }
    ensures none { IfNone result (HasNone held.now (told_by held.now.told) one × HasNone held.now (told_by held.now.told) other) }
{
    match due_of(held, one) {
        Some(due) => Some(due),
        None => due_of(held, other),
    }
}

/// What is to be told of a connection.
fn session_due(held: &HeldJudge, number: usize) -> Option<Due>
    ensures some { IfSome result (λ d. IsDue held.now (told_by held.now.told) d.subject d.note) }
    ensures none { IfNone result (HasNoneOf held.now (told_by held.now.told) number) }
{
    let left = Subject::Session(number, Direction::Left);
    let right = Subject::Session(number, Direction::Right);
    due_of_either(held, left, right)
}

/// What is to be told of a connection that the judge holds.
fn due_by(held: &HeldJudge, joint: &Connection) -> Option<Due>
    ensures some { IfSome result (λ d. IsDue held.now (told_by held.now.told) d.subject d.note) }
    ensures none { IfNone result (HasNoneBy held.now (told_by held.now.told) joint.now) }
{
    if is_still(joint) {
        return None;
    }
    session_due(held, joint.number())
}

/// The same of one whose place was given to another.
fn due_by_past(held: &HeldJudge, past: &Past) -> Option<Due>
    ensures some { IfSome result (λ d. IsDue held.now (told_by held.now.told) d.subject d.note) }
    ensures none { IfNone result (HasNoneByPast held.now (told_by held.now.told) past.now) }
{
    if is_still_past(past) {
        return None;
    }
    session_due(held, past.number())
}

/// What is to be told of these connections, one after the other.
fn due_of_each(held: &HeldJudge, joints: &[Connection]) -> Option<Due>
    ensures some { IfSome result (λ d. IsDue held.now (told_by held.now.told) d.subject d.note) }
    ensures none { IfNone result (HasNoneByEach held.now (told_by held.now.told) joints.now) }
{
    let mut place = 0;
    'connections: while place < joints.len() {
        let due = due_by(held, &joints[place]);
        if due.is_some() {
            return due;
        }
        place += 1;
    }
    None
}

/// The same of those whose place was given to another, but for those that were seen.
fn due_of_pasts(held: &HeldJudge, pasts: &[Past]) -> Option<Due>
    ensures some { IfSome result (λ d. IsDue held.now (told_by held.now.told) d.subject d.note) }
    ensures none { IfNone result (HasNoneByPasts held.now.seen held.now (told_by held.now.told) pasts.now) }
{
    let mut place = held.seen;
    'connections: while place < pasts.len() {
        let due = due_by_past(held, &pasts[place]);
        if due.is_some() {
            return due;
        }
        place += 1;
    }
    None
}

/// What is to be told of a connection: first of those that may still get units.
fn sessions_due(held: &HeldJudge) -> Option<Due>
    ensures some { IfSome result (λ d. IsDue held.now (told_by held.now.told) d.subject d.note) }
    ensures none { IfNone result (HasNoneOfSessions held.now (told_by held.now.told)) }
{
    match due_of_each(held, held.judge.placed()) {
        Some(due) => Some(due),
        None => due_of_pasts(held, held.judge.replaced()),
    }
}

/// What is to be told of the transport of a side.
fn transport_due(held: &HeldJudge) -> Option<Due>
    ensures some { IfSome result (λ d. IsDue held.now (told_by held.now.told) d.subject d.note) }
    ensures none { IfNone result (HasNoneOfTransport held.now (told_by held.now.told)) }
{
    let left = Subject::Transport(Direction::Left);
    let right = Subject::Transport(Direction::Right);
    match due_of_either(held, left, right) {
        Some(due) => Some(due),
        None => due_of_either(
            held,
            Subject::Rest(Direction::Left),
            Subject::Rest(Direction::Right),
        ),
    }
}

/// What is to be told of the break that passed first.
fn leading_due(held: &HeldJudge) -> Option<Due>
    ensures some { IfSome result (λ d. (leading (first_in held.now.judge) ≡ Some d.subject)
        × IsDue held.now (told_by held.now.told) d.subject d.note) }
    ensures none { IfNone result (HasNoLeading held.now (told_by held.now.told)) }
{
    match leading(held.judge.first()) {
        None => None,
        Some(subject) => due_of(held, subject),
    }
}

/// What is to be told, but of the break that passed first.
fn other_due(held: &HeldJudge) -> Option<Due>
    ensures some { IfSome result (λ d. IsDue held.now (told_by held.now.told) d.subject d.note) }
    ensures none { IfNone result (HasNoneOfTransport held.now (told_by held.now.told)
        × HasNoneOfSessions held.now (told_by held.now.told)) }
{
    match transport_due(held) {
        Some(due) => Some(due),
        None => sessions_due(held),
    }
}

/// What is to be told: first of the break that passed first.
fn next_due(held: &HeldJudge) -> Option<Due>
    ensures some { IfSome result (λ d. InTurn held.now (told_by held.now.told) d.subject
        × IsDue held.now (told_by held.now.told) d.subject d.note) }
    ensures none { IfNone result (HasNothing held.now (told_by held.now.told)) }
{
    match leading_due(held) {
        Some(due) => Some(due),
        None => other_due(held),
    }
}

/// Whether what passes next may show that the capture begins in the middle of a connection.
fn is_undecided(held: &HeldJudge) -> bool
    ensures { MayBeLate result held.now }
{
    osi_report::is_undecided(&held.judge, &held.opening)
}

/// What was fetched.
pub(crate) enum Fetched {
    /// This verdict.
    Given(OsiVerdict),
    /// Nothing is certain of which C was not told.
    Nothing,
    /// An allocation failed.
    NoMemory,
}

/// Gives what is to be told.
fn give(held: &mut HeldJudge, due: Due) -> Fetched
    ensures { IsSettled held.old.judge → MayBeLate false held.old → InTurn held.old (told_by held.old.told) due.subject
        → IsDue held.old (told_by held.old.told) due.subject due.note → HasFetched result held.old held.new }
{
    let verdict = shown(&held.judge, due.subject, &due.note);
    match held.told.add(due.subject) {
        Ok(()) => Fetched::Given(verdict),
        Err(_) => Fetched::NoMemory,
    }
}

/// Whether nothing is certain of the session of a side of a connection that is over, or C was told of it.
fn is_done_by(told: &Told, past: &Past, direction: Direction) -> bool
    ensures { DoneByIf result direction (told_by told.now) past.now }
{
    if told.contains(Subject::Session(past.number(), direction)) {
        return true;
    }
    let note = note_of_past(past, direction);
    !is_certain(&note)
}

/// The same of both sides.
fn is_done_by_both(told: &Told, past: &Past) -> bool
    ensures { DoneByBothIf result (told_by told.now) past.now }
{
    if !is_done_by(told, past, Direction::Left) {
        return false;
    }
    is_done_by(told, past, Direction::Right)
}

/// How many of the connections that are over are seen, if so many were: up to the first of which something is certain that C was not
/// told.
fn seen_of(told: &Told, pasts: &[Past], seen: usize) -> usize
    ensures more { seen ≤ result }
    ensures done { AreDoneBy seen result (told_by told.now) pasts.now }
{
    let mut place = seen;
    'connections: while place < pasts.len() {
        if !is_done_by_both(told, &pasts[place]) {
            return place;
        }
        place += 1;
    }
    place
}

/// Looks at the connections that are over and were not seen. So all fetches together look at each of them once, and at one of them
/// again in each fetch.
fn look_on(held: &mut HeldJudge)
    ensures { IsSettled held.old.judge → LooksOn held.old held.new }
{
    let seen = seen_of(&held.told, held.judge.replaced(), held.seen);
    held.seen = seen;
}

/// Fetches a verdict that is due, once all that passed is judged.
fn fetch_due(held: &mut HeldJudge) -> Fetched
    ensures { IsSettled held.old.judge → MayBeLate false held.old → HasFetched result held.old held.new }
{
    match next_due(held) {
        None => Fetched::Nothing,
        Some(due) => give(held, due),
    }
}

/// Fetches a verdict, once all that passed is judged.
fn fetch_decided(held: &mut HeldJudge) -> Fetched
    ensures { IsSettled held.old.judge → HasFetched result held.old held.new }
{
    if is_undecided(held) {
        return Fetched::Nothing;
    }
    look_on(held);
    fetch_due(held)
}

/// Fetches a verdict.
fn fetch(held: &mut HeldJudge) -> Fetched
    ensures { HasFetched result held.old held.new }
{
    match held.judge.settle() {
        Ok(()) => fetch_decided(held),
        Err(_) => Fetched::NoMemory,
    }
}

/// Fetches a verdict that is certain and that was not fetched.
#[unsafe(no_mangle)]
pub extern "C" fn osi_judge_next(judge: &mut OsiJudge, verdict: &mut OsiVerdict) -> u32
    ensures { Fetches (fetching_of result) verdict.new judge.old.inner.value judge.new.inner.value }
{
    *verdict = nothing();
    if !judge.full {
        return CLOSED;
    }
    match fetch(judge.get_mut()) {
        Fetched::Given(given) => {
            *verdict = given;
            OK
        }
        Fetched::Nothing => NOTHING,
        Fetched::NoMemory => NO_MEMORY,
    }
}
