//! The verdicts on a byte connection that C asks for, by what has passed so far.

ghost use Rattle.std.specs.Prelude.{◌≡◌, Some, IfOk, OnErr};
ghost use Rattle.osi_judge.specs.Standing.{IsSettled};
ghost use Rattle.osi_c.specs.Judges.{Keeps, Settles};
ghost use Rattle.osi_c.specs.Asking.{number_of, HasAsked, IsNumbered, ShowsOf, ShowsTransport, Asks, asking_of};
ghost use Rattle.osi_c.specs.Asking.{AsksCount, Counts, counting_of};

use crate::codes::{BAD_ARGUMENT, CLOSED, NO_MEMORY, OK};
use crate::header::NO_SUCH_CONNECTION;
use crate::judge_slots::OsiJudge;
use crate::judges::HeldJudge;
use crate::notes::{is_certain, note_of};
use crate::subjects::Subject;
use crate::verdicts::{OsiVerdict, nothing, shown, side_by};
use osi_side::Direction;
use std::alloc::AllocError;

/// The number that stands for no connection.
const NO_CONNECTION: u64 = u64::MAX;

/// The number of a connection, or none.
fn number_by(number: u64) -> Option<usize>
    ensures { result ≡ number_of number }
{
    if number == NO_CONNECTION {
        return None;
    }
    Some(number as usize)
}

/// What is told of a subject so far.
fn told_of(held: &HeldJudge, subject: Subject) -> OsiVerdict
    ensures { ShowsOf held.now subject result }
{
    let note = note_of(held, subject);
    shown(&held.judge, subject, &note)
}

/// What is told of the transport of a side: of its first break, or, if there is none, of the rest of it.
fn told_of_transport(held: &HeldJudge, direction: Direction) -> OsiVerdict
    ensures { ShowsTransport held.now direction result }
{
    let transport = Subject::Transport(direction);
    let note = note_of(held, transport);
    if is_certain(&note) {
        return shown(&held.judge, transport, &note);
    }
    told_of(held, Subject::Rest(direction))
}

/// Whether a connection has this number, once all that passed is judged.
fn is_numbered(held: &HeldJudge, number: usize) -> bool
    ensures { IsSettled held.now.judge → IsNumbered held.now number result }
{
    held.judge.connection(number).is_some()
}

/// What is asked for.
pub(crate) enum Asked {
    /// This verdict.
    Shown(OsiVerdict),
    /// No connection has the number.
    Unknown,
    /// An allocation failed.
    NoMemory,
}

/// What is told of the session of a side of the connection with this number, once all that passed is judged.
fn asked_at(held: &HeldJudge, number: usize, direction: Direction) -> Asked
    ensures { IsSettled held.now.judge → HasAsked result (Some number) direction held.now held.now }
{
    if !is_numbered(held, number) {
        return Asked::Unknown;
    }
    Asked::Shown(told_of(held, Subject::Session(number, direction)))
}

/// What is told of the session of a side of a connection, or of its transport, once all that passed is judged.
fn asked_of(held: &HeldJudge, number: Option<usize>, direction: Direction) -> Asked
    ensures { IsSettled held.now.judge → HasAsked result number direction held.now held.now }
{
    match number {
        None => Asked::Shown(told_of_transport(held, direction)),
        Some(number) => asked_at(held, number, direction),
    }
}

/// The same.
fn ask(held: &mut HeldJudge, number: Option<usize>, direction: Direction) -> Asked
    ensures { HasAsked result number direction held.old held.new }
{
    match held.judge.settle() {
        Ok(()) => asked_of(held, number, direction),
        Err(_) => Asked::NoMemory,
    }
}

/// Shows the verdict on the session of a side of the connection with a number, or on the transport of a side, by what has
/// passed so far.
#[unsafe(no_mangle)]
pub extern "C" fn osi_judge_verdict(
    judge: &mut OsiJudge,
    connection: u64,
    side: u32,
    verdict: &mut OsiVerdict,
) -> u32
    ensures { Asks connection side verdict.new (asking_of result) judge.old.inner.value judge.new.inner.value }
{
    *verdict = nothing();
    let Some(direction) = side_by(side) else {
        return BAD_ARGUMENT;
    };
    if !judge.full {
        return CLOSED;
    }
    match ask(judge.get_mut(), number_by(connection), direction) {
        Asked::Shown(shown) => {
            *verdict = shown;
            OK
        }
        Asked::Unknown => NO_SUCH_CONNECTION,
        Asked::NoMemory => NO_MEMORY,
    }
}

/// How many connections were requested.
fn count(held: &mut HeldJudge) -> Result<usize, AllocError>
    ensures counts { IfOk result (λ n. Counts held.new n) }
    ensures settles { IfOk result (λ n. Settles held.old held.new) }
    ensures err { OnErr result (Keeps held.old held.new) }
{
    held.judge.settle()?;
    Ok(held.judge.count())
}

/// Stores how many connections were requested so far.
#[unsafe(no_mangle)]
pub extern "C" fn osi_judge_connections(judge: &mut OsiJudge, connections: &mut u64) -> u32
    ensures { AsksCount connections.new (counting_of result) judge.old.inner.value judge.new.inner.value }
{
    *connections = 0;
    if !judge.full {
        return CLOSED;
    }
    let Ok(requested) = count(judge.get_mut()) else {
        return NO_MEMORY;
    };
    *connections = requested as u64;
    OK
}
