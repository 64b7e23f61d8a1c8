//! Running the lines of a script after the first.

ghost use Rattle.std.specs.Prelude.{◌≡◌, ◌≢◌, ◌<◌, ◌++◌, false, Some, OnOk, IfOk, MatchBool};
ghost use Rattle.osi_pair.specs.Reached.{IsReached};
ghost use Rattle.osi_pair.specs.SameEnds.{FoundMemory};
ghost use Rattle.osi_transcript.specs.Walks.{lines_in, IsSmall};
ghost use Rattle.osi_transcript.specs.Playing.{event_text, fault_by};
ghost use Rattle.osi_transcript.specs.Steps.{PlaysEvent, PlaysOne, PlaysAll};

use crate::asking::{event_of, named};
use crate::entries::push_entries;
use crate::standings::push_standings;
use crate::walks::Walk;
use osi_carrier::EndReason;
use osi_pair::{Applied, Event, Pair, PairError, Side};
use osi_script::{Answer, Line, LineFault, push_answer};
use osi_stack::Stack;
use std::alloc::{AllocError, Global};

/// The answer to an event, if its entry in the journal does not have it.
#[tactic(auto, unfolding(crate::specs::Playing::event_text))]
fn push_event(
    alloc: Global,
    out: &mut Vec<u8>,
    event: &Event,
    applied: Applied,
) -> Result<(), AllocError>
    ensures { OnOk result (out.new.items ≡ out.old.items ++ event_text event.now applied.carried) }
{
    match *event {
        Event::Connect(_) => Ok(()),
        Event::Call(_, _, _) => Ok(()),
        Event::Carry(side, _) => {
            let answer = Answer::Carried {
                side: named(side),
                octets: applied.carried as u64,
            };
            push_answer(alloc, out, &answer)
        }
        Event::Break(_, _) => push_answer(alloc, out, &Answer::Broken),
        Event::Told(side) => push_answer(alloc, out, &Answer::Told(named(side))),
    }
}

fn fault(error: PairError) -> Option<LineFault>
    ensures { result ≡ fault_by error }
{
    match error {
        PairError::NotBroken => Some(LineFault::NotBroken),
        PairError::AlreadyBroken => Some(LineFault::AlreadyBroken),
        PairError::OutOfMemory => None,
    }
}

/// Whether a side has ended because memory ran out.
#[tactic(auto, using(crate::proofs::the_lines_of_entries_in_order::found_memory))]
fn has_starved(pair: &Pair) -> bool
    ensures found { result ≡ false → FoundMemory pair.now.ends }
    ensures reached { IsReached pair.now.ends }
{
    is_starved(pair.stack(Side::Left)) || is_starved(pair.stack(Side::Right))
}

/// Whether an end has ended because memory ran out.
fn is_starved(stack: &Stack) -> bool
    ensures { MatchBool result
        (stack.now.end.carrier.ended ≡ Some EndReason.NoMemory)
        (stack.now.end.carrier.ended ≢ Some EndReason.NoMemory) }
{
    matches!(stack.ended(), Some(EndReason::NoMemory))
}

/// Applies an event, and adds its lines. Returns whether the event fits. If memory runs out there is no transcript;
/// this includes a carry that is cut short, and a side that ends, by an allocation failure.
fn play_event(
    alloc: Global,
    out: &mut Vec<u8>,
    pair: &mut Pair,
    number: u64,
    event: &Event,
) -> Result<bool, AllocError>
    ensures { IfOk result (λ goes_on. PlaysEvent goes_on number event.now pair.old.ends out.old.items pair.new.ends out.new.items) }
{
    let before = pair.journal().len();
    match pair.apply(event) {
        Ok(applied) => {
            if applied.is_cut_short {
                return Err(AllocError);
            }
            if has_starved(pair) {
                return Err(AllocError);
            }
            push_event(alloc, out, event, applied)?;
            let (_, added) = pair.journal().split_at(before);
            push_entries(alloc, out, added)?;
            Ok(true)
        }
        Err(error) => {
            let Some(fault) = fault(error) else {
                return Err(AllocError);
            };
            let answer = Answer::LineFailed {
                line: number,
                fault,
            };
            push_answer(alloc, out, &answer)?;
            Ok(false)
        }
    }
}

/// Does what a line asks for. Returns whether the next line is to be read.
fn play_line(
    alloc: Global,
    out: &mut Vec<u8>,
    pair: &mut Pair,
    number: u64,
    line: &[u8],
) -> Result<bool, AllocError>
    ensures { IfOk result (λ goes_on. PlaysOne goes_on number line.now pair.old.ends out.old.items pair.new.ends out.new.items) }
{
    let line = Line::read(alloc, line)?;
    let Some(command) = line.command() else {
        push_answer(alloc, out, &Answer::LineRefused(number))?;
        return Ok(false);
    };
    let Some(event) = event_of(command) else {
        push_answer(alloc, out, &Answer::LineRefused(number))?;
        return Ok(false);
    };
    if play_event(alloc, out, pair, number, &event)? {
        Ok(true)
    } else {
        Ok(false)
    }
}

/// Does what the lines ask for, up to one that can't be done, and returns the status.
#[tactic(auto, using(crate::proofs::each_line_is_played_in_order::played_none, crate::proofs::each_line_is_played_in_order::played_all))]
pub(crate) fn play(
    alloc: Global,
    out: &mut Vec<u8>,
    pair: &mut Pair,
    script: &mut Walk,
) -> Result<u8, AllocError>
    requires { IsSmall script.old }
    ensures played { IfOk result (λ status. PlaysAll (lines_in script.old) pair.old.ends out.old.items out.new.items status) }
    ensures status { IfOk result (λ status. status < 2) }
{
    'lines: while let Some((number, line)) = script.next_line() {
        let goes_on = play_line(alloc, out, pair, number, line)?;
        if !goes_on {
            return Ok(1);
        }
    }
    push_standings(alloc, out, pair)?;
    Ok(0)
}
