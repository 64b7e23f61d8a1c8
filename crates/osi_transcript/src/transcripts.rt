//! The transcript of a script of two ends.

ghost use Rattle.std.specs.Prelude.{◌≡◌, ◌<◌, ◌^◌, length, option_map, IfOk};
ghost use Rattle.osi_pair.specs.Ends.{fresh_ends};
ghost use Rattle.osi_script.specs.Commands.{command_of};
ghost use Rattle.osi_script.specs.Cutting.{lines_of};
ghost use Rattle.osi_transcript.specs.Playing.{Transcribes};
ghost use Rattle.osi_transcript.specs.Numbered.{numbered};
ghost use Rattle.osi_transcript.specs.Starting.{StartsWith};
ghost use Rattle.osi_transcript.specs.Steps.{PlaysAll};
ghost use Rattle.osi_transcript.specs.Walks.{lines_in, IsSmall};

use crate::playing::play;
use crate::walks::Walk;
use osi_class::Local;
use osi_pair::Pair;
use osi_script::{Answer, Command, Line, push_answer};
use std::alloc::{AllocError, Global};

/// A script has about this many octets for each entry of the journal, mostly more.
const OCTETS_AN_ENTRY: usize = 16;

/// The transcript of a script.
#[derive(Drop)]
pub struct Transcript {
    /// Its lines.
    pub lines: Vec<u8>,
    /// 0 if all lines of the script were read, 1 if one was refused.
    pub status: u8,
}

/// What both ends support that a line declares; none for any other line.
fn ends_of(alloc: Global, line: &[u8]) -> Result<Option<(Local, Local)>, AllocError>
    ensures { IfOk result (λ ends. StartsWith (command_of line.now) (option_map (λ e. fresh_ends e.0 e.1) ends)) }
{
    let line = Line::read(alloc, line)?;
    match line.command() {
        Some(
            Command::Ends {
                caller,
                called,
                size,
                window,
            },
        ) => Ok(Some((caller.local(size, window), called.local(size, window)))),
        _ => Ok(None),
    }
}

/// Does what the lines after the first ask for, on two ends whose journal gets room for this many entries, and returns
/// the status.
fn play_on(
    alloc: Global,
    out: &mut Vec<u8>,
    pair: &mut Pair,
    script: &mut Walk,
    entries: usize,
) -> Result<u8, AllocError>
    requires { IsSmall script.old }
    ensures played { IfOk result (λ status. PlaysAll (lines_in script.old) pair.old.ends out.old.items out.new.items status) }
    ensures status { IfOk result (λ status. status < 2) }
{
    if pair.reserve(entries).is_err() {
        return Err(AllocError);
    }
    play(alloc, out, pair, script)
}

/// The same on two fresh ends.
fn play_afresh(
    alloc: Global,
    out: &mut Vec<u8>,
    ends: (Local, Local),
    script: &mut Walk,
    entries: usize,
) -> Result<u8, AllocError>
    requires { IsSmall script.old }
    ensures played { IfOk result (λ status. PlaysAll (lines_in script.old) (fresh_ends ends.0 ends.1) out.old.items out.new.items status) }
    ensures status { IfOk result (λ status. status < 2) }
{
    let (left, right) = ends;
    play_on(
        alloc,
        out,
        &mut Pair::new(alloc, left, right),
        script,
        entries,
    )
}

/// The transcript of a script of less than 4,294,967,296 octets.
///
/// The first line that asks for anything declares the two ends; if there is none, the transcript is empty. Each further
/// line asks for an event. The first line that can't be read, or whose event does not fit, ends the transcript.
pub fn transcribe(alloc: Global, script: &[u8]) -> Result<Transcript, AllocError>
    requires { length script.now < 2 ^ 32 }
    ensures told { IfOk result (λ t. Transcribes (numbered 1 (lines_of script.now)) t.lines.items t.status) }
    ensures status { IfOk result (λ t. t.status < 2) }
{
    let octets = script.len();
    let mut lines = Vec::with_capacity(alloc, octets * 2)?;
    let mut script = Walk::new(script);
    let Some((number, line)) = script.next_line() else {
        return Ok(Transcript { lines, status: 0 });
    };
    let Some(ends) = ends_of(alloc, line)? else {
        push_answer(alloc, &mut lines, &Answer::LineRefused(number))?;
        return Ok(Transcript { lines, status: 1 });
    };
    let entries = octets / OCTETS_AN_ENTRY;
    let status = play_afresh(alloc, &mut lines, ends, &mut script, entries)?;
    Ok(Transcript { lines, status })
}
