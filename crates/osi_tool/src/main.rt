//! The program `osi`, which reads captures of the OSI session protocol over TPKT, runs scripts on two ends, and says
//! which side of a capture first broke the protocol.
//!
//! ```text
//! osi show  < one_side.hex          a line for each packet, transport unit, TSDU and session unit
//! osi judge < both_sides.hex        what was found of each side, and who broke the protocol first
//! osi pair  < script                the transcript of two ends that do what the script says
//! ```
//!
//! All three read standard input and write standard output. The status is 0 if everything was read, or both sides kept
//! the protocol. It is 1 if something was refused, a side broke the protocol or left the profile, or the capture was
//! not judged; the text says which. It is 2 if the arguments, the input or its digits can't be read, a write failed,
//! or memory ran out; then one line on standard error names the reason.
//!
//! `osi_listing` makes a listing, `osi_report` a judgement, `osi_transcript` a transcript, and `osi_witness` the script of a capture.
//! This crate reads the words of the command line and joins the others to a reader and a writer:
//!
//! - `job` is the `Job` that the words name (`words.rt`). `clap` reads them, and prints the help that they may ask for.
//! - `show`, `judge`, `judge_live`, `pair` and `witness` each do one, with any reader and any writer: they read all of
//!   the input, make the whole text, and then write it; `judge_live` writes each finding before, as soon as it is
//!   certain. So nothing is written for an input that can't be read, and a write that fails leaves a prefix of the
//!   text. The input has at most 16,777,216 octets; that of `judge` may have any length, and is judged while it is
//!   read. `do_job` (`doing.rt`) does the one that a `Job` names.
//! - `ToolFault` says why nothing, or not all, was done. It comes in a `Failure`, with the `Calls`, which say whether a read failed,
//!   and whether a write did. So the contracts can say when a fault is reported. One `Calls` passes beside the reader and the writer
//!   from call to call; each of the five functions makes its own. An interrupted call is repeated.
//! - `Ending` (`endings.rt`) is the status and the line on standard error.
//!
//! The contract of `do_job` says that exactly the text of its job is written, and for each fault when it comes and
//! what was written by then. docs/TOOL.md describes the texts, and `osi-capture`, which makes captures of pcap files,
//! is no part of this program.
#![tactic(auto)]

mod asking;
mod calls;
mod doing;
mod endings;
mod faults;
mod jobs;
mod judging;
mod live;
mod pairing;
mod showing;
mod texts;
mod witnessing;
mod words;

ghost use Rattle.std.specs.Prelude.{◌<◌, IfOk};

use asking::job_of_words;
pub use calls::Calls;
pub use doing::do_job;
use endings::ending_of;
use faults::ProgramFault;
pub use faults::{Failure, ToolFault};
pub use jobs::Job;
pub use judging::judge;
pub use live::judge_live;
pub use pairing::pair;
pub use showing::show;
use std::io;
use std::process::ExitCode;
use std::rt::Env;
pub use witnessing::witness;
pub use words::job;

fn main(rt: HostRuntime) -> ExitCode {
    let ending = ending_of(run(&rt));
    if let Some(line) = ending.line {
        let _ = eprintln!(&rt; "{line}");
    }
    ExitCode::from(ending.status)
}

/// Does what the program's words ask for, and returns the status: 0 if help was printed.
fn run<R: Env + Input + Print + AllocGlobal>(rt: &R) -> Result<u8, ProgramFault>
    ensures { IfOk result (λ status. status < 2) }
{
    match job_of_words(rt) {
        Ok(Some(job)) => done(rt, job),
        Ok(None) => Ok(0),
        Err(fault) => Err(ProgramFault::Words(fault)),
    }
}

/// Does a job on standard input and output, and returns the status.
fn done<R: Input + Print + AllocGlobal>(rt: &R, job: Job) -> Result<u8, ProgramFault>
    ensures { IfOk result (λ status. status < 2) }
{
    let mut reader = rt.reader();
    let mut writer = io::writer(rt);
    match do_job(rt.alloc(), job, &mut reader, &mut writer) {
        Ok(status) => Ok(status),
        Err(failure) => Err(ProgramFault::Tool(failure.fault)),
    }
}
