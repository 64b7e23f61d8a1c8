//! Runs the files of the folder `data`, and says whether each result is what is written there.
//!
//! The arguments of the program are words and names of files. A word says how the files after it are run:
//!
//! - `pair`: scripts of two ends, compared with their transcripts;
//! - `each-way`: such scripts that are also run in class 0 and in class 2, with octets carried all at once and one by
//!   one; only the numbers of octets carried may then differ;
//! - `again`: such scripts, in which an event that runs out of memory is applied again;
//! - `octets`: ends that are fed octets, and what they answer;
//! - `show`: captures, compared with their listings;
//! - `damaged`: captures whose packets are damaged and fed to ends; the result is how many runs behaved as they should;
//! - `long`: scripts and transcripts with abbreviations, which files after `octets` may have too;
//! - `together`: scripts whose events are given in one list;
//! - `texts`: files with the text of each fault and error;
//! - `judge`: captures of both sides, compared with what is found of each;
//! - `seen`: scripts as after `each-way`, which are seen at four taps; no end may be blamed for what passes there;
//! - `runs`: files of many such scripts, which are run as they are written;
//! - `fed`: ends that are fed octets, as after `octets`; no end may be blamed for what it sends.
#![tactic(auto)]

mod again;
mod asked;
mod blame;
mod calls;
mod damaged;
mod digits;
mod disputes;
mod fed;
mod kinds;
mod long;
mod octets;
mod output;
mod reports;
mod seen;
mod texts;
mod together;
mod ways;

use kinds::Kind;
use output::Output;
use reports::report_on;
use std::rt::{Env, Files};
use std::{env, fs, io};

fn main(rt: HostRuntime) -> io::Result<()> {
    let words: Vec<String> = env::args(&rt)?.collect(rt.alloc())?;
    judge_all(&rt, words.as_slice())
}

/// Runs each file named in the arguments, in the way of the last word before it.
fn judge_all<R: Files + Print + AllocGlobal>(rt: &R, words: &[String]) -> io::Result<()> {
    let mut kind = Kind::Pair;
    for word in words.iter().skip(1) {
        take_word(rt, &mut kind, word.as_str())?;
    }
    Ok(())
}

fn take_word<R: Files + Print + AllocGlobal>(
    rt: &R,
    kind: &mut Kind,
    word: &str,
) -> io::Result<()> {
    match Kind::behind(word) {
        Some(next) => {
            *kind = next;
            Ok(())
        }
        None => judge(rt, word, *kind),
    }
}

fn judge<R: Files + Print + AllocGlobal>(rt: &R, name: &str, kind: Kind) -> io::Result<()> {
    let given = text_of(rt, name, kind.given())?;
    judge_given(rt, name, kind, given.as_str())
}

fn judge_given<R: Files + Print + AllocGlobal>(
    rt: &R,
    name: &str,
    kind: Kind,
    given: &str,
) -> io::Result<()> {
    let wanted = wanted_of(rt, name, kind)?;
    print(
        rt,
        name,
        &report_on(rt.alloc(), kind, given, wanted.as_str()),
    )
}

/// The wanted result; nothing if the file that is run has it.
fn wanted_of<R: Files + AllocGlobal>(rt: &R, name: &str, kind: Kind) -> io::Result<String> {
    match kind.wanted() {
        Some(other) => text_of(rt, name, other),
        None => Ok(String::new(rt.alloc())),
    }
}

fn text_of<R: Files + AllocGlobal>(rt: &R, name: &str, kind: &str) -> io::Result<String> {
    fs::read_to_string(rt, format!(in rt.alloc(); "{name}.{kind}")?)
}

/// Prints a report, if it is whole.
fn print<R: Print>(rt: &R, name: &str, report: &Output) -> io::Result<()> {
    let said = report.whole()?;
    println!(rt; "{name} {said}")
}
