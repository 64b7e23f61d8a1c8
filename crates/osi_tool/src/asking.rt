//! What the program was asked for.

ghost use Rattle.std.specs.Prelude.{◌≡◌, ◌≢◌, None, Ok, Err, OnOk, OnErr};
ghost use Rattle.std.specs.IoError.{error_kind};

use crate::faults::WordsFault;
use crate::jobs::Job;
use crate::words::{fault_of_error, job};
use clap::Error;
use std::io::ErrorKind;
use std::rt::Env;
use std::{env, io};

/// The job that the program's words name; none if they ask for help or for the version, which is printed then.
pub fn job_of_words<R: Env + Print + AllocGlobal>(rt: &R) -> Result<Option<Job>, WordsFault> {
    let words = words_of(rt)?;
    match job(rt.alloc(), words.as_slice()) {
        Ok(job) => Ok(Some(job)),
        Err(error) => explain(rt, &error),
    }
}

/// The words that the program was called with.
fn words_of<R: Env + AllocGlobal>(rt: &R) -> Result<Vec<String>, WordsFault> {
    match env::args(rt) {
        Ok(words) => match words.collect(rt.alloc()) {
            Ok(words) => Ok(words),
            Err(_) => Err(WordsFault::OutOfMemory),
        },
        Err(error) => Err(fault_of_reading_words(&error)),
    }
}

/// The fault of words that can't be read.
fn fault_of_reading_words(error: &io::Error) -> WordsFault
    ensures memory { error_kind error.now ≡ ErrorKind.OutOfMemory → result ≡ WordsFault.OutOfMemory }
    ensures others { error_kind error.now ≢ ErrorKind.OutOfMemory → result ≡ WordsFault.Words }
{
    if error.kind() == ErrorKind::OutOfMemory {
        return WordsFault::OutOfMemory;
    }
    WordsFault::Words
}

/// Prints the help that was asked for; other errors are faults.
fn explain<R: Print>(rt: &R, error: &Error) -> Result<Option<Job>, WordsFault> {
    match fault_of_error(error) {
        Some(fault) => Err(fault),
        None => answer_of_help(rt.print(error)),
    }
}

/// The answer of words that asked for help: no job if it was printed.
fn answer_of_help(printed: io::Result<()>) -> Result<Option<Job>, WordsFault>
    ensures shown { OnOk printed (result ≡ Ok None) }
    ensures failed { OnErr printed (result ≡ Err WordsFault.Write) }
{
    match printed {
        Ok(()) => Ok(None),
        Err(_) => Err(WordsFault::Write),
    }
}
