//! The lines of a transcript for answers.

ghost use Rattle.std.specs.Prelude.{◌≡◌, ◌+◌, ◌≤◌, ◌++◌, codes, length, vec_len, vec_capacity, IsOk, OnOk, OnErr};
ghost use Rattle.std.specs.Fmt.{decimal};
ghost use Rattle.osi_script.specs.Names.{verb_name};
ghost use Rattle.osi_script.specs.Answers.{open_error_name, refusal_name, line_fault_name, call_text, answer_line};

use crate::naming::call_error as call_error_name;
use crate::sides::Side;
use crate::texts::{LINE, put, put_decimal, put_side, put_word};
use crate::verbs::Verb;
use osi_carrier::OpenError;
use osi_session::CallError;
use std::alloc::{AllocError, Global};
use std::mem;

/// Why no connection was asked for.
#[derive(Clone, Copy)]
pub enum ConnectRefusal {
    /// The transport refuses it.
    Open(OpenError),
    /// The functional units can't be selected together.
    NotSelected,
    /// A selector or the user data is too long.
    TooLong,
}

/// Why an event that can be read does not fit after the events before it.
#[derive(Clone, Copy)]
pub enum LineFault {
    /// A side is told of a break, but the connection is not broken.
    NotBroken,
    /// The connection is already broken.
    AlreadyBroken,
}

/// The answer to the event of a line.
#[derive(Clone, Copy)]
pub enum Answer {
    /// A connection is requested, and has this reference.
    Connecting(u16),
    /// No connection is requested.
    ConnectRefused(ConnectRefusal),
    /// A call succeeded.
    Called {
        /// Whose call it is.
        side: Side,
        /// The connection.
        reference: u16,
        /// What was asked for.
        verb: Verb,
    },
    /// A call was refused.
    CallRefused {
        /// Whose call it is.
        side: Side,
        /// The connection.
        reference: u16,
        /// What was asked for.
        verb: Verb,
        /// Why it was refused.
        error: CallError,
    },
    /// This many octets of a side were carried.
    Carried {
        /// The side that had sent them.
        side: Side,
        /// How many there were.
        octets: u64,
    },
    /// The connection is broken.
    Broken,
    /// A side was told of the break.
    Told(Side),
    /// The line with this number, from 1 on, can't be read.
    LineRefused(u64),
    /// The event of a line does not fit.
    LineFailed {
        /// The number of the line, from 1 on.
        line: u64,
        /// Why it does not fit.
        fault: LineFault,
    },
}

/// The name of the reason why a carrier requests no connection.
fn open_error(error: OpenError) -> &'static str
    ensures value { result.now ≡ open_error_name error }
    ensures short { length result.now ≤ 16 }
{
    match error {
        OpenError::NotCaller => "NotCaller",
        OpenError::Ended => "Ended",
        OpenError::Negotiating => "Negotiating",
        OpenError::OneConnection => "OneConnection",
        OpenError::TooMany => "TooMany",
        OpenError::ReferencesUsedUp => "ReferencesUsedUp",
        OpenError::OutOfMemory => "OutOfMemory",
    }
}

fn refusal(refusal: ConnectRefusal) -> &'static str
    ensures value { result.now ≡ refusal_name refusal }
    ensures short { length result.now ≤ 16 }
{
    match refusal {
        ConnectRefusal::Open(error) => open_error(error),
        ConnectRefusal::NotSelected => "NotSelected",
        ConnectRefusal::TooLong => "TooLong",
    }
}

fn line_fault(fault: LineFault) -> &'static str
    ensures value { result.now ≡ line_fault_name fault }
    ensures short { length result.now ≤ 16 }
{
    match fault {
        LineFault::NotBroken => "NotBroken",
        LineFault::AlreadyBroken => "AlreadyBroken",
    }
}

/// Adds the word for a call, for which there is room.
#[inline(always)]
#[tactic(auto, unfolding(crate::specs::Names::verb_name))]
fn put_verb(text: Vec<u8>, verb: Verb) -> Vec<u8>
    requires { vec_len text + 14 ≤ vec_capacity text }
    ensures items { result.items ≡ text.items ++ verb_name verb }
    ensures len { vec_len result ≤ vec_len text + 14 }
    ensures capacity { vec_capacity text ≤ vec_capacity result }
{
    match verb {
        Verb::Data => put(text, "data"),
        Verb::Minor => put(text, "minor"),
        Verb::MinorConfirm => put(text, "minorconfirm"),
        _ => put_word(text, verb.name()),
    }
}

/// Adds a call by its side, its connection and its verb, for which there is room.
#[inline(always)]
#[tactic(auto, unfolding(crate::specs::Answers::call_text))]
fn put_call(text: Vec<u8>, side: Side, reference: u16, verb: Verb) -> Vec<u8>
    requires { vec_len text + 41 ≤ vec_capacity text }
    ensures items { result.items ≡ text.items ++ call_text side reference verb }
    ensures len { vec_len result ≤ vec_len text + 41 }
    ensures capacity { vec_capacity text ≤ vec_capacity result }
{
    let text = put_side(text, side);
    let text = put_decimal(text, u64::from(reference));
    let text = put(text, " ");
    put_verb(text, verb)
}

/// Adds the line of the answer to a connect, for which there is room.
#[tactic(auto, unfolding(crate::specs::Answers::answer_line, crate::specs::Answers::answer_text))]
fn put_connecting(text: Vec<u8>, reference: u16) -> Vec<u8>
    requires { vec_len text + 64 ≤ vec_capacity text }
    ensures { result.items ≡ text.items ++ answer_line (Answer.Connecting reference) }
{
    let text = put(text, "left connect ok ");
    let text = put_decimal(text, u64::from(reference));
    put(text, "\n")
}

/// Adds the line of a connect that is refused, for which there is room.
#[tactic(auto, unfolding(crate::specs::Answers::answer_line, crate::specs::Answers::answer_text))]
fn put_connect_refused(text: Vec<u8>, why: ConnectRefusal) -> Vec<u8>
    requires { vec_len text + 64 ≤ vec_capacity text }
    ensures { result.items ≡ text.items ++ answer_line (Answer.ConnectRefused why) }
{
    let text = put(text, "left connect refused ");
    let text = put_word(text, refusal(why));
    put(text, "\n")
}

/// Adds the line of a call that was done, for which there is room.
#[inline(always)]
#[tactic(auto, unfolding(crate::specs::Answers::answer_line, crate::specs::Answers::answer_text))]
fn put_called(text: Vec<u8>, side: Side, reference: u16, verb: Verb) -> Vec<u8>
    requires { vec_len text + 64 ≤ vec_capacity text }
    ensures { result.items ≡ text.items ++ answer_line (Answer.Called side reference verb) }
{
    let text = put_call(text, side, reference, verb);
    put(text, " ok\n")
}

/// Adds the line of a call that was refused, for which there is room.
#[tactic(auto, unfolding(crate::specs::Answers::answer_line, crate::specs::Answers::answer_text))]
fn put_call_refused(
    text: Vec<u8>,
    side: Side,
    reference: u16,
    verb: Verb,
    error: CallError,
) -> Vec<u8>
    requires { vec_len text + 80 ≤ vec_capacity text }
    ensures { result.items ≡ text.items ++ answer_line (Answer.CallRefused side reference verb error) }
{
    let text = put_call(text, side, reference, verb);
    let text = put(text, " refused ");
    let text = put_word(text, call_error_name(error));
    put(text, "\n")
}

/// Adds the line of what was carried, for which there is room.
#[inline(always)]
#[tactic(auto, unfolding(crate::specs::Answers::answer_line, crate::specs::Answers::answer_text))]
fn put_carried(text: Vec<u8>, side: Side, octets: u64) -> Vec<u8>
    requires { vec_len text + 64 ≤ vec_capacity text }
    ensures { result.items ≡ text.items ++ answer_line (Answer.Carried side octets) }
{
    let text = put_side(text, side);
    let text = put(text, "carried ");
    let text = put_decimal(text, octets);
    put(text, "\n")
}

/// Adds the line of a side that was told of the break, for which there is room.
#[tactic(auto, unfolding(crate::specs::Answers::answer_line, crate::specs::Answers::answer_text))]
fn put_told(text: Vec<u8>, side: Side) -> Vec<u8>
    requires { vec_len text + 64 ≤ vec_capacity text }
    ensures { result.items ≡ text.items ++ answer_line (Answer.Told side) }
{
    let text = put_side(text, side);
    put(text, "told\n")
}

/// Adds the number of a line and what is wrong with it, for which there is room.
fn put_line(text: Vec<u8>, line: u64, what: &str) -> Vec<u8>
    requires short { length what.now ≤ 16 }
    requires room { vec_len text + 64 ≤ vec_capacity text }
    ensures { result.items ≡ text.items ++ (codes "line " ++ decimal line ++ codes " " ++ what.now ++ codes "\n") }
{
    let text = put(text, "line ");
    let text = put_decimal(text, line);
    let text = put(text, " ");
    let text = put_word(text, what);
    put(text, "\n")
}

/// Adds the line of an answer, for which there is room.
#[tactic(auto, unfolding(crate::specs::Answers::answer_line, crate::specs::Answers::answer_text))]
fn put_answer(text: Vec<u8>, answer: &Answer) -> Vec<u8>
    requires { vec_len text + 160 ≤ vec_capacity text }
    ensures { result.items ≡ text.items ++ answer_line answer.now }
{
    match *answer {
        Answer::Connecting(reference) => put_connecting(text, reference),
        Answer::ConnectRefused(why) => put_connect_refused(text, why),
        Answer::Called {
            side,
            reference,
            verb,
        } => put_called(text, side, reference, verb),
        Answer::CallRefused {
            side,
            reference,
            verb,
            error,
        } => put_call_refused(text, side, reference, verb, error),
        Answer::Carried { side, octets } => put_carried(text, side, octets),
        Answer::Broken => put(text, "broken\n"),
        Answer::Told(side) => put_told(text, side),
        Answer::LineRefused(line) => put_line(text, line, "refused"),
        Answer::LineFailed { line, fault } => put_line(text, line, line_fault(fault)),
    }
}

/// Adds the line of any answer, for which there is room.
#[inline(never)]
fn push_any(alloc: Global, out: &mut Vec<u8>, answer: &Answer)
    requires { vec_len out.old + 160 ≤ vec_capacity out.old }
    ensures { out.new.items ≡ out.old.items ++ answer_line answer.now }
{
    let text = mem::replace(out, Vec::new(alloc));
    *out = put_answer(text, answer);
}

/// Adds the line of a call that was done, for which there is room.
#[inline(always)]
fn push_called(alloc: Global, out: &mut Vec<u8>, side: Side, reference: u16, verb: Verb)
    requires { vec_len out.old + 64 ≤ vec_capacity out.old }
    ensures { out.new.items ≡ out.old.items ++ answer_line (Answer.Called side reference verb) }
{
    // While it is written, the text is owned by this function; so the compiler knows that no store to it changes its
    // length.
    let text = mem::replace(out, Vec::new(alloc));
    *out = put_called(text, side, reference, verb);
}

/// Adds the line of what was carried, for which there is room.
#[inline(always)]
fn push_carried(alloc: Global, out: &mut Vec<u8>, side: Side, octets: u64)
    requires { vec_len out.old + 64 ≤ vec_capacity out.old }
    ensures { out.new.items ≡ out.old.items ++ answer_line (Answer.Carried side octets) }
{
    let text = mem::replace(out, Vec::new(alloc));
    *out = put_carried(text, side, octets);
}

/// Adds the line of an answer to a transcript; if memory runs out, the transcript is unchanged. If there is room for 192
/// more octets, no memory is needed.
#[inline(always)]
pub fn push_answer(alloc: Global, out: &mut Vec<u8>, answer: &Answer) -> Result<(), AllocError>
    ensures ok { OnOk result (out.new.items ≡ out.old.items ++ answer_line answer.now) }
    ensures err { OnErr result (out.new.items ≡ out.old.items) }
    ensures spare { vec_len out.old + 192 ≤ vec_capacity out.old → IsOk result }
{
    out.reserve(LINE)?;
    match *answer {
        Answer::Called {
            side,
            reference,
            verb,
        } => push_called(alloc, out, side, reference, verb),
        Answer::Carried { side, octets } => push_carried(alloc, out, side, octets),
        _ => push_any(alloc, out, answer),
    }
    Ok(())
}
