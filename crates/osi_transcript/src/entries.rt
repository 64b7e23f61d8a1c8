//! The lines of the journal's entries.

ghost use Rattle.std.specs.Prelude.{◌≡◌, ◌++◌, map, OnOk};
ghost use Rattle.osi_pair.specs.Asked.{owned_call};
ghost use Rattle.osi_pair.specs.Entries.{entry_by, answer_by, error_by};
ghost use Rattle.osi_transcript.specs.Entries.{verb_of, refusal_by, connect_answered, call_answered, entry_text, entry_texts};

use crate::asking::named;
use osi_carrier::Ref;
use osi_pair::{Entry, OwnedRequest, Side};
use osi_script::{Answer, ConnectRefusal, Verb, push_answer, push_indication};
use osi_session::CallError;
use osi_stack::ConnectError;
use std::alloc::{AllocError, Global};

fn verb(request: &OwnedRequest) -> Verb
    ensures { result ≡ verb_of (owned_call request.now) }
{
    match request {
        OwnedRequest::Accept { .. } => Verb::Accept,
        OwnedRequest::Refuse(_) => Verb::Refuse,
        OwnedRequest::Data(_) => Verb::Data,
        OwnedRequest::Give(_) => Verb::Give,
        OwnedRequest::Please(_, _) => Verb::Please,
        OwnedRequest::Minor(_, _) => Verb::Minor,
        OwnedRequest::MinorConfirm(_, _) => Verb::MinorConfirm,
        OwnedRequest::Major(_) => Verb::Major,
        OwnedRequest::MajorConfirm(_) => Verb::MajorConfirm,
        OwnedRequest::Restart(_, _, _) => Verb::Restart,
        OwnedRequest::RestartConfirm(_, _) => Verb::RestartConfirm,
        OwnedRequest::Release(_) => Verb::Release,
        OwnedRequest::ReleaseAccept(_) => Verb::ReleaseAccept,
        OwnedRequest::ReleaseRefuse(_) => Verb::ReleaseRefuse,
        OwnedRequest::Abort(_) => Verb::Abort,
    }
}

fn refusal(error: ConnectError) -> ConnectRefusal
    ensures { result ≡ refusal_by error }
{
    match error {
        ConnectError::Open(error) => ConnectRefusal::Open(error),
        ConnectError::NotSelected => ConnectRefusal::NotSelected,
        ConnectError::TooLong => ConnectRefusal::TooLong,
    }
}

/// The answer to the left user's request for a connection.
fn connect_answer(answer: Result<Ref, ConnectError>) -> Answer
    ensures { result ≡ connect_answered (answer_by answer) }
{
    match answer {
        Ok(reference) => Answer::Connecting(reference.0),
        Err(error) => Answer::ConnectRefused(refusal(error)),
    }
}

/// The answer to a call.
fn call_answer(side: Side, reference: Ref, verb: Verb, answer: Result<(), CallError>) -> Answer
    ensures { result ≡ call_answered side reference.0 verb (error_by answer) }
{
    let side = named(side);
    let reference = reference.0;
    match answer {
        Ok(()) => Answer::Called {
            side,
            reference,
            verb,
        },
        Err(error) => Answer::CallRefused {
            side,
            reference,
            verb,
            error,
        },
    }
}

/// Adds the line of an entry. The entry for the end of an end has no line.
#[tactic(auto, unfolding(crate::specs::Entries::entry_text))]
fn push_entry(alloc: Global, out: &mut Vec<u8>, entry: &Entry) -> Result<(), AllocError>
    ensures { OnOk result (out.new.items ≡ out.old.items ++ entry_text (entry_by entry.now)) }
{
    match entry {
        Entry::Connect { answer, .. } => push_answer(alloc, out, &connect_answer(*answer)),
        Entry::Call {
            side,
            reference,
            request,
            answer,
        } => {
            let answer = call_answer(*side, *reference, verb(request), *answer);
            push_answer(alloc, out, &answer)
        }
        Entry::Indication {
            side,
            reference,
            indication,
        } => push_indication(alloc, out, named(*side), reference.0, indication),
        Entry::End { .. } => Ok(()),
    }
}

/// Adds the lines of entries.
pub(crate) fn push_entries(
    alloc: Global,
    out: &mut Vec<u8>,
    entries: &[Entry],
) -> Result<(), AllocError>
    ensures { OnOk result (out.new.items ≡ out.old.items ++ entry_texts (map entry_by entries.now)) }
{
    'entries: for entry in entries {
        push_entry(alloc, out, entry)?;
    }
    Ok(())
}
