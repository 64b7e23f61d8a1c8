//! A user's requests, and their entries in the journal.

ghost use Rattle.std.specs.Prelude.{◌≡◌, ◌+◌, ◌≤◌, ◌++◌, ◌∷◌, [], map, vec_capacity, IfOk, IfErr, OnOk, OnErr};
ghost use Rattle.osi_session.specs.Calls.{called_by};
ghost use Rattle.osi_stack.specs.Calls.{connect_error, call_error};
ghost use Rattle.osi_pair.specs.Asked.{asked_of};
ghost use Rattle.osi_pair.specs.Ends.{connected_by, answer_with, called_by_error};
ghost use Rattle.osi_pair.specs.Entries.{asks, calls, answer_by, error_by, entry_by};

use crate::entries::Entry;
use crate::faults::PairError;
use crate::owned::{OwnedConnect, OwnedRequest};
use crate::sides::Side;
use crate::telling::note;
use osi_carrier::{OpenError, Ref};
use osi_session::{CallError, Request};
use osi_stack::{Connect, ConnectError, Stack};
use std::alloc::Global;

/// Requests a connection. An allocation failure is no answer, and changes nothing.
fn connected(stack: &mut Stack, connect: &Connect) -> Result<Result<Ref, ConnectError>, PairError>
    ensures answer { IfOk result (λ answer. answer_by answer
        ≡ answer_with (stack.old.end.carrier.given + 1) (connect_error connect.now stack.old.end)) }
    ensures stack { OnOk result (stack.new ≡ connected_by (connect_error connect.now stack.old.end) connect.now stack.old) }
    ensures memory { IfErr result (λ error. error ≡ PairError.OutOfMemory) }
    ensures err { OnErr result (stack.new ≡ stack.old) }
{
    match stack.connect(connect) {
        Ok(reference) => Ok(Ok(reference)),
        Err(ConnectError::Open(OpenError::OutOfMemory)) => Err(PairError::OutOfMemory),
        Err(error) => Ok(Err(error)),
    }
}

/// A call of the user of a connection. An allocation failure is no answer, and changes nothing.
fn called(
    stack: &mut Stack,
    reference: Ref,
    request: Request,
) -> Result<Result<(), CallError>, PairError>
    ensures answer { IfOk result (λ answer. error_by answer ≡ call_error reference.0 (called_by request.entry) stack.old.end) }
    ensures stack { OnOk result (stack.new ≡
        called_by_error (call_error reference.0 (called_by request.entry) stack.old.end) reference.0 (called_by request.entry) stack.old) }
    ensures memory { IfErr result (λ error. error ≡ PairError.OutOfMemory) }
    ensures err { OnErr result (stack.new ≡ stack.old) }
{
    match stack.call(reference, request) {
        Ok(()) => Ok(Ok(())),
        Err(CallError::OutOfMemory) => Err(PairError::OutOfMemory),
        Err(error) => Ok(Err(error)),
    }
}

/// Requests a connection, and notes the answer. An allocation failure changes nothing.
pub(crate) fn connect(
    alloc: Global,
    stack: &mut Stack,
    connect: &Connect,
    journal: &mut Vec<Entry>,
) -> Result<(), PairError>
    ensures stack { OnOk result (stack.new ≡ connected_by (connect_error connect.now stack.old.end) connect.now stack.old) }
    ensures says { OnOk result (map entry_by journal.new.items ≡ map entry_by journal.old.items ++
        asks (asked_of connect.now) (answer_with (stack.old.end.carrier.given + 1) (connect_error connect.now stack.old.end)) ∷ []) }
    ensures memory { IfErr result (λ error. error ≡ PairError.OutOfMemory) }
    ensures err { OnErr result (stack.new ≡ stack.old) }
    ensures silent { OnErr result (journal.new.items ≡ journal.old.items) }
    ensures capacity { vec_capacity journal.old ≤ vec_capacity journal.new }
{
    let Ok(asked) = OwnedConnect::boxed(alloc, connect) else {
        return Err(PairError::OutOfMemory);
    };
    let Ok(()) = journal.reserve(1) else {
        return Err(PairError::OutOfMemory);
    };
    let answer = connected(stack, connect)?;
    note(journal, Entry::Connect { asked, answer });
    Ok(())
}

/// A call of the user of a connection, whose answer is noted. An allocation failure changes nothing.
pub(crate) fn call(
    alloc: Global,
    side: Side,
    stack: &mut Stack,
    reference: Ref,
    request: Request,
    journal: &mut Vec<Entry>,
) -> Result<(), PairError>
    ensures stack { OnOk result (stack.new ≡
        called_by_error (call_error reference.0 (called_by request.entry) stack.old.end) reference.0 (called_by request.entry) stack.old) }
    ensures says { OnOk result (map entry_by journal.new.items ≡ map entry_by journal.old.items ++
        calls side reference.0 (called_by request.entry) (call_error reference.0 (called_by request.entry) stack.old.end) ∷ []) }
    ensures memory { IfErr result (λ error. error ≡ PairError.OutOfMemory) }
    ensures err { OnErr result (stack.new ≡ stack.old) }
    ensures silent { OnErr result (journal.new.items ≡ journal.old.items) }
    ensures capacity { vec_capacity journal.old ≤ vec_capacity journal.new }
{
    let Ok(asked) = OwnedRequest::copy(alloc, request) else {
        return Err(PairError::OutOfMemory);
    };
    let Ok(()) = journal.reserve(1) else {
        drop(asked);
        return Err(PairError::OutOfMemory);
    };
    let answer = match called(stack, reference, request) {
        Ok(answer) => answer,
        Err(error) => {
            drop(asked);
            return Err(error);
        }
    };
    let entry = Entry::Call {
        side,
        reference,
        request: asked,
        answer,
    };
    note(journal, entry);
    Ok(())
}
