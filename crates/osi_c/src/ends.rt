//! Making and freeing an end, and requesting a connection.

ghost use Rattle.std.specs.Prelude.{◌≡◌, true, false, None};
ghost use Rattle.osi_c.specs.Codes.{made_of, asked_of};
ghost use Rattle.osi_c.specs.Ends.{Makes, Connects, Asks};

use crate::arguments::{OsiOpening, OsiTerms, opening, terms};
use crate::codes::{BAD_ARGUMENT, CLOSED, IN_USE, NO_MEMORY, OK, connect_refusal};
use crate::handles::loose::Loose;
use crate::handles::{Contents, Handle};
use crate::slots::OsiEnd;
use crate::traces::Traces;
use osi_stack::{Connect, Stack};
use std::alloc::Global;
use std::mem::replace;

/// Makes the calling end of a byte connection.
#[unsafe(no_mangle)]
pub extern "C" fn osi_caller(alloc: Global, end: &mut OsiEnd, own: &OsiTerms) -> u32
    ensures { Makes true own.now (made_of result) end.old.inner.value end.new.inner.value }
{
    let Some(local) = terms(own) else {
        return BAD_ARGUMENT;
    };
    if end.full {
        return IN_USE;
    }
    let contents = Contents {
        stack: Stack::caller(alloc, local),
        last: None,
        reference: 0,
        traces: Traces::none(alloc),
    };
    let Ok(loose) = Loose::new(alloc, contents) else {
        return NO_MEMORY;
    };
    end.fill(loose);
    OK
}

/// Makes the called end of a byte connection.
#[unsafe(no_mangle)]
pub extern "C" fn osi_called(alloc: Global, end: &mut OsiEnd, own: &OsiTerms) -> u32
    ensures { Makes false own.now (made_of result) end.old.inner.value end.new.inner.value }
{
    let Some(local) = terms(own) else {
        return BAD_ARGUMENT;
    };
    if end.full {
        return IN_USE;
    }
    let contents = Contents {
        stack: Stack::called(alloc, local),
        last: None,
        reference: 0,
        traces: Traces::none(alloc),
    };
    let Ok(loose) = Loose::new(alloc, contents) else {
        return NO_MEMORY;
    };
    end.fill(loose);
    OK
}

/// Frees what the slot holds, if it holds an end.
#[unsafe(no_mangle)]
pub extern "C" fn osi_free(alloc: Global, end: &mut OsiEnd)
    ensures { end.new.inner.value ≡ None }
{
    let OsiEnd { full, inner } = replace(
        end,
        OsiEnd {
            full: false,
            inner: Handle::empty(),
        },
    );
    if full {
        drop(inner.into_loose(alloc).into_box());
    } else {
        inner.discard();
    }
}

fn ask(end: &mut OsiEnd, connect: &Connect, reference: &mut u16) -> u32
    ensures value { Connects connect.now (asked_of result) end.old.inner.value reference.new end.new.inner.value }
    ensures reference { (result ≡ 0 → ⊥) → reference.new ≡ reference.old }
{
    if !end.full {
        return CLOSED;
    }
    match end.get_mut().stack.connect(connect) {
        Ok(given) => {
            *reference = given.0;
            OK
        }
        Err(error) => connect_refusal(error),
    }
}

/// Requests a connection, and stores its reference.
#[tactic(auto, using(crate::proofs::a_connection_is_the_one_named::asks_by))]
#[unsafe(no_mangle)]
pub extern "C" fn osi_connect(end: &mut OsiEnd, asked: &OsiOpening<'_>, reference: &mut u16) -> u32
    ensures value { Asks asked.now (asked_of result) end.old.inner.value reference.new end.new.inner.value }
    ensures reference { (result ≡ 0 → ⊥) → reference.new ≡ reference.old }
{
    match opening(asked) {
        None => BAD_ARGUMENT,
        Some(connect) => ask(end, &connect, reference),
    }
}
