//! The text of the judgement of what passed, for C.

ghost use types.Logic.{sem};
ghost use Rattle.std.specs.Prelude.{◌≡◌, IfOk};
ghost use Rattle.osi_judge.specs.Standing.{IsSettled};
ghost use Rattle.osi_c.specs.LentJudge.{KeepsSlot};
ghost use Rattle.osi_c.specs.Judgements.{HasWritten, IsTextOf, Writes, writing_of, last_text};

use crate::codes::{CLOSED, NO_MEMORY, OK};
use crate::judge_slots::OsiJudge;
use crate::judges::HeldJudge;
use osi_report::push_judgement;
use std::alloc::{AllocError, Global};

/// The text of the judgement of what passed, once all of it is judged.
fn text_of(alloc: Global, held: &HeldJudge) -> Result<Vec<u8>, AllocError>
    ensures { IfOk result (λ t. IsSettled held.now.judge → IsTextOf held.now t.items) }
{
    let mut text = Vec::new(alloc);
    push_judgement(&mut text, &held.judge, &held.opening)?;
    Ok(text)
}

/// What was written.
pub(crate) enum Written {
    /// The text.
    Text,
    /// Nothing: an allocation failed.
    NoMemory,
}

/// Writes the text of the judgement of what passed so far.
fn write(alloc: Global, held: &mut HeldJudge) -> Written
    ensures { HasWritten result held.old held.new }
{
    let Ok(()) = held.judge.settle() else {
        return Written::NoMemory;
    };
    let Ok(text) = text_of(alloc, held) else {
        return Written::NoMemory;
    };
    held.text = text;
    Written::Text
}

/// Writes the text of the judgement of what passed so far, which [`osi_judge_text`] then lends.
#[unsafe(no_mangle)]
pub extern "C" fn osi_judge_write(alloc: Global, judge: &mut OsiJudge) -> u32
    ensures { Writes (writing_of result) judge.old.inner.value judge.new.inner.value }
{
    if !judge.full {
        return CLOSED;
    }
    match write(alloc, judge.get_mut()) {
        Written::Text => OK,
        Written::NoMemory => NO_MEMORY,
    }
}

/// The text that was written last; none for an empty slot.
fn text(judge: &mut OsiJudge) -> &[u8]
    ensures* same { sem 𝓛 (KeepsSlot judge.entry) }
    ensures value { result.now ≡ last_text judge.old.inner.value }
{
    match judge.get() {
        None => &[],
        Some(judge) => judge.text.as_slice(),
    }
}

/// Lends the text that was written last; none for an empty slot.
#[unsafe(no_mangle)]
pub extern "C" fn osi_judge_text<'a>(held: &'a mut OsiJudge, octets: &mut &'a [u8])
    ensures* same { sem 𝓛 (KeepsSlot held.entry) }
    ensures value { octets.new.now ≡ last_text held.old.inner.value }
{
    *octets = text(held);
}
