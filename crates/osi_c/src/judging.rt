//! Judging a byte connection that passes, for C.

ghost use Rattle.std.specs.Prelude.{◌≡◌, None};
ghost use Rattle.osi_c.specs.Judges.{begins_of, Begins, feeding_of, Feeds};

use crate::codes::{BAD_ARGUMENT, CLOSED, IN_USE, NO_MEMORY, OK};
use crate::handles::judge::JudgeHandle;
use crate::handles::loose::Loose;
use crate::judge_slots::OsiJudge;
use crate::judges::{fresh, take_piece};
use crate::verdicts::side_by;
use std::alloc::Global;
use std::mem::replace;

/// Makes the judge of a byte connection on which nothing has passed.
#[unsafe(no_mangle)]
pub extern "C" fn osi_judge_new(alloc: Global, judge: &mut OsiJudge) -> u32
    ensures { Begins (begins_of result) judge.old.inner.value judge.new.inner.value }
{
    if judge.full {
        return IN_USE;
    }
    let Ok(loose) = Loose::new(alloc, fresh(alloc)) else {
        return NO_MEMORY;
    };
    judge.fill(loose);
    OK
}

/// Frees what the slot holds, if it holds a judge.
#[unsafe(no_mangle)]
pub extern "C" fn osi_judge_free(alloc: Global, judge: &mut OsiJudge)
    ensures { judge.new.inner.value ≡ None }
{
    let OsiJudge { full, inner } = replace(
        judge,
        OsiJudge {
            full: false,
            inner: JudgeHandle::empty(),
        },
    );
    if full {
        drop(inner.into_loose(alloc).into_box());
    } else {
        inner.discard();
    }
}

/// Feeds octets of a side, 0 for left and 1 for right, and stores how many of them passed.
#[unsafe(no_mangle)]
pub extern "C" fn osi_judge_feed(
    judge: &mut OsiJudge,
    side: u32,
    piece: &[u8],
    used: &mut usize,
) -> u32
    ensures { Feeds side piece.now used.new (feeding_of result) judge.old.inner.value judge.new.inner.value }
{
    *used = 0;
    let Some(direction) = side_by(side) else {
        return BAD_ARGUMENT;
    };
    if !judge.full {
        return CLOSED;
    }
    let passed = take_piece(judge.get_mut(), direction, piece);
    *used = passed;
    if passed < piece.len() {
        return NO_MEMORY;
    }
    OK
}
