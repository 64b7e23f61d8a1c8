//! The slot that C keeps of a judge.

ghost use Rattle.std.specs.Prelude.{◌≡◌, is_some};

use crate::handles::judge::JudgeHandle;
use crate::handles::loose::Loose;
use crate::judges::HeldJudge;
use std::alloc::Global;
use std::mem::replace;

/// The slot of a judge in C: it holds a judge, or none. It begins as zeros.
#[repr(C)]
pub struct OsiJudge {
    pub(crate) full: bool,
    pub(crate) inner: JudgeHandle,
    ghost tied: { full ≡ is_some inner.value },
}

impl OsiJudge {
    ghost use Rattle.std.specs.Prelude.{◌≡◌, IsNone, Some, option_map};
    ghost use types.Logic.{sem};
    ghost use Rattle.osi_c.specs.LentJudge.{KeepsSlot};

    /// What the slot holds, to be read.
    pub(crate) fn get(&mut self) -> Option<&HeldJudge>
        ensures* same { sem 𝓛 (KeepsSlot self.entry) }
        ensures value { option_map (λ c. c.now) result ≡ self.old.inner.value }
    {
        if !self.full {
            return None;
        }
        Some(self.get_mut())
    }

    /// Puts a box into an empty slot.
    pub(crate) fn fill(&mut self, loose: Loose<HeldJudge, Global>)
        requires { IsNone self.old.inner.value }
        ensures { self.new.inner.value ≡ Some loose.value }
    {
        let inner = JudgeHandle::of_loose(loose);
        let OsiJudge {
            full: _,
            inner: old,
        } = replace(self, OsiJudge { full: true, inner });
        old.discard();
    }
}
