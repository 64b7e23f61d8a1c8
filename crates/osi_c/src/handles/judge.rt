//! A judge on the heap as C keeps it.

ghost use Rattle.std.specs.Prelude.{Option};
ghost use Rattle.std.specs.Coded.{coded_option};
ghost use Rattle.osi_c.specs.contracts.judges.HeldJudge.{the_row};
ghost use Rattle.osi_c.specs.declared.judges.HeldJudge.{HeldJudge};

use crate::handles::loose::Loose;
use crate::judge_slots::OsiJudge;
use crate::judges::HeldJudge;
use std::alloc::Global;
use std::marker::Model;
use std::ptr::null_mut;

/// A box as a raw pointer, or null. It is not `Drop`, so a box can't be dropped without being freed.
#[repr(C)]
pub struct JudgeHandle {
    at: *mut u8,
    pub ghost value: { Option HeldJudge } by { coded_option the_row.coded },
}

impl Model for JudgeHandle {
    ghost use Rattle.osi_c.specs.Owned.{may_own};
    ghost use Rattle.osi_c.specs.contracts.judges.HeldJudge.{the_row};

    ghost also_owns = { λ h. may_own the_row h.at h.value };
}

impl JudgeHandle {
    ghost use Rattle.std.specs.Prelude.{◌≡◌, None, Some, IsSome, IsNone};

    /// Nothing.
    pub(crate) fn empty() -> JudgeHandle
        ensures { result.value ≡ None }
    {
        JudgeHandle { at: null_mut() }
    }

    /// The box of these parts.
    pub(crate) fn of_loose(loose: Loose<HeldJudge, Global>) -> JudgeHandle
        ensures { result.value ≡ Some loose.value }
    {
        let Loose { at, alloc: _ } = loose;
        JudgeHandle { at: at.cast() }
    }

    /// The parts of the box.
    pub(crate) fn into_loose(self, alloc: Global) -> Loose<HeldJudge, Global>
        requires { IsSome self.value }
        ensures { Some result.value ≡ self.value }
    {
        let JudgeHandle { at } = self;
        Loose {
            at: at.cast(),
            alloc,
        }
    }

    /// Discards a handle that is null.
    pub(crate) fn discard(self)
        requires { IsNone self.value }
    {
        let JudgeHandle { at: _ } = self;
    }
}

impl OsiJudge {
    ghost use Rattle.std.specs.Prelude.{◌≡◌, Some, IsSome};
    ghost use types.Logic.{sem};
    ghost use Rattle.osi_c.specs.LentJudge.{LendsSlot};

    /// What a full slot holds.
    pub(crate) fn get_mut(&mut self) -> &mut HeldJudge
        requires { IsSome self.old.inner.value }
        ensures* writes_back { sem 𝓛 (LendsSlot self.entry result) }
        ensures value { self.old.inner.value ≡ Some result.now }
    {
        unsafe { &mut *self.inner.at.cast() }
    }
}
