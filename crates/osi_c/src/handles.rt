//! A value on the heap as C keeps it.

pub(crate) mod judge;
pub(crate) mod loose;

ghost use Rattle.std.specs.Prelude.{Option};
ghost use Rattle.std.specs.Coded.{coded_option};
ghost use Rattle.osi_c.specs.contracts.handles.Contents.{the_row};
ghost use Rattle.osi_c.specs.declared.handles.Contents.{Contents};

use crate::slots::OsiEnd;
use crate::traces::Traces;
use loose::Loose;
use osi_session::Indication;
use osi_stack::Stack;
use std::alloc::Global;
use std::marker::Model;
use std::ptr::null_mut;

/// The contents of a C slot: the end; the indication that C fetched last, with the reference of its connection; and the
/// traces. The indication's user data is lent until the next call.
#[derive(Drop)]
pub struct Contents {
    pub stack: Stack,
    pub last: Option<Indication>,
    pub reference: u16,
    pub traces: Traces,
}

/// A box as a raw pointer, or null. It is not `Drop`, so a box can't be dropped without being freed.
#[repr(C)]
pub struct Handle {
    at: *mut u8,
    pub ghost value: { Option Contents } by { coded_option the_row.coded },
}

impl Model for Handle {
    ghost use Rattle.osi_c.specs.Owned.{may_own};
    ghost use Rattle.osi_c.specs.contracts.handles.Contents.{the_row};

    ghost also_owns = { λ h. may_own the_row h.at h.value };
}

impl Handle {
    ghost use Rattle.std.specs.Prelude.{◌≡◌, None, Some, IsSome, IsNone};

    /// Nothing.
    pub(crate) fn empty() -> Handle
        ensures { result.value ≡ None }
    {
        Handle { at: null_mut() }
    }

    /// The box of these parts.
    pub(crate) fn of_loose(loose: Loose<Contents, Global>) -> Handle
        ensures { result.value ≡ Some loose.value }
    {
        let Loose { at, alloc: _ } = loose;
        Handle { at: at.cast() }
    }

    /// The parts of the box.
    pub(crate) fn into_loose(self, alloc: Global) -> Loose<Contents, Global>
        requires { IsSome self.value }
        ensures { Some result.value ≡ self.value }
    {
        let Handle { at } = self;
        Loose {
            at: at.cast(),
            alloc,
        }
    }

    /// Discards a handle that is null.
    pub(crate) fn discard(self)
        requires { IsNone self.value }
    {
        let Handle { at: _ } = self;
    }
}

impl OsiEnd {
    ghost use Rattle.std.specs.Prelude.{◌≡◌, Some, IsSome};
    ghost use types.Logic.{sem};
    ghost use Rattle.osi_c.specs.Lent.{LendsSlot};

    /// What a full slot holds.
    pub(crate) fn get_mut(&mut self) -> &mut Contents
        requires { IsSome self.old.inner.value }
        ensures* writes_back { sem 𝓛 (LendsSlot self.entry result) }
        ensures value { self.old.inner.value ≡ Some result.now }
    {
        unsafe { &mut *self.inner.at.cast() }
    }
}
