//! The slot that C keeps of an end.

ghost use Rattle.std.specs.Prelude.{◌≡◌, is_some};

use crate::handles::loose::Loose;
use crate::handles::{Contents, Handle};
use std::alloc::Global;
use std::mem::replace;

/// The slot of an end in C: it holds an end, or none. It begins as zeros.
#[repr(C)]
pub struct OsiEnd {
    pub(crate) full: bool,
    pub(crate) inner: Handle,
    ghost tied: { full ≡ is_some inner.value },
}

impl OsiEnd {
    ghost use Rattle.std.specs.Prelude.{◌≡◌, IsNone, Some, option_map};
    ghost use types.Logic.{sem};
    ghost use Rattle.osi_c.specs.Lent.{KeepsSlot};

    /// What the slot holds, to be read.
    pub(crate) fn get(&mut self) -> Option<&Contents>
        ensures* same { sem 𝓛 (KeepsSlot self.entry) }
        ensures value { option_map (λ c. c.now) result ≡ self.old.inner.value }
    {
        if !self.full {
            return None;
        }
        Some(self.get_mut())
    }

    /// Puts a box into an empty slot.
    pub(crate) fn fill(&mut self, loose: Loose<Contents, Global>)
        requires { IsNone self.old.inner.value }
        ensures { self.new.inner.value ≡ Some loose.value }
    {
        let inner = Handle::of_loose(loose);
        let OsiEnd {
            full: _,
            inner: old,
        } = replace(self, OsiEnd { full: true, inner });
        old.discard();
    }
}
