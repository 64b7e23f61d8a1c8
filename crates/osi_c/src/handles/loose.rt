//! A box in its parts.

ghost use Rattle.std.specs.Prelude.{◌≡◌, IfOk};
ghost use Rattle.std.specs.Box.Ownership.{box_owns};

use std::alloc::{AllocError, Allocator, Global};
use std::marker::Model;

/// The pointer of a box, and the allocator that frees it.
pub(crate) struct Loose<T, A: Allocator> {
    pub(super) at: *mut T,
    pub(super) alloc: A,
    pub(crate) ghost value: { T },
}

impl<T, A: Allocator> Model for Loose<T, A> {
    ghost also_owns = { λ l. box_owns (A.dealloc_token l.alloc) T.row l.at l.value };
}

impl<T: Drop, A: Allocator> Loose<T, A> {
    /// A box taken apart.
    pub(crate) fn of(whole: Box<T, A>) -> Loose<T, A>
        ensures { result.value ≡ whole.value }
    {
        let (at, alloc) = Box::into_raw_with_allocator(whole);
        Loose { at, alloc }
    }

    /// The box again.
    pub(crate) fn into_box(self) -> Box<T, A>
        ensures { result.value ≡ self.value }
    {
        let Loose { at, alloc } = self;
        unsafe { Box::from_raw(alloc, at) }
    }
}

impl<T: Drop> Loose<T, Global> {
    /// A box with this value.
    pub(crate) fn new(alloc: Global, value: T) -> Result<Loose<T, Global>, AllocError>
        ensures { IfOk result (λ l. l.value ≡ value) }
    {
        let whole = Box::new(alloc, value)?;
        Ok(Loose::of(whole))
    }
}
