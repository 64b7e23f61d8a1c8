//! A queue whose first value is kept inline.

ghost use Rattle.std.specs.Prelude.{◌≡◌, ◌==◌, ◌∷◌, ◌++◌, [], true, false, length, is_some, OnOk, OnErr};
ghost use Rattle.osi_class.specs.Queues.{PopsFirst};

use std::alloc::{AllocError, Global};
use std::collections::VecDeque;
use std::marker::Model;

/// A queue. The first value is kept inline: a value that is taken before the next one arrives needs no allocation.
#[derive(Drop)]
pub struct Queue<T> {
    first: Option<T>,
    /// The values after it; none if there is no first one.
    others: VecDeque<T>,
}

impl<T> Model for Queue<T> {
    ghost use Rattle.std.specs.Prelude.{◌≡◌, ◌||◌, [], false, is_some, nat_lt, not};
    ghost use Rattle.std.specs.VecDeque.{deque_len, deque_capacity};
    ghost use Rattle.osi_class.specs.Queues.{Queued, in_front};

    ghost Value = { Queued T };

    ghost view = { λ q. record {
      items = in_front q.first q.others.items;
      has_room = not (is_some q.first) || nat_lt (deque_len q.others) (deque_capacity q.others);
    } };

    ghost invariant = { λ q. is_some q.first ≡ false → q.others.items ≡ [] };
}

impl<T: Drop> Queue<T> {
    /// There is no value.
    pub fn new(alloc: Global) -> Self
        ensures { result.items ≡ [] }
    {
        Queue {
            first: None,
            others: VecDeque::new(alloc),
        }
    }

    /// Whether there is no value.
    pub fn is_empty(&self) -> bool
        ensures { result ≡ (length self.now.items == 0) }
    {
        self.first.is_none()
    }

    /// Makes room for one more value. Memory is needed only if there is a first one.
    #[inline(always)]
    pub fn reserve(&mut self) -> Result<(), AllocError>
        ensures items { self.new.items ≡ self.old.items }
        ensures ok { OnOk result (self.new.has_room ≡ true) }
        ensures full { OnErr result (self.old.has_room ≡ false) }
    {
        if self.first.is_none() {
            return Ok(());
        }
        self.others.reserve(1)
    }

    /// Adds a value at the end. If memory runs out, nothing has changed; memory is needed only if there is a first one,
    /// and never after [`Queue::reserve`].
    #[inline(always)]
    pub fn push(&mut self, value: T) -> Result<(), AllocError>
        ensures ok { OnOk result (self.new.items ≡ self.old.items ++ value ∷ []) }
        ensures err { OnErr result (self.new.items ≡ self.old.items) }
        ensures full { OnErr result (self.old.has_room ≡ false) }
    {
        if self.first.is_none() {
            self.first = Some(value);
            return Ok(());
        }
        self.others.reserve(1)?;
        self.others.push_back_reserved(value);
        Ok(())
    }

    /// Removes the first value, if there is one.
    #[inline(always)]
    pub fn pop(&mut self) -> Option<T>
        ensures { PopsFirst result self.old.items self.new.items }
    {
        if self.first.is_none() {
            return None;
        }
        let first = self.first.take();
        if !self.others.is_empty() {
            self.first = self.others.pop_front();
        }
        first
    }
}
