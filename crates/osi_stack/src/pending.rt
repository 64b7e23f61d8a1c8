//! The pending indications of one user.

ghost use Rattle.std.specs.Prelude.{◌≡◌, ◌+◌, ◌-◌, ◌<◌, ◌≤◌, [], ◌∷◌, ◌++◌, true, false, is_some};
ghost use Rattle.std.specs.VecDeque.{deque_len, deque_capacity};
ghost use Rattle.osi_class.specs.Queues.{in_front};
ghost use Rattle.osi_stack.specs.Pending.{room_of};

use std::alloc::{AllocError, Global};
use std::collections::VecDeque;
use std::marker::Model;

/// The indications that a user has not fetched, the oldest first. That one is kept inline: mostly it is the only one, and is
/// then written and taken where it is, with no queue.
#[derive(Drop)]
pub struct Pending<T> {
    oldest: Option<T>,
    /// Those after it; none if there is no oldest.
    others: VecDeque<T>,
}

impl<T> Model for Pending<T> {
    ghost use Rattle.std.specs.Prelude.{◌≡◌, [], false, is_some};
    ghost use Rattle.std.specs.VecDeque.{deque_len, deque_capacity};
    ghost use Rattle.osi_class.specs.Queues.{in_front};
    ghost use Rattle.osi_stack.specs.Pending.{Kept, room_of};

    ghost Value = { Kept T };

    ghost view = { λ p. record {
      items = in_front p.oldest p.others.items;
      room = room_of p.oldest (deque_len p.others) (deque_capacity p.others);
    } };

    ghost invariant = { λ p. is_some p.oldest ≡ false → p.others.items ≡ [] };
}

/// Adds a value after the others; there is room for it.
#[inline(always)]
fn put<T: Drop>(oldest: &mut Option<T>, others: &mut VecDeque<T>, value: T)
    requires room { 0 < room_of oldest.old (deque_len others.old) (deque_capacity others.old) }
    requires first { is_some oldest.old ≡ false → others.old.items ≡ [] }
    ensures some { is_some oldest.new ≡ true }
    ensures items { in_front oldest.new others.new.items ≡ in_front oldest.old others.old.items ++ value ∷ [] }
    ensures room { deque_capacity others.new - deque_len others.new + 1
        ≡ room_of oldest.old (deque_len others.old) (deque_capacity others.old) }
{
    if oldest.is_none() {
        *oldest = Some(value);
        return;
    }
    others.push_back_reserved(value);
}

/// The first of the others becomes the oldest. The function is kept out of line, because mostly there are none.
#[inline(never)]
fn promote<T: Drop>(oldest: &mut Option<T>, others: &mut VecDeque<T>)
    requires { is_some oldest.old ≡ false }
    ensures items { in_front oldest.new others.new.items ≡ others.old.items }
    ensures first { is_some oldest.new ≡ false → others.new.items ≡ [] }
    ensures room { deque_capacity others.old - deque_len others.old
        ≤ room_of oldest.new (deque_len others.new) (deque_capacity others.new) }
{
    *oldest = others.pop_front();
}

impl<T: Drop> Pending<T> {
    ghost use Rattle.std.specs.Prelude.{◌≡◌, ◌+◌, ◌<◌, ◌≤◌, ◌∷◌, ◌++◌, ◌==◌, [], length, IfOk, OnOk, OnErr};
    ghost use Rattle.std.specs.Vec.{vec_len};
    ghost use Rattle.osi_class.specs.Queues.{PopsFirst};

    /// There is none, and room for two.
    pub fn new(alloc: Global) -> Result<Self, AllocError>
        ensures empty { IfOk result (λ p. p.items ≡ []) }
        ensures room { IfOk result (λ p. 0 < p.room) }
    {
        let others = VecDeque::with_capacity(alloc, 1)?;
        Ok(Pending {
            oldest: None,
            others,
        })
    }

    /// Whether there is none.
    pub fn is_empty(&self) -> bool
        ensures { result ≡ (length self.now.items == 0) }
    {
        self.oldest.is_none()
    }

    /// Makes room for this many more. If memory runs out, nothing has changed.
    #[inline(always)]
    pub fn reserve(&mut self, more: usize) -> Result<(), AllocError>
        ensures items { self.new.items ≡ self.old.items }
        ensures room { self.old.room ≤ self.new.room }
        ensures ok { OnOk result (more ≤ self.new.room) }
        ensures full { OnErr result (self.old.room < more) }
    {
        if self.oldest.is_none() {
            return self.others.reserve(more.saturating_sub(1));
        }
        self.others.reserve(more)
    }

    /// Adds one; there is room for it.
    #[inline(always)]
    pub fn push(&mut self, value: T)
        requires { 0 < self.old.room }
        ensures items { self.new.items ≡ self.old.items ++ value ∷ [] }
        ensures room { self.new.room + 1 ≡ self.old.room }
    {
        put(&mut self.oldest, &mut self.others, value);
    }

    /// Adds one, and others after it; there is room for all of them.
    pub fn push_all(&mut self, value: T, more: Vec<T>)
        requires { vec_len more < self.old.room }
        ensures items { self.new.items ≡ self.old.items ++ value ∷ more.items }
        ensures room { self.old.room ≤ self.new.room + (vec_len more + 1) }
    {
        put(&mut self.oldest, &mut self.others, value);
        let mut more = VecDeque::from_vec(more);
        let Ok(()) = self.others.append(&mut more) else {
            unreachable!()
        };
    }

    /// Takes the oldest, if there is one.
    #[inline(always)]
    pub fn pop(&mut self) -> Option<T>
        ensures first { PopsFirst result self.old.items self.new.items }
        ensures room { self.old.room ≤ self.new.room }
    {
        let oldest = self.oldest.take();
        if !self.others.is_empty() {
            promote(&mut self.oldest, &mut self.others);
        }
        oldest
    }

    /// Drops all.
    pub fn clear(&mut self)
        ensures items { self.new.items ≡ [] }
        ensures room { self.old.room ≤ self.new.room }
    {
        self.oldest = None;
        self.others.clear();
    }
}
