//! Octets that a value owns.

ghost use Rattle.std.specs.Prelude.{◌≡◌, ◌<◌, ◌≤◌, ◌+◌, ◌++◌, [], drop, length, max, IfOk, OnOk, OnErr};
ghost use Rattle.std.specs.Vec.{vec_capacity};

use std::alloc::{AllocError, Global};
use std::marker::Model;

/// Octets that an indication or a TSDU owns.
#[derive(Drop)]
pub struct Octets {
    items: Vec<u8>,
    /// The index at which they begin in it. The octets before that don't belong to them.
    start: usize,
}

impl Model for Octets {
    ghost use Rattle.std.specs.Prelude.{ℕ, List, ◌≤◌, drop, length};

    ghost Value = { List ℕ };

    ghost view = { λ o. drop o.start o.items.items };

    ghost invariant = { λ o. o.start ≤ length o.items.items };
}

/// Makes just the room that is missing for this many more octets. If memory runs out, nothing has changed; no memory
/// is needed if there is room enough.
fn make_room(items: &mut Vec<u8>, more: usize) -> Result<(), AllocError>
    ensures items { items.new.items ≡ items.old.items }
    ensures exact { OnOk result (vec_capacity items.new ≡ max (vec_capacity items.old) (length items.old.items + more)) }
    ensures full { OnErr result (vec_capacity items.old < length items.old.items + more) }
{
    items.reserve_exact(more)
}

impl Octets {
    /// No octet.
    pub fn new(alloc: Global) -> Octets
        ensures { result ≡ [] }
    {
        Octets {
            items: Vec::new(alloc),
            start: 0,
        }
    }

    /// These octets without the first `start` of them, in the same buffer: none is copied. The result is empty if
    /// there are no more than `start`.
    #[inline(always)]
    #[tactic(auto, using(crate::proofs::octets_after_the_first_ones::none_beyond))]
    pub fn behind(items: Vec<u8>, start: usize) -> Octets
        ensures { result ≡ drop start items.items }
    {
        let start = start.min(items.len());
        Octets { items, start }
    }

    /// A copy of these octets.
    #[inline(always)]
    pub fn copy(alloc: Global, octets: &[u8]) -> Result<Octets, AllocError>
        ensures { IfOk result (λ o. o ≡ octets.now) }
    {
        let items = Vec::from_slice(alloc, octets)?;
        Ok(Octets { items, start: 0 })
    }

    /// Adds more octets after them. `Err` changes nothing, and is possible only if there are some to add.
    #[tactic(auto, using(crate::proofs::octets_after_the_first_ones::more_behind))]
    pub fn extend(&mut self, more: &[u8]) -> Result<(), AllocError>
        ensures ok { OnOk result (self.new ≡ self.old ++ more.now) }
        ensures err { OnErr result (self.new ≡ self.old) }
        ensures memory { OnErr result (0 < length more.now) }
    {
        if more.is_empty() {
            return Ok(());
        }
        self.items.extend_from_slice(more)
    }

    /// Adds the last octets after them, and makes no more room than they need. `Err` changes nothing, and is possible
    /// only if there are some to add.
    #[tactic(auto, using(crate::proofs::octets_after_the_first_ones::more_behind))]
    pub fn complete(&mut self, last: &[u8]) -> Result<(), AllocError>
        ensures ok { OnOk result (self.new ≡ self.old ++ last.now) }
        ensures err { OnErr result (self.new ≡ self.old) }
        ensures memory { OnErr result (0 < length last.now) }
    {
        if last.is_empty() {
            return Ok(());
        }
        make_room(&mut self.items, last.len())?;
        self.items.extend_from_slice(last)
    }

    /// The octets.
    pub fn as_slice(&self) -> &[u8]
        ensures { result.now ≡ self.now }
    {
        let (_, octets) = self.items.as_slice().split_at(self.start);
        octets
    }
}
