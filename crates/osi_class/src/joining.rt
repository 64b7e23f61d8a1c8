//! Joining TSDUs from parts.

ghost use Rattle.std.specs.Prelude.{◌≡◌, ◌<◌, ◌≤◌, ◌+◌, ◌++◌, ◌≢◌, [], true, length, map, max, Err, Ok, IfOk, IfNone, OnOk, OnErr};
ghost use Rattle.std.specs.Vec.{vec_capacity};
ghost use Rattle.osi_class.specs.Handing.{tsdu_handed, IsLent};
ghost use Rattle.osi_class.specs.Joining.{joined, joining, before_handing};
ghost use Rattle.osi_class.specs.Limits.{longest_tsdu};
ghost use Rattle.osi_class.specs.Link.{part_needs_memory};
ghost use Rattle.osi_class.specs.Taking.{TakesUnit};

use crate::faults::LinkFault;
use crate::handing::Handed;
use crate::limits::LONGEST_TSDU;
use crate::queue::Queue;
use std::alloc::{AllocError, Global};
use std::marker::Model;
use std::mem;

/// The unfinished TSDU.
#[derive(Drop)]
pub struct Begun {
    alloc: Global,
    octets: Vec<u8>,
}

impl Model for Begun {
    ghost use Rattle.std.specs.Prelude.{◌≤◌, ℕ, List, length};
    ghost use Rattle.osi_class.specs.Limits.{longest_tsdu};

    ghost Value = { List ℕ };

    ghost view = { λ b. b.octets.items };

    ghost invariant = { λ b. length b.octets.items ≤ longest_tsdu };
}

/// Makes just the room that is missing for this many more octets. If memory runs out, nothing has changed; none is needed
/// if there is room enough.
fn make_room(octets: &mut Vec<u8>, more: usize) -> Result<(), AllocError>
    ensures items { octets.new.items ≡ octets.old.items }
    ensures exact { OnOk result (vec_capacity octets.new ≡ max (vec_capacity octets.old) (length octets.old.items + more)) }
    ensures full { OnErr result (vec_capacity octets.old < length octets.old.items + more) }
{
    octets.reserve_exact(more)
}

impl Begun {
    /// No octet was taken.
    pub fn new(alloc: Global) -> Self
        ensures { result ≡ [] }
    {
        Begun {
            alloc,
            octets: Vec::new(alloc),
        }
    }

    /// Takes a part of the TSDU, whose octets are copied once. With its last part the TSDU is complete, and is queued
    /// after the other complete ones. A TSDU of more than [`LONGEST_TSDU`] octets is `TsduTooLong`. After a fault
    /// nothing has changed. Memory is needed only for a part that has an octet or ends its TSDU.
    #[inline(always)]
    pub fn join(
        &mut self,
        last: bool,
        octets: &[u8],
        whole: &mut Queue<Vec<u8>>,
    ) -> Result<(), LinkFault>
        ensures { TakesUnit result (part_needs_memory last octets.now) (joined (joining self.old (map (λ v. v.items) whole.old.items))
            last octets.now)
            (joining self.old (map (λ v. v.items) whole.old.items)) (joining self.new (map (λ v. v.items) whole.new.items)) }
    {
        if octets.len() > LONGEST_TSDU - self.octets.len() {
            return Err(LinkFault::TsduTooLong);
        }
        if !last {
            if self.add(octets).is_err() {
                return Err(LinkFault::OutOfMemory);
            }
            return Ok(());
        }
        if !self.octets.is_empty() {
            return self.finish(octets, whole);
        }
        let Ok(tsdu) = Vec::from_slice(self.alloc, octets) else {
            return Err(LinkFault::OutOfMemory);
        };
        let Ok(()) = whole.push(tsdu) else {
            return Err(LinkFault::OutOfMemory);
        };
        Ok(())
    }

    /// Takes a part of the TSDU as [`Begun::join`] does, and then hands out the first of the complete ones. If none of
    /// them waits, the octets of a part that is a whole TSDU are not copied, and no memory is needed.
    #[inline(always)]
    #[tactic(auto, using(crate::proofs::bounds::what_a_queue_hands_out::popped, crate::proofs::bounds::what_a_queue_hands_out::none_popped))]
    pub fn join_out(
        &mut self,
        last: bool,
        octets: &[u8],
        whole: &mut Queue<Vec<u8>>,
    ) -> Result<Handed, LinkFault>
        ensures taken { IfOk result (λ handed. joined (joining self.old (map (λ v. v.items) whole.old.items)) last octets.now
            ≡ Ok (before_handing (tsdu_handed octets.now handed) (joining self.new (map (λ v. v.items) whole.new.items)))) }
        ensures none { IfOk result (λ handed. IfNone (tsdu_handed octets.now handed) (whole.new.items ≡ [])) }
        ensures alone { self.old ≡ [] → whole.old.items ≡ [] → last ≡ true → IsLent result }
        ensures refused { OnErr
            result (TakesUnit result (part_needs_memory last octets.now) (joined (joining self.old (map (λ v. v.items) whole.old.items))
            last octets.now) (joining self.old (map (λ v. v.items) whole.old.items)) (joining
            self.new (map (λ v. v.items) whole.new.items))) }
    {
        let room = LONGEST_TSDU - self.octets.len();
        if octets.len() > room {
            return Err(LinkFault::TsduTooLong);
        }
        if !last {
            if self.add(octets).is_err() {
                return Err(LinkFault::OutOfMemory);
            }
            return Ok(Handed::of(whole.pop()));
        }
        if self.octets.is_empty() && whole.is_empty() {
            return Ok(Handed::Whole);
        }
        self.finish(octets, whole)?;
        Ok(Handed::of(whole.pop()))
    }

    /// Takes a part that does not end its TSDU. Memory is needed only if it has an octet.
    #[inline(always)]
    fn add(&mut self, octets: &[u8]) -> Result<(), AllocError>
        requires { length self.old + length octets.now ≤ longest_tsdu }
        ensures ok { OnOk result (self.new ≡ self.old ++ octets.now) }
        ensures err { OnErr result (self.new ≡ self.old) }
        ensures some { OnErr result (0 < length octets.now) }
    {
        if octets.is_empty() {
            return Ok(());
        }
        match self.octets.extend_from_slice(octets) {
            Ok(()) => Ok(()),
            Err(_) => Err(AllocError),
        }
    }

    /// Takes the last part of a TSDU, with no more room than it needs. The place in the queue of complete TSDUs is
    /// reserved first.
    #[inline(never)]
    fn finish(&mut self, octets: &[u8], whole: &mut Queue<Vec<u8>>) -> Result<(), LinkFault>
        requires { length self.old + length octets.now ≤ longest_tsdu }
        ensures { TakesUnit result true (joined (joining self.old (map (λ v. v.items) whole.old.items)) true octets.now)
            (joining self.old (map (λ v. v.items) whole.old.items)) (joining self.new (map (λ v. v.items) whole.new.items)) }
    {
        if whole.reserve().is_err() {
            return Err(LinkFault::OutOfMemory);
        }
        if make_room(&mut self.octets, octets.len()).is_err() {
            return Err(LinkFault::OutOfMemory);
        }
        if self.octets.extend_from_slice(octets).is_err() {
            return Err(LinkFault::OutOfMemory);
        }
        let tsdu = mem::replace(&mut self.octets, Vec::new(self.alloc));
        let Ok(()) = whole.push(tsdu) else {
            unreachable!()
        };
        Ok(())
    }

    /// How many octets were taken, at most [`LONGEST_TSDU`].
    pub fn octets(&self) -> usize
        ensures value { result ≡ length self.now }
        ensures at_most { result ≤ longest_tsdu }
    {
        self.octets.len()
    }
}
