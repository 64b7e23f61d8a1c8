//! TSDUs to be sent, and their next part.

ghost use Rattle.std.specs.Prelude.{◌≡◌, ◌≢◌, ◌≤◌, ◌<◌, ◌+◌, ◌^◌, ◌++◌, [], ◌∷◌, true, false, length, map, IfNone, IfOk, IsOk, OnOk, OnErr};
ghost use Rattle.std.specs.Prelude.{option_map};
ghost use Rattle.std.specs.Vec.{vec_capacity};
ghost use Rattle.osi_class.specs.Tsdus.{give, octets_of_tsdus};

use std::alloc::{AllocError, Global};
use std::collections::VecDeque;
use std::marker::Model;

/// The TSDUs to be sent, each kept whole, with the offset of the next octet of the first one.
#[derive(Drop)]
pub struct Outgoing {
    alloc: Global,
    /// The TSDU of the last part that was given. It is kept until the next TSDU begins, which is copied into its buffer
    /// if it fits.
    current: Vec<u8>,
    /// Whether it was handed in with its buffer, which is freed once nothing is to be sent.
    is_owned: bool,
    /// The offset in it at which the last part that was given begins.
    from: usize,
    /// The offset at which that part ends.
    to: usize,
    /// Whether more of it is to be given.
    has_more: bool,
    /// The TSDUs of which no part was given yet.
    queue: VecDeque<Vec<u8>>,
    /// Their octets. Together with those of `current` they fit a `usize`.
    queued: usize,
    /// Whether nothing is to be sent, and no buffer is to be freed. Mostly it is so, and then this is all that is tested.
    rests: bool,
}

impl Model for Outgoing {
    ghost use Rattle.std.specs.Prelude.{◌≡◌, ◌≤◌, ◌<◌, ◌+◌, ◌^◌, [], ◌∷◌, true, false, length, drop, map, slice_range, if◌then◌else◌};
    ghost use Rattle.std.specs.Vec.{vec_capacity};
    ghost use Rattle.osi_class.specs.Sending.{Sending};
    ghost use Rattle.osi_class.specs.Tsdus.{octets_of_tsdus};

    ghost Value = { Sending };

    ghost view = { λ o. record {
      unsent = if o.has_more then drop o.to o.current.items ∷ map (λ v. v.items) o.queue.items else map (λ v. v.items) o.queue.items;
      part = slice_range o.current.items o.from o.to;
      room = vec_capacity o.current;
      is_owned = o.is_owned;
    } };

    ghost invariant = { λ o. (o.from ≤ o.to) × (o.to ≤ length o.current.items) ×
        (o.queued ≡ octets_of_tsdus (map (λ v. v.items) o.queue.items)) × (o.queued + length o.current.items < 2 ^ 64) ×
        (o.rests ≡ true → (o.has_more ≡ false) × (o.queue.items ≡ []) × (o.is_owned ≡ false)) };
}

/// The queued octets plus this many more. `Err` exactly if these and those of the TSDU before them don't fit a `usize`.
fn queued_with(queued: usize, more: usize, before: usize) -> Result<usize, AllocError>
    ensures ok { IfOk result (λ octets. (octets ≡ queued + more) × (octets + before < 2 ^ 64)) }
    ensures err { OnErr result (2 ^ 64 ≤ queued + more + before) }
{
    if more > usize::MAX - before {
        return Err(AllocError);
    }
    if queued > usize::MAX - before - more {
        return Err(AllocError);
    }
    Ok(queued + more)
}

/// The number of octets of TSDUs. `Err` exactly if it doesn't fit a `usize`.
fn octets_of(tsdus: &[Vec<u8>]) -> Result<usize, AllocError>
    ensures ok { IfOk result (λ octets. octets ≡ octets_of_tsdus (map (λ v. v.items) tsdus.now)) }
    ensures err { OnErr result (2 ^ 64 ≤ octets_of_tsdus (map (λ v. v.items) tsdus.now)) }
{
    let mut octets: usize = 0;
    'tsdus: for tsdu in tsdus {
        octets = queued_with(octets, tsdu.len(), 0)?;
    }
    Ok(octets)
}

/// Copies of TSDUs, in their order.
fn copy_all(alloc: Global, tsdus: &[Vec<u8>]) -> Result<VecDeque<Vec<u8>>, AllocError>
    ensures { IfOk result (λ copies. map (λ v. v.items) copies.items ≡ map (λ v. v.items) tsdus.now) }
{
    let mut copies = VecDeque::with_capacity(alloc, tsdus.len())?;
    'tsdus: for tsdu in tsdus {
        let octets = Vec::from_slice(alloc, tsdu)?;
        copies.push_back(octets)?;
    }
    Ok(copies)
}

impl Outgoing {
    /// Nothing to be sent.
    pub fn new(alloc: Global) -> Self
        ensures unsent { result.unsent ≡ [] }
        ensures part { result.part ≡ [] }
    {
        Outgoing {
            alloc,
            current: Vec::new(alloc),
            is_owned: false,
            from: 0,
            to: 0,
            has_more: false,
            queue: VecDeque::new(alloc),
            queued: 0,
            rests: true,
        }
    }

    /// Whether nothing is to be sent.
    #[inline(always)]
    pub fn is_empty(&self) -> bool
        ensures nothing { result ≡ true → self.now.unsent ≡ [] }
        ensures something { result ≡ false → self.now.unsent ≢ [] }
    {
        self.rests || (!self.has_more && self.queue.is_empty())
    }

    /// The octets that are to be sent.
    pub fn octets(&self) -> usize
        ensures { result ≡ octets_of_tsdus self.now.unsent }
    {
        if self.has_more {
            return self.queued + (self.current.len() - self.to);
        }
        self.queued
    }

    /// Adds a copy of a TSDU to those to be sent. No memory is needed if nothing is to be sent and the buffer of the TSDU
    /// before it is large enough.
    pub fn add(&mut self, tsdu: &[u8]) -> Result<(), AllocError>
        ensures ok { OnOk result (self.new.unsent ≡ self.old.unsent ++ tsdu.now ∷ []) }
        ensures err { OnErr result (self.new ≡ self.old) }
        ensures alone { self.old.unsent ≡ [] → length tsdu.now ≤ self.old.room → IsOk result }
    {
        if !self.has_more && self.queue.is_empty() {
            return self.begin(tsdu);
        }
        let queued = queued_with(self.queued, tsdu.len(), self.current.len())?;
        let octets = Vec::from_slice(self.alloc, tsdu)?;
        self.queue.push_back(octets)?;
        self.queued = queued;
        self.rests = false;
        Ok(())
    }

    /// Adds copies of TSDUs to those to be sent: of all or of none. For an empty list no memory is needed.
    pub fn add_all(&mut self, tsdus: &[Vec<u8>]) -> Result<(), AllocError>
        ensures ok { OnOk result (self.new.unsent ≡ self.old.unsent ++ map (λ v. v.items) tsdus.now) }
        ensures err { OnErr result (self.new ≡ self.old) }
        ensures nothing { tsdus.now ≡ [] → IsOk result }
    {
        if tsdus.is_empty() {
            return Ok(());
        }
        let queued = queued_with(self.queued, octets_of(tsdus)?, self.current.len())?;
        let mut copies = copy_all(self.alloc, tsdus)?;
        self.queue.append(&mut copies)?;
        self.queued = queued;
        self.rests = false;
        Ok(())
    }

    /// Adds TSDUs themselves to those to be sent: all or none. Their octets are not copied. For an empty list no memory
    /// is needed, and none if nothing is to be sent and the octets fit a `usize`.
    pub fn add_owned_all(&mut self, tsdus: Vec<Vec<u8>>) -> Result<(), AllocError>
        ensures ok { OnOk result (self.new.unsent ≡ self.old.unsent ++ map (λ v. v.items) tsdus.items) }
        ensures err { OnErr result (self.new ≡ self.old) }
        ensures nothing { tsdus.items ≡ [] → IsOk result }
        ensures alone { self.old.unsent ≡ [] → octets_of_tsdus (map (λ v. v.items) tsdus.items) < 2 ^ 64 → IsOk result }
    {
        if tsdus.is_empty() {
            return Ok(());
        }
        if self.is_empty() {
            return self.begin_all(tsdus);
        }
        let queued = queued_with(
            self.queued,
            octets_of(tsdus.as_slice())?,
            self.current.len(),
        )?;
        let mut moved = VecDeque::from(tsdus);
        self.queue.append(&mut moved)?;
        self.queued = queued;
        self.rests = false;
        Ok(())
    }

    /// Begins with these TSDUs themselves, if nothing is to be sent. Fails only if their octets don't fit a `usize`: no
    /// memory is needed.
    fn begin_all(&mut self, tsdus: Vec<Vec<u8>>) -> Result<(), AllocError>
        requires { self.old.unsent ≡ [] }
        ensures ok { OnOk result (self.new.unsent ≡ map (λ v. v.items) tsdus.items) }
        ensures err { OnErr result (self.new ≡ self.old) }
        ensures enough { octets_of_tsdus (map (λ v. v.items) tsdus.items) < 2 ^ 64 → IsOk result }
    {
        let queued = octets_of(tsdus.as_slice())?;
        self.current = Vec::new(self.alloc);
        self.is_owned = false;
        self.from = 0;
        self.to = 0;
        self.has_more = false;
        self.queue = VecDeque::from(tsdus);
        self.queued = queued;
        self.rests = false;
        Ok(())
    }

    /// Adds a TSDU itself to those to be sent, without copying its octets. If nothing is to be sent, no memory is
    /// needed.
    pub fn add_owned(&mut self, tsdu: Vec<u8>) -> Result<(), AllocError>
        ensures ok { OnOk result (self.new.unsent ≡ self.old.unsent ++ tsdu.items ∷ []) }
        ensures err { OnErr result (self.new ≡ self.old) }
        ensures alone { self.old.unsent ≡ [] → IsOk result }
    {
        if self.has_more || !self.queue.is_empty() {
            let queued = queued_with(self.queued, tsdu.len(), self.current.len())?;
            self.queue.push_back(tsdu)?;
            self.queued = queued;
            self.rests = false;
            return Ok(());
        }
        self.current = tsdu;
        self.is_owned = true;
        self.from = 0;
        self.to = 0;
        self.has_more = true;
        self.rests = false;
        Ok(())
    }

    /// Begins with a copy of a TSDU, if nothing is to be sent. It goes into the buffer of the TSDU before it, if that
    /// is large enough.
    fn begin(&mut self, tsdu: &[u8]) -> Result<(), AllocError>
        requires { self.old.unsent ≡ [] }
        ensures ok { OnOk result (self.new.unsent ≡ tsdu.now ∷ []) }
        ensures err { OnErr result (self.new ≡ self.old) }
        ensures enough { length tsdu.now ≤ self.old.room → IsOk result }
    {
        if self.current.capacity() < tsdu.len() {
            let room = Vec::with_capacity(self.alloc, tsdu.len())?;
            self.current = room;
        }
        self.is_owned = false;
        self.current.clear();
        if self.current.extend_from_slice(tsdu).is_err() {
            unreachable!();
        }
        self.from = 0;
        self.to = 0;
        self.has_more = true;
        self.rests = false;
        Ok(())
    }

    /// Whether nothing is to be sent, and no buffer is to be freed.
    #[inline(always)]
    pub fn is_at_rest(&self) -> bool
        ensures nothing { result ≡ true → self.now.unsent ≡ [] }
        ensures freed { result ≡ true → self.now.is_owned ≡ false }
    {
        self.rests
    }

    /// Goes to the next part, of at most `limit` octets, and returns whether it ends its TSDU. An empty TSDU is one
    /// part with no octets. Allocates nothing. If nothing is to be sent, the buffer of a TSDU that was handed in with
    /// it is freed. It is kept out of line, because mostly there is nothing to do.
    #[inline(never)]
    pub fn advance(&mut self, limit: usize) -> Option<bool>
        ensures given { give limit self.old.unsent ≡ option_map (λ last. ((last, self.new.part), self.new.unsent)) result }
        ensures none { IfNone result ((self.old.unsent ≡ []) × (self.new.unsent ≡ [])) }
        ensures freed { IfNone result ((self.new.is_owned ≡ false) × (self.new.room ≡ 0)) }
    {
        if !self.has_more {
            let Some(tsdu) = self.queue.pop_front() else {
                self.current = Vec::new(self.alloc);
                self.is_owned = false;
                self.from = 0;
                self.to = 0;
                self.rests = true;
                return None;
            };
            self.queued -= tsdu.len();
            self.current = tsdu;
            self.is_owned = true;
            self.to = 0;
            self.has_more = true;
        }
        self.rests = false;
        self.from = self.to;
        if self.current.len() - self.from > limit {
            self.to = self.from + limit;
            return Some(false);
        }
        self.to = self.current.len();
        self.has_more = false;
        self.rests = !self.is_owned && self.queue.is_empty();
        Some(true)
    }

    /// The octets of the part to which [`Outgoing::advance`] went last.
    pub fn part(&self) -> &[u8]
        ensures { result.now ≡ self.now.part }
    {
        &self.current[self.from..self.to]
    }
}
