//! Cutting a stream of octets into packets.

ghost use Rattle.std.specs.Prelude.{◌≡◌, ◌≢◌, ◌+◌, ◌<◌, ◌≤◌, ◌++◌, ℕ, List, [], length, None, Some, Ok, Err, true, IsOk, IfOk, IfSome};
ghost use Rattle.std.specs.Prelude.{IfNone};
ghost use Rattle.osi_tpkt.specs.Packet.{IsPacket, IsOnePacket, IsPartial, IsFaultOf};

use crate::faults::TpktFault;
use crate::headers::{HeaderFault, survey, whole_length};
use crate::storage::{make_room, put, put_first};
use std::alloc::Global;
use std::marker::Model;

/// What a call of [`Cutter::feed`] did.
#[derive(Clone, Copy, PartialEq, Eq)]
pub struct Fed {
    /// How many octets of the piece were used. Feed the others again after [`Cutter::advance`].
    pub used: usize,
    /// Whether a complete packet is ready: [`Cutter::packet`] gives its unit.
    pub whole: bool,
}

/// How far the current packet is.
#[derive(Clone, Copy)]
enum Progress {
    /// None of its octets has arrived.
    Awaited,
    /// Some of its octets have arrived, but not all.
    Partial,
    /// No more octets are taken.
    Stopped(Stop),
}

/// Why no more octets are taken.
#[derive(Clone, Copy)]
enum Stop {
    /// The packet is complete.
    Whole,
    /// No packet begins here: the first octet is not the version.
    Version,
    /// No packet begins here: the length is below 7.
    Length,
}

/// Cuts a stream of octets, in whatever pieces it arrives, into packets (RFC 1006 section 6).
///
/// It holds the octets of one packet. Its buffer is kept for the next packet.
#[derive(Drop)]
pub struct Cutter {
    /// The buffer: the octets held, and then spare room.
    storage: Vec<u8>,
    /// How many octets are held.
    held: usize,
    offset: u64,
    progress: Progress,
}

impl Model for Cutter {
    ghost use Rattle.std.specs.Prelude.{◌≤◌, take, vec_len};
    ghost use Rattle.osi_tpkt.specs.Held.{Held};

    ghost Value = { Held };

    ghost use Rattle.osi_tpkt.specs.Progress.{fault_of, IsKept};

    ghost view = { λ c. record {
      offset = c.offset;
      octets = take c.held c.storage.items;
      fault = fault_of c.offset c.progress;
      room = vec_len c.storage;
    } };

    ghost invariant = { λ c. (c.held ≤ vec_len c.storage) × IsKept c.offset (take c.held c.storage.items) c.progress };
}

impl Cutter {
    ghost use Rattle.osi_tpkt.specs.Held.{IsHolding, fresh};
    ghost use Rattle.osi_tpkt.specs.Cutter.{TakesPiece, Feeds, Passes, Advances};
    ghost use Rattle.osi_tpkt.specs.Stream.{offset_of};

    /// A cutter at the start of a stream. It allocates nothing until it is fed.
    pub fn new(alloc: Global) -> Self
        ensures value { result ≡ fresh }
        ensures sound { IsHolding result }
    {
        Cutter {
            storage: Vec::new(alloc),
            held: 0,
            offset: 0,
            progress: Progress::Awaited,
        }
    }

    /// Takes octets of the next piece of the stream, up to the end of the first packet that they complete, or all of
    /// them. Feed the octets that were not used again after [`Cutter::advance`].
    ///
    /// While a packet is ready, nothing is used. The call returns [`TpktFault::BadVersion`] if no packet can begin with
    /// the first octet, and [`TpktFault::BadLength`] if none can begin with the first four; each later call then
    /// returns the same fault, and the octets held stay. [`TpktFault::OutOfMemory`] changes nothing. It is possible
    /// only if more octets must be held than there is room for.
    #[inline(always)]
    pub fn feed(&mut self, piece: &[u8]) -> Result<Fed, TpktFault>
        ensures used { IfOk result (λ fed. fed.used ≤ length piece.now) }
        ensures standing { IsOnePacket self.old.octets →
            (result ≡ Ok (record { used = 0; whole = true })) × (self.new ≡ self.old) }
        // A fault is kept, unless it is `OutOfMemory`.
        ensures again { (f : TpktFault) → self.old.fault ≡ Some f →
            (result ≡ Err f) × (self.new ≡ self.old) }
        ensures lasting { self.new.fault ≢ Some TpktFault.OutOfMemory }

        // If no packet is ready and no fault was returned, the piece is taken as `TakesPiece` says, or its fault is
        // returned.
        ensures empty { self.old.fault ≡ None → piece.now ≡ [] → IsOk result × (self.new ≡ self.old) }
        ensures refused { self.old.fault ≡ None → IsPartial self.old.octets → (f : TpktFault) →
            IsFaultOf self.old.offset (self.old.octets ++ piece.now) f → result ≡ Err f }
        ensures taken { self.old.fault ≡ None → IsPartial self.old.octets →
            TakesPiece self.old piece.now result self.new }
        // If a packet becomes ready, some of the piece was used.
        ensures progress { self.old.fault ≡ None → IsPartial self.old.octets →
            IfOk result (λ fed. fed.whole ≡ true → 0 < fed.used) }
        ensures feeds { Feeds self.old piece.now result self.new }
        ensures sound { IsHolding self.new }
    {
        if let Some(used) = self.take_whole(piece) {
            return Ok(Fed { used, whole: true });
        }
        match self.progress {
            Progress::Awaited | Progress::Partial => self.gather(piece),
            Progress::Stopped(Stop::Whole) => Ok(Fed {
                used: 0,
                whole: true,
            }),
            Progress::Stopped(Stop::Version) => Err(TpktFault::BadVersion(self.offset)),
            Progress::Stopped(Stop::Length) => Err(TpktFault::BadLength(self.offset)),
        }
    }

    /// Takes the complete packet at the front of a piece, if the cutter awaits one and has room for it, and returns its
    /// length. `None` in all other cases: then nothing has changed.
    #[inline(always)]
    fn take_whole(&mut self, piece: &[u8]) -> Option<usize>
        ensures faultless { IfSome result (λ _. self.old.fault ≡ None) }
        ensures partial { IfSome result (λ _. IsPartial self.old.octets) }
        ensures taken { IfSome result (λ used. TakesPiece self.old piece.now (Ok (record { used = used; whole = true })) self.new) }
        ensures none { IfNone result (self.new ≡ self.old) }
        ensures sound { IfSome result (λ _. IsHolding self.new) }
    {
        let Progress::Awaited = self.progress else {
            return None;
        };
        let used = put_first(&mut self.storage, piece)?;
        self.held = used;
        self.progress = Progress::Stopped(Stop::Whole);
        Some(used)
    }

    /// What [`Cutter::feed`] does if no packet is ready and no fault was returned.
    #[inline(always)]
    fn gather(&mut self, piece: &[u8]) -> Result<Fed, TpktFault>
        requires faultless { self.old.fault ≡ None }
        requires partial { IsPartial self.old.octets }
        ensures empty { piece.now ≡ [] → IsOk result × (self.new ≡ self.old) }
        ensures taken { TakesPiece self.old piece.now result self.new }
    {
        let fed = match survey(&self.storage.as_slice()[..self.held], piece) {
            Ok(fed) => fed,
            Err(HeaderFault::Version) => {
                self.progress = Progress::Stopped(Stop::Version);
                return Err(TpktFault::BadVersion(self.offset));
            }
            Err(HeaderFault::Length) => {
                self.progress = Progress::Stopped(Stop::Length);
                return Err(TpktFault::BadLength(self.offset));
            }
        };
        if fed.used == 0 {
            return Ok(fed);
        }
        let Ok(()) = make_room(&mut self.storage, self.held, fed.used) else {
            return Err(TpktFault::OutOfMemory);
        };
        self.progress = Progress::Partial;
        put(&mut self.storage, self.held, &piece[..fed.used]);
        self.held += fed.used;
        if fed.whole {
            self.progress = Progress::Stopped(Stop::Whole);
        }
        Ok(fed)
    }

    /// The transport unit of the packet that is ready, or `None` if no packet is ready.
    #[inline]
    #[tactic(auto, using(crate::proofs::a_prefix_of_a_packet::short_partial))]
    pub fn packet(&self) -> Option<&[u8]>
        ensures some { IfSome result (λ u. IsPacket u.now self.now.octets) }
        ensures none { IfNone result (IsPartial self.now.octets) }
        ensures sound { IsHolding self.now }
    {
        match self.progress {
            Progress::Stopped(Stop::Whole) => Some(&self.storage.as_slice()[4..self.held]),
            Progress::Awaited | Progress::Partial | Progress::Stopped(_) => None,
        }
    }

    /// Drops the packet that is ready, so that the next can be read. The buffer keeps its room. If no packet is ready,
    /// nothing changes.
    #[inline]
    pub fn advance(&mut self)
        ensures whole { (u : List ℕ) → IsPacket u self.old.octets → self.new ≡ record {
          offset = offset_of (self.old.offset + length self.old.octets);
          octets = [];
          fault = None;
          room = self.old.room;
        } }
        ensures partial { IsPartial self.old.octets → self.new ≡ self.old }
        ensures advances { Advances self.old self.new }
        ensures sound { IsHolding self.new }
    {
        match self.progress {
            Progress::Stopped(Stop::Whole) => {
                self.offset = self.offset.saturating_add(self.held as u64);
                self.held = 0;
                self.progress = Progress::Awaited;
            }
            Progress::Stopped(Stop::Version) => {}
            Progress::Stopped(Stop::Length) => {}
            Progress::Awaited | Progress::Partial => {}
        }
    }

    /// The fast path: the transport unit of the complete packet at the front of a piece, without a copy. It needs a
    /// cutter that holds nothing and has returned no fault. The unit's octets and the 4 before it were used. `None` in
    /// all other cases: then nothing has changed, and the piece has to be fed.
    #[inline]
    pub fn pass<'p>(&mut self, piece: &'p [u8]) -> Option<&'p [u8]>
        ensures passes { IfSome result (λ u. Passes self.old u.now piece.now self.new) }
        ensures sound { IfSome result (λ _. IsHolding self.new) }
        ensures none { IfNone result (self.new ≡ self.old) }
        ensures all { IfNone result (self.old.octets ≡ [] → self.old.fault ≡ None → (u b rest : List ℕ) → IsPacket u b →
            piece.now ≢ b ++ rest) }
    {
        let Progress::Awaited = self.progress else {
            return None;
        };
        let used = whole_length(piece)?;
        self.offset = self.offset.saturating_add(used as u64);
        Some(&piece[4..used])
    }

    /// The number of octets held, of a packet that is ready or of an unfinished one.
    #[inline]
    pub fn rest_len(&self) -> usize
        ensures { result ≡ length self.now.octets }
    {
        let Cutter { held, .. } = self;
        *held
    }
}
