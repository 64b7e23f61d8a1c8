//! The listing of a stream that arrives in pieces.

ghost use Rattle.std.specs.Prelude.{◌≡◌, ◌++◌, ◌<◌, ◌^◌, ℕ, List, [], length, IsErr, IfOk, ◌==◌, if◌then◌else◌, IsTrue, ◌↔◌, OnOk, OnErr};
ghost use Rattle.osi_tpkt.specs.Packet.{IsFaultOf};
ghost use Rattle.osi_listing.specs.Fed.{IsFed, IsLost, Feeds, StandsAt};
ghost use Rattle.osi_listing.specs.Listing.{IsListing};
ghost use Rattle.osi_listing.specs.SoFar.{IsListedSoFar};
ghost use Rattle.osi_listing.specs.Traced.{CountsAlike, counted_by, octets_fed, unfinished};

use crate::counting::Counts;
use crate::lines::{push_fault, push_rest};
use crate::work::Work;
use osi_tpkt::TpktFault;
use std::alloc::{AllocError, Global};

/// Lists captured octets: a line for each packet, for each of its transport units, for each complete TSDU and each of
/// its session units, and one for the fault or the rest after the packets. The status is 1 if something was refused,
/// otherwise 0.
///
/// # Errors
/// An allocation failed. Then the text may have gained some lines.
pub fn list(alloc: Global, text: &mut Vec<u8>, octets: &[u8]) -> Result<u8, AllocError>
    ensures { IfOk result (λ status. (lines : List ℕ) × (text.new.items ≡ text.old.items ++ lines)
        × IsListing octets.now lines status) }
{
    let mut lister = Lister::new(alloc);
    lister.feed(alloc, text, octets)?;
    lister.finish(text)
}

/// Whether a lister still lists.
#[derive(Clone, Copy)]
enum Stage {
    /// Packets are listed when they are complete.
    Going,
    /// The stream had a fault; no packet follows it.
    Faulty,
    /// Memory ran out.
    Lost,
}

/// Lists the octets of one direction of a byte connection, in whatever pieces they arrive: it writes what [`list`]
/// writes of all of them.
///
/// It keeps the octets of an unfinished packet, at most 65,535, and of each stream those of an unfinished TSDU, at
/// most 1,048,576. Class 0 is one stream; in class 2 each DST-REF is one.
#[derive(Drop)]
pub struct Lister {
    work: Work,
    /// How many octets were fed.
    octets: u64,
    stage: Stage,
}

impl Lister {
    /// A lister of a stream that has not begun. It allocates nothing until it is fed.
    pub fn new(alloc: Global) -> Self
        ensures fed { IsFed result [] [] }
        ensures none { unfinished result ≡ 0 }
    {
        let work = Work::new(alloc);
        Lister {
            work,
            octets: 0,
            stage: Stage::Going,
        }
    }

    /// Takes the next octets of the stream. Adds to a text the lines of the packets that they complete, and the line
    /// of the fault that ends the stream. Octets after a fault add no line.
    ///
    /// # Errors
    /// An allocation failed, or more than 2^64 - 1 octets were fed. Then the text may have gained some lines, but nothing
    /// of the piece is counted, and each further call returns `Err`, adds nothing and counts nothing.
    pub fn feed(
        &mut self,
        alloc: Global,
        text: &mut Vec<u8>,
        piece: &[u8],
    ) -> Result<(), AllocError>
        ensures fed { OnOk result (Feeds self.old piece.now text.old.items text.new.items self.new) }
        ensures lost { OnErr result (IsLost self.new) }
        ensures counted { OnErr result (CountsAlike self.old self.new) }
        ensures again { IsLost self.old → IsErr result × (text.new.items ≡ text.old.items) }
    {
        let (counts, octets) = (self.work.counts, self.octets);
        match self.take(alloc, text, piece) {
            Ok(()) => Ok(()),
            Err(error) => {
                self.stage = Stage::Lost;
                self.work.counts = counts;
                self.octets = octets;
                Err(error)
            }
        }
    }

    /// What [`Lister::feed`] does, but without remembering that memory ran out.
    fn take(&mut self, alloc: Global, text: &mut Vec<u8>, piece: &[u8]) -> Result<(), AllocError>
        ensures fed { OnOk result (Feeds self.old piece.now text.old.items text.new.items self.new) }
        ensures again { IsLost self.old → IsErr result × (text.new.items ≡ text.old.items) }
    {
        if piece.len() as u64 > u64::MAX - self.octets {
            return Err(AllocError);
        }
        self.octets += piece.len() as u64;
        match self.stage {
            Stage::Going => self.list_on(alloc, text, piece),
            Stage::Faulty => Ok(()),
            Stage::Lost => Err(AllocError),
        }
    }

    /// Continues the listing, if the stream had no fault.
    fn list_on(&mut self, alloc: Global, text: &mut Vec<u8>, piece: &[u8]) -> Result<(), AllocError>
        ensures octets { self.new.octets ≡ self.old.octets }
        ensures listed { self.old.stage ≡ Stage.Going → OnOk result ((octets lines : List ℕ) →
            length (octets ++ piece.now) < 2 ^ 64 → StandsAt self.old.stage self.old.work octets lines →
            (more : List ℕ) × (text.new.items ≡ text.old.items ++ more)
            × StandsAt self.new.stage self.new.work (octets ++ piece.now) (lines ++ more)) }
    {
        match self.work.list_piece(alloc, text, piece)? {
            None => Ok(()),
            Some(fault) => {
                self.stage = Stage::Faulty;
                self.work.counts.add_refused();
                push_fault(text, at(fault, self.work.offset))
            }
        }
    }

    /// Ends the listing when the stream is over: adds the line of the octets left over, unless the stream had a fault.
    /// The status is 1 if something was refused, otherwise 0.
    ///
    /// # Errors
    /// An allocation failed, here or in an earlier [`Lister::feed`].
    pub fn finish(&self, text: &mut Vec<u8>) -> Result<u8, AllocError>
        ensures listing { IfOk result (λ status. (octets lines : List ℕ) → IsFed self.now octets lines →
            (last : List ℕ) × (text.new.items ≡ text.old.items ++ last) × IsListing octets (lines ++ last) status) }
        ensures lost { IsLost self.now → IsErr result }
    {
        match self.stage {
            Stage::Going => {
                push_rest(text, self.work.cutter.rest_len() as u64)?;
                Ok(self.status())
            }
            Stage::Faulty => Ok(self.status()),
            Stage::Lost => Err(AllocError),
        }
    }

    /// 1 if a line says that something was refused, otherwise 0.
    fn status(&self) -> u8
        ensures { result ≡ (if self.now.work.counts.refused == 0 then 0 else 1) }
    {
        if self.work.counts.refused == 0 { 0 } else { 1 }
    }

    /// How many lines of each kind there are so far; once memory ran out, before the piece in which it did.
    pub fn counts(&self) -> Counts
        ensures value { result ≡ counted_by self.now }
        ensures listed { (octets lines : List ℕ) → IsFed self.now octets lines → IsListedSoFar octets lines result }
    {
        self.work.counts
    }

    /// How many octets were fed; once memory ran out, before the piece in which it did.
    pub fn octets(&self) -> u64
        ensures value { result ≡ octets_fed self.now }
        ensures fed { (octets lines : List ℕ) → IsFed self.now octets lines → result ≡ length octets }
    {
        self.octets
    }

    /// How many streams of class 2 have an unfinished TSDU. The lister keeps the octets of each of these TSDUs.
    pub fn unfinished(&self) -> usize
        ensures { result ≡ unfinished self.now }
    {
        self.work.streams.unfinished()
    }

    /// Whether memory ran out, so that nothing is listed any more.
    pub fn is_lost(&self) -> bool
        ensures { IsTrue result ↔ IsLost self.now }
    {
        matches!(self.stage, Stage::Lost)
    }
}

/// A fault of octets at an offset.
fn at(fault: TpktFault, offset: u64) -> TpktFault
    ensures { (start : ℕ) (octets : List ℕ) → IsFaultOf start octets fault → IsFaultOf offset octets result }
{
    match fault {
        TpktFault::BadVersion(_) => TpktFault::BadVersion(offset),
        TpktFault::BadLength(_) => TpktFault::BadLength(offset),
        TpktFault::OutOfMemory => TpktFault::OutOfMemory,
    }
}
