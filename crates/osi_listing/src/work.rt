//! The packets of a stream, listed when they are complete.

ghost use Rattle.std.specs.Prelude.{◌≡◌, ◌≢◌, ◌≤◌, ◌++◌, ℕ, List, [], length, IfOk, OnOk};
ghost use Rattle.std.specs.BTreeMap.{btree_map_len};
ghost use Rattle.osi_tpkt.specs.Held.{fresh};
ghost use Rattle.osi_tpkt.specs.Packet.{IsOnePacket};
ghost use Rattle.osi_listing.specs.Counting.{none};
ghost use Rattle.osi_listing.specs.Fed.{IsReady, IsGoing, IsWithoutPacket, Leaves, OnlyHolds, Moves, Completes, Goes, used_by};
ghost use Rattle.osi_listing.specs.Says.{Holds};

use crate::counting::Counts;
use crate::listing::list_packet;
use crate::streams::Streams;
use osi_tpkt::{Cutter, TpktFault};
use std::alloc::{AllocError, Global};

/// The state of a listing after the packets that were listed.
#[derive(Drop)]
pub(crate) struct Work {
    /// The octets of the unfinished packet.
    pub(crate) cutter: Cutter,
    pub(crate) streams: Streams,
    pub(crate) counts: Counts,
    /// The place in the stream of the first octet that was not listed.
    pub(crate) offset: u64,
}

/// How far a piece leads with the packet of which a part is held.
#[derive(Clone, Copy)]
pub(crate) enum Step {
    /// Nothing is held now. This many octets of the piece were used.
    Next(usize),
    /// All octets of the piece are held, and the packet is not whole yet.
    All,
    /// There is no packet.
    Fault(TpktFault),
}

impl Work {
    /// A stream that has not begun.
    pub(crate) fn new(alloc: Global) -> Self
        ensures cutter { result.cutter ≡ fresh }
        ensures streams { Holds result.streams [] }
        ensures none { btree_map_len result.streams.class_2 ≡ 0 }
        ensures counts { result.counts ≡ none }
        ensures offset { result.offset ≡ 0 }
    {
        Work {
            cutter: Cutter::new(alloc),
            streams: Streams::new(alloc),
            counts: Counts::new(),
            offset: 0,
        }
    }

    /// Lists the packets that a piece completes, and holds what is left. Returns the fault of the stream.
    pub(crate) fn list_piece(
        &mut self,
        alloc: Global,
        text: &mut Vec<u8>,
        piece: &[u8],
    ) -> Result<Option<TpktFault>, AllocError>
        ensures { IsGoing self.old.cutter → IfOk result (λ fault.
            Goes self.old text.old.items piece.now fault self.new text.new.items) }
    {
        match self.complete(alloc, text, piece)? {
            Step::All => Ok(None),
            Step::Fault(fault) => Ok(Some(fault)),
            Step::Next(used) => {
                let (_, rest) = piece.split_at(used);
                let left = self.list_whole(alloc, text, rest)?;
                self.hold(left)
            }
        }
    }

    /// Completes the packet of which a part is held, if there is one.
    fn complete(
        &mut self,
        alloc: Global,
        text: &mut Vec<u8>,
        piece: &[u8],
    ) -> Result<Step, AllocError>
        ensures within { IfOk result (λ step. used_by step ≤ length piece.now) }
        ensures completes { IsGoing self.old.cutter → IfOk result (λ step.
            Completes self.old text.old.items piece.now step self.new text.new.items) }
    {
        if self.cutter.rest_len() == 0 {
            return Ok(Step::Next(0));
        }
        match self.cutter.feed(piece) {
            Ok(fed) => {
                if !fed.whole {
                    return Ok(Step::All);
                }
                self.list_held(alloc, text)?;
                Ok(Step::Next(fed.used))
            }
            Err(fault) => Ok(Step::Fault(of_stream(fault)?)),
        }
    }

    /// Lists the complete packet that is held, and drops it.
    fn list_held(&mut self, alloc: Global, text: &mut Vec<u8>) -> Result<(), AllocError>
        ensures moves { OnOk result ((rest : List ℕ) → IsOnePacket self.old.cutter.octets →
            Moves self.old text.old.items (self.old.cutter.octets ++ rest) self.new text.new.items rest) }
        ensures ready { OnOk result (IsOnePacket self.old.cutter.octets → IsReady self.new.cutter) }
    {
        let Some(unit) = self.cutter.packet() else {
            return Ok(());
        };
        list_packet(
            alloc,
            text,
            &mut self.streams,
            &mut self.counts,
            self.offset,
            unit,
        )?;
        self.offset = self.offset.saturating_add(unit.len() as u64 + 4);
        self.cutter.advance();
        Ok(())
    }

    /// Lists the complete packets at the front of a piece, if nothing is held. Returns the rest.
    fn list_whole<'p>(
        &mut self,
        alloc: Global,
        text: &mut Vec<u8>,
        piece: &'p [u8],
    ) -> Result<&'p [u8], AllocError>
        ensures moves { IsReady self.old.cutter → IfOk result (λ rest.
            Moves self.old text.old.items piece.now self.new text.new.items rest.now) }
        ensures ready { IsReady self.old.cutter → OnOk result (IsReady self.new.cutter) }
        ensures none_left { IsReady self.old.cutter → IfOk result (λ rest. IsWithoutPacket rest.now) }
    {
        let mut rest = piece;
        'packets: while let Some(unit) = self.cutter.pass(rest) {
            list_packet(
                alloc,
                text,
                &mut self.streams,
                &mut self.counts,
                self.offset,
                unit,
            )?;
            let used = unit.len() + 4;
            self.offset = self.offset.saturating_add(used as u64);
            let (_, behind) = rest.split_at(used);
            rest = behind;
        }
        Ok(rest)
    }

    /// Holds the rest of a piece after its packets, if nothing is held. Returns its fault.
    fn hold(&mut self, rest: &[u8]) -> Result<Option<TpktFault>, AllocError>
        ensures same { OnOk result (OnlyHolds self.old self.new) }
        ensures leaves { IsReady self.old.cutter → IsWithoutPacket rest.now → IfOk result (λ fault.
            Leaves self.new.cutter rest.now fault) }
    {
        match self.cutter.feed(rest) {
            Ok(_) => Ok(None),
            Err(fault) => Ok(Some(of_stream(fault)?)),
        }
    }
}

/// A fault of the stream. An allocation failure is not one.
fn of_stream(fault: TpktFault) -> Result<TpktFault, AllocError>
    ensures same { IfOk result (λ f. f ≡ fault) }
    ensures known { IfOk result (λ f. f ≢ TpktFault.OutOfMemory) }
{
    match fault {
        TpktFault::BadVersion(_) => Ok(fault),
        TpktFault::BadLength(_) => Ok(fault),
        TpktFault::OutOfMemory => Err(AllocError),
    }
}
