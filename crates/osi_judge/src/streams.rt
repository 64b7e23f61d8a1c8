//! The packets of one direction.

ghost use Rattle.std.specs.Prelude.{◌≡◌, ◌≤◌, ◌<◌, ◌+◌, true, false, IfOk, IsOk, OnErr, length, take};
ghost use Rattle.osi_judge.specs.Streams.{front_of, untouched, counted, gathered, advanced, ended, wanted, begins_at, used_of, reading_of};
ghost use Rattle.osi_judge.specs.Holding.{streamed, look_as};

use osi_side::Reading;
use osi_tpkt::{Packet, TpktFault, Unit};
use std::alloc::{AllocError, Global};

/// The packets of one direction, piece by piece.
#[derive(Drop)]
pub(crate) struct Stream {
    /// How many packets were read.
    pub(crate) packets: u64,
    /// How many octets passed.
    pub(crate) octets: u64,
    /// The offset of the current packet.
    pub(crate) at: u64,
    /// The octets of the current packet.
    pub(crate) held: Vec<u8>,
    /// No packet begins at that offset, so nothing more is read.
    pub(crate) spent: bool,
}

/// What the octets that are held of a packet are.
#[derive(Clone, Copy)]
pub(crate) enum Shape<'a> {
    /// A part of a packet.
    Partial,
    /// No packet begins with them.
    Faulty(TpktFault),
    /// A whole packet, with this transport unit.
    Whole(&'a [u8]),
}

/// Looks at the octets that are held of a packet.
pub(crate) fn look(held: &[u8]) -> Shape<'_>
    ensures { look_as result ≡ front_of held.now }
{
    match Packet::read(held) {
        Ok(None) => Shape::Partial,
        Err(fault) => Shape::Faulty(fault),
        Ok(Some(found)) => {
            let unit = found.0.unit();
            Shape::Whole(unit)
        }
    }
}

/// How many more octets belong to the packet whose first octets are these: up to the end of its header, or of the
/// packet.
fn wanted(held: &[u8]) -> usize
    ensures { result ≡ wanted held.now }
{
    let whole = match held {
        [_, _, high, low, ..] => usize::from(*high) * 256 + usize::from(*low),
        _ => 4,
    };
    whole.saturating_sub(held.len()).max(1)
}

impl Stream {
    pub(crate) fn new(alloc: Global) -> Stream
        ensures { streamed result ≡ untouched }
    {
        Stream {
            packets: 0,
            octets: 0,
            at: 0,
            held: Vec::new(alloc),
            spent: false,
        }
    }

    /// Whether a packet begins with the next octet.
    pub(crate) fn begins(&self) -> bool
        ensures { result ≡ begins_at (streamed self.now) }
    {
        if self.spent {
            return false;
        }
        self.held.is_empty()
    }

    /// Takes octets of a piece, up to the end of the header or of the current packet. Returns how many these are. `Err`
    /// changes nothing.
    pub(crate) fn take(&mut self, piece: &[u8]) -> Result<usize, AllocError>
        ensures used { IfOk result (λ n. n ≡ used_of (streamed self.old) piece.now) }
        ensures some { IfOk result (λ n. 0 < length piece.now → 0 < n) }
        ensures within { IfOk result (λ n. n ≤ length piece.now) }
        ensures spent { self.old.spent ≡ true → IfOk result (λ n. streamed self.new ≡ counted n (streamed self.old)) }
        ensures takes { self.old.spent ≡ false → IfOk result (λ n. streamed self.new ≡ gathered (take n piece.now) (streamed self.old)) }
        ensures free { self.old.spent ≡ true → IsOk result }
        ensures err { OnErr result (streamed self.new ≡ streamed self.old) }
    {
        if self.spent {
            self.octets = self.octets.saturating_add(piece.len() as u64);
            return Ok(piece.len());
        }
        let used = wanted(self.held.as_slice()).min(piece.len());
        self.held.extend_from_slice(&piece[..used])?;
        self.octets = self.octets.saturating_add(used as u64);
        Ok(used)
    }

    /// The current packet is done.
    pub(crate) fn advance(&mut self)
        ensures { streamed self.new ≡ advanced (streamed self.old) }
    {
        self.packets = self.packets.saturating_add(1);
        self.at = self.at.saturating_add(self.held.len() as u64);
        self.held.clear();
    }

    /// No packet begins with the octets that are held.
    pub(crate) fn end(&mut self)
        ensures { streamed self.new ≡ ended (streamed self.old) }
    {
        self.spent = true;
        self.held.clear();
    }

    pub(crate) fn reading(&self) -> Reading
        ensures { result ≡ reading_of (streamed self.now) }
    {
        Reading {
            packets: self.packets,
            octets: self.octets,
            rest: self.octets.saturating_sub(self.at),
        }
    }
}
