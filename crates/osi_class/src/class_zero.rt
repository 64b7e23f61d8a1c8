//! A link of class 0: parts without numbers.

use crate::faults::LinkFault;
use crate::handing::Handed;
use crate::joining::Begun;
use crate::links::Link;
use crate::queue::Queue;
use crate::sending::Outgoing;
use crate::sizes::{count_parts, most_octets, room_for_parts};
use crate::units::{Out, Room, Slot};
use osi_tpdu::{SizeCode, Tpdu};
use std::alloc::{AllocError, Global};
use std::marker::Model;

/// The octets of a class 0 data unit before its user data (X.224 section 13.7.1).
const HEADER: usize = 3;

/// A link of class 0 (X.224 section 8): data units without numbers, and no flow control.
#[derive(Drop)]
pub struct Class0 {
    outgoing: Outgoing,
    /// The unfinished TSDU.
    begun: Begun,
    /// The complete TSDUs that were received, the oldest first.
    pub(crate) whole: Queue<Vec<u8>>,
    /// How many octets a unit carries, 125 to 8189. The invariant states the bound that both classes share.
    limit: usize,
}

impl Model for Class0 {
    ghost use Rattle.std.specs.Prelude.{◌≤◌, map};
    ghost use Rattle.osi_class.specs.Ends.{Ends};
    ghost use Rattle.osi_class.specs.Joining.{joining};

    ghost Value = { Ends };

    ghost view = { λ l. record {
      limit = l.limit;
      unsent = l.outgoing.unsent;
      joining = joining l.begun (map (λ v. v.items) l.whole.items);
    } };

    ghost invariant = { λ l. (123 ≤ l.limit) × (l.limit ≤ 8189) };
}

impl Class0 {
    ghost use Rattle.std.specs.Prelude.{◌≡◌, ◌-◌};
    ghost use Rattle.osi_class.specs.Ends.{fresh_ends, unit_size};

    /// A link with nothing to send and nothing taken, for the selected size: the most octets of a unit, header
    /// included; 128 if none was selected.
    pub fn new(alloc: Global, size: Option<SizeCode>) -> Self
        ensures { result ≡ fresh_ends (unit_size size - 3) }
    {
        Class0 {
            outgoing: Outgoing::new(alloc),
            begun: Begun::new(alloc),
            whole: Queue::new(alloc),
            limit: most_octets(size) - HEADER,
        }
    }
}

impl Link for Class0 {
    ghost use Rattle.osi_class.specs.Link.{zero_standing};

    ghost standing = { zero_standing };

    fn send_tsdu(&mut self, tsdu: &[u8]) -> Result<(), AllocError> {
        self.outgoing.add(tsdu)
    }

    fn send_tsdus(&mut self, tsdus: &[Vec<u8>]) -> Result<(), AllocError> {
        self.outgoing.add_all(tsdus)
    }

    fn send_owned(&mut self, tsdu: Vec<u8>) -> Result<(), AllocError> {
        self.outgoing.add_owned(tsdu)
    }

    fn send_owned_tsdus(&mut self, tsdus: Vec<Vec<u8>>) -> Result<(), AllocError> {
        self.outgoing.add_owned_all(tsdus)
    }

    #[inline(always)]
    fn give_slot(&mut self) -> Option<Slot> {
        if !self.outgoing.is_empty() {
            return None;
        }
        Some(Slot::Data0)
    }

    #[inline(always)]
    fn take(&mut self, unit: &Tpdu<'_>) -> Result<(), LinkFault> {
        match unit {
            Tpdu::Dt0(data) => self.begun.join(data.end, data.user, &mut self.whole),
            _ => Err(LinkFault::WrongForm),
        }
    }

    #[inline(always)]
    fn receive(&mut self, unit: &Tpdu<'_>) -> Result<Handed, LinkFault> {
        let Tpdu::Dt0(data) = unit else {
            return Err(LinkFault::WrongForm);
        };
        self.begun.join_out(data.end, data.user, &mut self.whole)
    }

    #[inline(always)]
    fn next_out(&mut self) -> Option<Out<'_>> {
        if self.outgoing.is_at_rest() {
            return None;
        }
        let end = self.outgoing.advance(self.limit)?;
        Some(Out::Data0 {
            end,
            octets: self.outgoing.part(),
        })
    }

    #[inline(always)]
    fn next_tsdu(&mut self) -> Option<Vec<u8>> {
        self.whole.pop()
    }

    #[inline(always)]
    fn limit(&self) -> usize {
        self.limit
    }

    fn begun_octets(&self) -> usize {
        self.begun.octets()
    }

    fn unsent(&self) -> usize {
        self.outgoing.octets()
    }

    fn room_for(&self, octets: usize) -> Room {
        Room {
            units: count_parts(self.limit, octets),
            octets,
        }
    }

    fn room_for_all(&self, tsdus: &[Vec<u8>], headers: u8) -> Option<usize> {
        room_for_parts(self.limit, headers, tsdus)
    }

    fn gives_all(&self, _tsdus: &[Vec<u8>]) -> bool {
        self.outgoing.is_empty()
    }
}
