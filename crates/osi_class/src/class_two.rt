//! A link of class 2: numbers, credit and acknowledgements.

use crate::faults::LinkFault;
use crate::flow::{ReceivingFlow, SendingFlow};
use crate::handing::Handed;
use crate::joining::Begun;
use crate::limits::Credit;
use crate::links::Link;
use crate::queue::Queue;
use crate::sending::Outgoing;
use crate::sizes::{are_few, most_octets, room_for_parts, room_within};
use crate::units::{Out, Room, Slot};
use osi_tpdu::{SizeCode, Tpdu, Window};
use std::alloc::{AllocError, Global};
use std::marker::Model;

/// The octets of a class 2 data unit before its user data (X.224 section 13.7.1).
const HEADER: usize = 5;

/// A link of class 2 with explicit flow control (X.224 section 10): data units are numbered from 0 modulo 128 each
/// way, and sent only as far as the peer gave credit. Each unit that is taken causes one Ack, which restores the
/// window.
#[derive(Drop)]
pub struct Class2 {
    outgoing: Outgoing,
    /// The unfinished TSDU.
    begun: Begun,
    /// The complete TSDUs that were received, the oldest first.
    pub(crate) whole: Queue<Vec<u8>>,
    /// How many octets a unit carries, 123 to 8187.
    limit: usize,
    sending: SendingFlow,
    receiving: ReceivingFlow,
}

impl Model for Class2 {
    ghost use Rattle.std.specs.Prelude.{◌≤◌, map};
    ghost use Rattle.osi_class.specs.Joining.{joining};
    ghost use Rattle.osi_class.specs.Link.{Two};

    ghost Value = { Two };

    ghost view = { λ l. record {
      ends = record { limit = l.limit; unsent = l.outgoing.unsent; joining = joining l.begun (map (λ v. v.items) l.whole.items) };
      flow = record { sender = l.sending; receiver = l.receiving };
    } };

    ghost invariant = { λ l. (123 ≤ l.limit) × (l.limit ≤ 8189) };
}

impl Class2 {
    ghost use Rattle.std.specs.Prelude.{◌≡◌};
    ghost use Rattle.osi_tpdu.specs.Limits.{window_units};
    ghost use Rattle.osi_class.specs.Ends.{unit_size};
    ghost use Rattle.osi_class.specs.Limits.{credit_units};
    ghost use Rattle.osi_class.specs.Link.{fresh_two};

    /// A link on which nothing was sent and nothing taken, for the selected size (header included; 128 octets if none
    /// was selected), this end's window, and the peer's first credit.
    pub fn new(alloc: Global, size: Option<SizeCode>, window: Window, credit: Credit) -> Self
        ensures { result ≡ fresh_two (unit_size size) (window_units window) (credit_units credit) }
    {
        Class2 {
            outgoing: Outgoing::new(alloc),
            begun: Begun::new(alloc),
            whole: Queue::new(alloc),
            limit: most_octets(size) - HEADER,
            sending: SendingFlow::new(credit),
            receiving: ReceivingFlow::new(window),
        }
    }
}

impl Link for Class2 {
    ghost use Rattle.osi_class.specs.Link.{two_standing};

    ghost standing = { λ l. two_standing l.ends l.flow };

    fn send_tsdu(&mut self, tsdu: &[u8]) -> Result<(), AllocError> {
        self.outgoing.add(tsdu)
    }

    fn send_tsdus(&mut self, tsdus: &[Vec<u8>]) -> Result<(), AllocError> {
        self.outgoing.add_all(tsdus)
    }

    fn send_owned(&mut self, tsdu: Vec<u8>) -> Result<(), AllocError> {
        self.outgoing.add_owned(tsdu)
    }

    fn send_owned_tsdus(&mut self, tsdus: Vec<Vec<u8>>) -> Result<(), AllocError> {
        self.outgoing.add_owned_all(tsdus)
    }

    #[inline(always)]
    fn give_slot(&mut self) -> Option<Slot> {
        if !self.outgoing.is_empty() {
            return None;
        }
        if self.receiving.has_ack() {
            return None;
        }
        if !self.sending.has_credit() {
            return None;
        }
        Some(Slot::Data2(self.sending.count_unit()))
    }

    #[inline(always)]
    fn take(&mut self, unit: &Tpdu<'_>) -> Result<(), LinkFault> {
        match unit {
            Tpdu::Dt2(data) => {
                let Some(after) = self.receiving.after(data.number) else {
                    return Err(LinkFault::OutOfSequence);
                };
                self.begun.join(data.end, data.user, &mut self.whole)?;
                self.receiving = after;
                Ok(())
            }
            Tpdu::Ak(ack) => self.sending.acknowledge(ack.number, ack.credit),
            _ => Err(LinkFault::WrongForm),
        }
    }

    #[inline(always)]
    #[tactic(auto, using(crate::proofs::bounds::what_a_queue_hands_out::handed, crate::proofs::bounds::what_a_queue_hands_out::none_handed))]
    fn receive(&mut self, unit: &Tpdu<'_>) -> Result<Handed, LinkFault> {
        let Tpdu::Dt2(data) = unit else {
            self.take(unit)?;
            return Ok(Handed::of(self.next_tsdu()));
        };
        let Some(after) = self.receiving.after(data.number) else {
            return Err(LinkFault::OutOfSequence);
        };
        let handed = self.begun.join_out(data.end, data.user, &mut self.whole)?;
        self.receiving = after;
        Ok(handed)
    }

    #[inline(always)]
    fn next_out(&mut self) -> Option<Out<'_>> {
        if let Some(number) = self.receiving.next_ack() {
            return Some(Out::Ack {
                number,
                credit: self.receiving.window(),
            });
        }
        if !self.sending.has_credit() {
            return None;
        }
        if self.outgoing.is_at_rest() {
            return None;
        }
        let end = self.outgoing.advance(self.limit)?;
        Some(Out::Data2 {
            number: self.sending.count_unit(),
            end,
            octets: self.outgoing.part(),
        })
    }

    #[inline(always)]
    fn next_tsdu(&mut self) -> Option<Vec<u8>> {
        self.whole.pop()
    }

    #[inline(always)]
    fn limit(&self) -> usize {
        self.limit
    }

    fn begun_octets(&self) -> usize {
        // Named for the proof: credit and window are at most 15.
        let _credit = self.sending.credit();
        let _window = self.receiving.window();
        self.begun.octets()
    }

    fn unsent(&self) -> usize {
        self.outgoing.octets()
    }

    fn room_for(&self, octets: usize) -> Room {
        room_within(self.limit, self.sending.credit(), octets)
    }

    fn room_for_all(&self, tsdus: &[Vec<u8>], headers: u8) -> Option<usize> {
        let open = usize::from(self.sending.credit()) * (self.limit + usize::from(headers));
        match room_for_parts(self.limit, headers, tsdus) {
            None => Some(open),
            Some(room) => Some(room.min(open)),
        }
    }

    fn gives_all(&self, tsdus: &[Vec<u8>]) -> bool {
        if !self.outgoing.is_empty() || self.receiving.has_ack() {
            return false;
        }
        are_few(self.limit, self.sending.credit(), tsdus)
    }
}
