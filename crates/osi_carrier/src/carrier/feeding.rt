//! The octets of the stream, cut into packets that take effect one after the other (RFC 1006 section 6).

ghost use Rattle.std.specs.Prelude.{◌≡◌, ◌<◌, false, [], length, Bool};
ghost use Rattle.osi_carrier.specs.Fetching.{Fetches, IsNoFront};
ghost use Rattle.osi_carrier.specs.Packets.{stops};

use super::Carrier;
use crate::lending::Lent;
use osi_tpkt::Cutter;
use osi_tpkt::laws::a_prefix_of_a_packet;

/// The result of taking octets.
#[derive(Clone, Copy, PartialEq, Eq)]
pub(super) enum Fetched {
    /// This many octets completed a packet, which took effect.
    Packet(usize),
    /// The same, and the packet was a whole TSDU, which is lent: no event is queued for it.
    Lent(usize),
    /// All of them belong to an unfinished packet.
    Part,
    /// They are no packet, or memory ran out to hold them, and the carrier ended.
    Over,
}

impl Carrier {
    /// Takes octets up to the end of the first packet that they complete, and that packet takes effect; it is not
    /// copied if it is complete within these octets, and then a whole TSDU is lent from it if the caller wants that. If
    /// the carrier ends by the octets, the held octets are dropped.
    #[inline(always)]
    pub(super) fn read_packet<'a>(
        &mut self,
        octets: &'a [u8],
        lends: bool,
        lent: &mut Lent<'a>,
    ) -> Fetched
        requires { stops self.old.state ≡ false }
        ensures { Fetches lends self.old octets.now result lent.new self.new }
    {
        a_prefix_of_a_packet();
        // Named for the proof: the invariant of every cutter.
        let _cutter = &self.cutter;
        if octets.is_empty() {
            return Fetched::Part;
        }
        let Some(packet) = self.cutter.pass(octets) else {
            return self.gather(octets);
        };
        if self.switch.take_packet(packet, lends, lent) {
            return Fetched::Lent(4 + packet.len());
        }
        Fetched::Packet(4 + packet.len())
    }

    /// The same if octets are held, or the packet continues after these octets. Nothing is lent from it: its octets are
    /// in the buffer for the next packet.
    #[inline(never)]
    fn gather(&mut self, octets: &[u8]) -> Fetched
        requires quiet { stops self.old.state ≡ false }
        requires some { 0 < length octets.now }
        requires parted { self.old.held.octets ≡ [] → IsNoFront octets.now }
        ensures { (lends : Bool) (lent : Lent) → Fetches lends self.old octets.now result lent self.new }
    {
        a_prefix_of_a_packet();
        let fed = match self.cutter.feed(octets) {
            Ok(fed) => fed,
            Err(fault) => {
                self.cutter = Cutter::new(self.alloc);
                self.switch.end_for(fault);
                return Fetched::Over;
            }
        };
        let Some(packet) = self.cutter.packet() else {
            return Fetched::Part;
        };
        self.switch.take_held(packet);
        self.cutter.advance();
        Fetched::Packet(fed.used)
    }
}
