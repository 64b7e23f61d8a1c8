//! The units of a packet, one after the other (X.224 section 6.4).

ghost use Rattle.std.specs.Prelude.{◌≡◌, ◌<◌, ℕ, ◌∷◌, [], None, Some, true, false};
ghost use Rattle.osi_class.specs.Handing.{user_of};
ghost use Rattle.osi_class.specs.Link.{taken};
ghost use Rattle.osi_tpdu.specs.Units.{units_left};
ghost use Rattle.osi_tpdu.specs.Value.{data0, data2};
ghost use Rattle.osi_tpdu.specs.View.{value};
ghost use Rattle.osi_carrier.specs.Lending.{is_reached, lent_if, with_lent, with_reached, Lends, LendsIf};
ghost use Rattle.osi_carrier.specs.Opened.{link_in, peer_in};
ghost use Rattle.osi_carrier.specs.Packets.{Act, Acts, after_refusal};
ghost use Rattle.osi_carrier.specs.React.{in_class, taking};
ghost use Rattle.osi_carrier.specs.Rows.{first_of, value_at};
ghost use Rattle.osi_carrier.specs.State.{ends};
ghost use Rattle.osi_carrier.specs.declared.ends.EndReason.TheVariants.{NoMemory};

use super::Switch;
use crate::ends::{CarrierFault, EndReason};
use crate::events::Ref;
use crate::lending::{Lent, Reached};
use osi_class::Class;
use osi_tpdu::{DataAcknowledgement, DataClass0, DataClass2, Tpdu, Units, read_units};
use osi_tpkt::TpktFault;

impl Switch {
    /// A packet with this transport unit: its units take effect in order, or none does if one is bad. If it is a single
    /// DT or AK for an open connection, this goes straight to its link. `true` if the packet is a whole TSDU and the caller
    /// wants it lent: then it is in `lent`, and no event is queued for it.
    #[inline(always)]
    pub fn take_packet<'a>(&mut self, packet: &'a [u8], lends: bool, lent: &mut Lent<'a>) -> bool
        requires { self.old.ended ≡ None }
        ensures acts { Acts self.old packet.now (with_lent (lent_if result lent.new) self.new) }
        ensures lent { result ≡ true → Lends lends self.old self.new }
    {
        match self.class {
            None => {
                self.take_any(packet);
                false
            }
            Some(Class::Zero) => self.take_in_zero(packet, lends, lent),
            Some(Class::Two) => {
                let Some(data) = DataClass2::from_packet(packet) else {
                    self.take_ack(packet);
                    return false;
                };
                match self.take_data_two(
                    data.destination,
                    data.number,
                    data.end,
                    data.user,
                    lends,
                ) {
                    Reached::NotOpen => {
                        self.take_any(packet);
                        false
                    }
                    Reached::Settled => false,
                    Reached::Whole => {
                        lent.reference = Ref(data.destination);
                        lent.octets = data.user;
                        true
                    }
                }
            }
        }
    }

    /// A packet from which nothing is to be lent.
    #[inline(always)]
    pub fn take_held(&mut self, packet: &[u8])
        requires { self.old.ended ≡ None }
        ensures { Acts self.old packet.now self.new }
    {
        let _nothing = self.take_packet(packet, false, &mut Lent::none());
    }

    /// The same in class 0.
    #[inline(always)]
    fn take_in_zero<'a>(&mut self, packet: &'a [u8], lends: bool, lent: &mut Lent<'a>) -> bool
        requires lasts { self.old.ended ≡ None }
        requires class { self.old.class ≡ Some Class.Zero }
        ensures acts { Acts self.old packet.now (with_lent (lent_if result lent.new) self.new) }
        ensures lent { result ≡ true → Lends lends self.old self.new }
    {
        let Some(data) = DataClass0::from_packet(packet) else {
            self.take_any(packet);
            return false;
        };
        let Some(reference) = self.live.first() else {
            self.take_any(packet);
            return false;
        };
        match self.take_data_zero(reference, data.end, data.user, lends) {
            Reached::NotOpen => {
                self.take_any(packet);
                false
            }
            Reached::Settled => false,
            Reached::Whole => {
                lent.reference = Ref(reference);
                lent.octets = data.user;
                true
            }
        }
    }

    /// A DT of class 0 with these fields, for the link of the connection with this reference if it is open. If it is not,
    /// nothing has changed. The fields are passed one by one, so that none goes through memory.
    #[inline(never)]
    fn take_data_zero(&mut self, reference: u16, end: bool, user: &[u8], lends: bool) -> Reached
        requires lasts { self.old.ended ≡ None }
        requires class { self.old.class ≡ Some Class.Zero }
        requires first { first_of self.old.live ≡ Some reference }
        ensures acts { is_reached result ≡ true →
            Act self.old (data0 end user.now ∷ []) (with_reached result reference user.now self.new) }
        ensures none { result ≡ Reached.NotOpen → self.new ≡ self.old }
        ensures lent { LendsIf result lends self.old self.new }
    {
        let data = DataClass0 { end, user };
        self.take_open(reference, &Tpdu::Dt0(data), lends)
    }

    /// The same with a DT of class 2.
    #[inline(never)]
    fn take_data_two(
        &mut self,
        destination: u16,
        number: u8,
        end: bool,
        user: &[u8],
        lends: bool,
    ) -> Reached
        requires lasts { self.old.ended ≡ None }
        requires class { self.old.class ≡ Some Class.Two }
        requires number { number < 128 }
        ensures acts { is_reached result ≡ true →
            Act self.old (data2 destination number end user.now ∷ []) (with_reached result destination user.now self.new) }
        ensures none { result ≡ Reached.NotOpen → self.new ≡ self.old }
        ensures lent { LendsIf result lends self.old self.new }
    {
        let data = DataClass2 {
            destination,
            number,
            end,
            user,
        };
        self.take_open(destination, &Tpdu::Dt2(data), lends)
    }

    /// A packet in class 2 that is not one DT. Nothing is lent from it. The function is kept out of line: one AK then takes
    /// less room and time than a DT.
    #[inline(never)]
    fn take_ack(&mut self, packet: &[u8])
        requires lasts { self.old.ended ≡ None }
        requires class { self.old.class ≡ Some Class.Two }
        ensures { Acts self.old packet.now self.new }
    {
        let Some(ack) = DataAcknowledgement::from_packet(packet) else {
            return self.take_any(packet);
        };
        match self.take_open(ack.destination, &Tpdu::Ak(ack), false) {
            Reached::NotOpen => self.take_any(packet),
            Reached::Settled | Reached::Whole => (),
        }
    }

    /// The only unit of a packet, if it is for the link of the open connection with this reference. If there is no such
    /// connection, nothing has changed.
    #[inline(always)]
    fn take_open(&mut self, reference: u16, unit: &Tpdu<'_>, lends: bool) -> Reached
        requires lasts { self.old.ended ≡ None }
        requires acts { (peer : ℕ) → peer_in (value_at reference self.old.live) ≡ Some peer →
            (in_class self.old.class (value unit.now) self.old).state
            ≡ (taking reference peer (taken (link_in (value_at reference self.old.live)) (value unit.now)) self.old).state }
        ensures acts { is_reached result ≡ true →
            Act self.old (value unit.now ∷ []) (with_reached result reference (user_of (value unit.now)) self.new) }
        ensures none { result ≡ Reached.NotOpen → self.new ≡ self.old }
        ensures lent { LendsIf result lends self.old self.new }
    {
        match self.hand_to_link(reference, unit, lends) {
            Ok(reached) => reached,
            Err(_) => {
                self.run_out();
                Reached::Settled
            }
        }
    }

    /// Ends because memory ran out. It stands apart, so that no room for the reason is cleared on the data path.
    #[inline(never)]
    fn run_out(&mut self)
        ensures { self.new ≡ ends NoMemory self.old }
    {
        self.end(EndReason::NoMemory);
    }

    /// A packet that may hold any units. Nothing is lent from it.
    #[inline(never)]
    fn take_any(&mut self, packet: &[u8])
        requires { self.old.ended ≡ None }
        ensures { Acts self.old packet.now self.new }
    {
        match read_units(packet) {
            Ok(units) => self.take_units(units),
            Err(fault) => self.fail(CarrierFault::Tpdu(fault)),
        }
    }

    /// Units in order, up to one that ends the carrier or for which memory runs out.
    fn take_units(&mut self, mut units: Units<'_>)
        requires { self.old.ended ≡ None }
        ensures { Act self.old (units_left units.entry) self.new }
    {
        'units: while let Some(unit) = units.next() {
            let Ok(()) = self.react(&unit) else {
                self.end(EndReason::NoMemory);
                return;
            };
            if self.ended.is_some() {
                return;
            }
        }
    }

    /// The octets of the stream are not a packet, or memory ran out to hold them.
    pub fn end_for(&mut self, fault: TpktFault)
        ensures { self.new ≡ after_refusal fault self.old }
    {
        match fault {
            TpktFault::OutOfMemory => self.end(EndReason::NoMemory),
            TpktFault::BadVersion(_) | TpktFault::BadLength(_) => {
                self.fail(CarrierFault::Tpkt(fault));
            }
        }
    }
}
