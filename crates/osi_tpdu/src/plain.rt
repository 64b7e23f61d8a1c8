//! The fast path for packets of one DT or one AK, which nearly all packets are: they are read straight from their
//! octets, and written together with the header of the packet.

ghost use Rattle.std.specs.Prelude.{◌≡◌, ◌+◌, ◌≤◌, ◌<◌, ◌∷◌, ◌++◌, [], length, ℕ, Bool, List, Ok, IfSome, IsSomeAnd, OnOk, OnErr};
ghost use Rattle.bytes.specs.Filled.{UsesSpare};
ghost use Rattle.osi_tpkt.specs.Packet.{IsPacket, packet_of};
ghost use Rattle.osi_tpdu.specs.Packet.{units_of};
ghost use Rattle.osi_tpdu.specs.Spelling.{Spells};
ghost use Rattle.osi_tpdu.specs.Value.{data0, data2, acknowledge};
ghost use Rattle.osi_tpdu.specs.View.{value};
ghost use Rattle.osi_tpdu.specs.Writing.{written};
ghost use Rattle.osi_tpdu.specs.declared.unit.Tpdu.TheVariants.{Dt0, Dt2, Ak};

use crate::acknowledgement::DataAcknowledgement;
use crate::data_class_0::DataClass0;
use crate::data_class_2::DataClass2;
use crate::octets::{high_half, number, with_bit};
use bytes::BytesMut;
use osi_tpkt::laws::are_octets;
use std::alloc::AllocError;

impl<'a> DataClass0<'a> {
    /// The DT of class 0 of a packet that holds nothing else (X.224 section 13.7). `None` for every other packet, also
    /// for a bad one.
    #[inline(always)]
    #[tactic(auto, using(crate::proofs::packets_of_one_dt_or_ak::data0_found, crate::proofs::packets_of_one_dt_or_ak::data0_read))]
    pub fn from_packet(packet: &'a [u8]) -> Option<DataClass0<'a>>
        // A unit that is given is spelled by the packet, and a DT of class 0 that the packet spells is given.
        ensures found { IfSome result (λ d. Spells (value (Dt0 d)) packet.now) }
        ensures only { (end : Bool) (user : List ℕ) → Spells (data0 end user) packet.now →
            IsSomeAnd result (λ d. value (Dt0 d) ≡ data0 end user) }
        ensures exact { IfSome result (λ d. units_of packet.now ≡ Ok (value (Dt0 d) ∷ [])) }
    {
        let [2, 0xF0, last, user @ ..] = packet else {
            return None;
        };
        let end = *last >= 0x80;
        Some(DataClass0 { end, user })
    }

    /// Appends the unit, of at most 65,528 octets of user data, in a packet of its own. An `Err` leaves the octets of
    /// `out` as they were, and is possible only if `out` had no room.
    #[inline(always)]
    #[tactic(auto, using(crate::proofs::packets_of_one_dt_or_ak::data0_spelled, crate::proofs::packets_of_one_dt_or_ak::data0_again))]
    pub fn write_packet(&self, out: &mut BytesMut) -> Result<(), AllocError>
        requires { length self.now.user.now ≤ 65528 }
        ensures ok { OnOk result (out.new.items ≡ out.old.items ++ packet_of (written (value (Dt0 self.now)))) }
        // What is appended is a packet that spells the unit and reads back as it.
        ensures packet { OnOk result (IsPacket (written (value (Dt0 self.now))) (packet_of (written (value (Dt0 self.now))))) }
        ensures spelled { OnOk result (Spells (value (Dt0 self.now)) (written (value (Dt0 self.now)))) }
        ensures again { OnOk result (units_of (written (value (Dt0 self.now))) ≡ Ok (value (Dt0 self.now) ∷ [])) }
        ensures err { OnErr result (out.new.items ≡ out.old.items) }
        ensures full { OnErr result (out.old.spare < length (written (value (Dt0 self.now))) + 4) }
        // Spare room of the buffer is used for what is written, and for nothing else.
        ensures spare { UsesSpare result out.old.spare out.new.spare (length (written (value (Dt0 self.now))) + 4) }
    {
        let user = self.user;
        are_octets(user);
        let size = 7 + user.len();
        out.reserve(size)?;
        let [high, low] = (size as u16).to_be_bytes();
        let last = with_bit(self.end, 0);
        out.extend_reserved(&[3, 0, high, low, 2, 0xF0, last]);
        out.extend_reserved(user);
        Ok(())
    }

    /// Appends a unit as [`DataClass0::write_packet`] does, with these octets before its user data: together at most
    /// 65,528 octets. There is room for them, and for 7 octets of headers.
    #[inline(always)]
    pub fn put_packet_behind(&self, head: &[u8], out: &mut BytesMut)
        requires short { length head.now + length self.now.user.now ≤ 65528 }
        requires room { 7 + length head.now + length self.now.user.now ≤ out.old.spare }
        ensures items { out.new.items ≡ out.old.items ++ packet_of (written (data0 self.now.end (head.now ++ self.now.user.now))) }
        ensures spare { out.new.spare + (7 + length head.now + length self.now.user.now) ≡ out.old.spare }
    {
        let size = 7 + head.len() + self.user.len();
        let [high, low] = (size as u16).to_be_bytes();
        let last = with_bit(self.end, 0);
        out.extend_reserved(&[3, 0, high, low, 2, 0xF0, last]);
        out.extend_reserved(head);
        out.extend_reserved(self.user);
    }
}

impl<'a> DataClass2<'a> {
    /// The DT of class 2 of a packet that holds nothing else (X.224 section 13.7). `None` for every other packet, also
    /// for a bad one.
    #[inline(always)]
    #[tactic(auto, using(crate::proofs::packets_of_one_dt_or_ak::data2_found, crate::proofs::packets_of_one_dt_or_ak::data2_read))]
    pub fn from_packet(packet: &'a [u8]) -> Option<DataClass2<'a>>
        ensures found { IfSome result (λ d. Spells (value (Dt2 d)) packet.now) }
        ensures only { (destination number : ℕ) (end : Bool) (user : List ℕ) → Spells (data2 destination number end user) packet.now →
            IsSomeAnd result (λ d. value (Dt2 d) ≡ data2 destination number end user) }
        ensures exact { IfSome result (λ d. units_of packet.now ≡ Ok (value (Dt2 d) ∷ [])) }
    {
        let [4, 0xF0, high, low, last, user @ ..] = packet else {
            return None;
        };
        Some(DataClass2 {
            destination: u16::from_be_bytes([*high, *low]),
            number: number(*last),
            end: *last >= 0x80,
            user,
        })
    }

    /// Appends the unit, of at most 65,526 octets of user data, in a packet of its own. An `Err` leaves the octets of
    /// `out` as they were, and is possible only if `out` had no room.
    #[inline(always)]
    #[tactic(auto, using(crate::proofs::packets_of_one_dt_or_ak::data2_spelled, crate::proofs::packets_of_one_dt_or_ak::data2_again))]
    pub fn write_packet(&self, out: &mut BytesMut) -> Result<(), AllocError>
        requires { length self.now.user.now ≤ 65526 }
        ensures ok { OnOk result (out.new.items ≡ out.old.items ++ packet_of (written (value (Dt2 self.now)))) }
        ensures packet { OnOk result (IsPacket (written (value (Dt2 self.now))) (packet_of (written (value (Dt2 self.now))))) }
        ensures spelled { OnOk result (Spells (value (Dt2 self.now)) (written (value (Dt2 self.now)))) }
        ensures again { OnOk result (units_of (written (value (Dt2 self.now))) ≡ Ok (value (Dt2 self.now) ∷ [])) }
        ensures err { OnErr result (out.new.items ≡ out.old.items) }
        ensures full { OnErr result (out.old.spare < length (written (value (Dt2 self.now))) + 4) }
        ensures spare { UsesSpare result out.old.spare out.new.spare (length (written (value (Dt2 self.now))) + 4) }
    {
        let user = self.user;
        are_octets(user);
        let size = 9 + user.len();
        out.reserve(size)?;
        let [high, low] = (size as u16).to_be_bytes();
        let [to_high, to_low] = self.destination.to_be_bytes();
        let last = with_bit(self.end, self.number);
        out.extend_reserved(&[3, 0, high, low, 4, 0xF0, to_high, to_low, last]);
        out.extend_reserved(user);
        Ok(())
    }

    /// Appends a unit as [`DataClass2::write_packet`] does, with these octets before its user data: together at most
    /// 65,526 octets. There is room for them, and for 9 octets of headers.
    #[inline(always)]
    pub fn put_packet_behind(&self, head: &[u8], out: &mut BytesMut)
        requires short { length head.now + length self.now.user.now ≤ 65526 }
        requires room { 9 + length head.now + length self.now.user.now ≤ out.old.spare }
        ensures items { out.new.items ≡ out.old.items
            ++ packet_of (written (data2 self.now.destination self.now.number self.now.end (head.now ++ self.now.user.now))) }
        ensures spare { out.new.spare + (9 + length head.now + length self.now.user.now) ≡ out.old.spare }
    {
        let size = 9 + head.len() + self.user.len();
        let [high, low] = (size as u16).to_be_bytes();
        let [to_high, to_low] = self.destination.to_be_bytes();
        let last = with_bit(self.end, self.number);
        out.extend_reserved(&[3, 0, high, low, 4, 0xF0, to_high, to_low, last]);
        out.extend_reserved(head);
        out.extend_reserved(self.user);
    }
}

impl DataAcknowledgement {
    /// The AK of a packet that holds nothing else (X.224 section 13.9). `None` for every other packet, also for a bad
    /// one.
    #[inline(always)]
    #[tactic(auto, using(crate::proofs::packets_of_one_dt_or_ak::ack_found, crate::proofs::packets_of_one_dt_or_ak::ack_read))]
    pub fn from_packet(packet: &[u8]) -> Option<DataAcknowledgement>
        ensures found { IfSome result (λ a. Spells (value (Ak a)) packet.now) }
        ensures only { (credit destination number : ℕ) → Spells (acknowledge credit destination number) packet.now →
            IsSomeAnd result (λ a. value (Ak a) ≡ acknowledge credit destination number) }
        ensures exact { IfSome result (λ a. units_of packet.now ≡ Ok (value (Ak a) ∷ [])) }
    {
        let [4, first, high, low, last] = packet else {
            return None;
        };
        if high_half(*first) != 0x6 {
            return None;
        }
        Some(DataAcknowledgement::from_header(*first, *high, *low, *last))
    }

    /// Appends the unit in a packet of its own. An `Err` leaves the octets of `out` as they were, and is possible only
    /// if `out` had no room.
    #[inline(always)]
    #[tactic(auto, using(crate::proofs::packets_of_one_dt_or_ak::ack_spelled, crate::proofs::packets_of_one_dt_or_ak::ack_again))]
    pub fn write_packet(&self, out: &mut BytesMut) -> Result<(), AllocError>
        ensures ok { OnOk result (out.new.items ≡ out.old.items ++ packet_of (written (value (Ak self.now)))) }
        ensures packet { OnOk result (IsPacket (written (value (Ak self.now))) (packet_of (written (value (Ak self.now))))) }
        ensures spelled { OnOk result (Spells (value (Ak self.now)) (written (value (Ak self.now)))) }
        ensures again { OnOk result (units_of (written (value (Ak self.now))) ≡ Ok (value (Ak self.now) ∷ [])) }
        ensures err { OnErr result (out.new.items ≡ out.old.items) }
        ensures full { OnErr result (out.old.spare < length (written (value (Ak self.now))) + 4) }
        ensures spare { UsesSpare result out.old.spare out.new.spare (length (written (value (Ak self.now))) + 4) }
    {
        out.reserve(9)?;
        let [high, low] = self.destination.to_be_bytes();
        out.extend_reserved(&[3, 0, 0, 9, 4, 0x60 + self.credit, high, low, self.number]);
        Ok(())
    }
}
