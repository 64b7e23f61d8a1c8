//! Reading and writing one packet.

ghost use Rattle.std.specs.Prelude.{◌≡◌, ◌≤◌, ◌+◌, ◌/◌, ◌%◌, ◌<◌, [], ◌∷◌, ◌++◌, ◌↔◌, ◌⊎◌, length, IsSome, IfSome, Err, OnOk, OnErr};
ghost use Rattle.bytes.specs.Filled.{UsesSpare};
ghost use Rattle.osi_unit.specs.Octets.{IsOctets};
ghost use Rattle.osi_tpkt.specs.Packet.{IsPacket, packet_of};

use crate::faults::TpktFault;
use crate::headers::survey;
use crate::laws::are_octets;
use bytes::BytesMut;
use osi_unit::Unit;
use std::alloc::AllocError;
use thiserror::Error;

/// A packet (RFC 1006 section 6), by the transport unit that it carries: 3 to 65,531 octets.
///
/// On the stream it is the version 3, a reserved octet (written 0, ignored on reading), the length
/// of the whole packet in two octets (7 to 65,535, the most significant first), and the unit.
#[derive(Clone, Copy)]
pub struct Packet<'a> {
    unit: &'a [u8],
    ghost at_least: { 3 ≤ length unit.now },
    ghost at_most: { length unit.now ≤ 65531 },
    ghost octets: { IsOctets unit.now },
}

impl<'a> Packet<'a> {
    ghost use Rattle.osi_unit.specs.Octets.{IsOctets};
    ghost use Rattle.osi_tpkt.specs.PacketValue.{unit_of, Anything};
    ghost use Rattle.osi_unit.specs.Unit.{IsAtFront};

    /// The packet that carries a transport unit, or `None` for a unit of fewer than 3 or more than 65,531 octets.
    pub fn new(unit: &'a [u8]) -> Option<Packet<'a>>
        ensures fits { IsSome result ↔ ((3 ≤ length unit.now) × (length unit.now ≤ 65531)) }
        ensures value { IfSome result (λ p. unit_of p ≡ unit.now) }
    {
        if unit.len() < 3 || unit.len() > 65531 {
            return None;
        }
        Some(Packet { unit })
    }

    /// The transport unit, 3 to 65,531 octets.
    pub fn unit(self) -> &'a [u8]
        ensures value { result.now ≡ unit_of self.entry }
        ensures at_least { 3 ≤ length result.now }
        ensures at_most { length result.now ≤ 65531 }
    {
        let Packet { unit } = self;
        unit
    }
}

impl<'a> Unit<'a> for Packet<'a> {
    type Fault = TpktFault;

    ghost use Rattle.std.specs.Prelude.{◌≡◌, ◌++◌, ◌<◌, ℕ, List, [], length, OnOk, OnErr, IfOk, IfSome, IsOkAnd, IsSomeAnd, ◌↔◌};
    ghost use Rattle.bytes.specs.Filled.{UsesSpare};
    ghost use Rattle.osi_tpkt.specs.Packet.{IsPacket, IsPartial, IsFaultOf, IsUnit, packet_of};
    ghost use Rattle.osi_unit.specs.Octets.{IsOctets};
    ghost use Rattle.osi_tpkt.specs.PacketValue.{unit_of, Anything};
    ghost use Rattle.osi_unit.specs.Unit.{IsAtFront};

    ghost Value = { List ℕ };

    ghost value = { unit_of };

    ghost spells = { IsPacket };

    ghost follows = { Anything };

    ghost begins = { IsPartial };

    ghost refuses = { IsFaultOf 0 };

    ghost written = { packet_of };

    ghost fits = { IsUnit };

    fn laws()
        ensures is_spelled { (unit : List ℕ) → IsUnit unit → IsPacket unit (packet_of unit) }
        ensures stands_alone { (unit : List ℕ) → Anything unit [] }
        ensures one_reading { (v w : List ℕ) (m n : ℕ) (octets : List ℕ) → IsOctets octets →
            IsAtFront IsPacket Anything v m octets → IsAtFront IsPacket Anything w n octets →
            (v ≡ w) × (m ≡ n) }
    {}

    fn read(octets: &'a [u8]) -> Result<Option<(Packet<'a>, usize)>, TpktFault> {
        let fed = match survey(&[], octets) {
            Ok(fed) => fed,
            Err(header) => return Err(header.at(0)),
        };
        if !fed.whole {
            return Ok(None);
        }
        let unit = &octets[4..fed.used];
        Ok(Some((Packet { unit }, fed.used)))
    }

    fn write(&self, out: &mut BytesMut) -> Result<(), AllocError> {
        let octets = self.written_len();
        out.reserve(octets)?;
        put_header(out, octets);
        out.extend_reserved(self.unit);
        Ok(())
    }

    fn written_len(&self) -> usize {
        self.unit.len() + 4
    }
}

/// Why a packet was not written.
#[derive(Clone, Copy, PartialEq, Eq, Debug, Error)]
pub enum WriteError {
    /// The transport unit has fewer than 3 or more than 65,531 octets.
    #[error("a packet carries 3 to 65531 octets")]
    BadSize,
    /// An allocation for the packet failed.
    #[error("out of memory")]
    OutOfMemory,
}

/// Appends the packet that carries a transport unit (RFC 1006 section 6). An `Err` leaves the octets of `out` as they
/// were; an allocation can fail only if `out` had no room.
pub fn write_packet(out: &mut BytesMut, unit: &[u8]) -> Result<(), WriteError>
    ensures ok { OnOk result (out.new.items ≡ out.old.items ++ packet_of unit.now) }
    ensures packet { OnOk result (IsPacket unit.now (packet_of unit.now)) }
    ensures err { OnErr result (out.new.items ≡ out.old.items) }
    ensures bad_size { (result ≡ Err WriteError.BadSize)
        ↔ ((length unit.now < 3) ⊎ (65531 < length unit.now)) }
    ensures full { result ≡ Err WriteError.OutOfMemory → out.old.spare < length unit.now + 4 }
    ensures spare { out.old.spare ≤ out.new.spare + (length unit.now + 4) }
{
    let Some(packet) = Packet::new(unit) else {
        return Err(WriteError::BadSize);
    };
    if packet.write(out).is_err() {
        return Err(WriteError::OutOfMemory);
    }
    Ok(())
}

// Writes the header of a packet; `octets` is the packet's whole length, header included.
fn put_header(out: &mut BytesMut, octets: usize)
    requires size { octets ≤ 65535 }
    requires room { 4 ≤ out.old.spare }
    ensures items { out.new.items ≡ out.old.items ++ 3 ∷ 0 ∷ (octets / 256) ∷ (octets % 256) ∷ [] }
    ensures spare { out.new.spare + 4 ≡ out.old.spare }
{
    out.extend_reserved(&[3, 0]);
    out.extend_reserved(&(octets as u16).to_be_bytes());
}

/// Appends the packet that carries a unit of any grammar (RFC 1006 section 6): the header, and then the written form of
/// the unit, without another buffer. An `Err` leaves the octets of `out` as they were; an allocation can fail only if
/// `out` had no room.
pub fn write_in_packet<'a, U: Unit<'a>>(out: &mut BytesMut, unit: &U) -> Result<(), WriteError>
    requires { U.fits (U.value unit.now) }
    ensures ok { OnOk result (out.new.items ≡ out.old.items ++ packet_of (U.written (U.value unit.now))) }
    ensures packet { OnOk result (IsPacket (U.written (U.value unit.now)) (packet_of (U.written (U.value unit.now)))) }
    ensures err { OnErr result (out.new.items ≡ out.old.items) }
    ensures bad_size { (result ≡ Err WriteError.BadSize)
        ↔ ((length (U.written (U.value unit.now)) < 3) ⊎ (65531 < length (U.written (U.value unit.now)))) }
    ensures full { result ≡ Err WriteError.OutOfMemory → out.old.spare < length (U.written (U.value unit.now)) + 4 }
    ensures spare { out.old.spare ≤ out.new.spare + (length (U.written (U.value unit.now)) + 4) }
{
    let octets = unit.written_len();
    if octets < 3 || octets > 65531 {
        return Err(WriteError::BadSize);
    }
    let Ok(()) = out.reserve(octets + 4) else {
        return Err(WriteError::OutOfMemory);
    };
    put_header(out, octets + 4);
    let Ok(()) = unit.write(out) else {
        unreachable!()
    };
    are_octets(out.as_slice());
    Ok(())
}
