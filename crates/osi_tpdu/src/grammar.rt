//! Transport units as a grammar of units.

ghost use Rattle.std.specs.Prelude.{◌≡◌, ◌<◌, ◌++◌, ℕ, List, [], length, Err, OnOk, OnErr};
ghost use Rattle.bytes.specs.Filled.{UsesSpare};
ghost use Rattle.osi_unit.specs.Octets.{IsOctets};
ghost use Rattle.osi_unit.specs.Unit.{IsAtFront};
ghost use Rattle.osi_tpdu.specs.Packet.{Follows};
ghost use Rattle.osi_tpdu.specs.Reading.{unit_at};
ghost use Rattle.osi_tpdu.specs.Spelling.{Spells};
ghost use Rattle.osi_tpdu.specs.Value.{Value};
ghost use Rattle.osi_tpdu.specs.View.{value};
ghost use Rattle.osi_tpdu.specs.Writing.{written, Fits, HasRoom};

use crate::faults::TpduFault;
use crate::reading::read_unit;
use crate::unit::Tpdu;
use bytes::BytesMut;
use osi_tpkt::Unit;
use std::alloc::AllocError;

impl<'a> Unit<'a> for Tpdu<'a> {
    type Fault = TpduFault;

    ghost Value = { Value };

    ghost value = { value };

    ghost spells = { Spells };

    ghost follows = { Follows };

    // More octets can't help: a packet is complete when its units are read.
    ghost begins = { λ _. ⊥ };

    ghost refuses = { λ octets fault. unit_at 0 octets ≡ Err fault };

    ghost written = { written };

    ghost fits = { Fits };

    fn laws()
        ensures is_spelled { (unit : Value) → Fits unit → Spells unit (written unit) }
        ensures stands_alone { (unit : Value) → Follows unit [] }
        ensures one_reading { (v w : Value) (m n : ℕ) (octets : List ℕ) → IsOctets octets →
            IsAtFront Spells Follows v m octets → IsAtFront Spells Follows w n octets →
            (v ≡ w) × (m ≡ n) }
    {}

    /// The first unit of the octets of a packet, and the length of its spelling. AK, DC and ER may be followed by
    /// anything; CR, CC, DR and DT extend to the end. Never `Ok(None)`.
    fn read(octets: &'a [u8]) -> Result<Option<(Self, usize)>, TpduFault> {
        Ok(Some(read_unit(0, octets)?))
    }

    // Only the header's length has to be checked: the types bound everything else.
    fn write(&self, out: &mut BytesMut) -> Result<(), AllocError>
        requires { HasRoom (value self.now) }
        ensures ok { OnOk result (out.new.items ≡ out.old.items ++ written (value self.now)) }
        ensures err { OnErr result (out.new.items ≡ out.old.items) }
        ensures full { OnErr result (out.old.spare < length (written (value self.now))) }
        ensures spare { UsesSpare result out.old.spare out.new.spare (length (written (value self.now))) }
    {
        crate::writing::write(self, out)
    }

    fn written_len(&self) -> usize
        requires { HasRoom (value self.now) }
        ensures { result ≡ length (written (value self.now)) }
    {
        crate::writing::written_len(self)
    }
}
