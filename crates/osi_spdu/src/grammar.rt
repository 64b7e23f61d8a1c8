//! Session units as a grammar of units: a TSDU is read as a whole.

ghost use Rattle.std.specs.Prelude.{◌≡◌, ◌<◌, ◌++◌, ℕ, List, [], length, Err, OnOk, OnErr};
ghost use Rattle.bytes.specs.Filled.{UsesSpare};
ghost use Rattle.osi_unit.specs.Octets.{IsOctets};
ghost use Rattle.osi_spdu.specs.Known.{Units};
ghost use Rattle.osi_spdu.specs.Groups.{units_of};
ghost use Rattle.osi_spdu.specs.Reading.{tsdu_at};
ghost use Rattle.osi_spdu.specs.Spelling.{SpellsTsdu, IsAll};
ghost use Rattle.osi_spdu.specs.Writing.{tsdu_octets, IsFormedTsdu, TsduFits};
ghost use Rattle.osi_unit.specs.Unit.{IsAtFront};

use crate::faults::SpduFault;
use crate::groups::Group;
use crate::reading::read_tsdu;
use crate::writing::{write_tsdu, written_len};
use bytes::BytesMut;
use osi_unit::Unit;
use std::alloc::AllocError;

impl<'a> Unit<'a> for Group<'a> {
    type Fault = SpduFault;

    ghost Value = { Units };

    ghost value = { λ g. units_of g };

    ghost spells = { SpellsTsdu };

    ghost follows = { IsAll };

    ghost begins = { λ octets. ⊥ };

    ghost refuses = { λ octets fault. tsdu_at octets ≡ Err fault };

    ghost written = { λ units. tsdu_octets units };

    ghost fits = { λ units. IsFormedTsdu units × TsduFits units × IsOctets (tsdu_octets units) };

    fn read(octets: &'a [u8]) -> Result<Option<(Group<'a>, usize)>, SpduFault> {
        match read_tsdu(octets) {
            Ok(group) => Ok(Some((group, octets.len()))),
            Err(fault) => Err(fault),
        }
    }

    // Only the lengths have to be checked: the types bound everything else.
    fn write(&self, out: &mut BytesMut) -> Result<(), AllocError>
        requires { TsduFits (units_of self.now) }
        ensures ok { OnOk result (out.new.items ≡ out.old.items ++ tsdu_octets (units_of self.now)) }
        ensures err { OnErr result (out.new.items ≡ out.old.items) }
        ensures full { OnErr result (out.old.spare < length (tsdu_octets (units_of self.now))) }
        ensures spare { UsesSpare result out.old.spare out.new.spare (length (tsdu_octets (units_of self.now))) }
    {
        write_tsdu(self, out)
    }

    fn written_len(&self) -> usize
        requires { TsduFits (units_of self.now) }
        ensures { result ≡ length (tsdu_octets (units_of self.now)) }
    {
        written_len(self)
    }

    fn laws()
        ensures is_spelled { (units : Units) → IsFormedTsdu units × TsduFits units × IsOctets (tsdu_octets units) →
            SpellsTsdu units (tsdu_octets units) }
        ensures stands_alone { (units : Units) → IsAll units [] }
        ensures one_reading { (v w : Units) (m n : ℕ) (octets : List ℕ) → IsOctets octets →
            IsAtFront SpellsTsdu IsAll v m octets → IsAtFront SpellsTsdu IsAll w n octets →
            (v ≡ w) × (m ≡ n) }
    {}
}
