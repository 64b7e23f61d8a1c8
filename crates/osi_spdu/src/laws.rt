//! How reading, spelling and the written form are related.

ghost use Rattle.std.specs.Prelude.{◌≡◌, ◌≤◌, ℕ, Bool, List, Ok, Err, Some};
ghost use Rattle.osi_unit.specs.Octets.{IsOctets};
ghost use Rattle.osi_spdu.specs.Values.{digits_of, numeral};
ghost use Rattle.osi_spdu.specs.Known.{Contents, Units};
ghost use Rattle.osi_spdu.specs.Groups.{units_of};
ghost use Rattle.osi_spdu.specs.Reading.{unit_at, tsdu_at};
ghost use Rattle.osi_spdu.specs.Faults.{IsUnitFault, IsFirstFault};
ghost use Rattle.osi_spdu.specs.Sizes.{size_of, named_by, no_sizes};
ghost use Rattle.osi_spdu.specs.declared.faults.SpduFault.{SpduFault};
ghost use Rattle.osi_spdu.specs.Spelling.{SpellsTsdu};
ghost use Rattle.osi_spdu.specs.Writing.{tsdu_octets, free_len, IsCanonical, IsFormedTsdu, UnitFits, TsduFits};

use crate::groups::Group;
use crate::sizes::{TsduSize, TsduSizes};

/// Reading is sound: units that are read are spelled by the octets.
#[tactic(auto, using(crate::proofs::tsdu::units_and_tsdus_are_read::tsdu_found))]
pub fn what_is_read_is_spelled()
    ensures { (units : Units) (octets : List ℕ) → IsOctets octets →
        tsdu_at octets ≡ Ok units → SpellsTsdu units octets }
{}

/// Reading is complete: units that the octets spell are read.
#[tactic(auto, using(crate::proofs::tsdu::units_and_tsdus_are_read::tsdu_only))]
pub fn what_is_spelled_is_read()
    ensures { (units : Units) (octets : List ℕ) →
        SpellsTsdu units octets → tsdu_at octets ≡ Ok units }
{}

/// No octets spell two values.
pub fn octets_spell_one_value()
    ensures { (units others : Units) (octets : List ℕ) →
        SpellsTsdu units octets → SpellsTsdu others octets → units ≡ others }
{}

/// The written form spells the value and reads back as it.
pub fn a_written_form_reads_back()
    ensures spelled { (units : Units) → IsFormedTsdu units → TsduFits units →
        IsOctets (tsdu_octets units) → SpellsTsdu units (tsdu_octets units) }
    ensures read { (units : Units) → IsFormedTsdu units → TsduFits units →
        tsdu_at (tsdu_octets units) ≡ Ok units }
{}

/// Every value that has a spelling has a written form that fits.
#[tactic(auto, using(crate::proofs::form::what_was_read_fits::tsdu_fits))]
pub fn what_was_read_fits()
    ensures { (units : Units) (octets : List ℕ) → SpellsTsdu units octets → TsduFits units }
{}

/// If the values of variable length in a unit have at most 65,000 octets together, the unit has a written form that
/// fits.
#[tactic(auto, using(crate::proofs::form::few_octets_fit::few_fit))]
pub fn few_octets_fit()
    ensures { (unit : Contents) → IsCanonical unit.known → free_len unit.known ≤ 65000 → UnitFits unit }
{}

/// The units of every group have a written form.
pub fn has_written_form(group: &Group)
    ensures { IsFormedTsdu (units_of group.now) }
{
    // Named so that the proof sees what holds of every group.
    let _group = *group;
}

/// Reading the digits in which a serial number is written gives the number.
#[tactic(auto, using(crate::proofs::basics::digits_of_numbers::numeral_digits))]
pub fn serial_digits()
    ensures { (n : ℕ) → n ≤ 999999 → numeral (digits_of n) ≡ Some n }
{}

/// If a unit can't be read, the fault returned is its first one. What comes before the fault is well formed: the SI,
/// and parameters with distinct codes.
#[tactic(auto, using(crate::proofs::first_faults::the_first_fault_of_a_unit::unit_fault_found, crate::proofs::first_faults::the_first_fault_of_a_unit::unit_fault_only))]
pub fn first_fault_of_a_unit()
    ensures found { (second : Bool) (at : ℕ) (octets : List ℕ) (fault : SpduFault) → IsOctets octets →
        unit_at second at octets ≡ Err fault → IsUnitFault second at octets fault }
    ensures only { (second : Bool) (at : ℕ) (octets : List ℕ) (fault : SpduFault) → IsOctets octets →
        IsUnitFault second at octets fault → unit_at second at octets ≡ Err fault }
{}

/// If a TSDU can't be read, the fault returned is its first one. What comes before the fault is well formed: whole
/// units in places where they may occur, and the beginning of the faulty unit.
pub fn first_fault()
    ensures found { (octets : List ℕ) (fault : SpduFault) → IsOctets octets →
        tsdu_at octets ≡ Err fault → IsFirstFault octets fault }
    ensures only { (octets : List ℕ) (fault : SpduFault) → IsOctets octets →
        IsFirstFault octets fault → tsdu_at octets ≡ Err fault }
{}

/// The value of [`TsduSize::NONE`]: 0, for no limit.
pub fn no_size() -> TsduSize
    ensures { size_of result ≡ 0 }
{
    TsduSize::NONE
}

/// The value of [`TsduSizes::NONE`]: no limit in either direction, as if the parameter is absent.
pub fn no_sizes() -> TsduSizes
    ensures { named_by result ≡ no_sizes }
{
    TsduSizes::NONE
}
