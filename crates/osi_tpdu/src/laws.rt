//! Laws of the definitions that the contracts cite. Each function does nothing: its clauses are the
//! laws.

ghost use Rattle.std.specs.Prelude.{◌≡◌, ℕ, List, [], ◌∷◌, ◌++◌, Ok, Err, IsOk, ◌↔◌};
ghost use Rattle.std.specs.List.{AllByRecursion};
ghost use Rattle.osi_unit.specs.Octets.{IsOctets};
ghost use Rattle.osi_unit.specs.Unit.{IsAtFront};
ghost use Rattle.osi_tpdu.specs.Faults.{HasFault, IsUnitFault};
ghost use Rattle.osi_tpdu.specs.Packet.{AreUnits, AreLeads, IsFirstFault, Follows, units_of};
ghost use Rattle.osi_tpdu.specs.Reading.{unit_at};
ghost use Rattle.osi_tpdu.specs.Spelling.{Spells};
ghost use Rattle.osi_tpdu.specs.Value.{Value};
ghost use Rattle.osi_tpdu.specs.View.{value};
ghost use Rattle.osi_tpdu.specs.declared.faults.TpduFault.{TpduFault};
ghost use Rattle.osi_tpdu.specs.declared.unit.Tpdu.{Tpdu};
ghost use Rattle.osi_tpdu.specs.Writing.{written, HasRoom, HasFewClasses, Fits};

/// One unit at the front of octets: reading is sound and complete. Every unit that is read is spelled by these octets,
/// and every unit that they spell is read.
pub fn one_unit()
    ensures found { (v : Value) (n : ℕ) (octets : List ℕ) → IsOctets octets → unit_at 0 octets ≡ Ok (v, n) →
        IsAtFront Spells Follows v n octets }
    ensures only { (v : Value) (n : ℕ) (octets : List ℕ) → IsAtFront Spells Follows v n octets →
        unit_at 0 octets ≡ Ok (v, n) }
{}

/// If a unit can't be read, the fault returned is its first one in the order of its octets. A unit without a fault is
/// read.
pub fn first_fault_of_a_unit()
    ensures fault { (at : ℕ) (octets : List ℕ) (fault : TpduFault) → IsOctets octets →
        (unit_at at octets ≡ Err fault) ↔ IsUnitFault at octets fault }
    ensures none { (at : ℕ) (octets : List ℕ) → IsOctets octets →
        IsOk (unit_at at octets) ↔ ((fault : TpduFault) → ¬ (HasFault at octets fault)) }
{}

/// The units of a packet: reading is sound and complete, so a packet spells at most one list of units. Each of them has
/// a written form. If a packet spells no units, its fault is that of the first unit that can't be read.
pub fn whole_packet()
    ensures found { (vs : List Value) (octets : List ℕ) → IsOctets octets → units_of octets ≡ Ok vs → AreUnits vs octets }
    ensures only { (vs : List Value) (octets : List ℕ) → AreUnits vs octets → units_of octets ≡ Ok vs }
    ensures one_reading { (vs ws : List Value) (octets : List ℕ) → AreUnits vs octets → AreUnits ws octets → vs ≡ ws }
    ensures fits { (vs : List Value) (octets : List ℕ) → AreUnits vs octets → AllByRecursion Fits vs }
    ensures faults { (octets : List ℕ) (f : TpduFault) → IsOctets octets →
        (units_of octets ≡ Err f) ↔ IsFirstFault octets f }
{}

/// The written form spells its value. It reads back as that value, whatever units come before it in the packet. Each
/// value that was read has a written form, and so has each unit with at most 172 alternative classes.
pub fn written_form()
    ensures spells { (v : Value) → Fits v → Spells v (written v) }
    ensures again { (leads : List Value) (front : List ℕ) (v : Value) → AreLeads leads front → Fits v →
        units_of (front ++ written v) ≡ Ok (leads ++ v ∷ []) }
    ensures fits { (v : Value) (octets : List ℕ) → Spells v octets → Fits v }
    ensures room { (t : Tpdu) → HasFewClasses (value t) → HasRoom (value t) }
{}
