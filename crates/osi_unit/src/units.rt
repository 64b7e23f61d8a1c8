//! What every grammar of units offers.

ghost use Rattle.std.specs.Prelude.{◌≡◌, ◌++◌, ◌<◌, ℕ, List, [], length, OnOk, OnErr, IfOk, IfSome, IsOkAnd, IsSomeAnd, ◌↔◌};
ghost use Rattle.osi_unit.specs.Octets.{IsOctets};
ghost use Rattle.bytes.specs.Filled.{UsesSpare};
ghost use Rattle.osi_unit.specs.Unit.{IsAtFront};

use bytes::BytesMut;
use std::alloc::AllocError;
use std::error::Error;

/// A grammar of units: values that are read from octets, which they borrow, and written to octets.
///
/// The meaning of a unit is its `value`, and `spells` says which octets spell a value. Often several spellings have the
/// same value; one of them is the written form. Reading allocates nothing.
pub trait Unit<'a>: Sized + Drop {
    /// Why octets hold no unit.
    type Fault: Error;

    /// What the units of this grammar mean, independent of how their octets are stored.
    ghost Value: { Type 0 };

    /// What a unit means.
    ghost value: { Self → Value };

    /// The octets are a spelling of the value.
    ghost spells: { Value → List ℕ → Type 0 };

    /// These octets may follow a spelling of the value in the argument of `read`.
    ghost follows: { Value → List ℕ → Type 0 };

    /// The octets are a proper prefix of a spelling, and more octets are awaited.
    ghost begins: { List ℕ → Type 0 };

    /// The octets hold no unit, for this reason.
    ghost refuses: { List ℕ → Self.Fault → Type 0 };

    /// The one spelling in which a value is written.
    ghost written: { Value → List ℕ };

    /// The lengths of the value fit the fields that count them.
    ghost fits: { Value → Type 0 };

    /// Reads the unit at the front of the octets, and the number of octets that spell it. `None` if the octets are a
    /// proper prefix of a spelling.
    fn read(octets: &'a [u8]) -> Result<Option<(Self, usize)>, Self::Fault>
        // What is read is at the front of the octets, and every unit at the front of the octets is read.
        ensures found { IfOk result (λ o. IfSome o (λ r.
            IsAtFront spells follows (value r.0) r.1 octets.now)) }
        ensures only { (v : Value) (n : ℕ) → IsAtFront spells follows v n octets.now →
            IsOkAnd result (λ o. IsSomeAnd o (λ r. (value r.0 ≡ v) × (r.1 ≡ n))) }

        ensures begun { (result ≡ Ok None) ↔ begins octets.now }
        ensures refused { (f : Self.Fault) → (result ≡ Err f) ↔ refuses octets.now f };

    /// Appends the written form. An `Err` leaves the octets of `out` as they were, and is possible only if `out` had no
    /// room.
    fn write(&self, out: &mut BytesMut) -> Result<(), AllocError>
        requires { fits (value self.now) }
        ensures ok { OnOk result (out.new.items ≡ out.old.items ++ written (value self.now)) }
        ensures err { OnErr result (out.new.items ≡ out.old.items) }
        ensures full { OnErr result (out.old.spare < length (written (value self.now))) }
        // Spare room of the buffer is used for what is written, and for nothing else.
        ensures spare { UsesSpare result out.old.spare out.new.spare (length (written (value self.now))) };

    /// The number of octets that `write` appends.
    fn written_len(&self) -> usize
        requires { fits (value self.now) }
        ensures { result ≡ length (written (value self.now)) };

    /// Laws of the grammar; the function does nothing. The written form of a value spells it, a unit may be the last of
    /// its octets, and there is at most one unit at the front of octets.
    fn laws()
        ensures is_spelled { (v : Value) → fits v → spells v (written v) }
        ensures stands_alone { (v : Value) → follows v [] }
        ensures one_reading { (v w : Value) (m n : ℕ) (octets : List ℕ) → IsOctets octets →
            IsAtFront spells follows v m octets → IsAtFront spells follows w n octets →
            (v ≡ w) × (m ≡ n) };
}
