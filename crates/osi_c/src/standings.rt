//! The states of the connections of an end.

ghost use Rattle.std.specs.Prelude.{◌≡◌, Some};
ghost use Rattle.osi_c.specs.Codes.{phase_of};
ghost use Rattle.osi_c.specs.Ends.{held, phase, numbers};

use crate::codes::phase_code;
use crate::slots::OsiEnd;
use bitflags::Flags;
use osi_carrier::Ref;

/// The tokens that this end holds.
#[unsafe(no_mangle)]
pub extern "C" fn osi_held(end: &mut OsiEnd, reference: u16) -> u8
    ensures value { result ≡ held reference end.old.inner.value }
    ensures same { end.new.inner.value ≡ end.old.inner.value }
{
    if !end.full {
        return 0;
    }
    let tokens = end.get_mut().stack.held(Ref(reference));
    tokens.bits()
}

/// The phase of a connection.
#[unsafe(no_mangle)]
pub extern "C" fn osi_phase(end: &mut OsiEnd, reference: u16) -> u32
    ensures value { phase_of result ≡ Some (phase reference end.old.inner.value) }
    ensures same { end.new.inner.value ≡ end.old.inner.value }
{
    if !end.full {
        return 0;
    }
    phase_code(end.get_mut().stack.phase(Ref(reference)))
}

/// V(M), the number of the next synchronization point.
#[unsafe(no_mangle)]
pub extern "C" fn osi_next_serial(end: &mut OsiEnd, reference: u16) -> u32
    ensures value { result ≡ (numbers reference end.old.inner.value).next }
    ensures same { end.new.inner.value ≡ end.old.inner.value }
{
    if !end.full {
        return 0;
    }
    end.get_mut().stack.next_serial(Ref(reference))
}

/// V(A), the lowest number that is not confirmed.
#[unsafe(no_mangle)]
pub extern "C" fn osi_confirmed_below(end: &mut OsiEnd, reference: u16) -> u32
    ensures value { result ≡ (numbers reference end.old.inner.value).confirmed }
    ensures same { end.new.inner.value ≡ end.old.inner.value }
{
    if !end.full {
        return 0;
    }
    end.get_mut().stack.confirmed_below(Ref(reference))
}

/// V(R), the lowest number at which this end may restart.
#[unsafe(no_mangle)]
pub extern "C" fn osi_lowest_restart(end: &mut OsiEnd, reference: u16) -> u32
    ensures value { result ≡ (numbers reference end.old.inner.value).lowest }
    ensures same { end.new.inner.value ≡ end.old.inner.value }
{
    if !end.full {
        return 0;
    }
    end.get_mut().stack.lowest_restart(Ref(reference))
}
