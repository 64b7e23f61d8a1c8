//! Reading the parameters of a CR or CC that are known to be good: nothing is tested again.

ghost use Rattle.std.specs.Prelude.{◌≡◌, ◌+◌, ◌<◌, ◌≤◌, ◌^◌, length, Ok, IsOk};
ghost use Rattle.osi_tpdu.specs.Reading.{parameter_at, with_parameter, known_at};
ghost use Rattle.osi_tpdu.specs.View.{parameter_values};

use crate::connect::ConnectParameters;
use crate::limits::SizeCode;
use crate::parameters::{ADDITIONAL_OPTIONS, ALTERNATIVE_CLASSES, CALLED, CALLING, SIZE};
use crate::tsaps::Selector;

// The parameter at the front: its code, its value, and the octets after it.
#[inline(always)]
#[tactic(auto, using(crate::proofs::the_steps_of_reading::value_in_front, crate::proofs::the_steps_of_reading::behind_front), unfolding(crate::specs::Reading::parameter_at))]
fn known_parameter(_at: usize, octets: &[u8]) -> (u8, &[u8], &[u8])
    requires { IsOk (parameter_at _at octets.now) }
    ensures gives { parameter_at _at octets.now ≡ Ok (result.0, result.1.now, result.2.now) }
    ensures lengths { 2 + length result.1.now + length result.2.now ≡ length octets.now }
{
    let (front, rest) = octets.split_at(2 + octets[1] as usize);
    let (_, value) = front.split_at(2);
    (octets[0], value, rest)
}

// Adds one more parameter to those known.
#[inline(always)]
#[tactic(auto, unfolding(crate::specs::Reading::with_parameter, crate::specs::Reading::with_size, crate::specs::Reading::with_calling, crate::specs::Reading::with_called, crate::specs::Reading::with_additional, crate::specs::Reading::with_alternative))]
fn put_parameter<'a>(_at: usize, code: u8, value: &'a [u8], known: &mut ConnectParameters<'a>)
    requires { IsOk (with_parameter _at code value.now (parameter_values known.old)) }
    ensures { with_parameter _at code value.now (parameter_values known.old) ≡ Ok (parameter_values known.new) }
{
    match code {
        SIZE => known.size = Some(SizeCode::known(value[0])),
        CALLING => known.calling = Some(Selector::known(value)),
        CALLED => known.called = Some(Selector::known(value)),
        ADDITIONAL_OPTIONS => known.additional_options = Some(value[0]),
        ALTERNATIVE_CLASSES => known.alternative_classes = Some(value),
        _ => {}
    }
}

/// The known parameters of a CR or CC, read from octets that hold nothing else.
#[inline(always)]
pub(crate) fn known_parameters(start: usize, octets: &[u8]) -> ConnectParameters<'_>
    requires room { start + length octets.now < 2 ^ 64 }
    requires known { IsOk (known_at start octets.now) }
    ensures { known_at start octets.now ≡ Ok (parameter_values result) }
{
    let mut known = ConnectParameters::none();
    let mut at = start;
    let mut rest = octets;
    'parameters: while !rest.is_empty() {
        let (code, value, behind) = known_parameter(at, rest);
        put_parameter(at, code, value, &mut known);
        at += 2 + value.len();
        rest = behind;
    }
    known
}
