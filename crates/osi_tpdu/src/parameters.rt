//! Reading the parameters of a header (X.224 section 13.2.3).

ghost use Rattle.std.specs.Prelude.{◌≡◌, ◌+◌, ◌<◌, ◌≤◌, ◌^◌, length, IfOk};
ghost use Rattle.osi_tpdu.specs.Reading.{ReadsAs, parameter_at, with_size, with_calling, with_called, with_additional, with_alternative};
ghost use Rattle.osi_tpdu.specs.Reading.{with_parameter, known_at, all_skipped_at};
ghost use Rattle.osi_tpdu.specs.View.{parameter_values};

use crate::connect::ConnectParameters;
use crate::faults::TpduFault;
use crate::limits::SizeCode;
use crate::tsaps::Selector;

/// The codes of the known parameters of a CR or CC (X.224 section 13.3.4).
pub(crate) const SIZE: u8 = 0xC0;

pub(crate) const CALLING: u8 = 0xC1;

pub(crate) const CALLED: u8 = 0xC2;

pub(crate) const ADDITIONAL_OPTIONS: u8 = 0xC6;

pub(crate) const ALTERNATIVE_CLASSES: u8 = 0xC7;

// The parameter at the front: its code, its value, and the octets after it. The octets are split once by its whole length,
// which the test has at hand.
#[inline(always)]
#[tactic(auto, using(crate::proofs::the_steps_of_reading::value_in_front, crate::proofs::the_steps_of_reading::behind_front), unfolding(crate::specs::Reading::parameter_at))]
fn read_parameter(at: usize, octets: &[u8]) -> Result<(u8, &[u8], &[u8]), TpduFault>
    requires { 1 ≤ length octets.now }
    ensures gives { ReadsAs (λ r. (r.0, r.1.now, r.2.now)) result (parameter_at at octets.now) }
    ensures lengths { IfOk result (λ r. 2 + length r.1.now + length r.2.now ≡ length octets.now) }
{
    if octets.len() < 2 {
        return Err(TpduFault::BadParameterLength(at));
    }
    let used = 2 + octets[1] as usize;
    if octets.len() < used {
        return Err(TpduFault::BadParameterLength(at));
    }
    let (front, rest) = octets.split_at(used);
    let (_, value) = front.split_at(2);
    Ok((octets[0], value, rest))
}

#[inline(always)]
#[tactic(auto, unfolding(crate::specs::Reading::with_size))]
fn add_size<'a>(at: usize, value: &[u8], known: &mut ConnectParameters<'a>) -> Result<(), TpduFault>
    ensures { ReadsAs (λ _. parameter_values known.new) result (with_size at value.now (parameter_values known.old)) }
{
    if value.len() != 1 {
        return Err(TpduFault::BadParameterLength(at));
    }
    if known.size.is_some() {
        return Err(TpduFault::DuplicateParameter(at));
    }
    let Some(size) = SizeCode::new(value[0]) else {
        return Err(TpduFault::BadParameterValue(at));
    };
    known.size = Some(size);
    Ok(())
}

#[inline(always)]
#[tactic(auto, unfolding(crate::specs::Reading::with_calling))]
fn add_calling<'a>(
    at: usize,
    value: &'a [u8],
    known: &mut ConnectParameters<'a>,
) -> Result<(), TpduFault>
    ensures { ReadsAs (λ _. parameter_values known.new) result (with_calling at value.now (parameter_values known.old)) }
{
    let Some(selector) = Selector::new(value) else {
        return Err(TpduFault::BadParameterLength(at));
    };
    if known.calling.is_some() {
        return Err(TpduFault::DuplicateParameter(at));
    }
    known.calling = Some(selector);
    Ok(())
}

#[inline(always)]
#[tactic(auto, unfolding(crate::specs::Reading::with_called))]
fn add_called<'a>(
    at: usize,
    value: &'a [u8],
    known: &mut ConnectParameters<'a>,
) -> Result<(), TpduFault>
    ensures { ReadsAs (λ _. parameter_values known.new) result (with_called at value.now (parameter_values known.old)) }
{
    let Some(selector) = Selector::new(value) else {
        return Err(TpduFault::BadParameterLength(at));
    };
    if known.called.is_some() {
        return Err(TpduFault::DuplicateParameter(at));
    }
    known.called = Some(selector);
    Ok(())
}

#[inline(always)]
#[tactic(auto, unfolding(crate::specs::Reading::with_additional))]
fn add_additional_options<'a>(
    at: usize,
    value: &[u8],
    known: &mut ConnectParameters<'a>,
) -> Result<(), TpduFault>
    ensures { ReadsAs (λ _. parameter_values known.new) result (with_additional at value.now (parameter_values known.old)) }
{
    if value.len() != 1 {
        return Err(TpduFault::BadParameterLength(at));
    }
    if known.additional_options.is_some() {
        return Err(TpduFault::DuplicateParameter(at));
    }
    known.additional_options = Some(value[0]);
    Ok(())
}

#[inline(always)]
#[tactic(auto, unfolding(crate::specs::Reading::with_alternative))]
fn add_alternative_classes<'a>(
    at: usize,
    value: &'a [u8],
    known: &mut ConnectParameters<'a>,
) -> Result<(), TpduFault>
    ensures { ReadsAs (λ _. parameter_values known.new) result (with_alternative at value.now (parameter_values known.old)) }
{
    if known.alternative_classes.is_some() {
        return Err(TpduFault::DuplicateParameter(at));
    }
    known.alternative_classes = Some(value);
    Ok(())
}

// Adds one more parameter of a CR or CC to those known.
#[inline(always)]
#[tactic(auto, unfolding(crate::specs::Reading::with_parameter))]
fn add_parameter<'a>(
    at: usize,
    code: u8,
    value: &'a [u8],
    known: &mut ConnectParameters<'a>,
) -> Result<(), TpduFault>
    ensures { ReadsAs (λ _. parameter_values known.new) result (with_parameter at code value.now (parameter_values known.old)) }
{
    match code {
        SIZE => add_size(at, value, known),
        CALLING => add_calling(at, value, known),
        CALLED => add_called(at, value, known),
        ADDITIONAL_OPTIONS => add_additional_options(at, value, known),
        ALTERNATIVE_CLASSES => add_alternative_classes(at, value, known),
        _ => Ok(()),
    }
}

// The known parameters of a CR or CC, read from octets that hold nothing else.
#[inline(always)]
pub(crate) fn read_parameters(
    start: usize,
    octets: &[u8],
) -> Result<ConnectParameters<'_>, TpduFault>
    requires { start + length octets.now < 2 ^ 64 }
    ensures { ReadsAs parameter_values result (known_at start octets.now) }
{
    let mut known = ConnectParameters::none();
    let mut at = start;
    let mut rest = octets;
    'parameters: while !rest.is_empty() {
        let (code, value, behind) = read_parameter(at, rest)?;
        add_parameter(at, code, value, &mut known)?;
        at += 2 + value.len();
        rest = behind;
    }
    Ok(known)
}

// Skips parameters that fill the octets, none of which is known.
#[inline(always)]
pub(crate) fn skip_parameters(start: usize, octets: &[u8]) -> Result<(), TpduFault>
    requires { start + length octets.now < 2 ^ 64 }
    ensures { ReadsAs (λ _. tt) result (all_skipped_at start octets.now) }
{
    let mut at = start;
    let mut rest = octets;
    'parameters: while !rest.is_empty() {
        let (_, value, behind) = read_parameter(at, rest)?;
        at += 2 + value.len();
        rest = behind;
    }
    Ok(())
}
