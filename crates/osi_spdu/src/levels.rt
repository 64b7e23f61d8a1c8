//! Parameters of one level: those of a unit, and those of a group within it.

ghost use Rattle.std.specs.Prelude.{set, Some, ◌≡◌, ◌≤◌, ◌<◌, ◌+◌, ◌^◌, [], ◌∷◌, length, is_some, if◌then◌else◌, ℕ, Ok, IfOk, IfSome};
ghost use Rattle.osi_spdu.specs.Reading.{Gives, Taking, counted_at, long_at, measured_at, parameter_at, stored, in_group, in_unit};
ghost use Rattle.osi_spdu.specs.Reading.{params_of, all_there};
ghost use Rattle.osi_spdu.specs.Kinds.{members_of, required_of};
ghost use Rattle.osi_spdu.specs.Known.{nothing};
ghost use Rattle.osi_spdu.specs.Codes.{number_of, slot_of};
ghost use Rattle.osi_spdu.specs.Params.{cells_of, slots_of};
ghost use Rattle.osi_spdu.specs.Values.{digits_of};
ghost use Rattle.osi_spdu.specs.Counted.{measured_of, parameter_of};

use crate::codes::Code;
use crate::faults::SpduFault;
use crate::kinds::Kind;
use crate::params::Params;
use crate::serials::Serial;

/// The octets that a length indicator counts, and the octets after them.
#[derive(Clone, Copy)]
pub(crate) struct Counted<'a> {
    /// How many octets the length indicator has.
    pub(crate) used: usize,
    pub(crate) value: &'a [u8],
    pub(crate) rest: &'a [u8],
}

/// A parameter as it is spelled, and the octets after it.
#[derive(Clone, Copy)]
struct Parameter<'a> {
    code: u8,
    counted: Counted<'a>,
}

fn counted_at<'a>(
    at: usize,
    used: usize,
    n: usize,
    octets: &'a [u8],
) -> Result<Counted<'a>, SpduFault>
    ensures value { Gives measured_of result (counted_at at used n octets.now) }
    ensures used { IfOk result (λ m. m.used ≡ used) }
    ensures whole { IfOk result (λ m. length m.value.now + length m.rest.now ≡ length octets.now) }
{
    if octets.len() < n {
        return Err(SpduFault::LengthPastEnd(at));
    }
    let (value, rest) = octets.split_at(n);
    Ok(Counted { used, value, rest })
}

/// The octets that a length of two octets counts, after FF.
#[tactic(auto, unfolding(crate::specs::Reading::long_at))]
fn long_at<'a>(at: usize, octets: &'a [u8]) -> Result<Counted<'a>, SpduFault>
    ensures value { Gives measured_of result (long_at at octets.now) }
    ensures whole { IfOk result (λ m.
        m.used + length m.value.now + length m.rest.now ≡ 1 + length octets.now) }
{
    match octets {
        [high, low, rest @ ..] => counted_at(at, 3, 256 * *high as usize + *low as usize, rest),
        _ => Err(SpduFault::LengthPastEnd(at)),
    }
}

/// The octets that the length indicator at the front counts.
#[tactic(auto, unfolding(crate::specs::Reading::measured_at))]
pub(crate) fn measured_at<'a>(at: usize, octets: &'a [u8]) -> Result<Counted<'a>, SpduFault>
    ensures value { Gives measured_of result (measured_at at octets.now) }
    ensures whole { IfOk result (λ m.
        m.used + length m.value.now + length m.rest.now ≡ length octets.now) }
{
    match octets {
        [] => Err(SpduFault::LengthPastEnd(at)),
        [255, rest @ ..] => long_at(at, rest),
        [n, rest @ ..] => counted_at(at, 1, *n as usize, rest),
    }
}

#[tactic(auto, unfolding(crate::specs::Reading::parameter_at))]
fn parameter_at<'a>(at: usize, octets: &'a [u8]) -> Result<Parameter<'a>, SpduFault>
    ensures value { Gives parameter_of result (parameter_at at octets.now) }
    ensures whole { IfOk result (λ p. 1 + p.counted.used + length p.counted.value.now
        + length p.counted.rest.now ≡ length octets.now) }
{
    let [code, octets @ ..] = octets else {
        return Err(SpduFault::LengthPastEnd(at));
    };
    let counted = measured_at(at, octets)?;
    Ok(Parameter {
        code: *code,
        counted,
    })
}

/// The fault of a value that its code does not allow. If the slot has a value too, the second value is the fault.
#[cold]
fn refused(params: &Params, at: usize, code: Code) -> SpduFault
    ensures { result ≡ if is_some (slots_of params.now (slot_of code))
        then SpduFault.DuplicateParameter (number_of code) at
        else SpduFault.BadValue (number_of code) at }
{
    if params.has(code.slot()) {
        SpduFault::DuplicateParameter(code.number(), at)
    } else {
        SpduFault::BadValue(code.number(), at)
    }
}

/// Puts a value into its slot, which must be free.
#[inline(always)]
fn store<'a>(
    params: &mut Params<'a>,
    kind: Kind,
    at: usize,
    code: Code,
    value: &'a [u8],
) -> Result<(), SpduFault>
    ensures { Gives (λ _. slots_of params.new) result
        (stored kind at code value.now (slots_of params.old)) }
{
    match params.fill(kind, code, value) {
        None => Err(refused(params, at, code)),
        Some(true) => Err(SpduFault::DuplicateParameter(code.number(), at)),
        Some(false) => Ok(()),
    }
}

/// What knows parameters: a unit, or a group within it.
trait Level {
    ghost taking: { Self → Taking };

    /// Takes the parameter at the offset; its value begins at `body`.
    fn take<'a>(
        &self,
        at: usize,
        body: usize,
        code: u8,
        value: &'a [u8],
        params: &mut Params<'a>,
    ) -> Result<(), SpduFault>
        requires { body + length value.now < 2 ^ 64 }
        ensures { Gives (λ _. slots_of params.new) result
            (taking self.now at body code value.now (slots_of params.old)) };
}

/// The parameters that a group of a unit of this kind knows.
#[derive(Clone, Copy)]
struct OfGroup {
    kind: Kind,
    group: Code,
}

/// The parameters that a unit of this kind knows.
#[derive(Clone, Copy)]
struct OfUnit {
    kind: Kind,
}

#[tactic(auto, unfolding(crate::specs::Reading::in_group))]
impl Level for OfGroup {
    ghost taking = { λ g. in_group g.kind (members_of g.kind g.group) };

    fn take<'a>(
        &self,
        at: usize,
        _body: usize,
        code: u8,
        value: &'a [u8],
        params: &mut Params<'a>,
    ) -> Result<(), SpduFault> {
        match self.kind.known_in(self.group, code) {
            None => Ok(()),
            Some(code) => store(params, self.kind, at, code, value),
        }
    }
}

#[tactic(auto, unfolding(crate::specs::Reading::in_unit))]
impl Level for OfUnit {
    ghost taking = { λ u. in_unit u.kind };

    fn take<'a>(
        &self,
        at: usize,
        body: usize,
        code: u8,
        value: &'a [u8],
        params: &mut Params<'a>,
    ) -> Result<(), SpduFault> {
        let Some(code) = self.kind.known(code) else {
            return Ok(());
        };
        store(params, self.kind, at, code, value)?;
        if code.is_group() {
            let group = OfGroup {
                kind: self.kind,
                group: code,
            };
            return take_all(&group, body, value, params);
        }
        Ok(())
    }
}

/// Takes the parameters of a level.
fn take_all<'a, L: Level>(
    level: &L,
    at: usize,
    octets: &'a [u8],
    params: &mut Params<'a>,
) -> Result<(), SpduFault>
    requires { at + length octets.now < 2 ^ 64 }
    ensures { Gives (λ _. slots_of params.new) result
        (params_of (L.taking level.now) at (slots_of params.old) octets.now) }
{
    let mut at = at;
    let mut rest = octets;
    'parameters: while !rest.is_empty() {
        let parameter = parameter_at(at, rest)?;
        let counted = parameter.counted;
        let body = at + (1 + counted.used);
        level.take(at, body, parameter.code, counted.value, params)?;
        at += 1 + counted.used + counted.value.len();
        rest = counted.rest;
    }
    Ok(())
}

/// The parameters and groups of a unit that has at least one.
#[inline(always)]
fn some_parameters<'a>(kind: Kind, at: usize, octets: &'a [u8]) -> Result<Params<'a>, SpduFault>
    requires { at + length octets.now < 2 ^ 64 }
    ensures { Gives slots_of result (params_of (in_unit kind) at nothing octets.now) }
{
    let mut params = Params::none();
    take_all(&OfUnit { kind }, at, octets, &mut params)?;
    Ok(params)
}

/// The digits of a serial number, if the octets are this parameter and nothing else.
#[inline(always)]
#[tactic(auto, using(crate::proofs::parameters::a_number_alone_is_read::sliced))]
fn digits_alone(octets: &[u8]) -> Option<&[u8]>
    ensures alone { IfSome result (λ digits. octets.now ≡ 42 ∷ length digits.now ∷ digits.now) }
    ensures short { IfSome result (λ digits. length digits.now ≤ 6) }
{
    let [42, n, digits @ ..] = octets else {
        return None;
    };
    if digits.len() > 6 {
        return None;
    }
    if *n as usize != digits.len() {
        return None;
    }
    Some(digits)
}

/// The serial number of a unit that has this parameter and nothing else, as most points and confirmations do. It is read
/// without the loop over parameters, so that the `Params` of such a unit needs no place in memory.
#[inline(always)]
fn number_alone(kind: Kind, octets: &[u8]) -> Option<Serial>
    ensures { IfSome result (λ number. (at : ℕ) → (p q : Params) → slots_of p ≡ nothing →
        cells_of q ≡ set (cells_of p) 17 (Some (digits_of number.number)) →
        params_of (in_unit kind) at nothing octets.now ≡ Ok (slots_of q)) }
{
    let digits = digits_alone(octets)?;
    if !kind.is_numbered() {
        return None;
    }
    let number = Serial::read(digits)?;
    Some(number)
}

/// The parameters and groups of a unit. Most units have none; for these no `Params` is filled. Only a unit that follows
/// another can have a serial number alone.
#[inline(always)]
fn read_parameters<'a>(
    second: bool,
    kind: Kind,
    at: usize,
    octets: &'a [u8],
) -> Result<Params<'a>, SpduFault>
    requires { at + length octets.now < 2 ^ 64 }
    ensures { Gives slots_of result (params_of (in_unit kind) at nothing octets.now) }
{
    if octets.is_empty() {
        return Ok(Params::none());
    }
    if second {
        if let Some(number) = number_alone(kind, octets) {
            let mut params = Params::none();
            params.put_number(number);
            return Ok(params);
        }
    }
    some_parameters(kind, at, octets)
}

/// The parameters and groups of a unit, for a caller that keeps them in memory: they are put where they stay, and none were
/// there before.
#[inline(always)]
fn fill_parameters<'a>(
    second: bool,
    kind: Kind,
    at: usize,
    octets: &'a [u8],
    params: &mut Params<'a>,
) -> Result<(), SpduFault>
    requires room { at + length octets.now < 2 ^ 64 }
    requires none { slots_of params.old ≡ nothing }
    ensures { Gives (λ _. slots_of params.new) result (params_of (in_unit kind) at nothing octets.now) }
{
    if octets.is_empty() {
        return Ok(());
    }
    if second {
        if let Some(number) = number_alone(kind, octets) {
            params.put_number(number);
            return Ok(());
        }
    }
    take_all(&OfUnit { kind }, at, octets, params)
}

/// Puts the parameters and groups of a unit where they are `kept` in memory, or else into a `Params` of their own, which
/// then moves.
#[inline(always)]
pub(crate) fn parameters_at<'a>(
    kept: bool,
    second: bool,
    kind: Kind,
    at: usize,
    octets: &'a [u8],
    params: &mut Params<'a>,
) -> Result<(), SpduFault>
    requires room { at + length octets.now < 2 ^ 64 }
    requires none { slots_of params.old ≡ nothing }
    ensures { Gives (λ _. slots_of params.new) result (params_of (in_unit kind) at nothing octets.now) }
{
    if kept {
        return fill_parameters(second, kind, at, octets, params);
    }
    *params = read_parameters(second, kind, at, octets)?;
    Ok(())
}

/// Whether a mandatory parameter is there.
#[inline(always)]
#[tactic(auto, unfolding(crate::specs::Reading::all_there))]
fn is_there(at: usize, code: Code, params: &Params) -> Result<(), SpduFault>
    ensures { Gives (λ _. slots_of params.now) result (all_there at (code ∷ []) (slots_of params.now)) }
{
    if params.has(code) {
        Ok(())
    } else {
        Err(SpduFault::MissingParameter(code.number(), at))
    }
}

/// Whether the mandatory parameters are there, lowest code first.
#[inline(always)]
#[tactic(auto, unfolding(crate::specs::Reading::all_there, crate::specs::Kinds::required_of))]
pub(crate) fn check_there(at: usize, kind: Kind, params: &Params) -> Result<(), SpduFault>
    ensures { Gives (λ _. slots_of params.now) result
        (all_there at (required_of kind) (slots_of params.now)) }
{
    match kind {
        Kind::Resynchronize => {
            is_there(at, Code::ResyncType, params)?;
            is_there(at, Code::Number, params)
        }
        Kind::ResynchronizeAck
        | Kind::MajorSyncPoint
        | Kind::MajorSyncAck
        | Kind::MinorSyncPoint
        | Kind::MinorSyncAck => is_there(at, Code::Number, params),
        _ => Ok(()),
    }
}
