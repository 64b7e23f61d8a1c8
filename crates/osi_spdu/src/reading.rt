//! Reading the units of a TSDU from left to right.

ghost use Rattle.std.specs.Prelude.{◌≡◌, ◌<◌, ◌+◌, ◌^◌, [], true, length, Some, IfOk, IsOkAnd};
ghost use Rattle.osi_spdu.specs.Kinds.{category_of, kind_named, may_stand};
ghost use Rattle.osi_spdu.specs.declared.kinds.Category.TheVariants.{Zero};
ghost use Rattle.osi_spdu.specs.Known.{Units, nothing};
ghost use Rattle.osi_spdu.specs.Params.{known_of, slots_of, is_settled};
ghost use Rattle.osi_spdu.specs.Units.{said_by};
ghost use Rattle.osi_spdu.specs.Writing.{is_formed, is_informed, IsFormedTsdu, TsduFits};
ghost use Rattle.osi_spdu.specs.Reading.{Gives, placed_kind, unit_at, next_at, tsdu_at};
ghost use Rattle.osi_spdu.specs.Spelling.{SpellsTsdu};
ghost use Rattle.osi_spdu.specs.Behind.{is_behind};
ghost use Rattle.osi_spdu.specs.Found.{placed_of, later_of};
ghost use Rattle.osi_spdu.specs.Kept.{kept_of, followed_at};
ghost use Rattle.osi_spdu.specs.Groups.{units_of};

use crate::behind::{Behind, read_others};
use crate::faults::SpduFault;
use crate::groups::Group;
use crate::kinds::{Category, Kind, kind_named};
use crate::levels::{check_there, measured_at, parameters_at};
use crate::params::Params;
use crate::units::Spdu;

/// A unit and the offset of its end, apart from its parameters, and the octets after it.
#[derive(Clone, Copy)]
struct Found<'a> {
    kind: Kind,
    end: usize,
    rest: &'a [u8],
}

/// A unit that follows another, the end of its user information, and the octets after that.
#[derive(Clone, Copy)]
pub(crate) struct Later<'a> {
    pub(crate) unit: Spdu<'a>,
    pub(crate) end: usize,
    pub(crate) rest: &'a [u8],
}

/// A unit that follows another, apart from its parameters, the end of its user information, and the octets after that.
#[derive(Clone, Copy)]
struct Kept<'a> {
    kind: Kind,
    information: &'a [u8],
    end: usize,
    others: &'a [u8],
}

/// The unit that an SI names, if it may occur in this place.
fn placed_kind(second: bool, at: usize, si: u8) -> Result<Kind, SpduFault>
    ensures value { Gives (λ k. k) result (placed_kind second at (kind_named second si)) }
    ensures stands { IfOk result (λ k. may_stand second (category_of k) ≡ true) }
{
    let Some(kind) = kind_named(second, si) else {
        return Err(SpduFault::UnknownSi(at));
    };
    if !kind.category().may_stand(second) {
        return Err(SpduFault::BadConcatenation(at));
    }
    Ok(kind)
}

// This function and its callers are inlined: otherwise the parameters of each unit would be copied on the way out.
#[inline(always)]
#[tactic(auto, unfolding(crate::specs::Reading::unit_at, crate::specs::Params::known_of))]
fn unit_at<'a>(
    kept: bool,
    second: bool,
    at: usize,
    octets: &'a [u8],
    params: &mut Params<'a>,
) -> Result<Found<'a>, SpduFault>
    requires room { at + length octets.now < 2 ^ 64 }
    requires none { slots_of params.old ≡ nothing }
    ensures value { Gives (placed_of params.new) result (unit_at second at octets.now) }
    ensures whole { IfOk result (λ f. f.end + length f.rest.now ≡ at + length octets.now) }
    ensures stands { IfOk result (λ f. may_stand second (category_of f.kind) ≡ true) }
{
    let [si, after @ ..] = octets else {
        return Err(SpduFault::LengthPastEnd(at));
    };
    let kind = placed_kind(second, at, *si)?;
    let counted = measured_at(at, after)?;
    parameters_at(
        kept,
        second,
        kind,
        at + (1 + counted.used),
        counted.value,
        params,
    )?;
    check_there(at, kind, params)?;
    let end = at + (1 + counted.used + counted.value.len());
    Ok(Found {
        kind,
        end,
        rest: counted.rest,
    })
}

/// A unit that was found has a written form.
#[inline(always)]
fn found_at<'a>(
    kept: bool,
    second: bool,
    at: usize,
    octets: &'a [u8],
    params: &mut Params<'a>,
) -> Result<Found<'a>, SpduFault>
    requires room { at + length octets.now < 2 ^ 64 }
    requires none { slots_of params.old ≡ nothing }
    ensures value { Gives (placed_of params.new) result (unit_at second at octets.now) }
    ensures whole { IfOk result (λ f. f.end + length f.rest.now ≡ at + length octets.now) }
    ensures stands { IfOk result (λ f. may_stand second (category_of f.kind) ≡ true) }
    ensures formed { IfOk result (λ f. is_formed f.kind (known_of params.new) ≡ true) }
{
    unit_at(kept, second, at, octets, params)
}

/// A unit that follows another, with the user information of a DT.
#[inline(always)]
#[tactic(auto, unfolding(crate::specs::Reading::next_at, crate::specs::Behind::is_behind))]
pub(crate) fn next_at<'a>(at: usize, octets: &'a [u8]) -> Result<Later<'a>, SpduFault>
    requires { at + length octets.now < 2 ^ 64 }
    ensures value { Gives later_of result (next_at at octets.now) }
    ensures whole { IfOk result (λ l. l.end + length l.rest.now ≡ at + length octets.now) }
    ensures stands { IfOk result (λ l. is_behind (Some l.unit.kind) l.rest.now ≡ true) }
{
    let mut params = Params::none();
    let found = found_at(false, true, at, octets, &mut params)?;
    if found.kind.takes_rest() {
        return Ok(Later {
            unit: Spdu::with(found.kind, params, found.rest),
            end: found.end + found.rest.len(),
            rest: &[],
        });
    }
    Ok(Later {
        unit: Spdu::new(found.kind, params),
        end: found.end,
        rest: found.rest,
    })
}

#[inline(always)]
#[tactic(auto, unfolding(crate::specs::Reading::tsdu_at, crate::specs::Writing::is_joined))]
fn read_all(octets: &[u8]) -> Result<Group<'_>, SpduFault>
    ensures { Gives units_of result (tsdu_at octets.now) }
{
    let mut params = Params::none();
    let found = found_at(false, false, 0, octets, &mut params)?;
    let first = Spdu::new(found.kind, params);
    match found.kind.category() {
        Category::Zero => {
            let behind = Behind::read(found.end, found.rest)?;
            Ok(Group::with(first, behind))
        }
        _ => {
            if !found.rest.is_empty() {
                return Err(SpduFault::TrailingOctets(found.end));
            }
            Ok(Group::alone(first))
        }
    }
}

/// A unit that follows another, with the user information of a DT. Its parameters are kept in memory.
#[inline(always)]
#[tactic(auto, unfolding(crate::specs::Reading::next_at, crate::specs::Behind::is_behind))]
fn kept_at<'a>(at: usize, octets: &'a [u8], params: &mut Params<'a>) -> Result<Kept<'a>, SpduFault>
    requires room { at + length octets.now < 2 ^ 64 }
    requires none { slots_of params.old ≡ nothing }
    ensures value { Gives (kept_of params.new) result (next_at at octets.now) }
    ensures whole { IfOk result (λ k. k.end + length k.others.now ≡ at + length octets.now) }
    ensures stands { IfOk result (λ k. is_behind (Some k.kind) k.others.now ≡ true) }
    ensures formed { IfOk result (λ k. is_formed k.kind (known_of params.new) ≡ true) }
    ensures informed { IfOk result (λ k. is_informed k.kind k.information.now ≡ true) }
{
    let found = found_at(true, true, at, octets, params)?;
    let kind = found.kind;
    if kind.takes_rest() {
        let end = found.end + found.rest.len();
        return Ok(Kept {
            kind,
            information: found.rest,
            end,
            others: &[],
        });
    }
    Ok(Kept {
        kind,
        information: &[],
        end: found.end,
        others: found.rest,
    })
}

/// The units of a TSDU: this one of category 0, and those after it.
#[inline(always)]
#[tactic(auto, unfolding(crate::specs::Kept::followed_at))]
fn read_followed<'a>(
    kind: Kind,
    params: &Params<'a>,
    at: usize,
    octets: &'a [u8],
) -> Result<Group<'a>, SpduFault>
    requires room { at + length octets.now < 2 ^ 64 }
    requires zero { category_of kind ≡ Zero }
    requires settled { is_settled params.now ≡ true }
    requires formed { is_formed kind (known_of params.now) ≡ true }
    ensures { Gives units_of result
        (followed_at (record { kind = kind; known = known_of params.now; information = [] }) at octets.now) }
{
    let mut second = Params::none();
    if octets.is_empty() {
        return Ok(Group::with(Spdu::settled(kind, *params, &[]), Behind::none()));
    }
    let kept = kept_at(at, octets, &mut second)?;
    second.settle();
    read_others(15, kept.end, kept.others)?;
    let unit = Spdu::settled(kept.kind, second, kept.information);
    Ok(Group::with(
        Spdu::settled(kind, *params, &[]),
        Behind::after(unit, kept.end, kept.others),
    ))
}

/// The units of a TSDU, for a caller that keeps them in memory: the parameters of each are read where they stay.
#[inline(never)]
#[tactic(auto, unfolding(crate::specs::Reading::tsdu_at, crate::specs::Kept::followed_at, crate::specs::Writing::is_joined))]
fn read_kept(octets: &[u8]) -> Result<Group<'_>, SpduFault>
    ensures { Gives units_of result (tsdu_at octets.now) }
{
    let mut params = Params::none();
    let found = found_at(true, false, 0, octets, &mut params)?;
    params.settle();
    match found.kind.category() {
        Category::Zero => read_followed(found.kind, &params, found.end, found.rest),
        _ => {
            let end = found.end;
            let rest = found.rest;
            if !rest.is_empty() {
                return Err(SpduFault::TrailingOctets(end));
            }
            Ok(Group::alone(Spdu::settled(found.kind, params, &[])))
        }
    }
}

/// Reads the session units of a TSDU, as [`read_tsdu`] does, into memory: for a caller that lends them on. It is kept out
/// of line.
pub fn read_group(octets: &[u8]) -> Result<Group<'_>, SpduFault>
    // Sound: units that are read are spelled by the octets.
    ensures found { IfOk result (λ g. SpellsTsdu (units_of g) octets.now) }
    // Complete: units that the octets spell are read.
    ensures only { (units : Units) → SpellsTsdu units octets.now →
        IsOkAnd result (λ g. units_of g ≡ units) }
    // Which fault is returned.
    ensures exact { Gives units_of result (tsdu_at octets.now) }
    // Units that were read can be written.
    ensures formed { IfOk result (λ g. IsFormedTsdu (units_of g)) }
    ensures fits { IfOk result (λ g. TsduFits (units_of g)) }
{
    read_kept(octets)
}

/// Reads the session units of a TSDU, which borrow its octets. A fault is the first one from left to right.
///
/// X.225 section 8; sections 6.3.5 to 6.3.7 say which units may occur together.
#[inline(always)]
pub fn read_tsdu(octets: &[u8]) -> Result<Group<'_>, SpduFault>
    // Sound: units that are read are spelled by the octets.
    ensures found { IfOk result (λ g. SpellsTsdu (units_of g) octets.now) }
    // Complete: units that the octets spell are read.
    ensures only { (units : Units) → SpellsTsdu units octets.now →
        IsOkAnd result (λ g. units_of g ≡ units) }
    // Which fault is returned.
    ensures exact { Gives units_of result (tsdu_at octets.now) }
    // Units that were read can be written.
    ensures formed { IfOk result (λ g. IsFormedTsdu (units_of g)) }
    ensures fits { IfOk result (λ g. TsduFits (units_of g)) }
{
    read_all(octets)
}
