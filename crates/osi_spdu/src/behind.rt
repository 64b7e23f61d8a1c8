//! The units of category 2 that follow the first unit of a TSDU.

ghost use Rattle.std.specs.Prelude.{◌≡◌, ◌≤◌, ◌<◌, ◌+◌, ◌^◌, true, length, Some, None, Err, [], ◌∷◌, drop, option_map, OnOk, IfErr, IfSome};
ghost use Rattle.std.specs.Prelude.{MatchOption};
ghost use Rattle.osi_spdu.specs.declared.kinds.Category.TheVariants.{Two};
ghost use Rattle.osi_spdu.specs.Behind.{AreLeft, left_prop, left_at, is_behind};
ghost use Rattle.osi_spdu.specs.Kinds.{category_of, kind_named};
ghost use Rattle.osi_spdu.specs.Reading.{Gives, behind_at, crowded};
ghost use Rattle.osi_spdu.specs.Units.{said_by};

use crate::faults::SpduFault;
use crate::kinds::kind_named;
use crate::reading::next_at;
use crate::units::Spdu;
use std::iter::FusedIterator;

/// The units after the first one of a TSDU, in order: at most 16 of category 2, and only the last may be a DT. The
/// first is kept as a value; the others are read again when they are given. Nothing is allocated.
#[derive(Clone, Copy)]
pub struct Behind<'a> {
    next: Option<Spdu<'a>>,
    room: usize,
    at: usize,
    rest: &'a [u8],
    ghost few: { room ≤ 15 },
    ghost within: { at + length rest.now < 2 ^ 64 },
    ghost stands: { is_behind (option_map (λ s. s.kind) next) rest.now ≡ true },
    ghost left: { AreLeft room at rest.now } by { left_prop room at rest.now },
}

impl<'a> Behind<'a> {
    ghost use Rattle.osi_spdu.specs.Groups.{units_behind};

    /// No unit.
    #[inline(always)]
    pub(crate) fn none() -> Behind<'a>
        ensures units { units_behind result ≡ [] }
        ensures next { result.next ≡ None }
    {
        Behind {
            next: None,
            room: 0,
            at: 0,
            rest: &[],
        }
    }

    /// One unit.
    pub(crate) fn one(unit: Spdu<'a>) -> Behind<'a>
        requires { category_of (said_by unit).kind ≡ Two }
        ensures units { units_behind result ≡ said_by unit.entry ∷ [] }
        ensures next { result.next ≡ Some unit.entry }
    {
        Behind {
            next: Some(unit),
            room: 0,
            at: 0,
            rest: &[],
        }
    }

    /// A unit, and the units that these octets are.
    #[inline(always)]
    pub(crate) fn after(unit: Spdu<'a>, at: usize, rest: &'a [u8]) -> Behind<'a>
        requires within { at + length rest.now < 2 ^ 64 }
        requires stands { is_behind (Some unit.kind) rest.now ≡ true }
        requires left { AreLeft 15 at rest.now }
        ensures units { units_behind result ≡ said_by unit.entry ∷ left_at 15 at rest.now }
        ensures next { result.next ≡ Some unit.entry }
    {
        Behind {
            next: Some(unit),
            room: 15,
            at,
            rest,
        }
    }

    /// The only unit that is left, or `None` if there is none or more than one.
    #[inline(always)]
    pub(crate) fn only(&self) -> Option<&Spdu<'a>>
        ensures { IfSome result (λ unit. units_behind self.now ≡ said_by unit.now ∷ []) }
    {
        match &self.next {
            None => None,
            Some(unit) => {
                if self.rest.is_empty() {
                    Some(unit)
                } else {
                    None
                }
            }
        }
    }

    /// The next unit, borrowed.
    #[inline(always)]
    pub(crate) fn first(&self) -> Option<&Spdu<'a>>
        ensures { MatchOption result (units_behind self.now ≡ [])
            (λ unit. units_behind self.now ≡ said_by unit.now ∷ drop 1 (units_behind self.now)) }
    {
        match &self.next {
            None => None,
            Some(unit) => Some(unit),
        }
    }

    /// The units after the next one.
    #[inline(always)]
    pub(crate) fn after_first(&self) -> Behind<'a>
        ensures { units_behind result ≡ drop 1 (units_behind self.now) }
    {
        if self.rest.is_empty() {
            return Behind::none();
        }
        let mut later = *self;
        let _first = later.next();
        later
    }

    /// The units that these octets are, or their first fault.
    #[inline(always)]
    pub(crate) fn read(at: usize, octets: &'a [u8]) -> Result<Behind<'a>, SpduFault>
        requires { at + length octets.now < 2 ^ 64 }
        ensures { Gives units_behind result (behind_at 16 at octets.now) }
    {
        if octets.is_empty() {
            return Ok(Behind::none());
        }
        let later = next_at(at, octets)?;
        read_others(15, later.end, later.rest)?;
        Ok(Behind {
            next: Some(later.unit),
            room: 15,
            at: later.end,
            rest: later.rest,
        })
    }
}

impl<'a> Iterator for Behind<'a> {
    ghost use Rattle.std.specs.Iterator.{item_count};
    ghost use Rattle.osi_spdu.specs.Groups.{units_behind, GivesBehind};

    type Item = Spdu<'a>;

    ghost next_gives = { GivesBehind };

    ghost remaining = { item_count units_behind };

    /// The next unit, in the order of the TSDU.
    #[inline(always)]
    fn next(&mut self) -> Option<Spdu<'a>> {
        let unit = self.next?;
        if self.rest.is_empty() {
            self.next = None;
            return Some(unit);
        }
        let Ok(later) = next_at(self.at, self.rest) else {
            unreachable!()
        };
        let next = Some(later.unit);
        *self = Behind {
            next,
            room: self.room - 1,
            at: later.end,
            rest: later.rest,
        };
        Some(unit)
    }
}

impl FusedIterator for Behind<'_> {}

/// The fault of a unit that would be one too many.
fn crowded(at: usize, si: u8) -> SpduFault
    ensures { result ≡ crowded at (kind_named true si) }
{
    match kind_named(true, si) {
        None => SpduFault::UnknownSi(at),
        Some(_) => SpduFault::BadConcatenation(at),
    }
}

/// Reads the units after the first one, to the end of the TSDU or to the first fault.
pub(crate) fn read_others(room: usize, at: usize, octets: &[u8]) -> Result<(), SpduFault>
    requires { at + length octets.now < 2 ^ 64 }
    ensures left { OnOk result (AreLeft room at octets.now) }
    ensures refused { IfErr result (λ f. behind_at room at octets.now ≡ Err f) }
{
    let mut room = room;
    let mut at = at;
    let mut rest = octets;
    'units: while !rest.is_empty() {
        if room == 0 {
            return Err(crowded(at, rest[0]));
        }
        let later = next_at(at, rest)?;
        room -= 1;
        at = later.end;
        rest = later.rest;
    }
    Ok(())
}
