//! The units of one TSDU.

ghost use Rattle.std.specs.Prelude.{◌≡◌, true, option_map, drop, MatchOption, IfSome, Some, None, [], ◌∷◌};
ghost use Rattle.osi_spdu.specs.Kinds.{category_of};
ghost use Rattle.osi_spdu.specs.declared.kinds.Category.TheVariants.{Two};
ghost use Rattle.osi_spdu.specs.Params.{known_of, no_params};
ghost use Rattle.osi_spdu.specs.Units.{said_by};
ghost use Rattle.osi_spdu.specs.Writing.{is_joined};

use crate::behind::Behind;
use crate::kinds::Kind;
use crate::units::Spdu;

/// The units of a TSDU: one of category 1, or one of category 0 and after it at most 16 of category 2 (X.225 section
/// 6.3.7, extended concatenation).
#[derive(Clone, Copy)]
pub struct Group<'a> {
    first: Spdu<'a>,
    behind: Behind<'a>,
    ghost joined: { is_joined first.kind (option_map (λ s. s.kind) behind.next) ≡ true },
}

impl<'a> Group<'a> {
    ghost use Rattle.osi_spdu.specs.Groups.{units_behind, first_of, behind_of, units_of};

    /// A unit of category 0 or 1, alone.
    #[inline(always)]
    pub fn alone(unit: Spdu<'a>) -> Group<'a>
        requires { is_joined (said_by unit).kind None ≡ true }
        ensures { units_of result ≡ said_by unit.entry ∷ [] }
    {
        Group::with(unit, Behind::none())
    }

    /// A unit of category 0, and one of category 2 after it.
    pub fn pair(first: Spdu<'a>, second: Spdu<'a>) -> Group<'a>
        requires { is_joined (said_by first).kind (Some (said_by second).kind) ≡ true }
        ensures { units_of result ≡ said_by first.entry ∷ said_by second.entry ∷ [] }
    {
        Group::with(first, Behind::one(second))
    }

    /// A unit of category 2, after a GT with no token.
    pub fn behind_give_tokens(unit: Spdu<'a>) -> Group<'a>
        requires { category_of (said_by unit).kind ≡ Two }
        ensures { units_of result
            ≡ record { kind = Kind.GiveTokens; known = known_of no_params; information = [] }
            ∷ said_by unit.entry ∷ [] }
    {
        Group::pair(Spdu::give_tokens(None), unit)
    }

    /// A unit, and those after it.
    #[inline(always)]
    pub(crate) fn with(first: Spdu<'a>, behind: Behind<'a>) -> Group<'a>
        requires { is_joined first.kind (option_map (λ s. s.kind) behind.next) ≡ true }
        ensures { units_of result ≡ said_by first.entry ∷ units_behind behind.entry }
    {
        Group { first, behind }
    }

    /// The first unit.
    #[inline(always)]
    pub fn first(&self) -> &Spdu<'a>
        ensures { said_by result.now ≡ first_of self.now }
    {
        &self.first
    }

    /// The units after the first one.
    #[inline(always)]
    pub fn behind(&self) -> Behind<'a>
        ensures { units_behind result ≡ behind_of self.now }
    {
        self.behind
    }

    /// The second unit, borrowed.
    #[inline(always)]
    pub fn second(&self) -> Option<&Spdu<'a>>
        ensures { MatchOption result (behind_of self.now ≡ [])
            (λ unit. behind_of self.now ≡ said_by unit.now ∷ drop 1 (behind_of self.now)) }
    {
        self.others().first()
    }

    /// The second unit, borrowed, if it is the last one.
    #[inline(always)]
    pub fn only_second(&self) -> Option<&Spdu<'a>>
        ensures { IfSome result (λ unit. behind_of self.now ≡ said_by unit.now ∷ []) }
    {
        self.others().only()
    }

    /// The units after the second one.
    #[inline(always)]
    pub fn after_second(&self) -> Behind<'a>
        ensures { units_behind result ≡ drop 1 (behind_of self.now) }
    {
        self.others().after_first()
    }

    /// The units after the first one, borrowed.
    #[inline(always)]
    pub(crate) fn others(&self) -> &Behind<'a>
        ensures { units_behind result.now ≡ behind_of self.now }
    {
        &self.behind
    }
}
