//! The sessions that still explain a side after another TSDU that it sent.

ghost use Rattle.std.specs.Prelude.{◌≡◌, ◌≤◌, ◌↔◌, ◌∷◌, ◌++◌, ◌||◌, IfOk, List, ℕ, length, map};
ghost use Rattle.osi_message.specs.Reading.{word, said_by_units};
ghost use Rattle.osi_session.specs.Joining.{acting_words};
ghost use Rattle.osi_spdu.specs.Groups.{units_of};
ghost use Rattle.osi_spdu.specs.Units.{said_by};
ghost use Rattle.osi_side.specs.Explaining.{Remark, Told, remarks_of};
ghost use Rattle.osi_side.specs.Kept.{after_word, after_words, after_tsdu};
ghost use Rattle.osi_side.specs.Members.{SomeExplains};
ghost use Rattle.osi_side.specs.Walking.{the_remark, remarked, Ever};

use crate::heard::Heard;
use crate::members::Member;
use crate::straight::behind_straight;
use crate::walks::walk;
use osi_session::is_restart_unit;
use osi_spdu::{Group, Spdu, read_group};
use std::alloc::{AllocError, Global};

/// The members after a unit of a TSDU of this many octets.
pub(crate) fn behind_unit(
    alloc: Global,
    heard: &Heard,
    unit: &Spdu,
    octets: usize,
    before: usize,
    members: &[Member],
) -> Result<Vec<Member>, AllocError>
    requires { before ≤ length heard.now }
    ensures explains { IfOk result (λ next. Ever heard.now before (λ us later.
        SomeExplains us members.now (the_remark (word (said_by unit.now)) octets before ∷ later) ↔ SomeExplains us next.items later)) }
    ensures value { IfOk result (λ next. next.items ≡ after_word heard.now octets before members.now (word (said_by unit.now))) }
{
    let mut next = Vec::new(alloc);
    'members: for member in members {
        walk(alloc, heard, unit, octets, before, *member, &mut next)?;
    }
    Ok(next)
}

fn either(one: bool, other: bool) -> bool
    ensures { result ≡ (one || other) }
{
    one || other
}

/// The members after the units of a TSDU of this many octets, in the order in which these take effect: the first unit
/// after those that follow it, and not at all if one of them is an RS.
fn behind_units(
    alloc: Global,
    heard: &Heard,
    group: &Group,
    octets: usize,
    before: usize,
    members: &[Member],
) -> Result<Vec<Member>, AllocError>
    requires { before ≤ length heard.now }
    ensures explains { IfOk result (λ next. Ever heard.now before (λ us later.
        SomeExplains us members.now (map (remarked octets before) (acting_words (said_by_units (units_of group.now))) ++ later) ↔
        SomeExplains us next.items later)) }
    ensures value { IfOk result (λ next. next.items
        ≡ after_words heard.now octets before members.now (acting_words (said_by_units (units_of group.now)))) }
{
    let first = *group.first();
    let mut behind = group.behind();
    let mut now = Vec::from_slice(alloc, members)?;
    let mut restarts = false;
    'units: while let Some(unit) = behind.next() {
        restarts = either(restarts, is_restart_unit(&unit));
        now = behind_unit(alloc, heard, &unit, octets, before, &now)?;
    }
    if restarts {
        return Ok(now);
    }
    let last = behind_unit(alloc, heard, &first, octets, before, &now)?;
    Ok(last)
}

/// The members after a TSDU; none after one that is not session units. One that is read straight is looked at first, because it is
/// the most frequent.
pub(crate) fn behind_tsdu(
    alloc: Global,
    heard: &Heard,
    tsdu: &[u8],
    before: usize,
    members: &[Member],
) -> Result<Vec<Member>, AllocError>
    requires { before ≤ length heard.now }
    ensures explains { IfOk result (λ next. Ever heard.now before (λ us later.
        SomeExplains us members.now (remarks_of (record { octets = tsdu.now; before = before }) ++ later) ↔ SomeExplains us
        next.items later)) }
    ensures value { IfOk result (λ next. next.items
        ≡ after_tsdu heard.now members.now (record { octets = tsdu.now; before = before })) }
{
    if let Some(next) = behind_straight(alloc, heard, tsdu, before, members)? {
        return Ok(next);
    }
    behind_read(alloc, heard, tsdu, before, members)
}

/// The same, by the units that are read.
#[tactic(auto, unfolding(osi_message::specs::Reading::said_at))]
fn behind_read(
    alloc: Global,
    heard: &Heard,
    tsdu: &[u8],
    before: usize,
    members: &[Member],
) -> Result<Vec<Member>, AllocError>
    requires { before ≤ length heard.now }
    ensures explains { IfOk result (λ next. Ever heard.now before (λ us later.
        SomeExplains us members.now (remarks_of (record { octets = tsdu.now; before = before }) ++ later) ↔ SomeExplains us
        next.items later)) }
    ensures value { IfOk result (λ next. next.items
        ≡ after_tsdu heard.now members.now (record { octets = tsdu.now; before = before })) }
{
    let read = read_group(tsdu);
    match &read {
        Ok(group) => behind_units(alloc, heard, group, tsdu.len(), before, members),
        Err(_) => Ok(Vec::new(alloc)),
    }
}
