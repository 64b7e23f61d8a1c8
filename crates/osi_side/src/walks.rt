//! How a session continues to the next unit that its side sent: it sends the unit now, or takes TSDUs of the other
//! side first.

ghost use Rattle.std.specs.Prelude.{◌≡◌, ◌<◌, ◌≤◌, ◌+◌, ◌↔◌, ◌⊎◌, ◌∷◌, ◌-◌, suc, IfOk, OnOk, IfSome, length, true, List, ℕ, Some, None};
ghost use Rattle.std.specs.List.{fold};
ghost use Rattle.osi_message.specs.Reading.{word};
ghost use Rattle.osi_session.specs.Joining.{is_restart_word};
ghost use Rattle.osi_session.specs.Steps.{reply_of};
ghost use Rattle.osi_spdu.specs.Units.{said_by};
ghost use Rattle.osi_side.specs.Explaining.{Remark, Explains};
ghost use Rattle.osi_side.specs.Kept.{added, sends, is_covered, anew, latest, follows, if_answer, senders, senders_from, restarters};
ghost use Rattle.osi_side.specs.Kept.{places_of};
ghost use Rattle.osi_side.specs.Members.{SomeExplains};
ghost use Rattle.osi_side.specs.Walking.{the_remark, SaysIt, Answers, MayFollow, Turns, Ever};

use crate::first_places::{first_place, hears, tsdu_at};
use crate::heard::Heard;
use crate::members::{Member, add};
use crate::restarts::{restart_units, walk_with};
use osi_session::{Reply, Standing, is_restart_unit, is_steady};
use osi_spdu::Spdu;
use std::alloc::{AllocError, Global};

/// A session on its way to the next unit of its side.
#[derive(Clone, Copy)]
pub(crate) struct Walker {
    /// The session, and how many TSDUs it has taken.
    pub(crate) at: Member,
    /// The state of a session that sent the unit earlier, and has taken the TSDUs since.
    pub(crate) said_before: Option<Standing>,
}

/// Whether a session that sent the unit earlier is in this state by now.
fn is_covered(said_before: Option<Standing>, said: &Standing) -> bool
    ensures same { result ≡ true → said_before ≡ Some said.now }
    ensures value { result ≡ is_covered said_before said.now }
{
    match said_before {
        Some(before) => before.is_same(said),
        None => false,
    }
}

/// Sends the unit now, if the walker may.
fn say_it(
    unit: &Spdu,
    octets: usize,
    walker: Walker,
    next: &mut Vec<Member>,
) -> Result<Walker, AllocError>
    ensures says { IfOk result (λ w. (us : List (List ℕ)) (later : List Remark) → SaysIt us later (word
        (said_by unit.now)) octets next.old.items next.new.items walker w) }
    ensures value { IfOk result (λ w.
        (next.new.items ≡ fold added next.old.items (anew walker.said_before (sends (word (said_by unit.now)) octets walker.at)))
        × (w ≡ record { at = walker.at; said_before = latest walker.said_before (sends (word (said_by unit.now)) octets walker.at) })) }
{
    let at = walker.at;
    let Ok(said) = at.standing.say(unit, octets) else {
        return Ok(walker);
    };
    if is_covered(walker.said_before, &said) {
        return Ok(walker);
    }
    let taken = at.taken;
    add(
        next,
        Member {
            taken,
            standing: said,
        },
    )?;
    Ok(Walker {
        at,
        said_before: Some(said),
    })
}

/// Counts the answer to a TSDU that was taken, if the unit is this answer.
fn answer(unit: &Spdu, reply: Reply, at: Member, next: &mut Vec<Member>) -> Result<(), AllocError>
    ensures answers { OnOk result ((us : List (List ℕ)) (later : List Remark) → Answers us later (word (said_by unit.now))
        (reply_of reply) at next.old.items next.new.items) }
    ensures value { OnOk result (next.new.items
        ≡ fold added next.old.items (if_answer (word (said_by unit.now)) (Some (reply_of reply)) at)) }
{
    if !reply.is_said_by(unit) {
        return Ok(());
    }
    add(next, at)
}

/// The state of a session after it took this TSDU too; `None` if it answers it, or takes nothing.
fn follow(
    alloc: Global,
    said_before: Option<Standing>,
    tsdu: &[u8],
) -> Result<Option<Standing>, AllocError>
    ensures follows { IfOk result (λ t. MayFollow said_before tsdu.now t) }
    ensures value { IfOk result (λ t. t ≡ follows said_before tsdu.now) }
{
    match said_before {
        Some(standing) => hears(alloc, standing, tsdu),
        None => Ok(None),
    }
}

/// One step of a walker that has not taken all TSDUs that had passed: it sends the unit, if it may, and takes the next
/// TSDU. `None` if it can't continue.
fn turn(
    alloc: Global,
    heard: &Heard,
    unit: &Spdu,
    octets: usize,
    walker: Walker,
    next: &mut Vec<Member>,
) -> Result<Option<Walker>, AllocError>
    requires { walker.at.taken < length heard.now }
    ensures turns { IfOk result (λ r. (before : ℕ) → walker.at.taken < before →
        Ever heard.now before (λ us later. Turns us later (the_remark (word (said_by unit.now)) octets before) next.old.items
        next.new.items walker r)) }
    ensures moved { IfOk result (λ r. IfSome r (λ w. w.at.taken ≡ walker.at.taken + 1)) }
    ensures value { IfOk result (λ r. (n : ℕ) →
        fold added next.new.items (senders_from heard.now (word (said_by unit.now)) octets n r)
        ≡ fold added next.old.items (senders_from heard.now (word (said_by unit.now)) octets (suc n) (Some walker))) }
{
    let said = say_it(unit, octets, walker, next)?;
    let taken = walker.at.taken;
    let tsdu = tsdu_at(heard, taken);
    let Some(taking) = walker.at.standing.take(alloc, tsdu)? else {
        return Ok(None);
    };
    let at = Member {
        taken: taken + 1,
        standing: taking.next,
    };
    if let Some(reply) = taking.reply {
        answer(unit, reply, at, next)?;
        return Ok(None);
    }
    let said_before = follow(alloc, said.said_before, tsdu)?;
    Ok(Some(Walker { at, said_before }))
}

/// The members after a unit that is not steady, from one member: it sends the unit now, or after taking TSDUs, as many
/// as had passed. If a session sent the unit and then took the TSDUs that another took before it, and both are in the
/// same state, one member stands for both.
fn walk_through(
    alloc: Global,
    heard: &Heard,
    unit: &Spdu,
    octets: usize,
    before: usize,
    member: Member,
    next: &mut Vec<Member>,
) -> Result<(), AllocError>
    requires { before ≤ length heard.now }
    ensures explains { OnOk result (Ever heard.now before (λ us later.
        (SomeExplains us next.old.items later ⊎
        Explains us (the_remark (word (said_by unit.now)) octets before ∷ later) member.taken member.standing) ↔ SomeExplains us
        next.new.items later)) }
    ensures value { OnOk result (next.new.items
        ≡ fold added next.old.items (senders heard.now (word (said_by unit.now)) octets (before - member.taken) None (Some member))) }
{
    let mut walker = Walker {
        at: member,
        said_before: None,
    };
    'takes: while walker.at.taken < before {
        match turn(alloc, heard, unit, octets, walker, next)? {
            Some(on) => walker = on,
            None => return Ok(()),
        }
    }
    let _last = say_it(unit, octets, walker, next)?;
    Ok(())
}

/// The members after a restart, from one member.
fn walk_to_restart(
    alloc: Global,
    heard: &Heard,
    unit: &Spdu,
    octets: usize,
    before: usize,
    member: Member,
    next: &mut Vec<Member>,
) -> Result<(), AllocError>
    requires passed { before ≤ length heard.now }
    requires restart { is_restart_word (word (said_by unit.now)) ≡ true }
    ensures explains { OnOk result (Ever heard.now before (λ us later.
        (SomeExplains us next.old.items later
        ⊎ Explains us (the_remark (word (said_by unit.now)) octets before ∷ later) member.taken member.standing)
        ↔ SomeExplains us next.new.items later)) }
    ensures value { OnOk result (next.new.items
        ≡ fold added next.old.items (restarters heard.now (word (said_by unit.now)) octets before member)) }
{
    match restart_units(*unit, &member.standing) {
        Some(asking) => walk_with(alloc, heard, &asking, octets, before, member, next),
        None => walk_through(alloc, heard, unit, octets, before, member, next),
    }
}

/// The members after a unit, from one member.
pub(crate) fn walk(
    alloc: Global,
    heard: &Heard,
    unit: &Spdu,
    octets: usize,
    before: usize,
    member: Member,
    next: &mut Vec<Member>,
) -> Result<(), AllocError>
    requires { before ≤ length heard.now }
    ensures explains { OnOk result (Ever heard.now before (λ us later.
        (SomeExplains us next.old.items later ⊎
        Explains us (the_remark (word (said_by unit.now)) octets before ∷ later) member.taken member.standing) ↔ SomeExplains us
        next.new.items later)) }
    ensures value { OnOk result (next.new.items
        ≡ fold added next.old.items (places_of heard.now (word (said_by unit.now)) octets before member)) }
{
    if is_restart_unit(unit) {
        return walk_to_restart(alloc, heard, unit, octets, before, member, next);
    }
    if !is_steady(unit) {
        return walk_through(alloc, heard, unit, octets, before, member, next);
    }
    match first_place(alloc, heard, unit, octets, before, member)? {
        Some(place) => add(next, place),
        None => Ok(()),
    }
}
