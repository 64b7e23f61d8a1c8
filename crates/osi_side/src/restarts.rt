//! How a session continues to a restart that its side sent (RS): it sends it now, or takes TSDUs of
//! the other side first.
//!
//! A session that sent it discards what it takes until the answer comes. So it can't be seen whether it took a
//! confirmation of a minor point before, which sets V(A). Of the sessions of one walk that differ in V(A) alone the first
//! and the last are kept, which have the lowest and the highest V(A).

ghost use Rattle.std.specs.Prelude.{◌≡◌, ◌<◌, ◌≤◌, ◌+◌, ◌↔◌, ◌⊎◌, ◌∷◌, ◌-◌, suc, IfOk, OnOk, IfSome, MatchOption, length, true, []};
ghost use Rattle.std.specs.Prelude.{get_or, List, ℕ, Some, None};
ghost use Rattle.std.specs.List.{fold};
ghost use Rattle.osi_message.specs.Reading.{word};
ghost use Rattle.osi_message.specs.Words.{Word};
ghost use Rattle.osi_session.specs.Joining.{is_restart_word};
ghost use Rattle.osi_session.specs.Phases.{is_restarting};
ghost use Rattle.osi_session.specs.Steady.{Hears};
ghost use Rattle.osi_spdu.specs.Units.{said_by};
ghost use Rattle.osi_side.specs.Explaining.{Remark, Explains};
ghost use Rattle.osi_side.specs.Kept.{added, quietly, restart_at, an_abort, way_of, way_to, both_of, is_between, joined, asks, is_still};
ghost use Rattle.osi_side.specs.Kept.{waits, waited};
ghost use Rattle.osi_side.specs.Kept.{askers, askers_from};
ghost use Rattle.osi_side.specs.Members.{SomeExplains, IsBehind};
ghost use Rattle.osi_side.specs.Walking.{the_remark, SaidHere, Ever};
ghost use Rattle.osi_side.specs.Waiting.{Waits, is_abort_word, Restarted, MayBeAsked, AskerIsAsked, Known, StillOpen};

use crate::first_places::{hears, moves, says, tsdu_at};
use crate::heard::Heard;
use crate::members::{Member, add};
use osi_session::{Phase, Standing};
use osi_spdu::{ResyncType, Serial, Spdu, TokenSetting, Wish};
use std::alloc::{AllocError, Global};

/// The bit of an AB that releases the transport connection.
const RELEASES: u8 = 0x01;

/// Sessions that sent the restart earlier on a walk, and wait for its answer. They differ in V(A) alone.
#[derive(Clone, Copy)]
pub(crate) struct Asked {
    /// The first that sent it.
    pub(crate) first: Standing,
    /// The last.
    pub(crate) last: Standing,
    /// What each of them would be if it had restarted at V(R), which makes V(A) equal.
    pub(crate) shown: Standing,
}

/// A session on its way to the restart of its side, and those that sent it earlier on this way.
#[derive(Clone, Copy)]
pub(crate) struct Asker {
    pub(crate) at: Member,
    pub(crate) asked: Option<Asked>,
}

/// The units of a walk: the restart of the side, the restart at V(R), and an abort.
#[derive(Clone, Copy)]
pub(crate) struct Asking<'a> {
    pub(crate) restart: Spdu<'a>,
    pub(crate) shown: Spdu<'a>,
    pub(crate) abort: Spdu<'a>,
}

/// A restart at this number, with all tokens to the other side; `None` if no unit has this number.
fn restart_at<'a>(number: u32) -> Option<Spdu<'a>>
    ensures { MatchOption result (999999 < number) (λ u. (number ≤ 999999) × (word (said_by u) ≡ restart_at number)) }
{
    osi_spdu::laws::serial_digits();
    let number = Serial::new(number)?;
    let sides = TokenSetting {
        data_token: Wish::Answerer,
        minor: Wish::Answerer,
        major: Wish::Answerer,
        release: Wish::Answerer,
    };
    let unit = Spdu::resynchronize(sides, ResyncType::Restart, number, &[]);
    Some(unit)
}

/// An abort of a provider.
fn an_abort<'a>() -> Spdu<'a>
    ensures { word (said_by result) ≡ an_abort }
{
    osi_spdu::laws::serial_digits();
    Spdu::abort(RELEASES, &[])
}

/// Whether the session remains as it is when it takes this TSDU.
fn stays(alloc: Global, standing: Standing, tsdu: &[u8]) -> Result<bool, AllocError>
    ensures hears { IfOk result (λ b. b ≡ true → Hears standing tsdu.now standing) }
    ensures value { IfOk result (λ b. b ≡ is_still standing (quietly standing tsdu.now)) }
{
    match hears(alloc, standing, tsdu)? {
        Some(next) => Ok(next.is_same(&standing)),
        None => Ok(false),
    }
}

fn is_restarting(phase: Phase) -> bool
    ensures { result ≡ is_restarting phase }
{
    matches!(phase, Phase::Restarting)
}

/// Whether the session waits for the answer to its restart, and discards this TSDU, also if it aborts first.
fn waits(alloc: Global, abort: &Spdu, standing: Standing, tsdu: &[u8]) -> Result<bool, AllocError>
    requires { is_abort_word (word (said_by abort.now)) ≡ true }
    ensures holds { IfOk result (λ b. b ≡ true → Waits standing tsdu.now) }
    ensures value { IfOk result (λ b. b ≡ waits (word (said_by abort.now)) standing tsdu.now) }
{
    if !is_restarting(standing.phase()) {
        return Ok(false);
    }
    let Ok(aborted) = standing.say(abort, 0) else {
        return Ok(false);
    };
    if !stays(alloc, standing, tsdu)? {
        return Ok(false);
    }
    if !stays(alloc, aborted, tsdu)? {
        return Ok(false);
    }
    Ok(true)
}

/// Keeps those that wait as members that took so many TSDUs.
fn keep(taken: usize, asked: Option<Asked>, next: &mut Vec<Member>) -> Result<(), AllocError>
    ensures explains { OnOk result ((us : List (List ℕ)) (later : List Remark) →
        Known us later taken next.old.items asked ↔ SomeExplains us next.new.items later) }
    ensures value { OnOk result (next.new.items ≡ fold added next.old.items (both_of taken asked)) }
{
    let Some(asked) = asked else {
        return Ok(());
    };
    add(
        next,
        Member {
            taken,
            standing: asked.first,
        },
    )?;
    add(
        next,
        Member {
            taken,
            standing: asked.last,
        },
    )
}

/// Whether the V(A) of the last lies between that of the first and that of this one.
fn lies_between(asked: &Asked, said: &Standing) -> bool
    ensures holds { result ≡ true → (asked.now.first.state.numbers.confirmed ≤ asked.now.last.state.numbers.confirmed)
        × (asked.now.last.state.numbers.confirmed ≤ said.now.state.numbers.confirmed) }
    ensures value { result ≡ is_between asked.now said.now }
{
    let last = asked.last.numbers().confirmed;
    asked.first.numbers().confirmed <= last && last <= said.numbers().confirmed
}

/// One more that sent it, now; `shown` is what it would be if it had restarted at V(R).
fn join(
    taken: usize,
    asked: Option<Asked>,
    said: Standing,
    shown: Standing,
    next: &mut Vec<Member>,
) -> Result<Option<Asked>, AllocError>
    ensures gives { IfOk result (λ r. (restart other : Word) (octets : ℕ) → is_restart_word restart ≡ true → is_restart_word other ≡ true
        → MayBeAsked restart other octets asked → Restarted restart other octets said shown
        → MayBeAsked restart other octets r × ((us : List (List ℕ)) (later : List Remark) →
        (Known us later taken next.old.items asked ⊎ Explains us later taken said) ↔ Known us later taken next.new.items r)) }
    ensures value { IfOk result (λ r. (r ≡ (joined taken asked said shown).waiting)
        × (next.new.items ≡ fold added next.old.items (joined taken asked said shown).kept)) }
{
    let one = Asked {
        first: said,
        last: said,
        shown,
    };
    let Some(before) = asked else {
        return Ok(Some(one));
    };
    if !before.shown.is_same(&shown) {
        keep(taken, Some(before), next)?;
        return Ok(Some(one));
    }
    let joined = Asked {
        first: before.first,
        last: said,
        shown: before.shown,
    };
    if lies_between(&before, &said) {
        return Ok(Some(joined));
    }
    add(
        next,
        Member {
            taken,
            standing: before.last,
        },
    )?;
    Ok(Some(joined))
}

/// Sends the restart now, if the session may.
fn ask(
    asking: &Asking,
    octets: usize,
    asker: Asker,
    next: &mut Vec<Member>,
) -> Result<Option<Asked>, AllocError>
    requires restart { is_restart_word (word (said_by asking.now.restart)) ≡ true }
    requires shown { is_restart_word (word (said_by asking.now.shown)) ≡ true }
    requires asked { MayBeAsked (word (said_by asking.now.restart)) (word (said_by asking.now.shown)) octets asker.asked }
    ensures asked { IfOk result (λ r. MayBeAsked (word (said_by asking.now.restart)) (word (said_by asking.now.shown)) octets r) }
    ensures gives { IfOk result (λ r. (us : List (List ℕ)) (later : List Remark) →
        (Known us later asker.at.taken next.old.items asker.asked ⊎ SaidHere us later (word (said_by asking.now.restart)) octets asker.at)
        ↔ Known us later asker.at.taken next.new.items r) }
    ensures value { IfOk result (λ r. (r ≡ (asks (way_of asking.now octets) asker.asked asker.at).waiting)
        × (next.new.items ≡ fold added next.old.items (asks (way_of asking.now octets) asker.asked asker.at).kept)) }
{
    let Some(said) = says(&asking.restart, octets, &asker.at) else {
        return Ok(asker.asked);
    };
    let Some(shown) = says(&asking.shown, octets, &asker.at) else {
        add(next, said)?;
        return Ok(asker.asked);
    };
    let joined = join(
        asker.at.taken,
        asker.asked,
        said.standing,
        shown.standing,
        next,
    )?;
    Ok(joined)
}

/// Those that sent it, after they took this TSDU too, or `None` if one of them doesn't wait any more: then they are kept.
fn wait(
    alloc: Global,
    abort: &Spdu,
    tsdu: &[u8],
    taken: usize,
    asked: Option<Asked>,
    next: &mut Vec<Member>,
) -> Result<Option<Asked>, AllocError>
    requires { is_abort_word (word (said_by abort.now)) ≡ true }
    ensures same { IfOk result (λ r. IfSome r (λ a. asked ≡ Some a)) }
    ensures gives { IfOk result (λ r. (us : List (List ℕ)) (later : List Remark) (before : ℕ)
        → taken < before → IsBehind before later → tsdu.now ≡ get_or us taken []
        → Known us later taken next.old.items asked ↔ Known us later (taken + 1) next.new.items r) }
    ensures value { IfOk result (λ r. (r ≡ (waited (word (said_by abort.now)) taken asked tsdu.now).waiting)
        × (next.new.items ≡ fold added next.old.items (waited (word (said_by abort.now)) taken asked tsdu.now).kept)) }
{
    let Some(waiting) = asked else {
        return Ok(None);
    };
    if !waits(alloc, abort, waiting.first, tsdu)? {
        keep(taken, Some(waiting), next)?;
        return Ok(None);
    }
    if !waits(alloc, abort, waiting.last, tsdu)? {
        keep(taken, Some(waiting), next)?;
        return Ok(None);
    }
    Ok(Some(waiting))
}

/// One step of a session that has not taken all TSDUs: it sends the restart, if it may, and takes the next TSDU. `None`
/// if it can't continue.
fn step(
    alloc: Global,
    heard: &Heard,
    asking: &Asking,
    octets: usize,
    asker: Asker,
    next: &mut Vec<Member>,
) -> Result<Option<Asker>, AllocError>
    requires taken { asker.at.taken < length heard.now }
    requires restart { is_restart_word (word (said_by asking.now.restart)) ≡ true }
    requires shown { is_restart_word (word (said_by asking.now.shown)) ≡ true }
    requires abort { is_abort_word (word (said_by asking.now.abort)) ≡ true }
    requires asked { MayBeAsked (word (said_by asking.now.restart)) (word (said_by asking.now.shown)) octets asker.asked }
    ensures gives { IfOk result (λ r. (before : ℕ) → asker.at.taken < before → Ever heard.now before (λ us later.
        StillOpen us later (the_remark (word (said_by asking.now.restart)) octets before) next.old.items (Some asker)
        ↔ StillOpen us later (the_remark (word (said_by asking.now.restart)) octets before) next.new.items r)) }
    ensures asked { IfOk result (λ r. AskerIsAsked (word (said_by asking.now.restart)) (word (said_by asking.now.shown)) octets r) }
    ensures moved { IfOk result (λ r. IfSome r (λ a. a.at.taken ≡ asker.at.taken + 1)) }
    ensures value { IfOk result (λ r. (n : ℕ) → fold added next.new.items (askers_from heard.now (way_of asking.now octets) n r)
        ≡ fold added next.old.items (askers_from heard.now (way_of asking.now octets) (suc n) (Some asker))) }
{
    let asked = ask(asking, octets, asker, next)?;
    let taken = asker.at.taken;
    let Some(at) = moves(alloc, heard, &asker.at)? else {
        keep(taken, asked, next)?;
        return Ok(None);
    };
    let tsdu = tsdu_at(heard, taken);
    let asked = wait(alloc, &asking.abort, tsdu, taken, asked, next)?;
    Ok(Some(Asker { at, asked }))
}

/// The members after a restart, from one member.
pub(crate) fn walk_with(
    alloc: Global,
    heard: &Heard,
    asking: &Asking,
    octets: usize,
    before: usize,
    member: Member,
    next: &mut Vec<Member>,
) -> Result<(), AllocError>
    requires passed { before ≤ length heard.now }
    requires restart { is_restart_word (word (said_by asking.now.restart)) ≡ true }
    requires shown { is_restart_word (word (said_by asking.now.shown)) ≡ true }
    requires abort { is_abort_word (word (said_by asking.now.abort)) ≡ true }
    ensures explains { OnOk result (Ever heard.now before (λ us later.
        (SomeExplains us next.old.items later
        ⊎ Explains us (the_remark (word (said_by asking.now.restart)) octets before ∷ later) member.taken member.standing)
        ↔ SomeExplains us next.new.items later)) }
    ensures value { OnOk result (next.new.items
        ≡ fold added next.old.items (askers heard.now (way_of asking.now octets) (before - member.taken) None (Some member))) }
{
    let mut asker = Asker {
        at: member,
        asked: None,
    };
    'takes: while asker.at.taken < before {
        match step(alloc, heard, asking, octets, asker, next)? {
            Some(on) => asker = on,
            None => return Ok(()),
        }
    }
    let taken = asker.at.taken;
    let asked = ask(asking, octets, asker, next)?;
    keep(taken, asked, next)?;
    Ok(())
}

/// The units of a walk to this restart, from a session in this state. `None` if the state has no V(R) that a unit can
/// name.
pub(crate) fn restart_units<'a>(restart: Spdu<'a>, standing: &Standing) -> Option<Asking<'a>>
    ensures words { IfSome result (λ a. (a.restart ≡ restart.entry)
        × (is_restart_word (word (said_by a.shown)) ≡ true) × (is_abort_word (word (said_by a.abort)) ≡ true)) }
    ensures value { MatchOption result (999999 < standing.now.state.numbers.lowest) (λ a.
        (standing.now.state.numbers.lowest ≤ 999999)
        × ((octets : ℕ) → way_of a octets ≡ way_to (word (said_by restart.entry)) octets standing.now)) }
{
    let shown = restart_at(standing.numbers().lowest)?;
    let abort = an_abort();
    Some(Asking {
        restart,
        shown,
        abort,
    })
}
