//! A run of a session that sends what a side sent, read off backwards from the sessions that the judge kept.
//!
//! The judge keeps a session after a unit only if one that it kept before the unit goes on to it. So from the last unit on,
//! each session has one before it, and only the TSDUs between the two are looked at.

ghost use Rattle.std.specs.Prelude.{◌≡◌, ◌<◌, ◌≤◌, ◌-◌, MatchBool, IfNone, IfOk, IfSome};
ghost use Rattle.osi_session.specs.Standing.{Seen};
ghost use Rattle.osi_session.specs.Steady.{Hears};
ghost use Rattle.osi_session.specs.Steps.{reply_of};
ghost use Rattle.osi_side.specs.declared.members.Member.{Member};
ghost use Rattle.osi_side.specs.Onward.{IsAmong};
ghost use Rattle.osi_side.specs.Walking.{HearsTo};
ghost use Rattle.osi_witness.specs.Backwards.{IsLatest, IsNext, StepsTo, last_before};
ghost use Rattle.osi_witness.specs.Found.{ComesFrom, Stays};
ghost use Rattle.osi_witness.specs.Linked.{IsFollowed};
ghost use Rattle.osi_witness.specs.Steps.{AnswersBy, AnswersTo, GoesTo, Leading, SaysBy, SaysTo, Waits};
ghost use Rattle.osi_witness.specs.Streams.{tsdus_of};
ghost use Rattle.osi_witness.specs.Trails.{Runs, remark_of};

use crate::streams::{Kept, Said, Stream};
use crate::units::acting_unit;
use osi_session::{Reply, Standing, is_restart_unit};
use osi_side::Member;
use osi_spdu::Spdu;
use std::alloc::{AllocError, Global};

/// How a session went on to a unit.
#[derive(Clone, Copy)]
struct Step {
    /// How many TSDUs of the other side it took before it.
    taken: usize,
    /// Whether it is the answer to the last of these.
    is_answer: bool,
    /// The state in which it sent the unit; that after the unit if this is an answer.
    from: Standing,
    /// Its state after the unit.
    standing: Standing,
}

/// The unit that a session goes on to, the session after it, and what it may take before.
#[derive(Clone, Copy)]
struct Goal<'a> {
    unit: &'a Spdu<'a>,
    /// How many octets its TSDU has.
    octets: usize,
    /// How many TSDUs of the other side had passed before it.
    before: usize,
    after: &'a Member,
    heard: &'a Stream,
}

/// The state of a session that takes this TSDU and sends nothing; none if it answers it, or takes nothing.
pub fn hears(
    alloc: Global,
    standing: &Standing,
    tsdu: &[u8],
) -> Result<Option<Standing>, AllocError>
    ensures { IfOk result (λ next. HearsTo standing.now tsdu.now next) }
{
    let Some(taking) = standing.take(alloc, tsdu)? else {
        return Ok(None);
    };
    match taking.reply {
        None => Ok(Some(taking.next)),
        Some(_) => Ok(None),
    }
}

/// Whether this TSDU leaves a session as it is.
#[tactic(auto, using(crate::proofs::a_session_that_goes_on_is_found::still_as))]
fn is_still(alloc: Global, standing: &Standing, tsdu: &[u8]) -> Result<bool, AllocError>
    ensures { IfOk result (λ yes. MatchBool yes (Hears standing.now tsdu.now standing.now) (Hears standing.now tsdu.now standing.now → ⊥)) }
{
    match hears(alloc, standing, tsdu)? {
        Some(next) => Ok(next.is_same(standing)),
        None => Ok(false),
    }
}

/// Whether the TSDUs from this one up to so many leave a session as it is.
#[tactic(auto, using(crate::proofs::a_session_that_goes_on_is_found::stays_step, crate::proofs::a_session_that_goes_on_is_found::stays_not, crate::proofs::a_session_that_goes_on_is_found::stays_end))]
fn stays(
    alloc: Global,
    heard: &Stream,
    standing: &Standing,
    from: usize,
    to: usize,
) -> Result<bool, AllocError>
    requires { from ≤ to }
    ensures { IfOk result (λ yes. MatchBool yes (Stays (tsdus_of heard.now) from standing.now (to - from))
        (Stays (tsdus_of heard.now) from standing.now (to - from) → ⊥)) }
{
    'tsdus: for number in from..to {
        if !is_still(alloc, standing, heard.tsdu(number))? {
            return Ok(false);
        }
    }
    Ok(true)
}

impl Goal<'_> {
    /// Whether the session after the unit remains as it is while it takes the TSDUs from this one on: it waits for the answer to
    /// its restart.
    #[tactic(auto, using(crate::proofs::a_session_that_goes_on_is_found::waits_none, crate::proofs::a_session_that_goes_on_is_found::waits_not, crate::proofs::a_session_that_goes_on_is_found::waits_as))]
    fn waits_from(&self, alloc: Global, taken: usize) -> Result<bool, AllocError>
        requires { taken ≤ self.now.after.now.taken }
        ensures { IfOk result (λ yes. MatchBool yes (Waits self.now taken) (Waits self.now taken → ⊥)) }
    {
        if taken == self.after.taken {
            return Ok(true);
        }
        if !is_restart_unit(self.unit) {
            return Ok(false);
        }
        stays(
            alloc,
            self.heard,
            &self.after.standing,
            taken,
            self.after.taken,
        )
    }

    /// The session sends the unit in this state, after so many TSDUs, and is then the one after it.
    #[tactic(auto, using(crate::proofs::a_session_that_goes_on_is_found::said_here, crate::proofs::a_session_that_goes_on_is_found::not_said, crate::proofs::a_session_that_goes_on_is_found::said_else, crate::proofs::a_session_that_goes_on_is_found::not_waiting))]
    fn said_at(
        &self,
        alloc: Global,
        standing: &Standing,
        taken: usize,
    ) -> Result<Option<Step>, AllocError>
        requires { taken ≤ self.now.after.now.taken }
        ensures some { IfOk result (λ step. IfSome step (SaysBy self.now taken standing.now)) }
        ensures none { IfOk result (λ step. IfNone step (SaysTo self.now taken standing.now → ⊥)) }
    {
        let Ok(said) = standing.say(self.unit, self.octets) else {
            return Ok(None);
        };
        if !said.is_same(&self.after.standing) {
            return Ok(None);
        }
        if !self.waits_from(alloc, taken)? {
            return Ok(None);
        }
        Ok(Some(Step {
            taken,
            is_answer: false,
            from: *standing,
            standing: said,
        }))
    }

    /// The unit is the answer to the last of so many TSDUs, and the session is then the one after it.
    #[tactic(auto, using(crate::proofs::a_session_that_goes_on_is_found::answers_it, crate::proofs::a_session_that_goes_on_is_found::not_answered))]
    fn answered(&self, reply: Reply, next: Standing, taken: usize) -> Option<Step>
        ensures some { IfSome result (AnswersBy self.now (reply_of reply) taken next) }
        ensures none { IfNone result (AnswersTo self.now (reply_of reply) taken next → ⊥) }
    {
        if taken != self.after.taken {
            return None;
        }
        if !reply.is_said_by(self.unit) {
            return None;
        }
        if !next.is_same(&self.after.standing) {
            return None;
        }
        Some(Step {
            taken,
            is_answer: true,
            from: next,
            standing: next,
        })
    }

    /// How a session goes on to the unit, if it does.
    fn step_from(&self, alloc: Global, from: &Member) -> Result<Option<Step>, AllocError>
        ensures some { IfOk result (λ step. IfSome step (Leading self.now from.now)) }
        ensures none { IfOk result (λ step. IfNone step (GoesTo self.now from.now.taken from.now.standing → ⊥)) }
    {
        if from.taken > self.after.taken {
            return Ok(None);
        }
        let mut standing = from.standing;
        'takes: for taken in from.taken..self.after.taken {
            if let Some(step) = self.said_at(alloc, &standing, taken)? {
                return Ok(Some(step));
            }
            let Some(taking) = standing.take(alloc, self.heard.tsdu(taken))? else {
                return Ok(None);
            };
            if let Some(reply) = taking.reply {
                return Ok(self.answered(reply, taking.next, taken + 1));
            }
            standing = taking.next;
        }
        self.said_at(alloc, &standing, self.after.taken)
    }

    /// The same step after one TSDU more; none if the session can't take this TSDU before the unit, or is in another state then
    /// than if it takes it after the unit.
    fn later(&self, alloc: Global, step: &Step) -> Result<Option<Step>, AllocError>
        requires { step.now.taken < self.now.before }
        ensures { IfOk result (λ later. IfSome later (IsNext self.now step.now)) }
    {
        let tsdu = self.heard.tsdu(step.taken);
        let Some(from) = hears(alloc, &step.from, tsdu)? else {
            return Ok(None);
        };
        let Some(standing) = hears(alloc, &step.standing, tsdu)? else {
            return Ok(None);
        };
        let Ok(said) = from.say(self.unit, self.octets) else {
            return Ok(None);
        };
        if !said.is_same(&standing) {
            return Ok(None);
        }
        Ok(Some(Step {
            taken: step.taken + 1,
            is_answer: false,
            from,
            standing: said,
        }))
    }

    /// The same step after as many TSDUs more as it can take, up to so many in all. An answer stays where it is.
    fn latest(&self, alloc: Global, step: Step, most: usize) -> Result<Step, AllocError>
        ensures { IfOk result (IsLatest self.now most step) }
    {
        let mut last = step;
        if step.is_answer {
            return Ok(last);
        }
        let top = most.min(self.before);
        'takes: while last.taken < top {
            match self.later(alloc, &last)? {
                Some(later) => last = later,
                None => return Ok(last),
            }
        }
        Ok(last)
    }

    /// The first of these sessions that goes on to the unit, and how.
    fn first_step(
        &self,
        alloc: Global,
        members: &[Member],
    ) -> Result<Option<(Member, Step)>, AllocError>
        ensures some { IfOk result (λ step. IfSome step (λ s. IsAmong s.0 members.now × Leading self.now s.0 s.1)) }
        ensures none { IfOk result (λ step. IfNone step ((x : Member) → IsAmong x members.now
            → GoesTo self.now x.taken x.standing → ⊥)) }
    {
        'members: for member in members {
            if let Some(step) = self.step_from(alloc, member)? {
                return Ok(Some((*member, step)));
            }
        }
        Ok(None)
    }
}

/// Of the sessions that are kept before this unit one that goes on to it and to the session after it, and how. It sends the unit as
/// early as it can, or later, if it is in the same state then: after up to so many TSDUs of the other side.
fn step_back(
    alloc: Global,
    own: &Stream,
    heard: &Stream,
    kept: &Kept,
    members: &[Member],
    after: &Member,
    most: usize,
) -> Result<Option<(Member, Said)>, AllocError>
    ensures some { IfOk result (λ step. IfSome step (λ s. IsAmong s.0 members.now
        × StepsTo (tsdus_of own.now) (tsdus_of heard.now) most kept.now s.0 s.1 after.now)) }
    ensures none { IfOk result (λ step. IfNone step (after.now.taken ≤ kept.now.before
        → ComesFrom (tsdus_of heard.now) (remark_of (tsdus_of own.now) kept.now) members.now after.now → ⊥)) }
{
    if after.taken > kept.before {
        return Ok(None);
    }
    let tsdu = own.tsdu(kept.tsdu);
    let Some(unit) = acting_unit(tsdu, kept.place) else {
        return Ok(None);
    };
    let goal = Goal {
        unit: &unit,
        octets: tsdu.len(),
        before: kept.before,
        after,
        heard,
    };
    let Some((before, step)) = goal.first_step(alloc, members)? else {
        return Ok(None);
    };
    let latest = goal.latest(alloc, step, most)?;
    let said = Said {
        tsdu: kept.tsdu,
        place: kept.place,
        taken: latest.taken,
        is_answer: latest.is_answer,
        standing: latest.standing,
    };
    Ok(Some((before, said)))
}

/// How many TSDUs of the other side a session took at most before the unit that it sent before this one.
fn most_before(said: &Said) -> usize
    ensures { result ≡ last_before said.now }
{
    if said.is_answer {
        said.taken.saturating_sub(1)
    } else {
        said.taken
    }
}

/// A run of a session that sends what a side sent, up to its limit: that of the first session that is kept at its end; and the session
/// with which it begins. If it is late, the session takes what it can before it sends a unit, and otherwise it takes as little as it
/// can. None if a session has none before it, which doesn't happen.
fn run_of(
    alloc: Global,
    own: &Stream,
    heard: &Stream,
    is_late: bool,
) -> Result<Option<(Member, Vec<Said>)>, AllocError>
    ensures runs { IfOk result (λ run. IfSome run (λ r. IsAmong r.0 own.now.begin.items
        × Runs (tsdus_of own.now) (tsdus_of heard.now) own.now.kept.items r.1.items r.0.taken r.0.standing)) }
    ensures found { IfOk result (λ run. IfNone run ((begin : Seen) → IsFollowed own.now heard.now begin → ⊥)) }
{
    let kept = own.kept();
    let Some(last) = own.kept_before(kept.len()).first() else {
        return Ok(None);
    };
    let mut after = *last;
    let mut most = if is_late { usize::MAX } else { 0 };
    let mut said: Vec<Said> = Vec::new(alloc);
    let mut number = kept.len();
    'units: while number > 0 {
        number -= 1;
        let unit = &kept[number];
        let Some((before, step)) = step_back(
            alloc,
            own,
            heard,
            unit,
            own.kept_before(number),
            &after,
            most,
        )?
        else {
            return Ok(None);
        };
        most = most.min(most_before(&step));
        said.push(step)?;
        after = before;
    }
    said.reverse();
    Ok(Some((after, said)))
}

/// The same run, if it begins with a session in this state that has taken nothing. There is always one where the sessions that are
/// kept of the side lead back to this state.
pub(crate) fn run_from(
    alloc: Global,
    own: &Stream,
    heard: &Stream,
    begin: Standing,
    is_late: bool,
) -> Result<Option<Vec<Said>>, AllocError>
    ensures runs { IfOk result (λ run. IfSome run (λ said.
        Runs (tsdus_of own.now) (tsdus_of heard.now) own.now.kept.items said.items 0 begin)) }
    ensures found { IfOk result (λ run. IfNone run (IsFollowed own.now heard.now begin → ⊥)) }
{
    let Some((first, said)) = run_of(alloc, own, heard, is_late)? else {
        return Ok(None);
    };
    if first.taken > 0 {
        return Ok(None);
    }
    if !first.standing.is_same(&begin) {
        return Ok(None);
    }
    Ok(Some(said))
}
