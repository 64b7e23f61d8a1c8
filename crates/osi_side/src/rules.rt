//! Which session came nearest to what its side sent, and why it may not send it.

ghost use Rattle.std.specs.Prelude.{◌≡◌, ◌≤◌, IfOk, List, length};
ghost use Rattle.std.specs.List.{fold};
ghost use Rattle.osi_spdu.specs.Groups.{units_of};
ghost use Rattle.osi_spdu.specs.Units.{said_by};
ghost use Rattle.osi_side.specs.declared.members.Member.{Member};
ghost use Rattle.osi_side.specs.Breaking.{LeavesBehind, BreaksIn, BreaksAt, in_effect, selection_of};
ghost use Rattle.osi_side.specs.Nearest.{call_place, place, is_nearer, a_unit, unsaid, kind_in, rule_for, tried, reached, far, nearest};
ghost use Rattle.osi_side.specs.Nearest.{break_of, told_of};

use crate::heard::Heard;
use crate::left_out::is_unit_left_out;
use crate::members::{Member, none_is_left};
use crate::standings::{Turn, first_of, foremost, is_before, take_next};
use crate::telling::behind_unit;
use osi_message::Message;
use osi_session::{Breach, CallError, Standing};
use osi_spdu::{Group, Kind, Spdu, SpduFault, read_group};
use std::alloc::{AllocError, Global};

/// Why a side may not send what it sent (X.225 sections 7 and 8).
#[derive(Clone, Copy, PartialEq, Eq)]
pub enum Rule {
    /// No session in this state sends the unit.
    Breach(Breach),
    /// The TSDU is not session units.
    Fault(SpduFault),
}

/// A break of the protocol: what the side sent, the rule that forbids it, and the session that came nearest to it.
#[derive(Clone, Copy)]
pub struct Break {
    /// The unit; `None` if the TSDU is not session units.
    pub said: Option<Kind>,
    /// Why no session may send it: the rule for the session that came nearest.
    pub rule: Rule,
    /// How many TSDUs of the other side had passed before it.
    pub before: usize,
    /// How many of them that session had taken.
    pub taken: usize,
    /// The state of that session.
    pub standing: Standing,
}

impl Break {
    /// Nothing was sent yet.
    pub(crate) fn none(standing: Standing) -> Break {
        Break {
            said: None,
            rule: Rule::Breach(Breach::Call(CallError::NoSuchConnection)),
            before: 0,
            taken: 0,
            standing,
        }
    }
}

/// The rule that is told of a unit which breaks this one in this state: what X.225 allows there leaves the profile.
#[tactic(auto, using(crate::proofs::told::a_rule_is_told_of_the_message::told_word))]
fn told_of(standing: &Standing, unit: &Spdu, breach: Breach) -> Breach
    ensures { result ≡ told_of standing.now (said_by unit.now) breach }
{
    if is_unit_left_out(standing, &Message::of(unit), breach) {
        return Breach::Outside;
    }
    breach
}

/// What no session sends: a unit of a TSDU of this many octets, or a TSDU that is not session units.
#[derive(Clone, Copy)]
enum Question<'a> {
    Unit(Spdu<'a>, usize),
    Fault(SpduFault),
}

impl Question<'_> {
    /// Which unit it is.
    fn said(&self) -> Option<Kind>
        ensures { result ≡ kind_in (unsaid self.now) }
    {
        match self {
            Question::Unit(unit, _) => Some(unit.kind()),
            Question::Fault(_) => None,
        }
    }

    /// Why a session in this state does not send it; `None` if it does.
    fn refused_by(&self, standing: &Standing) -> Option<Rule>
        ensures { result ≡ rule_for (unsaid self.now) standing.now }
    {
        match self {
            Question::Unit(unit, octets) => match standing.say(unit, *octets) {
                Ok(_) => None,
                Err(breach) => Some(Rule::Breach(told_of(standing, unit, breach))),
            },
            Question::Fault(fault) => Some(Rule::Fault(*fault)),
        }
    }
}

/// A session that does not send what its side sent, and why.
#[derive(Clone, Copy)]
struct Near {
    at: Member,
    rule: Rule,
}

/// The place of a rule in the order in which the rules are tested.
fn place(rule: Rule) -> u8
    ensures { result ≡ place rule }
{
    match rule {
        Rule::Breach(Breach::Call(error)) => place_of_call(error),
        Rule::Breach(Breach::NothingToAnswer) => 12,
        Rule::Breach(Breach::NoFault) => 13,
        Rule::Breach(Breach::BadTokens) => 14,
        Rule::Breach(Breach::BadEnclosure) => 15,
        Rule::Breach(Breach::Outside) => 16,
        Rule::Fault(_) => 17,
    }
}

fn place_of_call(error: CallError) -> u8
    ensures { result ≡ call_place error }
{
    match error {
        CallError::NoSuchConnection => 0,
        CallError::Ended => 1,
        CallError::BadState => 2,
        CallError::NotSelected => 3,
        CallError::TokenNotHeld => 4,
        CallError::TokenAlreadyHeld => 5,
        CallError::BadNumber => 6,
        CallError::SerialsUsedUp => 7,
        CallError::Empty => 8,
        CallError::TooLong => 9,
        CallError::OutOfMemory => 10,
    }
}

/// Whether one session came nearer than the other: it fails at a later rule, or at the same rule and is before the
/// other.
fn is_nearer(one: &Near, other: &Near) -> bool
    ensures { result ≡ is_nearer one.now other.now }
{
    let (here, there) = (place(one.rule), place(other.rule));
    if here != there {
        return here > there;
    }
    is_before(&one.at, &other.at)
}

/// The nearer of two sessions; the first if neither is nearer, and if the member sends what is asked.
fn nearer(question: &Question, best: Near, at: Member) -> Near
    ensures { result ≡ tried (unsaid question.now) best at }
{
    let Some(rule) = question.refused_by(&at.standing) else {
        return best;
    };
    let other = Near { at, rule };
    if is_nearer(&other, &best) {
        other
    } else {
        best
    }
}

/// The distance before any session was tried.
fn far(members: &[Member]) -> Near
    ensures { result ≡ far members.now }
{
    Near {
        at: first_of(members),
        rule: Rule::Breach(Breach::Call(CallError::NoSuchConnection)),
    }
}

/// The nearest of the sessions that one member becomes as it takes TSDUs, and of those before.
fn nearest_on(
    alloc: Global,
    heard: &Heard,
    question: &Question,
    before: usize,
    member: Member,
    best: &Near,
) -> Result<Near, AllocError>
    requires { before ≤ length heard.now }
    ensures { IfOk result (λ found. found ≡ fold (tried (unsaid question.now)) best.now (reached heard.now before member)) }
{
    let mut at = member;
    let mut found = *best;
    'takes: while at.taken < before {
        found = nearer(question, found, at);
        match take_next(alloc, heard, &at)? {
            Turn::Goes(next) => at = next,
            Turn::Stops(_) => return Ok(found),
        }
    }
    Ok(nearer(question, found, at))
}

/// The nearest of the sessions that these members become as they take TSDUs.
fn nearest(
    alloc: Global,
    heard: &Heard,
    question: &Question,
    before: usize,
    members: &[Member],
) -> Result<Break, AllocError>
    requires { before ≤ length heard.now }
    ensures { IfOk result (λ by. by ≡ break_of (unsaid question.now) heard.now before members.now) }
{
    let mut best = far(members);
    'members: for member in members {
        best = nearest_on(alloc, heard, question, before, *member, &best)?;
    }
    Ok(Break {
        said: question.said(),
        rule: best.rule,
        before,
        taken: best.at.taken,
        standing: best.at.standing,
    })
}

/// What is left after a unit: members, or a break.
enum Behind {
    Members(Vec<Member>),
    Break(Break),
}

fn behind_or_break(
    alloc: Global,
    heard: &Heard,
    unit: &Spdu,
    octets: usize,
    before: usize,
    members: &[Member],
) -> Result<Behind, AllocError>
    requires { before ≤ length heard.now }
    ensures { IfOk result (λ b. LeavesBehind heard.now octets before members.now (said_by unit.now) b) }
{
    let next = behind_unit(alloc, heard, unit, octets, before, members)?;
    if !none_is_left(next.as_slice()) {
        return Ok(Behind::Members(next));
    }
    let question = Question::Unit(*unit, octets);
    let found = nearest(alloc, heard, &question, before, members)?;
    Ok(Behind::Break(found))
}

/// The break at the first unit that no session sends, in the order in which units take effect.
fn break_in(
    alloc: Global,
    heard: &Heard,
    group: &Group,
    octets: usize,
    before: usize,
    members: &[Member],
) -> Result<Break, AllocError>
    requires { before ≤ length heard.now }
    ensures { IfOk result (λ by. (at : List Member) × BreaksIn heard.now octets before members.now (in_effect (units_of group.now)) at by) }
{
    let first = *group.first();
    let mut behind = group.behind();
    let mut now = Vec::from_slice(alloc, members)?;
    'units: while let Some(unit) = behind.next() {
        match behind_or_break(alloc, heard, &unit, octets, before, &now)? {
            Behind::Members(next) => now = next,
            Behind::Break(found) => return Ok(found),
        }
    }
    let question = Question::Unit(first, octets);
    nearest(alloc, heard, &question, before, &now)
}

/// The break at a TSDU that is sent by no session that explains what the side sent before.
pub(crate) fn break_at(
    alloc: Global,
    heard: &Heard,
    tsdu: &[u8],
    before: usize,
    members: &[Member],
) -> Result<Break, AllocError>
    requires { before ≤ length heard.now }
    ensures { IfOk result (λ by. BreaksAt heard.now tsdu.now before members.now by) }
{
    let read = read_group(tsdu);
    match &read {
        Ok(group) => break_in(alloc, heard, group, tsdu.len(), before, members),
        Err(fault) => nearest(alloc, heard, &Question::Fault(*fault), before, members),
    }
}

/// The break of an AC whose selection is outside of the profile, by the foremost of these members.
pub(crate) fn selection_at(before: usize, members: &[Member]) -> Break
    ensures { result ≡ selection_of before members.now }
{
    let at = foremost(members);
    Break {
        said: Some(Kind::Accept),
        rule: Rule::Breach(Breach::Outside),
        before,
        taken: at.taken,
        standing: at.standing,
    }
}
