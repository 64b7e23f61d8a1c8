//! The state of a side that kept the protocol.

ghost use Rattle.std.specs.Prelude.{◌≡◌, ◌<◌, ◌⊎◌, true, false, length, IfOk, IfSome};
ghost use Rattle.osi_side.specs.Foremost.{is_ahead, is_before, before_of, first_of, foremost};
ghost use Rattle.osi_side.specs.Judging.{is_empty};
ghost use Rattle.osi_side.specs.Onward.{IsAmong, GoesOn, Quietly, StandsBehind};
ghost use Rattle.osi_side.specs.Still.{LeavesAsItIs};

use crate::first_places::tsdu_at;
use crate::heard::Heard;
use crate::members::Member;
use osi_session::{Reply, Standing};
use std::alloc::{AllocError, Global};

/// The state of a side, by a session that explains all that it sent and took what it could: all that passed, or up to
/// the first TSDU that it has still to answer.
#[derive(Clone, Copy)]
pub struct Stands {
    /// How many TSDUs of the other side it has taken.
    pub taken: usize,
    /// Its state.
    pub standing: Standing,
    /// The answer that it owes to the next TSDU, if it takes that.
    pub owes: Option<Reply>,
}

/// Whether a session comes before another that has taken as many TSDUs: by the higher V(A), then by the answer flag.
fn is_ahead(one: &Standing, other: &Standing) -> bool
    ensures { result ≡ is_ahead one.now other.now }
{
    let one = one.numbers();
    let other = other.numbers();
    if one.confirmed != other.confirmed {
        return one.confirmed > other.confirmed;
    }
    one.answers && !other.answers
}

/// Whether a member comes before another: it has taken more TSDUs, or as many and is ahead.
pub(crate) fn is_before(one: &Member, other: &Member) -> bool
    ensures { result ≡ is_before one.now other.now }
{
    if one.taken != other.taken {
        return one.taken > other.taken;
    }
    is_ahead(&one.standing, &other.standing)
}

/// The member that comes before all others: it has taken most, and of these it has the highest V(A), then
/// the flag on.
#[tactic(auto, unfolding(crate::specs::Foremost::foremost))]
pub(crate) fn foremost(members: &[Member]) -> Member
    ensures value { result ≡ foremost members.now }
    ensures among { is_empty members.now ≡ false → IsAmong result members.now }
{
    let mut best = first_of(members);
    'members: for member in members {
        best = before_of(best, member);
    }
    best
}

/// The one of two members that comes before the other; the first where neither does.
fn before_of(best: Member, member: &Member) -> Member
    ensures value { result ≡ before_of best member.now }
    ensures either { (result ≡ best) ⊎ (result ≡ member.now) }
{
    if is_before(member, &best) {
        return *member;
    }
    best
}

/// The first member; where there is none, a session that has just begun.
pub(crate) fn first_of(members: &[Member]) -> Member
    ensures value { result ≡ first_of members.now }
    ensures among { is_empty members.now ≡ false → IsAmong result members.now }
{
    match members.first() {
        Some(member) => *member,
        None => Member {
            taken: 0,
            standing: Standing::called(),
        },
    }
}

/// One more TSDU for a session: its state afterwards, or that it stops before it.
pub(crate) enum Turn {
    Goes(Member),
    Stops(Option<Reply>),
}

pub(crate) fn take_next(alloc: Global, heard: &Heard, at: &Member) -> Result<Turn, AllocError>
    requires { at.now.taken < length heard.now }
    ensures { IfOk result (λ turn. GoesOn heard.now at.now turn) }
{
    let tsdu = tsdu_at(heard, at.taken);
    let Some(taking) = at.standing.take(alloc, tsdu)? else {
        return Ok(Turn::Stops(None));
    };
    if taking.reply.is_some() {
        return Ok(Turn::Stops(taking.reply));
    }
    Ok(Turn::Goes(Member {
        taken: at.taken + 1,
        standing: taking.next,
    }))
}

/// Whether two TSDUs are the same.
fn is_same_tsdu(one: &[u8], other: &[u8]) -> bool
    ensures { result ≡ true → one.now ≡ other.now }
{
    one == other
}

/// A member after its next TSDU, if that is the same as one that left it as it is.
fn remains(heard: &Heard, at: &Member, still: Option<usize>) -> Option<Member>
    requires taken { at.now.taken < length heard.now }
    requires still { IfSome still (λ place. LeavesAsItIs heard.now place at.now.standing) }
    ensures { IfSome result (λ next. Quietly heard.now at.now next × (next.standing ≡ at.now.standing)) }
{
    let place = still?;
    let before = tsdu_at(heard, place);
    let tsdu = tsdu_at(heard, at.taken);
    if !is_same_tsdu(before, tsdu) {
        return None;
    }
    Some(Member {
        taken: at.taken + 1,
        standing: at.standing,
    })
}

/// The place of the TSDU that a member took, if that left it as it was.
fn still_at(at: &Member, next: &Member) -> Option<usize>
    ensures { IfSome result (λ place. (place ≡ at.now.taken) × (next.now.standing ≡ at.now.standing)) }
{
    if !next.standing.is_same(&at.standing) {
        return None;
    }
    Some(at.taken)
}

/// The state of a member after all TSDUs that passed. One that is the same as the last one that left it as it is isn't read.
pub(crate) fn stands_behind(
    alloc: Global,
    heard: &Heard,
    member: Member,
) -> Result<Stands, AllocError>
    ensures { IfOk result (λ stands. StandsBehind heard.now member stands) }
{
    let mut at = member;
    let mut still = None;
    'takes: while at.taken < heard.len() {
        if let Some(next) = remains(heard, &at, still) {
            at = next;
            continue;
        }
        match take_next(alloc, heard, &at)? {
            Turn::Goes(next) => {
                still = still_at(&at, &next);
                at = next;
            }
            Turn::Stops(owes) => return Ok(stands_at(at, owes)),
        }
    }
    Ok(stands_at(at, None))
}

fn stands_at(at: Member, owes: Option<Reply>) -> Stands
    ensures { result ≡ record { taken = at.taken; standing = at.standing; owes = owes } }
{
    Stands {
        taken: at.taken,
        standing: at.standing,
        owes,
    }
}
