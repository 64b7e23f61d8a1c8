//! Members: the sessions that still explain what a side sent.

ghost use Rattle.std.specs.Prelude.{◌≡◌, ◌↔◌, ◌⊎◌, ◌-◌, true, IfOk, OnOk, List, ℕ, drop, length};
ghost use Rattle.osi_side.specs.Explaining.{Remark, Explains};
ghost use Rattle.osi_side.specs.Judging.{is_empty};
ghost use Rattle.osi_side.specs.Kept.{same_member, is_among, added};
ghost use Rattle.osi_side.specs.Members.{SomeExplains};

use osi_session::Standing;
use std::alloc::AllocError;

/// A session that explains what the side sent so far, and how many TSDUs of the other side it has taken.
#[derive(Clone, Copy)]
pub struct Member {
    /// How many TSDUs of the other side it has taken.
    pub taken: usize,
    /// Its state.
    pub standing: Standing,
}

/// How many of the last members are searched for one that is there already. Equal ones stand near each
/// other: members come in the order in which they took the TSDUs.
const NEAR: usize = 256;

/// Whether two members are one. Most of those at one place differ in V(A), so that is looked at first.
fn is_same_member(one: &Member, other: &Member) -> bool
    ensures same { result ≡ true → (one.now.taken ≡ other.now.taken) × (one.now.standing ≡ other.now.standing) }
    ensures value { result ≡ same_member one.now other.now }
{
    if one.taken != other.taken {
        return false;
    }
    if one.standing.numbers().confirmed != other.standing.numbers().confirmed {
        return false;
    }
    one.standing.is_same(&other.standing)
}

/// Whether it is one of the last of these.
fn is_among(members: &[Member], member: &Member) -> bool
    ensures explained { (us : List (List ℕ)) (later : List Remark) → result ≡ true
        → Explains us later member.now.taken member.now.standing → SomeExplains us members.now later }
    ensures value { result ≡ is_among member.now (drop (length members.now - 256) members.now) }
{
    let first = members.len().saturating_sub(NEAR);
    let mut at = members.len();
    'members: while first < at {
        at -= 1;
        if is_same_member(&members[at], member) {
            return true;
        }
    }
    false
}

/// Adds one, unless it is there already, among the last.
pub(crate) fn add(members: &mut Vec<Member>, member: Member) -> Result<(), AllocError>
    ensures explained { OnOk result ((us : List (List ℕ)) (later : List Remark) →
        (SomeExplains us members.old.items later ⊎ Explains us later member.taken member.standing) ↔ SomeExplains us
        members.new.items later) }
    ensures value { OnOk result (members.new.items ≡ added members.old.items member) }
{
    if is_among(members, &member) {
        return Ok(());
    }
    members.push(member)?;
    Ok(())
}

/// Whether the list is empty.
#[tactic(auto, using(crate::proofs::told::what_is_known_of_a_side::empty_is))]
pub(crate) fn none_is_left(members: &[Member]) -> bool
    ensures { result ≡ is_empty members.now }
{
    members.is_empty()
}
