//! A session sends a steady unit at the first point at which it may.

ghost use Rattle.std.specs.Prelude.{◌≡◌, ◌<◌, ◌≤◌, ◌+◌, ◌↔◌, ◌∷◌, IfOk, [], get_or, length, true};
ghost use Rattle.osi_message.specs.Reading.{word};
ghost use Rattle.osi_session.specs.Steady.{is_steady};
ghost use Rattle.osi_spdu.specs.Units.{said_by};
ghost use Rattle.osi_side.specs.Explaining.{Explains};
ghost use Rattle.osi_side.specs.Kept.{sends, quietly, StepsAs, first_sender};
ghost use Rattle.osi_side.specs.Nearest.{next_of, reached};
ghost use Rattle.osi_side.specs.Walking.{the_remark, SaysTo, HearsTo, MovesTo, StepsTo, IsNext, OneExplains, Ever};

use crate::heard::Heard;
use crate::members::Member;
use osi_session::Standing;
use osi_spdu::Spdu;
use std::alloc::{AllocError, Global};

/// The octets of one of these TSDUs.
pub(crate) fn tsdu_at(heard: &Heard, place: usize) -> &[u8]
    requires { place < length heard.now }
    ensures octets { result.now ≡ get_or heard.now place [] }
    ensures counted { place + 1 < 18446744073709551616 }
{
    // Named so that the proof sees that TSDUs are counted.
    let _count = heard.len();
    heard.at(place)
}

/// The state of a session after it took this TSDU and sent nothing; `None` if it answers it, or takes nothing.
pub(crate) fn hears(
    alloc: Global,
    standing: Standing,
    tsdu: &[u8],
) -> Result<Option<Standing>, AllocError>
    ensures hears { IfOk result (λ t. HearsTo standing tsdu.now t) }
    ensures value { IfOk result (λ t. t ≡ quietly standing tsdu.now) }
{
    let Some(taking) = standing.take(alloc, tsdu)? else {
        return Ok(None);
    };
    match taking.reply {
        None => Ok(Some(taking.next)),
        Some(_) => Ok(None),
    }
}

/// The member after it took the next TSDU and sent nothing, if it can.
pub(crate) fn moves(alloc: Global, heard: &Heard, at: &Member) -> Result<Option<Member>, AllocError>
    requires { at.now.taken < length heard.now }
    ensures moves { IfOk result (λ r. MovesTo heard.now at.now r) }
    ensures value { IfOk result (λ r. r ≡ next_of heard.now at.now) }
{
    let tsdu = tsdu_at(heard, at.taken);
    match hears(alloc, at.standing, tsdu)? {
        Some(standing) => Ok(Some(Member {
            taken: at.taken + 1,
            standing,
        })),
        None => Ok(None),
    }
}

/// The member after it sent the unit now, if it may.
pub(crate) fn says(unit: &Spdu, octets: usize, at: &Member) -> Option<Member>
    ensures says { SaysTo at.now (word (said_by unit.now)) octets result }
    ensures value { result ≡ sends (word (said_by unit.now)) octets at.now }
{
    match at.standing.say(unit, octets) {
        Ok(standing) => Some(Member {
            taken: at.taken,
            standing,
        }),
        Err(_) => None,
    }
}

/// What a session does on the way to the first point at which it may send a unit.
#[derive(Clone, Copy)]
pub(crate) enum Step {
    /// It sends the unit, and is then this member.
    Said(Member),
    /// It takes the next TSDU, and is then this member.
    On(Member),
    /// It can do neither.
    Stuck,
}

/// The next step of a session that has not taken all TSDUs.
fn next_step(
    alloc: Global,
    heard: &Heard,
    unit: &Spdu,
    octets: usize,
    at: &Member,
) -> Result<Step, AllocError>
    requires { at.now.taken < length heard.now }
    ensures does { IfOk result (λ s. StepsTo heard.now (word (said_by unit.now)) octets at.now s) }
    ensures moved { IfOk result (λ s. IsNext at.now s) }
    ensures value { IfOk result (λ s. StepsAs heard.now (word (said_by unit.now)) octets at.now s) }
{
    if let Some(said) = says(unit, octets, at) {
        return Ok(Step::Said(said));
    }
    match moves(alloc, heard, at)? {
        Some(on) => Ok(Step::On(on)),
        None => Ok(Step::Stuck),
    }
}

/// The member after a steady unit of a TSDU of this many octets; `before` TSDUs of the other side had passed before
/// it. It explains exactly what this member explains with the unit first. `None` if this member can't explain the
/// unit.
pub(crate) fn first_place(
    alloc: Global,
    heard: &Heard,
    unit: &Spdu,
    octets: usize,
    before: usize,
    member: Member,
) -> Result<Option<Member>, AllocError>
    requires passed { before ≤ length heard.now }
    requires steady { is_steady (word (said_by unit.now)) ≡ true }
    ensures explains { IfOk result (λ r. Ever heard.now before (λ us later.
        Explains us (the_remark (word (said_by unit.now)) octets before ∷ later) member.taken member.standing ↔ OneExplains us later r)) }
    ensures value { IfOk result (λ r. r ≡ first_sender (word (said_by unit.now)) octets (reached heard.now before member)) }
{
    let mut at = member;
    'takes: while at.taken < before {
        let next = next_step(alloc, heard, unit, octets, &at)?;
        match next {
            Step::On(on) => at = on,
            Step::Said(said) => return Ok(Some(said)),
            Step::Stuck => return Ok(None),
        }
    }
    let last = says(unit, octets, &at);
    Ok(last)
}
