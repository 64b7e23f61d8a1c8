//! TSDUs that are read straight, of a side that one session explains: data, and a minor point or its confirmation without user
//! data. No other units are read, no list of sessions is walked, and the general walk gives the same.

ghost use Rattle.std.specs.Prelude.{◌≡◌, ◌≤◌, ◌↔◌, ◌∷◌, ◌++◌, [], true, false, IfOk, IfSome, length};
ghost use Rattle.osi_message.specs.Meanings.{DT, GT, MIA, MIP};
ghost use Rattle.osi_message.specs.Reading.{word};
ghost use Rattle.osi_message.specs.Tokens.{no_token};
ghost use Rattle.osi_message.specs.Words.{says};
ghost use Rattle.osi_session.specs.Joining.{is_restart_word};
ghost use Rattle.osi_session.specs.Steady.{is_steady};
ghost use Rattle.osi_spdu.specs.Units.{said_by};
ghost use Rattle.osi_side.specs.Explaining.{Explains, remarks_of};
ghost use Rattle.osi_side.specs.Kept.{after_tsdu, after_word, listed};
ghost use Rattle.osi_side.specs.Members.{SomeExplains};
ghost use Rattle.osi_side.specs.Straight.{IsStraight};
ghost use Rattle.osi_side.specs.Walking.{the_remark, Ever, OneExplains};

use crate::first_places::first_place;
use crate::heard::Heard;
use crate::members::Member;
use osi_message::PlainUnit;
use osi_spdu::{Serial, Spdu};
use std::alloc::{AllocError, Global};

/// The unit of data.
fn data_unit(user_data: &[u8]) -> Spdu<'_>
    ensures { word (said_by result) ≡ says (DT user_data.now) }
{
    Spdu::data_transfer(user_data)
}

/// The unit of a minor point that asks for its confirmation.
fn point_unit<'a>(number: Serial) -> Spdu<'a>
    ensures { word (said_by result) ≡ says (MIP true number.number []) }
{
    osi_spdu::laws::serial_digits();
    Spdu::minor_point(None, number, &[])
}

/// The unit of the confirmation of a minor point.
fn ack_unit<'a>(number: Serial) -> Spdu<'a>
    ensures { word (said_by result) ≡ says (MIA number.number []) }
{
    osi_spdu::laws::serial_digits();
    Spdu::minor_ack(number, &[])
}

/// A token item that names no token.
fn no_item<'a>() -> Spdu<'a>
    ensures { word (said_by result) ≡ says (GT no_token) }
{
    Spdu::give_tokens(None)
}

/// The unit after a token item that names no token, if a TSDU is the written form of data, of a minor point or of its
/// confirmation.
fn straight_unit(tsdu: &[u8]) -> Option<Spdu<'_>>
    ensures { IfSome result (λ u. IsStraight tsdu.now (word (said_by u))) }
{
    if let Some(user_data) = PlainUnit::data(tsdu) {
        return Some(data_unit(user_data));
    }
    match PlainUnit::read(tsdu)? {
        PlainUnit::MinorPoint { number } => Some(point_unit(number)),
        PlainUnit::MinorAck { number } => Some(ack_unit(number)),
        PlainUnit::Part { .. } => None,
    }
}

/// The member after a unit of a TSDU of this many octets, and after a token item that names no token.
fn behind_both(
    alloc: Global,
    heard: &Heard,
    unit: &Spdu,
    octets: usize,
    before: usize,
    member: Member,
) -> Result<Option<Member>, AllocError>
    requires passed { before ≤ length heard.now }
    requires steady { is_steady (word (said_by unit.now)) ≡ true }
    requires other { is_restart_word (word (said_by unit.now)) ≡ false }
    ensures explains { IfOk result (λ r. Ever heard.now before (λ us later.
        Explains us (the_remark (word (said_by unit.now)) octets before ∷ the_remark (says (GT no_token)) octets before ∷ later)
        member.taken member.standing ↔ OneExplains us later r)) }
    ensures value { IfOk result (λ r. listed r ≡ after_word heard.now octets before
        (after_word heard.now octets before (member ∷ []) (word (said_by unit.now))) (says (GT no_token))) }
{
    let Some(said) = first_place(alloc, heard, unit, octets, before, member)? else {
        return Ok(None);
    };
    let item = no_item();
    first_place(alloc, heard, &item, octets, before, said)
}

/// The member alone, or none.
fn listed(alloc: Global, place: Option<Member>) -> Result<Vec<Member>, AllocError>
    ensures { IfOk result (λ members. members.items ≡ listed place) }
{
    let mut members = Vec::new(alloc);
    if let Some(member) = place {
        members.push(member)?;
    }
    Ok(members)
}

/// The only one of these members, if there is no other.
fn only(members: &[Member]) -> Option<Member>
    ensures { IfSome result (λ m. members.now ≡ m ∷ []) }
{
    match members {
        [member] => Some(*member),
        _ => None,
    }
}

/// The members after a TSDU that is read straight, if there is only one before it.
pub(crate) fn behind_straight(
    alloc: Global,
    heard: &Heard,
    tsdu: &[u8],
    before: usize,
    members: &[Member],
) -> Result<Option<Vec<Member>>, AllocError>
    requires { before ≤ length heard.now }
    ensures explains { IfOk result (λ r. IfSome r (λ next. Ever heard.now before (λ us later.
        SomeExplains us members.now (remarks_of (record { octets = tsdu.now; before = before }) ++ later) ↔ SomeExplains us
        next.items later))) }
    ensures value { IfOk result (λ r. IfSome r (λ next. next.items
        ≡ after_tsdu heard.now members.now (record { octets = tsdu.now; before = before }))) }
{
    let Some(member) = only(members) else {
        return Ok(None);
    };
    let Some(unit) = straight_unit(tsdu) else {
        return Ok(None);
    };
    let place = behind_both(alloc, heard, &unit, tsdu.len(), before, member)?;
    let next = listed(alloc, place)?;
    Ok(Some(next))
}
