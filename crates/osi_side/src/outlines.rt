//! The outline of a TSDU: one without user data that has the same effect on every session.

ghost use Rattle.std.specs.Prelude.{◌≡◌, ◌<◌, ◌∷◌, ◌++◌, [], ℕ, List, Ok, Some, IfOk, IfSome, OnOk, OnErr, true, false, length, option_map};
ghost use Rattle.osi_message.specs.Meanings.{meant_by};
ghost use Rattle.osi_message.specs.Reading.{said_by_units, word};
ghost use Rattle.osi_message.specs.Words.{enclosure_of, part, part_octets, says};
ghost use Rattle.osi_message.specs.Written.{is_second, user_data_of, written};
ghost use Rattle.osi_session.specs.Respond.{has_no_effect};
ghost use Rattle.osi_spdu.specs.Groups.{units_of};
ghost use Rattle.osi_spdu.specs.Units.{said_by};
ghost use Rattle.osi_side.specs.Outlines.{bare, no_data, outline_as, outline_behind, outline_by, outline};

use crate::heard::Heard;
use osi_message::{Message, Octets, Place, PlainUnit, Sent, Tsdus, data_head};
use osi_spdu::{Group, Spdu, read_group};
use std::alloc::{AllocError, Global};

/// The code of an enclosure (X.225 section 8).
const ENCLOSURE: u8 = 0x19;

/// Whether a message is sent after a token item.
#[tactic(auto, unfolding(osi_message::specs::Written::is_second))]
fn is_second(message: &Message) -> bool
    ensures { result ≡ is_second (meant_by message.now) }
{
    matches!(
        message,
        Message::Data { .. }
            | Message::MinorPoint { .. }
            | Message::MinorAck { .. }
            | Message::MajorPoint { .. }
            | Message::MajorAck { .. }
            | Message::Restart { .. }
            | Message::RestartAck { .. }
    )
}

/// Whether it is a token item that names no token.
fn has_no_effect(message: &Message) -> bool
    ensures { result ≡ has_no_effect (meant_by message.now) }
{
    match message {
        Message::Give { tokens } => tokens.is_empty(),
        Message::Please { tokens, .. } => tokens.is_empty(),
        _ => false,
    }
}

/// Data, or a message about a point, without user data.
#[tactic(auto, unfolding(osi_message::specs::Written::is_second, osi_message::specs::Written::user_data_of))]
fn bare_second<'a>(message: &Message<'a>) -> Message<'a>
    requires { is_second (meant_by message.now) ≡ true }
    ensures value { Some (meant_by result) ≡ bare (meant_by message.now) }
    ensures short { user_data_of (meant_by result) ≡ [] }
{
    let user_data = &[];
    match *message {
        Message::Data { .. } => Message::Data { user_data },
        Message::MinorPoint {
            confirm,
            number,
            ..
        } => Message::MinorPoint {
            confirm,
            number,
            user_data,
        },
        Message::MinorAck { number, .. } => Message::MinorAck { number, user_data },
        Message::MajorPoint { number, .. } => Message::MajorPoint { number, user_data },
        Message::MajorAck { number, .. } => Message::MajorAck { number, user_data },
        Message::Restart {
            kind,
            number,
            wishes,
            ..
        } => Message::Restart {
            kind,
            number,
            wishes,
            user_data,
        },
        Message::RestartAck { number, sides, .. } => Message::RestartAck {
            number,
            sides,
            user_data,
        },
        _ => unreachable!(),
    }
}

/// Any other message without user data. `None` for a CN and an AC.
#[tactic(auto, unfolding(osi_message::specs::Written::is_second, osi_message::specs::Written::user_data_of))]
fn bare_first<'a>(message: &Message<'a>) -> Option<Message<'a>>
    requires { is_second (meant_by message.now) ≡ false }
    ensures value { option_map meant_by result ≡ bare (meant_by message.now) }
    ensures short { IfSome result (λ m. user_data_of (meant_by m) ≡ []) }
{
    let user_data = &[];
    match *message {
        Message::Connect { .. } => None,
        Message::Accept { .. } => None,
        Message::Refuse { reason, .. } => Some(Message::Refuse { reason, user_data }),
        Message::Give { tokens } => Some(Message::Give { tokens }),
        Message::Please { tokens, .. } => Some(Message::Please { tokens, user_data }),
        Message::Finish { .. } => Some(Message::Finish { user_data }),
        Message::Disconnect { .. } => Some(Message::Disconnect { user_data }),
        Message::NotFinished { .. } => Some(Message::NotFinished { user_data }),
        Message::Abort {
            transport_disconnect,
            ..
        } => Some(Message::Abort {
            transport_disconnect,
            user_data,
        }),
        Message::AbortAccept => Some(Message::AbortAccept),
        _ => unreachable!(),
    }
}

/// The only TSDU of these.
fn only(alloc: Global, sent: Sent) -> Result<Octets, AllocError>
    ensures { IfOk result (λ o. (octets : List ℕ) → sent ≡ octets ∷ [] → o ≡ octets) }
{
    match sent.into_tsdus() {
        Tsdus::Short(octets) => Octets::copy(alloc, octets.as_slice()),
        Tsdus::One(octets) => Ok(Octets::behind(octets, 0)),
        Tsdus::Parts(_) => Ok(Octets::new(alloc)),
    }
}

/// The octets in which a message is sent, unless they are more than those of the TSDU that it came in; then these.
fn outline_as(alloc: Global, message: &Message, tsdu: &[u8]) -> Result<Octets, AllocError>
    requires { user_data_of (meant_by message.now) ≡ [] }
    ensures { IfOk result (λ o. o ≡ outline_as tsdu.now (Some (meant_by message.now))) }
{
    let sent = Sent::of(alloc, message)?;
    let written = only(alloc, sent)?;
    if written.as_slice().len() > tsdu.len() {
        return Octets::copy(alloc, tsdu);
    }
    Ok(written)
}

/// The octet of an enclosure.
fn enclosure(place: Place) -> u8
    ensures { result ≡ enclosure_of place }
{
    match place {
        Place::Middle => 0,
        Place::First => 1,
        Place::Last => 2,
    }
}

/// A part of one Data with as many octets as this one, all zero.
fn without_data(alloc: Global, place: Place, user_data: &[u8]) -> Result<Vec<u8>, AllocError>
    ensures { IfOk result (λ v. v.items ≡ part_octets place (no_data user_data.now)) }
{
    let whole = 7 + user_data.len();
    let mut octets = Vec::with_capacity(alloc, whole)?;
    octets.extend_from_slice(&[1, 0, 1, 3, ENCLOSURE, 1, enclosure(place)])?;
    octets.resize(whole, 0)?;
    Ok(octets)
}

/// The outline of a TSDU with a part of one Data.
fn outline_part(
    alloc: Global,
    tsdu: &[u8],
    place: Place,
    user_data: &[u8],
) -> Result<Octets, AllocError>
    ensures { IfOk result (λ o. o ≡ outline_behind tsdu.now (part place user_data.now)) }
{
    let octets = without_data(alloc, place, user_data)?;
    if octets.len() > tsdu.len() {
        return Octets::copy(alloc, tsdu);
    }
    Ok(Octets::behind(octets, 0))
}

/// The outline of a TSDU with a message after a token item.
fn outline_second(alloc: Global, tsdu: &[u8], message: &Message) -> Result<Octets, AllocError>
    ensures { IfOk result (λ o. o ≡ outline_behind tsdu.now (says (meant_by message.now))) }
{
    if !is_second(message) {
        return Octets::copy(alloc, tsdu);
    }
    outline_as(alloc, &bare_second(message), tsdu)
}

/// The outline of a TSDU with this unit alone.
#[tactic(auto, unfolding(osi_message::specs::Reading::word))]
fn outline_alone(alloc: Global, tsdu: &[u8], unit: &Spdu) -> Result<Octets, AllocError>
    ensures { IfOk result (λ o. o ≡ outline_by tsdu.now (Ok (word (said_by unit.now) ∷ []))) }
{
    if Place::of(unit).is_some() {
        return Octets::copy(alloc, tsdu);
    }
    let message = Message::of(unit);
    if is_second(&message) {
        return Octets::copy(alloc, tsdu);
    }
    match bare_first(&message) {
        Some(bare) => outline_as(alloc, &bare, tsdu),
        None => Octets::copy(alloc, tsdu),
    }
}

/// The outline of a TSDU with this unit after an item.
#[tactic(auto, unfolding(osi_message::specs::Reading::word))]
fn outline_behind(
    alloc: Global,
    tsdu: &[u8],
    item: &Spdu,
    unit: &Spdu,
) -> Result<Octets, AllocError>
    ensures { IfOk result (λ o. o ≡ outline_by tsdu.now (Ok (word (said_by item.now) ∷ word (said_by unit.now) ∷ []))) }
{
    if Place::of(item).is_some() {
        return Octets::copy(alloc, tsdu);
    }
    if !has_no_effect(&Message::of(item)) {
        return Octets::copy(alloc, tsdu);
    }
    match Place::of(unit) {
        Some(place) => outline_part(alloc, tsdu, place, unit.information()),
        None => outline_second(alloc, tsdu, &Message::of(unit)),
    }
}

/// The outline of a TSDU with these units.
fn outline_of(alloc: Global, tsdu: &[u8], group: &Group) -> Result<Octets, AllocError>
    ensures { IfOk result (λ o. o ≡ outline_by tsdu.now (Ok (said_by_units (units_of group.now)))) }
{
    let mut behind = group.behind();
    let Some(unit) = behind.next() else {
        return outline_alone(alloc, tsdu, group.first());
    };
    if let Some(_other) = behind.next() {
        return Octets::copy(alloc, tsdu);
    }
    outline_behind(alloc, tsdu, group.first(), &unit)
}

/// Whether a TSDU is the written form of a minor point that asks for its confirmation, or of that, without user data.
fn is_bare_point(tsdu: &[u8]) -> bool
    ensures { result ≡ true → tsdu.now ≡ outline tsdu.now }
{
    match PlainUnit::read(tsdu) {
        Some(PlainUnit::MinorPoint { .. }) => true,
        Some(PlainUnit::MinorAck { .. }) => true,
        Some(PlainUnit::Part { .. }) => false,
        None => false,
    }
}

/// The outline of data, and of a minor point or its confirmation without user data, in their written form: no units are read.
fn known_outline(tsdu: &[u8]) -> Option<&[u8]>
    ensures { IfSome result (λ octets. octets.now ≡ outline tsdu.now) }
{
    if let Some(_user_data) = PlainUnit::data(tsdu) {
        return Some(data_head());
    }
    if is_bare_point(tsdu) {
        return Some(tsdu);
    }
    None
}

/// The outline of a TSDU, by its units.
#[tactic(auto, unfolding(osi_message::specs::Reading::said_at, crate::specs::Outlines::outline))]
fn outline(alloc: Global, tsdu: &[u8]) -> Result<Octets, AllocError>
    ensures { IfOk result (λ o. o ≡ outline tsdu.now) }
{
    let read = read_group(tsdu);
    match &read {
        Ok(group) => outline_of(alloc, tsdu, group),
        Err(_) => Octets::copy(alloc, tsdu),
    }
}

/// One more TSDU is heard: its outline. Those that are known without its units are looked at first, because they are the most
/// frequent. `Err` changes nothing.
pub(crate) fn hear(alloc: Global, heard: &mut Heard, tsdu: &[u8]) -> Result<(), AllocError>
    ensures ok { OnOk result (heard.new ≡ heard.old ++ outline tsdu.now ∷ []) }
    ensures err { OnErr result (heard.new ≡ heard.old) }
{
    if let Some(octets) = known_outline(tsdu) {
        return heard.push_copy(alloc, octets);
    }
    let kept = outline(alloc, tsdu)?;
    heard.push(kept)
}
