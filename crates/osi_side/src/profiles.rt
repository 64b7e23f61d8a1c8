//! What X.225 allows and the profile of this library leaves out.

ghost use Rattle.std.specs.Prelude.{◌≡◌, ◌≤◌, ◌∷◌, [], length, option_map};
ghost use Rattle.std.specs.List.{slice_get};
ghost use Rattle.osi_message.specs.Meanings.{meant_by};
ghost use Rattle.osi_message.specs.Reading.{said_at, word};
ghost use Rattle.osi_message.specs.Words.{as_message};
ghost use Rattle.osi_spdu.specs.Fields.{unit_bits};
ghost use Rattle.osi_spdu.specs.Units.{said_by};
ghost use Rattle.osi_side.specs.Profiles.{offered_in, accepted_in, in_first, is_outside, selects_outside, is_left_out, leaves};
ghost use Rattle.osi_side.specs.Profiles.{offers_1, selects_1, first_is, answers_in_1, is_finish, is_disconnect, accepts_too, is_allowed};

use crate::first_places::tsdu_at;
use crate::heard::Heard;
use crate::rules::{Break, Rule};
use bitflags::Flags;
use osi_message::Message;
use osi_session::{Breach, CallError, Phase, Standing, is_profile};
use osi_spdu::{Requirements, Spdu, SpduFault, read_group};

/// The functional units that a CN offers.
fn offered_in(message: &Message) -> Option<Requirements>
    ensures { option_map unit_bits result ≡ offered_in (meant_by message.now) }
{
    match message {
        Message::Connect { requirements, .. } => Some(*requirements),
        _ => None,
    }
}

/// The functional units that an AC accepts.
fn accepted_in(message: &Message) -> Option<Requirements>
    ensures { option_map unit_bits result ≡ accepted_in (meant_by message.now) }
{
    match message {
        Message::Accept { requirements, .. } => Some(*requirements),
        _ => None,
    }
}

/// Those of a unit that is a CN.
#[tactic(auto, using(crate::proofs::honest::a_selection_is_read::offered_word))]
fn offered_by(unit: &Spdu) -> Option<Requirements>
    ensures { option_map unit_bits result ≡ offered_in (as_message (word (said_by unit.now))) }
{
    let message = Message::of(unit);
    offered_in(&message)
}

/// Those of a unit that is an AC.
#[tactic(auto, using(crate::proofs::honest::a_selection_is_read::accepted_word))]
fn accepted_by(unit: &Spdu) -> Option<Requirements>
    ensures { option_map unit_bits result ≡ accepted_in (as_message (word (said_by unit.now))) }
{
    let message = Message::of(unit);
    accepted_in(&message)
}

/// Those of a TSDU whose first unit is a CN.
#[tactic(auto, unfolding(osi_message::specs::Reading::said_at))]
fn offered(tsdu: &[u8]) -> Option<Requirements>
    ensures { option_map unit_bits result ≡ in_first offered_in (said_at tsdu.now) }
{
    let read = read_group(tsdu);
    match &read {
        Ok(group) => offered_by(group.first()),
        Err(_) => None,
    }
}

/// Those of a TSDU whose first unit is an AC.
#[tactic(auto, unfolding(osi_message::specs::Reading::said_at))]
fn accepted(tsdu: &[u8]) -> Option<Requirements>
    ensures { option_map unit_bits result ≡ in_first accepted_in (said_at tsdu.now) }
{
    let read = read_group(tsdu);
    match &read {
        Ok(group) => accepted_by(group.first()),
        Err(_) => None,
    }
}

/// Whether the units that both name, and that are therefore selected, are outside of the profile.
fn is_outside(offered: Option<Requirements>, accepted: Option<Requirements>) -> bool
    ensures { result ≡ is_outside (option_map unit_bits offered) (option_map unit_bits accepted) }
{
    match (offered, accepted) {
        (Some(offered), Some(accepted)) => !is_profile(offered.intersection(accepted)),
        _ => false,
    }
}

/// Whether the first TSDU of a side is an AC that selects functional units that are not selected here: it
/// answers a CN, the first TSDU that was heard.
pub(crate) fn selects_outside(heard: &Heard, tsdu: &[u8], before: usize) -> bool
    requires { before ≤ length heard.now }
    ensures { result ≡ selects_outside heard.now (record { octets = tsdu.now; before = before } ∷ []) }
{
    if before == 0 {
        return false;
    }
    let connect = tsdu_at(heard, 0);
    is_outside(offered(connect), accepted(tsdu))
}

/// Whether the unit that begins here in a TSDU is one that the profile leaves out: PREPARE, or connect data that
/// continues (SI 7, 15 and 16).
fn is_left_out(tsdu: &[u8], at: usize) -> bool
    ensures { result ≡ is_left_out (slice_get tsdu.now at) }
{
    match tsdu.get(at) {
        Some(si) => matches!(*si, 7 | 15 | 16),
        None => false,
    }
}

/// Whether a message is a CN that offers no version 2.
fn offers_1(message: &Message) -> bool
    ensures { result ≡ offers_1 (meant_by message.now) }
{
    match message {
        Message::Connect { version_2, .. } => !*version_2,
        _ => false,
    }
}

/// Whether a message is an AC that does not select version 2.
fn selects_1(message: &Message) -> bool
    ensures { result ≡ selects_1 (meant_by message.now) }
{
    match message {
        Message::Accept { version_2, .. } => !*version_2,
        _ => false,
    }
}

/// Whether the first unit of a TSDU is a CN that offers no version 2.
#[tactic(auto, using(crate::proofs::honest::a_selection_is_read::offers_word), unfolding(osi_message::specs::Reading::said_at))]
fn begins_with_offer_of_1(tsdu: &[u8]) -> bool
    ensures { result ≡ first_is offers_1 (said_at tsdu.now) }
{
    let read = read_group(tsdu);
    match &read {
        Ok(group) => offers_1(&Message::of(group.first())),
        Err(_) => false,
    }
}

/// Whether the first unit of a TSDU is an AC that does not select version 2.
#[tactic(auto, using(crate::proofs::honest::a_selection_is_read::selects_word), unfolding(osi_message::specs::Reading::said_at))]
fn begins_with_selection_of_1(tsdu: &[u8]) -> bool
    ensures { result ≡ first_is selects_1 (said_at tsdu.now) }
{
    let read = read_group(tsdu);
    match &read {
        Ok(group) => selects_1(&Message::of(group.first())),
        Err(_) => false,
    }
}

/// Whether a called side in this state, which still waits for a CN of version 2, answers one without it by an AC of version 1.
fn answers_in_1(heard: &Heard, tsdu: &[u8], before: usize, standing: &Standing) -> bool
    requires { before ≤ length heard.now }
    ensures { result ≡ answers_in_1 heard.now tsdu.now before standing.now }
{
    if !matches!(standing.phase(), Phase::WaitCn) || before == 0 {
        return false;
    }
    if !begins_with_offer_of_1(tsdu_at(heard, 0)) {
        return false;
    }
    begins_with_selection_of_1(tsdu)
}

/// Whether a message is an FN.
fn is_finish(message: &Message) -> bool
    ensures { result ≡ is_finish (meant_by message.now) }
{
    matches!(message, Message::Finish { .. })
}

/// Whether a message is a DN.
fn is_disconnect(message: &Message) -> bool
    ensures { result ≡ is_disconnect (meant_by message.now) }
{
    matches!(message, Message::Disconnect { .. })
}

/// Whether the first unit of a TSDU is an FN.
#[tactic(auto, using(crate::proofs::honest::a_selection_is_read::finish_word), unfolding(osi_message::specs::Reading::said_at))]
fn begins_with_finish(tsdu: &[u8]) -> bool
    ensures { result ≡ first_is is_finish (said_at tsdu.now) }
{
    let read = read_group(tsdu);
    match &read {
        Ok(group) => is_finish(&Message::of(group.first())),
        Err(_) => false,
    }
}

/// Whether the first unit of a TSDU is a DN.
#[tactic(auto, using(crate::proofs::honest::a_selection_is_read::disconnect_word), unfolding(osi_message::specs::Reading::said_at))]
fn begins_with_disconnect(tsdu: &[u8]) -> bool
    ensures { result ≡ first_is is_disconnect (said_at tsdu.now) }
{
    let read = read_group(tsdu);
    match &read {
        Ok(group) => is_disconnect(&Message::of(group.first())),
        Err(_) => false,
    }
}

/// Whether a side that waits for the answer to its FN accepts the release of the other side, whose FN had passed and is the next
/// TSDU that it takes.
fn accepts_too(heard: &Heard, tsdu: &[u8], before: usize, by: &Break) -> bool
    requires { before ≤ length heard.now }
    ensures { result ≡ accepts_too heard.now tsdu.now before by.now }
{
    if !matches!(by.standing.phase(), Phase::Releasing) || by.taken >= before {
        return false;
    }
    if !begins_with_finish(tsdu_at(heard, by.taken)) {
        return false;
    }
    begins_with_disconnect(tsdu)
}

/// Whether no session of this product sends it in its state, and X.225 allows it there.
fn is_allowed(heard: &Heard, tsdu: &[u8], before: usize, by: &Break) -> bool
    requires { before ≤ length heard.now }
    ensures { result ≡ is_allowed heard.now tsdu.now before by.now }
{
    if answers_in_1(heard, tsdu, before, &by.standing) {
        return true;
    }
    accepts_too(heard, tsdu, before, by)
}

/// Whether something that no session sends is outside of the profile rather than a break, of a side that heard this; `before`
/// TSDUs of the other side had passed before it.
#[tactic(auto, unfolding(crate::specs::Profiles::leaves))]
pub(crate) fn leaves(heard: &Heard, tsdu: &[u8], before: usize, by: &Break) -> bool
    requires { before ≤ length heard.now }
    ensures { result ≡ leaves heard.now tsdu.now before by.now }
{
    match by.rule {
        Rule::Breach(Breach::Outside) => true,
        Rule::Breach(Breach::Call(CallError::BadState)) => is_allowed(heard, tsdu, before, by),
        Rule::Fault(SpduFault::UnknownSi(at)) => is_left_out(tsdu, at),
        _ => false,
    }
}
