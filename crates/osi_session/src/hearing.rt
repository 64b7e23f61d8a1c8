//! The effect of a word, and of the joined octets after it.

ghost use Rattle.std.specs.Prelude.{◌≡◌, ◌<◌, ◌++◌, ℕ, ◌||◌, true, not, is_none, length, List, Option, Some, None, IfOk, OnErr};
ghost use Rattle.std.specs.Prelude.{if◌then◌else◌, option_copied};
ghost use Rattle.osi_message.specs.Meanings.{meant_by};
ghost use Rattle.osi_message.specs.Words.{says, part};
ghost use Rattle.osi_session.specs.Joining.{heard, joined_octets, begins_anew, word_verdict, respond_word};
ghost use Rattle.osi_session.specs.Phases.{is_over, may_hold};
ghost use Rattle.osi_session.specs.Respond.{drops, enacted, faulty, fine, is_faulty, kind_of, nothing, shows, verdict};
ghost use Rattle.osi_session.specs.Shown.{Data};
ghost use Rattle.osi_session.specs.declared.faults.UnitFault.TheVariants.{BadEnclosure};
ghost use Rattle.osi_spdu.specs.Kinds.{si_of};
ghost use Rattle.osi_session.specs.Steps.{Hears, Reacts, hearing_of, joined_after, outcome_of, word_by};

use crate::faults::UnitFault;
use crate::indications::Indication;
use crate::joining::{PartVerdict, joined_with, judge_part};
use crate::reactions::Reaction;
use crate::state::State;
use crate::taking::{drops, take_unit};
use crate::words::Word;
use osi_message::{Message, Octets, Place};
use osi_spdu::Kind;
use std::alloc::{AllocError, Global};

/// What happens to the octets of an unfinished SSDU.
#[derive(Drop)]
pub(crate) enum Joined {
    /// They stay.
    Kept,
    /// They are dropped.
    Dropped,
    /// They are replaced by these.
    Now(Octets),
}

impl Joined {
    /// The joined octets after this, from those before.
    pub(crate) fn after<'a>(&'a self, before: Option<&'a Octets>) -> Option<&'a Octets>
        ensures { option_copied result ≡ joined_after self.now (option_copied before.entry) }
    {
        match self {
            Joined::Kept => before,
            Joined::Dropped => None,
            Joined::Now(octets) => Some(octets),
        }
    }

    /// Replaces the joined octets by those after this.
    pub(crate) fn put(self, joined: &mut Option<Octets>)
        ensures { joined.new ≡ joined_after self joined.old }
    {
        match self {
            Joined::Kept => (),
            Joined::Dropped => *joined = None,
            Joined::Now(octets) => *joined = Some(octets),
        }
    }

    /// Adds what happens next.
    pub(crate) fn go_on(&mut self, next: Joined)
        ensures { (joined : Option (List ℕ)) → joined_after self.new joined ≡ joined_after next (joined_after self.old joined) }
    {
        match next {
            Joined::Kept => (),
            other => *self = other,
        }
    }
}

/// The effect of a word, and what happens to the joined octets.
#[derive(Drop)]
pub(crate) struct Heard {
    pub(crate) reaction: Reaction,
    pub(crate) joined: Joined,
}

impl Heard {
    /// The phase afterwards decides whether an unfinished SSDU is kept or dropped.
    pub(crate) fn of(reaction: Reaction, joined: Joined) -> Heard
        ensures { (before : Option (List ℕ)) → hearing_of before result.joined (outcome_of result.reaction)
            ≡ heard (joined_after joined before) (outcome_of reaction) }
    {
        let is_kept = reaction.next.phase.may_hold();
        Heard {
            reaction,
            joined: if is_kept { joined } else { Joined::Dropped },
        }
    }
}

/// The kind of a message that may not occur within an SSDU.
pub(crate) fn begins_anew(message: &Message) -> Option<Kind>
    ensures { result ≡ (if begins_anew (meant_by message.now) then Some (kind_of (meant_by message.now)) else None) }
{
    match message {
        Message::Data { .. } => Some(Kind::DataTransfer),
        Message::Give { .. } => Some(Kind::GiveTokens),
        Message::MinorPoint { .. } => Some(Kind::MinorSyncPoint),
        Message::MajorPoint { .. } => Some(Kind::MajorSyncPoint),
        Message::Finish { .. } => Some(Kind::Finish),
        _ => None,
    }
}

/// The kind of a message that may not occur within an SSDU, if one is unfinished.
fn misplaced(joined: Option<&Octets>, message: &Message) -> Option<Kind>
    ensures { result ≡ (if is_none (option_copied joined.entry) || not (begins_anew (meant_by message.now)) then None else
        Some (kind_of (meant_by message.now))) }
{
    match joined {
        None => None,
        Some(_) => begins_anew(message),
    }
}

/// The effect of a message that may not occur within an SSDU, within one: its own fault comes first.
#[inline(never)]
#[tactic(auto, using(crate::proofs::tsdu::the_verdict_while_joining::misplaced_stays, crate::proofs::tsdu::the_verdict_while_joining::misplaced_turns, crate::proofs::tsdu::the_verdict_while_joining::misplaced_loud))]
fn take_misplaced(
    alloc: Global,
    state: &State,
    message: Message<'_>,
    kind: Kind,
) -> Result<Reaction, AllocError>
    ensures { Reacts result (enacted state.now (meant_by message.entry)
        (if (is_over state.now.phase || drops state.now (meant_by message.entry)) || is_faulty (verdict state.now (meant_by message.entry))
        then verdict state.now (meant_by message.entry) else faulty (BadEnclosure (si_of kind)))) }
{
    let is_discarded = state.phase.is_over() || drops(state, &message);
    let reaction = take_unit(alloc, state, message)?;
    if is_discarded || reaction.is_bad() {
        return Ok(reaction);
    }
    drop(reaction);
    Ok(Reaction::bad(state, UnitFault::BadEnclosure(kind.si())))
}

/// The effect of a message.
pub(crate) fn take_message(
    alloc: Global,
    state: &State,
    joined: Option<&Octets>,
    message: Message<'_>,
) -> Result<Reaction, AllocError>
    ensures { Reacts result (enacted state.now (meant_by message.entry)
        (word_verdict (record { state = state.now; joined = option_copied joined.entry }) (says (meant_by message.entry)))) }
{
    match misplaced(joined, &message) {
        None => take_unit(alloc, state, message),
        Some(kind) => take_misplaced(alloc, state, message, kind),
    }
}

/// The joined octets after a part that is not the last. `Err` is possible only if the part has octets.
#[tactic(auto, using(crate::proofs::tsdu::the_effect_of_a_word::grown_nothing, crate::proofs::tsdu::the_effect_of_a_word::grown_first))]
fn grown(alloc: Global, joined: Option<&Octets>, user_data: &[u8]) -> Result<Joined, AllocError>
    ensures ok { IfOk result (λ g. joined_after g (option_copied joined.entry)
        ≡ Some (joined_octets (option_copied joined.entry) ++ user_data.now)) }
    ensures memory { OnErr result (0 < length user_data.now) }
{
    if user_data.is_empty() {
        return match joined {
            Some(_) => Ok(Joined::Kept),
            None => Ok(Joined::Now(Octets::new(alloc))),
        };
    }
    match joined_with(alloc, joined, user_data) {
        Ok(octets) => Ok(Joined::Now(octets)),
        Err(error) => Err(error),
    }
}

/// A good part that is not the last is joined to those before it.
fn take_early_part(
    alloc: Global,
    state: &State,
    joined: Option<&Octets>,
    user_data: &[u8],
) -> Result<Heard, AllocError>
    requires { may_hold state.now.phase ≡ true }
    ensures { Hears (option_copied joined.entry) result
        (heard (Some (joined_octets (option_copied joined.entry) ++ user_data.now)) (nothing state.now)) }
{
    match grown(alloc, joined, user_data) {
        Ok(grown) => Ok(Heard::of(Reaction::silent(*state), grown)),
        Err(error) => Err(error),
    }
}

/// The last part, if it is good, indicates all the joined data.
fn take_last_part(
    alloc: Global,
    state: &State,
    joined: Option<&Octets>,
    user_data: &[u8],
) -> Result<Heard, AllocError>
    ensures { Hears (option_copied joined.entry) result
        (heard None (shows state.now (Data (joined_octets (option_copied joined.entry) ++ user_data.now)))) }
{
    match joined_with(alloc, joined, user_data) {
        Ok(user_data) => {
            let indication = Indication::Data { user_data };
            Ok(Heard::of(Reaction::showing(*state, indication), Joined::Dropped))
        }
        Err(error) => Err(error),
    }
}

/// The effect of a good part.
fn take_good_part(
    alloc: Global,
    state: &State,
    joined: Option<&Octets>,
    place: Place,
    user_data: &[u8],
) -> Result<Heard, AllocError>
    requires { word_verdict (record { state = state.now; joined = option_copied joined }) (part place user_data.now) ≡ fine }
    ensures { Hears (option_copied joined.entry) result
        (respond_word (record { state = state.now; joined = option_copied joined.entry }) (part place user_data.now)) }
{
    match place {
        Place::First => take_early_part(alloc, state, joined, user_data),
        Place::Middle => take_early_part(alloc, state, joined, user_data),
        Place::Last => take_last_part(alloc, state, joined, user_data),
    }
}

/// The effect of a part.
fn take_part(
    alloc: Global,
    state: &State,
    joined: Option<&Octets>,
    place: Place,
    user_data: &[u8],
) -> Result<Heard, AllocError>
    ensures { Hears (option_copied joined.entry) result
        (respond_word (record { state = state.now; joined = option_copied joined.entry }) (part place user_data.now)) }
{
    match judge_part(state, joined, place, user_data) {
        PartVerdict::Dropped => Ok(Heard::of(Reaction::silent(*state), Joined::Kept)),
        PartVerdict::Bad(fault) => Ok(Heard::of(Reaction::bad(state, fault), Joined::Kept)),
        PartVerdict::Good => take_good_part(alloc, state, joined, place, user_data),
    }
}

/// The effect of a message, which leaves the joined octets.
fn take_says(
    alloc: Global,
    state: &State,
    joined: Option<&Octets>,
    message: Message<'_>,
) -> Result<Heard, AllocError>
    ensures { Hears (option_copied joined.entry) result
        (respond_word (record { state = state.now; joined = option_copied joined.entry }) (says (meant_by message.entry))) }
{
    match take_message(alloc, state, joined, message) {
        Ok(reaction) => Ok(Heard::of(reaction, Joined::Kept)),
        Err(error) => Err(error),
    }
}

/// The effect of one word.
pub(crate) fn take_word(
    alloc: Global,
    state: &State,
    joined: Option<&Octets>,
    word: Word<'_>,
) -> Result<Heard, AllocError>
    ensures { Hears (option_copied joined.entry) result
        (respond_word (record { state = state.now; joined = option_copied joined.entry }) (word_by word.entry)) }
{
    match word {
        Word::Says(message) => take_says(alloc, state, joined, message),
        Word::Part(place, user_data) => take_part(alloc, state, joined, place, user_data),
    }
}
