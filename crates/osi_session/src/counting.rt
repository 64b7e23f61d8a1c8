//! The effect of the units of a TSDU, with the octets of an unfinished SSDU counted instead of kept.

ghost use Rattle.std.specs.Prelude.{◌≡◌, ◌+◌, ◌++◌, ◌≤◌, ℕ, List, [], Option, Some, IfOk, OnOk, IfSome, OnSome, IfNone, option_map};
ghost use Rattle.std.specs.Prelude.{option_copied, is_some, unwrap_or, length, None, ◌<◌, if◌then◌else◌};
ghost use Rattle.osi_message.specs.Reading.{said_by_units, said_at};
ghost use Rattle.osi_message.specs.Words.{says, part};
ghost use Rattle.osi_session.specs.Allowed.{most_data};
ghost use Rattle.osi_message.specs.Meanings.{meant_by};
ghost use Rattle.osi_session.specs.Counting.{no_octets, count_of, count_by, taker_with, Counts, CountsAll, CountsCame, count_by_idle};
ghost use Rattle.osi_session.specs.Joining.{is_last, Hearing, heard_then, respond_word, respond_tsdu, respond_came, word_verdict};
ghost use Rattle.osi_session.specs.Respond.{is_faulty, replies_abort};
ghost use Rattle.osi_session.specs.Standing.{counted};
ghost use Rattle.osi_session.specs.Steps.{outcome_of, word_by};
ghost use Rattle.osi_spdu.specs.Groups.{units_of};

use crate::calling::MOST_DATA;
use crate::faults::UnitFault;
use crate::grouping::{either, judge_unread, lone_unit};
use crate::hearing::take_message;
use crate::joining::{PartVerdict, judge_part};
use crate::reactions::{Reaction, Reply};
use crate::state::State;
use crate::words::Word;
use osi_message::{Message, Octets, Place};
use osi_spdu::{Group, Kind, read_group};
use std::alloc::{AllocError, Global};

/// The state and the answer after the units of a TSDU.
#[derive(Clone, Copy)]
pub(crate) struct Counting {
    pub(crate) next: State,
    /// How many octets of an unfinished SSDU are joined.
    pub(crate) joined: Option<usize>,
    pub(crate) reply: Option<Reply>,
    pub(crate) closes: bool,
}

impl Counting {
    /// The result of a reaction, if this many octets are joined before its phase is considered.
    fn of(reaction: Reaction, joined: Option<usize>) -> Counting
        ensures { count_of result ≡ count_by joined (outcome_of reaction) }
    {
        let counting = Counting {
            next: reaction.next,
            joined: if reaction.next.phase.may_hold() {
                joined
            } else {
                None
            },
            reply: reaction.reply,
            closes: reaction.closes,
        };
        drop(reaction);
        counting
    }
}

/// A stand-in for the joined octets, when it only matters whether there are any.
fn placeholder(alloc: Global, joined: Option<usize>) -> Option<Octets>
    ensures { result ≡ no_octets joined }
{
    match joined {
        Some(_) => Some(Octets::new(alloc)),
        None => None,
    }
}

/// The effect of a message.
fn count_message(
    alloc: Global,
    state: &State,
    joined: Option<usize>,
    message: Message<'_>,
) -> Result<Counting, AllocError>
    ensures { IfOk result (λ c. Counts state.now joined (says (meant_by message.entry)) (count_of c)) }
{
    let begun = placeholder(alloc, joined);
    let reaction = take_message(alloc, state, begun.as_ref(), message)?;
    Ok(Counting::of(reaction, joined))
}

/// How many octets are joined after a part, if that many are allowed in one Data.
pub(crate) fn total(joined: Option<usize>, octets: usize) -> Option<usize>
    ensures some { IfSome result (λ n. n ≡ unwrap_or joined 0 + octets) }
    ensures few { OnSome result (unwrap_or joined 0 + octets ≤ most_data) }
    ensures none { IfNone result (most_data < unwrap_or joined 0 + octets) }
{
    let begun = joined.unwrap_or(0);
    if octets > MOST_DATA || begun > MOST_DATA - octets {
        return None;
    }
    Some(begun + octets)
}

/// What is joined after a good part: nothing after the last one.
pub(crate) fn behind_part(place: Place, total: usize) -> Option<usize>
    ensures { result ≡ (if is_last place then None else Some total) }
{
    match place {
        Place::First | Place::Middle => Some(total),
        Place::Last => None,
    }
}

/// The effect of a part.
fn count_part(
    alloc: Global,
    state: &State,
    joined: Option<usize>,
    place: Place,
    user_data: &[u8],
) -> Counting
    ensures { Counts state.now joined (part place user_data.now) (count_of result) }
{
    let begun = placeholder(alloc, joined);
    match judge_part(state, begun.as_ref(), place, user_data) {
        PartVerdict::Dropped => Counting::of(Reaction::silent(*state), joined),
        PartVerdict::Bad(fault) => Counting::of(Reaction::bad(state, fault), joined),
        PartVerdict::Good => match total(joined, user_data.len()) {
            Some(total) => Counting::of(Reaction::silent(*state), behind_part(place, total)),
            None => {
                let fault = UnitFault::DataTooLong(Kind::DataTransfer.si());
                Counting::of(Reaction::bad(state, fault), joined)
            }
        },
    }
}

/// The effect of a word.
fn count_word(
    alloc: Global,
    state: &State,
    joined: Option<usize>,
    word: Word<'_>,
) -> Result<Counting, AllocError>
    ensures { IfOk result (λ c. Counts state.now joined (word_by word.entry) (count_of c)) }
{
    match word {
        Word::Says(message) => count_message(alloc, state, joined, message),
        Word::Part(place, user_data) => Ok(count_part(alloc, state, joined, place, user_data)),
    }
}

impl Counting {
    /// Whether the last word was a bad unit.
    fn is_bad(&self) -> bool
        ensures { result ≡ replies_abort (count_of self.now).reply }
    {
        matches!(self.reply, Some(Reply::ProtocolError))
    }

    /// Nothing has happened yet.
    fn none(state: &State, joined: Option<usize>) -> Counting
        ensures { count_of result ≡ count_by_idle state.now joined }
    {
        Counting {
            next: *state,
            joined,
            reply: None,
            closes: false,
        }
    }

    /// The effect of one more word, and whether the word is bad.
    fn then(&mut self, alloc: Global, word: Word<'_>) -> Result<bool, AllocError>
        ensures bad { IfOk result (λ b. (h : Hearing) → counted h ≡ count_of self.old →
            b ≡ is_faulty (word_verdict h.next (word_by word.entry))) }
        ensures left { OnOk result ((h : Hearing) → counted h ≡ count_of self.old →
            counted (heard_then h (respond_word h.next (word_by word.entry))) ≡ count_of self.new) }
    {
        let counting = count_word(alloc, &self.next, self.joined, word)?;
        let is_bad = counting.is_bad();
        self.next = counting.next;
        self.joined = counting.joined;
        self.closes = self.closes || counting.closes;
        if self.reply.is_none() {
            self.reply = counting.reply;
        }
        Ok(is_bad)
    }
}

/// The effect of the units of a TSDU, one after the other. The first unit takes effect after those that follow it, and
/// has no effect if one of them is an RS. A bad unit is the last that takes effect.
#[inline(never)]
fn count_each(
    alloc: Global,
    state: &State,
    joined: Option<usize>,
    group: &Group,
) -> Result<Counting, AllocError>
    ensures { IfOk result (λ c. CountsAll state.now joined (said_by_units (units_of group.now)) (count_of c)) }
{
    let first = Word::of(group.first());
    let mut behind = group.behind();
    let mut counting = Counting::none(state, joined);
    let mut restarts = false;
    'units: while let Some(unit) = behind.next() {
        let word = Word::of(&unit);
        restarts = either(restarts, word.is_restart());
        let is_bad = counting.then(alloc, word)?;
        if is_bad {
            return Ok(counting);
        }
    }
    if restarts {
        return Ok(counting);
    }
    let _is_bad = counting.then(alloc, first)?;
    Ok(counting)
}

/// The effect of the units of a TSDU. Most TSDUs have the effect of one unit.
#[tactic(auto, using(crate::proofs::tsdu::octets_are_counted::counts_lone))]
fn count_all(
    alloc: Global,
    state: &State,
    joined: Option<usize>,
    group: &Group,
) -> Result<Counting, AllocError>
    ensures { IfOk result (λ c. CountsAll state.now joined (said_by_units (units_of group.now)) (count_of c)) }
{
    let Some(unit) = lone_unit(group) else {
        return count_each(alloc, state, joined, group);
    };
    let counting = count_word(alloc, state, joined, Word::of(unit))?;
    Ok(counting)
}

/// The effect of the octets of a TSDU, by its units.
#[tactic(auto, unfolding(osi_message::specs::Reading::said_at))]
fn count_units(
    alloc: Global,
    state: &State,
    joined: Option<usize>,
    tsdu: &[u8],
) -> Result<Counting, AllocError>
    ensures { IfOk result (λ c. CountsCame state.now joined (said_at tsdu.now) (count_of c)) }
{
    let read = read_group(tsdu);
    match &read {
        Ok(group) => count_all(alloc, state, joined, group),
        Err(fault) => Ok(Counting::of(judge_unread(state, *fault), joined)),
    }
}

/// The effect of the octets of a TSDU. Those that are read straight are looked at first, because they are the most frequent.
#[tactic(auto, using(crate::proofs::tsdu::octets_are_counted::counts_alone))]
pub(crate) fn count_tsdu(
    alloc: Global,
    state: &State,
    joined: Option<usize>,
    tsdu: &[u8],
) -> Result<Counting, AllocError>
    ensures { IfOk result (λ c. CountsCame state.now joined (said_at tsdu.now) (count_of c)) }
{
    let Some(word) = Word::alone(tsdu) else {
        return count_units(alloc, state, joined, tsdu);
    };
    let counting = count_word(alloc, state, joined, word)?;
    Ok(counting)
}
