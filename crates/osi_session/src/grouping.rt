//! The effect of the units of a TSDU, one after the other.

ghost use Rattle.std.specs.Prelude.{◌≡◌, ℕ, ◌||◌, ◌++◌, List, [], true, false, Option, None, option_copied, IfOk, IfSome, OnOk, OnErr};
ghost use Rattle.osi_message.specs.Meanings.{DT, GT};
ghost use Rattle.osi_message.specs.Reading.{said_by_units, word};
ghost use Rattle.osi_message.specs.Tokens.{no_token};
ghost use Rattle.osi_message.specs.Words.{says};
ghost use Rattle.osi_spdu.specs.Groups.{units_of};
ghost use Rattle.osi_spdu.specs.Units.{said_by};
ghost use Rattle.osi_session.specs.Joining.{Taker, heard, heard_then, idle, kept_in, word_verdict, respond_word, respond_tsdu};
ghost use Rattle.osi_session.specs.Respond.{is_nil, is_faulty, respond_unit, respond_fault, shows};
ghost use Rattle.osi_session.specs.Shown.{Data};
ghost use Rattle.osi_session.specs.Steps.{all_shown, hearing_of, hearing_of_all, joined_after, outcome_of, outcome_of_all, shown_list};
ghost use Rattle.osi_session.specs.Steps.{takes_room, word_by};

use crate::faults::UnitFault;
use crate::hearing::{Heard, Joined, take_word};
use crate::indications::Indication;
use crate::reactions::{Reaction, Reply};
use crate::state::State;
use crate::words::Word;
use osi_message::Octets;
use osi_spdu::{Group, Kind, Spdu, SpduFault};
use std::alloc::{AllocError, Global};

/// The effect of the units of a TSDU: the state after them, the joined octets, the indications in order, at most one
/// unit to send, and whether the transport connection is closed.
#[derive(Drop)]
pub(crate) struct Reactions {
    pub(crate) next: State,
    pub(crate) joined: Joined,
    /// The first indication.
    pub(crate) first: Option<Indication>,
    /// The indications after it.
    pub(crate) more: Vec<Indication>,
    pub(crate) reply: Option<Reply>,
    pub(crate) closes: bool,
}

impl Reactions {
    /// The effect of a word by itself.
    pub(crate) fn of(alloc: Global, heard: Heard) -> Reactions
        ensures outcome { outcome_of_all result ≡ outcome_of heard.reaction }
        ensures joined { result.joined ≡ heard.joined }
        ensures ordered { result.more.items ≡ [] }
    {
        let reaction = heard.reaction;
        Reactions {
            next: reaction.next,
            joined: heard.joined,
            first: reaction.shown,
            more: Vec::new(alloc),
            reply: reaction.reply,
            closes: reaction.closes,
        }
    }

    /// Nothing has happened yet.
    fn none(alloc: Global, state: &State) -> Reactions
        ensures heard { (joined : Option (List ℕ)) → hearing_of_all joined result ≡ idle (record { state = state.now; joined = joined }) }
        ensures ordered { result.more.items ≡ [] }
    {
        Reactions {
            next: *state,
            joined: Joined::Kept,
            first: None,
            more: Vec::new(alloc),
            reply: None,
            closes: false,
        }
    }

    /// Adds an indication, if there is one.
    fn show(&mut self, shown: Option<Indication>) -> Result<(), AllocError>
        requires { self.old.first ≡ None → self.old.more.items ≡ [] }
        ensures shown { OnOk result (all_shown self.new.first self.new.more.items ≡ all_shown self.old.first self.old.more.items
            ++ shown_list shown) }
        ensures ordered { OnOk result (self.new.first ≡ None → self.new.more.items ≡ []) }
        ensures others { OnOk result ((self.new.next ≡ self.old.next) × (self.new.joined ≡ self.old.joined) × (self.new.reply
            ≡ self.old.reply) × (self.new.closes ≡ self.old.closes)) }
        ensures err { OnErr result (is_nil (shown_list shown) ≡ false) }
    {
        let Some(indication) = shown else {
            return Ok(());
        };
        if self.first.is_none() {
            drop(self.first.replace(indication));
            return Ok(());
        }
        self.more.push(indication)?;
        Ok(())
    }
}

impl Reactions {
    /// Adds the effect of one more word, and returns whether the word is bad.
    fn then(
        &mut self,
        alloc: Global,
        joined: Option<&Octets>,
        word: Word<'_>,
    ) -> Result<bool, AllocError>
        requires { self.old.first ≡ None → self.old.more.items ≡ [] }
        ensures bad { IfOk result (λ b.
            b ≡ is_faulty (word_verdict (hearing_of_all (option_copied joined.entry) self.old).next (word_by word.entry))) }
        ensures heard { OnOk result (hearing_of_all (option_copied joined.entry) self.new
            ≡ heard_then (hearing_of_all (option_copied joined.entry) self.old) (respond_word (hearing_of_all (option_copied joined.entry)
            self.old).next (word_by word.entry))) }
        ensures ordered { OnOk result (self.new.first ≡ None → self.new.more.items ≡ []) }
        ensures err { OnErr result (takes_room (hearing_of_all (option_copied joined.entry) self.old).next.joined
            (respond_word (hearing_of_all (option_copied joined.entry) self.old).next (word_by word.entry)) ≡ true) }
    {
        let heard = take_word(alloc, &self.next, self.joined.after(joined), word)?;
        let reaction = heard.reaction;
        let is_bad = reaction.is_bad();
        self.show(reaction.shown)?;
        self.next = reaction.next;
        self.joined.go_on(heard.joined);
        self.closes = self.closes || reaction.closes;
        if self.reply.is_none() {
            self.reply = reaction.reply;
        }
        Ok(is_bad)
    }
}

/// The effect of the units of a TSDU, one after the other. The first unit takes effect after those that follow it, and
/// has no effect if one of them is an RS. A bad unit is the last that takes effect.
#[inline(never)]
fn take_each(
    alloc: Global,
    state: &State,
    joined: Option<&Octets>,
    group: &Group,
) -> Result<Reactions, AllocError>
    requires { kept_in state.now.phase (option_copied joined) ≡ option_copied joined }
    ensures heard { IfOk result (λ r. hearing_of_all (option_copied joined.entry) r
        ≡ respond_tsdu (record { state = state.now; joined = option_copied joined.entry }) (said_by_units (units_of group.now))) }
    ensures ordered { IfOk result (λ r. r.first ≡ None → r.more.items ≡ []) }
    ensures err { OnErr result (takes_room (option_copied joined.entry)
        (respond_tsdu (record { state = state.now; joined = option_copied joined.entry }) (said_by_units (units_of group.now))) ≡ true) }
{
    let first = Word::of(group.first());
    let mut behind = group.behind();
    let mut reactions = Reactions::none(alloc, state);
    let mut restarts = false;
    'units: while let Some(unit) = behind.next() {
        let word = Word::of(&unit);
        restarts = either(restarts, word.is_restart());
        let is_bad = match reactions.then(alloc, joined, word) {
            Ok(is_bad) => is_bad,
            Err(error) => {
                drop(reactions);
                return Err(error);
            }
        };
        if is_bad {
            return Ok(reactions);
        }
    }
    if restarts {
        return Ok(reactions);
    }
    match reactions.then(alloc, joined, first) {
        Ok(_) => Ok(reactions),
        Err(error) => {
            drop(reactions);
            Err(error)
        }
    }
}

/// Whether a unit is a GT that names no token.
#[tactic(auto, using(crate::proofs::tsdu::a_unit_that_acts_alone::empty_give))]
fn is_empty_give(unit: &Spdu) -> bool
    ensures { result ≡ true → word (said_by unit.now) ≡ says (GT no_token) }
{
    match unit.kind() {
        Kind::GiveTokens => match unit.params().token_item() {
            None => true,
            Some(_) => false,
        },
        _ => false,
    }
}

/// The only unit after a GT that names no token.
#[tactic(auto, using(crate::proofs::tsdu::a_unit_that_acts_alone::second_acts))]
fn second_unit<'g, 'a>(group: &'g Group<'a>) -> Option<&'g Spdu<'a>>
    ensures { IfSome result (λ unit. (t : Taker) → respond_tsdu t (said_by_units (units_of group.now))
        ≡ respond_word t (word (said_by unit.now))) }
{
    if !is_empty_give(group.first()) {
        return None;
    }
    let second = group.only_second()?;
    Some(second)
}

/// The unit that alone has the effect of a TSDU: the only one, or the only one after a GT that names no token. It is not
/// moved.
#[tactic(auto, using(crate::proofs::tsdu::a_unit_that_acts_alone::first_acts))]
pub(crate) fn lone_unit<'g, 'a>(group: &'g Group<'a>) -> Option<&'g Spdu<'a>>
    ensures { IfSome result (λ unit. (t : Taker) → respond_tsdu t (said_by_units (units_of group.now))
        ≡ respond_word t (word (said_by unit.now))) }
{
    match group.second() {
        None => Some(group.first()),
        Some(_) => second_unit(group),
    }
}

/// The effect of the units of a TSDU. Most TSDUs have the effect of one unit.
pub(crate) fn take_all(
    alloc: Global,
    state: &State,
    joined: Option<&Octets>,
    group: &Group,
) -> Result<Reactions, AllocError>
    requires { kept_in state.now.phase (option_copied joined) ≡ option_copied joined }
    ensures heard { IfOk result (λ r. hearing_of_all (option_copied joined.entry) r
        ≡ respond_tsdu (record { state = state.now; joined = option_copied joined.entry }) (said_by_units (units_of group.now))) }
    ensures ordered { IfOk result (λ r. r.first ≡ None → r.more.items ≡ []) }
    ensures err { OnErr result (takes_room (option_copied joined.entry)
        (respond_tsdu (record { state = state.now; joined = option_copied joined.entry }) (said_by_units (units_of group.now))) ≡ true) }
{
    let Some(unit) = lone_unit(group) else {
        return take_each(alloc, state, joined, group);
    };
    let word = Word::of(unit);
    match take_word(alloc, state, joined, word) {
        Ok(heard) => {
            let reactions = Reactions::of(alloc, heard);
            Ok(reactions)
        }
        Err(error) => Err(error),
    }
}

pub(crate) fn either(one: bool, other: bool) -> bool
    ensures { result ≡ (one || other) }
{
    one || other
}

/// A TSDU that is not session units. In Aborting and Ended it is discarded unread.
#[tactic(auto, unfolding(crate::specs::Respond::respond_fault))]
pub(crate) fn judge_unread(state: &State, fault: SpduFault) -> Reaction
    ensures { outcome_of result ≡ respond_fault state.now fault }
{
    if state.phase.is_over() {
        return Reaction::silent(*state);
    }
    Reaction::bad(state, UnitFault::Spelling(fault))
}

/// Whether data is indicated now and changes nothing: the phase expects it, and the peer has the data token.
#[tactic(auto, using(crate::proofs::tables::points_that_are_expected::data_is_shown))]
pub(crate) fn expects_data(state: &State) -> bool
    ensures { (octets : List ℕ) → result ≡ true → respond_unit state.now (DT octets) ≡ shows state.now (Data octets) }
{
    state.phase.takes_data() && !state.held.data_token
}
