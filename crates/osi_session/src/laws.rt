//! Laws of the definitions that the contracts cite. Each function does nothing: its clauses are the
//! laws.

ghost use Rattle.std.specs.Prelude.{◌≡◌, ◌+◌, ◌<◌, ◌≤◌, ◌⊎◌, ℕ, Bool, true, false, nat_le, ◌||◌, if◌then◌else◌, length, map, List, [], ◌∷◌};
ghost use Rattle.std.specs.Prelude.{◌++◌, Option, Some, None, Ok, is_some, option_map};
ghost use Rattle.std.specs.List.{AllByRecursion, list_any};
ghost use Rattle.std.specs.Int.RustNames.{bit_and};
ghost use Rattle.osi_session.specs.declared.faults.UnitFault.{UnitFault};
ghost use Rattle.osi_session.specs.declared.faults.UnitFault.TheVariants.{BadEnclosure};
ghost use Rattle.osi_spdu.specs.declared.faults.SpduFault.{SpduFault};
ghost use Rattle.osi_spdu.specs.declared.fields.ResyncType.{ResyncType};
ghost use Rattle.osi_message.specs.declared.places.Place.{Place};
ghost use Rattle.osi_message.specs.declared.places.Place.TheVariants.{First, Middle, Last};
ghost use Rattle.osi_spdu.specs.declared.fields.TsduMaximumSize.{TsduMaximumSize};
ghost use Rattle.osi_spdu.specs.declared.settings.TokenSetting.{TokenSetting};
ghost use Rattle.osi_spdu.specs.Known.{Units};
ghost use Rattle.osi_session.specs.declared.opening.Opening.{Opening};
ghost use Rattle.osi_session.specs.declared.plans.SentPoint.{SentPoint};
ghost use Rattle.osi_session.specs.declared.requests.Request.{Request};
ghost use Rattle.osi_session.specs.declared.state.State.{State};
ghost use Rattle.osi_message.specs.declared.tokens.Tokens.{Tokens};
ghost use Rattle.osi_session.specs.Allowed.{Step, allowed, most_data, most_user_data, sends, Passed};
ghost use Rattle.osi_session.specs.Calls.{Call, Data, Give, MinorConfirm, HasSerial, called_by};
ghost use Rattle.osi_session.specs.Causes.{asks_for_connection, is_taken, opens_connection, call_gives, unit_gives, call_holds, unit_holds};
ghost use Rattle.osi_session.specs.Causes.{renews};
ghost use Rattle.osi_message.specs.Meanings.{Meaning, AA, CN, DT, MIA, RF, RS};
ghost use Rattle.osi_session.specs.Numbers.{lower};
ghost use Rattle.osi_session.specs.Closing.{closes_alone, is_answer, awaits_close};
ghost use Rattle.osi_session.specs.declared.phases.Phase.{Phase};
ghost use Rattle.osi_session.specs.Phases.{is_wait_transport, is_wait_cn, is_aborting, is_over, is_ended, is_restarting, is_restart_due};
ghost use Rattle.osi_session.specs.Phases.{may_abort, may_hold, shows_loss, takes_data};
ghost use Rattle.osi_message.specs.Reading.{Said, alone, behind, said_by_units, said_at};
ghost use Rattle.osi_message.specs.Words.{Word, Words, says, part, part_octets};
ghost use Rattle.osi_session.specs.Joining.{Taker, is_in_place, kept_in, heard, word_verdict, respond_word, respond_words, respond_tsdu};
ghost use Rattle.osi_session.specs.Listening.{Input, is_opened, called, taken, unread, opened, refused, broken, came, rests};
ghost use Rattle.osi_session.specs.Listening.{answered as call_move, moved, begun, denied, Listener, taker_of, in_state, react};
ghost use Rattle.osi_session.specs.Listening.{after_input, after_inputs};
ghost use Rattle.osi_session.specs.Moves as whole;
ghost use Rattle.osi_session.specs.Kept.{IsKeptIn, IsKept, IsJoinedAs, IsNoFault, IsJoined};
ghost use Rattle.osi_session.specs.Parts.{Act, part_comes, act_in_words, act_in_octets, calls_in, AreParts, AreSilent, HasProfile};
ghost use Rattle.osi_session.specs.Units.{functional_units, has_data, is_profile};
ghost use Rattle.osi_spdu.specs.Fields.{unit_bits};
ghost use Rattle.osi_session.specs.Whole.{listening, standing_of, in_words, is_apart, joins};
ghost use Rattle.osi_message.specs.Parting.{is_whole, tsdus_of, tsdus_sent, in_one, AreFull};
ghost use Rattle.osi_message.specs.Written.{written};
ghost use Rattle.osi_session.specs.Points.{advanced, call_for, has_next, may_advance};
ghost use Rattle.osi_session.specs.Respond.{nothing, bad, becomes, respond_unit, respond_all, respond, respond_fault, lost, stands, drops};
ghost use Rattle.osi_session.specs.Respond.{verdict, enacted, fine, IsGood, has_no_effect, is_token_item, is_resynchronize, and_then};
ghost use Rattle.osi_session.specs.Respond.{faulty, si};
ghost use Rattle.osi_session.specs.Restarts.{HasAsked, AreCrossed, after_restart};
ghost use Rattle.osi_session.specs.Runs.{HasNumbers, HasNumbersInWords, IsFresh};
ghost use Rattle.osi_session.specs.Sessions.{awaiting, asking, Planned, IsPlanOf};
ghost use Rattle.osi_session.specs.Shown.{MinorConfirmed, shows_connect};
ghost use Rattle.osi_session.specs.Sizes.{answered, smaller_sizes, answered_sizes, fits_limit, limit_of, is_data, is_bounded};
ghost use Rattle.osi_session.specs.Sound.{IsSound};
ghost use Rattle.osi_session.specs.Standing.{Seen, CanSay};
ghost use Rattle.osi_session.specs.Steady.{is_steady, HearsAll};
ghost use Rattle.osi_message.specs.Tokens.{Token, has, is_disjoint, token_octet};
ghost use Rattle.osi_session.specs.Openings.{asked_for};
ghost use Rattle.osi_message.specs.Sendable.{IsSendable, said_of, words_of};

/// A *word* is a message, or one part of a Data. What a session sends can always be written: what an accepted call
/// sends, the answer to a TSDU, be it read as whole messages or as words, and the CN that a caller asks for. So
/// each of these reads back as [`osi_message::laws::what_is_sent_is_read`] says.
pub fn what_is_sent_can_be_sent()
    ensures called { (s : State) (c : Call) (x : Step) → IsSound s → HasSerial c → allowed s c ≡ Ok x → IsSendable x.sent }
    ensures replied { (s : State) (said : Said) (m : Meaning) → (respond s said).reply ≡ Some m → IsSendable m }
    ensures heard { (t : Taker) (words : Words) (m : Meaning) → (respond_tsdu t words).reply ≡ Some m → IsSendable m }
    ensures asked { (o : Opening) → length o.user_data.now < 65000 → IsSendable (asked_for o) }
{}

/// There are two tables: one for whole messages, and one for words, which also joins the parts of a Data. As long
/// as nothing is joined, both do the same with messages: with one message, with several, with a TSDU, with each
/// input of a session, and over every list of inputs. If something is joined, they still do the same with every
/// input that is no TSDU; the phase that the session then has decides whether the joined octets are kept or dropped
/// (`others`).
#[tactic(auto, using(crate::proofs::tables::messages_act_as_the_table_says::plain_word, crate::proofs::tables::messages_act_as_the_table_says::plain_words, crate::proofs::tables::messages_act_as_the_table_says::plain_tsdu, crate::proofs::tables::messages_act_as_the_table_says::moves_as_whole, crate::proofs::tables::messages_act_as_the_table_says::run_as_whole, crate::proofs::tables::messages_act_as_the_table_says::others))]
pub fn messages_do_what_they_did()
    ensures word { (s : State) (u : Meaning) → respond_word (record { state = s; joined = None }) (says u) ≡ heard None (respond_unit s u) }
    ensures words { (s : State) (us : List Meaning) → respond_words (record { state = s; joined = None }) (map says us)
        ≡ heard None (respond_all s us) }
    ensures tsdu { (s : State) (said : Said) → respond_tsdu (record { state = s; joined = None }) (map says said)
        ≡ heard None (respond s said) }
    ensures moves { (s : whole.Standing) (input : whole.Input) → react (listening s) (in_words input) ≡ joins None (whole.react s input) }
    ensures run { (s : whole.Standing) (inputs : List whole.Input) → after_inputs (listening s) (map in_words inputs)
        ≡ listening (whole.after_inputs s inputs) }
    ensures others { (l : Listener) (input : whole.Input) → kept_in l.state.phase l.joined ≡ l.joined → is_apart input ≡ true →
        react l (in_words input) ≡ joins l.joined (whole.react (standing_of l) input) }
{}

/// What each kind of input does to a session. A call, the words of a TSDU, octets that are no session units, and
/// the loss of the transport connection do what the tables say. The news that the transport connection is open, or
/// was refused, has an effect only while the session waits for that news.
#[tactic(auto, using(crate::proofs::moves::the_move_of_each_input::of_call, crate::proofs::moves::the_move_of_each_input::of_words, crate::proofs::moves::the_move_of_each_input::of_fault, crate::proofs::moves::the_move_of_each_input::of_opened, crate::proofs::moves::the_move_of_each_input::of_refused, crate::proofs::moves::the_move_of_each_input::of_broken, crate::proofs::moves::the_move_of_each_input::not_opened, crate::proofs::moves::the_move_of_each_input::not_refused))]
pub fn what_each_input_does()
    ensures called { (l : Listener) (c : Call) → react l (called c) ≡ call_move l (allowed l.state c) }
    ensures taken { (l : Listener) (words : Words) → react l (taken words) ≡ moved l (respond_tsdu (taker_of l) words) }
    ensures unread { (l : Listener) (fault : SpduFault) → react l (unread fault) ≡ moved l (heard l.joined (respond_fault l.state fault)) }
    ensures opened { (l : Listener) → is_wait_transport l.state.phase ≡ true → react l opened ≡ begun l }
    ensures refused { (l : Listener) (reason : ℕ) → is_wait_transport l.state.phase ≡ true → react l (refused reason) ≡ denied reason l }
    ensures broken { (l : Listener) → react l broken ≡ moved l (heard l.joined (lost l.state)) }
    ensures not_opened { (l : Listener) → is_wait_transport l.state.phase ≡ false → react l opened ≡ rests l }
    ensures not_refused { (l : Listener) (reason : ℕ) → is_wait_transport l.state.phase ≡ false → react l (refused reason) ≡ rests l }
{}

/// What is sent is taken as it was meant: the octets of a message have the effect of that message, and the octets
/// of a part have the effect of that part. This holds of what an accepted call sends, of the answer to a TSDU, and
/// of the CN that a caller asks for.
pub fn what_is_sent_is_taken()
    ensures message { (l : Listener) (m : Meaning) → IsSendable m →
        react l (came (written m)) ≡ moved l (respond_word (taker_of l) (says m)) }
    ensures part { (l : Listener) (place : Place) (octets : List ℕ) →
        react l (came (part_octets place octets)) ≡ moved l (respond_word (taker_of l) (part place octets)) }
    ensures called { (sender : State) (c : Call) (x : Step) (l : Listener) → IsSound sender → HasSerial c → allowed sender c ≡ Ok x →
        react l (came (written x.sent)) ≡ moved l (respond_word (taker_of l) (says x.sent)) }
    ensures replied { (sender : Taker) (words : Words) (m : Meaning) (l : Listener) → (respond_tsdu sender words).reply ≡ Some m →
        react l (came (written m)) ≡ moved l (respond_word (taker_of l) (says m)) }
    ensures asked { (o : Opening) (l : Listener) → length o.user_data.now < 65000 →
        react l (came (written (asked_for o))) ≡ moved l (respond_word (taker_of l) (says (asked_for o))) }
{
    osi_message::laws::what_is_sent_is_read();
    osi_message::laws::what_a_part_says();
}

/// An input that closes the transport connection sends nothing, and ends the session. It is a TSDU with one unit,
/// RF, DN, AB or AA, that comes while the session is connecting, releasing or aborting. (An AB that follows a DN
/// would still be answered, but no octets spell both in one TSDU.) A call leaves the transport connection open.
#[tactic(auto, using(crate::proofs::moves::what_closes_the_connection::unit_silent, crate::proofs::moves::what_closes_the_connection::words_silent, crate::proofs::moves::what_closes_the_connection::octets_alone, crate::proofs::moves::what_closes_the_connection::octets_silent, crate::proofs::moves::what_closes_the_connection::call_open, crate::proofs::moves::what_closes_the_connection::whole_ends, crate::proofs::moves::what_closes_the_connection::input_ends, crate::proofs::tsdu::the_answer_to_a_tsdu::octets_awaited))]
pub fn what_closes_sends_nothing()
    ensures unit { (s : State) (u : Meaning) → (respond_unit s u).closes ≡ true → (respond_unit s u).reply ≡ None }
    ensures said { (t : Taker) (words : Words) → closes_alone words ≡ true → (respond_tsdu t words).closes
        ≡ true → (respond_tsdu t words).reply ≡ None }
    ensures alone { (octets : List ℕ) (words : Words) → said_at octets ≡ Ok words → closes_alone words ≡ true }
    ensures octets { (l : Listener) (octets : List ℕ) → (react l (came octets)).closes ≡ true → (react l (came octets)).reply ≡ None }
    ensures call { (l : Listener) (c : Call) → (react l (called c)).closes ≡ false }
    ensures ended { (s : whole.Standing) (input : whole.Input) → (whole.react s input).closes ≡ true →
        is_ended (whole.after_input s input).state.phase ≡ true }
    ensures last { (l : Listener) (input : Input) → (react l input).closes ≡ true → is_ended (after_input l input).state.phase ≡ true }
    ensures awaited { (l : Listener) (octets : List ℕ) → (react l (came octets)).closes ≡ true → awaits_close l.state.phase ≡ true }
{}

/// A session that answers a TSDU by itself is over: it sends RF and has ended, or sends AB and is aborted, or sends
/// AA and has ended. After an abort it answers nothing more. After its end it answers only an AB, with AA.
pub fn what_answers_is_over()
    ensures unit { (s : State) (u m : Meaning) → (respond_unit s u).reply ≡ Some m →
        (is_answer m ≡ true) × (is_over (respond_unit s u).next.phase ≡ true) }
    ensures octets { (l : Listener) (octets : List ℕ) (m : Meaning) → (react l (came octets)).reply ≡ Some m →
        (is_answer m ≡ true) × (is_over (after_input l (came octets)).state.phase ≡ true) }
    ensures aborting { (l : Listener) (octets : List ℕ) → is_aborting l.state.phase ≡ true → (react l (came octets)).reply ≡ None }
    ensures ended { (l : Listener) (octets : List ℕ) (m : Meaning) → is_ended l.state.phase ≡ true →
        (react l (came octets)).reply ≡ Some m → m ≡ AA }
{}

/// A call is accepted only if the user may abort: not before the transport connection is open, not while a CN is
/// awaited, and not after an abort or the end. No input makes a session wait for the transport connection again. Any
/// input before the transport connection is open leaves the session waiting for it, or ends the session.
#[tactic(auto, using(crate::proofs::tsdu::the_answer_to_a_tsdu::accepted_callable, crate::proofs::tsdu::the_answer_to_a_tsdu::callable_open, crate::proofs::runs::what_every_run_preserves::input_begun, crate::proofs::tsdu::the_answer_to_a_tsdu::input_waits))]
pub fn where_a_call_is_accepted()
    ensures phase { (s : State) (c : Call) (x : Step) → allowed s c ≡ Ok x → may_abort s.phase ≡ true }
    ensures live { (p : Phase) → may_abort p ≡ true → (is_wait_transport p ≡ false) × (is_wait_cn p ≡ false) × (is_over p ≡ false) }
    ensures begun { (l : Listener) (input : Input) → is_wait_transport (after_input l input).state.phase ≡ true →
        is_wait_transport l.state.phase ≡ true }
    ensures waiting { (l : Listener) (input : Input) → is_opened input ≡ false → is_wait_transport l.state.phase ≡ true →
        (is_wait_transport (after_input l input).state.phase || is_over (after_input l input).state.phase) ≡ true }
{}

/// The first indication at a called side is a `Connect`. While a CN is awaited, and after an abort or the end, the
/// user isn't told of a loss of the transport connection. An input that leads from such a phase to one in which he
/// is told indicates a `Connect` (`first`). Only a TSDU indicates one (`taken`), and it has a CN, alone in it
/// (`asked`, X.225 section 6.3.7).
#[tactic(auto, using(crate::proofs::runs::the_first_indication_is_a_connect::shown_first, crate::proofs::runs::the_first_indication_is_a_connect::only_taken, crate::proofs::runs::the_first_indication_is_a_connect::octets_ask))]
pub fn what_a_user_is_shown_first()
    ensures first { (l : Listener) (input : Input) → shows_loss l.state.phase ≡ false →
        shows_loss (after_input l input).state.phase ≡ true →
        shows_connect (react l input).shown ≡ true }
    ensures taken { (l : Listener) (input : Input) → shows_connect (react l input).shown ≡ true → is_taken input ≡ true }
    ensures asked { (l : Listener) (octets : List ℕ) → shows_connect (react l (came octets)).shown ≡ true →
        asks_for_connection (came octets) ≡ true }
{}

/// A session first comes to a verdict on a unit and then carries it out; the table of units does nothing else
/// (`enacted`). If the session isn't over and doesn't discard the unit, and the unit is one that the phase expects
/// and that meets its conditions, the verdict is good (`good`).
#[tactic(auto, using(crate::proofs::tables::the_verdict_on_a_unit::enacts, crate::proofs::tables::the_verdict_on_a_unit::good_is_fine))]
pub fn what_becomes_of_a_unit()
    ensures enacted { (s : State) (u : Meaning) → respond_unit s u ≡ enacted s u (verdict s u) }
    ensures good { (s : State) (u : Meaning) → is_over s.phase ≡ false → drops s u ≡ false → IsGood s u → verdict s u ≡ fine }
{}

/// A GT or PT that names no token changes nothing, in a TSDU of its own or before other units. So a unit after it
/// has the effect of the unit alone.
#[tactic(auto, using(crate::proofs::tables::the_verdict_on_a_unit::no_effect, crate::proofs::tables::the_verdict_on_a_unit::in_front_of_all, crate::proofs::tables::the_verdict_on_a_unit::in_front, crate::proofs::tables::the_verdict_on_a_unit::of_said))]
pub fn an_empty_token_item_changes_nothing()
    ensures item { (s : State) (item : Meaning) → has_no_effect item ≡ true → respond_unit s item ≡ nothing s }
    ensures units { (s : State) (item : Meaning) (units : List Meaning) → has_no_effect item ≡ true →
        respond s (item ∷ units) ≡ respond_all s units }
    ensures in_front { (s : State) (item u : Meaning) → has_no_effect item ≡ true → respond s (behind item u) ≡ respond_unit s u }
    ensures said { (s : State) (u : Meaning) → respond s (said_of u) ≡ respond_unit s u }
{}

/// A TSDU of one unit has the effect of that unit. In a TSDU of a GT or PT and another unit, the tokens are given
/// or asked for after the other unit has taken effect, and not at all if the other unit is an RS.
#[tactic(auto, using(crate::proofs::tables::the_verdict_on_a_unit::said_alone, crate::proofs::tables::the_verdict_on_a_unit::item_and_unit))]
pub fn what_two_units_do()
    ensures alone { (s : State) (u : Meaning) → respond s (alone u) ≡ respond_unit s u }
    ensures behind { (s : State) (item u : Meaning) → is_token_item item ≡ true → respond s (behind item u) ≡
        (if is_resynchronize u then respond_unit s u else and_then (respond_unit s u) (respond_unit (respond_unit s u).next item)) }
{}

/// A TSDU leads to at most one indication for each of its words.
#[tactic(auto, using(crate::proofs::tsdu::how_many_indications::words_show))]
pub fn what_a_tsdu_shows()
    ensures { (t : Taker) (words : Words) → length (respond_tsdu t words).shown ≤ length words }
{}

/// An accepted call passed each test of its row in the table: its phase, the length of its user data, and the size of
/// its TSDU. It has the result that the row says. A call that passes each test is accepted.
#[tactic(auto, using(crate::proofs::tables::what_an_accepted_call_has_passed::passed, crate::proofs::tables::what_an_accepted_call_has_passed::accepted))]
pub fn what_an_accepted_call_passed()
    ensures passed { (s : State) (c : Call) (x : Step) → allowed s c ≡ Ok x → Passed s c x }
    ensures accepted { (s : State) (c : Call) (x : Step) → Passed s c x → allowed s c ≡ Ok x }
{}

/// What sizes of a TSDU a CN and an AC agree on, in one direction. The AC names a size if the CN names one, and
/// none (0) if the CN names none. The size in the AC is at most that in the CN, and at most that of the answering
/// user, unless this is 0. The side that takes the AC arrives at the same sizes. The TSDU of an accepted call,
/// other than data, Accept and Refuse, is within the size of its direction, if there is one.
#[tactic(auto, using(crate::proofs::values::what_sizes_are_agreed::answered_named, crate::proofs::values::what_sizes_are_agreed::answered_asked, crate::proofs::values::what_sizes_are_agreed::answered_given, crate::proofs::values::what_sizes_are_agreed::sizes_agreed, crate::proofs::values::what_sizes_are_agreed::sent_under))]
pub fn what_sizes_are_agreed()
    ensures named { (a b : ℕ) → 0 < a → 0 < answered a b }
    ensures asked { (a b : ℕ) → answered a b ≤ a }
    ensures given { (a b : ℕ) → 0 < b → answered a b ≤ b }
    ensures same { (asked given : TsduMaximumSize) → smaller_sizes asked (answered_sizes asked given) ≡ answered_sizes asked given }
    ensures within { (s : State) (c : Call) (x : Step) → allowed s c ≡ Ok x → is_bounded c ≡ true → 0 < limit_of s →
        length (written x.sent) ≤ limit_of s }
{}

/// An accepted call sends one TSDU. Only data whose TSDU would exceed the size of its direction is sent in several;
/// all of these but the last have exactly that size, and the last has at most that size. None has more than 1,048,576
/// octets.
pub fn what_a_call_sends()
    ensures alone { (s : State) (c : Call) (x : Step) → allowed s c ≡ Ok x → is_data c ≡ false →
        tsdus_of (limit_of s) x.sent ≡ in_one x.sent }
    ensures whole { (s : State) (octets : List ℕ) (x : Step) → allowed s (Data octets) ≡ Ok x → is_whole (limit_of s) octets ≡ true →
        tsdus_of (limit_of s) x.sent ≡ in_one x.sent }
    ensures full { (s : State) (octets : List ℕ) (x : Step) → IsSound s → allowed s (Data octets) ≡ Ok x → 0 < limit_of s →
        AreFull (limit_of s) (tsdus_of (limit_of s) x.sent) }
    ensures short { (s : State) (octets : List ℕ) (x : Step) → IsSound s → allowed s (Data octets) ≡ Ok x →
        AllByRecursion (λ tsdu. length tsdu ≤ 1048576) (tsdus_of (limit_of s) x.sent) }
{
    osi_message::laws::what_leaves_in_parts();
}

/// The numbers in a call, and in the units of a TSDU, are numbers that a point may have, and the sizes in a call are
/// sizes that a user may give.
#[tactic(auto, using(crate::proofs::runs::the_invariant_in_memory::request_small, osi_message::proofs::numbers_are_those_of_points::units_numbered))]
pub fn what_happens_has_numbers()
    ensures request { (request : Request) → HasNumbersInWords (called (called_by request)) }
    ensures units { (units : Units) → HasNumbersInWords (taken (said_by_units units)) }
{}

/// Over every list of calls, TSDUs and events of the transport connection, from the first state of a called or a
/// calling side: V(A) and V(R) are between the base and V(M), which is at most 1,000,000; an outstanding major
/// point has a number, and so has a restart that is to be answered; tokens are held only in Ready, MajorAsked,
/// MajorDue, Releasing and ReleaseDue; and each size is 0, or 64 to 65,535. This holds of both tables, of whole
/// messages (`kept`) and of words (`heard`).
#[tactic(auto, using(crate::proofs::runs::what_every_run_preserves::awaiting_fresh, crate::proofs::runs::what_every_run_preserves::asking_fresh, crate::proofs::runs::what_every_run_preserves::fresh_sound, crate::proofs::runs::what_every_run_preserves::whole_sound, crate::proofs::runs::what_every_run_preserves::inputs_sound))]
pub fn numbers_stay_in_order()
    ensures called { IsFresh awaiting }
    ensures caller { (o : Opening) → IsFresh (asking o) }
    ensures begins { (s : State) → IsFresh s → IsSound s }
    ensures kept { (s : whole.Standing) (inputs : List whole.Input) → AllByRecursion HasNumbers inputs → IsSound s.state →
        IsSound (whole.after_inputs s inputs).state }
    ensures heard { (l : Listener) (inputs : List Input) → AllByRecursion HasNumbersInWords inputs → IsSound l.state →
        IsSound (after_inputs l inputs).state }
{}

/// Whatever happens, a session that is aborted or ended stays so, and one that has ended stays ended. A session that
/// loses its transport connection has ended.
#[tactic(auto, using(crate::proofs::runs::what_every_run_preserves::stays_over, crate::proofs::runs::what_every_run_preserves::stays_ended, crate::proofs::runs::what_every_run_preserves::lost_ended))]
pub fn an_ended_session_stays_ended()
    ensures over { (l : Listener) (inputs : List Input) → is_over l.state.phase ≡ true →
        is_over (after_inputs l inputs).state.phase ≡ true }
    ensures ended { (l : Listener) (inputs : List Input) → is_ended l.state.phase ≡ true →
        is_ended (after_inputs l inputs).state.phase ≡ true }
    ensures lost { (l : Listener) → is_ended (after_input l broken).state.phase ≡ true }
{}

/// A session can begin to hold tokens only when a connection is opened: by a call of Accept or RestartConfirm, or by a
/// TSDU with an AC or an RA. The same holds over every list of inputs.
#[tactic(auto, using(crate::proofs::moves::what_leads_to_tokens::input_opened, crate::proofs::moves::what_leads_to_tokens::some_opened))]
pub fn what_opens_a_connection()
    ensures input { (l : Listener) (input : Input) → may_hold l.state.phase ≡ false →
        may_hold (after_input l input).state.phase ≡ true → opens_connection input ≡ true }
    ensures inputs { (l : Listener) (inputs : List Input) → may_hold l.state.phase ≡ false →
        may_hold (after_inputs l inputs).state.phase ≡ true → list_any opens_connection inputs ≡ true }
{}

/// Tokens that are given were held, and are not held afterwards. A token is held after a call or a unit only if it was
/// held before, or if the call (Accept, RestartConfirm) or the unit (AC, RA, GT) gives it to this side.
pub fn a_token_is_not_given_and_kept()
    ensures given { (s : State) (tokens : Tokens) (x : Step) (t : Token) → allowed s (Give tokens) ≡ Ok x → has tokens t ≡ true →
        (has s.held t ≡ true) × (has x.next.held t ≡ false) }
    ensures call { (s : State) (c : Call) (x : Step) (t : Token) → allowed s c ≡ Ok x → has x.next.held t ≡ true →
        (has s.held t || call_gives s c t) ≡ true }
    ensures unit { (s : State) (u : Meaning) (t : Token) → has (respond_unit s u).next.held t ≡ true →
        (has s.held t || unit_gives s u t) ≡ true }
{}

/// Exactly which tokens a session holds after an accepted call, after a good unit, and after a bad unit (none). And
/// if two sets of tokens have no token in common, the octets that stand for them have no bit in common (`octets`).
#[tactic(auto, using(crate::proofs::moves::what_gives_a_token::call_holds_it, crate::proofs::moves::what_gives_a_token::unit_holds_it, crate::proofs::moves::what_gives_a_token::bad_holds_none, crate::proofs::values::sets_of_tokens::disjoint_octets))]
pub fn what_is_held()
    ensures call { (s : State) (c : Call) (x : Step) (t : Token) → allowed s c ≡ Ok x → has x.next.held t ≡ call_holds s c t }
    ensures good { (s : State) (u : Meaning) (t : Token) → has (becomes s u).held t ≡ unit_holds s u t }
    ensures bad { (s : State) (fault : UnitFault) (t : Token) → has (bad s fault).next.held t ≡ false }
    ensures octets { (a b : Tokens) → is_disjoint a b ≡ true → bit_and (token_octet a) (token_octet b) ≡ 0 }
{}

/// A plan that is carried out in the state in which it was made has the effect of its call, and sends what the call
/// sends. So the laws over lists of inputs also hold of runs with plans. A session that is aborted or ended has no
/// plan.
pub fn a_plan_is_its_call()
    ensures step { (l : Listener) (call : Call) (plan : Planned) → IsPlanOf call plan → plan.was ≡ l.state →
        in_state l plan.next ≡ after_input l (called call) }
    ensures sent { (l : Listener) (call : Call) (plan : Planned) → IsPlanOf call plan → plan.was ≡ l.state →
        plan.sent ≡ tsdus_sent (limit_of l.state) (react l (called call)).reply }
    ensures live { (call : Call) (plan : Planned) → IsPlanOf call plan → is_over plan.was.phase ≡ false }
{}

/// A *planned point* is a minor point, or the confirmation of one, that is sent first and then noted in the
/// session. After it the session continues as after the call for it, whatever user data the call has. It may be
/// noted exactly if it has the right number and such a call would be accepted, apart from its lengths.
#[tactic(auto, using(crate::proofs::tables::points_that_are_expected::point_steps, crate::proofs::tables::points_that_are_expected::point_may, crate::proofs::tables::points_that_are_expected::point_accepted))]
pub fn a_point_is_its_call()
    ensures step { (l : Listener) (p : SentPoint) (confirm : Bool) (octets : List ℕ) → (react
        l (called (call_for p confirm octets))).error ≡ None →
        after_input l (called (call_for p confirm octets)) ≡ advanced l p }
    ensures may { (l : Listener) (p : SentPoint) (confirm : Bool) (octets : List ℕ) → has_next l.state p ≡ true →
        (react l (called (call_for p confirm octets))).error ≡ None → may_advance l.state p ≡ true }
    ensures accepted { (l : Listener) (p : SentPoint) (confirm : Bool) (octets : List ℕ) → may_advance l.state p ≡ true →
        nat_le (length octets) most_user_data ≡ true →
        fits_limit l.state (call_for p confirm octets) (sends l.state (call_for p confirm octets)) ≡ true →
        (react l (called (call_for p confirm octets))).error ≡ None }
{}

/// Two restarts that cross: at both sides the lower number takes effect, and if they are equal, the caller's. In each
/// case both sides continue from the lower number, and one of them has a restart to answer while the other awaits the
/// answer.
pub fn a_restart_that_crosses_another()
    ensures equal { (caller other : State) → AreCrossed caller other → caller.numbers.next ≡ other.numbers.next →
        (stands other caller.numbers.next ≡ true) × (stands caller other.numbers.next ≡ false) }
    ensures lower { (one other : State) → HasAsked one → HasAsked other → one.numbers.next < other.numbers.next →
        (stands other one.numbers.next ≡ true) × (stands one other.numbers.next ≡ false) }
    ensures agreed { (caller other : State) (wishes asked : TokenSetting) (octets others : List ℕ) → AreCrossed caller other →
        ((after_restart caller other.numbers.next asked others).numbers.next ≡ lower caller.numbers.next other.numbers.next)
        × ((after_restart other caller.numbers.next wishes octets).numbers.next ≡ lower caller.numbers.next other.numbers.next) }
    ensures one_answers { (caller other : State) (wishes asked : TokenSetting) (octets others : List ℕ) → AreCrossed caller other →
        ((is_restart_due (after_restart caller other.numbers.next asked others).phase ≡ true)
        × (is_restarting (after_restart other caller.numbers.next wishes octets).phase ≡ true))
        ⊎ ((is_restarting (after_restart caller other.numbers.next asked others).phase ≡ true)
        × (is_restart_due (after_restart other caller.numbers.next wishes octets).phase ≡ true)) }
{}

/// A confirmation of a minor point raises V(A) to the number after it: a MinorConfirm that is accepted, or an MIA that
/// is indicated. V(A) does not fall over any list of inputs in which no connection is opened by Accept or AC and no
/// restart is requested or taken. An RS that does not take effect changes no number.
#[tactic(auto, using(crate::proofs::moves::what_raises_v_a::call_confirms, crate::proofs::moves::what_raises_v_a::unit_confirms, crate::proofs::moves::what_raises_v_a::never_falls, crate::proofs::moves::what_raises_v_a::yielded))]
pub fn what_is_confirmed_stays_confirmed()
    ensures call { (s : State) (n : ℕ) (octets : List ℕ) (x : Step) → allowed s (MinorConfirm n octets) ≡ Ok x →
        (s.numbers.confirmed ≤ n) × (x.next.numbers.confirmed ≡ n + 1) }
    ensures unit { (s : State) (n : ℕ) (octets : List ℕ) → (respond_unit s (MIA n octets)).shown ≡ MinorConfirmed n octets ∷ [] →
        (respond_unit s (MIA n octets)).next.numbers.confirmed ≡ n + 1 }
    ensures kept { (l : Listener) (inputs : List Input) → AllByRecursion HasNumbersInWords inputs →
        AllByRecursion (λ i. renews i ≡ false) inputs → IsSound l.state →
        l.state.numbers.confirmed ≤ (after_inputs l inputs).state.numbers.confirmed }
    ensures yielded { (s : State) (kind : ResyncType) (n : ℕ) (wishes : TokenSetting) (octets : List ℕ) → stands s n ≡ false →
        (respond_unit s (RS kind n wishes octets)).next.numbers ≡ s.numbers }
{}

/// What a session has joined of a Data that comes in parts. Whatever happens, it has joined something only in a
/// phase that keeps it, in which tokens may be held, and at most 1,048,572 octets (`kept`, `held`). After some
/// parts of one Data it has joined their octets, or nothing if it discards data. A call of its user preserves that
/// (`called`), and so does the next part, if the whole Data would be no fault there (`begins`, `goes_on`). The last
/// part then has the effect that the whole Data has there (`ends`).
pub fn what_is_joined()
    ensures kept { (l : Listener) (inputs : List Input) → IsKept l → IsKept (after_inputs l inputs) }
    ensures held { (l : Listener) → IsKept l → is_some l.joined ≡ true → may_hold l.state.phase ≡ true }
    ensures called { (s : State) (joined begun : Option (List ℕ)) (c : Call) (x : Step) → allowed s c ≡ Ok x → IsJoinedAs s joined begun →
        IsJoinedAs x.next (kept_in x.next.phase joined) begun }
    ensures begins { (s : State) (joined : Option (List ℕ)) (o all : List ℕ) → length o ≤ most_data → IsKeptIn s.phase joined →
        IsNoFault s all →
        IsJoinedAs s joined None → IsJoined s joined (part First o) (Some o) }
    ensures goes_on { (s : State) (joined : Option (List ℕ)) (b o all : List ℕ) → length (b ++ o) ≤ most_data → IsKeptIn s.phase joined →
        IsNoFault s all →
        IsJoinedAs s joined (Some b) → IsJoined s joined (part Middle o) (Some (b ++ o)) }
    ensures ends { (s : State) (joined : Option (List ℕ)) (front last : List ℕ) → length (front ++ last) ≤ most_data →
        IsKeptIn s.phase joined →
        IsNoFault s (front ++ last) → IsJoinedAs s joined (Some front) →
        respond_word (record { state = s; joined = joined }) (part Last last)
        ≡ respond_word (record { state = s; joined = None }) (says (DT (front ++ last))) }
{}

/// Take a session that has joined nothing, and data that is no fault there. Over the parts of that Data, with any
/// calls of the receiver in between, the last part has the same effect as the whole Data after the calls alone; in
/// words, and in octets. The parts before it indicate and send nothing, and the calls indicate and send what they do
/// without the parts.
pub fn parts_are_the_whole()
    ensures words { (l : Listener) (acts : List Act) (front last : List ℕ) → l.joined ≡ None → HasProfile l.state →
        IsNoFault l.state (front ++ last) →
        length (front ++ last) ≤ most_data → AreParts None acts front →
        react (after_inputs l (map act_in_words acts)) (part_comes Last last)
        ≡ react (after_inputs l (calls_in acts)) (taken (words_of (DT (front ++ last)))) }
    ensures octets { (l : Listener) (acts : List Act) (front last : List ℕ) → l.joined ≡ None → HasProfile l.state →
        IsNoFault l.state (front ++ last) →
        length (front ++ last) ≤ most_data → AreParts None acts front →
        react (after_inputs l (map act_in_octets acts)) (came (part_octets Last last))
        ≡ react (after_inputs l (calls_in acts)) (came (written (DT (front ++ last)))) }
    ensures before { (l : Listener) (acts : List Act) (front last : List ℕ) → l.joined ≡ None → HasProfile l.state →
        IsNoFault l.state (front ++ last) →
        length (front ++ last) ≤ most_data → AreParts None acts front → AreSilent l l acts }
{
    osi_message::laws::what_is_sent_is_read();
    osi_message::laws::what_a_part_says();
}

/// The functional units that a caller requests, and those that are agreed, are half-duplex with any of the others, or
/// only duplex. This holds over every list of inputs, of a called side and of a caller that opened.
#[tactic(auto, using(crate::proofs::values::units_are_those_of_a_profile::awaiting_profile, crate::proofs::values::units_are_those_of_a_profile::asking_profile, crate::proofs::values::units_are_those_of_a_profile::inputs_profile))]
pub fn units_are_a_profile()
    ensures called { HasProfile awaiting }
    ensures caller { (o : Opening) → is_profile (unit_bits o.requirements) ≡ true → HasProfile (asking o) }
    ensures kept { (l : Listener) (inputs : List Input) → HasProfile l.state → HasProfile (after_inputs l inputs).state }
{}

/// The reason of a refusal. A CN without version 2 is answered by RF with reason 132; one with version 2 that names
/// neither half-duplex nor duplex, by reason 134 (X.225 section 8, refuse). A part that does not continue what is
/// joined is a bad enclosure, even if it is also too long.
#[tactic(auto, using(crate::proofs::tables::which_reason_comes_first::refused_version, crate::proofs::tables::which_reason_comes_first::refused_units, crate::proofs::tables::which_reason_comes_first::out_of_place))]
pub fn what_is_refused_for_which_reason()
    ensures version { (s : State) (requirements : ℕ) (serial : Option ℕ) (wishes : TokenSetting) (calling
        called : Option (List ℕ)) (sizes : TsduMaximumSize) (octets : List ℕ) →
        is_wait_cn s.phase ≡ true → (respond_unit s (CN false requirements serial wishes calling called sizes octets)).reply
        ≡ Some (RF 132 []) }
    ensures units { (s : State) (requirements : ℕ) (serial : Option ℕ) (wishes : TokenSetting) (calling
        called : Option (List ℕ)) (sizes : TsduMaximumSize) (octets : List ℕ) →
        is_wait_cn s.phase ≡ true → has_data (functional_units requirements) ≡ false →
        (respond_unit s (CN true requirements serial wishes calling called sizes octets)).reply ≡ Some (RF 134 []) }
    ensures part { (t : Taker) (place : Place) (octets : List ℕ) → takes_data t.state.phase ≡ true → t.state.held.data_token ≡ false →
        is_in_place t.joined place ≡ false → word_verdict t (part place octets) ≡ faulty (BadEnclosure (si (DT octets))) }
{}

/// A unit is *steady* here if it is data or a part of it, a minor point or its confirmation, a PT, or a GT that
/// names no token. Take a side that may send such a unit now, and may also send it after it took some TSDUs of its
/// peer without an answer to them. Both orders lead to the same state, and if the unit is sent first, the TSDUs get
/// no answer either. So an observer need not find out which came first.
#[tactic(auto, using(crate::proofs::ahead::beside_one_that_has_not_sent_it::may_be_first))]
pub fn what_may_be_said_first()
    ensures { (now later said said_later : Seen) (tsdus : List (List ℕ)) (w : Word) (n : ℕ) → is_steady w ≡ true →
        CanSay now w n said → HearsAll now tsdus later → CanSay later w n said_later → HearsAll said tsdus said_later }
{}
