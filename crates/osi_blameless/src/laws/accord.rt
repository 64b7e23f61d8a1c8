//! Two sides of a connection that kept the protocol are two sessions that make what passed on it. Each function does
//! nothing: its clauses are the laws.
//!
//! Read it if you want to know what it means that `osi judge` blames nobody. The judge looks at each side apart from the
//! other: it asks whether some session explains what the side sent, by what had passed of the other side before. That could
//! be too generous, if the two explanations contradicted each other. They don't: they are always one run of both sessions.
//!
//! - A `Pair` (`specs/accord/Pairs`) is two sessions, and the TSDUs in flight from each.
//! - `Accords` (`specs/accord/Accords`) is a run of a pair in which given TSDUs are sent in a given order. In each step a side
//!   takes the oldest TSDU in flight to it, sends a word, does both at once, or has sent all words of a TSDU, which is then in
//!   flight. What a session takes and what it may send is the definition of `osi_session` that the judge uses
//!   (`Takes`, `CanSay`).
//! - [`two_explained_sides_are_a_pair`]: two sides that are explained apart from each other have such a run, and only
//!   such sides have one. All that is needed is that each TSDU that counts as passed before another one stands before it.
//! - `IsAccord` (`specs/accord/Judges`) is such a run for a connection of a capture, of class 0 or 2, as a judge reads it (`osi_judge`).
//!   The TSDUs are sent in the order in which they had passed as a whole, and before a TSDU its side takes only what had passed
//!   before it. [`two_kept_sides_are_a_pair`]: if a judge finds that both sides kept the protocol there is one, and if there is
//!   one the judge blames neither side.
//!
//! The judge is wider than the sessions of this product, because X.225 allows more than they do. Three laws say by how much:
//!
//! - [`what_may_be_said_is_called`]: what a side may send is what an allowed call sends from the same state, and leaves
//!   the side as the call does, except for the liberties in `specs/accord/Liberties`.
//! - [`without_liberties_it_is_a_run_of_the_machine`]: a run that takes no liberty is a run of the machine of
//!   `osi_machine`, so all that is proved of that machine holds of it: no token is held by both sides, and neither side takes
//!   a fault. That machine has no refusal, accepted release or abort.
//! - [`calls_and_answers_are_a_run_of_the_whole_machine`]: a run in which each message is sent by a call, or is the answer
//!   of a session of this product, is a run of the machine of whole connections (`Tables` of `osi_machine`), in class 0. It may
//!   have refusals, releases and aborts.
//!
//! The laws speak of one connection, and of its sessions. They don't speak of the transport units around the TSDUs, nor of a TSDU
//! whose last packet is not in the capture.

ghost use Rattle.std.specs.Prelude.{◌≡◌, ◌<◌, ◌-◌, ◌^◌, ℕ, true, List, ◌∷◌, length, map, None, Some};
ghost use Rattle.std.specs.List.{AllByRecursion};
ghost use Rattle.osi_message.specs.Meanings.{Meaning};
ghost use Rattle.osi_message.specs.Sendable.{IsSendable};
ghost use Rattle.osi_message.specs.Words.{says};
ghost use Rattle.osi_message.specs.Written.{written};
ghost use Rattle.osi_session.specs.Standing.{CanSay, Seen, is_in_size, seen_called, seen_calling};
ghost use Rattle.osi_machine.specs.Core.{CanBeOffered, Offer, core_run, core_start, offer_sent};
ghost use Rattle.osi_machine.specs.AsTables.{IsTableRun};
ghost use Rattle.osi_machine.specs.Floor.{is_profile};
ghost use Rattle.osi_machine.specs.Machine.{Step};
ghost use Rattle.osi_machine.specs.Promises.{IsReached};
ghost use Rattle.osi_machine.specs.Sayings.{said_in};
ghost use Rattle.osi_machine.specs.Tables.{refusal};
ghost use Rattle.osi_machine.specs.Tables as tables;
ghost use Rattle.osi_side.specs.declared.directions.Direction.{Direction};
ghost use Rattle.osi_side.specs.declared.findings.Finding.{Finding};
ghost use Rattle.osi_side.specs.Captures.{Capture};
ghost use Rattle.osi_side.specs.Explaining.{IsExplained};
ghost use Rattle.osi_judge.specs.declared.connections.Connection.{Connection};
ghost use Rattle.osi_judge.specs.declared.rooms.Room.{Room};
ghost use Rattle.osi_judge.specs.declared.pasts.Past.{Past};
ghost use Rattle.osi_judge.specs.Connections.{Joined};
ghost use Rattle.osi_judge.specs.Holding.{HoldsJoined, line_in};
ghost use Rattle.osi_judge.specs.Pasts.{HoldsPast, outcome_in};
ghost use Rattle.osi_blameless.specs.accord.Accords.{Accords, AreInOrder, Sending, Turn, end_of, sending_of, told_by, tsdus_by};
ghost use Rattle.osi_blameless.specs.accord.Liberties.{IsCall, as_called, is_called};
ghost use Rattle.osi_blameless.specs.accord.Machines.{AreWritten, IsMessage, Plays, TakesNoLiberty, Utterance, connect_of, side_at, utters};
ghost use Rattle.osi_blameless.specs.accord.Pairs.{Pair, pair_of};
ghost use Rattle.osi_blameless.specs.accord.Judges.{IsAccord, IsFoundOn, IsToldOn, connection_in};
ghost use Rattle.osi_blameless.specs.accord.Wholes.{CallsAndAnswers, PlaysWhole, start_0, uttered_by, uttered_in};

use osi_message::laws::what_is_sent_is_read;
use osi_session::laws::{an_empty_token_item_changes_nothing, messages_do_what_they_did};

/// If each of two sides is explained by itself, by what had passed of the other side before each of its TSDUs, then there is one
/// run of both sessions (`pair`): they send these TSDUs in this order, and each side takes a TSDU only after the other has sent
/// it. And if there is such a run, each side is explained (`only`).
pub fn two_explained_sides_are_a_pair()
    ensures pair { (left right : Seen) (turns : List Turn) → AreInOrder 0 0 turns →
        IsExplained left (tsdus_by Direction.Right turns) (told_by Direction.Left turns) →
        IsExplained right (tsdus_by Direction.Left turns) (told_by Direction.Right turns) →
        Accords (map sending_of turns) (pair_of left right) }
    ensures only { (left right : Seen) (turns : List Turn) → Accords (map sending_of turns) (pair_of left right) →
        IsExplained left (tsdus_by Direction.Right turns) (told_by Direction.Left turns)
        × IsExplained right (tsdus_by Direction.Left turns) (told_by Direction.Right turns) }
{}

/// If a judge finds that both sides of a connection kept the protocol, there are two sessions, a calling and a called one, that make what
/// passed on it (`pair`), in class 0 and in class 2, among any number of other connections. They send all its whole TSDUs that are judged,
/// in the order in which these had passed as a whole. A side takes a TSDU after the other side has sent it, and before it sends a TSDU it
/// takes only those that had passed as a whole before the first packet of that one. And if there are two such sessions, the judge blames
/// neither side (`only`). What is found of a side is what the judge tells of the connection with this number: of one that has a place
/// (`told`, [`osi_judge::Judge::connection`], [`osi_judge::Connection::finding`]), or of one that is over and whose place another has
/// (`over`, [`osi_judge::Past::outcome`]).
///
/// All TSDUs that passed are judged, but for those after a break of transport that ends the judging of their side or of the
/// connection, and those beyond the bound of the judge, if it has one ([`osi_judge::Connection::is_over`]). It is assumed that the
/// number of the connection is below 2^64 - 1: a judge counts no further.
pub fn two_kept_sides_are_a_pair()
    ensures pair { (room : Room) (number : ℕ) (capture : Capture) → number < 2 ^ 64 - 1 →
        IsFoundOn Direction.Left room number capture Finding.Kept → IsFoundOn Direction.Right room number capture Finding.Kept →
        (turns : List Turn) × IsAccord room number capture turns }
    ensures only { (d : Direction) (room : Room) (number : ℕ) (capture : Capture) (turns : List Turn) (i : ℕ) →
        IsAccord room number capture turns → IsFoundOn d room number capture (Finding.Broke i) → ⊥ }
    ensures told { (d : Direction) (room : Room) (number : ℕ) (capture : Capture) (c : Connection) (j : Joined) →
        connection_in room number capture ≡ Some j → HoldsJoined c j → IsFoundOn d room number capture (line_in d c).side.finding }
    ensures over { (d : Direction) (room : Room) (number : ℕ) (capture : Capture) (p : Past) (j : Joined) →
        connection_in room number capture ≡ Some j → HoldsPast p j → IsToldOn d room number capture (outcome_in d p) }
{}

/// If a side may send a message, a session of this product in the same state allows a call that sends this message, and the call
/// leads to the same state. The judge takes liberties beyond that, because X.225 does. The message may differ from the one that
/// the call sends in the reason of an RF, in the settings of tokens that are not available of an AC, an RS or an RA, in the first
/// number of an AC, and in the bits of an AB ([`as_called`]). No call sends a CN; an AC with more functional units than the CN has,
/// or with a size where the CN has none; a GT or PT that names no token; or, with duplex, an FN of the called side
/// ([`is_called`]). A TSDU that is written shorter than this product writes it may also be within the agreed size when the
/// product's TSDU is not.
///
/// [`as_called`]: ../../specs/accord/Liberties.antt
/// [`is_called`]: ../../specs/accord/Liberties.antt
pub fn what_may_be_said_is_called()
    ensures { (s next : Seen) (m : Meaning) (octets : ℕ) → CanSay s (says m) octets next → is_called s.state m ≡ true →
        is_in_size s.state (length (written (as_called s.state m))) ≡ true → IsCall s (as_called s.state m) next }
{}

/// Take a run of two sessions that begins with the CN of a caller, and in which each TSDU is one message as this product writes
/// it. If no liberty is taken ([`TakesNoLiberty`]), it is a run of the machine of two sides that exchange whole messages
/// (`run`). The machine allows the calls, they send the same messages in the same order, and at the end the two sides of the
/// machine are in the states of the two sessions, with the same messages in flight. So what `osi_machine` proves of every state
/// that its machine reaches holds of the two sessions (`reached`): no token is held by both, and the next message in flight is
/// no fault at its receiver. That machine knows no refusal, no accepted release and no abort, so the run has none either;
/// for those see [`calls_and_answers_are_a_run_of_the_whole_machine`].
///
/// [`TakesNoLiberty`]: ../../specs/accord/Machines.antt
pub fn without_liberties_it_is_a_run_of_the_machine()
    ensures run { (o : Offer) (before : ℕ) (sent : List Sending) (messages : List Utterance)
        (run : Accords (connect_of o before ∷ sent) (pair_of seen_calling seen_called)) → IsSendable (offer_sent o) →
        AllByRecursion IsMessage messages → AreWritten sent messages → TakesNoLiberty run → Plays (core_start o) messages (end_of run) }
    ensures reached { (o : Offer) (messages : List Utterance) (last : Pair) (p : Plays (core_start o) messages last) → CanBeOffered o →
        is_profile o.requirements ≡ true → IsReached (core_run (core_start o) p.steps) }
{
    what_is_sent_is_read();
    messages_do_what_they_did();
    an_empty_token_item_changes_nothing();
}

/// Take a run of two sessions that begins with the CN of a caller, and in which each TSDU is one message as this product writes
/// it. If each message is the one that a call sends, or the answer that a session of this product gives to what it takes
/// ([`CallsAndAnswers`]), and the machine lets the caller ask for the connection, the run is one of the machine of whole
/// connections, with a transport connection of class 0 (`run`). Its steps send the same messages in the same order, each side
/// those of its own session (`said`). After them the two sides are in the states of the two sessions, with the same messages in
/// flight, and a side has ended if its session closed the transport connection. Refusals, releases, aborts and the answers to
/// them are among the messages; nothing is lost, and no transport connection breaks. So what `osi_machine` proves over every
/// list of steps holds of the two sessions (`reached`): no token is held by both, and no user is told of a fault. A run that
/// takes no liberty ([`TakesNoLiberty`]) is such a run (`wider`).
///
/// [`CallsAndAnswers`]: ../../specs/accord/Wholes.antt
/// [`TakesNoLiberty`]: ../../specs/accord/Machines.antt
pub fn calls_and_answers_are_a_run_of_the_whole_machine()
    ensures run { (o : Offer) (before : ℕ) (sent : List Sending) (messages : List Utterance)
        (run : Accords (connect_of o before ∷ sent) (pair_of seen_calling seen_called)) → IsSendable (offer_sent o) → CanBeOffered o →
        refusal start_0 o ≡ None → AllByRecursion IsMessage messages → AreWritten sent messages → CallsAndAnswers run →
        PlaysWhole start_0 (utters Direction.Left (offer_sent o) ∷ messages) (end_of run) }
    ensures said { (d : Direction) (steps : List Step) → said_in (side_at d) 1 start_0 steps ≡ uttered_by d (uttered_in start_0 steps) }
    ensures reached { (messages : List Utterance) (last : Pair) (p : PlaysWhole start_0 messages last) →
        IsTableRun (tables.run start_0 p.steps) }
    ensures wider { (sent : List Sending) (p : Pair) (run : Accords sent p) → TakesNoLiberty run → CallsAndAnswers run }
{
    what_is_sent_is_read();
    messages_do_what_they_did();
    an_empty_token_item_changes_nothing();
}
