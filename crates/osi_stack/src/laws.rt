//! Laws of one end. Each function does nothing: its clauses are the laws.

ghost use Rattle.std.specs.Prelude.{◌≡◌, ◌≢◌, ◌<◌, ◌≤◌, ◌^◌, ◌+◌, ◌⊎◌, ℕ, Bool, List, [], ◌∷◌, ◌++◌, None, Some, IsSome, IfSome, is_some};
ghost use Rattle.std.specs.Prelude.{false, true, length, map, take};
ghost use Rattle.std.specs.List.{flat_map};
ghost use Rattle.osi_tpkt.specs.Held.{fresh};
ghost use Rattle.osi_tpkt.specs.Packet.{IsPartial};
ghost use Rattle.osi_tpkt.specs.declared.cutting.Fed.{Fed};
ghost use Rattle.osi_tpdu.specs.Value.{Value, disconnect};
ghost use Rattle.osi_tpdu.specs.Writing.{written};
ghost use Rattle.osi_carrier.specs.Calls.{open_link};
ghost use Rattle.osi_carrier.specs.Coming.{IsSendable, AreComing};
ghost use Rattle.osi_carrier.specs.Place.{Place};
ghost use Rattle.osi_carrier.specs.Named.{AreNamed};
ghost use Rattle.osi_carrier.specs.Orderly.{RiseFrom};
ghost use Rattle.osi_carrier.specs.React.{react as carrier_react};
ghost use Rattle.osi_carrier.specs.Rows.{Rows, value_at};
ghost use Rattle.osi_carrier.specs.State.{Connection, closing, writes, moves, ends as carrier_ends};
ghost use Rattle.osi_carrier.specs.Told.{is_open};
ghost use Rattle.osi_carrier.specs.declared.ends.EndReason.TheVariants.{Closed, NoMemory};
ghost use Rattle.osi_session.specs.Calls.{Call, HasSerial};
ghost use Rattle.osi_message.specs.Meanings.{DT};
ghost use Rattle.osi_message.specs.Words.{part_octets};
ghost use Rattle.osi_message.specs.Written.{written as whole_octets};
ghost use Rattle.osi_message.specs.declared.places.Place.TheVariants.{Last};
ghost use Rattle.osi_session.specs.Allowed.{most_data};
ghost use Rattle.osi_session.specs.Joining.{joined_octets};
ghost use Rattle.osi_session.specs.Kept.{IsNoFault};
ghost use Rattle.osi_session.specs.Listening.{Input, Listener, called, came, react};
ghost use Rattle.osi_session.specs.Parts.{Act, AreParts, HasProfile, act_in_octets, calls_in};
ghost use Rattle.osi_session.specs.Phases.{is_ended, shows_loss};
ghost use Rattle.osi_stack.specs.Addresses.{addresses_at, asked_addresses, selectors_in};
ghost use Rattle.osi_stack.specs.Selectors.{selectors_told, shows_connect};
ghost use Rattle.osi_stack.specs.Calls.{call_error, table_error, connect_error, connects, carried, breaks, phase_at, first_shown};
ghost use Rattle.osi_stack.specs.Calls.{without_first};
ghost use Rattle.osi_stack.specs.Disconnecting.{LeavesOthers, disconnects};
ghost use Rattle.osi_stack.specs.Folds.{AllCameAbout};
ghost use Rattle.osi_stack.specs.Inputs.{AreMadeBy, Past, Step, StepsAlong, no_past};
ghost use Rattle.osi_stack.specs.Links.{IsSound, Soundness};
ghost use Rattle.osi_stack.specs.declared.connecting.Connect.{Connect};
ghost use Rattle.osi_class.specs.Link.{Standing};
ghost use Rattle.osi_class.specs.declared.terms.Class.TheVariants.{Zero};
ghost use Rattle.osi_class.specs.declared.terms.Local.{Local};
ghost use Rattle.osi_stack.specs.Coming.{after_unit, TakesSome};
ghost use Rattle.osi_stack.specs.Feeding.{Feeds};
ghost use Rattle.osi_stack.specs.Hearing.{after_packet, all_lost};
ghost use Rattle.osi_stack.specs.Messages.{Message, Effect, begins, IsWhole, Acts, effect_at, told_at, CanHear, Arrives, kept_at, Becomes};
ghost use Rattle.osi_stack.specs.Messages.{Says, AreLost, all_waiting, waiting_at, IsFirstOf};
ghost use Rattle.osi_stack.specs.Moving.{to_session};
ghost use Rattle.osi_stack.specs.Ordered.{IsOrdered, TellsLowest};
ghost use Rattle.osi_stack.specs.Parted.{to_session_along};
ghost use Rattle.osi_stack.specs.Rounds.{Round, RoundsAlong, RoundsAsking, AreInStep, calls_of};
ghost use Rattle.osi_stack.specs.Runs.{Call as EndCall, CallsAlong, CallsInRoom, Reads, AreAlike, AreAlikeByReference, AreAlikeInLive};
ghost use Rattle.osi_stack.specs.Runs.{LookAlike, used_in};
ghost use Rattle.osi_stack.specs.Settled.{IsSettled};
ghost use Rattle.osi_stack.specs.State.{Line, End, Holding, IsAttended, fresh_end, session_at, waits, used_lines};

use osi_message::laws::{what_a_part_says, what_is_sent_is_read};
use osi_session::laws::{
    an_ended_session_stays_ended, numbers_stay_in_order, parts_are_the_whole, units_are_a_profile,
    what_a_user_is_shown_first, what_an_accepted_call_passed, what_closes_sends_nothing,
    what_happens_has_numbers, what_is_joined, what_is_sent_can_be_sent, where_a_call_is_accepted,
};
use osi_spdu::laws::{few_octets_fit, serial_digits};
use osi_tpkt::laws::{a_prefix_of_a_packet, a_stream_has_one_cut, no_packet_begins_another};

/// However many octets are fed that the other end wrote, an end takes the units in them one after the other, up to
/// one that stops it or at which memory runs out.
pub fn what_was_written_is_heard()
    ensures unit { (e : End) (unit : Value) → IsSendable unit → after_packet e (written unit) ≡ after_unit e unit }
    ensures fed { (old new : Holding) (outgoing : List ℕ) (coming : List Value) (k : ℕ) (fed : Fed) → k ≤ length outgoing →
        AreComing old.held.octets outgoing coming → IsAttended old.end → old.end.carrier.ended ≡ None →
        Feeds old (take k outgoing) fed new → TakesSome old outgoing coming fed.used new }
    ensures attended { (e : End) (unit : Value) → IsAttended (after_unit e unit) }
{}

/// A transport unit may bring something to a session: a new connection, a TSDU, or news of the transport
/// connection. It then begins the session of its connection, or does to it what that input does in its present
/// state: the indications become pending, and what the session answers is sent. All other sessions stay as they
/// are.
pub fn what_a_message_does()
    ensures arrives { (r : ℕ) (place : Place) (m : Message) (unit : Value) (e : End) → IsWhole m →
        (carrier_react unit e.carrier).events ≡ told_at r place m → CanHear r (effect_at place m) e.lines →
        Arrives r (effect_at place m) unit e (after_unit e unit) }
    ensures becomes { (r : ℕ) (input : Input) (old new : End) (a : Acts r input old new) →
        Becomes r (react a.session input).next (react a.session input).shown old.lines new.lines }
{
    what_is_sent_is_read();
    what_a_part_says();
}

/// A call is accepted only if the table of its session allows it, on an open connection. Then one unit is sent, or
/// one Data in parts, and nothing is indicated.
pub fn what_a_call_says()
    ensures { (r : ℕ) (call : Call) (e : End) → call_error r call e ≡ None → Says r call e (to_session r (called call) e) }
{}

/// If a carrier ends, each session is lost. Its user receives the indication of a loss, if the state of the session
/// has one.
pub fn what_an_end_shows()
    ensures { (lines : Rows Line) → AreLost lines (all_lost lines) }
{}

/// An end has a *line* for each connection: its session and its pending indications. Indications are given in one
/// order: line after line, and of one connection the oldest first. Giving one changes no session. If the lines are
/// in the order of their references, as those of each end are, the next one is the oldest indication of the lowest
/// reference for which one is pending.
pub fn what_waits_is_told_in_order()
    ensures next { (lines : Rows Line) → IsFirstOf (first_shown lines) (all_waiting lines) (all_waiting (without_first lines)) }
    ensures lowest { (lines : Rows Line) → RiseFrom 0 lines → TellsLowest (first_shown lines) lines (without_first lines) }
    ensures sessions { (r : ℕ) (lines : Rows Line) → kept_at r (without_first lines) ≡ kept_at r lines }
    ensures none { (lines : Rows Line) → waits lines ≡ false → all_waiting lines ≡ [] }
    ensures lines { (r : ℕ) (live : Rows Connection) (lines : Rows Line) → is_some (value_at r live) ≡ true →
        value_at r (used_lines live lines) ≡ value_at r lines }
{}

/// Whatever is called and fed, while the carrier of an end lasts: each live connection and each line has a reference of
/// its own, which was given; and each session that can accept a call, or that awaits a CN, has an open transport
/// connection.
pub fn a_session_that_is_called_has_a_connection()
    ensures begins { (is_caller : Bool) (local : Local) → IsSound (fresh_end is_caller local) }
    ensures connects { (c : Connect) (e : End) → connect_error c e ≡ None → IsSound e → IsSound (connects c e) }
    ensures called { (r : ℕ) (call : Call) (e : End) → IsSound e → IsSound (to_session r (called call) e) }
    ensures fed { (old new : Holding) (piece : List ℕ) (fed : Fed) → Feeds old piece fed new → IsAttended old.end → IsSound old.end →
        IsSound new.end }
    ensures shown { (e : End) → IsSound e → IsSound (record e { lines = without_first e.lines }) }
    ensures carried { (octets : ℕ) (e : End) → IsSound e → IsSound (carried octets e) }
    ensures disconnected { (r : ℕ) (e : End) → IsSound e → IsSound (disconnects r e) }
    ensures broken { (e : End) → IsSound (breaks e) }
    ensures heard { (e : End) (unit : Value) → IsSendable unit → e.carrier.ended ≡ None → IsAttended e → IsSound e →
        IsSound (after_unit e unit) }
{
    an_ended_session_stays_ended();
    what_closes_sends_nothing();
    where_a_call_is_accepted();
}

/// Each session of an end is what its inputs made of it: it began awaiting a CN, or with one to send; then its calls,
/// the TSDUs that arrived and the events of its transport connection took effect one after the other. This holds
/// whatever is called and in whatever pieces octets arrive. So the laws of `osi_session` over lists of inputs apply.
pub fn a_session_is_what_its_inputs_made_it()
    ensures connects { (c : Connect) (e : End) → AllCameAbout e.lines → AllCameAbout (connects c e).lines }
    ensures called { (r : ℕ) (call : Call) (e : End) → HasSerial call → AllCameAbout e.lines →
        AllCameAbout (to_session r (called call) e).lines }
    ensures fed { (old new : Holding) (piece : List ℕ) (fed : Fed) → Feeds old piece fed new → AllCameAbout old.end.lines →
        AllCameAbout new.end.lines }
    ensures shown { (lines : Rows Line) → AllCameAbout lines → AllCameAbout (without_first lines) }
    ensures disconnected { (r : ℕ) (e : End) → AllCameAbout e.lines → AllCameAbout (disconnects r e).lines }
    ensures broken { (e : End) → AllCameAbout e.lines → AllCameAbout (breaks e).lines }
    ensures heard { (e : End) (unit : Value) → IsSendable unit → AllCameAbout e.lines → AllCameAbout (after_unit e unit).lines }
{
    what_happens_has_numbers();
}

/// The inputs of a session are exactly its user's calls, the TSDUs that arrived for it and the other events of its
/// carrier for its connection, all of them, in order; if its user gives the connection up, the session is lost at that
/// point. Take any list of steps from a new end, in which octets arrive and leave, indications are fetched, and its
/// user makes calls and gives up connections. While the end lasts, each session is what the inputs of its reference
/// made of its beginning: at a caller with the CN of the `connect` that was given the reference, at a called end
/// awaiting a CN.
pub fn a_session_is_made_by_what_came_for_it()
    ensures { (is_caller : Bool) (local : Local) (steps : List Step) (new : Holding) (past : Past) →
        StepsAlong (record { end = fresh_end is_caller local; held = fresh }) no_past steps new past → new.end.carrier.ended ≡ None →
        AreMadeBy past new.end }
{
    a_prefix_of_a_packet();
    a_stream_has_one_cut();
    an_ended_session_stays_ended();
    what_closes_sends_nothing();
    where_a_call_is_accepted();
}

/// A call gets the answer of its session's table, and the carrier adds no refusal of its own: a session that
/// accepts a call has an open transport connection, and what it sends is no longer than a TSDU may be.
pub fn a_call_is_answered_by_its_session()
    ensures { (r : ℕ) (call : Call) (e : End) → HasSerial call → e.carrier.ended ≡ None → Soundness e → AllCameAbout e.lines →
        call_error r call e ≡ table_error r call e }
{
    few_octets_fit();
    serial_digits();
    numbers_stay_in_order();
    what_is_sent_can_be_sent();
    what_an_accepted_call_passed();
    where_a_call_is_accepted();
}

/// The lines of an end are in the order in which their references were given, whatever is called, indicated and lost,
/// and whatever message arrives: a connection that begins has a reference above those given before. So the indication
/// that is given first is that of the lowest reference.
pub fn lines_rise_by_reference()
    ensures begins { (is_caller : Bool) (local : Local) → RiseFrom 0 (fresh_end is_caller local).lines }
    ensures connects { (c : Connect) (e : End) → Soundness e → RiseFrom 0 e.lines → RiseFrom 0 (connects c e).lines }
    ensures called { (r : ℕ) (call : Call) (e : End) → RiseFrom 0 e.lines → RiseFrom 0 (to_session r (called call) e).lines }
    ensures arrives { (r : ℕ) (effect : Effect) (unit : Value) (e new : End) → Arrives r effect unit e new → Soundness e →
        (effect ≡ begins → e.carrier.given < r) → RiseFrom 0 e.lines → RiseFrom 0 new.lines }
    ensures shown { (lines : Rows Line) → RiseFrom 0 lines → RiseFrom 0 (without_first lines) }
    ensures disconnected { (r : ℕ) (e : End) → RiseFrom 0 e.lines → RiseFrom 0 (disconnects r e).lines }
    ensures broken { (e : End) → RiseFrom 0 e.lines → RiseFrom 0 (breaks e).lines }
{}

/// The same for whole packets, including those with several units: the lines of an end stay in the order in which their
/// references were given, so the indication that is given first is that of the lowest reference.
pub fn lines_rise_whatever_comes()
    ensures begins { (is_caller : Bool) (local : Local) → IsOrdered (fresh_end is_caller local) }
    ensures connects { (c : Connect) (e : End) → connect_error c e ≡ None → IsSound e → IsOrdered e → IsOrdered (connects c e) }
    ensures called { (r : ℕ) (call : Call) (e : End) → IsOrdered e → IsOrdered (to_session r (called call) e) }
    ensures fed { (old new : Holding) (piece : List ℕ) (fed : Fed) → Feeds old piece fed new → IsAttended old.end → IsSound old.end →
        IsOrdered old.end → IsOrdered new.end }
    ensures shown { (e : End) → IsOrdered e → IsOrdered (record e { lines = without_first e.lines }) }
    ensures carried { (octets : ℕ) (e : End) → IsOrdered e → IsOrdered (carried octets e) }
    ensures disconnected { (r : ℕ) (e : End) → IsOrdered e → IsOrdered (disconnects r e) }
    ensures broken { (e : End) → IsOrdered e → IsOrdered (breaks e) }
{
    an_ended_session_stays_ended();
    what_closes_sends_nothing();
    where_a_call_is_accepted();
}

/// The invariant of an end is [`IsSettled`]: its carrier and its sessions agree, as that record says field by
/// field. It holds between any two calls, whatever was called, fed, indicated and lost. It also holds once the end
/// has ended, when none of its connections is live and no session is left. A stack keeps it as an invariant. So a
/// connection has addresses as soon as its user has requested it or has received a `Connect` (`known`).
///
/// [`IsSettled`]: ../specs/Settled.antt
pub fn an_end_is_settled_between_calls()
    ensures begins { (is_caller : Bool) (local : Local) → IsSettled (fresh_end is_caller local) }
    ensures connects { (c : Connect) (e : End) → connect_error c e ≡ None → IsSettled e → IsSettled (connects c e) }
    ensures called { (r : ℕ) (call : Call) (e : End) → HasSerial call → IsSettled e → IsSettled (to_session r (called call) e) }
    ensures fed { (old new : Holding) (piece : List ℕ) (fed : Fed) → Feeds old piece fed new → IsSettled old.end → IsSettled new.end }
    ensures shown { (e : End) → IsSettled e → IsSettled (record e { lines = without_first e.lines }) }
    ensures carried { (octets : ℕ) (e : End) → IsSettled e → IsSettled (carried octets e) }
    ensures disconnected { (r : ℕ) (e : End) → IsSettled e → IsSettled (disconnects r e) }
    ensures broken { (e : End) → IsSettled e → IsSettled (breaks e) }
    ensures over { (r : ℕ) (e : End) → IsSettled e → IsSome e.carrier.ended → session_at r e ≡ None }
    ensures gone { (r : ℕ) (e : End) → IsSettled e → IsSome e.carrier.ended → kept_at r e.lines ≡ None }
    ensures profile { (r : ℕ) (session : Listener) (e : End) → IsSettled e → kept_at r e.lines ≡ Some session → HasProfile session.state }
    ensures known { (r : ℕ) (e : End) → IsSettled e → IfSome (phase_at r e) (λ p. shows_loss p ≡ true → IsSome (addresses_at r e)) }
{
    an_ended_session_stays_ended();
    what_closes_sends_nothing();
    where_a_call_is_accepted();
    what_happens_has_numbers();
    units_are_a_profile();
    what_a_user_is_shown_first();
}

/// So between any two calls, a call gets the answer of its session's table. Once an end has ended, it accepts no
/// call.
pub fn a_call_of_a_settled_end_is_answered_by_its_session()
    ensures answered { (r : ℕ) (call : Call) (e : End) → HasSerial call → IsSettled e → call_error r call e ≡ table_error r call e }
    ensures over { (r : ℕ) (call : Call) (e : End) → IsSettled e → IsSome e.carrier.ended → IsSome (call_error r call e) }
{
    few_octets_fit();
    serial_digits();
    numbers_stay_in_order();
    what_is_sent_can_be_sent();
    what_an_accepted_call_passed();
    where_a_call_is_accepted();
}

/// So between any two calls, while an end lasts: a session that has joined octets of data whose last part is
/// missing has an open transport connection, and it has joined no more octets than one Data may have.
pub fn what_is_joined_has_a_connection()
    ensures opened { (r : ℕ) (session : Listener) (e : End) → IsSettled e → e.carrier.ended ≡ None → kept_at r e.lines ≡ Some session →
        is_some session.joined ≡ true → is_open r e.carrier ≡ true }
    ensures few { (r : ℕ) (session : Listener) (e : End) → IsSettled e → kept_at r e.lines ≡ Some session →
        length (joined_octets session.joined) ≤ most_data }
{
    what_is_joined();
}

/// A connection that was requested here has the addresses of the request. Any other has those of its CN, as soon as
/// its user has received a `Connect`. Nothing else that happens to its session changes its session selectors, nor
/// does anything that happens to another session. (Of the transport selectors `osi_carrier` says the same, in
/// `each_live_connection_has_its_tsaps`.)
pub fn what_addresses_a_connection_has()
    ensures asked { (c : Connect) (e : End) → Soundness e → AreNamed e.carrier → addresses_at (e.carrier.given + 1) (connects c e)
        ≡ Some (asked_addresses c) }
    ensures came { (r : ℕ) (input : Input) (session : Listener) (e : End) → kept_at r e.lines ≡ Some session →
        shows_connect (react session input).shown ≡ true →
        selectors_in (value_at r (to_session r input e).lines) ≡ selectors_told input }
    ensures kept { (r : ℕ) (input : Input) (session : Listener) (e : End) → kept_at r e.lines ≡ Some session →
        shows_connect (react session input).shown ≡ false →
        selectors_in (value_at r (to_session r input e).lines) ≡ selectors_in (value_at r e.lines) }
    ensures others { (q r : ℕ) (input : Input) (e : End) → q ≢ r → selectors_in (value_at q (to_session r input e).lines)
        ≡ selectors_in (value_at q e.lines) }
{}

/// Data in parts has the effect of the same data in one TSDU. Take the parts in order, with any calls of the session's
/// user in between; nothing is unfinished before, and the whole Data is no fault. After the last part the end is the
/// same as after these calls and the whole Data: the session, its pending indications, and what is put for the peer.
/// The functional units that this needs are those of every session of a settled end
/// ([`an_end_is_settled_between_calls`], `profile`).
pub fn parts_are_one_data()
    ensures { (r : ℕ) (session : Listener) (acts : List Act) (front last : List ℕ) (e : End) → kept_at r e.lines ≡ Some session →
        session.joined ≡ None → HasProfile session.state → IsNoFault session.state (front ++ last) → length (front ++ last) ≤ most_data →
        AreParts None acts front →
        to_session r (came (part_octets Last last)) (to_session_along r (map act_in_octets acts) e)
        ≡ to_session r (came (whole_octets (DT (front ++ last)))) (to_session_along r (calls_in acts) e) }
{
    parts_are_the_whole();
    what_is_sent_is_read();
    what_a_part_says();
}

/// Giving up a connection does not affect the others: as long as the end goes on, they are unchanged, including every
/// octet that they keep and have to send (`others`). In class 2 the end goes on (`lasts`); the octets to send are those
/// before, followed by a DR with reason 128, and what the connection had still to send is dropped with its link
/// (`asks`). In class 0 the end ends as by a close, and the octets to send stay (`zero`). If the transport connection
/// is not open, the carrier stays as it is (`rests`). No indication of the connection is pending (`hushed`); its
/// session, if there still is one, has ended (`over`); and a session that has ended indicates nothing, whatever happens
/// to it (`silent`).
pub fn what_a_disconnect_leaves()
    ensures others { (r : ℕ) (e : End) → (disconnects r e).carrier.ended ≡ None → LeavesOthers r e (disconnects r e) }
    ensures lasts { (r : ℕ) (e : End) → e.carrier.ended ≡ None → e.carrier.class ≢ Some Zero → (disconnects r e).carrier.ended ≡ None }
    ensures asks { (r peer : ℕ) (link : Standing) (e : End) → open_link r e.carrier ≡ Some (peer, link) → e.carrier.class ≢ Some Zero →
        (disconnects r e).carrier ≡ writes (disconnect peer r 128 [] ∷ []) (moves r (closing peer) e.carrier) }
    ensures zero { (r peer : ℕ) (link : Standing) (e : End) → open_link r e.carrier ≡ Some (peer, link) → e.carrier.class ≡ Some Zero →
        (disconnects r e).carrier ≡ carrier_ends Closed e.carrier }
    ensures rests { (r : ℕ) (e : End) → open_link r e.carrier ≡ None → (disconnects r e).carrier ≡ e.carrier }
    ensures hushed { (r : ℕ) (e : End) → waiting_at r (disconnects r e).lines ≡ [] }
    ensures over { (r : ℕ) (s : Listener) (e : End) → kept_at r (disconnects r e).lines ≡ Some s → is_ended s.state.phase ≡ true }
    ensures silent { (r : ℕ) (input : Input) (s : Listener) (e : End) → kept_at r e.lines ≡ Some s → is_ended s.state.phase ≡ true →
        waiting_at r (to_session r input e).lines ≡ waiting_at r e.lines }
{}

/// Between any two calls, while the carrier of an end lasts, the sessions have handled all its events.
pub fn all_that_is_told_is_heard()
    ensures begins { (is_caller : Bool) (local : Local) → IsAttended (fresh_end is_caller local) }
    ensures connects { (c : Connect) (e : End) → IsAttended e → IsAttended (connects c e) }
    ensures called { (r : ℕ) (call : Call) (e : End) → IsAttended e → IsAttended (to_session r (called call) e) }
    ensures fed { (old new : Holding) (piece : List ℕ) (fed : Fed) → Feeds old piece fed new → IsAttended old.end → IsAttended new.end }
    ensures disconnected { (r : ℕ) (e : End) → IsAttended e → IsAttended (disconnects r e) }
    ensures broken { (e : End) → IsAttended e → IsAttended (breaks e) }
{}

/// The pieces don't matter, nor when indications and octets are taken. Take any list of calls that feed an end,
/// fetch its indications and take its octets, after which it has not ended. The packets of the octets that it held
/// and used took effect, each whole and in order, each once no indication was pending, and nothing else did
/// (`calls`). So these are the same, whatever the pieces: the indications and their order, counting pending ones;
/// the octets put for the peer, counting those not yet sent; and each session, each connection and the unfinished
/// packet (`pieces`).
///
/// If the octets don't end an end in one list of pieces, they don't in any other, unless memory runs out (`lasts`).
/// If they end it and memory suffices, they end it for the same reason, in the same state and with the same
/// indications, whatever the pieces (`ends`). So all that can be seen of the end is the same (`seen`).
pub fn the_pieces_do_not_matter()
    ensures calls { (old new : Holding) (calls : List EndCall) → CallsAlong old calls new → new.end.carrier.ended ≡ None →
        Reads old calls new }
    ensures pieces { (old a b : Holding) (xs ys : List EndCall) → IsPartial old.held.octets → old.held.offset < 2 ^ 64 →
        CallsAlong old xs a → CallsAlong old ys b → flat_map used_in xs ≡ flat_map used_in ys →
        a.end.carrier.ended ≡ None → b.end.carrier.ended ≡ None → AreAlike a xs b ys × (a.held.offset ≡ b.held.offset) }
    ensures lasts { (old a b : Holding) (xs ys : List EndCall) → IsPartial old.held.octets → old.end.carrier.ended ≡ None →
        CallsAlong old xs a → CallsAlong old ys b → flat_map used_in xs ≡ flat_map used_in ys → a.end.carrier.ended ≡ None →
        (b.end.carrier.ended ≡ None) ⊎ (b.end.carrier.ended ≡ Some NoMemory) }
    ensures ends { (old a b : Holding) (xs ys : List EndCall) → IsPartial old.held.octets → old.held.offset < 2 ^ 64 →
        old.end.carrier.ended ≡ None →
        CallsInRoom old xs a → CallsInRoom old ys b → flat_map used_in xs ≡ flat_map used_in ys → a.end.carrier.ended ≢ None →
        AreAlike a xs b ys × (a.held.octets ≡ []) }
    ensures seen { (a b : Holding) (xs ys : List EndCall) → AreAlike a xs b ys → LookAlike a xs b ys }
{
    a_prefix_of_a_packet();
    a_stream_has_one_cut();
    no_packet_begins_another();
}

/// The same over whole runs, with the user's calls in between. A run is a list of rounds: in each, octets are used
/// and then the user makes a call. If two runs use the same octets in each round, in whatever pieces, and make the
/// same calls, the ends reach the same state, with the same indications and the same octets put (`rounds`). A
/// session may be called while indications are pending. A connection may be requested while only live connections
/// have pending ones. A connection may be given up, or a break found, only once none is pending.
///
/// After the rounds the same octets may end both ends, or both may have ended. If memory suffices there, the state
/// is still the same (`last`). After an end, as after a break, there are no rounds: no packet takes effect and no
/// call is accepted, and feeding, fetching and taking there change nothing that can be seen (`behind`).
///
/// The byte connection may also break while indications are pending, if nothing follows. Then the indications of
/// each reference are the same, in the same order, but not necessarily those of several references: 1 may be lost
/// before a pending indication of 2. Everything else is the same (`broken`).
///
/// `connect` drops the lines of connections that are gone and have no pending indications. So if it is called while
/// some are pending, one of two ends may keep such a line that the other has dropped (`asked`). If the runs began
/// with a settled end, the two are from there on the same except for lines of connections that are gone, whatever
/// arrives and is called, with the same indications and octets in the same order (`asking`, `asking_last`). So what
/// can be seen of them is the same (`asking_seen`), also if the byte connection breaks then, whatever is pending
/// (`asking_broken`).
pub fn whole_runs_do_not_hang_on_pieces()
    ensures rounds { (old a b : Holding) (xs ys : List Round) → IsPartial old.held.octets → old.held.offset < 2 ^ 64 →
        RoundsAlong old xs a → RoundsAlong old ys b → AreInStep xs ys → AreAlike a (calls_of xs) b (calls_of ys) }
    ensures last { (old c d a b : Holding) (xs ys : List Round) (zs ws : List EndCall) → IsPartial old.held.octets →
        old.held.offset < 2 ^ 64 →
        RoundsAlong old xs c → RoundsAlong old ys d → AreInStep xs ys →
        CallsInRoom c zs a → CallsInRoom d ws b → flat_map used_in zs ≡ flat_map used_in ws →
        AreAlike a (calls_of xs ++ zs) b (calls_of ys ++ ws) }
    ensures broken { (a b : Holding) (xs ys : List EndCall) → IsSettled a.end → IsSettled b.end → AreAlike a xs b ys →
        AreAlikeByReference (record a { end = breaks a.end }) xs (record b { end = breaks b.end }) ys }
    ensures seen { (a b : Holding) (xs ys : List EndCall) → AreAlikeByReference a xs b ys → LookAlike a xs b ys }
    ensures behind { (a b c d : Holding) (xs ys zs ws : List EndCall) → IsSome a.end.carrier.ended → LookAlike a xs b ys →
        CallsAlong a zs c → CallsAlong b ws d → LookAlike c (xs ++ zs) d (ys ++ ws) }
    ensures asked { (c : Connect) (a b : Holding) (xs ys : List EndCall) → AreAlike a xs b ys →
        AreAlikeInLive (record a { end = connects c a.end }) xs (record b { end = connects c b.end }) ys }
    ensures asking { (old a b : Holding) (xs ys : List Round) → IsSettled old.end → IsPartial old.held.octets → old.held.offset < 2 ^ 64 →
        RoundsAsking old xs a → RoundsAsking old ys b → AreInStep xs ys → AreAlikeInLive a (calls_of xs) b (calls_of ys) }
    ensures asking_last { (old c d a b : Holding) (xs ys : List Round) (zs ws : List EndCall) → IsSettled old.end →
        IsPartial old.held.octets →
        old.held.offset < 2 ^ 64 → RoundsAsking old xs c → RoundsAsking old ys d → AreInStep xs ys →
        CallsInRoom c zs a → CallsInRoom d ws b → flat_map used_in zs ≡ flat_map used_in ws →
        AreAlikeInLive a (calls_of xs ++ zs) b (calls_of ys ++ ws) }
    ensures asking_broken { (a b : Holding) (xs ys : List EndCall) → IsSettled a.end → IsSettled b.end → AreAlikeInLive a xs b ys →
        LookAlike (record a { end = breaks a.end }) xs (record b { end = breaks b.end }) ys }
    ensures asking_seen { (a b : Holding) (xs ys : List EndCall) → AreAlikeInLive a xs b ys → LookAlike a xs b ys }
{
    a_prefix_of_a_packet();
    a_stream_has_one_cut();
    no_packet_begins_another();
    an_ended_session_stays_ended();
    what_closes_sends_nothing();
    where_a_call_is_accepted();
}
