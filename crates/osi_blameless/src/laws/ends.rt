//! What an end of this library puts on the byte connection and takes from it, connection by connection, in the words in
//! which a judge reads a capture. Each function does nothing: its clauses are the laws.
//!
//! This half speaks of the end alone: `osi_stack` says what an end is after octets and calls, and `osi_side` which runs of a
//! session explain what a side sent.
//!
//! - A `Turn` (`specs/ends/Turns`) is one thing that the owner of an end does, with the octets that the end used and those
//!   that it put. A `Run` is turns one after the other.
//! - A `History` (`specs/ends/Talking`) is what a session took and sent, each TSDU with how many it had taken by then. It
//!   is a run of the session as `osi_side` has it, also if a capture shows less of it:
//!   [`what_a_session_said_is_explained`], [`what_a_capture_shows_is_a_run`].
//! - What a capture shows of such an end, taken anywhere between the two ends, is `IsSeen` (`specs/ends/Seeing`).
//!
//! In class 2 many connections share the byte connection, and an end keeps data back until it has credit. So what a session sends
//! is counted at the link of its connection:
//!
//! - The `Course` of a connection (`specs/ends/Courses`) is what was done there since it was opened (`Deeds`): the calls of its link
//!   and the units that were put for it, with what its session took and sent by them. Every connection of an end has a course, in
//!   either class, however many others there are, in any run of the end. Each unit that the end puts, and each that arrives, is
//!   marked with the connection whose link gave or took it (`specs/ends/Marked`). While a connection is open, its link takes all
//!   DTs and AKs that are for it, and gives units for the peer's reference (`specs/ends/Arriving`):
//!   [`what_a_session_hands_to_its_link`].
//! - So what such a session sent is explained by what it had taken: [`what_a_connection_said_is_explained`].
//! - The units that were put for it carry the TSDUs that were handed in, and those that its link took carry the TSDUs that it handed
//!   out: [`what_the_units_of_a_connection_carry`].
//!
//! That a judge finds just these units for the connection in a capture is said in [`laws`](super).

ghost use Rattle.std.specs.Prelude.{◌≡◌, ℕ, Bool, false, true, List, [], ◌++◌, None, length, map};
ghost use Rattle.osi_class.specs.Link.{unit_of};
ghost use Rattle.osi_class.specs.Runs.{parts_in, parts_out, tsdus_in, tsdus_out};
ghost use Rattle.osi_class.specs.Tsdus.{tsdus, uncut};
ghost use Rattle.osi_class.specs.declared.terms.Local.{Local};
ghost use Rattle.osi_side.specs.Explaining.{IsExplained, Told};
ghost use Rattle.osi_side.specs.Running.{IsSentFrom};
ghost use Rattle.osi_session.specs.Listening.{Listener};
ghost use Rattle.osi_session.specs.Sessions.{awaits, opens, refusal_of};
ghost use Rattle.osi_session.specs.Standing.{seen_called, seen_calling};
ghost use Rattle.osi_session.specs.declared.opening.Opening.{Opening};
ghost use Rattle.osi_stack.specs.State.{End, Holding, fresh_end};
ghost use Rattle.osi_blameless.specs.ends.Courses.{ContinuesAlong, Course, Deeds, no_deeds, said_in, units_given};
ghost use Rattle.osi_blameless.specs.ends.Seeing.{IsFresh};
ghost use Rattle.osi_blameless.specs.ends.Showing.{AreSame, Shows};
ghost use Rattle.osi_blameless.specs.ends.Talking.{History, Said, told_of};
ghost use Rattle.osi_blameless.specs.ends.Turns.{Run, Turn};

use osi_session::laws::what_closes_sends_nothing;
use osi_side::laws::an_honest_session_is_explained;
use osi_spdu::laws::{few_octets_fit, serial_digits};

/// What a session sent is explained by the TSDUs that it had taken by then, whatever it took and whatever its user
/// called. So a judge, which is told what such an end puts and what it takes, never blames its session.
pub fn what_a_session_said_is_explained()
    ensures called { (took : List (List ℕ)) (said : List Said) (closed : Bool) (l : Listener) → History awaits took said closed l →
        IsExplained seen_called took (map told_of said) }
    ensures caller { (o : Opening) (took : List (List ℕ)) (said : List Said) (closed : Bool) (l : Listener) → refusal_of o ≡ None →
        History (opens o) took said closed l → IsExplained seen_calling took (map told_of said) }
{
    an_honest_session_is_explained();
}

/// A capture need not show all that a session sent, nor all that it took; and more of the other side's TSDUs may have
/// passed before a TSDU than the session had taken when it sent it. What the capture shows is still a run of the session
/// as the judge has it ([`IsSentFrom`]).
///
/// [`IsSentFrom`]: ../../../osi_side/specs/Running.antt
pub fn what_a_capture_shows_is_a_run()
    ensures { (begin : Listener) (took us : List (List ℕ)) (said : List Said) (told : List Told) (closed : Bool) (l : Listener) →
        History begin took said closed l → AreSame us took → Shows (length us) told (map told_of said) → IsSentFrom begin us told }
{}

/// What the session of each connection hands to its link, in either class and among any number of other connections. Take any run of
/// an end of this library from its beginning. Nothing is done at a connection before it is open. Then its session takes the TSDUs that
/// its link hands out, in order, and no others. What is handed in is what the session sends, in order, each TSDU when it had taken so
/// many ([`Course`]).
///
/// All that is put in a turn is accounted for. Each unit is marked with the reference of the connection whose link gave it, or with 0 if
/// none did. The units with the mark of a connection are all that was put for it, in order. The units with the mark 0 are no DTs and no
/// AKs: CRs, CCs, DRs and DCs. The numbers of each unit have room in its fields ([`CanBeWritten`]), so it is read again as it was put.
/// The units of the packets that were used are marked too, with the connection whose link took them ([`Continues`]).
///
/// A link takes and gives no unit before its connection is open, and none after it was closed. A connection opens with its CC, or at a
/// called end with a CR, for which a CC is put. While it is open, its link takes each DT and AK that is for it, and no other unit; and
/// what it gives is for the reference that the peer gave in that CC or CR ([`Lives`]).
///
/// All of this holds of the units of each turn, and of all units from the beginning of the run up to the end of that turn ([`SoFar`]).
///
/// [`Course`]: ../../specs/ends/Courses.antt
/// [`Continues`]: ../../specs/ends/Courses.antt
/// [`CanBeWritten`]: ../../specs/ends/Writable.antt
/// [`Lives`]: ../../specs/ends/Arriving.antt
/// [`SoFar`]: ../../specs/ends/Courses.antt
pub fn what_a_session_hands_to_its_link()
    ensures begins { (is_caller : Bool) (local : Local) (r : ℕ) → Course is_caller r no_deeds (fresh_end is_caller local) }
    ensures run { (is_caller : Bool) (local : Local) (begin end : Holding) (turns : List Turn) → IsFresh is_caller local begin →
        Run begin turns end → ContinuesAlong is_caller begin.end.carrier (λ (r : ℕ). no_deeds) [] [] begin turns end }
{
    few_octets_fit();
    serial_digits();
    what_closes_sends_nothing();
}

/// So what the session of a connection sent is explained by the TSDUs that it had taken by then, at a called and at a calling end,
/// in either class (`called`, `caller`). A capture may show less of it, and more TSDUs of the other side may have passed before
/// than were taken: what it shows is explained too (`called_shows`, `caller_shows`).
pub fn what_a_connection_said_is_explained()
    ensures called { (r : ℕ) (deeds : Deeds) (e : End) → Course false r deeds e →
        IsExplained seen_called (tsdus_out deeds.calls) (map told_of (said_in 0 deeds.calls)) }
    ensures caller { (r : ℕ) (deeds : Deeds) (e : End) → Course true r deeds e →
        IsExplained seen_calling (tsdus_out deeds.calls) (map told_of (said_in 0 deeds.calls)) }
    ensures called_shows { (r : ℕ) (deeds : Deeds) (e : End) (us : List (List ℕ)) (told : List Told) → Course false r deeds e →
        AreSame us (tsdus_out deeds.calls) → Shows (length us) told (map told_of (said_in 0 deeds.calls)) →
        IsExplained seen_called us told }
    ensures caller_shows { (r : ℕ) (deeds : Deeds) (e : End) (us : List (List ℕ)) (told : List Told) → Course true r deeds e →
        AreSame us (tsdus_out deeds.calls) → Shows (length us) told (map told_of (said_in 0 deeds.calls)) →
        IsExplained seen_calling us told }
{
    an_honest_session_is_explained();
}

/// The units of a connection carry these TSDUs. What was put for it is what its link gave. It carries the TSDUs that were handed in,
/// whole and in order, except for what the link has still to give (`put`). The units that the link took carry the TSDUs that it
/// handed out, and perhaps the beginning of one more (`taken`).
pub fn what_the_units_of_a_connection_carry()
    ensures put { (is_caller : Bool) (r : ℕ) (deeds : Deeds) (e : End) → Course is_caller r deeds e →
        (unsent : List (List ℕ)) × (peer : ℕ) × (deeds.put ≡ map (unit_of peer) (units_given deeds.calls))
        × (tsdus (parts_out deeds.calls ++ uncut unsent) ≡ tsdus_in deeds.calls) }
    ensures taken { (is_caller : Bool) (r : ℕ) (deeds : Deeds) (e : End) → Course is_caller r deeds e →
        tsdus (parts_in deeds.calls) ≡ tsdus_out deeds.calls }
{}
