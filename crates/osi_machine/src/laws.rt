//! Laws of the definitions. Each function does nothing: its clauses are the laws.

ghost use Rattle.std.specs.Prelude.{◌≡◌, ◌<◌, ◌≤◌, ℕ, suc, List, [], ◌∷◌, ◌++◌, length, Some, None, is_some, true, false};
ghost use Rattle.std.specs.List.{AllByRecursion};
ghost use Rattle.osi_machine.specs.AsTables.{cut_line, AreSoundLines, AtEachSide, IsNoFaultNext, IsOverWhenLeft, IsAsTables, IsTableRun};
ghost use Rattle.osi_machine.specs.AsTables.{AreOffered, OfEachLine, HoldNoneTwice, AreNoFaults, AreAgreed, IsShownAsAsked, IsSeenInBoth};
ghost use Rattle.osi_machine.specs.AsTables.{TellsNoFault, LosesAsItEnds};
ghost use Rattle.osi_machine.specs.Calm.{StaysCalm, IsNoFaultBehind};
ghost use Rattle.osi_machine.specs.Core.{Core, CoreStep, Offer, CanBeOffered, Side, Left, Right, core_run, core_start};
ghost use Rattle.osi_machine.specs.Examples.{all_tokens, lost_give_seen, after_lost_give, crossing_seen, after_crossing, two_points_seen};
ghost use Rattle.osi_machine.specs.Examples.{restart_below_seen, after_restart_below, last_point, last_point_seen, lost_release_seen};
ghost use Rattle.osi_machine.specs.Examples.{after_lost_release, both_send, both_send_seen, to_right, held_in, stands_at, next_at};
ghost use Rattle.osi_machine.specs.Examples.{lowest_at, history_of, up_to_first_point};
ghost use Rattle.osi_machine.specs.Floor.{State, is_over, no_token, is_profile};
ghost use Rattle.osi_machine.specs.Histories.{Agree};
ghost use Rattle.osi_machine.specs.Machine.{IsLegal, Machine, Step, HasNumber, run, start, step, connection_at, with_connection};
ghost use Rattle.osi_machine.specs.Parties.{AreConsistent, IsNumberedStep};
ghost use Rattle.osi_machine.specs.Promises.{IsReached, OfBoth, OneHolder, HoldsItsOwn, TakesNoFault, SeesTheHistory, ViewsAgree};
ghost use Rattle.osi_machine.specs.Promises.{GotWhatWasSaid, TakesTheNextItem, ConfirmedIsSeen};
ghost use Rattle.osi_machine.specs.Runs.{IsRun, OfEach, HasOneHolder, ShowNoFault, RecordsAgree, ShownAsAsked, ConfirmedInBoth};
ghost use Rattle.osi_machine.specs.Runs.{TakeTheirItems, AreApart, HasNoFault, LosesByItsEnd};
ghost use Rattle.osi_machine.specs.Sayings.{IsHeardAsSaid};
ghost use Rattle.osi_machine.specs.Tables.{Line, Tables};
ghost use Rattle.osi_machine.specs.Tables as tables;
ghost use Rattle.osi_machine.specs.Views.{AreTold, left_told, right_told};
ghost use Rattle.osi_machine.specs.Worlds.{Message, Terms, accepts, class_2};

use osi_session::laws as session;

/// Over every list of calls and units taken, in any order, from a CN in flight on, and whatever the other side
/// does: V(A) and V(R) are between the base and V(M). V(M) is at most 1,000,000 and counts the points that this
/// side has seen. This side owes the confirmation of a major point only if the last points that it saw came from
/// the other side. A restart is requested only if it is selected, and with duplex only the caller requests release.
pub fn what_is_true_of_each_side()
    ensures begins { (o : Offer) → CanBeOffered o → AreConsistent (core_start o) }
    ensures kept { (w : Core) (steps : List CoreStep) → AllByRecursion IsNumberedStep steps → AreConsistent w →
        AreConsistent (core_run w steps) }
{
    session::numbers_stay_in_order();
    session::what_is_sent_can_be_sent();
    session::what_two_units_do();
    session::what_an_accepted_call_passed();
}

/// Whatever calls were made and units taken, no token is held by both sides, and each side holds the tokens that it
/// owns.
pub fn one_holder()
    ensures both { (w : Core) → IsReached w → OneHolder w }
    ensures own { (w : Core) → IsReached w → OfBoth HoldsItsOwn w }
{
    session::numbers_stay_in_order();
    session::what_is_sent_can_be_sent();
    session::what_two_units_do();
    session::what_an_accepted_call_passed();
}

/// No unit that either side sends is a fault at the other: it is discarded, or answered as the table of good units
/// says.
pub fn no_fault()
    ensures { (w : Core) → IsReached w → OfBoth TakesNoFault w }
{
    session::numbers_stay_in_order();
    session::what_is_sent_can_be_sent();
    session::what_two_units_do();
    session::what_an_accepted_call_passed();
}

/// What a side has seen is a prefix of the history, so one of the two views is a prefix of the other. A point that is
/// in both views has the same number, kind and octets in both, and the same items before it. With duplex, the data that
/// a side has received is a prefix of what the other sent.
pub fn agreement()
    ensures history { (w : Core) → IsReached w → OfBoth SeesTheHistory w }
    ensures views { (w : Core) → IsReached w → ViewsAgree w }
    ensures duplex { (w : Core) → IsReached w → OfBoth GotWhatWasSaid w }
{
    session::numbers_stay_in_order();
    session::what_is_sent_can_be_sent();
    session::what_two_units_do();
    session::what_an_accepted_call_passed();
}

/// Data or a point that is taken is the next item of the history: the one after everything that its taker has seen.
pub fn next_item()
    ensures { (w : Core) → IsReached w → OfBoth TakesTheNextItem w }
{
    session::numbers_stay_in_order();
    session::what_is_sent_can_be_sent();
    session::what_two_units_do();
    session::what_an_accepted_call_passed();
}

/// If a side has seen a point, and the point's number is below its V(A), the other side has seen the point too, after
/// the same items; unless the other has requested a restart and awaits the answer.
pub fn confirmed_is_seen()
    ensures { (w : Core) → IsReached w → OfBoth ConfirmedIsSeen w }
{
    session::numbers_stay_in_order();
    session::what_is_sent_can_be_sent();
    session::what_two_units_do();
    session::what_an_accepted_call_passed();
}

/// The record of a side is what its user asked for and what it received. It tells what the side has seen: data and
/// points add to it, and a restart cuts it back. So with half-duplex the views of both records agree: one is a
/// prefix of the other. The record also tells whether its side has requested a restart and has seen no answer.
pub fn what_a_record_tells()
    ensures told { (o : Offer) (steps : List CoreStep) → CanBeOffered o → is_profile o.requirements ≡ true →
        AllByRecursion IsNumberedStep steps → AreTold o steps }
    ensures agreed { (o : Offer) (steps : List CoreStep) → CanBeOffered o → is_profile o.requirements ≡ true →
        AllByRecursion IsNumberedStep steps → (core_run (core_start o) steps).own.session.units.duplex ≡ false →
        (core_run (core_start o) steps).peer.session.units.duplex ≡ false → Agree (left_told o steps).view (right_told o steps).view }
{
    session::numbers_stay_in_order();
    session::what_is_sent_can_be_sent();
    session::what_two_units_do();
    session::what_an_accepted_call_passed();
}

/// What the records of two users tell, after every list of steps of the machine, with any number of connections,
/// with closes, breaks and ends, and whatever is lost.
///
/// For each connection: no token is held by both sides (`holder`). Neither user receives a fault of its own side or
/// of the other (`fault`). Unless duplex is selected, one of the two views is a prefix of the other (`agreement`).
/// With duplex, as soon as one of the two has sent or seen the answer that selects it, the data that a user
/// receives is a prefix of the data that the other asked to send (`duplex`). Each point in the view of a side with
/// a number below its V(A) is in the view of the other, after the same items, unless the other awaits the answer to
/// a restart (`confirmed`). All of this except V(A) is read from the journal. Data or a point that is taken is the
/// item of the history at the mark of the side that takes it (`item`).
///
/// No entry of the journal is an indication of a fault, whatever its reference (`faultless`). A user is told that a
/// connection was lost only if its end was told of a break or ran out of memory (`lost`).
pub fn what_two_records_tell()
    ensures holder { (m : Machine) → IsRun m → OfEach HasOneHolder m }
    ensures fault { (m : Machine) → IsRun m → OfEach ShowNoFault m }
    ensures agreement { (m : Machine) → IsRun m → OfEach RecordsAgree m }
    ensures duplex { (m : Machine) → IsRun m → OfEach ShownAsAsked m }
    ensures confirmed { (m : Machine) → IsRun m → OfEach ConfirmedInBoth m }
    ensures item { (m : Machine) → IsRun m → OfEach TakeTheirItems m }
    ensures faultless { (m : Machine) → IsRun m → HasNoFault m }
    ensures lost { (m : Machine) → IsRun m → LosesByItsEnd m }
{
    session::numbers_stay_in_order();
    session::what_is_sent_can_be_sent();
    session::what_two_units_do();
    session::what_an_accepted_call_passed();
}

/// A step of one connection changes no other. This holds of a new connection, of a call, and of a delivery that does
/// not end its side.
pub fn connections_are_apart()
    ensures { (m : Machine) → AreApart m }
{}

/// Two tables, one for each side, that share only what is in flight, do what the machine does, after every list of
/// steps. The journal is the same, and so are the ends and the class; each side has the same state, which the machine
/// reads from one history and one owner for each token; and the same messages are in flight. So the journal is one of
/// what two users may do and see.
pub fn the_tables_are_the_machine()
    ensures same { (terms : Terms) (steps : List Step) → AllByRecursion HasNumber steps →
        IsAsTables (run (start terms) steps) (tables.run (tables.start terms) steps) }
    ensures legal { (t : Tables) (h : IsTableRun t) → IsLegal h.agreed t.journal }
{
    session::numbers_stay_in_order();
    session::what_is_sent_can_be_sent();
    session::what_two_units_do();
    session::what_an_accepted_call_passed();
    session::an_empty_token_item_changes_nothing();
}

/// How the list of connections changes. If a connection is replaced, the new one is at its reference, and all
/// others stay. If one is added, it is at the next reference. The end of a side and a break leave each connection
/// at its reference, as they leave it.
pub fn what_stands_at_a_reference()
    ensures same { (r : ℕ) (lines : List Line) (old new : Line) → connection_at r lines ≡ Some old →
        connection_at r (with_connection r new lines) ≡ Some new }
    ensures other { (q r : ℕ) (lines : List Line) (new : Line) → (q ≡ r → ⊥) → connection_at q (with_connection r new lines)
        ≡ connection_at q lines }
    ensures count { (r : ℕ) (lines : List Line) (new : Line) → length (with_connection r new lines) ≡ length lines }
    ensures before { (q : ℕ) (lines : List Line) (old new : Line) → connection_at q lines ≡ Some old →
        connection_at q (lines ++ new ∷ []) ≡ Some old }
    ensures last { (lines : List Line) (new : Line) → connection_at (suc (length lines)) (lines ++ new ∷ []) ≡ Some new }
    ensures none { (q : ℕ) (lines : List Line) → length lines < q → connection_at q lines ≡ None }
    ensures some { (q : ℕ) (lines : List Line) → 0 < q → q ≤ length lines → is_some (connection_at q lines) ≡ true }
    ensures ended { (side : Side) (keep : ℕ → ℕ) (q : ℕ) (lines : List Line) (old : Line) → connection_at q lines ≡ Some old →
        connection_at q (tables.ended_lines side keep 1 lines)
        ≡ Some (tables.seen_from side (tables.ends_there (keep q) (tables.seen_from side old))) }
    ensures broken { (left right : ℕ → ℕ) (q : ℕ) (lines : List Line) (old : Line) → connection_at q lines ≡ Some old →
        connection_at q (tables.cut_channels left right 1 lines) ≡ Some (cut_line (left q) (right q) old) }
    ensures ended_count { (side : Side) (keep : ℕ → ℕ) (lines : List Line) → length (tables.ended_lines side keep 1 lines) ≡ length lines }
    ensures broken_count { (left right : ℕ → ℕ) (lines : List Line) → length (tables.cut_channels left right 1 lines) ≡ length lines }
{}

/// Over every list of steps, whatever is lost: each unit in flight can be written, and is read back with the same
/// meaning; so can a CN that is to be sent once the transport connection is open. V(A) and V(R) of each session are
/// between the base and V(M), which is at most 1,000,000, and tokens are held only in few phases.
pub fn what_is_under_way_can_be_sent()
    ensures { (t : Tables) → IsTableRun t → AreSoundLines t }
{
    session::numbers_stay_in_order();
    session::what_is_sent_can_be_sent();
}

/// Over every list of steps, whatever is lost: data that is first in flight to a side is no fault there, in whatever
/// phase its session is. A session that is over discards it.
pub fn the_next_is_no_fault()
    ensures { (t : Tables) → IsTableRun t → AtEachSide IsNoFaultNext t }
{
    session::numbers_stay_in_order();
    session::what_is_sent_can_be_sent();
    session::what_two_units_do();
    session::what_an_accepted_call_passed();
    session::an_empty_token_item_changes_nothing();
}

/// Over every list of steps, whatever is lost: data anywhere in flight to a side is no fault there once the side
/// has taken what is ahead of it, whatever calls its user makes before. At a session that is over, data is never a
/// fault, whatever comes before it.
pub fn data_is_no_fault_behind()
    ensures under_way { (t : Tables) → IsTableRun t → AtEachSide IsNoFaultBehind t }
    ensures over_now { (s : State) (ms : List Message) → is_over s.phase ≡ true → StaysCalm s ms }
{
    session::numbers_stay_in_order();
    session::what_is_sent_can_be_sent();
    session::what_two_units_do();
    session::what_an_accepted_call_passed();
    session::an_empty_token_item_changes_nothing();
}

/// Over every list of steps, whatever is lost: if the close of a transport connection, or the answer to one, is in
/// flight to a side, the session of that side is over.
pub fn who_is_left_is_over()
    ensures { (t : Tables) → IsTableRun t → AtEachSide IsOverWhenLeft t }
{
    session::numbers_stay_in_order();
    session::what_is_sent_can_be_sent();
    session::what_two_units_do();
    session::what_an_accepted_call_passed();
    session::an_empty_token_item_changes_nothing();
}

/// What the records of two users tell, read from the tables and the journal alone.
///
/// For each connection: no token is held by both sessions (`holder`). Neither user receives a fault of its own side
/// or of the other (`fault`). Unless duplex is selected, one of the two views is a prefix of the other
/// (`agreement`). With duplex, as soon as one of the two has sent or seen the answer that selects it, the data that
/// a user receives is a prefix of the data that the other asked to send (`duplex`). Each point in the view of a
/// side with a number below its V(A) is in the view of the other, after the same items, unless the other awaits the
/// answer to a restart (`confirmed`).
///
/// No entry of the journal is an indication of a fault, whatever its reference (`faultless`). A user is told that a
/// connection was lost only if its end was told of a break or ran out of memory (`lost`). The journal has the offer
/// of each connection (`offered`).
pub fn what_two_tables_tell()
    ensures holder { (t : Tables) → IsTableRun t → OfEachLine HoldNoneTwice t }
    ensures fault { (t : Tables) → IsTableRun t → OfEachLine AreNoFaults t }
    ensures agreement { (t : Tables) → IsTableRun t → OfEachLine AreAgreed t }
    ensures duplex { (t : Tables) → IsTableRun t → OfEachLine IsShownAsAsked t }
    ensures confirmed { (t : Tables) → IsTableRun t → OfEachLine IsSeenInBoth t }
    ensures faultless { (t : Tables) → IsTableRun t → TellsNoFault t }
    ensures lost { (t : Tables) → IsTableRun t → LosesAsItEnds t }
    ensures offered { (t : Tables) → IsTableRun t → AreOffered t }
{
    session::numbers_stay_in_order();
    session::what_is_sent_can_be_sent();
    session::what_two_units_do();
    session::what_an_accepted_call_passed();
    session::an_empty_token_item_changes_nothing();
}

/// After every list of steps, whatever is lost: the units that a side has received on a connection are a prefix of
/// those that the other side has sent on it, whole and in order. Until its transport connection closes, what it has
/// received followed by what is in flight to it is a prefix too; and it is all that the other has sent, if nothing is
/// broken and the other's transport connection does not close either.
pub fn what_is_heard_was_said()
    ensures { (side : Side) (r : ℕ) (terms : Terms) (steps : List Step) → IsHeardAsSaid side r terms steps }
{
    session::where_a_call_is_accepted();
    session::what_closes_sends_nothing();
}

/// Worked examples. A token that was given and is still in flight when the other side requests a restart has no owner
/// until the restart is answered. Of two restarts that cross, the lower one wins; if they are equal, the caller's. A
/// restart may go below a major point that was confirmed. There is no number above 999,999. If the answer to a release
/// is lost, no side holds a token in the end. With duplex both sides send.
pub fn examples()
    ensures lost_give { after_lost_give.journal ≡ lost_give_seen }
    ensures lost_give_before { (held_in (stands_at Left after_lost_give) ≡ no_token)
        × (held_in (stands_at Right after_lost_give) ≡ no_token) }
    ensures lost_give_after { held_in (stands_at Right (step after_lost_give to_right)) ≡ all_tokens }
    ensures crossing { (after_crossing 3).journal ≡ crossing_seen 3 }
    ensures crossing_numbers { (next_at Left (after_crossing 3) ≡ 2) × (next_at Right (after_crossing 3) ≡ 2) }
    ensures crossing_history { history_of (after_crossing 3) ≡ up_to_first_point }
    ensures crossing_equal { (after_crossing 2).journal ≡ crossing_seen 2 }
    ensures restart_below { after_restart_below.journal ≡ restart_below_seen }
    ensures restart_below_numbers { (next_at Left after_restart_below ≡ 1) × (lowest_at Right after_restart_below ≡ 1) }
    ensures restart_below_history { history_of after_restart_below ≡ [] }
    ensures last_point { (run (start (accepts class_2)) last_point).journal ≡ last_point_seen }
    ensures lost_release { after_lost_release.journal ≡ lost_release_seen }
    ensures lost_release_tokens { (held_in (stands_at Left after_lost_release) ≡ no_token)
        × (held_in (stands_at Right after_lost_release) ≡ no_token) }
    ensures both_send { (run (start (accepts class_2)) both_send).journal ≡ both_send_seen }
{}
