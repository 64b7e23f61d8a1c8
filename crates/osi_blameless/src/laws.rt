//! Laws of an end and of a judge of its byte connection. Each function does nothing: its clauses are the laws.
//!
//! - A `Joint` (`specs/Joint`) is an end and a judge of what passes anywhere between it and the other side, with the units
//!   in flight. A `Step` is what happens to both, packet by packet. It is one model with the whole ends and the lines of [`transport`]
//!   (`specs/EndAndJudge`).
//! - A capture of an end is such steps, up to what the other side sends and nobody can read:
//!   [`a_capture_of_an_end_is_steps`].
//! - **The transport of an end is never blamed first.** Steps of a `Joint` are events of a whole end (`specs/transport/Wholes`), whose
//!   carrier reports nothing and hands nothing over: what a turn does to the carrier of an end is units that arrive and calls. So as long
//!   as nobody has broken a rule, both sides are judged, and no unit of the end is a break. What comes after the first break
//!   doesn't change it: [`the_transport_of_an_end_is_never_blamed_first`].
//! - **Nor is it blamed after the first break**, called or calling, in either class: what a break of the other side leaves to be judged
//!   of the end is right, or not judged, or beyond what the rules look at: [`the_transport_of_an_end_is_blamed_nowhere`].
//! - **The session of an end is not to blame for what a capture shows of it.** `IsShownOf` (`specs/Shown`) says what a judge has joined of
//!   a connection beside what was done there: [`a_session_that_is_shown_is_not_to_blame`]. It goes on so packet by packet:
//!   [`what_a_judge_shows_goes_on`]. A unit is joined at the place that the rules of transport tell:
//!   [`connections_have_the_same_places`]. In either class, steps of a `Joint` leave this so of all its connections (`Standing` in
//!   `proofs/standing`), if nobody breaks a rule, the end takes at each connection the first of what is in flight to it, and what it puts
//!   in a turn is for the connections that put it. Lemmas there say so of a calling end and of a called end in class 2; and of both until
//!   class 2 is selected, so in class 0 too.
//! - **No session of an end is blamed first**, called or calling, in either class, with any number of connections. At each step of a
//!   `Joint` from the beginning these premises hold as long as nobody breaks a rule, so the first break of all, of transport or of a
//!   session, is of the other side: [`no_session_of_an_end_is_blamed_first`].
//! - **Nor is one to blame after a break of the other side**, in either class. In class 2 a break may end the judging of one
//!   connection: the judge joins nothing more of it, and the others go on as if it weren't there. A break of class 0 ends the judging of
//!   the other side. The end takes nothing of its packet and is over with it, and the judge joins nothing more of that side. So both go on
//!   as if the break had not come: [`no_session_of_an_end_is_to_blame_after_a_break`].
//! - **A judge with a bound for each connection blames no end first either.** `IsCourseOf` (`specs/Bounded`) compares it with a judge
//!   without one: [`bounded::a_bound_changes_nothing_that_is_judged`]. Of a connection that has reached the bound it says what it said
//!   before. So at no moment is a session to blame that a judge without a bound doesn't blame then or before:
//!   [`bounded::no_end_is_blamed_first_within_a_bound`].

pub mod accord;
pub mod bounded;
pub mod ends;
pub mod printed;
pub mod transport;

ghost use Rattle.std.specs.Prelude.{◌≡◌, ◌⊎◌, Bool, false, true, List, None, Option, Some, ◌≢◌, ◌<◌, ◌^◌, ◌++◌, ◌∷◌, [], ℕ, length};
ghost use Rattle.std.specs.Prelude.{slice_get};
ghost use Rattle.std.specs.List.{AllByRecursion};
ghost use Rattle.osi_class.specs.declared.terms.Local.{Local};
ghost use Rattle.osi_side.specs.Captures.{Capture, other};
ghost use Rattle.osi_side.specs.declared.directions.Direction.{Direction};
ghost use Rattle.osi_stack.specs.State.{Holding, End};
ghost use Rattle.osi_blameless.specs.ends.Seeing.{IsFresh, IsSeen};
ghost use Rattle.osi_blameless.specs.ends.Turns.{Run, Turn};
ghost use Rattle.osi_judge.specs.declared.marks.First.{First};
ghost use Rattle.osi_judge.specs.States.{comes_to};
ghost use Rattle.osi_blameless.specs.Passing.{AreOctets, ComesBySteps};
ghost use Rattle.osi_class.specs.Runs.{parts_in, unit_parts};
ghost use Rattle.osi_class.specs.Tsdus.{Part};
ghost use Rattle.osi_rules.specs.Traffic.{is_stopped, takes};
ghost use Rattle.osi_rules.specs.declared.connections.Connection.{Connection};
ghost use Rattle.osi_rules.specs.Sides.{is_open, own};
ghost use Rattle.osi_rules.specs.declared.findings.Finding.{Finding};
ghost use Rattle.osi_rules.specs.declared.findings.Rule.{Rule};
ghost use Rattle.osi_blameless.specs.ends.Courses.{Course, Deeds, then_did};
ghost use Rattle.osi_judge.specs.Blaming.{IsFirstOf, IsQuiet, IsToBlame};
ghost use Rattle.osi_judge.specs.Connections.{Joined, adds, packet_begins, reference_of, spoken, user_of};
ghost use Rattle.osi_judge.specs.Courses.{Course as Passed, Moment, unit_passes, way_of};
ghost use Rattle.osi_judge.specs.Lines.{heard};
ghost use Rattle.osi_judge.specs.Standing.{IsFed, IsJudged, first_in};
ghost use Rattle.osi_judge.specs.declared.judge.Judge.{Judge};
ghost use Rattle.osi_tpdu.specs.Value.{Value, destination_of};
ghost use Rattle.osi_blameless.specs.Shown.{IsShownNow, IsShownOf, calls_from};
ghost use Rattle.osi_blameless.specs.ShownPlaces.{HaveSamePlaces, IsJoinedAt, IsOneOf};

use osi_judge::laws::the_first_break_is_the_earliest;
use osi_session::laws::what_closes_sends_nothing;
use osi_side::laws::an_honest_session_is_explained;
use osi_spdu::laws::{few_octets_fit, serial_digits};

/// A capture of an end is steps of the end and of the judge. Take any run of an end of this library from its beginning, and any
/// capture of it from any place between the two sides ([`IsSeen`]). What the capture comes to is what these steps come to:
/// turns of the end, and packets of either side that begin to pass and pass, one after the other. Each unit passes after it was
/// put, in order, and each packet of the other side that the end uses has passed before. Or what the other side sends can't be
/// read: then the steps are all that happened until then, and it goes on by other steps, in which a packet may have no units
/// ([`ComesBySteps`]).
///
/// [`IsSeen`]: ../specs/ends/Seeing.antt
/// [`ComesBySteps`]: ../specs/Passing.antt
pub fn a_capture_of_an_end_is_steps()
    ensures { (d : Direction) (is_caller : Bool) (local : Local) (begin end : Holding) (turns : List Turn) (capture : Capture) →
        IsFresh is_caller local begin → Run begin turns end → AreOctets capture → IsSeen d turns capture →
        ComesBySteps d capture begin }
{
    few_octets_fit();
    serial_digits();
    what_closes_sends_nothing();
}

/// The transport of an end is never blamed first. Take any run of an end of this library from its beginning: any pieces of whatever
/// octets arrive, any calls of its user, any shortage of memory, any number of connections. Take any capture of it, from any place
/// between it and the other side ([`IsSeen`]). If a break of transport passed, the first of them is of the other side, be the end the
/// called one (`called`) or the calling one (`calling`), and whatever classes it offers. If both ends are of this library, no break of
/// transport passed (`both`).
///
/// [`IsSeen`]: ../specs/ends/Seeing.antt
pub fn the_transport_of_an_end_is_never_blamed_first()
    ensures called { (local : Local) (begin end : Holding) (turns : List Turn) (capture : Capture) (f : First) →
        IsFresh false local begin → Run begin turns end → AreOctets capture → IsSeen Direction.Right turns capture →
        (comes_to capture).course.first ≡ Some f → f.direction ≡ Direction.Left }
    ensures calling { (local : Local) (begin end : Holding) (turns : List Turn) (capture : Capture) (f : First) →
        IsFresh true local begin → Run begin turns end → AreOctets capture → IsSeen Direction.Left turns capture →
        (comes_to capture).course.first ≡ Some f → f.direction ≡ Direction.Right }
    ensures both { (mine theirs : Local) (begin end called_begin called_end : Holding) (turns called_turns : List Turn)
        (capture : Capture) → AreOctets capture → IsFresh true mine begin → Run begin turns end → IsSeen Direction.Left turns capture →
        IsFresh false theirs called_begin → Run called_begin called_turns called_end → IsSeen Direction.Right called_turns capture →
        (comes_to capture).course.first ≡ None }
{
    few_octets_fit();
    serial_digits();
    what_closes_sends_nothing();
    a_capture_of_an_end_is_steps();
}

/// The transport of an end is blamed nowhere. Take any run of an end of this library from its beginning, and any capture of it, as in
/// [`the_transport_of_an_end_is_never_blamed_first`]. No unit of the end is found to break a rule, be the end the called one (`called`) or
/// the calling one (`calling`): not before a break of the other side, and not after it. So it is after a break that a taker passes over,
/// after one with which all judging ends, or in class 2 that of one connection, and in class 0 after one with which the judging of the
/// other side ends, or after what nobody can read.
pub fn the_transport_of_an_end_is_blamed_nowhere()
    ensures called { (local : Local) (begin end : Holding) (turns : List Turn) (capture : Capture) →
        IsFresh false local begin → Run begin turns end → AreOctets capture → IsSeen Direction.Right turns capture →
        (comes_to capture).course.right.broke ≡ None }
    ensures calling { (local : Local) (begin end : Holding) (turns : List Turn) (capture : Capture) →
        IsFresh true local begin → Run begin turns end → AreOctets capture → IsSeen Direction.Left turns capture →
        (comes_to capture).course.left.broke ≡ None }
{
    few_octets_fit();
    serial_digits();
    what_closes_sends_nothing();
    a_capture_of_an_end_is_steps();
}

/// The session of an end is not to blame for what a capture shows of it. Take a connection of an end, with what was done there, and what
/// a judge has joined of it ([`IsShownOf`]): of the own side some of what the session sent, each TSDU after those that the session had
/// taken when it sent it; and of the other side what the session took, or more. Then the session of this side neither broke the protocol
/// nor left the profile, in either class and among any number of other connections.
///
/// [`IsShownOf`]: ../specs/Shown.antt
pub fn a_session_that_is_shown_is_not_to_blame()
    ensures { (d : Direction) (r : ℕ) (deeds : Deeds) (e : End) (j : Joined) → Course (calls_from d) r deeds e →
        IsShownOf d r deeds j → ¬ (IsToBlame d j) }
{
    osi_message::laws::what_is_sent_is_read();
    osi_message::laws::what_a_part_says();
    osi_message::laws::what_leaves_in_parts();
    an_honest_session_is_explained();
}

/// What a capture shows of a session goes on so ([`IsShownNow`]), packet by packet. A packet of the end begins that has a DT of the
/// connection (`part_begins`), or has none (`own_begins`); and passes (`part_passes`, `none_passes`). A packet of the other side begins,
/// and a DT of it passes (`other_begins`, `other_passes`). And the session takes some of what is in flight, and says more (`turns`). It
/// is assumed that fewer than 2^64 TSDUs of the other side have passed on the connection: a judge counts no further.
///
/// [`IsShownNow`]: ../specs/Shown.antt
pub fn what_a_judge_shows_goes_on()
    ensures part_begins { (d : Direction) (r : ℕ) (deeds : Deeds) (waiting : List Value) (later : List Part) (e : End) (end : Bool)
        (v : Value) (j : Joined) → Course (calls_from d) r deeds e → unit_parts v ≡ (end, user_of v) ∷ [] →
        length (heard (spoken (other d) j)) < 2 ^ 64 → IsShownNow d r deeds (v ∷ waiting) later false j →
        IsShownNow d r deeds (v ∷ waiting) later true (packet_begins d j) }
    ensures own_begins { (d : Direction) (r : ℕ) (deeds : Deeds) (waiting : List Value) (later : List Part) (j : Joined) →
        IsShownNow d r deeds waiting later false j → IsShownNow d r deeds waiting later false (packet_begins d j) }
    ensures part_passes { (d : Direction) (r : ℕ) (deeds : Deeds) (waiting : List Value) (later : List Part) (at : ℕ) (end : Bool)
        (v : Value) (j : Joined) → unit_parts v ≡ (end, user_of v) ∷ [] → IsShownNow d r deeds (v ∷ waiting) later true j →
        IsShownNow d r deeds waiting later false (adds d at end (user_of v) j) }
    ensures none_passes { (d : Direction) (r : ℕ) (deeds : Deeds) (waiting : List Value) (later : List Part) (v : Value) (is_next : Bool)
        (j : Joined) → unit_parts v ≡ [] → IsShownNow d r deeds (v ∷ waiting) later is_next j →
        IsShownNow d r deeds waiting later false j }
    ensures other_begins { (d : Direction) (r : ℕ) (deeds : Deeds) (waiting : List Value) (later : List Part)
        (is_next : Bool) (j : Joined) →
        IsShownNow d r deeds waiting later is_next j → IsShownNow d r deeds waiting later is_next (packet_begins (other d) j) }
    ensures other_passes { (d : Direction) (r : ℕ) (deeds : Deeds) (waiting : List Value) (later : List Part) (at : ℕ) (end : Bool)
        (octets : List ℕ) (is_next : Bool) (j : Joined) → IsShownNow d r deeds waiting later is_next j →
        IsShownNow d r deeds waiting (later ++ (end, octets) ∷ []) is_next (adds (other d) at end octets j) }
    ensures turns { (d : Direction) (r : ℕ) (deeds : Deeds) (waiting : List Value) (later : List Part) (more : Deeds) (rest : List Part)
        (is_next : Bool) (j : Joined) → later ≡ parts_in more.calls ++ rest → IsShownNow d r deeds waiting later is_next j →
        IsShownNow d r (then_did deeds more) (waiting ++ more.put) rest is_next j }
{}

/// The connections of a capture have the same places for the rules of transport and for what is joined of them, with the references of
/// their CRs and CCs ([`HaveSamePlaces`], `capture`), whatever passes; also after any unit (`unit`). A DT that is right is joined at the
/// place that the rules tell ([`IsJoinedAt`], `dt`); and it is right if it breaks no rule, as long as its side is judged and no
/// connection has lost its judgement (`right`). A unit with a reference, at the place that they tell, is for the connection that the
/// other side gave this reference, if the connection is judged (`named`). Of the connections that a side has not closed, only one has
/// this reference of the other side (`one`).
///
/// [`HaveSamePlaces`]: ../specs/ShownPlaces.antt
/// [`IsJoinedAt`]: ../specs/ShownPlaces.antt
pub fn connections_have_the_same_places()
    ensures capture { (capture : Capture) →
        HaveSamePlaces (comes_to capture).course.traffic.connections (comes_to capture).course.sessions.live }
    ensures unit { (d : Direction) (at : ℕ) (v : Value) (c : Passed) → HaveSamePlaces c.traffic.connections c.sessions.live →
        HaveSamePlaces (unit_passes d at v c).traffic.connections (unit_passes d at v c).sessions.live }
    ensures dt { (d : Direction) (at : ℕ) (v : Value) (end : Bool) (c : Passed) → HaveSamePlaces c.traffic.connections c.sessions.live →
        unit_parts v ≡ (end, user_of v) ∷ [] → (takes (way_of d) v c.traffic).told.finding ≡ Finding.Kept → IsJoinedAt d at v end c }
    ensures right { (d : Direction) (v : Value) (end : Bool) (capture : Capture) → unit_parts v ≡ (end, user_of v) ∷ [] →
        is_stopped (way_of d) (comes_to capture).course.traffic.course ≡ false → (comes_to capture).course.traffic.course.loose ≡ false →
        ((rule : Rule) → (takes (way_of d) v (comes_to capture).course.traffic).told.finding ≢ Finding.Broke rule) →
        (takes (way_of d) v (comes_to capture).course.traffic).told.finding ≡ Finding.Kept }
    ensures named { (d : Direction) (v : Value) (c : Passed) (n place : ℕ) (connection : Connection) (j : Joined) →
        HaveSamePlaces c.traffic.connections c.sessions.live → destination_of v ≡ Some n →
        (takes (way_of d) v c.traffic).told.place ≡ Some place → slice_get c.traffic.connections place ≡ Some connection →
        connection.is_judged ≡ true → slice_get c.sessions.live place ≡ Some j → reference_of (other d) j ≡ Some n }
    ensures one { (d : Direction) (n p q : ℕ) (capture : Capture) (a b : Connection) (j k : Joined) →
        slice_get (comes_to capture).course.traffic.connections p ≡ Some a →
        slice_get (comes_to capture).course.traffic.connections q ≡ Some b → a.is_judged ≡ true → b.is_judged ≡ true →
        IsOneOf a j → IsOneOf b k → is_open (own (way_of d) a).phase ≡ true → is_open (own (way_of d) b).phase ≡ true →
        reference_of (other d) j ≡ Some n → reference_of (other d) k ≡ Some n → p ≡ q }
{}

/// No session of an end is blamed first, and neither is its transport. Take any run of an end of this library from its beginning: any
/// pieces of whatever octets arrive, any calls of its user, any shortage of memory, any number of connections, whatever classes it offers.
/// Take any capture of it, from any place between it and the other side ([`IsSeen`]). The first break of all, of transport or of a
/// session, is of the other side, if there is one, be the end the called one (`called`) or the calling one (`calling`): no moment of the
/// capture before it has a break ([`IsFirstOf`]). If both ends are of this library, there is none (`both`). So a judge without a bound
/// ([`IsFed`]) that was fed the capture never tells such an end as the first, once all that passed is judged (`called_at_a_judge`,
/// `calling_at_a_judge`, `both_at_a_judge`).
///
/// As long as no break of transport has passed, no session of the end is to blame for what has passed, on any of its connections, open or
/// over, whatever sessions of the other side have done (`called_nowhere`, `calling_nowhere`).
///
/// It is assumed that fewer than 2^64 units have passed: a judge counts no further.
///
/// [`IsSeen`]: ../specs/ends/Seeing.antt
/// [`IsFirstOf`]: ../../osi_judge/specs/Blaming.antt
/// [`IsFed`]: ../../osi_judge/specs/Standing.antt
pub fn no_session_of_an_end_is_blamed_first()
    ensures called { (local : Local) (begin end : Holding) (turns : List Turn) (capture : Capture) (f : First) →
        IsFresh false local begin → Run begin turns end → AreOctets capture → IsSeen Direction.Right turns capture →
        length (comes_to capture).course.past < 2 ^ 64 →
        IsFirstOf (Some f) (comes_to capture).course.past → f.direction ≡ Direction.Left }
    ensures calling { (local : Local) (begin end : Holding) (turns : List Turn) (capture : Capture) (f : First) →
        IsFresh true local begin → Run begin turns end → AreOctets capture → IsSeen Direction.Left turns capture →
        length (comes_to capture).course.past < 2 ^ 64 →
        IsFirstOf (Some f) (comes_to capture).course.past → f.direction ≡ Direction.Right }
    ensures both { (mine theirs : Local) (begin end called_begin called_end : Holding) (turns called_turns : List Turn)
        (capture : Capture) (first : Option First) → AreOctets capture →
        IsFresh true mine begin → Run begin turns end → IsSeen Direction.Left turns capture → IsFresh false theirs called_begin →
        Run called_begin called_turns called_end → IsSeen Direction.Right called_turns capture →
        length (comes_to capture).course.past < 2 ^ 64 →
        IsFirstOf first (comes_to capture).course.past → first ≡ None }
    ensures called_at_a_judge { (local : Local) (begin end : Holding) (turns : List Turn) (capture : Capture) (t : Judge) (f : First) →
        IsFresh false local begin → Run begin turns end → AreOctets capture → IsSeen Direction.Right turns capture →
        length (comes_to capture).course.past < 2 ^ 64 →
        IsFed capture t → IsJudged t → first_in t ≡ Some f → f.direction ≡ Direction.Left }
    ensures calling_at_a_judge { (local : Local) (begin end : Holding) (turns : List Turn) (capture : Capture) (t : Judge) (f : First) →
        IsFresh true local begin → Run begin turns end → AreOctets capture → IsSeen Direction.Left turns capture →
        length (comes_to capture).course.past < 2 ^ 64 →
        IsFed capture t → IsJudged t → first_in t ≡ Some f → f.direction ≡ Direction.Right }
    ensures both_at_a_judge { (mine theirs : Local) (begin end called_begin called_end : Holding) (turns called_turns : List Turn)
        (capture : Capture) (t : Judge) → AreOctets capture →
        IsFresh true mine begin → Run begin turns end → IsSeen Direction.Left turns capture → IsFresh false theirs called_begin →
        Run called_begin called_turns called_end → IsSeen Direction.Right called_turns capture →
        length (comes_to capture).course.past < 2 ^ 64 →
        IsFed capture t → IsJudged t → first_in t ≡ None }
    ensures called_nowhere { (local : Local) (begin end : Holding) (turns : List Turn) (capture : Capture) (i : ℕ) (j : Joined) →
        IsFresh false local begin → Run begin turns end → AreOctets capture → IsSeen Direction.Right turns capture →
        length (comes_to capture).course.past < 2 ^ 64 →
        AllByRecursion (λ (m : Moment). IsQuiet m.mark) (comes_to capture).course.past →
        (slice_get (comes_to capture).course.sessions.live i ≡ Some j)
        ⊎ (slice_get (comes_to capture).course.sessions.done i ≡ Some j) → ¬ (IsToBlame Direction.Right j) }
    ensures calling_nowhere { (local : Local) (begin end : Holding) (turns : List Turn) (capture : Capture) (i : ℕ) (j : Joined) →
        IsFresh true local begin → Run begin turns end → AreOctets capture → IsSeen Direction.Left turns capture →
        length (comes_to capture).course.past < 2 ^ 64 →
        AllByRecursion (λ (m : Moment). IsQuiet m.mark) (comes_to capture).course.past →
        (slice_get (comes_to capture).course.sessions.live i ≡ Some j)
        ⊎ (slice_get (comes_to capture).course.sessions.done i ≡ Some j) → ¬ (IsToBlame Direction.Left j) }
{
    few_octets_fit();
    serial_digits();
    what_closes_sends_nothing();
    osi_message::laws::what_is_sent_is_read();
    osi_message::laws::what_a_part_says();
    osi_message::laws::what_leaves_in_parts();
    an_honest_session_is_explained();
    the_first_break_is_the_earliest();
}

/// No session of an end is to blame, whatever the other side breaks. Take any run of an end of this library from its beginning, and any
/// capture of it, as in [`no_session_of_an_end_is_blamed_first`]. Then no session of the end is to blame for what has passed, in either
/// class, on any of its connections, open or over, be the end the called one (`called`) or the calling one (`calling`).
///
/// So it is after DTs beyond the credit or longer than the size, after a CC with a larger size, and after a DT, an AK or a second DR on a
/// connection that its sender had closed: a taker passes over these. So it is after a break with which all judging ends. In class 2 it is
/// so after a break with which the judging of one connection ends: the sessions of the others are judged on. And in class 0 it is so after
/// one with which the judging of the other side ends, a TSDU that is too long among them, or after what nobody can read.
///
/// It is assumed that fewer than 2^64 units have passed.
pub fn no_session_of_an_end_is_to_blame_after_a_break()
    ensures called { (local : Local) (begin end : Holding) (turns : List Turn) (capture : Capture) (i : ℕ) (j : Joined) →
        IsFresh false local begin → Run begin turns end → AreOctets capture → IsSeen Direction.Right turns capture →
        length (comes_to capture).course.past < 2 ^ 64 →
        (slice_get (comes_to capture).course.sessions.live i ≡ Some j)
        ⊎ (slice_get (comes_to capture).course.sessions.done i ≡ Some j) →
        ¬ (IsToBlame Direction.Right j) }
    ensures calling { (local : Local) (begin end : Holding) (turns : List Turn) (capture : Capture) (i : ℕ) (j : Joined) →
        IsFresh true local begin → Run begin turns end → AreOctets capture → IsSeen Direction.Left turns capture →
        length (comes_to capture).course.past < 2 ^ 64 →
        (slice_get (comes_to capture).course.sessions.live i ≡ Some j)
        ⊎ (slice_get (comes_to capture).course.sessions.done i ≡ Some j) →
        ¬ (IsToBlame Direction.Left j) }
{
    few_octets_fit();
    serial_digits();
    what_closes_sends_nothing();
    osi_message::laws::what_is_sent_is_read();
    osi_message::laws::what_a_part_says();
    osi_message::laws::what_leaves_in_parts();
    an_honest_session_is_explained();
}
