//! Laws of an end and of a judge with a bound for each connection. Each function does nothing: its clauses are the laws.

ghost use Rattle.std.specs.Prelude.{◌≡◌, ◌⊎◌, false, true, List, None, Option, Some, ◌<◌, ◌^◌, ℕ, length, slice_get};
ghost use Rattle.std.specs.List.{AllByRecursion};
ghost use Rattle.osi_class.specs.declared.terms.Local.{Local};
ghost use Rattle.osi_side.specs.Captures.{Capture};
ghost use Rattle.osi_side.specs.declared.directions.Direction.{Direction};
ghost use Rattle.osi_stack.specs.State.{Holding};
ghost use Rattle.osi_blameless.specs.ends.Seeing.{IsFresh, IsSeen};
ghost use Rattle.osi_blameless.specs.ends.Turns.{Run, Turn};
ghost use Rattle.osi_judge.specs.declared.marks.First.{First};
ghost use Rattle.osi_judge.specs.declared.judge.Judge.{Judge};
ghost use Rattle.osi_judge.specs.Blaming.{IsFirstOf, IsQuiet, IsToBlame};
ghost use Rattle.osi_judge.specs.Connections.{Joined};
ghost use Rattle.osi_judge.specs.Courses.{Moment};
ghost use Rattle.osi_judge.specs.Standing.{HoldsState, IsJudged, first_in};
ghost use Rattle.osi_judge.specs.States.{comes_to};
ghost use Rattle.osi_blameless.specs.Bounded.{IsCourseOf, IsFedWithin, comes_within};
ghost use Rattle.osi_blameless.specs.Passing.{AreOctets};

use osi_session::laws::what_closes_sends_nothing;
use osi_side::laws::an_honest_session_is_explained;
use osi_spdu::laws::{few_octets_fit, serial_digits};

/// A bound for each connection changes nothing that is judged. Take any capture, and any bound. A judge that was made with this bound and
/// fed the capture, in any pieces, holds what the capture comes to within the bound (`holds`). Beside a judge without a bound, that is the
/// same of the transport: what its rules know, where each side first broke one or left the profile, after which packet a side isn't
/// judged any further, and which of these breaks was first. It has the same connections: their numbers, references, classes, and which
/// are closed. And of each of them both sides said the same, until more has passed on it than is judged. So it is at each moment of the
/// capture (`same`, [`IsCourseOf`]).
///
/// [`IsCourseOf`]: ../../specs/Bounded.antt
pub fn a_bound_changes_nothing_that_is_judged()
    ensures holds { (most : ℕ) (capture : Capture) (t : Judge) → IsFedWithin most capture t → HoldsState t (comes_within most capture) }
    ensures same { (most : ℕ) (capture : Capture) → IsCourseOf (comes_within most capture).course (comes_to capture).course }
{}

/// A judge with a bound for each connection never blames an end first, neither its transport nor a session. Take any run of an end of this
/// library from its beginning: any pieces of whatever octets arrive, any calls of its user, any shortage of memory, any number of
/// connections, whatever classes it offers. Take any capture of it, from any place between it and the other side ([`IsSeen`]), and any
/// bound. The first break of all that is judged within the bound is of the other side, if there is one, be the end the called one
/// (`called`) or the calling one (`calling`). If both ends are of this library, there is none (`both`). So a judge that was made with this
/// bound ([`IsFedWithin`]) and fed the capture never tells such an end as the first, once all that passed is judged (`called_at_a_judge`,
/// `calling_at_a_judge`, `both_at_a_judge`).
///
/// As long as no break of transport has passed, no session of the end is to blame for what is judged of any of its connections, open or
/// over, whatever sessions of the other side have done (`called_nowhere`, `calling_nowhere`).
///
/// It is assumed that fewer than 2^64 units have passed: a judge counts no further.
///
/// [`IsSeen`]: ../../specs/ends/Seeing.antt
/// [`IsFedWithin`]: ../../specs/Bounded.antt
pub fn no_end_is_blamed_first_within_a_bound()
    ensures called { (local : Local) (begin end : Holding) (turns : List Turn) (capture : Capture) (most : ℕ) (f : First) →
        IsFresh false local begin → Run begin turns end → AreOctets capture → IsSeen Direction.Right turns capture →
        length (comes_to capture).course.past < 2 ^ 64 →
        IsFirstOf (Some f) (comes_within most capture).course.past → f.direction ≡ Direction.Left }
    ensures calling { (local : Local) (begin end : Holding) (turns : List Turn) (capture : Capture) (most : ℕ) (f : First) →
        IsFresh true local begin → Run begin turns end → AreOctets capture → IsSeen Direction.Left turns capture →
        length (comes_to capture).course.past < 2 ^ 64 →
        IsFirstOf (Some f) (comes_within most capture).course.past → f.direction ≡ Direction.Right }
    ensures both { (mine theirs : Local) (begin end called_begin called_end : Holding) (turns called_turns : List Turn)
        (capture : Capture) (most : ℕ) (first : Option First) → AreOctets capture →
        IsFresh true mine begin → Run begin turns end → IsSeen Direction.Left turns capture → IsFresh false theirs called_begin →
        Run called_begin called_turns called_end → IsSeen Direction.Right called_turns capture →
        length (comes_to capture).course.past < 2 ^ 64 →
        IsFirstOf first (comes_within most capture).course.past → first ≡ None }
    ensures called_at_a_judge { (local : Local) (begin end : Holding) (turns : List Turn) (capture : Capture) (most : ℕ) (t : Judge)
        (f : First) → IsFresh false local begin → Run begin turns end → AreOctets capture → IsSeen Direction.Right turns capture →
        length (comes_to capture).course.past < 2 ^ 64 →
        IsFedWithin most capture t → IsJudged t → first_in t ≡ Some f → f.direction ≡ Direction.Left }
    ensures calling_at_a_judge { (local : Local) (begin end : Holding) (turns : List Turn) (capture : Capture) (most : ℕ) (t : Judge)
        (f : First) → IsFresh true local begin → Run begin turns end → AreOctets capture → IsSeen Direction.Left turns capture →
        length (comes_to capture).course.past < 2 ^ 64 →
        IsFedWithin most capture t → IsJudged t → first_in t ≡ Some f → f.direction ≡ Direction.Right }
    ensures both_at_a_judge { (mine theirs : Local) (begin end called_begin called_end : Holding) (turns called_turns : List Turn)
        (capture : Capture) (most : ℕ) (t : Judge) → AreOctets capture →
        IsFresh true mine begin → Run begin turns end → IsSeen Direction.Left turns capture → IsFresh false theirs called_begin →
        Run called_begin called_turns called_end → IsSeen Direction.Right called_turns capture →
        length (comes_to capture).course.past < 2 ^ 64 →
        IsFedWithin most capture t → IsJudged t → first_in t ≡ None }
    ensures called_nowhere { (local : Local) (begin end : Holding) (turns : List Turn) (capture : Capture) (most i : ℕ) (j : Joined) →
        IsFresh false local begin → Run begin turns end → AreOctets capture → IsSeen Direction.Right turns capture →
        length (comes_to capture).course.past < 2 ^ 64 →
        AllByRecursion (λ (m : Moment). IsQuiet m.mark) (comes_within most capture).course.past →
        (slice_get (comes_within most capture).course.sessions.live i ≡ Some j)
        ⊎ (slice_get (comes_within most capture).course.sessions.done i ≡ Some j) → ¬ (IsToBlame Direction.Right j) }
    ensures calling_nowhere { (local : Local) (begin end : Holding) (turns : List Turn) (capture : Capture) (most i : ℕ) (j : Joined) →
        IsFresh true local begin → Run begin turns end → AreOctets capture → IsSeen Direction.Left turns capture →
        length (comes_to capture).course.past < 2 ^ 64 →
        AllByRecursion (λ (m : Moment). IsQuiet m.mark) (comes_within most capture).course.past →
        (slice_get (comes_within most capture).course.sessions.live i ≡ Some j)
        ⊎ (slice_get (comes_within most capture).course.sessions.done i ≡ Some j) → ¬ (IsToBlame Direction.Left j) }
{
    few_octets_fit();
    serial_digits();
    what_closes_sends_nothing();
    osi_message::laws::what_is_sent_is_read();
    osi_message::laws::what_a_part_says();
    osi_message::laws::what_leaves_in_parts();
    an_honest_session_is_explained();
}
