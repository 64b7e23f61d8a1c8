//! What `osi judge` prints of a capture of an end of this library never blames that end. The function does
//! nothing: its clauses are the law.
//!
//! Read it if you want to know whether you can trust a line such as `left broke the protocol first`, where left is an end of this
//! library: there is no such line, whatever the other side sends. [`laws`](super) says that a judge finds no break of the end,
//! and `osi_report` that what is printed of a side is found of it. [`nothing_printed_blames_an_end`] joins the two.
//!
//! - The capture begins with the first octets of the byte connection, and its text says which side called.
//! - A run of an end (`Run` in `specs/ends/Turns`) is any pieces of whatever octets, any calls of its user and any shortage of memory.
//!   The capture may be taken anywhere between the two sides (`IsSeen`).
//! - The lines are those that `osi_report::judge_text` gives (`IsJudgement`); `BlameNowhere` says which of them would blame a side.

ghost use Rattle.std.specs.Prelude.{◌<◌, ◌^◌, false, true, List, ℕ, length};
ghost use Rattle.osi_class.specs.declared.terms.Local.{Local};
ghost use Rattle.osi_stack.specs.State.{Holding};
ghost use Rattle.osi_side.specs.Captures.{Capture};
ghost use Rattle.osi_side.specs.declared.directions.Direction.{Direction};
ghost use Rattle.osi_blameless.specs.ends.Seeing.{IsFresh, IsSeen};
ghost use Rattle.osi_blameless.specs.ends.Turns.{Run, Turn};
ghost use Rattle.osi_judge.specs.States.{comes_to};
ghost use Rattle.osi_blameless.specs.Passing.{AreOctets};
ghost use Rattle.osi_report.specs.Blaming.{BlameNowhere};
ghost use Rattle.osi_report.specs.Disputes.{IsJudgement};
ghost use Rattle.osi_report.specs.Rows.{IsCaptureOf};

use crate::laws::{
    no_session_of_an_end_is_to_blame_after_a_break, the_transport_of_an_end_is_blamed_nowhere,
};
use osi_report::laws::{a_text_has_one_finding, what_is_printed_of_a_side_is_found};

/// Nothing that `osi judge` prints says of an end of this library that it broke the protocol or left the profile. Take any run of an end
/// from its beginning: any pieces of whatever octets arrive, any calls of its user, any shortage of memory, any number of connections,
/// in either class. Take any capture of it, from any place between it and the other side ([`IsSeen`]), and any text of this capture,
/// which says which side called: a called end is right (`called`), a calling one left (`calling`). Then no line of the judgement of this
/// text blames the end: no line of a connection or of its transport, none that says after which packet a side is not judged, and not the
/// last line ([`BlameNowhere`]).
///
/// It is assumed that fewer than 2^64 units have passed: a judge counts no further.
///
/// [`IsSeen`]: ../../specs/ends/Seeing.antt
/// [`BlameNowhere`]: ../../../osi_report/specs/Blaming.antt
pub fn nothing_printed_blames_an_end()
    ensures called { (local : Local) (begin end : Holding) (turns : List Turn) (capture : Capture) (text lines : List ℕ) (status : ℕ) →
        IsFresh false local begin → Run begin turns end → AreOctets capture → IsSeen Direction.Right turns capture →
        length (comes_to capture).course.past < 2 ^ 64 → IsCaptureOf text capture → IsJudgement text lines status →
        BlameNowhere Direction.Right lines }
    ensures calling { (local : Local) (begin end : Holding) (turns : List Turn) (capture : Capture) (text lines : List ℕ) (status : ℕ) →
        IsFresh true local begin → Run begin turns end → AreOctets capture → IsSeen Direction.Left turns capture →
        length (comes_to capture).course.past < 2 ^ 64 → IsCaptureOf text capture → IsJudgement text lines status →
        BlameNowhere Direction.Left lines }
{
    a_text_has_one_finding();
    what_is_printed_of_a_side_is_found();
    the_transport_of_an_end_is_blamed_nowhere();
    no_session_of_an_end_is_to_blame_after_a_break();
}
