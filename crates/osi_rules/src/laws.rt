//! What holds of all units and connections. Each law is the contract of a function that does nothing.

ghost use Rattle.std.specs.Prelude.{◌≡◌, ◌<◌, ◌≢◌, ◌||◌, ℕ, None, Some, true, false, length, slice_get};
ghost use Rattle.osi_tpdu.specs.Value.{Value, error};
ghost use Rattle.osi_rules.specs.Reaches.{is_break};
ghost use Rattle.osi_rules.specs.Sides.{other};
ghost use Rattle.osi_rules.specs.Traffic.{State, class_for, has_erred, is_stopped, none_told, noted, stops_by, takes};

use crate::directions::Direction;
use crate::findings::Finding;

/// A unit changes the connection at the place that is told of it, and no other: a break on one connection leaves all others
/// as they were.
pub fn a_unit_changes_one_connection()
    ensures { (d : Direction) (v : Value) (s : State) (i : ℕ) → i < length s.connections → (takes d v s).told.place ≢ Some i
        → slice_get (takes d v s).state.connections i ≡ slice_get s.connections i }
{}

/// With each unit it is told how much is judged no further after it (`Reach`): nothing, its connection, its side,
/// or everything. Nothing more of a side is judged after a unit exactly if that was so before it, or if this reach
/// includes the side.
pub fn a_stop_is_said()
    ensures { (d : Direction) (v : Value) (s : State) (e : Direction)
        → is_stopped e (takes d v s).state.course ≡ (stops_by d (takes d v s).told.reach e || is_stopped e s.course) }
{}

/// A break is never forgotten: a side has broken a rule after a unit exactly if it had before, or if the unit is
/// its own and breaks one.
pub fn a_break_is_kept()
    ensures { (d : Direction) (v : Value) (s : State) (e : Direction)
        → has_erred e (takes d v s).state.course ≡ has_erred e (noted d (takes d v s).told.finding s.course) }
{}

/// An ER breaks no rule after a unit of the other side has broken one, once its sender may know the class: it may answer that
/// break (X.224 section 6.22).
pub fn an_er_after_a_break_is_no_break()
    ensures { (d : Direction) (destination cause : ℕ) (s : State) → class_for d s.course ≢ None
        → has_erred (other d) s.course ≡ true → is_break (takes d (error destination cause) s).told.finding ≡ false }
{}

/// If nothing more of a side is judged, its units change nothing.
pub fn a_stop_lasts()
    ensures { (d : Direction) (v : Value) (s : State) → is_stopped d s.course ≡ true → takes d v s ≡ none_told d Finding.NotJudged s }
{}
