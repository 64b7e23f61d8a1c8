//! For which connection a unit is.

ghost use Rattle.std.specs.Prelude.{◌≡◌};
ghost use Rattle.osi_tpdu.specs.View.{value};
ghost use Rattle.osi_rules.specs.Sides.{other};
ghost use Rattle.osi_rules.specs.Traffic.{route_before, route_zero, route_two, route, unnamed, unnamed_by, in_doubt, is_report};

use crate::courses::Course;
use crate::directions::Direction;
use crate::findings::{Finding, Rule};
use osi_class::Class;
use osi_tpdu::Tpdu;

/// For which connection a unit is.
#[derive(Clone, Copy, PartialEq, Eq)]
pub enum Route {
    /// A CR of left: for a new one.
    Asks,
    /// For the connection to which the other side gave this reference.
    Named(u16),
    /// For the one connection of class 0.
    Only,
    /// For none; this is found of it.
    Unnamed(Finding),
}

/// A unit that breaks a rule whatever connections there are.
fn broke(rule: Rule) -> Route
    ensures { result ≡ Route.Unnamed (Finding.Broke rule) }
{
    Route::Unnamed(Finding::Broke(rule))
}

/// Before the class is known: a CR, and the answers to it.
fn route_before(direction: Direction, unit: &Tpdu<'_>) -> Route
    ensures { result ≡ route_before direction (value unit.now) }
{
    match (direction, unit) {
        (Direction::Left, Tpdu::Cr(_)) => Route::Asks,
        (Direction::Right, Tpdu::Cc(answer)) => Route::Named(answer.destination),
        (Direction::Right, Tpdu::Dr(request)) => Route::Named(request.destination),
        (Direction::Right, Tpdu::Er(report)) => Route::Named(report.destination),
        (_, Tpdu::Dc(confirm)) => Route::Named(confirm.destination),
        _ => broke(Rule::UnexpectedUnit),
    }
}

/// Class 0 has only DTs after its CC; an ER may report a break of the other side.
fn route_zero(direction: Direction, other_broke: bool, unit: &Tpdu<'_>) -> Route
    ensures { result ≡ route_zero direction other_broke (value unit.now) }
{
    match (direction, unit) {
        (Direction::Left, Tpdu::Cr(_)) => broke(Rule::OneConnection),
        (Direction::Right, Tpdu::Cr(_)) => broke(Rule::UnexpectedUnit),
        (_, Tpdu::Dt0(_)) => Route::Only,
        (_, Tpdu::Dc(confirm)) => Route::Named(confirm.destination),
        (_, Tpdu::Er(_)) => {
            if other_broke {
                return Route::Unnamed(Finding::Kept);
            }
            broke(Rule::WrongForm)
        }
        _ => broke(Rule::WrongForm),
    }
}

/// Class 2: by reference.
fn route_two(direction: Direction, unit: &Tpdu<'_>) -> Route
    ensures { result ≡ route_two direction (value unit.now) }
{
    match (direction, unit) {
        (Direction::Left, Tpdu::Cr(_)) => Route::Asks,
        (Direction::Right, Tpdu::Cr(_)) | (_, Tpdu::Dt0(_)) => broke(Rule::UnexpectedUnit),
        (_, Tpdu::Cc(answer)) => Route::Named(answer.destination),
        (_, Tpdu::Dr(request)) => Route::Named(request.destination),
        (_, Tpdu::Dc(confirm)) => Route::Named(confirm.destination),
        (_, Tpdu::Dt2(data)) => Route::Named(data.destination),
        (_, Tpdu::Ak(ack)) => Route::Named(ack.destination),
        (_, Tpdu::Er(report)) => Route::Named(report.destination),
    }
}

/// For which connection a unit is, by the class as far as its sender may know it.
pub(crate) fn route_for(direction: Direction, course: &Course, unit: &Tpdu<'_>) -> Route
    ensures { result ≡ route direction course.now (value unit.now) }
{
    match course.class_for(direction) {
        None => route_before(direction, unit),
        Some(Class::Zero) => route_zero(direction, course.has_broken(direction.other()), unit),
        Some(Class::Two) => route_two(direction, unit),
    }
}

/// What is found of a unit for a reference of no connection, as long as all connections are judged. `may_answer`: a DR has
/// closed nothing, which a DC may answer.
fn unnamed_by(may_answer: bool, unit: &Tpdu<'_>) -> Finding
    ensures { result ≡ unnamed_by may_answer (value unit.now) }
{
    match unit {
        Tpdu::Dc(_) => {
            if may_answer {
                return Finding::NotJudged;
            }
            Finding::Broke(Rule::UnknownReference)
        }
        _ => Finding::Broke(Rule::UnknownReference),
    }
}

/// Whether a unit is an ER that may answer a break of the other side.
fn is_report(other_erred: bool, unit: &Tpdu<'_>) -> bool
    ensures { result ≡ is_report other_erred (value unit.now) }
{
    match unit {
        Tpdu::Er(_) => other_erred,
        _ => false,
    }
}

/// What is found in place of this if a connection is not judged any more, which may have got the reference since.
fn in_doubt(finding: Finding) -> Finding
    ensures { result ≡ in_doubt finding }
{
    match finding {
        Finding::Broke(_) => Finding::TooMany,
        _ => finding,
    }
}

/// What is found of a unit for a reference of no connection.
pub(crate) fn unnamed(direction: Direction, course: &Course, unit: &Tpdu<'_>) -> Finding
    ensures { result ≡ unnamed direction course.now (value unit.now) }
{
    if is_report(course.has_erred(direction.other()), unit) {
        return Finding::NotJudged;
    }
    let finding = unnamed_by(course.disconnects.may_answer(direction), unit);
    if course.loose {
        return in_doubt(finding);
    }
    finding
}
