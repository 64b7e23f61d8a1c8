//! What passes on one byte connection.

ghost use Rattle.std.specs.Prelude.{◌≡◌, ◌<◌, ◌++◌, ◌∷◌, [], ◌||◌, map, position, length, is_some, nat_lt, slice_set, OnOk, OnErr, IfOk};
ghost use Rattle.std.specs.Prelude.{None, not, true};
ghost use Rattle.std.specs.List.{list_any, list_all};
ghost use Rattle.osi_tpdu.specs.View.{value, request_content};
ghost use Rattle.osi_rules.specs.Rows.{first_failed};
ghost use Rattle.osi_rules.specs.Sides.{begins, is_over, is_live, is_free, is_named, uses};
ghost use Rattle.osi_rules.specs.Traffic.{fresh, none_told, one_told, at_place, at_found, asks_by, asks_kept, found_on, has_place};
ghost use Rattle.osi_rules.specs.Traffic.{is_not_judged, needs_place, most_connections, outcome, packet_begins, placed, request_tests};
ghost use Rattle.osi_rules.specs.Traffic.{routed, takes, refused, refused_reach, unnamed_told, uses_source, asks_of};

use crate::connections::Connection;
use crate::courses::Course;
use crate::directions::Direction;
use crate::effects::{meaning_if, meant};
use crate::findings::{Finding, Meaning, Reach, Rule, Told};
use crate::offers::asked_by;
use crate::routes::{Route, route_for, unnamed};
use osi_class::Class;
use osi_tpdu::{ConnectRequest, Tpdu};
use std::alloc::{AllocError, Global};
use std::marker::Model;

/// How many connections are looked at together.
const MOST_CONNECTIONS: usize = 128;

/// What has passed on a byte connection.
#[derive(Drop)]
pub struct Traffic {
    connections: Vec<Connection>,
    course: Course,
}

/// Whether right has given the reference that its CC names to another connection.
fn uses_source(direction: Direction, connections: &[Connection], unit: &Tpdu<'_>) -> bool
    ensures { result ≡ uses_source direction connections.now (value unit.now) }
{
    match unit {
        Tpdu::Cc(answer) => uses(direction, connections, answer.fields.source),
        _ => false,
    }
}

/// Whether this side has given the reference to a connection.
fn uses(direction: Direction, connections: &[Connection], reference: u16) -> bool
    ensures { result ≡ list_any (λ c. uses direction reference c) connections.now }
{
    connections.iter().any(|c| c.uses(direction, reference))
}

/// Whether left has given the reference to a connection that is not judged any more.
fn is_not_judged(connections: &[Connection], reference: u16) -> bool
    ensures { result ≡ list_any (is_not_judged reference) connections.now }
{
    connections
        .iter()
        .any(|c| !c.is_judged && c.left.reference == reference)
}

/// Whether each connection is over for left.
fn are_over(connections: &[Connection]) -> bool
    ensures { result ≡ list_all (is_over Direction.Left) connections.now }
{
    connections.iter().all(|c| c.is_over(Direction::Left))
}

/// The place of the connection for which a unit with this DST-REF is.
fn named(direction: Direction, connections: &[Connection], destination: u16) -> Option<usize>
    ensures { result ≡ position (is_named direction destination) connections.now }
{
    connections
        .iter()
        .position(|c| c.is_named(direction, destination))
}

/// The place of the one connection of class 0.
fn only(direction: Direction, connections: &[Connection]) -> Option<usize>
    ensures { result ≡ position (is_live direction) connections.now }
{
    connections.iter().position(|c| !c.is_over(direction))
}

/// The first place whose connection is over for both sides.
fn free_place(connections: &[Connection]) -> Option<usize>
    ensures { result ≡ position is_free connections.now }
{
    connections.iter().position(|c| c.is_free())
}

/// A packet of this side begins.
fn begin_each(direction: Direction, connections: &mut Vec<Connection>)
    ensures { connections.new.items ≡ map (begins direction) connections.old.items }
{
    for connection in connections.iter_mut() {
        connection.begin(direction);
    }
}

impl Model for Traffic {
    ghost use Rattle.osi_rules.specs.Traffic.{State};

    ghost Value = { State };

    ghost view = { λ t. record { connections = t.connections.items; course = t.course } };
}

impl Traffic {
    /// Nothing has passed.
    pub fn new(alloc: Global) -> Self
        ensures { result ≡ fresh }
    {
        Traffic {
            connections: Vec::new(alloc),
            course: Course::new(),
        }
    }

    /// The first octet of a packet of this side passes. All that had passed of the other side before it is what the units
    /// of this packet may follow from.
    pub fn begin(&mut self, direction: Direction)
        ensures { self.new ≡ packet_begins direction self.old }
    {
        begin_each(direction, &mut self.connections);
        self.course.begin(direction);
    }

    /// A unit of this side passes, in the packet that began last. Memory is needed only for a CR, if no place is free; `Err`
    /// changes nothing.
    pub fn take(&mut self, direction: Direction, unit: &Tpdu<'_>) -> Result<Told, AllocError>
        ensures ok { IfOk result (λ told. outcome told self.new ≡ takes direction (value unit.now) self.old) }
        ensures err { OnErr result (self.new ≡ self.old) }
        ensures needed { OnErr result (needs_place (value unit.now) self.old.connections ≡ true) }
    {
        if self.course.is_stopped(direction) {
            return Ok(self.tell(direction, Finding::NotJudged));
        }
        match route_for(direction, &self.course, unit) {
            Route::Asks => self.ask(direction, unit),
            Route::Named(reference) => {
                let place = named(direction, &self.connections, reference);
                Ok(self.take_at(direction, unit, place))
            }
            Route::Only => {
                let place = only(direction, &self.connections);
                Ok(self.take_at(direction, unit, place))
            }
            Route::Unnamed(finding) => Ok(self.tell(direction, finding)),
        }
    }

    /// A unit for no connection.
    fn tell(&mut self, direction: Direction, finding: Finding) -> Told
        ensures { outcome result self.new ≡ none_told direction finding self.old }
    {
        let reach = finding.reach(self.course.class_for(direction));
        self.course.reach(direction, reach);
        self.course.note(direction, finding);
        Told {
            finding,
            meaning: Meaning::Nothing,
            place: None,
            reach,
        }
    }

    /// A unit for a reference of no connection.
    fn take_unnamed(&mut self, direction: Direction, unit: &Tpdu<'_>) -> Told
        ensures { outcome result self.new ≡ unnamed_told direction (value unit.now) self.old }
    {
        let finding = unnamed(direction, &self.course, unit);
        self.course = self.course.after_none(direction, unit);
        self.tell(direction, finding)
    }

    /// A unit for the connection at this place, if there is one.
    fn take_at(&mut self, direction: Direction, unit: &Tpdu<'_>, place: Option<usize>) -> Told
        ensures { outcome result self.new ≡ at_place direction (value unit.now) self.old place }
    {
        let Some(place) = place else {
            return self.take_unnamed(direction, unit);
        };
        let Some(connection) = self.connections.get(place) else {
            return self.take_unnamed(direction, unit);
        };
        let connection = *connection;
        self.take_for(direction, unit, place, &connection)
    }

    /// A unit for this connection, which is at this place.
    fn take_for(
        &mut self,
        direction: Direction,
        unit: &Tpdu<'_>,
        place: usize,
        connection: &Connection,
    ) -> Told
        requires { place < length self.old.connections }
        ensures { outcome result self.new ≡ one_told direction place connection.now (value unit.now) self.old }
    {
        let finding = self.find(direction, unit, connection);
        let reach = finding.reach(self.course.class_for(direction));
        let applied = finding.is_applied();
        self.connections[place] = connection.after(direction, unit, applied, reach);
        self.course = self.course.after(direction, connection, unit, applied);
        self.course.reach(direction, reach);
        self.course.note(direction, finding);
        Told {
            finding,
            meaning: meaning_if(applied, meant(unit)),
            place: Some(place),
            reach,
        }
    }

    /// What is found of a unit for this connection.
    fn find(&self, direction: Direction, unit: &Tpdu<'_>, connection: &Connection) -> Finding
        ensures { result ≡ found_on direction self.now connection.now (value unit.now) }
    {
        if !connection.is_judged {
            return Finding::NotJudged;
        }
        let in_use = uses_source(direction, &self.connections, unit);
        connection.find(direction, &self.course, in_use, unit)
    }

    /// What is found of a CR of left. `is_place`: there is a place for its connection.
    fn find_request(&self, request: &ConnectRequest<'_>, is_place: bool) -> Finding
        ensures { is_place ≡ has_place self.now.connections → result ≡ first_failed (request_tests self.now (request_content request.now)) }
    {
        let source = request.fields.source;
        if self.course.class_seen.is_none() && !are_over(&self.connections) {
            return Finding::Broke(Rule::Negotiating);
        }
        if is_not_judged(&self.connections, source) {
            return Finding::TooMany;
        }
        if uses(Direction::Left, &self.connections, source) {
            return Finding::Broke(Rule::ReferenceInUse);
        }
        if !is_place {
            return Finding::TooMany;
        }
        Finding::Kept
    }

    /// A CR of left.
    fn ask(&mut self, direction: Direction, unit: &Tpdu<'_>) -> Result<Told, AllocError>
        ensures ok { IfOk result (λ told. outcome told self.new ≡ asks_of direction (value unit.now) self.old) }
        ensures err { OnErr result (self.new ≡ self.old) }
        ensures needed { OnErr result (needs_place (value unit.now) self.old.connections ≡ true) }
    {
        let Tpdu::Cr(request) = unit else {
            return Ok(self.tell(direction, Finding::NotJudged));
        };
        let place = free_place(&self.connections);
        let is_place = place.is_some() || self.connections.len() < MOST_CONNECTIONS;
        match self.find_request(request, is_place) {
            Finding::Kept => self.open(request, place),
            finding => Ok(self.tell(direction, finding)),
        }
    }

    /// A connection is requested, and gets this place or a new one.
    fn open(
        &mut self,
        request: &ConnectRequest<'_>,
        place: Option<usize>,
    ) -> Result<Told, AllocError>
        requires { place ≡ position is_free self.old.connections }
        ensures ok { IfOk result (λ told. outcome told self.new ≡ asks_kept (request_content request.now) self.old place) }
        ensures err { OnErr result (self.new ≡ self.old) }
        ensures needed { OnErr result (place ≡ None) }
    {
        let connection = asked_by(request);
        let place = match place {
            Some(place) => {
                self.connections[place] = connection;
                place
            }
            None => {
                let place = self.connections.len();
                self.connections.push(connection)?;
                place
            }
        };
        Ok(Told {
            finding: Finding::Kept,
            meaning: Meaning::Asks,
            place: Some(place),
            reach: Reach::Nothing,
        })
    }

    /// Octets of this side pass that are no packet, or a packet that holds no units: the other side ends. Says how much is
    /// not judged any more.
    pub fn refuse(&mut self, direction: Direction) -> Reach
        ensures reach { result ≡ refused_reach direction self.old }
        ensures state { self.new ≡ refused direction self.old }
    {
        let reach = match self.course.class_for(direction) {
            Some(Class::Zero) => Reach::Side,
            None | Some(Class::Two) => Reach::Everything,
        };
        self.course.reach(direction, reach);
        reach
    }
}
