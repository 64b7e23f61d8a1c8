//! What passes on a byte connection: its transport, its sessions, and what was found of both.

ghost use Rattle.std.specs.Prelude.{◌≡◌, ◌+◌, ℕ, None, Some, List, drop, IfOk, IsOk, OnOk, OnErr};
ghost use Rattle.osi_tpdu.specs.Units.{units_left};
ghost use Rattle.osi_tpdu.specs.Value.{Value};
ghost use Rattle.osi_tpdu.specs.View.{value};
ghost use Rattle.osi_judge.specs.Connections.{Sessions as Passed};
ghost use Rattle.osi_judge.specs.Courses.{Course, fresh_within, way_of, cause_of, packet_begins, number_at, noted, marked, first_marked};
ghost use Rattle.osi_judge.specs.Courses.{reached, changes, breaks, unread, unit_passes};
ghost use Rattle.osi_judge.specs.Courses.{marks_of, mark_of, moment_of, first_by, first_after};
ghost use Rattle.osi_judge.specs.Blaming.{BlamesBy, IsSessionOf, IsToldOf, NobodyElse};
ghost use Rattle.osi_judge.specs.Holding.{AllHeard, HoldsCourse, HoldsPassed, HoldsSessions, IsDue, IsTold, unit_due};
ghost use Rattle.osi_judge.specs.Owing.{HoldsAll, Owes, OwesLast, OwesUnits};

use crate::marks::{Cause, First, Layer, Mark, Marks, UnitKind, first_by, first_if};
use crate::rooms::Room;
use crate::sessions::Sessions;
use osi_rules::{Direction as Way, Finding, Reach, Told, Traffic};
use osi_side::Direction;
use osi_tpdu::{Tpdu, Units, read_units};
use std::alloc::{AllocError, Global};

/// What has passed, packet by packet.
#[derive(Drop)]
pub(crate) struct Proceedings {
    traffic: Traffic,
    pub(crate) sessions: Sessions,
    left: Marks,
    right: Marks,
    pub(crate) first: Option<First>,
    /// How many units of the current packet have passed, if it is whole.
    passed: usize,
    /// What was found of the next one, if its transport is judged already.
    told: Option<Told>,
}

/// A direction as `osi_rules` names it.
fn way(direction: Direction) -> Way
    ensures { result ≡ way_of direction }
{
    match direction {
        Direction::Left => Way::Left,
        Direction::Right => Way::Right,
    }
}

/// What a finding is a mark of, if it is of one.
fn cause_of(finding: Finding) -> Option<Cause>
    ensures { result ≡ cause_of finding }
{
    match finding {
        Finding::Kept => None,
        Finding::NotJudged => None,
        Finding::Broke(rule) => Some(Cause::Broke(rule)),
        Finding::Outside => Some(Cause::Outside),
        Finding::TooMany => Some(Cause::TooMany),
    }
}

/// The units after the first ones.
fn units_after(mut units: Units<'_>, mut passed: usize) -> Units<'_>
    ensures { units_left result ≡ drop passed (units_left units.entry) }
{
    'skipped: while passed > 0 {
        let _ = units.next();
        passed -= 1;
    }
    units
}

/// These units of the packet at this offset pass. After `Err` the first of those that have not passed is the next.
fn pass_units(
    proceedings: &mut Proceedings,
    direction: Direction,
    at: u64,
    mut units: Units<'_>,
) -> Result<(), AllocError>
    ensures ok { OnOk result ((vs : List Value) (c : Course) → OwesLast proceedings.old direction at vs (units_left units.entry) c
        → HoldsCourse proceedings.new c) }
    ensures told { OnOk result ((vs : List Value) (c : Course) → OwesLast proceedings.old direction at vs (units_left units.entry) c
        → proceedings.new.told ≡ None) }
    ensures err { OnErr result ((vs : List Value) (c : Course) → OwesLast proceedings.old direction at vs (units_left units.entry) c
        → OwesUnits proceedings.new direction at (drop proceedings.new.passed vs) c) }
{
    'units: while let Some(unit) = units.next() {
        proceedings.pass(direction, at, &unit)?;
    }
    Ok(())
}

/// The packet at this offset passes, of which some units may have passed.
fn pass_rest(
    proceedings: &mut Proceedings,
    direction: Direction,
    at: u64,
    units: Units<'_>,
) -> Result<(), AllocError>
    ensures ok { OnOk result ((c : Course) → OwesUnits proceedings.old direction at (drop proceedings.old.passed (units_left units.entry)) c
        → HoldsAll proceedings.new c) }
    ensures err { OnErr result ((c : Course)
        → OwesUnits proceedings.old direction at (drop proceedings.old.passed (units_left units.entry)) c
        → OwesUnits proceedings.new direction at (drop proceedings.new.passed (units_left units.entry)) c) }
{
    let rest = units_after(units, proceedings.passed);
    pass_units(proceedings, direction, at, rest)?;
    proceedings.passed = 0;
    Ok(())
}

/// The units of the whole packet at this offset pass, those that have not passed yet. After `Err` those that passed have
/// passed, and the next call goes on with the others.
pub(crate) fn pass_packet(
    proceedings: &mut Proceedings,
    direction: Direction,
    at: u64,
    packet: &[u8],
) -> Result<(), AllocError>
    ensures ok { OnOk result ((c : Course) → Owes proceedings.old direction at packet.now c → HoldsAll proceedings.new c) }
    ensures err { OnErr result ((c : Course) → Owes proceedings.old direction at packet.now c
        → Owes proceedings.new direction at packet.now c) }
{
    match read_units(packet) {
        Ok(units) => pass_rest(proceedings, direction, at, units),
        Err(fault) => {
            proceedings.refuse(direction, at, Cause::BadUnit(fault));
            Ok(())
        }
    }
}

impl Proceedings {
    /// Nothing has passed, and of each connection so much may be kept.
    pub(crate) fn new(alloc: Global, room: Room) -> Proceedings
        ensures { HoldsAll result (fresh_within room) }
    {
        Proceedings {
            traffic: Traffic::new(alloc),
            sessions: Sessions::new(alloc, room),
            left: Marks::new(),
            right: Marks::new(),
            first: None,
            passed: 0,
            told: None,
        }
    }

    pub(crate) fn marks(&self, direction: Direction) -> &Marks
        ensures { (c : Course) → HoldsCourse self.now c → result.now ≡ marks_of direction c }
    {
        match direction {
            Direction::Left => &self.left,
            Direction::Right => &self.right,
        }
    }

    /// The first octet of a packet of a side passes.
    pub(crate) fn begin(&mut self, direction: Direction)
        ensures holds { (c : Course) → HoldsCourse self.old c → HoldsCourse self.new (packet_begins direction c) }
        ensures told { self.new.told ≡ self.old.told }
        ensures passed { self.new.passed ≡ self.old.passed }
    {
        self.traffic.begin(way(direction));
        self.sessions.begin(direction);
    }

    /// The sessions of all connections are given what they have not heard yet, as long as memory lasts.
    pub(crate) fn hand_over(&mut self) -> Result<(), AllocError>
        ensures holds { (c : Course) → HoldsAll self.old c → HoldsAll self.new c }
        ensures heard { OnOk result (AllHeard self.new.sessions) }
        ensures free { AllHeard self.old.sessions → IsOk result }
    {
        self.sessions.hand_over()
    }

    /// A unit of a side passes, in the packet at this offset. After `Err` it has still to pass, or its session has.
    fn pass(&mut self, direction: Direction, at: u64, unit: &Tpdu<'_>) -> Result<(), AllocError>
        ensures ok { OnOk result ((c : Course) → HoldsCourse self.old c
            → HoldsCourse self.new (unit_due self.old.told direction at (value unit.now) c)) }
        ensures told { OnOk result (self.new.told ≡ None) }
        ensures passed { OnOk result (self.new.passed ≡ self.old.passed + 1) }
        ensures err { OnErr result ((c : Course) → HoldsCourse self.old c
            → IsDue self.new direction at (value unit.now) (unit_due self.old.told direction at (value unit.now) c)) }
        ensures as_many { OnErr result (self.new.passed ≡ self.old.passed) }
    {
        if self.passed == usize::MAX {
            return Err(AllocError);
        }
        let told = self.tell(direction, unit)?;
        self.sessions.take(direction, at, unit, &told)?;
        self.note(direction, at, unit, &told);
        self.told = None;
        self.passed += 1;
        Ok(())
    }

    /// What is told of the next unit. `Err` changes nothing.
    fn tell(&mut self, direction: Direction, unit: &Tpdu<'_>) -> Result<Told, AllocError>
        ensures ok { IfOk result (λ told. (at : ℕ) (c : Course) → HoldsCourse self.old c
            → IsTold self.new direction at (value unit.now) told (unit_due self.old.told direction at (value unit.now) c)) }
        ensures told { IfOk result (λ told. self.new.told ≡ Some told) }
        ensures err { OnErr result ((c : Course) → HoldsCourse self.old c → HoldsCourse self.new c) }
        ensures untold { OnErr result (self.new.told ≡ self.old.told) }
        ensures passed { self.new.passed ≡ self.old.passed }
    {
        match self.told {
            Some(told) => Ok(told),
            None => self.tell_anew(direction, unit),
        }
    }

    /// What is told of a unit that is new. `Err` changes nothing.
    fn tell_anew(&mut self, direction: Direction, unit: &Tpdu<'_>) -> Result<Told, AllocError>
        ensures ok { IfOk result (λ told. (at : ℕ) (c : Course) → HoldsCourse self.old c
            → IsTold self.new direction at (value unit.now) told (unit_passes direction at (value unit.now) c)) }
        ensures told { IfOk result (λ told. self.new.told ≡ Some told) }
        ensures err { OnErr result ((c : Course) → HoldsCourse self.old c → HoldsCourse self.new c) }
        ensures untold { OnErr result (self.new.told ≡ self.old.told) }
        ensures passed { self.new.passed ≡ self.old.passed }
    {
        let told = self.traffic.take(way(direction), unit)?;
        self.told = Some(told);
        Ok(told)
    }

    /// What was found of a unit.
    fn note(&mut self, direction: Direction, at: u64, unit: &Tpdu<'_>, told: &Told)
        ensures holds { (c : Course) → HoldsPassed self.old c → HoldsPassed self.new (noted direction at (value unit.now) told.now c) }
        ensures first { (c : Course) → HoldsPassed self.old c → self.old.first ≡ None → NobodyElse direction told.now.place c.sessions
            → IsToldOf self.new.first (moment_of direction at (value unit.now) told.now c.sessions) }
        ensures kept { (c : Course) (f : First) → HoldsPassed self.old c → self.old.first ≡ Some f → self.new.first ≡ Some f }
        ensures told { self.new.told ≡ self.old.told }
        ensures passed { self.new.passed ≡ self.old.passed }
    {
        let connection = self.number_at(told.place);
        self.note_transport(direction, at, unit, told, connection);
        self.note_session(direction, told.place, connection);
    }

    /// What was found of its transport; it is of the connection with this number.
    fn note_transport(
        &mut self,
        direction: Direction,
        at: u64,
        unit: &Tpdu<'_>,
        told: &Told,
        connection: Option<usize>,
    )
        ensures holds { (c : Course) → HoldsPassed self.old c → connection ≡ number_at told.now.place c.sessions
            → HoldsPassed self.new (noted direction at (value unit.now) told.now c) }
        ensures first { (s : Passed) → connection ≡ number_at told.now.place s
            → self.new.first ≡ first_after (mark_of direction at (value unit.now) told.now s) self.old.first }
        ensures sessions { self.new.sessions ≡ self.old.sessions }
        ensures told { self.new.told ≡ self.old.told }
        ensures passed { self.new.passed ≡ self.old.passed }
    {
        let kind = UnitKind::of(unit);
        match cause_of(told.finding) {
            None => {}
            Some(cause) => {
                let mark = Mark {
                    direction,
                    offset: at,
                    unit: Some(kind),
                    connection,
                    cause,
                };
                self.mark(mark, told.reach);
            }
        }
    }

    /// The session of a side of the connection at this place may have broken the protocol.
    fn note_session(
        &mut self,
        direction: Direction,
        place: Option<usize>,
        connection: Option<usize>,
    )
        ensures holds { (c : Course) → HoldsPassed self.old c → HoldsPassed self.new c }
        ensures first { (s : Passed) → HoldsSessions self.old.sessions s → connection ≡ number_at place s → self.old.first ≡ None
            → NobodyElse direction place s → IsSessionOf self.new.first direction s }
        ensures kept { (f : First) → self.old.first ≡ Some f → self.new.first ≡ Some f }
        ensures told { self.new.told ≡ self.old.told }
        ensures passed { self.new.passed ≡ self.old.passed }
    {
        let broke = self.session_broke(direction, place);
        let by = First {
            direction,
            layer: Layer::Session,
            connection,
        };
        let first = first_if(self.first, broke, by);
        self.first = first;
    }

    /// The number of the connection at a place.
    fn number_at(&self, place: Option<usize>) -> Option<usize>
        ensures { (s : Passed) → HoldsSessions self.now.sessions s → result ≡ number_at place s }
    {
        let Some(place) = place else {
            return None;
        };
        self.sessions.number_at(place)
    }

    /// Whether the session of a side of the connection at a place has broken the protocol.
    fn session_broke(&self, direction: Direction, place: Option<usize>) -> bool
        ensures { (s : Passed) → HoldsSessions self.now.sessions s → BlamesBy result direction place s }
    {
        let Some(place) = place else {
            return false;
        };
        self.sessions.has_broken(direction, place)
    }

    /// The mark is the first of all breaks, if it is one and there was none before it.
    fn mark_first(&mut self, mark: Mark)
        ensures holds { (c : Course) → HoldsPassed self.old c → HoldsPassed self.new (first_marked mark c) }
        ensures first { self.new.first ≡ first_by mark self.old.first }
        ensures sessions { self.new.sessions ≡ self.old.sessions }
        ensures told { self.new.told ≡ self.old.told }
        ensures passed { self.new.passed ≡ self.old.passed }
    {
        let first = first_by(self.first, mark);
        self.first = first;
    }

    /// What was found of the transport of a side, and how much is not judged any more.
    fn mark(&mut self, mark: Mark, reach: Reach)
        ensures holds { (c : Course) → HoldsPassed self.old c → HoldsPassed self.new (marked mark reach c) }
        ensures first { self.new.first ≡ first_by mark self.old.first }
        ensures sessions { self.new.sessions ≡ self.old.sessions }
        ensures told { self.new.told ≡ self.old.told }
        ensures passed { self.new.passed ≡ self.old.passed }
    {
        self.mark_first(mark);
        self.breaks(mark);
        self.halt(mark, reach);
    }

    /// The side that sent the packet broke a rule, or left the profile.
    fn breaks(&mut self, mark: Mark)
        ensures holds { (c : Course) → HoldsPassed self.old c → HoldsPassed self.new (changes mark.direction (breaks mark) c) }
        ensures first { self.new.first ≡ self.old.first }
        ensures sessions { self.new.sessions ≡ self.old.sessions }
        ensures told { self.new.told ≡ self.old.told }
        ensures passed { self.new.passed ≡ self.old.passed }
    {
        match mark.direction {
            Direction::Left => self.left.breaks(mark),
            Direction::Right => self.right.breaks(mark),
        }
    }

    /// So much is not judged any more.
    fn halt(&mut self, mark: Mark, reach: Reach)
        ensures holds { (c : Course) → HoldsPassed self.old c → HoldsPassed self.new (reached mark reach c) }
        ensures first { self.new.first ≡ self.old.first }
        ensures sessions { self.new.sessions ≡ self.old.sessions }
        ensures told { self.new.told ≡ self.old.told }
        ensures passed { self.new.passed ≡ self.old.passed }
    {
        match (reach, mark.direction) {
            (Reach::Nothing, _) => {}
            (Reach::Connection, _) => {}
            (Reach::Side, Direction::Left) => self.left.halts(mark),
            (Reach::Side, Direction::Right) => self.right.halts(mark),
            (Reach::Everything, _) => {
                self.left.halts(mark);
                self.right.halts(mark);
            }
        }
    }

    /// What a side sends at this offset can't be read.
    pub(crate) fn refuse(&mut self, direction: Direction, at: u64, cause: Cause)
        ensures holds { (c : Course) → HoldsCourse self.old c → HoldsCourse self.new (unread direction at cause c) }
        ensures told { self.new.told ≡ self.old.told }
        ensures passed { self.new.passed ≡ self.old.passed }
    {
        if self.marks(direction).halted.is_some() {
            return;
        }
        let reach = self.traffic.refuse(way(direction));
        let mark = Mark {
            direction,
            offset: at,
            unit: None,
            connection: None,
            cause,
        };
        self.mark(mark, reach);
    }
}
