//! The connections of a byte connection, by their places.

ghost use Rattle.std.specs.Prelude.{◌≡◌, ◌≤◌, ◌<◌, ◌+◌, ℕ, List, Option, Some, IfOk, IsOk, OnOk, OnErr, length, map, take, ◌==◌};
ghost use Rattle.std.specs.Prelude.{option_copied, option_map, slice_get};
ghost use Rattle.std.specs.List.{find};
ghost use Rattle.osi_side.specs.Captures.{other};
ghost use Rattle.osi_tpdu.specs.View.{value};
ghost use Rattle.osi_judge.specs.Connections.{Joined, Sessions as Passed, none, count, all_begin, packet_begins, source_of, class_of};
ghost use Rattle.osi_judge.specs.Connections.{user_of, meant, taken, asked_at, placed, changed, numbered};
ghost use Rattle.osi_tpkt.specs.Stream.{offset_of};
ghost use Rattle.osi_judge.specs.Courses.{number_at, number_of};
ghost use Rattle.osi_judge.specs.Blaming.{Blames, NobodyElse, NobodyElseIs, NobodyIs, SomeoneIs};
ghost use Rattle.osi_judge.specs.Holding.{line_in, AllHeard, AreHeard, FoundHeard, HoldAll, HoldsFound, HoldsJoined, HoldsSessions};
ghost use Rattle.osi_judge.specs.Pasts.{AllPast, HoldsPastOf};

use crate::connections::Connection;
use crate::pasts::Past;
use crate::records::Records;
use crate::rooms::Room;
use osi_class::Class;
use osi_rules::{Meaning, Told};
use osi_side::Direction;
use osi_tpdu::Tpdu;
use std::alloc::{AllocError, Global};

/// A connection that is sought.
#[derive(Clone, Copy)]
pub enum Found<'a> {
    /// It has a place.
    Placed(&'a Connection),
    /// It is over, and its place was given to another.
    Replaced(&'a Past),
}

/// The connections that may still get units, each at the place that `osi_rules` gives it, and what is left of those whose place
/// was given to another.
#[derive(Drop)]
pub(crate) struct Sessions {
    alloc: Global,
    pub(crate) live: Vec<Connection>,
    pub(crate) done: Records,
    /// How much may be kept of each.
    pub(crate) room: Room,
}

/// The reference of the sender of a CR or CC.
fn source_of(unit: &Tpdu<'_>) -> u16
    ensures { result ≡ source_of (value unit.now) }
{
    match unit {
        Tpdu::Cr(request) => request.fields.source,
        Tpdu::Cc(answer) => answer.fields.source,
        _ => 0,
    }
}

/// The class that a CC selects.
fn class_of(unit: &Tpdu<'_>) -> Class
    ensures { result ≡ class_of (value unit.now) }
{
    match unit {
        Tpdu::Cc(answer) => {
            if answer.fields.class == 2 {
                Class::Two
            } else {
                Class::Zero
            }
        }
        _ => Class::Zero,
    }
}

/// The user data of a DT.
fn user_of<'a>(unit: &Tpdu<'a>) -> &'a [u8]
    ensures { result.now ≡ user_of (value unit.now) }
{
    match unit {
        Tpdu::Dt0(data) => data.user,
        Tpdu::Dt2(data) => data.user,
        _ => &[],
    }
}

/// How many connections there are.
fn count_of(connections: &[Connection]) -> usize
    ensures { result ≡ length connections.now }
{
    connections.len()
}

/// The number of the connection at a place.
fn number_in(live: &[Connection], place: usize) -> Option<usize>
    ensures { (js : List Joined) → HoldAll live.now js → result ≡ option_map number_of (slice_get js place) }
{
    if place >= live.len() {
        return None;
    }
    let number = live[place].number;
    Some(number)
}

/// Whether the session of a side of the connection at a place has broken the protocol or left the profile.
fn broke_in(live: &[Connection], direction: Direction, place: usize) -> bool
    ensures { (js : List Joined) → HoldAll live.now js → Blames result direction place js }
{
    if place >= live.len() {
        return false;
    }
    live[place].has_broken(direction)
}

/// The first of the connections with a number.
fn find_in(connections: &[Connection], number: usize) -> Option<&Connection>
    ensures { option_copied result ≡ find (λ c. c.number == number) connections.now }
{
    connections.iter().find(|c| c.number == number)
}

/// A packet of a side begins.
fn begin_each(direction: Direction, live: &mut Vec<Connection>)
    ensures { (js : List Joined) → HoldAll live.old.items js → HoldAll live.new.items (map (packet_begins direction) js) }
{
    for connection in live.iter_mut() {
        connection.begin(direction);
    }
}

/// The sessions of the connection at a place are given what they have not heard yet.
fn hand_over_at(live: &mut Vec<Connection>, place: usize) -> Result<(), AllocError>
    requires { place < length live.old.items }
    ensures holds { (js : List Joined) → HoldAll live.old.items js → HoldAll live.new.items js }
    ensures count { length live.new.items ≡ length live.old.items }
    ensures heard { OnOk result (AreHeard (take place live.old.items) → AreHeard (take (place + 1) live.new.items)) }
    ensures free { AreHeard live.old.items → IsOk result × AreHeard live.new.items }
{
    live[place].hand_over()
}

/// What is kept of the connection at a place once it is over. Its sessions are given what they have not heard yet.
fn sum_up_at(alloc: Global, live: &mut Vec<Connection>, place: usize) -> Result<Past, AllocError>
    requires { place < length live.old.items }
    ensures holds { (js : List Joined) → HoldAll live.old.items js → HoldAll live.new.items js }
    ensures count { length live.new.items ≡ length live.old.items }
    ensures past { IfOk result (λ p. (js : List Joined) → HoldAll live.old.items js → HoldsPastOf p (slice_get js place)) }
{
    live[place].sum_up(alloc)
}

/// The sessions of all are given what they have not heard yet, one connection after the other, as long as memory lasts.
fn hand_over_each(live: &mut Vec<Connection>) -> Result<(), AllocError>
    ensures holds { (js : List Joined) → HoldAll live.old.items js → HoldAll live.new.items js }
    ensures heard { OnOk result (AreHeard live.new.items) }
    ensures free { AreHeard live.old.items → IsOk result }
{
    let mut place = 0;
    'connections: while place < live.len() {
        hand_over_at(live, place)?;
        place += 1;
    }
    Ok(())
}

impl Sessions {
    /// There is none, and of each so much may be kept.
    pub(crate) fn new(alloc: Global, room: Room) -> Sessions
        ensures { HoldsSessions result (record none { room = room }) }
    {
        Sessions {
            alloc,
            live: Vec::new(alloc),
            done: Records::new(alloc),
            room,
        }
    }

    /// How many connections were requested.
    pub(crate) fn count(&self) -> usize
        ensures { (s : Passed) → HoldsSessions self.now s → result ≡ offset_of (count s) }
    {
        let live = count_of(&self.live);
        let done = self.done.len();
        live.saturating_add(done)
    }

    /// Whether the session of a side of the connection at a place has broken the protocol or left the profile.
    pub(crate) fn has_broken(&self, direction: Direction, place: usize) -> bool
        ensures { (s : Passed) → HoldsSessions self.now s → Blames result direction place s.live }
    {
        broke_in(&self.live, direction, place)
    }

    /// The number of the connection at a place.
    pub(crate) fn number_at(&self, place: usize) -> Option<usize>
        ensures { (s : Passed) → HoldsSessions self.now s → result ≡ number_at (Some place) s }
    {
        number_in(&self.live, place)
    }

    /// Those that have a place, by their places.
    pub(crate) fn placed(&self) -> &[Connection]
        ensures held { (s : Passed) → HoldsSessions self.now s → HoldAll result.now s.live }
        ensures heard { AllHeard self.now → AreHeard result.now }
    {
        &self.live
    }

    /// Those whose place was given to another.
    pub(crate) fn replaced(&self) -> &[Past]
        ensures { (s : Passed) → HoldsSessions self.now s → AllPast result.now s.done }
    {
        self.done.as_slice()
    }

    /// The connection with a number.
    pub(crate) fn numbered(&self, number: usize) -> Option<Found<'_>>
        ensures held { (s : Passed) → HoldsSessions self.now s → HoldsFound result (numbered number s) }
        ensures heard { AllHeard self.now → FoundHeard result }
    {
        if let Some(connection) = find_in(&self.live, number) {
            return Some(Found::Placed(connection));
        }
        match self.done.numbered(number) {
            Some(past) => Some(Found::Replaced(past)),
            None => None,
        }
    }

    /// A packet of a side begins.
    pub(crate) fn begin(&mut self, direction: Direction)
        ensures { (s : Passed) → HoldsSessions self.old s → HoldsSessions self.new (all_begin direction s) }
    {
        begin_each(direction, &mut self.live);
    }

    /// The sessions of all are given what they have not heard yet, as long as memory lasts.
    pub(crate) fn hand_over(&mut self) -> Result<(), AllocError>
        ensures holds { (s : Passed) → HoldsSessions self.old s → HoldsSessions self.new s }
        ensures heard { OnOk result (AllHeard self.new) }
        ensures free { AllHeard self.old → IsOk result }
    {
        hand_over_each(&mut self.live)
    }

    /// A CR with this reference requests a connection, which gets this place. `Err` changes nothing.
    fn ask(&mut self, place: usize, calling: u16) -> Result<(), AllocError>
        ensures ok { OnOk result ((s : Passed) → HoldsSessions self.old s → HoldsSessions self.new (asked_at place calling s)) }
        ensures err { OnErr result ((s : Passed) → HoldsSessions self.old s → HoldsSessions self.new s) }
    {
        let number = self.count();
        let connection = Connection::new(self.alloc, number, calling, self.room)?;
        if place >= count_of(&self.live) {
            return self.ask_new(connection);
        }
        self.ask_over(place, connection)
    }

    /// The connection is requested, and gets a new place. `Err` changes nothing.
    fn ask_new(&mut self, connection: Connection) -> Result<(), AllocError>
        ensures ok { OnOk result ((s : Passed) (j : Joined) (place : ℕ) → HoldsSessions self.old s → HoldsJoined connection j
            → length self.old.live.items ≤ place → HoldsSessions self.new (placed place j s (slice_get s.live place))) }
        ensures err { OnErr result ((s : Passed) → HoldsSessions self.old s → HoldsSessions self.new s) }
    {
        self.live.push(connection)?;
        Ok(())
    }

    /// The connection is requested, and gets the place of one that is over, of which only what was found is kept. `Err` changes
    /// nothing but that a session of that one may have been given what it had not heard yet.
    fn ask_over(&mut self, place: usize, connection: Connection) -> Result<(), AllocError>
        requires { place < length self.old.live.items }
        ensures ok { OnOk result ((s : Passed) (j : Joined) → HoldsSessions self.old s → HoldsJoined connection j
            → HoldsSessions self.new (placed place j s (slice_get s.live place))) }
        ensures err { OnErr result ((s : Passed) → HoldsSessions self.old s → HoldsSessions self.new s) }
    {
        let past = sum_up_at(self.alloc, &mut self.live, place)?;
        self.done.push(past)?;
        self.live[place] = connection;
        Ok(())
    }

    /// A unit of a side passes, in the packet at this offset, and means this. `Err` changes nothing.
    pub(crate) fn take(
        &mut self,
        direction: Direction,
        at: u64,
        unit: &Tpdu<'_>,
        told: &Told,
    ) -> Result<(), AllocError>
        ensures ok { OnOk result ((s : Passed) → HoldsSessions self.old s
            → HoldsSessions self.new (taken direction at (value unit.now) told.now.meaning told.now.place s)) }
        ensures still { OnOk result ((s : Passed) (d : Direction) (number : Option ℕ) → HoldsSessions self.old s → SomeoneIs d number s
            → SomeoneIs d number (taken direction at (value unit.now) told.now.meaning told.now.place s)) }
        ensures others { OnOk result ((s : Passed) → HoldsSessions self.old s → NobodyIs s
            → NobodyElse direction told.now.place (taken direction at (value unit.now) told.now.meaning told.now.place s)) }
        ensures err { OnErr result ((s : Passed) → HoldsSessions self.old s → HoldsSessions self.new s) }
    {
        let Some(place) = told.place else {
            return Ok(());
        };
        if let Meaning::Asks = told.meaning {
            return self.ask(place, source_of(unit));
        }
        self.take_at(direction, at, unit, told.meaning, place)
    }

    /// It asks for no connection, and is for the one at this place, if there is one.
    fn take_at(
        &mut self,
        direction: Direction,
        at: u64,
        unit: &Tpdu<'_>,
        meaning: Meaning,
        place: usize,
    ) -> Result<(), AllocError>
        ensures ok { OnOk result ((s : Passed) → HoldsSessions self.old s
            → HoldsSessions self.new (changed place (meant direction at (value unit.now) meaning) s (slice_get s.live place))) }
        ensures err { OnErr result ((s : Passed) → HoldsSessions self.old s → HoldsSessions self.new s) }
        ensures still { OnOk result ((s : Passed) (d : Direction) (number : Option ℕ) → HoldsSessions self.old s → SomeoneIs d number s
            → SomeoneIs d number (changed place (meant direction at (value unit.now) meaning) s (slice_get s.live place))) }
        ensures others { OnOk result ((s : Passed) → HoldsSessions self.old s → NobodyIs s → NobodyElseIs direction place
            (changed place (meant direction at (value unit.now) meaning) s (slice_get s.live place))) }
    {
        if place >= count_of(&self.live) {
            return Ok(());
        }
        mean(&mut self.live[place], direction, at, unit, meaning)
    }
}

/// A unit for a connection means this. `Err` changes nothing.
fn mean(
    connection: &mut Connection,
    direction: Direction,
    at: u64,
    unit: &Tpdu<'_>,
    meaning: Meaning,
) -> Result<(), AllocError>
    ensures ok { OnOk result ((j : Joined) → HoldsJoined connection.old j
        → HoldsJoined connection.new (meant direction at (value unit.now) meaning j)) }
    ensures err { OnErr result ((j : Joined) → HoldsJoined connection.old j → HoldsJoined connection.new j) }
    ensures other { (line_in (other direction) connection.new).side.finding ≡ (line_in (other direction) connection.old).side.finding }
{
    match meaning {
        Meaning::Opens => {
            connection.open(source_of(unit), class_of(unit));
            Ok(())
        }
        Meaning::Closes => {
            connection.shut();
            Ok(())
        }
        Meaning::Adds(end) => connection.add(direction, at, end, user_of(unit)),
        Meaning::Asks => Ok(()),
        Meaning::Nothing => Ok(()),
    }
}
