//! The judge of a byte connection, which is fed what passes.

ghost use Rattle.std.specs.Prelude.{◌≡◌, ◌≤◌, ◌<◌, None, Some, true, [], length, take};
ghost use Rattle.std.specs.Prelude.{if◌then◌else◌, IfOk, IsOk, OnOk, OnErr};
ghost use Rattle.osi_side.specs.Captures.{piece};
ghost use Rattle.osi_tpkt.specs.Stream.{offset_of};
ghost use Rattle.osi_judge.specs.Blaming.{IsFirstOf, IsStill, NobodyIs};
ghost use Rattle.osi_judge.specs.Connections.{count, numbered};
ghost use Rattle.osi_judge.specs.Courses.{packet_begins, marks_of, Course};
ghost use Rattle.osi_judge.specs.Holding.{streamed, AllHeard, AreHeard, FoundHeard, HoldAll, HoldsFound, IsFirst};
ghost use Rattle.osi_judge.specs.Pasts.{AllPast};
ghost use Rattle.osi_judge.specs.Owing.{HoldsAll};
ghost use Rattle.osi_judge.specs.Standing.{due_if, pick, HoldsBy, HoldsDue, HoldsNow, HoldsOpen, HoldsStream, HoldsState};
ghost use Rattle.osi_judge.specs.Standing.{HoldsWhole, IsJudged, IsSettled, first_in};
ghost use Rattle.osi_judge.specs.Streams.{front_of, needs_none, used_of, reading_of};
ghost use Rattle.osi_judge.specs.declared.rooms.Room.TheVariants.{Octets};
ghost use Rattle.osi_judge.specs.States.{State, begin, begin_within, after, looked_at, stream_of};

use crate::connections::Connection;
use crate::marks::{Cause, First, Mark};
use crate::pasts::Past;
use crate::proceedings::{Proceedings, pass_packet};
use crate::rooms::Room;
use crate::sessions::Found;
use crate::streams::{Shape, Stream, look};
use osi_side::{Direction, Reading};
use std::alloc::{AllocError, Global};

/// The judge of a byte connection (RFC 1006, X.224 classes 0 and 2, X.225). You feed it pieces of both directions
/// in the order in which they passed.
#[derive(Drop)]
pub struct Judge {
    left: Stream,
    right: Stream,
    proceedings: Proceedings,
    /// The direction whose packet is whole and has still to pass, at least in part.
    due: Option<Direction>,
}

/// The packet that is whole passes. After `Err` it has still to pass, at least in part.
fn pass_stream(
    proceedings: &mut Proceedings,
    stream: &mut Stream,
    direction: Direction,
) -> Result<(), AllocError>
    ensures ok { OnOk result ((s : State) → HoldsWhole direction proceedings.old (streamed stream.old) s
        → HoldsOpen direction proceedings.new (streamed stream.new) s) }
    ensures err { OnErr result ((s : State) → HoldsWhole direction proceedings.old (streamed stream.old) s
        → HoldsWhole direction proceedings.new (streamed stream.new) s) }
{
    let Shape::Whole(unit) = look(stream.held.as_slice()) else {
        return Ok(());
    };
    pass_packet(proceedings, direction, stream.at, unit)?;
    stream.advance();
    Ok(())
}

/// A packet of a side begins, or not.
fn begin_if(proceedings: &mut Proceedings, direction: Direction, begins: bool)
    ensures { (c : Course) → HoldsAll proceedings.old c → HoldsAll proceedings.new (if begins then packet_begins direction c else c) }
{
    if begins {
        proceedings.begin(direction);
    }
}

/// The octets that are held are looked at. Returns whether they are a whole packet.
fn look_at(proceedings: &mut Proceedings, stream: &mut Stream, direction: Direction) -> bool
    ensures { (s : State) → HoldsAll proceedings.old s.course → (stream.old.spent ≡ true → stream.old.held.items ≡ [])
        → HoldsStream result direction proceedings.new (streamed stream.new)
        (looked_at direction (streamed stream.old) (front_of stream.old.held.items) s) }
{
    match look(stream.held.as_slice()) {
        Shape::Partial => false,
        Shape::Whole(_) => true,
        Shape::Faulty(fault) => {
            proceedings.refuse(direction, stream.at, Cause::BadPacket(fault));
            stream.end();
            false
        }
    }
}

/// Octets of a side pass, up to the end of the header or of the current packet. Returns how many these are, and whether
/// the packet is whole. `Err` changes nothing.
fn take_octets(
    proceedings: &mut Proceedings,
    stream: &mut Stream,
    direction: Direction,
    octets: &[u8],
) -> Result<(usize, bool), AllocError>
    ensures used { IfOk result (λ r. r.0 ≡ used_of (streamed stream.old) octets.now) }
    ensures some { IfOk result (λ r. 0 < length octets.now → 0 < r.0) }
    ensures within { IfOk result (λ r. r.0 ≤ length octets.now) }
    ensures ok { IfOk result (λ r. (s : State) → HoldsOpen direction proceedings.old (streamed stream.old) s
        → HoldsStream r.1 direction proceedings.new (streamed stream.new) (after (piece direction (take r.0 octets.now)) s)) }
    ensures free { needs_none (streamed stream.old) octets.now ≡ true → IsOk result }
    ensures err { OnErr result ((s : State) → HoldsOpen direction proceedings.old (streamed stream.old) s
        → HoldsOpen direction proceedings.new (streamed stream.new) s) }
{
    if octets.is_empty() {
        return Ok((0, false));
    }
    let begins = stream.begins();
    let used = stream.take(octets)?;
    begin_if(proceedings, direction, begins);
    let is_whole = look_at(proceedings, stream, direction);
    Ok((used, is_whole))
}

impl Judge {
    /// Nothing has passed.
    pub fn new(alloc: Global) -> Judge
        ensures { HoldsState result begin }
    {
        Judge::with_room(alloc, Room::All)
    }

    /// Nothing has passed, and of each connection `most` octets may be kept: the outlines of the TSDUs of both sides, of equal ones
    /// in a row only one, each with 48 octets more, and the unfinished TSDUs. A DT needs room for its user data and 48 octets more
    /// beside what is kept. If there is none, the connection is not judged any further ([`Connection::is_over`]); its transport is.
    ///
    /// What passed does not count. The outline of a TSDU has no user data, so data that follow one another have one outline, and an
    /// association that sends data both ways keeps the same however long it lasts.
    pub fn within(alloc: Global, most: usize) -> Judge
        ensures { HoldsState result (begin_within (Octets most)) }
    {
        Judge::with_room(alloc, Room::Octets(most))
    }

    fn with_room(alloc: Global, room: Room) -> Judge
        ensures { HoldsState result (begin_within room) }
    {
        Judge {
            left: Stream::new(alloc),
            right: Stream::new(alloc),
            proceedings: Proceedings::new(alloc, room),
            due: None,
        }
    }

    /// Octets of a side pass: those of the piece up to the end of the header or of the current packet. Returns how
    /// many these are; 0 only for an empty piece.
    ///
    /// After `Err` an allocation has failed and none of the octets has passed. The same call made again goes on: of a packet
    /// that was whole before, those units have passed that had memory, each once. No memory is needed if all that
    /// passed before is judged, and the piece is empty or nothing more is read of its direction.
    pub fn feed(&mut self, direction: Direction, octets: &[u8]) -> Result<usize, AllocError>
        ensures used { IfOk result (λ n. (s : State) → HoldsState self.old s → n ≡ used_of (stream_of direction s) octets.now) }
        ensures some { IfOk result (λ n. 0 < length octets.now → 0 < n) }
        ensures within { IfOk result (λ n. n ≤ length octets.now) }
        ensures ok { IfOk result (λ n. (s : State) → HoldsState self.old s
            → HoldsState self.new (after (piece direction (take n octets.now)) s)) }
        ensures free { (s : State) → HoldsState self.old s → IsJudged self.old → needs_none (stream_of direction s) octets.now ≡ true
            → IsOk result }
        ensures err { OnErr result ((s : State) → HoldsState self.old s → HoldsState self.new s) }
    {
        self.pass_due()?;
        let (used, is_whole) = self.take(direction, octets)?;
        self.pass(direction, is_whole);
        Ok(used)
    }

    /// Octets of a side pass, and nothing is still to pass. Returns how many, and whether the packet is whole.
    fn take(&mut self, direction: Direction, octets: &[u8]) -> Result<(usize, bool), AllocError>
        ensures used { IfOk result (λ r. r.0 ≡ used_of (pick direction (streamed self.old.left) (streamed self.old.right)) octets.now) }
        ensures some { IfOk result (λ r. 0 < length octets.now → 0 < r.0) }
        ensures within { IfOk result (λ r. r.0 ≤ length octets.now) }
        ensures ok { IfOk result (λ r. (s : State) → HoldsNow self.old.proceedings (streamed self.old.left) (streamed self.old.right) s
            → HoldsBy (due_if r.1 direction) self.new.proceedings (streamed self.new.left) (streamed self.new.right)
            (after (piece direction (take r.0 octets.now)) s)) }
        ensures free { needs_none (pick direction (streamed self.old.left) (streamed self.old.right)) octets.now ≡ true → IsOk result }
        ensures err { OnErr result ((s : State) → HoldsNow self.old.proceedings (streamed self.old.left) (streamed self.old.right) s
            → HoldsNow self.new.proceedings (streamed self.new.left) (streamed self.new.right) s) }
        ensures due { self.new.due ≡ self.old.due }
    {
        match direction {
            Direction::Left => take_octets(
                &mut self.proceedings,
                &mut self.left,
                direction,
                octets,
            ),
            Direction::Right => take_octets(
                &mut self.proceedings,
                &mut self.right,
                direction,
                octets,
            ),
        }
    }

    /// The packet of a side passes, if it is whole. If memory is short now, the rest of it passes before the next octet.
    fn pass(&mut self, direction: Direction, is_whole: bool)
        ensures { (s : State) → self.old.due ≡ None
            → HoldsBy (due_if is_whole direction) self.old.proceedings (streamed self.old.left) (streamed self.old.right) s
            → HoldsState self.new s }
    {
        if !is_whole {
            return;
        }
        self.due = Some(direction);
        let _ = self.pass_due();
    }

    /// What passed and could not be judged for lack of memory is judged now, and each session is given what it has not
    /// heard yet of the other side. Without it, that is so unless an allocation failed. It looks at each connection once.
    /// After `Err` an allocation has failed; the same call goes on. If nothing is left to do, no memory is needed.
    pub fn settle(&mut self) -> Result<(), AllocError>
        ensures holds { (s : State) → HoldsState self.old s → HoldsState self.new s }
        ensures judged { OnOk result (IsJudged self.new) }
        ensures settled { OnOk result (IsSettled self.new) }
        ensures free { IsSettled self.old → IsOk result }
    {
        self.pass_due()?;
        self.hand_over()
    }

    /// The sessions are given what they have not heard yet, when nothing is still to pass.
    fn hand_over(&mut self) -> Result<(), AllocError>
        ensures holds { (s : State) → IsJudged self.old → HoldsState self.old s → HoldsState self.new s }
        ensures judged { IsJudged self.old → IsJudged self.new }
        ensures heard { OnOk result (AllHeard self.new.proceedings.sessions) }
        ensures free { AllHeard self.old.proceedings.sessions → IsOk result }
    {
        self.proceedings.hand_over()
    }

    /// The packet that is whole passes, if there is one.
    fn pass_due(&mut self) -> Result<(), AllocError>
        ensures holds { (s : State) → HoldsState self.old s → HoldsState self.new s }
        ensures judged { OnOk result (IsJudged self.new) }
        ensures free { IsJudged self.old → IsOk result }
        ensures still { IsJudged self.old → self.new ≡ self.old }
    {
        let Some(direction) = self.due else {
            return Ok(());
        };
        self.settle_side(direction)?;
        self.due = None;
        Ok(())
    }

    /// The packet of this side passes, which is whole.
    fn settle_side(&mut self, direction: Direction) -> Result<(), AllocError>
        ensures ok { OnOk result ((s : State) → HoldsDue direction self.old.proceedings (streamed self.old.left) (streamed self.old.right) s
            → HoldsNow self.new.proceedings (streamed self.new.left) (streamed self.new.right) s) }
        ensures err { OnErr result ((s : State)
            → HoldsDue direction self.old.proceedings (streamed self.old.left) (streamed self.old.right) s
            → HoldsDue direction self.new.proceedings (streamed self.new.left) (streamed self.new.right) s) }
        ensures due { self.new.due ≡ self.old.due }
    {
        match direction {
            Direction::Left => pass_stream(&mut self.proceedings, &mut self.left, direction),
            Direction::Right => pass_stream(&mut self.proceedings, &mut self.right, direction),
        }
    }

    fn stream(&self, direction: Direction) -> &Stream
        ensures { streamed result.now ≡ pick direction (streamed self.now.left) (streamed self.now.right) }
    {
        match direction {
            Direction::Left => &self.left,
            Direction::Right => &self.right,
        }
    }

    /// What was read of a direction.
    pub fn reading(&self, direction: Direction) -> Reading
        ensures { (s : State) → HoldsState self.now s → IsJudged self.now → result ≡ reading_of (stream_of direction s) }
    {
        self.stream(direction).reading()
    }

    /// How many connections were requested.
    pub fn count(&self) -> usize
        ensures { (s : State) → HoldsState self.now s → IsJudged self.now → result ≡ offset_of (count s.course.sessions) }
    {
        self.proceedings.sessions.count()
    }

    /// The connection with a number: its place in the order of the CRs, counted from 0.
    pub fn connection(&self, number: usize) -> Option<Found<'_>>
        ensures held { (s : State) → HoldsState self.now s → IsJudged self.now
            → HoldsFound result (numbered number s.course.sessions) }
        ensures heard { IsSettled self.now → FoundHeard result }
    {
        self.proceedings.sessions.numbered(number)
    }

    /// The connections that have a place, by their places: those that may still get units, and those that are over and whose
    /// place no other connection has. To look at all connections, look at these and at those of [`Judge::replaced`]; that takes
    /// less time than to find each by its number.
    pub fn placed(&self) -> &[Connection]
        ensures held { (s : State) → HoldsState self.now s → IsJudged self.now → HoldAll result.now s.course.sessions.live }
        ensures heard { IsSettled self.now → AreHeard result.now }
    {
        self.proceedings.sessions.placed()
    }

    /// What is left of the connections whose place was given to another, in the order in which that came to pass. They are over, and
    /// what is told of them stays.
    pub fn replaced(&self) -> &[Past]
        ensures { (s : State) → HoldsState self.now s → IsJudged self.now → AllPast result.now s.course.sessions.done }
    {
        self.proceedings.sessions.replaced()
    }

    /// Where the transport of a side first broke a rule or left the profile.
    pub fn broke(&self, direction: Direction) -> Option<Mark>
        ensures { (s : State) → HoldsState self.now s → IsJudged self.now → result ≡ (marks_of direction s.course).broke }
    {
        self.proceedings.marks(direction).broke
    }

    /// The packet, of either side, after which nothing more of a side is judged.
    pub fn halted(&self, direction: Direction) -> Option<Mark>
        ensures { (s : State) → HoldsState self.now s → IsJudged self.now → result ≡ (marks_of direction s.course).halted }
    {
        self.proceedings.marks(direction).halted
    }

    /// The break, of a session or of transport, that passed first of all; `None` if there is none. If one unit breaks a rule
    /// of transport and ends the TSDU with which its session breaks the protocol, the break of transport is told.
    pub fn first(&self) -> Option<First>
        ensures value { result ≡ first_in self.now }
        ensures transport { (s : State) → HoldsState self.now s → IsJudged self.now → IsFirst result s.course.first }
        ensures first { (s : State) → HoldsState self.now s → IsJudged self.now → IsFirstOf result s.course.past }
        ensures none { (s : State) → HoldsState self.now s → IsJudged self.now → result ≡ None → NobodyIs s.course.sessions }
        ensures still { (s : State) (f : First) → HoldsState self.now s → IsJudged self.now → result ≡ Some f
            → IsStill f s.course.sessions }
    {
        self.proceedings.first
    }
}
