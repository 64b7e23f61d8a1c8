//! Asks a judge what it found of all connections on a byte connection, and puts it together as a report.

ghost use Rattle.std.specs.Prelude.{◌≡◌, ◌&&◌, not, ℕ, List, None, Some, IfOk, IfSome};
ghost use Rattle.osi_side.specs.Captures.{other};
ghost use Rattle.osi_side.specs.Judging.{Observed};
ghost use Rattle.osi_judge.specs.Connections.{Joined, numbered, reference_of};
ghost use Rattle.osi_judge.specs.Blaming.{IsFirstOf, IsMarkOf, IsToBlame, NobodyIs, SomeoneIs};
ghost use Rattle.osi_judge.specs.Holding.{HoldsJoined, IsHeard};
ghost use Rattle.osi_judge.specs.Outcomes.{SaysSo};
ghost use Rattle.osi_judge.specs.Pasts.{HoldsPast};
ghost use Rattle.osi_judge.specs.Standing.{HoldsState, IsSettled, first_in};
ghost use Rattle.osi_judge.specs.States.{State};
ghost use Rattle.osi_judge.specs.declared.marks.First.{First as Breach};
ghost use Rattle.osi_report.specs.declared.reports.Pair.{Pair as Couple};
ghost use Rattle.osi_report.specs.Telling.{connection_with, keeps, leaves, strays};
ghost use Rattle.osi_report.specs.Reports.{is_opened, is_refused_in, Tells, IsPair, IsPairOf, IsSummary};
ghost use Rattle.osi_report.specs.Reports.{all_keep, some_over, carried, is_clear, kept_last, HoldsReached, IsFirstLast};
ghost use Rattle.osi_report.specs.Reports.{IsLast, IsMarkLast, IsStrayLast};
ghost use Rattle.osi_report.specs.Openings.{Opens, begins_late, called_back, has_no_octets, is_request};
ghost use Rattle.osi_report.specs.Openings.{lacks_a_side, may_be_late, unjudged_in};

use crate::openings::Opening;
use crate::told::Connection;
use osi_judge::{
    Connection as Joint, First, Found, Judge, Layer, Mark, Outcome, Past, UnitKind, Violation,
};
use osi_side::{Direction, Finding, Reading};
use std::alloc::AllocError;

/// What is reported of one connection.
#[derive(Clone, Copy)]
pub struct Pair {
    /// Of the calling side.
    pub left: Connection,
    /// Of the called side.
    pub right: Connection,
    /// The sessions of both sides kept the protocol.
    pub keeps: bool,
    /// More passed on it than is judged of a connection.
    pub over: bool,
}

/// What is reported of all connections together.
#[derive(Clone, Copy)]
pub struct Together {
    /// The sessions of both sides of each kept the protocol.
    pub keeps: bool,
    /// On one of them more passed than is judged of a connection.
    pub over: bool,
}

/// What is reported of the transport of a side.
#[derive(Clone, Copy)]
pub struct Transport {
    /// What was read.
    pub reading: Reading,
    /// Where it first broke a rule, or left the profile.
    pub broke: Option<Mark>,
    /// The packet, of either side, after which nothing more of it is judged.
    pub halted: Option<Mark>,
}

/// Who broke the protocol first.
#[derive(Clone, Copy)]
pub enum Last {
    /// Neither side did, on any connection.
    BothKept,
    /// The session of this side broke the protocol with the packet at this offset.
    Broke(Direction, u64, Violation),
    /// The session of this side left the profile with the packet at this offset.
    Left(Direction, u64, Violation),
    /// The transport of this side broke a rule, or left the profile.
    Transport(Direction, Mark),
    /// It is not known: too many sessions explain a side.
    TooManySessions,
    /// It is not known: more passed on a connection than is judged of one.
    Limit,
    /// It is not known: there are more connections than are looked at together.
    TooManyConnections,
    /// There are no octets.
    NoOctets,
    /// One side sent octets, and the other none.
    OneDirection,
    /// The capture begins in the middle of a connection: the first unit of the side that called is no CR.
    BeginsLate,
}

/// What is known of a connection, whether it has a place or is over.
#[derive(Clone, Copy)]
struct Summary {
    left: Outcome,
    right: Outcome,
    calling: Option<u16>,
    called: Option<u16>,
    is_opened: bool,
    is_refused: bool,
    is_over: bool,
}

fn keeps(outcome: &Outcome) -> bool
    ensures { result ≡ keeps outcome.now }
{
    matches!(outcome, Outcome::Kept(..))
}

fn leaves(outcome: &Outcome) -> bool
    ensures { result ≡ leaves outcome.now }
{
    matches!(outcome, Outcome::Left(..))
}

fn strays(outcome: &Outcome) -> bool
    ensures { result ≡ strays outcome.now }
{
    matches!(outcome, Outcome::Broke(..) | Outcome::Left(..))
}

/// Whether a side is not told of: the other side left the profile, and this side did not.
fn is_dropped(own: &Outcome, other: &Outcome) -> bool
    ensures { result ≡ (leaves other.now && not (leaves own.now)) }
{
    leaves(other) && !leaves(own)
}

/// Whether a connection was refused.
fn is_refused(closed: bool, opened: bool) -> bool
    ensures { result ≡ (closed && not opened) }
{
    closed && !opened
}

/// What is known of a connection that has a place.
fn summary_of(joint: &Joint) -> Result<Summary, AllocError>
    ensures { IfOk result (λ s. (j : Joined) → HoldsJoined joint.now j → IsHeard joint.now → IsSummary j s) }
{
    let left = joint.outcome(Direction::Left)?;
    let right = joint.outcome(Direction::Right)?;
    let is_opened = joint.class().is_some();
    Ok(Summary {
        left,
        right,
        calling: joint.reference(Direction::Left),
        called: joint.reference(Direction::Right),
        is_opened,
        is_refused: is_refused(joint.is_closed(), is_opened),
        is_over: joint.is_over(),
    })
}

/// The same of one whose place was given to another.
fn summary_past(past: &Past) -> Summary
    ensures { (j : Joined) → HoldsPast past.now j → IsSummary j result }
{
    let is_opened = past.class().is_some();
    Summary {
        left: past.outcome(Direction::Left),
        right: past.outcome(Direction::Right),
        calling: past.reference(Direction::Left),
        called: past.reference(Direction::Right),
        is_opened,
        is_refused: is_refused(past.is_closed(), is_opened),
        is_over: past.is_over(),
    }
}

/// What is told of the connection of a side, which gave it this reference.
fn connection_with(
    reference: u16,
    blamed: bool,
    refused: bool,
    unanswered: bool,
    told: Outcome,
) -> Connection
    ensures { result ≡ connection_with reference blamed refused unanswered told }
{
    if blamed {
        return Connection::Session(reference, told);
    }
    if refused {
        return Connection::Refused(reference);
    }
    if unanswered {
        return Connection::Unanswered(reference);
    }
    Connection::Session(reference, told)
}

/// What is told of the connection of a side, by what was found of its session and of that of the other side.
fn connection_in(
    own: &Outcome,
    beside: &Outcome,
    reference: Option<u16>,
    refused: bool,
    opened: bool,
) -> Connection
    ensures { (d : Direction) (j : Joined) (w v : Observed) → SaysSo d j w own.now → SaysSo (other d) j v beside.now
        → reference ≡ reference_of d j → refused ≡ is_refused_in j → opened ≡ is_opened j → Tells d j w v result }
{
    if is_dropped(own, beside) {
        return Connection::Silent;
    }
    match reference {
        None => Connection::Silent,
        Some(reference) => connection_with(reference, strays(own), refused, !opened, *own),
    }
}

/// Whether the sessions of both sides kept the protocol.
fn both_keep(left: &Outcome, right: &Outcome) -> bool
    ensures { result ≡ (keeps left.now && keeps right.now) }
{
    keeps(left) && keeps(right)
}

/// What is reported of a connection.
fn pair_of(summary: &Summary) -> Pair
    ensures { (j : Joined) → IsSummary j summary.now → IsPair j result }
{
    let left = &summary.left;
    let right = &summary.right;
    let is_refused = summary.is_refused;
    let is_opened = summary.is_opened;
    Pair {
        left: connection_in(left, right, summary.calling, is_refused, is_opened),
        right: connection_in(right, left, summary.called, is_refused, is_opened),
        keeps: both_keep(left, right),
        over: summary.is_over,
    }
}

/// What is reported of the connection with this number.
pub(crate) fn pair_at(judge: &Judge, number: usize) -> Result<Pair, AllocError>
    ensures { IfOk result (λ p. (s : State) → HoldsState judge.now s → IsSettled judge.now
        → IsPairOf (numbered number s.course.sessions) p) }
{
    match judge.connection(number) {
        Some(Found::Placed(joint)) => {
            let summary = summary_of(joint)?;
            Ok(pair_of(&summary))
        }
        Some(Found::Replaced(past)) => Ok(pair_of(&summary_past(past))),
        None => Ok(Pair {
            left: Connection::Silent,
            right: Connection::Silent,
            keeps: true,
            over: false,
        }),
    }
}

/// What is reported of the transport of a side.
pub(crate) fn transport_of(judge: &Judge, direction: Direction) -> Transport
    ensures { (s : State) → HoldsState judge.now s → IsSettled judge.now → result ≡ carried direction s }
{
    Transport {
        reading: judge.reading(direction),
        broke: judge.broke(direction),
        halted: judge.halted(direction),
    }
}

/// Whether there are no octets.
fn has_no_octets(left: &Transport, right: &Transport) -> bool
    ensures { (s : State) → left.now ≡ carried Direction.Left s → right.now ≡ carried Direction.Right s → result ≡ has_no_octets s }
{
    if left.reading.octets != 0 {
        return false;
    }
    right.reading.octets == 0
}

/// Whether a side sent no octet.
fn lacks_a_side(left: &Transport, right: &Transport) -> bool
    ensures { (s : State) → left.now ≡ carried Direction.Left s → right.now ≡ carried Direction.Right s → result ≡ lacks_a_side s }
{
    if right.reading.octets == 0 {
        return true;
    }
    left.reading.octets == 0
}

fn is_request(mark: Option<Mark>) -> bool
    ensures { result ≡ is_request mark }
{
    match mark {
        None => false,
        Some(mark) => matches!(mark.unit, Some(UnitKind::Cr)),
    }
}

/// Whether a CR of the called side passed before any packet of the side that called.
fn called_back(left: &Transport, right: &Transport) -> bool
    ensures { (s : State) → left.now ≡ carried Direction.Left s → right.now ≡ carried Direction.Right s → result ≡ called_back s }
{
    is_request(right.broke) && left.broke.is_none()
}

/// Whether the capture begins in the middle of a connection.
fn begins_late(left: &Transport, right: &Transport, opening: &Opening) -> bool
    ensures { (s : State) (octets : List ℕ) → left.now ≡ carried Direction.Left s → right.now ≡ carried Direction.Right s
        → Opens opening.now octets → result ≡ begins_late s octets }
{
    if left.reading.packets == 0 {
        return false;
    }
    if !opening.is_another() {
        return false;
    }
    !called_back(left, right)
}

fn may_be_late(left: &Transport, opening: &Opening) -> bool
    ensures { (s : State) (octets : List ℕ) → left.now ≡ carried Direction.Left s → Opens opening.now octets
        → result ≡ may_be_late s octets }
{
    if left.reading.packets != 0 {
        return false;
    }
    if !opening.is_undecided() {
        return false;
    }
    left.broke.is_none()
}

/// Whether a capture that a judge was fed begins in the middle of a connection, once the judge is settled. Then nothing of it is judged.
pub fn is_late(judge: &Judge, opening: &Opening) -> bool
    ensures { (s : State) (octets : List ℕ) → HoldsState judge.now s → IsSettled judge.now → Opens opening.now octets
        → result ≡ begins_late s octets }
{
    let left = transport_of(judge, Direction::Left);
    let right = transport_of(judge, Direction::Right);
    begins_late(&left, &right, opening)
}

/// Whether what passes next may show that it does: no packet of the side that called is whole so far.
pub fn is_undecided(judge: &Judge, opening: &Opening) -> bool
    ensures { (s : State) (octets : List ℕ) → HoldsState judge.now s → IsSettled judge.now → Opens opening.now octets
        → result ≡ may_be_late s octets }
{
    let left = transport_of(judge, Direction::Left);
    may_be_late(&left, opening)
}

/// Why nothing of a capture is judged, if that is so.
pub(crate) fn unjudged(left: &Transport, right: &Transport, opening: &Opening) -> Option<Last>
    ensures { (s : State) (octets : List ℕ) → left.now ≡ carried Direction.Left s → right.now ≡ carried Direction.Right s
        → Opens opening.now octets → result ≡ unjudged_in s octets }
{
    if has_no_octets(left, right) {
        return Some(Last::NoOctets);
    }
    if lacks_a_side(left, right) {
        return Some(Last::OneDirection);
    }
    if begins_late(left, right, opening) {
        return Some(Last::BeginsLate);
    }
    None
}

/// Whether the transport of a side broke no rule, and all of it was judged.
fn is_clear(transport: &Transport) -> bool
    ensures { result ≡ is_clear transport.now }
{
    transport.broke.is_none() && transport.halted.is_none()
}

/// The outcome if nobody broke the protocol, by what was not judged.
fn kept_last(left: &Transport, right: &Transport, all: Together) -> Last
    ensures { result ≡ kept_last (is_clear left.now && is_clear right.now) all.keeps all.over }
{
    if !all.keeps {
        return Last::TooManySessions;
    }
    if all.over {
        return Last::Limit;
    }
    if is_clear(left) && is_clear(right) {
        return Last::BothKept;
    }
    Last::TooManyConnections
}

/// The break of the session of a side on a connection.
fn stray_of(joint: &Joint, direction: Direction) -> Option<Last>
    ensures some { IfSome result (λ last. (s : State) (f : Breach) (number : ℕ) (j : Joined) → numbered number s.course.sessions ≡ Some j
        → f.direction ≡ direction → f.connection ≡ Some number → HoldsJoined joint.now j → IsHeard joint.now → IsStrayLast s f last) }
    ensures none { (j : Joined) → HoldsJoined joint.now j → IsToBlame direction j → result ≡ None → ⊥ }
{
    let offset = joint.offset(direction);
    let by = joint.violation(direction);
    match joint.finding(direction) {
        Finding::Broke(_) => Some(Last::Broke(direction, offset, by)),
        Finding::Left(_) => Some(Last::Left(direction, offset, by)),
        Finding::Kept => None,
        Finding::TooMany => None,
    }
}

/// The same on one whose place was given to another.
fn stray_past(past: &Past, direction: Direction) -> Option<Last>
    ensures some { IfSome result (λ last. (s : State) (f : Breach) (number : ℕ) (j : Joined) → numbered number s.course.sessions ≡ Some j
        → f.direction ≡ direction → f.connection ≡ Some number → HoldsPast past.now j → IsStrayLast s f last) }
    ensures none { (j : Joined) → HoldsPast past.now j → IsToBlame direction j → result ≡ None → ⊥ }
{
    match past.outcome(direction) {
        Outcome::Broke(offset, by) => Some(Last::Broke(direction, offset, by)),
        Outcome::Left(offset, by) => Some(Last::Left(direction, offset, by)),
        Outcome::Kept(..) => None,
        Outcome::TooMany => None,
    }
}

/// The break of the session of a side on the connection with this number.
fn session_last(judge: &Judge, direction: Direction, number: usize) -> Option<Last>
    ensures some { IfSome result (λ last. (s : State) (f : Breach) → HoldsReached judge.now s → f.direction ≡ direction
        → f.connection ≡ Some number → IsStrayLast s f last) }
    ensures none { (s : State) → HoldsReached judge.now s → SomeoneIs direction (Some number) s.course.sessions → result ≡ None → ⊥ }
{
    match judge.connection(number) {
        None => None,
        Some(Found::Placed(joint)) => stray_of(joint, direction),
        Some(Found::Replaced(past)) => stray_past(past, direction),
    }
}

/// The same, if it is known which connection that is.
fn session_first(judge: &Judge, direction: Direction, connection: Option<usize>) -> Option<Last>
    ensures some { IfSome result (λ last. (s : State) (f : Breach) → HoldsReached judge.now s → f.direction ≡ direction
        → f.connection ≡ connection → IsStrayLast s f last) }
    ensures none { (s : State) → HoldsReached judge.now s → SomeoneIs direction connection s.course.sessions → result ≡ None → ⊥ }
{
    match connection {
        None => None,
        Some(number) => session_last(judge, direction, number),
    }
}

/// The first break of the transport of a side.
fn transport_last(judge: &Judge, direction: Direction) -> Option<Last>
    ensures some { IfSome result (λ last. (s : State) (f : Breach) → HoldsReached judge.now s → f.direction ≡ direction
        → IsMarkOf direction f s.course → IsMarkLast s f last) }
    ensures none { (s : State) (f : Breach) → HoldsReached judge.now s → IsMarkOf direction f s.course → result ≡ None → ⊥ }
{
    match judge.broke(direction) {
        None => None,
        Some(mark) => Some(Last::Transport(direction, mark)),
    }
}

/// The break that passed first.
fn first_last(judge: &Judge, first: First) -> Option<Last>
    ensures some { IfSome result (λ last. (s : State) → HoldsReached judge.now s → first_in judge.now ≡ Some first
        → IsFirstLast first.layer s first last) }
    ensures none { (s : State) → HoldsReached judge.now s → first_in judge.now ≡ Some first → result ≡ None → ⊥ }
{
    match first.layer {
        Layer::Session => session_first(judge, first.direction, first.connection),
        Layer::Transport => transport_last(judge, first.direction),
    }
}

/// The break that passed first, if there is one.
fn told_first(judge: &Judge) -> Option<Last>
    ensures some { IfSome result (λ last. (s : State) (ps : List Couple) → HoldsReached judge.now s → IsLast s ps last) }
    ensures none { (s : State) → HoldsReached judge.now s → result ≡ None
        → IsFirstOf None s.course.past × NobodyIs s.course.sessions }
{
    match judge.first() {
        None => None,
        Some(first) => first_last(judge, first),
    }
}

/// Who broke the protocol first.
pub(crate) fn last_of(judge: &Judge, left: &Transport, right: &Transport, all: Together) -> Last
    ensures { (s : State) (ps : List Couple) → HoldsReached judge.now s → left.now ≡ carried Direction.Left s
        → right.now ≡ carried Direction.Right s → all.keeps ≡ all_keep ps → all.over ≡ some_over ps → IsLast s ps result }
{
    match told_first(judge) {
        None => kept_last(left, right, all),
        Some(last) => last,
    }
}
