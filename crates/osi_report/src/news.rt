//! What is told of a capture while it is heard: lines of its report, each as soon as it is certain.

ghost use Rattle.std.specs.Prelude.{◌≡◌, ◌++◌, ◌<◌, List, ℕ, OnOk};
ghost use Rattle.osi_judge.specs.Standing.{HoldsState, IsSettled};
ghost use Rattle.osi_judge.specs.States.{State};
ghost use Rattle.osi_report.specs.Blaming.{told_on};
ghost use Rattle.osi_report.specs.News.{AddsNews, connection_line, front_line, is_certain, is_decided, is_too_many, rest_line};
ghost use Rattle.osi_report.specs.Openings.{Opens};

use crate::openings::Opening;
use crate::report_texts::{halt_told, push_halt, push_marks};
use crate::reports::{Pair, is_undecided, pair_at, transport_of, unjudged};
use crate::told::Connection;
use crate::told_texts::push_connection;
use osi_judge::{Cause, Connection as Joint, First, Judge, Layer, Mark, Outcome, Past};
use osi_side::{Direction, Finding};
use std::alloc::{AllocError, Global};

/// What something is told of, once.
#[derive(Clone, Copy)]
pub(crate) enum Subject {
    /// Where the transport of a side first broke a rule or left the profile.
    Transport(Direction),
    /// After which packet nothing more of a side is judged, since nobody can tell whether a unit is a break.
    Rest(Direction),
    /// The session of a side, on the connection with this number.
    OfSession(Direction, usize),
}

/// Whether something may be told: octets of both sides have passed, and the capture does not begin in the middle of a connection, nor
/// can that still turn out.
pub(crate) fn is_decided(judge: &Judge, opening: &Opening) -> bool
    ensures { (s : State) (octets : List ℕ) → HoldsState judge.now s → IsSettled judge.now → Opens opening.now octets
        → result ≡ is_decided s octets }
{
    let left = transport_of(judge, Direction::Left);
    let right = transport_of(judge, Direction::Right);
    if unjudged(&left, &right, opening).is_some() {
        return false;
    }
    !is_undecided(judge, opening)
}

/// Adds the first of some lines, with its end.
fn push_front_line(text: &mut Vec<u8>, lines: &[u8]) -> Result<(), AllocError>
    ensures { OnOk result (text.new.items ≡ text.old.items ++ front_line lines.now) }
{
    let mut rest = lines;
    'line: while let Some((character, behind)) = rest.split_first() {
        text.push(*character)?;
        if *character == b'\n' {
            return Ok(());
        }
        rest = behind;
    }
    Ok(())
}

/// Whether a session broke the protocol, left the profile, or is judged no further.
fn is_certain(connection: &Connection) -> bool
    ensures { result ≡ is_certain connection.now }
{
    match connection {
        Connection::Session(_, told) => !matches!(told, Outcome::Kept(..)),
        _ => false,
    }
}

/// Adds the first of the lines that a report has of such a session.
fn push_connection_line(
    alloc: Global,
    text: &mut Vec<u8>,
    direction: Direction,
    connection: &Connection,
) -> Result<(), AllocError>
    ensures { OnOk result (text.new.items ≡ text.old.items ++ connection_line direction connection.now) }
{
    if !is_certain(connection) {
        return Ok(());
    }
    let mut lines = Vec::new(alloc);
    push_connection(&mut lines, direction, connection)?;
    push_front_line(text, lines.as_slice())
}

/// The connection of a side.
fn told_on(direction: Direction, pair: &Pair) -> Connection
    ensures { result ≡ told_on direction pair.now }
{
    match direction {
        Direction::Left => pair.left,
        Direction::Right => pair.right,
    }
}

fn is_too_many(cause: Cause) -> bool
    ensures { result ≡ is_too_many cause }
{
    matches!(cause, Cause::TooMany)
}

/// Adds the line of a side of which nothing more is judged, if nobody can tell whether a unit is a break.
fn push_rest_line(
    text: &mut Vec<u8>,
    direction: Direction,
    halted: Option<Mark>,
) -> Result<(), AllocError>
    ensures { OnOk result (text.new.items ≡ text.old.items ++ rest_line direction halted) }
{
    match halted {
        Some(mark) if is_too_many(mark.cause) => push_halt(text, direction, &mark),
        _ => Ok(()),
    }
}

/// Adds the line of where the transport of a side first broke a rule or left the profile.
fn push_broken(text: &mut Vec<u8>, judge: &Judge, direction: Direction) -> Result<(), AllocError>
    ensures { OnOk result ((s : State) → HoldsState judge.now s → IsSettled judge.now → AddsNews s text.old.items text.new.items) }
{
    push_marks(text, direction, judge.broke(direction))?;
    Ok(())
}

/// Adds the line of a side of which nothing more is judged, if nobody can tell whether a unit is a break.
fn push_rest(text: &mut Vec<u8>, judge: &Judge, direction: Direction) -> Result<(), AllocError>
    ensures { OnOk result ((s : State) → HoldsState judge.now s → IsSettled judge.now → AddsNews s text.old.items text.new.items) }
{
    let own = transport_of(judge, direction);
    let beside = transport_of(judge, direction.other());
    push_rest_line(text, direction, halt_told(direction, &own, &beside))?;
    Ok(())
}

/// Adds the line of the session of a side on the connection with this number.
#[tactic(auto, using(crate::proofs::what_is_told_is_of_the_report::no_news, crate::proofs::what_is_told_is_of_the_report::session_news))]
fn push_session(
    alloc: Global,
    text: &mut Vec<u8>,
    judge: &Judge,
    direction: Direction,
    number: usize,
) -> Result<(), AllocError>
    ensures { OnOk result ((s : State) → HoldsState judge.now s → IsSettled judge.now → AddsNews s text.old.items text.new.items) }
{
    if number >= judge.count() {
        return Ok(());
    }
    let Ok(pair) = pair_at(judge, number) else {
        return Err(AllocError);
    };
    push_connection_line(alloc, text, direction, &told_on(direction, &pair))?;
    Ok(())
}

/// Adds the line of a subject, if something is certain of it.
fn push_subject(
    alloc: Global,
    text: &mut Vec<u8>,
    judge: &Judge,
    subject: Subject,
) -> Result<(), AllocError>
    ensures { OnOk result ((s : State) → HoldsState judge.now s → IsSettled judge.now → AddsNews s text.old.items text.new.items) }
{
    match subject {
        Subject::Transport(direction) => push_broken(text, judge, direction),
        Subject::Rest(direction) => push_rest(text, judge, direction),
        Subject::OfSession(direction, number) => {
            push_session(alloc, text, judge, direction, number)
        }
    }
}

fn is_same_side(one: Direction, other: Direction) -> bool {
    matches!(
        (one, other),
        (Direction::Left, Direction::Left) | (Direction::Right, Direction::Right)
    )
}

fn is_same(one: &Subject, other: &Subject) -> bool {
    match (*one, *other) {
        (Subject::Transport(side), Subject::Transport(beside)) => is_same_side(side, beside),
        (Subject::Rest(side), Subject::Rest(beside)) => is_same_side(side, beside),
        (Subject::OfSession(side, number), Subject::OfSession(beside, another)) => {
            number == another && is_same_side(side, beside)
        }
        _ => false,
    }
}

/// What the first break is of.
fn leading(first: First) -> Option<Subject> {
    match (first.layer, first.connection) {
        (Layer::Transport, _) => Some(Subject::Transport(first.direction)),
        (Layer::Session, Some(number)) => Some(Subject::OfSession(first.direction, number)),
        (Layer::Session, None) => None,
    }
}

/// Whether something is certain of a side of a connection.
fn has_news(joint: &Joint) -> bool {
    !matches!(joint.finding(Direction::Left), Finding::Kept)
        || !matches!(joint.finding(Direction::Right), Finding::Kept)
}

/// The same of a connection that is over and whose place was given to another.
fn past_has_news(past: &Past) -> bool {
    !matches!(past.outcome(Direction::Left), Outcome::Kept(..))
        || !matches!(past.outcome(Direction::Right), Outcome::Kept(..))
}

/// Of what something was told.
#[derive(Drop)]
pub(crate) struct News {
    alloc: Global,
    told: Vec<Subject>,
    /// How many of the connections that are over were looked at, of those whose place was given to another.
    looked: usize,
}

impl News {
    /// Nothing was told.
    pub(crate) fn new(alloc: Global) -> News {
        News {
            alloc,
            told: Vec::new(alloc),
            looked: 0,
        }
    }

    fn has_told(&self, subject: Subject) -> bool {
        self.told
            .as_slice()
            .iter()
            .any(|other| is_same(other, &subject))
    }

    /// Adds the line of a subject, if something is certain of it that was not told.
    #[tactic(auto, using(crate::proofs::what_is_told_is_of_the_report::no_news, crate::proofs::what_is_told_is_of_the_report::more_news))]
    fn tell(
        &mut self,
        text: &mut Vec<u8>,
        judge: &Judge,
        subject: Subject,
    ) -> Result<(), AllocError>
        ensures { OnOk result ((s : State) → HoldsState judge.now s → IsSettled judge.now → AddsNews s text.old.items text.new.items) }
    {
        if self.has_told(subject) {
            return Ok(());
        }
        let before = text.len();
        push_subject(self.alloc, text, judge, subject)?;
        if text.len() > before {
            self.told.push(subject)?;
        }
        Ok(())
    }

    /// The same of both sides of the connection with a number.
    #[tactic(auto, using(crate::proofs::what_is_told_is_of_the_report::no_news, crate::proofs::what_is_told_is_of_the_report::more_news))]
    fn tell_sides(
        &mut self,
        text: &mut Vec<u8>,
        judge: &Judge,
        number: usize,
    ) -> Result<(), AllocError>
        ensures { OnOk result ((s : State) → HoldsState judge.now s → IsSettled judge.now → AddsNews s text.old.items text.new.items) }
    {
        self.tell(text, judge, Subject::OfSession(Direction::Left, number))?;
        self.tell(text, judge, Subject::OfSession(Direction::Right, number))?;
        Ok(())
    }

    /// The same of a connection that has a place.
    #[tactic(auto, using(crate::proofs::what_is_told_is_of_the_report::no_news, crate::proofs::what_is_told_is_of_the_report::more_news))]
    fn tell_connection(
        &mut self,
        text: &mut Vec<u8>,
        judge: &Judge,
        joint: &Joint,
    ) -> Result<(), AllocError>
        ensures { OnOk result ((s : State) → HoldsState judge.now s → IsSettled judge.now → AddsNews s text.old.items text.new.items) }
    {
        if !has_news(joint) {
            return Ok(());
        }
        self.tell_sides(text, judge, joint.number())?;
        Ok(())
    }

    /// The same of one whose place was given to another.
    #[tactic(auto, using(crate::proofs::what_is_told_is_of_the_report::no_news, crate::proofs::what_is_told_is_of_the_report::more_news))]
    fn tell_past(
        &mut self,
        text: &mut Vec<u8>,
        judge: &Judge,
        past: &Past,
    ) -> Result<(), AllocError>
        ensures { OnOk result ((s : State) → HoldsState judge.now s → IsSettled judge.now → AddsNews s text.old.items text.new.items) }
    {
        if !past_has_news(past) {
            return Ok(());
        }
        self.tell_sides(text, judge, past.number())?;
        Ok(())
    }

    /// The same of the connections that have a place.
    #[tactic(auto, using(crate::proofs::what_is_told_is_of_the_report::no_news, crate::proofs::what_is_told_is_of_the_report::more_news))]
    fn tell_placed(
        &mut self,
        text: &mut Vec<u8>,
        judge: &Judge,
        joints: &[Joint],
    ) -> Result<(), AllocError>
        ensures { OnOk result ((s : State) → HoldsState judge.now s → IsSettled judge.now → AddsNews s text.old.items text.new.items) }
    {
        let mut place = 0;
        'connections: while place < joints.len() {
            self.tell_connection(text, judge, &joints[place])?;
            place += 1;
        }
        Ok(())
    }

    /// The same of those whose place was given to another, from the first one on that was not looked at.
    #[tactic(auto, using(crate::proofs::what_is_told_is_of_the_report::no_news, crate::proofs::what_is_told_is_of_the_report::more_news))]
    fn tell_replaced(
        &mut self,
        text: &mut Vec<u8>,
        judge: &Judge,
        pasts: &[Past],
    ) -> Result<(), AllocError>
        ensures { OnOk result ((s : State) → HoldsState judge.now s → IsSettled judge.now → AddsNews s text.old.items text.new.items) }
    {
        let mut place = self.looked;
        'connections: while place < pasts.len() {
            self.tell_past(text, judge, &pasts[place])?;
            place += 1;
        }
        self.looked = place;
        Ok(())
    }

    /// The same of the break that passed first.
    #[tactic(auto, using(crate::proofs::what_is_told_is_of_the_report::no_news, crate::proofs::what_is_told_is_of_the_report::more_news))]
    fn tell_first(&mut self, text: &mut Vec<u8>, judge: &Judge) -> Result<(), AllocError>
        ensures { OnOk result ((s : State) → HoldsState judge.now s → IsSettled judge.now → AddsNews s text.old.items text.new.items) }
    {
        let Some(first) = judge.first() else {
            return Ok(());
        };
        match leading(first) {
            None => Ok(()),
            Some(subject) => self.tell(text, judge, subject),
        }
    }

    /// The same of the transport of both sides.
    fn tell_transport(&mut self, text: &mut Vec<u8>, judge: &Judge) -> Result<(), AllocError>
        ensures { OnOk result ((s : State) → HoldsState judge.now s → IsSettled judge.now → AddsNews s text.old.items text.new.items) }
    {
        self.tell(text, judge, Subject::Transport(Direction::Left))?;
        self.tell(text, judge, Subject::Transport(Direction::Right))?;
        self.tell(text, judge, Subject::Rest(Direction::Left))?;
        self.tell(text, judge, Subject::Rest(Direction::Right))?;
        Ok(())
    }

    /// Adds a line for each finding that is certain and was not told: first that of the break that passed first, then those of
    /// transport, then those of sessions. Connections that are over are looked at once.
    pub(crate) fn add(&mut self, text: &mut Vec<u8>, judge: &Judge) -> Result<(), AllocError>
        ensures { OnOk result ((s : State) → HoldsState judge.now s → IsSettled judge.now → AddsNews s text.old.items text.new.items) }
    {
        self.tell_first(text, judge)?;
        self.tell_transport(text, judge)?;
        self.tell_placed(text, judge, judge.placed())?;
        self.tell_replaced(text, judge, judge.replaced())?;
        Ok(())
    }
}
