//! Of what C was told.

ghost use Rattle.std.specs.Prelude.{◌≡◌, ◌<◌, ℕ, [], false, OnOk, OnErr, get_or, length};
ghost use Rattle.osi_c.specs.Subjects.{also, also_side, neither, no_subject, side_told, told_by};

use crate::subjects::Subject;
use osi_side::Direction;
use std::alloc::{AllocError, Global};

/// Of which of two sides C was told.
#[derive(Clone, Copy)]
pub struct Sides {
    left: bool,
    right: bool,
}

/// Of what C was told on a byte connection. Whether it was told of a subject is looked up at once, however much it was told.
#[derive(Drop)]
pub struct Told {
    /// Of which sessions, on the connection with each number; of none after the last.
    sessions: Vec<Sides>,
    transports: Sides,
    rests: Sides,
}

/// Of neither.
const NEITHER: Sides = Sides {
    left: false,
    right: false,
};

impl Sides {
    fn has(self, direction: Direction) -> bool
        ensures { result ≡ side_told self direction }
    {
        match direction {
            Direction::Left => self.left,
            Direction::Right => self.right,
        }
    }

    /// Of this one too.
    fn with(self, direction: Direction) -> Sides
        ensures { result ≡ also_side direction self }
    {
        match direction {
            Direction::Left => Sides {
                left: true,
                right: self.right,
            },
            Direction::Right => Sides {
                left: self.left,
                right: true,
            },
        }
    }
}

/// Makes places for the sides of the connections up to that with a number. `Err` may have made some of them.
fn make_places(sessions: &mut Vec<Sides>, number: usize) -> Result<(), AllocError>
    ensures kept { (n : ℕ) → get_or sessions.new.items n neither ≡ get_or sessions.old.items n neither }
    ensures there { OnOk result (number < length sessions.new.items) }
{
    'places: while sessions.len() <= number {
        sessions.push(NEITHER)?;
    }
    Ok(())
}

impl Told {
    /// Of nothing.
    pub(crate) fn new(alloc: Global) -> Told
        ensures { told_by result ≡ no_subject }
    {
        Told {
            sessions: Vec::new(alloc),
            transports: NEITHER,
            rests: NEITHER,
        }
    }

    /// Whether C was told of it.
    pub(crate) fn contains(&self, subject: Subject) -> bool
        ensures { result ≡ told_by self.now subject }
    {
        match subject {
            Subject::Session(number, direction) => self.has_session(number, direction),
            Subject::Transport(direction) => self.transports.has(direction),
            Subject::Rest(direction) => self.rests.has(direction),
        }
    }

    fn has_session(&self, number: usize, direction: Direction) -> bool
        ensures { result ≡ side_told (get_or self.now.sessions.items number neither) direction }
    {
        if number >= self.sessions.len() {
            return false;
        }
        self.sessions[number].has(direction)
    }

    /// C is told of it too. After `Err` an allocation has failed, and it is not.
    pub(crate) fn add(&mut self, subject: Subject) -> Result<(), AllocError>
        ensures ok { OnOk result (told_by self.new ≡ also subject (told_by self.old)) }
        ensures err { OnErr result (told_by self.new ≡ told_by self.old) }
    {
        match subject {
            Subject::Session(number, direction) => self.add_session(number, direction),
            Subject::Transport(direction) => {
                self.transports = self.transports.with(direction);
                Ok(())
            }
            Subject::Rest(direction) => {
                self.rests = self.rests.with(direction);
                Ok(())
            }
        }
    }

    fn add_session(&mut self, number: usize, direction: Direction) -> Result<(), AllocError>
        ensures ok { OnOk result (told_by self.new ≡ also (Subject.Session number direction) (told_by self.old)) }
        ensures err { OnErr result (told_by self.new ≡ told_by self.old) }
    {
        make_places(&mut self.sessions, number)?;
        self.sessions[number] = self.sessions[number].with(direction);
        Ok(())
    }
}
