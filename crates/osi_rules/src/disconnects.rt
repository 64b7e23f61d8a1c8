//! The DRs that have passed, as far as a DC may answer one of them.

ghost use Rattle.std.specs.Prelude.{◌≡◌};
ghost use Rattle.osi_rules.specs.Traffic.{no_disconnects, knows_disconnect, may_answer, disconnects_begin, with_disconnect};

use crate::directions::Direction;

/// The DRs that have passed, as far as a DC may answer one of them. A side can't answer what it doesn't have: what counts is what
/// had passed of the other side when its packet began.
#[derive(Clone, Copy, PartialEq, Eq)]
pub struct Disconnects {
    /// A DR has passed that does not just close an open connection.
    pub(crate) strays: bool,
    /// A DR of left has passed.
    pub(crate) left: bool,
    /// A DR of right has passed.
    pub(crate) right: bool,
    /// A DR of right had passed when left's current packet began.
    pub(crate) seen_by_left: bool,
    /// A DR of left had passed when right's current packet began.
    pub(crate) seen_by_right: bool,
}

impl Disconnects {
    /// None has passed.
    pub(crate) fn new() -> Disconnects
        ensures { result ≡ no_disconnects }
    {
        Disconnects {
            strays: false,
            left: false,
            right: false,
            seen_by_left: false,
            seen_by_right: false,
        }
    }

    /// Whether a DR of the other side had passed when the current packet of this side began.
    fn is_known(&self, direction: Direction) -> bool
        ensures { result ≡ knows_disconnect direction self.now }
    {
        match direction {
            Direction::Left => self.seen_by_left,
            Direction::Right => self.seen_by_right,
        }
    }

    /// Whether a DC of this side may answer a DR that does not just close an open connection.
    pub(crate) fn may_answer(&self, direction: Direction) -> bool
        ensures { result ≡ may_answer direction self.now }
    {
        self.strays && self.is_known(direction)
    }

    /// A packet of this side begins.
    pub(crate) fn begin(&mut self, direction: Direction)
        ensures { self.new ≡ disconnects_begin direction self.old }
    {
        match direction {
            Direction::Left => self.seen_by_left = self.right,
            Direction::Right => self.seen_by_right = self.left,
        }
    }

    /// After a DR of this side. `stray`: it does not just close an open connection.
    pub(crate) fn with(self, direction: Direction, stray: bool) -> Disconnects
        ensures { result ≡ with_disconnect direction stray self }
    {
        let strays = self.strays || stray;
        match direction {
            Direction::Left => Disconnects {
                strays,
                left: true,
                ..self
            },
            Direction::Right => Disconnects {
                strays,
                right: true,
                ..self
            },
        }
    }
}
