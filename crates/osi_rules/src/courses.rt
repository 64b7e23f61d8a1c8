//! What has passed on a byte connection apart from its connections.

ghost use Rattle.std.specs.Prelude.{◌≡◌};
ghost use Rattle.osi_rules.specs.Traffic.{fresh_course, is_stopped, has_erred, has_broken, class_for, course_begins, reached, noted};

use crate::directions::Direction;
use crate::disconnects::Disconnects;
use crate::findings::{Finding, Reach};
use osi_class::Class;

/// What has passed on a byte connection apart from its connections.
#[derive(Clone, Copy, PartialEq, Eq)]
pub struct Course {
    /// The class that a CC has selected.
    pub(crate) class: Option<Class>,
    /// The class that a CC had selected when left's current packet began.
    pub(crate) class_seen: Option<Class>,
    /// The DRs that have passed.
    pub(crate) disconnects: Disconnects,
    /// A connection is not judged any more: units may have references that it got since.
    pub(crate) loose: bool,
    /// Nothing more of left is judged.
    pub(crate) left_stopped: bool,
    /// Nothing more of right is judged.
    pub(crate) right_stopped: bool,
    /// A unit of left has broken a rule.
    pub(crate) left_erred: bool,
    /// A unit of right has broken a rule.
    pub(crate) right_erred: bool,
}

impl Course {
    /// Nothing has passed.
    pub(crate) fn new() -> Course
        ensures { result ≡ fresh_course }
    {
        Course {
            class: None,
            class_seen: None,
            disconnects: Disconnects::new(),
            loose: false,
            left_stopped: false,
            right_stopped: false,
            left_erred: false,
            right_erred: false,
        }
    }

    /// Whether nothing more of this side is judged.
    pub(crate) fn is_stopped(&self, direction: Direction) -> bool
        ensures { result ≡ is_stopped direction self.now }
    {
        match direction {
            Direction::Left => self.left_stopped,
            Direction::Right => self.right_stopped,
        }
    }

    /// Whether a unit of this side has broken a rule.
    pub(crate) fn has_erred(&self, direction: Direction) -> bool
        ensures { result ≡ has_erred direction self.now }
    {
        match direction {
            Direction::Left => self.left_erred,
            Direction::Right => self.right_erred,
        }
    }

    /// Whether this side has broken a rule: by a unit, or by octets that can't be read.
    pub(crate) fn has_broken(&self, direction: Direction) -> bool
        ensures { result ≡ has_broken direction self.now }
    {
        self.is_stopped(direction) || self.has_erred(direction)
    }

    /// The class, as far as this side may know it.
    pub(crate) fn class_for(&self, direction: Direction) -> Option<Class>
        ensures { result ≡ class_for direction self.now }
    {
        match direction {
            Direction::Left => self.class_seen,
            Direction::Right => self.class,
        }
    }

    /// A packet of this side begins.
    pub(crate) fn begin(&mut self, direction: Direction)
        ensures { self.new ≡ course_begins direction self.old }
    {
        self.disconnects.begin(direction);
        match direction {
            Direction::Left => self.class_seen = self.class,
            Direction::Right => {}
        }
    }

    /// After a unit of this side so much is not judged any more.
    pub(crate) fn reach(&mut self, direction: Direction, reach: Reach)
        ensures { self.new ≡ reached direction reach self.old }
    {
        match (reach, direction) {
            (Reach::Nothing, _) => {}
            (Reach::Connection, _) => self.loose = true,
            (Reach::Side, Direction::Left) => self.left_stopped = true,
            (Reach::Side, Direction::Right) => self.right_stopped = true,
            (Reach::Everything, _) => {
                self.left_stopped = true;
                self.right_stopped = true;
            }
        }
    }

    /// This has been found of a unit of this side.
    pub(crate) fn note(&mut self, direction: Direction, finding: Finding)
        ensures { self.new ≡ noted direction finding self.old }
    {
        if !finding.is_break() {
            return;
        }
        match direction {
            Direction::Left => self.left_erred = true,
            Direction::Right => self.right_erred = true,
        }
    }
}
