//! One connection of a byte connection, as it passes.

ghost use Rattle.std.specs.Prelude.{◌≡◌};
ghost use Rattle.osi_rules.specs.Sides.{own, theirs, seen, sends, begins, is_over, is_free, is_named, uses};

use crate::directions::Direction;
use crate::halves::Half;

/// What a CR offers (X.224 section 6.5).
#[derive(Clone, Copy, PartialEq, Eq)]
pub struct Offer {
    pub(crate) class0: bool,
    pub(crate) class2: bool,
    /// A class other than these.
    pub(crate) others: bool,
    /// Expedited data.
    pub(crate) expedited: bool,
    /// Class 2 without flow control.
    pub(crate) without_flow_control: bool,
    /// Extended formats.
    pub(crate) extended: bool,
    /// The code of its size: 7, for 128 octets, if it names none.
    pub(crate) size_code: u8,
}

/// A connection: what each side has sent, and how much of that the other may know.
#[derive(Clone, Copy, PartialEq, Eq)]
pub struct Connection {
    pub(crate) offer: Offer,
    /// The most octets of a DT, header included, if the CC names a size.
    pub(crate) size: Option<usize>,
    pub(crate) is_judged: bool,
    pub(crate) left: Half,
    pub(crate) right: Half,
    /// What right had sent when left's current packet began.
    pub(crate) seen_by_left: Half,
    /// What left had sent when right's current packet began.
    pub(crate) seen_by_right: Half,
}

impl Connection {
    /// What this side has sent.
    pub(crate) fn own(&self, direction: Direction) -> &Half
        ensures { result.now ≡ own direction self.now }
    {
        match direction {
            Direction::Left => &self.left,
            Direction::Right => &self.right,
        }
    }

    /// What the other side has sent.
    pub(crate) fn theirs(&self, direction: Direction) -> &Half
        ensures { result.now ≡ theirs direction self.now }
    {
        match direction {
            Direction::Left => &self.right,
            Direction::Right => &self.left,
        }
    }

    /// What the other side had sent when this side's packet began.
    pub(crate) fn seen(&self, direction: Direction) -> &Half
        ensures { result.now ≡ seen direction self.now }
    {
        match direction {
            Direction::Left => &self.seen_by_left,
            Direction::Right => &self.seen_by_right,
        }
    }

    /// The connection after this side has sent more.
    pub(crate) fn sending(&self, direction: Direction, half: Half) -> Connection
        ensures { result ≡ sends direction half self.now }
    {
        match direction {
            Direction::Left => Connection {
                left: half,
                ..*self
            },
            Direction::Right => Connection {
                right: half,
                ..*self
            },
        }
    }

    /// A packet of this side begins.
    pub(crate) fn begin(&mut self, direction: Direction)
        ensures { self.new ≡ begins direction self.old }
    {
        match direction {
            Direction::Left => self.seen_by_left = self.right,
            Direction::Right => self.seen_by_right = self.left,
        }
    }

    /// Whether it is over for this side, which may give its reference to another connection.
    pub(crate) fn is_over(&self, direction: Direction) -> bool
        ensures { result ≡ is_over direction self.now }
    {
        self.is_judged && self.own(direction).is_over(self.seen(direction))
    }

    /// Whether it is over for both sides.
    pub(crate) fn is_free(&self) -> bool
        ensures { result ≡ is_free self.now }
    {
        self.is_over(Direction::Left) && self.is_over(Direction::Right)
    }

    /// Whether a unit of this side with this DST-REF is for it.
    pub(crate) fn is_named(&self, direction: Direction, destination: u16) -> bool
        ensures { result ≡ is_named direction destination self.now }
    {
        let seen = self.seen(direction);
        !self.is_over(direction) && !seen.phase.is_silent() && seen.reference == destination
    }

    /// Whether this side has given it this reference.
    pub(crate) fn uses(&self, direction: Direction, reference: u16) -> bool
        ensures { result ≡ uses direction reference self.now }
    {
        let own = self.own(direction);
        !self.is_over(direction) && !own.phase.is_silent() && own.reference == reference
    }
}
