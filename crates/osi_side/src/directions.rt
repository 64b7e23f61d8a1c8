//! The two directions of a connection.

ghost use Rattle.std.specs.Prelude.{◌≡◌};
ghost use Rattle.osi_side.specs.Captures.{other};

/// Who sent a piece of a capture. Left is the side that calls.
#[derive(Clone, Copy, PartialEq, Eq)]
pub enum Direction {
    Left,
    Right,
}

impl Direction {
    /// The other direction.
    pub fn other(self) -> Direction
        ensures { result ≡ other self }
    {
        match self {
            Direction::Left => Direction::Right,
            Direction::Right => Direction::Left,
        }
    }
}
