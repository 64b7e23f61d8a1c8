//! The two sides of a byte connection.

ghost use Rattle.std.specs.Prelude.{◌≡◌};
ghost use Rattle.osi_pair.specs.Sides.{other};

/// One of the two ends of a byte connection.
#[derive(Clone, Copy, PartialEq, Eq, Debug)]
pub enum Side {
    /// The calling end.
    Left,
    /// The called end.
    Right,
}

impl Side {
    /// The other end.
    pub fn other(self) -> Side
        ensures { result ≡ other self }
    {
        match self {
            Side::Left => Side::Right,
            Side::Right => Side::Left,
        }
    }
}
