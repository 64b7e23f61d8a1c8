//! The two ends of a script.

ghost use Rattle.std.specs.Prelude.{◌≡◌};
ghost use Rattle.osi_script.specs.Names.{side_name};

/// One of the two ends of a script.
#[derive(Clone, Copy)]
pub enum Side {
    /// The calling end.
    Left,
    /// The called end.
    Right,
}

impl Side {
    /// The word for the end.
    pub fn name(self) -> &'static str
        ensures { result.now ≡ side_name self }
    {
        match self {
            Side::Left => "left",
            Side::Right => "right",
        }
    }
}
