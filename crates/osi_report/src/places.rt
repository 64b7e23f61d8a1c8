//! Where in the text of a capture the next character is, and what a character does.

use osi_side::Direction;

/// The first digit of an octet. The octet is of the side of the line on which this digit is.
#[derive(Clone, Copy)]
pub(crate) struct Half {
    /// That side.
    pub(crate) direction: Direction,
    /// The value of the digit.
    pub(crate) digit: u8,
}

/// Where the next character is.
#[derive(Clone, Copy)]
pub(crate) struct Place {
    /// The side of the line, if a character of it has been read.
    pub(crate) direction: Direction,
    /// Whether the line begins here: its first character says of which side it is.
    pub(crate) begins: bool,
    /// Whether a comment continues.
    pub(crate) in_comment: bool,
    /// The first digit of an octet, if its second digit is still to come.
    pub(crate) half: Option<Half>,
}

/// An octet that passes.
#[derive(Clone, Copy)]
pub(crate) struct Passing {
    /// The side that sent it.
    pub(crate) direction: Direction,
    /// Its value.
    pub(crate) octet: u8,
}

/// What a character does.
#[derive(Clone, Copy)]
pub(crate) struct Step {
    /// Where the character after it is.
    pub(crate) place: Place,
    /// The octet that passes, if the character completes one.
    pub(crate) passing: Option<Passing>,
}
