//! Of what C is told on a byte connection.

ghost use Rattle.std.specs.Prelude.{◌≡◌};
ghost use Rattle.osi_c.specs.Subjects.{leading_session, leading_by, leading};

use osi_judge::{First, Layer};
use osi_side::Direction;

/// What C is told of, once.
#[derive(Clone, Copy)]
pub enum Subject {
    /// The session of a side, on the connection with this number.
    Session(usize, Direction),
    /// Where the transport of a side first broke a rule or left the profile.
    Transport(Direction),
    /// After which packet nothing more of a side is judged.
    Rest(Direction),
}

fn leading_session(side: Direction, connection: Option<usize>) -> Option<Subject>
    ensures { result ≡ leading_session side connection }
{
    match connection {
        None => None,
        Some(number) => Some(Subject::Session(number, side)),
    }
}

fn leading_by(layer: Layer, first: First) -> Option<Subject>
    ensures { result ≡ leading_by layer first }
{
    match layer {
        Layer::Session => leading_session(first.direction, first.connection),
        Layer::Transport => Some(Subject::Transport(first.direction)),
    }
}

/// What the first break is of.
pub(crate) fn leading(first: Option<First>) -> Option<Subject>
    ensures { result ≡ leading first }
{
    match first {
        None => None,
        Some(first) => leading_by(first.layer, first),
    }
}
