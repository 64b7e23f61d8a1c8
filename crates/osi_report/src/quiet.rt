//! Writes the lines of a connection that blame nobody: those of a capture of which nothing is judged.

ghost use Rattle.std.specs.Prelude.{◌≡◌, ◌++◌, OnOk};
ghost use Rattle.osi_report.specs.Quiet.{blames_on, blames_told, quiet_lines, quiet_on};

use crate::reports::Pair;
use crate::told::Connection;
use crate::told_texts::push_connection;
use osi_judge::Outcome;
use osi_side::Direction;
use std::alloc::AllocError;

fn blames_told(told: &Outcome) -> bool
    ensures { result ≡ blames_told told.now }
{
    matches!(told, Outcome::Broke(..) | Outcome::Left(..))
}

/// Whether the lines of a connection of a side say that it broke the protocol or left the profile.
fn blames_on(connection: &Connection) -> bool
    ensures { result ≡ blames_on connection.now }
{
    match connection {
        Connection::Session(_, told) => blames_told(told),
        _ => false,
    }
}

/// Adds the lines of a connection of a side, unless they do.
fn push_quiet_on(
    text: &mut Vec<u8>,
    direction: Direction,
    connection: &Connection,
) -> Result<(), AllocError>
    ensures { OnOk result (text.new.items ≡ text.old.items ++ quiet_on direction connection.now) }
{
    if blames_on(connection) {
        return Ok(());
    }
    push_connection(text, direction, connection)
}

/// Adds the lines of both sides of a connection that blame nobody.
pub(crate) fn push_quiet(text: &mut Vec<u8>, pair: &Pair) -> Result<(), AllocError>
    ensures { OnOk result (text.new.items ≡ text.old.items ++ quiet_lines pair.now) }
{
    push_quiet_on(text, Direction::Left, &pair.left)?;
    push_quiet_on(text, Direction::Right, &pair.right)
}
