//! Writes the lines of what is told of a side of a connection, and the last line, if it names a session that was first.

ghost use Rattle.std.specs.Prelude.{◌≡◌, ◌++◌, OnOk};
ghost use Rattle.osi_report.specs.ToldTexts.{told_lines, connection_lines, who_text, where_text, first_text, broke_first, left_first};

use crate::lines::{
    push_break, push_broke, push_kept, push_leaves, push_outside, push_side, push_without,
};
use crate::told::Connection;
use osi_judge::{Outcome, Violation};
use osi_listing::{push_number_field, push_words};
use osi_side::Direction;
use std::alloc::AllocError;

fn push_told(
    text: &mut Vec<u8>,
    direction: Direction,
    reference: u16,
    told: &Outcome,
) -> Result<(), AllocError>
    ensures { OnOk result (text.new.items ≡ text.old.items ++ told_lines direction reference told.now) }
{
    match *told {
        Outcome::Kept(tsdus, state, owes) => {
            push_kept(text, direction, reference, tsdus, &state, owes)
        }
        Outcome::Broke(offset, by) => push_broke(text, direction, reference, offset, &by),
        Outcome::Left(offset, by) => push_leaves(text, direction, reference, offset, &by),
        Outcome::TooMany => push_without(text, direction, reference, " too many"),
    }
}

/// Adds the lines of the connection of a side: of the session that ran on it, or that it was refused or not answered. A connection
/// of which nothing is reported has no line. `Err` means that memory ran out.
pub(crate) fn push_connection(
    text: &mut Vec<u8>,
    direction: Direction,
    connection: &Connection,
) -> Result<(), AllocError>
    ensures { OnOk result (text.new.items ≡ text.old.items ++ connection_lines direction connection.now) }
{
    match *connection {
        Connection::Silent => Ok(()),
        Connection::Refused(reference) => push_without(text, direction, reference, " refused"),
        Connection::Unanswered(reference) => {
            push_without(text, direction, reference, " unanswered")
        }
        Connection::Session(reference, told) => push_told(text, direction, reference, &told),
    }
}

/// Who did something first.
fn push_who(text: &mut Vec<u8>, direction: Direction, what: &str) -> Result<(), AllocError>
    ensures { OnOk result (text.new.items ≡ text.old.items ++ who_text direction what.now) }
{
    push_side(text, direction)?;
    push_words(text, what)
}

/// Where it did so.
fn push_where(text: &mut Vec<u8>, offset: u64) -> Result<(), AllocError>
    ensures { OnOk result (text.new.items ≡ text.old.items ++ where_text offset) }
{
    push_number_field(text, " first, packet ", offset)?;
    push_words(text, ": ")
}

/// Adds who did something first, and where: the words of a last line up to the rule. `Err` means that memory ran out.
#[tactic(auto, unfolding(crate::specs::ToldTexts::first_text))]
pub(crate) fn push_first(
    text: &mut Vec<u8>,
    direction: Direction,
    what: &str,
    offset: u64,
) -> Result<(), AllocError>
    ensures { OnOk result (text.new.items ≡ text.old.items ++ first_text direction what.now offset) }
{
    push_who(text, direction, what)?;
    push_where(text, offset)
}

/// Adds the last line that names the side which broke the protocol first, with the packet at this offset. `Err` means that memory
/// ran out.
#[tactic(auto, unfolding(crate::specs::ToldTexts::broke_first))]
pub(crate) fn push_broke_first(
    text: &mut Vec<u8>,
    direction: Direction,
    offset: u64,
    by: &Violation,
) -> Result<(), AllocError>
    ensures { OnOk result (text.new.items ≡ text.old.items ++ broke_first direction offset by.now) }
{
    push_first(text, direction, " broke the protocol", offset)?;
    push_break(text, by)?;
    push_words(text, "\n")
}

/// Adds the last line that names the side which left the profile first, with the packet at this offset. `Err` means that memory ran
/// out.
#[tactic(auto, unfolding(crate::specs::ToldTexts::left_first))]
pub(crate) fn push_left_first(
    text: &mut Vec<u8>,
    direction: Direction,
    offset: u64,
    by: &Violation,
) -> Result<(), AllocError>
    ensures { OnOk result (text.new.items ≡ text.old.items ++ left_first direction offset by.now) }
{
    push_first(text, direction, " leaves the profile", offset)?;
    push_outside(text, by)
}
