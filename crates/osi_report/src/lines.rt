//! Writes one line of a judgement, or a part of one.

ghost use Rattle.std.specs.Prelude.{◌≡◌, ◌++◌, OnOk};
ghost use Rattle.osi_report.specs.Names.{side_name};
ghost use Rattle.osi_report.specs.Lines.{own_text, reading_line, numbers_told, state_text, owes_text, kept_line, break_text};
ghost use Rattle.osi_report.specs.Lines.{place_text, outside_text, broke_line, broke_lines, leaves_line, knew_line, fault_lines};
ghost use Rattle.osi_report.specs.Lines.{without_line};

use crate::names;
use bitflags::Flags;
use osi_judge::{SessionState, Violation};
use osi_listing::{
    push_decimal, push_number_field, push_octet, push_session_fault_code, push_words,
    session_fault_name, session_fault_offset,
};
use osi_script::phase_name;
use osi_session::{Numbers, Phase, Reply};
use osi_side::{Direction, Reading, Rule};
use std::alloc::AllocError;

/// Adds the word for a side. `Err` means that memory ran out.
pub(crate) fn push_side(text: &mut Vec<u8>, direction: Direction) -> Result<(), AllocError>
    ensures { OnOk result (text.new.items ≡ text.old.items ++ side_name direction) }
{
    push_words(text, names::side(direction))
}

/// Adds a side and its own reference.
fn push_own(text: &mut Vec<u8>, direction: Direction, reference: u16) -> Result<(), AllocError>
    ensures { OnOk result (text.new.items ≡ text.old.items ++ own_text direction reference) }
{
    push_side(text, direction)?;
    push_number_field(text, " ", u64::from(reference))
}

/// Adds the line of what was read of a side: its packets and octets, and those of a packet that isn't whole. `Err` means that memory
/// ran out.
#[tactic(auto, unfolding(crate::specs::Lines::reading_line))]
pub(crate) fn push_reading(
    text: &mut Vec<u8>,
    direction: Direction,
    reading: &Reading,
) -> Result<(), AllocError>
    ensures { OnOk result (text.new.items ≡ text.old.items ++ reading_line direction reading.now) }
{
    push_side(text, direction)?;
    push_number_field(text, " packets ", reading.packets)?;
    push_number_field(text, " octets ", reading.octets)?;
    push_number_field(text, " rest ", reading.rest)?;
    push_words(text, "\n")
}

/// The numbers that are printed for a side: none if its connection is aborted or gone.
fn numbers_told(state: &SessionState) -> Numbers
    ensures { result ≡ numbers_told state.now }
{
    if matches!(state.phase, Phase::Aborting | Phase::Ended) {
        return Numbers {
            next: 0,
            confirmed: 0,
            lowest: 0,
            answers: false,
        };
    }
    state.numbers
}

/// Adds the state of a session.
#[tactic(auto, unfolding(crate::specs::Lines::state_text))]
fn push_state(text: &mut Vec<u8>, state: &SessionState) -> Result<(), AllocError>
    ensures { OnOk result (text.new.items ≡ text.old.items ++ state_text state.now) }
{
    push_words(text, " phase ")?;
    push_words(text, phase_name(state.phase))?;
    push_words(text, " held ")?;
    push_octet(text, state.held.bits())?;
    let numbers = numbers_told(state);
    push_number_field(text, " next ", u64::from(numbers.next))?;
    push_number_field(text, " below ", u64::from(numbers.confirmed))?;
    push_number_field(text, " lowest ", u64::from(numbers.lowest))
}

/// Adds what a side has still to answer.
fn push_owed(text: &mut Vec<u8>, owes: Option<Reply>) -> Result<(), AllocError>
    ensures { OnOk result (text.new.items ≡ text.old.items ++ owes_text owes) }
{
    match owes {
        None => Ok(()),
        Some(reply) => {
            push_words(text, " owes ")?;
            push_words(text, names::reply(reply))
        }
    }
}

/// Adds the line of a side that kept the protocol.
#[tactic(auto, unfolding(crate::specs::Lines::kept_line))]
pub(crate) fn push_kept(
    text: &mut Vec<u8>,
    direction: Direction,
    reference: u16,
    tsdus: usize,
    state: &SessionState,
    owes: Option<Reply>,
) -> Result<(), AllocError>
    ensures { OnOk result (text.new.items ≡ text.old.items ++ kept_line direction reference tsdus state.now owes) }
{
    push_own(text, direction, reference)?;
    push_number_field(text, " kept ", tsdus as u64)?;
    push_state(text, state)?;
    push_owed(text, owes)?;
    push_words(text, "\n")
}

/// Adds what was sent, and the rule.
pub(crate) fn push_break(text: &mut Vec<u8>, by: &Violation) -> Result<(), AllocError>
    ensures { OnOk result (text.new.items ≡ text.old.items ++ break_text by.now) }
{
    push_words(text, names::said(by.said))?;
    push_words(text, " ")?;
    push_words(text, names::rule(by.rule))
}

/// Adds a side, its own reference, and the packet with which it did something.
#[tactic(auto, unfolding(crate::specs::Lines::place_text))]
fn push_place(
    text: &mut Vec<u8>,
    direction: Direction,
    reference: u16,
    what: &str,
    offset: u64,
) -> Result<(), AllocError>
    ensures { OnOk result (text.new.items ≡ text.old.items ++ place_text direction reference what.now offset) }
{
    push_own(text, direction, reference)?;
    push_number_field(text, what, offset)?;
    push_words(text, " ")
}

/// Adds the line that says where a side broke the protocol, and by which rule.
#[tactic(auto, unfolding(crate::specs::Lines::broke_line))]
fn push_broke_line(
    text: &mut Vec<u8>,
    direction: Direction,
    reference: u16,
    offset: u64,
    by: &Violation,
) -> Result<(), AllocError>
    ensures { OnOk result (text.new.items ≡ text.old.items ++ broke_line direction reference offset by.now) }
{
    push_place(text, direction, reference, " broke packet ", offset)?;
    push_break(text, by)?;
    push_words(text, "\n")
}

/// Adds the lines of a side that broke the protocol: where and by which rule, the session that came nearest, and the
/// fault of a TSDU that is not session units.
#[tactic(auto, unfolding(crate::specs::Lines::broke_lines))]
pub(crate) fn push_broke(
    text: &mut Vec<u8>,
    direction: Direction,
    reference: u16,
    offset: u64,
    by: &Violation,
) -> Result<(), AllocError>
    ensures { OnOk result (text.new.items ≡ text.old.items ++ broke_lines direction reference offset by.now) }
{
    push_broke_line(text, direction, reference, offset, by)?;
    push_knew(text, direction, reference, by)?;
    push_fault(text, direction, reference, by.rule)
}

#[tactic(auto, unfolding(crate::specs::Lines::knew_line))]
fn push_knew(
    text: &mut Vec<u8>,
    direction: Direction,
    reference: u16,
    by: &Violation,
) -> Result<(), AllocError>
    ensures { OnOk result (text.new.items ≡ text.old.items ++ knew_line direction reference by.now) }
{
    push_own(text, direction, reference)?;
    push_number_field(text, " knew ", by.taken as u64)?;
    push_number_field(text, " of ", by.before as u64)?;
    push_state(text, &by.state)?;
    push_words(text, "\n")
}

fn push_fault(
    text: &mut Vec<u8>,
    direction: Direction,
    reference: u16,
    rule: Rule,
) -> Result<(), AllocError>
    ensures { OnOk result (text.new.items ≡ text.old.items ++ fault_lines direction reference rule) }
{
    let Rule::Fault(fault) = rule else {
        return Ok(());
    };
    push_own(text, direction, reference)?;
    push_number_field(text, " fault ", session_fault_offset(fault) as u64)?;
    push_words(text, " ")?;
    push_words(text, session_fault_name(fault))?;
    push_session_fault_code(text, fault)?;
    push_words(text, "\n")
}

/// Adds what was sent outside of the profile.
#[tactic(auto, unfolding(crate::specs::Lines::outside_text))]
pub(crate) fn push_outside(text: &mut Vec<u8>, by: &Violation) -> Result<(), AllocError>
    ensures { OnOk result (text.new.items ≡ text.old.items ++ outside_text by.now) }
{
    push_words(text, names::said(by.said))?;
    push_words(text, " Outside\n")
}

/// Adds the line of a side that left the profile.
#[tactic(auto, unfolding(crate::specs::Lines::leaves_line))]
pub(crate) fn push_leaves(
    text: &mut Vec<u8>,
    direction: Direction,
    reference: u16,
    offset: u64,
    by: &Violation,
) -> Result<(), AllocError>
    ensures { OnOk result (text.new.items ≡ text.old.items ++ leaves_line direction reference offset by.now) }
{
    push_place(text, direction, reference, " leaves packet ", offset)?;
    push_outside(text, by)
}

/// Adds a line of a side of a connection with these words and no numbers. `Err` means that memory ran out.
#[tactic(auto, unfolding(crate::specs::Lines::without_line))]
pub(crate) fn push_without(
    text: &mut Vec<u8>,
    direction: Direction,
    reference: u16,
    what: &str,
) -> Result<(), AllocError>
    ensures { OnOk result (text.new.items ≡ text.old.items ++ without_line direction reference what.now) }
{
    push_own(text, direction, reference)?;
    push_words(text, what)?;
    push_words(text, "\n")
}
