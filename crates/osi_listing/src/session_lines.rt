//! The lines of session units.

ghost use Rattle.std.specs.Prelude.{◌≡◌, ◌++◌, ◌≤◌, ◌<◌, ℕ, List, codes, IfOk, OnOk};
ghost use Rattle.std.specs.Fmt.{decimal};
ghost use Rattle.hex.specs.Hex.{encode_lower};
ghost use Rattle.std.specs.List.{flat_map};
ghost use Rattle.osi_spdu.specs.Octets.{octets_of};
ghost use Rattle.osi_spdu.specs.Units.{said_by};
ghost use Rattle.osi_listing.specs.SessionLines.{kind_name, value_field, member_fields, members_text, separator_of, fields_left};
ghost use Rattle.osi_listing.specs.SessionLines.{group_field, parameter_field, session_fields, information_field, session_line};
ghost use Rattle.osi_listing.specs.SessionLines.{session_fault_name, session_fault_offset, session_fault_code, session_fault_line};

use crate::lines::{push_decimal, push_hex, push_number_field, push_words};
use crate::presence::is_there;
use osi_spdu::{Code, Kind, Spdu, SpduFault, Value};
use std::alloc::AllocError;

/// Adds the line of a session unit.
#[tactic(auto, unfolding(crate::specs::SessionLines::session_line))]
pub(crate) fn push_session_unit(text: &mut Vec<u8>, unit: &Spdu) -> Result<(), AllocError>
    ensures { OnOk result (text.new.items ≡ text.old.items ++ session_line (said_by unit.now)) }
{
    push_name(text, unit.kind())?;
    push_parameters(text, unit)?;
    push_information(text, unit)?;
    push_words(text, "\n")
}

/// Begins the line of a unit with its name in X.225 section 8.
#[tactic(auto, unfolding(crate::specs::SessionLines::kind_name))]
fn push_name(text: &mut Vec<u8>, kind: Kind) -> Result<(), AllocError>
    ensures { OnOk result (text.new.items ≡ text.old.items ++ (codes "    " ++ kind_name kind)) }
{
    match kind {
        Kind::GiveTokens => push_words(text, "    GT"),
        Kind::PleaseTokens => push_words(text, "    PT"),
        Kind::DataTransfer => push_words(text, "    DT"),
        Kind::NotFinished => push_words(text, "    NF"),
        Kind::Finish => push_words(text, "    FN"),
        Kind::Disconnect => push_words(text, "    DN"),
        Kind::Refuse => push_words(text, "    RF"),
        Kind::Connect => push_words(text, "    CN"),
        Kind::Accept => push_words(text, "    AC"),
        Kind::Abort => push_words(text, "    AB"),
        Kind::AbortAccept => push_words(text, "    AA"),
        Kind::ResynchronizeAck => push_words(text, "    RA"),
        Kind::MajorSyncPoint => push_words(text, "    MAP"),
        Kind::MajorSyncAck => push_words(text, "    MAA"),
        Kind::MinorSyncPoint => push_words(text, "    MIP"),
        Kind::MinorSyncAck => push_words(text, "    MIA"),
        Kind::Resynchronize => push_words(text, "    RS"),
    }
}

/// The parameters and groups of a unit, in rising order of code.
#[tactic(auto, unfolding(crate::specs::SessionLines::session_fields))]
fn push_parameters(text: &mut Vec<u8>, unit: &Spdu) -> Result<(), AllocError>
    ensures { OnOk result (text.new.items ≡ text.old.items ++ session_fields (said_by unit.now)) }
{
    push_each(text, unit, unit.kind().codes())
}

/// The parameters and groups of these codes.
fn push_each(text: &mut Vec<u8>, unit: &Spdu, codes: &[Code]) -> Result<(), AllocError>
    ensures { OnOk result (text.new.items ≡ text.old.items
        ++ flat_map (λ c. parameter_field (said_by unit.now) c ((said_by unit.now).known c)) codes.now) }
{
    'codes: for code in codes {
        push_parameter(text, unit, *code)?;
    }
    Ok(())
}

/// A parameter or a group, if it is present.
#[tactic(auto, using(crate::proofs::fields_one_after_the_other::not_there))]
fn push_parameter(text: &mut Vec<u8>, unit: &Spdu, code: Code) -> Result<(), AllocError>
    ensures { OnOk result (text.new.items ≡ text.old.items
        ++ parameter_field (said_by unit.now) code ((said_by unit.now).known code)) }
{
    if !is_there(unit.params(), code) {
        return Ok(());
    }
    let Some(value) = unit.value(code) else {
        return Ok(());
    };
    if code.is_group() {
        return push_group(text, unit, code);
    }
    push_next_value(text, unit.written_code(code), value)
}

/// A blank, a code and its value.
#[inline(always)]
fn push_next_value(text: &mut Vec<u8>, code: Code, value: Value) -> Result<(), AllocError>
    ensures { OnOk result (text.new.items
        ≡ text.old.items ++ (codes " " ++ value_field code (octets_of value.entry))) }
{
    push_next_code(text, code.number())?;
    push_octets(text, value)
}

/// A blank, the number of a code and a sign of equality. They are added in one piece.
#[inline(always)]
fn push_next_code(text: &mut Vec<u8>, number: u8) -> Result<(), AllocError>
    ensures { OnOk result (text.new.items
        ≡ text.old.items ++ (codes " " ++ decimal number ++ codes "=")) }
{
    if number < 10 {
        push_number_field(text, " ", u64::from(number))?;
        return push_words(text, "=");
    }
    if number < 100 {
        return push_code_of_two_digits(text, number);
    }
    push_code_of_three_digits(text, number)
}

#[inline(always)]
#[tactic(auto, using(crate::proofs::fields_one_after_the_other::two_digits))]
fn push_code_of_two_digits(text: &mut Vec<u8>, number: u8) -> Result<(), AllocError>
    requires at_least { 10 ≤ number }
    requires at_most { number < 100 }
    ensures { OnOk result (text.new.items
        ≡ text.old.items ++ (codes " " ++ decimal number ++ codes "=")) }
{
    text.extend_from_slice(&[b' ', b'0' + number / 10, b'0' + number % 10, b'='])
}

#[inline(always)]
#[tactic(auto, using(crate::proofs::fields_one_after_the_other::three_digits))]
fn push_code_of_three_digits(text: &mut Vec<u8>, number: u8) -> Result<(), AllocError>
    requires { 100 ≤ number }
    ensures { OnOk result (text.new.items
        ≡ text.old.items ++ (codes " " ++ decimal number ++ codes "=")) }
{
    let digits = [
        b' ',
        b'0' + number / 100,
        b'0' + number / 10 % 10,
        b'0' + number % 10,
        b'=',
    ];
    text.extend_from_slice(&digits)
}

/// A code and its value.
fn push_value(text: &mut Vec<u8>, code: Code, value: Value) -> Result<(), AllocError>
    ensures { OnOk result (text.new.items ≡ text.old.items ++ value_field code (octets_of value.entry)) }
{
    push_decimal(text, u64::from(code.number()))?;
    push_words(text, "=")?;
    push_octets(text, value)
}

/// The octets of a value.
#[inline(always)]
fn push_octets(text: &mut Vec<u8>, value: Value) -> Result<(), AllocError>
    ensures { OnOk result (text.new.items ≡ text.old.items ++ encode_lower (octets_of value.entry)) }
{
    push_hex(text, value.made())?;
    push_hex(text, value.lent())
}

/// A blank, and a group by its code and the parameters in it.
fn push_group(text: &mut Vec<u8>, unit: &Spdu, code: Code) -> Result<(), AllocError>
    ensures { OnOk result (text.new.items
        ≡ text.old.items ++ (codes " " ++ group_field (said_by unit.now) code)) }
{
    push_number_field(text, " ", u64::from(code.number()))?;
    push_words(text, "(")?;
    push_members(text, unit, unit.kind().members(code))?;
    push_words(text, ")")
}

/// The parameters of a group, with a blank between each two.
fn push_members(text: &mut Vec<u8>, unit: &Spdu, members: &[Code]) -> Result<(), AllocError>
    ensures { OnOk result (text.new.items
        ≡ text.old.items ++ members_text (said_by unit.now).known members.now) }
{
    let mut is_first = true;
    'members: for member in members {
        is_first = push_member(text, unit, *member, is_first)?;
    }
    Ok(())
}

/// A parameter of a group, if it is present. Returns whether the next one is the first.
#[tactic(auto, using(crate::proofs::fields_one_after_the_other::not_there))]
fn push_member(
    text: &mut Vec<u8>,
    unit: &Spdu,
    member: Code,
    is_first: bool,
) -> Result<bool, AllocError>
    ensures { IfOk result (λ first. (fields : List (List ℕ)) → text.new.items ++ fields_left first fields
        ≡ text.old.items
        ++ fields_left is_first (member_fields member ((said_by unit.now).known member) ++ fields)) }
{
    if !is_there(unit.params(), member) {
        return Ok(is_first);
    }
    let Some(value) = unit.value(member) else {
        return Ok(is_first);
    };
    push_separated(text, member, value, is_first)?;
    Ok(false)
}

/// A code and its value, with a blank between it and the one before it.
#[inline(always)]
fn push_separated(
    text: &mut Vec<u8>,
    code: Code,
    value: Value,
    is_first: bool,
) -> Result<(), AllocError>
    ensures { OnOk result (text.new.items
        ≡ text.old.items ++ (separator_of is_first ++ value_field code (octets_of value.entry))) }
{
    if is_first {
        return push_value(text, code, value);
    }
    push_next_value(text, code, value)
}

/// How many octets of user information a DT has.
fn push_information(text: &mut Vec<u8>, unit: &Spdu) -> Result<(), AllocError>
    ensures { OnOk result (text.new.items ≡ text.old.items ++ information_field (said_by unit.now)) }
{
    if !matches!(unit.kind(), Kind::DataTransfer) {
        return Ok(());
    }
    push_number_field(text, " octets ", unit.information().len() as u64)
}

/// Adds the line of the fault of a TSDU's session units. That of an empty TSDU is added in one piece.
#[inline(always)]
pub(crate) fn push_session_fault(text: &mut Vec<u8>, fault: SpduFault) -> Result<(), AllocError>
    ensures { OnOk result (text.new.items ≡ text.old.items ++ session_fault_line fault) }
{
    match fault {
        SpduFault::LengthPastEnd(0) => push_words(text, "    fault 0 LengthPastEnd\n"),
        _ => push_any_session_fault(text, fault),
    }
}

/// Adds the line of any such fault.
#[tactic(auto, unfolding(crate::specs::SessionLines::session_fault_line))]
fn push_any_session_fault(text: &mut Vec<u8>, fault: SpduFault) -> Result<(), AllocError>
    ensures { OnOk result (text.new.items ≡ text.old.items ++ session_fault_line fault) }
{
    push_words(text, "    fault ")?;
    push_decimal(text, session_fault_offset(fault) as u64)?;
    push_words(text, " ")?;
    push_words(text, session_fault_name(fault))?;
    push_session_fault_code(text, fault)?;
    push_words(text, "\n")
}

/// The offset in the TSDU at which a fault is.
pub fn session_fault_offset(fault: SpduFault) -> usize
    ensures { result ≡ session_fault_offset fault }
{
    match fault {
        SpduFault::UnknownSi(at)
        | SpduFault::LengthPastEnd(at)
        | SpduFault::MissingParameter(_, at)
        | SpduFault::DuplicateParameter(_, at)
        | SpduFault::BadValue(_, at)
        | SpduFault::BadConcatenation(at)
        | SpduFault::TrailingOctets(at) => at,
    }
}

/// The name of a fault.
pub fn session_fault_name(fault: SpduFault) -> &'static str
    ensures { result.now ≡ session_fault_name fault }
{
    match fault {
        SpduFault::UnknownSi(_) => "UnknownSi",
        SpduFault::LengthPastEnd(_) => "LengthPastEnd",
        SpduFault::MissingParameter(_, _) => "MissingParameter",
        SpduFault::DuplicateParameter(_, _) => "DuplicateParameter",
        SpduFault::BadValue(_, _) => "BadValue",
        SpduFault::BadConcatenation(_) => "BadConcatenation",
        SpduFault::TrailingOctets(_) => "TrailingOctets",
    }
}

/// Adds a blank and the code of the parameter, if the fault is one of a parameter.
pub fn push_session_fault_code(text: &mut Vec<u8>, fault: SpduFault) -> Result<(), AllocError>
    ensures { OnOk result (text.new.items ≡ text.old.items ++ session_fault_code fault) }
{
    match fault {
        SpduFault::MissingParameter(code, _)
        | SpduFault::DuplicateParameter(code, _)
        | SpduFault::BadValue(code, _) => push_number_field(text, " ", u64::from(code)),
        SpduFault::UnknownSi(_)
        | SpduFault::LengthPastEnd(_)
        | SpduFault::BadConcatenation(_)
        | SpduFault::TrailingOctets(_) => Ok(()),
    }
}
