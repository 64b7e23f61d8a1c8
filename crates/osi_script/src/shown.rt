//! The lines of a transcript for indications.

ghost use Rattle.std.specs.Prelude.{◌≡◌, ◌+◌, ◌*◌, ◌≤◌, ◌++◌, codes, length, vec_len, vec_capacity, IfSome, OnOk, OnErr, option_copied};
ghost use Rattle.std.specs.Fmt.{decimal};
ghost use Rattle.osi_spdu.specs.Fields.{unit_bits};
ghost use Rattle.osi_session.specs.Shown.{shown_by, abort_shown};
ghost use Rattle.osi_script.specs.Naming.{unit_fault_name};
ghost use Rattle.osi_script.specs.Names.{side_name};
ghost use Rattle.osi_script.specs.Shown.{shown_name, shown_fields, shown_octets, shown_line, number_field, octet_field, confirm_word};
ghost use Rattle.osi_script.specs.Shown.{minor_fields, sides_field, restart_fields, units_field, serial_field, opening_fields};
ghost use Rattle.osi_script.specs.Shown.{opened_fields, data_word, sizes_field, shown_sizes, shown_end, data_field};
ghost use Rattle.osi_script.specs.Texts.{data_text, digits_of};

use crate::naming::unit_fault as unit_fault_name;
use crate::sides::Side;
use crate::texts::{
    LINE, letters_of_sides, letters_of_wishes, put, put_decimal, put_hex, put_letters, put_octet,
    put_short, put_side, put_word,
};
use bitflags::Flags;
use osi_message::Octets;
use osi_session::{AbortCause, Indication, UnitFault};
use osi_spdu::{Requirements, TsduMaximumSize};
use std::alloc::{AllocError, Global};
use std::mem;

/// The name of an indication.
#[tactic(auto, unfolding(crate::specs::Shown::shown_name))]
fn name(indication: &Indication) -> &'static str
    ensures value { result.now ≡ shown_name (shown_by indication.now) }
    ensures short { length result.now ≤ 18 }
{
    match indication {
        Indication::Connect { .. } => "Connect",
        Indication::Connected { .. } => "Connected",
        Indication::RefusedByTransport { .. } => "Refused transport",
        Indication::RefusedBySession { .. } => "Refused session",
        Indication::Data { .. } => "Data",
        Indication::Given { .. } => "Given",
        Indication::Asked { .. } => "Asked",
        Indication::Minor { .. } => "Minor",
        Indication::MinorConfirmed { .. } => "MinorConfirmed",
        Indication::Major { .. } => "Major",
        Indication::MajorConfirmed { .. } => "MajorConfirmed",
        Indication::Restart { .. } => "Restart",
        Indication::Restarted { .. } => "Restarted",
        Indication::Release { .. } => "Release",
        Indication::Released { .. } => "Released",
        Indication::ReleaseRefused { .. } => "ReleaseRefused",
        Indication::Aborted { .. } => "Aborted",
        Indication::ProviderAbort { cause } => cause_name(*cause),
    }
}

#[tactic(auto, unfolding(crate::specs::Shown::shown_name))]
fn cause_name(cause: AbortCause) -> &'static str
    ensures value { result.now ≡ shown_name (abort_shown cause) }
    ensures short { length result.now ≤ 18 }
{
    match cause {
        AbortCause::Lost => "ProviderAbort Lost",
        AbortCause::Peer(_) => "ProviderAbort Peer",
        AbortCause::Unit(_) => "ProviderAbort Unit",
    }
}

/// Adds the name of an indication, for which there is room.
#[inline(always)]
#[tactic(auto, unfolding(crate::specs::Shown::shown_name))]
fn put_name(text: Vec<u8>, indication: &Indication) -> Vec<u8>
    requires { vec_len text + 18 ≤ vec_capacity text }
    ensures items { result.items ≡ text.items ++ shown_name (shown_by indication.now) }
    ensures len { vec_len result ≤ vec_len text + 18 }
    ensures capacity { vec_capacity text ≤ vec_capacity result }
{
    match indication {
        Indication::Data { .. } => put(text, "Data"),
        Indication::Minor { .. } => put(text, "Minor"),
        Indication::MinorConfirmed { .. } => put(text, "MinorConfirmed"),
        _ => put_word(text, name(indication)),
    }
}

#[inline(always)]
fn put_number(text: Vec<u8>, number: u64) -> Vec<u8>
    requires { vec_len text + 21 ≤ vec_capacity text }
    ensures items { result.items ≡ text.items ++ number_field number }
    ensures len { vec_len result ≤ vec_len text + 21 }
    ensures capacity { vec_capacity text ≤ vec_capacity result }
{
    let text = put(text, " ");
    put_decimal(text, number)
}

fn put_bits(text: Vec<u8>, octet: u8) -> Vec<u8>
    requires { vec_len text + 64 ≤ vec_capacity text }
    ensures items { result.items ≡ text.items ++ octet_field octet }
    ensures len { vec_len result ≤ vec_len text + 64 }
    ensures capacity { vec_capacity text ≤ vec_capacity result }
{
    let text = put(text, " ");
    put_octet(text, octet)
}

#[inline(always)]
fn put_minor(text: Vec<u8>, number: u32, confirm: bool) -> Vec<u8>
    requires { vec_len text + 64 ≤ vec_capacity text }
    ensures items { result.items ≡ text.items ++ minor_fields number confirm }
    ensures len { vec_len result ≤ vec_len text + 64 }
    ensures capacity { vec_capacity text ≤ vec_capacity result }
{
    let text = put_number(text, u64::from(number));
    let text = put(text, " confirm ");
    put_confirmation(text, confirm)
}

#[inline(always)]
fn put_confirmation(text: Vec<u8>, confirm: bool) -> Vec<u8>
    requires { vec_len text + 3 ≤ vec_capacity text }
    ensures items { result.items ≡ text.items ++ confirm_word confirm }
    ensures len { vec_len result ≤ vec_len text + 3 }
    ensures capacity { vec_capacity text ≤ vec_capacity result }
{
    if confirm {
        put(text, "yes")
    } else {
        put(text, "no")
    }
}

fn put_sides(text: Vec<u8>, letters: [u8; 4]) -> Vec<u8>
    requires { vec_len text + 11 ≤ vec_capacity text }
    ensures items { result.items ≡ text.items ++ sides_field letters }
    ensures len { vec_len result ≤ vec_len text + 11 }
    ensures capacity { vec_capacity text ≤ vec_capacity result }
{
    let text = put(text, " sides ");
    put_letters(text, letters)
}

#[tactic(auto, unfolding(crate::specs::Shown::restart_fields))]
fn put_restart(text: Vec<u8>, number: u32, letters: [u8; 4]) -> Vec<u8>
    requires { vec_len text + 64 ≤ vec_capacity text }
    ensures items { result.items ≡ text.items ++ restart_fields number letters }
    ensures len { vec_len result ≤ vec_len text + 64 }
    ensures capacity { vec_capacity text ≤ vec_capacity result }
{
    let text = put_number(text, u64::from(number));
    put_sides(text, letters)
}

fn put_units(text: Vec<u8>, units: u16) -> Vec<u8>
    requires { vec_len text + 11 ≤ vec_capacity text }
    ensures items { result.items ≡ text.items ++ units_field units }
    ensures len { vec_len result ≤ vec_len text + 11 }
    ensures capacity { vec_capacity text ≤ vec_capacity result }
{
    let text = put(text, " units ");
    put_short(text, units)
}

#[tactic(auto, unfolding(crate::specs::Shown::serial_field))]
fn put_serial(text: Vec<u8>, serial: Option<u32>) -> Vec<u8>
    requires { vec_len text + 28 ≤ vec_capacity text }
    ensures items { result.items ≡ text.items ++ serial_field serial }
    ensures len { vec_len result ≤ vec_len text + 28 }
    ensures capacity { vec_capacity text ≤ vec_capacity result }
{
    match serial {
        None => put(text, " serial -"),
        Some(number) => {
            let text = put(text, " serial ");
            put_decimal(text, u64::from(number))
        }
    }
}

#[tactic(auto, unfolding(crate::specs::Shown::opening_fields))]
fn put_opening(
    text: Vec<u8>,
    requirements: Requirements,
    serial: Option<u32>,
    letters: [u8; 4],
) -> Vec<u8>
    requires { vec_len text + 64 ≤ vec_capacity text }
    ensures items { result.items ≡ text.items ++ opening_fields (unit_bits requirements) serial letters }
    ensures len { vec_len result ≤ vec_len text + 64 }
    ensures capacity { vec_capacity text ≤ vec_capacity result }
{
    let text = put_units(text, requirements.bits());
    let text = put_serial(text, serial);
    put_sides(text, letters)
}

fn put_fault(text: Vec<u8>, fault: UnitFault) -> Vec<u8>
    requires { vec_len text + 64 ≤ vec_capacity text }
    ensures items { result.items ≡ text.items ++ (codes " " ++ unit_fault_name fault) }
    ensures len { vec_len result ≤ vec_len text + 64 }
    ensures capacity { vec_capacity text ≤ vec_capacity result }
{
    let text = put(text, " ");
    put_word(text, unit_fault_name(fault))
}

#[tactic(auto, unfolding(crate::specs::Shown::shown_fields))]
fn put_cause(text: Vec<u8>, cause: AbortCause) -> Vec<u8>
    requires { vec_len text + 64 ≤ vec_capacity text }
    ensures items { result.items ≡ text.items ++ shown_fields (abort_shown cause) }
    ensures len { vec_len result ≤ vec_len text + 64 }
    ensures capacity { vec_capacity text ≤ vec_capacity result }
{
    match cause {
        AbortCause::Lost => text,
        AbortCause::Peer(bits) => put_bits(text, bits),
        AbortCause::Unit(fault) => put_fault(text, fault),
    }
}

/// The fields of a connection that is requested or accepted, for which there is room; nothing for any other indication.
#[tactic(auto, unfolding(crate::specs::Shown::opened_fields))]
fn put_opened(text: Vec<u8>, indication: &Indication) -> Vec<u8>
    requires { vec_len text + 64 ≤ vec_capacity text }
    ensures items { result.items ≡ text.items ++ opened_fields (shown_by indication.now) }
    ensures len { vec_len result ≤ vec_len text + 64 }
    ensures capacity { vec_capacity text ≤ vec_capacity result }
{
    match indication {
        Indication::Connect {
            requirements,
            serial,
            wishes,
            ..
        } => put_opening(text, *requirements, *serial, letters_of_wishes(*wishes)),
        Indication::Connected {
            requirements,
            serial,
            sides,
            ..
        } => put_opening(text, *requirements, *serial, letters_of_sides(*sides)),
        _ => text,
    }
}

/// The fields between the name of any indication and its user data, for which there is room.
#[inline(never)]
#[tactic(auto, unfolding(crate::specs::Shown::shown_fields, crate::specs::Shown::opened_fields))]
fn put_any_fields(text: Vec<u8>, indication: &Indication) -> Vec<u8>
    requires { vec_len text + 64 ≤ vec_capacity text }
    ensures items { result.items ≡ text.items ++ shown_fields (shown_by indication.now) }
    ensures len { vec_len result ≤ vec_len text + 64 }
    ensures capacity { vec_capacity text ≤ vec_capacity result }
{
    match indication {
        Indication::Connect { .. } | Indication::Connected { .. } => put_opened(text, indication),
        Indication::RefusedByTransport { reason } => put_number(text, u64::from(*reason)),
        Indication::RefusedBySession { reason, .. } => put_number(text, u64::from(*reason)),
        Indication::Given { tokens } => put_bits(text, tokens.bits()),
        Indication::Asked { tokens, .. } => put_bits(text, tokens.bits()),
        Indication::Minor {
            number,
            confirm,
            ..
        } => put_minor(text, *number, *confirm),
        Indication::MinorConfirmed { number, .. } => put_number(text, u64::from(*number)),
        Indication::Major { number, .. } => put_number(text, u64::from(*number)),
        Indication::Restart { number, wishes, .. } => {
            put_restart(text, *number, letters_of_wishes(*wishes))
        }
        Indication::Restarted { number, sides, .. } => {
            put_restart(text, *number, letters_of_sides(*sides))
        }
        Indication::ProviderAbort { cause } => put_cause(text, *cause),
        Indication::Data { .. }
        | Indication::MajorConfirmed { .. }
        | Indication::Release { .. }
        | Indication::Released { .. }
        | Indication::ReleaseRefused { .. }
        | Indication::Aborted { .. } => text,
    }
}

/// The fields between the name of an indication and its user data, for which there is room.
#[inline(always)]
#[tactic(auto, unfolding(crate::specs::Shown::shown_fields))]
fn put_fields(text: Vec<u8>, indication: &Indication) -> Vec<u8>
    requires { vec_len text + 64 ≤ vec_capacity text }
    ensures items { result.items ≡ text.items ++ shown_fields (shown_by indication.now) }
    ensures len { vec_len result ≤ vec_len text + 64 }
    ensures capacity { vec_capacity text ≤ vec_capacity result }
{
    match indication {
        Indication::Data { .. } => text,
        Indication::Minor {
            number,
            confirm,
            ..
        } => put_minor(text, *number, *confirm),
        Indication::MinorConfirmed { number, .. } => put_number(text, u64::from(*number)),
        _ => put_any_fields(text, indication),
    }
}

/// The user data of an indication, if it has any.
#[inline(always)]
#[tactic(auto, unfolding(crate::specs::Shown::shown_octets))]
fn user_data(indication: &Indication) -> Option<&Octets>
    ensures { option_copied result ≡ shown_octets (shown_by indication.now) }
{
    match indication {
        Indication::RefusedByTransport { .. }
        | Indication::Given { .. }
        | Indication::ProviderAbort { .. } => None,
        Indication::Connect { user_data, .. }
        | Indication::Connected { user_data, .. }
        | Indication::RefusedBySession { user_data, .. }
        | Indication::Data { user_data }
        | Indication::Asked { user_data, .. }
        | Indication::Minor { user_data, .. }
        | Indication::MinorConfirmed { user_data, .. }
        | Indication::Major { user_data, .. }
        | Indication::MajorConfirmed { user_data }
        | Indication::Restart { user_data, .. }
        | Indication::Restarted { user_data, .. }
        | Indication::Release { user_data }
        | Indication::Released { user_data }
        | Indication::ReleaseRefused { user_data }
        | Indication::Aborted { user_data } => Some(user_data),
    }
}

/// The text before the user data of an indication.
#[inline(always)]
fn put_data_word(text: Vec<u8>, indication: &Indication) -> Vec<u8>
    requires { vec_len text + 6 ≤ vec_capacity text }
    ensures items { result.items ≡ text.items ++ data_word (shown_by indication.now) }
    ensures len { vec_len result ≤ vec_len text + 6 }
    ensures capacity { vec_capacity text ≤ vec_capacity result }
{
    match indication {
        Indication::Data { .. } => put(text, " "),
        _ => put(text, " data "),
    }
}

/// The room needed for a line with this user data; `None` if it exceeds the largest count.
#[inline(always)]
fn room(user_data: Option<&Octets>) -> Option<usize>
    ensures { IfSome result (λ octets. octets ≡ digits_of (option_copied user_data.entry) + 192) }
{
    match user_data {
        None => Some(LINE),
        Some(octets) => octets.as_slice().len().checked_mul(2)?.checked_add(LINE),
    }
}

/// Adds octets in hexadecimal or a dash if there is none, for which there is room.
#[inline(always)]
#[tactic(auto, unfolding(crate::specs::Texts::data_text))]
fn put_data(text: Vec<u8>, octets: &[u8]) -> Vec<u8>
    requires { vec_len text + 2 * length octets.now + 1 ≤ vec_capacity text }
    ensures items { result.items ≡ text.items ++ data_text octets.now }
    ensures len { vec_len result ≤ vec_len text + 2 * length octets.now + 1 }
    ensures capacity { vec_capacity text ≤ vec_capacity result }
{
    if octets.is_empty() {
        put(text, "-")
    } else {
        put_hex(text, octets)
    }
}

/// Adds the largest TSDU of each side, if one of them has a limit, for which there is room.
#[tactic(auto, unfolding(crate::specs::Shown::sizes_field))]
fn put_sizes(text: Vec<u8>, sizes: TsduMaximumSize) -> Vec<u8>
    requires { vec_len text + 47 ≤ vec_capacity text }
    ensures items { result.items ≡ text.items ++ sizes_field sizes }
    ensures len { vec_len result ≤ vec_len text + 47 }
    ensures capacity { vec_capacity text ≤ vec_capacity result }
{
    let Some(sizes) = sizes.written() else {
        return text;
    };
    let text = put(text, " tsdu");
    let text = put_number(text, u64::from(sizes.from_asker));
    put_number(text, u64::from(sizes.from_answerer))
}

/// Adds the text after the user data of a connection that is requested or accepted, for which there is room.
#[inline(always)]
#[tactic(auto, unfolding(crate::specs::Shown::shown_sizes))]
fn put_shown_sizes(text: Vec<u8>, indication: &Indication) -> Vec<u8>
    requires { vec_len text + 47 ≤ vec_capacity text }
    ensures items { result.items ≡ text.items ++ shown_sizes (shown_by indication.now) }
    ensures len { vec_len result ≤ vec_len text + 47 }
    ensures capacity { vec_capacity text ≤ vec_capacity result }
{
    match indication {
        Indication::Connect { sizes, .. } | Indication::Connected { sizes, .. } => {
            put_sizes(text, *sizes)
        }
        _ => text,
    }
}

/// Adds the user data of an indication, if it has any, for which there is room.
#[inline(always)]
fn put_user_data(text: Vec<u8>, indication: &Indication, user_data: Option<&Octets>) -> Vec<u8>
    requires { vec_len text + digits_of (option_copied user_data) + 7 ≤ vec_capacity text }
    ensures items { result.items ≡ text.items ++ data_field (data_word (shown_by indication.now)) (option_copied user_data.entry) }
    ensures len { vec_len result ≤ vec_len text + digits_of (option_copied user_data.entry) + 7 }
    ensures capacity { vec_capacity text ≤ vec_capacity result }
{
    match user_data {
        None => text,
        Some(octets) => {
            let text = put_data_word(text, indication);
            put_data(text, octets.as_slice())
        }
    }
}

/// Adds the user data of an indication, if it has any, the text after it, and the line end, for which there is room.
#[inline(always)]
fn put_end(text: Vec<u8>, indication: &Indication, user_data: Option<&Octets>) -> Vec<u8>
    requires value { option_copied user_data ≡ shown_octets (shown_by indication.now) }
    requires room { vec_len text + digits_of (option_copied user_data) + 64 ≤ vec_capacity text }
    ensures { result.items ≡ text.items ++ (shown_end (shown_by indication.now) ++ codes "\n") }
{
    let text = put_user_data(text, indication, user_data);
    let text = put_shown_sizes(text, indication);
    put(text, "\n")
}

/// Adds the side, the connection and the name of an indication, for which there is room.
#[inline(always)]
fn put_head(text: Vec<u8>, side: Side, reference: u16, indication: &Indication) -> Vec<u8>
    requires { vec_len text + 64 ≤ vec_capacity text }
    ensures items { result.items
        ≡ text.items ++ (side_name side ++ codes " " ++ decimal reference ++ codes " " ++ shown_name (shown_by indication.now)) }
    ensures len { vec_len result ≤ vec_len text + 64 }
    ensures capacity { vec_capacity text ≤ vec_capacity result }
{
    let text = put_side(text, side);
    let text = put_decimal(text, u64::from(reference));
    let text = put(text, " ");
    put_name(text, indication)
}

/// Adds the line of an indication that the user of a side receives for a connection. If memory runs out, the transcript
/// is unchanged.
#[tactic(auto, using(crate::proofs::texts_added_in_turn_are_added_whole::line_joined), unfolding(crate::specs::Shown::shown_line, crate::specs::Shown::shown_text))]
pub fn push_indication(
    alloc: Global,
    out: &mut Vec<u8>,
    side: Side,
    reference: u16,
    indication: &Indication,
) -> Result<(), AllocError>
    ensures ok { OnOk result (out.new.items
        ≡ out.old.items ++ shown_line side reference (shown_by indication.now)) }
    ensures err { OnErr result (out.new.items ≡ out.old.items) }
{
    let octets = user_data(indication);
    let Some(room) = room(octets) else {
        return Err(AllocError);
    };
    out.reserve(room)?;
    // While it is written, the text is owned by this function; so the compiler knows that no store to it changes its
    // length.
    let text = mem::replace(out, Vec::new(alloc));
    let text = put_head(text, side, reference, indication);
    let text = put_fields(text, indication);
    *out = put_end(text, indication, octets);
    Ok(())
}
