//! The lines of transport units.

ghost use Rattle.std.specs.Prelude.{◌≡◌, ◌++◌, ◌+◌, ◌∷◌, codes, option_copied, option_map, OnOk};
ghost use Rattle.osi_tpdu.specs.Limits.{size_code, selector_octets};
ghost use Rattle.osi_tpdu.specs.Value.{request as a_request, confirm as a_confirm, data0};
ghost use Rattle.osi_tpdu.specs.View.{value, request_content, confirm_content, parameter_values};
ghost use Rattle.osi_listing.specs.Lines.{bit, fixed_fields, parameter_fields, unit_line};

use crate::lines::{
    push_last_field, push_last_number, push_number_field, push_octet_field, push_octets_field,
    push_reference_field, push_words,
};
use osi_tpdu::{
    ConnectConfirm, ConnectFields, ConnectParameters, ConnectRequest, Selector, SizeCode, Tpdu,
};
use std::alloc::AllocError;

/// Adds the line of a transport unit.
#[inline(always)]
#[tactic(auto, unfolding(crate::specs::Lines::unit_line, crate::specs::Lines::unit_fields))]
pub(crate) fn push_unit(text: &mut Vec<u8>, unit: &Tpdu) -> Result<(), AllocError>
    ensures { OnOk result (text.new.items ≡ text.old.items ++ unit_line (value unit.now)) }
{
    match unit {
        Tpdu::Cr(request) => push_request(text, request),
        Tpdu::Cc(confirm) => push_confirm(text, confirm),
        Tpdu::Dr(request) => {
            push_reference_field(text, "  DR dst ", request.destination)?;
            push_reference_field(text, " src ", request.source)?;
            push_last_field(text, " reason ", u64::from(request.reason))
        }
        Tpdu::Dc(confirm) => {
            push_reference_field(text, "  DC dst ", confirm.destination)?;
            push_reference_field(text, " src ", confirm.source)?;
            push_words(text, "\n")
        }
        Tpdu::Dt0(data) => push_data_0(text, data.end, data.user),
        Tpdu::Dt2(data) => {
            push_reference_field(text, "  DT dst ", data.destination)?;
            push_number_field(text, " number ", u64::from(data.number))?;
            push_number_field(text, " eot ", u64::from(data.end))?;
            push_last_field(text, " octets ", data.user.len() as u64)
        }
        Tpdu::Ak(ack) => {
            push_number_field(text, "  AK credit ", u64::from(ack.credit))?;
            push_reference_field(text, " dst ", ack.destination)?;
            push_last_field(text, " number ", u64::from(ack.number))
        }
        Tpdu::Er(report) => {
            push_reference_field(text, "  ER dst ", report.destination)?;
            push_last_field(text, " cause ", u64::from(report.cause))
        }
    }
}

/// Adds the line of a DT of class 0. It has no number of its own, so 0 is printed.
#[inline(always)]
fn push_data_0(text: &mut Vec<u8>, end: bool, user: &[u8]) -> Result<(), AllocError>
    ensures { OnOk result (text.new.items ≡ text.old.items ++ unit_line (data0 end user.now)) }
{
    push_words(text, beginning_of_data_0(end))?;
    push_last_number(text, user.len() as u64)
}

/// The beginning of such a line, up to the number of octets.
#[inline(always)]
fn beginning_of_data_0(end: bool) -> &'static str
    ensures { result.now ≡ codes "  DT number 0 eot " ++ (48 + bit end) ∷ codes " octets " }
{
    if end {
        "  DT number 0 eot 1 octets "
    } else {
        "  DT number 0 eot 0 octets "
    }
}

/// Adds the line of a CR. It has no DST-REF of its own, so 0000 is printed.
#[tactic(auto, unfolding(crate::specs::Lines::unit_line, crate::specs::Lines::unit_fields))]
fn push_request(text: &mut Vec<u8>, request: &ConnectRequest) -> Result<(), AllocError>
    ensures { OnOk result (text.new.items
        ≡ text.old.items ++ unit_line (a_request (request_content request.now))) }
{
    push_words(text, "  CR")?;
    push_connect_fields(text, 0, &request.fields)?;
    push_parameter_fields(text, &request.fields.parameters)?;
    push_words(text, "\n")
}

/// Adds the line of a CC.
#[tactic(auto, unfolding(crate::specs::Lines::unit_line, crate::specs::Lines::unit_fields))]
fn push_confirm(text: &mut Vec<u8>, confirm: &ConnectConfirm) -> Result<(), AllocError>
    ensures { OnOk result (text.new.items
        ≡ text.old.items ++ unit_line (a_confirm confirm.now.destination (confirm_content confirm.now))) }
{
    push_words(text, "  CC")?;
    push_connect_fields(text, confirm.destination, &confirm.fields)?;
    push_parameter_fields(text, &confirm.fields.parameters)?;
    push_words(text, "\n")
}

/// The fixed part of a CR or CC, with this DST-REF.
fn push_connect_fields(
    text: &mut Vec<u8>,
    destination: u16,
    fields: &ConnectFields,
) -> Result<(), AllocError>
    ensures { OnOk result (text.new.items ≡ text.old.items
        ++ fixed_fields fields.now.credit destination fields.now.source fields.now.class fields.now.options) }
{
    push_number_field(text, " credit ", u64::from(fields.credit))?;
    push_reference_field(text, " dst ", destination)?;
    push_reference_field(text, " src ", fields.source)?;
    push_number_field(text, " class ", u64::from(fields.class))?;
    push_number_field(text, " options ", u64::from(fields.options))
}

#[tactic(auto, unfolding(crate::specs::Lines::parameter_fields))]
fn push_parameter_fields(
    text: &mut Vec<u8>,
    parameters: &ConnectParameters,
) -> Result<(), AllocError>
    ensures { OnOk result (text.new.items
        ≡ text.old.items ++ parameter_fields (parameter_values parameters.now)) }
{
    push_octet_field(text, " size ", size_octet(parameters.size))?;
    push_octets_field(text, " calling ", selector_slice(parameters.calling))?;
    push_octets_field(text, " called ", selector_slice(parameters.called))?;
    push_octet_field(text, " more ", parameters.additional_options)?;
    push_octets_field(text, " also ", parameters.alternative_classes)
}

fn size_octet(size: Option<SizeCode>) -> Option<u8>
    ensures { result ≡ option_map size_code size }
{
    match size {
        Some(size) => Some(size.code()),
        None => None,
    }
}

fn selector_slice<'a>(selector: Option<Selector<'a>>) -> Option<&'a [u8]>
    ensures { option_copied result ≡ option_map selector_octets selector.entry }
{
    match selector {
        Some(selector) => Some(selector.octets()),
        None => None,
    }
}
