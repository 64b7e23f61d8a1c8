//! Reading one unit (X.224 section 13).

ghost use Rattle.std.specs.Prelude.{◌≡◌, ◌+◌, ◌<◌, ◌≤◌, ◌^◌, length, IfOk};
ghost use Rattle.osi_tpdu.specs.Reading.{ReadsAs, header_at, connect_of, request_of, confirm_of, disconnect_of, disconnected_of};
ghost use Rattle.osi_tpdu.specs.Reading.{transfer_of, acknowledge_of, error_of, value_of, unit_at};
ghost use Rattle.osi_tpdu.specs.View.{connect_content, value};
ghost use Rattle.osi_tpdu.specs.Writing.{Fits};

use crate::acknowledgement::DataAcknowledgement;
use crate::connect::ConnectFields;
use crate::connect_confirm::ConnectConfirm;
use crate::connect_request::ConnectRequest;
use crate::data_class_0::DataClass0;
use crate::data_class_2::DataClass2;
use crate::disconnect_confirm::DisconnectConfirm;
use crate::disconnect_request::DisconnectRequest;
use crate::faults::TpduFault;
use crate::octets::{high_half, low_half, number, reference};
use crate::parameters::{read_parameters, skip_parameters};
use crate::report::ErrorReport;
use crate::unit::Tpdu;

/// The largest length indicator.
const GREATEST_LI: usize = 254;

// The header of the unit at the front, and the octets after it.
#[inline(always)]
#[tactic(auto, unfolding(crate::specs::Reading::header_at))]
fn read_header(at: usize, octets: &[u8]) -> Result<(&[u8], &[u8]), TpduFault>
    ensures gives { ReadsAs (λ r. (r.0.now, r.1.now)) result (header_at at octets.now) }
    ensures lengths { IfOk result (λ r. length r.0.now + length r.1.now + 1 ≡ length octets.now) }
    ensures least { IfOk result (λ r. 1 ≤ length r.0.now) }
{
    if octets.is_empty() {
        return Err(TpduFault::BadLi(at));
    }
    let li = octets[0] as usize;
    if li == 0 || li > GREATEST_LI || octets.len() <= li {
        return Err(TpduFault::BadLi(at));
    }
    let (_, counted) = octets.split_at(1);
    Ok(counted.split_at(li))
}

// The fields that a CR and a CC share. It is inlined, as `read_fields` is.
#[inline(always)]
#[tactic(auto, unfolding(crate::specs::Reading::connect_of))]
fn read_connect<'a>(
    at: usize,
    header: &'a [u8],
    user: &'a [u8],
) -> Result<ConnectFields<'a>, TpduFault>
    requires { at + length header.now + 1 < 2 ^ 64 }
    ensures gives { ReadsAs connect_content result (connect_of at header.now user.now) }
    ensures long { IfOk result (λ _. 6 ≤ length header.now) }
{
    if header.len() < 6 {
        return Err(TpduFault::BadLi(at));
    }
    let (_, variable) = header.split_at(6);
    let parameters = read_parameters(at + 7, variable)?;
    Ok(ConnectFields {
        credit: low_half(header[0]),
        source: reference(3, header),
        class: high_half(header[5]),
        options: low_half(header[5]),
        parameters,
        user,
    })
}

#[inline(always)]
#[tactic(auto, unfolding(crate::specs::Reading::request_of))]
fn read_request<'a>(at: usize, header: &'a [u8], user: &'a [u8]) -> Result<Tpdu<'a>, TpduFault>
    requires { at + length header.now + 1 < 2 ^ 64 }
    ensures { ReadsAs value result (request_of at header.now user.now) }
{
    let fields = read_connect(at, header, user)?;
    Ok(Tpdu::Cr(ConnectRequest { fields }))
}

#[inline(always)]
#[tactic(auto, unfolding(crate::specs::Reading::confirm_of))]
fn read_confirm<'a>(at: usize, header: &'a [u8], user: &'a [u8]) -> Result<Tpdu<'a>, TpduFault>
    requires { at + length header.now + 1 < 2 ^ 64 }
    ensures { ReadsAs value result (confirm_of at header.now user.now) }
{
    let fields = read_connect(at, header, user)?;
    Ok(Tpdu::Cc(ConnectConfirm {
        destination: reference(1, header),
        fields,
    }))
}

#[inline(always)]
#[tactic(auto, unfolding(crate::specs::Reading::disconnect_of))]
fn read_disconnect<'a>(at: usize, header: &[u8], user: &'a [u8]) -> Result<Tpdu<'a>, TpduFault>
    requires { at + length header.now + 1 < 2 ^ 64 }
    ensures { ReadsAs value result (disconnect_of at header.now user.now) }
{
    if header.len() < 6 {
        return Err(TpduFault::BadLi(at));
    }
    let (_, variable) = header.split_at(6);
    skip_parameters(at + 7, variable)?;
    Ok(Tpdu::Dr(DisconnectRequest {
        destination: reference(1, header),
        source: reference(3, header),
        reason: header[5],
        user,
    }))
}

#[inline(always)]
#[tactic(auto, unfolding(crate::specs::Reading::disconnected_of))]
fn read_disconnected<'a>(at: usize, header: &[u8]) -> Result<Tpdu<'a>, TpduFault>
    ensures { ReadsAs value result (disconnected_of at header.now) }
{
    if header.len() != 5 {
        return Err(TpduFault::BadLi(at));
    }
    Ok(Tpdu::Dc(DisconnectConfirm {
        destination: reference(1, header),
        source: reference(3, header),
    }))
}

// The length of the header tells the class of a DT.
#[inline(always)]
#[tactic(auto, unfolding(crate::specs::Reading::transfer_of))]
fn read_transfer<'a>(at: usize, header: &[u8], user: &'a [u8]) -> Result<Tpdu<'a>, TpduFault>
    ensures { ReadsAs value result (transfer_of at header.now user.now) }
{
    match header.len() {
        2 => Ok(Tpdu::Dt0(DataClass0 {
            end: header[1] >= 0x80,
            user,
        })),
        4 => Ok(Tpdu::Dt2(DataClass2 {
            destination: reference(1, header),
            number: number(header[3]),
            end: header[3] >= 0x80,
            user,
        })),
        _ => Err(TpduFault::BadLi(at)),
    }
}

#[inline(always)]
#[tactic(auto, unfolding(crate::specs::Reading::acknowledge_of))]
fn read_acknowledge<'a>(at: usize, header: &[u8]) -> Result<Tpdu<'a>, TpduFault>
    ensures { ReadsAs value result (acknowledge_of at header.now) }
{
    if header.len() != 4 {
        return Err(TpduFault::BadLi(at));
    }
    Ok(Tpdu::Ak(DataAcknowledgement::from_header(header[0], header[1], header[2], header[3])))
}

#[inline(always)]
#[tactic(auto, unfolding(crate::specs::Reading::error_of))]
fn read_error<'a>(at: usize, header: &[u8]) -> Result<Tpdu<'a>, TpduFault>
    requires { at + length header.now + 1 < 2 ^ 64 }
    ensures { ReadsAs value result (error_of at header.now) }
{
    if header.len() < 4 {
        return Err(TpduFault::BadLi(at));
    }
    let (_, variable) = header.split_at(4);
    skip_parameters(at + 5, variable)?;
    Ok(Tpdu::Er(ErrorReport {
        destination: reference(1, header),
        cause: header[3],
    }))
}

// The unit with this header, by its code, and these octets after it. All readers are inlined: otherwise each unit would
// be moved through memory several times, with the size of the largest one.
#[inline(always)]
#[tactic(auto, unfolding(crate::specs::Reading::value_of))]
fn read_fields<'a>(at: usize, header: &'a [u8], user: &'a [u8]) -> Result<Tpdu<'a>, TpduFault>
    requires least { 1 ≤ length header.now }
    requires room { at + length header.now + 1 < 2 ^ 64 }
    ensures { ReadsAs value result (value_of at header.now user.now) }
{
    let code = header[0];
    match high_half(code) {
        0xE => read_request(at, header, user),
        0xD => read_confirm(at, header, user),
        0x6 => read_acknowledge(at, header),
        _ => match code {
            0x80 => read_disconnect(at, header, user),
            0xC0 => read_disconnected(at, header),
            0xF0 => read_transfer(at, header, user),
            0x70 => read_error(at, header),
            _ => Err(TpduFault::UnknownCode(at + 1)),
        },
    }
}

/// The first unit of the octets, which begin at this offset, and the number of octets that spell it.
#[inline(always)]
#[tactic(auto, unfolding(crate::specs::Reading::unit_at))]
pub(crate) fn read_unit(at: usize, octets: &[u8]) -> Result<(Tpdu<'_>, usize), TpduFault>
    requires { at + length octets.now < 2 ^ 64 }
    ensures gives { ReadsAs (λ r. (value r.0, r.1)) result (unit_at at octets.now) }
    ensures least { IfOk result (λ r. 1 ≤ r.1) }
    ensures most { IfOk result (λ r. r.1 ≤ length octets.now) }
    ensures fits { IfOk result (λ r. Fits (value r.0)) }
{
    let (header, behind) = read_header(at, octets)?;
    let unit = read_fields(at, header, behind)?;
    let used = if unit.may_be_followed() {
        1 + header.len()
    } else {
        octets.len()
    };
    Ok((unit, used))
}
