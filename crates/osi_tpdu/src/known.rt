//! Reading a unit that is known to be there, as each unit of a packet is after the check of the packet: nothing is tested
//! again.

ghost use Rattle.std.specs.Prelude.{◌≡◌, ◌+◌, ◌<◌, ◌≤◌, ◌^◌, ℕ, List, length, Ok, IsOk};
ghost use Rattle.osi_unit.specs.Octets.{IsOctets};
ghost use Rattle.osi_tpdu.specs.Reading.{header_at, connect_of, confirm_of, disconnect_of, error_of, value_of, used_by};
ghost use Rattle.osi_tpdu.specs.Value.{confirm, disconnect, error};
ghost use Rattle.osi_tpdu.specs.View.{connect_content, confirm_content, value};

use crate::acknowledgement::DataAcknowledgement;
use crate::connect::ConnectFields;
use crate::connect_confirm::ConnectConfirm;
use crate::connect_request::ConnectRequest;
use crate::data_class_0::DataClass0;
use crate::data_class_2::DataClass2;
use crate::disconnect_confirm::DisconnectConfirm;
use crate::disconnect_request::DisconnectRequest;
use crate::known_parameters::known_parameters;
use crate::octets::{high_half, low_half, number, reference};
use crate::report::ErrorReport;
use crate::unit::Tpdu;

// The header of the unit at the front, and the octets after it.
#[inline(always)]
#[tactic(auto, unfolding(crate::specs::Reading::header_at))]
fn known_header(_at: usize, octets: &[u8]) -> (&[u8], &[u8])
    requires { IsOk (header_at _at octets.now) }
    ensures gives { header_at _at octets.now ≡ Ok (result.0.now, result.1.now) }
    ensures lengths { length result.0.now + length result.1.now + 1 ≡ length octets.now }
    ensures least { 1 ≤ length result.0.now }
{
    let li = octets[0] as usize;
    let (_, counted) = octets.split_at(1);
    counted.split_at(li)
}

// How many of n octets the unit with this header takes. Each kind that another unit may follow has an answer of its own,
// so that the compiler looks at the code once, for this answer and for the fields.
#[inline(always)]
#[tactic(auto, unfolding(crate::specs::Reading::value_of, crate::specs::Reading::is_lead_code, crate::specs::Reading::acknowledge_of, crate::specs::Reading::disconnected_of))]
fn known_length(_at: usize, header: &[u8], _user: &[u8], n: usize) -> usize
    requires least { 1 ≤ length header.now }
    requires short { length header.now < n }
    requires known { IsOk (value_of _at header.now _user.now) }
    ensures { result ≡ used_by header.now n }
{
    match high_half(header[0]) {
        0x6 => 5,
        0xC => 6,
        0x7 => 1 + header.len(),
        _ => n,
    }
}

/// The header of the first unit of the octets, the octets after the header, and how many octets the unit takes.
#[inline(always)]
pub(crate) fn known_front(at: usize, octets: &[u8]) -> (&[u8], &[u8], usize)
    requires header { IsOk (header_at at octets.now) }
    requires fields { (header user : List ℕ) → header_at at octets.now ≡ Ok (header, user) → IsOk (value_of at header user) }
    ensures gives { header_at at octets.now ≡ Ok (result.0.now, result.1.now) }
    ensures lengths { length result.0.now + length result.1.now + 1 ≡ length octets.now }
    ensures least { 1 ≤ length result.0.now }
    ensures octets { IsOctets octets.now }
    ensures used { result.2 ≡ used_by result.0.now (length octets.now) }
    ensures most { result.2 ≤ length octets.now }
{
    let (header, behind) = known_header(at, octets);
    let used = known_length(at, header, behind, octets.len());
    (header, behind, used)
}

// The fields that a CR and a CC share.
#[inline(always)]
#[tactic(auto, using(crate::proofs::the_steps_of_reading::bound_known), unfolding(crate::specs::Reading::connect_of))]
fn known_connect<'a>(at: usize, header: &'a [u8], user: &'a [u8]) -> ConnectFields<'a>
    requires room { at + length header.now + 1 < 2 ^ 64 }
    requires known { IsOk (connect_of at header.now user.now) }
    ensures gives { connect_of at header.now user.now ≡ Ok (connect_content result) }
    ensures long { 6 ≤ length header.now }
{
    let (_, variable) = header.split_at(6);
    ConnectFields {
        credit: low_half(header[0]),
        source: reference(3, header),
        class: high_half(header[5]),
        options: low_half(header[5]),
        parameters: known_parameters(at + 7, variable),
        user,
    }
}

#[inline(always)]
#[tactic(auto, using(crate::proofs::the_steps_of_reading::bound_known), unfolding(crate::specs::Reading::confirm_of))]
fn known_confirm<'a>(at: usize, header: &'a [u8], user: &'a [u8]) -> ConnectConfirm<'a>
    requires room { at + length header.now + 1 < 2 ^ 64 }
    requires known { IsOk (confirm_of at header.now user.now) }
    ensures { confirm_of at header.now user.now ≡ Ok (confirm result.destination (confirm_content result)) }
{
    let fields = known_connect(at, header, user);
    ConnectConfirm {
        destination: reference(1, header),
        fields,
    }
}

// The parameters of a DR are skipped, so they need no look.
#[inline(always)]
#[tactic(auto, using(crate::proofs::the_steps_of_reading::skipped_known), unfolding(crate::specs::Reading::disconnect_of))]
fn known_disconnect<'a>(_at: usize, header: &[u8], user: &'a [u8]) -> DisconnectRequest<'a>
    requires { IsOk (disconnect_of _at header.now user.now) }
    ensures { disconnect_of _at header.now user.now
        ≡ Ok (disconnect result.destination result.source result.reason result.user.now) }
{
    DisconnectRequest {
        destination: reference(1, header),
        source: reference(3, header),
        reason: header[5],
        user,
    }
}

// So are those of an ER.
#[inline(always)]
#[tactic(auto, using(crate::proofs::the_steps_of_reading::skipped_known), unfolding(crate::specs::Reading::error_of))]
fn known_error(_at: usize, header: &[u8]) -> ErrorReport
    requires { IsOk (error_of _at header.now) }
    ensures { error_of _at header.now ≡ Ok (error result.destination result.cause) }
{
    ErrorReport {
        destination: reference(1, header),
        cause: header[3],
    }
}

/// The unit with this header, and these octets after it. Each kind is built on its own, without a `Result` in between, so
/// that a caller's `match` on the unit needs no copy of it.
#[inline(always)]
#[tactic(auto, using(crate::proofs::the_steps_of_reading::bound_known), unfolding(crate::specs::Reading::value_of, crate::specs::Reading::request_of, crate::specs::Reading::transfer_of, crate::specs::Reading::acknowledge_of, crate::specs::Reading::disconnected_of))]
pub(crate) fn known_fields<'a>(at: usize, header: &'a [u8], user: &'a [u8]) -> Tpdu<'a>
    requires least { 1 ≤ length header.now }
    requires room { at + length header.now + 1 < 2 ^ 64 }
    requires known { IsOk (value_of at header.now user.now) }
    ensures { value_of at header.now user.now ≡ Ok (value result) }
{
    match high_half(header[0]) {
        0xE => Tpdu::Cr(ConnectRequest {
            fields: known_connect(at, header, user),
        }),
        0xD => Tpdu::Cc(known_confirm(at, header, user)),
        0x6 => Tpdu::Ak(DataAcknowledgement::from_header(
            header[0], header[1], header[2], header[3],
        )),
        0x8 => Tpdu::Dr(known_disconnect(at, header, user)),
        0xC => Tpdu::Dc(DisconnectConfirm {
            destination: reference(1, header),
            source: reference(3, header),
        }),
        0xF if header.len() == 2 => Tpdu::Dt0(DataClass0 {
            end: header[1] >= 0x80,
            user,
        }),
        0xF => Tpdu::Dt2(DataClass2 {
            destination: reference(1, header),
            number: number(header[3]),
            end: header[3] >= 0x80,
            user,
        }),
        _ => Tpdu::Er(known_error(at, header)),
    }
}
