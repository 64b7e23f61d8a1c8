//! Units written after those that are still to be sent to the peer, each in a packet of its own.

ghost use Rattle.std.specs.Prelude.{◌≡◌, ◌+◌, ◌≤◌, ◌<◌, ◌∷◌, ◌++◌, [], length, option_map, option_copied, IfSome, OnOk, OnErr};
ghost use Rattle.osi_unit.specs.Octets.{IsOctets};
ghost use Rattle.osi_tpdu.specs.Limits.{size_code, selector_octets};
ghost use Rattle.osi_tpdu.specs.Value.{user_data, request, confirm, disconnect, disconnected, AreParameters, IsConnect, IsReference};
ghost use Rattle.osi_tpdu.specs.View.{value, parameter_values, request_content, confirm_content};
ghost use Rattle.osi_tpdu.specs.Writing.{Fits, HasFewClasses};
ghost use Rattle.osi_class.specs.Giving.{number_in, IsNumbered};
ghost use Rattle.osi_class.specs.Link.{FitsAUnit, given, part_under, unit_of};
ghost use Rattle.osi_carrier.specs.State.{packets};

use bytes::BytesMut;
use osi_class::{Out, Slot};
use osi_tpdu::laws::written_form;
use osi_tpdu::{
    ConnectConfirm, ConnectParameters, ConnectRequest, DataAcknowledgement, DataClass0, DataClass2,
    DisconnectConfirm, DisconnectRequest, Selector, SizeCode, Tpdu,
};
use osi_tpkt::laws::are_octets;
use osi_tpkt::{WriteError, write_in_packet};
use std::alloc::AllocError;

/// Appends a unit in its packet. An allocation failure leaves the octets of `out` as they were.
#[tactic(auto, using(crate::proofs::written::the_length_of_a_unit::one_packet_of, crate::proofs::written::the_length_of_a_unit::written_least, crate::proofs::written::the_length_of_a_unit::written_most))]
pub fn put(out: &mut BytesMut, unit: &Tpdu<'_>) -> Result<(), AllocError>
    requires fits { Fits (value unit.now) }
    requires short { length (user_data (value unit.now)) ≤ 8192 }
    ensures ok { OnOk result (out.new.items ≡ out.old.items ++ packets (value unit.now ∷ [])) }
    ensures err { OnErr result (out.new.items ≡ out.old.items) }
    ensures spare { OnOk result (out.old.spare ≤ out.new.spare + length (packets (value unit.now ∷ []))) }
    ensures full { OnErr result (out.old.spare < length (packets (value unit.now ∷ []))) }
{
    match write_in_packet(out, unit) {
        Ok(()) => Ok(()),
        Err(WriteError::OutOfMemory) => Err(AllocError),
        Err(WriteError::BadSize) => unreachable!(),
    }
}

/// Appends a DR without user data (X.224 section 13.5).
pub fn put_disconnect(
    out: &mut BytesMut,
    destination: u16,
    source: u16,
    reason: u8,
) -> Result<(), AllocError>
    ensures ok { OnOk result (out.new.items ≡ out.old.items ++ packets (disconnect destination source reason [] ∷ [])) }
    ensures err { OnErr result (out.new.items ≡ out.old.items) }
    ensures full { OnErr result (out.old.spare < length (packets (disconnect destination source reason [] ∷ []))) }
{
    let unit = Tpdu::Dr(DisconnectRequest {
        destination,
        source,
        reason,
        user: &[],
    });
    put(out, &unit)
}

/// Appends a DC (X.224 section 13.6).
pub fn put_disconnected(out: &mut BytesMut, destination: u16, source: u16) -> Result<(), AllocError>
    ensures ok { OnOk result (out.new.items ≡ out.old.items ++ packets (disconnected destination source ∷ [])) }
    ensures err { OnErr result (out.new.items ≡ out.old.items) }
{
    let unit = Tpdu::Dc(DisconnectConfirm {
        destination,
        source,
    });
    put(out, &unit)
}

// ---- what a CR or CC holds is in the range of its fields. These functions do nothing: to name a
// value gives a proof the facts of its type.

fn check_size(size: Option<SizeCode>)
    ensures { IfSome (option_map size_code size) (λ code. (7 ≤ code) × (code ≤ 13)) }
{
    if let Some(size) = size {
        let _code = size.code();
    }
}

fn check_selector(selector: Option<Selector<'_>>)
    ensures { IfSome (option_map selector_octets selector.entry) (λ s. (length s ≤ 32) × IsOctets s) }
{
    if let Some(selector) = selector {
        are_octets(selector.octets());
    }
}

fn check_options(options: Option<u8>)
    ensures { IfSome options (λ n. n < 256) }
{
    if let Some(options) = options {
        let _options = options;
    }
}

fn check_classes(classes: Option<&[u8]>)
    ensures { IfSome (option_copied classes.entry) IsOctets }
{
    if let Some(classes) = classes {
        are_octets(classes);
    }
}

fn check_parameters(p: &ConnectParameters<'_>)
    ensures { AreParameters (parameter_values p.now) }
{
    check_size(p.size);
    check_selector(p.calling);
    check_selector(p.called);
    check_options(p.additional_options);
    check_classes(p.alternative_classes);
}

fn check_request(unit: &ConnectRequest<'_>)
    ensures { IsConnect (request_content unit.now) }
{
    let _source = unit.fields.source;
    check_parameters(&unit.fields.parameters);
    are_octets(unit.fields.user);
}

fn check_confirm(unit: &ConnectConfirm<'_>)
    ensures content { IsConnect (confirm_content unit.now) }
    ensures destination { IsReference unit.now.destination }
{
    let _source = unit.fields.source;
    let _destination = unit.destination;
    check_parameters(&unit.fields.parameters);
    are_octets(unit.fields.user);
}

/// Appends a CR without user data (X.224 section 13.3); its alternative classes are few.
pub fn put_request(out: &mut BytesMut, unit: &ConnectRequest<'_>) -> Result<(), AllocError>
    requires few { HasFewClasses (request (request_content unit.now)) }
    requires user { unit.now.fields.user.now ≡ [] }
    ensures ok { OnOk result (out.new.items ≡ out.old.items ++ packets (request (request_content unit.now) ∷ [])) }
    ensures err { OnErr result (out.new.items ≡ out.old.items) }
{
    written_form();
    check_request(unit);
    let unit = Tpdu::Cr(*unit);
    put(out, &unit)
}

/// Appends a CC without user data (X.224 section 13.4); its alternative classes are few.
pub fn put_confirm(out: &mut BytesMut, unit: &ConnectConfirm<'_>) -> Result<(), AllocError>
    requires few { HasFewClasses (confirm unit.now.destination (confirm_content unit.now)) }
    requires user { unit.now.fields.user.now ≡ [] }
    ensures ok { OnOk result (out.new.items ≡ out.old.items ++ packets (confirm unit.now.destination (confirm_content unit.now) ∷ [])) }
    ensures err { OnErr result (out.new.items ≡ out.old.items) }
{
    written_form();
    check_confirm(unit);
    let unit = Tpdu::Cc(*unit);
    put(out, &unit)
}

/// Appends a unit that a link gave, to this reference of the peer.
#[inline(always)]
#[tactic(auto, using(crate::proofs::written::the_length_of_a_unit::one_packet_of, crate::proofs::written::the_length_of_a_unit::given_size))]
pub fn put_given(out: &mut BytesMut, peer: u16, unit: &Out<'_>) -> Result<(), AllocError>
    requires { FitsAUnit unit.now }
    ensures ok { OnOk result (out.new.items ≡ out.old.items ++ packets (unit_of peer (given unit.now) ∷ [])) }
    ensures err { OnErr result (out.new.items ≡ out.old.items) }
    ensures spare { OnOk result (out.old.spare ≤ out.new.spare + length (packets (unit_of peer (given unit.now) ∷ []))) }
    ensures full { OnErr result (out.old.spare < length (packets (unit_of peer (given unit.now) ∷ []))) }
{
    match *unit {
        Out::Data0 { end, octets } => DataClass0 { end, user: octets }.write_packet(out),
        Out::Data2 {
            number,
            end,
            octets,
        } => {
            let data = DataClass2 {
                destination: peer,
                number,
                end,
                user: octets,
            };
            data.write_packet(out)
        }
        Out::Ack { number, credit } => {
            let ack = DataAcknowledgement {
                credit,
                destination: peer,
                number,
            };
            ack.write_packet(out)
        }
    }
}

/// Appends the data unit of a slot, to this reference of the peer, with octets that are given in two pieces. There is
/// room for it.
#[inline(always)]
#[tactic(auto, using(crate::proofs::written::the_length_of_a_unit::one_packet_of, crate::proofs::written::the_length_of_a_unit::given_size))]
pub fn put_part(out: &mut BytesMut, peer: u16, slot: Slot, end: bool, head: &[u8], body: &[u8])
    requires number { IsNumbered slot }
    requires fits { length head.now + length body.now ≤ 8189 }
    requires room { length (packets (unit_of peer (part_under (number_in slot) end (head.now ++ body.now)) ∷ [])) ≤ out.old.spare }
    ensures items { out.new.items ≡ out.old.items ++ packets (unit_of peer (part_under (number_in slot) end (head.now ++ body.now)) ∷ []) }
    ensures spare { out.old.spare ≤ out.new.spare
        + length (packets (unit_of peer (part_under (number_in slot) end (head.now ++ body.now)) ∷ [])) }
{
    match slot {
        Slot::Data0 => DataClass0 { end, user: body }.put_packet_behind(head, out),
        Slot::Data2(number) => {
            let data = DataClass2 {
                destination: peer,
                number,
                end,
                user: body,
            };
            data.put_packet_behind(head, out);
        }
    }
}
