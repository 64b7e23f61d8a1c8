//! Writing one unit, in the one form that this library writes (X.224 section 13).

ghost use Rattle.std.specs.Prelude.{ℕ, ◌≡◌, ◌+◌, ◌*◌, ◌<◌, ◌≤◌, ◌^◌, ◌++◌, ◌∷◌, [], length, Ok, IsOk, IfSome, OnOk, OnErr, option_copied};
ghost use Rattle.std.specs.Prelude.{option_map};
ghost use Rattle.std.specs.List.{flat_map};
ghost use Rattle.bytes.specs.Filled.{UsesSpare};
ghost use Rattle.osi_unit.specs.Octets.{IsOctets};
ghost use Rattle.osi_tpdu.specs.Limits.{size_code, selector_octets};
ghost use Rattle.osi_tpdu.specs.Packet.{units_of};
ghost use Rattle.osi_tpdu.specs.Spelling.{item_octets, single, Spells};
ghost use Rattle.osi_tpdu.specs.Value.{request, confirm, disconnect, disconnected, data0, data2, acknowledge, error, AreParameters};
ghost use Rattle.osi_tpdu.specs.Value.{IsConnect, HasFieldsInRange};
ghost use Rattle.osi_tpdu.specs.View.{parameter_values, connect_content, request_content, confirm_content, value};
ghost use Rattle.osi_tpdu.specs.Writing.{items_of, written_items, connect_header, written_header, written, HasRoom};

use crate::acknowledgement::DataAcknowledgement;
use crate::connect::{ConnectFields, ConnectParameters};
use crate::connect_confirm::ConnectConfirm;
use crate::connect_request::ConnectRequest;
use crate::data_class_0::DataClass0;
use crate::data_class_2::DataClass2;
use crate::disconnect_confirm::DisconnectConfirm;
use crate::disconnect_request::DisconnectRequest;
use crate::limits::SizeCode;
use crate::octets::{high_octet, low_octet, with_bit};
use crate::parameters::{ADDITIONAL_OPTIONS, ALTERNATIVE_CLASSES, CALLED, CALLING, SIZE};
use crate::report::ErrorReport;
use crate::tsaps::Selector;
use crate::unit::Tpdu;
use bytes::BytesMut;
use std::alloc::AllocError;

// ---- the length of the parameters

fn size_len(size: Option<SizeCode>) -> usize
    ensures value { result ≡ length (flat_map item_octets (items_of SIZE (single (option_map size_code size)))) }
    ensures most { result ≤ 3 }
{
    match size {
        Some(_) => 3,
        None => 0,
    }
}

fn selector_len(selector: Option<Selector<'_>>) -> usize
    ensures value { (code : ℕ) → result ≡ length (flat_map item_octets (items_of code (option_map selector_octets selector.entry))) }
    ensures most { result ≤ 34 }
{
    match selector {
        Some(selector) => 2 + selector.octets().len(),
        None => 0,
    }
}

fn options_len(options: Option<u8>) -> usize
    ensures value { result ≡ length (flat_map item_octets (items_of ADDITIONAL_OPTIONS (single options))) }
    ensures most { result ≤ 3 }
{
    match options {
        Some(_) => 3,
        None => 0,
    }
}

fn classes_len(classes: Option<&[u8]>) -> usize
    ensures value { result ≡ length (flat_map item_octets (items_of ALTERNATIVE_CLASSES (option_copied classes.entry))) }
    ensures most { result ≤ 2 ^ 63 + 1 }
{
    match classes {
        Some(classes) => 2 + classes.len(),
        None => 0,
    }
}

fn parameters_len(p: &ConnectParameters<'_>) -> usize
    ensures value { result ≡ length (flat_map item_octets (written_items (parameter_values p.now))) }
    ensures most { result ≤ 2 ^ 63 + 80 }
{
    size_len(p.size)
        + selector_len(p.calling)
        + selector_len(p.called)
        + options_len(p.additional_options)
        + classes_len(p.alternative_classes)
}

// ---- octets and parameters, if there is room for them

fn put_octets(out: &mut BytesMut, octets: &[u8])
    requires { length octets.now ≤ out.old.spare }
    ensures items { out.new.items ≡ out.old.items ++ octets.now }
    ensures spare { out.new.spare + length octets.now ≡ out.old.spare }
    ensures in_range { IsOctets octets.now }
{
    out.extend_reserved(octets);
}

fn put_item(out: &mut BytesMut, code: u8, value: &[u8])
    requires counted { length value.now < 256 }
    requires room { 2 + length value.now ≤ out.old.spare }
    ensures items { out.new.items ≡ out.old.items ++ item_octets (record { code = code; value = value.now }) }
    ensures spare { out.new.spare + (2 + length value.now) ≡ out.old.spare }
    ensures in_range { IsOctets value.now }
{
    out.extend_reserved(&[code, value.len() as u8]);
    put_octets(out, value);
}

fn put_size(out: &mut BytesMut, size: Option<SizeCode>)
    requires { length (flat_map item_octets (items_of SIZE (single (option_map size_code size)))) ≤ out.old.spare }
    ensures items { out.new.items ≡ out.old.items ++ flat_map item_octets (items_of SIZE (single (option_map size_code size))) }
    ensures spare { out.new.spare + length (flat_map item_octets (items_of SIZE (single (option_map size_code size)))) ≡ out.old.spare }
    ensures in_range { IfSome (option_map size_code size) (λ code. (7 ≤ code) × (code ≤ 13)) }
{
    if let Some(size) = size {
        put_item(out, SIZE, &[size.code()]);
    }
}

fn put_selector(out: &mut BytesMut, code: u8, selector: Option<Selector<'_>>)
    requires { length (flat_map item_octets (items_of code (option_map selector_octets selector))) ≤ out.old.spare }
    ensures items { out.new.items ≡ out.old.items ++ flat_map item_octets (items_of code (option_map selector_octets selector.entry)) }
    ensures spare { out.new.spare + length (flat_map item_octets (items_of code (option_map selector_octets selector.entry)))
        ≡ out.old.spare }
    ensures in_range { IfSome (option_map selector_octets selector.entry) (λ s. (length s ≤ 32) × IsOctets s) }
{
    if let Some(selector) = selector {
        put_item(out, code, selector.octets());
    }
}

fn put_options(out: &mut BytesMut, options: Option<u8>)
    requires { length (flat_map item_octets (items_of ADDITIONAL_OPTIONS (single options))) ≤ out.old.spare }
    ensures items { out.new.items ≡ out.old.items ++ flat_map item_octets (items_of ADDITIONAL_OPTIONS (single options)) }
    ensures spare { out.new.spare + length (flat_map item_octets (items_of ADDITIONAL_OPTIONS (single options))) ≡ out.old.spare }
    ensures in_range { IfSome options (λ n. n < 256) }
{
    if let Some(options) = options {
        put_item(out, ADDITIONAL_OPTIONS, &[options]);
    }
}

fn put_classes(out: &mut BytesMut, classes: Option<&[u8]>)
    requires counted { length (flat_map item_octets (items_of ALTERNATIVE_CLASSES (option_copied classes))) ≤ 254 }
    requires room { length (flat_map item_octets (items_of ALTERNATIVE_CLASSES (option_copied classes))) ≤ out.old.spare }
    ensures items { out.new.items ≡ out.old.items ++ flat_map item_octets (items_of ALTERNATIVE_CLASSES (option_copied classes.entry)) }
    ensures spare { out.new.spare + length (flat_map item_octets (items_of ALTERNATIVE_CLASSES (option_copied classes.entry)))
        ≡ out.old.spare }
    ensures in_range { IfSome (option_copied classes.entry) IsOctets }
{
    if let Some(classes) = classes {
        put_item(out, ALTERNATIVE_CLASSES, classes);
    }
}

fn put_parameters(out: &mut BytesMut, p: &ConnectParameters<'_>)
    requires counted { length (flat_map item_octets (written_items (parameter_values p.now))) ≤ 254 }
    requires room { length (flat_map item_octets (written_items (parameter_values p.now))) ≤ out.old.spare }
    ensures items { out.new.items ≡ out.old.items ++ flat_map item_octets (written_items (parameter_values p.now)) }
    ensures spare { out.new.spare + length (flat_map item_octets (written_items (parameter_values p.now))) ≡ out.old.spare }
    ensures in_range { AreParameters (parameter_values p.now) }
{
    put_size(out, p.size);
    put_selector(out, CALLING, p.calling);
    put_selector(out, CALLED, p.called);
    put_options(out, p.additional_options);
    put_classes(out, p.alternative_classes);
}

// ---- units, if there is room for them

// A CR or CC, by its code and DST-REF.
fn put_connect(out: &mut BytesMut, code: u8, destination: u16, c: &ConnectFields<'_>)
    requires code { code ≤ 240 }
    requires counted { length (connect_header code destination (connect_content c.now)) ≤ 254 }
    requires room { 1 + length (connect_header code destination (connect_content c.now)) + length c.now.user.now ≤ out.old.spare }
    ensures items { out.new.items ≡ out.old.items
        ++ length (connect_header code destination (connect_content c.now)) ∷ connect_header code destination (connect_content c.now)
        ++ c.now.user.now }
    ensures spare { out.new.spare + (1 + length (connect_header code destination (connect_content c.now)) + length c.now.user.now)
        ≡ out.old.spare }
    ensures in_range { IsConnect (connect_content c.now) }
{
    let li = (6 + parameters_len(&c.parameters)) as u8;
    let class_octet = c.class * 16 + c.options;
    let (to_high, to_low) = (high_octet(destination), low_octet(destination));
    let (high, low) = (high_octet(c.source), low_octet(c.source));
    out.extend_reserved(&[li, code + c.credit, to_high, to_low, high, low, class_octet]);
    put_parameters(out, &c.parameters);
    put_octets(out, c.user);
}

fn put_request(out: &mut BytesMut, r: &ConnectRequest<'_>)
    requires counted { HasRoom (request (request_content r.now)) }
    requires room { length (written (request (request_content r.now))) ≤ out.old.spare }
    ensures items { out.new.items ≡ out.old.items ++ written (request (request_content r.now)) }
    ensures spare { out.new.spare + length (written (request (request_content r.now))) ≡ out.old.spare }
    ensures in_range { HasFieldsInRange (request (request_content r.now)) }
{
    put_connect(out, 0xE0, 0, &r.fields);
}

fn put_confirm(out: &mut BytesMut, c: &ConnectConfirm<'_>)
    requires counted { HasRoom (confirm c.now.destination (confirm_content c.now)) }
    requires room { length (written (confirm c.now.destination (confirm_content c.now))) ≤ out.old.spare }
    ensures items { out.new.items ≡ out.old.items ++ written (confirm c.now.destination (confirm_content c.now)) }
    ensures spare { out.new.spare + length (written (confirm c.now.destination (confirm_content c.now))) ≡ out.old.spare }
    ensures in_range { HasFieldsInRange (confirm c.now.destination (confirm_content c.now)) }
{
    put_connect(out, 0xD0, c.destination, &c.fields);
}

fn put_disconnect(out: &mut BytesMut, d: &DisconnectRequest<'_>)
    requires { length (written (disconnect d.now.destination d.now.source d.now.reason d.now.user.now)) ≤ out.old.spare }
    ensures items { out.new.items ≡ out.old.items ++ written (disconnect d.now.destination d.now.source d.now.reason d.now.user.now) }
    ensures spare { out.new.spare + length (written (disconnect d.now.destination d.now.source d.now.reason d.now.user.now))
        ≡ out.old.spare }
    ensures in_range { HasFieldsInRange (disconnect d.now.destination d.now.source d.now.reason d.now.user.now) }
{
    let (to_high, to_low) = (high_octet(d.destination), low_octet(d.destination));
    let (high, low) = (high_octet(d.source), low_octet(d.source));
    out.extend_reserved(&[6, 0x80, to_high, to_low, high, low, d.reason]);
    put_octets(out, d.user);
}

fn put_disconnected(out: &mut BytesMut, d: DisconnectConfirm)
    requires { 6 ≤ out.old.spare }
    ensures items { out.new.items ≡ out.old.items ++ written (disconnected d.destination d.source) }
    ensures spare { out.new.spare + length (written (disconnected d.destination d.source)) ≡ out.old.spare }
    ensures in_range { HasFieldsInRange (disconnected d.destination d.source) }
{
    let (to_high, to_low) = (high_octet(d.destination), low_octet(d.destination));
    let (high, low) = (high_octet(d.source), low_octet(d.source));
    out.extend_reserved(&[5, 0xC0, to_high, to_low, high, low]);
}

fn put_data0(out: &mut BytesMut, d: &DataClass0<'_>)
    requires { 3 + length d.now.user.now ≤ out.old.spare }
    ensures items { out.new.items ≡ out.old.items ++ written (data0 d.now.end d.now.user.now) }
    ensures spare { out.new.spare + length (written (data0 d.now.end d.now.user.now)) ≡ out.old.spare }
    ensures in_range { HasFieldsInRange (data0 d.now.end d.now.user.now) }
{
    out.extend_reserved(&[2, 0xF0, with_bit(d.end, 0)]);
    put_octets(out, d.user);
}

fn put_data2(out: &mut BytesMut, d: &DataClass2<'_>)
    requires { 5 + length d.now.user.now ≤ out.old.spare }
    ensures items { out.new.items ≡ out.old.items ++ written (data2 d.now.destination d.now.number d.now.end d.now.user.now) }
    ensures spare { out.new.spare + length (written (data2 d.now.destination d.now.number d.now.end d.now.user.now)) ≡ out.old.spare }
    ensures in_range { HasFieldsInRange (data2 d.now.destination d.now.number d.now.end d.now.user.now) }
{
    let (to_high, to_low) = (high_octet(d.destination), low_octet(d.destination));
    out.extend_reserved(&[4, 0xF0, to_high, to_low, with_bit(d.end, d.number)]);
    put_octets(out, d.user);
}

fn put_acknowledge(out: &mut BytesMut, a: DataAcknowledgement)
    requires { 5 ≤ out.old.spare }
    ensures items { out.new.items ≡ out.old.items ++ written (acknowledge a.credit a.destination a.number) }
    ensures spare { out.new.spare + length (written (acknowledge a.credit a.destination a.number)) ≡ out.old.spare }
    ensures in_range { HasFieldsInRange (acknowledge a.credit a.destination a.number) }
{
    let (to_high, to_low) = (high_octet(a.destination), low_octet(a.destination));
    out.extend_reserved(&[4, 0x60 + a.credit, to_high, to_low, a.number]);
}

fn put_error(out: &mut BytesMut, e: ErrorReport)
    requires { 5 ≤ out.old.spare }
    ensures items { out.new.items ≡ out.old.items ++ written (error e.destination e.cause) }
    ensures spare { out.new.spare + length (written (error e.destination e.cause)) ≡ out.old.spare }
    ensures in_range { HasFieldsInRange (error e.destination e.cause) }
{
    let (to_high, to_low) = (high_octet(e.destination), low_octet(e.destination));
    out.extend_reserved(&[4, 0x70, to_high, to_low, e.cause]);
}

/// The number of octets that `write` appends.
pub fn written_len(unit: &Tpdu<'_>) -> usize
    requires { HasRoom (value unit.now) }
    ensures { result ≡ length (written (value unit.now)) }
{
    match unit {
        Tpdu::Cr(r) => 7 + parameters_len(&r.fields.parameters) + r.fields.user.len(),
        Tpdu::Cc(c) => 7 + parameters_len(&c.fields.parameters) + c.fields.user.len(),
        Tpdu::Dr(d) => 7 + d.user.len(),
        Tpdu::Dc(_) => 6,
        Tpdu::Dt0(d) => 3 + d.user.len(),
        Tpdu::Dt2(d) => 5 + d.user.len(),
        Tpdu::Ak(_) | Tpdu::Er(_) => 5,
    }
}

/// Appends the unit. An `Err` leaves the octets of `out` as they were, and is possible only if `out` had no room.
pub fn write(unit: &Tpdu<'_>, out: &mut BytesMut) -> Result<(), AllocError>
    requires { HasRoom (value unit.now) }
    ensures ok { OnOk result (out.new.items ≡ out.old.items ++ written (value unit.now)) }
    // What is appended spells the unit and reads back as it.
    ensures spelled { OnOk result (Spells (value unit.now) (written (value unit.now))) }
    ensures again { OnOk result (units_of (written (value unit.now)) ≡ Ok (value unit.now ∷ [])) }
    ensures err { OnErr result (out.new.items ≡ out.old.items) }
    ensures full { OnErr result (out.old.spare < length (written (value unit.now))) }
    // If there is room for it, it is written.
    ensures enough { length (written (value unit.now)) ≤ out.old.spare → IsOk result }
    // Spare room of the buffer is used for what is written, and for nothing else.
    ensures spare { UsesSpare result out.old.spare out.new.spare (length (written (value unit.now))) }
{
    out.reserve(written_len(unit))?;
    match unit {
        Tpdu::Cr(r) => put_request(out, r),
        Tpdu::Cc(c) => put_confirm(out, c),
        Tpdu::Dr(d) => put_disconnect(out, d),
        Tpdu::Dc(d) => put_disconnected(out, *d),
        Tpdu::Dt0(d) => put_data0(out, d),
        Tpdu::Dt2(d) => put_data2(out, d),
        Tpdu::Ak(a) => put_acknowledge(out, *a),
        Tpdu::Er(e) => put_error(out, *e),
    }
    Ok(())
}
