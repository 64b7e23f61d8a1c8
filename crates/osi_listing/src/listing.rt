//! The lines of a packet, of its transport units, and of what they add to their streams.

ghost use Rattle.std.specs.Prelude.{◌≡◌, ◌<◌, ◌+◌, ◌^◌, ◌++◌, ◌∷◌, [], ℕ, List, length, map, option_to_list, Err, IfSome, OnOk};
ghost use Rattle.osi_tpdu.specs.Packet.{units_of};
ghost use Rattle.osi_tpdu.specs.Units.{units_left};
ghost use Rattle.osi_tpdu.specs.View.{value};
ghost use Rattle.osi_spdu.specs.Groups.{units_behind, units_of as units_in};
ghost use Rattle.osi_spdu.specs.Reading.{tsdu_at};
ghost use Rattle.osi_listing.specs.Joins.{outcome_value};
ghost use Rattle.osi_listing.specs.Listing.{session_entries, outcome_entries, part_entries, unit_entries, read_entries, read_parts};
ghost use Rattle.osi_listing.specs.Listing.Entry.{Packet, TransportUnit, Tsdu, SessionFault, SessionUnit};
ghost use Rattle.osi_listing.specs.Says.{Says, Holds};
ghost use Rattle.osi_listing.specs.Streams.{Part, part_of, parts_of};

use crate::counting::Counts;
use crate::lines::{push_packet, push_too_long, push_tsdu, push_unit_fault};
use crate::plain::{list_ack, list_data, list_point};
use crate::session_lines::{push_session_fault, push_session_unit};
use crate::streams::{Outcome, Streams};
use crate::units::push_unit;
use osi_message::PlainUnit;
use osi_spdu::{Behind, Group, SpduFault, read_group};
use osi_tpdu::{DataClass0, Tpdu, Units, read_units};
use std::alloc::{AllocError, Global};

/// Lists a packet, by its offset in the stream and its transport unit.
pub(crate) fn list_packet(
    alloc: Global,
    text: &mut Vec<u8>,
    streams: &mut Streams,
    counts: &mut Counts,
    offset: u64,
    unit: &[u8],
) -> Result<(), AllocError>
    requires some { 1 < length unit.now }
    requires fits { length unit.now + 4 < 2 ^ 64 }
    ensures says { OnOk result ((earlier : List Part) → Holds streams.old earlier →
        Says text.old.items text.new.items counts.old counts.new
        (Packet offset unit.now ∷ read_entries earlier (units_of unit.now))) }
    ensures holds { OnOk result ((earlier : List Part) → Holds streams.old earlier →
        Holds streams.new (earlier ++ read_parts (units_of unit.now))) }
{
    push_packet(text, offset, unit)?;
    counts.add_packet();
    list_units(alloc, text, streams, counts, unit)
}

/// Lists the units of a packet, or only their fault.
#[inline(always)]
#[tactic(auto, using(crate::proofs::units_one_after_the_other::entries_of_one, crate::proofs::units_one_after_the_other::parts_of_one))]
fn list_units(
    alloc: Global,
    text: &mut Vec<u8>,
    streams: &mut Streams,
    counts: &mut Counts,
    unit: &[u8],
) -> Result<(), AllocError>
    ensures says { OnOk result ((earlier : List Part) → Holds streams.old earlier →
        Says text.old.items text.new.items counts.old counts.new (read_entries earlier (units_of unit.now))) }
    ensures holds { OnOk result ((earlier : List Part) → Holds streams.old earlier →
        Holds streams.new (earlier ++ read_parts (units_of unit.now))) }
{
    match DataClass0::from_packet(unit) {
        Some(data) => list_unit(alloc, text, streams, counts, &Tpdu::Dt0(data)),
        None => list_any_units(alloc, text, streams, counts, unit),
    }
}

/// Lists the units of any packet, or only their fault.
// It is not inlined: other units need much room, and nearly all packets have one DT.
#[inline(never)]
fn list_any_units(
    alloc: Global,
    text: &mut Vec<u8>,
    streams: &mut Streams,
    counts: &mut Counts,
    unit: &[u8],
) -> Result<(), AllocError>
    ensures says { OnOk result ((earlier : List Part) → Holds streams.old earlier →
        Says text.old.items text.new.items counts.old counts.new (read_entries earlier (units_of unit.now))) }
    ensures holds { OnOk result ((earlier : List Part) → Holds streams.old earlier →
        Holds streams.new (earlier ++ read_parts (units_of unit.now))) }
{
    match read_units(unit) {
        Ok(units) => list_each(alloc, text, streams, counts, units),
        Err(fault) => {
            counts.add_refused();
            push_unit_fault(text, fault)
        }
    }
}

/// Lists units, one after the other.
fn list_each(
    alloc: Global,
    text: &mut Vec<u8>,
    streams: &mut Streams,
    counts: &mut Counts,
    mut units: Units,
) -> Result<(), AllocError>
    ensures says { OnOk result ((earlier : List Part) → Holds streams.old earlier →
        Says text.old.items text.new.items counts.old counts.new (unit_entries earlier (units_left units.entry))) }
    ensures holds { OnOk result ((earlier : List Part) → Holds streams.old earlier →
        Holds streams.new (earlier ++ parts_of (units_left units.entry))) }
{
    'units: while let Some(unit) = units.next() {
        list_unit(alloc, text, streams, counts, &unit)?;
    }
    Ok(())
}

/// Lists one unit, and what it adds to its stream.
#[inline(always)]
fn list_unit(
    alloc: Global,
    text: &mut Vec<u8>,
    streams: &mut Streams,
    counts: &mut Counts,
    unit: &Tpdu,
) -> Result<(), AllocError>
    ensures says { OnOk result ((earlier : List Part) → Holds streams.old earlier →
        Says text.old.items text.new.items counts.old counts.new
        (TransportUnit (value unit.now) ∷ part_entries earlier (part_of (value unit.now)))) }
    ensures holds { OnOk result ((earlier : List Part) → Holds streams.old earlier →
        Holds streams.new (earlier ++ option_to_list (part_of (value unit.now)))) }
{
    push_unit(text, unit)?;
    counts.add_unit();
    list_part(alloc, text, streams, counts, unit)
}

/// Lists what a unit adds to its stream. A TSDU of one part is listed where it is; others are joined first.
#[inline(always)]
fn list_part(
    alloc: Global,
    text: &mut Vec<u8>,
    streams: &mut Streams,
    counts: &mut Counts,
    unit: &Tpdu,
) -> Result<(), AllocError>
    ensures says { OnOk result ((earlier : List Part) → Holds streams.old earlier →
        Says text.old.items text.new.items counts.old counts.new (part_entries earlier (part_of (value unit.now)))) }
    ensures holds { OnOk result ((earlier : List Part) → Holds streams.old earlier →
        Holds streams.new (earlier ++ option_to_list (part_of (value unit.now)))) }
{
    if let Some(tsdu) = streams.lone_tsdu(unit) {
        return list_tsdu(text, counts, tsdu);
    }
    let outcome = streams.take(alloc, unit)?;
    list_outcome(text, counts, &outcome)
}

/// Lists what a unit added to its stream.
fn list_outcome(
    text: &mut Vec<u8>,
    counts: &mut Counts,
    outcome: &Outcome,
) -> Result<(), AllocError>
    ensures { OnOk result (Says text.old.items text.new.items counts.old counts.new
        (outcome_entries (outcome_value outcome.now))) }
{
    match outcome {
        Outcome::Nothing => Ok(()),
        Outcome::Whole(tsdu) => list_tsdu(text, counts, tsdu.as_slice()),
        Outcome::TooLong => {
            counts.add_refused();
            push_too_long(text)
        }
    }
}

/// Lists a complete TSDU, and its session units or only their fault.
fn list_tsdu(text: &mut Vec<u8>, counts: &mut Counts, tsdu: &[u8]) -> Result<(), AllocError>
    ensures { OnOk result (Says text.old.items text.new.items counts.old counts.new
        (Tsdu tsdu.now ∷ session_entries (tsdu_at tsdu.now))) }
{
    push_tsdu(text, tsdu.len() as u64)?;
    counts.add_tsdu();
    if let Some(fault) = fault_if_empty(tsdu) {
        return list_fault(text, counts, fault);
    }
    list_session_units(text, counts, tsdu)
}

/// The fault of an empty TSDU, which needs no reading.
#[inline(always)]
#[tactic(auto, using(crate::proofs::units_one_after_the_other::nothing_read))]
fn fault_if_empty(tsdu: &[u8]) -> Option<SpduFault>
    ensures { IfSome result (λ fault. tsdu_at tsdu.now ≡ Err fault) }
{
    if tsdu.is_empty() {
        Some(SpduFault::LengthPastEnd(0))
    } else {
        None
    }
}

/// Lists the fault of the session units of a TSDU.
#[inline(always)]
fn list_fault(text: &mut Vec<u8>, counts: &mut Counts, fault: SpduFault) -> Result<(), AllocError>
    ensures { OnOk result (Says text.old.items text.new.items counts.old counts.new
        (SessionFault fault ∷ [])) }
{
    counts.add_refused();
    push_session_fault(text, fault)
}

/// Lists the session units of a TSDU, or only their fault. Data, and minor points and their confirmations, are frequent, and are
/// listed by what their octets are.
fn list_session_units(
    text: &mut Vec<u8>,
    counts: &mut Counts,
    tsdu: &[u8],
) -> Result<(), AllocError>
    ensures { OnOk result (Says text.old.items text.new.items counts.old counts.new
        (session_entries (tsdu_at tsdu.now))) }
{
    if let Some(user_data) = PlainUnit::data(tsdu) {
        return list_data(text, counts, tsdu, user_data);
    }
    if let Some(number) = PlainUnit::minor_point(tsdu) {
        return list_point(text, counts, tsdu, number);
    }
    if let Some(number) = PlainUnit::minor_ack(tsdu) {
        return list_ack(text, counts, tsdu, number);
    }
    list_any_session_units(text, counts, tsdu)
}

/// Lists the session units of any TSDU, or only their fault.
// It is not inlined: the units that it reads need much room, and an empty TSDU has none.
#[inline(never)]
fn list_any_session_units(
    text: &mut Vec<u8>,
    counts: &mut Counts,
    tsdu: &[u8],
) -> Result<(), AllocError>
    ensures { OnOk result (Says text.old.items text.new.items counts.old counts.new
        (session_entries (tsdu_at tsdu.now))) }
{
    let read = read_group(tsdu);
    // The units are lent from where they were read: their parameters need much room, so a copy costs much.
    match &read {
        Ok(group) => list_group(text, counts, group),
        Err(fault) => list_fault(text, counts, *fault),
    }
}

/// Lists the session units of a TSDU. Almost every TSDU has one or two, so these are listed before the loop over others.
#[inline(always)]
fn list_group(text: &mut Vec<u8>, counts: &mut Counts, group: &Group) -> Result<(), AllocError>
    ensures { OnOk result (Says text.old.items text.new.items counts.old counts.new
        (map SessionUnit (units_in group.now))) }
{
    push_session_unit(text, group.first())?;
    counts.add_session_unit();
    let Some(second) = group.second() else {
        return Ok(());
    };
    push_session_unit(text, second)?;
    counts.add_session_unit();
    list_more(text, counts, group.after_second())
}

/// Lists the session units after the second one.
fn list_more(text: &mut Vec<u8>, counts: &mut Counts, mut left: Behind) -> Result<(), AllocError>
    ensures { OnOk result (Says text.old.items text.new.items counts.old counts.new
        (map SessionUnit (units_behind left.entry))) }
{
    'units: while let Some(unit) = left.next() {
        push_session_unit(text, &unit)?;
        counts.add_session_unit();
    }
    Ok(())
}
