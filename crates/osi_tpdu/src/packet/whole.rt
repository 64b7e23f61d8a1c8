//! Reading all units of a packet.

ghost use Rattle.std.specs.Prelude.{◌≡◌, true, List, Err, IfOk, IfErr, IsOk, IsOkAnd, OnErr, MatchResult};
ghost use Rattle.osi_tpdu.specs.Packet.{AreUnits, IsFirstFault, units_of};
ghost use Rattle.osi_tpdu.specs.Reading.{ReadsAs};
ghost use Rattle.osi_tpdu.specs.Units.{units_left};
ghost use Rattle.osi_tpdu.specs.Value.{Value};

use super::Units;
use crate::faults::TpduFault;
use crate::reading::read_unit;

// Whether a packet is one DT, as nearly all are: then it has to be looked at no further.
#[inline(always)]
#[tactic(auto, using(crate::proofs::packets_of_one_dt_or_ak::data0_read, crate::proofs::packets_of_one_dt_or_ak::data2_read))]
fn is_one_dt(packet: &[u8]) -> bool
    ensures { result ≡ true → IsOk (units_of packet.now) }
{
    match packet {
        [first, 0xF0, _, ..] => *first == 2 || (*first == 4 && packet.len() >= 5),
        _ => false,
    }
}

// Reads a packet to its end, or to its first fault.
#[inline(always)]
fn read_to_end(packet: &[u8]) -> Result<(), TpduFault>
    ensures { MatchResult result (λ _. IsOk (units_of packet.now)) (λ f. units_of packet.now ≡ Err f) }
{
    if is_one_dt(packet) || has_good_units(packet) {
        return Ok(());
    }
    read_each(packet)
}

// Whether the units of a packet can be read. It says nothing of the fault, so that no offset has to be kept.
#[inline(always)]
fn has_good_units(packet: &[u8]) -> bool
    ensures { result ≡ true → IsOk (units_of packet.now) }
{
    let mut at = 0;
    let mut rest = packet;
    'units: loop {
        let Ok((_, used)) = read_unit(at, rest) else {
            return false;
        };
        let (_, behind) = rest.split_at(used);
        if behind.is_empty() {
            return true;
        }
        at += used;
        rest = behind;
    }
}

// Reads the units of a packet one after the other, up to the first fault. It stands apart, since few packets have one.
#[inline(never)]
fn read_each(packet: &[u8]) -> Result<(), TpduFault>
    ensures { MatchResult result (λ _. IsOk (units_of packet.now)) (λ f. units_of packet.now ≡ Err f) }
{
    let mut at = 0;
    let mut rest = packet;
    'units: loop {
        let (_, used) = read_unit(at, rest)?;
        let (_, behind) = rest.split_at(used);
        if behind.is_empty() {
            return Ok(());
        }
        at += used;
        rest = behind;
    }
}

/// The units that the octets of a packet spell, one after the other: AK, DC and ER in any number, and then at most one
/// CR, CC, DR or DT, but at least one unit (X.224 section 6.4). If one of them is bad, no unit is given, and the `Err`
/// names the first fault.
#[inline(always)]
pub fn read_units(packet: &[u8]) -> Result<Units<'_>, TpduFault>
    // Every list of units that is given is spelled by the packet, and every list that it spells is given.
    ensures found { IfOk result (λ u. AreUnits (units_left u) packet.now) }
    ensures only { (vs : List Value) → AreUnits vs packet.now → IsOkAnd result (λ u. units_left u ≡ vs) }
    ensures refused { OnErr result ((vs : List Value) → ¬ (AreUnits vs packet.now)) }
    // The fault is the first one, in the order of the octets.
    ensures first { IfErr result (λ f. IsFirstFault packet.now f) }
    ensures exact { ReadsAs units_left result (units_of packet.now) }
{
    read_to_end(packet)?;
    Ok(Units {
        at: 0,
        rest: packet,
    })
}
