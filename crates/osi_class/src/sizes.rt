//! Sizes of units, and the number of parts of a TSDU.

ghost use Rattle.std.specs.Prelude.{◌≡◌, ◌<◌, ◌≤◌, ◌+◌, ◌*◌, ◌^◌, min, nat_le, length, map, IfSome, IfNone, SomeIff};
ghost use Rattle.osi_tpdu.specs.Limits.{size_code};
ghost use Rattle.osi_class.specs.Ends.{unit_size};
ghost use Rattle.osi_class.specs.Giving.{parts_needed, octets_in_parts, units_needed};

use crate::units::Room;
use osi_tpdu::SizeCode;

/// The smaller of two sizes, for example of the proposed one and the one that an end accepts (X.224 section 13.3.4).
pub fn smaller_size(a: SizeCode, b: SizeCode) -> SizeCode
    ensures { size_code result ≡ min (size_code a) (size_code b) }
{
    if a.code() <= b.code() { a } else { b }
}

/// The most octets that a unit has, header included: the selected size, or 128 if none was selected (X.224 section
/// 13.3.4).
pub fn most_octets(size: Option<SizeCode>) -> usize
    ensures value { result ≡ unit_size size }
    ensures at_least { 128 ≤ result }
    ensures at_most { result ≤ 8192 }
{
    match size {
        None => 128,
        Some(code) => code.octets(),
    }
}

/// The number of parts, of at most `limit` octets, into which a TSDU of this many octets is cut.
pub fn count_parts(limit: usize, octets: usize) -> usize
    requires { 123 ≤ limit }
    ensures value { result ≡ parts_needed limit octets }
    ensures at_most { 123 * result ≤ octets + 123 }
{
    octets.saturating_sub(1) / limit + 1
}

/// How much of a TSDU of this many octets is given with this credit, in parts of at most `limit` octets.
#[tactic(auto, using(crate::proofs::giving::the_units_of_one_tsdu::one_unit_carries))]
pub fn room_within(limit: usize, credit: u8, octets: usize) -> Room
    requires at_least { 123 ≤ limit }
    requires at_most { limit ≤ 8189 }
    ensures units { result.units ≡ min (parts_needed limit octets) credit }
    ensures octets { result.octets ≡ min octets (credit * limit) }
    ensures few_units { 123 * result.units ≤ octets + 123 }
    ensures some_octets { 0 < result.units → min 123 octets ≤ result.octets }
{
    let credit = usize::from(credit);
    Room {
        units: count_parts(limit, octets).min(credit),
        octets: octets.min(credit * limit),
    }
}

/// How many octets a TSDU takes in parts of at most `limit` octets, with this many octets of headers for each part.
/// `None` only if they don't fit a `usize`.
fn room_in_parts(limit: usize, headers: u8, octets: usize) -> Option<usize>
    requires { 123 ≤ limit }
    ensures { SomeIff result (octets + parts_needed limit octets * headers < 2 ^ 64) (octets + parts_needed limit octets * headers) }
{
    let parts = count_parts(limit, octets);
    let behind = parts.checked_mul(usize::from(headers))?;
    octets.checked_add(behind)
}

/// How many octets these TSDUs take together in such parts. `None` only if they don't fit a `usize`.
pub fn room_for_parts(limit: usize, headers: u8, tsdus: &[Vec<u8>]) -> Option<usize>
    requires { 123 ≤ limit }
    ensures value { IfSome result (λ room. room ≡ octets_in_parts headers limit (map (λ v. v.items) tsdus.now)) }
    ensures none { IfNone result (2 ^ 64 ≤ octets_in_parts headers limit (map (λ v. v.items) tsdus.now)) }
{
    let mut room: usize = 0;
    'tsdus: for tsdu in tsdus {
        let more = room_in_parts(limit, headers, tsdu.len())?;
        room = room.checked_add(more)?;
    }
    Some(room)
}

/// Whether these TSDUs go in at most this many units, in parts of at most `limit` octets.
pub fn are_few(limit: usize, units: u8, tsdus: &[Vec<u8>]) -> bool
    requires { 123 ≤ limit }
    ensures { result ≡ nat_le (units_needed limit (map (λ v. v.items) tsdus.now)) units }
{
    let mut left = usize::from(units);
    'tsdus: for tsdu in tsdus {
        let parts = count_parts(limit, tsdu.len());
        if parts > left {
            return false;
        }
        left -= parts;
    }
    true
}
