//! Data in parts (X.225 section 8, enclosure item): how each part is written, and where data is cut.

ghost use Rattle.std.specs.Prelude.{◌≡◌, ◌<◌, ◌++◌, [], ◌∷◌, length, map, IfOk, OnOk};
ghost use Rattle.osi_message.specs.Parting.{pieces, parts_of};
ghost use Rattle.osi_message.specs.Words.{enclosure_of, part_octets, word_octets};

use crate::places::Place;
use std::alloc::{AllocError, Global};

/// The code of an enclosure.
const ENCLOSURE: u8 = 0x19;

/// The octet of an enclosure.
fn enclosure(place: Place) -> u8
    ensures { result ≡ enclosure_of place }
{
    match place {
        Place::Middle => 0,
        Place::First => 1,
        Place::Last => 2,
    }
}

/// The octets of a TSDU with a part of one Data.
fn part(alloc: Global, place: Place, user_data: &[u8]) -> Result<Vec<u8>, AllocError>
    ensures { IfOk result (λ v. v.items ≡ part_octets place user_data.now) }
{
    let mut octets = Vec::with_capacity(alloc, 7 + user_data.len())?;
    octets.extend_from_slice(&[1, 0, 1, 3, ENCLOSURE, 1, enclosure(place)])?;
    octets.extend_from_slice(user_data)?;
    Ok(octets)
}

/// Adds the TSDU of a part after the others.
fn put_part(
    alloc: Global,
    place: Place,
    user_data: &[u8],
    tsdus: &mut Vec<Vec<u8>>,
) -> Result<(), AllocError>
    ensures { OnOk result (map (λ v. v.items) tsdus.new.items ≡ map (λ v. v.items) tsdus.old.items
        ++ part_octets place user_data.now ∷ []) }
{
    let octets = part(alloc, place, user_data)?;
    tsdus.push(octets)?;
    Ok(())
}

/// The TSDUs of the parts of a Data, each with `size` of its octets; the last has the rest. It is kept out of line,
/// because whole data is more common.
#[inline(never)]
pub(crate) fn parts(
    alloc: Global,
    size: usize,
    user_data: &[u8],
) -> Result<Vec<Vec<u8>>, AllocError>
    requires some { 0 < size }
    requires long { size < length user_data.now }
    ensures tsdus { IfOk result (λ v. map (λ t. t.items) v.items
        ≡ map word_octets (parts_of (pieces (length user_data.now) size user_data.now))) }
    ensures several { IfOk result (λ v. 1 < length v.items) }
{
    let mut tsdus = Vec::new(alloc);
    let (first, behind) = user_data.split_at(size);
    put_part(alloc, Place::First, first, &mut tsdus)?;
    let mut rest = behind;
    'pieces: while rest.len() > size {
        let (piece, behind) = rest.split_at(size);
        put_part(alloc, Place::Middle, piece, &mut tsdus)?;
        rest = behind;
    }
    put_part(alloc, Place::Last, rest, &mut tsdus)?;
    Ok(tsdus)
}
