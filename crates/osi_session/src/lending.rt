//! Data that is lent to be sent: where it is cut into parts, and the octets before each part.

ghost use Rattle.std.specs.Prelude.{◌≡◌, ◌<◌, ◌≤◌, ◌-◌, false, true, length};
ghost use Rattle.osi_message.specs.Meanings.{DT};
ghost use Rattle.osi_message.specs.Parting.{is_whole, tsdus_of};
ghost use Rattle.osi_message.specs.Words.{part_head};
ghost use Rattle.osi_message.specs.declared.places.Place.TheVariants.{First, Middle, Last};
ghost use Rattle.osi_session.specs.Lent.{tsdus_lent, FitTsdus};
ghost use Rattle.osi_spdu.specs.Sizes.{size_of};
ghost use Rattle.osi_spdu.specs.Values.{is_size};

use crate::calling::MOST_DATA;
use osi_message::{Place, Sent, data_head};
use osi_spdu::TsduSize;

/// How data is cut into parts (X.225 section 6.3.5, segmenting). The TSDU of each part has the octets of its head, and
/// then the octets of the part.
#[derive(Clone, Copy)]
pub struct DataParts {
    /// The octets of data in each part but the last, which has the rest. At least one.
    pub size: usize,
    /// The head of the first part, if others follow it.
    pub first: &'static [u8],
    /// The head of each part between the first and the last.
    pub middle: &'static [u8],
    /// The head of the last part, or of all the data if it is sent in one TSDU.
    pub last: &'static [u8],
}

/// The octets before a part of one Data in its TSDU: a GT that names no token, and the header of a DT with its enclosure
/// (X.225 sections 6.3.7 and 8).
fn part_head(place: Place) -> &'static [u8]
    ensures { result.now ≡ part_head place }
{
    match place {
        Place::First => &[1, 0, 1, 3, 0x19, 1, 1],
        Place::Middle => &[1, 0, 1, 3, 0x19, 1, 0],
        Place::Last => &[1, 0, 1, 3, 0x19, 1, 2],
    }
}

/// Data that is longer than the limit, in parts.
fn in_parts(limit: u16, user_data: &[u8]) -> DataParts
    requires sized { is_size limit ≡ true }
    requires long { is_whole limit user_data.now ≡ false }
    ensures lent { tsdus_lent result user_data.now ≡ tsdus_of limit (DT user_data.now) }
    ensures fit { FitTsdus result }
{
    DataParts {
        size: limit as usize - 7,
        first: part_head(Place::First),
        middle: part_head(Place::Middle),
        last: part_head(Place::Last),
    }
}

/// Data that is sent in one TSDU.
fn in_one(limit: u16, user_data: &[u8]) -> DataParts
    requires whole { is_whole limit user_data.now ≡ true }
    requires short { length user_data.now ≤ 1048572 }
    ensures lent { tsdus_lent result user_data.now ≡ tsdus_of limit (DT user_data.now) }
    ensures fit { FitTsdus result }
{
    let head = data_head();
    DataParts {
        size: MOST_DATA,
        first: head,
        middle: head,
        last: head,
    }
}

/// How data is cut, if a TSDU may have at most this size.
pub(crate) fn lent_within(limit: TsduSize, user_data: &[u8]) -> DataParts
    requires { length user_data.now ≤ 1048572 }
    ensures lent { tsdus_lent result user_data.now ≡ tsdus_of (size_of limit) (DT user_data.now) }
    ensures fit { FitTsdus result }
{
    let octets = limit.octets();
    if Sent::is_whole(octets, user_data) {
        return in_one(octets, user_data);
    }
    in_parts(octets, user_data)
}
