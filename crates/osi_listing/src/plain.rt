//! The session units of the most frequent TSDUs, which are listed without their parameters being read into memory: data, and a
//! minor synchronization point or its confirmation with no parameter but its number, after a GT that names no token.

ghost use Rattle.std.specs.Prelude.{◌≡◌, ◌++◌, ◌≤◌, [], true, codes, drop, length, OnOk};
ghost use Rattle.hex.specs.Hex.{encode_lower};
ghost use Rattle.osi_spdu.specs.Reading.{tsdu_at};
ghost use Rattle.osi_message.specs.Meanings.{MIP, MIA};
ghost use Rattle.osi_message.specs.Plain.{data_octets};
ghost use Rattle.osi_message.specs.Written.{written};
ghost use Rattle.osi_listing.specs.Listing.{session_entries};
ghost use Rattle.osi_listing.specs.Says.{Says};

use crate::counting::Counts;
use crate::lines::{push_hex, push_last_field, push_words};
use osi_message::laws;
use osi_spdu::Serial;
use std::alloc::AllocError;

/// How many octets there are in front of the digits of a point's number.
const HEAD: usize = 6;

/// Lists the units of a TSDU that is this data.
#[inline(always)]
pub(crate) fn list_data(
    text: &mut Vec<u8>,
    counts: &mut Counts,
    tsdu: &[u8],
    user_data: &[u8],
) -> Result<(), AllocError>
    requires { tsdu.now ≡ data_octets user_data.now }
    ensures { OnOk result (Says text.old.items text.new.items counts.old counts.new
        (session_entries (tsdu_at tsdu.now))) }
{
    laws::what_is_sent_is_read();
    push_last_field(text, "    GT\n    DT octets ", user_data.len() as u64)?;
    counts.add_session_unit();
    counts.add_session_unit();
    Ok(())
}

/// Lists the units of a TSDU that is the minor point with this number.
#[inline(always)]
pub(crate) fn list_point(
    text: &mut Vec<u8>,
    counts: &mut Counts,
    tsdu: &[u8],
    number: Serial,
) -> Result<(), AllocError>
    requires { tsdu.now ≡ written (MIP true number.number []) }
    ensures { OnOk result (Says text.old.items text.new.items counts.old counts.new
        (session_entries (tsdu_at tsdu.now))) }
{
    laws::what_is_sent_is_read();
    // Named so that the proof sees how large it is.
    let _number = number.number;
    push_numbered(text, "    GT\n    MIP 42=", tsdu)?;
    counts.add_session_unit();
    counts.add_session_unit();
    Ok(())
}

/// Lists the units of a TSDU that is the confirmation of the minor point with this number.
#[inline(always)]
pub(crate) fn list_ack(
    text: &mut Vec<u8>,
    counts: &mut Counts,
    tsdu: &[u8],
    number: Serial,
) -> Result<(), AllocError>
    requires { tsdu.now ≡ written (MIA number.number []) }
    ensures { OnOk result (Says text.old.items text.new.items counts.old counts.new
        (session_entries (tsdu_at tsdu.now))) }
{
    laws::what_is_sent_is_read();
    let _number = number.number;
    push_numbered(text, "    GT\n    MIA 42=", tsdu)?;
    counts.add_session_unit();
    counts.add_session_unit();
    Ok(())
}

/// Adds words, and the octets of a number that ends a TSDU, to the end of a line.
fn push_numbered(text: &mut Vec<u8>, words: &str, tsdu: &[u8]) -> Result<(), AllocError>
    requires { 6 ≤ length tsdu.now }
    ensures { OnOk result (text.new.items ≡ text.old.items
        ++ (words.now ++ (encode_lower (drop 6 tsdu.now) ++ codes "\n"))) }
{
    let (_, digits) = tsdu.split_at(HEAD);
    push_words(text, words)?;
    push_hex(text, digits)?;
    push_words(text, "\n")
}
