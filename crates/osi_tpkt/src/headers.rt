//! Headers of packets, in one piece or in several.

ghost use Rattle.std.specs.Prelude.{◌≡◌, ◌≢◌, ◌<◌, ◌≤◌, ◌+◌, ◌*◌, ◌++◌, ◌↔◌, ℕ, List, length, take, Err, IfOk, IfSome, IfNone, OnOk, false};
ghost use Rattle.std.specs.Prelude.{MatchBool, MatchOption, slice_index};
ghost use Rattle.osi_tpkt.specs.Packet.{IsPacket, IsBadVersion, IsBadLength};
ghost use Rattle.osi_tpkt.specs.Header.{IsFront, IsFull, IsUnfinished};

use crate::cutting::Fed;
use crate::faults::TpktFault;

/// What is wrong with a header.
#[derive(Clone, Copy)]
pub(crate) enum HeaderFault {
    Version,
    Length,
}

impl HeaderFault {
    /// The fault of a packet with this header at an offset of the stream.
    pub(crate) fn at(self, offset: u64) -> TpktFault
        ensures version { self ≡ HeaderFault.Version → result ≡ TpktFault.BadVersion offset }
        ensures length { self ≡ HeaderFault.Length → result ≡ TpktFault.BadLength offset }
    {
        match self {
            HeaderFault::Version => TpktFault::BadVersion(offset),
            HeaderFault::Length => TpktFault::BadLength(offset),
        }
    }
}

/// The octet at an index of two slices, one after the other.
#[inline]
fn octet_at(held: &[u8], piece: &[u8], index: usize) -> Option<u8>
    ensures { MatchOption result (length (held.now ++ piece.now) ≤ index)
        (λ x. (index < length (held.now ++ piece.now)) × (slice_index (held.now ++ piece.now) index ≡ x)) }
{
    if index < held.len() {
        Some(held[index])
    } else {
        piece.get(index - held.len()).copied()
    }
}

/// How much of a piece belongs to the packet whose first octets are held.
#[inline]
pub(crate) fn survey(held: &[u8], piece: &[u8]) -> Result<Fed, HeaderFault>
    requires { IsFront held.now }
    ensures used { IfOk result (λ fed. fed.used ≤ length piece.now) }
    ensures front { IfOk result (λ fed. IsFront (held.now ++ take fed.used piece.now)) }
    ensures whole { IfOk result (λ fed. MatchBool fed.whole
        (IsFull (held.now ++ take fed.used piece.now))
        (IsUnfinished (held.now ++ take fed.used piece.now) × (fed.used ≡ length piece.now))) }
    ensures version { result ≡ Err HeaderFault.Version → IsBadVersion (held.now ++ piece.now) }
    ensures length { result ≡ Err HeaderFault.Length → IsBadLength (held.now ++ piece.now) }
{
    if held.is_empty() {
        survey_first(piece)
    } else {
        survey_next(held, piece)
    }
}

/// The length in octets of the complete packet at the front of a piece, or `None` if there is none.
#[inline]
pub(crate) fn whole_length(piece: &[u8]) -> Option<usize>
    ensures within { IfSome result (λ used. used ≤ length piece.now) }
    ensures front { IfSome result (λ used. IsFront (take used piece.now)) }
    ensures full { IfSome result (λ used. IsFull (take used piece.now)) }
    ensures none { IfNone result ((u b rest : List ℕ) → IsPacket u b → piece.now ≢ b ++ rest) }
{
    let [3, _, high, low, ..] = piece else {
        return None;
    };
    let length = usize::from(*high) * 256 + usize::from(*low);
    if length < 7 || piece.len() < length {
        return None;
    }
    Some(length)
}

/// What [`survey`] says if nothing is held.
#[inline]
fn survey_first(piece: &[u8]) -> Result<Fed, HeaderFault>
    ensures used { IfOk result (λ fed. fed.used ≤ length piece.now) }
    ensures front { IfOk result (λ fed. IsFront (take fed.used piece.now)) }
    ensures whole { IfOk result (λ fed. MatchBool fed.whole
        (IsFull (take fed.used piece.now))
        (IsUnfinished (take fed.used piece.now) × (fed.used ≡ length piece.now))) }
    ensures version { result ≡ Err HeaderFault.Version → IsBadVersion piece.now }
    ensures length { result ≡ Err HeaderFault.Length → IsBadLength piece.now }
{
    match piece {
        [3, _, high, low, ..] => part_of(*high, *low, 0, piece.len()),
        [] | [3, ..] => Ok(all_of(piece)),
        [_, ..] => Err(HeaderFault::Version),
    }
}

/// What [`survey`] says if the first octets are held and the version is right.
#[inline]
fn survey_next(held: &[u8], piece: &[u8]) -> Result<Fed, HeaderFault>
    requires front { IsFront held.now }
    requires some { 0 < length held.now }
    ensures used { IfOk result (λ fed. fed.used ≤ length piece.now) }
    ensures front { IfOk result (λ fed. IsFront (held.now ++ take fed.used piece.now)) }
    ensures whole { IfOk result (λ fed. MatchBool fed.whole
        (IsFull (held.now ++ take fed.used piece.now))
        (IsUnfinished (held.now ++ take fed.used piece.now) × (fed.used ≡ length piece.now))) }
    ensures version { result ≡ Err HeaderFault.Version → IsBadVersion (held.now ++ piece.now) }
    ensures length { result ≡ Err HeaderFault.Length → IsBadLength (held.now ++ piece.now) }
{
    let Some(low) = octet_at(held, piece, 3) else {
        return Ok(all_of(piece));
    };
    let Some(high) = octet_at(held, piece, 2) else {
        return Ok(all_of(piece));
    };
    part_of(high, low, held.len(), piece.len())
}

/// All of a piece, whose packet continues after it.
fn all_of(piece: &[u8]) -> Fed
    ensures { result ≡ record { used = length piece.now; whole = false } }
{
    Fed {
        used: piece.len(),
        whole: false,
    }
}

/// How much of a piece belongs to a packet with this length. `held` counts the octets of the packet that are held,
/// `piece` those of the piece.
#[inline]
fn part_of(high: u8, low: u8, held: usize, piece: usize) -> Result<Fed, HeaderFault>
    requires { 7 ≤ 256 * high + low → held ≤ 256 * high + low }
    ensures short { (result ≡ Err HeaderFault.Length) ↔ (256 * high + low < 7) }
    ensures version { result ≢ Err HeaderFault.Version }
    ensures least { OnOk result (7 ≤ 256 * high + low) }
    ensures used { IfOk result (λ fed. fed.used ≤ piece) }
    ensures whole { IfOk result (λ fed. MatchBool fed.whole
        (held + fed.used ≡ 256 * high + low)
        ((held + piece < 256 * high + low) × (fed.used ≡ piece))) }
{
    let length = usize::from(high) * 256 + usize::from(low);
    if length < 7 {
        return Err(HeaderFault::Length);
    }
    let missing = length - held;
    let whole = missing <= piece;
    Ok(Fed {
        used: if whole { missing } else { piece },
        whole,
    })
}
