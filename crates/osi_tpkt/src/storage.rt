//! The buffer of a packet. All its octets are initialised; the first ones are those of the packet.

ghost use Rattle.std.specs.Prelude.{◌≡◌, ◌+◌, ◌<◌, ◌≤◌, ◌++◌, length, take, max, false, IsTrue, IfSome, IfNone, OnOk, OnErr, vec_len};
ghost use Rattle.std.specs.Prelude.{vec_capacity};
ghost use Rattle.osi_tpkt.specs.Header.{IsFront, IsFull};

use crate::headers::whole_length;
use std::alloc::AllocError;

/// The buffer grows by at least this many octets.
const LEAST: usize = 64;

/// Copies the complete packet at the front of a piece to the front of the buffer, and returns its length in octets.
/// `None` if the piece does not begin with a complete packet, or the buffer has no room for it.
#[inline(always)]
pub(crate) fn put_first(storage: &mut Vec<u8>, piece: &[u8]) -> Option<usize>
    ensures within { IfSome result (λ used. used ≤ length piece.now) }
    ensures front { IfSome result (λ used. IsFront (take used piece.now)) }
    ensures full { IfSome result (λ used. IsFull (take used piece.now)) }
    ensures octets { IfSome result (λ used. take used storage.new.items ≡ take used piece.now) }
    ensures none { IfNone result (storage.new.items ≡ storage.old.items) }
    ensures room { vec_len storage.new ≡ vec_len storage.old }
{
    if let Some(used) = put_block(storage, piece) {
        return Some(used);
    }
    let used = whole_length(piece)?;
    if storage.len() < used {
        return None;
    }
    put(storage, 0, &piece[..used]);
    Some(used)
}

/// The same for a complete packet within the first 32 octets of a piece, which are copied as one block. `None` if there
/// is no such packet, or the piece or the buffer is shorter than a block.
#[inline(always)]
fn put_block(storage: &mut Vec<u8>, piece: &[u8]) -> Option<usize>
    ensures within { IfSome result (λ used. used ≤ length piece.now) }
    ensures front { IfSome result (λ used. IsFront (take used piece.now)) }
    ensures full { IfSome result (λ used. IsFull (take used piece.now)) }
    ensures octets { IfSome result (λ used. take used storage.new.items ≡ take used piece.now) }
    ensures none { IfNone result (storage.new.items ≡ storage.old.items) }
    ensures room { vec_len storage.new ≡ vec_len storage.old }
{
    let block = piece.first_chunk::<32>()?;
    let used = whole_length(block)?;
    let room = storage.as_mut_slice().first_chunk_mut::<32>()?;
    *room = *block;
    Some(used)
}

/// Copies octets into the buffer after its first `at`.
#[inline(always)]
pub(crate) fn put(storage: &mut Vec<u8>, at: usize, octets: &[u8])
    requires fits { at + length octets.now ≤ vec_len storage.old }
    ensures octets { take (at + length octets.now) storage.new.items ≡ take at storage.old.items ++ octets.now }
    ensures room { vec_len storage.new ≡ vec_len storage.old }
{
    if let [octet] = octets {
        storage[at] = *octet;
    } else {
        storage
            .slice_mut(at..at + octets.len())
            .copy_from_slice(octets);
    }
}

/// Makes room for `more` octets after the first `held`, which stay. An allocation failure changes nothing, and is
/// possible only if there was no room.
#[inline]
pub(crate) fn make_room(storage: &mut Vec<u8>, held: usize, more: usize) -> Result<(), AllocError>
    requires { held ≤ vec_len storage.old }
    ensures ok { OnOk result (held + more ≤ vec_len storage.new) }
    ensures err { OnErr result (vec_len storage.new ≡ vec_len storage.old) }
    ensures full { OnErr result (vec_len storage.old < held + more) }
    ensures needed { OnErr result (vec_capacity storage.old < vec_len storage.old + max more 64) }
    ensures octets { take held storage.new.items ≡ take held storage.old.items }
    ensures room { vec_len storage.old ≤ vec_len storage.new }
{
    if more <= storage.len() - held {
        return Ok(());
    }
    grow(storage, more)
}

/// Makes room for this many more octets, and for at least [`LEAST`]. The contents of the buffer stay. Memory is needed only
/// for room that was not reserved.
#[cold]
#[inline(never)]
fn grow(storage: &mut Vec<u8>, more: usize) -> Result<(), AllocError>
    ensures ok { OnOk result (vec_len storage.old + more ≤ vec_len storage.new) }
    ensures err { OnErr result (vec_len storage.new ≡ vec_len storage.old) }
    ensures needed { OnErr result (vec_capacity storage.old < vec_len storage.old + max more 64) }
    ensures octets { take (vec_len storage.old) storage.new.items ≡ storage.old.items }
    ensures room { vec_len storage.old ≤ vec_len storage.new }
{
    storage.reserve(more.max(LEAST))?;
    storage.resize(storage.capacity(), 0)
}
