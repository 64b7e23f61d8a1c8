//! `osi show`: reading, listing and writing.

ghost use Rattle.std.specs.Prelude.{◌≡◌, ◌<◌, ◌≤◌, ◌⊎◌, ◌++◌, true, length, Ok, IfOk, IfErr, IfSome, IsErrAnd, OnOk};
ghost use Rattle.std.specs.Io.KnownBytes.{Consumes};
ghost use Rattle.osi_listing.specs.Capture.{IsNoCapture};
ghost use Rattle.osi_tool.specs.Show.{FailsToRead, IsRead, Shows, ShowsPart, TakesAtMost};

use crate::calls::Calls;
use crate::faults::{Failure, ToolFault};
use crate::texts::{LONGEST_INPUT, list_text};
use std::alloc::Global;
use std::io::{Read, Write};

/// How many octets are asked for in one read.
const PIECE: usize = 16384;

/// Reads to the end, or one octet more than the longest input. [`ToolFault::Input`] means that a read
/// failed.
pub fn read_input<R: Read>(
    alloc: Global,
    calls: &mut Calls,
    reader: &mut R,
) -> Result<Vec<u8>, ToolFault>
    ensures ok { IfOk result (λ input. Consumes (R.remaining reader.old) (R.remaining reader.new) input.items
        × IsRead (R.remaining reader.new) input.items) }
    ensures most { TakesAtMost 16777217 (R.remaining reader.old) (R.remaining reader.new) }
    ensures input { IfErr result (λ fault. fault ≡ ToolFault.Input → calls.new.read_failed ≡ true) }
    ensures bad_hex { IfErr result (λ fault. fault ≡ ToolFault.BadHex → ⊥) }
    ensures write { IfErr result (λ fault. fault ≡ ToolFault.Write → ⊥) }
{
    let mut input = Vec::new(alloc);
    let mut piece = [0; PIECE];
    'reads: while input.len() <= LONGEST_INPUT {
        let room = (LONGEST_INPUT + 1 - input.len()).min(PIECE);
        let count = calls.read(reader, &mut piece[..room])?;
        if count == 0 {
            return Ok(input);
        }
        keep(&mut input, &piece[..count])?;
    }
    Ok(input)
}

/// Adds a piece to the input that was read.
fn keep(input: &mut Vec<u8>, piece: &[u8]) -> Result<(), ToolFault>
    ensures ok { OnOk result (input.new.items ≡ input.old.items ++ piece.now) }
    ensures memory { IfErr result (λ fault. fault ≡ ToolFault.OutOfMemory) }
{
    if input.extend_from_slice(piece).is_err() {
        return Err(ToolFault::OutOfMemory);
    }
    Ok(())
}

/// Lists what a reader gives, and remembers which call failed.
fn show_by<R: Read, W: Write>(
    alloc: Global,
    calls: &mut Calls,
    reader: &mut R,
    writer: &mut W,
) -> Result<u8, ToolFault>
    ensures shown { IfOk result (λ status. IfSome (R.remaining reader.old) (λ text.
        Shows text (W.contents writer.old) (W.contents writer.new) status)) }
    ensures status { IfOk result (λ status. status < 2) }
    ensures most { TakesAtMost 16777217 (R.remaining reader.old) (R.remaining reader.new) }
    ensures long { IfSome (R.remaining reader.old) (λ text. 16777216 < length text →
        IsErrAnd result (λ fault. (fault ≡ ToolFault.Input) ⊎ (fault ≡ ToolFault.OutOfMemory))) }
    ensures input { IfErr result (λ fault. fault ≡ ToolFault.Input →
        FailsToRead calls.new.read_failed (R.remaining reader.old) × (writer.new ≡ writer.old)) }
    ensures bad_hex { IfErr result (λ fault. fault ≡ ToolFault.BadHex →
        IfSome (R.remaining reader.old) IsNoCapture × (writer.new ≡ writer.old)) }
    ensures write { IfErr result (λ fault. fault ≡ ToolFault.Write → (calls.new.write_failed ≡ true)
        × IfSome (R.remaining reader.old) (λ text. ShowsPart text (W.contents writer.old) (W.contents writer.new))) }
    ensures memory { IfErr result (λ fault. fault ≡ ToolFault.OutOfMemory → writer.new ≡ writer.old) }
{
    let input = read_input(alloc, calls, reader)?;
    let listed = list_text(alloc, input.as_slice())?;
    calls.write_text(writer, listed.lines.as_slice())?;
    Ok(listed.status)
}

/// Lists the capture that a reader gives. The whole text is made before the first write.
///
/// [`ToolFault::Input`] means that a read failed or the input is too long, and [`ToolFault::Write`] that
/// a write failed: what was written then is a prefix of the listing. After another fault nothing was written.
pub fn show<R: Read, W: Write>(alloc: Global, reader: &mut R, writer: &mut W) -> Result<u8, Failure>
    ensures shown { IfOk result (λ status. IfSome (R.remaining reader.old) (λ text.
        Shows text (W.contents writer.old) (W.contents writer.new) status)) }
    ensures status { IfOk result (λ status. status < 2) }
    ensures most { TakesAtMost 16777217 (R.remaining reader.old) (R.remaining reader.new) }
    ensures long { IfSome (R.remaining reader.old) (λ text. 16777216 < length text →
        IsErrAnd result (λ f. (f.fault ≡ ToolFault.Input) ⊎ (f.fault ≡ ToolFault.OutOfMemory))) }
    ensures input { IfErr result (λ f. f.fault ≡ ToolFault.Input →
        FailsToRead f.calls.read_failed (R.remaining reader.old) × (writer.new ≡ writer.old)) }
    ensures bad_hex { IfErr result (λ f. f.fault ≡ ToolFault.BadHex →
        IfSome (R.remaining reader.old) IsNoCapture × (writer.new ≡ writer.old)) }
    ensures write { IfErr result (λ f. f.fault ≡ ToolFault.Write → (f.calls.write_failed ≡ true)
        × IfSome (R.remaining reader.old) (λ text. ShowsPart text (W.contents writer.old) (W.contents writer.new))) }
    ensures memory { IfErr result (λ f. f.fault ≡ ToolFault.OutOfMemory → writer.new ≡ writer.old) }
{
    let mut calls = Calls::new();
    match show_by(alloc, &mut calls, reader, writer) {
        Ok(status) => Ok(status),
        Err(fault) => Err(Failure { fault, calls }),
    }
}
