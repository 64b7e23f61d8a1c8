//! `osi pair`: reading, running and writing.

ghost use Rattle.std.specs.Prelude.{◌≡◌, ◌<◌, ◌≤◌, ◌⊎◌, ◌↔◌, true, length, Err, IfOk, IfErr, IfSome, IsErrAnd};
ghost use Rattle.osi_tool.specs.Pairing.{Tells, Pairs, PairsPart};
ghost use Rattle.osi_tool.specs.Show.{FailsToRead, TakesAtMost};

use crate::calls::Calls;
use crate::faults::{Failure, ToolFault};
use crate::showing::read_input;
use crate::texts::LONGEST_INPUT;
use osi_transcript::{Transcript, transcribe};
use std::alloc::Global;
use std::io::{Read, Write};

/// The transcript of a text. Nothing is read or written.
///
/// Returns [`ToolFault::Input`] exactly for a text of more than 16,777,216 octets.
fn transcript_of(alloc: Global, text: &[u8]) -> Result<Transcript, ToolFault>
    ensures told { IfOk result (λ t. Tells text.now t.lines.items t.status) }
    ensures status { IfOk result (λ t. t.status < 2) }
    ensures input { (result ≡ Err ToolFault.Input) ↔ (16777216 < length text.now) }
    ensures bad_hex { result ≡ Err ToolFault.BadHex → ⊥ }
    ensures write { result ≡ Err ToolFault.Write → ⊥ }
{
    if text.len() > LONGEST_INPUT {
        return Err(ToolFault::Input);
    }
    match transcribe(alloc, text) {
        Ok(transcript) => Ok(transcript),
        Err(_) => Err(ToolFault::OutOfMemory),
    }
}

/// Runs the script that a reader gives, and remembers which call failed.
fn pair_by<R: Read, W: Write>(
    alloc: Global,
    calls: &mut Calls,
    reader: &mut R,
    writer: &mut W,
) -> Result<u8, ToolFault>
    ensures told { IfOk result (λ status. IfSome (R.remaining reader.old) (λ text.
        Pairs text (W.contents writer.old) (W.contents writer.new) status)) }
    ensures status { IfOk result (λ status. status < 2) }
    ensures most { TakesAtMost 16777217 (R.remaining reader.old) (R.remaining reader.new) }
    ensures long { IfSome (R.remaining reader.old) (λ text. 16777216 < length text →
        IsErrAnd result (λ fault. (fault ≡ ToolFault.Input) ⊎ (fault ≡ ToolFault.OutOfMemory))) }
    ensures input { IfErr result (λ fault. fault ≡ ToolFault.Input →
        FailsToRead calls.new.read_failed (R.remaining reader.old) × (writer.new ≡ writer.old)) }
    ensures bad_hex { IfErr result (λ fault. fault ≡ ToolFault.BadHex → ⊥) }
    ensures write { IfErr result (λ fault. fault ≡ ToolFault.Write → (calls.new.write_failed ≡ true)
        × IfSome (R.remaining reader.old) (λ text. PairsPart text (W.contents writer.old) (W.contents writer.new))) }
    ensures memory { IfErr result (λ fault. fault ≡ ToolFault.OutOfMemory → writer.new ≡ writer.old) }
{
    let input = read_input(alloc, calls, reader)?;
    let transcript = transcript_of(alloc, input.as_slice())?;
    calls.write_text(writer, transcript.lines.as_slice())?;
    Ok(transcript.status)
}

/// Runs the script that a reader gives on two ends, and writes its transcript. The whole text is made before the first
/// write.
///
/// [`ToolFault::Input`] means that a read failed or the input is too long. [`ToolFault::Write`] means that a write
/// failed; what was written is a prefix of the transcript. [`ToolFault::OutOfMemory`] means that memory ran out
/// anywhere, also in an end of the script.
pub fn pair<R: Read, W: Write>(alloc: Global, reader: &mut R, writer: &mut W) -> Result<u8, Failure>
    ensures told { IfOk result (λ status. IfSome (R.remaining reader.old) (λ text.
        Pairs text (W.contents writer.old) (W.contents writer.new) status)) }
    ensures status { IfOk result (λ status. status < 2) }
    ensures most { TakesAtMost 16777217 (R.remaining reader.old) (R.remaining reader.new) }
    ensures long { IfSome (R.remaining reader.old) (λ text. 16777216 < length text →
        IsErrAnd result (λ f. (f.fault ≡ ToolFault.Input) ⊎ (f.fault ≡ ToolFault.OutOfMemory))) }
    ensures input { IfErr result (λ f. f.fault ≡ ToolFault.Input →
        FailsToRead f.calls.read_failed (R.remaining reader.old) × (writer.new ≡ writer.old)) }
    ensures bad_hex { IfErr result (λ f. f.fault ≡ ToolFault.BadHex → ⊥) }
    ensures write { IfErr result (λ f. f.fault ≡ ToolFault.Write → (f.calls.write_failed ≡ true)
        × IfSome (R.remaining reader.old) (λ text. PairsPart text (W.contents writer.old) (W.contents writer.new))) }
    ensures memory { IfErr result (λ f. f.fault ≡ ToolFault.OutOfMemory → writer.new ≡ writer.old) }
{
    let mut calls = Calls::new();
    match pair_by(alloc, &mut calls, reader, writer) {
        Ok(status) => Ok(status),
        Err(fault) => Err(Failure { fault, calls }),
    }
}
