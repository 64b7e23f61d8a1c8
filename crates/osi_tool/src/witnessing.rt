//! `osi judge --script`: reading, finding a script and writing.

ghost use Rattle.std.specs.Prelude.{◌≡◌, ◌<◌, ◌≤◌, ◌⊎◌, ◌↔◌, true, length, Err, IfOk, IfErr, IfSome, IsErrAnd};
ghost use Rattle.osi_listing.specs.Capture.{IsNoCapture};
ghost use Rattle.osi_tool.specs.Witnessing.{Scripts, Tells, TellsPart};
ghost use Rattle.osi_tool.specs.Show.{FailsToRead, TakesAtMost};

use crate::calls::Calls;
use crate::faults::{Failure, ToolFault};
use crate::showing::read_input;
use crate::texts::LONGEST_INPUT;
use osi_listing::CaptureFault;
use osi_witness::{Witness, witness_of};
use std::alloc::Global;
use std::io::{Read, Write};

/// The witness of a text. Nothing is read or written.
///
/// [`ToolFault::Input`] is answered exactly for a text of more than 16,777,216 octets, and
/// [`ToolFault::BadHex`] for a shorter one that is no capture, unless memory runs out first.
fn script_of(alloc: Global, text: &[u8]) -> Result<Witness, ToolFault>
    ensures witnesses { IfOk result (λ w. Scripts text.now w.script.items w.status) }
    ensures status { IfOk result (λ w. w.status < 2) }
    ensures input { (result ≡ Err ToolFault.Input) ↔ (16777216 < length text.now) }
    ensures bad_hex { result ≡ Err ToolFault.BadHex →
        IsNoCapture text.now × (length text.now ≤ 16777216) }
    ensures no_capture { IsNoCapture text.now → length text.now ≤ 16777216 →
        (result ≡ Err ToolFault.BadHex) ⊎ (result ≡ Err ToolFault.OutOfMemory) }
    ensures write { result ≡ Err ToolFault.Write → ⊥ }
{
    if text.len() > LONGEST_INPUT {
        return Err(ToolFault::Input);
    }
    match witness_of(alloc, text) {
        Ok(witness) => Ok(witness),
        Err(CaptureFault::BadHex) => Err(ToolFault::BadHex),
        Err(CaptureFault::OutOfMemory) => Err(ToolFault::OutOfMemory),
    }
}

/// Finds the script of what a reader gives, and remembers which call failed.
fn witness_by<R: Read, W: Write>(
    alloc: Global,
    calls: &mut Calls,
    reader: &mut R,
    writer: &mut W,
) -> Result<u8, ToolFault>
    ensures told { IfOk result (λ status. IfSome (R.remaining reader.old) (λ text.
        Tells text (W.contents writer.old) (W.contents writer.new) status)) }
    ensures status { IfOk result (λ status. status < 2) }
    ensures most { TakesAtMost 16777217 (R.remaining reader.old) (R.remaining reader.new) }
    ensures long { IfSome (R.remaining reader.old) (λ text. 16777216 < length text →
        IsErrAnd result (λ fault. (fault ≡ ToolFault.Input) ⊎ (fault ≡ ToolFault.OutOfMemory))) }
    ensures input { IfErr result (λ fault. fault ≡ ToolFault.Input →
        FailsToRead calls.new.read_failed (R.remaining reader.old) × (writer.new ≡ writer.old)) }
    ensures bad_hex { IfErr result (λ fault. fault ≡ ToolFault.BadHex →
        IfSome (R.remaining reader.old) IsNoCapture × (writer.new ≡ writer.old)) }
    ensures write { IfErr result (λ fault. fault ≡ ToolFault.Write → (calls.new.write_failed ≡ true)
        × IfSome (R.remaining reader.old) (λ text. TellsPart text (W.contents writer.old) (W.contents writer.new))) }
    ensures memory { IfErr result (λ fault. fault ≡ ToolFault.OutOfMemory → writer.new ≡ writer.old) }
{
    let input = read_input(alloc, calls, reader)?;
    let witness = script_of(alloc, input.as_slice())?;
    calls.write_text(writer, witness.script.as_slice())?;
    Ok(witness.status)
}

/// Finds a script that tells what both sides of the capture did that a reader gives, and writes it. The whole text is made
/// before the first write.
///
/// [`ToolFault::Input`] means that a read failed or the input is too long, and [`ToolFault::Write`] that
/// a write failed: what was written then is a prefix of the text. After another fault nothing was written.
pub fn witness<R: Read, W: Write>(
    alloc: Global,
    reader: &mut R,
    writer: &mut W,
) -> Result<u8, Failure>
    ensures told { IfOk result (λ status. IfSome (R.remaining reader.old) (λ text.
        Tells text (W.contents writer.old) (W.contents writer.new) status)) }
    ensures status { IfOk result (λ status. status < 2) }
    ensures most { TakesAtMost 16777217 (R.remaining reader.old) (R.remaining reader.new) }
    ensures long { IfSome (R.remaining reader.old) (λ text. 16777216 < length text →
        IsErrAnd result (λ f. (f.fault ≡ ToolFault.Input) ⊎ (f.fault ≡ ToolFault.OutOfMemory))) }
    ensures input { IfErr result (λ f. f.fault ≡ ToolFault.Input →
        FailsToRead f.calls.read_failed (R.remaining reader.old) × (writer.new ≡ writer.old)) }
    ensures bad_hex { IfErr result (λ f. f.fault ≡ ToolFault.BadHex →
        IfSome (R.remaining reader.old) IsNoCapture × (writer.new ≡ writer.old)) }
    ensures write { IfErr result (λ f. f.fault ≡ ToolFault.Write → (f.calls.write_failed ≡ true)
        × IfSome (R.remaining reader.old) (λ text. TellsPart text (W.contents writer.old) (W.contents writer.new))) }
    ensures memory { IfErr result (λ f. f.fault ≡ ToolFault.OutOfMemory → writer.new ≡ writer.old) }
{
    let mut calls = Calls::new();
    match witness_by(alloc, &mut calls, reader, writer) {
        Ok(status) => Ok(status),
        Err(fault) => Err(Failure { fault, calls }),
    }
}
