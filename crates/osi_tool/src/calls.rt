//! Reads and writes, and whether one of them failed.

ghost use Rattle.std.specs.Prelude.{◌≡◌, ◌<◌, ◌≤◌, ◌||◌, false, length, take, is_err, IfOk, IfErr, OnErr, OnOk};
ghost use Rattle.std.specs.Io.KnownBytes.{Appends, Consumes, IsAtEnd, Keeps};
ghost use Rattle.osi_tool.specs.Show.{BeginsToAppend};

use crate::faults::ToolFault;
use std::io::{ErrorKind, Read, Write};

/// How often an interrupted call is repeated: this many interruptions in a row are a failure.
const TRIES: u32 = 16_777_216;

/// Reads the next octets, and returns how many; none at the end. An interrupted read is repeated.
/// [`ToolFault::Input`] means that the reader failed.
#[tactic(auto, using(crate::proofs::writes_one_after_the_other_append::keeps_same, crate::proofs::writes_one_after_the_other_append::keeps_both, crate::proofs::writes_one_after_the_other_append::keeps_consumes))]
fn read_some<R: Read>(reader: &mut R, buf: &mut [u8]) -> Result<usize, ToolFault>
    ensures bound { IfOk result (λ count. count ≤ length buf.new) }
    ensures bytes { IfOk result (λ count. Consumes (R.remaining reader.old) (R.remaining reader.new) (take count buf.new)) }
    ensures end { IfOk result (λ count. count ≡ 0 → 0 < length buf.new → IsAtEnd (R.remaining reader.new)) }
    ensures kept { OnErr result (Keeps (R.remaining reader.old) (R.remaining reader.new)) }
    ensures input { IfErr result (λ fault. fault ≡ ToolFault.Input) }
{
    'tries: for _ in 0..TRIES {
        match reader.read(buf) {
            Ok(count) => return Ok(count),
            Err(error) => {
                if error.kind() != ErrorKind::Interrupted {
                    return Err(ToolFault::Input);
                }
            }
        }
    }
    Err(ToolFault::Input)
}

/// Writes some of these octets, and returns how many, at least one. An interrupted write is repeated.
/// [`ToolFault::Write`] means that the writer failed, or took nothing.
#[tactic(auto, using(crate::proofs::writes_one_after_the_other_append::keeps_same, crate::proofs::writes_one_after_the_other_append::keeps_both, crate::proofs::writes_one_after_the_other_append::keeps_appends))]
fn write_some<W: Write>(writer: &mut W, octets: &[u8]) -> Result<usize, ToolFault>
    ensures some { IfOk result (λ count. 0 < count) }
    ensures bound { IfOk result (λ count. count ≤ length octets.now) }
    ensures bytes { IfOk result (λ count. Appends (W.contents writer.old) (W.contents writer.new) (take count octets.now)) }
    ensures kept { OnErr result (Keeps (W.contents writer.old) (W.contents writer.new)) }
    ensures write { IfErr result (λ fault. fault ≡ ToolFault.Write) }
{
    'tries: for _ in 0..TRIES {
        match writer.write(octets) {
            Ok(0) => return Err(ToolFault::Write),
            Ok(count) => return Ok(count),
            Err(error) => {
                if error.kind() != ErrorKind::Interrupted {
                    return Err(ToolFault::Write);
                }
            }
        }
    }
    Err(ToolFault::Write)
}

/// Writes a text, and passes on what the writer keeps.
#[tactic(auto, using(crate::proofs::writes_one_after_the_other_append::writing_none, crate::proofs::writes_one_after_the_other_append::writing_more, crate::proofs::writes_one_after_the_other_append::writing_begun, crate::proofs::writes_one_after_the_other_append::writing_done))]
fn write_whole<W: Write>(writer: &mut W, text: &[u8]) -> Result<(), ToolFault>
    ensures written { OnOk result (Appends (W.contents writer.old) (W.contents writer.new) text.now) }
    ensures begun { OnErr result (BeginsToAppend (W.contents writer.old) (W.contents writer.new) text.now) }
    ensures write { IfErr result (λ fault. fault ≡ ToolFault.Write) }
{
    let mut rest = text;
    'writes: while !rest.is_empty() {
        let count = write_some(writer, rest)?;
        let (_, behind) = rest.split_at(count);
        rest = behind;
    }
    if writer.flush().is_err() {
        return Err(ToolFault::Write);
    }
    Ok(())
}

/// What is remembered of the calls of a reader and of a writer.
#[derive(Clone, Copy)]
pub struct Calls {
    /// Whether a read failed.
    pub read_failed: bool,
    /// Whether a write or a flush failed.
    pub write_failed: bool,
}

impl Calls {
    /// Nothing was called, so nothing has failed.
    pub fn new() -> Calls
        ensures read { result.read_failed ≡ false }
        ensures write { result.write_failed ≡ false }
    {
        Calls {
            read_failed: false,
            write_failed: false,
        }
    }

    /// Reads the next octets, and returns how many; none at the end. An interrupted read is repeated.
    /// [`ToolFault::Input`] means that the reader failed.
    pub(crate) fn read<R: Read>(
        &mut self,
        reader: &mut R,
        buf: &mut [u8],
    ) -> Result<usize, ToolFault>
        ensures bound { IfOk result (λ count. count ≤ length buf.new) }
        ensures bytes { IfOk result (λ count. Consumes (R.remaining reader.old) (R.remaining reader.new) (take count buf.new)) }
        ensures end { IfOk result (λ count. count ≡ 0 → 0 < length buf.new → IsAtEnd (R.remaining reader.new)) }
        ensures kept { OnErr result (Keeps (R.remaining reader.old) (R.remaining reader.new)) }
        ensures failed { self.new.read_failed ≡ (self.old.read_failed || is_err result) }
        ensures others { self.new.write_failed ≡ self.old.write_failed }
        ensures input { IfErr result (λ fault. fault ≡ ToolFault.Input) }
    {
        match read_some(reader, buf) {
            Ok(count) => Ok(count),
            Err(fault) => {
                self.read_failed = true;
                Err(fault)
            }
        }
    }

    /// Writes a text, and nothing else. [`ToolFault::Write`] means that the writer failed; what was written then is a
    /// prefix of the text.
    pub fn write_text<W: Write>(&mut self, writer: &mut W, text: &[u8]) -> Result<(), ToolFault>
        ensures written { OnOk result (Appends (W.contents writer.old) (W.contents writer.new) text.now) }
        ensures begun { OnErr result (BeginsToAppend (W.contents writer.old) (W.contents writer.new) text.now) }
        ensures failed { self.new.write_failed ≡ (self.old.write_failed || is_err result) }
        ensures others { self.new.read_failed ≡ self.old.read_failed }
        ensures write { IfErr result (λ fault. fault ≡ ToolFault.Write) }
    {
        match write_whole(writer, text) {
            Ok(()) => Ok(()),
            Err(fault) => {
                self.write_failed = true;
                Err(fault)
            }
        }
    }
}
