//! `osi judge`: reading, judging and writing.

ghost use Rattle.std.specs.Prelude.{◌≡◌, ◌<◌, ◌⊎◌, ◌++◌, true, ℕ, List, [], IfOk, IfErr, IfSome, OnOk};
ghost use Rattle.std.specs.Io.KnownBytes.{IsAtEnd};
ghost use Rattle.osi_report.specs.Disputes.{IsJudgement};
ghost use Rattle.osi_report.specs.Hearing.{IsHeard};
ghost use Rattle.osi_listing.specs.Capture.{IsNoCapture};
ghost use Rattle.osi_tool.specs.Judging.{FailsToHear, Finds, FindsPart};

use crate::calls::Calls;
use crate::faults::{Failure, ToolFault};
use osi_listing::CaptureFault;
use osi_report::{Hearing, Judgement};
use std::alloc::Global;
use std::io::{Read, Write};

/// How many octets of the text are read at once.
pub(crate) const PIECE: usize = 65_536;

/// Hears a piece of a text.
pub(crate) fn hear(hearing: &mut Hearing, piece: &[u8]) -> Result<(), ToolFault>
    ensures ok { OnOk result ((whole more : List ℕ) → IsHeard hearing.old whole (piece.now ++ more) → IsHeard hearing.new whole more) }
    ensures bad_hex { IfErr result (λ fault. fault ≡ ToolFault.BadHex → (whole more : List ℕ)
        → IsHeard hearing.old whole (piece.now ++ more) → IsNoCapture whole) }
    ensures others { IfErr result (λ fault. (fault ≡ ToolFault.BadHex) ⊎ (fault ≡ ToolFault.OutOfMemory)) }
{
    match hearing.feed(piece) {
        Ok(()) => Ok(()),
        Err(CaptureFault::BadHex) => Err(ToolFault::BadHex),
        Err(CaptureFault::OutOfMemory) => Err(ToolFault::OutOfMemory),
    }
}

/// The judgement of a text that was heard.
pub(crate) fn judgement_of(hearing: &mut Hearing) -> Result<Judgement, ToolFault>
    ensures judged { IfOk result (λ j. (text : List ℕ) → IsHeard hearing.old text [] → IsJudgement text j.lines.items j.status) }
    ensures status { IfOk result (λ j. j.status < 2) }
    ensures bad_hex { IfErr result (λ fault. fault ≡ ToolFault.BadHex → (text : List ℕ) → IsHeard hearing.old text []
        → IsNoCapture text) }
    ensures others { IfErr result (λ fault. (fault ≡ ToolFault.BadHex) ⊎ (fault ≡ ToolFault.OutOfMemory)) }
{
    match hearing.judgement() {
        Ok(judgement) => Ok(judgement),
        Err(CaptureFault::BadHex) => Err(ToolFault::BadHex),
        Err(CaptureFault::OutOfMemory) => Err(ToolFault::OutOfMemory),
    }
}

/// Hears all that a reader gives, piece by piece.
fn hear_all<R: Read>(
    calls: &mut Calls,
    reader: &mut R,
    hearing: &mut Hearing,
) -> Result<(), ToolFault>
    ensures heard { OnOk result (IfSome (R.remaining reader.old) (λ text. IsHeard hearing.old text text → IsHeard hearing.new text [])) }
    ensures end { OnOk result (IsAtEnd (R.remaining reader.new)) }
    ensures input { IfErr result (λ fault. fault ≡ ToolFault.Input → FailsToHear calls.new.read_failed (R.remaining reader.old)) }
    ensures bad_hex { IfErr result (λ fault. fault ≡ ToolFault.BadHex → IfSome (R.remaining reader.old) (λ text.
        IsHeard hearing.old text text → IsNoCapture text)) }
    ensures write { IfErr result (λ fault. fault ≡ ToolFault.Write → ⊥) }
{
    let mut piece = [0; PIECE];
    let mut turns: u64 = 0;
    'pieces: while turns < u64::MAX {
        let count = calls.read(reader, &mut piece[..])?;
        if count == 0 {
            return Ok(());
        }
        hear(hearing, &piece[..count])?;
        turns += 1;
    }
    Err(ToolFault::Input)
}

/// The judgement of all that a reader gives. Nothing of the text is kept.
fn judgement_by<R: Read>(
    alloc: Global,
    calls: &mut Calls,
    reader: &mut R,
) -> Result<Judgement, ToolFault>
    ensures judged { IfOk result (λ j. IfSome (R.remaining reader.old) (λ text. IsJudgement text j.lines.items j.status)) }
    ensures status { IfOk result (λ j. j.status < 2) }
    ensures end { OnOk result (IsAtEnd (R.remaining reader.new)) }
    ensures input { IfErr result (λ fault. fault ≡ ToolFault.Input → FailsToHear calls.new.read_failed (R.remaining reader.old)) }
    ensures bad_hex { IfErr result (λ fault. fault ≡ ToolFault.BadHex → IfSome (R.remaining reader.old) IsNoCapture) }
    ensures write { IfErr result (λ fault. fault ≡ ToolFault.Write → ⊥) }
{
    let mut hearing = Hearing::new(alloc);
    hear_all(calls, reader, &mut hearing)?;
    judgement_of(&mut hearing)
}

/// Judges what a reader gives, and remembers which call failed.
fn judge_by<R: Read, W: Write>(
    alloc: Global,
    calls: &mut Calls,
    reader: &mut R,
    writer: &mut W,
) -> Result<u8, ToolFault>
    ensures judged { IfOk result (λ status. IfSome (R.remaining reader.old) (λ text.
        Finds text (W.contents writer.old) (W.contents writer.new) status)) }
    ensures status { IfOk result (λ status. status < 2) }
    ensures end { OnOk result (IsAtEnd (R.remaining reader.new)) }
    ensures input { IfErr result (λ fault. fault ≡ ToolFault.Input →
        FailsToHear calls.new.read_failed (R.remaining reader.old) × (writer.new ≡ writer.old)) }
    ensures bad_hex { IfErr result (λ fault. fault ≡ ToolFault.BadHex →
        IfSome (R.remaining reader.old) IsNoCapture × (writer.new ≡ writer.old)) }
    ensures write { IfErr result (λ fault. fault ≡ ToolFault.Write → (calls.new.write_failed ≡ true)
        × IfSome (R.remaining reader.old) (λ text. FindsPart text (W.contents writer.old) (W.contents writer.new))) }
    ensures memory { IfErr result (λ fault. fault ≡ ToolFault.OutOfMemory → writer.new ≡ writer.old) }
{
    let judgement = judgement_by(alloc, calls, reader)?;
    calls.write_text(writer, judgement.lines.as_slice())?;
    Ok(judgement.status)
}

/// Judges the capture of both sides that a reader gives, of any length, and writes what was found. The capture is judged while
/// it is read, and nothing of its text is kept; nothing is written before its end.
///
/// [`ToolFault::Input`] means that a read failed, and [`ToolFault::Write`] that a write failed: what was written then is a
/// prefix of the text. After another fault nothing was written. [`ToolFault::BadHex`] may come before the end is read.
pub fn judge<R: Read, W: Write>(
    alloc: Global,
    reader: &mut R,
    writer: &mut W,
) -> Result<u8, Failure>
    ensures judged { IfOk result (λ status. IfSome (R.remaining reader.old) (λ text.
        Finds text (W.contents writer.old) (W.contents writer.new) status)) }
    ensures status { IfOk result (λ status. status < 2) }
    ensures end { OnOk result (IsAtEnd (R.remaining reader.new)) }
    ensures input { IfErr result (λ f. f.fault ≡ ToolFault.Input →
        FailsToHear f.calls.read_failed (R.remaining reader.old) × (writer.new ≡ writer.old)) }
    ensures bad_hex { IfErr result (λ f. f.fault ≡ ToolFault.BadHex →
        IfSome (R.remaining reader.old) IsNoCapture × (writer.new ≡ writer.old)) }
    ensures write { IfErr result (λ f. f.fault ≡ ToolFault.Write → (f.calls.write_failed ≡ true)
        × IfSome (R.remaining reader.old) (λ text. FindsPart text (W.contents writer.old) (W.contents writer.new))) }
    ensures memory { IfErr result (λ f. f.fault ≡ ToolFault.OutOfMemory → writer.new ≡ writer.old) }
{
    let mut calls = Calls::new();
    match judge_by(alloc, &mut calls, reader, writer) {
        Ok(status) => Ok(status),
        Err(fault) => Err(Failure { fault, calls }),
    }
}
