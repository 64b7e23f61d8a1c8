//! `osi judge --live`: each finding is written as soon as it is certain, while the capture is read.

ghost use Rattle.std.specs.Prelude.{◌≡◌, ◌<◌, true, ℕ, List, [], IfOk, IfErr, IfSome, OnOk, OnErr};
ghost use Rattle.std.specs.Io.KnownBytes.{IsAtEnd};
ghost use Rattle.osi_report.specs.Disputes.{IsJudgement};
ghost use Rattle.osi_report.specs.Hearing.{IsHeard};
ghost use Rattle.osi_report.specs.News.{IsTold};
ghost use Rattle.osi_listing.specs.Capture.{IsNoCapture};
ghost use Rattle.osi_tool.specs.Judging.{FailsToHear};
ghost use Rattle.osi_tool.specs.Live.{Announces, AnnouncesPart, BeginsLive, FindsLive};

use crate::calls::Calls;
use crate::faults::{Failure, ToolFault};
use crate::judging::{PIECE, hear, judgement_of};
use osi_listing::CaptureFault;
use osi_report::{Hearing, Judgement};
use std::alloc::Global;
use std::io::{Read, Write};

/// What has become certain of what was heard.
fn news_of(alloc: Global, hearing: &mut Hearing) -> Result<Vec<u8>, ToolFault>
    ensures kept { OnOk result ((whole rest : List ℕ) → IsHeard hearing.old whole rest → IsHeard hearing.new whole rest) }
    ensures told { IfOk result (λ t. (whole rest : List ℕ) → IsHeard hearing.old whole rest → IsTold whole t.items) }
    ensures bad_hex { IfErr result (λ fault. fault ≡ ToolFault.BadHex → (whole rest : List ℕ) → IsHeard hearing.old whole rest
        → IsNoCapture whole) }
    ensures input { IfErr result (λ fault. fault ≡ ToolFault.Input → ⊥) }
    ensures write { IfErr result (λ fault. fault ≡ ToolFault.Write → ⊥) }
{
    let mut text = Vec::new(alloc);
    match hearing.news(&mut text) {
        Ok(()) => Ok(text),
        Err(CaptureFault::BadHex) => Err(ToolFault::BadHex),
        Err(CaptureFault::OutOfMemory) => Err(ToolFault::OutOfMemory),
    }
}

/// Writes what has become certain of what was heard, and flushes the writer.
#[tactic(auto, using(crate::proofs::what_is_certain_is_written::nothing_announced, crate::proofs::what_is_certain_is_written::announced, crate::proofs::what_is_certain_is_written::nothing_in_part))]
fn announce<W: Write>(
    alloc: Global,
    calls: &mut Calls,
    writer: &mut W,
    hearing: &mut Hearing,
) -> Result<(), ToolFault>
    ensures kept { OnOk result ((whole rest : List ℕ) → IsHeard hearing.old whole rest → IsHeard hearing.new whole rest) }
    ensures told { OnOk result ((whole rest : List ℕ) → IsHeard hearing.old whole rest
        → Announces whole (W.contents writer.old) (W.contents writer.new)) }
    ensures read { calls.new.read_failed ≡ calls.old.read_failed }
    ensures bad_hex { IfErr result (λ fault. fault ≡ ToolFault.BadHex → (whole rest : List ℕ) → IsHeard hearing.old whole rest
        → IsNoCapture whole) }
    ensures input { IfErr result (λ fault. fault ≡ ToolFault.Input → ⊥) }
    ensures write { IfErr result (λ fault. fault ≡ ToolFault.Write → calls.new.write_failed ≡ true) }
    ensures part { OnErr result ((whole rest : List ℕ) → IsHeard hearing.old whole rest
        → AnnouncesPart whole (W.contents writer.old) (W.contents writer.new)) }
    ensures others { IfErr result (λ fault. (fault ≡ ToolFault.Write → ⊥) → writer.new ≡ writer.old) }
{
    let told = news_of(alloc, hearing)?;
    if told.is_empty() {
        return Ok(());
    }
    calls.write_text(writer, told.as_slice())?;
    Ok(())
}

/// Hears all that a reader gives, piece by piece as they come, and writes after each piece what has become certain.
#[tactic(auto, using(crate::proofs::what_is_certain_is_written::none_so_far, crate::proofs::what_is_certain_is_written::told_all, crate::proofs::what_is_certain_is_written::part_so_far, crate::proofs::what_is_certain_is_written::bad_so_far))]
fn hear_live<R: Read, W: Write>(
    alloc: Global,
    calls: &mut Calls,
    reader: &mut R,
    writer: &mut W,
    hearing: &mut Hearing,
) -> Result<(), ToolFault>
    ensures heard { OnOk result (IfSome (R.remaining reader.old) (λ text. IsHeard hearing.old text text → IsHeard hearing.new text [])) }
    ensures told { OnOk result (IfSome (R.remaining reader.old) (λ text. IsHeard hearing.old text text
        → Announces text (W.contents writer.old) (W.contents writer.new))) }
    ensures end { OnOk result (IsAtEnd (R.remaining reader.new)) }
    ensures input { IfErr result (λ fault. fault ≡ ToolFault.Input → FailsToHear calls.new.read_failed (R.remaining reader.old)) }
    ensures bad_hex { IfErr result (λ fault. fault ≡ ToolFault.BadHex → IfSome (R.remaining reader.old) (λ text.
        IsHeard hearing.old text text → IsNoCapture text)) }
    ensures write { IfErr result (λ fault. fault ≡ ToolFault.Write → calls.new.write_failed ≡ true) }
    ensures part { IfErr result (λ fault. fault ≡ ToolFault.Write → IfSome (R.remaining reader.old) (λ text.
        IsHeard hearing.old text text → AnnouncesPart text (W.contents writer.old) (W.contents writer.new))) }
    ensures others { IfErr result (λ fault. (fault ≡ ToolFault.Write → ⊥) → IfSome (R.remaining reader.old) (λ text.
        IsHeard hearing.old text text → Announces text (W.contents writer.old) (W.contents writer.new))) }
{
    let mut piece = [0; PIECE];
    let mut turns: u64 = 0;
    'pieces: while turns < u64::MAX {
        let count = calls.read(reader, &mut piece[..])?;
        if count == 0 {
            return Ok(());
        }
        hear(hearing, &piece[..count])?;
        announce(alloc, calls, writer, hearing)?;
        turns += 1;
    }
    Err(ToolFault::Input)
}

/// The judgement of all that a reader gives. What has become certain after each piece is written.
#[tactic(auto, using(crate::proofs::what_is_certain_is_written::told_all))]
fn judgement_live<R: Read, W: Write>(
    alloc: Global,
    calls: &mut Calls,
    reader: &mut R,
    writer: &mut W,
) -> Result<Judgement, ToolFault>
    ensures judged { IfOk result (λ j. IfSome (R.remaining reader.old) (λ text. IsJudgement text j.lines.items j.status)) }
    ensures told { OnOk result (IfSome (R.remaining reader.old) (λ text.
        Announces text (W.contents writer.old) (W.contents writer.new))) }
    ensures status { IfOk result (λ j. j.status < 2) }
    ensures end { OnOk result (IsAtEnd (R.remaining reader.new)) }
    ensures input { IfErr result (λ fault. fault ≡ ToolFault.Input → FailsToHear calls.new.read_failed (R.remaining reader.old)) }
    ensures bad_hex { IfErr result (λ fault. fault ≡ ToolFault.BadHex → IfSome (R.remaining reader.old) IsNoCapture) }
    ensures write { IfErr result (λ fault. fault ≡ ToolFault.Write → calls.new.write_failed ≡ true) }
    ensures part { IfErr result (λ fault. fault ≡ ToolFault.Write → IfSome (R.remaining reader.old) (λ text.
        AnnouncesPart text (W.contents writer.old) (W.contents writer.new))) }
    ensures others { IfErr result (λ fault. (fault ≡ ToolFault.Write → ⊥) → IfSome (R.remaining reader.old) (λ text.
        Announces text (W.contents writer.old) (W.contents writer.new))) }
{
    let mut hearing = Hearing::new(alloc);
    hear_live(alloc, calls, reader, writer, &mut hearing)?;
    judgement_of(&mut hearing)
}

/// Judges what a reader gives, writes each finding as soon as it is certain, and remembers which call failed.
#[tactic(auto, using(crate::proofs::what_is_certain_is_written::found_live, crate::proofs::what_is_certain_is_written::found_in_part))]
fn judge_live_by<R: Read, W: Write>(
    alloc: Global,
    calls: &mut Calls,
    reader: &mut R,
    writer: &mut W,
) -> Result<u8, ToolFault>
    ensures judged { IfOk result (λ status. IfSome (R.remaining reader.old) (λ text.
        FindsLive text (W.contents writer.old) (W.contents writer.new) status)) }
    ensures status { IfOk result (λ status. status < 2) }
    ensures end { OnOk result (IsAtEnd (R.remaining reader.new)) }
    ensures input { IfErr result (λ fault. fault ≡ ToolFault.Input → FailsToHear calls.new.read_failed (R.remaining reader.old)) }
    ensures bad_hex { IfErr result (λ fault. fault ≡ ToolFault.BadHex → IfSome (R.remaining reader.old) IsNoCapture) }
    ensures write { IfErr result (λ fault. fault ≡ ToolFault.Write → (calls.new.write_failed ≡ true)
        × IfSome (R.remaining reader.old) (λ text. BeginsLive text (W.contents writer.old) (W.contents writer.new))) }
    ensures others { IfErr result (λ fault. (fault ≡ ToolFault.Write → ⊥) → IfSome (R.remaining reader.old) (λ text.
        Announces text (W.contents writer.old) (W.contents writer.new))) }
{
    let judgement = judgement_live(alloc, calls, reader, writer)?;
    calls.write_text(writer, judgement.lines.as_slice())?;
    Ok(judgement.status)
}

/// Judges the capture of both sides that a reader gives, as [`judge`](crate::judge) does, and writes each finding as soon as it is
/// certain: after each piece that the reader gave, one line each, and the writer is flushed. What was found follows at the end.
///
/// A finding is that a session or the transport of a side broke the protocol or left the profile, or is judged no further. Its line
/// is one of the report of what had passed by then. None is written before octets of both sides have passed, nor as long as the
/// capture may begin in the middle of a connection.
///
/// [`ToolFault::Input`] means that a read failed, and [`ToolFault::Write`] that a write failed: what was written then is a
/// prefix of the text. After another fault findings alone were written. [`ToolFault::BadHex`] may come before the end is read.
pub fn judge_live<R: Read, W: Write>(
    alloc: Global,
    reader: &mut R,
    writer: &mut W,
) -> Result<u8, Failure>
    ensures judged { IfOk result (λ status. IfSome (R.remaining reader.old) (λ text.
        FindsLive text (W.contents writer.old) (W.contents writer.new) status)) }
    ensures status { IfOk result (λ status. status < 2) }
    ensures end { OnOk result (IsAtEnd (R.remaining reader.new)) }
    ensures input { IfErr result (λ f. f.fault ≡ ToolFault.Input → FailsToHear f.calls.read_failed (R.remaining reader.old)) }
    ensures bad_hex { IfErr result (λ f. f.fault ≡ ToolFault.BadHex → IfSome (R.remaining reader.old) IsNoCapture) }
    ensures write { IfErr result (λ f. f.fault ≡ ToolFault.Write → (f.calls.write_failed ≡ true)
        × IfSome (R.remaining reader.old) (λ text. BeginsLive text (W.contents writer.old) (W.contents writer.new))) }
    ensures others { IfErr result (λ f. (f.fault ≡ ToolFault.Write → ⊥) → IfSome (R.remaining reader.old) (λ text.
        Announces text (W.contents writer.old) (W.contents writer.new))) }
{
    let mut calls = Calls::new();
    match judge_live_by(alloc, &mut calls, reader, writer) {
        Ok(status) => Ok(status),
        Err(fault) => Err(Failure { fault, calls }),
    }
}
