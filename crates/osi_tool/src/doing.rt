//! Which job runs what.

ghost use Rattle.std.specs.Prelude.{◌≡◌, ◌+◌, ◌<◌, ◌⊎◌, true, false, length, IfOk, IfErr, IfSome, IsErrAnd};
ghost use Rattle.osi_tool.specs.Doing.{Does, BeginsToDo, FailsToTake, IsUnreadable, is_live, longest};
ghost use Rattle.osi_tool.specs.Live.{Announces};
ghost use Rattle.osi_tool.specs.Show.{TakesAtMost};

use crate::faults::{Failure, ToolFault};
use crate::jobs::Job;
use crate::judging::judge;
use crate::live::judge_live;
use crate::pairing::pair;
use crate::showing::show;
use crate::witnessing::witness;
use std::alloc::Global;
use std::io::{Read, Write};

/// Does a job with the text that a reader gives, and returns the status: 0 or 1.
///
/// [`ToolFault::Input`] means that a read failed or the input is too long, [`ToolFault::BadHex`] that the text is not
/// a capture, and [`ToolFault::Write`] that a write failed: what was written then is a prefix of the text. After
/// another fault nothing was written, but for what `judge --live` had found by then.
pub fn do_job<R: Read, W: Write>(
    alloc: Global,
    job: Job,
    reader: &mut R,
    writer: &mut W,
) -> Result<u8, Failure>
    ensures done { IfOk result (λ status. IfSome (R.remaining reader.old) (λ text.
        Does job text (W.contents writer.old) (W.contents writer.new) status)) }
    ensures status { IfOk result (λ status. status < 2) }
    ensures most { IfSome (longest job) (λ most. TakesAtMost (most + 1) (R.remaining reader.old) (R.remaining reader.new)) }
    ensures long { IfSome (longest job) (λ most. IfSome (R.remaining reader.old) (λ text. most < length text →
        IsErrAnd result (λ f. (f.fault ≡ ToolFault.Input) ⊎ (f.fault ≡ ToolFault.OutOfMemory)))) }
    ensures input { IfErr result (λ f. f.fault ≡ ToolFault.Input →
        FailsToTake job f.calls.read_failed (R.remaining reader.old) × (is_live job ≡ false → writer.new ≡ writer.old)) }
    ensures bad_hex { IfErr result (λ f. f.fault ≡ ToolFault.BadHex →
        IfSome (R.remaining reader.old) (IsUnreadable job) × (is_live job ≡ false → writer.new ≡ writer.old)) }
    ensures write { IfErr result (λ f. f.fault ≡ ToolFault.Write → (f.calls.write_failed ≡ true)
        × IfSome (R.remaining reader.old) (λ text. BeginsToDo job text (W.contents writer.old) (W.contents writer.new))) }
    ensures memory { IfErr result (λ f. f.fault ≡ ToolFault.OutOfMemory → is_live job ≡ false → writer.new ≡ writer.old) }
    ensures live { IfErr result (λ f. (f.fault ≡ ToolFault.Write → ⊥) → is_live job ≡ true → IfSome (R.remaining reader.old) (λ text.
        Announces text (W.contents writer.old) (W.contents writer.new))) }
{
    match job {
        Job::Show => show(alloc, reader, writer),
        Job::Pair => pair(alloc, reader, writer),
        Job::Judge => judge(alloc, reader, writer),
        Job::Live => judge_live(alloc, reader, writer),
        Job::Witness => witness(alloc, reader, writer),
    }
}
