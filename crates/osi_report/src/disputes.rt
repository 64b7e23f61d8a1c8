//! Feeds octets to a judge, gives the judgement of what it was fed, and that of a text.

ghost use Rattle.std.specs.Prelude.{◌≡◌, ◌++◌, ◌⊎◌, ◌<◌, Err, IfErr, IfOk, OnOk};
ghost use Rattle.osi_side.specs.Captures.{Capture, piece, stream};
ghost use Rattle.osi_side.specs.declared.directions.Direction.TheVariants.{Left};
ghost use Rattle.osi_listing.specs.Capture.{IsNoCapture};
ghost use Rattle.osi_judge.specs.Standing.{HoldsState};
ghost use Rattle.osi_judge.specs.States.{comes_to};
ghost use Rattle.osi_report.specs.Disputes.{IsJudgement, Judges};
ghost use Rattle.osi_report.specs.Openings.{Opens, unjudged};
ghost use Rattle.osi_report.specs.Passing.{passed_by};

use crate::hearing::Hearing;
use crate::openings::Opening;
use crate::places::Passing;
use crate::report_texts::push_judgement;
use osi_judge::Judge;
use osi_listing::CaptureFault;
use osi_side::Direction;
use std::alloc::{AllocError, Global};

/// The judgement of a text.
#[derive(Drop)]
pub struct Judgement {
    /// Its lines.
    pub lines: Vec<u8>,
    /// 0 if both sides kept the protocol; 1 if one broke it or left the profile, or the capture was not judged.
    pub status: u8,
}

/// Feeds all of a piece.
pub(crate) fn feed_all(
    judge: &mut Judge,
    direction: Direction,
    octets: &[u8],
) -> Result<(), AllocError>
    ensures { OnOk result ((capture : Capture) → HoldsState judge.old (comes_to capture)
        → HoldsState judge.new (comes_to (capture ++ piece direction octets.now))) }
{
    let mut rest = octets;
    'rest: while !rest.is_empty() {
        let used = judge.feed(direction, rest)?;
        let (_, behind) = rest.split_at(used);
        rest = behind;
    }
    Ok(())
}

/// The judgement of everything that a judge was fed.
pub(crate) fn judgement_by(
    alloc: Global,
    judge: &mut Judge,
    opening: &Opening,
) -> Result<Judgement, AllocError>
    ensures judged { IfOk result (λ j. (capture : Capture) → HoldsState judge.old (comes_to capture)
        → Opens opening.now (stream Left capture)
        → Judges (unjudged capture) (comes_to capture) j.lines.items j.status) }
    ensures small { IfOk result (λ j. j.status < 2) }
{
    judge.settle()?;
    let mut lines = Vec::new(alloc);
    let status = push_judgement(&mut lines, judge, opening)?;
    Ok(Judgement { lines, status })
}

/// Octets of a side pass.
pub(crate) fn pass(
    judge: &mut Judge,
    opening: &mut Opening,
    direction: Direction,
    octets: &[u8],
) -> Result<(), CaptureFault>
    ensures judge { OnOk result ((capture : Capture) → HoldsState judge.old (comes_to capture)
        → HoldsState judge.new (comes_to (capture ++ piece direction octets.now))) }
    ensures opening { (capture : Capture) → Opens opening.old (stream Left capture)
        → Opens opening.new (stream Left (capture ++ piece direction octets.now)) }
    ensures memory { IfErr result (λ fault. fault ≡ CaptureFault.OutOfMemory) }
{
    opening.pass(direction, octets);
    match feed_all(judge, direction, octets) {
        Ok(()) => Ok(()),
        Err(_) => Err(CaptureFault::OutOfMemory),
    }
}

/// The octet passes that a character completes, if it completes one.
pub(crate) fn pass_if(
    judge: &mut Judge,
    opening: &mut Opening,
    passing: Option<Passing>,
) -> Result<(), CaptureFault>
    ensures judge { OnOk result ((capture : Capture) → HoldsState judge.old (comes_to capture)
        → HoldsState judge.new (comes_to (capture ++ passed_by passing))) }
    ensures opening { (capture : Capture) → Opens opening.old (stream Left capture)
        → Opens opening.new (stream Left (capture ++ passed_by passing)) }
    ensures memory { IfErr result (λ fault. fault ≡ CaptureFault.OutOfMemory) }
{
    match passing {
        None => Ok(()),
        Some(passing) => pass(judge, opening, passing.direction, &[passing.octet]),
    }
}

/// Judges the capture of both sides in a text. Returns [`CaptureFault::BadHex`] if the text has a character other than
/// digits, blanks and comments, or an odd number of digits.
pub fn judge_text(alloc: Global, text: &[u8]) -> Result<Judgement, CaptureFault>
    ensures judged { IfOk result (λ j. IsJudgement text.now j.lines.items j.status) }
    ensures status { IfOk result (λ j. j.status < 2) }
    ensures bad_hex { result ≡ Err CaptureFault.BadHex → IsNoCapture text.now }
    ensures no_capture { IsNoCapture text.now → (result ≡ Err CaptureFault.BadHex) ⊎ (result ≡ Err CaptureFault.OutOfMemory) }
{
    let mut hearing = Hearing::new(alloc);
    if let Err(fault) = hearing.feed(text) {
        return Err(fault);
    }
    hearing.judgement()
}
