//! What a slot of C holds that judges a byte connection.

ghost use Rattle.std.specs.Prelude.{◌≡◌, ◌≤◌, ◌<◌, [], IfOk, OnErr, length, take};
ghost use Rattle.osi_c.specs.Judges.{IsNew, Passes, TakesPiece};

use crate::told::Told;
use osi_judge::Judge;
use osi_report::Opening;
use osi_side::Direction;
use std::alloc::{AllocError, Global};

/// How much may be kept of a connection: the outlines of the TSDUs of both sides, each 48 octets more than its length and equal ones
/// in a row once, and what has passed of unfinished TSDUs. That is room for a TSDU of each side, as long as one may be, and for as
/// much of outlines.
const MOST_OF_A_CONNECTION: usize = 3_145_728;

/// The contents of a C slot that judges a byte connection: the judge; how the octets of left begin; of what C was told; how many of
/// the connections that are over were seen, in the order of `Judge::replaced`, of which nothing more is to be told; and the text that
/// C asked for last. The text is lent until the next call.
#[derive(Drop)]
pub struct HeldJudge {
    pub judge: Judge,
    pub opening: Opening,
    pub told: Told,
    pub seen: usize,
    pub text: Vec<u8>,
}

/// Nothing has passed.
pub(crate) fn fresh(alloc: Global) -> HeldJudge
    ensures { IsNew result }
{
    HeldJudge {
        judge: Judge::within(alloc, MOST_OF_A_CONNECTION),
        opening: Opening::new(),
        told: Told::new(alloc),
        seen: 0,
        text: Vec::new(alloc),
    }
}

/// Octets of a side pass: those up to the end of a header or of a packet.
fn pass(held: &mut HeldJudge, side: Direction, octets: &[u8]) -> Result<usize, AllocError>
    ensures used { IfOk result (λ n. n ≤ length octets.now) }
    ensures some { IfOk result (λ n. 0 < length octets.now → 0 < n) }
    ensures passes { IfOk result (λ n. Passes side (take n octets.now) held.old held.new) }
    ensures err { OnErr result (Passes side [] held.old held.new) }
{
    let used = held.judge.feed(side, octets)?;
    let (passed, _) = octets.split_at(used);
    held.opening.pass(side, passed);
    Ok(used)
}

/// A piece of a side passes. Says how many of its octets did: all, or fewer if memory ran out.
pub(crate) fn take_piece(held: &mut HeldJudge, side: Direction, piece: &[u8]) -> usize
    ensures { TakesPiece side piece.now result held.old held.new }
{
    let mut rest = piece;
    'rest: while !rest.is_empty() {
        let Ok(used) = pass(held, side, rest) else {
            return piece.len() - rest.len();
        };
        let (_, behind) = rest.split_at(used);
        rest = behind;
    }
    piece.len()
}
