//! The states of connections at the end of a script.

ghost use Rattle.std.specs.Prelude.{◌≡◌, ◌++◌, OnOk};
ghost use Rattle.osi_session.specs.Phases.{is_ended};
ghost use Rattle.osi_pair.specs.Ends.{end_at};
ghost use Rattle.osi_transcript.specs.Standings.{standing_text, standing_texts, phase_text, all_standings};

use crate::asking::named;
use osi_carrier::Ref;
use osi_pair::{Pair, Side};
use osi_script::{Standing, push_standing};
use osi_session::Phase;
use osi_stack::Stack;
use std::alloc::{AllocError, Global};

fn has_ended(phase: Phase) -> bool
    ensures { result ≡ is_ended phase }
{
    matches!(phase, Phase::Ended)
}

/// Adds the line with the state of a connection, unless it has ended.
#[tactic(auto, using(crate::proofs::the_line_of_a_state::stand_of), unfolding(crate::specs::Standings::phase_text))]
fn push_phase(
    alloc: Global,
    out: &mut Vec<u8>,
    side: Side,
    stack: &Stack,
    reference: Ref,
    phase: Phase,
) -> Result<(), AllocError>
    ensures { OnOk result (out.new.items ≡ out.old.items ++ phase_text side reference.0 stack.now.end phase) }
{
    if has_ended(phase) {
        return Ok(());
    }
    let standing = Standing {
        side: named(side),
        reference: reference.0,
        phase,
        held: stack.held(reference),
        next_serial: stack.next_serial(reference),
        confirmed_below: stack.confirmed_below(reference),
        lowest_restart: stack.lowest_restart(reference),
    };
    push_standing(alloc, out, &standing)?;
    Ok(())
}

/// Adds the lines with the states of a side's connections, by rising reference, up to the last reference given.
fn push_side(alloc: Global, out: &mut Vec<u8>, side: Side, stack: &Stack) -> Result<(), AllocError>
    ensures { OnOk result (out.new.items ≡ out.old.items ++ standing_texts side stack.now.end 65535) }
{
    'references: for before in 0..u16::MAX {
        let reference = Ref(before + 1);
        let Some(phase) = stack.phase(reference) else {
            return Ok(());
        };
        push_phase(alloc, out, side, stack, reference, phase)?;
    }
    Ok(())
}

/// Adds the lines with the states of all connections, the left side first.
pub(crate) fn push_standings(
    alloc: Global,
    out: &mut Vec<u8>,
    pair: &Pair,
) -> Result<(), AllocError>
    ensures { OnOk result (out.new.items ≡ out.old.items ++ all_standings pair.now.ends) }
{
    push_side(alloc, out, Side::Left, pair.stack(Side::Left))?;
    push_side(alloc, out, Side::Right, pair.stack(Side::Right))
}
