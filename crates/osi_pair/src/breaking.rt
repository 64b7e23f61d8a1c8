//! Telling an end that the byte connection is broken.

ghost use Rattle.std.specs.Prelude.{◌≡◌, ◌≤◌, None, map, vec_capacity, OnOk, OnErr, IfErr};
ghost use Rattle.osi_pair.specs.Entries.{entry_by};
ghost use Rattle.osi_pair.specs.Events.{IsToldOfBreak};

use crate::entries::Entry;
use crate::faults::PairError;
use crate::sides::Side;
use crate::telling::{ROOM, note_end, show};
use osi_stack::Stack;

/// Tells an end of the break, and notes what its users receive. An allocation failure changes nothing.
pub(crate) fn tell_break(
    side: Side,
    stack: &mut Stack,
    journal: &mut Vec<Entry>,
) -> Result<(), PairError>
    ensures told { OnOk result (IsToldOfBreak side stack.old (map entry_by journal.old.items) stack.new (map entry_by journal.new.items)) }
    ensures memory { IfErr result (λ error. error ≡ PairError.OutOfMemory) }
    ensures lasts { OnErr result (stack.old.end.carrier.ended ≡ None) }
    ensures err { OnErr result (stack.new ≡ stack.old) }
    ensures silent { OnErr result (journal.new.items ≡ journal.old.items) }
    ensures capacity { vec_capacity journal.old ≤ vec_capacity journal.new }
{
    let before = stack.ended();
    if before.is_some() {
        return Ok(());
    }
    let Ok(()) = journal.reserve(ROOM) else {
        return Err(PairError::OutOfMemory);
    };
    stack.broken();
    show(side, stack, journal);
    note_end(side, before, stack.ended(), journal);
    Ok(())
}
