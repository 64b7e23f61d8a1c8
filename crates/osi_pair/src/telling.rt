//! Fetching the indications of an end, and noting them in the journal.

ghost use Rattle.std.specs.Prelude.{◌≡◌, ◌+◌, ◌<◌, ◌≤◌, ◌++◌, ◌∷◌, ◌⊎◌, [], map, length, vec_len, vec_capacity};
ghost use Rattle.osi_session.specs.Shown.{Shown};
ghost use Rattle.osi_pair.specs.Entries.{entry_by};
ghost use Rattle.osi_pair.specs.Telling.{Tells, end_entries};

use crate::entries::Entry;
use crate::sides::Side;
use osi_carrier::EndReason;
use osi_stack::Stack;

/// The most entries that one piece or a break can add: the indications, and the end.
pub(crate) const ROOM: usize = 82;

/// The most pending indications: 17 of one TSDU, and a loss for each of 64 connections.
const MOST: usize = 81;

/// Adds an entry, for which there is room.
pub(crate) fn note(journal: &mut Vec<Entry>, entry: Entry)
    requires { vec_len journal.old < vec_capacity journal.old }
    ensures items { journal.new.items ≡ journal.old.items ++ entry ∷ [] }
    ensures len { vec_len journal.new ≡ vec_len journal.old + 1 }
    ensures capacity { vec_capacity journal.old ≤ vec_capacity journal.new }
{
    match journal.push(entry) {
        Ok(()) => (),
        Err(_) => unreachable!(),
    }
}

/// Fetches pending indications of a side and notes them, as far as there is room.
#[inline(always)]
pub(crate) fn show(side: Side, stack: &mut Stack, journal: &mut Vec<Entry>)
    requires { vec_len journal.old + 81 < vec_capacity journal.old }
    ensures tells { Tells side stack.old (map entry_by journal.old.items) stack.new (map entry_by journal.new.items) }
    ensures room { vec_len journal.new < vec_capacity journal.new }
    ensures capacity { vec_capacity journal.old ≤ vec_capacity journal.new }
    ensures notes { (vec_len journal.new + 81 < vec_capacity journal.new)
        ⊎ (length (map entry_by journal.old.items) < length (map entry_by journal.new.items)) }
{
    let mut count = 0;
    'shown: while count < MOST {
        let Some((reference, indication)) = stack.next_indication() else {
            return;
        };
        let entry = Entry::Indication {
            side,
            reference,
            indication,
        };
        note(journal, entry);
        count += 1;
    }
}

/// Notes the end of a side, if it has ended since.
#[inline(always)]
pub(crate) fn note_end(
    side: Side,
    before: Option<EndReason>,
    after: Option<EndReason>,
    journal: &mut Vec<Entry>,
)
    requires { vec_len journal.old < vec_capacity journal.old }
    ensures says { map entry_by journal.new.items ≡ map entry_by journal.old.items ++ end_entries side before after }
    ensures capacity { vec_capacity journal.old ≤ vec_capacity journal.new }
    ensures notes { (journal.new ≡ journal.old)
        ⊎ (length (map entry_by journal.old.items) < length (map entry_by journal.new.items)) }
{
    if before.is_some() {
        return;
    }
    if let Some(reason) = after {
        note(journal, Entry::End { side, reason });
    }
}
