//! Carrying octets from one end to the other.

ghost use Rattle.std.specs.Prelude.{◌≡◌, ◌+◌, ◌<◌, ◌≤◌, ◌⊎◌, true, false, not, length, map, vec_len, vec_capacity, IfOk, IfErr, OnErr};
ghost use Rattle.osi_stack.specs.Calls.{carried};
ghost use Rattle.osi_stack.specs.State.{waits};
ghost use Rattle.osi_pair.specs.Carrying.{FeedsFirst, CarriesPiece, Carries, IsHeldUp};
ghost use Rattle.osi_pair.specs.Entries.{entry_by};
ghost use Rattle.osi_pair.specs.Events.{Moves};

use crate::entries::Entry;
use crate::events::{Applied, DONE};
use crate::faults::PairError;
use crate::sides::Side;
use crate::telling::{ROOM, note_end, show};
use osi_stack::Stack;

/// Feeds an end at most this many octets that the other has sent. Those that it uses are taken from the other.
fn feed(from: &mut Stack, to: &mut Stack, most: usize) -> usize
    requires { most ≤ length from.old.end.carrier.outgoing }
    ensures feeds { FeedsFirst most from.old to.old result to.new }
    ensures taken { from.new ≡ record from.old { end = carried result from.old.end } }
    ensures used { result ≤ most }
    ensures progress { waits to.old.end.lines ≡ false → 0 < most → 0 < result }
{
    let fed = to.feed(&from.outgoing()[..most]);
    from.taken(fed.used);
    fed.used
}

/// Carries one piece. The journal has room for its entries.
fn carry_piece(
    side: Side,
    from: &mut Stack,
    to: &mut Stack,
    most: usize,
    journal: &mut Vec<Entry>,
) -> usize
    requires octets { most ≤ length from.old.end.carrier.outgoing }
    requires room { vec_len journal.old + 81 < vec_capacity journal.old }
    ensures carries { CarriesPiece side most
        (record { from = from.old; to = to.old; journal = map entry_by journal.old.items }) result
        (record { from = from.new; to = to.new; journal = map entry_by journal.new.items }) }
    ensures used { result ≤ most }
    ensures left { length from.new.end.carrier.outgoing + result ≡ length from.old.end.carrier.outgoing }
    ensures notes { (vec_len journal.new + 81 < vec_capacity journal.new)
        ⊎ (length (map entry_by journal.old.items) < length (map entry_by journal.new.items)) }
    ensures capacity { vec_capacity journal.old ≤ vec_capacity journal.new }
    ensures progress { waits to.old.end.lines ≡ false → 0 < most → 0 < result }
{
    let before = to.ended();
    let used = feed(from, to, most);
    show(side, to, journal);
    note_end(side, before, to.ended(), journal);
    used
}

/// Carries this many octets to the end of a side, or fewer if the journal has no room for what more octets may cause.
/// If there is no room at the start, nothing has changed.
pub(crate) fn carry(
    side: Side,
    from: &mut Stack,
    to: &mut Stack,
    octets: usize,
    journal: &mut Vec<Entry>,
) -> Result<Applied, PairError>
    requires { octets ≤ length from.old.end.carrier.outgoing }
    ensures carries { IfOk result (λ applied. Carries side octets
        (record { from = from.old; to = to.old; journal = map entry_by journal.old.items }) applied.carried
        (record { from = from.new; to = to.new; journal = map entry_by journal.new.items })) }
    ensures moves { IfOk result (λ applied. Moves (not (waits to.old.end.lines)) octets applied) }
    ensures full { IfOk result (λ applied. applied.is_cut_short ≡ true →
        (vec_capacity journal.new < length (map entry_by journal.new.items) + 82)
        ⊎ IsHeldUp side octets (record { from = from.old; to = to.old; journal = map entry_by journal.old.items })) }
    ensures cut { IfOk result (λ applied. applied.is_cut_short ≡ true →
        (length (map entry_by journal.old.items) < length (map entry_by journal.new.items))
        ⊎ IsHeldUp side octets (record { from = from.old; to = to.old; journal = map entry_by journal.old.items })) }
    ensures memory { IfErr result (λ error. error ≡ PairError.OutOfMemory) }
    ensures some { OnErr result (0 < octets) }
    ensures from { OnErr result (from.new ≡ from.old) }
    ensures to { OnErr result (to.new ≡ to.old) }
    ensures journal { OnErr result (journal.new.items ≡ journal.old.items) }
    ensures capacity { vec_capacity journal.old ≤ vec_capacity journal.new }
{
    if octets == 0 {
        return Ok(DONE);
    }
    let Ok(()) = journal.reserve(ROOM) else {
        return Err(PairError::OutOfMemory);
    };
    let mut carried = 0;
    'pieces: loop {
        let used = carry_piece(side, from, to, octets - carried, journal);
        carried += used;
        if used == 0 || carried == octets || journal.reserve(ROOM).is_err() {
            return Ok(Applied {
                carried,
                is_cut_short: carried < octets,
            });
        }
    }
}
