//! Joining the parts of a Data.

ghost use Rattle.std.specs.Prelude.{◌≡◌, ◌<◌, ◌++◌, ◌∷◌, [], if◌then◌else◌, ◌&&◌, is_some, None, Some, length, nat_le, option_copied, IfOk};
ghost use Rattle.std.specs.Prelude.{OnOk, OnErr};
ghost use Rattle.osi_message.specs.Words.{part};
ghost use Rattle.osi_session.specs.Allowed.{most_data};
ghost use Rattle.osi_session.specs.Joining.{is_in_place, is_last, joined_octets, word_verdict};
ghost use Rattle.osi_session.specs.Shown.{Data};
ghost use Rattle.osi_session.specs.Steps.{shown_list, told_of};

use crate::calling::MOST_DATA;
use crate::faults::UnitFault;
use crate::indications::Indication;
use crate::state::State;
use osi_message::{Octets, Place};
use osi_spdu::Kind;
use std::alloc::{AllocError, Global};

/// The verdict on a part.
#[derive(Clone, Copy)]
pub(crate) enum PartVerdict {
    /// It is ignored: the connection is over, or a restart is awaited.
    Dropped,
    /// It is answered by AB.
    Bad(UnitFault),
    /// It is joined to the parts before it.
    Good,
}

/// The octets of an unfinished SSDU.
pub(crate) fn joined_octets(joined: Option<&Octets>) -> &[u8]
    ensures { result.now ≡ joined_octets (option_copied joined.entry) }
{
    match joined {
        Some(octets) => octets.as_slice(),
        None => &[],
    }
}

/// A first part is in place if nothing is unfinished, and a later one if something is.
fn is_in_place(joined: Option<&Octets>, place: Place) -> bool
    ensures { result ≡ is_in_place (option_copied joined.entry) place }
{
    match place {
        Place::First => joined.is_none(),
        Place::Middle | Place::Last => joined.is_some(),
    }
}

/// Whether a part after the joined octets leaves no more than a Data may have.
#[tactic(auto, using(crate::proofs::tsdu::the_verdict_while_joining::length_both))]
fn fits(joined: &[u8], user_data: &[u8]) -> bool
    ensures { result ≡ nat_le (length (joined.now ++ user_data.now)) most_data }
{
    joined.len() + user_data.len() <= MOST_DATA
}

/// The verdict on a part: first as a DT, then by its place, then by its length.
#[tactic(auto, using(crate::proofs::tsdu::the_verdict_while_joining::part_verdict))]
pub(crate) fn judge_part(
    state: &State,
    joined: Option<&Octets>,
    place: Place,
    user_data: &[u8],
) -> PartVerdict
    ensures { result ≡ told_of (word_verdict (record { state = state.now; joined = option_copied joined.entry }) (part place
        user_data.now)) }
{
    let si = Kind::DataTransfer.si();
    if state.phase.is_over() || state.phase.is_restarting() {
        return PartVerdict::Dropped;
    }
    if !state.phase.takes_data() {
        return PartVerdict::Bad(UnitFault::Unexpected(si));
    }
    if state.held.data_token {
        return PartVerdict::Bad(UnitFault::TokenHeld(si));
    }
    if !is_in_place(joined, place) {
        return PartVerdict::Bad(UnitFault::BadEnclosure(si));
    }
    if !fits(joined_octets(joined), user_data) {
        return PartVerdict::Bad(UnitFault::DataTooLong(si));
    }
    PartVerdict::Good
}

/// Joins a part to those before it; for the last one, no more room is made than it needs. `Err` changes nothing, and is
/// possible only if the part has octets.
pub(crate) fn join(
    alloc: Global,
    joined: &mut Option<Octets>,
    place: Place,
    user_data: &[u8],
) -> Result<(), AllocError>
    ensures ok { OnOk result (joined.new ≡ Some (joined_octets joined.old ++ user_data.now)) }
    ensures err { OnErr result (joined.new ≡ joined.old) }
    ensures memory { OnErr result (0 < length user_data.now) }
{
    if let Some(octets) = joined {
        return match place {
            Place::First | Place::Middle => octets.extend(user_data),
            Place::Last => octets.complete(user_data),
        };
    }
    let mut octets = Octets::new(alloc);
    octets.extend(user_data)?;
    *joined = Some(octets);
    Ok(())
}

/// The joined octets after a part, as a copy.
pub(crate) fn joined_with(
    alloc: Global,
    joined: Option<&Octets>,
    user_data: &[u8],
) -> Result<Octets, AllocError>
    ensures ok { IfOk result (λ o. o ≡ joined_octets (option_copied joined.entry) ++ user_data.now) }
{
    let mut octets = Octets::new(alloc);
    octets.extend(joined_octets(joined))?;
    octets.complete(user_data)?;
    Ok(octets)
}

/// The indication after a part that was joined: after the last part all joined data, which is then no longer kept.
pub(crate) fn shown_behind(place: Place, joined: &mut Option<Octets>) -> Option<Indication>
    ensures shown { shown_list result ≡ (if is_last place && is_some joined.old then Data (joined_octets joined.old) ∷ [] else []) }
    ensures joined { joined.new ≡ (if is_last place then None else joined.old) }
{
    match place {
        Place::First => None,
        Place::Middle => None,
        Place::Last => {
            let user_data = joined.take()?;
            Some(Indication::Data { user_data })
        }
    }
}
