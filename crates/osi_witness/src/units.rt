//! The units of a TSDU in the order in which they act.

ghost use Rattle.std.specs.Prelude.{◌≡◌, ◌||◌, option_map, slice_get};
ghost use Rattle.osi_message.specs.Meanings.{meant_by};
ghost use Rattle.osi_message.specs.Reading.{word, said_by_units};
ghost use Rattle.osi_session.specs.Joining.{acting_words};
ghost use Rattle.osi_session.specs.Respond.{has_no_effect as is_without_effect};
ghost use Rattle.osi_spdu.specs.Groups.{units_of};
ghost use Rattle.osi_spdu.specs.Units.{said_by};
ghost use Rattle.osi_witness.specs.Units.{words_of};

use osi_message::Message;
use osi_session::is_restart_unit;
use osi_spdu::{Group, Spdu, read_tsdu};

fn either(one: bool, other: bool) -> bool
    ensures { result ≡ (one || other) }
{
    one || other
}

/// The unit of a group that acts in this place.
fn acting_in<'a>(group: &Group<'a>, place: usize) -> Option<Spdu<'a>>
    ensures { option_map (λ unit. word (said_by unit)) result ≡ slice_get (acting_words (said_by_units (units_of group.now))) place }
{
    let first = *group.first();
    let mut behind = group.behind();
    let mut left = place;
    let mut restarts = false;
    'units: while let Some(unit) = behind.next() {
        if left == 0 {
            return Some(unit);
        }
        left -= 1;
        restarts = either(restarts, is_restart_unit(&unit));
    }
    if restarts {
        return None;
    }
    if left > 0 {
        return None;
    }
    Some(first)
}

/// The unit of a TSDU that acts in this place, from 0 on; none if there is none. The first unit acts after those that follow it, and
/// not at all if one of these is an RS.
pub fn acting_unit(tsdu: &[u8], place: usize) -> Option<Spdu<'_>>
    ensures { option_map (λ unit. word (said_by unit)) result ≡ slice_get (words_of tsdu.now) place }
{
    match read_tsdu(tsdu) {
        Ok(group) => acting_in(&group, place),
        Err(_) => None,
    }
}

/// Whether a message is a token item that names no token, which has no effect.
pub fn has_no_effect(message: &Message<'_>) -> bool
    ensures { result ≡ is_without_effect (meant_by message.now) }
{
    match message {
        Message::Give { tokens } | Message::Please { tokens, .. } => tokens.is_empty(),
        _ => false,
    }
}
