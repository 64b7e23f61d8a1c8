//! The largest TSDU in each direction: what a CN and an AC agree, and what it limits.

ghost use Rattle.std.specs.Prelude.{◌≡◌, ◌<◌, ◌==◌, ◌||◌, nat_le, length};
ghost use Rattle.osi_spdu.specs.Sizes.{are_sizes, size_of};
ghost use Rattle.osi_spdu.specs.Values.{is_size};
ghost use Rattle.osi_message.specs.Meanings.{MIP, MIA, meant_by};
ghost use Rattle.osi_message.specs.Written.{user_data_of, written};
ghost use Rattle.osi_session.specs.Calls.{called_by};
ghost use Rattle.osi_session.specs.Room.{most_within};
ghost use Rattle.osi_session.specs.Sizes.{smaller, answered, smaller_sizes, answered_sizes, limit_of, fits_limit};
ghost use Rattle.osi_session.specs.Sound.{IsSound};

use crate::calling::MOST_DATA;
use crate::requests::Request;
use crate::state::State;
use osi_message::Message;
use osi_spdu::{Serial, TsduMaximumSize, TsduSize};

/// The most octets of a TSDU.
const MOST_OCTETS: usize = 1_048_576;

/// Whether a user may give this size: no limit, or at least 64 octets.
fn is_size(octets: u16) -> bool
    ensures { result ≡ is_size octets }
{
    octets == 0 || octets >= 64
}

/// A user may give these sizes.
pub(crate) fn are_sizes(sizes: TsduMaximumSize) -> bool
    ensures { result ≡ are_sizes sizes }
{
    is_size(sizes.from_asker) && is_size(sizes.from_answerer)
}

/// The smaller of two sizes; 0 is no limit.
fn smaller(one: u16, other: u16) -> u16
    ensures { result ≡ smaller one other }
{
    if one == 0 {
        return other;
    }
    if other == 0 || one < other {
        return one;
    }
    other
}

/// What an AC names: 0 if the CN has 0, otherwise the smaller of the CN's and the answerer's.
fn answered(asked: u16, given: u16) -> u16
    ensures { result ≡ answered asked given }
{
    if asked == 0 {
        return 0;
    }
    smaller(asked, given)
}

/// The smaller sizes, in either direction.
#[tactic(auto, unfolding(crate::specs::Sizes::smaller_sizes))]
pub(crate) fn smaller_sizes(one: TsduMaximumSize, other: TsduMaximumSize) -> TsduMaximumSize
    ensures { result ≡ smaller_sizes one other }
{
    TsduMaximumSize {
        from_asker: smaller(one.from_asker, other.from_asker),
        from_answerer: smaller(one.from_answerer, other.from_answerer),
    }
}

/// The sizes that an AC names, in either direction.
#[tactic(auto, unfolding(crate::specs::Sizes::answered_sizes))]
pub(crate) fn answered_sizes(asked: TsduMaximumSize, given: TsduMaximumSize) -> TsduMaximumSize
    ensures { result ≡ answered_sizes asked given }
{
    TsduMaximumSize {
        from_asker: answered(asked.from_asker, given.from_asker),
        from_answerer: answered(asked.from_answerer, given.from_answerer),
    }
}

/// The most octets of a TSDU of this end, 0 for no limit: once the CN is answered, the size of its direction.
pub(crate) fn limit_of(state: &State) -> u16
    ensures { result ≡ limit_of state.now }
{
    if !state.phase.is_settled() {
        return 0;
    }
    if state.is_caller {
        state.sizes.from_asker
    } else {
        state.sizes.from_answerer
    }
}

/// The most octets of data in a TSDU of at most this many octets, 0 for no limit.
#[tactic(auto, unfolding(crate::specs::Room::most_within))]
pub(crate) fn most_within(limit: u16) -> usize
    ensures { result ≡ most_within limit }
{
    let limit = limit as usize;
    if limit == 0 || limit > MOST_OCTETS {
        return MOST_DATA;
    }
    limit.saturating_sub(4)
}

/// The same, as a size that a user may give.
pub(crate) fn size_limit(state: &State) -> TsduSize
    requires { IsSound state.now }
    ensures { size_of result ≡ limit_of state.now }
{
    match TsduSize::new(limit_of(state)) {
        Some(limit) => limit,
        None => unreachable!(),
    }
}

/// Whether a message fits a TSDU of this many octets.
fn is_within(limit: u16, sent: &Message) -> bool
    requires { length (user_data_of (meant_by sent.now)) < 65000 }
    ensures { result ≡ nat_le (length (written (meant_by sent.now))) limit }
{
    sent.written_len() <= limit as usize
}

/// Whether the TSDU of a message is within the limit.
fn fits_limit_of(state: &State, sent: &Message) -> bool
    requires { length (user_data_of (meant_by sent.now)) < 65000 }
    ensures { result ≡ (limit_of state.now == 0 || nat_le (length (written (meant_by sent.now))) (limit_of state.now)) }
{
    let limit = limit_of(state);
    limit == 0 || is_within(limit, sent)
}

/// Whether the TSDU of a call is within the limit. Data may be longer, and so may an answer to the CN.
pub(crate) fn fits_limit(state: &State, request: &Request, sent: &Message) -> bool
    requires { length (user_data_of (meant_by sent.now)) < 65000 }
    ensures { result ≡ fits_limit state.now (called_by request.now) (meant_by sent.now) }
{
    match request {
        Request::Accept { .. } | Request::Refuse { .. } | Request::Data { .. } => true,
        _ => fits_limit_of(state, sent),
    }
}

/// Whether a minor point with these octets fits a TSDU of this length. It is kept out of line: otherwise the room for
/// its message would be made even without a limit.
#[inline(never)]
#[tactic(auto, unfolding(osi_message::specs::Written::user_data_of))]
fn is_point_within(limit: u16, confirm: bool, number: Serial, user_data: &[u8]) -> bool
    requires { length user_data.now < 65000 }
    ensures { result ≡ nat_le (length (written (MIP confirm number.number user_data.now))) limit }
{
    let sent = Message::MinorPoint {
        confirm,
        number,
        user_data,
    };
    is_within(limit, &sent)
}

/// The same of a confirmation.
#[inline(never)]
#[tactic(auto, unfolding(osi_message::specs::Written::user_data_of))]
fn is_ack_within(limit: u16, number: Serial, user_data: &[u8]) -> bool
    requires { length user_data.now < 65000 }
    ensures { result ≡ nat_le (length (written (MIA number.number user_data.now))) limit }
{
    let sent = Message::MinorAck { number, user_data };
    is_within(limit, &sent)
}

/// Whether the TSDU of a minor point is within the limit.
pub(crate) fn fits_point(state: &State, confirm: bool, number: Serial, user_data: &[u8]) -> bool
    requires { length user_data.now < 65000 }
    ensures { result ≡ (limit_of state.now == 0
        || nat_le (length (written (MIP confirm number.number user_data.now))) (limit_of state.now)) }
{
    let limit = limit_of(state);
    limit == 0 || is_point_within(limit, confirm, number, user_data)
}

/// Whether the TSDU of a confirmation is within the limit.
pub(crate) fn fits_ack(state: &State, number: Serial, user_data: &[u8]) -> bool
    requires { length user_data.now < 65000 }
    ensures { result ≡ (limit_of state.now == 0 || nat_le (length (written (MIA number.number user_data.now))) (limit_of state.now)) }
{
    let limit = limit_of(state);
    limit == 0 || is_ack_within(limit, number, user_data)
}
