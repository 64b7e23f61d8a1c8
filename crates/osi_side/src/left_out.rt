//! What X.225 lets a session send in its state, and no session of this product sends there.

ghost use Rattle.std.specs.Prelude.{◌≡◌};
ghost use Rattle.osi_message.specs.Meanings.{meant_by};
ghost use Rattle.osi_side.specs.LeftOut.{opens_again, gives_early, resynchronizes_late, is_restartable_too, is_numbered_otherwise};
ghost use Rattle.osi_side.specs.LeftOut.{is_unit_left_out};

use osi_message::{Message, Tokens};
use osi_session::{Breach, CallError, Phase, Standing};
use osi_spdu::ResyncType;

/// Whether a message is a CN of a calling side whose session is over: another session may follow on the same transport connection
/// (X.225 section 6.2).
fn opens_again(standing: &Standing, message: &Message) -> bool
    ensures { result ≡ opens_again standing.now (meant_by message.now) }
{
    match message {
        Message::Connect { .. } => standing.is_caller() && matches!(standing.phase(), Phase::Ended),
        _ => false,
    }
}

/// Whether a message gives tokens that the side holds, while its major point waits for the confirmation.
#[tactic(auto, using(osi_message::proofs::the_octet_of_a_set_of_tokens::named_octet))]
fn gives_early(standing: &Standing, message: &Message) -> bool
    ensures { result ≡ gives_early standing.now (meant_by message.now) }
{
    match message {
        Message::Give { tokens } => matches!(standing.phase(), Phase::MajorAsked)
            && tokens.is_within(Tokens::of(standing.held())),
        _ => false,
    }
}

/// Whether a message is a resynchronization by a side that waits for the answer to its FN.
fn resynchronizes_late(standing: &Standing, message: &Message) -> bool
    ensures { result ≡ resynchronizes_late standing.now (meant_by message.now) }
{
    match message {
        Message::Restart { .. } => matches!(standing.phase(), Phase::Releasing)
            && standing.has_resynchronize(),
        _ => false,
    }
}

/// Whether a restart may have this number by X.225: one from V(R) to V(M), or any up to V(M) if no major point was confirmed, since
/// points of an earlier connection count too.
fn is_restartable_too(standing: &Standing, number: u32) -> bool
    ensures { result ≡ is_restartable_too standing.now number }
{
    let numbers = standing.numbers();
    number <= numbers.next
        && (numbers.lowest == standing.first_number() || numbers.lowest <= number)
}

/// Whether a message is a resynchronization with a number that X.225 allows: those of type abandon and set have others than a restart.
fn is_numbered_otherwise(standing: &Standing, message: &Message) -> bool
    ensures { result ≡ is_numbered_otherwise standing.now (meant_by message.now) }
{
    match message {
        Message::Restart { kind, number, .. } => !matches!(kind, ResyncType::Restart)
            || is_restartable_too(standing, number.number),
        _ => false,
    }
}

/// Whether X.225 allows a message in this state that breaks this rule of this product.
pub(crate) fn is_unit_left_out(standing: &Standing, message: &Message, breach: Breach) -> bool
    ensures { result ≡ is_unit_left_out standing.now (meant_by message.now) breach }
{
    match breach {
        Breach::Call(CallError::BadState) => {
            opens_again(standing, message)
                || gives_early(standing, message)
                || resynchronizes_late(standing, message)
        }
        Breach::Call(CallError::BadNumber) => is_numbered_otherwise(standing, message),
        _ => opens_again(standing, message),
    }
}
