//! Units that a side may send as soon as they are allowed.

ghost use Rattle.std.specs.Prelude.{◌≡◌};
ghost use Rattle.osi_message.specs.Meanings.{meant_by};
ghost use Rattle.osi_message.specs.Reading.{word};
ghost use Rattle.osi_message.specs.Words.{says};
ghost use Rattle.osi_session.specs.Steady.{is_steady};
ghost use Rattle.osi_spdu.specs.Units.{said_by};

use crate::taking::has_no_effect;
use crate::words::Word;
use osi_message::Message;
use osi_spdu::Spdu;

/// Whether a unit is *steady*: if a side may send it now, and may also send it after it took some TSDUs of its peer,
/// it arrives at the same state if it sends it now and takes them then. These are data and each part of it, a request
/// for tokens, a token item that names none, a minor point and its confirmation.
pub fn is_steady(unit: &Spdu) -> bool
    ensures { result ≡ is_steady (word (said_by unit.now)) }
{
    match Word::of(unit) {
        Word::Says(message) => is_steady_message(&message),
        Word::Part(..) => true,
    }
}

fn is_steady_message(message: &Message) -> bool
    ensures { result ≡ is_steady (says (meant_by message.now)) }
{
    match message {
        Message::Data { .. } | Message::Please { .. } => true,
        Message::MinorPoint { .. } | Message::MinorAck { .. } => true,
        Message::Give { .. } => has_no_effect(message),
        _ => false,
    }
}
