//! The meaning of a unit of a TSDU.

ghost use Rattle.std.specs.Prelude.{◌≡◌, IfSome};
ghost use Rattle.osi_session.specs.Joining.{Taker, is_restart_word, respond_came, respond_word};
ghost use Rattle.osi_message.specs.Plain.{plain_word};
ghost use Rattle.osi_message.specs.Reading.{said_at, word};
ghost use Rattle.osi_session.specs.Steps.{word_by};
ghost use Rattle.osi_spdu.specs.Units.{said_by};

use crate::taking::is_restart;
use osi_message::{Message, Place, PlainUnit};
use osi_spdu::Spdu;

/// The meaning of a unit: a message, or a part of a Data.
#[derive(Clone, Copy)]
pub(crate) enum Word<'a> {
    /// A message.
    Says(Message<'a>),
    /// A part of one Data, and its octets.
    Part(Place, &'a [u8]),
}

impl<'a> Word<'a> {
    /// The meaning of this unit.
    #[tactic(auto, unfolding(osi_message::specs::Reading::word))]
    pub(crate) fn of(unit: &Spdu<'a>) -> Word<'a>
        ensures { word_by result ≡ word (said_by unit.now) }
    {
        match Place::of(unit) {
            None => Word::Says(Message::of(unit)),
            Some(place) => Word::Part(place, unit.information()),
        }
    }

    /// The meaning of one of the most frequent units.
    fn plain(unit: PlainUnit<'a>) -> Word<'a>
        ensures { word_by result ≡ plain_word unit.entry }
    {
        match unit {
            PlainUnit::Part { place, user_data } => Word::Part(place, user_data),
            PlainUnit::MinorPoint { number } => Word::Says(Message::MinorPoint {
                confirm: true,
                number,
                user_data: &[],
            }),
            PlainUnit::MinorAck { number } => Word::Says(Message::MinorAck {
                number,
                user_data: &[],
            }),
        }
    }

    /// The word that alone has the effect of a TSDU, if that is read straight from its octets; `None` for any other TSDU,
    /// whose units are read.
    #[tactic(auto, using(crate::proofs::moves::a_tsdu_that_is_read_straight::comes_as_data, crate::proofs::moves::a_tsdu_that_is_read_straight::comes_as_unit, crate::proofs::moves::a_tsdu_that_is_read_straight::comes_as_message))]
    pub(crate) fn alone(tsdu: &'a [u8]) -> Option<Word<'a>>
        ensures { IfSome result (λ w. (t : Taker) → respond_came t (said_at tsdu.now) ≡ respond_word t (word_by w)) }
    {
        if let Some(user_data) = PlainUnit::data(tsdu) {
            return Some(Word::Says(Message::Data { user_data }));
        }
        if let Some(unit) = PlainUnit::read(tsdu) {
            return Some(Word::plain(unit));
        }
        let message = Message::brief(tsdu)?;
        Some(Word::Says(message))
    }

    /// RS: a token item before it has no effect.
    pub(crate) fn is_restart(&self) -> bool
        ensures { result ≡ is_restart_word (word_by self.now) }
    {
        match self {
            Word::Says(message) => is_restart(message),
            Word::Part(..) => false,
        }
    }
}

/// Whether a unit is an RS: a token item before it has no effect.
pub fn is_restart_unit(unit: &Spdu) -> bool
    ensures { result ≡ is_restart_word (word (said_by unit.now)) }
{
    Word::of(unit).is_restart()
}
