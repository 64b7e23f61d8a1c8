//! Brief messages: those whose TSDU is one unit with at most one parameter, of one octet, and without user data. They are
//! written and read directly, so that no place for the parameters of a unit is needed.

ghost use Rattle.std.specs.Prelude.{◌≡◌, true, [], ◌∷◌, Ok, IfSome, IsSome};
ghost use Rattle.osi_message.specs.Brief.{is_brief};
ghost use Rattle.osi_message.specs.Meanings.{meant_by, PT, FN, DN, NF, AB};
ghost use Rattle.osi_message.specs.Reading.{said_at};
ghost use Rattle.osi_message.specs.Sendable.{words_of};
ghost use Rattle.osi_message.specs.Tokens.{token_octet};
ghost use Rattle.osi_message.specs.Written.{written};

use crate::laws;
use crate::messages::Message;
use crate::short::Short;
use crate::tokens::Tokens;
use bitflags::Flags;
use osi_spdu::TokenSet;

/// The SI of a GT.
const GIVE: u8 = 1;

/// The SI of a PT.
const PLEASE: u8 = 2;

/// The SI of an NF.
const NOT_FINISHED: u8 = 8;

/// The SI of an FN.
const FINISH: u8 = 9;

/// The SI of a DN.
const DISCONNECT: u8 = 10;

/// The SI of an AB.
const ABORT: u8 = 25;

/// The SI of an AA.
const ABORT_ACCEPT: u8 = 26;

/// The code of a token item.
const TOKEN_ITEM: u8 = 16;

/// The code of the parameter transport disconnect.
const TRANSPORT_DISCONNECT: u8 = 17;

/// A unit of this SI without parameters.
fn bare(si: u8) -> Short
    ensures { result ≡ si ∷ 0 ∷ [] }
{
    Short::of([si, 0, 0, 0, 0, 0, 0, 0, 0, 0, 0, 0], 2)
}

/// A unit of this SI with one parameter of one octet.
fn with_octet(si: u8, code: u8, octet: u8) -> Short
    ensures { result ≡ si ∷ 3 ∷ code ∷ 1 ∷ octet ∷ [] }
{
    Short::of([si, 3, code, 1, octet, 0, 0, 0, 0, 0, 0, 0], 5)
}

/// The octets of a PT without user data.
fn please_octets(tokens: Tokens, user_data: &[u8]) -> Option<Short>
    ensures written { IfSome result (λ s. s ≡ written (PT tokens user_data.now)) }
    ensures brief { user_data.now ≡ [] → IsSome result }
{
    if !user_data.is_empty() {
        return None;
    }
    Some(with_octet(PLEASE, TOKEN_ITEM, tokens.octet()))
}

/// The octets of an AB without user data.
fn abort_octets(bits: u8, user_data: &[u8]) -> Option<Short>
    ensures written { IfSome result (λ s. s ≡ written (AB bits user_data.now)) }
    ensures brief { user_data.now ≡ [] → IsSome result }
{
    if !user_data.is_empty() {
        return None;
    }
    Some(with_octet(ABORT, TRANSPORT_DISCONNECT, bits))
}

/// The octets of an FN without user data.
fn finish_octets(user_data: &[u8]) -> Option<Short>
    ensures written { IfSome result (λ s. s ≡ written (FN user_data.now)) }
    ensures brief { user_data.now ≡ [] → IsSome result }
{
    if !user_data.is_empty() {
        return None;
    }
    Some(bare(FINISH))
}

/// The octets of a DN without user data.
fn disconnect_octets(user_data: &[u8]) -> Option<Short>
    ensures written { IfSome result (λ s. s ≡ written (DN user_data.now)) }
    ensures brief { user_data.now ≡ [] → IsSome result }
{
    if !user_data.is_empty() {
        return None;
    }
    Some(bare(DISCONNECT))
}

/// The octets of an NF without user data.
fn not_finished_octets(user_data: &[u8]) -> Option<Short>
    ensures written { IfSome result (λ s. s ≡ written (NF user_data.now)) }
    ensures brief { user_data.now ≡ [] → IsSome result }
{
    if !user_data.is_empty() {
        return None;
    }
    Some(bare(NOT_FINISHED))
}

/// The octets of a brief message; `None` for any other.
#[tactic(auto, using(crate::proofs::brief_messages_in_octets::give_written, crate::proofs::brief_messages_in_octets::abort_accept_written))]
pub(crate) fn brief_octets(message: &Message) -> Option<Short>
    ensures written { IfSome result (λ s. s ≡ written (meant_by message.now)) }
    ensures brief { is_brief (meant_by message.now) ≡ true → IsSome result }
{
    match *message {
        Message::Give { tokens } => Some(with_octet(GIVE, TOKEN_ITEM, tokens.octet())),
        Message::Please { tokens, user_data } => please_octets(tokens, user_data),
        Message::Finish { user_data } => finish_octets(user_data),
        Message::Disconnect { user_data } => disconnect_octets(user_data),
        Message::NotFinished { user_data } => not_finished_octets(user_data),
        Message::Abort {
            transport_disconnect,
            user_data,
        } => abort_octets(transport_disconnect, user_data),
        Message::AbortAccept => Some(bare(ABORT_ACCEPT)),
        _ => None,
    }
}

/// The message of a unit of this SI without parameters.
#[tactic(auto, using(crate::proofs::brief_messages_in_octets::finish_written, crate::proofs::brief_messages_in_octets::disconnect_written, crate::proofs::brief_messages_in_octets::not_finished_written, crate::proofs::brief_messages_in_octets::abort_accept_written))]
fn of_bare(si: u8) -> Option<Message<'static>>
    ensures written { IfSome result (λ m. written (meant_by m) ≡ si ∷ 0 ∷ []) }
    ensures brief { IfSome result (λ m. is_brief (meant_by m) ≡ true) }
{
    match si {
        FINISH => Some(Message::Finish { user_data: &[] }),
        DISCONNECT => Some(Message::Disconnect { user_data: &[] }),
        NOT_FINISHED => Some(Message::NotFinished { user_data: &[] }),
        ABORT_ACCEPT => Some(Message::AbortAccept),
        _ => None,
    }
}

/// The tokens of a token item, if it has only bits that name a token.
fn tokens_of(octet: u8) -> Option<Tokens>
    ensures { IfSome result (λ t. token_octet t ≡ octet) }
{
    let tokens = Tokens::of(TokenSet::from_bits_retain(octet));
    if tokens.octet() != octet {
        return None;
    }
    Some(tokens)
}

/// The message of a unit of this SI with one parameter of one octet.
#[tactic(auto, using(crate::proofs::brief_messages_in_octets::give_written, crate::proofs::brief_messages_in_octets::please_written, crate::proofs::brief_messages_in_octets::abort_written))]
fn of_octet(si: u8, code: u8, octet: u8) -> Option<Message<'static>>
    ensures written { IfSome result (λ m. written (meant_by m) ≡ si ∷ 3 ∷ code ∷ 1 ∷ octet ∷ []) }
    ensures brief { IfSome result (λ m. is_brief (meant_by m) ≡ true) }
{
    match (si, code) {
        (GIVE, TOKEN_ITEM) => {
            let tokens = tokens_of(octet)?;
            Some(Message::Give { tokens })
        }
        (PLEASE, TOKEN_ITEM) => {
            let tokens = tokens_of(octet)?;
            Some(Message::Please {
                tokens,
                user_data: &[],
            })
        }
        (ABORT, TRANSPORT_DISCONNECT) => Some(Message::Abort {
            transport_disconnect: octet,
            user_data: &[],
        }),
        _ => None,
    }
}

/// The brief message whose written form the octets are.
fn of_octets(tsdu: &[u8]) -> Option<Message<'static>>
    ensures written { IfSome result (λ m. written (meant_by m) ≡ tsdu.now) }
    ensures brief { IfSome result (λ m. is_brief (meant_by m) ≡ true) }
{
    match tsdu {
        [si, 0] => of_bare(*si),
        [si, 3, code, 1, octet] => of_octet(*si, *code, *octet),
        _ => None,
    }
}

impl<'a> Message<'a> {
    /// The message that the octets of a TSDU mean, if they are the written form of a brief one: GT, AA, or PT, FN, DN, NF or
    /// AB without user data. `None` for any other octets, which `read_tsdu` reads.
    #[tactic(auto, using(crate::proofs::brief_messages_in_octets::brief_said))]
    pub fn brief(tsdu: &[u8]) -> Option<Message<'static>>
        ensures { IfSome result (λ m. said_at tsdu.now ≡ Ok (words_of (meant_by m))) }
    {
        laws::what_is_sent_is_read();
        let message = of_octets(tsdu)?;
        Some(message)
    }
}
