//! Reading the words of each call.

ghost use Rattle.std.specs.Prelude.{◌≡◌, option_map, option_copied};
ghost use Rattle.osi_spdu.specs.Fields.{bits_of};
ghost use Rattle.osi_session.specs.Calls.{called_by};
ghost use Rattle.osi_script.specs.Calls.{accepted, accept_of, plain_data, plain_call, plain_of, give_of, asking, please_of, minor_of};
ghost use Rattle.osi_script.specs.Calls.{minor_confirm_of, restarting, restart_of, restart_confirm_of, call_of};
ghost use Rattle.osi_script.specs.Splitting.{words_in};

use crate::splitting::Words;
use crate::verbs::Verb;
use crate::words::{answer, number, serial, sides, sizes, tokens, units, wishes};
use osi_session::{Refusal, Request};
use osi_spdu::TokenSet;

/// The largest number in a call.
pub(crate) const MOST: u32 = 4_294_967_295;

/// An accept of these functional units, first number, sides and sizes.
#[tactic(auto, unfolding(crate::specs::Calls::accepted))]
fn accepted<'a>(
    selected: &[u8],
    first: &[u8],
    stated: &[u8],
    limits: Words,
    octets: Option<&'a [u8]>,
) -> Option<Request<'a>>
    ensures { option_map called_by result
        ≡ accepted selected.now first.now stated.now (words_in limits.entry) (option_copied octets.entry) }
{
    let requirements = units(selected)?;
    let serial = serial(first)?;
    let sides = sides(stated)?;
    let sizes = sizes(limits)?;
    let user_data = octets?;
    Some(Request::Accept {
        requirements,
        serial,
        sides,
        sizes,
        user_data,
    })
}

#[tactic(auto, unfolding(crate::specs::Calls::accept_of))]
fn accept<'a>(mut words: Words, octets: Option<&'a [u8]>) -> Option<Request<'a>>
    ensures { option_map called_by result
        ≡ accept_of (words_in words.entry) (option_copied octets.entry) }
{
    let selected = words.next_word()?;
    let first = words.next_word()?;
    let stated = words.next_word()?;
    words.next_word()?;
    accepted(selected, first, stated, words, octets)
}

/// The user data of a call that has no other words.
#[tactic(auto, unfolding(crate::specs::Calls::plain_data))]
fn plain<'a>(words: Words, octets: Option<&'a [u8]>) -> Option<&'a [u8]>
    ensures { option_copied result
        ≡ plain_data (words_in words.entry) (option_copied octets.entry) }
{
    words.only()?;
    octets
}

/// A call whose only word is this user data.
#[tactic(auto, unfolding(crate::specs::Calls::plain_call))]
fn plain_call<'a>(verb: Verb, user_data: &'a [u8]) -> Option<Request<'a>>
    ensures { option_map called_by result ≡ plain_call verb user_data.entry.now }
{
    match verb {
        Verb::Refuse => Some(Request::Refuse {
            refusal: Refusal::with(user_data),
        }),
        Verb::Data => Some(Request::Data { user_data }),
        Verb::Major => Some(Request::Major { user_data }),
        Verb::MajorConfirm => Some(Request::MajorConfirm { user_data }),
        Verb::Release => Some(Request::Release { user_data }),
        Verb::ReleaseAccept => Some(Request::ReleaseAccept { user_data }),
        Verb::ReleaseRefuse => Some(Request::ReleaseRefuse { user_data }),
        Verb::Abort => Some(Request::Abort { user_data }),
        _ => None,
    }
}

/// The request of a call whose only word is user data.
#[tactic(auto, unfolding(crate::specs::Calls::plain_of))]
fn plain_request<'a>(verb: Verb, words: Words, octets: Option<&'a [u8]>) -> Option<Request<'a>>
    ensures { option_map called_by result
        ≡ plain_of verb (words_in words.entry) (option_copied octets.entry) }
{
    let user_data = plain(words, octets)?;
    plain_call(verb, user_data)
}

#[tactic(auto, unfolding(crate::specs::Calls::give_of))]
fn give<'a>(words: Words) -> Option<Request<'a>>
    ensures { option_map called_by result ≡ give_of (words_in words.entry) }
{
    let named = words.only()?;
    let tokens = tokens(named)?;
    Some(Request::Give { tokens })
}

#[tactic(auto, unfolding(crate::specs::Calls::asking))]
fn asking<'a>(tokens: TokenSet, user_data: &'a [u8]) -> Request<'a>
    ensures { called_by result ≡ asking (bits_of tokens) user_data.entry.now }
{
    Request::Please { tokens, user_data }
}

#[tactic(auto, unfolding(crate::specs::Calls::please_of))]
fn please<'a>(words: Words, octets: Option<&'a [u8]>) -> Option<Request<'a>>
    ensures { option_map called_by result
        ≡ please_of (words_in words.entry) (option_copied octets.entry) }
{
    let named = words.first_of_two()?;
    let tokens = tokens(named)?;
    let user_data = octets?;
    Some(asking(tokens, user_data))
}

#[tactic(auto, unfolding(crate::specs::Calls::minor_of))]
fn minor<'a>(words: Words, octets: Option<&'a [u8]>) -> Option<Request<'a>>
    ensures { option_map called_by result
        ≡ minor_of (words_in words.entry) (option_copied octets.entry) }
{
    let word = words.first_of_two()?;
    let confirm = answer(word)?;
    let user_data = octets?;
    Some(Request::Minor { confirm, user_data })
}

#[tactic(auto, unfolding(crate::specs::Calls::minor_confirm_of))]
fn minor_confirm<'a>(words: Words, octets: Option<&'a [u8]>) -> Option<Request<'a>>
    ensures { option_map called_by result
        ≡ minor_confirm_of (words_in words.entry) (option_copied octets.entry) }
{
    let point = words.first_of_two()?;
    let number = number(point, MOST)?;
    let user_data = octets?;
    Some(Request::MinorConfirm { number, user_data })
}

/// A restart at this point, with these wishes.
#[tactic(auto, unfolding(crate::specs::Calls::restarting))]
fn restarting<'a>(point: &[u8], wished: &[u8], octets: Option<&'a [u8]>) -> Option<Request<'a>>
    ensures { option_map called_by result
        ≡ restarting point.now wished.now (option_copied octets.entry) }
{
    let number = number(point, MOST)?;
    let wishes = wishes(wished)?;
    let user_data = octets?;
    Some(Request::Restart {
        number,
        wishes,
        user_data,
    })
}

#[tactic(auto, unfolding(crate::specs::Calls::restart_confirm_of))]
fn restart_confirm<'a>(words: Words, octets: Option<&'a [u8]>) -> Option<Request<'a>>
    ensures { option_map called_by result
        ≡ restart_confirm_of (words_in words.entry) (option_copied octets.entry) }
{
    let stated = words.first_of_two()?;
    let sides = sides(stated)?;
    let user_data = octets?;
    Some(Request::RestartConfirm { sides, user_data })
}

#[tactic(auto, unfolding(crate::specs::Calls::restart_of))]
fn restart<'a>(mut words: Words, octets: Option<&'a [u8]>) -> Option<Request<'a>>
    ensures { option_map called_by result
        ≡ restart_of (words_in words.entry) (option_copied octets.entry) }
{
    let point = words.next_word()?;
    let wished = words.first_of_two()?;
    restarting(point, wished, octets)
}

/// The request of a call, by its verb and the words after it, if the user data word spells these octets.
#[tactic(auto, unfolding(crate::specs::Calls::call_of))]
pub(crate) fn request<'a>(verb: Verb, words: Words, octets: Option<&'a [u8]>) -> Option<Request<'a>>
    ensures { option_map called_by result
        ≡ call_of verb (words_in words.entry) (option_copied octets.entry) }
{
    match verb {
        Verb::Accept => accept(words, octets),
        Verb::Give => give(words),
        Verb::Please => please(words, octets),
        Verb::Minor => minor(words, octets),
        Verb::MinorConfirm => minor_confirm(words, octets),
        Verb::Restart => restart(words, octets),
        Verb::RestartConfirm => restart_confirm(words, octets),
        _ => plain_request(verb, words, octets),
    }
}
