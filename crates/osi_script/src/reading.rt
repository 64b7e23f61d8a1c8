//! Reading the lines of a script that are not calls.

ghost use Rattle.std.specs.Prelude.{◌≡◌, option_map, option_copied};
ghost use Rattle.osi_script.specs.Commands.{command_by, two_ends, ends_of, connecting, connect_of, carry_of, break_of, told_of, named_call};
ghost use Rattle.osi_script.specs.Commands.{user_call, command_in};
ghost use Rattle.osi_script.specs.Splitting.{words_in};

use crate::calls::request;
use crate::commands::Command;
use crate::splitting::Words;
use crate::words::{classes, is, number, serial, side, size, sizes, units, verb, window, wishes};

/// The largest count of octets.
pub(crate) const MOST_OCTETS: u32 = 4_294_967_295;

/// Two ends of these classes, size and window.
#[tactic(auto, unfolding(crate::specs::Commands::two_ends))]
fn two_ends<'a>(caller: &[u8], called: &[u8], code: &[u8], credit: &[u8]) -> Option<Command<'a>>
    ensures { option_map command_by result ≡ two_ends caller.now called.now code.now credit.now }
{
    let caller = classes(caller)?;
    let called = classes(called)?;
    let size = size(code)?;
    let window = window(credit)?;
    Some(Command::Ends {
        caller,
        called,
        size,
        window,
    })
}

#[tactic(auto, unfolding(crate::specs::Commands::ends_of))]
fn ends<'a>(mut words: Words) -> Option<Command<'a>>
    ensures { option_map command_by result ≡ ends_of (words_in words.entry) }
{
    let caller = words.next_word()?;
    let called = words.next_word()?;
    let code = words.next_word()?;
    let credit = words.only()?;
    two_ends(caller, called, code, credit)
}

/// A connect of these functional units, first number, wishes and sizes.
#[tactic(auto, unfolding(crate::specs::Commands::connecting))]
fn connecting<'a>(
    offered: &[u8],
    first: &[u8],
    sides: &[u8],
    limits: Words,
    octets: Option<&'a [u8]>,
) -> Option<Command<'a>>
    ensures { option_map command_by result
        ≡ connecting offered.now first.now sides.now (words_in limits.entry) (option_copied octets.entry) }
{
    let requirements = units(offered)?;
    let serial = serial(first)?;
    let wishes = wishes(sides)?;
    let sizes = sizes(limits)?;
    let user_data = octets?;
    Some(Command::Connect {
        requirements,
        serial,
        wishes,
        sizes,
        user_data,
    })
}

#[tactic(auto, unfolding(crate::specs::Commands::connect_of))]
fn connect<'a>(mut words: Words, octets: Option<&'a [u8]>) -> Option<Command<'a>>
    ensures { option_map command_by result
        ≡ connect_of (words_in words.entry) (option_copied octets.entry) }
{
    let offered = words.next_word()?;
    let first = words.next_word()?;
    let sides = words.next_word()?;
    words.next_word()?;
    connecting(offered, first, sides, words, octets)
}

#[tactic(auto, unfolding(crate::specs::Commands::carry_of))]
fn carry<'a>(mut words: Words) -> Option<Command<'a>>
    ensures { option_map command_by result ≡ carry_of (words_in words.entry) }
{
    let name = words.next_word()?;
    let octets = words.only()?;
    let side = side(name)?;
    let octets = number(octets, MOST_OCTETS)?;
    Some(Command::Carry { side, octets })
}

#[tactic(auto, unfolding(crate::specs::Commands::break_of))]
fn breaks<'a>(mut words: Words) -> Option<Command<'a>>
    ensures { option_map command_by result ≡ break_of (words_in words.entry) }
{
    let left = words.next_word()?;
    let right = words.only()?;
    let left = number(left, MOST_OCTETS)?;
    let right = number(right, MOST_OCTETS)?;
    Some(Command::Break { left, right })
}

#[tactic(auto, unfolding(crate::specs::Commands::told_of))]
fn told<'a>(words: Words) -> Option<Command<'a>>
    ensures { option_map command_by result ≡ told_of (words_in words.entry) }
{
    let name = words.only()?;
    let side = side(name)?;
    Some(Command::Told { side })
}

/// A call of this side on this connection, by the word for its verb and the words after it.
#[tactic(auto, unfolding(crate::specs::Commands::named_call))]
fn named_call<'a>(
    first: &[u8],
    connection: &[u8],
    name: &[u8],
    words: Words,
    octets: Option<&'a [u8]>,
) -> Option<Command<'a>>
    ensures { option_map command_by result
        ≡ named_call first.now connection.now name.now (words_in words.entry) (option_copied octets.entry) }
{
    let side = side(first)?;
    let reference = number(connection, 65_535)?;
    let verb = verb(name)?;
    let request = request(verb, words, octets)?;
    Some(Command::Call {
        side,
        reference: reference as u16,
        request,
    })
}

#[tactic(auto, unfolding(crate::specs::Commands::user_call))]
fn call<'a>(first: &[u8], mut words: Words, octets: Option<&'a [u8]>) -> Option<Command<'a>>
    ensures { option_map command_by result
        ≡ user_call first.now (words_in words.entry) (option_copied octets.entry) }
{
    let connection = words.next_word()?;
    let name = words.next_word()?;
    named_call(first, connection, name, words, octets)
}

/// What a line with these words asks for, if the user data word spells these octets.
#[inline(never)]
#[tactic(auto, unfolding(crate::specs::Commands::command_in))]
pub(crate) fn command<'a>(mut words: Words, octets: Option<&'a [u8]>) -> Option<Command<'a>>
    ensures { option_map command_by result
        ≡ command_in (words_in words.entry) (option_copied octets.entry) }
{
    let first = words.next_word()?;
    if is(first, "ends") {
        return ends(words);
    }
    if is(first, "connect") {
        return connect(words, octets);
    }
    if is(first, "carry") {
        return carry(words);
    }
    if is(first, "break") {
        return breaks(words);
    }
    if is(first, "told") {
        return told(words);
    }
    call(first, words, octets)
}
