//! The part of a line before its user data.

ghost use Rattle.std.specs.Prelude.{◌≡◌, ◌∷◌, Some, codes, option_copied, option_map, IfSome};
ghost use Rattle.osi_script.specs.Names.{side_name, verb_name};
ghost use Rattle.osi_script.specs.Words.{words_of, data_of};
ghost use Rattle.osi_script.specs.Calls.{call_of};
ghost use Rattle.osi_session.specs.Calls.{called_by};
ghost use Rattle.osi_script.specs.Commands.{Carry, command_by, command_of, data_word, fourth, behind_accept};
ghost use Rattle.osi_script.specs.Splitting.{words_in};
ghost use Rattle.osi_script.specs.Fronts.{frequent_command, call_command, front_command, front_data, data_behind, spelled, made};

use crate::calls::{MOST, request};
use crate::commands::Command;
use crate::reading::{MOST_OCTETS, command};
use crate::sides::Side;
use crate::splitting::{Words, last_word, parted};
use crate::verbs::Verb;
use crate::words::{answer, is, number, verb};
use osi_session::Request;

/// A frequent call, without its user data.
#[derive(Clone, Copy)]
pub(crate) enum Frequent {
    /// Sends data.
    Data,
    /// Sets a minor synchronization point, and asks for its confirmation or not.
    Minor(bool),
    /// Confirms the minor points up to this number.
    MinorConfirm(u32),
}

/// A line as far as it was read, without its user data.
#[derive(Clone, Copy)]
pub(crate) enum Front<'l> {
    /// Octets of a side are carried.
    Carry {
        /// The side that has sent them.
        side: Side,
        /// How many octets, or all if there are fewer.
        octets: u32,
    },
    /// A call of the user of one connection.
    Call {
        /// The side of the user.
        side: Side,
        /// The connection.
        reference: u16,
        /// What is asked for.
        verb: Verb,
        /// The words after the verb.
        words: Words<'l>,
    },
    /// A frequent call, which was read except for the user data.
    Frequent {
        /// The side of the user.
        side: Side,
        /// The connection.
        reference: u16,
        /// What is asked for.
        call: Frequent,
        /// The text of the user data, up to the end of the line.
        text: &'l [u8],
    },
    /// A line that was not read.
    Unread(&'l [u8]),
}

/// The text after the word that asks for octets to be carried, if a line begins with it.
#[inline(always)]
#[tactic(auto, using(crate::proofs::the_beginning_of_a_line_is_read_word_by_word::carry_first))]
fn behind_carry(line: &[u8]) -> Option<&[u8]>
    ensures { IfSome result (λ rest. words_of line.now ≡ codes "carry" ∷ words_of rest.now) }
{
    match line {
        [b'c', b'a', b'r', b'r', b'y', b' ', rest @ ..] => Some(rest),
        _ => None,
    }
}

/// The side at the front of a text, and the text after it.
#[inline(always)]
#[tactic(auto, using(crate::proofs::the_beginning_of_a_line_is_read_word_by_word::left_first, crate::proofs::the_beginning_of_a_line_is_read_word_by_word::right_first))]
fn behind_side(text: &[u8]) -> Option<(Side, &[u8])>
    ensures { IfSome result (λ first. words_of text.now ≡ side_name first.0 ∷ words_of first.1.now) }
{
    match text {
        [b'l', b'e', b'f', b't', b' ', rest @ ..] => Some((Side::Left, rest)),
        [b'r', b'i', b'g', b'h', b't', b' ', rest @ ..] => Some((Side::Right, rest)),
        _ => None,
    }
}

/// The verb at the front of a text, if it is a frequent one, and the text after it.
#[inline(always)]
#[tactic(auto, using(crate::proofs::the_beginning_of_a_line_is_read_word_by_word::data_first, crate::proofs::the_beginning_of_a_line_is_read_word_by_word::minor_first, crate::proofs::the_beginning_of_a_line_is_read_word_by_word::minorconfirm_first), unfolding(crate::specs::Names::verb_name))]
fn behind_frequent_verb(text: &[u8]) -> Option<(Verb, &[u8])>
    ensures { IfSome result (λ first. words_of text.now ≡ verb_name first.0 ∷ words_of first.1.now) }
{
    match text {
        [b'd', b'a', b't', b'a', b' ', rest @ ..] => Some((Verb::Data, rest)),
        [b'm', b'i', b'n', b'o', b'r', b' ', rest @ ..] => Some((Verb::Minor, rest)),
        [
            b'm',
            b'i',
            b'n',
            b'o',
            b'r',
            b'c',
            b'o',
            b'n',
            b'f',
            b'i',
            b'r',
            b'm',
            b' ',
            rest @ ..,
        ] => Some((Verb::MinorConfirm, rest)),
        _ => None,
    }
}

/// A minor point: whether it is to be confirmed, and the text after that.
#[inline(always)]
#[tactic(auto, using(crate::proofs::a_frequent_call_is_read_by_its_last_word::minor_read))]
fn minor(text: &[u8]) -> Option<(Frequent, &[u8])>
    ensures { IfSome result (λ call. call_of Verb.Minor (words_of text.now) (spelled (data_behind Verb.Minor (words_of text.now)))
        ≡ option_map (made call.0) (data_of call.1.now)) }
{
    let (word, rest) = parted(text)?;
    let confirm = answer(word)?;
    Some((Frequent::Minor(confirm), rest))
}

/// A confirmation of minor points: its number, and the text after that.
#[inline(always)]
#[tactic(auto, using(crate::proofs::a_frequent_call_is_read_by_its_last_word::minor_confirm_read))]
fn minor_confirm(text: &[u8]) -> Option<(Frequent, &[u8])>
    ensures { IfSome result (λ call.
        call_of Verb.MinorConfirm (words_of text.now) (spelled (data_behind Verb.MinorConfirm (words_of text.now)))
        ≡ option_map (made call.0) (data_of call.1.now)) }
{
    let (word, rest) = parted(text)?;
    let point = number(word, MOST)?;
    Some((Frequent::MinorConfirm(point), rest))
}

/// A frequent call and its user data word, from the text after its verb. A text with a blank spells no octets, since a
/// call with one word too many asks for nothing.
#[inline(always)]
#[tactic(auto, using(crate::proofs::a_frequent_call_is_read_by_its_last_word::data_read))]
fn read_frequent(verb: Verb, text: &[u8]) -> Option<(Frequent, &[u8])>
    ensures { IfSome result (λ call. call_of verb (words_of text.now) (spelled (data_behind verb (words_of text.now)))
        ≡ option_map (made call.0) (data_of call.1.now)) }
{
    match verb {
        Verb::Data => Some((Frequent::Data, text)),
        Verb::Minor => minor(text),
        Verb::MinorConfirm => minor_confirm(text),
        _ => None,
    }
}

/// The request of a frequent call.
#[inline(always)]
fn asked<'a>(call: Frequent, user_data: &'a [u8]) -> Request<'a>
    ensures { called_by result ≡ made call user_data.entry.now }
{
    match call {
        Frequent::Data => Request::Data { user_data },
        Frequent::Minor(confirm) => Request::Minor { confirm, user_data },
        Frequent::MinorConfirm(number) => Request::MinorConfirm { number, user_data },
    }
}

/// The side and the connection at the front of a line, and the text after them.
#[inline(always)]
fn behind_connection(line: &[u8]) -> Option<(Side, &[u8], &[u8])>
    ensures { IfSome result (λ first. words_of line.now ≡ side_name first.0 ∷ first.1.now ∷ words_of first.2.now) }
{
    let (side, behind) = behind_side(line)?;
    let (connection, rest) = parted(behind)?;
    Some((side, connection, rest))
}

/// A line with a call by a frequent verb.
#[inline(always)]
fn frequent_call(line: &[u8]) -> Option<Front<'_>>
    ensures { IfSome result (λ front. front_command front (spelled (front_data front)) ≡ command_of line.now) }
{
    let (side, connection, rest) = behind_connection(line)?;
    let (verb, words) = behind_frequent_verb(rest)?;
    let (call, text) = read_frequent(verb, words)?;
    let reference = number(connection, 65_535)?;
    Some(Front::Frequent {
        side,
        reference: reference as u16,
        call,
        text,
    })
}

/// The verb at the front of a text, and the words after it.
fn behind_verb(text: &[u8]) -> Option<(Verb, Words<'_>)>
    ensures { IfSome result (λ first. words_of text.now ≡ verb_name first.0 ∷ words_in first.1) }
{
    let mut words = Words::of(text);
    let name = words.next_word()?;
    let verb = verb(name)?;
    Some((verb, words))
}

/// The side whose octets a line carries, and how many, or all if there are fewer: most lines that are not calls ask for
/// this. `None` if a line does not begin in this way; it may still ask for something.
#[inline(always)]
#[tactic(auto, using(crate::proofs::the_beginning_of_a_line_is_read_word_by_word::carry_read))]
pub fn read_carry(line: &[u8]) -> Option<(Side, u32)>
    ensures { IfSome result (λ carry. Some (Carry carry.0 carry.1) ≡ command_of line.now) }
{
    let text = behind_carry(line)?;
    let (side, digits) = behind_side(text)?;
    let octets = number(digits, MOST_OCTETS)?;
    Some((side, octets))
}

/// A line that carries octets.
#[inline(always)]
fn carry(line: &[u8]) -> Option<Front<'_>>
    ensures { IfSome result (λ front. front_command front (spelled (front_data front)) ≡ command_of line.now) }
{
    let (side, octets) = read_carry(line)?;
    Some(Front::Carry { side, octets })
}

/// A line that calls.
fn call(line: &[u8]) -> Option<Front<'_>>
    ensures { IfSome result (λ front. front_command front (spelled (front_data front)) ≡ command_of line.now) }
{
    let (side, connection, rest) = behind_connection(line)?;
    let (verb, words) = behind_verb(rest)?;
    let reference = number(connection, 65_535)?;
    Some(Front::Call {
        side,
        reference: reference as u16,
        verb,
        words,
    })
}

/// A line with a call by any verb, or a line that is not read.
#[inline(never)]
#[tactic(auto, unfolding(crate::specs::Commands::command_of))]
fn any_call<'l>(line: &'l [u8]) -> Front<'l>
    ensures { front_command result (spelled (front_data result)) ≡ command_of line.entry.now }
{
    if let Some(front) = call(line) {
        return front;
    }
    Front::Unread(line)
}

/// The fourth of these words.
fn fourth<'l>(mut words: Words<'l>) -> Option<&'l [u8]>
    ensures { option_copied result ≡ fourth (words_in words.entry) }
{
    words.next_word()?;
    words.next_word()?;
    words.next_word()?;
    words.next_word()
}

/// The words after an accept, from those after the first word of a line.
fn behind_accept<'l>(mut words: Words<'l>) -> Option<Words<'l>>
    ensures { option_map words_in result ≡ behind_accept (words_in words.entry) }
{
    words.next_word()?;
    let verb = words.next_word()?;
    if is(verb, "accept") {
        return Some(words);
    }
    None
}

/// The user data word of a line: the last word; but in a connect and an accept, sizes may follow it.
#[tactic(auto, unfolding(crate::specs::Commands::data_word))]
fn data_word(line: &[u8]) -> Option<&[u8]>
    ensures { option_copied result ≡ data_word (words_of line.now) }
{
    let mut words = Words::of(line);
    let first = words.next_word()?;
    if is(first, "connect") {
        return fourth(words);
    }
    let Some(words) = behind_accept(words) else {
        return Some(last_word(line));
    };
    fourth(words)
}

/// The user data word, from the words after a verb.
fn data_behind<'l>(verb: Verb, words: Words<'l>) -> Option<&'l [u8]>
    ensures { option_copied result ≡ data_behind verb (words_in words.entry) }
{
    match verb {
        Verb::Accept => fourth(words),
        _ => words.last(),
    }
}

/// What a frequent call asks for, if the user data word spells these octets.
#[inline(always)]
fn frequent_call_of<'a>(
    side: Side,
    reference: u16,
    call: Frequent,
    octets: Option<&'a [u8]>,
) -> Option<Command<'a>>
    ensures { option_map command_by result
        ≡ frequent_command side reference call (option_copied octets.entry) }
{
    let user_data = octets?;
    Some(Command::Call {
        side,
        reference,
        request: asked(call, user_data),
    })
}

/// What a call by any verb asks for, if the user data word spells these octets.
#[inline(never)]
fn any_call_of<'a>(
    side: Side,
    reference: u16,
    verb: Verb,
    words: Words,
    octets: Option<&'a [u8]>,
) -> Option<Command<'a>>
    ensures { option_map command_by result
        ≡ call_command side reference verb (words_in words.entry) (option_copied octets.entry) }
{
    let request = request(verb, words, octets)?;
    Some(Command::Call {
        side,
        reference,
        request,
    })
}

impl<'l> Front<'l> {
    /// Reads a line up to its user data.
    #[inline(always)]
    #[tactic(auto, unfolding(crate::specs::Commands::command_of))]
    pub(crate) fn of(line: &'l [u8]) -> Front<'l>
        ensures { front_command result (spelled (front_data result)) ≡ command_of line.entry.now }
    {
        if let Some(front) = carry(line) {
            return front;
        }
        if let Some(front) = frequent_call(line) {
            return front;
        }
        any_call(line)
    }

    /// The user data word.
    #[inline(always)]
    pub(crate) fn data_word(&self) -> Option<&'l [u8]>
        ensures { option_copied result ≡ front_data self.now }
    {
        match *self {
            Front::Carry { .. } => None,
            Front::Frequent { text, .. } => Some(text),
            Front::Call { verb, words, .. } => data_behind(verb, words),
            Front::Unread(line) => data_word(line),
        }
    }

    /// What the line asks for, if the user data word spells these octets.
    #[inline(always)]
    pub(crate) fn command<'a>(&self, octets: Option<&'a [u8]>) -> Option<Command<'a>>
        ensures { option_map command_by result ≡ front_command self.now (option_copied octets.entry) }
    {
        match *self {
            Front::Carry { side, octets } => Some(Command::Carry { side, octets }),
            Front::Frequent {
                side,
                reference,
                call,
                ..
            } => frequent_call_of(side, reference, call, octets),
            Front::Call {
                side,
                reference,
                verb,
                words,
            } => any_call_of(side, reference, verb, words, octets),
            Front::Unread(line) => command(Words::of(line), octets),
        }
    }
}
