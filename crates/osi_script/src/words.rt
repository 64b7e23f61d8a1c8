//! Words of a line: numbers, sets and sides.

ghost use Rattle.std.specs.Prelude.{◌≡◌, ◌≤◌, ◌+◌, ◌*◌, ◌∷◌, [], ℕ, List, None, option_map, IfSome, IfNone};
ghost use Rattle.osi_spdu.specs.Fields.{bits_of, unit_bits};
ghost use Rattle.osi_spdu.specs.Sizes.{named_by, size_of as octets_of_size};
ghost use Rattle.osi_tpdu.specs.Limits.{size_code, window_units};
ghost use Rattle.osi_script.specs.Splitting.{words_in};
ghost use Rattle.osi_script.specs.Words.{is, number_behind, number_to, units_of, tokens_of, serial_of, sizes_of, tsdu_size_of, size_of};
ghost use Rattle.osi_script.specs.Words.{window_of, classes_of, side_of, verb_of, wish_of_letter, side_of_letter, wishes_of, sides_of};
ghost use Rattle.osi_script.specs.Words.{answer_of};

use crate::commands::Classes;
use crate::sides::Side;
use crate::splitting::Words;
use crate::verbs::Verb;
use bitflags::Flags;
use osi_session::Sides;
use osi_spdu::{Requirements, Serial, TokenSet, TokenSetting, TsduSize, TsduSizes, Wish};
use osi_tpdu::{SizeCode, Window};

/// The bits of a token set that name a token.
const TOKENS: u8 = 0x55;

/// Whether a word is this one.
#[inline(always)]
#[tactic(auto, using(crate::proofs::a_word_is_compared_letter_by_letter::same_letter, crate::proofs::a_word_is_compared_letter_by_letter::other_letter, crate::proofs::a_word_is_compared_letter_by_letter::all_letters, crate::proofs::a_word_is_compared_letter_by_letter::other_length))]
pub(crate) fn is(word: &[u8], name: &str) -> bool
    ensures { result ≡ is word.now name.now }
{
    let letters = name.as_bytes();
    if word.len() != letters.len() {
        return false;
    }
    let mut index = 0;
    'letters: while index < letters.len() {
        if word[index] != letters[index] {
            return false;
        }
        index += 1;
    }
    true
}

/// The number of some digits followed by one more, if it is at most a bound.
#[tactic(auto, using(crate::proofs::a_number_is_read_digit_by_digit::no_digit, crate::proofs::a_number_is_read_digit_by_digit::no_digit_above, crate::proofs::a_number_is_read_digit_by_digit::too_great, crate::proofs::a_number_is_read_digit_by_digit::one_digit))]
fn next_number(number: u64, digit: u8, most: u32) -> Option<u64>
    requires { number ≤ most }
    ensures bound { IfSome result (λ n. n ≤ most) }
    ensures some { IfSome result (λ n. (digits : List ℕ) →
        number_behind most number (digit ∷ digits) ≡ number_behind most n digits) }
    ensures none { IfNone result ((digits : List ℕ) → number_behind most number (digit ∷ digits) ≡ None) }
{
    if digit < b'0' || digit > b'9' {
        return None;
    }
    let next = number * 10 + u64::from(digit - b'0');
    if next > u64::from(most) {
        return None;
    }
    Some(next)
}

/// The number that decimal digits spell, if it is at most a bound.
#[tactic(auto, using(crate::proofs::a_number_is_read_digit_by_digit::number_end), unfolding(crate::specs::Words::number_to))]
pub(crate) fn number(word: &[u8], most: u32) -> Option<u32>
    ensures value { result ≡ number_to most word.now }
    ensures bound { IfSome result (λ n. n ≤ most) }
{
    if word.is_empty() {
        return None;
    }
    let mut number = 0u64;
    'digits: for digit in word {
        number = next_number(number, *digit, most)?;
    }
    Some(number as u32)
}

/// The number of two octets.
fn short(high: u8, low: u8) -> u16
    ensures { result ≡ high * 256 + low }
{
    u16::from(high) * 256 + u16::from(low)
}

/// Four hexadecimal digits: functional units.
#[tactic(auto, unfolding(crate::specs::Words::units_of))]
pub(crate) fn units(word: &[u8]) -> Option<Requirements>
    ensures { option_map unit_bits result ≡ units_of word.now }
{
    let mut octets = [0; 2];
    if hex::decode_to_slice(word, &mut octets).is_err() {
        return None;
    }
    Some(Requirements::from_bits_retain(short(octets[0], octets[1])))
}

/// Two hexadecimal digits: tokens.
#[tactic(auto, unfolding(crate::specs::Words::tokens_of))]
pub(crate) fn tokens(word: &[u8]) -> Option<TokenSet>
    ensures { option_map bits_of result ≡ tokens_of word.now }
{
    let mut octets = [0; 1];
    if hex::decode_to_slice(word, &mut octets).is_err() {
        return None;
    }
    let bits = octets[0];
    if bits & TOKENS != bits {
        return None;
    }
    Some(TokenSet::from_bits_retain(bits))
}

/// A serial number, 0 to 999,999.
pub(crate) fn serial(word: &[u8]) -> Option<Serial>
    ensures { option_map (λ s. s.number) result ≡ serial_of word.now }
{
    Serial::new(number(word, 999_999)?)
}

/// The largest TSDU in octets, 64 to 65,535; 0 for no limit.
fn tsdu_size(word: &[u8]) -> Option<TsduSize>
    ensures { option_map octets_of_size result ≡ tsdu_size_of word.now }
{
    let octets = number(word, 65_535)?;
    TsduSize::new(octets as u16)
}

/// The sizes in the words after user data: two words, or none.
#[tactic(auto, unfolding(crate::specs::Words::sizes_of))]
pub(crate) fn sizes(mut words: Words) -> Option<TsduSizes>
    ensures { option_map named_by result ≡ sizes_of (words_in words.entry) }
{
    let Some(asker) = words.next_word() else {
        return Some(TsduSizes::NONE);
    };
    let answerer = words.only()?;
    Some(TsduSizes {
        from_asker: tsdu_size(asker)?,
        from_answerer: tsdu_size(answerer)?,
    })
}

/// The code of a TPDU size, 7 to 13.
pub(crate) fn size(word: &[u8]) -> Option<SizeCode>
    ensures { option_map size_code result ≡ size_of word.now }
{
    let code = number(word, 13)?;
    SizeCode::new(code as u8)
}

/// A window, 1 to 15.
pub(crate) fn window(word: &[u8]) -> Option<Window>
    ensures { option_map window_units result ≡ window_of word.now }
{
    let units = number(word, 15)?;
    Window::new(units as u8)
}

/// The classes of an end.
#[tactic(auto, unfolding(crate::specs::Words::classes_of))]
pub(crate) fn classes(word: &[u8]) -> Option<Classes>
    ensures { result ≡ classes_of word.now }
{
    if is(word, "0") {
        return Some(Classes::Zero);
    }
    if is(word, "2") {
        return Some(Classes::Two);
    }
    if is(word, "20") {
        return Some(Classes::Both);
    }
    None
}

/// One of the two sides.
#[tactic(auto, unfolding(crate::specs::Words::side_of))]
pub(crate) fn side(word: &[u8]) -> Option<Side>
    ensures { result ≡ side_of word.now }
{
    if is(word, "left") {
        return Some(Side::Left);
    }
    if is(word, "right") {
        return Some(Side::Right);
    }
    None
}

/// Yes or no.
#[tactic(auto, unfolding(crate::specs::Words::answer_of))]
pub(crate) fn answer(word: &[u8]) -> Option<bool>
    ensures { result ≡ answer_of word.now }
{
    if is(word, "yes") {
        return Some(true);
    }
    if is(word, "no") {
        return Some(false);
    }
    None
}

/// The verb of a call.
#[tactic(auto, unfolding(crate::specs::Words::verb_of))]
pub(crate) fn verb(word: &[u8]) -> Option<Verb>
    ensures { result ≡ verb_of word.now }
{
    let verbs = Verb::all();
    'verbs: for verb in verbs {
        if is(word, verb.name()) {
            return Some(*verb);
        }
    }
    None
}

#[tactic(auto, unfolding(crate::specs::Words::wish_of_letter))]
fn wish(letter: u8) -> Option<Wish>
    ensures { result ≡ wish_of_letter letter }
{
    match letter {
        b'a' => Some(Wish::Asker),
        b'r' => Some(Wish::Answerer),
        b'c' => Some(Wish::Choice),
        _ => None,
    }
}

#[tactic(auto, unfolding(crate::specs::Words::side_of_letter))]
fn settled_side(letter: u8) -> Option<osi_spdu::Side>
    ensures { result ≡ side_of_letter letter }
{
    match letter {
        b'a' => Some(osi_spdu::Side::Asker),
        b'r' => Some(osi_spdu::Side::Answerer),
        _ => None,
    }
}

/// The side wished for as the holder of each token, by their letters.
#[tactic(auto, unfolding(crate::specs::Words::wishes_of))]
fn wished(data_token: u8, minor: u8, major: u8, release: u8) -> Option<TokenSetting>
    ensures { result ≡ wishes_of (data_token ∷ minor ∷ major ∷ release ∷ []) }
{
    Some(TokenSetting {
        data_token: wish(data_token)?,
        minor: wish(minor)?,
        major: wish(major)?,
        release: wish(release)?,
    })
}

/// The side wished for as the holder of each token, a letter for each.
#[tactic(auto, unfolding(crate::specs::Words::wishes_of))]
pub(crate) fn wishes(word: &[u8]) -> Option<TokenSetting>
    ensures { result ≡ wishes_of word.now }
{
    match *word {
        [data_token, minor, major, release] => wished(data_token, minor, major, release),
        _ => None,
    }
}

/// The side that holds each token, by their letters.
#[tactic(auto, unfolding(crate::specs::Words::sides_of))]
fn settled(data_token: u8, minor: u8, major: u8, release: u8) -> Option<Sides>
    ensures { result ≡ sides_of (data_token ∷ minor ∷ major ∷ release ∷ []) }
{
    Some(Sides {
        data_token: settled_side(data_token)?,
        minor: settled_side(minor)?,
        major: settled_side(major)?,
        release: settled_side(release)?,
    })
}

/// The side that holds each token, a letter for each.
#[tactic(auto, unfolding(crate::specs::Words::sides_of))]
pub(crate) fn sides(word: &[u8]) -> Option<Sides>
    ensures { result ≡ sides_of word.now }
{
    match *word {
        [data_token, minor, major, release] => settled(data_token, minor, major, release),
        _ => None,
    }
}
