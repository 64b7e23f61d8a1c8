//! Splitting a line into words at each blank.

ghost use Rattle.std.specs.Prelude.{◌≡◌, ◌-◌, ◌∷◌, [], length, option_copied, Some, IfSome, IfNone};
ghost use Rattle.std.specs.List.{slice_get};
ghost use Rattle.std.specs.Option.{option_map_or};
ghost use Rattle.memchr.specs.Find.{IsFirstByte, is_byte};
ghost use Rattle.osi_script.specs.Words.{words_of, only_word, first_of_two};
ghost use Rattle.osi_script.specs.Commands.{last_of};
ghost use Rattle.osi_script.specs.Splitting.{words_in};

use memchr::memrchr;

/// The index of the first blank of a line. Words are short, so a search in groups of 16 would be slower.
fn first_blank(line: &[u8]) -> Option<usize>
    ensures { IsFirstByte (is_byte 32) line.now result }
{
    let mut index = 0;
    'octets: while index < line.len() {
        if line[index] == b' ' {
            return Some(index);
        }
        index += 1;
    }
    None
}

/// The first word of a line, and the text after the blank that ends it, if there is one.
#[tactic(auto, using(crate::proofs::the_first_and_last_blank_part_a_line::no_blank, crate::proofs::the_first_and_last_blank_part_a_line::first_blank, crate::proofs::the_first_and_last_blank_part_a_line::blank_within))]
pub(crate) fn first_word(line: &[u8]) -> (&[u8], Option<&[u8]>)
    ensures { words_of line.now
        ≡ result.0.now ∷ option_map_or (λ rest. words_of rest.now) result.1 [] }
{
    match first_blank(line) {
        None => (line, None),
        Some(index) => {
            let (word, _) = line.split_at(index);
            let (_, rest) = line.split_at(index + 1);
            (word, Some(rest))
        }
    }
}

/// The first word of a line and the text after it, if the line has a second word.
pub(crate) fn parted(line: &[u8]) -> Option<(&[u8], &[u8])>
    ensures { IfSome result (λ parts. words_of line.now ≡ parts.0.now ∷ words_of parts.1.now) }
{
    let (word, rest) = first_word(line);
    match rest {
        Some(rest) => Some((word, rest)),
        None => None,
    }
}

/// The last word of a line: the text after its last blank.
#[tactic(auto, using(crate::proofs::the_first_and_last_blank_part_a_line::no_last_blank, crate::proofs::the_first_and_last_blank_part_a_line::last_blank, crate::proofs::the_first_and_last_blank_part_a_line::last_blank_within))]
pub(crate) fn last_word(line: &[u8]) -> &[u8]
    ensures { slice_get (words_of line.now) (length (words_of line.now) - 1) ≡ Some result.now }
{
    match memrchr(b' ', line) {
        None => line,
        Some(index) => {
            let (_, word) = line.split_at(index + 1);
            word
        }
    }
}

/// The words of a line that have not been read.
#[derive(Clone, Copy)]
pub(crate) struct Words<'l> {
    rest: Option<&'l [u8]>,
}

impl<'l> Words<'l> {
    /// All words of a line.
    pub(crate) fn of(line: &'l [u8]) -> Words<'l>
        ensures { words_in result ≡ words_of line.entry.now }
    {
        Words { rest: Some(line) }
    }

    /// Reads the next word, if there is one.
    pub(crate) fn next_word(&mut self) -> Option<&'l [u8]>
        ensures some { IfSome result (λ word. words_in self.old ≡ word.now ∷ words_in self.new) }
        ensures none { IfNone result (words_in self.old ≡ []) }
    {
        let Some(line) = self.rest else {
            return None;
        };
        let (word, rest) = first_word(line);
        self.rest = rest;
        Some(word)
    }

    /// The word that is left, if exactly one is.
    #[tactic(auto, unfolding(crate::specs::Words::only_word))]
    pub(crate) fn only(mut self) -> Option<&'l [u8]>
        ensures { option_copied result ≡ only_word (words_in self.entry) }
    {
        let word = self.next_word()?;
        match self.next_word() {
            None => Some(word),
            Some(_) => None,
        }
    }

    /// The first of the words that are left, if exactly two are.
    #[tactic(auto, unfolding(crate::specs::Words::only_word, crate::specs::Words::first_of_two))]
    pub(crate) fn first_of_two(mut self) -> Option<&'l [u8]>
        ensures { option_copied result ≡ first_of_two (words_in self.entry) }
    {
        let word = self.next_word()?;
        match self.only() {
            Some(_) => Some(word),
            None => None,
        }
    }

    /// The last word, if there is one.
    pub(crate) fn last(self) -> Option<&'l [u8]>
        ensures { option_copied result ≡ last_of (words_in self.entry) }
    {
        let Some(line) = self.rest else {
            return None;
        };
        Some(last_word(line))
    }
}
