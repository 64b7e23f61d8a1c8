//! Reading a script line by line.

ghost use Rattle.std.specs.Prelude.{◌≡◌, ◌+◌, ◌<◌, ◌^◌, ◌∷◌, [], length, option_map, IfSome, IfNone};
ghost use Rattle.osi_script.specs.Cutting.{lines_of};
ghost use Rattle.osi_transcript.specs.Numbered.{numbered, lines_left};

use osi_script::{first_line, is_skipped};

/// The first line of a text that asks for something, with its number, and the text after it. `number` is that of the
/// text's first line.
fn next_from(number: u64, text: &[u8]) -> Option<(u64, &[u8], Option<&[u8]>)>
    requires { number + length (lines_of text.now) < 2 ^ 40 }
    ensures some { IfSome result (λ next. numbered number (lines_of text.entry.now)
        ≡ (next.0, next.1.now) ∷ numbered (next.0 + 1) (lines_left (option_map (λ t. t.now) next.2))) }
    ensures none { IfNone result (numbered number (lines_of text.entry.now) ≡ []) }
    ensures small { IfSome result (λ next. next.0 + 1 + length (lines_left (option_map (λ t. t.now) next.2)) < 2 ^ 40) }
{
    let mut text = text;
    let mut number = number;
    'lines: loop {
        let (line, rest) = first_line(text);
        if !is_skipped(line) {
            return Some((number, line, rest));
        }
        let Some(behind) = rest else {
            return None;
        };
        text = behind;
        number += 1;
    }
}

/// A script that is read line by line. Lines that ask for nothing are skipped, but count.
#[derive(Clone, Copy)]
pub(crate) struct Walk<'s> {
    rest: Option<&'s [u8]>,
    number: u64,
}

impl<'s> Walk<'s> {
    ghost use Rattle.std.specs.Prelude.{◌≡◌, ◌<◌, ◌^◌, ◌∷◌, [], length, IfSome, IfNone};
    ghost use Rattle.osi_script.specs.Cutting.{lines_of};
    ghost use Rattle.osi_transcript.specs.Numbered.{numbered};
    ghost use Rattle.osi_transcript.specs.Walks.{lines_in, IsSmall};

    /// A script of less than 4,294,967,296 octets, at its first line.
    pub(crate) fn new(text: &'s [u8]) -> Walk<'s>
        requires { length text.now < 2 ^ 32 }
        ensures value { lines_in result ≡ numbered 1 (lines_of text.entry.now) }
        ensures small { IsSmall result }
    {
        Walk {
            rest: Some(text),
            number: 1,
        }
    }

    /// The next line that asks for something, without its line end, and its number, from 1 on.
    pub(crate) fn next_line(&mut self) -> Option<(u64, &'s [u8])>
        requires { IsSmall self.old }
        ensures some { IfSome result (λ line. lines_in self.old ≡ (line.0, line.1.now) ∷ lines_in self.new) }
        ensures none { IfNone result (lines_in self.old ≡ []) }
        ensures small { IsSmall self.new }
    {
        let Some(text) = self.rest else {
            return None;
        };
        let Some((number, line, rest)) = next_from(self.number, text) else {
            return None;
        };
        self.rest = rest;
        self.number = number + 1;
        Some((number, line))
    }
}
