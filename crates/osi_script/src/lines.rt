//! A line of a script, and the octets of its user data.

ghost use Rattle.std.specs.Prelude.{◌≡◌, option_map, option_copied, IfOk};
ghost use Rattle.std.specs.Result.{result_ok};
ghost use Rattle.hex.specs.Hex.{decode_of};
ghost use Rattle.osi_script.specs.Words.{data_of};
ghost use Rattle.osi_script.specs.Commands.{command_by, command_of};
ghost use Rattle.osi_script.specs.Fronts.{spelled};
ghost use Rattle.osi_script.specs.Lines.{line_command, octets_kept};

use crate::commands::Command;
use crate::fronts::Front;
use crate::kept::{Kept, LONGEST, decoded};
use crate::words::is;
use hex::FromHexError;
use std::alloc::{AllocError, Global};

/// A line of a script, and the octets that its user data word spells.
#[derive(Drop)]
pub struct Line<'l> {
    front: Front<'l>,
    user_data: Option<Kept>,
}

/// The octets that a long word spells: hexadecimal digits of either case.
#[inline(never)]
fn long(alloc: Global, word: &[u8]) -> Result<Option<Kept>, AllocError>
    ensures { IfOk result (λ octets. option_map octets_kept octets ≡ result_ok (decode_of word.now)) }
{
    match hex::decode(alloc, word) {
        Ok(octets) => Ok(Some(Kept::Long(octets))),
        Err(FromHexError::OutOfMemory) => Err(AllocError),
        Err(_) => Ok(None),
    }
}

/// The octets that a word spells as user data: hexadecimal digits of either case, or a dash for none.
#[inline(always)]
#[tactic(auto, unfolding(crate::specs::Words::data_of))]
fn user_data_in(alloc: Global, word: &[u8]) -> Result<Option<Kept>, AllocError>
    ensures { IfOk result (λ octets. option_map octets_kept octets ≡ data_of word.now) }
{
    if word.is_empty() {
        return Ok(None);
    }
    if is(word, "-") {
        return Ok(Some(Kept::None));
    }
    if word.len() > LONGEST {
        return long(alloc, word);
    }
    match decoded(word) {
        Some(octets) => Ok(Some(Kept::Short(octets))),
        None => Ok(None),
    }
}

/// The octets that a word spells, if there is one.
#[inline(always)]
fn user_data_of(alloc: Global, word: Option<&[u8]>) -> Result<Option<Kept>, AllocError>
    ensures { IfOk result (λ octets. option_map octets_kept octets ≡ spelled (option_copied word.entry)) }
{
    let Some(word) = word else {
        return Ok(None);
    };
    user_data_in(alloc, word)
}

/// The octets of user data, if there is any.
#[inline(always)]
fn octets_in(user_data: &Option<Kept>) -> Option<&[u8]>
    ensures { option_copied result ≡ option_map octets_kept user_data.now }
{
    match user_data {
        Some(Kept::None) => Some(&[]),
        Some(Kept::Short(octets)) => Some(octets.octets()),
        Some(Kept::Long(octets)) => Some(octets.as_slice()),
        None => None,
    }
}

impl<'l> Line<'l> {
    /// Reads the user data of a line. The line is given without its line end.
    #[inline(always)]
    pub fn read(alloc: Global, octets: &'l [u8]) -> Result<Line<'l>, AllocError>
        ensures { IfOk result (λ line. line_command line ≡ command_of octets.entry.now) }
    {
        let front = Front::of(octets);
        let user_data = user_data_of(alloc, front.data_word())?;
        Ok(Line { front, user_data })
    }

    /// What the line asks for; `None` if it is no command.
    #[inline(always)]
    pub fn command(&self) -> Option<Command<'_>>
        ensures { option_map command_by result ≡ line_command self.now }
    {
        self.front.command(octets_in(&self.user_data))
    }
}
