//! How reading is related to what is read.

ghost use Rattle.std.specs.Prelude.{◌≡◌, ℕ, List, Some};
ghost use Rattle.std.specs.List.{join_with_byte};
ghost use Rattle.osi_script.specs.declared.verbs.Verb.{Verb};
ghost use Rattle.osi_script.specs.Names.{verb_name};
ghost use Rattle.osi_script.specs.Words.{words_of, verb_of};
ghost use Rattle.osi_script.specs.Commands.{Command as Spoken, Spells};

/// A line asks for at most one thing.
pub fn a_line_asks_for_one_thing()
    ensures { (line : List ℕ) (a b : Spoken) → Spells line a → Spells line b → a ≡ b }
{}

/// Each call is read by its name.
pub fn each_verb_is_read_by_its_name()
    ensures { (v : Verb) → verb_of (verb_name v) ≡ Some v }
{}

/// Joining the words of a line with blanks gives the line back.
pub fn words_give_the_line_back()
    ensures { (line : List ℕ) → join_with_byte 32 (words_of line) ≡ line }
{}
