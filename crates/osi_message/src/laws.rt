//! Laws of the definitions that the contracts cite. Each function does nothing: its clauses are the
//! laws.

ghost use Rattle.std.specs.Prelude.{◌≡◌, ◌<◌, ◌≤◌, ℕ, true, false, List, [], ◌∷◌, length, map, Ok};
ghost use Rattle.std.specs.List.{AllByRecursion};
ghost use Rattle.osi_unit.specs.Octets.{IsOctets};
ghost use Rattle.osi_spdu.specs.Known.{Units};
ghost use Rattle.osi_spdu.specs.Reading.{tsdu_at};
ghost use Rattle.osi_spdu.specs.Values.{is_size};
ghost use Rattle.osi_message.specs.declared.messages.Message.{Message};
ghost use Rattle.osi_message.specs.InOctets.{IsInOctets};
ghost use Rattle.osi_message.specs.declared.places.Place.{Place};
ghost use Rattle.osi_message.specs.Meanings.{Meaning, DT, GT, meant_by};
ghost use Rattle.osi_message.specs.Numbered.{IsNumbered, AreNumberedWords};
ghost use Rattle.osi_message.specs.Parting.{is_parted, words_sent, tsdus_of, in_one, AreParts, joined, behind_no_token, AreFull};
ghost use Rattle.osi_message.specs.Reading.{said_by_units, said_at};
ghost use Rattle.osi_message.specs.Sendable.{IsSendable, words_of};
ghost use Rattle.osi_message.specs.Tokens.{no_token};
ghost use Rattle.osi_message.specs.Words.{says, part, part_octets};
ghost use Rattle.osi_message.specs.Written.{spelled, written};

use osi_spdu::laws;

/// A message arrives as it was meant: the octets in which it is sent read back as its units, and these units have
/// the meaning that was to be sent, alone or after a GT that names no token.
pub fn what_is_sent_is_read()
    ensures read { (m : Meaning) → IsSendable m → tsdu_at (written m) ≡ Ok (spelled m) }
    ensures said { (m : Meaning) → IsSendable m → said_by_units (spelled m) ≡ words_of m }
{
    laws::serial_digits();
    laws::few_octets_fit();
    laws::a_written_form_reads_back();
}

/// The octets in which a part of a Data is sent read back as that part, after a GT that names no token.
pub fn what_a_part_says()
    ensures { (place : Place) (octets : List ℕ) →
        said_at (part_octets place octets) ≡ Ok (says (GT no_token) ∷ part place octets ∷ []) }
{
    laws::a_written_form_reads_back();
    laws::few_octets_fit();
}

/// What is sent consists of octets, if its fields do.
pub fn what_is_sent_is_octets()
    ensures { (m : Meaning) → IsSendable m → IsInOctets m → IsOctets (written m) }
{
    laws::serial_digits();
    laws::few_octets_fit();
}

/// How a message is sent if a TSDU may have at most `limit` octets, 0 for no limit (X.225 section 6.3.5, segmenting):
/// in one TSDU, except for longer data. That is sent in parts, first to last. Each part reads back as itself, after a
/// GT with no token, and joined they are the data. All TSDUs but the last have as many octets as the limit, and none
/// has more than 1,048,576.
pub fn what_leaves_in_parts()
    ensures whole { (limit : ℕ) (m : Meaning) → is_parted limit m ≡ false → tsdus_of limit m ≡ in_one m }
    ensures parts { (limit : ℕ) (octets : List ℕ) → is_size limit ≡ true → is_parted limit (DT octets) ≡ true →
        AreParts (words_sent limit (DT octets)) }
    ensures joined { (limit : ℕ) (octets : List ℕ) → joined (words_sent limit (DT octets)) ≡ octets }
    ensures read { (limit : ℕ) (octets : List ℕ) →
        map said_at (tsdus_of limit (DT octets)) ≡ map (λ word. Ok (behind_no_token word)) (words_sent limit (DT octets)) }
    ensures full { (limit : ℕ) (octets : List ℕ) → is_size limit ≡ true → 0 < limit → AreFull limit (tsdus_of limit (DT octets)) }
    ensures short { (limit : ℕ) (octets : List ℕ) → is_size limit ≡ true → length octets ≤ 1048572 →
        AllByRecursion (λ tsdu. length tsdu ≤ 1048576) (tsdus_of limit (DT octets)) }
    ensures octets { (limit : ℕ) (m : Meaning) → IsSendable m → IsInOctets m → AllByRecursion IsOctets (tsdus_of limit m) }
{
    what_is_sent_is_read();
    what_a_part_says();
    what_is_sent_is_octets();
}

/// Each number in a message is one that a point may have, and so is each number in the units of a TSDU.
pub fn numbers_of_points()
    ensures message { (m : Message) → IsNumbered (meant_by m) }
    ensures units { (units : Units) → AreNumberedWords (said_by_units units) }
{}
