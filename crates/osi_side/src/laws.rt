//! Laws of a side. Each function does nothing: its contract is the law.

ghost use Rattle.std.specs.Prelude.{◌≡◌, ◌≤◌, ◌+◌, ◌∷◌, ◌⊎◌, [], ℕ, List, None, Ok, Some, true, false, length};
ghost use Rattle.std.specs.Prelude.{replicate};
ghost use Rattle.osi_message.specs.declared.places.Place.{Place};
ghost use Rattle.osi_message.specs.Meanings.{Meaning, DT};
ghost use Rattle.osi_message.specs.Reading.{said_at};
ghost use Rattle.osi_message.specs.Words.{part, part_octets, says};
ghost use Rattle.osi_message.specs.Written.{is_second, written};
ghost use Rattle.osi_session.specs.declared.opening.Opening.{Opening};
ghost use Rattle.osi_session.specs.Respond.{has_no_effect};
ghost use Rattle.osi_session.specs.Sessions.{awaits, opens, refusal_of};
ghost use Rattle.osi_session.specs.Standing.{Seen, seen_called, seen_calling};
ghost use Rattle.osi_side.specs.declared.directions.Direction.{Direction};
ghost use Rattle.osi_side.specs.declared.findings.Finding.{Finding};
ghost use Rattle.osi_side.specs.Between.{seen_to};
ghost use Rattle.osi_side.specs.Breaking.{BreaksWith};
ghost use Rattle.osi_side.specs.declared.rules.Break.{Break};
ghost use Rattle.osi_side.specs.Sides.{begin_of};
ghost use Rattle.std.specs.List.{flat_map};
ghost use Rattle.osi_side.specs.declared.members.Member.{Member};
ghost use Rattle.osi_side.specs.declared.standings.Stands.{Stands};
ghost use Rattle.osi_side.specs.Explaining.{Remark, Told, Explains, IsExplained};
ghost use Rattle.osi_side.specs.Foremost.{foremost, IsForemost};
ghost use Rattle.osi_side.specs.Judging.{HasRoom, IsFound};
ghost use Rattle.osi_side.specs.Members.{is_empty};
ghost use Rattle.osi_side.specs.Nearest.{Unsaid, reached, far, nearest};
ghost use Rattle.osi_side.specs.Onward.{IsNearest, StandsBehind};
ghost use Rattle.osi_side.specs.Outlines.{AreAlike, bare, outline, outlines};
ghost use Rattle.osi_side.specs.Findings.{broke_session, is_judged, place_of};
ghost use Rattle.osi_side.specs.Running.{IsSentFrom, IsHonest};

/// What is found of a side is unique: that it kept the protocol, or at which of its TSDUs it broke the protocol or
/// left the profile (`place`). So of a side that kept the protocol it is never found that it left the profile. And
/// whether too many sessions explain the side, or one of these is found, is also unique (`judged`).
pub fn a_side_is_found_in_one_way()
    ensures place { (begin : Seen) (us : List (List ℕ)) (told : List Told) (f g : Finding) → is_judged f ≡ true → is_judged g ≡ true
        → IsFound begin us told f → IsFound begin us told g → place_of f ≡ place_of g }
    ensures judged { (begin : Seen) (us : List (List ℕ)) (told : List Told) (f g : Finding) → IsFound begin us told f
        → IsFound begin us told g → HasRoom begin us told f → HasRoom begin us told g → is_judged f ≡ is_judged g }
{}

/// Several sessions may explain what a side sent, and a judgement tells one of them. If the side kept the protocol,
/// it is the foremost: no other comes before it. If the side broke the protocol, take all sessions that explain
/// what it sent before, and all that these become by taking more of what had passed: it is the nearest of them to
/// the break. And a session has only one state after all that passed (`stands`).
pub fn a_side_is_told_by_one_session()
    ensures foremost { (members : List Member) → is_empty members ≡ false → IsForemost (foremost members) members }
    ensures nearest { (u : Unsaid) (us : List (List ℕ)) (before : ℕ) (members : List Member)
        → IsNearest u (flat_map (reached us before) members) (far members) (nearest u us before members) }
    ensures stands { (us : List (List ℕ)) (m : Member) (s t : Stands) → StandsBehind us m s → StandsBehind us m t → s ≡ t }
{}

/// The *outline* of a TSDU has no user data, and has the same effect on every session as the TSDU itself, but for
/// what is shown to its user. It is no longer than the TSDU, and no longer than the octets in which the message is
/// sent without user data. Data, and parts of data, come in a TSDU after an item that names no token. All data has
/// one outline, and a part has one for its place and its length.
pub fn an_outline_has_no_user_data()
    ensures alike { (tsdu : List ℕ) → AreAlike (outline tsdu) tsdu }
    ensures no_longer { (tsdu : List ℕ) → length (outline tsdu) ≤ length tsdu }
    ensures alone { (tsdu : List ℕ) (m n : Meaning) → said_at tsdu ≡ Ok (says m ∷ []) → is_second m ≡ false → bare m ≡ Some n
        → length (outline tsdu) ≤ length (written n) }
    ensures behind { (tsdu : List ℕ) (item m n : Meaning) → said_at tsdu ≡ Ok (says item ∷ says m ∷ []) → has_no_effect item ≡ true
        → is_second m ≡ true → bare m ≡ Some n → length (outline tsdu) ≤ length (written n) }
    ensures data_outline { (tsdu octets : List ℕ) (item : Meaning) → said_at tsdu ≡ Ok (says item ∷ says (DT octets) ∷ []) →
        has_no_effect item ≡ true
        → 4 ≤ length tsdu → outline tsdu ≡ 1 ∷ 0 ∷ 1 ∷ 0 ∷ [] }
    ensures part_outline { (tsdu octets : List ℕ) (place : Place) (item : Meaning) → said_at tsdu ≡ Ok (says item ∷ part place octets ∷ [])
        → has_no_effect item ≡ true → 7 + length octets ≤ length tsdu → outline tsdu ≡ part_octets place (replicate (length octets) 0) }
{}

/// So the outlines of the other side's TSDUs are enough to tell which state a session of a side has (`stands`), and
/// by which rule the side broke the protocol (`rule`): both are the same by the TSDUs themselves.
pub fn outlines_tell_what_the_tsdus_do()
    ensures stands { (us : List (List ℕ)) (m : Member) (s : Stands) → StandsBehind (outlines us) m s → StandsBehind us m s }
    ensures rule { (us : List (List ℕ)) (tsdu : List ℕ) (before : ℕ) (members at : List Member) (by : Break)
        → BreaksWith (outlines us) tsdu before members at by → BreaksWith us tsdu before members at by }
{}

/// Take a session of this product. Whatever the other side sends, whatever calls its own user makes, at whatever
/// times, and if its transport connection is refused or lost: what it sent is explained. That holds up to each TSDU
/// that it sent, by what it had taken of the other side until then.
pub fn an_honest_session_is_explained()
    ensures caller { (o : Opening) (us : List (List ℕ)) (told : List Told) → refusal_of o ≡ None → IsSentFrom (opens o) us told →
        IsExplained seen_calling us told }
    ensures called { (us : List (List ℕ)) (told : List Told) → IsSentFrom awaits us told → IsExplained seen_called us told }
{
    osi_message::laws::what_is_sent_is_read();
    osi_message::laws::what_a_part_says();
    osi_message::laws::what_leaves_in_parts();
}

/// So a side that is a session of this product is never blamed: it is never found to have broken the protocol or to
/// have left the profile, whatever the other side sent.
pub fn an_honest_side_is_not_blamed()
    ensures { (d : Direction) (us : List (List ℕ)) (told : List Told) (finding : Finding) → IsHonest d us told
        → IsFound (begin_of d) us told finding → broke_session finding ≡ false }
{
    osi_message::laws::what_is_sent_is_read();
    osi_message::laws::what_a_part_says();
    osi_message::laws::what_leaves_in_parts();
    an_honest_session_is_explained();
}

/// Take three sessions that have taken the same TSDUs and are in the same state, except that their V(A) differ.
/// Whatever the session with the middle V(A) explains from there on, whatever it takes in between, one of the two
/// others explains, too: the one with the lowest V(A), which may confirm all that the others may and accepts all
/// confirmations that they accept, or the one with the highest, which also finds each fault that the others find.
/// So a judge need not keep the middle one.
pub fn what_lies_between()
    ensures { (us : List (List ℕ)) (later : List Remark) (taken : ℕ) (s : Seen) (low between high : ℕ) → low ≤ between → between ≤ high
        → Explains us later taken (seen_to between s) → Explains us later taken (seen_to low s) ⊎ Explains us later taken (seen_to high s) }
{}
