//! Laws of transcripts. Each function does nothing: its clauses are the laws.

ghost use Rattle.std.specs.Prelude.{◌≡◌, ℕ, List};
ghost use Rattle.osi_transcript.specs.Playing.{Lines, Transcribes};

use osi_pair::standing::{an_event_does_one_thing, how_two_ends_stand};

/// A script has one transcript: its lines determine the text and the status. If memory runs out, there is none.
pub fn a_script_has_one_transcript()
    ensures { (lines : Lines) (text other : List ℕ) (status code : ℕ) → Transcribes lines text status → Transcribes lines other code →
        (text ≡ other) × (status ≡ code) }
{
    how_two_ends_stand();
    an_event_does_one_thing();
}
