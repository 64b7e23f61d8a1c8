//! Cutting a text into lines.

ghost use Rattle.std.specs.Prelude.{◌≡◌, ◌∷◌, []};
ghost use Rattle.std.specs.Option.{option_map_or};
ghost use Rattle.osi_script.specs.Cutting.{lines_of};

use memchr::memchr;

/// The first line of a text without its end, the octet 0A, and the text after that end if there is one.
#[tactic(auto, using(crate::proofs::a_text_is_cut_at_its_first_line_end::no_end, crate::proofs::a_text_is_cut_at_its_first_line_end::first_end, crate::proofs::a_text_is_cut_at_its_first_line_end::end_within))]
pub fn first_line(text: &[u8]) -> (&[u8], Option<&[u8]>)
    ensures { lines_of text.now
        ≡ result.0.now ∷ option_map_or (λ rest. lines_of rest.now) result.1 [] }
{
    match memchr(b'\n', text) {
        None => (text, None),
        Some(index) => {
            let (line, _) = text.split_at(index);
            let (_, rest) = text.split_at(index + 1);
            (line, Some(rest))
        }
    }
}
