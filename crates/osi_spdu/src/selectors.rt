//! Addresses of session users.

ghost use Rattle.std.specs.Prelude.{◌≡◌, ◌≤◌, ◌<◌, length, MatchOption, option_map};
ghost use Rattle.osi_spdu.specs.Values.{canonical};
ghost use Rattle.osi_spdu.specs.Octets.{octets_of};

use crate::codes::Code;
use crate::octets::Value;

/// The address of a session user: 0 to 16 octets (X.225 section 8, session selector).
#[derive(Clone, Copy, PartialEq, Eq)]
pub struct Selector<'a> {
    /// The octets.
    pub octets: &'a [u8],
    pub ghost short: { length octets.now ≤ 16 },
}

impl<'a> Selector<'a> {
    /// The selector of these octets, if they are at most 16.
    pub fn new(octets: &'a [u8]) -> Option<Selector<'a>>
        ensures { MatchOption result (16 < length octets.now)
            (λ s. (s.octets.now ≡ octets.now) × (length octets.now ≤ 16)) }
    {
        if octets.len() > 16 {
            return None;
        }
        Some(Selector { octets })
    }

    #[tactic(auto, unfolding(crate::specs::Values::canonical))]
    pub(crate) fn read(value: &'a [u8]) -> Option<Selector<'a>>
        ensures calling { canonical Code.CallingSelector value.now ≡ option_map (λ s. s.octets.now) result }
        ensures called { canonical Code.CalledSelector value.now ≡ option_map (λ s. s.octets.now) result }
    {
        if value.len() > 16 {
            return None;
        }
        Some(Selector { octets: value })
    }

    pub(crate) fn value(self) -> Value<'a>
        ensures { octets_of result ≡ self.entry.octets.now }
    {
        Value::of_slice(self.octets)
    }
}
