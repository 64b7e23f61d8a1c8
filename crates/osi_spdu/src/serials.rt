//! Serial numbers of synchronization points.

ghost use Rattle.std.specs.Prelude.{◌≡◌, ◌≤◌, ◌<◌, MatchOption, option_map};
ghost use Rattle.osi_spdu.specs.Values.{digits_of, numeral};
ghost use Rattle.osi_spdu.specs.Octets.{short_octets, octets_of};

use crate::octets::{Short, Value};

/// A synchronization point serial number, 0 to 999,999 (X.225 section 8).
#[derive(Clone, Copy, PartialEq, Eq)]
pub struct Serial {
    /// The number.
    pub number: u32,
    pub ghost small: { number ≤ 999999 },
}

impl Serial {
    /// The number, if it is at most 999,999.
    pub fn new(number: u32) -> Option<Serial>
        ensures { MatchOption result (999999 < number) (λ s. (s.number ≡ number) × (number ≤ 999999)) }
    {
        if number > 999_999 {
            return None;
        }
        Some(Serial { number })
    }

    /// The digits, without leading zeros.
    pub(crate) fn digits(self) -> Short
        ensures { short_octets result ≡ digits_of self.number }
    {
        let n = self.number;
        let octets = [
            (n / 100_000 % 10) as u8 + 48,
            (n / 10_000 % 10) as u8 + 48,
            (n / 1_000 % 10) as u8 + 48,
            (n / 100 % 10) as u8 + 48,
            (n / 10 % 10) as u8 + 48,
            (n % 10) as u8 + 48,
        ];
        let mut start = 0usize;
        'zeros: while start < 5 && octets[start] == 48 {
            start += 1;
        }
        Short { octets, start }
    }

    /// The number that one to six digits spell.
    pub fn read(digits: &[u8]) -> Option<Serial>
        ensures { option_map (λ s. s.number) result ≡ numeral digits.now }
    {
        if digits.is_empty() || digits.len() > 6 {
            return None;
        }
        let mut number = 0u32;
        'digits: for digit in digits {
            if *digit < 48 || *digit > 57 {
                return None;
            }
            number = number * 10 + (*digit - 48) as u32;
        }
        Serial::new(number)
    }

    pub(crate) fn value<'a>(self) -> Value<'a>
        ensures { octets_of result ≡ digits_of self.number }
    {
        Value::of_short(self.digits())
    }
}
