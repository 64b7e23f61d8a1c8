//! The fast path for the most frequent TSDUs, which are written and read directly: data, a part of it, and a minor
//! synchronization point or its confirmation with no parameter but its number, after a GT that names no token. Whole
//! data has a reader of its own, [`PlainUnit::data`]; [`PlainUnit::read`] reads the others, and [`PlainUnit::minor_point`]
//! and [`PlainUnit::minor_ack`] each read one of them.

ghost use Rattle.std.specs.Prelude.{ℕ, List, ◌≡◌, ◌+◌, ◌%◌, ◌≤◌, ◌++◌, true, [], ◌∷◌, length, Ok, IfSome};
ghost use Rattle.osi_spdu.specs.Values.{digits_of};
ghost use Rattle.osi_message.specs.Meanings.{DT, GT, MIP, MIA};
ghost use Rattle.osi_message.specs.Plain.{plain_octets, plain_said, data_octets, point_octets, has_zero_in_front};
ghost use Rattle.osi_message.specs.Reading.{said_at};
ghost use Rattle.osi_message.specs.Tokens.{no_token};
ghost use Rattle.osi_message.specs.Words.{part_head, says};
ghost use Rattle.osi_message.specs.Written.{written};

use crate::laws;
use crate::places::Place;
use crate::short::Short;
use osi_spdu::Serial;

/// The SI of a MIP.
const MINOR_POINT: u8 = 0x31;

/// The SI of a MIA.
const MINOR_ACK: u8 = 0x32;

/// The code of a serial number.
const NUMBER: u8 = 0x2A;

/// The code of an enclosure.
const ENCLOSURE: u8 = 0x19;

/// The most frequent units other than whole data.
#[derive(Clone, Copy)]
pub enum PlainUnit<'a> {
    /// A part of one Data (DT).
    Part {
        /// Which part it is.
        place: Place,
        /// User data.
        user_data: &'a [u8],
    },
    /// A minor synchronization point that asks for its confirmation, without user data (MIP).
    MinorPoint {
        /// The number of the point.
        number: Serial,
    },
    /// The confirmation of a minor synchronization point, without user data (MIA).
    MinorAck {
        /// The number of the point.
        number: Serial,
    },
}

/// A digit of a number below ten.
fn digit(number: u32) -> u8
    ensures { result ≡ number % 10 + 48 }
{
    (number % 10) as u8 + 48
}

/// The octets of a TSDU with a unit of this SI and this number. No memory is needed.
#[tactic(auto, using(crate::proofs::units_of_the_fast_path::digits_1, crate::proofs::units_of_the_fast_path::digits_2, crate::proofs::units_of_the_fast_path::digits_3, crate::proofs::units_of_the_fast_path::digits_4, crate::proofs::units_of_the_fast_path::digits_5, crate::proofs::units_of_the_fast_path::digits_6))]
fn point(si: u8, number: Serial) -> Short
    ensures { result ≡ point_octets si (digits_of number.number) }
{
    let n = number.number;
    let units = digit(n);
    if n < 10 {
        return Short::of([1, 0, si, 3, NUMBER, 1, units, 0, 0, 0, 0, 0], 7);
    }
    let tens = digit(n / 10);
    if n < 100 {
        return Short::of([1, 0, si, 4, NUMBER, 2, tens, units, 0, 0, 0, 0], 8);
    }
    let hundreds = digit(n / 100);
    if n < 1_000 {
        return Short::of([1, 0, si, 5, NUMBER, 3, hundreds, tens, units, 0, 0, 0], 9);
    }
    long_point(si, number)
}

/// The same for a number of four to six digits.
#[tactic(auto, using(crate::proofs::units_of_the_fast_path::digits_4, crate::proofs::units_of_the_fast_path::digits_5, crate::proofs::units_of_the_fast_path::digits_6))]
fn long_point(si: u8, number: Serial) -> Short
    requires { 1000 ≤ number.number }
    ensures { result ≡ point_octets si (digits_of number.number) }
{
    let n = number.number;
    let (units, tens) = (digit(n), digit(n / 10));
    let (hundreds, thousands) = (digit(n / 100), digit(n / 1_000));
    if n < 10_000 {
        return Short::of(
            [
                1, 0, si, 6, NUMBER, 4, thousands, hundreds, tens, units, 0, 0,
            ],
            10,
        );
    }
    let fifth = digit(n / 10_000);
    if n < 100_000 {
        return Short::of(
            [
                1, 0, si, 7, NUMBER, 5, fifth, thousands, hundreds, tens, units, 0,
            ],
            11,
        );
    }
    let sixth = digit(n / 100_000);
    Short::of(
        [
            1, 0, si, 8, NUMBER, 6, sixth, fifth, thousands, hundreds, tens, units,
        ],
        12,
    )
}

/// The octets of a TSDU with a MIP that asks for its confirmation.
#[tactic(auto, using(crate::proofs::units_of_the_fast_path::point_written))]
pub(crate) fn minor_point(number: Serial) -> Short
    ensures { result ≡ written (MIP true number.number []) }
{
    point(MINOR_POINT, number)
}

/// The octets of a TSDU with a MIA.
#[tactic(auto, using(crate::proofs::units_of_the_fast_path::ack_written))]
pub(crate) fn minor_ack(number: Serial) -> Short
    ensures { result ≡ written (MIA number.number []) }
{
    point(MINOR_ACK, number)
}

/// The octets before data in its TSDU: a GT that names no token, and the header of a DT (X.225 sections 6.3.7 and 8).
#[inline(always)]
#[tactic(auto, using(crate::proofs::units_of_the_fast_path::data_written))]
pub fn data_head() -> &'static [u8]
    ensures octets { (octets : List ℕ) → written (DT octets) ≡ result.now ++ octets }
    ensures length { length result.now ≡ 4 }
{
    &[1, 0, 1, 0]
}

/// Whether there is a zero before another digit.
fn has_zero_in_front(digits: &[u8]) -> bool
    ensures { result ≡ has_zero_in_front digits.now }
{
    match digits {
        [first, _, ..] => *first == 48,
        _ => false,
    }
}

/// The number of these digits, if they are the digits in which it is written.
#[tactic(auto, using(crate::proofs::units_of_the_fast_path::read_again))]
fn canonical(digits: &[u8]) -> Option<Serial>
    ensures { IfSome result (λ s. digits_of s.number ≡ digits.now) }
{
    let serial = Serial::read(digits)?;
    if has_zero_in_front(digits) {
        return None;
    }
    Some(serial)
}

/// The number of a unit of this SI with no other parameter, after a GT that names no token.
#[inline(always)]
#[tactic(auto, using(crate::proofs::units_of_the_fast_path::point_parts))]
fn number_of(tsdu: &[u8], si: u8) -> Option<Serial>
    ensures { IfSome result (λ s. tsdu.now ≡ point_octets si (digits_of s.number)) }
{
    if tsdu.len() < 7 || tsdu.len() > 12 {
        return None;
    }
    let (head, digits) = tsdu.split_at(6);
    let count = digits.len() as u8;
    let [gt, empty, unit, len, code, value] = head else {
        return None;
    };
    if *gt != 1 || *empty != 0 || *unit != si || *len != count + 2 {
        return None;
    }
    if *code != NUMBER || *value != count {
        return None;
    }
    let serial = canonical(digits)?;
    Some(serial)
}

/// The part before whose data these octets are written.
fn place_in_front(head: &[u8]) -> Option<Place>
    ensures { IfSome result (λ p. head.now ≡ part_head p) }
{
    match head {
        [1, 0, 1, 3, ENCLOSURE, 1, 0] => Some(Place::Middle),
        [1, 0, 1, 3, ENCLOSURE, 1, 1] => Some(Place::First),
        [1, 0, 1, 3, ENCLOSURE, 1, 2] => Some(Place::Last),
        _ => None,
    }
}

/// A part of one Data, after a GT that names no token. The function is kept out of line, because points are more
/// frequent.
#[inline(never)]
#[tactic(auto, using(crate::proofs::units_of_the_fast_path::part_parts))]
fn part_of(tsdu: &[u8]) -> Option<PlainUnit<'_>>
    ensures { IfSome result (λ p. tsdu.now ≡ plain_octets p) }
{
    if tsdu.len() < 7 {
        return None;
    }
    let (head, user_data) = tsdu.split_at(7);
    let place = place_in_front(head)?;
    Some(PlainUnit::Part { place, user_data })
}

/// The unit whose written form the octets are.
#[tactic(auto, using(crate::proofs::units_of_the_fast_path::point_written, crate::proofs::units_of_the_fast_path::ack_written))]
fn plain_unit(tsdu: &[u8]) -> Option<PlainUnit<'_>>
    ensures { IfSome result (λ p. tsdu.now ≡ plain_octets p) }
{
    if tsdu.len() < 4 {
        return None;
    }
    match tsdu[2] {
        1 => part_of(tsdu),
        MINOR_POINT => {
            let number = number_of(tsdu, MINOR_POINT)?;
            Some(PlainUnit::MinorPoint { number })
        }
        MINOR_ACK => {
            let number = number_of(tsdu, MINOR_ACK)?;
            Some(PlainUnit::MinorAck { number })
        }
        _ => None,
    }
}

impl<'a> PlainUnit<'a> {
    /// What the octets of a TSDU mean, if they are the written form of one of these. `None` for whole data, which
    /// [`PlainUnit::data`] reads, and for all other octets, which `read_tsdu` reads.
    pub fn read(tsdu: &'a [u8]) -> Option<PlainUnit<'a>>
        ensures written { IfSome result (λ p. tsdu.now ≡ plain_octets p) }
        ensures said { IfSome result (λ p. said_at tsdu.now ≡ Ok (plain_said p)) }
    {
        laws::what_is_sent_is_read();
        laws::what_a_part_says();
        let unit = plain_unit(tsdu)?;
        Some(unit)
    }

    /// The number of a minor point that asks for its confirmation, if the octets of a TSDU are its written form, after a GT
    /// that names no token. `None` for all other octets.
    #[inline(always)]
    #[tactic(auto, using(crate::proofs::units_of_the_fast_path::point_written))]
    pub fn minor_point(tsdu: &[u8]) -> Option<Serial>
        ensures written { IfSome result (λ n. tsdu.now ≡ written (MIP true n.number [])) }
        ensures said { IfSome result (λ n. said_at tsdu.now ≡ Ok (says (GT no_token) ∷ says (MIP true n.number []) ∷ [])) }
    {
        laws::what_is_sent_is_read();
        laws::what_a_part_says();
        let serial = number_of(tsdu, MINOR_POINT)?;
        Some(serial)
    }

    /// The number of the confirmation of a minor point, if the octets of a TSDU are its written form, after a GT that names
    /// no token. `None` for all other octets.
    #[inline(always)]
    #[tactic(auto, using(crate::proofs::units_of_the_fast_path::ack_written))]
    pub fn minor_ack(tsdu: &[u8]) -> Option<Serial>
        ensures written { IfSome result (λ n. tsdu.now ≡ written (MIA n.number [])) }
        ensures said { IfSome result (λ n. said_at tsdu.now ≡ Ok (says (GT no_token) ∷ says (MIA n.number []) ∷ [])) }
    {
        laws::what_is_sent_is_read();
        laws::what_a_part_says();
        let serial = number_of(tsdu, MINOR_ACK)?;
        Some(serial)
    }

    /// The user data of whole data, if the octets of a TSDU are its written form, after a GT that names no token.
    #[inline(always)]
    #[tactic(auto, using(crate::proofs::units_of_the_fast_path::data_parts))]
    pub fn data(tsdu: &'a [u8]) -> Option<&'a [u8]>
        ensures written { IfSome result (λ d. tsdu.now ≡ data_octets d.now) }
        ensures said { IfSome result (λ d. said_at tsdu.now ≡ Ok (says (GT no_token) ∷ says (DT d.now) ∷ [])) }
    {
        laws::what_is_sent_is_read();
        if tsdu.len() < 4 {
            return None;
        }
        let (head, user_data) = tsdu.split_at(4);
        let [gt, empty, unit, none] = head else {
            return None;
        };
        if *gt != 1 || *empty != 0 || *unit != 1 || *none != 0 {
            return None;
        }
        Some(user_data)
    }
}
