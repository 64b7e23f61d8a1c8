//! What is left of the connections whose place was given to another, and where it is by the number of the connection.

ghost use Rattle.std.specs.Prelude.{◌≡◌, ◌<◌, ◌++◌, ◌∷◌, ◌==◌, ℕ, [], Some, OnOk, OnErr, length, option_copied, slice_get};
ghost use Rattle.std.specs.List.{find};
ghost use Rattle.osi_judge.specs.Records.{AreNoted};

use crate::pasts::Past;
use std::alloc::{AllocError, Global};
use std::marker::Model;

/// What is left of the connections whose place was given to another, in the order in which that came to pass.
#[derive(Drop)]
pub(crate) struct Records {
    pasts: Vec<Past>,
    /// For each number the place of its record. At a number that has no record stands a place of another record, or none.
    places: Vec<usize>,
}

impl Model for Records {
    ghost use Rattle.std.specs.Prelude.{List};
    ghost use Rattle.osi_judge.specs.declared.pasts.Past.{Past as Record};

    ghost Value = { List Record };

    ghost use Rattle.osi_judge.specs.Records.{AreNoted};

    ghost view = { λ r. r.pasts.items };

    ghost invariant = { λ r. AreNoted r.places.items r.pasts.items };
}

/// The record with a number: it is at the place that is noted for it, or nowhere.
fn find_past<'a>(pasts: &'a [Past], places: &[usize], number: usize) -> Option<&'a Past>
    requires { AreNoted places.now pasts.now }
    ensures { option_copied result ≡ find (λ p. p.number == number) pasts.now }
{
    if number >= places.len() {
        return None;
    }
    let place = places[number];
    if place >= pasts.len() {
        return None;
    }
    let past = &pasts[place];
    if past.number != number {
        return None;
    }
    Some(past)
}

/// Makes places up to that of a number. `Err` may have made some of them.
fn make_places(places: &mut Vec<usize>, number: usize) -> Result<(), AllocError>
    ensures kept { (n at : ℕ) → slice_get places.old.items n ≡ Some at → slice_get places.new.items n ≡ Some at }
    ensures there { OnOk result (number < length places.new.items) }
{
    'places: while places.len() <= number {
        places.push(0)?;
    }
    Ok(())
}

/// Notes the place of the record that is the last. Where two have one number, the place of the first stays.
fn note(pasts: &[Past], places: &mut Vec<usize>, past: &Past)
    requires noted { AreNoted places.old.items pasts.now }
    requires there { past.now.number < length places.old.items }
    ensures { AreNoted places.new.items (pasts.now ++ past.now ∷ []) }
{
    let number = past.number;
    if find_past(pasts, places, number).is_some() {
        return;
    }
    places[number] = pasts.len();
}

impl Records {
    /// There is none.
    pub(crate) fn new(alloc: Global) -> Records
        ensures { result ≡ [] }
    {
        Records {
            pasts: Vec::new(alloc),
            places: Vec::new(alloc),
        }
    }

    /// How many there are.
    pub(crate) fn len(&self) -> usize
        ensures { result ≡ length self.now }
    {
        self.pasts.len()
    }

    pub(crate) fn as_slice(&self) -> &[Past]
        ensures { result.now ≡ self.now }
    {
        self.pasts.as_slice()
    }

    /// The first with a number, found at once however many there are.
    pub(crate) fn numbered(&self, number: usize) -> Option<&Past>
        ensures { option_copied result ≡ find (λ p. p.number == number) self.now }
    {
        find_past(self.pasts.as_slice(), self.places.as_slice(), number)
    }

    /// One more. `Err` changes nothing.
    pub(crate) fn push(&mut self, past: Past) -> Result<(), AllocError>
        ensures ok { OnOk result (self.new ≡ self.old ++ past ∷ []) }
        ensures err { OnErr result (self.new ≡ self.old) }
    {
        make_places(&mut self.places, past.number)?;
        self.pasts.reserve(1)?;
        note(self.pasts.as_slice(), &mut self.places, &past);
        let Ok(()) = self.pasts.push(past) else {
            unreachable!()
        };
        Ok(())
    }
}
