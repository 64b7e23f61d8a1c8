//! Finding the row of a reference in a table: at the first look if no row between it and the first one was dropped,
//! otherwise by binary search.

ghost use Rattle.std.specs.Prelude.{◌≡◌, ◌++◌, ◌∷◌, [], true};
ghost use Rattle.osi_carrier.specs.Rising.{RiseBy, place_by};

/// A row of a table by reference.
pub trait Referred {
    ghost use Rattle.std.specs.Prelude.{ℕ, ◌≡◌};

    ghost reference_of: { Self → ℕ };

    /// The reference that this end gave.
    fn reference(&self) -> u16
        ensures { result ≡ reference_of self.now };
}

/// The place of a reference among rows, by a linear search.
fn walk<R: Referred>(rows: &[R], reference: u16) -> Option<usize>
    ensures { result ≡ place_by R.reference_of reference rows.now }
{
    rows.iter().position(|row| row.reference() == reference)
}

/// The place of a reference among rising rows, by a binary search.
fn halve<R: Referred>(rows: &[R], reference: u16) -> Option<usize>
    ensures { RiseBy R.reference_of 0 rows.now → result ≡ place_by R.reference_of reference rows.now }
{
    rows.binary_search_by_key(&reference, |row| row.reference())
        .ok()
}

/// Whether a reference is above that of the last row, or above 0 if there is none: then a row with it may be added at
/// the end.
pub fn is_above<R: Referred>(rows: &[R], reference: u16) -> bool
    ensures { (row : R) → R.reference_of row ≡ reference → result ≡ true → RiseBy R.reference_of 0 rows.now →
        RiseBy R.reference_of 0 (rows.now ++ row ∷ []) }
{
    if rows.is_empty() {
        return reference > 0;
    }
    rows[rows.len() - 1].reference() < reference
}

/// The place of a reference among rows. If the caller says that they rise, the search begins at the place that the
/// distance from the first reference suggests, and continues by binary search. As with any binary search, the result is
/// the place only if the rows do rise.
#[inline(always)]
pub fn place_in<R: Referred>(rows: &[R], rises: bool, reference: u16) -> Option<usize>
    ensures { (rises ≡ true → RiseBy R.reference_of 0 rows.now) → result ≡ place_by R.reference_of reference rows.now }
{
    if !rises {
        return walk(rows, reference);
    }
    let [first, ..] = rows else {
        return None;
    };
    let place = reference.wrapping_sub(first.reference()) as usize;
    if place < rows.len() && rows[place].reference() == reference {
        return Some(place);
    }
    halve(rows, reference)
}
