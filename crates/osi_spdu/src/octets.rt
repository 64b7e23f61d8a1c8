//! At most six octets, as a value.

ghost use Rattle.std.specs.Prelude.{◌≡◌, ◌≤◌, ◌<◌, ◌==◌, ◌+◌, ◌/◌, ◌%◌, [], ◌∷◌, ◌++◌, drop, length};

/// At most six octets, at the end of an array.
#[derive(Clone, Copy)]
pub(crate) struct Short {
    pub(crate) octets: [u8; 6],
    pub(crate) start: usize,
    pub(crate) ghost within: { start ≤ 6 },
}

impl Short {
    ghost use Rattle.osi_spdu.specs.Octets.{short_octets};

    pub(crate) fn none() -> Short
        ensures { short_octets result ≡ [] }
    {
        Short {
            octets: [0; 6],
            start: 6,
        }
    }

    pub(crate) fn one(octet: u8) -> Short
        ensures { short_octets result ≡ octet ∷ [] }
    {
        Short {
            octets: [0, 0, 0, 0, 0, octet],
            start: 5,
        }
    }

    /// Two octets, the high one first.
    pub(crate) fn two(number: u16) -> Short
        ensures { short_octets result ≡ (number / 256) ∷ (number % 256) ∷ [] }
    {
        Short {
            octets: [0, 0, 0, 0, (number / 256) as u8, (number % 256) as u8],
            start: 4,
        }
    }

    /// Two numbers of two octets.
    pub(crate) fn four(first: u16, second: u16) -> Short
        ensures { short_octets result
            ≡ (first / 256) ∷ (first % 256) ∷ (second / 256) ∷ (second % 256) ∷ [] }
    {
        let octets = [
            0,
            0,
            (first / 256) as u8,
            (first % 256) as u8,
            (second / 256) as u8,
            (second % 256) as u8,
        ];
        Short { octets, start: 2 }
    }

    pub(crate) fn as_slice(&self) -> &[u8]
        ensures value { result.now ≡ short_octets self.now }
        ensures short { length result.now ≤ 6 }
    {
        self.octets.split_at(self.start).1
    }
}

/// The octets of a parameter's value, in two pieces: at most six octets that are computed here, and then octets that
/// are borrowed.
#[derive(Clone, Copy)]
pub struct Value<'a> {
    made: Short,
    lent: &'a [u8],
}

impl<'a> Value<'a> {
    ghost use Rattle.osi_spdu.specs.Octets.{short_octets, made_of, lent_of, octets_of};

    pub(crate) fn new(made: Short, lent: &'a [u8]) -> Value<'a>
        ensures { octets_of result ≡ short_octets made ++ lent.now }
    {
        Value { made, lent }
    }

    /// Borrowed octets.
    pub(crate) fn of_slice(lent: &'a [u8]) -> Value<'a>
        ensures { octets_of result ≡ lent.now }
    {
        Value {
            made: Short::none(),
            lent,
        }
    }

    /// Octets that are computed here.
    pub(crate) fn of_short(made: Short) -> Value<'a>
        ensures { octets_of result ≡ short_octets made }
    {
        Value { made, lent: &[] }
    }

    /// One octet.
    pub(crate) fn of_octet(octet: u8) -> Value<'a>
        ensures { octets_of result ≡ octet ∷ [] }
    {
        Value::of_short(Short::one(octet))
    }

    /// The computed octets, at most six.
    pub fn made(&self) -> &[u8]
        ensures value { result.now ≡ made_of self.now }
        ensures short { length result.now ≤ 6 }
    {
        self.made.as_slice()
    }

    /// The borrowed octets after them.
    pub fn lent(&self) -> &'a [u8]
        ensures { result.now ≡ lent_of self.now }
    {
        self.lent
    }

    /// The number of octets of the value.
    pub fn len(&self) -> usize
        ensures { result ≡ length (octets_of self.now) }
    {
        self.made.as_slice().len() + self.lent.len()
    }

    /// Whether the value is empty.
    pub fn is_empty(&self) -> bool
        ensures { result ≡ (length (octets_of self.now) == 0) }
    {
        self.len() == 0
    }
}
