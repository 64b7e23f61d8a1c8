//! How the octets of the side that called begin.

ghost use Rattle.std.specs.Prelude.{◌≡◌, ◌++◌, ◌/◌, List, ℕ, []};
ghost use Rattle.osi_side.specs.Captures.{Capture, piece, stream};
ghost use Rattle.osi_side.specs.declared.directions.Direction.TheVariants.{Left};
ghost use Rattle.osi_report.specs.Openings.{Opens, first_code, is_another, is_half_of_another, is_undecided};

use osi_side::Direction;

/// The place of the code of the first transport unit in a stream: after the four octets of the packet's header, and the length of
/// the unit's own header (RFC 1006 section 6, X.224 section 13.2).
const CODE: usize = 5;

/// The first octets of the side that called, up to the code of its first transport unit.
#[derive(Clone, Copy)]
pub struct Opening {
    /// How many octets of the side passed.
    passed: usize,
    /// The code, once it has passed.
    code: Option<u8>,
}

/// Whether a unit with this code is no CR.
fn is_other_unit(code: u8) -> bool
    ensures { result ≡ is_half_of_another (code / 16) }
{
    matches!(code / 16, 6 | 7 | 8 | 12 | 13 | 15)
}

impl Opening {
    /// Nothing has passed.
    pub fn new() -> Opening
        ensures { Opens result [] }
    {
        Opening {
            passed: 0,
            code: None,
        }
    }

    /// Octets of a side pass.
    pub fn pass(&mut self, direction: Direction, octets: &[u8])
        ensures { (capture : Capture) → Opens self.old (stream Left capture)
            → Opens self.new (stream Left (capture ++ piece direction octets.now)) }
    {
        match direction {
            Direction::Left => self.pass_left(octets),
            Direction::Right => {}
        }
    }

    /// Octets of the side that called pass.
    #[tactic(auto, using(crate::proofs::how_a_stream_begins_stays::opens_more))]
    fn pass_left(&mut self, octets: &[u8])
        ensures { (left : List ℕ) → Opens self.old left → Opens self.new (left ++ octets.now) }
    {
        self.code = self.code_after(octets);
        self.passed = self.passed.saturating_add(octets.len());
    }

    /// The code after these octets of the side that called.
    #[tactic(auto, using(crate::proofs::how_a_stream_begins_stays::code_stays, crate::proofs::how_a_stream_begins_stays::code_comes))]
    fn code_after(&self, octets: &[u8]) -> Option<u8>
        ensures { (left : List ℕ) → Opens self.now left → result ≡ first_code (left ++ octets.now) }
    {
        if self.passed > CODE {
            return self.code;
        }
        octets.get(CODE - self.passed).copied()
    }

    /// Whether the first unit may be no CR: its code has not passed, or is of another unit.
    pub(crate) fn is_undecided(&self) -> bool
        ensures { result ≡ is_undecided self.now.code }
    {
        match self.code {
            None => true,
            Some(_) => self.is_another(),
        }
    }

    /// Whether the first unit is no CR, if its code has passed.
    pub(crate) fn is_another(&self) -> bool
        ensures { result ≡ is_another self.now.code }
    {
        match self.code {
            None => false,
            Some(code) => is_other_unit(code),
        }
    }
}
