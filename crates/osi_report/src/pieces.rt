//! Cuts the text of a capture into pieces: each line is a piece of one side.

ghost use Rattle.std.specs.Prelude.{◌≡◌, ◌<◌, ◌≤◌, ◌+◌, ◌∷◌, ℕ, List, take, drop};
ghost use Rattle.osi_listing.specs.Capture.{is_blank};
ghost use Rattle.osi_report.specs.Rows.{is_tabbed, digits_on, digits_left, begun_on, ends_within};

use osi_script::first_line;

/// A piece: the octets whose first digit is on one line.
#[derive(Clone, Copy)]
pub struct Piece<'a> {
    /// The line begins with a tab: it is of the called side.
    pub is_tabbed: bool,
    /// These octets.
    pub octets: &'a [u8],
}

/// The pieces of a text that have not been read.
#[derive(Clone, Copy)]
pub struct Pieces<'a> {
    lines: Option<&'a [u8]>,
    octets: &'a [u8],
    /// The second digit of an octet comes next.
    is_within: bool,
}

impl<'a> Pieces<'a> {
    ghost use Rattle.std.specs.Prelude.{◌≡◌, ◌∷◌, [], false, IfSome, IfNone};
    ghost use Rattle.osi_report.specs.Rows.{rows_of};
    ghost use Rattle.osi_report.specs.Reading.{row, rows_left};

    /// All pieces of a text that captures these octets.
    pub fn of(text: &'a [u8], octets: &'a [u8]) -> Pieces<'a>
        ensures { rows_left result ≡ rows_of text.entry.now octets.entry.now }
    {
        Pieces {
            lines: Some(text),
            octets,
            is_within: false,
        }
    }

    /// The next piece, from the next line.
    pub fn next_piece(&mut self) -> Option<Piece<'a>>
        ensures some { IfSome result (λ piece. rows_left self.old ≡ row piece ∷ rows_left self.new) }
        ensures none { IfNone result (rows_left self.old ≡ []) }
    {
        let Some(text) = self.lines else {
            return None;
        };
        let (line, behind) = first_line(text);
        let digits = digits_on(line);
        let (octets, rest) = parted(self.octets, begun_on(self.is_within, digits));
        self.lines = behind;
        self.octets = rest;
        self.is_within = ends_within(self.is_within, digits);
        Some(Piece {
            is_tabbed: is_tabbed(line),
            octets,
        })
    }
}

/// The first `count` octets, or all if there are fewer, and the others.
#[tactic(auto, using(std::proofs::lemmas::List::take_all, std::proofs::lemmas::List::drop_all))]
fn parted(octets: &[u8], count: usize) -> (&[u8], &[u8])
    ensures first { result.0.now ≡ take count octets.now }
    ensures others { result.1.now ≡ drop count octets.now }
{
    if octets.len() < count {
        return (octets, &[]);
    }
    octets.split_at(count)
}

/// How many octets begin on a line with this many digits.
fn begun_on(is_within: bool, digits: usize) -> usize
    ensures { result ≡ begun_on is_within digits }
{
    if is_within {
        return digits / 2;
    }
    digits - digits / 2
}

/// Whether a line with this many digits ends within an octet.
fn ends_within(is_within: bool, digits: usize) -> bool
    ensures { result ≡ ends_within is_within digits }
{
    if is_within {
        return digits % 2 == 0;
    }
    digits % 2 == 1
}

/// Whether an octet may occur between digits and means nothing.
fn is_blank_octet(octet: u8) -> bool
    ensures { result ≡ is_blank octet }
{
    octet == b' ' || octet == b'\t' || octet == b'\r'
}

/// How many digits were counted on a line, and whether a comment continues.
#[derive(Clone, Copy)]
struct Counter {
    digits: usize,
    in_comment: bool,
}

/// One octet more of a line.
#[tactic(auto, using(crate::proofs::digits_are_counted_one_by_one::in_comment, crate::proofs::digits_are_counted_one_by_one::begins_comment))]
fn counted(counter: Counter, octet: u8) -> Counter
    requires { counter.digits < usize.MAX }
    ensures left { (rest : List ℕ) → result.digits + digits_left result.in_comment rest
        ≡ counter.digits + digits_left counter.in_comment (octet ∷ rest) }
    ensures most { result.digits ≤ counter.digits + 1 }
{
    if counter.in_comment {
        return counter;
    }
    if octet == b'#' {
        return Counter {
            digits: counter.digits,
            in_comment: true,
        };
    }
    if is_blank_octet(octet) {
        return counter;
    }
    Counter {
        digits: counter.digits + 1,
        in_comment: false,
    }
}

/// How many digits are on a line.
fn digits_on(line: &[u8]) -> usize
    ensures { result ≡ digits_on line.now }
{
    let mut counter = Counter {
        digits: 0,
        in_comment: false,
    };
    'octets: for octet in line {
        counter = counted(counter, *octet);
    }
    counter.digits
}

fn is_tabbed(line: &[u8]) -> bool
    ensures { result ≡ is_tabbed line.now }
{
    match line {
        [] => false,
        [first, ..] => *first == b'\t',
    }
}
