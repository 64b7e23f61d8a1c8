//! The trace of one direction of a byte connection.

ghost use Rattle.std.specs.Prelude.{◌≡◌, ◌++◌, ℕ, List, [], length, vec_capacity, true, false};
ghost use Rattle.osi_listing.specs.Traced.{IsTraced, IsBounded, AreCounted, unfetched, counted, octets_taken, is_stopped};
ghost use Rattle.osi_listing.specs.Traced.{KeepsOn, CountsOn, HasToStop};

use crate::counting::Counts;
use crate::pieces::Lister;
use std::alloc::Global;
use std::mem::replace;

/// The most octets of lines that a trace keeps for its user.
const MOST_LINES: usize = 1_048_576;

/// The most streams of class 2 that may have an unfinished TSDU.
const MOST_STREAMS: usize = 64;

/// What a trace keeps.
#[derive(Clone, Copy)]
pub enum Keeping {
    /// Lines, and their counts.
    Lines,
    /// Only the counts of the lines.
    Counters,
    /// Nothing more: it has stopped.
    Nothing,
}

/// Lists the octets of one direction of a byte connection while they pass, in bounded memory, for a log. It is a
/// [`Lister`] that keeps its lines until they are fetched, or only counts them.
///
/// It stops, and keeps the lines that it has, if an allocation fails, if more than 1,048,576 octets of lines are not
/// fetched, or if more than 64 streams of class 2 have an unfinished TSDU after a piece.
#[derive(Drop)]
pub struct Trace {
    pub lister: Lister,
    /// The lines that nobody has fetched yet.
    pub text: Vec<u8>,
    pub keeping: Keeping,
}

impl Trace {
    /// A trace of a direction in which no octet has passed. It allocates nothing until it is fed.
    pub fn lines(alloc: Global) -> Self
        ensures traced { IsTraced result [] [] }
        ensures bounded { IsBounded result }
        ensures keeping { result.keeping ≡ Keeping.Lines }
    {
        Trace {
            lister: Lister::new(alloc),
            text: Vec::new(alloc),
            keeping: Keeping::Lines,
        }
    }

    /// The same, but it only counts.
    pub fn counters(alloc: Global) -> Self
        ensures traced { IsTraced result [] [] }
        ensures bounded { IsBounded result }
        ensures keeping { result.keeping ≡ Keeping.Counters }
    {
        Trace {
            lister: Lister::new(alloc),
            text: Vec::new(alloc),
            keeping: Keeping::Counters,
        }
    }

    /// Takes the next octets that passed. It stops only if it has to. It has then counted this piece too, or nothing of
    /// it if memory ran out before the piece was listed. Once it has stopped, nothing changes.
    pub fn feed(&mut self, alloc: Global, piece: &[u8])
        ensures traced { (octets fetched : List ℕ) → IsTraced self.old octets fetched → IsTraced self.new (octets ++ piece.now) fetched }
        ensures bounded { IsBounded self.old → IsBounded self.new }
        ensures keeping { is_stopped self.new ≡ false → self.new.keeping ≡ self.old.keeping }
        ensures stops { is_stopped self.old ≡ false → is_stopped self.new ≡ true → HasToStop self.old piece.now self.new }
        ensures over { is_stopped self.old ≡ true → self.new ≡ self.old }
    {
        match self.keeping {
            Keeping::Lines => self.list(alloc, piece),
            Keeping::Counters => self.count(alloc, piece),
            Keeping::Nothing => {}
        }
    }

    /// Keeps the lines of the next octets.
    fn list(&mut self, alloc: Global, piece: &[u8])
        ensures traced { self.old.keeping ≡ Keeping.Lines → (octets fetched : List ℕ) → IsTraced self.old octets fetched →
            IsTraced self.new (octets ++ piece.now) fetched }
        ensures bounded { self.old.keeping ≡ Keeping.Lines → IsBounded self.old → IsBounded self.new }
        ensures keeping { is_stopped self.new ≡ false → self.new.keeping ≡ Keeping.Lines }
        ensures stops { self.old.keeping ≡ Keeping.Lines → is_stopped self.new ≡ true → HasToStop self.old piece.now self.new }
    {
        let mut lines = Vec::new(alloc);
        match self.lister.feed(alloc, &mut lines, piece) {
            Err(_) => self.keeping = Keeping::Nothing,
            Ok(()) => self.keeping = keep(
                &mut self.text,
                lines.as_slice(),
                self.lister.unfinished(),
            ),
        }
    }

    /// Counts the next octets.
    fn count(&mut self, alloc: Global, piece: &[u8])
        ensures traced { self.old.keeping ≡ Keeping.Counters → (octets fetched : List ℕ) → IsTraced self.old octets fetched →
            IsTraced self.new (octets ++ piece.now) fetched }
        ensures bounded { self.old.keeping ≡ Keeping.Counters → IsBounded self.old → IsBounded self.new }
        ensures keeping { is_stopped self.new ≡ false → self.new.keeping ≡ Keeping.Counters }
        ensures stops { is_stopped self.new ≡ true → HasToStop self.old piece.now self.new }
    {
        let mut lines = Vec::new(alloc);
        match self.lister.feed(alloc, &mut lines, piece) {
            Err(_) => self.keeping = Keeping::Nothing,
            Ok(()) => self.keeping = counting(self.lister.unfinished()),
        }
    }

    /// Hands out the lines that nobody has fetched yet.
    pub fn fetch(&mut self, alloc: Global) -> Vec<u8>
        ensures lines { result.items ≡ unfetched self.old }
        ensures none_left { unfetched self.new ≡ [] }
        ensures traced { (octets fetched : List ℕ) → IsTraced self.old octets fetched → IsTraced self.new octets (fetched ++ result.items) }
        ensures bounded { IsBounded self.old → IsBounded self.new }
        ensures keeping { self.new.keeping ≡ self.old.keeping }
    {
        replace(&mut self.text, Vec::new(alloc))
    }

    /// Whether it has stopped.
    pub fn is_stopped(&self) -> bool
        ensures { result ≡ is_stopped self.now }
    {
        matches!(self.keeping, Keeping::Nothing)
    }

    /// How many lines of each kind it has listed; once it has stopped, of the octets up to then.
    pub fn counts(&self) -> Counts
        ensures value { result ≡ counted self.now }
        ensures listed { is_stopped self.now ≡ false → (octets fetched : List ℕ) → IsTraced self.now octets fetched →
            AreCounted octets result }
    {
        self.lister.counts()
    }

    /// How many octets it was fed; once it has stopped, up to then.
    pub fn octets(&self) -> u64
        ensures value { result ≡ octets_taken self.now }
        ensures fed { is_stopped self.now ≡ false → (octets fetched : List ℕ) → IsTraced self.now octets fetched → result ≡ length octets }
    {
        self.lister.octets()
    }
}

/// Adds lines to a text, if there is room for them and not too many streams have an unfinished TSDU.
fn keep(text: &mut Vec<u8>, lines: &[u8], streams: usize) -> Keeping
    ensures { KeepsOn (vec_capacity text.old) text.old.items lines.now streams result text.new.items }
{
    if streams > MOST_STREAMS {
        return Keeping::Nothing;
    }
    if text.len().saturating_add(lines.len()) > MOST_LINES {
        return Keeping::Nothing;
    }
    match text.extend_from_slice(lines) {
        Ok(()) => Keeping::Lines,
        Err(_) => Keeping::Nothing,
    }
}

/// What a trace that only counts keeps, if not too many streams have an unfinished TSDU.
fn counting(streams: usize) -> Keeping
    ensures { CountsOn streams result }
{
    if streams > MOST_STREAMS {
        return Keeping::Nothing;
    }
    Keeping::Counters
}
