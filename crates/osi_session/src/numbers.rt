//! The numbers of synchronization points (X.225 section 5.9).

ghost use Rattle.std.specs.Prelude.{◌≡◌, ◌<◌, ◌≤◌, ◌+◌, ◌^◌};
ghost use Rattle.osi_session.specs.Numbers.{from_base, point_sent, point_taken, minor_confirmed, major_confirmed, restarted_at, lower};

/// The numbers of synchronization points (X.225 section 5.9): V(M), V(A), V(R), and whether the last point was taken
/// and not sent, so that this end confirms points.
#[derive(Clone, Copy, PartialEq, Eq)]
pub struct Numbers {
    /// V(M): the number of the next point.
    pub next: u32,
    /// V(A): the lowest number that is not yet confirmed.
    pub confirmed: u32,
    /// V(R): the lowest number at which this end may restart.
    pub lowest: u32,
    /// The answer flag: a point was taken after the last one that was sent.
    pub answers: bool,
}

#[tactic(auto, unfolding(crate::specs::Numbers::point_sent, crate::specs::Numbers::point_taken, crate::specs::Numbers::minor_confirmed, crate::specs::Numbers::major_confirmed, crate::specs::Numbers::restarted_at))]
impl Numbers {
    /// Before any point.
    pub(crate) fn from_base(base: u32) -> Numbers
        ensures { result ≡ from_base base }
    {
        Numbers {
            next: base,
            confirmed: base,
            lowest: base,
            answers: false,
        }
    }

    /// A point is sent. If the last one was taken, those before it count as confirmed.
    pub(crate) fn point_sent(self) -> Numbers
        requires { self.next < 1000000 }
        ensures { result ≡ point_sent self }
    {
        let turns = self.answers;
        Numbers {
            next: self.next + 1,
            confirmed: if turns { self.next } else { self.confirmed },
            answers: false,
            ..self
        }
    }

    /// A point is taken. If the last one was sent, those before it count as confirmed.
    pub(crate) fn point_taken(self) -> Numbers
        requires { self.next < 1000000 }
        ensures { result ≡ point_taken self }
    {
        let goes_on = self.answers;
        Numbers {
            next: self.next + 1,
            confirmed: if goes_on { self.confirmed } else { self.next },
            answers: true,
            ..self
        }
    }

    /// The minor points up to this one are confirmed.
    pub(crate) fn minor_confirmed(self, number: u32) -> Numbers
        requires { number < 1000000 }
        ensures { result ≡ minor_confirmed number self }
    {
        Numbers {
            confirmed: number + 1,
            ..self
        }
    }

    /// A major point is confirmed: all numbers before the next are confirmed.
    pub(crate) fn major_confirmed(self) -> Numbers
        ensures { result ≡ major_confirmed self }
    {
        Numbers {
            confirmed: self.next,
            lowest: self.next,
            ..self
        }
    }

    /// A restart: this number is the next one again.
    pub(crate) fn restarted_at(self, number: u32) -> Numbers
        ensures { result ≡ restarted_at number self }
    {
        Numbers {
            next: number,
            confirmed: lower(number, self.confirmed),
            lowest: lower(number, self.lowest),
            ..self
        }
    }
}

/// The lower of two numbers.
fn lower(number: u32, other: u32) -> u32
    ensures { result ≡ lower number other }
{
    if number < other { number } else { other }
}
