//! What a link hands out after it took a unit.

ghost use Rattle.std.specs.Prelude.{ℕ, List, ◌≡◌, option_map};
ghost use Rattle.osi_class.specs.Handing.{tsdu_handed};

/// The TSDU that a link hands out after it took a unit, if one is complete.
#[derive(Drop)]
pub enum Handed {
    /// None is complete.
    Nothing,
    /// The octets of the unit are the whole TSDU. The link has no copy of them.
    Whole,
    /// One that was joined from several units, or that had waited.
    Joined(Vec<u8>),
}

impl Handed {
    /// The TSDU that was the first to wait, if there was one.
    #[inline(always)]
    pub(crate) fn of(first: Option<Vec<u8>>) -> Handed
        ensures { (octets : List ℕ) → tsdu_handed octets result ≡ option_map (λ v. v.items) first }
    {
        match first {
            None => Handed::Nothing,
            Some(tsdu) => Handed::Joined(tsdu),
        }
    }
}
