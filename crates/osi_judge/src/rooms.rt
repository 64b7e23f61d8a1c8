//! How much may be kept of a connection.

ghost use Rattle.std.specs.Prelude.{◌≡◌, ℕ};
ghost use Rattle.osi_tpkt.specs.Stream.{offset_of};
ghost use Rattle.osi_judge.specs.Rooms.{fits, is_over};

/// What each DT counts beside its user data.
const OF_EACH_DT: usize = 48;

/// How much may be kept of a connection.
#[derive(Clone, Copy)]
pub(crate) enum Room {
    /// All that is to be kept of what passes.
    All,
    /// So many octets.
    Octets(usize),
    /// Nothing more: there was no room for a DT.
    Over,
}

impl Room {
    /// Whether there is room for a DT with so much user data, beside so much that is kept.
    pub(crate) fn fits(self, kept: usize, length: usize) -> bool
        ensures { (n : ℕ) → kept ≡ offset_of n → result ≡ fits self n length }
    {
        match self {
            Room::All => true,
            Room::Octets(most) => {
                if most < OF_EACH_DT {
                    return false;
                }
                let rest = most - OF_EACH_DT;
                rest >= kept && rest - kept >= length
            }
            Room::Over => false,
        }
    }

    /// Whether there was no room for a DT.
    pub(crate) fn is_over(self) -> bool
        ensures { result ≡ is_over self }
    {
        matches!(self, Room::Over)
    }
}
