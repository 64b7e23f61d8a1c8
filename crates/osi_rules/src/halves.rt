//! What one side has sent on a connection.

ghost use Rattle.std.specs.Prelude.{◌≡◌};
ghost use Rattle.osi_rules.specs.Sides.{is_silent, is_open, is_refused, is_closing, is_closed, is_over_by};

/// How far a side is with a connection (X.224 sections 6.5 to 6.7).
#[derive(Clone, Copy, PartialEq, Eq)]
pub enum Phase {
    /// It has sent nothing.
    Silent,
    /// It has sent its CR or CC.
    Open,
    /// It has sent a DR or an ER in place of a CC.
    Refused,
    /// It has sent a DR after its CC, or after the other's.
    Closing,
    /// It has sent a DC.
    Closed,
}

/// What a side has sent on a connection.
#[derive(Clone, Copy, PartialEq, Eq)]
pub struct Half {
    pub(crate) phase: Phase,
    /// The reference that it gave the connection.
    pub(crate) reference: u16,
    /// The number of its next DT.
    pub(crate) next: u8,
    /// The number of its last AK, or 0: the number of the DT that it awaits.
    pub(crate) awaited: u8,
    /// The credit of its last AK, or that of its CR or CC.
    pub(crate) credit: u8,
    /// The octets of its unfinished TSDU.
    pub(crate) begun: usize,
}

impl Phase {
    pub(crate) fn is_silent(self) -> bool
        ensures { result ≡ is_silent self }
    {
        matches!(self, Phase::Silent)
    }

    pub(crate) fn is_open(self) -> bool
        ensures { result ≡ is_open self }
    {
        matches!(self, Phase::Open)
    }

    pub(crate) fn is_refused(self) -> bool
        ensures { result ≡ is_refused self }
    {
        matches!(self, Phase::Refused)
    }

    pub(crate) fn is_closing(self) -> bool
        ensures { result ≡ is_closing self }
    {
        matches!(self, Phase::Closing)
    }

    pub(crate) fn is_closed(self) -> bool
        ensures { result ≡ is_closed self }
    {
        matches!(self, Phase::Closed)
    }
}

impl Half {
    /// Whether the connection is over for this side, which knows so much of the other.
    pub(crate) fn is_over(&self, known: &Half) -> bool
        ensures { result ≡ is_over_by self.now known.now }
    {
        self.phase.is_refused()
            || known.phase.is_refused()
            || self.phase.is_closed()
            || self.phase.is_closing() && (known.phase.is_closing() || known.phase.is_closed())
    }
}
