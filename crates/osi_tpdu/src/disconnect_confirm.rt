//! DC, disconnect confirm (X.224 section 13.6).

ghost use Rattle.std.specs.Prelude.{◌≡◌};

/// DC, the disconnect confirm (X.224 section 13.6).
#[derive(Clone, Copy, PartialEq, Eq)]
pub struct DisconnectConfirm {
    /// DST-REF: the reference that the receiver gave the connection.
    pub destination: u16,
    /// SRC-REF: the reference that the sender gave the connection.
    pub source: u16,
}

impl DisconnectConfirm {
    /// DST-REF: the reference that the receiver gave the connection.
    pub fn destination(&self) -> u16
        ensures { result ≡ self.now.destination }
    {
        self.destination
    }

    /// SRC-REF: the reference that the sender gave the connection.
    pub fn source(&self) -> u16
        ensures { result ≡ self.now.source }
    {
        self.source
    }
}
