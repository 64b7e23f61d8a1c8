//! DR, disconnect request (X.224 section 13.5).

ghost use Rattle.std.specs.Prelude.{◌≡◌};

/// DR, the disconnect request (X.224 section 13.5). Its parameters are skipped.
#[derive(Clone, Copy, PartialEq, Eq)]
pub struct DisconnectRequest<'a> {
    /// DST-REF: the reference that the receiver gave the connection.
    pub destination: u16,
    /// SRC-REF: the reference that the sender gave the connection, or 0.
    pub source: u16,
    /// Why the connection ends or is refused.
    pub reason: u8,
    /// User data, up to the end of the packet.
    pub user: &'a [u8],
}

impl<'a> DisconnectRequest<'a> {
    /// DST-REF: the reference that the receiver gave the connection.
    pub fn destination(&self) -> u16
        ensures { result ≡ self.now.destination }
    {
        self.destination
    }

    /// SRC-REF: the reference that the sender gave the connection, or 0.
    pub fn source(&self) -> u16
        ensures { result ≡ self.now.source }
    {
        self.source
    }

    /// Why the connection ends or is refused: any octet. X.224 section 13.5.3 names some, such as 128 for a normal
    /// disconnect.
    pub fn reason(&self) -> u8
        ensures { result ≡ self.now.reason }
    {
        self.reason
    }

    /// User data, up to the end of the packet.
    pub fn user(&self) -> &'a [u8]
        ensures { result ≡ self.now.user }
    {
        self.user
    }
}
