//! CC, connection confirm (X.224 section 13.4).

ghost use Rattle.std.specs.Prelude.{◌≡◌};

use crate::connect::ConnectFields;

/// CC, the connection confirm (X.224 section 13.4).
#[derive(Clone, Copy, PartialEq, Eq)]
pub struct ConnectConfirm<'a> {
    /// DST-REF: the reference that the receiver gave the connection.
    pub destination: u16,
    /// The other fields; the class is the selected one.
    pub fields: ConnectFields<'a>,
}

impl<'a> ConnectConfirm<'a> {
    /// DST-REF: the reference that the receiver gave the connection.
    pub fn destination(&self) -> u16
        ensures { result ≡ self.now.destination }
    {
        self.destination
    }

    /// The other fields; the class is the selected one.
    pub fn fields(&self) -> &ConnectFields<'a>
        ensures { result.now ≡ self.now.fields }
    {
        &self.fields
    }
}
