//! CR, connection request (X.224 section 13.3).

ghost use Rattle.std.specs.Prelude.{◌≡◌};

use crate::connect::ConnectFields;

/// CR, the connection request (X.224 section 13.3). Its DST-REF is written as 0 and ignored when read.
#[derive(Clone, Copy, PartialEq, Eq)]
pub struct ConnectRequest<'a> {
    /// The fields; the class is the preferred one.
    pub fields: ConnectFields<'a>,
}

impl<'a> ConnectRequest<'a> {
    /// The fields; the class is the preferred one.
    pub fn fields(&self) -> &ConnectFields<'a>
        ensures { result.now ≡ self.now.fields }
    {
        &self.fields
    }
}
