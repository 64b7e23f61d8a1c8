//! ER, error report (X.224 section 13.12).

ghost use Rattle.std.specs.Prelude.{◌≡◌};

/// ER, the report of a protocol error (X.224 section 13.12). Its parameters are skipped.
#[derive(Clone, Copy, PartialEq, Eq)]
pub struct ErrorReport {
    /// DST-REF: the reference that the receiver gave the connection.
    pub destination: u16,
    /// The error: 0 not specified, 1 a parameter's code, 2 a unit's type, 3 a parameter's value.
    pub cause: u8,
}

impl ErrorReport {
    /// DST-REF: the reference that the receiver gave the connection.
    pub fn destination(&self) -> u16
        ensures { result ≡ self.now.destination }
    {
        self.destination
    }

    /// The error: any octet. X.224 section 13.12 names 0 to 3.
    pub fn cause(&self) -> u8
        ensures { result ≡ self.now.cause }
    {
        self.cause
    }
}
