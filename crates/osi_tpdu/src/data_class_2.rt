//! DT of class 2 (X.224 section 13.7).

ghost use Rattle.std.specs.Prelude.{◌≡◌, ◌<◌};

/// DT of class 2 in normal format, a numbered part of a TSDU (X.224 section 13.7).
#[derive(Clone, Copy, PartialEq, Eq)]
pub struct DataClass2<'a> {
    /// DST-REF: the reference that the receiver gave the connection.
    pub destination: u16,
    /// TPDU-NR: the number of this unit, 0 to 127.
    pub number: u8,
    /// EOT: this part is the last of its TSDU.
    pub end: bool,
    /// User data, up to the end of the packet.
    pub user: &'a [u8],
    pub ghost number_fits: { number < 128 },
}

impl<'a> DataClass2<'a> {
    /// DST-REF: the reference that the receiver gave the connection.
    pub fn destination(&self) -> u16
        ensures { result ≡ self.now.destination }
    {
        self.destination
    }

    /// TPDU-NR: the number of this unit, 0 to 127.
    pub fn number(&self) -> u8
        ensures { result ≡ self.now.number }
    {
        self.number
    }

    /// EOT: this part is the last of its TSDU.
    pub fn end(&self) -> bool
        ensures { result ≡ self.now.end }
    {
        self.end
    }

    /// User data, up to the end of the packet.
    pub fn user(&self) -> &'a [u8]
        ensures { result ≡ self.now.user }
    {
        self.user
    }
}
