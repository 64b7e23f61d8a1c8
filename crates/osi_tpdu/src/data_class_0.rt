//! DT of class 0 (X.224 section 13.7).

ghost use Rattle.std.specs.Prelude.{◌≡◌};

/// DT of class 0, a part of a TSDU (X.224 section 13.7). Its number is written as 0 and ignored when read.
#[derive(Clone, Copy, PartialEq, Eq)]
pub struct DataClass0<'a> {
    /// EOT: this part is the last of its TSDU.
    pub end: bool,
    /// User data, up to the end of the packet.
    pub user: &'a [u8],
}

impl<'a> DataClass0<'a> {
    /// EOT: this part is the last of its TSDU.
    pub fn end(&self) -> bool
        ensures { result ≡ self.now.end }
    {
        self.end
    }

    /// User data, up to the end of the packet.
    pub fn user(&self) -> &'a [u8]
        ensures { result ≡ self.now.user }
    {
        self.user
    }
}
