//! What happens to a session apart from its calls.

/// What happens to a session, apart from the calls of its user.
#[derive(Drop)]
pub enum SessionEvent<'a> {
    /// The transport connection that it requested is open.
    Opened,
    /// There is no transport connection, for this reason.
    Refused(u8),
    /// A TSDU was received, with the buffer that its octets are in.
    Tsdu(Vec<u8>),
    /// A TSDU was received, and is lent from the piece of the stream in which it lies.
    Lent(&'a [u8]),
    /// The transport connection was closed, or had a fault.
    Lost,
}
