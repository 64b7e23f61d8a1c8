//! The addresses of a connection.

use crate::selectors::SessionSelector;
use osi_tpdu::Tsap;

/// The addresses of a connection: the transport selectors of its CR (X.224 section 13.3.4), and the session selectors
/// of its CN (X.225 section 8, connect). Each of them may be absent.
#[derive(Clone, Copy)]
pub struct Addresses {
    /// The transport address of the calling end, 0 to 32 octets.
    pub calling_tsap: Option<Tsap>,
    /// The transport address of the called end, 0 to 32 octets.
    pub called_tsap: Option<Tsap>,
    /// The session address of the calling user, 0 to 16 octets.
    pub calling_selector: Option<SessionSelector>,
    /// The session address of the called user, 0 to 16 octets.
    pub called_selector: Option<SessionSelector>,
}
