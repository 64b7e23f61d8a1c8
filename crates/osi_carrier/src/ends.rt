//! Why a carrier ended.

use osi_class::LinkFault;
use osi_tpdu::TpduFault;
use osi_tpkt::TpktFault;
use thiserror::Error;

/// Why a carrier ended, with all its connections.
#[derive(Clone, Copy, PartialEq, Eq, Debug)]
pub enum EndReason {
    /// The byte connection broke.
    Broken,
    /// Its connection of class 0 was closed here.
    Closed,
    /// Its connection of class 0 was closed by the peer, with this reason.
    PeerClosed(u8),
    /// The peer broke a rule of the byte connection.
    Fault(CarrierFault),
    /// Memory ran out for a received packet or for one of its units.
    NoMemory,
}

/// Which rule the peer broke.
#[derive(Clone, Copy, PartialEq, Eq, Debug, Error)]
pub enum CarrierFault {
    /// The octets are not a packet (RFC 1006 section 6).
    #[error("bad packet: {0}")]
    Tpkt(TpktFault),
    /// A packet holds no transport units (X.224 section 13).
    #[error("bad unit: {0}")]
    Tpdu(TpduFault),
    /// A fault of the one connection of class 0.
    #[error("link fault: {0}")]
    Link(LinkFault),
    /// A unit for a reference that no live connection has.
    #[error("unknown reference")]
    UnknownReference,
    /// A CC that selects what this end did not propose.
    #[error("answer not proposed")]
    BadAnswer,
    /// A unit that this end does not take now, whatever its reference.
    #[error("unexpected unit")]
    UnexpectedUnit,
}
