//! Indications: what the user of a session receives.

use crate::faults::UnitFault;
use crate::sides::Sides;
use osi_message::Octets;
use osi_spdu::{Requirements, TokenSet, TokenSetting, TsduMaximumSize};

/// An indication for the user of a session (X.215 section 10, indications and confirms). User data may be empty.
#[derive(Drop)]
pub enum Indication {
    /// The peer asks for a connection (CN).
    Connect {
        /// The functional units that the CN names.
        requirements: Requirements,
        /// The number that it proposes for the first point, 0 to 999,999; absent if it names none.
        serial: Option<u32>,
        /// The side that it wishes as the holder of each token.
        wishes: TokenSetting,
        /// The largest TSDU in each direction that it names, in octets: 0 for no limit, or 64 to 65,535.
        sizes: TsduMaximumSize,
        /// User data.
        user_data: Octets,
    },
    /// The peer accepts the connection (AC).
    Connected {
        /// The functional units that the AC names; those that the CN names too are selected.
        requirements: Requirements,
        /// The number of the first point, 0 to 999,999; absent if it names none.
        serial: Option<u32>,
        /// The side that holds each token; a token that is not available is the asker's.
        sides: Sides,
        /// The largest TSDU in each direction that it names, in octets: 0 for no limit, or 64 to 65,535. The smaller
        /// one of the CN's and this that is not 0 bounds what is sent.
        sizes: TsduMaximumSize,
        /// User data.
        user_data: Octets,
    },
    /// There is no transport connection, for this reason (X.224 section 13.5.3).
    RefusedByTransport {
        /// The reason of the DR.
        reason: u8,
    },
    /// The peer refuses the connection (RF).
    RefusedBySession {
        /// The reason code; 0, 1 and 2 are those of the called user.
        reason: u8,
        /// The octets after the reason code.
        user_data: Octets,
    },
    /// Data (DT).
    Data {
        /// The octets.
        user_data: Octets,
    },
    /// The peer gives tokens (GT).
    Given {
        /// At least one token.
        tokens: TokenSet,
    },
    /// The peer asks for tokens (PT).
    Asked {
        /// At least one token.
        tokens: TokenSet,
        /// User data.
        user_data: Octets,
    },
    /// A minor synchronization point (MIP).
    Minor {
        /// Its number, 0 to 999,999.
        number: u32,
        /// Whether the peer asks for its confirmation.
        confirm: bool,
        /// User data.
        user_data: Octets,
    },
    /// The peer confirms the minor points up to this one (MIA).
    MinorConfirmed {
        /// The number of the point, 0 to 999,999.
        number: u32,
        /// User data.
        user_data: Octets,
    },
    /// A major synchronization point (MAP).
    Major {
        /// Its number, 0 to 999,999.
        number: u32,
        /// User data.
        user_data: Octets,
    },
    /// The peer confirms the major point (MAA).
    MajorConfirmed {
        /// User data.
        user_data: Octets,
    },
    /// The peer restarts at a point (RS).
    Restart {
        /// The number of the next point, 0 to 999,999.
        number: u32,
        /// The side that it wishes as the holder of each token.
        wishes: TokenSetting,
        /// User data.
        user_data: Octets,
    },
    /// The peer answers the restart (RA).
    Restarted {
        /// The number of the next point, 0 to 999,999.
        number: u32,
        /// The side that holds each token; a token that is not available is the asker's.
        sides: Sides,
        /// User data.
        user_data: Octets,
    },
    /// The peer asks for the release (FN).
    Release {
        /// User data.
        user_data: Octets,
    },
    /// The peer releases the connection (DN).
    Released {
        /// User data.
        user_data: Octets,
    },
    /// The peer refuses the release (NF).
    ReleaseRefused {
        /// User data.
        user_data: Octets,
    },
    /// The peer's user aborts (AB with bit 02).
    Aborted {
        /// User data.
        user_data: Octets,
    },
    /// The connection is aborted by the provider.
    ProviderAbort {
        /// The cause.
        cause: AbortCause,
    },
}

/// Why the provider aborts.
#[derive(Clone, Copy, PartialEq, Eq, Debug)]
pub enum AbortCause {
    /// The transport connection was closed or broken, or had a fault.
    Lost,
    /// The peer's provider aborts (AB without bit 02): the octet of its parameter 17.
    Peer(u8),
    /// A received unit is bad.
    Unit(UnitFault),
}
