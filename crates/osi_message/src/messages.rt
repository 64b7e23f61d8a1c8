//! Session units by what they mean.

use crate::tokens::Tokens;
use osi_spdu::{Requirements, ResyncType, Selector, Serial, TokenSetting, TsduMaximumSize};

/// A session unit, with the fields that have a meaning here (X.225 section 8).
#[derive(Clone, Copy)]
pub enum Message<'a> {
    /// Connect (CN).
    Connect {
        /// Version 2 is among the versions that it names.
        version_2: bool,
        /// The functional units that it names.
        requirements: Requirements,
        /// The number of the first point, if it names one.
        serial: Option<Serial>,
        /// The side wished for as the holder of each token.
        wishes: TokenSetting,
        /// The address of the requesting user.
        calling: Option<Selector<'a>>,
        /// The address of the requested user.
        called: Option<Selector<'a>>,
        /// The largest TSDU in each direction that it names, in octets, 0 for no limit.
        sizes: TsduMaximumSize,
        /// User data.
        user_data: &'a [u8],
    },
    /// Accept (AC).
    Accept {
        /// Version 2 is among the versions that it names.
        version_2: bool,
        /// The functional units that it names.
        requirements: Requirements,
        /// The number of the first point, if it names one.
        serial: Option<Serial>,
        /// The side that holds each token.
        sides: TokenSetting,
        /// The largest TSDU in each direction that it names, in octets, 0 for no limit.
        sizes: TsduMaximumSize,
        /// User data.
        user_data: &'a [u8],
    },
    /// Refuse (RF).
    Refuse {
        /// The reason code.
        reason: u8,
        /// The octets after the reason code.
        user_data: &'a [u8],
    },
    /// Data transfer (DT).
    Data {
        /// User data.
        user_data: &'a [u8],
    },
    /// Give tokens (GT).
    Give {
        /// The tokens that are named.
        tokens: Tokens,
    },
    /// Please tokens (PT).
    Please {
        /// The tokens that are named.
        tokens: Tokens,
        /// User data.
        user_data: &'a [u8],
    },
    /// Minor synchronization point (MIP).
    MinorPoint {
        /// Whether it asks for its confirmation.
        confirm: bool,
        /// The number of the point.
        number: Serial,
        /// User data.
        user_data: &'a [u8],
    },
    /// Minor synchronization acknowledgement (MIA).
    MinorAck {
        /// The number of the point.
        number: Serial,
        /// User data.
        user_data: &'a [u8],
    },
    /// Major synchronization point (MAP).
    MajorPoint {
        /// The number of the point.
        number: Serial,
        /// User data.
        user_data: &'a [u8],
    },
    /// Major synchronization acknowledgement (MAA).
    MajorAck {
        /// The number of the point.
        number: Serial,
        /// User data.
        user_data: &'a [u8],
    },
    /// Resynchronize (RS).
    Restart {
        /// The type of resynchronization.
        kind: ResyncType,
        /// The number of the point.
        number: Serial,
        /// The side wished for as the holder of each token.
        wishes: TokenSetting,
        /// User data.
        user_data: &'a [u8],
    },
    /// Resynchronize acknowledgement (RA).
    RestartAck {
        /// The number of the point.
        number: Serial,
        /// The side that holds each token.
        sides: TokenSetting,
        /// User data.
        user_data: &'a [u8],
    },
    /// Finish (FN).
    Finish {
        /// User data.
        user_data: &'a [u8],
    },
    /// Disconnect (DN).
    Disconnect {
        /// User data.
        user_data: &'a [u8],
    },
    /// Not finished (NF).
    NotFinished {
        /// User data.
        user_data: &'a [u8],
    },
    /// Abort (AB).
    Abort {
        /// The octet of the parameter transport disconnect.
        transport_disconnect: u8,
        /// User data.
        user_data: &'a [u8],
    },
    /// Abort accept (AA).
    AbortAccept,
}
