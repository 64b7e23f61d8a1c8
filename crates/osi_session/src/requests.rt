//! The calls of the user of a session.

ghost use Rattle.std.specs.Prelude.{◌≡◌};
ghost use Rattle.osi_session.specs.Calls.{refusal_by, refusal_octets, refusal_reason, refusal_with};

use crate::sides::Sides;
use osi_spdu::{Requirements, Serial, TokenSet, TokenSetting, TsduSizes};

/// Why a user refuses a connection: the reasons of a called user in an RF (X.225 section 8.3.5). Only the last one has
/// user data.
#[derive(Clone, Copy)]
pub enum Refusal<'a> {
    /// Reason 0: rejected by the called user, without a reason.
    Unspecified,
    /// Reason 1: rejected by the called user because of temporary congestion.
    Congestion,
    /// Reason 2: rejected by the called user, with this user data, which may be empty.
    WithData(&'a [u8]),
}

impl<'a> Refusal<'a> {
    /// The refusal with this user data, or without a reason if there is none.
    pub fn with(user_data: &'a [u8]) -> Refusal<'a>
        ensures { refusal_by result ≡ refusal_with user_data.entry.now }
    {
        if user_data.is_empty() {
            return Refusal::Unspecified;
        }
        Refusal::WithData(user_data)
    }

    /// The reason in the RF: 0, 1 or 2.
    pub fn reason(self) -> u8
        ensures { result ≡ refusal_reason (refusal_by self.entry) }
    {
        match self {
            Refusal::Unspecified => 0,
            Refusal::Congestion => 1,
            Refusal::WithData(_) => 2,
        }
    }

    /// The user data; empty except for [`Refusal::WithData`].
    pub fn user_data(self) -> &'a [u8]
        ensures { result.now ≡ refusal_octets (refusal_by self.entry) }
    {
        match self {
            Refusal::WithData(user_data) => user_data,
            _ => &[],
        }
    }
}

/// A call of the user of a session (X.215 section 10, requests and responses). User data is at most
/// 10,240 octets, and may be empty.
#[derive(Clone, Copy)]
pub enum Request<'a> {
    /// Accepts the connection (AC).
    Accept {
        /// The functional units to select: some of those that the CN names, half-duplex among them; or only duplex.
        requirements: Requirements,
        /// The number of the first point, which is sent if points or restarts are selected.
        serial: Serial,
        /// The side that holds each token that the CN leaves to your choice.
        sides: Sides,
        /// The largest TSDU in each direction. If the CN names 0, so does the AC; otherwise it names the smaller of the
        /// CN's and this, unless this is 0.
        sizes: TsduSizes,
        /// User data.
        user_data: &'a [u8],
    },
    /// Refuses the connection (RF).
    Refuse {
        /// The reason, and user data with one of the reasons.
        refusal: Refusal<'a>,
    },
    /// Sends data (DT).
    Data {
        /// 1 to 1,048,572 octets.
        user_data: &'a [u8],
    },
    /// Gives tokens (GT).
    Give {
        /// At least one token, all of which are held.
        tokens: TokenSet,
    },
    /// Asks for tokens (PT).
    Please {
        /// At least one token, none of which is held.
        tokens: TokenSet,
        /// User data.
        user_data: &'a [u8],
    },
    /// Sets a minor synchronization point (MIP).
    Minor {
        /// Whether it asks for its confirmation.
        confirm: bool,
        /// User data.
        user_data: &'a [u8],
    },
    /// Confirms the minor points up to this one (MIA).
    MinorConfirm {
        /// The number of the point.
        number: u32,
        /// User data.
        user_data: &'a [u8],
    },
    /// Sets a major synchronization point (MAP).
    Major {
        /// User data.
        user_data: &'a [u8],
    },
    /// Confirms the major point (MAA).
    MajorConfirm {
        /// User data.
        user_data: &'a [u8],
    },
    /// Restarts at a point (RS).
    Restart {
        /// The number that the next point will have.
        number: u32,
        /// The side wished for as the holder of each token.
        wishes: TokenSetting,
        /// User data.
        user_data: &'a [u8],
    },
    /// Answers a restart (RA).
    RestartConfirm {
        /// The side that holds each token that the RS leaves to your choice.
        sides: Sides,
        /// User data.
        user_data: &'a [u8],
    },
    /// Asks for the release (FN).
    Release {
        /// User data.
        user_data: &'a [u8],
    },
    /// Accepts the release (DN).
    ReleaseAccept {
        /// User data.
        user_data: &'a [u8],
    },
    /// Refuses the release (NF).
    ReleaseRefuse {
        /// User data.
        user_data: &'a [u8],
    },
    /// Aborts the connection (AB).
    Abort {
        /// User data.
        user_data: &'a [u8],
    },
}
