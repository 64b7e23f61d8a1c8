//! Constructors of the units that a session sends (X.225 section 8).

ghost use Rattle.std.specs.Prelude.{◌≡◌, ◌≤◌, ◌<◌, length, true, None};
ghost use Rattle.osi_spdu.specs.Kinds.{category_of};
ghost use Rattle.osi_spdu.specs.declared.kinds.Category.TheVariants.{Two};
ghost use Rattle.osi_spdu.specs.Made.{made, connect_params, accept_params, refuse_params, data_params, abort_params, give_tokens_params};
ghost use Rattle.osi_spdu.specs.Made.{please_tokens_params, minor_point_params, ack_params, major_point_params, resynchronize_params};
ghost use Rattle.osi_spdu.specs.Made.{resynchronize_ack_params};
ghost use Rattle.osi_spdu.specs.Params.{known_of, no_params};
ghost use Rattle.osi_spdu.specs.Writing.{is_joined, UnitFits};

use crate::fields::{Reason, ResyncType, SyncType, TsduMaximumSize};
use crate::kinds::Kind;
use crate::params::Params;
use crate::requirements::Requirements;
use crate::selectors::Selector;
use crate::serials::Serial;
use crate::settings::TokenSetting;
use crate::tokens::TokenSet;
use crate::units::Spdu;

/// What a CN proposes or an AC answers, apart from addresses and user data. Protocol options and version are fixed:
/// extended concatenation is supported, and the version is 2.
#[derive(Clone, Copy, PartialEq, Eq)]
pub struct Terms {
    /// The first synchronization point serial number.
    pub initial_number: Option<Serial>,
    /// The side that is to hold each token.
    pub token_setting: TokenSetting,
    /// The functional units.
    pub user_requirements: Requirements,
    /// The largest TSDU in each direction. It is written only if one of the numbers is not 0.
    pub tsdu_maximum_size: TsduMaximumSize,
}

#[tactic(auto, unfolding(crate::specs::Writing::is_formed, crate::specs::Writing::is_joined, crate::specs::Params::known_of, crate::specs::Params::slots_of, crate::specs::Params::cells_of, crate::specs::Params::place_of, crate::specs::Codes::number_of, crate::specs::Kinds::codes_of, crate::specs::Kinds::members_of, crate::specs::Kinds::required_of, crate::specs::Kinds::category_of, crate::specs::Kinds::may_stand))]
impl<'a> Spdu<'a> {
    ghost use Rattle.osi_spdu.specs.Units.{said_by};

    /// CN: asks for a connection.
    pub fn connect(
        terms: Terms,
        calling_selector: Option<Selector<'a>>,
        called_selector: Option<Selector<'a>>,
        user_data: &'a [u8],
    ) -> Spdu<'a>
        ensures units { said_by result
            ≡ made Kind.Connect (connect_params terms calling_selector.entry called_selector.entry user_data.entry) }
        ensures place { is_joined (said_by result).kind None ≡ true }
        ensures fits { length user_data.entry.now ≤ 65000 → UnitFits (said_by result) }
    {
        let params = Params {
            connect_accept_item: true,
            protocol_options: Some(1),
            version: Some(2),
            initial_number: terms.initial_number,
            token_setting: Some(terms.token_setting),
            user_requirements: Some(terms.user_requirements),
            tsdu_maximum_size: terms.tsdu_maximum_size.written(),
            calling_selector,
            called_selector,
            user_data: Some(user_data),
            ..Params::NONE
        };
        Spdu::new(Kind::Connect, params)
    }

    /// AC: accepts a connection.
    pub fn accept(terms: Terms, user_data: &'a [u8]) -> Spdu<'a>
        ensures units { said_by result ≡ made Kind.Accept (accept_params terms user_data.entry) }
        ensures place { is_joined (said_by result).kind None ≡ true }
        ensures fits { length user_data.entry.now ≤ 65000 → UnitFits (said_by result) }
    {
        let params = Params {
            connect_accept_item: true,
            protocol_options: Some(1),
            version: Some(2),
            initial_number: terms.initial_number,
            token_setting: Some(terms.token_setting),
            user_requirements: Some(terms.user_requirements),
            tsdu_maximum_size: terms.tsdu_maximum_size.written(),
            user_data: Some(user_data),
            ..Params::NONE
        };
        Spdu::new(Kind::Accept, params)
    }

    /// RF: refuses a connection, and releases the transport connection (parameter 17 is 01).
    pub fn refuse(reason: Reason<'a>) -> Spdu<'a>
        ensures units { said_by result ≡ made Kind.Refuse (refuse_params reason.entry) }
        ensures place { is_joined (said_by result).kind None ≡ true }
        ensures fits { length reason.entry.data_octets.now < 65000 → UnitFits (said_by result) }
    {
        let params = Params {
            transport_disconnect: Some(1),
            reason: Some(reason),
            ..Params::NONE
        };
        Spdu::new(Kind::Refuse, params)
    }

    /// FN: asks for the release of a connection.
    pub fn finish(user_data: &'a [u8]) -> Spdu<'a>
        ensures units { said_by result ≡ made Kind.Finish (data_params user_data.entry) }
        ensures place { is_joined (said_by result).kind None ≡ true }
        ensures fits { length user_data.entry.now ≤ 65000 → UnitFits (said_by result) }
    {
        let params = Params {
            user_data: Some(user_data),
            ..Params::NONE
        };
        Spdu::new(Kind::Finish, params)
    }

    /// DN: releases a connection.
    pub fn disconnect(user_data: &'a [u8]) -> Spdu<'a>
        ensures units { said_by result ≡ made Kind.Disconnect (data_params user_data.entry) }
        ensures place { is_joined (said_by result).kind None ≡ true }
        ensures fits { length user_data.entry.now ≤ 65000 → UnitFits (said_by result) }
    {
        let params = Params {
            user_data: Some(user_data),
            ..Params::NONE
        };
        Spdu::new(Kind::Disconnect, params)
    }

    /// NF: refuses to release a connection.
    pub fn not_finished(user_data: &'a [u8]) -> Spdu<'a>
        ensures units { said_by result ≡ made Kind.NotFinished (data_params user_data.entry) }
        ensures place { is_joined (said_by result).kind None ≡ true }
        ensures fits { length user_data.entry.now ≤ 65000 → UnitFits (said_by result) }
    {
        let params = Params {
            user_data: Some(user_data),
            ..Params::NONE
        };
        Spdu::new(Kind::NotFinished, params)
    }

    /// AB: aborts a connection. The octet is a sum of 01 if the transport connection is released, 02 for a user's
    /// abort, and 04 for a protocol error.
    pub fn abort(transport_disconnect: u8, user_data: &'a [u8]) -> Spdu<'a>
        ensures units { said_by result
            ≡ made Kind.Abort (abort_params transport_disconnect user_data.entry) }
        ensures place { is_joined (said_by result).kind None ≡ true }
        ensures fits { length user_data.entry.now ≤ 65000 → UnitFits (said_by result) }
    {
        let params = Params {
            transport_disconnect: Some(transport_disconnect),
            user_data: Some(user_data),
            ..Params::NONE
        };
        Spdu::new(Kind::Abort, params)
    }

    /// AA: answers an abort.
    pub fn abort_accept() -> Spdu<'a>
        ensures units { said_by result ≡ made Kind.AbortAccept no_params }
        ensures place { is_joined (said_by result).kind None ≡ true }
        ensures fits { UnitFits (said_by result) }
    {
        let params = Params::NONE;
        Spdu::new(Kind::AbortAccept, params)
    }

    /// GT: gives tokens. Without tokens it only introduces a unit of category 2.
    pub fn give_tokens(token_item: Option<TokenSet>) -> Spdu<'a>
        ensures units { said_by result ≡ made Kind.GiveTokens (give_tokens_params token_item) }
        ensures place { is_joined (said_by result).kind None ≡ true }
        ensures fits { UnitFits (said_by result) }
    {
        let params = Params {
            token_item,
            ..Params::NONE
        };
        Spdu::new(Kind::GiveTokens, params)
    }

    /// PT: asks for tokens.
    pub fn please_tokens(token_item: Option<TokenSet>, user_data: &'a [u8]) -> Spdu<'a>
        ensures units { said_by result
            ≡ made Kind.PleaseTokens (please_tokens_params token_item user_data.entry) }
        ensures place { is_joined (said_by result).kind None ≡ true }
        ensures fits { length user_data.entry.now ≤ 65000 → UnitFits (said_by result) }
    {
        let params = Params {
            token_item,
            user_data: Some(user_data),
            ..Params::NONE
        };
        Spdu::new(Kind::PleaseTokens, params)
    }

    /// MIP: a minor synchronization point.
    pub fn minor_point(sync_type: Option<SyncType>, number: Serial, user_data: &'a [u8]) -> Spdu<'a>
        ensures units { said_by result
            ≡ made Kind.MinorSyncPoint (minor_point_params sync_type number user_data.entry) }
        ensures place { category_of (said_by result).kind ≡ Two }
        ensures fits { length user_data.entry.now ≤ 65000 → UnitFits (said_by result) }
    {
        let params = Params {
            sync_type,
            number: Some(number),
            user_data: Some(user_data),
            ..Params::NONE
        };
        Spdu::new(Kind::MinorSyncPoint, params)
    }

    /// MIA: confirms the minor synchronization points up to this one.
    pub fn minor_ack(number: Serial, user_data: &'a [u8]) -> Spdu<'a>
        ensures units { said_by result ≡ made Kind.MinorSyncAck (ack_params number user_data.entry) }
        ensures place { category_of (said_by result).kind ≡ Two }
        ensures fits { length user_data.entry.now ≤ 65000 → UnitFits (said_by result) }
    {
        let params = Params {
            number: Some(number),
            user_data: Some(user_data),
            ..Params::NONE
        };
        Spdu::new(Kind::MinorSyncAck, params)
    }

    /// MAP: a major synchronization point (parameter 15 is 01).
    pub fn major_point(number: Serial, user_data: &'a [u8]) -> Spdu<'a>
        ensures units { said_by result
            ≡ made Kind.MajorSyncPoint (major_point_params number user_data.entry) }
        ensures place { category_of (said_by result).kind ≡ Two }
        ensures fits { length user_data.entry.now ≤ 65000 → UnitFits (said_by result) }
    {
        let params = Params {
            sync_type: Some(SyncType::Open),
            number: Some(number),
            user_data: Some(user_data),
            ..Params::NONE
        };
        Spdu::new(Kind::MajorSyncPoint, params)
    }

    /// MAA: confirms a major synchronization point.
    pub fn major_ack(number: Serial, user_data: &'a [u8]) -> Spdu<'a>
        ensures units { said_by result ≡ made Kind.MajorSyncAck (ack_params number user_data.entry) }
        ensures place { category_of (said_by result).kind ≡ Two }
        ensures fits { length user_data.entry.now ≤ 65000 → UnitFits (said_by result) }
    {
        let params = Params {
            number: Some(number),
            user_data: Some(user_data),
            ..Params::NONE
        };
        Spdu::new(Kind::MajorSyncAck, params)
    }

    /// RS: asks for a resynchronization.
    pub fn resynchronize(
        token_setting: TokenSetting,
        resync_type: ResyncType,
        number: Serial,
        user_data: &'a [u8],
    ) -> Spdu<'a>
        ensures units { said_by result
            ≡ made Kind.Resynchronize (resynchronize_params token_setting resync_type number user_data.entry) }
        ensures place { category_of (said_by result).kind ≡ Two }
        ensures fits { length user_data.entry.now ≤ 65000 → UnitFits (said_by result) }
    {
        let params = Params {
            token_setting: Some(token_setting),
            resync_type: Some(resync_type),
            number: Some(number),
            user_data: Some(user_data),
            ..Params::NONE
        };
        Spdu::new(Kind::Resynchronize, params)
    }

    /// RA: answers a resynchronization.
    pub fn resynchronize_ack(
        token_setting: TokenSetting,
        number: Serial,
        user_data: &'a [u8],
    ) -> Spdu<'a>
        ensures units { said_by result
            ≡ made Kind.ResynchronizeAck (resynchronize_ack_params token_setting number user_data.entry) }
        ensures place { category_of (said_by result).kind ≡ Two }
        ensures fits { length user_data.entry.now ≤ 65000 → UnitFits (said_by result) }
    {
        let params = Params {
            token_setting: Some(token_setting),
            number: Some(number),
            user_data: Some(user_data),
            ..Params::NONE
        };
        Spdu::new(Kind::ResynchronizeAck, params)
    }

    /// DT: user information.
    pub fn data_transfer(information: &'a [u8]) -> Spdu<'a>
        ensures units { said_by result
            ≡ record { kind = Kind.DataTransfer; known = known_of no_params; information = information.now } }
        ensures place { category_of (said_by result).kind ≡ Two }
        ensures fits { UnitFits (said_by result) }
    {
        Spdu::with(Kind::DataTransfer, Params::NONE, information)
    }
}
