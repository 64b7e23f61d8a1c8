//! The kinds of units, and the codes that each one knows.

ghost use Rattle.std.specs.Prelude.{◌≡◌};
ghost use Rattle.osi_spdu.specs.Kinds.{si_of, category_of, codes_of, members_of, references_of, may_stand, kind_named};
ghost use Rattle.osi_spdu.specs.Values.{may_have_parts, is_three, may_enclose};
ghost use Rattle.osi_spdu.specs.Reading.{takes_rest, code_among};
ghost use Rattle.osi_spdu.specs.Writing.{among};

use crate::codes::{Code, code_numbered};

/// A session unit, by the name that X.225 section 8 gives it.
#[derive(Clone, Copy, PartialEq, Eq)]
pub enum Kind {
    /// GT (SI 1 in the first place).
    GiveTokens,
    /// PT (SI 2).
    PleaseTokens,
    /// DT (SI 1 in the second place).
    DataTransfer,
    /// NF (SI 8).
    NotFinished,
    /// FN (SI 9).
    Finish,
    /// DN (SI 10).
    Disconnect,
    /// RF (SI 12).
    Refuse,
    /// CN (SI 13).
    Connect,
    /// AC (SI 14).
    Accept,
    /// AB (SI 25).
    Abort,
    /// AA (SI 26).
    AbortAccept,
    /// RA (SI 34).
    ResynchronizeAck,
    /// MAP (SI 41).
    MajorSyncPoint,
    /// MAA (SI 42).
    MajorSyncAck,
    /// MIP (SI 49).
    MinorSyncPoint,
    /// MIA (SI 50).
    MinorSyncAck,
    /// RS (SI 53).
    Resynchronize,
}

/// Where a unit may occur in a TSDU (X.225 section 6.3.7, basic concatenation).
#[derive(Clone, Copy, PartialEq, Eq)]
pub enum Category {
    /// Before a unit of category 2, or alone.
    Zero,
    /// Alone.
    One,
    /// After a unit of category 0.
    Two,
}

/// The codes that an RF knows.
const OF_REFUSE: [Code; 6] = [
    Code::ConnectionIdentifier,
    Code::TransportDisconnect,
    Code::UserRequirements,
    Code::Version,
    Code::Enclosure,
    Code::Reason,
];

/// The codes that a CN knows.
const OF_CONNECT: [Code; 7] = [
    Code::ConnectionIdentifier,
    Code::ConnectAcceptItem,
    Code::UserRequirements,
    Code::CallingSelector,
    Code::CalledSelector,
    Code::UserData,
    Code::ExtendedUserData,
];

/// The codes that an AC knows.
const OF_ACCEPT: [Code; 8] = [
    Code::ConnectionIdentifier,
    Code::ConnectAcceptItem,
    Code::TokenItem,
    Code::UserRequirements,
    Code::Enclosure,
    Code::CallingSelector,
    Code::CalledSelector,
    Code::UserData,
];

/// The codes that an AB knows.
const OF_ABORT: [Code; 4] = [
    Code::TransportDisconnect,
    Code::Enclosure,
    Code::Reflect,
    Code::UserData,
];

/// The codes that an RA knows.
const OF_RESYNCHRONIZE_ACK: [Code; 4] = [
    Code::Enclosure,
    Code::TokenSetting,
    Code::Number,
    Code::UserData,
];

/// The codes that a MAP or a MIP knows.
const OF_SYNC_POINT: [Code; 4] = [
    Code::SyncType,
    Code::Enclosure,
    Code::Number,
    Code::UserData,
];

/// The codes that an RS knows.
const OF_RESYNCHRONIZE: [Code; 5] = [
    Code::Enclosure,
    Code::TokenSetting,
    Code::ResyncType,
    Code::Number,
    Code::UserData,
];

#[tactic(auto, unfolding(crate::specs::Codes::number_of, crate::specs::Kinds::si_of, crate::specs::Kinds::category_of, crate::specs::Kinds::codes_of, crate::specs::Kinds::members_of))]
impl Kind {
    /// The SPDU identifier, the first octet of the unit.
    pub fn si(self) -> u8
        ensures { result ≡ si_of self }
    {
        match self {
            Kind::GiveTokens => 1,
            Kind::PleaseTokens => 2,
            Kind::DataTransfer => 1,
            Kind::NotFinished => 8,
            Kind::Finish => 9,
            Kind::Disconnect => 10,
            Kind::Refuse => 12,
            Kind::Connect => 13,
            Kind::Accept => 14,
            Kind::Abort => 25,
            Kind::AbortAccept => 26,
            Kind::ResynchronizeAck => 34,
            Kind::MajorSyncPoint => 41,
            Kind::MajorSyncAck => 42,
            Kind::MinorSyncPoint => 49,
            Kind::MinorSyncAck => 50,
            Kind::Resynchronize => 53,
        }
    }

    /// Where the unit may occur.
    pub fn category(self) -> Category
        ensures { result ≡ category_of self }
    {
        match self {
            Kind::GiveTokens | Kind::PleaseTokens => Category::Zero,
            Kind::DataTransfer
            | Kind::ResynchronizeAck
            | Kind::MajorSyncPoint
            | Kind::MajorSyncAck
            | Kind::MinorSyncPoint
            | Kind::MinorSyncAck
            | Kind::Resynchronize => Category::Two,
            _ => Category::One,
        }
    }

    /// Whether the octets after the unit are its user information.
    pub(crate) fn takes_rest(self) -> bool
        ensures { result ≡ takes_rest self }
    {
        matches!(self, Kind::DataTransfer)
    }

    /// Whether a unit of this kind may have the value under this code. Only a DT may have a part of user data; in other
    /// units the enclosure has to say that the data is whole.
    #[tactic(auto, unfolding(crate::specs::Values::may_enclose))]
    pub(crate) fn may_enclose(self, code: Code, value: &[u8]) -> bool
        ensures { result ≡ may_enclose self code value.now }
    {
        !code.is_enclosure() || self.may_have_parts() || is_three(value)
    }

    /// Whether the unit may have a part of user data.
    fn may_have_parts(self) -> bool
        ensures { result ≡ may_have_parts self }
    {
        matches!(self, Kind::DataTransfer)
    }

    /// Whether user data has a second code.
    pub(crate) fn knows_extended(self) -> bool
        ensures { result ≡ among (codes_of self) Code.ExtendedUserData }
    {
        matches!(self, Kind::Connect)
    }

    /// The codes of the parameters and groups that the unit knows, in rising order.
    pub fn codes(self) -> &'static [Code]
        ensures { result.now ≡ codes_of self }
    {
        match self {
            Kind::GiveTokens => &[Code::TokenItem],
            Kind::PleaseTokens => &[Code::TokenItem, Code::UserData],
            Kind::DataTransfer => &[Code::Enclosure],
            Kind::NotFinished | Kind::Disconnect => &[Code::Enclosure, Code::UserData],
            Kind::Finish => &[Code::TransportDisconnect, Code::Enclosure, Code::UserData],
            Kind::Refuse => &OF_REFUSE,
            Kind::Connect => &OF_CONNECT,
            Kind::Accept => &OF_ACCEPT,
            Kind::Abort => &OF_ABORT,
            Kind::AbortAccept => &[],
            Kind::ResynchronizeAck => &OF_RESYNCHRONIZE_ACK,
            Kind::MajorSyncPoint | Kind::MinorSyncPoint => &OF_SYNC_POINT,
            Kind::MajorSyncAck | Kind::MinorSyncAck => {
                &[Code::Enclosure, Code::Number, Code::UserData]
            }
            Kind::Resynchronize => &OF_RESYNCHRONIZE,
        }
    }

    /// The codes of the parameters that a group of the unit knows, in rising order.
    pub fn members(self, group: Code) -> &'static [Code]
        ensures { result.now ≡ members_of self group }
    {
        match group {
            Code::ConnectionIdentifier => self.references(),
            Code::ConnectAcceptItem => &[
                Code::ProtocolOptions,
                Code::TsduMaximumSize,
                Code::Version,
                Code::InitialNumber,
                Code::TokenSetting,
            ],
            _ => &[],
        }
    }

    fn references(self) -> &'static [Code]
        ensures { result.now ≡ references_of self }
    {
        match self {
            Kind::Connect => &[
                Code::CallingReference,
                Code::CommonReference,
                Code::AdditionalReference,
            ],
            _ => &[
                Code::CalledReference,
                Code::CommonReference,
                Code::AdditionalReference,
            ],
        }
    }

    /// Whether the unit knows the parameter or group, outside its groups.
    pub(crate) fn knows(self, code: Code) -> bool
        ensures { result ≡ among (codes_of self) code }
    {
        match code {
            Code::ConnectionIdentifier | Code::UserRequirements => {
                matches!(self, Kind::Refuse | Kind::Connect | Kind::Accept)
            }
            Code::ConnectAcceptItem | Code::CallingSelector | Code::CalledSelector => {
                matches!(self, Kind::Connect | Kind::Accept)
            }
            Code::SyncType => matches!(self, Kind::MajorSyncPoint | Kind::MinorSyncPoint),
            Code::TokenItem => {
                matches!(self, Kind::GiveTokens | Kind::PleaseTokens | Kind::Accept)
            }
            Code::TransportDisconnect => {
                matches!(self, Kind::Finish | Kind::Refuse | Kind::Abort)
            }
            Code::Version | Code::Reason => matches!(self, Kind::Refuse),
            Code::Enclosure => !matches!(
                self,
                Kind::GiveTokens | Kind::PleaseTokens | Kind::Connect | Kind::AbortAccept
            ),
            Code::TokenSetting => matches!(self, Kind::ResynchronizeAck | Kind::Resynchronize),
            Code::ResyncType => matches!(self, Kind::Resynchronize),
            Code::Number => self.is_numbered(),
            Code::Reflect => matches!(self, Kind::Abort),
            Code::UserData => !matches!(
                self,
                Kind::GiveTokens | Kind::DataTransfer | Kind::Refuse | Kind::AbortAccept
            ),
            Code::ExtendedUserData => self.knows_extended(),
            _ => false,
        }
    }

    /// Whether the unit has the number of a synchronization point.
    pub(crate) fn is_numbered(self) -> bool
        ensures { result ≡ among (codes_of self) Code.Number }
    {
        matches!(
            self,
            Kind::ResynchronizeAck
                | Kind::MajorSyncPoint
                | Kind::MajorSyncAck
                | Kind::MinorSyncPoint
                | Kind::MinorSyncAck
                | Kind::Resynchronize
        )
    }

    /// Whether a group of the unit knows the parameter.
    fn knows_in(self, group: Code, code: Code) -> bool
        ensures { result ≡ among (members_of self group) code }
    {
        match group {
            Code::ConnectionIdentifier => self.refers_by(code),
            Code::ConnectAcceptItem => matches!(
                code,
                Code::ProtocolOptions
                    | Code::TsduMaximumSize
                    | Code::Version
                    | Code::InitialNumber
                    | Code::TokenSetting
            ),
            _ => false,
        }
    }

    fn refers_by(self, code: Code) -> bool
        ensures { result ≡ among (references_of self) code }
    {
        match code {
            Code::CommonReference | Code::AdditionalReference => true,
            Code::CallingReference => matches!(self, Kind::Connect),
            Code::CalledReference => !matches!(self, Kind::Connect),
            _ => false,
        }
    }

    /// The parameter or group of this number, if the unit knows it outside its groups.
    #[inline(always)]
    #[tactic(auto, using(crate::proofs::parameters::a_code_is_looked_up::looked_up))]
    pub(crate) fn known(self, number: u8) -> Option<Code>
        ensures { result ≡ code_among (codes_of self) number }
    {
        let code = code_numbered(number)?;
        if self.knows(code) { Some(code) } else { None }
    }

    /// The parameter of this number, if a group of the unit knows it.
    #[inline(always)]
    #[tactic(auto, using(crate::proofs::parameters::a_code_is_looked_up::looked_up))]
    pub(crate) fn known_in(self, group: Code, number: u8) -> Option<Code>
        ensures { result ≡ code_among (members_of self group) number }
    {
        let code = code_numbered(number)?;
        if self.knows_in(group, code) {
            Some(code)
        } else {
            None
        }
    }
}

impl Category {
    /// Whether a unit may be the first of a TSDU, or follow another.
    #[tactic(auto, unfolding(crate::specs::Kinds::may_stand))]
    pub(crate) fn may_stand(self, second: bool) -> bool
        ensures { result ≡ may_stand second self }
    {
        match self {
            Category::Zero | Category::One => !second,
            Category::Two => second,
        }
    }
}

/// The user data begins and ends in this unit.
fn is_three(value: &[u8]) -> bool
    ensures { result ≡ is_three value.now }
{
    matches!(value, [3, ..])
}

/// The unit that an SI names in the first place of a TSDU, or after another unit.
#[tactic(auto, using(crate::proofs::parameters::an_si_that_names_no_unit::unnamed), unfolding(crate::specs::Kinds::kind_named, crate::specs::Kinds::si_of))]
pub(crate) fn kind_named(second: bool, si: u8) -> Option<Kind>
    ensures { result ≡ kind_named second si }
{
    match si {
        1 if second => Some(Kind::DataTransfer),
        1 => Some(Kind::GiveTokens),
        2 => Some(Kind::PleaseTokens),
        8 => Some(Kind::NotFinished),
        9 => Some(Kind::Finish),
        10 => Some(Kind::Disconnect),
        12 => Some(Kind::Refuse),
        13 => Some(Kind::Connect),
        14 => Some(Kind::Accept),
        25 => Some(Kind::Abort),
        26 => Some(Kind::AbortAccept),
        34 => Some(Kind::ResynchronizeAck),
        41 => Some(Kind::MajorSyncPoint),
        42 => Some(Kind::MajorSyncAck),
        49 => Some(Kind::MinorSyncPoint),
        50 => Some(Kind::MinorSyncAck),
        53 => Some(Kind::Resynchronize),
        _ => None,
    }
}
