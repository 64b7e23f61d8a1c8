//! The codes of parameters and groups.

ghost use Rattle.std.specs.Prelude.{◌≡◌};
ghost use Rattle.osi_spdu.specs.Codes.{number_of, is_same, is_group, slot_of, every_code};
ghost use Rattle.osi_spdu.specs.Reading.{code_among};

/// A parameter or a parameter group of session units, by the code that names it (X.225 section 8).
#[derive(Clone, Copy, PartialEq, Eq)]
pub enum Code {
    /// The group of the references (1).
    ConnectionIdentifier,
    /// The group of what CN and AC agree on (5).
    ConnectAcceptItem,
    /// Reference of the called session user (9).
    CalledReference,
    /// Reference of the calling session user (10).
    CallingReference,
    /// Common reference (11).
    CommonReference,
    /// Additional reference information (12).
    AdditionalReference,
    /// Whether a synchronization point asks for its confirmation (15).
    SyncType,
    /// Tokens that are given or asked for (16).
    TokenItem,
    /// Whether the transport connection is kept, and who aborts (17).
    TransportDisconnect,
    /// Protocol options (19).
    ProtocolOptions,
    /// The functional units (20).
    UserRequirements,
    /// The largest TSDU in each direction (21).
    TsduMaximumSize,
    /// The versions of the protocol (22).
    Version,
    /// The first synchronization point serial number (23).
    InitialNumber,
    /// Whether the user data begins and ends in this unit (25).
    Enclosure,
    /// The side that holds each token (26).
    TokenSetting,
    /// What a resynchronization does (27).
    ResyncType,
    /// A synchronization point serial number (42).
    Number,
    /// Reflected parameter values (49).
    Reflect,
    /// Why a connection is refused (50).
    Reason,
    /// The calling session selector (51).
    CallingSelector,
    /// The called session selector (52).
    CalledSelector,
    /// User data (193).
    UserData,
    /// User data of a CN that has more than 512 octets (194).
    ExtendedUserData,
}

#[tactic(auto, unfolding(crate::specs::Codes::number_of, crate::specs::Codes::is_group, crate::specs::Codes::slot_of))]
impl Code {
    /// The number that names the parameter.
    pub fn number(self) -> u8
        ensures { result ≡ number_of self }
    {
        match self {
            Code::ConnectionIdentifier => 1,
            Code::ConnectAcceptItem => 5,
            Code::CalledReference => 9,
            Code::CallingReference => 10,
            Code::CommonReference => 11,
            Code::AdditionalReference => 12,
            Code::SyncType => 15,
            Code::TokenItem => 16,
            Code::TransportDisconnect => 17,
            Code::ProtocolOptions => 19,
            Code::UserRequirements => 20,
            Code::TsduMaximumSize => 21,
            Code::Version => 22,
            Code::InitialNumber => 23,
            Code::Enclosure => 25,
            Code::TokenSetting => 26,
            Code::ResyncType => 27,
            Code::Number => 42,
            Code::Reflect => 49,
            Code::Reason => 50,
            Code::CallingSelector => 51,
            Code::CalledSelector => 52,
            Code::UserData => 193,
            Code::ExtendedUserData => 194,
        }
    }

    /// Whether the value is parameters of its own.
    pub fn is_group(self) -> bool
        ensures { result ≡ is_group self }
    {
        matches!(self, Code::ConnectionIdentifier | Code::ConnectAcceptItem)
    }

    /// Whether it is the user data of any unit.
    pub(crate) fn is_user_data(self) -> bool
        ensures { result ≡ is_same self Code.UserData }
    {
        matches!(self, Code::UserData)
    }

    /// Whether it is the enclosure.
    pub(crate) fn is_enclosure(self) -> bool
        ensures { result ≡ is_same self Code.Enclosure }
    {
        matches!(self, Code::Enclosure)
    }

    /// The code under which the value is kept: user data has two codes.
    pub(crate) fn slot(self) -> Code
        ensures { result ≡ slot_of self }
    {
        match self {
            Code::ExtendedUserData => Code::UserData,
            code => code,
        }
    }
}

/// The code of this number, if there is one.
#[inline(always)]
#[tactic(auto, using(crate::proofs::parameters::a_code_is_looked_up::low_unknown, crate::proofs::parameters::a_code_is_looked_up::high_unknown), unfolding(crate::specs::Codes::number_of))]
pub(crate) fn code_numbered(number: u8) -> Option<Code>
    ensures { result ≡ code_among every_code number }
{
    // The two high numbers are tested apart; the low ones are close enough together for one table.
    if number > 52 {
        return match number {
            193 => Some(Code::UserData),
            194 => Some(Code::ExtendedUserData),
            _ => None,
        };
    }
    match number {
        1 => Some(Code::ConnectionIdentifier),
        5 => Some(Code::ConnectAcceptItem),
        9 => Some(Code::CalledReference),
        10 => Some(Code::CallingReference),
        11 => Some(Code::CommonReference),
        12 => Some(Code::AdditionalReference),
        15 => Some(Code::SyncType),
        16 => Some(Code::TokenItem),
        17 => Some(Code::TransportDisconnect),
        19 => Some(Code::ProtocolOptions),
        20 => Some(Code::UserRequirements),
        21 => Some(Code::TsduMaximumSize),
        22 => Some(Code::Version),
        23 => Some(Code::InitialNumber),
        25 => Some(Code::Enclosure),
        26 => Some(Code::TokenSetting),
        27 => Some(Code::ResyncType),
        42 => Some(Code::Number),
        49 => Some(Code::Reflect),
        50 => Some(Code::Reason),
        51 => Some(Code::CallingSelector),
        52 => Some(Code::CalledSelector),
        _ => None,
    }
}
