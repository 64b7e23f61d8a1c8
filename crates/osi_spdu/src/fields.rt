//! Parameter values with a type of their own.

ghost use Rattle.std.specs.Prelude.{◌≡◌, ◌≤◌, ◌/◌, ◌%◌, [], ◌∷◌, length, option_map};
ghost use Rattle.osi_spdu.specs.Values.{canonical};
ghost use Rattle.osi_spdu.specs.Fields.{sync_octet, resync_octet, enclosure_octet, octet_list, size_octets, reason_octets};
ghost use Rattle.osi_spdu.specs.Octets.{octets_of};

use crate::codes::Code;
use crate::octets::{Short, Value};

/// Whether a minor synchronization point asks for its confirmation (X.225 section 8, sync type).
#[derive(Clone, Copy, PartialEq, Eq)]
pub enum SyncType {
    /// The sender asks for it: bit 1 is clear.
    Asked,
    /// The sender leaves it open: bit 1 is set.
    Open,
}

/// What a resynchronization does (X.225 section 8, resync type).
#[derive(Clone, Copy, PartialEq, Eq)]
pub enum ResyncType {
    /// It goes back to a synchronization point (0).
    Restart,
    /// It discards what is in flight (1).
    Abandon,
    /// It sets the number of the next point (2).
    Set,
}

/// Where user data begins and ends (X.225 section 8, enclosure item).
#[derive(Clone, Copy, PartialEq, Eq)]
pub enum Enclosure {
    /// It begins in this unit and does not end in it (01).
    First,
    /// It neither begins nor ends in this unit (00).
    Middle,
    /// It ends in this unit and did not begin in it (02).
    Last,
    /// It begins and ends in this unit (03).
    Whole,
}

/// The largest TSDU in each direction, in octets, 0 for no limit (X.225 section 8, TSDU maximum size). A value that was
/// read may also be 1 to 63 octets, which no user of this library can give.
#[derive(Clone, Copy, PartialEq, Eq)]
pub struct TsduMaximumSize {
    /// From the side that asks for the connection.
    pub from_asker: u16,
    /// From the side that answers.
    pub from_answerer: u16,
}

/// Why a connection is refused (X.225 section 8, reason code).
#[derive(Clone, Copy, PartialEq, Eq)]
pub struct Reason<'a> {
    /// The first octet.
    pub code: u8,
    /// The octets after it: the user data of a refusal by the user.
    pub data_octets: &'a [u8],
}

#[tactic(auto, unfolding(crate::specs::Values::canonical))]
impl SyncType {
    pub(crate) fn octet(self) -> u8
        ensures { result ≡ sync_octet self }
    {
        match self {
            SyncType::Asked => 0,
            SyncType::Open => 1,
        }
    }

    fn of(octet: u8) -> SyncType
        ensures { sync_octet result ≡ octet % 2 }
    {
        if octet % 2 == 0 {
            SyncType::Asked
        } else {
            SyncType::Open
        }
    }

    pub(crate) fn read(value: &[u8]) -> Option<SyncType>
        ensures { canonical Code.SyncType value.now ≡ option_map (λ s. sync_octet s ∷ []) result }
    {
        match value {
            [octet] => Some(SyncType::of(*octet)),
            _ => None,
        }
    }

    pub(crate) fn value<'a>(self) -> Value<'a>
        ensures { octets_of result ≡ sync_octet self ∷ [] }
    {
        Value::of_octet(self.octet())
    }
}

#[tactic(auto, unfolding(crate::specs::Values::canonical))]
impl ResyncType {
    pub(crate) fn octet(self) -> u8
        ensures { result ≡ resync_octet self }
    {
        match self {
            ResyncType::Restart => 0,
            ResyncType::Abandon => 1,
            ResyncType::Set => 2,
        }
    }

    pub(crate) fn read(value: &[u8]) -> Option<ResyncType>
        ensures { canonical Code.ResyncType value.now ≡ option_map (λ r. resync_octet r ∷ []) result }
    {
        match value {
            [0] => Some(ResyncType::Restart),
            [1] => Some(ResyncType::Abandon),
            [2] => Some(ResyncType::Set),
            _ => None,
        }
    }

    pub(crate) fn value<'a>(self) -> Value<'a>
        ensures { octets_of result ≡ resync_octet self ∷ [] }
    {
        Value::of_octet(self.octet())
    }
}

#[tactic(auto, unfolding(crate::specs::Values::canonical))]
impl Enclosure {
    pub(crate) fn octet(self) -> u8
        ensures { result ≡ enclosure_octet self }
    {
        match self {
            Enclosure::Middle => 0,
            Enclosure::First => 1,
            Enclosure::Last => 2,
            Enclosure::Whole => 3,
        }
    }

    pub(crate) fn read(value: &[u8]) -> Option<Enclosure>
        ensures { canonical Code.Enclosure value.now ≡ option_map (λ e. enclosure_octet e ∷ []) result }
    {
        match value {
            [0] => Some(Enclosure::Middle),
            [1] => Some(Enclosure::First),
            [2] => Some(Enclosure::Last),
            [3] => Some(Enclosure::Whole),
            _ => None,
        }
    }

    pub(crate) fn value<'a>(self) -> Value<'a>
        ensures { octets_of result ≡ enclosure_octet self ∷ [] }
    {
        Value::of_octet(self.octet())
    }
}

#[tactic(auto, unfolding(crate::specs::Values::canonical))]
impl TsduMaximumSize {
    pub(crate) fn read(value: &[u8]) -> Option<TsduMaximumSize>
        ensures { canonical Code.TsduMaximumSize value.now ≡ option_map size_octets result }
    {
        match value {
            [a, b, c, d] => Some(TsduMaximumSize {
                from_asker: *a as u16 * 256 + *b as u16,
                from_answerer: *c as u16 * 256 + *d as u16,
            }),
            _ => None,
        }
    }

    pub(crate) fn value<'a>(self) -> Value<'a>
        ensures { octets_of result ≡ size_octets self }
    {
        Value::of_short(Short::four(self.from_asker, self.from_answerer))
    }
}

impl<'a> Reason<'a> {
    #[tactic(auto, unfolding(crate::specs::Values::canonical))]
    pub(crate) fn read(value: &'a [u8]) -> Option<Reason<'a>>
        ensures { canonical Code.Reason value.now ≡ option_map reason_octets result }
    {
        match value {
            [] => None,
            [code, data_octets @ ..] => Some(Reason {
                code: *code,
                data_octets,
            }),
        }
    }

    pub(crate) fn value(self) -> Value<'a>
        ensures { octets_of result ≡ reason_octets self.entry }
    {
        Value::new(Short::one(self.code), self.data_octets)
    }
}

/// An octet with any value.
#[tactic(auto, unfolding(crate::specs::Values::canonical))]
pub(crate) fn octet_of(value: &[u8]) -> Option<u8>
    ensures disconnect { canonical Code.TransportDisconnect value.now ≡ option_map octet_list result }
    ensures options { canonical Code.ProtocolOptions value.now ≡ option_map octet_list result }
    ensures version { canonical Code.Version value.now ≡ option_map octet_list result }
{
    match value {
        [octet] => Some(*octet),
        _ => None,
    }
}
