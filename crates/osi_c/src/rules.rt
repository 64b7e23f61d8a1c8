//! The numbers of what a side sent, and of the rules that it broke.

ghost use Rattle.std.specs.Prelude.{◌≡◌};
ghost use Rattle.osi_c.specs.Ruled.{said_code, IsBreach, spelling_code, IsRule, packet_code, unit_code};

use crate::codes::{NO_MEMORY, refusal};
use crate::header;
use osi_session::Breach;
use osi_side::Rule;
use osi_spdu::{Kind, SpduFault};
use osi_tpdu::TpduFault;
use osi_tpkt::TpktFault;

/// What a side sent: a session unit, or a TSDU that is none.
pub(crate) fn said_code(said: Option<Kind>) -> u32
    ensures { result ≡ said_code said }
{
    match said {
        Some(Kind::Connect) => header::SAID_CN,
        Some(Kind::Accept) => header::SAID_AC,
        Some(Kind::Refuse) => header::SAID_RF,
        Some(Kind::DataTransfer) => header::SAID_DT,
        Some(Kind::GiveTokens) => header::SAID_GT,
        Some(Kind::PleaseTokens) => header::SAID_PT,
        Some(Kind::MinorSyncPoint) => header::SAID_MIP,
        Some(Kind::MinorSyncAck) => header::SAID_MIA,
        Some(Kind::MajorSyncPoint) => header::SAID_MAP,
        Some(Kind::MajorSyncAck) => header::SAID_MAA,
        Some(Kind::Resynchronize) => header::SAID_RS,
        Some(Kind::ResynchronizeAck) => header::SAID_RA,
        Some(Kind::Finish) => header::SAID_FN,
        Some(Kind::Disconnect) => header::SAID_DN,
        Some(Kind::NotFinished) => header::SAID_NF,
        Some(Kind::Abort) => header::SAID_AB,
        Some(Kind::AbortAccept) => header::SAID_AA,
        None => header::SAID_TSDU,
    }
}

fn breach_code(breach: Breach) -> u32
    ensures { IsBreach breach result }
{
    match breach {
        Breach::Call(error) => refusal(error),
        Breach::BadTokens => header::RULE_BAD_TOKENS,
        Breach::BadEnclosure => header::RULE_BAD_ENCLOSURE,
        Breach::NoFault => header::RULE_NO_FAULT,
        Breach::NothingToAnswer => header::RULE_NOTHING_TO_ANSWER,
        Breach::Outside => header::RULE_OUTSIDE,
    }
}

fn spelling_code(fault: SpduFault) -> u32
    ensures { result ≡ spelling_code fault }
{
    match fault {
        SpduFault::UnknownSi(_) => header::RULE_UNKNOWN_SI,
        SpduFault::LengthPastEnd(_) => header::RULE_LENGTH_PAST_END,
        SpduFault::MissingParameter(..) => header::RULE_MISSING_PARAMETER,
        SpduFault::DuplicateParameter(..) => header::RULE_DUPLICATE_PARAMETER,
        SpduFault::BadValue(..) => header::RULE_BAD_VALUE,
        SpduFault::BadConcatenation(_) => header::RULE_BAD_CONCATENATION,
        SpduFault::TrailingOctets(_) => header::RULE_TRAILING_OCTETS,
    }
}

/// The rule by which a session may not send it.
pub(crate) fn rule_code(rule: Rule) -> u32
    ensures { IsRule rule result }
{
    match rule {
        Rule::Breach(breach) => breach_code(breach),
        Rule::Fault(fault) => spelling_code(fault),
    }
}

pub(crate) fn packet_code(fault: TpktFault) -> u32
    ensures { result ≡ packet_code fault }
{
    match fault {
        TpktFault::BadVersion(_) => header::RULE_BAD_VERSION,
        TpktFault::BadLength(_) => header::RULE_BAD_LENGTH,
        TpktFault::OutOfMemory => NO_MEMORY,
    }
}

pub(crate) fn unit_code(fault: TpduFault) -> u32
    ensures { result ≡ unit_code fault }
{
    match fault {
        TpduFault::BadLi(_) => header::RULE_BAD_LI,
        TpduFault::UnknownCode(_) => header::RULE_UNKNOWN_CODE,
        TpduFault::BadParameterLength(_) => header::RULE_BAD_TPDU_PARAMETER_LENGTH,
        TpduFault::BadParameterValue(_) => header::RULE_BAD_TPDU_PARAMETER_VALUE,
        TpduFault::DuplicateParameter(_) => header::RULE_DUPLICATE_TPDU_PARAMETER,
    }
}
