//! The words for sides, for what a side sent, and for the rules that it broke.

ghost use Rattle.std.specs.Prelude.{◌≡◌};
ghost use Rattle.osi_report.specs.Names.{side_name, said_name, breach_name, rule_name, reply_name};
ghost use Rattle.osi_listing.specs.Lines.{fault_name, unit_fault_name};

use osi_listing::session_fault_name;
use osi_script::call_error_name;
use osi_session::{Breach, Reply};
use osi_side::{Direction, Rule};
use osi_spdu::Kind;
use osi_tpdu::TpduFault;
use osi_tpkt::TpktFault;

/// The word for a side.
pub(crate) fn side(direction: Direction) -> &'static str
    ensures { result.now ≡ side_name direction }
{
    match direction {
        Direction::Left => "left",
        Direction::Right => "right",
    }
}

/// The call that sends a unit, by its name.
#[tactic(auto, unfolding(crate::specs::Names::unit_name))]
pub(crate) fn said(said: Option<Kind>) -> &'static str
    ensures { result.now ≡ said_name said }
{
    match said {
        None => "TSDU",
        Some(Kind::GiveTokens) => "Give",
        Some(Kind::PleaseTokens) => "Please",
        Some(Kind::DataTransfer) => "Data",
        Some(Kind::NotFinished) => "ReleaseRefuse",
        Some(Kind::Finish) => "Release",
        Some(Kind::Disconnect) => "ReleaseAccept",
        Some(Kind::Refuse) => "Refuse",
        Some(Kind::Connect) => "Connect",
        Some(Kind::Accept) => "Accept",
        Some(Kind::Abort) => "Abort",
        Some(Kind::AbortAccept) => "AbortAccept",
        Some(Kind::ResynchronizeAck) => "RestartConfirm",
        Some(Kind::MajorSyncPoint) => "Major",
        Some(Kind::MajorSyncAck) => "MajorConfirm",
        Some(Kind::MinorSyncPoint) => "Minor",
        Some(Kind::MinorSyncAck) => "MinorConfirm",
        Some(Kind::Resynchronize) => "Restart",
    }
}

fn breach(breach: Breach) -> &'static str
    ensures { result.now ≡ breach_name breach }
{
    match breach {
        Breach::Call(error) => call_error_name(error),
        Breach::BadTokens => "BadTokens",
        Breach::BadEnclosure => "BadEnclosure",
        Breach::NoFault => "NoFault",
        Breach::NothingToAnswer => "NothingToAnswer",
        Breach::Outside => "Outside",
    }
}

/// The name of what is wrong with a packet's header.
pub(crate) fn packet_fault(fault: TpktFault) -> &'static str
    ensures { result.now ≡ fault_name fault }
{
    match fault {
        TpktFault::BadVersion(_) => "BadVersion",
        TpktFault::BadLength(_) => "BadLength",
        TpktFault::OutOfMemory => "OutOfMemory",
    }
}

/// The name of what is wrong with a transport unit.
pub(crate) fn unit_fault(fault: TpduFault) -> &'static str
    ensures { result.now ≡ unit_fault_name fault }
{
    match fault {
        TpduFault::BadLi(_) => "BadLi",
        TpduFault::UnknownCode(_) => "UnknownCode",
        TpduFault::BadParameterLength(_) => "BadParameterLength",
        TpduFault::BadParameterValue(_) => "BadParameterValue",
        TpduFault::DuplicateParameter(_) => "DuplicateParameter",
    }
}

/// The name of a rule.
pub(crate) fn rule(rule: Rule) -> &'static str
    ensures { result.now ≡ rule_name rule }
{
    match rule {
        Rule::Breach(found) => breach(found),
        Rule::Fault(fault) => session_fault_name(fault),
    }
}

/// The call that sends an answer, by its name.
pub(crate) fn reply(reply: Reply) -> &'static str
    ensures { result.now ≡ reply_name reply }
{
    match reply {
        Reply::VersionNotSupported => "Refuse",
        Reply::ImplementationRestriction => "Refuse",
        Reply::ProtocolError => "Abort",
        Reply::AbortAccept => "AbortAccept",
    }
}
