//! The words for the transport units, and for the rules of transport that a side broke.

ghost use Rattle.std.specs.Prelude.{◌≡◌};
ghost use Rattle.osi_report.specs.Causes.{unit_kind_name, transport_rule_name, marked_at_name, cause_name};

use crate::names;
use osi_judge::{Cause, Mark, UnitKind};
use osi_rules::Rule;

/// The word for a transport unit.
fn unit_kind(kind: UnitKind) -> &'static str
    ensures { result.now ≡ unit_kind_name kind }
{
    match kind {
        UnitKind::Cr => "CR",
        UnitKind::Cc => "CC",
        UnitKind::Dr => "DR",
        UnitKind::Dc => "DC",
        UnitKind::Dt => "DT",
        UnitKind::Ak => "AK",
        UnitKind::Er => "ER",
    }
}

/// The name of a rule of transport.
#[tactic(auto, unfolding(crate::specs::Causes::transport_rule_name))]
fn transport_rule(rule: Rule) -> &'static str
    ensures { result.now ≡ transport_rule_name rule }
{
    match rule {
        Rule::UnexpectedUnit => "UnexpectedUnit",
        Rule::OneConnection => "OneConnection",
        Rule::Negotiating => "Negotiating",
        Rule::ReferenceInUse => "ReferenceInUse",
        Rule::UnknownReference => "UnknownReference",
        Rule::WrongForm => "WrongForm",
        Rule::BadAnswer => "BadAnswer",
        Rule::LargerSize => "LargerSize",
        Rule::Closed => "Closed",
        Rule::OutOfSequence => "OutOfSequence",
        Rule::NoCredit => "NoCredit",
        Rule::SizeExceeded => "SizeExceeded",
        Rule::TsduTooLong => "TsduTooLong",
        Rule::CreditReduced => "CreditReduced",
        Rule::NothingToAnswer => "NothingToAnswer",
    }
}

/// What a mark is at: its transport unit, `TPDU` if none was read, and `TPKT` if no packet begins there.
pub(crate) fn marked_at(mark: &Mark) -> &'static str
    ensures { result.now ≡ marked_at_name mark.now }
{
    match (mark.unit, mark.cause) {
        (Some(kind), _) => unit_kind(kind),
        (None, Cause::BadPacket(_)) => "TPKT",
        (None, _) => "TPDU",
    }
}

/// The name of what was found there.
pub(crate) fn cause(cause: Cause) -> &'static str
    ensures { result.now ≡ cause_name cause }
{
    match cause {
        Cause::BadPacket(fault) => names::packet_fault(fault),
        Cause::BadUnit(fault) => names::unit_fault(fault),
        Cause::Broke(rule) => transport_rule(rule),
        Cause::Outside => "Outside",
        Cause::TooMany => "TooMany",
    }
}
