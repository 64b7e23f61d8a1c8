//! The numbers that C receives.

ghost use Rattle.std.specs.Prelude.{◌≡◌, Some};
ghost use Rattle.osi_c.specs.Codes.{answer_of, asked_of, phase_of, reason_of, detail_of, Refused};

use crate::header;
use osi_carrier::{CarrierFault, EndReason, OpenError};
use osi_class::LinkFault;
use osi_session::{CallError, Phase};
use osi_stack::ConnectError;
use osi_tpdu::TpduFault;
use osi_tpkt::TpktFault;

/// Done.
pub(crate) const OK: u32 = 0;
/// The slot holds no end.
pub(crate) const CLOSED: u32 = 1;
/// An argument is out of range.
pub(crate) const BAD_ARGUMENT: u32 = 2;
/// An allocation failed.
pub(crate) const NO_MEMORY: u32 = 3;
/// The slot holds an end already.
pub(crate) const IN_USE: u32 = 4;
/// Nothing is pending.
pub(crate) const NOTHING: u32 = 5;

/// Why a call was refused.
pub(crate) fn refusal(error: CallError) -> u32
    ensures { answer_of result ≡ Some (Refused error) }
{
    match error {
        CallError::OutOfMemory => NO_MEMORY,
        CallError::NoSuchConnection => header::NO_SUCH_CONNECTION,
        CallError::Ended => header::ENDED,
        CallError::BadState => header::BAD_STATE,
        CallError::NotSelected => header::NOT_SELECTED,
        CallError::TokenNotHeld => header::TOKEN_NOT_HELD,
        CallError::TokenAlreadyHeld => header::TOKEN_ALREADY_HELD,
        CallError::BadNumber => header::BAD_NUMBER,
        CallError::SerialsUsedUp => header::SERIALS_USED_UP,
        CallError::Empty => header::EMPTY,
        CallError::TooLong => header::TOO_LONG,
    }
}

/// Why no connection was requested.
pub(crate) fn connect_refusal(error: ConnectError) -> u32
    ensures { asked_of result ≡ Some (Refused error) }
{
    match error {
        ConnectError::Open(OpenError::OutOfMemory) => NO_MEMORY,
        ConnectError::Open(OpenError::Ended) => header::ENDED,
        ConnectError::NotSelected => header::NOT_SELECTED,
        ConnectError::TooLong => header::TOO_LONG,
        ConnectError::Open(OpenError::NotCaller) => header::NOT_CALLER,
        ConnectError::Open(OpenError::Negotiating) => header::NEGOTIATING,
        ConnectError::Open(OpenError::OneConnection) => header::ONE_CONNECTION,
        ConnectError::Open(OpenError::TooMany) => header::TOO_MANY,
        ConnectError::Open(OpenError::ReferencesUsedUp) => header::REFERENCES_USED_UP,
    }
}

/// The phase of a connection; 0 for none.
pub(crate) fn phase_code(phase: Option<Phase>) -> u32
    ensures { phase_of result ≡ Some phase }
{
    match phase {
        None => header::PHASE_NONE,
        Some(Phase::WaitTransport) => header::PHASE_WAIT_TRANSPORT,
        Some(Phase::WaitCn) => header::PHASE_WAIT_CN,
        Some(Phase::Connecting) => header::PHASE_CONNECTING,
        Some(Phase::Answering) => header::PHASE_ANSWERING,
        Some(Phase::Ready) => header::PHASE_READY,
        Some(Phase::MajorAsked) => header::PHASE_MAJOR_ASKED,
        Some(Phase::MajorDue) => header::PHASE_MAJOR_DUE,
        Some(Phase::Releasing) => header::PHASE_RELEASING,
        Some(Phase::ReleaseDue) => header::PHASE_RELEASE_DUE,
        Some(Phase::Restarting) => header::PHASE_RESTARTING,
        Some(Phase::RestartDue) => header::PHASE_RESTART_DUE,
        Some(Phase::Aborting) => header::PHASE_ABORTING,
        Some(Phase::Ended) => header::PHASE_ENDED,
    }
}

/// A number with its detail: a reason, or the offset of an octet.
#[derive(Clone, Copy)]
pub(crate) struct Coded {
    pub(crate) code: u32,
    pub(crate) detail: u64,
}

fn told(code: u32, detail: u64) -> Coded
    ensures { (result.code ≡ code) × (result.detail ≡ detail) }
{
    Coded { code, detail }
}

/// Why an end has ended; 0 if it has not.
pub(crate) fn end_code(ended: Option<EndReason>) -> Coded
    ensures value { reason_of result.code result.detail ≡ Some ended }
    ensures detail { result.detail ≡ detail_of ended }
{
    match ended {
        None => told(header::END_NONE, 0),
        Some(EndReason::Broken) => told(header::END_BROKEN, 0),
        Some(EndReason::Closed) => told(header::END_CLOSED, 0),
        Some(EndReason::PeerClosed(reason)) => told(header::END_PEER_CLOSED, u64::from(reason)),
        Some(EndReason::NoMemory) => told(header::END_NO_MEMORY, 0),
        Some(EndReason::Fault(CarrierFault::UnknownReference)) => told(
            header::END_UNKNOWN_REFERENCE,
            0,
        ),
        Some(EndReason::Fault(CarrierFault::BadAnswer)) => told(header::END_BAD_ANSWER, 0),
        Some(EndReason::Fault(CarrierFault::UnexpectedUnit)) => told(
            header::END_UNEXPECTED_UNIT,
            0,
        ),
        Some(EndReason::Fault(CarrierFault::Tpkt(fault))) => packet_fault(fault),
        Some(EndReason::Fault(CarrierFault::Tpdu(fault))) => unit_fault(fault),
        Some(EndReason::Fault(CarrierFault::Link(fault))) => told(link_fault(fault), 0),
    }
}

fn packet_fault(fault: TpktFault) -> Coded
    ensures value { reason_of result.code result.detail ≡ Some (Some (EndReason.Fault (CarrierFault.Tpkt fault))) }
    ensures detail { result.detail ≡ detail_of (Some (EndReason.Fault (CarrierFault.Tpkt fault))) }
{
    match fault {
        TpktFault::BadVersion(offset) => told(header::END_BAD_VERSION, offset),
        TpktFault::BadLength(offset) => told(header::END_BAD_LENGTH, offset),
        TpktFault::OutOfMemory => told(header::END_NO_MEMORY_FOR_PACKET, 0),
    }
}

fn unit_fault(fault: TpduFault) -> Coded
    ensures value { reason_of result.code result.detail ≡ Some (Some (EndReason.Fault (CarrierFault.Tpdu fault))) }
    ensures detail { result.detail ≡ detail_of (Some (EndReason.Fault (CarrierFault.Tpdu fault))) }
{
    match fault {
        TpduFault::BadLi(offset) => told(header::END_BAD_LI, offset as u64),
        TpduFault::UnknownCode(offset) => told(header::END_UNKNOWN_CODE, offset as u64),
        TpduFault::BadParameterLength(offset) => told(
            header::END_BAD_PARAMETER_LENGTH,
            offset as u64,
        ),
        TpduFault::BadParameterValue(offset) => told(
            header::END_BAD_PARAMETER_VALUE,
            offset as u64,
        ),
        TpduFault::DuplicateParameter(offset) => told(
            header::END_DUPLICATE_PARAMETER,
            offset as u64,
        ),
    }
}

fn link_fault(fault: LinkFault) -> u32
    ensures { reason_of result 0 ≡ Some (Some (EndReason.Fault (CarrierFault.Link fault))) }
{
    match fault {
        LinkFault::WrongForm => header::END_WRONG_FORM,
        LinkFault::OutOfSequence => header::END_OUT_OF_SEQUENCE,
        LinkFault::CreditReduced => header::END_CREDIT_REDUCED,
        LinkFault::TsduTooLong => header::END_TSDU_TOO_LONG,
        LinkFault::OutOfMemory => header::END_NO_MEMORY_FOR_TSDU,
    }
}
