//! The names of errors, faults and phases.

ghost use Rattle.std.specs.Prelude.{◌≡◌, ◌≤◌, length};
ghost use Rattle.osi_script.specs.Naming.{call_error_name, unit_fault_name, phase_name};

use osi_session::{CallError, Phase, UnitFault};

/// The name of the reason why a call was refused.
#[tactic(auto, unfolding(crate::specs::Naming::call_error_name))]
pub fn call_error(error: CallError) -> &'static str
    ensures value { result.now ≡ call_error_name error }
    ensures short { length result.now ≤ 16 }
{
    match error {
        CallError::NoSuchConnection => "NoSuchConnection",
        CallError::Ended => "Ended",
        CallError::BadState => "BadState",
        CallError::NotSelected => "NotSelected",
        CallError::TokenNotHeld => "TokenNotHeld",
        CallError::TokenAlreadyHeld => "TokenAlreadyHeld",
        CallError::BadNumber => "BadNumber",
        CallError::SerialsUsedUp => "SerialsUsedUp",
        CallError::Empty => "Empty",
        CallError::TooLong => "TooLong",
        CallError::OutOfMemory => "OutOfMemory",
    }
}

/// The name of a received unit's fault.
pub fn unit_fault(fault: UnitFault) -> &'static str
    ensures value { result.now ≡ unit_fault_name fault }
    ensures short { length result.now ≤ 16 }
{
    match fault {
        UnitFault::Spelling(_) => "Spelling",
        UnitFault::Unexpected(_) => "Unexpected",
        UnitFault::NotSelected(_) => "NotSelected",
        UnitFault::TokenHeld(_) => "TokenHeld",
        UnitFault::BadNumber(_) => "BadNumber",
        UnitFault::BadTokens(_) => "BadTokens",
        UnitFault::BadEnclosure(_) => "BadEnclosure",
        UnitFault::DataTooLong(_) => "DataTooLong",
    }
}

/// The name of a phase.
#[tactic(auto, unfolding(crate::specs::Naming::phase_name))]
pub fn phase(phase: Phase) -> &'static str
    ensures value { result.now ≡ phase_name phase }
    ensures short { length result.now ≤ 16 }
{
    match phase {
        Phase::WaitTransport => "WaitTransport",
        Phase::WaitCn => "WaitCn",
        Phase::Connecting => "Connecting",
        Phase::Answering => "Answering",
        Phase::Ready => "Ready",
        Phase::MajorAsked => "MajorAsked",
        Phase::MajorDue => "MajorDue",
        Phase::Releasing => "Releasing",
        Phase::ReleaseDue => "ReleaseDue",
        Phase::Restarting => "Restarting",
        Phase::RestartDue => "RestartDue",
        Phase::Aborting => "Aborting",
        Phase::Ended => "Ended",
    }
}
