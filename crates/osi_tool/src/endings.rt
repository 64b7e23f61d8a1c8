//! How the program ends: its status, and a line on standard error.

ghost use Rattle.std.specs.Prelude.{◌≡◌, option_map};
ghost use Rattle.osi_tool.specs.Endings.{status_of, line_of};

use crate::faults::ProgramFault;

/// How the program ends.
#[derive(Clone, Copy)]
pub struct Ending {
    /// The status: 0 or 1 if the job was done, 2 after a fault.
    pub status: u8,
    /// The line on standard error, if there is one.
    pub line: Option<&'static str>,
}

/// How the program ends with this answer: with the status of its job, or with status 2 and the line of the fault.
pub fn ending_of(answer: Result<u8, ProgramFault>) -> Ending
    ensures status { result.status ≡ status_of answer }
    ensures line { option_map (λ s. s.now) result.line ≡ line_of answer }
{
    match answer {
        Ok(status) => Ending { status, line: None },
        Err(fault) => Ending {
            status: 2,
            line: Some(fault.line()),
        },
    }
}
