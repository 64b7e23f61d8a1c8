//! Why the words of the command line give no job, why a job fails, and why the program does.

ghost use Rattle.std.specs.Prelude.{◌≡◌};
ghost use Rattle.osi_tool.specs.Endings.{fault_line};

use crate::calls::Calls;

/// Why the words of the command line give no job, and no help.
#[derive(Clone, Copy)]
pub enum WordsFault {
    /// They name no job, or they can't be read.
    Words,
    /// What they ask for can't be printed.
    Write,
    /// An allocation failed.
    OutOfMemory,
}

/// Why a job failed.
#[derive(Clone, Copy)]
pub enum ToolFault {
    /// A read failed, or the input has more than 16,777,216 octets. A capture that is judged may have more.
    Input,
    /// The input is not a capture: it has a character other than digits, blanks and comments, or an odd number of
    /// digits.
    BadHex,
    /// A write failed.
    Write,
    /// An allocation failed.
    OutOfMemory,
}

/// Why a job failed, and what became of its reader and its writer.
#[derive(Clone, Copy)]
pub struct Failure {
    /// Why it failed.
    pub fault: ToolFault,
    /// Whether a read failed, and whether a write did.
    pub calls: Calls,
}

/// Why the program ends with status 2.
#[derive(Clone, Copy)]
pub enum ProgramFault {
    /// The arguments of the program name no job, or the help that they ask for can't be printed.
    Words(WordsFault),
    /// The job failed.
    Tool(ToolFault),
}

impl ProgramFault {
    /// The line that the program prints on standard error.
    pub fn line(self) -> &'static str
        ensures { result.now ≡ fault_line self }
    {
        match self {
            ProgramFault::Words(WordsFault::Words) => "osi: Words",
            ProgramFault::Words(WordsFault::Write) => "osi: Write",
            ProgramFault::Words(WordsFault::OutOfMemory) => "osi: OutOfMemory",
            ProgramFault::Tool(ToolFault::Input) => "osi: Input",
            ProgramFault::Tool(ToolFault::BadHex) => "osi: BadHex",
            ProgramFault::Tool(ToolFault::Write) => "osi: Write",
            ProgramFault::Tool(ToolFault::OutOfMemory) => "osi: OutOfMemory",
        }
    }
}
