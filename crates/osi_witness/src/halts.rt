//! Why a script goes no further.

ghost use Rattle.std.specs.Prelude.{◌≡◌};
ghost use Rattle.osi_witness.specs.Halts.{halt_words, ends_all};

use std::alloc::AllocError;

/// Why a script goes no further.
#[derive(Clone, Copy)]
pub enum Halt {
    /// No session sends this.
    NoSession,
    /// Too many sessions send it.
    TooMany,
    /// No call of a script sends it.
    NoCall,
    /// A transport unit that has no place there, or nothing that can be read, in class 0 or before the class is known.
    Transport,
    /// The same in class 2.
    TransportOfClass2,
    /// The script would be too long.
    TooLong,
    /// There was no memory.
    OutOfMemory,
}

impl Halt {
    /// The words for it.
    pub fn words(self) -> &'static str
        ensures { result.now ≡ halt_words self }
    {
        match self {
            Halt::NoSession => "no session sends this here",
            Halt::TooMany => "too many sessions explain this",
            Halt::NoCall => "no call of a script sends this",
            Halt::Transport => "no end of class 0 sends this here",
            Halt::TransportOfClass2 => "no end of class 2 sends this here",
            Halt::TooLong => "the script would be too long",
            Halt::OutOfMemory => "out of memory",
        }
    }

    /// Whether no other script of the same capture would go further.
    pub fn is_final(self) -> bool
        ensures { result ≡ ends_all self }
    {
        matches!(self, Halt::TooLong | Halt::OutOfMemory)
    }
}

impl From<AllocError> for Halt {
    fn from(_: AllocError) -> Halt {
        Halt::OutOfMemory
    }
}
