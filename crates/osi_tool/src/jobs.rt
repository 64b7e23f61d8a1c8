//! What the program can do.

/// What the program is to do.
#[derive(Clone, Copy)]
pub enum Job {
    /// Lists the capture on standard input.
    Show,
    /// Runs the script on standard input on two ends.
    Pair,
    /// Judges the capture of both sides on standard input.
    Judge,
    /// The same, and writes each finding as soon as it is certain.
    Live,
    /// Writes a script that tells what both sides of that capture did.
    Witness,
}

/// Which options of a subcommand were met.
#[derive(Clone, Copy)]
pub(crate) struct Options {
    /// The one for a script.
    pub(crate) script: bool,
    /// The one for findings as soon as they are certain.
    pub(crate) live: bool,
}
