//! Runs a script on two ends, and writes a transcript: what the ends answered and what their users received.
//!
//! [`transcribe`] takes the text of a script and returns its [`Transcript`]: the lines, and a status that says whether
//! all lines of the script were read. It holds the two ends as a `Pair` of `osi_pair`; reading and writing lines is
//! left to `osi_script`.
//!
//! ```text
//! let transcript = transcribe(alloc, script)?;   // Err: out of memory; a script has less than 2^32 octets
//! transcript.lines                               // a line for each answer, indication and final state
//! transcript.status                              // 1 if a line can't be read, or its event does not fit
//! ```
//!
//! The law says that a script has one transcript ([`mod@laws`]): the lines of the script determine its text and its
//! status. If memory runs out there is no transcript.
#![tactic(auto)]

pub mod asking;
mod entries;
pub mod laws;
mod playing;
mod standings;
mod transcripts;
mod walks;

pub use transcripts::{Transcript, transcribe};
