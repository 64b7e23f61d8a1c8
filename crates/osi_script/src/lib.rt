//! The text of scripts and transcripts. A script tells two ends what to do, one event a line; a transcript tells what
//! the ends answered and what their users received.
//!
//! ```text
//! ends 0 0 10 4                                  (classes of both ends, TPDU size, window)
//! connect 00b9 1 aaaa 68656c6c6f                 (functional units, first number, token wishes, user data)
//! carry left 999                                 (octets to carry from the left end to the right one)
//! ```
//!
//! [`Line::read`] reads the user data of a line, and [`Line::command`] gives its [`Command`]. [`push_answer`],
//! [`push_indication`] and [`push_standing`] append lines of a transcript.
//!
//! What captures and judgements have in common with scripts is here, too: [`first_line`] cuts a text into lines, and
//! [`call_error_name`], [`unit_fault_name`] and [`phase_name`] are the words for errors, faults and phases.
//!
//! The laws ([`mod@laws`]) say that a line asks for at most one thing, and that each call is read by its name. Running a
//! script is left to `osi_transcript`; docs/TOOL.md describes the language.
#![tactic(auto)]

mod answers;
mod calls;
mod commands;
mod cutting;
mod fronts;
mod kept;
pub mod laws;
mod lines;
mod naming;
mod reading;
mod scripts;
mod shown;
mod sides;
mod splitting;
mod standing;
mod texts;
mod verbs;
mod words;

pub use answers::{Answer, ConnectRefusal, LineFault, push_answer};
pub use commands::{Classes, Command};
pub use cutting::first_line;
pub use fronts::read_carry;
pub use lines::Line;
pub use naming::{
    call_error as call_error_name, phase as phase_name, unit_fault as unit_fault_name,
};
pub use scripts::is_skipped;
pub use shown::push_indication;
pub use sides::Side;
pub use standing::{Standing, push_standing};
pub use verbs::Verb;
