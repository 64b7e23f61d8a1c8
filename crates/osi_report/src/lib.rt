//! The text of a judgement: what was found of the two sides of a capture, as lines.
//!
//! Two systems don't understand each other, each maker blames the other, and there is a capture of both
//! directions. [`judge_text`] reads it as a text of hexadecimal digits, in which each line is a piece of one
//! side: of the called side if it begins with a tab, else of the side that called. It judges the capture, and writes what it
//! found:
//!
//! ```text
//! let judgement = judge_text(alloc, b"0300000e09e00000000100c0010a\n")?;
//! // left packets 1 octets 14 rest 0
//! // right packets 0 octets 0 rest 0
//! // left 1 unanswered
//! // not judged: only one direction is here
//! let status = judgement.status;                       // 1: nothing was judged, or a side broke the protocol
//! ```
//!
//! A [`Hearing`] does the same with a text that comes in pieces, of any length, of which it keeps nothing:
//!
//! ```text
//! let mut hearing = Hearing::new(alloc);
//! hearing.feed(b"0300000e09e0000")?;
//! hearing.feed(b"0000100c0010a\n")?;
//! let judgement = hearing.judgement()?;                // the same one
//! ```
//!
//! The octets are fed to a `Judge` of `osi_judge`, which judges both classes and any number of connections. [`push_report`] asks it
//! what it found of each connection (a [`Pair`]) and of the [`Transport`] of each side, and who was first ([`Last`]), and writes
//! all that:
//!
//! ```text
//! left 1 kept 1 phase Ready held 55 next 1 below 1 lowest 1
//! right 2 kept 1 phase Ready held 00 next 1 below 1 lowest 1
//! left broke packet 92 CR ReferenceInUse
//! left not judged after left packet 92 CR ReferenceInUse
//! right not judged after left packet 92 CR ReferenceInUse
//! left broke the protocol first, packet 92: CR ReferenceInUse
//! ```
//!
//! A report says what the capture comes to (`specs/Reports`), and its last line names the earliest break of all. So the text
//! is a function of the capture (`laws::a_text_has_one_judgement`). Nothing is judged of a capture that has no octets of
//! one side, or that begins in the middle of a connection (`specs/Openings`). Numbers and offsets are those of the listing of that side
//! (`osi_listing`), and names those of transcripts (`osi_script`).
//!
//! [`push_judgement`] writes the text of a judge that somebody else fed, as the library for C does, beside an [`Opening`] that passed the
//! same octets. Such a judge may have a bound for each connection. A side of a connection that reached it has a line that says so, and
//! the last line then never says that both kept the protocol.
//!
//! It leaves judging to `osi_side` and `osi_judge`, and standard input and output to the program.
#![tactic(auto)]

mod causes;
mod disputes;
mod hearing;
pub mod laws;
mod lines;
mod names;
mod news;
mod openings;
mod pieces;
mod places;
mod quiet;
mod report_texts;
mod reports;
mod steps;
mod told;
mod told_texts;

pub use disputes::{Judgement, judge_text};
pub use hearing::Hearing;
pub use openings::Opening;
pub use pieces::{Piece, Pieces};
pub use report_texts::{push_judgement, push_report};
pub use reports::{Last, Pair, Together, Transport, is_late, is_undecided};
pub use told::Connection;
