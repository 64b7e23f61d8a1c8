//! Lists octets for people: a line for each packet (RFC 1006), each of its transport units (X.224), each TSDU, and
//! each of its session units (X.225). The program `osi show` prints such a listing of a capture; an end can write one
//! of its traffic into a log.
//!
//! ```text
//! packet 0 length 16 code f0
//!   DT number 0 eot 1 octets 9
//!     tsdu 9
//!     GT
//!     DT octets 5
//! ```
//!
//! There are three ways to make one:
//!
//! - [`list`] lists a whole capture.
//! - A [`Lister`] lists the octets of one direction, in whatever pieces they arrive, and counts them by kind
//!   ([`Counts`]). The laws ([`laws`]) say that the pieces make no difference.
//! - A [`Trace`] is a lister for a program that keeps running: you fetch its lines from time to time, its memory is
//!   bounded, and if it can't continue it stops without an error.
//!
//! ```text
//! let mut trace = Trace::lines(alloc);
//! trace.feed(alloc, &piece[..used]);
//! let lines = trace.fetch(alloc);
//! ```
//!
//! A listing never judges: it reads the grammar of units, but does not say whether a session may send them.
//! `osi_judge` does that, and `osi_report` makes a text of what it found from pieces of lines that are public here
//! ([`octets_of`], [`push_words`]).
#![tactic(auto)]

mod capture;
mod counting;
mod digits;
pub mod laws;
mod lines;
mod listing;
mod pieces;
mod plain;
mod presence;
mod runs;
mod session_lines;
mod streams;
mod traces;
mod units;
mod work;

pub use capture::{CaptureFault, octets_of};
pub use counting::Counts;
pub use lines::{push_decimal, push_number_field, push_octet, push_words};
pub use pieces::{Lister, list};
pub use runs::read_run;
pub use session_lines::{push_session_fault_code, session_fault_name, session_fault_offset};
pub use traces::{Keeping, Trace};
