//! The witness of a judgement: a script that two ends play, and that tells what both sides of a capture did.
//!
//! Whoever doubts a judgement of `osi_side` that a side kept the protocol needs to trust no judge. For each side of each connection
//! [`witness_of`] takes a run of a session that sends what this side sent, and writes all of them as one script of `osi pair`: the
//! calls of both users, and how many octets are carried between them. Play it, and compare what the two ends send with the
//! capture.
//!
//! ```text
//! let witness = witness_of(alloc, text)?;
//! // ends 0 0 10 4
//! // connect 00b9 1 aaaa -
//! // carry left 14
//! // ..
//! ```
//!
//! The connections are told one after the other, each to its end, in the order of their CRs: what one does doesn't depend on another.
//!
//! The script is played as it is written, so that it knows how many octets a line has to carry, and once more when it is
//! done. It stops before the first TSDU that no session sends, or that no call of a script sends; its last line is a
//! comment then, which names the packet.
//!
//! What it leaves to others: the text of a capture (`osi_report`), the rules of transport (`osi_rules`), which sessions explain a side
//! (`osi_side`), and the two ends (`osi_transcript`, `osi_pair`).
//!
//! # Runs
//! What both sides of a capture did, as far as a session does it: for each side of each connection a run of a session that sends
//! what this side sent, unit by unit, and the calls of a user and the lines of a script that tell such a run.
//!
//! A [`Capture`] reads packets and judges their units by `osi_rules`. It has a [`Conversation`] for each connection, of either class.
//! Each side of it (a [`Stream`]) tells its TSDUs to a `Side` of `osi_side`, and keeps the sessions that this keeps after each unit.
//! The run is read off from these backwards. It says of each unit after how many TSDUs of the other side its session sent it, and
//! whether it did so by itself ([`Said`]). In class 0 these TSDUs are as few as may be; in class 2, where an end acknowledges what it
//! takes, they are as many as come to the same. [`request_of`] is the call that sends a message, and [`push_line`] writes the line of a
//! script that makes this call.
//!
//! ```text
//! let mut capture = Capture::new(alloc);
//! capture.pass(Side::Left, octets, 0)?;     // and so on, piece by piece
//! capture.trace()?;
//! if let Some(conversation) = capture.conversations.get(0) {
//!     let said = &conversation.left.said;   // each unit, and the state of the session after it
//!     let limit = &conversation.left.limit; // the TSDU that no session sends, if there is one
//! }
//! ```
//!
//! So there is a run up to the TSDU with which the judge says that the side broke the protocol or left the profile, or that too many
//! sessions explain it, and for all TSDUs otherwise.
//!
//! The contracts say what a line spells, and that a run of each side is found, unless memory runs out: one of a session that sends all
//! units of the side, up to its limit. The laws ([`mod@laws`]) say that such a run explains the side, and all of it if the judge found
//! that the side kept the protocol. The script that tells the runs is played before it is given to anybody.
#![tactic(auto)]

mod calls;
mod captures;
mod conversations;
mod ends;
mod halts;
pub mod laws;
mod lines;
mod places;
mod players;
mod streams;
mod telling;
mod texts;
mod trails;
mod units;
mod wires;
mod witnesses;

pub use calls::{Asking, Offer, asked_by, request_of, selected_by};
pub use captures::Capture;
pub use conversations::{Conversation, Opening};
pub use halts::Halt;
pub use lines::{push_comment, push_line};
pub use places::{Place, Stop, earlier, is_before, other};
pub use streams::{Said, Stream, Tsdu};
pub use trails::hears;
pub use units::{acting_unit, has_no_effect};
pub use witnesses::{Witness, witness_of};
