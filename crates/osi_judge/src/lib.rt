//! Which side of a byte connection broke the protocol first, and where: for both classes of transport (X.224 classes 0 and
//! 2), and for any number of session connections on it.
//!
//! A [`Judge`] only observes. You feed it a capture, the octets of both directions in the order in which they passed. It
//! reads packets and transport units, judges the transport of each side by `osi_rules`, joins the TSDUs of each connection,
//! and gives them to the two sessions of that connection, which `osi_side` judges.
//!
//! ```text
//! let mut judge = Judge::new(alloc);
//! let mut rest = piece;                                // of left, the side that calls
//! while !rest.is_empty() {
//!     let used = judge.feed(Direction::Left, rest)?;   // up to the end of a header or a packet
//!     rest = &rest[used..];
//! }
//! judge.settle()?;                                     // only if an allocation may have failed
//! for number in 0..judge.count() {                     // the connections, in the order of their CRs
//!     let outcome = match judge.connection(number) {
//!         Some(Found::Placed(connection)) => connection.outcome(Direction::Left)?,
//!         Some(Found::Replaced(past)) => past.outcome(Direction::Left),
//!         None => break,                               // there is no connection of this number
//!     };
//! }
//! let broke = judge.broke(Direction::Left);            // where left's transport first broke a rule
//! let first = judge.first();                           // whose break passed first, of session or of transport
//! ```
//!
//! A TSDU counts as known to the other side if its last octet had passed before the first octet of the packet in which the
//! other side's TSDU begins. So for each connection and side the number of TSDUs is kept that had passed when the current
//! packet of that side began.
//!
//! **Memory.** The judge holds the octets of at most one packet of each direction. Of each connection it keeps the
//! unfinished TSDU of each side, and what `osi_side` keeps of a session: outlines of the TSDUs that passed, and at most
//! 4,096 sessions that explain them. A side that more sessions explain is not judged any further (`Finding::TooMany`).
//! At most 128 connections are looked at together: a CR for one more is told (`Cause::TooMany`), and nothing after it
//! is judged. Once the place of a connection that is over is given to another, a record of what was found of it is left
//! ([`Past`]): some hundred octets, and as much again for each side that broke the protocol. [`Judge::within`] bounds
//! what is kept of each connection. Data that follow one another have one outline, so an association that sends data
//! both ways is judged however long it lasts. If an allocation fails, no octet is lost and none counts twice: make the
//! same call again.
#![tactic(auto)]

mod connections;
mod judge;
pub mod laws;
mod lines;
mod marks;
mod outcomes;
mod pasts;
mod proceedings;
mod records;
mod rooms;
mod sessions;
mod streams;

pub use connections::Connection;
pub use judge::Judge;
pub use marks::{Cause, First, Layer, Mark, UnitKind};
pub use osi_side::{Direction, Reading};
pub use outcomes::{Outcome, SessionState, Violation};
pub use pasts::Past;
pub use sessions::Found;
