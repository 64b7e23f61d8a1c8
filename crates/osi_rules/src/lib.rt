//! The rules of transport on one byte connection (X.224 classes 0 and 2 in TPKT), as a value that looks on. It says of each
//! unit of a capture whether its sender was right to send it.
//!
//! You tell a [`Traffic`] when a packet of a side begins, and each unit of the packet once it is whole. It answers with a
//! [`Told`]: what it found, what the unit means for the session above, and how much isn't judged any more.
//!
//! ```text
//! let mut traffic = Traffic::new(alloc);
//! traffic.begin(Direction::Left);                        // the first octet of a packet of left has passed
//! for unit in read_units(packet)? {                      // the packet is whole; Err: traffic.refuse(Direction::Left)
//!     let told = traffic.take(Direction::Left, &unit)?;
//!     match told.finding {
//!         Finding::Broke(rule) => ..,                    // left broke this rule
//!         _ => ..,                                       // told.meaning, on the connection at told.place
//!     }
//! }
//! ```
//!
//! A side can't answer what it doesn't have. So a unit is judged by what its sender had sent before it, and by what had
//! passed of the other side before the first octet of its packet. A side has at most one packet under way. So it is enough
//! to keep, for each connection and side, what the other had sent when the current packet of this side began: a small
//! record that is copied by [`Traffic::begin`]. What passes between the first octet of a packet and its last one then
//! counts for the next packet, however long it takes.
//!
//! Numbers of DTs and AKs are kept modulo 128, as they are sent. That is enough while at most 127 DTs are not acknowledged,
//! and a DT beyond that breaks a rule (`OutOfSequence`). An end of this product sends at most 15.
//!
//! The definitions are in `specs/Rows` (a row of tests for each kind of unit), `specs/Reaches` (who is judged on after a
//! break) and `specs/Traffic` (what is kept). Names and order of the rules are those of the faults of `osi_class` and
//! `osi_carrier` where these have one; a rule that the other end doesn't check comes after those that it does.
//!
//! It looks at 128 connections at once: 64 that are open at an end, and 64 that one side has closed and the other may not
//! know to be closed. Packets and units are read by the caller, and sessions are judged by `osi_side`.
#![tactic(auto)]

mod connections;
mod courses;
mod directions;
mod disconnects;
mod effects;
mod findings;
mod halves;
pub mod laws;
mod offers;
mod routes;
mod rows;
mod traffic;

pub use directions::Direction;
pub use findings::{Finding, Meaning, Reach, Rule, Told};
pub use traffic::Traffic;
