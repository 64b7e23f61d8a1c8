//! Two ends of one byte connection, and the theorem about them.
//!
//! A [`Pair`] holds two `Stack`s, Left a caller and Right a called one, and moves octets from one to the other as you
//! tell it: any number at a time, with a break at any octet. Its journal keeps what the users asked for, how they were
//! answered and what they received.
//!
//! ```text
//! let mut pair = Pair::new(alloc, left, right);
//! pair.apply(&Event::Connect(asked))?;
//! pair.apply(&Event::Carry(Side::Left, 7))?;     // seven octets go over, half a header
//! pair.apply(&Event::Break(0, 3))?;              // three octets of the right side can still be carried
//! pair.journal();                                // what the two users did and saw
//! ```
//!
//! The contracts of [`Pair::apply`], [`Pair::journal`] and [`Pair::stack`] are the promises. After every list of
//! events, the journal is an execution of the machine of whole messages (`osi_machine`), no token is held by both
//! users, points that both have seen agree, and neither end ever calls what the other sent a fault.
//!
//! The program `osi pair` plays scripts on it (`osi_transcript`). A gateway does not need this crate: it holds a
//! `Stack` and a socket.
//!
//! The proofs say that two ends *match* a list of steps of the machine: each session, and everything in flight between
//! the two, is what these steps lead to (`specs/Standing.antt`). Each event adds its own steps to that list.
#![tactic(auto)]

mod asking;
mod breaking;
mod carrying;
mod ends;
mod entries;
mod events;
mod faults;
mod octets;
mod owned;
pub mod packets;
mod pairs;
pub mod promises;
mod reach;
mod sides;
pub mod standing;
mod telling;

pub use entries::Entry;
pub use events::{Applied, Event};
pub use faults::{PairError, RunError};
pub use owned::{OwnedConnect, OwnedRefusal, OwnedRequest};
pub use pairs::Pair;
pub use sides::Side;
