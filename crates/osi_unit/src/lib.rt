//! What every grammar of units offers: the trait [`Unit`], which packets, transport units and session units implement.
//! It reads, and borrows its input and allocates nothing; it writes; and it has the relation that says which octets spell
//! which value.
//!
//! ```text
//! let read = Group::read(octets)?;          // None: more octets are awaited
//! ```
//!
//! The crate stands below [`osi_tpkt`](../osi_tpkt) and `osi_spdu`, so that neither has to wait for the other.
#![tactic(auto)]

pub mod laws;
mod units;

pub use units::Unit;
