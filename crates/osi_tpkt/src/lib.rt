//! Packets on a byte stream: the TPKT of RFC 1006 section 6, in which the transport units of X.224 travel over TCP. A
//! packet is the octet 3, a reserved octet, the length of the whole packet in two octets, and a transport unit.
//!
//! You feed a [`Cutter`] the octets of a stream, in whatever pieces they arrive, and it gives you the packets, one at a
//! time. [`write_packet`] appends a packet to a buffer. The crate does no I/O and keeps no clock.
//!
//! ```text
//! let mut cutter = Cutter::new(alloc);
//! let fed = cutter.feed(piece)?;                 // fed.used octets of the piece were used
//! if let Some(unit) = cutter.packet() {          // fed.whole says whether a packet is there
//!     // read it, for example by `read_units` of `osi_tpdu`
//!     cutter.advance();
//! }
//! ```
//!
//! A fault names its place in the stream: [`TpktFault`]. After a fault, each further call returns the same one.
//!
//! [`Unit`] is the trait of every grammar here and in the crates above: reading, which borrows its input and allocates
//! nothing; writing; and the relation that says which octets spell which value. [`Packet`] is its first grammar.
//!
//! The laws ([`mod@laws`]) say that a stream is packets in exactly one way, and that the result does not depend on the
//! pieces in which the stream arrives.
#![tactic(auto)]

mod cutting;
mod faults;
mod headers;
pub mod laws;
mod packets;
mod storage;

pub use cutting::{Cutter, Fed};
pub use faults::TpktFault;
pub use osi_unit::Unit;
pub use packets::{Packet, WriteError, write_in_packet, write_packet};
