//! One end of a byte connection as a value: what a gateway holds.
//!
//! You pass in the octets that you received, and it returns the octets to send. You call it for your user, and it
//! returns indications. It opens no socket, starts no thread and reads no clock.
//!
//! The types in the middle are [`Stack`], the end itself; [`Connect`], a request for a connection; and from
//! `osi_session` `Request`, a call of a user, and `Indication`, what a user receives. A [`Stack`] joins the transport
//! protocol of X.224 (classes 0 and 2, `osi_carrier`) with a session of X.225 version 2 (`osi_session`) for each of its
//! connections.
//!
//! ```text
//! let mut end = Stack::caller(alloc, local);
//! let reference = end.connect(&asked)?;        // a CR is written; the CN follows when it is agreed to
//!
//! // when the socket can be written:
//! let count = socket.write(end.outgoing())?;
//! end.taken(count);
//!
//! // for each piece that was read, until all of it is used:
//! let fed = end.feed(rest);                     // stops after a packet that gives an indication
//! rest = &rest[fed.used..];
//! while let Some((reference, indication)) = end.next_indication() {
//!     // answer it: end.call(reference, Request::Data { user_data })?
//! }
//!
//! // when the socket is gone:
//! end.broken();
//! ```
//!
//! Each connection has a reference, 1 to 65,535, which this end gives once and never again. In class 0 there is one
//! connection for each byte connection, in class 2 there are up to 64.
//!
//! Its contracts say what a call does to the `end` of a [`Stack`] (`specs/State.antt`): the state of its carrier, and
//! for each connection its session and its pending indications. The laws ([`mod@laws`]) say what follows over whole
//! runs: how the input is cut does not matter, and each session makes the moves of its own inputs, all and in order.
//!
//! What it leaves to others: sockets, timers, TLS, presentation and the application; and a bound of what is pending in
//! `outgoing`, which its holder keeps.
#![tactic(auto)]

mod addresses;
mod calls;
mod connecting;
mod disconnecting;
mod dispatching;
mod events;
mod feeding;
mod handling;
pub mod laws;
mod lines;
mod pending;
mod selectors;
mod stacks;
mod transport;

pub use addresses::Addresses;
pub use connecting::{Connect, ConnectError};
pub use selectors::SessionSelector;
pub use stacks::Stack;
