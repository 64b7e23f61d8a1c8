//! The classes of the transport protocol (X.224): which class and size a connection gets, and how a message (TSDU)
//! travels on it. There is no I/O here, and no octets of headers: a link gives and takes units.
//!
//! [`answer`] is the negotiation of a CR against what this end supports. A [`Link`], of class 0 or of class 2, cuts
//! TSDUs into data units and joins the units that it receives. In class 2 it sends no more than the peer's credit
//! allows, and acknowledges each data unit.
//!
//! ```text
//! link.send_tsdu(octets)?;                       // queues a TSDU
//! while let Some(unit) = link.next_out() { .. }  // the units that may be sent now; in class 2, Acks come first
//! link.take(&unit)?;                             // a unit that was received; Err: the first fault, and nothing changed
//! while let Some(tsdu) = link.next_tsdu() { .. } // the TSDUs that are complete
//! let handed = link.receive(&unit)?;             // both at once: the first TSDU that is complete, if there is one
//! ```
//!
//! The laws ([`mod@laws`]) say that what comes out of one link is a prefix of what went into the other, and all of it
//! when nothing is in flight and no Ack is due. References, octets and packets are left to `osi_carrier`.
#![tactic(auto)]

mod class_two;
mod class_zero;
mod either;
mod faults;
mod flow;
mod handing;
mod joining;
pub mod laws;
mod limits;
mod links;
mod negotiation;
mod queue;
mod sending;
mod sizes;
mod terms;
mod units;

pub use class_two::Class2;
pub use class_zero::Class0;
pub use either::AnyLink;
pub use faults::LinkFault;
pub use handing::Handed;
pub use limits::{Credit, LONGEST_TSDU};
pub use links::Link;
pub use negotiation::answer;
pub use queue::Queue;
pub use sizes::smaller_size;
pub use terms::{Answer, Class, Local};
pub use units::{Out, Room, Slot};
