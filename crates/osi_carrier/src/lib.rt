//! The transport protocol of X.224, classes 0 and 2, at one end of a byte connection, as a value.
//!
//! A [`Carrier`] carries TSDUs for many connections over one stream of octets. Its user requests a connection, sends
//! TSDUs and closes; received octets are fed in whatever pieces they arrive; and it reports [`Event`]s: a connection
//! was opened, refused or closed, a whole TSDU arrived, a peer broke a rule.
//!
//! ```text
//! let mut carrier = Carrier::caller(alloc, local);
//! let reference = carrier.connect(None, None)?;
//! let fed = carrier.feed(piece);                // stops after a packet that causes an event
//! while let Some(event) = carrier.next_event() {
//!     // Event::Opened(reference): carrier.send(reference, tsdu)?
//! }
//! // the octets to send: carrier.outgoing(), and then carrier.taken(count)
//! ```
//!
//! A connection goes by a [`Ref`], the number that this end gave it. In class 0 a byte connection has one connection;
//! in class 2 it has up to 64, and data that waits for credit is kept with its connection.
//!
//! `react` (`specs/React.antt`) is the effect of one unit on the state of a carrier, and `Feeds` the effect of a piece.
//! The laws say that one unit changes one connection, that references rise and are never given twice, and that the
//! pieces do not matter.
//!
//! What it leaves to others: packets (`osi_tpkt`), how units are spelled (`osi_tpdu`), negotiation, and how TSDUs are
//! cut into data units under credit (`osi_class`). It knows nothing of sessions.
#![tactic(auto)]

mod carrier;
mod ends;
mod events;
mod faults;
pub mod laws;
mod lending;
mod links;
pub mod lookup;
mod negotiation;
mod pieces;
mod rows;
mod selectors;
mod switch;
mod writing;

pub use carrier::Carrier;
pub use ends::{CarrierFault, EndReason};
pub use events::{Event, Ref};
pub use faults::{OpenError, SendError};
pub use lending::{FedLent, Lent};
pub use pieces::Pieces;
pub use selectors::Tsaps;
