//! The session protocol of X.225 version 2: one side of one session, as a value.
//!
//! You tell a [`Session`] each call of its user ([`Request`]) and each TSDU that arrives. It returns what is to be
//! sent and what its user receives ([`Indication`]). It has no transport: its owner sends the TSDUs on a transport
//! connection of its own, and closes that connection when the session says so.
//!
//! ```text
//! let mut caller = Session::caller(alloc, &opening)?;
//! let cn = caller.opened();                              // the transport connection is open: the CN to send
//! let sent = caller.call(Request::Data { user_data })?;  // TSDUs to send, or the first error of the table
//! let taken = caller.take_tsdu(tsdu)?;                   // indications, an answer, whether to close
//! ```
//!
//! What a side may do next depends on its phase ([`Phase`]), on the tokens that it holds, on the functional units that
//! were selected, and on three numbers of synchronization points: V(M), V(A) and V(R). `specs/Allowed.antt` has the
//! table of calls and `specs/Respond.antt` that of units; the code is proved to be exactly these. `react`
//! (`specs/Listening.antt`) is one step of either kind.
//!
//! A call can be planned first (`plan`) and carried out later (`commit`), so that the owner can reserve room for the
//! TSDU in between: then an error changes nothing.
//!
//! The laws ([`mod@laws`]) say, among other things, that what one side sends is taken by the other as it was meant, that
//! a token is not given and kept, that numbers stay in order over every list of inputs, and that an ended session stays
//! ended.
//!
//! What it leaves to others: how units are spelled (`osi_spdu`), what they mean (`osi_message`), and the
//! transport connection (`osi_carrier`, joined with it in `osi_stack`).
#![tactic(auto)]

mod breaches;
mod calling;
mod counting;
mod expected;
mod faults;
mod grouping;
mod hearing;
mod indications;
mod joining;
pub mod laws;
mod lending;
mod numbers;
mod opening;
mod phases;
mod plans;
mod reactions;
mod requests;
mod same;
mod saying;
mod selected;
mod sessions;
mod sides;
mod sizes;
mod standing;
mod state;
mod steady;
mod taken;
mod taking;
mod words;

pub use breaches::Breach;
pub use expected::Expected;
pub use faults::{CallError, UnitFault};
pub use indications::{AbortCause, Indication};
pub use lending::DataParts;
pub use numbers::Numbers;
pub use opening::Opening;
pub use osi_message::Sent;
pub use phases::Phase;
pub use plans::{Plan, PlannedPoint, SentPoint};
pub use reactions::Reply;
pub use requests::{Refusal, Request};
pub use selected::is_profile;
pub use sessions::Session;
pub use sides::Sides;
pub use standing::{Standing, Taking};
pub use steady::is_steady;
pub use taken::Taken;
pub use words::is_restart_unit;
