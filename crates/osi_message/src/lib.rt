//! Session units as messages (X.225 section 8): what the units of a TSDU mean, and the octets in which a message is
//! sent.
//!
//! `osi_spdu` reads a TSDU as units with parameters. This crate says what these units mean to a session: a [`Message`]
//! has one variant for each kind of unit, with the fields that a session looks at, and the default values of X.225 in
//! place of parameters that are absent. In the other direction it decides how a message is sent: in which units, after
//! a GT or alone, and data in parts if a TSDU may not hold all of it.
//!
//! ```text
//! let group = read_tsdu(octets)?;                       // osi_spdu: the units of a TSDU
//! match Message::of(group.first()) {
//!     Message::Finish { user_data } => ..,              // a request for release
//!     _ => ..,
//! }
//!
//! let sent = Sent::of(alloc, &Message::MinorAck { number, user_data })?;
//! let sent = Sent::data(alloc, limit, user_data)?;     // in parts, if a TSDU may not hold all of it
//! sent.tsdus()                                          // the octets to send
//! ```
//!
//! - A [`Message`] borrows its octets: what a unit means, or what is to be sent.
//! - [`Sent`] owns the TSDUs to send: one, or one for each part of a Data. A minor point or a confirmation without
//!   user data is stored inline, so it needs no allocation.
//! - [`Place`] says which part of a Data a DT has (X.225 section 8, enclosure item).
//! - [`PlainUnit`] is a fast path for the most frequent TSDUs: data, a part of it, a minor point and its confirmation.
//! - [`Message::brief`] reads a few other short messages straight from their octets, such as a GT that gives tokens or an FN;
//!   [`Sent::of`] writes them straight.
//! - [`Tokens`] are the four tokens by name, and [`Octets`] are octets that an indication or a TSDU owns.
//!
//! The laws ([`mod@laws`]) say that what is sent reads back with the same meaning, alone or in parts; that the parts
//! of a Data join to the data, and that all but the last have the full size; and that numbers are in their range.
//!
//! What it leaves to others: how units are spelled (`osi_spdu`), and which message a side may send or expects at a
//! given moment (`osi_session`).
#![tactic(auto)]

mod brief;
pub mod laws;
mod messages;
mod octets;
mod parts;
mod places;
mod plain;
mod reading;
mod sent;
mod short;
mod tokens;
mod tsdus;
mod writing;

pub use messages::Message;
pub use octets::Octets;
pub use places::Place;
pub use plain::{PlainUnit, data_head};
pub use sent::Sent;
pub use short::Short;
pub use tokens::Tokens;
pub use tsdus::{LentTsdus, Tsdus};
