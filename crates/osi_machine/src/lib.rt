//! The machine of whole messages: two sides of a connection, each of which follows the tables of its session, and the
//! one history that both see. The crate has definitions and laws; nothing here runs.
//!
//! Read it to know what two users may observe. The promises about two ends say that the journal of every pair of ends
//! is a journal of this machine (`IsLegal` in `specs/Machine.antt`), so what holds of the machine holds of them.
//!
//! - A `Step` is a request for a connection, a call of a user, the delivery of the oldest message in flight, a break of
//!   the byte connection, or the end of a side.
//! - A `World` is one connection: a history of data and points, an owner for each token, and what is in flight each way
//!   as whole messages. There are no octets, packets or credit.
//! - An `Entry` is what a user did or received; the journal is the list of entries, in order.
//!
//! ```text
//! connects offer ∷ delivers Right 1 keep ∷ delivers Left 1 keep ∷ ..      a list of steps
//! ```
//!
//! The laws ([`mod@laws`]) say what follows for two users after every list of steps: a token has one holder, views
//! agree, points that are confirmed were seen, nobody receives a fault. Start with `specs/Examples.antt`, seven worked runs,
//! and with docs/PROMISES.md, which lists the files of `specs/` in reading order.
#![tactic(auto)]

pub mod laws;
