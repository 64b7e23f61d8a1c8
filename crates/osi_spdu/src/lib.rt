//! Session protocol data units (X.225 section 8) as octets: reading the units of a TSDU, with the first fault and its
//! place, and the one spelling in which each unit is written.
//!
//! [`read_tsdu`] reads a TSDU as a [`Group`]: one unit of category 1, or one of category 0 followed by up to 16 of
//! category 2. It borrows its input and allocates nothing. [`write_tsdu`] appends a group to a buffer.
//!
//! ```text
//! let group = read_tsdu(octets)?;                // Err: the first fault, its offset and parameter code
//! group.first().kind()                           // Kind::Connect, for example
//! group.first().params().initial_number()        // None if the unit has no such parameter
//! for unit in group.behind() { .. }              // the units after the first one
//!
//! write_tsdu(&Group::alone(Spdu::finish(user_data)), &mut out)?;
//! ```
//!
//! An [`Spdu`] has a [`Kind`] and [`Params`]: each parameter by its meaning, with an accessor. The constructors of
//! `Spdu` make the units that a session sends.
//!
//! The laws ([`mod@laws`]) say that reading is sound and complete, which fault a bad TSDU has, and that what is written
//! reads back. The crate `osi_message` says what the units mean, and `osi_session` what a side does with them.
#![tactic(auto)]

mod behind;
mod codes;
mod faults;
mod fields;
mod grammar;
mod groups;
mod kinds;
pub mod laws;
mod levels;
mod making;
mod octets;
mod params;
mod readers;
mod reading;
mod requirements;
mod selectors;
mod serials;
mod settings;
mod sizes;
mod tokens;
mod units;
mod writing;

pub use behind::Behind;
pub use codes::Code;
pub use faults::SpduFault;
pub use fields::{Enclosure, Reason, ResyncType, SyncType, TsduMaximumSize};
pub use groups::Group;
pub use kinds::{Category, Kind};
pub use making::Terms;
pub use octets::Value;
pub use params::Params;
pub use reading::{read_group, read_tsdu};
pub use requirements::Requirements;
pub use selectors::Selector;
pub use serials::Serial;
pub use settings::{Side, TokenSetting, Wish};
pub use sizes::{TsduSize, TsduSizes};
pub use tokens::TokenSet;
pub use units::Spdu;
pub use writing::{write_tsdu, written_len};
