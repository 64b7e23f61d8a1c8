//! The units of the transport protocol of X.224, classes 0 and 2 (TPDUs), as octets: what they mean, how they are read
//! from a packet, and the one spelling in which each is written.
//!
//! [`read_units`] reads the transport units of one packet, and gives them one by one as [`Tpdu`]s. It borrows the
//! packet and allocates nothing. [`write`] appends one unit to a buffer.
//!
//! ```text
//! for unit in read_units(packet)? {              // Err: the first fault, and its offset
//!     match unit {
//!         Tpdu::Cr(request) => ..,               // request.fields().source(), .parameters()
//!         Tpdu::Dt2(data) => ..,                 // data.number(), data.end(), data.user()
//!         _ => ..,
//!     }
//! }
//! ```
//!
//! A packet that holds a single DT or AK has a fast path: `from_packet` and `write_packet` of [`DataClass0`],
//! [`DataClass2`] and [`DataAcknowledgement`]. [`SizeCode`], [`Window`] and [`Tsap`] are small types with the ranges
//! of the standard.
//!
//! The laws ([`mod@laws`]) say that reading is sound and complete, which fault a bad unit has, and that what is written
//! reads back. Negotiation and credit are left to `osi_class`, references to `osi_carrier`.
#![tactic(auto)]

mod acknowledgement;
mod connect;
mod connect_confirm;
mod connect_request;
mod data_class_0;
mod data_class_2;
mod disconnect_confirm;
mod disconnect_request;
mod faults;
mod grammar;
mod known;
mod known_parameters;
pub mod laws;
mod limits;
mod octets;
mod packet;
mod parameters;
mod plain;
mod reading;
mod report;
mod tsaps;
mod unit;
mod writing;

pub use acknowledgement::DataAcknowledgement;
pub use connect::{ConnectFields, ConnectParameters};
pub use connect_confirm::ConnectConfirm;
pub use connect_request::ConnectRequest;
pub use data_class_0::DataClass0;
pub use data_class_2::DataClass2;
pub use disconnect_confirm::DisconnectConfirm;
pub use disconnect_request::DisconnectRequest;
pub use faults::TpduFault;
pub use limits::{SizeCode, Window};
pub use packet::{Units, read_units};
pub use report::ErrorReport;
pub use tsaps::{Selector, Tsap};
pub use unit::Tpdu;
pub use writing::{write, written_len};
