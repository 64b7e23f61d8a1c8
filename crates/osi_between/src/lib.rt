//! Two carriers and the octets between them: what is in flight for each connection, and why neither carrier ends
//! because of what the other wrote. The crate has definitions and laws; nothing here runs.
//!
//! Read it for the transport half of the promises about two ends. It answers one question: if both ends of a byte
//! connection are carriers of this library, what can happen to them? Calls are made at both, octets are handed over in
//! whatever pieces, packets are taken, an end ends, the byte connection breaks, in any order.
//!
//! - `AreBetween` (`specs/Between.antt`) is the invariant. It holds of two new carriers, and every step keeps it:
//!   [`laws::whatever_becomes_of_two_carriers`].
//! - A `Message` (`specs/Messages.antt`) is what is in flight for one connection: a request, an agreement, a refusal, a
//!   whole TSDU, a close or its answer. Units and octets are read as messages.
//! - A `Move` (`specs/Journey.antt`) is one thing that can happen. Over every list of moves, the TSDUs reported at one
//!   end are a prefix of those handed in at the other: [`laws::what_no_list_of_calls_can_do`].
//!
//! Class 2, class 0 and refused connections have a file each (`Joined`, `Zero`, `Refusing`), and `Terms` says which of
//! them two carriers agree on. What sessions do with the TSDUs is left to `osi_machine`, both together to `osi_pair`.
#![tactic(auto)]

pub mod laws;
