//! Why a judge of a whole byte connection never blames an end of this library first, in either class and with any number of
//! connections; and what it means that a judge blames nobody. The crate has definitions and laws; nothing here runs.
//!
//! | Laws | What they say |
//! |---|---|
//! | [`laws::ends`] | what an end puts on the byte connection and takes from it, connection by connection |
//! | [`laws::transport`] | no unit that an end puts breaks a rule of transport, wherever the capture is taken |
//! | [`laws`] | so a judge of its octets blames neither its transport nor its sessions first, nor after a break of the other side |
//! | [`laws::bounded`] | nor does a judge with a bound for each connection |
//! | [`laws::printed`] | nothing that `osi judge` prints blames an end |
//! | [`laws::accord`] | two sides that are told as kept are two sessions that make what passed |
//!
//! Below it stand `osi_stack`, which says what an end is after octets and calls, `osi_rules` and `osi_side`, which say what the rules find
//! of each unit and which runs of a session explain what a side sent, and `osi_judge`, which says what a capture comes to, octet by octet.
//! Definitions and proofs have a folder for each of these subjects, and `proofs/Lib.antt` is the map of the proofs in reading order.
#![tactic(auto)]

pub mod laws;
