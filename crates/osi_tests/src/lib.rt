//! Tests over the public items of the crates of an end, of listings and of judges: cases that no file of `osi_runs`
//! shows, and that calls succeed if memory is ample.
//!
//! Each function here is proved, which takes seconds whatever it does; the files of `osi_runs` cost no proof. So a
//! dialogue of two ends is a script there; an end's answer to octets, or a session unit that is written again, is a
//! file of octets; a listing is a capture. A test of a link or a carrier is a list of steps, each with what is asked
//! and what is expected. Functions return nothing: they report to a `Checks` what is not as it should be, since each `?`
//! is a way out, and costs a proof as much as some calls. A link, a carrier, a session, a judge, a lister or a trace has many
//! parts: the few functions that own one hand it to `drop` at their end or have one way out, and all others borrow it. Long
//! lists are statics, since a constant is built again in each proof that uses it. The modules:
//!
//! - `checks`: what a test finds, and TSDUs for all;
//! - `packets`: a packet that arrives octet by octet, the generic reader and writer, the bounds of a packet;
//! - `transport_units`, `session_units`: how units are written, sets, bounds, units that are made;
//! - `links`: credit, numbers that wrap around, the longest TSDU;
//! - `carriers`: an end of neither class, all references, sending if nothing is open, long lists and backlogs;
//! - `sending`: what the tests of carriers send;
//! - `lending`: TSDUs that a carrier lends, and those that it gives as events;
//! - `rules`: which units break a rule of transport, row by row;
//! - `listings`: TSDUs of 1,048,576 octets and more, and traces;
//! - `sessions`: plans, the greatest lengths of user data, a first part that is too long;
//! - `stacks`: a selector that is too long, a called end that asks for a connection, two connections distinguished by
//!   the address they ask for, one of which is given up;
//! - `sides`: what is found of one side;
//! - `captures`: which side first broke the protocol; the longest TSDU;
//! - `judges`: what a bound counts; long TSDUs and pieces, many units in a packet, and many connections.
//!
//! A public function that allocates is called here, or in a file of `osi_runs`.
#![tactic(auto)]

#[cfg(test)]
mod captures;
#[cfg(test)]
mod carriers;
#[cfg(test)]
mod checks;
#[cfg(test)]
mod judges;
#[cfg(test)]
mod lending;
#[cfg(test)]
mod links;
#[cfg(test)]
mod listings;
#[cfg(test)]
mod packets;
#[cfg(test)]
mod rules;
#[cfg(test)]
mod sending;
#[cfg(test)]
mod session_units;
#[cfg(test)]
mod sessions;
#[cfg(test)]
mod sides;
#[cfg(test)]
mod stacks;
#[cfg(test)]
mod transport_units;
