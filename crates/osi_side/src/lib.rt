//! One side of one session (X.225), judged by what it sent: whether some session explains all of it, and if not, with
//! which of its TSDUs the first break is. It only observes: it has no key, no clock and no end of its own.
//!
//! Two ends don't understand each other, and each vendor blames the other. A capture of their connection shows the TSDUs
//! of both sides, but not when a side took what the other had sent. So a TSDU of the other side counts as taken or not,
//! whichever helps the side that is judged; but only if it had passed before the first octet of the TSDU in question.
//!
//! A [`Side`] keeps the states of all sessions that still explain what the side sent. You give it the TSDUs of the other
//! side and its own, in the order in which they passed:
//!
//! ```text
//! let mut side = Side::called(alloc)?;
//! side.hear(connect)?;                  // a CN of the side that calls passes
//! side.tell(accept, 1)?;                // an AC of this side, before which one TSDU of the other had passed
//! match side.finding() {
//!     Finding::Kept => {}               // a session explains what it sent so far: side.stands() has its state
//!     Finding::Broke(at) => {}          // its TSDU `at` breaks the protocol: side.by() has the rule
//!     Finding::Left(at) => {}           // X.225 allows it, and no session of this library sends it
//!     Finding::TooMany => {}            // too many sessions explain it, so it is judged no further
//! }
//! ```
//!
//! Of the TSDUs of the other side only outlines are kept: a TSDU without its user data. Equal ones in a row are kept once.
//!
//! The laws ([`mod@laws`]) say that an honest session is always explained, so that an honest side is never blamed.
//! What a side leaves to others: which TSDUs of a byte connection are of which session, and how many had passed
//! (`osi_judge`), finding the byte connection in a network capture (`osi-capture`), and the text of the verdict
//! (`osi_report`).
#![tactic(auto)]

mod directions;
mod findings;
mod first_places;
mod heard;
pub mod laws;
mod left_out;
mod members;
mod outlines;
mod profiles;
mod readings;
mod restarts;
mod rules;
mod sides;
mod standings;
mod straight;
mod telling;
mod walks;

pub use directions::Direction;
pub use findings::Finding;
pub use members::Member;
pub use readings::Reading;
pub use rules::{Break, Rule};
pub use sides::{Side, TellError};
pub use standings::Stands;
