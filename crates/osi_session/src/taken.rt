//! The effect of a TSDU.

ghost use Rattle.std.specs.Prelude.{◌≡◌, [], None, false};

use crate::indications::Indication;
use osi_message::Sent;
use std::alloc::Global;

/// The effect of a TSDU apart from the new state: the indications in order, at most one for each unit; at most one TSDU
/// to send; and whether the transport connection is closed, with reason 128.
#[derive(Drop)]
pub struct Taken {
    /// The first indication.
    pub first: Option<Indication>,
    /// The indications after it, in order, at most 16.
    pub more: Vec<Indication>,
    /// The TSDU to send.
    pub reply: Option<Sent>,
    /// Whether the transport connection is closed.
    pub closes: bool,
}

impl Taken {
    /// At most one indication, and nothing is sent.
    #[inline(always)]
    pub(crate) fn showing(alloc: Global, first: Option<Indication>) -> Taken
        ensures first { result.first ≡ first }
        ensures more { result.more.items ≡ [] }
        ensures others { (result.reply ≡ None) × (result.closes ≡ false) }
    {
        Taken {
            first,
            more: Vec::new(alloc),
            reply: None,
            closes: false,
        }
    }
}
