//! What a line of a script asks for.

ghost use Rattle.std.specs.Prelude.{◌≡◌};
ghost use Rattle.osi_script.specs.Commands.{has_class_0, has_class_2};

use crate::sides::Side;
use osi_class::Local;
use osi_session::Request;
use osi_spdu::{Requirements, Serial, TokenSetting, TsduSizes};
use osi_tpdu::{SizeCode, Window};

/// The classes of the transport protocol that an end supports (X.224 section 5.4).
#[derive(Clone, Copy)]
pub enum Classes {
    /// Only class 0.
    Zero,
    /// Only class 2.
    Two,
    /// Both; class 2 is preferred.
    Both,
}

impl Classes {
    /// An end that supports these classes.
    pub fn local(self, size: SizeCode, window: Window) -> Local
        ensures class0 { result.class0 ≡ has_class_0 self }
        ensures class2 { result.class2 ≡ has_class_2 self }
        ensures size { result.size ≡ size }
        ensures window { result.window ≡ window }
    {
        Local {
            class0: matches!(self, Classes::Zero | Classes::Both),
            class2: matches!(self, Classes::Two | Classes::Both),
            size,
            window,
        }
    }
}

/// A line of a script, by what it asks for.
#[derive(Clone, Copy)]
pub enum Command<'a> {
    /// Declares the two ends; the left one calls.
    Ends {
        /// The classes of the left end.
        caller: Classes,
        /// The classes of the right end.
        called: Classes,
        /// The largest TPDU size of both ends.
        size: SizeCode,
        /// The window of both ends.
        window: Window,
    },
    /// The left end requests a connection.
    Connect {
        /// The functional units that are offered.
        requirements: Requirements,
        /// The number of the first synchronization point.
        serial: Serial,
        /// The side wished for as the holder of each token.
        wishes: TokenSetting,
        /// The largest TSDU that each side sends, in octets.
        sizes: TsduSizes,
        /// User data.
        user_data: &'a [u8],
    },
    /// A call of the user of one connection.
    Call {
        /// The side of the user.
        side: Side,
        /// The connection.
        reference: u16,
        /// What is asked for.
        request: Request<'a>,
    },
    /// Carries octets that a side has sent to the other side.
    Carry {
        /// The side that has sent them.
        side: Side,
        /// The number of octets, or all if there are fewer.
        octets: u32,
    },
    /// Breaks the connection of the two ends.
    Break {
        /// How many octets of the left side still arrive.
        left: u32,
        /// How many octets of the right side still arrive.
        right: u32,
    },
    /// Tells a side of the break.
    Told {
        /// The side.
        side: Side,
    },
}
