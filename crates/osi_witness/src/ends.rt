//! The two ends that play a script.

use crate::{Capture, Conversation};
use osi_script::Classes;
use osi_tpdu::{SizeCode, Window};

/// Two ends, the left of which calls.
#[derive(Clone, Copy)]
pub(crate) struct Ends {
    pub(crate) caller: Classes,
    pub(crate) called: Classes,
    pub(crate) size: SizeCode,
    pub(crate) window: Window,
    /// The right end refuses a CR.
    pub(crate) refuses: bool,
}

/// The size of a CR or CC without one: 128 octets.
fn least_size() -> SizeCode {
    match SizeCode::new(7) {
        Some(size) => size,
        None => unreachable!(),
    }
}

/// The window of both ends in class 0, where it matters only to the octets of the CR; 4 if the CR gives no credit.
fn window_of(credit: u8) -> Window {
    match Window::new(credit) {
        Some(window) => window,
        None => usual_window(),
    }
}

fn usual_window() -> Window {
    match Window::new(4) {
        Some(window) => window,
        None => unreachable!(),
    }
}

/// The TPDU size of both ends in class 2, so that most data is in one unit: 8,192 octets.
fn largest_size() -> SizeCode {
    match SizeCode::new(13) {
        Some(size) => size,
        None => unreachable!(),
    }
}

/// The window of both ends in class 2, so that most units may be on their way.
fn widest_window() -> Window {
    match Window::new(15) {
        Some(window) => window,
        None => unreachable!(),
    }
}

/// The classes of an end that calls with this CR.
fn caller_of(request: &Conversation) -> Classes {
    if request.request.class == 0 {
        return Classes::Zero;
    }
    if request.request.offers_class_0 {
        return Classes::Both;
    }
    Classes::Two
}

/// The classes of an end that refuses what the caller asks for.
fn refusing(caller: Classes) -> Classes {
    match caller {
        Classes::Zero => Classes::Two,
        Classes::Two | Classes::Both => Classes::Zero,
    }
}

/// The classes of an end that accepts what the caller asks for.
fn accepting(caller: Classes) -> Classes {
    match caller {
        Classes::Zero | Classes::Both => Classes::Zero,
        Classes::Two => Classes::Two,
    }
}

/// The TPDU size that the answer to a CR names, or the CR.
fn size_of(request: &Conversation) -> SizeCode {
    let named = match request.answer {
        Some(answer) => answer.size,
        None => None,
    };
    named.or(request.request.size).unwrap_or(least_size())
}

/// The two ends of a capture that was accepted in a class.
fn ends_in_class(class: u8, accepted: &Conversation) -> Ends {
    let caller = caller_of(accepted);
    if class == 2 {
        return Ends {
            caller,
            called: Classes::Two,
            size: largest_size(),
            window: widest_window(),
            refuses: false,
        };
    }
    Ends {
        caller,
        called: Classes::Zero,
        size: size_of(accepted),
        window: window_of(accepted.request.credit),
        refuses: false,
    }
}

/// The two ends of a capture in which no connection was accepted, and this is the first.
fn ends_before(first: &Conversation) -> Ends {
    let caller = caller_of(first);
    let refuses = first.is_refused() && !matches!(caller, Classes::Both);
    Ends {
        caller,
        called: if refuses {
            refusing(caller)
        } else {
            accepting(caller)
        },
        size: size_of(first),
        window: window_of(first.request.credit),
        refuses,
    }
}

/// The two ends of a capture whose first connection is this.
pub(crate) fn ends_of(capture: &Capture, first: &Conversation) -> Ends {
    let Some(accepted) = capture.accepted() else {
        return ends_before(first);
    };
    match accepted.class() {
        Some(class) => ends_in_class(class, accepted),
        None => ends_before(first),
    }
}
