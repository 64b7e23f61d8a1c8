//! Session selectors (X.225 section 8, connect): one held inline, and the two that a CN names.

ghost use Rattle.std.specs.Prelude.{◌≡◌, ◌≤◌, None, length, option_map};
ghost use Rattle.osi_message.specs.Meanings.{meant_by, selector_octets};
ghost use Rattle.osi_session.specs.Listening.{came};

use crate::events::SessionEvent;
use osi_message::Message;
use osi_spdu::{Selector, read_tsdu};

/// A session selector held inline, without an allocation: the address of a session user, 0 to 16 octets.
#[derive(Clone, Copy)]
pub struct SessionSelector {
    octets: [u8; 16],
    len: usize,
    pub ghost at_most: { len ≤ 16 },
}

impl SessionSelector {
    ghost use Rattle.osi_stack.specs.Selectors.{session_selector};

    /// The selector with these octets, at most 16.
    pub(crate) fn new(octets: &[u8]) -> Self
        requires { length octets.now ≤ 16 }
        ensures { session_selector result ≡ octets.now }
    {
        let len = octets.len();
        let mut held = [0; 16];
        held[..len].copy_from_slice(octets);
        SessionSelector { octets: held, len }
    }

    /// The octets of the selector, at most 16.
    pub fn octets(&self) -> &[u8]
        ensures value { result.now ≡ session_selector self.now }
        ensures at_most { length result.now ≤ 16 }
    {
        &self.octets[..self.len]
    }
}

/// The session selectors that a CN names.
#[derive(Clone, Copy)]
pub struct SessionSelectors {
    /// The address of the requesting user.
    pub calling: Option<SessionSelector>,
    /// The address of the requested user.
    pub called: Option<SessionSelector>,
}

impl SessionSelectors {
    ghost use Rattle.osi_stack.specs.Events.{event_input};
    ghost use Rattle.osi_stack.specs.Selectors.{session_selector, session_selectors, selectors_of, selectors_told};

    /// A selector held inline.
    fn held(selector: Option<Selector<'_>>) -> Option<SessionSelector>
        ensures { option_map session_selector result ≡ selector_octets selector.entry }
    {
        match selector {
            None => None,
            Some(selector) => Some(SessionSelector::new(selector.octets)),
        }
    }

    /// The two selectors.
    pub fn of(calling: Option<Selector<'_>>, called: Option<Selector<'_>>) -> Self
        ensures calling { (session_selectors result).calling ≡ selector_octets calling.entry }
        ensures called { (session_selectors result).called ≡ selector_octets called.entry }
    {
        SessionSelectors {
            calling: SessionSelectors::held(calling),
            called: SessionSelectors::held(called),
        }
    }

    /// Those that a unit names.
    fn of_unit(unit: &Message<'_>) -> Option<Self>
        ensures { option_map session_selectors result ≡ selectors_of (meant_by unit.now) }
    {
        match unit {
            Message::Connect {
                calling,
                called,
                ..
            } => Some(SessionSelectors::of(*calling, *called)),
            _ => None,
        }
    }

    /// Those of a CN that was received as a TSDU.
    fn of_tsdu(tsdu: &[u8]) -> Option<Self>
        ensures { option_map session_selectors result ≡ selectors_told (came tsdu.now) }
    {
        match read_tsdu(tsdu) {
            Ok(group) => SessionSelectors::of_unit(&Message::of(group.first())),
            Err(_) => None,
        }
    }

    /// Those of an event of a session.
    pub fn of_event(event: &SessionEvent<'_>) -> Option<Self>
        ensures { option_map session_selectors result ≡ selectors_told (event_input event.now) }
    {
        match event {
            SessionEvent::Tsdu(tsdu) => SessionSelectors::of_tsdu(tsdu.as_slice()),
            SessionEvent::Lent(tsdu) => SessionSelectors::of_tsdu(tsdu),
            SessionEvent::Opened | SessionEvent::Refused(_) | SessionEvent::Lost => None,
        }
    }
}
