//! Events reach a session: the carrier gets what the session sends, and its user what it indicates.

ghost use Rattle.std.specs.Prelude.{◌≡◌, [], ◌∷◌, None, Some, true, false, ◌<◌, ◌≤◌, ◌+◌, ◌++◌, map, length, IfOk, OnOk, OnErr};
ghost use Rattle.std.specs.Vec.{vec_len};
ghost use Rattle.osi_session.specs.Listening.{came, react};
ghost use Rattle.osi_session.specs.Sessions.{Takes};
ghost use Rattle.osi_session.specs.Shown.{shown_by};
ghost use Rattle.osi_stack.specs.Events.{event_input};
ghost use Rattle.osi_stack.specs.Moving.{limit_for, answers};
ghost use Rattle.osi_stack.specs.Needs.{session_needs};
ghost use Rattle.osi_stack.specs.Selectors.{is_connect, shows_connect};

use crate::events::SessionEvent;
use crate::pending::Pending;
use crate::transport::answer;
use osi_carrier::Carrier;
use osi_session::{Expected, Indication, Session, Taken};
use std::alloc::{AllocError, Global};

/// The effect of an event for which a session has at most one indication, sends nothing and closes nothing.
fn quiet_effect(alloc: Global, shown: Option<Indication>) -> Taken
    ensures first { result.first ≡ shown }
    ensures more { result.more.items ≡ [] }
    ensures reply { result.reply ≡ None }
    ensures closes { result.closes ≡ false }
{
    Taken {
        first: shown,
        more: Vec::new(alloc),
        reply: None,
        closes: false,
    }
}

/// The effect of an event on a session. A TSDU goes to the general reader, and is not tried as one that is expected.
/// An allocation failure changes nothing.
fn take_event(
    alloc: Global,
    session: &mut Session,
    event: &SessionEvent<'_>,
) -> Result<Taken, AllocError>
    ensures { Takes result (react session.old (event_input event.now)) session.old session.new }
{
    match event {
        SessionEvent::Opened => Ok(Taken {
            reply: session.opened(),
            ..quiet_effect(alloc, None)
        }),
        SessionEvent::Refused(reason) => Ok(quiet_effect(alloc, session.refused(*reason))),
        SessionEvent::Tsdu(tsdu) => session.take_unexpected(tsdu.as_slice()),
        SessionEvent::Lent(tsdu) => session.take_unexpected(tsdu),
        SessionEvent::Lost => Ok(quiet_effect(alloc, session.broken())),
    }
}

/// Whether this indicates that a connection is requested.
fn is_connect(shown: &Indication) -> bool
    ensures { result ≡ is_connect (shown_by shown.now) }
{
    matches!(shown, Indication::Connect { .. })
}

/// A session handles any event, a TSDU as one that is not expected; returns whether it indicates that a connection is requested.
/// There is room for one pending indication, and afterwards for one more. Memory is needed only if something is indicated, sent
/// or joined, or a DR is written; an allocation failure leaves the pending indications and the carrier unchanged. The function is
/// kept out of line: otherwise stack space for everything that it may do would be reserved on the data path, too.
#[inline(never)]
pub fn handle_event(
    alloc: Global,
    session: &mut Session,
    waiting: &mut Pending<Indication>,
    event: &SessionEvent<'_>,
    carrier: &mut Carrier,
    reference: u16,
) -> Result<bool, AllocError>
    requires { 0 < waiting.old.room }
    ensures connects { IfOk result (λ b. b ≡ shows_connect (react session.old (event_input event.now)).shown) }
    ensures session { OnOk result (session.new ≡ (react session.old (event_input event.now)).next) }
    ensures shown { OnOk result (map shown_by waiting.new.items ≡ map shown_by waiting.old.items
        ++ (react session.old (event_input event.now)).shown) }
    ensures room { OnOk result (0 < waiting.new.room) }
    ensures carrier { OnOk result (carrier.new
        ≡ record carrier.old {
          state = answers reference (limit_for session.old (event_input event.now))
              (react session.old (event_input event.now)) carrier.old.state;
        }) }
    ensures kept { OnErr result (waiting.new.items ≡ waiting.old.items) }
    ensures spare { OnErr result (waiting.old.room ≤ waiting.new.room) }
    ensures err { OnErr result (carrier.new ≡ carrier.old) }
    ensures needed { OnErr result (session_needs reference (Some session.old) (event_input event.now) carrier.old.state ≡ true) }
{
    let Taken {
        first,
        more,
        reply,
        closes,
    } = take_event(alloc, session, event)?;
    let Some(first) = first else {
        answer(carrier, reference, reply, closes)?;
        return Ok(false);
    };
    let Ok(()) = waiting.reserve(more.len() + 2) else {
        drop(first);
        return Err(AllocError);
    };
    let Ok(()) = answer(carrier, reference, reply, closes) else {
        drop(first);
        return Err(AllocError);
    };
    let connects = is_connect(&first);
    waiting.push_all(first, more);
    Ok(connects)
}

/// A session handles a TSDU that is neither whole data nor a point that it expects: it is tried as a part of one Data or as a
/// brief message, which is the fast path, and any other goes to the general reader. Returns whether it indicates that a
/// connection is requested. There is room for one pending indication, and afterwards for one more. Memory is needed only if
/// something is indicated, sent or joined, or a DR is written; an allocation failure leaves the pending indications and the
/// carrier unchanged.
pub fn handle_tsdu(
    alloc: Global,
    session: &mut Session,
    waiting: &mut Pending<Indication>,
    tsdu: &[u8],
    carrier: &mut Carrier,
    reference: u16,
) -> Result<bool, AllocError>
    requires { 0 < waiting.old.room }
    ensures connects { IfOk result (λ b. b ≡ shows_connect (react session.old (came tsdu.now)).shown) }
    ensures session { OnOk result (session.new ≡ (react session.old (came tsdu.now)).next) }
    ensures shown { OnOk result (map shown_by waiting.new.items ≡ map shown_by waiting.old.items
        ++ (react session.old (came tsdu.now)).shown) }
    ensures room { OnOk result (0 < waiting.new.room) }
    ensures carrier { OnOk result (carrier.new
        ≡ record carrier.old {
          state = answers reference (limit_for session.old (came tsdu.now))
              (react session.old (came tsdu.now)) carrier.old.state;
        }) }
    ensures kept { OnErr result (waiting.new.items ≡ waiting.old.items) }
    ensures spare { OnErr result (waiting.old.room ≤ waiting.new.room) }
    ensures err { OnErr result (carrier.new ≡ carrier.old) }
    ensures needed { OnErr result (session_needs reference (Some session.old) (came tsdu.now) carrier.old.state ≡ true) }
{
    match session.take_plain(tsdu)? {
        Expected::Shown(indication) => {
            let connects = is_connect(&indication);
            let Ok(()) = waiting.reserve(2) else {
                drop(indication);
                return Err(AllocError);
            };
            waiting.push(indication);
            return Ok(connects);
        }
        Expected::Joined => return Ok(false),
        Expected::Other => (),
    }
    let event = SessionEvent::Lent(tsdu);
    handle_event(alloc, session, waiting, &event, carrier, reference)
}
