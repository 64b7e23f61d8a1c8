//! The events that the carrier reports, and what happens to the sessions if memory runs out for an event.

ghost use Rattle.std.specs.Prelude.{◌≡◌, OnOk, OnErr, true};
ghost use Rattle.osi_carrier.specs.Happenings.{happening};
ghost use Rattle.osi_carrier.specs.Rows.{value_at};
ghost use Rattle.osi_session.specs.Sessions.{awaits};
ghost use Rattle.osi_stack.specs.Attending.{Interrupted};
ghost use Rattle.osi_stack.specs.Events.{event_input};
ghost use Rattle.osi_stack.specs.Hearing.{opens, hears, starves};
ghost use Rattle.osi_stack.specs.Moving.{to_session};
ghost use Rattle.osi_stack.specs.Needs.{input_needs, opening_needs, needs_memory};
ghost use Rattle.osi_stack.specs.State.{holding, joins};

use crate::events::SessionEvent;
use crate::lines::{Line, Lines, room};
use osi_carrier::{Carrier, Event, Ref};
use osi_session::Session;
use std::alloc::{AllocError, Global};

/// A connection that was opened and not requested here gets a new session.
fn add_called_session(
    alloc: Global,
    carrier: &Carrier,
    lines: &mut Lines,
    reference: u16,
) -> Result<(), AllocError>
    ensures ok { OnOk result ((holding carrier.now lines.new).end ≡ joins reference awaits (holding carrier.now lines.old).end) }
    ensures err { OnErr result (lines.new ≡ lines.old) }
{
    let waiting = room(alloc)?;
    let session = Session::called(alloc);
    lines.push(Line::new(reference, session, waiting, None))?;
    lines.sweep(carrier);
    Ok(())
}

/// The session of a reference handles an event.
fn tell_session(
    alloc: Global,
    carrier: &mut Carrier,
    lines: &mut Lines,
    reference: Ref,
    session_event: SessionEvent<'_>,
) -> Result<(), AllocError>
    ensures ok { OnOk result ((holding carrier.new lines.new).end
        ≡ to_session reference.0 (event_input session_event.entry) (holding carrier.old lines.old).end) }
    ensures held { carrier.new.held ≡ carrier.old.held }
    ensures err { OnErr result (Interrupted (holding carrier.old lines.old).end (holding carrier.new lines.new).end) }
    ensures needed { OnErr result (input_needs reference.0 (event_input session_event.entry) (holding carrier.old lines.old).end ≡ true) }
{
    lines.tell(alloc, reference.0, session_event, carrier)
}

/// A connection was opened.
fn open_session(
    alloc: Global,
    carrier: &mut Carrier,
    lines: &mut Lines,
    reference: Ref,
) -> Result<(), AllocError>
    ensures ok { OnOk result ((holding carrier.new lines.new).end
        ≡ opens reference.0 (value_at reference.0 lines.old) (holding carrier.old lines.old).end) }
    ensures held { carrier.new.held ≡ carrier.old.held }
    ensures err { OnErr result (Interrupted (holding carrier.old lines.old).end (holding carrier.new lines.new).end) }
    ensures needed { OnErr result (opening_needs reference.0 (holding carrier.old lines.old).end ≡ true) }
{
    if lines.has(reference.0) {
        return tell_session(alloc, carrier, lines, reference, SessionEvent::Opened);
    }
    add_called_session(alloc, carrier, lines, reference.0)
}

/// The effect of an event. The function is kept out of line: a TSDU, which is more frequent, goes straight to
/// [`Lines::tell`].
#[inline(never)]
pub fn dispatch_event(
    alloc: Global,
    carrier: &mut Carrier,
    lines: &mut Lines,
    event: Event,
) -> Result<(), AllocError>
    ensures ok { OnOk result ((holding carrier.new lines.new).end ≡ hears (happening event) (holding carrier.old lines.old).end) }
    ensures held { carrier.new.held ≡ carrier.old.held }
    ensures err { OnErr result (Interrupted (holding carrier.old lines.old).end (holding carrier.new lines.new).end) }
    ensures needed { OnErr result (needs_memory (happening event) (holding carrier.old lines.old).end ≡ true) }
{
    match event {
        Event::Opened(reference) => open_session(alloc, carrier, lines, reference),
        Event::Refused(reference, reason) => {
            tell_session(
                alloc,
                carrier,
                lines,
                reference,
                SessionEvent::Refused(reason),
            )
        }
        Event::Tsdu(reference, tsdu) => tell_session(
            alloc,
            carrier,
            lines,
            reference,
            SessionEvent::Tsdu(tsdu),
        ),
        Event::Closed(reference, _) | Event::Faulted(reference, _) => {
            tell_session(alloc, carrier, lines, reference, SessionEvent::Lost)
        }
    }
}

/// Memory ran out for something that the carrier reported: the carrier ends, and all sessions are lost.
pub fn starve(carrier: &mut Carrier, lines: &mut Lines)
    ensures { holding carrier.new lines.new ≡ record (holding carrier.old lines.old) { end = starves (holding carrier.old lines.old).end } }
{
    carrier.starved();
    lines.lose_all();
}
