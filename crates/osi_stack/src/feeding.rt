//! The octets of the stream.

ghost use Rattle.std.specs.Prelude.{◌≡◌, ◌<◌, ◌≤◌, [], false, length, OnOk, OnErr};
ghost use Rattle.osi_carrier.specs.Packets.{waits};
ghost use Rattle.osi_stack.specs.Attending.{FeedsToEvent, LeftOff};
ghost use Rattle.osi_stack.specs.Feeding.{Goes, stops};
ghost use Rattle.osi_stack.specs.Hearing.{hears_all};
ghost use Rattle.osi_stack.specs.State.{IsAttended, holding};

use crate::dispatching::{dispatch_event, starve};
use crate::events::SessionEvent;
use crate::lines::Lines;
use osi_carrier::Carrier;
use osi_tpkt::laws::a_prefix_of_a_packet;
use std::alloc::{AllocError, Global};

/// The sessions handle all events of the carrier, the oldest first. If memory runs out for one, those after it stay. The
/// function is kept out of line: a TSDU that is lent causes no event, and an AK none either.
#[inline(never)]
fn hear_events(alloc: Global, carrier: &mut Carrier, lines: &mut Lines) -> Result<(), AllocError>
    ensures ok { OnOk result ((holding carrier.new lines.new).end ≡ hears_all (holding carrier.old lines.old).end) }
    ensures none { OnOk result (carrier.new.state.events ≡ []) }
    ensures held { carrier.new.held ≡ carrier.old.held }
    ensures err { OnErr result (LeftOff (holding carrier.old lines.old).end (holding carrier.new lines.new).end) }
{
    'events: while let Some(event) = carrier.next_event() {
        dispatch_event(alloc, carrier, lines, event)?;
    }
    Ok(())
}

/// The sessions handle the events of the carrier, if there are any.
#[inline(always)]
fn hear_waiting(
    alloc: Global,
    carrier: &mut Carrier,
    lines: &mut Lines,
    some: bool,
) -> Result<(), AllocError>
    requires { some ≡ waits carrier.old.state }
    ensures ok { OnOk result ((holding carrier.new lines.new).end ≡ hears_all (holding carrier.old lines.old).end) }
    ensures none { OnOk result (carrier.new.state.events ≡ []) }
    ensures held { carrier.new.held ≡ carrier.old.held }
    ensures err { OnErr result (LeftOff (holding carrier.old lines.old).end (holding carrier.new lines.new).end) }
{
    if !some {
        return Ok(());
    }
    hear_events(alloc, carrier, lines)
}

/// Feeds octets up to those that caused an event of the carrier, and the sessions handle it, the oldest event first. A
/// TSDU that lies within the octets goes to its session straight from them. If the carrier has ended by then, all sessions
/// are lost. Returns how many octets were used.
fn feed_to_event(alloc: Global, carrier: &mut Carrier, lines: &mut Lines, octets: &[u8]) -> usize
    ensures { FeedsToEvent (holding carrier.old lines.old) octets.now result (holding carrier.new lines.new) }
{
    let told = carrier.feed_lent(octets);
    let heard = match told.lent {
        None => hear_waiting(alloc, carrier, lines, told.fed.whole),
        Some(lent) => lines.tell(
            alloc,
            lent.reference.0,
            SessionEvent::Lent(lent.octets),
            carrier,
        ),
    };
    let Ok(()) = heard else {
        starve(carrier, lines);
        return octets.len();
    };
    if carrier.ended().is_some() {
        lines.lose_all();
    }
    told.fed.used
}

/// Feeds a piece up to a packet that caused an indication, or all of it, and returns how many octets were used.
pub fn feed_to_indication(
    alloc: Global,
    carrier: &mut Carrier,
    lines: &mut Lines,
    piece: &[u8],
) -> usize
    requires quiet { stops (holding carrier.old lines.old).end ≡ false }
    requires attended { IsAttended (holding carrier.old lines.old).end }
    ensures goes { Goes (holding carrier.old lines.old) piece.now result (holding carrier.new lines.new) }
    ensures attended { IsAttended (holding carrier.new lines.new).end }
    ensures used { result ≤ length piece.now }
    ensures progress { 0 < length piece.now → 0 < result }
    ensures empty { piece.now ≡ [] → (result ≡ 0) × (holding carrier.new lines.new ≡ holding carrier.old lines.old) }
{
    a_prefix_of_a_packet();
    if piece.is_empty() {
        return carrier.feed(piece).used;
    }
    let mut rest = piece;
    'packets: loop {
        let used = feed_to_event(alloc, carrier, lines, rest);
        let (_, behind) = rest.split_at(used);
        rest = behind;
        if lines.wait() {
            return piece.len() - rest.len();
        }
        if carrier.ended().is_some() {
            return piece.len();
        }
        if rest.is_empty() {
            return piece.len();
        }
    }
}
