//! Requests of users consist of octets, and of numbers that a point may have. Each function does nothing.

ghost use Rattle.std.specs.Prelude.{◌≤◌, length, IfSome, option_map};
ghost use Rattle.osi_unit.specs.Octets.{IsOctets};
ghost use Rattle.osi_tpdu.specs.Limits.{tsap_octets};
ghost use Rattle.osi_between.specs.Course.{IsTsap};
ghost use Rattle.osi_session.specs.Allowed.{octets_of};
ghost use Rattle.osi_session.specs.Calls.{HasSerial, called_by};
ghost use Rattle.osi_pair.specs.Advancing.{CanHappen};
ghost use Rattle.osi_pair.specs.Asked.{CanBeAsked};

use crate::events::Event;
use crate::owned::user_data;
use osi_session::Request;
use osi_stack::Connect;
use osi_tpdu::Tsap;
use osi_tpkt::laws::are_octets;

/// A session address, if one is given, consists of octets.
fn some_are_octets(octets: Option<&[u8]>)
    ensures { IfSome (option_map (λ s. s.now) octets.entry) IsOctets }
{
    if let Some(octets) = octets {
        are_octets(octets);
    }
}

/// A transport address has at most 32 octets.
fn is_short(tsap: Tsap)
    ensures short { length (tsap_octets tsap) ≤ 32 }
    ensures octets { IsOctets (tsap_octets tsap) }
{
    are_octets(tsap.octets());
}

/// So has a transport address that may be absent.
fn is_address(tsap: Option<Tsap>)
    ensures { IsTsap (option_map tsap_octets tsap) }
{
    if let Some(tsap) = tsap {
        is_short(tsap);
    }
}

/// A requested connection.
fn can_be_asked(connect: &Connect)
    ensures { CanBeAsked connect.now }
{
    is_address(connect.calling_tsap);
    is_address(connect.called_tsap);
    some_are_octets(connect.calling_selector);
    some_are_octets(connect.called_selector);
    are_octets(connect.user_data);
}

/// A call.
fn can_be_called(request: Request)
    ensures serial { HasSerial (called_by request.entry) }
    ensures octets { IsOctets (octets_of (called_by request.entry)) }
{
    are_octets(user_data(request));
}

/// An event.
pub(crate) fn can_happen(event: &Event)
    ensures { CanHappen event.now }
{
    match *event {
        Event::Connect(asked) => can_be_asked(&asked),
        Event::Call(_, _, request) => can_be_called(request),
        Event::Carry(..) | Event::Break(..) | Event::Told(_) => {}
    }
}
