//! All of a carrier except the unfinished packet.

use crate::ends::{CarrierFault, EndReason};
use crate::events::Event;
use crate::rows::{Connections, Phase};
use crate::selectors::{Names, Tsaps};
use bytes::BytesMut;
use osi_class::{Class, Local, Queue};
use std::alloc::{AllocError, Global};
use std::marker::Model;

mod calls;
mod closing;
mod headed;
mod linked;
mod opening;
mod packets;
mod reacting;
mod together;

/// All of a carrier except the unfinished packet; the effects of each unit and each call.
#[derive(Drop)]
pub struct Switch {
    alloc: Global,
    local: Local,
    is_caller: bool,
    /// The class that was selected on this byte connection.
    pub class: Option<Class>,
    /// How many references were given.
    pub given: u16,
    pub live: Connections,
    /// The transport selectors of the live connections.
    pub names: Names,
    /// Octets to send to the peer.
    pub outgoing: BytesMut,
    /// Events that the user has not taken.
    pub events: Queue<Event>,
    pub ended: Option<EndReason>,
}

impl Model for Switch {
    ghost use Rattle.osi_carrier.specs.State.{State};

    ghost Value = { State };

    ghost use Rattle.std.specs.Prelude.{map};
    ghost use Rattle.osi_carrier.specs.Happenings.{happening};

    ghost view = { λ s. record {
      is_caller = s.is_caller;
      local = s.local;
      class = s.class;
      given = s.given;
      live = s.live;
      tsaps = s.names;
      outgoing = s.outgoing.items;
      events = map happening s.events.items;
      ended = s.ended;
    } };
}

impl Switch {
    ghost use Rattle.std.specs.Prelude.{◌≡◌, ◌<◌, Some, OnOk, OnErr, length};
    ghost use Rattle.osi_carrier.specs.Calls.{fresh_state};
    ghost use Rattle.osi_carrier.specs.Live.{connection, IsPumped};
    ghost use Rattle.osi_carrier.specs.Rows.{place_of};
    ghost use Rattle.osi_carrier.specs.Selectors.{tsap_ids};
    ghost use Rattle.osi_carrier.specs.State.{joins, drops, ends, fails};

    /// A fresh end.
    pub fn new(alloc: Global, local: Local, is_caller: bool) -> Self
        ensures { result ≡ fresh_state is_caller local }
    {
        Switch {
            alloc,
            local,
            is_caller,
            class: None,
            given: 0,
            live: Connections::new(alloc),
            names: Names::new(alloc),
            outgoing: BytesMut::new(alloc),
            events: Queue::new(alloc),
            ended: None,
        }
    }

    /// Adds a connection, whose CR names these selectors. An allocation failure changes nothing.
    fn enter(&mut self, reference: u16, phase: Phase, tsaps: Tsaps) -> Result<(), AllocError>
        requires room { length self.old.live < 64 }
        requires pumped { IsPumped (connection phase) }
        ensures ok { OnOk result (self.new ≡ joins reference (connection phase) (tsap_ids tsaps) self.old) }
        ensures err { OnErr result (self.new ≡ self.old) }
    {
        let before = self.names.len();
        let Ok(()) = self.names.push(reference, tsaps) else {
            drop(phase);
            return Err(AllocError);
        };
        if self.live.push(reference, phase).is_err() {
            self.names.truncate(before);
            return Err(AllocError);
        }
        Ok(())
    }

    /// Drops the connection at this place.
    fn leave_out(&mut self, place: usize, reference: u16)
        requires { place_of reference self.old.live ≡ Some place }
        ensures { self.new ≡ drops reference self.old }
    {
        self.live.remove(place, reference);
        self.names.remove(reference);
    }

    /// Ends with all connections.
    #[inline(never)]
    pub fn end(&mut self, reason: EndReason)
        ensures { self.new ≡ ends reason self.old }
    {
        self.live.clear();
        self.names.clear();
        self.ended = Some(reason);
    }

    /// Ends because of a fault of the peer.
    pub fn fail(&mut self, fault: CarrierFault)
        ensures { self.new ≡ fails fault self.old }
    {
        self.end(EndReason::Fault(fault));
    }
}
