//! Closing connections, the end, and pending events.

ghost use Rattle.std.specs.Prelude.{◌≡◌, ◌≢◌, ◌<◌, ◌≤◌, ◌*◌, ◌-◌, ◌++◌, ◌∷◌, [], length, Err, IfErr, None, Some, IsOk, OnOk, OnErr};
ghost use Rattle.std.specs.Prelude.{is_some};
ghost use Rattle.std.specs.Cow.{cow_slice_items, IsOwnedSlice};
ghost use Rattle.osi_carrier.specs.Calls.{open_link, close_error, send_error, call_error, closed_with, closes, sent, ended_by, kept_in};
ghost use Rattle.osi_carrier.specs.Calls.{WaitsOn};
ghost use Rattle.osi_carrier.specs.Packets.{stops, waits, is_spoilt};
ghost use Rattle.osi_carrier.specs.Rows.{place_of, put};
ghost use Rattle.osi_carrier.specs.State.{closing, packets};
ghost use Rattle.osi_tpdu.specs.Value.{disconnect};

use super::Switch;
use crate::ends::EndReason;
use crate::faults::SendError;
use crate::rows::{Connections, Phase};
use crate::writing::put_disconnect;
use bytes::BytesMut;
use osi_class::{Class, LONGEST_TSDU};
use std::alloc::{AllocError, Global};
use std::borrow::CowSlice;

/// Asks the peer by a DR to close the connection at this place, which is then closing. Memory is needed only if there
/// is no room for the DR.
fn ask_to_close(
    live: &mut Connections,
    place: usize,
    reference: u16,
    peer: u16,
    reason: u8,
    out: &mut BytesMut,
) -> Result<(), AllocError>
    requires { place_of reference live.old ≡ Some place }
    ensures rows { OnOk result (live.new ≡ put reference (closing peer) live.old) }
    ensures ok { OnOk result (out.new.items ≡ out.old.items ++ packets (disconnect peer reference reason [] ∷ [])) }
    ensures err { OnErr result ((live.new ≡ live.old) × (out.new.items ≡ out.old.items)) }
    ensures full { OnErr result (out.old.spare < length (packets (disconnect peer reference reason [] ∷ []))) }
{
    put_disconnect(out, peer, reference, reason)?;
    live.set(place, reference, Phase::Closing(peer));
    Ok(())
}

impl Switch {
    /// Whether an event is pending.
    pub fn has_event(&self) -> bool
        ensures { result ≡ waits self.now }
    {
        !self.events.is_empty()
    }

    /// Whether the carrier has ended.
    pub fn has_ended(&self) -> bool
        ensures { result ≡ is_some self.now.ended }
    {
        self.ended.is_some()
    }

    /// Whether nothing more of a piece is read.
    pub fn stops(&self) -> bool
        ensures { result ≡ stops self.now }
    {
        self.has_ended() || self.has_event()
    }

    /// Whether the carrier ended because of a fault of its peer, or because memory ran out.
    pub fn is_spoilt(&self) -> bool
        ensures { result ≡ is_spoilt self.now.ended }
    {
        match self.ended {
            None
            | Some(EndReason::Broken)
            | Some(EndReason::Closed)
            | Some(EndReason::PeerClosed(_)) => false,
            Some(EndReason::Fault(_)) | Some(EndReason::NoMemory) => true,
        }
    }

    /// The octets of the unfinished TSDUs of open connections.
    pub fn kept(&self) -> usize
        ensures value { result ≡ kept_in self.now.live }
        ensures at_most { result ≤ 1048576 * length self.now.live }
        ensures bound { result ≤ 67108864 }
    {
        self.live.kept()
    }

    /// The carrier ends, unless it has ended.
    pub fn end_by(&mut self, reason: EndReason)
        ensures { self.new ≡ ended_by reason self.old }
    {
        if self.ended.is_some() {
            return;
        }
        self.end(reason);
    }

    /// Closes an open connection: in class 2 a DR asks for it, in class 0 the carrier ends.
    #[tactic(auto, using(crate::proofs::written::tsdus_that_are_sent_together::open_here))]
    pub fn close(&mut self, reference: u16, reason: u8) -> Result<(), SendError>
        ensures ok { OnOk result (self.new ≡ closed_with reference reason self.old) }
        ensures allowed { OnOk result (close_error (open_link reference self.old) ≡ None) }
        ensures refused { IfErr result (λ e. call_error e ≡ close_error (open_link reference self.old)) }
        ensures err { OnErr result (self.new ≡ self.old) }
        ensures zero { self.old.class ≡ Some Class.Zero → result ≢ Err SendError.OutOfMemory }
    {
        if self.ended.is_some() {
            return Err(SendError::NotOpen);
        }
        let Some((place, peer)) = self.live.open_at(reference) else {
            return Err(SendError::NotOpen);
        };
        self.close_open(place, reference, peer, reason)
    }

    fn close_open(
        &mut self,
        place: usize,
        reference: u16,
        peer: u16,
        reason: u8,
    ) -> Result<(), SendError>
        requires place { place_of reference self.old.live ≡ Some place }
        ensures ok { OnOk result (self.new ≡ closes reference peer reason self.old.class self.old) }
        ensures refused { IfErr result (λ e. call_error e ≡ None) }
        ensures err { OnErr result (self.new ≡ self.old) }
        ensures zero { self.old.class ≡ Some Class.Zero → IsOk result }
    {
        match self.class {
            Some(Class::Zero) => self.end(EndReason::Closed),
            None | Some(Class::Two) => {
                let Ok(()) = ask_to_close(
                    &mut self.live,
                    place,
                    reference,
                    peer,
                    reason,
                    &mut self.outgoing,
                ) else {
                    return Err(SendError::OutOfMemory);
                };
            }
        }
        Ok(())
    }

    /// Sends a TSDU on an open connection: all units that may be sent now are written.
    #[tactic(auto, using(crate::proofs::written::tsdus_that_are_sent_together::open_here, crate::proofs::references::what_is_open::waits_at))]
    pub fn send(&mut self, reference: u16, tsdu: CowSlice<'_, u8, Global>) -> Result<(), SendError>
        ensures ok { OnOk result (self.new ≡ sent reference (cow_slice_items tsdu.entry) self.old) }
        ensures allowed { OnOk result (send_error (cow_slice_items tsdu.entry) (open_link reference self.old) ≡ None) }
        ensures refused { IfErr result (λ e. call_error e ≡ send_error (cow_slice_items tsdu.entry) (open_link reference self.old)) }
        ensures err { OnErr result (self.new ≡ self.old) }
        ensures kept { IsOwnedSlice tsdu.entry → WaitsOn (open_link reference self.old) (cow_slice_items tsdu.entry) →
            result ≢ Err SendError.OutOfMemory }
    {
        if self.ended.is_some() {
            return Err(SendError::NotOpen);
        }
        let Some((place, peer)) = self.live.open_at(reference) else {
            return Err(SendError::NotOpen);
        };
        if tsdu.len() > LONGEST_TSDU {
            return Err(SendError::TooLong);
        }
        let Ok(()) = self
            .live
            .send(place, reference, peer, tsdu, &mut self.outgoing)
        else {
            return Err(SendError::OutOfMemory);
        };
        Ok(())
    }
}
