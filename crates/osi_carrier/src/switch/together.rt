//! TSDUs that are sent together.

ghost use Rattle.std.specs.Prelude.{◌≡◌, ◌≢◌, [], length, map, nat_lt, Err, IfErr, None, Some, OnOk, OnErr};
ghost use Rattle.std.specs.Cow.{cow_slice_items, IsOwnedSlice};
ghost use Rattle.std.specs.List.{list_any};
ghost use Rattle.osi_carrier.specs.Calls.{open_link, send_all_error, lengths_error, call_error, sent_all, pumps_all, AllWaitOn};
ghost use Rattle.osi_carrier.specs.Calls.{WaitTogether};
ghost use Rattle.osi_carrier.specs.Opened.{link_in, peer_in};
ghost use Rattle.osi_carrier.specs.Rows.{place_of, value_at};

use super::Switch;
use crate::faults::SendError;
use osi_class::LONGEST_TSDU;
use std::alloc::Global;
use std::borrow::CowSlice;

/// Whether one of these TSDUs has more than 1,048,576 octets.
fn any_too_long(tsdus: &[Vec<u8>]) -> bool
    ensures { result ≡ list_any (λ tsdu. nat_lt 1048576 (length tsdu.items)) tsdus.now }
{
    tsdus.iter().any(|tsdu| tsdu.len() > LONGEST_TSDU)
}

impl Switch {
    /// Sends TSDUs together on an open connection, all or none, in order; all units that may be sent now are written.
    /// An empty list sends none, and allocates nothing; owned TSDUs that only wait allocate nothing either.
    #[tactic(auto, using(crate::proofs::references::what_is_open::all_wait_at))]
    pub fn send_all(
        &mut self,
        reference: u16,
        tsdus: CowSlice<'_, Vec<u8>, Global>,
    ) -> Result<(), SendError>
        ensures ok { OnOk result (self.new ≡ sent_all reference (map (λ v. v.items) (cow_slice_items tsdus.entry)) self.old) }
        ensures allowed { OnOk
            result (send_all_error (map (λ v. v.items) (cow_slice_items tsdus.entry)) (open_link reference self.old) ≡ None) }
        ensures refused { IfErr result (λ e.
            call_error e ≡ send_all_error (map (λ v. v.items) (cow_slice_items tsdus.entry)) (open_link reference self.old)) }
        ensures err { OnErr result (self.new ≡ self.old) }
        ensures nothing { cow_slice_items tsdus.entry ≡ [] → result ≢ Err SendError.OutOfMemory }
        ensures kept { IsOwnedSlice tsdus.entry →
            AllWaitOn (open_link reference self.old) (map (λ v. v.items) (cow_slice_items tsdus.entry)) →
            result ≢ Err SendError.OutOfMemory }
    {
        if self.ended.is_some() {
            return Err(SendError::NotOpen);
        }
        let Some((place, peer)) = self.live.open_at(reference) else {
            return Err(SendError::NotOpen);
        };
        self.send_all_open(place, reference, peer, tsdus)
    }

    fn send_all_open(
        &mut self,
        place: usize,
        reference: u16,
        peer: u16,
        tsdus: CowSlice<'_, Vec<u8>, Global>,
    ) -> Result<(), SendError>
        requires place { place_of reference self.old.live ≡ Some place }
        requires open { peer_in (value_at reference self.old.live) ≡ Some peer }
        ensures ok { OnOk result (self.new
            ≡ pumps_all reference peer (link_in (value_at reference self.old.live)) (map (λ v.
            v.items) (cow_slice_items tsdus.entry)) self.old) }
        ensures allowed { OnOk result (lengths_error (map (λ v. v.items) (cow_slice_items tsdus.entry)) ≡ None) }
        ensures refused { IfErr result (λ e. call_error e ≡ lengths_error (map (λ v. v.items) (cow_slice_items tsdus.entry))) }
        ensures err { OnErr result (self.new ≡ self.old) }
        ensures nothing { cow_slice_items tsdus.entry ≡ [] → result ≢ Err SendError.OutOfMemory }
        ensures kept { IsOwnedSlice tsdus.entry →
            WaitTogether (link_in (value_at reference self.old.live)) (map (λ v. v.items) (cow_slice_items tsdus.entry)) →
            result ≢ Err SendError.OutOfMemory }
    {
        let lent = tsdus.as_slice();
        if lent.is_empty() {
            return Ok(());
        }
        if any_too_long(lent) {
            return Err(SendError::TooLong);
        }
        let Ok(()) = self
            .live
            .send_all(place, reference, peer, tsdus, &mut self.outgoing)
        else {
            return Err(SendError::OutOfMemory);
        };
        Ok(())
    }
}
