//! TSDUs that are cut from octets and sent together.

ghost use Rattle.std.specs.Prelude.{◌≡◌, None, Some, IfErr, OnOk, OnErr};
ghost use Rattle.osi_carrier.specs.Calls.{open_link, send_all_error, lengths_error, call_error, sent_all, pumps_all};
ghost use Rattle.osi_carrier.specs.Opened.{link_in, peer_in};
ghost use Rattle.osi_carrier.specs.Pieces.{tsdus_in, FitTsdus};
ghost use Rattle.osi_carrier.specs.Rows.{place_of, value_at};

use super::Switch;
use crate::faults::SendError;
use crate::pieces::Pieces;

impl Switch {
    /// Sends the TSDUs that are cut together on an open connection, all or none, in order; all units that may be sent
    /// now are written.
    pub fn send_pieces(&mut self, reference: u16, pieces: &Pieces<'_>) -> Result<(), SendError>
        requires { FitTsdus pieces.now }
        ensures ok { OnOk result (self.new ≡ sent_all reference (tsdus_in pieces.now) self.old) }
        ensures allowed { OnOk result (send_all_error (tsdus_in pieces.now) (open_link reference self.old) ≡ None) }
        ensures refused { IfErr result (λ e. call_error e ≡ send_all_error (tsdus_in pieces.now) (open_link reference self.old)) }
        ensures err { OnErr result (self.new ≡ self.old) }
    {
        if self.ended.is_some() {
            return Err(SendError::NotOpen);
        }
        let Some((place, peer)) = self.live.open_at(reference) else {
            return Err(SendError::NotOpen);
        };
        self.send_pieces_open(place, reference, peer, pieces)
    }

    #[tactic(auto, using(crate::proofs::written::octets_are_cut_into_tsdus::all_fit))]
    fn send_pieces_open(
        &mut self,
        place: usize,
        reference: u16,
        peer: u16,
        pieces: &Pieces<'_>,
    ) -> Result<(), SendError>
        requires place { place_of reference self.old.live ≡ Some place }
        requires open { peer_in (value_at reference self.old.live) ≡ Some peer }
        requires fit { FitTsdus pieces.now }
        ensures ok { OnOk result (self.new
            ≡ pumps_all reference peer (link_in (value_at reference self.old.live)) (tsdus_in pieces.now) self.old) }
        ensures allowed { OnOk result (lengths_error (tsdus_in pieces.now) ≡ None) }
        ensures refused { IfErr result (λ e. call_error e ≡ lengths_error (tsdus_in pieces.now)) }
        ensures err { OnErr result (self.new ≡ self.old) }
    {
        let Ok(()) = self.live.send_pieces(
            self.alloc,
            place,
            reference,
            peer,
            pieces,
            &mut self.outgoing,
        )
        else {
            return Err(SendError::OutOfMemory);
        };
        Ok(())
    }
}
