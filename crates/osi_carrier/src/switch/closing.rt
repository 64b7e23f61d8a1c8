//! Units for a reference that is not live, and for connections that await an answer or are closing
//! (X.224 sections 6.6 to 6.8).

ghost use Rattle.std.specs.Prelude.{◌≡◌, Some, true, OnOk, OnErr};
ghost use Rattle.osi_tpdu.specs.View.{value};
ghost use Rattle.osi_carrier.specs.Happenings.{happening, refused};
ghost use Rattle.osi_carrier.specs.Growth.{grows};
ghost use Rattle.osi_carrier.specs.React.{to_unknown, to_closing};
ghost use Rattle.osi_carrier.specs.Rows.{place_of};
ghost use Rattle.osi_carrier.specs.State.{ends, drops, tells};
ghost use Rattle.osi_carrier.specs.declared.ends.EndReason.TheVariants.{NoMemory};

use super::Switch;
use crate::ends::CarrierFault;
use crate::events::{Event, Ref, tell};
use crate::writing::put_disconnected;
use osi_tpdu::Tpdu;
use std::alloc::AllocError;

impl Switch {
    /// A unit for a reference that is not live: a DR is answered, a DC is ignored, and any other unit ends the carrier.
    pub fn to_unknown(&mut self, unit: &Tpdu<'_>) -> Result<(), AllocError>
        ensures ok { OnOk result (self.new ≡ (to_unknown (value unit.now) self.old).state) }
        ensures err { OnErr result (ends NoMemory self.new ≡ ends NoMemory self.old) }
        ensures needs { OnErr result (grows self.old (to_unknown (value unit.now) self.old).state ≡ true) }
    {
        match unit {
            Tpdu::Dr(request) => {
                put_disconnected(&mut self.outgoing, request.source, request.destination)?;
            }
            Tpdu::Dc(_) => {}
            Tpdu::Cr(_) | Tpdu::Cc(_) | Tpdu::Dt0(_) | Tpdu::Dt2(_) | Tpdu::Ak(_) | Tpdu::Er(_) =>
                self.fail(CarrierFault::UnknownReference),
        }
        Ok(())
    }

    /// A unit for a connection that is closing: a DC or a DR ends it, and any other unit is ignored.
    pub fn to_closing(&mut self, place: usize, reference: u16, unit: &Tpdu<'_>)
        requires { place_of reference self.old.live ≡ Some place }
        ensures { self.new ≡ (to_closing reference (value unit.now) self.old).state }
    {
        match unit {
            Tpdu::Dc(_) | Tpdu::Dr(_) => self.leave_out(place, reference),
            Tpdu::Cr(_) | Tpdu::Cc(_) | Tpdu::Dt0(_) | Tpdu::Dt2(_) | Tpdu::Ak(_) | Tpdu::Er(_) =>
                {}
        }
    }

    /// Drops a connection, and reports it to the user.
    pub fn drop_telling(
        &mut self,
        place: usize,
        reference: u16,
        event: Event,
    ) -> Result<(), AllocError>
        requires { place_of reference self.old.live ≡ Some place }
        ensures ok { OnOk result (self.new ≡ tells (happening event) (drops reference self.old)) }
        ensures err { OnErr result (ends NoMemory self.new ≡ ends NoMemory self.old) }
        ensures needs { OnErr result (grows self.old (tells (happening event) (drops reference self.old)) ≡ true) }
    {
        self.events.reserve()?;
        tell(&mut self.events, event);
        self.leave_out(place, reference);
        Ok(())
    }

    /// The peer refused a requested connection.
    pub fn refuse(&mut self, place: usize, reference: u16, reason: u8) -> Result<(), AllocError>
        requires { place_of reference self.old.live ≡ Some place }
        ensures ok { OnOk result (self.new ≡ tells (refused reference reason) (drops reference self.old)) }
        ensures err { OnErr result (ends NoMemory self.new ≡ ends NoMemory self.old) }
        ensures needs { OnErr result (grows self.old (tells (refused reference reason) (drops reference self.old)) ≡ true) }
    {
        self.drop_telling(place, reference, Event::Refused(Ref(reference), reason))
    }
}
