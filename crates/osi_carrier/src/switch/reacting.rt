//! Which rule applies to a unit: by the class, by the connection of its reference, and by that connection's phase.

ghost use Rattle.std.specs.Prelude.{◌≡◌, Some, None, false, true, OnOk, OnErr};
ghost use Rattle.osi_tpdu.specs.Value.{request};
ghost use Rattle.osi_tpdu.specs.View.{value, confirm_content, request_content};
ghost use Rattle.osi_carrier.specs.Negotiation.{confirmed};
ghost use Rattle.osi_carrier.specs.Growth.{grows};
ghost use Rattle.osi_carrier.specs.React.{opens, to_asked, to_reference, to_only, before_class, in_zero, in_two, in_class, answers_request};
ghost use Rattle.osi_carrier.specs.Rows.{place_of, value_at};
ghost use Rattle.osi_carrier.specs.State.{ends};
ghost use Rattle.osi_carrier.specs.declared.ends.EndReason.TheVariants.{NoMemory};

use super::Switch;
use crate::ends::CarrierFault;
use crate::events::{Event, Ref, tell};
use crate::negotiation::{agreed_size, confirmed, opened_link};
use crate::rows::Phase;
use osi_class::Class;
use osi_tpdu::{ConnectConfirm, ConnectRequest, Tpdu};
use std::alloc::AllocError;

impl Switch {
    /// A unit for a connection that awaits its CC.
    fn to_asked(&mut self, place: usize, reference: u16, unit: &Tpdu<'_>) -> Result<(), AllocError>
        requires { place_of reference self.old.live ≡ Some place }
        ensures ok { OnOk result (self.new ≡ (to_asked reference (value unit.now) self.old).state) }
        ensures err { OnErr result (ends NoMemory self.new ≡ ends NoMemory self.old) }
        ensures needs { OnErr result (grows self.old (to_asked reference (value unit.now) self.old).state ≡ true) }
    {
        match unit {
            Tpdu::Cc(answer) => self.open(place, reference, answer),
            Tpdu::Dr(answer) => self.refuse(place, reference, answer.reason),
            Tpdu::Er(_) => self.refuse(place, reference, 0),
            Tpdu::Cr(_) | Tpdu::Dc(_) | Tpdu::Dt0(_) | Tpdu::Dt2(_) | Tpdu::Ak(_) => {
                self.to_unknown(unit)
            }
        }
    }

    /// A CC for a requested connection.
    fn open(
        &mut self,
        place: usize,
        reference: u16,
        answer: &ConnectConfirm<'_>,
    ) -> Result<(), AllocError>
        requires { place_of reference self.old.live ≡ Some place }
        ensures ok { OnOk result (self.new
            ≡ (opens reference (confirm_content answer.now) (confirmed (confirm_content answer.now) self.old.local
            self.old.class) self.old).state) }
        ensures err { OnErr result (ends NoMemory self.new ≡ ends NoMemory self.old) }
        ensures needs { OnErr
            result (grows self.old (opens reference (confirm_content answer.now) (confirmed (confirm_content answer.now) self.old.local
            self.old.class) self.old).state ≡ true) }
    {
        match confirmed(answer, &self.local, self.class) {
            None => {
                self.fail(CarrierFault::BadAnswer);
                Ok(())
            }
            Some(class) => self.open_with(place, reference, class, answer),
        }
    }

    /// A CC that selects a proposed class.
    fn open_with(
        &mut self,
        place: usize,
        reference: u16,
        class: Class,
        answer: &ConnectConfirm<'_>,
    ) -> Result<(), AllocError>
        requires { place_of reference self.old.live ≡ Some place }
        ensures ok { OnOk result (self.new ≡ (opens reference (confirm_content answer.now) (Some class) self.old).state) }
        ensures err { OnErr result (ends NoMemory self.new ≡ ends NoMemory self.old) }
        ensures needs { OnErr result (grows self.old (opens reference (confirm_content answer.now) (Some class) self.old).state ≡ true) }
    {
        self.events.reserve()?;
        let size = agreed_size(answer.fields.parameters.size, &self.local);
        let link = opened_link(self.alloc, class, size, &self.local, answer.fields.credit);
        tell(&mut self.events, Event::Opened(Ref(reference)));
        self.live.set(place, reference, Phase::Linked(answer.fields.source, link));
        self.class = Some(class);
        Ok(())
    }

    /// A unit for a reference.
    fn to_reference(&mut self, reference: u16, unit: &Tpdu<'_>) -> Result<(), AllocError>
        ensures ok { OnOk result (self.new ≡ (to_reference reference (value unit.now) self.old).state) }
        ensures err { OnErr result (ends NoMemory self.new ≡ ends NoMemory self.old) }
        ensures needs { OnErr result (grows self.old (to_reference reference (value unit.now) self.old).state ≡ true) }
    {
        let Some(place) = self.live.find(reference) else {
            return self.to_unknown(unit);
        };
        match *self.live.phase(place, reference) {
            Phase::Asked => self.to_asked(place, reference, unit),
            Phase::Linked(peer, _) => self.to_linked(place, reference, peer, unit),
            Phase::Closing(_) => {
                self.to_closing(place, reference, unit);
                Ok(())
            }
        }
    }

    /// A unit before the class is known.
    fn before_class(&mut self, unit: &Tpdu<'_>) -> Result<(), AllocError>
        ensures ok { OnOk result (self.new ≡ (before_class self.old.is_caller (value unit.now) self.old).state) }
        ensures err { OnErr result (ends NoMemory self.new ≡ ends NoMemory self.old) }
        ensures needs { OnErr result (grows self.old (before_class self.old.is_caller (value unit.now) self.old).state ≡ true) }
    {
        if self.is_caller {
            self.answered(unit)
        } else {
            self.asked(unit)
        }
    }

    /// A unit at the calling end before the class is known: an answer to its CR.
    fn answered(&mut self, unit: &Tpdu<'_>) -> Result<(), AllocError>
        ensures ok { OnOk result (self.new ≡ (before_class true (value unit.now) self.old).state) }
        ensures err { OnErr result (ends NoMemory self.new ≡ ends NoMemory self.old) }
        ensures needs { OnErr result (grows self.old (before_class true (value unit.now) self.old).state ≡ true) }
    {
        match unit {
            Tpdu::Cc(answer) => self.to_reference(answer.destination, unit),
            Tpdu::Dr(answer) => self.to_reference(answer.destination, unit),
            Tpdu::Er(answer) => self.to_reference(answer.destination, unit),
            Tpdu::Cr(_) | Tpdu::Dc(_) | Tpdu::Dt0(_) | Tpdu::Dt2(_) | Tpdu::Ak(_) => {
                self.fail(CarrierFault::UnexpectedUnit);
                Ok(())
            }
        }
    }

    /// A unit at the called end before the class is known: a CR.
    fn asked(&mut self, unit: &Tpdu<'_>) -> Result<(), AllocError>
        ensures ok { OnOk result (self.new ≡ (before_class false (value unit.now) self.old).state) }
        ensures err { OnErr result (ends NoMemory self.new ≡ ends NoMemory self.old) }
        ensures needs { OnErr result (grows self.old (before_class false (value unit.now) self.old).state ≡ true) }
    {
        match unit {
            Tpdu::Cr(request) => self.answer_request(request),
            Tpdu::Cc(_)
            | Tpdu::Dr(_)
            | Tpdu::Dc(_)
            | Tpdu::Dt0(_)
            | Tpdu::Dt2(_)
            | Tpdu::Ak(_)
            | Tpdu::Er(_) => {
                self.fail(CarrierFault::UnexpectedUnit);
                Ok(())
            }
        }
    }

    /// A unit in class 0, for the one connection.
    fn in_zero(&mut self, unit: &Tpdu<'_>) -> Result<(), AllocError>
        ensures ok { OnOk result (self.new ≡ (in_zero self.old.is_caller (value unit.now) self.old).state) }
        ensures err { OnErr result (ends NoMemory self.new ≡ ends NoMemory self.old) }
        ensures needs { OnErr result (grows self.old (in_zero self.old.is_caller (value unit.now) self.old).state ≡ true) }
    {
        if self.is_caller
            && let Tpdu::Cr(_) = unit
        {
            self.fail(CarrierFault::UnexpectedUnit);
            return Ok(());
        }
        self.to_only(unit)
    }

    /// A unit for the one connection, whatever its reference.
    fn to_only(&mut self, unit: &Tpdu<'_>) -> Result<(), AllocError>
        ensures ok { OnOk result (self.new ≡ (to_only self.old.live (value unit.now) self.old).state) }
        ensures err { OnErr result (ends NoMemory self.new ≡ ends NoMemory self.old) }
        ensures needs { OnErr result (grows self.old (to_only self.old.live (value unit.now) self.old).state ≡ true) }
    {
        let Some(reference) = self.live.first() else {
            return Ok(());
        };
        self.to_reference(reference, unit)
    }

    /// A unit in class 2, by its reference.
    fn in_two(&mut self, unit: &Tpdu<'_>) -> Result<(), AllocError>
        ensures ok { OnOk result (self.new ≡ (in_two self.old.is_caller (value unit.now) self.old).state) }
        ensures err { OnErr result (ends NoMemory self.new ≡ ends NoMemory self.old) }
        ensures needs { OnErr result (grows self.old (in_two self.old.is_caller (value unit.now) self.old).state ≡ true) }
    {
        match unit {
            Tpdu::Cr(request) => self.asked_in_two(request),
            Tpdu::Cc(answer) => self.to_reference(answer.destination, unit),
            Tpdu::Dr(request) => self.to_reference(request.destination, unit),
            Tpdu::Dc(confirm) => self.to_reference(confirm.destination, unit),
            Tpdu::Dt0(_) => {
                self.fail(CarrierFault::UnexpectedUnit);
                Ok(())
            }
            Tpdu::Dt2(data) => self.to_reference(data.destination, unit),
            Tpdu::Ak(ack) => self.to_reference(ack.destination, unit),
            Tpdu::Er(report) => self.to_reference(report.destination, unit),
        }
    }

    /// A CR in class 2.
    fn asked_in_two(&mut self, cr: &ConnectRequest<'_>) -> Result<(), AllocError>
        ensures ok { OnOk result (self.new ≡ (in_two self.old.is_caller (request (request_content cr.now)) self.old).state) }
        ensures err { OnErr result (ends NoMemory self.new ≡ ends NoMemory self.old) }
        ensures needs { OnErr result (grows self.old (in_two self.old.is_caller (request (request_content cr.now)) self.old).state ≡ true) }
    {
        if self.is_caller {
            self.fail(CarrierFault::UnexpectedUnit);
            return Ok(());
        }
        self.answer_request(cr)
    }

    /// A unit that arrives before the carrier has ended.
    pub fn react(&mut self, unit: &Tpdu<'_>) -> Result<(), AllocError>
        ensures ok { OnOk result (self.new ≡ (in_class self.old.class (value unit.now) self.old).state) }
        ensures err { OnErr result (ends NoMemory self.new ≡ ends NoMemory self.old) }
        ensures needs { OnErr result (grows self.old (in_class self.old.class (value unit.now) self.old).state ≡ true) }
    {
        match self.class {
            None => self.before_class(unit),
            Some(Class::Zero) => self.in_zero(unit),
            Some(Class::Two) => self.in_two(unit),
        }
    }
}
