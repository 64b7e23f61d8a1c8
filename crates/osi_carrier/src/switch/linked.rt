//! Units for open connections (X.224 sections 6.7 and 6.22).

ghost use Rattle.std.specs.Prelude.{◌≡◌, ◌<◌, ℕ, Some, Ok, true, false, is_some, length, option_to_list, IfOk, IsSome, OnOk, OnErr};
ghost use Rattle.osi_tpdu.specs.View.{value};
ghost use Rattle.osi_class.specs.Handing.{tsdu_handed, user_of};
ghost use Rattle.osi_class.specs.Link.{taken};
ghost use Rattle.osi_carrier.specs.Growth.{grows};
ghost use Rattle.osi_carrier.specs.Happenings.{tsdu};
ghost use Rattle.osi_carrier.specs.Lending.{is_reached, with_reached, LendsIf};
ghost use Rattle.osi_carrier.specs.Opened.{link_in, peer_in};
ghost use Rattle.osi_carrier.specs.React.{breaks, leaves, taking, tells_of, to_linked};
ghost use Rattle.osi_carrier.specs.Rows.{place_of, value_at};
ghost use Rattle.osi_carrier.specs.State.{ends, tells};
ghost use Rattle.osi_carrier.specs.declared.ends.EndReason.TheVariants.{NoMemory};

use super::Switch;
use crate::ends::{CarrierFault, EndReason};
use crate::events::{Event, Ref, tell};
use crate::lending::{Reached, user_data};
use crate::links::Step;
use crate::rows::Phase;
use crate::writing::{put_disconnect, put_disconnected};
use osi_class::{Class, Handed, LinkFault};
use osi_tpdu::Tpdu;
use std::alloc::AllocError;

/// The reason of a DR after a protocol error, 128 + 5 (X.224 section 13.5.3).
const PROTOCOL_ERROR: u8 = 133;

impl Switch {
    /// A unit for an open connection: a DR closes it, and any other unit is for its link.
    pub fn to_linked(
        &mut self,
        place: usize,
        reference: u16,
        peer: u16,
        unit: &Tpdu<'_>,
    ) -> Result<(), AllocError>
        requires place { place_of reference self.old.live ≡ Some place }
        requires open { peer_in (value_at reference self.old.live) ≡ Some peer }
        ensures ok { OnOk result (self.new
            ≡ (to_linked reference peer (link_in (value_at reference self.old.live)) (value unit.now) self.old).state) }
        ensures err { OnErr result (ends NoMemory self.new ≡ ends NoMemory self.old) }
        ensures needs { OnErr
            result (grows self.old (to_linked reference peer (link_in (value_at reference self.old.live)) (value unit.now)
            self.old).state ≡ true) }
    {
        match unit {
            Tpdu::Dr(request) => self.leave(place, reference, peer, request.reason),
            Tpdu::Cr(_)
            | Tpdu::Cc(_)
            | Tpdu::Dc(_)
            | Tpdu::Dt0(_)
            | Tpdu::Dt2(_)
            | Tpdu::Ak(_)
            | Tpdu::Er(_) => {
                self.hand_to_link(reference, unit, false)?;
                Ok(())
            }
        }
    }

    /// The link of the open connection with this reference takes the unit or refuses it. If there is no such connection,
    /// nothing has changed. A unit that is a whole TSDU is left to be lent if the caller wants it; otherwise its octets are
    /// copied. Room for an event is made only if there is one.
    #[inline(always)]
    pub fn hand_to_link(
        &mut self,
        reference: u16,
        unit: &Tpdu<'_>,
        lends: bool,
    ) -> Result<Reached, AllocError>
        ensures known { IfOk result (λ h. is_reached h ≡ is_some (peer_in (value_at reference self.old.live))) }
        ensures ok { (peer : ℕ) → peer_in (value_at reference self.old.live) ≡ Some peer →
            IfOk result (λ h. with_reached h reference (user_of (value unit.now)) self.new
            ≡ (taking reference peer (taken (link_in (value_at reference self.old.live)) (value unit.now)) self.old).state) }
        ensures lent { IfOk result (λ h. LendsIf h lends self.old self.new) }
        ensures none { result ≡ Ok Reached.NotOpen → self.new ≡ self.old }
        ensures err { OnErr result (ends NoMemory self.new ≡ ends NoMemory self.old) }
        ensures refused { OnErr result (is_some (peer_in (value_at reference self.old.live)) ≡ true) }
        ensures needs { (peer : ℕ) → peer_in (value_at reference self.old.live) ≡ Some peer →
            OnErr result (grows self.old (taking reference peer (taken (link_in (value_at reference self.old.live)) (value unit.now))
            self.old).state ≡ true) }
    {
        let before = self.outgoing.len();
        match self.live.step(reference, unit, &mut self.outgoing)? {
            Step::NotOpen => Ok(Reached::NotOpen),
            Step::Took(Handed::Whole) if lends => Ok(Reached::Whole),
            Step::Took(handed) => {
                let Ok(()) = self.tell_tsdu(reference, unit, handed) else {
                    self.outgoing.truncate(before);
                    return Err(AllocError);
                };
                Ok(Reached::Settled)
            }
            Step::Broke(place, peer, fault) => {
                self.fail_link(place, reference, peer, fault)?;
                Ok(Reached::Settled)
            }
        }
    }

    /// Queues the event of the TSDU that a link handed out after this unit, if there is one. An allocation failure changes
    /// nothing.
    #[inline(always)]
    fn tell_tsdu(
        &mut self,
        reference: u16,
        unit: &Tpdu<'_>,
        handed: Handed,
    ) -> Result<(), AllocError>
        ensures ok { OnOk result (self.new
            ≡ tells_of reference (option_to_list (tsdu_handed (user_of (value unit.now)) handed)) self.old) }
        ensures err { OnErr result (self.new ≡ self.old) }
        ensures some { OnErr result (0 < length (option_to_list (tsdu_handed (user_of (value unit.now)) handed))) }
    {
        match handed {
            Handed::Nothing => Ok(()),
            Handed::Whole => self.tell_copy(reference, user_data(unit)),
            Handed::Joined(tsdu) => self.events.push(Event::Tsdu(Ref(reference), tsdu)),
        }
    }

    /// Queues the event of a TSDU with a copy of these octets. An allocation failure changes nothing. The function is kept
    /// out of line: otherwise stack space for the copy would be reserved where a TSDU is lent, too.
    #[inline(never)]
    fn tell_copy(&mut self, reference: u16, octets: &[u8]) -> Result<(), AllocError>
        ensures ok { OnOk result (self.new ≡ tells (tsdu reference octets.now) self.old) }
        ensures err { OnErr result (self.new ≡ self.old) }
    {
        let tsdu = Vec::from_slice(self.alloc, octets)?;
        self.events.push(Event::Tsdu(Ref(reference), tsdu))
    }

    /// The peer broke a rule of the link: in class 2 that ends the connection, in class 0 the carrier.
    #[inline(never)]
    fn fail_link(
        &mut self,
        place: usize,
        reference: u16,
        peer: u16,
        fault: LinkFault,
    ) -> Result<(), AllocError>
        requires { place_of reference self.old.live ≡ Some place }
        ensures ok { OnOk result (self.new ≡ (breaks reference peer fault self.old.class self.old).state) }
        ensures err { OnErr result (ends NoMemory self.new ≡ ends NoMemory self.old) }
        ensures needs { OnErr result (grows self.old (breaks reference peer fault self.old.class self.old).state ≡ true) }
    {
        match self.class {
            Some(Class::Two) => {
                self.events.reserve()?;
                put_disconnect(&mut self.outgoing, peer, reference, PROTOCOL_ERROR)?;
                tell(&mut self.events, Event::Faulted(Ref(reference), fault));
                self.live.set(place, reference, Phase::Closing(peer));
            }
            None | Some(Class::Zero) => self.fail(CarrierFault::Link(fault)),
        }
        Ok(())
    }

    /// The peer closes the connection: in class 2 a DC answers, in class 0 the carrier ends.
    #[inline(never)]
    fn leave(
        &mut self,
        place: usize,
        reference: u16,
        peer: u16,
        reason: u8,
    ) -> Result<(), AllocError>
        requires { place_of reference self.old.live ≡ Some place }
        ensures ok { OnOk result (self.new ≡ (leaves reference peer reason self.old.class self.old).state) }
        ensures err { OnErr result (ends NoMemory self.new ≡ ends NoMemory self.old) }
        ensures needs { OnErr result (grows self.old (leaves reference peer reason self.old.class self.old).state ≡ true) }
    {
        self.events.reserve()?;
        match self.class {
            Some(Class::Two) => {
                put_disconnected(&mut self.outgoing, peer, reference)?;
                tell(&mut self.events, Event::Closed(Ref(reference), reason));
                self.leave_out(place, reference);
            }
            None | Some(Class::Zero) => {
                tell(&mut self.events, Event::Closed(Ref(reference), reason));
                self.end(EndReason::PeerClosed(reason));
            }
        }
        Ok(())
    }
}
