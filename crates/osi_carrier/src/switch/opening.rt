//! Connections that this end asks for, and those that the peer asks for (X.224 section 6.5).

ghost use Rattle.std.specs.Prelude.{◌≡◌, ◌+◌, ◌<◌, None, Some, true, MatchResult, IfOk, IfErr, OnOk, OnErr, option_map, length};
ghost use Rattle.osi_tpdu.specs.Limits.{tsap_octets, size_code};
ghost use Rattle.osi_tpdu.specs.View.{request_content};
ghost use Rattle.osi_class.specs.Negotiation.{selection};
ghost use Rattle.osi_carrier.specs.Calls.{may_connect, open_error, asks};
ghost use Rattle.osi_carrier.specs.Growth.{grows};
ghost use Rattle.osi_carrier.specs.React.{answers_request, answers, accepts, denies};
ghost use Rattle.osi_carrier.specs.State.{ends};
ghost use Rattle.osi_carrier.specs.declared.ends.EndReason.TheVariants.{NoMemory};

use super::Switch;
use crate::events::{Event, Ref, tell};
use crate::faults::OpenError;
use crate::negotiation::{acceptance, opened_link, proposal};
use crate::rows::{MOST_LIVE, Phase};
use crate::selectors::Tsaps;
use crate::writing::{put_confirm, put_disconnect, put_request};
use bytes::BytesMut;
use osi_class::{Answer, Class, answer};
use osi_tpdu::{ConnectRequest, SizeCode, Tsap};
use std::alloc::AllocError;

/// The last reference that can be given.
const LAST_REFERENCE: u16 = u16::MAX;

/// Reasons of a DR (X.224 section 13.5.3): congestion, 128 + 3 and 128 + 8.
const CONGESTION: u8 = 1;

const DUPLICATE_REFERENCE: u8 = 131;

const REFUSED_HERE: u8 = 136;

/// The room for octets to send that is made for each new connection.
const FIRST_ROOM: usize = 1024;

/// Makes the first room for octets to send. If it were made little by little, the buffer would move while the octets of
/// a TSDU are joined, and leave a gap into which they don't fit.
fn make_first_room(out: &mut BytesMut) -> Result<(), AllocError>
    ensures { out.new.items ≡ out.old.items }
{
    out.reserve(FIRST_ROOM)
}

impl Switch {
    /// Whether a connection can be requested now, or the first reason why not.
    pub fn may_connect(&self) -> Result<(), OpenError>
        ensures answer { MatchResult result (λ _. may_connect self.now ≡ None) (λ e. may_connect self.now ≡ Some e) }
        ensures known { IfErr result (λ e. open_error e ≡ Some e) }
    {
        if !self.is_caller {
            return Err(OpenError::NotCaller);
        }
        if self.ended.is_some() {
            return Err(OpenError::Ended);
        }
        match self.class {
            None if self.live.len() > 0 => return Err(OpenError::Negotiating),
            Some(Class::Zero) => return Err(OpenError::OneConnection),
            None | Some(Class::Two) => {}
        }
        if self.live.len() >= MOST_LIVE {
            return Err(OpenError::TooMany);
        }
        if self.given >= LAST_REFERENCE {
            return Err(OpenError::ReferencesUsedUp);
        }
        Ok(())
    }

    /// Requests a connection with these transport selectors. The CR is written.
    pub fn connect(&mut self, calling: Option<Tsap>, called: Option<Tsap>) -> Result<Ref, OpenError>
        ensures ok { OnOk result (self.new ≡ asks (option_map tsap_octets calling) (option_map tsap_octets called) self.old) }
        ensures reference { IfOk result (λ r. r.0 ≡ self.old.given + 1) }
        ensures allowed { OnOk result (may_connect self.old ≡ None) }
        ensures refused { IfErr result (λ e. open_error e ≡ may_connect self.old) }
        ensures err { OnErr result (self.new ≡ self.old) }
    {
        if let Err(error) = self.may_connect() {
            return Err(error);
        }
        match self.ask(&calling, &called) {
            Ok(()) => Ok(Ref(self.given)),
            Err(_) => Err(OpenError::OutOfMemory),
        }
    }

    /// Writes the CR for the next reference. An allocation failure changes nothing.
    fn ask(&mut self, calling: &Option<Tsap>, called: &Option<Tsap>) -> Result<(), AllocError>
        requires live { length self.old.live < 64 }
        requires given { self.old.given < 65535 }
        ensures ok { OnOk result (self.new ≡ asks (option_map tsap_octets calling.now) (option_map tsap_octets called.now) self.old) }
        ensures given { OnOk result (self.new.given ≡ self.old.given + 1) }
        ensures err { OnErr result (self.new ≡ self.old) }
    {
        make_first_room(&mut self.outgoing)?;
        let reference = self.given + 1;
        let before = self.outgoing.len();
        let request = proposal(&self.local, self.class, calling, called, reference);
        put_request(&mut self.outgoing, &request)?;
        let tsaps = Tsaps {
            calling: *calling,
            called: *called,
        };
        if self.enter(reference, Phase::Asked, tsaps).is_err() {
            self.outgoing.truncate(before);
            return Err(AllocError);
        }
        self.given = reference;
        Ok(())
    }

    /// The called end answers a CR.
    pub fn answer_request(&mut self, request: &ConnectRequest<'_>) -> Result<(), AllocError>
        ensures ok { OnOk result (self.new ≡ (answers_request (request_content request.now) self.old).state) }
        ensures err { OnErr result (ends NoMemory self.new ≡ ends NoMemory self.old) }
        ensures needs { OnErr result (grows self.old (answers_request (request_content request.now) self.old).state ≡ true) }
    {
        if self.live.has_peer(request.fields.source) {
            return self.deny(request.fields.source, DUPLICATE_REFERENCE);
        }
        if self.live.len() >= MOST_LIVE || self.given >= LAST_REFERENCE {
            return self.deny(request.fields.source, CONGESTION);
        }
        let selected = answer(request, &self.local);
        self.answer_by(request, selected)
    }

    /// Answers a CR with the result of negotiation.
    fn answer_by(
        &mut self,
        request: &ConnectRequest<'_>,
        selected: Answer,
    ) -> Result<(), AllocError>
        requires live { length self.old.live < 64 }
        requires given { self.old.given < 65535 }
        ensures ok { OnOk result (self.new ≡ (answers (request_content request.now) (selection selected) self.old.class self.old).state) }
        ensures err { OnErr result (ends NoMemory self.new ≡ ends NoMemory self.old) }
        ensures needs { OnErr
            result (grows self.old (answers (request_content request.now) (selection selected) self.old.class self.old).state ≡ true) }
    {
        match selected {
            Answer::Disconnect(reason) => self.deny(request.fields.source, reason),
            Answer::Accept {
                class: Class::Two,
                size,
            } => self.accept(request, Class::Two, size),
            Answer::Accept {
                class: Class::Zero,
                size,
            } => match self.class {
                None => self.accept(request, Class::Zero, size),
                Some(_) => self.deny(request.fields.source, REFUSED_HERE),
            },
        }
    }

    /// Refuses a CR with a DR that has no reference of this end.
    fn deny(&mut self, peer: u16, reason: u8) -> Result<(), AllocError>
        ensures ok { OnOk result (self.new ≡ (denies reason peer self.old).state) }
        ensures err { OnErr result (ends NoMemory self.new ≡ ends NoMemory self.old) }
        ensures needs { OnErr result (grows self.old (denies reason peer self.old).state ≡ true) }
    {
        put_disconnect(&mut self.outgoing, peer, 0, reason)
    }

    /// Accepts a CR with a CC: the next reference is given, and the class is agreed from now on.
    fn accept(
        &mut self,
        request: &ConnectRequest<'_>,
        class: Class,
        size: Option<SizeCode>,
    ) -> Result<(), AllocError>
        requires live { length self.old.live < 64 }
        requires given { self.old.given < 65535 }
        ensures ok { OnOk result (self.new ≡ (accepts class (option_map size_code size) (request_content request.now) self.old).state) }
        ensures err { OnErr result (ends NoMemory self.new ≡ ends NoMemory self.old) }
        ensures needs { OnErr
            result (grows self.old (accepts class (option_map size_code size) (request_content request.now) self.old).state ≡ true) }
    {
        make_first_room(&mut self.outgoing)?;
        let reference = self.given + 1;
        let link = opened_link(self.alloc, class, size, &self.local, request.fields.credit);
        let confirm = acceptance(class, size, request, &self.local, reference);
        let phase = Phase::Linked(request.fields.source, link);
        self.enter(reference, phase, Tsaps::of(request))?;
        self.events.reserve()?;
        put_confirm(&mut self.outgoing, &confirm)?;
        tell(&mut self.events, Event::Opened(Ref(reference)));
        self.class = Some(class);
        self.given = reference;
        Ok(())
    }
}
