//! One end of a byte connection: what a gateway holds.

use crate::addresses::Addresses;
use crate::connecting::{Connect, ConnectError, request_connection};
use crate::disconnecting::give_up;
use crate::feeding::feed_to_indication;
use crate::laws::{
    a_call_of_a_settled_end_is_answered_by_its_session, an_end_is_settled_between_calls,
    what_waits_is_told_in_order,
};
use crate::lines::Lines;
use osi_carrier::{Carrier, EndReason, Ref};
use osi_class::Local;
use osi_message::Tokens;
use osi_session::{CallError, Indication, Phase, Request, Session};
use osi_spdu::TokenSet;
use osi_tpkt::Fed;
use std::alloc::Global;
use std::marker::Model;

/// One end of a byte connection: octets come in and go out, its user makes calls and receives indications. Each
/// connection has a reference of this end.
pub struct Stack {
    alloc: Global,
    carrier: Carrier,
    lines: Lines,
}

/// Its parts are dropped here, so the proof of a caller that owns an end is short.
impl Drop for Stack {
    fn drop(self) {
        let Stack {
            alloc: _,
            carrier: _carrier,
            lines: _lines,
        } = self;
    }
}

impl Model for Stack {
    ghost use Rattle.osi_stack.specs.State.{Holding};

    ghost Value = { Holding };

    ghost use Rattle.osi_stack.specs.Settled.{IsSettled};
    ghost use Rattle.osi_stack.specs.State.{holding};

    ghost view = { λ s. holding s.carrier s.lines };

    ghost invariant = { λ s. IsSettled (holding s.carrier s.lines).end };
}

impl Stack {
    ghost use Rattle.std.specs.Prelude.{◌≡◌, ◌+◌, ◌-◌, ◌*◌, ◌^◌, ◌≤◌, true, false, None, [], Err, IsSome, IfSome, OnOk, OnErr, IfOk, IfErr};
    ghost use Rattle.std.specs.Prelude.{option_map, length, min};
    ghost use Rattle.osi_tpkt.specs.Held.{fresh};
    ghost use Rattle.osi_carrier.specs.Calls.{closed_with, unsent_at, backlog_of};
    ghost use Rattle.osi_carrier.specs.Growth.{grows};
    ghost use Rattle.osi_carrier.specs.Rows.{value_at};
    ghost use Rattle.osi_message.specs.Tokens.{named, no_token, token_octet};
    ghost use Rattle.osi_spdu.specs.Fields.{bits_of};
    ghost use Rattle.osi_session.specs.Calls.{called_by};
    ghost use Rattle.osi_session.specs.Listening.{called};
    ghost use Rattle.osi_session.specs.Phases.{shows_loss};
    ghost use Rattle.osi_session.specs.Shown.{shown_by};
    ghost use Rattle.osi_stack.specs.Addresses.{addresses, addresses_at};
    ghost use Rattle.osi_stack.specs.Calls.{connect_error, refusal, connects, call_error, table_error, Refuses, by_rule, has_given};
    ghost use Rattle.osi_stack.specs.Calls.{held_by, phase_at, numbers_of, first_shown, without_first, carried, is_over, breaks};
    ghost use Rattle.osi_stack.specs.Disconnecting.{awaits_transport, disconnect_error, disconnects};
    ghost use Rattle.osi_stack.specs.Feeding.{Feeds};
    ghost use Rattle.osi_stack.specs.Moving.{to_session};
    ghost use Rattle.osi_stack.specs.Ordered.{TellsLowest};
    ghost use Rattle.osi_stack.specs.State.{fresh_end, session_at, kept_octets};

    /// The calling end of a byte connection. Nothing is written yet.
    pub fn caller(alloc: Global, local: Local) -> Self
        ensures { result ≡ record { end = fresh_end true local; held = fresh } }
    {
        an_end_is_settled_between_calls();
        Stack {
            alloc,
            carrier: Carrier::caller(alloc, local),
            lines: Lines::new(alloc),
        }
    }

    /// The called end of a byte connection.
    pub fn called(alloc: Global, local: Local) -> Self
        ensures { result ≡ record { end = fresh_end false local; held = fresh } }
    {
        an_end_is_settled_between_calls();
        Stack {
            alloc,
            carrier: Carrier::called(alloc, local),
            lines: Lines::new(alloc),
        }
    }

    /// Whether this end has given a reference.
    fn has_given(&self, reference: Ref) -> bool
        ensures { result ≡ has_given reference.0 self.now.end.carrier }
    {
        reference.0 > 0 && reference.0 <= self.carrier.given()
    }

    /// The session of a live connection.
    fn session(&self, reference: Ref) -> Option<&Session>
        ensures { option_map (λ s. s.now) result ≡ session_at reference.0 self.now.end }
    {
        if !self.carrier.is_live(reference) {
            return None;
        }
        self.lines.session(reference.0)
    }

    /// Requests a connection: the next reference is given and a CR is written; the CN follows once the transport
    /// connection is open. An error changes nothing.
    pub fn connect(&mut self, connect: &Connect) -> Result<Ref, ConnectError>
        ensures ok { OnOk result (self.new ≡ record self.old { end = connects connect.now self.old.end }) }
        ensures reference { IfOk result (λ r. r.0 ≡ self.old.end.carrier.given + 1) }
        ensures allowed { OnOk result (connect_error connect.now self.old.end ≡ None) }
        ensures refused { IfErr result (λ e. refusal e ≡ connect_error connect.now self.old.end) }
        ensures over { OnOk result (self.old.end.carrier.ended ≡ None) }
        ensures err { OnErr result (self.new ≡ self.old) }
    {
        an_end_is_settled_between_calls();
        request_connection(self.alloc, &mut self.carrier, &mut self.lines, connect)
    }

    /// A call of the user of a connection (X.225 section 7), answered by the table of its session. An error changes
    /// nothing, and `OutOfMemory` is returned only if no other error applies. Once the end has ended it accepts no
    /// call.
    pub fn call(&mut self, reference: Ref, request: Request) -> Result<(), CallError>
        ensures ok { OnOk result (self.new
            ≡ record self.old { end = to_session reference.0 (called (called_by request.entry)) self.old.end }) }
        ensures allowed { OnOk result (call_error reference.0 (called_by request.entry) self.old.end ≡ None) }
        ensures refused { IfErr result (λ e.
            Refuses e (table_error reference.0 (called_by request.entry) self.old.end) (call_error reference.0 (called_by request.entry)
            self.old.end)) }
        ensures table { OnOk result (table_error reference.0 (called_by request.entry) self.old.end ≡ None) }
        ensures answered { IfErr result (λ e. by_rule e ≡ table_error reference.0 (called_by request.entry) self.old.end) }
        ensures over { OnOk result (self.old.end.carrier.ended ≡ None) }
        ensures err { OnErr result (self.new ≡ self.old) }
    {
        an_end_is_settled_between_calls();
        a_call_of_a_settled_end_is_answered_by_its_session();
        if !self.has_given(reference) {
            return Err(CallError::NoSuchConnection);
        }
        self.lines.call(reference.0, request, &mut self.carrier)
    }

    /// Whether the session of a live connection waits for its transport connection.
    fn awaits_transport(&self, reference: Ref) -> bool
        ensures { result ≡ awaits_transport (session_at reference.0 self.now.end) }
    {
        match self.session(reference) {
            None => false,
            Some(session) => matches!(session.phase(), Phase::WaitTransport),
        }
    }

    /// Gives up one connection at once (X.224 section 6.7), whatever its session does. What waits for credit is
    /// dropped. Afterwards there are no more indications for this reference: its session has ended, and its pending
    /// indications are dropped. All other connections go on.
    ///
    /// In class 2, if the transport connection is open, a DR with reason 128 is written after what [`Stack::outgoing`]
    /// already has, and the peer's user is told that the connection is lost. The connection is live until the peer
    /// answers. In class 0 the end ends with [`EndReason::Closed`], because the byte connection has no other
    /// connection: octets still to be sent stay, and then the owner closes the byte connection. A connection that is
    /// closing or gone, and one of an end that has ended, loses its pending indications.
    ///
    /// Returns `NoSuchConnection` for a reference that was never given; `BadState` in the phase `WaitTransport`, since
    /// X.224 waits for the CC before it sends a DR; and then `OutOfMemory`, only if a DR has to be written: never in
    /// class 0, and never if the transport connection is not open. An error changes nothing.
    pub fn disconnect(&mut self, reference: Ref) -> Result<(), CallError>
        ensures ok { OnOk result (self.new ≡ record self.old { end = disconnects reference.0 self.old.end }) }
        ensures allowed { OnOk result (disconnect_error reference.0 self.old.end ≡ None) }
        ensures refused { IfErr result (λ e. by_rule e ≡ disconnect_error reference.0 self.old.end) }
        ensures needed { result ≡ Err CallError.OutOfMemory →
            grows self.old.end.carrier (closed_with reference.0 128 self.old.end.carrier) ≡ true }
        ensures err { OnErr result (self.new ≡ self.old) }
    {
        an_end_is_settled_between_calls();
        if !self.has_given(reference) {
            return Err(CallError::NoSuchConnection);
        }
        if self.awaits_transport(reference) {
            return Err(CallError::BadState);
        }
        give_up(&mut self.carrier, &mut self.lines, reference.0)
    }

    /// Feeds a piece of the stream from the peer. Its packets take effect one after the other, up to one that causes an
    /// indication. Fetch the indications, then feed the rest of the piece again.
    ///
    /// An empty piece changes nothing. While an indication is pending, nothing is used. All of the piece is used once
    /// the end has ended, and also if it ends now by a fault, because memory ran out, or without an indication.
    pub fn feed(&mut self, piece: &[u8]) -> Fed
        ensures feeds { Feeds self.old piece.now result self.new }
        ensures empty { piece.now ≡ [] → (result.used ≡ 0) × (self.new ≡ self.old) }
    {
        an_end_is_settled_between_calls();
        if self.carrier.ended().is_some() {
            return Fed {
                used: piece.len(),
                whole: self.lines.wait(),
            };
        }
        if self.lines.wait() {
            return Fed {
                used: 0,
                whole: true,
            };
        }
        let used = feed_to_indication(self.alloc, &mut self.carrier, &mut self.lines, piece);
        Fed {
            used,
            whole: self.lines.wait(),
        }
    }

    /// The oldest indication of the lowest reference for which one is pending, with this reference; all others stay
    /// pending. Allocates nothing.
    pub fn next_indication(&mut self) -> Option<(Ref, Indication)>
        ensures shown { option_map (λ p. (p.0.0, shown_by p.1)) result ≡ first_shown self.old.end.lines }
        ensures lowest { TellsLowest (option_map (λ p. (p.0.0, shown_by p.1)) result) self.old.end.lines self.new.end.lines }
        ensures rest { self.new ≡ record self.old { end = record self.old.end { lines = without_first self.old.end.lines } } }
    {
        an_end_is_settled_between_calls();
        what_waits_is_told_in_order();
        self.lines.next()
    }

    /// The tokens that this end holds; none for a connection that is gone or never existed, and none once the end has
    /// ended.
    pub fn held(&self, reference: Ref) -> TokenSet
        ensures octet { bits_of result ≡ token_octet (held_by (session_at reference.0 self.now.end)) }
        ensures set { named (bits_of result) ≡ held_by (session_at reference.0 self.now.end) }
        ensures over { IsSome self.now.end.carrier.ended → named (bits_of result) ≡ no_token }
    {
        // The first use of a field gives the invariant of the end.
        let _ = &self.lines;
        an_end_is_settled_between_calls();
        match self.session(reference) {
            None => Tokens::NONE.set(),
            Some(session) => session.held(),
        }
    }

    /// The phase of a connection: `None` for a reference that was never given, and `Ended` once the connection is gone.
    pub fn phase(&self, reference: Ref) -> Option<Phase>
        ensures { result ≡ phase_at reference.0 self.now.end }
    {
        if !self.has_given(reference) {
            return None;
        }
        match self.session(reference) {
            None => Some(Phase::Ended),
            Some(session) => Some(session.phase()),
        }
    }

    /// V(M), the number of the next synchronization point; 0 for a connection that is gone or never existed.
    pub fn next_serial(&self, reference: Ref) -> u32
        ensures { result ≡ (numbers_of (session_at reference.0 self.now.end)).next }
    {
        match self.session(reference) {
            None => 0,
            Some(session) => session.next_serial(),
        }
    }

    /// V(A), the lowest number that is not confirmed; 0 for a connection that is gone or never existed.
    pub fn confirmed_below(&self, reference: Ref) -> u32
        ensures { result ≡ (numbers_of (session_at reference.0 self.now.end)).confirmed }
    {
        match self.session(reference) {
            None => 0,
            Some(session) => session.confirmed_below(),
        }
    }

    /// V(R), the lowest number at which this end may restart; 0 for a connection that is gone or never existed.
    pub fn lowest_restart(&self, reference: Ref) -> u32
        ensures { result ≡ (numbers_of (session_at reference.0 self.now.end)).lowest }
    {
        match self.session(reference) {
            None => 0,
            Some(session) => session.lowest_restart(),
        }
    }

    /// The octets to send to the peer, in order.
    pub fn outgoing(&self) -> &[u8]
        ensures { result.now ≡ self.now.end.carrier.outgoing }
    {
        self.carrier.outgoing()
    }

    /// Says that this many octets of [`Stack::outgoing`] were sent, at most as many as there are.
    pub fn taken(&mut self, octets: usize)
        requires { octets ≤ length self.old.end.carrier.outgoing }
        ensures { self.new ≡ record self.old { end = carried octets self.old.end } }
    {
        an_end_is_settled_between_calls();
        self.carrier.taken(octets);
    }

    /// Says that the byte connection broke: all sessions are lost. If the end has ended, nothing changes.
    pub fn broken(&mut self)
        ensures { self.new ≡ record self.old { end = breaks self.old.end } }
    {
        an_end_is_settled_between_calls();
        if self.ended().is_some() {
            return;
        }
        self.carrier.broken();
        self.lines.lose_all();
    }

    /// Why this end has ended; `None` before it has.
    pub fn ended(&self) -> Option<EndReason>
        ensures { result ≡ self.now.end.carrier.ended }
    {
        self.carrier.ended()
    }

    /// How many received octets are kept: those of the unfinished packet, of the unfinished TSDUs of open connections,
    /// and of data in parts whose last part has not arrived. At most 65,535, plus 2,097,148 for each live connection: a
    /// TSDU of 1,048,576 and data of 1,048,572. Looks at each connection.
    pub fn kept(&self) -> usize
        ensures value { result ≡ kept_octets self.now }
        ensures at_most { result ≤ 65535 + 2097148 * length self.now.end.carrier.live }
    {
        self.carrier.kept() + self.lines.joined(&self.carrier)
    }

    /// The addresses of a live connection: those requested here; or those that the peer's CR and CN name, from the time
    /// at which the CN causes a [`Indication::Connect`], whether that is fetched or not (X.224 section 13.3.4, X.225
    /// section 8). `None` for a connection that is gone, and for a reference that was never given. In each phase but
    /// `WaitCn`, `Aborting` and `Ended` there are addresses. Allocates nothing.
    pub fn addresses(&self, reference: Ref) -> Option<Addresses>
        ensures value { option_map addresses result ≡ addresses_at reference.0 self.now.end }
        ensures known { IfSome (phase_at reference.0 self.now.end) (λ p. shows_loss p ≡ true → IsSome result) }
    {
        an_end_is_settled_between_calls();
        let is_live = self.carrier.is_live(reference);
        if !is_live {
            return None;
        }
        let Some(tsaps) = self.carrier.tsaps(reference) else {
            return None;
        };
        let Some(selectors) = self.lines.selectors(reference.0) else {
            return None;
        };
        Some(Addresses {
            calling_tsap: tsaps.calling,
            called_tsap: tsaps.called,
            calling_selector: selectors.calling,
            called_selector: selectors.called,
        })
    }

    /// How many octets of TSDUs were handed in on a connection and are not yet in [`Stack::outgoing`], because in class
    /// 2 they wait for the peer's credit. 0 if no open connection has this reference. Allocates nothing.
    pub fn unsent(&self, reference: Ref) -> usize
        ensures { result ≡ unsent_at (value_at reference.0 self.now.end.carrier.live) }
    {
        self.carrier.unsent(reference)
    }

    /// The sum of [`Stack::unsent`] over all connections, or `usize::MAX` if it is more. Allocates nothing.
    pub fn backlog(&self) -> usize
        ensures { result ≡ min (backlog_of self.now.end.carrier.live) (2 ^ 64 - 1) }
    {
        self.carrier.backlog()
    }

    /// Whether the byte connection may be closed now: nothing is to be sent, and the end has ended, or there were
    /// connections and none is live. (To request another connection, keep it open.) Allocates nothing.
    pub fn is_over(&self) -> bool
        ensures { result ≡ is_over self.now.end }
    {
        if !self.outgoing().is_empty() {
            return false;
        }
        self.ended().is_some() || (self.carrier.given() > 0 && self.live() == 0)
    }

    /// How many connections are live: those whose transport connection is requested, open or closing. At most 64.
    /// Allocates nothing.
    pub fn live(&self) -> usize
        ensures value { result ≡ length self.now.end.carrier.live }
        ensures at_most { result ≤ 64 }
    {
        self.carrier.live()
    }
}
