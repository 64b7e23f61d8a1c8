//! The sessions of one end, each with the pending indications of its user.

ghost use Rattle.std.specs.Prelude.{◌≡◌, ◌+◌, ◌*◌, ◌<◌, ◌≤◌, ◌++◌, ◌∷◌, ◌==◌, [], true, false, cond, length, take, position, is_some, map};
ghost use Rattle.std.specs.Prelude.{Some, None, IfOk, IfErr, IfSome, OnOk, OnErr, option_map, if◌then◌else◌};
ghost use Rattle.osi_carrier.specs.Orderly.{RiseFrom};
ghost use Rattle.osi_carrier.specs.Rows.{value_at};
ghost use Rattle.osi_session.specs.Calls.{called_by};
ghost use Rattle.osi_session.specs.Listening.{called, came, react};
ghost use Rattle.osi_session.specs.Shown.{Lost, shown_by};
ghost use Rattle.osi_session.specs.Sizes.{limit_of};
ghost use Rattle.osi_stack.specs.Calls.{move_refusal, session_refusal, session_error, Refuses, first_shown, without_first, TellsOf};
ghost use Rattle.osi_stack.specs.Disconnecting.{given_up, gives_up};
ghost use Rattle.osi_stack.specs.Events.{event_input};
ghost use Rattle.osi_stack.specs.Hearing.{loses, all_lost};
ghost use Rattle.osi_stack.specs.Moving.{answers, line_by, carrier_by, to_session};
ghost use Rattle.osi_stack.specs.Needs.{session_needs};
ghost use Rattle.osi_stack.specs.State.{line_waits, waits, how_many_wait, is_used, used_lines, fresh_line, session_in, joined_live};
ghost use Rattle.osi_stack.specs.State.{joined_in};
ghost use Rattle.osi_stack.specs.Addresses.{selectors_in};
ghost use Rattle.osi_stack.specs.Selectors.{selectors_sent, selectors_told, session_selectors};

use crate::calls::make_call;
use crate::events::SessionEvent;
use crate::handling::{handle_event, handle_tsdu};
use crate::pending::Pending;
use crate::selectors::SessionSelectors;
use osi_carrier::lookup::{Referred, is_above, place_in};
use osi_carrier::{Carrier, Ref};
use osi_message::Octets;
use osi_session::{AbortCause, CallError, Indication, Request, Session};
use std::alloc::{AllocError, Global};
use std::marker::Model;

/// A connection: its session, which is gone once the carrier has ended, and the pending indications of its user. While
/// there is a session, there is room for one more indication.
#[derive(Drop)]
pub struct Line {
    reference: u16,
    session: Option<Session>,
    waiting: Pending<Indication>,
    /// The selectors of its CN, once the CN was sent here or indicated.
    selectors: Option<SessionSelectors>,
}

impl Model for Line {
    ghost use Rattle.std.specs.Prelude.{ℕ, ◌<◌, ◌≡◌, true, map, is_some, option_map};
    ghost use Rattle.osi_session.specs.Shown.{shown_by};
    ghost use Rattle.osi_stack.specs.Selectors.{session_selectors};
    ghost use Rattle.osi_stack.specs.State.{Line};

    ghost Value = { ℕ × Line };

    ghost view = { λ l. (
      l.reference,
      record {
        session = l.session;
        waiting = map shown_by l.waiting.items;
        selectors = option_map session_selectors l.selectors;
      },
    ) };

    ghost invariant = { λ l. is_some l.session ≡ true → 0 < l.waiting.room };
}

/// Room for the indications of a connection.
pub fn room(alloc: Global) -> Result<Pending<Indication>, AllocError>
    ensures empty { IfOk result (λ w. w.items ≡ []) }
    ensures room { IfOk result (λ w. 0 < w.room) }
{
    Pending::new(alloc)
}

/// The indication that the transport connection is lost.
fn lost() -> Indication
    ensures { shown_by result ≡ Lost }
{
    Indication::ProviderAbort {
        cause: AbortCause::Lost,
    }
}

/// The session of a line is gone, and its user is told or not. The function is kept out of line: otherwise stack space
/// for a session would be reserved on the data path, too.
#[inline(never)]
fn forget(session: &mut Option<Session>, waiting: &mut Pending<Indication>, is_shown: bool)
    requires { 0 < waiting.old.room }
    ensures session { session.new ≡ None }
    ensures waiting { map shown_by waiting.new.items ≡ map shown_by waiting.old.items ++ (if is_shown then Lost ∷ [] else []) }
{
    *session = None;
    if is_shown {
        waiting.push(lost());
    }
}

/// Keeps the session selectors of a CN. The function is kept out of line: otherwise stack space for them would be
/// reserved on the data path, too.
#[inline(never)]
fn keep_selectors(selectors: &mut Option<SessionSelectors>, event: &SessionEvent<'_>)
    ensures { option_map session_selectors selectors.new ≡ selectors_told (event_input event.now) }
{
    *selectors = SessionSelectors::of_event(event);
}

impl Referred for Line {
    ghost reference_of = { λ row. row.0 };

    fn reference(&self) -> u16 {
        self.reference
    }
}

impl Line {
    /// A connection with this session, and no pending indication.
    pub fn new(
        reference: u16,
        session: Session,
        waiting: Pending<Indication>,
        selectors: Option<SessionSelectors>,
    ) -> Self
        requires empty { waiting.items ≡ [] }
        requires room { 0 < waiting.room }
        requires selectors { option_map session_selectors selectors ≡ selectors_sent session.waiting }
        ensures { result ≡ (reference, fresh_line session) }
    {
        Line {
            reference,
            session: Some(session),
            waiting,
            selectors,
        }
    }

    /// Whether an indication is pending.
    fn waits(&self) -> bool
        ensures { result ≡ line_waits self.now.1 }
    {
        !self.waiting.is_empty()
    }

    /// Whether the connection is live, or an indication is pending.
    fn is_used(&self, carrier: &Carrier) -> bool
        ensures { result ≡ is_used carrier.now.state.live self.now }
    {
        carrier.is_live(Ref(self.reference)) || self.waits()
    }

    /// The session, until the carrier ends.
    fn session(&self) -> Option<&Session>
        ensures { option_map (λ s. s.now) result ≡ self.now.1.session }
    {
        self.session.as_ref()
    }

    /// The session selectors of its CN.
    fn selectors(&self) -> Option<SessionSelectors>
        ensures { option_map session_selectors result ≡ self.now.1.selectors }
    {
        self.selectors
    }

    /// How many octets of an unfinished SSDU the session has joined, if the connection is live.
    fn joined(&self, carrier: &Carrier) -> usize
        ensures value { result ≡ joined_live carrier.now.state.live self.now }
        ensures at_most { result ≤ 1048572 * cond (is_some (value_at self.now.0 carrier.now.state.live)) 1 0 }
    {
        match &self.session {
            Some(session) if carrier.is_live(Ref(self.reference)) => session.joined(),
            _ => 0,
        }
    }

    /// The session handles an event. Data that it expects is indicated in the buffer of its TSDU, if it has one: its octets
    /// are not copied. There is room for this indication, and afterwards for one more. If memory runs out, the session is
    /// lost in its previous state.
    #[inline(always)]
    fn receive(
        &mut self,
        alloc: Global,
        event: SessionEvent<'_>,
        carrier: &mut Carrier,
    ) -> Result<(), AllocError>
        ensures reference { self.new.0 ≡ self.old.0 }
        ensures ok { OnOk result (self.new ≡ (self.old.0, line_by self.old.1 self.old.1.session (event_input event.entry))) }
        ensures carrier { OnOk result (carrier.new
            ≡ record carrier.old { state = carrier_by self.old.0 self.old.1.session (event_input event.entry) carrier.old.state }) }
        ensures lost { OnErr result (self.new ≡ (self.old.0, loses self.old.1)) }
        ensures err { OnErr result (carrier.new ≡ carrier.old) }
        ensures needed { OnErr result (session_needs self.old.0 self.old.1.session (event_input event.entry) carrier.old.state ≡ true) }
    {
        let Some(session) = &self.session else {
            return Ok(());
        };
        match event {
            SessionEvent::Tsdu(tsdu) => match session.show_data(tsdu) {
                Ok(shown) => {
                    let Ok(()) = self.waiting.reserve(2) else {
                        drop(shown);
                        self.lose();
                        return Err(AllocError);
                    };
                    self.waiting.push(shown);
                    Ok(())
                }
                Err(tsdu) => self.receive_other(alloc, tsdu.as_slice(), carrier),
            },
            SessionEvent::Lent(tsdu) => self.receive_lent(alloc, tsdu, carrier),
            _ => self.receive_any(alloc, &event, carrier),
        }
    }

    /// The session handles a TSDU that is lent. Data that it expects is copied straight into its indication. If memory
    /// runs out, the session is lost in its previous state.
    #[inline(always)]
    fn receive_lent(
        &mut self,
        alloc: Global,
        tsdu: &[u8],
        carrier: &mut Carrier,
    ) -> Result<(), AllocError>
        ensures reference { self.new.0 ≡ self.old.0 }
        ensures ok { OnOk result (self.new ≡ (self.old.0, line_by self.old.1 self.old.1.session (came tsdu.now))) }
        ensures carrier { OnOk result (carrier.new
            ≡ record carrier.old { state = carrier_by self.old.0 self.old.1.session (came tsdu.now) carrier.old.state }) }
        ensures lost { OnErr result (self.new ≡ (self.old.0, loses self.old.1)) }
        ensures err { OnErr result (carrier.new ≡ carrier.old) }
        ensures needed { OnErr result (session_needs self.old.0 self.old.1.session (came tsdu.now) carrier.old.state ≡ true) }
    {
        let Some(session) = &self.session else {
            return Ok(());
        };
        let Some(user_data) = session.expected_data(tsdu) else {
            return self.receive_other(alloc, tsdu, carrier);
        };
        let Ok(user_data) = Octets::copy(alloc, user_data) else {
            self.lose();
            return Err(AllocError);
        };
        let Ok(()) = self.waiting.reserve(2) else {
            drop(user_data);
            self.lose();
            return Err(AllocError);
        };
        self.waiting.push(Indication::Data { user_data });
        Ok(())
    }

    /// The session handles a TSDU that is not data that it expects. The indication of a point or of a confirmation
    /// that it expects is made where it is kept. If memory runs out, the session is lost in its previous state. The function is
    /// kept out of line, because data is more frequent.
    #[inline(never)]
    #[tactic(auto, using(crate::proofs::carried::sessions_that_are_lost::lost_line))]
    fn receive_other(
        &mut self,
        alloc: Global,
        tsdu: &[u8],
        carrier: &mut Carrier,
    ) -> Result<(), AllocError>
        ensures reference { self.new.0 ≡ self.old.0 }
        ensures ok { OnOk result (self.new ≡ (self.old.0, line_by self.old.1 self.old.1.session (came tsdu.now))) }
        ensures carrier { OnOk result (carrier.new
            ≡ record carrier.old { state = carrier_by self.old.0 self.old.1.session (came tsdu.now) carrier.old.state }) }
        ensures lost { OnErr result (self.new ≡ (self.old.0, loses self.old.1)) }
        ensures err { OnErr result (carrier.new ≡ carrier.old) }
        ensures needed { OnErr result (session_needs self.old.0 self.old.1.session (came tsdu.now) carrier.old.state ≡ true) }
    {
        let Some(session) = &mut self.session else {
            return Ok(());
        };
        let phase = session.phase();
        if let Some(number) = session.take_minor(tsdu) {
            let Ok(()) = self.waiting.reserve(2) else {
                forget(&mut self.session, &mut self.waiting, phase.shows_loss());
                return Err(AllocError);
            };
            self.waiting.push(Indication::Minor {
                number,
                confirm: true,
                user_data: Octets::new(alloc),
            });
            return Ok(());
        }
        if let Some(number) = session.take_confirmation(tsdu) {
            let Ok(()) = self.waiting.reserve(2) else {
                forget(&mut self.session, &mut self.waiting, phase.shows_loss());
                return Err(AllocError);
            };
            self.waiting.push(Indication::MinorConfirmed {
                number,
                user_data: Octets::new(alloc),
            });
            return Ok(());
        }
        self.receive_rare(alloc, tsdu, carrier)
    }

    /// The session handles a TSDU that is neither data nor a point nor a confirmation that it expects. If memory runs out, the
    /// session is lost in its previous state.
    fn receive_rare(
        &mut self,
        alloc: Global,
        tsdu: &[u8],
        carrier: &mut Carrier,
    ) -> Result<(), AllocError>
        ensures reference { self.new.0 ≡ self.old.0 }
        ensures ok { OnOk result (self.new ≡ (self.old.0, line_by self.old.1 self.old.1.session (came tsdu.now))) }
        ensures carrier { OnOk result (carrier.new
            ≡ record carrier.old { state = carrier_by self.old.0 self.old.1.session (came tsdu.now) carrier.old.state }) }
        ensures lost { OnErr result (self.new ≡ (self.old.0, loses self.old.1)) }
        ensures err { OnErr result (carrier.new ≡ carrier.old) }
        ensures needed { OnErr result (session_needs self.old.0 self.old.1.session (came tsdu.now) carrier.old.state ≡ true) }
    {
        let Some(session) = &mut self.session else {
            return Ok(());
        };
        let phase = session.phase();
        let Ok(connects) = handle_tsdu(
            alloc,
            session,
            &mut self.waiting,
            tsdu,
            carrier,
            self.reference,
        ) else {
            forget(&mut self.session, &mut self.waiting, phase.shows_loss());
            return Err(AllocError);
        };
        if connects {
            keep_selectors(&mut self.selectors, &SessionEvent::Lent(tsdu));
        }
        Ok(())
    }

    /// The session handles an event other than a TSDU. If memory runs out, the session is lost in its previous state.
    fn receive_any(
        &mut self,
        alloc: Global,
        event: &SessionEvent<'_>,
        carrier: &mut Carrier,
    ) -> Result<(), AllocError>
        ensures reference { self.new.0 ≡ self.old.0 }
        ensures ok { OnOk result (self.new ≡ (self.old.0, line_by self.old.1 self.old.1.session (event_input event.now))) }
        ensures carrier { OnOk result (carrier.new
            ≡ record carrier.old { state = carrier_by self.old.0 self.old.1.session (event_input event.now) carrier.old.state }) }
        ensures lost { OnErr result (self.new ≡ (self.old.0, loses self.old.1)) }
        ensures err { OnErr result (carrier.new ≡ carrier.old) }
        ensures needed { OnErr result (session_needs self.old.0 self.old.1.session (event_input event.now) carrier.old.state ≡ true) }
    {
        let Some(session) = &mut self.session else {
            return Ok(());
        };
        let phase = session.phase();
        let Ok(connects) = handle_event(
            alloc,
            session,
            &mut self.waiting,
            event,
            carrier,
            self.reference,
        ) else {
            forget(&mut self.session, &mut self.waiting, phase.shows_loss());
            return Err(AllocError);
        };
        if connects {
            keep_selectors(&mut self.selectors, event);
        }
        Ok(())
    }

    /// The carrier has ended, and the session is lost.
    fn lose(&mut self)
        ensures { self.new ≡ (self.old.0, loses self.old.1) }
    {
        let Some(session) = &self.session else {
            return;
        };
        let is_shown = session.phase().shows_loss();
        forget(&mut self.session, &mut self.waiting, is_shown);
    }

    /// The connection is given up: its session is lost, and its user receives no more indications.
    fn give_up(&mut self)
        ensures { self.new ≡ (self.old.0, given_up self.old.1) }
    {
        self.waiting.clear();
        let Some(session) = &mut self.session else {
            return;
        };
        drop(session.broken());
    }
}

/// The connections of one end, in the order in which their references were given, and the number of those for which an
/// indication is pending: so a packet costs the same with few connections and with many.
#[derive(Drop)]
pub struct Lines {
    rows: Vec<Line>,
    /// Whether each reference is above those before it. If so, a reference is looked up first at the place that its
    /// number suggests.
    rises: bool,
    waiting: usize,
    /// The place of the connection that handled an event last. If an indication is pending for only one connection, it
    /// is usually this one.
    heard: usize,
}

impl Model for Lines {
    ghost use Rattle.std.specs.Prelude.{◌≡◌, true};
    ghost use Rattle.osi_carrier.specs.Orderly.{RiseFrom};
    ghost use Rattle.osi_carrier.specs.Rows.{Rows};
    ghost use Rattle.osi_stack.specs.State.{Line, how_many_wait};

    ghost Value = { Rows Line };

    ghost view = { λ l. l.rows.items };

    ghost invariant = { λ l. (l.waiting ≡ how_many_wait l.rows.items) × (l.rises ≡ true → RiseFrom 0 l.rows.items) };
}

/// The place of the first connection for which an indication is pending.
fn first_place(rows: &[Line]) -> Option<usize>
    ensures { result ≡ position (λ row. line_waits row.1) rows.now }
{
    rows.iter().position(|line| line.waits())
}

/// For how many connections an indication is pending.
fn count_waiting(rows: &[Line]) -> usize
    ensures { result ≡ how_many_wait rows.now }
{
    let mut waiting = 0;
    'lines: for line in rows {
        if line.waits() {
            waiting += 1;
        }
    }
    waiting
}

/// How many octets the sessions of live connections have joined.
fn count_joined(rows: &[Line], carrier: &Carrier) -> usize
    requires rise { RiseFrom 0 rows.now }
    requires few { length carrier.now.state.live ≤ 64 }
    ensures value { result ≡ joined_in carrier.now.state.live rows.now }
    ensures at_most { result ≤ 1048572 * length carrier.now.state.live }
{
    let mut octets = 0;
    'lines: for line in rows {
        octets += line.joined(carrier);
    }
    octets
}

/// Drops the connections that are gone and have no pending indication.
fn drop_unused(rows: &mut Vec<Line>, carrier: &Carrier)
    ensures { rows.new.items ≡ used_lines carrier.now.state.live rows.old.items }
{
    rows.retain(|line| line.is_used(carrier));
}

/// All sessions are lost.
fn lose_each(rows: &mut Vec<Line>)
    ensures { rows.new.items ≡ all_lost rows.old.items }
{
    for line in rows.iter_mut() {
        line.lose();
    }
}

impl Lines {
    /// There is no connection.
    pub fn new(alloc: Global) -> Self
        ensures { result ≡ [] }
    {
        Lines {
            rows: Vec::new(alloc),
            rises: true,
            waiting: 0,
            heard: 0,
        }
    }

    /// Whether an indication is pending.
    pub fn wait(&self) -> bool
        ensures { result ≡ waits self.now }
    {
        self.waiting > 0
    }

    /// How many octets the sessions of live connections have joined.
    pub fn joined(&self, carrier: &Carrier) -> usize
        requires rise { RiseFrom 0 self.now }
        requires few { length carrier.now.state.live ≤ 64 }
        ensures value { result ≡ joined_in carrier.now.state.live self.now }
        ensures at_most { result ≤ 1048572 * length carrier.now.state.live }
    {
        count_joined(self.rows.as_slice(), carrier)
    }

    /// The line of a reference.
    fn line(&self, reference: u16) -> Option<&Line>
        ensures { option_map (λ l. l.now.1) result ≡ value_at reference self.now }
    {
        match place_in(self.rows.as_slice(), self.rises, reference) {
            None => None,
            Some(place) => Some(&self.rows[place]),
        }
    }

    /// Whether a connection has this reference.
    pub fn has(&self, reference: u16) -> bool
        ensures { result ≡ is_some (value_at reference self.now) }
    {
        self.line(reference).is_some()
    }

    /// The session of a reference.
    pub fn session(&self, reference: u16) -> Option<&Session>
        ensures { option_map (λ s. s.now) result ≡ session_in (value_at reference self.now) }
    {
        match self.line(reference) {
            None => None,
            Some(line) => line.session(),
        }
    }

    /// The session selectors of a reference.
    pub fn selectors(&self, reference: u16) -> Option<SessionSelectors>
        ensures { option_map session_selectors result ≡ selectors_in (value_at reference self.now) }
    {
        match self.line(reference) {
            None => None,
            Some(line) => line.selectors(),
        }
    }

    /// The oldest indication of the first connection that has one.
    pub fn next(&mut self) -> Option<(Ref, Indication)>
        ensures shown { option_map (λ p. (p.0.0, shown_by p.1)) result ≡ first_shown self.old }
        ensures rest { self.new ≡ without_first self.old }
    {
        if self.waiting == 0 {
            return None;
        }
        let mut place = self.heard;
        if self.waiting > 1 || place >= self.rows.len() || !self.rows[place].waits() {
            let Some(first) = first_place(self.rows.as_slice()) else {
                return None;
            };
            place = first;
        }
        let line = &mut self.rows[place];
        let reference = line.reference();
        let Some(indication) = line.waiting.pop() else {
            return None;
        };
        if !line.waits() {
            self.waiting -= 1;
        }
        Some((Ref(reference), indication))
    }

    /// The session of a reference handles an event. If memory runs out, the session is lost in its previous state.
    #[inline(always)]
    pub fn tell(
        &mut self,
        alloc: Global,
        reference: u16,
        event: SessionEvent<'_>,
        carrier: &mut Carrier,
    ) -> Result<(), AllocError>
        ensures ok { OnOk result (record { carrier = carrier.new.state; lines = self.new }
            ≡ to_session reference (event_input event.entry) (record { carrier = carrier.old.state; lines = self.old })) }
        ensures held { carrier.new.held ≡ carrier.old.held }
        ensures lost { OnErr result (all_lost self.new ≡ all_lost self.old) }
        ensures err { OnErr result (carrier.new ≡ carrier.old) }
        ensures needed { OnErr result (session_needs reference (session_in (value_at reference self.old)) (event_input event.entry)
            carrier.old.state ≡ true) }
    {
        let Some(place) = place_in(self.rows.as_slice(), self.rises, reference) else {
            return Ok(());
        };
        let line = &mut self.rows[place];
        let waited = line.waits();
        let result = line.receive(alloc, event, carrier);
        if line.waits() && !waited {
            self.waiting += 1;
        }
        self.heard = place;
        result
    }

    /// A call of the user of the session of a reference, which causes no indication. An error changes nothing.
    pub fn call(
        &mut self,
        reference: u16,
        request: Request,
        carrier: &mut Carrier,
    ) -> Result<(), CallError>
        ensures ok { OnOk result (record { carrier = carrier.new.state; lines = self.new }
            ≡ to_session reference (called (called_by request.entry)) (record { carrier = carrier.old.state; lines = self.old })) }
        ensures held { carrier.new.held ≡ carrier.old.held }
        ensures allowed { OnOk result (session_refusal reference (session_in (value_at reference self.old)) (called_by request.entry)
            carrier.old.state ≡ None) }
        ensures refused { IfErr result (λ e.
            Refuses e (session_error (session_in (value_at reference self.old)) (called_by request.entry)) (session_refusal
            reference (session_in (value_at reference self.old)) (called_by request.entry) carrier.old.state)) }
        ensures err { OnErr result ((self.new ≡ self.old) × (carrier.new ≡ carrier.old)) }
    {
        let Some(place) = place_in(self.rows.as_slice(), self.rises, reference) else {
            return Err(CallError::Ended);
        };
        let line = &mut self.rows[place];
        let Some(session) = &mut line.session else {
            return Err(CallError::Ended);
        };
        make_call(session, carrier, line.reference, request)
    }

    /// The carrier has ended, and all sessions are lost.
    pub fn lose_all(&mut self)
        ensures { self.new ≡ all_lost self.old }
    {
        lose_each(&mut self.rows);
        self.waiting = count_waiting(self.rows.as_slice());
    }

    /// The connection of a reference is given up: its session is lost, and its user receives no more indications.
    pub fn give_up(&mut self, reference: u16)
        ensures { self.new ≡ gives_up reference self.old }
    {
        let Some(place) = place_in(self.rows.as_slice(), self.rises, reference) else {
            return;
        };
        self.rows[place].give_up();
        self.waiting = count_waiting(self.rows.as_slice());
    }

    /// How many connections there are.
    pub fn len(&self) -> usize
        ensures { result ≡ length self.now }
    {
        self.rows.len()
    }

    /// Adds a new connection. An allocation failure changes nothing.
    pub fn push(&mut self, line: Line) -> Result<(), AllocError>
        ensures ok { OnOk result (self.new ≡ self.old ++ line ∷ []) }
        ensures err { OnErr result (self.new ≡ self.old) }
    {
        let rises = self.rises && is_above(self.rows.as_slice(), line.reference());
        let Ok(()) = self.rows.push(line) else {
            return Err(AllocError);
        };
        self.rises = rises;
        self.waiting = count_waiting(self.rows.as_slice());
        Ok(())
    }

    /// Keeps only the first `len` connections.
    pub fn truncate(&mut self, len: usize)
        ensures { self.new ≡ take len self.old }
    {
        self.rows.truncate(len);
        self.waiting = count_waiting(self.rows.as_slice());
    }

    /// Drops the connections that are gone and have no pending indication.
    pub fn sweep(&mut self, carrier: &Carrier)
        ensures { self.new ≡ used_lines carrier.now.state.live self.old }
    {
        drop_unused(&mut self.rows, carrier);
        self.waiting = count_waiting(self.rows.as_slice());
    }
}
