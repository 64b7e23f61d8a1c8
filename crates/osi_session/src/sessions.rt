//! One side of one session connection: its calls, and what it takes.

ghost use Rattle.osi_spdu.specs.Fields.{bits_of};
ghost use Rattle.std.specs.Prelude.{◌≡◌, ◌<◌, false, length, option_map, is_none, Some, IfOk, OnErr};
ghost use Rattle.osi_session.specs.Openings.{asked_for};
ghost use Rattle.osi_session.specs.Sessions.{unit_in};
ghost use Rattle.osi_session.specs.Steps.{reply_of};
ghost use Rattle.osi_message.specs.Meanings.{DT, meant_by};
ghost use Rattle.osi_message.specs.Parting.{in_one, is_whole, tsdus_sent};
ghost use Rattle.osi_message.specs.Written.{user_data_of};
ghost use Rattle.osi_session.specs.Sizes.{limit_of};

use crate::calling::{MOST_USER_DATA, allow_data, decide, most_whole};
use crate::expected::{Expected, confirmation_shown, minor_shown};
use crate::faults::CallError;
use crate::grouping::{Reactions, judge_unread, take_all};
use crate::hearing::{Heard, Joined};
use crate::indications::Indication;
use crate::joining::joined_octets;
use crate::lending::{DataParts, lent_within};
use crate::opening::Opening;
use crate::phases::Phase;
use crate::plans::Plan;
use crate::reactions::{Reaction, Reply};
use crate::requests::Request;
use crate::selected::is_profile;
use crate::sizes::size_limit;
use crate::state::State;
use crate::taken::Taken;
use osi_message::{Message, Octets, Sent, data_head, laws};
use osi_spdu::{Group, SpduFault, TokenSet, read_group};
use std::alloc::{AllocError, Global};
use std::marker::Model;

mod expecting;
mod points;

/// One side of one session connection (X.225 version 2): which call its user may make now, what each received unit
/// does, who holds which token, and which number the next synchronization point has. It joins the parts of one Data.
#[derive(Drop)]
pub struct Session {
    alloc: Global,
    state: State,
    /// The most octets of data that may be sent in one TSDU in this state; 0 if no data may be sent.
    room: usize,
    /// The CN, until the transport connection is open.
    waiting: Option<Sent>,
    /// The octets of an unfinished SSDU, at most 1,048,572.
    joined: Option<Octets>,
}

impl Model for Session {
    ghost use Rattle.std.specs.Prelude.{◌≡◌, ◌≤◌, true, length, IsSome, option_map};
    ghost use Rattle.std.specs.Option.{option_and_then};
    ghost use Rattle.osi_message.specs.Parting.{in_one};
    ghost use Rattle.osi_session.specs.Joining.{joined_octets, kept_in};
    ghost use Rattle.osi_session.specs.Listening.{Listener};
    ghost use Rattle.osi_session.specs.Phases.{is_wait_transport};
    ghost use Rattle.osi_session.specs.Room.{most_whole};
    ghost use Rattle.osi_session.specs.Sessions.{unit_in};
    ghost use Rattle.osi_session.specs.Sound.{IsSound};

    ghost Value = { Listener };

    ghost view = { λ s. record { state = s.state; waiting = option_and_then unit_in s.waiting; joined = s.joined } };

    ghost invariant = { λ s. IsSound s.state × (is_wait_transport s.state.phase ≡ true → IsSome s.waiting)
        × (option_map in_one (option_and_then unit_in s.waiting) ≡ s.waiting)
        × (kept_in s.state.phase s.joined ≡ s.joined)
        × (length (joined_octets s.joined) ≤ 1048572)
        × (s.room ≡ most_whole s.state) };
}

/// The octets of an answer, if there is one. An allocation failure is possible only if there is one.
#[inline(never)]
fn written_reply(alloc: Global, reply: Option<Reply>) -> Result<Option<Sent>, AllocError>
    ensures ok { IfOk result (λ s. s ≡ option_map in_one (option_map reply_of reply)) }
    ensures err { OnErr result (is_none (option_map reply_of reply) ≡ false) }
{
    let Some(reply) = reply else {
        return Ok(None);
    };
    let sent = written_message(alloc, &reply.message())?;
    Ok(Some(sent))
}

/// The octets of a message, in one TSDU.
fn written_message(alloc: Global, message: &Message<'_>) -> Result<Sent, AllocError>
    requires { length (user_data_of (meant_by message.now)) < 65000 }
    ensures { IfOk result (λ s. s ≡ in_one (meant_by message.now)) }
{
    Sent::of(alloc, message)
}

/// The CN of a caller, which reads back as this one.
fn written_connect(alloc: Global, opening: &Opening) -> Result<Sent, AllocError>
    requires { length opening.now.user_data.now < 65000 }
    ensures octets { IfOk result (λ s. s ≡ in_one (asked_for opening.now)) }
    ensures read { IfOk result (λ s. unit_in s ≡ Some (asked_for opening.now)) }
{
    laws::what_is_sent_is_read();
    let sent = written_message(alloc, &opening.message())?;
    Ok(sent)
}

impl Session {
    ghost use Rattle.std.specs.Prelude.{◌≡◌, ◌++◌, [], ◌∷◌, true, false, map, option_map, None, Some, Ok, IsSome, IfSome, OnSome, IfNone};
    ghost use Rattle.std.specs.Prelude.{◌≢◌, IfOk, IsOk, OnOk, IfErr, OnErr, length, ◌≤◌};
    ghost use Rattle.osi_spdu.specs.Groups.{units_of};
    ghost use Rattle.osi_message.specs.Reading.{said_by_units};
    ghost use Rattle.osi_message.specs.Tokens.{named, token_octet};
    ghost use Rattle.osi_session.specs.Calls.{Data, called_by};
    ghost use Rattle.osi_session.specs.Lent.{tsdus_lent, FitTsdus};
    ghost use Rattle.osi_session.specs.Allowed.{allowed};
    ghost use Rattle.osi_session.specs.Listening.{called, taken, unread, came, opened, refused, broken, in_state, moved, react};
    ghost use Rattle.osi_session.specs.Phases.{is_wait_transport};
    ghost use Rattle.osi_session.specs.Sessions.{Refused, CanBeSent, IsPlanOf, is_memory, opens, refusal_of, awaits, shown_in};
    ghost use Rattle.osi_session.specs.Sessions.{takes_memory, Takes};
    ghost use Rattle.osi_session.specs.Shown.{shown_by};
    ghost use Rattle.osi_session.specs.Sound.{IsSound};
    ghost use Rattle.osi_session.specs.Steps.{shown_list, joined_after, hearing_of_all};
    ghost use Rattle.osi_session.specs.Joining.{joined_octets, kept_in};

    /// The calling side. The CN is made now, and sent once the transport connection is open.
    ///
    /// `NotSelected` if the functional units can't be selected together (half-duplex with any of minor, major,
    /// resynchronize and negotiated release, or only duplex); then `TooLong` above 10,240 octets of user data; then
    /// `OutOfMemory`.
    #[tactic(auto, using(crate::proofs::runs::the_invariant_in_memory::asking_sound))]
    pub fn caller(alloc: Global, opening: &Opening) -> Result<Session, CallError>
        ensures begins { IfOk result (λ s. s ≡ opens opening.now) }
        ensures accepted { OnOk result (refusal_of opening.now ≡ None) }
        ensures refused { IfErr result (λ e. Refused e (refusal_of opening.now)) }
    {
        if !is_profile(opening.requirements) {
            return Err(CallError::NotSelected);
        }
        if opening.user_data.len() > MOST_USER_DATA {
            return Err(CallError::TooLong);
        }
        let state = State::asking(opening);
        match written_connect(alloc, opening) {
            Ok(sent) => Ok(Session {
                alloc,
                state,
                room: most_whole(&state),
                waiting: Some(sent),
                joined: None,
            }),
            Err(_) => Err(CallError::OutOfMemory),
        }
    }

    /// The called side, which waits for a CN.
    #[tactic(auto, using(crate::proofs::runs::the_invariant_in_memory::awaiting_sound))]
    pub fn called(alloc: Global) -> Session
        ensures { result ≡ awaits }
    {
        let state = State::AWAITING;
        Session {
            alloc,
            state,
            room: most_whole(&state),
            waiting: None,
            joined: None,
        }
    }

    /// Goes to a state; its phase decides whether an unfinished SSDU is kept or dropped.
    #[inline(always)]
    fn go(&mut self, next: State)
        requires sound { IsSound next }
        requires begun { is_wait_transport next.phase ≡ true → is_wait_transport self.old.state.phase ≡ true }
        ensures { self.new ≡ in_state self.old next }
    {
        if !next.phase.may_hold() {
            self.joined = None;
        }
        self.room = most_whole(&next);
        self.state = next;
    }

    /// The transport connection is open: returns the CN that is to be sent now. In any phase other than WaitTransport,
    /// `None`, and nothing changes.
    #[tactic(auto, unfolding(crate::specs::Listening::react))]
    pub fn opened(&mut self) -> Option<Sent>
        ensures state { self.new ≡ (react self.old opened).next }
        ensures sent { result ≡ option_map in_one (react self.old opened).reply }
    {
        if !self.state.phase.is_wait_transport() {
            return None;
        }
        self.go(self.state.without_tokens(Phase::Connecting));
        self.waiting.take()
    }

    /// There is no transport connection, for this reason (X.224 section 13.5.3). In any phase other than
    /// WaitTransport, `None`, and nothing changes.
    #[tactic(auto, unfolding(crate::specs::Listening::react))]
    pub fn refused(&mut self, reason: u8) -> Option<Indication>
        ensures state { self.new ≡ (react self.old (refused reason)).next }
        ensures shown { shown_list result ≡ (react self.old (refused reason)).shown }
    {
        if !self.state.phase.is_wait_transport() {
            return None;
        }
        self.go(self.state.without_tokens(Phase::Ended));
        Some(Indication::RefusedByTransport { reason })
    }

    /// What a call of the user would do; nothing changes.
    #[tactic(auto, using(crate::proofs::tables::what_the_table_of_calls_answers::refused, crate::proofs::tables::what_the_table_of_calls_answers::wanting, crate::proofs::moves::the_move_of_each_input::call_next, crate::proofs::moves::the_move_of_each_input::call_sends))]
    pub fn plan(&self, request: Request) -> Result<Plan, CallError>
        ensures state { IfOk result (λ p. (react self.now (called (called_by request.entry))).next ≡ in_state self.now p.next) }
        ensures sent { IfOk result (λ p.
            p.sent ≡ tsdus_sent (limit_of self.now.state) (react self.now (called (called_by request.entry))).reply) }
        ensures planned { IfOk result (λ p. IsPlanOf (called_by request.entry) p) }
        ensures was { IfOk result (λ p. p.was ≡ self.now.state) }
        ensures accepted { OnOk result ((react self.now (called (called_by request.entry))).error ≡ None) }
        ensures sendable { OnOk result (CanBeSent (react self.now (called (called_by request.entry))).reply) }
        ensures refused { IfErr result (λ e. Refused e (react self.now (called (called_by request.entry))).error) }
    {
        let step = decide(&self.state, &request)?;
        match Sent::within(self.alloc, size_limit(&self.state), &step.sent) {
            Ok(sent) => Ok(Plan {
                was: self.state,
                next: step.next,
                sent,
            }),
            Err(_) => Err(CallError::OutOfMemory),
        }
    }

    /// Carries out a plan, and allocates nothing: the session has the state of the plan, and the TSDU is to be sent.
    /// `None` if the session is not in the state in which the plan was made: then nothing changes, and nothing is to
    /// be sent. So no plan brings an ended session back.
    pub fn commit(&mut self, plan: Plan) -> Option<Sent>
        ensures state { OnSome result (self.new ≡ in_state self.old plan.next) }
        ensures sent { IfSome result (λ s. s ≡ plan.sent) }
        ensures planned { OnSome result (plan.was ≡ self.old.state) }
        ensures stale { IfNone result (plan.was ≢ self.old.state) }
        ensures rests { IfNone result (self.new ≡ self.old) }
    {
        if !plan.was.is_same(&self.state) {
            return None;
        }
        self.go(plan.next);
        Some(plan.sent)
    }

    /// A call of the user (X.225 section 7), planned and carried out at once: the TSDUs to send, or the first error
    /// that applies. A refused call changes nothing. `OutOfMemory` is possible only if no other error applies.
    pub fn call(&mut self, request: Request) -> Result<Sent, CallError>
        ensures state { OnOk result (self.new ≡ (react self.old (called (called_by request.entry))).next) }
        ensures sent { IfOk result (λ s.
            s ≡ tsdus_sent (limit_of self.old.state) (react self.old (called (called_by request.entry))).reply) }
        ensures accepted { OnOk result ((react self.old (called (called_by request.entry))).error ≡ None) }
        ensures sendable { OnOk result (CanBeSent (react self.old (called (called_by request.entry))).reply) }
        ensures refused { IfErr result (λ e. Refused e (react self.old (called (called_by request.entry))).error) }
        ensures err { OnErr result (self.new ≡ self.old) }
    {
        let plan = self.plan(request)?;
        let Some(sent) = self.commit(plan) else {
            unreachable!()
        };
        Ok(sent)
    }

    /// Whether this data may be sent now, in one TSDU. The state is not looked at: what it allows is known.
    #[inline(always)]
    fn goes_whole(&self, user_data: &[u8]) -> bool
        ensures allowed { result ≡ true →
            allowed self.now.state (Data user_data.now) ≡ Ok (record { next = self.now.state; sent = DT user_data.now }) }
        ensures whole { result ≡ true → is_whole (limit_of self.now.state) user_data.now ≡ true }
        ensures sound { IsSound self.now.state }
        ensures kept { kept_in self.now.state.phase self.now.joined ≡ self.now.joined }
    {
        let room = self.room;
        if user_data.is_empty() {
            return false;
        }
        user_data.len() <= room
    }

    /// A call of the user for data, which changes nothing and needs no plan. It does what [`Session::call`] does with
    /// it.
    #[inline(always)]
    #[tactic(auto, using(crate::proofs::tables::what_the_table_of_calls_answers::refused, crate::proofs::tables::what_the_table_of_calls_answers::wanting), unfolding(osi_message::specs::Written::user_data_of))]
    pub fn call_data(&self, user_data: &[u8]) -> Result<Sent, CallError>
        ensures state { OnOk result (self.now ≡ (react self.now (called (Data user_data.now))).next) }
        ensures sent { IfOk result (λ s. s ≡ tsdus_sent (limit_of self.now.state) (react self.now (called (Data user_data.now))).reply) }
        ensures accepted { OnOk result ((react self.now (called (Data user_data.now))).error ≡ None) }
        ensures sendable { OnOk result (CanBeSent (react self.now (called (Data user_data.now))).reply) }
        ensures refused { IfErr result (λ e. Refused e (react self.now (called (Data user_data.now))).error) }
    {
        if !self.goes_whole(user_data) {
            // A value of its own: otherwise other data, too, would be answered in the stack space of this one.
            let answer = self.call_bounded_data(user_data);
            return answer;
        }
        match Sent::whole(self.alloc, user_data) {
            Ok(sent) => Ok(sent),
            Err(_) => Err(CallError::OutOfMemory),
        }
    }

    /// The octets before data in its TSDU, if a call for this data is accepted and all of it is sent in one TSDU:
    /// these octets and then the data are all that [`Session::call_data`] returns then. `None` if the call is refused
    /// or the data is sent in parts.
    #[inline(always)]
    pub fn data_head(&self, user_data: &[u8]) -> Option<&'static [u8]>
        ensures state { OnSome result (self.now ≡ (react self.now (called (Data user_data.now))).next) }
        ensures sent { IfSome result (λ h. (h.now ++ user_data.now) ∷ []
            ≡ tsdus_sent (limit_of self.now.state) (react self.now (called (Data user_data.now))).reply) }
        ensures accepted { OnSome result ((react self.now (called (Data user_data.now))).error ≡ None) }
        ensures sendable { OnSome result (CanBeSent (react self.now (called (Data user_data.now))).reply) }
    {
        if !self.goes_whole(user_data) {
            return None;
        }
        Some(data_head())
    }

    /// How data is cut into parts, and the octets before each part, if a call for this data is accepted: these octets
    /// and then the parts are all that [`Session::call_data`] returns then. Otherwise the error of the call. No memory
    /// is needed, and no octet is copied.
    #[tactic(auto, using(crate::proofs::tables::what_the_table_of_calls_answers::refused))]
    pub fn data_parts(&self, user_data: &[u8]) -> Result<DataParts, CallError>
        ensures state { OnOk result (self.now ≡ (react self.now (called (Data user_data.now))).next) }
        ensures sent { IfOk result (λ p. tsdus_lent p user_data.now
            ≡ tsdus_sent (limit_of self.now.state) (react self.now (called (Data user_data.now))).reply) }
        ensures accepted { OnOk result ((react self.now (called (Data user_data.now))).error ≡ None) }
        ensures sendable { OnOk result (CanBeSent (react self.now (called (Data user_data.now))).reply) }
        ensures fit { IfOk result FitTsdus }
        ensures refused { IfErr result (λ e. Refused e (react self.now (called (Data user_data.now))).error) }
        ensures named { IfErr result (λ e. is_memory e ≡ false) }
    {
        match allow_data(&self.state, user_data) {
            Ok(()) => Ok(lent_within(size_limit(&self.state), user_data)),
            Err(error) => Err(error),
        }
    }

    /// Data that is refused, or sent in parts. The function is kept out of line, because other data is more frequent.
    #[cold]
    #[inline(never)]
    #[tactic(auto, using(crate::proofs::tables::what_the_table_of_calls_answers::refused, crate::proofs::tables::what_the_table_of_calls_answers::wanting), unfolding(osi_message::specs::Written::user_data_of))]
    fn call_bounded_data(&self, user_data: &[u8]) -> Result<Sent, CallError>
        ensures state { OnOk result (self.now ≡ (react self.now (called (Data user_data.now))).next) }
        ensures sent { IfOk result (λ s. s ≡ tsdus_sent (limit_of self.now.state) (react self.now (called (Data user_data.now))).reply) }
        ensures accepted { OnOk result ((react self.now (called (Data user_data.now))).error ≡ None) }
        ensures sendable { OnOk result (CanBeSent (react self.now (called (Data user_data.now))).reply) }
        ensures refused { IfErr result (λ e. Refused e (react self.now (called (Data user_data.now))).error) }
    {
        allow_data(&self.state, user_data)?;
        match Sent::data(self.alloc, size_limit(&self.state), user_data) {
            Ok(sent) => Ok(sent),
            Err(_) => Err(CallError::OutOfMemory),
        }
    }

    /// The units of a TSDU that was received: the indications, the TSDU to send, and whether the transport connection
    /// is closed (X.225 section 7). A part of one Data is joined to those before it. `Err` changes nothing, and is
    /// possible only if something is indicated or sent, or octets are joined.
    pub fn take(&mut self, group: &Group) -> Result<Taken, AllocError>
        ensures { Takes result (react self.old (taken (said_by_units (units_of group.now)))) self.old self.new }
    {
        match take_all(self.alloc, &self.state, self.joined.as_ref(), group) {
            Ok(reactions) => self.settle(reactions),
            Err(error) => Err(error),
        }
    }

    /// A received TSDU whose octets are no session units, for this reason. In Aborting and Ended it is discarded;
    /// otherwise it is answered by AB, and the user receives the reason (X.225 section 7). `Err` changes nothing, and
    /// is possible only if something is sent.
    pub fn take_bad(&mut self, fault: SpduFault) -> Result<Taken, AllocError>
        ensures { Takes result (react self.old (unread fault)) self.old self.new }
    {
        let heard = Heard::of(judge_unread(&self.state, fault), Joined::Kept);
        self.settle(Reactions::of(self.alloc, heard))
    }

    /// A received TSDU, as octets: what [`Session::take`] does with its units, or [`Session::take_bad`] if they are
    /// none. A TSDU that is expected ([`Session::take_expected`]) has a fast path.
    #[inline(always)]
    pub fn take_tsdu(&mut self, tsdu: &[u8]) -> Result<Taken, AllocError>
        ensures state { OnOk result (self.new ≡ (react self.old (came tsdu.now)).next) }
        ensures shown { IfOk result (λ t. shown_in t ≡ (react self.old (came tsdu.now)).shown) }
        ensures first { IfOk result (λ t. t.first ≡ None → t.more.items ≡ []) }
        ensures reply { IfOk result (λ t. t.reply ≡ option_map in_one (react self.old (came tsdu.now)).reply) }
        ensures closes { IfOk result (λ t. t.closes ≡ (react self.old (came tsdu.now)).closes) }
        ensures err { OnErr result (self.new ≡ self.old) }
        ensures memory { OnErr result (takes_memory self.old (react self.old (came tsdu.now)) ≡ true) }
    {
        if let Some(user_data) = self.expected_data(tsdu) {
            return match Octets::copy(self.alloc, user_data) {
                Ok(user_data) => Ok(Taken::showing(
                    self.alloc,
                    Some(Indication::Data { user_data }),
                )),
                Err(error) => Err(error),
            };
        }
        if let Some(number) = self.try_minor(tsdu) {
            let indication = minor_shown(self.alloc, number);
            return Ok(Taken::showing(self.alloc, Some(indication)));
        }
        if let Some(number) = self.try_confirmation(tsdu) {
            let indication = confirmation_shown(self.alloc, number);
            return Ok(Taken::showing(self.alloc, Some(indication)));
        }
        // A value of its own: otherwise data, too, would be answered in the stack space of this one.
        let answer = self.take_rare(tsdu);
        answer
    }

    /// Any TSDU other than whole data and points that are expected. It is kept out of line: otherwise stack space for what it
    /// answers would be reserved on the fast path, too.
    #[inline(never)]
    fn take_rare(&mut self, tsdu: &[u8]) -> Result<Taken, AllocError>
        ensures state { OnOk result (self.new ≡ (react self.old (came tsdu.now)).next) }
        ensures shown { IfOk result (λ t. shown_in t ≡ (react self.old (came tsdu.now)).shown) }
        ensures first { IfOk result (λ t. t.first ≡ None → t.more.items ≡ []) }
        ensures reply { IfOk result (λ t. t.reply ≡ option_map in_one (react self.old (came tsdu.now)).reply) }
        ensures closes { IfOk result (λ t. t.closes ≡ (react self.old (came tsdu.now)).closes) }
        ensures err { OnErr result (self.new ≡ self.old) }
        ensures memory { OnErr result (takes_memory self.old (react self.old (came tsdu.now)) ≡ true) }
    {
        match self.take_plain(tsdu) {
            Ok(Expected::Shown(indication)) => Ok(Taken::showing(self.alloc, Some(indication))),
            Ok(Expected::Joined) => Ok(Taken::showing(self.alloc, None)),
            Ok(Expected::Other) => self.take_unexpected(tsdu),
            Err(error) => Err(error),
        }
    }

    /// A TSDU that is not expected, by the general reader: what [`Session::take_tsdu`] does after
    /// [`Session::take_expected`] answered `Other`. It takes any other TSDU too, only more slowly. It is kept out of
    /// line: otherwise stack space for its units would be reserved for each TSDU on the fast path.
    #[inline(never)]
    pub fn take_unexpected(&mut self, tsdu: &[u8]) -> Result<Taken, AllocError>
        ensures { Takes result (react self.old (came tsdu.now)) self.old self.new }
    {
        // The units are lent from where they were read: their parameters need much room, so a copy costs much.
        let read = read_group(tsdu);
        match &read {
            Ok(group) => self.take(group),
            Err(fault) => self.take_bad(*fault),
        }
    }

    /// Sends the answer, if there is one, and updates the state and the joined octets.
    #[inline(always)]
    #[tactic(auto, using(crate::proofs::tsdu::two_outcomes_together::loud_reply))]
    fn settle(&mut self, reactions: Reactions) -> Result<Taken, AllocError>
        requires sound { IsSound reactions.next }
        requires begun { is_wait_transport reactions.next.phase ≡ true → is_wait_transport self.old.state.phase ≡ true }
        requires ordered { reactions.first ≡ None → reactions.more.items ≡ [] }
        requires kept { kept_in reactions.next.phase (joined_after reactions.joined self.old.joined)
            ≡ joined_after reactions.joined self.old.joined }
        requires few { length (joined_octets (joined_after reactions.joined self.old.joined)) ≤ 1048572 }
        ensures { Takes result (moved self.old (hearing_of_all self.old.joined reactions)) self.old self.new }
    {
        let reply = match written_reply(self.alloc, reactions.reply) {
            Ok(reply) => reply,
            Err(error) => {
                drop(reactions);
                return Err(error);
            }
        };
        reactions.joined.put(&mut self.joined);
        self.room = most_whole(&reactions.next);
        self.state = reactions.next;
        Ok(Taken {
            first: reactions.first,
            more: reactions.more,
            reply,
            closes: reactions.closes,
        })
    }

    /// The transport connection was closed or broken, or had a fault. The user is told, except before a CN was taken
    /// and after an abort. The connection has ended.
    #[tactic(auto, unfolding(crate::specs::Listening::react))]
    pub fn broken(&mut self) -> Option<Indication>
        ensures state { self.new ≡ (react self.old broken).next }
        ensures shown { shown_list result ≡ (react self.old broken).shown }
    {
        let reaction = Reaction::lost(&self.state);
        self.go(reaction.next);
        reaction.shown
    }

    /// The tokens that this side holds.
    pub fn held(&self) -> TokenSet
        ensures octet { bits_of result ≡ token_octet self.now.state.held }
        ensures set { named (bits_of result) ≡ self.now.state.held }
    {
        self.state.held.set()
    }

    /// How many octets are joined of an unfinished SSDU.
    pub fn joined(&self) -> usize
        ensures value { result ≡ length (joined_octets self.now.joined) }
        ensures at_most { result ≤ 1048572 }
    {
        joined_octets(self.joined.as_ref()).len()
    }

    /// The phase of the connection. The session's numbers are in order and its tokens fit its phase; in WaitTransport
    /// a CN is waiting; and octets are joined only if tokens may be held.
    pub fn phase(&self) -> Phase
        ensures value { result ≡ self.now.state.phase }
        ensures sound { IsSound self.now.state }
        ensures waiting { is_wait_transport self.now.state.phase ≡ true → IsSome self.now.waiting }
        ensures kept { kept_in self.now.state.phase self.now.joined ≡ self.now.joined }
    {
        self.state.phase
    }

    /// V(M), the number of the next synchronization point, 0 to 1,000,000; 0 before the CN is
    /// accepted (X.225 section 5.9).
    pub fn next_serial(&self) -> u32
        ensures { result ≡ self.now.state.numbers.next }
    {
        self.state.numbers.next
    }

    /// V(A), the lowest number that is not confirmed; 0 before the CN is accepted.
    pub fn confirmed_below(&self) -> u32
        ensures { result ≡ self.now.state.numbers.confirmed }
    {
        self.state.numbers.confirmed
    }

    /// V(R), the lowest number at which this side may restart; 0 before the CN is accepted.
    pub fn lowest_restart(&self) -> u32
        ensures { result ≡ self.now.state.numbers.lowest }
    {
        self.state.numbers.lowest
    }
}
