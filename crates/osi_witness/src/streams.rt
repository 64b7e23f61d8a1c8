//! One side of a connection: its TSDUs as they passed, and the sessions that the judge kept after each of their units.

ghost use Rattle.std.specs.Prelude.{◌≡◌, ◌≢◌, ◌<◌, ◌≤◌, ◌+◌, ◌++◌, ◌∷◌, [], false, None, ℕ, List, drop, get_or, length, take};
ghost use Rattle.std.specs.Prelude.{IfOk, IfSome, IfNone, OnOk};
ghost use Rattle.osi_message.specs.Reading.{word};
ghost use Rattle.osi_session.specs.Standing.{Seen};
ghost use Rattle.osi_spdu.specs.Units.{said_by};
ghost use Rattle.osi_side.specs.Judging.{Observes};
ghost use Rattle.osi_side.specs.Kept.{after_word};
ghost use Rattle.osi_side.specs.Outlines.{outlines};
ghost use Rattle.osi_side.specs.Sides.{observed};
ghost use Rattle.osi_side.specs.declared.findings.Finding.{Finding as Found};
ghost use Rattle.osi_witness.specs.Linked.{last_kept, AreAfter, HasHeard, Leads};
ghost use Rattle.osi_witness.specs.Passed.{passed_first};
ghost use Rattle.osi_witness.specs.Streams.{tsdus_of, unfinished, Adds, IsEmpty, Keeps};
ghost use Rattle.osi_witness.specs.Units.{words_of};
ghost use Rattle.osi_witness.specs.Whole.{AreUnitsOf, IsWhole, IsWholeBut, TellsLast};

use crate::halts::Halt;
use crate::places::{Place, Stop};
use crate::units::acting_unit;
use osi_script::Side;
use osi_session::Standing;
use osi_side::{Finding, Member, Side as Judged};
use osi_spdu::Spdu;
use std::alloc::{AllocError, Global};

/// A TSDU of a side.
#[derive(Clone, Copy)]
pub struct Tsdu {
    start: usize,
    end: usize,
    pub place: Place,
}

/// The sessions that the judge keeps after a unit.
#[derive(Drop)]
pub(crate) struct Kept {
    /// The number of its TSDU, from 0 on.
    pub(crate) tsdu: usize,
    /// Its place among the units of this TSDU as they act.
    pub(crate) place: usize,
    /// How many TSDUs of the other side had passed before it.
    pub(crate) before: usize,
    pub(crate) members: Vec<Member>,
}

/// A unit that a side sent, and how the session of a run came to send it.
#[derive(Clone, Copy)]
pub struct Said {
    /// The number of its TSDU, from 0 on.
    pub tsdu: usize,
    /// Its place among the units of this TSDU as they act.
    pub place: usize,
    /// How many TSDUs of the other side the session took before it.
    pub taken: usize,
    /// Whether it is the answer to the last of these, which the session sends by itself.
    pub is_answer: bool,
    /// The state of the session after it.
    pub standing: Standing,
}

/// One side of a connection.
#[derive(Drop)]
pub struct Stream {
    name: Side,
    side: Judged,
    /// The session that has just begun.
    begin: Vec<Member>,
    /// The octets of all TSDUs, one after the other.
    octets: Vec<u8>,
    /// Where the unfinished TSDU begins in them, and the piece in which its first packet began.
    start: usize,
    begun: Option<usize>,
    /// How many TSDUs of the other side had passed before the last TSDU.
    before: usize,
    pub tsdus: Vec<Tsdu>,
    kept: Vec<Kept>,
    /// The TSDU up to which there is a run, and why there is none with it.
    pub limit: Option<Stop>,
    /// A run of a session, unit by unit. It is empty before [`crate::Conversation::trace`].
    pub said: Vec<Said>,
}

/// How many TSDUs of a side passed before a piece; so many are known to have.
fn passed_before(heard: &Stream, known: usize, piece: usize) -> usize
    ensures count { known ≤ length heard.now.tsdus.items → result ≡ known + passed_first piece (drop known heard.now.tsdus.items) }
    ensures more { known ≤ result }
{
    let tsdus = heard.tsdus.as_slice();
    let mut passed = known;
    'tsdus: while passed < tsdus.len() {
        if tsdus[passed].place.last >= piece {
            return passed;
        }
        passed += 1;
    }
    passed
}

/// The sessions that are kept after the last of these units; those before it if there is none.
fn last_members<'a>(members: &'a [Member], kept: &'a [Kept]) -> &'a [Member]
    ensures { result.now ≡ last_kept members.now kept.now }
{
    match kept.last() {
        Some(last) => last.members.as_slice(),
        None => members,
    }
}

/// The sessions that are kept after a unit, of those that go on from these.
fn members_after(
    alloc: Global,
    side: &Judged,
    from: &[Member],
    unit: &Spdu<'_>,
    octets: usize,
    before: usize,
) -> Result<Vec<Member>, AllocError>
    ensures { IfOk result (λ next. before ≤ length (observed side.now).heard
        → next.items ≡ after_word (observed side.now).heard octets before from.now (word (said_by unit.now))) }
{
    if before > side.heard() {
        return Ok(Vec::new(alloc));
    }
    side.after_unit(from, unit, octets, before)
}

/// The sessions that are kept after each unit of a TSDU with this number, before the judge is told of it.
fn kept_after(
    alloc: Global,
    side: &Judged,
    tsdu: &[u8],
    number: usize,
    before: usize,
) -> Result<Vec<Kept>, AllocError>
    ensures units { IfOk result (λ kept. AreUnitsOf tsdu.now number before kept.items) }
    ensures after { IfOk result (λ kept. before ≤ length (observed side.now).heard
        → AreAfter (observed side.now).heard (length tsdu.now) before (observed side.now).members (words_of tsdu.now) kept.items) }
{
    let mut kept: Vec<Kept> = Vec::new(alloc);
    'units: while let Some(unit) = acting_unit(tsdu, kept.len()) {
        let place = kept.len();
        let from = last_members(side.members(), kept.as_slice());
        let members = members_after(alloc, side, from, &unit, tsdu.len(), before)?;
        kept.push(Kept {
            tsdu: number,
            place,
            before,
            members,
        })?;
    }
    Ok(kept)
}

impl Stream {
    /// Nothing has passed of a side, whose session begins so.
    pub(crate) fn new(
        alloc: Global,
        name: Side,
        side: Judged,
        begin: Standing,
    ) -> Result<Stream, AllocError>
        requires observes { Observes (observed side) [] }
        requires finding { (observed side).finding ≡ Found.Kept }
        ensures side { IfOk result (λ s. observed s.side ≡ observed side) }
        ensures empty { IfOk result IsEmpty }
        ensures whole { IfOk result IsWhole }
        ensures leads { (observed side).begin ≡ begin → IfOk result (Leads begin) }
    {
        let mut members = Vec::new(alloc);
        members.push(Member {
            taken: 0,
            standing: begin,
        })?;
        Ok(Stream {
            name,
            side,
            begin: members,
            octets: Vec::new(alloc),
            start: 0,
            begun: None,
            before: 0,
            tsdus: Vec::new(alloc),
            kept: Vec::new(alloc),
            limit: None,
            said: Vec::new(alloc),
        })
    }

    /// The octets of the TSDU with this number, from 0 on.
    pub fn tsdu(&self, number: usize) -> &[u8]
        ensures { result.now ≡ get_or (tsdus_of self.now) number [] }
    {
        match self.tsdus.get(number) {
            Some(tsdu) => self.octets.get(tsdu.start..tsdu.end).unwrap_or_default(),
            None => &[],
        }
    }

    /// The sessions that are kept after each unit, as far as there is a run.
    pub(crate) fn kept(&self) -> &[Kept]
        ensures { result.now ≡ self.now.kept.items }
    {
        &self.kept
    }

    /// Those that are kept before the unit with this number.
    pub(crate) fn kept_before(&self, number: usize) -> &[Member]
        requires { number ≤ length self.now.kept.items }
        ensures { result.now ≡ last_kept self.now.begin.items (take number self.now.kept.items) }
    {
        last_members(&self.begin, &self.kept[..number])
    }

    /// There is no run with the TSDU at this place.
    fn stop_at(&mut self, place: Place, halt: Halt)
        ensures keeps { Keeps self.old self.new }
        ensures side { self.new.side ≡ self.old.side }
        ensures limit { self.new.limit ≢ None }
        ensures said { self.new.said ≡ self.old.said }
    {
        if self.limit.is_none() {
            self.limit = Some(Stop {
                side: self.name,
                place,
                halt,
            });
        }
    }

    /// The run is this one. If none was found there is none at all.
    pub(crate) fn has_run(&mut self, run: Option<Vec<Said>>)
        ensures keeps { Keeps self.old self.new }
        ensures whole { IsWhole self.old → IsWhole self.new }
        ensures some { IfSome run (λ said. (self.new.said.items ≡ said.items) × (self.new.limit ≡ self.old.limit)) }
        ensures side { self.new.side ≡ self.old.side }
        ensures none { IfNone run (self.new.said ≡ self.old.said) }
    {
        match run {
            Some(said) => self.said = said,
            None => self.stop_at_first(),
        }
    }

    fn stop_at_first(&mut self)
        ensures keeps { Keeps self.old self.new }
        ensures whole { IsWhole self.old → IsWhole self.new }
        ensures side { self.new.side ≡ self.old.side }
        ensures said { self.new.said ≡ self.old.said }
    {
        if let Some(tsdu) = self.tsdus.first() {
            self.limit = Some(Stop {
                side: self.name,
                place: tsdu.place,
                halt: Halt::NoSession,
            });
        }
    }

    /// A part of a TSDU passes. Returns whether it was the last.
    pub(crate) fn add(
        &mut self,
        alloc: Global,
        heard: &Stream,
        end: bool,
        user: &[u8],
        place: Place,
    ) -> Result<bool, AllocError>
        ensures end { IfOk result (λ is_last. is_last ≡ end) }
        ensures adds { OnOk result (IsWhole self.old → Adds end user.now self.old self.new) }
        ensures whole { OnOk result (IsWhole self.old → IsWhole self.new) }
        ensures leads { OnOk result ((begin : Seen) → IsWhole self.old → Leads begin self.old → Leads begin self.new) }
        ensures heard { OnOk result ((observed self.new.side).heard ≡ (observed self.old.side).heard) }
        ensures said { self.new.said ≡ self.old.said }
    {
        self.gather(user)?;
        let first = self.begun.unwrap_or(place.first);
        if !end {
            self.begun = Some(first);
            return Ok(false);
        }
        self.before = passed_before(heard, self.before, first);
        self.end_tsdu(alloc, Place { first, ..place })?;
        Ok(true)
    }

    /// Octets of a TSDU pass.
    fn gather(&mut self, octets: &[u8]) -> Result<(), AllocError>
        ensures adds { OnOk result (IsWhole self.old → Adds false octets.now self.old self.new) }
        ensures said { self.new.said ≡ self.old.said }
        ensures whole { OnOk result (IsWhole self.old → IsWhole self.new) }
        ensures leads { OnOk result ((begin : Seen) → IsWhole self.old → Leads begin self.old → Leads begin self.new) }
        ensures side { self.new.side ≡ self.old.side }
    {
        self.octets.extend_from_slice(octets)?;
        Ok(())
    }

    /// The TSDU ends whose octets have passed.
    fn end_tsdu(&mut self, alloc: Global, place: Place) -> Result<(), AllocError>
        ensures tsdus { OnOk result (IsWhole self.old → tsdus_of self.new ≡ tsdus_of self.old ++ unfinished self.old ∷ []) }
        ensures said { self.new.said ≡ self.old.said }
        ensures unfinished { OnOk result (unfinished self.new ≡ []) }
        ensures whole { OnOk result (IsWhole self.old → IsWhole self.new) }
        ensures leads { OnOk result ((begin : Seen) → IsWhole self.old → Leads begin self.old → Leads begin self.new) }
        ensures heard { OnOk result ((observed self.new.side).heard ≡ (observed self.old.side).heard) }
    {
        let number = self.tsdus.len();
        self.push_tsdu(place)?;
        self.judge(alloc, number, place)
    }

    /// The octets that have passed since the last TSDU are one.
    fn push_tsdu(&mut self, place: Place) -> Result<(), AllocError>
        ensures tsdus { OnOk result (IsWhole self.old → tsdus_of self.new ≡ tsdus_of self.old ++ unfinished self.old ∷ []) }
        ensures said { self.new.said ≡ self.old.said }
        ensures count { OnOk result (length self.new.tsdus.items ≡ length self.old.tsdus.items + 1) }
        ensures unfinished { OnOk result (unfinished self.new ≡ []) }
        ensures whole { OnOk result (IsWhole self.old → IsWholeBut 1 self.new) }
        ensures leads { OnOk result ((begin : Seen) → IsWhole self.old → Leads begin self.old → Leads begin self.new) }
        ensures side { self.new.side ≡ self.old.side }
    {
        let start = self.start;
        let end = self.octets.len();
        self.tsdus.push(Tsdu { start, end, place })?;
        self.start = end;
        self.begun = None;
        Ok(())
    }

    /// The judge is told of the TSDU with this number, the last one. The sessions are kept that it keeps after each of its units.
    fn judge(&mut self, alloc: Global, number: usize, place: Place) -> Result<(), AllocError>
        requires { number + 1 ≡ length self.old.tsdus.items }
        ensures tsdus { OnOk result (tsdus_of self.new ≡ tsdus_of self.old) }
        ensures said { self.new.said ≡ self.old.said }
        ensures unfinished { OnOk result (unfinished self.new ≡ unfinished self.old) }
        ensures whole { OnOk result (IsWholeBut 1 self.old → IsWhole self.new) }
        ensures leads { OnOk result ((begin : Seen) → IsWholeBut 1 self.old → Leads begin self.old → Leads begin self.new) }
        ensures heard { OnOk result ((observed self.new.side).heard ≡ (observed self.old.side).heard) }
    {
        if self.limit.is_some() {
            return Ok(());
        }
        let before = self.before;
        let mut kept = kept_after(alloc, &self.side, self.tsdu(number), number, before)?;
        self.tell(number)?;
        match self.side.finding() {
            Finding::Kept => {
                self.kept.append(&mut kept)?;
            }
            Finding::Broke(_) | Finding::Left(_) => self.stop_at(place, Halt::NoSession),
            Finding::TooMany => self.stop_at(place, Halt::TooMany),
        }
        Ok(())
    }

    fn tell(&mut self, number: usize) -> Result<(), AllocError>
        requires { number < length self.old.tsdus.items }
        ensures tells { OnOk result (TellsLast number self.old self.new) }
        ensures said { self.new.said ≡ self.old.said }
    {
        let tsdu = self.tsdus[number];
        let octets = self.octets.get(tsdu.start..tsdu.end).unwrap_or_default();
        match self.side.tell(octets, self.before) {
            Ok(()) => Ok(()),
            Err(_) => Err(AllocError),
        }
    }

    /// The last TSDU of the other side has passed.
    pub(crate) fn hear(&mut self, other: &Stream) -> Result<(), AllocError>
        ensures keeps { OnOk result (Keeps self.old self.new) }
        ensures said { self.new.said ≡ self.old.said }
        ensures whole { OnOk result (IsWhole self.old → IsWhole self.new) }
        ensures leads { OnOk result ((begin : Seen) → Leads begin self.old → Leads begin self.new) }
        ensures heard { OnOk result ((us : List (List ℕ)) (u : List ℕ) → tsdus_of other.now ≡ us ++ u ∷ []
            → (observed self.old.side).heard ≡ outlines us → HasHeard self.new other.now) }
    {
        let last = other.tsdus.len().saturating_sub(1);
        self.side.hear(other.tsdu(last))
    }
}
