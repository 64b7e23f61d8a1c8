//! One side of a connection, judged by what it sent and by what it may have taken.

ghost use Rattle.std.specs.Prelude.{◌≡◌, ◌<◌, ◌≤◌, ◌⊎◌, ◌++◌, ◌∷◌, ◌+◌, [], false, Err, IfOk, OnOk, OnErr, MatchBool, List, ℕ, length};
ghost use Rattle.osi_message.specs.Reading.{word};
ghost use Rattle.osi_session.specs.Standing.{seen_called, seen_calling};
ghost use Rattle.osi_spdu.specs.Units.{said_by};
ghost use Rattle.osi_side.specs.Explaining.{Told};
ghost use Rattle.osi_side.specs.Breaking.{selection_of};
ghost use Rattle.osi_side.specs.Judging.{Observes, Keeps, BrokeBy, LeftBy, IsFound, HasRoom, FoundNext, AreKept};
ghost use Rattle.osi_side.specs.Keeping.{once, room_in};
ghost use Rattle.osi_side.specs.Kept.{after_word};
ghost use Rattle.osi_side.specs.Onward.{StandsFor};
ghost use Rattle.osi_side.specs.Outlines.{outline, outlines};
ghost use Rattle.osi_side.specs.Profiles.{selects_outside};
ghost use Rattle.osi_side.specs.Sides.{observed, EndsAt};

use crate::findings::Finding;
use crate::heard::Heard;
use crate::members::{Member, none_is_left};
use crate::outlines::hear;
use crate::profiles::{leaves, selects_outside};
use crate::rules::{Break, break_at, selection_at};
use crate::standings::{Stands, foremost, stands_behind};
use crate::telling::{behind_tsdu, behind_unit};
use osi_session::Standing;
use osi_spdu::Spdu;
use std::alloc::{AllocError, Global};
use thiserror::Error;

/// The most sessions that are kept of one side.
const MOST_MEMBERS: usize = 4096;

/// Why a TSDU of the side was not taken in.
#[derive(Clone, Copy, PartialEq, Eq, Debug, Error)]
pub enum TellError {
    /// The count of the other side's TSDUs that had passed is lower than for the last TSDU, or higher than the number
    /// that passed.
    #[error("a TSDU out of its order")]
    OutOfOrder,
    /// An allocation failed.
    #[error("out of memory")]
    OutOfMemory,
}

/// One side of a session (X.225). You tell it its TSDUs while they pass, between those of the other
/// side. It keeps the sessions that explain all that the side sent so far, each with the number of the other side's
/// TSDUs that it has taken.
#[derive(Drop)]
pub struct Side {
    alloc: Global,
    begin: Standing,
    heard: Heard,
    members: Vec<Member>,
    told: usize,
    before: usize,
    finding: Finding,
    by: Break,
}

/// Whether these are more sessions than are kept.
fn is_crowd(members: &[Member]) -> bool
    ensures { MatchBool result (4096 < length members.now) (length members.now ≤ 4096) }
{
    members.len() > MOST_MEMBERS
}

impl Side {
    /// The calling side, whose transport connection is open.
    pub fn caller(alloc: Global) -> Result<Side, AllocError>
        ensures begin { IfOk result (λ s. (observed s).begin ≡ seen_calling) }
        ensures heard { IfOk result (λ s. ((observed s).heard ≡ []) × ((observed s).before ≡ 0)) }
        ensures kept { IfOk result (λ s. (observed s).finding ≡ Finding.Kept) }
        ensures observes { IfOk result (λ s. Observes (observed s) []) }
    {
        let side = Side::beginning(alloc, Standing::calling())?;
        Ok(side)
    }

    /// The called side.
    pub fn called(alloc: Global) -> Result<Side, AllocError>
        ensures begin { IfOk result (λ s. (observed s).begin ≡ seen_called) }
        ensures heard { IfOk result (λ s. ((observed s).heard ≡ []) × ((observed s).before ≡ 0)) }
        ensures kept { IfOk result (λ s. (observed s).finding ≡ Finding.Kept) }
        ensures observes { IfOk result (λ s. Observes (observed s) []) }
    {
        let side = Side::beginning(alloc, Standing::called())?;
        Ok(side)
    }

    fn beginning(alloc: Global, begin: Standing) -> Result<Side, AllocError>
        ensures begin { IfOk result (λ s. (observed s).begin ≡ begin) }
        ensures heard { IfOk result (λ s. ((observed s).heard ≡ []) × ((observed s).before ≡ 0)) }
        ensures kept { IfOk result (λ s. (observed s).finding ≡ Finding.Kept) }
        ensures observes { IfOk result (λ s. Observes (observed s) []) }
    {
        let mut members = Vec::new(alloc);
        members.push(Member {
            taken: 0,
            standing: begin,
        })?;
        Ok(Side {
            alloc,
            begin,
            heard: Heard::new(alloc),
            members,
            told: 0,
            before: 0,
            finding: Finding::Kept,
            by: Break::none(begin),
        })
    }

    /// A TSDU of the other side, which has passed completely. Its outline is kept. `Err` changes nothing.
    pub fn hear(&mut self, tsdu: &[u8]) -> Result<(), AllocError>
        ensures all { OnOk result (observed self.new ≡ record (observed self.old) {
          heard = (observed self.old).heard
              ++ outline tsdu.now ∷ [];
        }) }
        ensures heard { OnOk result ((observed self.new).heard ≡ (observed self.old).heard ++ outline tsdu.now ∷ []) }
        ensures others { OnOk result (((observed self.new).begin ≡ (observed self.old).begin) × ((observed self.new).before
            ≡ (observed self.old).before)) }
        ensures observes { OnOk result ((told : List Told) → Observes (observed self.old) told → Observes (observed self.new) told) }
        ensures err { OnErr result (observed self.new ≡ observed self.old) }
    {
        hear(self.alloc, &mut self.heard, tsdu)?;
        Ok(())
    }

    /// A TSDU of this side; `before` TSDUs of the other side had passed completely before its first octet: at least as
    /// many as for the last TSDU, and at most the number that passed. Otherwise it returns [`TellError::OutOfOrder`].
    /// `Err` changes nothing.
    pub fn tell(&mut self, tsdu: &[u8], before: usize) -> Result<(), TellError>
        ensures others { OnOk result (((observed self.new).begin ≡ (observed self.old).begin) × ((observed self.new).heard
            ≡ (observed self.old).heard)) }
        ensures order { OnOk result ((observed self.new).before ≤ before) }
        ensures finding { OnOk result (FoundNext (observed self.old).finding (observed self.old).told (observed self.new).finding) }
        ensures observes { OnOk result ((told : List Told) → Observes (observed self.old) told →
            Observes (observed self.new) (told ++ record { octets = tsdu.now; before = before } ∷ [])) }
        ensures in_order { OnOk result (((observed self.old).before ≤ before) × (before ≤ length (observed self.old).heard)) }
        ensures out_of_order { result
            ≡ Err TellError.OutOfOrder → (before < (observed self.old).before) ⊎ (length (observed self.old).heard < before) }
        ensures err { OnErr result (observed self.new ≡ observed self.old) }
    {
        if before < self.before {
            return Err(TellError::OutOfOrder);
        }
        if self.heard.len() < before {
            return Err(TellError::OutOfOrder);
        }
        match self.tell_in_order(tsdu, before) {
            Ok(()) => Ok(()),
            Err(_) => Err(TellError::OutOfMemory),
        }
    }

    #[tactic(auto, using(crate::proofs::told::what_is_known_of_a_side::broke_as, crate::proofs::told::what_is_known_of_a_side::left_as, crate::proofs::told::what_is_known_of_a_side::too_many_as))]
    fn tell_in_order(&mut self, tsdu: &[u8], before: usize) -> Result<(), AllocError>
        requires order { (observed self.old).before ≤ before }
        requires passed { before ≤ length (observed self.old).heard }
        ensures others { OnOk result (((observed self.new).begin ≡ (observed self.old).begin) × ((observed self.new).heard
            ≡ (observed self.old).heard)) }
        ensures order { OnOk result ((observed self.new).before ≤ before) }
        ensures finding { OnOk result (FoundNext (observed self.old).finding (observed self.old).told (observed self.new).finding) }
        ensures observes { OnOk result ((told : List Told) → Observes (observed self.old) told →
            Observes (observed self.new) (told ++ record { octets = tsdu.now; before = before } ∷ [])) }
        ensures err { OnErr result (observed self.new ≡ observed self.old) }
    {
        match self.finding {
            Finding::Kept => self.tell_kept(tsdu, before),
            Finding::Broke(_) => Ok(()),
            Finding::Left(_) => Ok(()),
            Finding::TooMany => Ok(()),
        }
    }

    /// A TSDU of this side, which kept the protocol so far.
    fn tell_kept(&mut self, tsdu: &[u8], before: usize) -> Result<(), AllocError>
        requires kept { (observed self.old).finding ≡ Finding.Kept }
        requires order { (observed self.old).before ≤ before }
        requires passed { before ≤ length (observed self.old).heard }
        ensures others { OnOk result (((observed self.new).begin ≡ (observed self.old).begin) × ((observed self.new).heard
            ≡ (observed self.old).heard)) }
        ensures order { OnOk result ((observed self.new).before ≤ before) }
        ensures finding { OnOk result (FoundNext (observed self.old).finding (observed self.old).told (observed self.new).finding) }
        ensures observes { OnOk result ((told : List Told) → Keeps (observed self.old) told →
            Observes (observed self.new) (told ++ record { octets = tsdu.now; before = before } ∷ [])) }
        ensures err { OnErr result (observed self.new ≡ observed self.old) }
    {
        if self.told == usize::MAX {
            return Err(AllocError);
        }
        let members = behind_tsdu(self.alloc, &self.heard, tsdu, before, &self.members)?;
        if none_is_left(members.as_slice()) {
            return self.end(tsdu, before);
        }
        if self.opens_outside(tsdu, before) {
            self.leave(before);
            return Ok(());
        }
        if is_crowd(members.as_slice()) {
            self.finding = Finding::TooMany;
            return Ok(());
        }
        self.members = members;
        self.told += 1;
        self.before = before;
        Ok(())
    }

    /// Whether a TSDU of this side is its first, and selects what is not selected here.
    fn opens_outside(&self, tsdu: &[u8], before: usize) -> bool
        requires { before ≤ length (observed self.now).heard }
        ensures first { (observed self.now).told ≡ 0
            → result ≡ selects_outside (observed self.now).heard (record { octets = tsdu.now; before = before } ∷ []) }
        ensures later { 0 < (observed self.now).told → result ≡ false }
    {
        if self.told > 0 {
            return false;
        }
        selects_outside(&self.heard, tsdu, before)
    }

    /// A TSDU of this side that no session says.
    fn end(&mut self, tsdu: &[u8], before: usize) -> Result<(), AllocError>
        requires { before ≤ length (observed self.old).heard }
        ensures ends { OnOk result (EndsAt tsdu.now before (observed self.old) (observed self.new)) }
        ensures err { OnErr result (observed self.new ≡ observed self.old) }
    {
        let by = break_at(self.alloc, &self.heard, tsdu, before, &self.members)?;
        if leaves(&self.heard, tsdu, before, &by) {
            self.finding = Finding::Left(self.told);
            self.by = by;
            return Ok(());
        }
        self.finding = Finding::Broke(self.told);
        self.by = by;
        Ok(())
    }

    /// An AC of this side that selects what the profile leaves out.
    fn leave(&mut self, before: usize)
        ensures { observed self.new ≡ record (observed self.old)
            { finding = Finding.Left (observed self.old).told; by = selection_of before (observed self.old).members } }
    {
        self.finding = Finding::Left(self.told);
        self.by = selection_at(before, &self.members);
    }

    /// The sessions that are kept of those that explain all that the side sent, or all that it sent before its break.
    pub fn members(&self) -> &[Member]
        ensures value { result.now ≡ (observed self.now).members }
        ensures kept { (told : List Told) → Keeps (observed self.now) told → AreKept (observed self.now).begin (observed self.now).heard
            told result.now }
    {
        self.members.as_slice()
    }

    /// The sessions that are kept after a unit of a TSDU of this many octets, of those that go on from these; `before` TSDUs of
    /// the other side had passed before it.
    pub fn after_unit(
        &self,
        members: &[Member],
        unit: &Spdu,
        octets: usize,
        before: usize,
    ) -> Result<Vec<Member>, AllocError>
        requires { before ≤ length (observed self.now).heard }
        ensures { IfOk result (λ next. next.items
            ≡ after_word (observed self.now).heard octets before members.now (word (said_by unit.now))) }
    {
        behind_unit(self.alloc, &self.heard, unit, octets, before, members)
    }

    /// How many TSDUs of the other side have passed.
    pub fn heard(&self) -> usize
        ensures { result ≡ length (observed self.now).heard }
    {
        self.heard.len()
    }

    /// How many of their outlines are kept: of equal ones in a row only one.
    pub fn kept(&self) -> usize
        ensures { result ≡ length (once (observed self.now).heard) }
    {
        self.heard.kept()
    }

    /// The room that these outlines take: their octets, and 48 more for each.
    pub fn room(&self) -> usize
        ensures { result ≡ room_in (once (observed self.now).heard) }
    {
        self.heard.room()
    }

    /// How many of them had passed before the last TSDU that it sent.
    pub fn before(&self) -> usize
        ensures { result ≡ (observed self.now).before }
    {
        self.before
    }

    /// The rule by which the side broke the protocol, or left the profile. It has no meaning for a side that did
    /// neither.
    pub fn by(&self) -> Break
        ensures value { result ≡ (observed self.now).by }
        ensures broke { (told : List Told) (i : ℕ) → Observes (observed self.now) told → (observed self.now).finding ≡ Finding.Broke i
            → BrokeBy (observed self.now) told i }
        ensures left { (told : List Told) (i : ℕ) → Observes (observed self.now) told → (observed self.now).finding ≡ Finding.Left i
            → LeftBy (observed self.now) told i }
    {
        self.by
    }

    /// How many TSDUs it said before its break, or in all.
    pub fn told(&self) -> usize
        ensures value { result ≡ (observed self.now).told }
        ensures kept { (told : List Told) → Observes (observed self.now) told → (observed self.now).finding ≡ Finding.Kept →
            result ≡ length told }
    {
        self.told
    }

    /// How the side stands that kept the protocol, or kept it before its break: by the session that explains
    /// it and has taken most, of these the one with the highest V(A), then with the flag on, which takes
    /// what it can.
    pub fn stands(&self) -> Result<Stands, AllocError>
        ensures { IfOk result (λ s. (told : List Told) → Keeps (observed self.now) told → StandsFor (observed self.now) told s) }
    {
        stands_behind(self.alloc, &self.heard, foremost(&self.members))
    }

    /// What was found of the side, from all that it sent and what it may have taken.
    pub fn finding(&self) -> Finding
        ensures value { result ≡ (observed self.now).finding }
        ensures found { (told : List Told) → Observes (observed self.now) told →
            IsFound (observed self.now).begin (observed self.now).heard told result }
        ensures room { (told : List Told) → Observes (observed self.now) told → HasRoom (observed self.now).begin
            (observed self.now).heard told result }
        ensures found_of { (us : List (List ℕ)) (told : List Told) → (observed self.now).heard ≡ outlines us →
            Observes (observed self.now) told
            → IsFound (observed self.now).begin us told result }
    {
        self.finding
    }
}
