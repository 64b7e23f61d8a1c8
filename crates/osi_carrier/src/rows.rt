//! The live connections, in the order of their references.

ghost use Rattle.std.specs.Prelude.{◌≡◌, ℕ, ◌+◌, ◌*◌, ◌^◌, ◌-◌, ◌<◌, ◌≤◌, ◌∷◌, ◌++◌, ◌==◌, [], None, Some, Ok, true, length, map, min};
ghost use Rattle.std.specs.Prelude.{nat_lt, is_some, IsOk, IfOk, IfErr, IfSome, OnOk, OnErr};
ghost use Rattle.std.specs.Cow.{cow_slice_items, IsOwnedSlice};
ghost use Rattle.osi_carrier.specs.Calls.{backlog_of, begun_by, call_error, kept_in, length_error, link_of, send_error, unsent_at};
ghost use Rattle.osi_carrier.specs.Calls.{unsent_by, WaitsAlone, WaitTogether};
ghost use Rattle.osi_carrier.specs.Live.{connection, IsPumped};
ghost use Rattle.osi_carrier.specs.Opened.{link_in, peer_in};
ghost use Rattle.osi_carrier.specs.Orderly.{RiseFrom};
ghost use Rattle.osi_carrier.specs.Pieces.{tsdus_in, FitTsdus};
ghost use Rattle.osi_carrier.specs.Pump.{pumped, written_by, written_for};
ghost use Rattle.osi_carrier.specs.React.{has_peer, is_of_peer};
ghost use Rattle.osi_carrier.specs.Rows.{value_at, first_of, place_of, put, without};
ghost use Rattle.osi_carrier.specs.State.{Connection, linked, packets};
ghost use Rattle.osi_carrier.specs.Steps.{StepsTo, link_after, units_after, link_grows};
ghost use Rattle.osi_class.specs.Giving.{one_by_one};
ghost use Rattle.osi_class.specs.Link.{taken, with_tsdu};
ghost use Rattle.osi_tpdu.specs.View.{value};

use crate::faults::SendError;
use crate::links::{
    Step, pump_after, send_all_on, send_headed_parts, send_parts, send_pieces_on, send_whole,
};
use crate::lookup::{Referred, is_above, place_in};
use crate::pieces::Pieces;
use bytes::BytesMut;
use osi_class::{AnyLink, LONGEST_TSDU, Link, LinkFault};
use osi_tpdu::Tpdu;
use std::alloc::{AllocError, Global};
use std::borrow::CowSlice;
use std::marker::Model;

/// How many connections may be live at once.
pub const MOST_LIVE: usize = 64;

/// How far a live connection is, with its link if it is open.
#[derive(Drop)]
pub enum Phase {
    /// A CR was sent, and no answer was received.
    Asked,
    /// Open, with the peer's reference.
    Linked(u16, AnyLink),
    /// A DR was sent to the peer's reference, and is not answered yet.
    Closing(u16),
}

/// A connection for whose link memory ran out: no more units are handed to it. The function is kept out of line:
/// otherwise stack space for a phase would be reserved on the data path, too.
#[inline(never)]
fn give_up(phase: &mut Phase, peer: u16)
    ensures { phase.new ≡ Phase.Closing peer }
{
    *phase = Phase::Closing(peer);
}

/// A live connection and the reference that this end gave it.
#[derive(Drop)]
pub struct Row {
    reference: u16,
    phase: Phase,
}

impl Model for Row {
    ghost use Rattle.std.specs.Prelude.{ℕ};
    ghost use Rattle.osi_carrier.specs.State.{Connection};

    ghost Value = { ℕ × Connection };

    ghost use Rattle.osi_carrier.specs.Live.{connection, IsPumped};

    ghost view = { λ r. (r.reference, connection r.phase) };

    ghost invariant = { λ r. IsPumped (connection r.phase) };
}

impl Referred for Row {
    ghost reference_of = { λ row. row.0 };

    fn reference(&self) -> u16 {
        self.reference
    }
}

impl Row {
    /// The octets of its unfinished TSDU, at most 1,048,576.
    fn kept(&self) -> usize
        ensures value { result ≡ begun_by self.now.1 }
        ensures at_most { result ≤ 1048576 }
    {
        match &self.phase {
            Phase::Asked | Phase::Closing(_) => 0,
            Phase::Linked(_, link) => link.begun_octets(),
        }
    }

    /// The octets of TSDUs that were handed in here and are not yet in units.
    fn unsent(&self) -> usize
        ensures { result ≡ unsent_by self.now.1 }
    {
        match &self.phase {
            Phase::Asked | Phase::Closing(_) => 0,
            Phase::Linked(_, link) => link.unsent(),
        }
    }

    /// Whether the connection is known by this reference of the peer.
    fn is_of_peer(&self, peer: u16) -> bool
        ensures { result ≡ is_of_peer peer self.now.1 }
    {
        match self.phase {
            Phase::Asked => false,
            Phase::Linked(reference, _) | Phase::Closing(reference) => reference == peer,
        }
    }

    /// Hands in TSDUs together at the link of the connection, which is open with this reference of the peer, and
    /// writes what the link then gives. An allocation failure changes nothing; owned TSDUs that only wait need no
    /// memory.
    fn send_all(
        &mut self,
        peer: u16,
        tsdus: CowSlice<'_, Vec<u8>, Global>,
        out: &mut BytesMut,
    ) -> Result<(), AllocError>
        requires { peer_in (Some self.old.1) ≡ Some peer }
        ensures reference { self.new.0 ≡ self.old.0 }
        ensures row { OnOk result (self.new
            ≡ (self.old.0, linked peer (one_by_one (link_in (Some self.old.1)) (map (λ v. v.items) (cow_slice_items tsdus.entry))))) }
        ensures ok { OnOk result (out.new.items ≡ out.old.items
            ++ packets (written_for peer (link_in (Some self.old.1)) (map (λ v. v.items) (cow_slice_items tsdus.entry)))) }
        ensures err { OnErr result ((self.new ≡ self.old) × (out.new.items ≡ out.old.items)) }
        ensures kept { IsOwnedSlice tsdus.entry →
            WaitTogether (link_in (Some self.old.1)) (map (λ v. v.items) (cow_slice_items tsdus.entry)) → IsOk result }
    {
        match &mut self.phase {
            Phase::Asked | Phase::Closing(_) => unreachable!(),
            Phase::Linked(_, link) => send_all_on(link, peer, tsdus, out),
        }
    }

    /// Hands in the TSDUs that are cut together at the link of the connection, which is open with this reference of the
    /// peer, and writes what the link then gives. An allocation failure changes nothing.
    fn send_pieces(
        &mut self,
        alloc: Global,
        peer: u16,
        pieces: &Pieces<'_>,
        out: &mut BytesMut,
    ) -> Result<(), AllocError>
        requires open { peer_in (Some self.old.1) ≡ Some peer }
        requires fit { FitTsdus pieces.now }
        ensures reference { self.new.0 ≡ self.old.0 }
        ensures row { OnOk result (self.new ≡ (self.old.0, linked peer (one_by_one (link_in (Some self.old.1)) (tsdus_in pieces.now)))) }
        ensures ok { OnOk result (out.new.items ≡ out.old.items
            ++ packets (written_for peer (link_in (Some self.old.1)) (tsdus_in pieces.now))) }
        ensures err { OnErr result ((self.new ≡ self.old) × (out.new.items ≡ out.old.items)) }
    {
        match &mut self.phase {
            Phase::Asked | Phase::Closing(_) => unreachable!(),
            Phase::Linked(_, link) => send_pieces_on(alloc, link, peer, pieces, out),
        }
    }

    /// Brings the connection into another phase.
    fn set(&mut self, phase: Phase)
        requires { IsPumped (connection phase) }
        ensures { self.new ≡ (self.old.0, connection phase) }
    {
        self.phase = phase;
    }
}

/// The live connections, at most 64, in the order in which their references were given.
#[derive(Drop)]
pub struct Connections {
    rows: Vec<Row>,
    /// Whether each reference is above those before it. If so, a reference is looked up first at the place that its
    /// number suggests.
    rises: bool,
}

impl Model for Connections {
    ghost use Rattle.std.specs.Prelude.{◌≡◌, ◌≤◌, true, length};
    ghost use Rattle.osi_carrier.specs.Orderly.{RiseFrom};
    ghost use Rattle.osi_carrier.specs.Rows.{Rows};
    ghost use Rattle.osi_carrier.specs.State.{Connection};

    ghost Value = { Rows Connection };

    ghost view = { λ c. c.rows.items };

    ghost invariant = { λ c. (length c.rows.items ≤ 64) × (c.rises ≡ true → RiseFrom 0 c.rows.items) };
}

/// Whether one of the rows has this reference of the peer.
fn any_of_peer(rows: &[Row], peer: u16) -> bool
    ensures { result ≡ has_peer peer rows.now }
{
    rows.iter().any(|row| row.is_of_peer(peer))
}

/// The octets of the unfinished TSDUs of these connections.
fn kept_of(rows: &[Row]) -> usize
    requires { length rows.now ≤ 64 }
    ensures value { result ≡ kept_in rows.now }
    ensures at_most { result ≤ 1048576 * length rows.now }
{
    let mut octets = 0;
    for row in rows {
        octets += row.kept();
    }
    octets
}

/// The octets of TSDUs that were handed in at these connections and are not yet in units, or `usize::MAX` if they are
/// more.
fn backlog_of(rows: &[Row]) -> usize
    ensures { result ≡ min (backlog_of rows.now) (2 ^ 64 - 1) }
{
    let mut octets: usize = 0;
    for row in rows {
        octets = octets.saturating_add(row.unsent());
    }
    octets
}

/// Whether two pieces have more octets together than a TSDU may.
#[inline(always)]
fn is_too_long(head: &[u8], body: &[u8]) -> bool
    ensures { result ≡ nat_lt 1048576 (length (head.now ++ body.now)) }
{
    if head.len() > LONGEST_TSDU {
        return true;
    }
    body.len() > LONGEST_TSDU - head.len()
}

impl Connections {
    /// No connection is live.
    pub fn new(alloc: Global) -> Self
        ensures { result ≡ [] }
    {
        Connections {
            rows: Vec::new(alloc),
            rises: true,
        }
    }

    /// How many are live, at most 64.
    pub fn len(&self) -> usize
        ensures value { result ≡ length self.now }
        ensures at_most { result ≤ 64 }
    {
        self.rows.len()
    }

    /// The place of a reference.
    #[inline(always)]
    pub fn find(&self, reference: u16) -> Option<usize>
        ensures { result ≡ place_of reference self.now }
    {
        place_in(self.rows.as_slice(), self.rises, reference)
    }

    /// The place of the open connection of a reference, and the reference of its peer.
    #[inline(always)]
    #[tactic(auto, using(crate::proofs::references::the_row_at_a_place::nowhere))]
    pub fn open_at(&self, reference: u16) -> Option<(usize, u16)>
        ensures open { IfSome result (λ o. (place_of reference self.now ≡ Some o.0) × (peer_in (value_at reference self.now) ≡ Some o.1)) }
        ensures none { result ≡ None → link_of (value_at reference self.now) ≡ None }
    {
        let Some(place) = place_in(self.rows.as_slice(), self.rises, reference) else {
            return None;
        };
        match self.phase(place, reference) {
            Phase::Linked(peer, _) => Some((place, *peer)),
            Phase::Asked | Phase::Closing(_) => None,
        }
    }

    /// The lowest live reference.
    pub fn first(&self) -> Option<u16>
        ensures { result ≡ first_of self.now }
    {
        match self.rows.as_slice() {
            [] => None,
            [row, ..] => Some(row.reference()),
        }
    }

    /// Whether a live connection has this reference of the peer.
    pub fn has_peer(&self, peer: u16) -> bool
        ensures { result ≡ has_peer peer self.now }
    {
        any_of_peer(self.rows.as_slice(), peer)
    }

    /// Whether a live connection has this reference.
    pub fn is_live(&self, reference: u16) -> bool
        ensures { result ≡ is_some (value_at reference self.now) }
    {
        self.find(reference).is_some()
    }

    /// The octets of the unfinished TSDUs of open connections.
    pub fn kept(&self) -> usize
        ensures value { result ≡ kept_in self.now }
        ensures at_most { result ≤ 1048576 * length self.now }
        ensures bound { result ≤ 67108864 }
    {
        kept_of(self.rows.as_slice())
    }

    /// The octets of TSDUs that were handed in at the connection with this reference and are not yet in units; 0 if no
    /// connection has it.
    #[tactic(auto, using(crate::proofs::references::the_row_at_a_place::nowhere))]
    pub fn unsent(&self, reference: u16) -> usize
        ensures { result ≡ unsent_at (value_at reference self.now) }
    {
        match self.find(reference) {
            None => 0,
            Some(place) => self.unsent_by(place, reference),
        }
    }

    /// Those of the connection at this place.
    fn unsent_by(&self, place: usize, reference: u16) -> usize
        requires { place_of reference self.now ≡ Some place }
        ensures { result ≡ unsent_at (value_at reference self.now) }
    {
        self.rows[place].unsent()
    }

    /// Those of all connections, or `usize::MAX` if they are more.
    pub fn backlog(&self) -> usize
        ensures { result ≡ min (backlog_of self.now) (2 ^ 64 - 1) }
    {
        backlog_of(self.rows.as_slice())
    }

    /// How far the connection at this place is.
    #[inline(always)]
    pub fn phase(&self, place: usize, reference: u16) -> &Phase
        requires { place_of reference self.now ≡ Some place }
        ensures { value_at reference self.now ≡ Some (connection result.now) }
    {
        &self.rows[place].phase
    }

    /// Adds a new connection after the others. An allocation failure changes nothing.
    pub fn push(&mut self, reference: u16, phase: Phase) -> Result<(), AllocError>
        requires room { length self.old < 64 }
        requires pumped { IsPumped (connection phase) }
        ensures ok { OnOk result (self.new ≡ self.old ++ (reference, connection phase) ∷ []) }
        ensures err { OnErr result (self.new ≡ self.old) }
    {
        let rises = self.rises && is_above(self.rows.as_slice(), reference);
        if let Err(failed) = self.rows.push(Row { reference, phase }) {
            drop(failed);
            return Err(AllocError);
        }
        self.rises = rises;
        Ok(())
    }

    /// Hands a unit to the link of the open connection with this reference. If there is none, nothing has changed; an
    /// allocation failure leaves the octets of `out` as they were.
    #[inline(always)]
    pub fn step(
        &mut self,
        reference: u16,
        unit: &Tpdu<'_>,
        out: &mut BytesMut,
    ) -> Result<Step, AllocError>
        ensures step { IfOk result (λ s.
            StepsTo s reference (value unit.now) self.old (taken (link_in (value_at reference self.old)) (value unit.now))) }
        ensures rows { (peer : ℕ) → peer_in (value_at reference self.old) ≡ Some peer →
            OnOk result (self.new
            ≡ put reference (linked
            peer (link_after (link_in (value_at reference self.old)) (taken (link_in (value_at reference self.old)) (value
            unit.now)))) self.old) }
        ensures ok { (peer : ℕ) → peer_in (value_at reference self.old) ≡ Some peer →
            OnOk result (out.new.items ≡ out.old.items
            ++ packets (units_after peer (taken (link_in (value_at reference self.old)) (value unit.now)))) }
        ensures none { result ≡ Ok Step.NotOpen → (self.new ≡ self.old) × (out.new.items ≡ out.old.items) }
        ensures err { OnErr result (out.new.items ≡ out.old.items) }
        ensures known { OnErr result (is_some (peer_in (value_at reference self.old)) ≡ true) }
        ensures needs { (peer : ℕ) → peer_in (value_at reference self.old) ≡ Some peer →
            OnErr result (link_grows
            peer (link_in (value_at reference self.old)) (taken (link_in (value_at reference self.old)) (value unit.now)) ≡ true) }
    {
        let Some(place) = place_in(self.rows.as_slice(), self.rises, reference) else {
            return Ok(Step::NotOpen);
        };
        let row = &mut self.rows[place];
        let Phase::Linked(peer, link) = &mut row.phase else {
            return Ok(Step::NotOpen);
        };
        let peer = *peer;
        let handed = match link.receive(unit) {
            Ok(handed) => handed,
            Err(LinkFault::OutOfMemory) => return Err(AllocError),
            Err(fault) => return Ok(Step::Broke(place, peer, fault)),
        };
        let Ok(()) = pump_after(&handed, link, peer, out) else {
            give_up(&mut row.phase, peer);
            return Err(AllocError);
        };
        Ok(Step::Took(handed))
    }

    /// Hands in a TSDU at the link of the connection at this place, which is open with this reference of the peer, and
    /// writes what the link then gives: if all of it may be sent now, straight from its octets. An allocation failure
    /// changes nothing; an owned TSDU that only waits needs no memory.
    pub fn send(
        &mut self,
        place: usize,
        reference: u16,
        peer: u16,
        tsdu: CowSlice<'_, u8, Global>,
        out: &mut BytesMut,
    ) -> Result<(), AllocError>
        requires place { place_of reference self.old ≡ Some place }
        requires open { peer_in (value_at reference self.old) ≡ Some peer }
        ensures rows { OnOk result (self.new
            ≡ put reference (linked
            peer (pumped (with_tsdu (link_in (value_at reference self.old)) (cow_slice_items tsdu.entry)))) self.old) }
        ensures ok { OnOk result (out.new.items ≡ out.old.items
            ++ packets (written_by peer (with_tsdu (link_in (value_at reference self.old)) (cow_slice_items tsdu.entry)))) }
        ensures err { OnErr result ((self.new ≡ self.old) × (out.new.items ≡ out.old.items)) }
        ensures kept { IsOwnedSlice tsdu.entry →
            WaitsAlone (link_in (value_at reference self.old)) (cow_slice_items tsdu.entry) → IsOk result }
    {
        let Phase::Linked(_, link) = &mut self.rows[place].phase else {
            unreachable!()
        };
        if send_whole(link, peer, &[], tsdu.as_slice(), out) {
            return Ok(());
        }
        send_parts(link, peer, tsdu, out)
    }

    /// Hands in a TSDU, given as its first octets and the others, at the link of the open connection with this
    /// reference, and writes what the link then gives. Returns the peer's reference. An error changes nothing.
    #[inline(always)]
    pub fn hand_in_headed(
        &mut self,
        alloc: Global,
        reference: u16,
        head: &[u8],
        body: &[u8],
        out: &mut BytesMut,
    ) -> Result<u16, SendError>
        ensures open { IfOk result (λ peer. peer_in (value_at reference self.old) ≡ Some peer) }
        ensures rows { IfOk result (λ peer.
            self.new ≡ put reference (linked
            peer (pumped (with_tsdu (link_in (value_at reference self.old)) (head.now ++ body.now)))) self.old) }
        ensures ok { IfOk result (λ peer. out.new.items ≡ out.old.items
            ++ packets (written_by peer (with_tsdu (link_in (value_at reference self.old)) (head.now ++ body.now)))) }
        ensures fits { OnOk result (length_error (head.now ++ body.now) ≡ None) }
        ensures refused { IfErr result (λ e. call_error e ≡ send_error (head.now ++ body.now) (link_of (value_at reference self.old))) }
        ensures err { OnErr result ((self.new ≡ self.old) × (out.new.items ≡ out.old.items)) }
    {
        let Some(place) = place_in(self.rows.as_slice(), self.rises, reference) else {
            return Err(SendError::NotOpen);
        };
        let Phase::Linked(peer, link) = &mut self.rows[place].phase else {
            return Err(SendError::NotOpen);
        };
        let peer = *peer;
        if is_too_long(head, body) {
            return Err(SendError::TooLong);
        }
        if send_whole(link, peer, head, body, out) {
            return Ok(peer);
        }
        let Ok(()) = send_headed_parts(alloc, link, peer, head, body, out) else {
            return Err(SendError::OutOfMemory);
        };
        Ok(peer)
    }

    /// Hands in TSDUs together at the link of the connection at this place, which is open with this reference of the
    /// peer. An allocation failure changes nothing.
    pub fn send_all(
        &mut self,
        place: usize,
        reference: u16,
        peer: u16,
        tsdus: CowSlice<'_, Vec<u8>, Global>,
        out: &mut BytesMut,
    ) -> Result<(), AllocError>
        requires place { place_of reference self.old ≡ Some place }
        requires open { peer_in (value_at reference self.old) ≡ Some peer }
        ensures rows { OnOk result (self.new
            ≡ put reference (linked
            peer (one_by_one (link_in (value_at reference self.old)) (map (λ v. v.items) (cow_slice_items tsdus.entry)))) self.old) }
        ensures ok { OnOk result (out.new.items ≡ out.old.items
            ++ packets (written_for peer (link_in (value_at reference self.old)) (map (λ v. v.items) (cow_slice_items tsdus.entry)))) }
        ensures err { OnErr result ((self.new ≡ self.old) × (out.new.items ≡ out.old.items)) }
        ensures kept { IsOwnedSlice tsdus.entry →
            WaitTogether (link_in (value_at reference self.old)) (map (λ v. v.items) (cow_slice_items tsdus.entry)) → IsOk result }
    {
        self.rows[place].send_all(peer, tsdus, out)
    }

    /// Hands in the TSDUs that are cut together at the link of the connection at this place, which is open with this
    /// reference of the peer. An allocation failure changes nothing.
    pub fn send_pieces(
        &mut self,
        alloc: Global,
        place: usize,
        reference: u16,
        peer: u16,
        pieces: &Pieces<'_>,
        out: &mut BytesMut,
    ) -> Result<(), AllocError>
        requires place { place_of reference self.old ≡ Some place }
        requires open { peer_in (value_at reference self.old) ≡ Some peer }
        requires fit { FitTsdus pieces.now }
        ensures rows { OnOk result (self.new
            ≡ put reference (linked peer (one_by_one (link_in (value_at reference self.old)) (tsdus_in pieces.now))) self.old) }
        ensures ok { OnOk result (out.new.items ≡ out.old.items
            ++ packets (written_for peer (link_in (value_at reference self.old)) (tsdus_in pieces.now))) }
        ensures err { OnErr result ((self.new ≡ self.old) × (out.new.items ≡ out.old.items)) }
    {
        self.rows[place].send_pieces(alloc, peer, pieces, out)
    }

    /// Brings the connection at this place into another phase.
    pub fn set(&mut self, place: usize, reference: u16, phase: Phase)
        requires place { place_of reference self.old ≡ Some place }
        requires pumped { IsPumped (connection phase) }
        ensures { self.new ≡ put reference (connection phase) self.old }
    {
        self.rows[place].set(phase);
    }

    /// Drops the connection at this place. The order of the others stays.
    pub fn remove(&mut self, place: usize, reference: u16)
        requires { place_of reference self.old ≡ Some place }
        ensures { self.new ≡ without reference self.old }
    {
        drop(self.rows.remove(place));
    }

    /// Drops all connections.
    pub fn clear(&mut self)
        ensures { self.new ≡ [] }
    {
        self.rows.clear();
    }
}
