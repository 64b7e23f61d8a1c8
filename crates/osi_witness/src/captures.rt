//! Both directions of a capture: its packets, and the connections that `osi_rules` makes of their units.

ghost use Rattle.std.specs.Prelude.{◌≡◌, [], None, true, OnOk, option_copied};
ghost use Rattle.osi_witness.specs.Captures.{accepted_in, first_stop_of, has_class_2, next_offset, packets_of, AreTraced, IsNothing};
ghost use Rattle.osi_script.specs.declared.sides.Side.{Side};
ghost use Rattle.osi_witness.specs.Growing.{AllSayMore, SaysMore};
ghost use Rattle.osi_witness.specs.Whole.{AreUntold, HaveRuns, IsUntoldOn};

use crate::conversations::{Conversation, Opening};
use crate::halts::Halt;
use crate::places::{Place, Stop, earlier};
use osi_rules::{Direction, Finding, Meaning, Told, Traffic};
use osi_script::Side;
use osi_tpdu::{Tpdu, read_units};
use osi_tpkt::{Packet, Unit};
use std::alloc::{AllocError, Global};
use std::mem;

/// The packets of one direction.
#[derive(Drop)]
struct Reader {
    /// The octets of a packet that is not whole.
    held: Vec<u8>,
    /// The piece in which the first of them passed, and its offset.
    since: usize,
    offset: usize,
    /// No packet begins with those that passed.
    is_spent: bool,
    /// The packet at which the side is told no further.
    stop: Option<Stop>,
}

/// Both directions of a capture.
#[derive(Drop)]
pub struct Capture {
    alloc: Global,
    traffic: Traffic,
    /// Its connections, in the order of their CRs.
    pub conversations: Vec<Conversation>,
    /// The number of the connection at each place of `osi_rules`.
    placed: Vec<usize>,
    left: Reader,
    right: Reader,
}

fn direction_of(side: Side) -> Direction {
    match side {
        Side::Left => Direction::Left,
        Side::Right => Direction::Right,
    }
}

/// Whether the sender of a unit broke a rule, or left what is judged.
fn is_break(finding: Finding) -> bool {
    match finding {
        Finding::Kept | Finding::NotJudged => false,
        Finding::Broke(_) | Finding::Outside | Finding::TooMany => true,
    }
}

/// The user data of a DT.
fn user_of<'a>(unit: &Tpdu<'a>) -> &'a [u8] {
    match unit {
        Tpdu::Dt0(data) => data.user,
        Tpdu::Dt2(data) => data.user,
        _ => &[],
    }
}

impl Reader {
    fn new(alloc: Global) -> Reader
        ensures offset { result.offset ≡ 0 }
        ensures stop { result.stop ≡ None }
    {
        Reader {
            held: Vec::new(alloc),
            since: 0,
            offset: 0,
            is_spent: false,
            stop: None,
        }
    }

    /// The place of the first packet that is held, which ends in this piece.
    fn packet_until(&self, number: usize) -> Place {
        Place {
            first: self.since,
            last: number,
            offset: self.offset,
        }
    }

    /// Octets pass. Returns whether a packet begins with them.
    fn gather(&mut self, octets: &[u8], number: usize) -> Result<bool, AllocError> {
        let begins = self.held.is_empty();
        self.held.extend_from_slice(octets)?;
        if begins {
            self.since = number;
        }
        Ok(begins)
    }

    /// The side is told no further than this, if it was told further.
    fn stop_at(&mut self, stop: Stop) {
        if self.stop.is_none() {
            self.stop = Some(stop);
        }
    }

    /// A packet of so many octets has passed, and more of this piece may follow.
    fn advance(&mut self, octets: usize, number: usize) {
        self.since = number;
        self.offset = self.offset.saturating_add(octets);
    }
}

impl Capture {
    /// Nothing has passed.
    pub fn new(alloc: Global) -> Capture
        ensures { IsNothing result }
    {
        Capture {
            alloc,
            traffic: Traffic::new(alloc),
            conversations: Vec::new(alloc),
            placed: Vec::new(alloc),
            left: Reader::new(alloc),
            right: Reader::new(alloc),
        }
    }

    fn reader(&self, side: Side) -> &Reader
        ensures { result.now ≡ packets_of self.now side }
    {
        match side {
            Side::Left => &self.left,
            Side::Right => &self.right,
        }
    }

    /// The offset after the last whole packet of a side.
    pub fn offset(&self, side: Side) -> usize
        ensures { result ≡ next_offset self.now side }
    {
        self.reader(side).offset
    }

    /// The first connection that was accepted.
    pub fn accepted(&self) -> Option<&Conversation>
        ensures { option_copied result ≡ accepted_in self.now }
    {
        self.conversations.iter().find(|c| c.class().is_some())
    }

    /// Whether the connections are of class 2.
    pub fn is_of_class_2(&self) -> bool
        ensures { result ≡ has_class_2 self.now }
    {
        match self.accepted() {
            Some(conversation) => matches!(conversation.class(), Some(2)),
            None => false,
        }
    }

    /// The first packet with which a side broke a rule of transport, or TSDU with which it has no run.
    pub fn first_stop(&self) -> Option<Stop>
        ensures { result ≡ first_stop_of self.now }
    {
        let first = earlier(self.left.stop, self.right.stop);
        self.conversations.iter().fold(
            first,
            |first, conversation| earlier(first, conversation.limit()),
        )
    }

    /// A side is told no further than this packet.
    fn stop_at(&mut self, side: Side, place: Place, halt: Halt)
        ensures { self.new.conversations ≡ self.old.conversations }
    {
        let stop = Stop { side, place, halt };
        match side {
            Side::Left => self.left.stop_at(stop),
            Side::Right => self.right.stop_at(stop),
        }
    }

    /// The same, since the packet breaks a rule of transport.
    fn stop_by_transport(&mut self, side: Side, place: Place)
        ensures { self.new.conversations ≡ self.old.conversations }
    {
        let halt = if self.is_of_class_2() {
            Halt::TransportOfClass2
        } else {
            Halt::Transport
        };
        self.stop_at(side, place, halt);
    }

    /// The piece with this number passes. Nothing changes if it is empty, or if no packet begins with what passed of its side.
    pub fn pass(&mut self, side: Side, octets: &[u8], number: usize) -> Result<(), AllocError>
        ensures spent { (packets_of self.old side).is_spent ≡ true → self.new ≡ self.old }
        ensures empty { octets.now ≡ [] → self.new ≡ self.old }
        ensures untold { OnOk result (AreUntold self.old.conversations.items → AreUntold self.new.conversations.items) }
        ensures more { OnOk result (AreUntold self.old.conversations.items
            → AllSayMore side self.old.conversations.items self.new.conversations.items) }
    {
        if self.reader(side).is_spent || octets.is_empty() {
            return Ok(());
        }
        self.gather(side, octets, number)?;
        self.cut(side, number)
    }

    /// Octets of a side pass. If no packet was begun, one begins with them.
    fn gather(&mut self, side: Side, octets: &[u8], number: usize) -> Result<(), AllocError>
        ensures { OnOk result (self.new.conversations ≡ self.old.conversations) }
    {
        if self.gather_octets(side, octets, number)? {
            self.traffic.begin(direction_of(side));
        }
        Ok(())
    }

    fn gather_octets(
        &mut self,
        side: Side,
        octets: &[u8],
        number: usize,
    ) -> Result<bool, AllocError>
        ensures { self.new.conversations ≡ self.old.conversations }
    {
        match side {
            Side::Left => self.left.gather(octets, number),
            Side::Right => self.right.gather(octets, number),
        }
    }

    /// The octets that are held of a side, of which none are held then.
    fn take_held(&mut self, side: Side) -> Vec<u8>
        ensures { self.new.conversations ≡ self.old.conversations }
    {
        let none = Vec::new(self.alloc);
        match side {
            Side::Left => mem::replace(&mut self.left.held, none),
            Side::Right => mem::replace(&mut self.right.held, none),
        }
    }

    /// These octets are held of a side.
    fn hold(&mut self, side: Side, held: Vec<u8>)
        ensures { self.new.conversations ≡ self.old.conversations }
    {
        match side {
            Side::Left => self.left.held = held,
            Side::Right => self.right.held = held,
        }
    }

    /// A packet of a side of so many octets has passed.
    fn advance(&mut self, side: Side, octets: usize, number: usize)
        ensures { self.new.conversations ≡ self.old.conversations }
    {
        match side {
            Side::Left => self.left.advance(octets, number),
            Side::Right => self.right.advance(octets, number),
        }
    }

    /// No packet begins with what passed of a side.
    fn spend(&mut self, side: Side)
        ensures { self.new.conversations ≡ self.old.conversations }
    {
        match side {
            Side::Left => self.left.is_spent = true,
            Side::Right => self.right.is_spent = true,
        }
    }

    /// Takes the whole packets from the octets that are held.
    fn cut(&mut self, side: Side, number: usize) -> Result<(), AllocError>
        ensures untold { OnOk result (AreUntold self.old.conversations.items → AreUntold self.new.conversations.items) }
        ensures more { OnOk result (AreUntold self.old.conversations.items
            → AllSayMore side self.old.conversations.items self.new.conversations.items) }
    {
        let held = self.take_held(side);
        let left = self.take_packets(side, held.as_slice(), number)?;
        if left == held.len() {
            self.hold(side, held);
            return Ok(());
        }
        let used = held.len().saturating_sub(left);
        let rest = Vec::from_slice(self.alloc, held.get(used..).unwrap_or_default())?;
        self.hold(side, rest);
        Ok(())
    }

    /// The whole packets of these octets pass. Returns how many octets are left.
    fn take_packets(
        &mut self,
        side: Side,
        octets: &[u8],
        number: usize,
    ) -> Result<usize, AllocError>
        ensures untold { OnOk result (AreUntold self.old.conversations.items → AreUntold self.new.conversations.items) }
        ensures more { OnOk result (AreUntold self.old.conversations.items
            → AllSayMore side self.old.conversations.items self.new.conversations.items) }
    {
        let mut rest = octets;
        'packets: for _ in 0..octets.len() {
            let (packet, used) = match Packet::read(rest) {
                Ok(Some(found)) => found,
                Ok(None) => break,
                Err(_) => {
                    self.refuse(side, number);
                    return Ok(0);
                }
            };
            self.take(side, packet.unit(), number)?;
            self.advance(side, used, number);
            rest = rest.get(used..).unwrap_or_default();
            if !rest.is_empty() {
                self.traffic.begin(direction_of(side));
            }
        }
        Ok(rest.len())
    }

    /// No packet begins with the octets that are held.
    fn refuse(&mut self, side: Side, number: usize)
        ensures { self.new.conversations ≡ self.old.conversations }
    {
        let place = self.reader(side).packet_until(number);
        self.stop_by_transport(side, place);
        self.spend(side);
        let _ = self.traffic.refuse(direction_of(side));
    }

    /// A packet with these transport units passes.
    fn take(&mut self, side: Side, packet: &[u8], number: usize) -> Result<(), AllocError>
        ensures untold { OnOk result (AreUntold self.old.conversations.items → AreUntold self.new.conversations.items) }
        ensures more { OnOk result (AreUntold self.old.conversations.items
            → AllSayMore side self.old.conversations.items self.new.conversations.items) }
    {
        let place = self.reader(side).packet_until(number);
        let Ok(units) = read_units(packet) else {
            self.stop_by_transport(side, place);
            let _ = self.traffic.refuse(direction_of(side));
            return Ok(());
        };
        'units: for unit in units {
            self.take_unit(side, &unit, place)?;
        }
        Ok(())
    }

    /// A unit of a side passes.
    fn take_unit(&mut self, side: Side, unit: &Tpdu<'_>, place: Place) -> Result<(), AllocError>
        ensures untold { OnOk result (AreUntold self.old.conversations.items → AreUntold self.new.conversations.items) }
        ensures more { OnOk result (AreUntold self.old.conversations.items
            → AllSayMore side self.old.conversations.items self.new.conversations.items) }
    {
        let told = self.traffic.take(direction_of(side), unit)?;
        if is_break(told.finding) {
            self.stop_by_transport(side, place);
        }
        self.look(side, unit, place);
        self.mean(side, unit, &told, place)
    }

    /// Some units that are right are sent by no call: an ER, and in class 0 a DC.
    fn look(&mut self, side: Side, unit: &Tpdu<'_>, place: Place)
        ensures { self.new.conversations ≡ self.old.conversations }
    {
        match unit {
            Tpdu::Er(_) => self.stop_at(side, place, Halt::NoCall),
            Tpdu::Dc(_) if !self.is_of_class_2() => self.stop_at(side, place, Halt::NoCall),
            _ => (),
        }
    }

    /// What a unit means for its connection.
    fn mean(
        &mut self,
        side: Side,
        unit: &Tpdu<'_>,
        told: &Told,
        place: Place,
    ) -> Result<(), AllocError>
        ensures untold { OnOk result (AreUntold self.old.conversations.items → AreUntold self.new.conversations.items) }
        ensures more { OnOk result (AreUntold self.old.conversations.items
            → AllSayMore side self.old.conversations.items self.new.conversations.items) }
    {
        let Some(at) = told.place else {
            return Ok(());
        };
        if let Meaning::Asks = told.meaning {
            return self.ask(at, unit, place);
        }
        let number = self.placed.get(at).copied().unwrap_or(0);
        if number >= self.conversations.len() {
            return Ok(());
        }
        let alloc = self.alloc;
        mean_on(
            alloc,
            &mut self.conversations[number],
            side,
            unit,
            told.meaning,
            place,
        )?;
        Ok(())
    }

    /// A CR requests a connection, which gets this place.
    fn ask(&mut self, at: usize, unit: &Tpdu<'_>, place: Place) -> Result<(), AllocError>
        ensures untold { OnOk result (AreUntold self.old.conversations.items → AreUntold self.new.conversations.items) }
        ensures more { OnOk result ((side : Side) → AllSayMore side self.old.conversations.items self.new.conversations.items) }
    {
        let Tpdu::Cr(request) = unit else {
            return Ok(());
        };
        let number = self.conversations.len();
        let conversation = Conversation::new(self.alloc, Opening::of(&request.fields, place))?;
        self.conversations.push(conversation)?;
        match self.placed.get_mut(at) {
            Some(placed) => *placed = number,
            None => self.placed.push(number)?,
        }
        Ok(())
    }

    /// The runs of all connections are read off.
    pub fn trace(&mut self) -> Result<(), AllocError>
        ensures traced { OnOk result (AreTraced self.old.conversations.items self.new.conversations.items) }
        ensures found { OnOk result (AreUntold self.old.conversations.items → HaveRuns self.new.conversations.items) }
    {
        trace_each(self.alloc, &mut self.conversations)
    }
}

/// The runs of these connections are read off.
fn trace_each(alloc: Global, conversations: &mut Vec<Conversation>) -> Result<(), AllocError>
    ensures traced { OnOk result (AreTraced conversations.old.items conversations.new.items) }
    ensures found { OnOk result (AreUntold conversations.old.items → HaveRuns conversations.new.items) }
{
    'conversations: for conversation in conversations.iter_mut() {
        conversation.trace(alloc)?;
    }
    Ok(())
}

/// A unit of a side means this for its connection.
fn mean_on(
    alloc: Global,
    conversation: &mut Conversation,
    side: Side,
    unit: &Tpdu<'_>,
    meaning: Meaning,
    place: Place,
) -> Result<(), AllocError>
    ensures untold { OnOk result (IsUntoldOn conversation.old → IsUntoldOn conversation.new) }
    ensures more { OnOk result (IsUntoldOn conversation.old → SaysMore side conversation.old conversation.new) }
{
    match (meaning, unit) {
        (Meaning::Opens, Tpdu::Cc(confirm)) => {
            conversation.answer(Opening::of(&confirm.fields, place));
            Ok(())
        }
        (Meaning::Closes, Tpdu::Dr(_)) => {
            conversation.answer(Opening::refusal(place));
            Ok(())
        }
        (Meaning::Adds(end), _) => conversation.add(alloc, side, end, user_of(unit), place),
        _ => Ok(()),
    }
}
