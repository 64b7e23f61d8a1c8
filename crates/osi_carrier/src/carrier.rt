//! The carrier: its calls, and what it reports.

use crate::ends::EndReason;
use crate::events::{Event, Ref};
use crate::faults::{OpenError, SendError};
use crate::lending::{FedLent, Lent};
use crate::pieces::Pieces;
use crate::selectors::Tsaps;
use crate::switch::Switch;
use osi_class::Local;
use osi_tpdu::Tsap;
use osi_tpkt::{Cutter, Fed};
use std::alloc::Global;
use std::borrow::CowSlice;
use std::marker::Model;

mod feeding;

use feeding::Fetched;

/// The transport protocol at one end of a byte connection (X.224 classes 0 and 2 over RFC 1006). Connections go by
/// reference, and each carries TSDUs both ways.
#[derive(Drop)]
pub struct Carrier {
    alloc: Global,
    switch: Switch,
    cutter: Cutter,
}

impl Model for Carrier {
    ghost use Rattle.osi_carrier.specs.Packets.{Carrying};

    ghost Value = { Carrying };

    ghost use Rattle.osi_carrier.specs.Packets.{IsReading};

    ghost view = { λ c. record { state = c.switch; held = c.cutter } };

    ghost invariant = { λ c. IsReading c.cutter };
}

impl Carrier {
    ghost use Rattle.std.specs.Prelude.{◌≡◌, ◌≢◌, ◌+◌, ◌-◌, ◌*◌, ◌^◌, ◌≤◌, ◌++◌, true, false, None, Some, Err, [], length, map, min, drop};
    ghost use Rattle.std.specs.Prelude.{IfOk, IfErr, IfSome, IsSome, OnOk, OnErr, MatchResult, option_map, is_some};
    ghost use Rattle.osi_tpkt.specs.Held.{fresh};
    ghost use Rattle.osi_tpdu.specs.Limits.{tsap_octets};
    ghost use Rattle.osi_carrier.specs.Calls.{fresh_state, may_connect, open_error, asks, open_link, close_error, send_error};
    ghost use Rattle.osi_carrier.specs.Calls.{send_all_error, call_error, closed_with, sent, sent_all, ended_by, kept_in, unsent_at};
    ghost use Rattle.osi_carrier.specs.Calls.{backlog_of, tsaps_at, Tells, WaitsOn, AllWaitOn};
    ghost use Rattle.osi_carrier.specs.Rows.{value_at};
    ghost use Rattle.osi_carrier.specs.Happenings.{happening};
    ghost use Rattle.osi_carrier.specs.Lending.{carrying_lent, lent_event};
    ghost use Rattle.osi_carrier.specs.Packets.{Feeds, waits};
    ghost use Rattle.osi_carrier.specs.Pieces.{tsdus_in, FitTsdus};
    ghost use Rattle.osi_carrier.specs.Selectors.{tsap_ids};
    ghost use Rattle.osi_carrier.specs.declared.ends.EndReason.TheVariants.{Broken, NoMemory};
    ghost use Rattle.osi_class.specs.declared.terms.Class.TheVariants.{Zero};

    /// The calling end of a byte connection. Nothing is written yet.
    pub fn caller(alloc: Global, local: Local) -> Self
        ensures { result ≡ record { state = fresh_state true local; held = fresh } }
    {
        Carrier {
            alloc,
            switch: Switch::new(alloc, local, true),
            cutter: Cutter::new(alloc),
        }
    }

    /// The called end of a byte connection, which waits for a CR.
    pub fn called(alloc: Global, local: Local) -> Self
        ensures { result ≡ record { state = fresh_state false local; held = fresh } }
    {
        Carrier {
            alloc,
            switch: Switch::new(alloc, local, false),
            cutter: Cutter::new(alloc),
        }
    }

    /// Whether [`Carrier::connect`] would request a connection now, or the first reason why not. Allocates nothing.
    pub fn may_connect(&self) -> Result<(), OpenError>
        ensures { MatchResult result (λ _. may_connect self.now.state ≡ None) (λ e. may_connect self.now.state ≡ Some e) }
    {
        self.switch.may_connect()
    }

    /// Requests a connection with these transport selectors: the connection gets the next reference, and a CR is
    /// written. The errors are those of [`Carrier::may_connect`], and then out of memory. An error changes nothing.
    pub fn connect(&mut self, calling: Option<Tsap>, called: Option<Tsap>) -> Result<Ref, OpenError>
        ensures ok { OnOk result (self.new
            ≡ record self.old { state = asks (option_map tsap_octets calling) (option_map tsap_octets called) self.old.state }) }
        ensures reference { IfOk result (λ r. r.0 ≡ self.old.state.given + 1) }
        ensures allowed { OnOk result (may_connect self.old.state ≡ None) }
        ensures refused { IfErr result (λ e. open_error e ≡ may_connect self.old.state) }
        ensures err { OnErr result (self.new ≡ self.old) }
    {
        self.switch.connect(calling, called)
    }

    /// Sends a TSDU of at most 1,048,576 octets on an open connection. All units that may be sent now are written,
    /// straight from its octets; the rest is kept. An error changes nothing.
    pub fn send(&mut self, reference: Ref, tsdu: &[u8]) -> Result<(), SendError>
        ensures ok { OnOk result (self.new ≡ record self.old { state = sent reference.0 tsdu.now self.old.state }) }
        ensures allowed { OnOk result (send_error tsdu.now (open_link reference.0 self.old.state) ≡ None) }
        ensures refused { IfErr result (λ e. call_error e ≡ send_error tsdu.now (open_link reference.0 self.old.state)) }
        ensures err { OnErr result (self.new ≡ self.old) }
    {
        self.send_headed(reference, &[], tsdu)
    }

    /// Sends a TSDU as [`Carrier::send`] does, and takes over the buffer with its octets: octets that may not be sent
    /// yet are not copied until they may. If none of it may be sent now and nothing else is queued at the connection,
    /// no memory is needed.
    pub fn send_owned(&mut self, reference: Ref, tsdu: Vec<u8>) -> Result<(), SendError>
        ensures ok { OnOk result (self.new ≡ record self.old { state = sent reference.0 tsdu.items self.old.state }) }
        ensures allowed { OnOk result (send_error tsdu.items (open_link reference.0 self.old.state) ≡ None) }
        ensures refused { IfErr result (λ e. call_error e ≡ send_error tsdu.items (open_link reference.0 self.old.state)) }
        ensures err { OnErr result (self.new ≡ self.old) }
        ensures kept { WaitsOn (open_link reference.0 self.old.state) tsdu.items → result ≢ Err SendError.OutOfMemory }
    {
        self.switch.send(reference.0, CowSlice::Owned(tsdu))
    }

    /// Sends a TSDU as [`Carrier::send`] does. The TSDU is given in two pieces, its first octets and the others, such
    /// as a header and what follows it. What may be sent now is written straight from the pieces; if not all of it
    /// may, the rest is kept.
    #[inline(always)]
    #[tactic(auto, using(crate::proofs::written::tsdus_that_are_sent_together::open_here))]
    pub fn send_headed(&mut self, reference: Ref, head: &[u8], body: &[u8]) -> Result<(), SendError>
        ensures ok { OnOk result (self.new ≡ record self.old { state = sent reference.0 (head.now ++ body.now) self.old.state }) }
        ensures allowed { OnOk result (send_error (head.now ++ body.now) (open_link reference.0 self.old.state) ≡ None) }
        ensures refused { IfErr result (λ e. call_error e ≡ send_error (head.now ++ body.now) (open_link reference.0 self.old.state)) }
        ensures err { OnErr result (self.new ≡ self.old) }
    {
        if self.switch.ended.is_some() {
            return Err(SendError::NotOpen);
        }
        match self.switch.live.hand_in_headed(
            self.alloc,
            reference.0,
            head,
            body,
            &mut self.switch.outgoing,
        ) {
            Ok(_) => Ok(()),
            Err(error) => Err(error),
        }
    }

    /// Sends TSDUs of at most 1,048,576 octets each together on an open connection, all or none, in order, as
    /// [`Carrier::send`] does with each. If all their units may be sent now, they are written straight from the TSDUs.
    /// Otherwise copies of the TSDUs are kept, and what may be sent now is written from them. The errors are those of
    /// [`Carrier::send`]; one TSDU that is too long makes the whole call fail. An error changes nothing. An empty list
    /// sends nothing, and allocates nothing.
    pub fn send_all(&mut self, reference: Ref, tsdus: &[Vec<u8>]) -> Result<(), SendError>
        ensures ok { OnOk result (self.new
            ≡ record self.old { state = sent_all reference.0 (map (λ v. v.items) tsdus.now) self.old.state }) }
        ensures allowed { OnOk result (send_all_error (map (λ v. v.items) tsdus.now) (open_link reference.0 self.old.state) ≡ None) }
        ensures refused { IfErr result (λ e.
            call_error e ≡ send_all_error (map (λ v. v.items) tsdus.now) (open_link reference.0 self.old.state)) }
        ensures err { OnErr result (self.new ≡ self.old) }
        ensures nothing { tsdus.now ≡ [] → result ≢ Err SendError.OutOfMemory }
    {
        self.switch.send_all(reference.0, CowSlice::Borrowed(tsdus))
    }

    /// Sends TSDUs together as [`Carrier::send_all`] does, and takes over their buffers: none is copied before it is
    /// written. If none may be sent now, nothing else is queued at the connection, and they have fewer than 2^64
    /// octets together, no memory is needed.
    pub fn send_all_owned(&mut self, reference: Ref, tsdus: Vec<Vec<u8>>) -> Result<(), SendError>
        ensures ok { OnOk result (self.new
            ≡ record self.old { state = sent_all reference.0 (map (λ v. v.items) tsdus.items) self.old.state }) }
        ensures allowed { OnOk result (send_all_error (map (λ v. v.items) tsdus.items) (open_link reference.0 self.old.state) ≡ None) }
        ensures refused { IfErr result (λ e.
            call_error e ≡ send_all_error (map (λ v. v.items) tsdus.items) (open_link reference.0 self.old.state)) }
        ensures err { OnErr result (self.new ≡ self.old) }
        ensures nothing { tsdus.items ≡ [] → result ≢ Err SendError.OutOfMemory }
        ensures kept { AllWaitOn (open_link reference.0 self.old.state) (map (λ v. v.items) tsdus.items) →
            result ≢ Err SendError.OutOfMemory }
    {
        self.switch.send_all(reference.0, CowSlice::Owned(tsdus))
    }

    /// Sends TSDUs together as [`Carrier::send_all`] does. They are cut from octets in pieces of one size, and each piece
    /// goes after its head, such as a header. What may be sent now is written straight from the heads and the pieces. If
    /// that is all, no memory is needed but for its room in [`Carrier::outgoing`]. Otherwise a copy of the rest is kept.
    /// The errors are those of [`Carrier::send_all`], and `TooLong` also if a piece has no octet or a head more than 123.
    /// An error changes nothing.
    pub fn send_all_headed(&mut self, reference: Ref, pieces: &Pieces<'_>) -> Result<(), SendError>
        ensures ok { OnOk result (self.new ≡ record self.old { state = sent_all reference.0 (tsdus_in pieces.now) self.old.state }) }
        ensures allowed { OnOk result (send_all_error (tsdus_in pieces.now) (open_link reference.0 self.old.state) ≡ None) }
        ensures refused { FitTsdus pieces.now →
            IfErr result (λ e. call_error e ≡ send_all_error (tsdus_in pieces.now) (open_link reference.0 self.old.state)) }
        ensures unfit { (FitTsdus pieces.now → ⊥) → result ≡ Err SendError.TooLong }
        ensures err { OnErr result (self.new ≡ self.old) }
    {
        if !pieces.fit() {
            return Err(SendError::TooLong);
        }
        self.switch.send_pieces(reference.0, pieces)
    }

    /// Closes an open connection with this reason. In class 2 a DR is written, and the connection is closing until the
    /// peer answers. In class 0 the carrier ends with [`EndReason::Closed`]; this needs no memory, and the octets in
    /// [`Carrier::outgoing`] stay.
    pub fn close(&mut self, reference: Ref, reason: u8) -> Result<(), SendError>
        ensures ok { OnOk result (self.new ≡ record self.old { state = closed_with reference.0 reason self.old.state }) }
        ensures allowed { OnOk result (close_error (open_link reference.0 self.old.state) ≡ None) }
        ensures refused { IfErr result (λ e. call_error e ≡ close_error (open_link reference.0 self.old.state)) }
        ensures err { OnErr result (self.new ≡ self.old) }
        ensures zero { self.old.state.class ≡ Some Zero → result ≢ Err SendError.OutOfMemory }
    {
        self.switch.close(reference.0, reason)
    }

    /// Feeds a piece of the stream from the peer. Its packets take effect one after the other, up to one that causes
    /// an event or ends the carrier. Take the events, and then feed the rest of the piece.
    ///
    /// An empty piece changes nothing. While an event is pending, nothing is used; otherwise at least one octet of a
    /// piece that is not empty is used. All of the piece is used after the end, and also if the carrier ends now
    /// because of a fault or because memory ran out.
    pub fn feed(&mut self, piece: &[u8]) -> Fed
        ensures feeds { Feeds self.old piece.now result self.new }
        ensures empty { piece.now ≡ [] → (result.used ≡ 0) × (self.new ≡ self.old) }
    {
        self.feed_by(piece, false).fed
    }

    /// Feeds a piece as [`Carrier::feed`] does, and then takes the event of a TSDU as [`Carrier::next_event`] does, if the
    /// last packet that was used was a whole TSDU and lies within the piece. Such a TSDU is lent from the piece: its octets
    /// are not copied, and no event is queued for it. Then no event is pending, and `whole` in the result says that a TSDU
    /// is lent. If none is lent, the call has done what [`Carrier::feed`] does.
    #[inline(always)]
    pub fn feed_lent<'a>(&mut self, piece: &'a [u8]) -> FedLent<'a>
        ensures feeds { Feeds self.old piece.now result.fed (carrying_lent result.lent self.new) }
        ensures told { IfSome result.lent (λ lent.
            Tells (Some (lent_event lent)) (carrying_lent result.lent self.new).state self.new.state) }
        ensures none { IsSome result.lent → self.new.state.events ≡ [] }
        ensures empty { piece.now ≡ [] → (result.fed.used ≡ 0) × (self.new ≡ self.old) × (result.lent ≡ None) }
    {
        self.feed_by(piece, true)
    }

    /// Feeds a piece, and lends a whole TSDU if the caller wants that.
    #[inline(always)]
    fn feed_by<'a>(&mut self, piece: &'a [u8], lends: bool) -> FedLent<'a>
        ensures feeds { Feeds self.old piece.now result.fed (carrying_lent result.lent self.new) }
        ensures wanted { lends ≡ false → result.lent ≡ None }
        ensures none { IsSome result.lent → self.new.state.events ≡ [] }
        ensures empty { piece.now ≡ [] → (result.fed.used ≡ 0) × (self.new ≡ self.old) × (result.lent ≡ None) }
    {
        // Named for the proof: what every cutter holds.
        let _cutter = &self.cutter;
        if piece.is_empty() {
            return self.fed(0);
        }
        if self.switch.has_ended() {
            return self.fed(piece.len());
        }
        if self.switch.has_event() {
            return self.fed(0);
        }
        let mut lent = Lent::none();
        let mut rest = piece;
        'packets: loop {
            let used = match self.read_packet(rest, lends, &mut lent) {
                Fetched::Over | Fetched::Part => return self.fed(piece.len()),
                Fetched::Packet(used) => used,
                Fetched::Lent(used) => {
                    return FedLent {
                        fed: Fed {
                            used: piece.len() - (rest.len() - used),
                            whole: true,
                        },
                        lent: Some(lent),
                    };
                }
            };
            let (_, behind) = rest.split_at(used);
            rest = behind;
            if self.switch.is_spoilt() {
                return self.fed(piece.len());
            }
            if self.switch.stops() {
                return self.fed(piece.len() - rest.len());
            }
        }
    }

    /// This many octets were used, and perhaps an event is pending. Nothing is lent.
    #[inline(always)]
    fn fed<'a>(&self, used: usize) -> FedLent<'a>
        ensures used { result.fed.used ≡ used }
        ensures whole { result.fed.whole ≡ waits self.now.state }
        ensures none { result.lent ≡ None }
    {
        FedLent {
            fed: Fed {
                used,
                whole: self.switch.has_event(),
            },
            lent: None,
        }
    }

    /// The oldest pending event; `None` exactly if no event is pending. Allocates nothing.
    pub fn next_event(&mut self) -> Option<Event>
        ensures told { Tells (option_map happening result) self.old.state self.new.state }
        ensures held { self.new.held ≡ self.old.held }
    {
        self.switch.events.pop()
    }

    /// The octets to send to the peer, in order.
    pub fn outgoing(&self) -> &[u8]
        ensures { result.now ≡ self.now.state.outgoing }
    {
        self.switch.outgoing.as_slice()
    }

    /// Says that the first octets of [`Carrier::outgoing`] were sent: at most as many as there are. If these are all,
    /// what is written next goes to the front of the buffer.
    #[tactic(auto, using(std::proofs::lemmas::List::drop_all))]
    pub fn taken(&mut self, octets: usize)
        requires { octets ≤ length self.old.state.outgoing }
        ensures { self.new ≡ record self.old { state = record self.old.state { outgoing = drop octets self.old.state.outgoing } } }
    {
        if octets == self.switch.outgoing.len() {
            self.switch.outgoing.clear();
            return;
        }
        self.switch.outgoing.advance(octets);
    }

    /// The byte connection broke. Nothing changes if the carrier has ended.
    pub fn broken(&mut self)
        ensures { self.new ≡ record self.old { state = ended_by Broken self.old.state } }
    {
        self.switch.end_by(EndReason::Broken);
    }

    /// Memory ran out for something that the carrier reported. Nothing changes if the carrier has ended.
    pub fn starved(&mut self)
        ensures { self.new ≡ record self.old { state = ended_by NoMemory self.old.state } }
    {
        self.switch.end_by(EndReason::NoMemory);
    }

    /// Why the carrier ended; `None` before its end.
    pub fn ended(&self) -> Option<EndReason>
        ensures { result ≡ self.now.state.ended }
    {
        self.switch.ended
    }

    /// How many octets of the input are held: those of the unfinished packet and of the unfinished TSDUs of open
    /// connections. At most 65,535, and 1,048,576 more for each live connection.
    pub fn kept(&self) -> usize
        ensures value { result ≡ length self.now.held.octets + kept_in self.now.state.live }
        ensures at_most { result ≤ 65535 + 1048576 * length self.now.state.live }
    {
        self.cutter.rest_len() + self.switch.kept()
    }

    /// How many octets of TSDUs were handed in at a connection and are not yet in units: in class 2 what waits for
    /// credit, which [`Carrier::outgoing`] does not contain (X.224 section 6.16). 0 if no open connection has this
    /// reference. Allocates nothing.
    pub fn unsent(&self, reference: Ref) -> usize
        ensures { result ≡ unsent_at (value_at reference.0 self.now.state.live) }
    {
        self.switch.live.unsent(reference.0)
    }

    /// The octets of [`Carrier::unsent`] of all connections together, or `usize::MAX` if they are more. Allocates
    /// nothing.
    pub fn backlog(&self) -> usize
        ensures { result ≡ min (backlog_of self.now.state.live) (2 ^ 64 - 1) }
    {
        self.switch.live.backlog()
    }

    /// How many connections are live: requested, open or closing. At most 64. Allocates nothing.
    pub fn live(&self) -> usize
        ensures value { result ≡ length self.now.state.live }
        ensures at_most { result ≤ 64 }
    {
        self.switch.live.len()
    }

    /// Whether a live connection has this reference: one that is requested, open or closing. Allocates nothing.
    pub fn is_live(&self, reference: Ref) -> bool
        ensures { result ≡ is_some (value_at reference.0 self.now.state.live) }
    {
        self.switch.live.is_live(reference.0)
    }

    /// The transport selectors in the CR of a live connection, as the CR was received or requested (X.224 section
    /// 13.3.4); `None` if no live connection has this reference. Allocates nothing.
    pub fn tsaps(&self, reference: Ref) -> Option<Tsaps>
        ensures { option_map tsap_ids result ≡ tsaps_at reference.0 self.now.state }
    {
        self.switch.names.find(reference.0)
    }

    /// How many references were given: they are the numbers from 1 to this one. Allocates nothing.
    pub fn given(&self) -> u16
        ensures { result ≡ self.now.state.given }
    {
        self.switch.given
    }
}
