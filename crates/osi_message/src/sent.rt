//! The octets in which a message is sent.

ghost use Rattle.std.specs.Prelude.{◌≡◌, ◌<◌, true, false, [], ◌∷◌, length, IfOk, IsOk};
ghost use Rattle.osi_spdu.specs.Groups.{units_of};
ghost use Rattle.osi_spdu.specs.Sizes.{size_of};
ghost use Rattle.osi_spdu.specs.Values.{is_size};
ghost use Rattle.osi_spdu.specs.Writing.{tsdu_octets, TsduFits};
ghost use Rattle.osi_message.specs.Brief.{is_brief, is_inline};
ghost use Rattle.osi_message.specs.Meanings.{DT, MIP, MIA, meant_by};
ghost use Rattle.osi_message.specs.Parting.{in_one, is_whole, tsdus_of};
ghost use Rattle.osi_message.specs.Tsdus.{octets_in, octets_lent, AreSeveral};
ghost use Rattle.osi_message.specs.Written.{user_data_of};

use crate::brief::brief_octets;
use crate::messages::Message;
use crate::parts::parts;
use crate::plain;
use crate::short::Short;
use crate::tsdus::{LentTsdus, Tsdus};
use bytes::BytesMut;
use osi_spdu::{Group, Serial, TsduSize, write_tsdu};
use std::alloc::{AllocError, Global};
use std::marker::Model;

/// The octets to send: one TSDU, or those of the parts of a Data, in order.
#[derive(Drop)]
pub struct Sent {
    tsdus: Tsdus,
}

impl Model for Sent {
    ghost use Rattle.std.specs.Prelude.{ℕ, List};
    ghost use Rattle.osi_message.specs.Tsdus.{octets_in, AreSeveral};

    ghost Value = { List (List ℕ) };

    ghost view = { λ s. octets_in s.tsdus };

    ghost invariant = { λ s. AreSeveral s.tsdus };
}

/// The written form of the units in which a message is sent. It is kept out of line: otherwise every message that is
/// written directly would pay for the room of its units.
#[inline(never)]
fn by_units(alloc: Global, message: &Message) -> Result<Sent, AllocError>
    requires { length (user_data_of (meant_by message.now)) < 65000 }
    ensures { IfOk result (λ s. s ≡ in_one (meant_by message.now)) }
{
    Sent::written(alloc, &message.group())
}

/// A minor point by its units.
#[inline(never)]
#[tactic(auto, unfolding(crate::specs::Written::user_data_of))]
fn point_by_units(
    alloc: Global,
    confirm: bool,
    number: Serial,
    user_data: &[u8],
) -> Result<Sent, AllocError>
    requires { length user_data.now < 65000 }
    ensures { IfOk result (λ s. s ≡ in_one (MIP confirm number.number user_data.now)) }
{
    let message = Message::MinorPoint {
        confirm,
        number,
        user_data,
    };
    by_units(alloc, &message)
}

/// The confirmation of a minor point by its units.
#[inline(never)]
#[tactic(auto, unfolding(crate::specs::Written::user_data_of))]
fn ack_by_units(alloc: Global, number: Serial, user_data: &[u8]) -> Result<Sent, AllocError>
    requires { length user_data.now < 65000 }
    ensures { IfOk result (λ s. s ≡ in_one (MIA number.number user_data.now)) }
{
    let message = Message::MinorAck { number, user_data };
    by_units(alloc, &message)
}

impl Sent {
    /// One TSDU.
    fn one(octets: Vec<u8>) -> Sent
        ensures { result ≡ octets.items ∷ [] }
    {
        Sent {
            tsdus: Tsdus::One(octets),
        }
    }

    /// One TSDU of few octets.
    #[inline(always)]
    fn short(octets: Short) -> Sent
        ensures { result ≡ octets ∷ [] }
    {
        Sent {
            tsdus: Tsdus::Short(octets),
        }
    }

    /// The written form of the units of a TSDU.
    pub fn written(alloc: Global, group: &Group) -> Result<Sent, AllocError>
        requires { TsduFits (units_of group.now) }
        ensures { IfOk result (λ s. s ≡ tsdu_octets (units_of group.now) ∷ []) }
    {
        let mut octets = BytesMut::new(alloc);
        write_tsdu(group, &mut octets)?;
        match octets.into_vec() {
            Ok(octets) => Ok(Sent::one(octets)),
            Err(_) => Err(AllocError),
        }
    }

    /// The written form of a message, in one TSDU. Data is written directly into a buffer of the right length. Minor points
    /// and their confirmations without user data, and brief messages, need no memory.
    pub fn of(alloc: Global, message: &Message) -> Result<Sent, AllocError>
        requires { length (user_data_of (meant_by message.now)) < 65000 }
        ensures written { IfOk result (λ s. s ≡ in_one (meant_by message.now)) }
        ensures memory { is_inline (meant_by message.now) ≡ true → IsOk result }
    {
        match *message {
            Message::Data { user_data } => Sent::whole(alloc, user_data),
            Message::MinorPoint {
                confirm: true,
                number,
                user_data: [],
            } => {
                let octets = plain::minor_point(number);
                Ok(Sent::short(octets))
            }
            Message::MinorAck {
                number,
                user_data: [],
            } => {
                let octets = plain::minor_ack(number);
                Ok(Sent::short(octets))
            }
            _ => Sent::other(alloc, message),
        }
    }

    /// A message other than data, in one TSDU. A brief one is written directly, and needs no memory.
    fn other(alloc: Global, message: &Message) -> Result<Sent, AllocError>
        requires { length (user_data_of (meant_by message.now)) < 65000 }
        ensures written { IfOk result (λ s. s ≡ in_one (meant_by message.now)) }
        ensures memory { is_brief (meant_by message.now) ≡ true → IsOk result }
    {
        match brief_octets(message) {
            Some(octets) => Ok(Sent::short(octets)),
            None => by_units(alloc, message),
        }
    }

    /// Whether data is sent in one TSDU, if a TSDU may have at most `limit` octets, 0 for no limit.
    pub fn is_whole(limit: u16, user_data: &[u8]) -> bool
        ensures { result ≡ is_whole limit user_data.now }
    {
        limit == 0 || 4 + user_data.len() <= limit as usize
    }

    /// Data in one TSDU: written directly into a buffer of the right length, after a GT that names no token.
    #[inline(always)]
    #[tactic(auto, using(crate::proofs::units_of_the_fast_path::data_written))]
    pub fn whole(alloc: Global, user_data: &[u8]) -> Result<Sent, AllocError>
        ensures { IfOk result (λ s. s ≡ in_one (DT user_data.now)) }
    {
        let mut octets = Vec::with_capacity(alloc, 4 + user_data.len())?;
        octets.push_reserved(0x01);
        octets.push_reserved(0x00);
        octets.push_reserved(0x01);
        octets.push_reserved(0x00);
        octets.extend_from_slice(user_data)?;
        Ok(Sent {
            tsdus: Tsdus::One(octets),
        })
    }

    /// Data (X.225 section 6.3.5, segmenting), if a TSDU may have at most this size: as a whole if its TSDU fits,
    /// otherwise in parts, all but the last of which have the full size. Either all of them are written, or none.
    #[tactic(auto, using(crate::proofs::the_tsdus_of_a_message::sent_whole))]
    pub fn data(alloc: Global, limit: TsduSize, user_data: &[u8]) -> Result<Sent, AllocError>
        ensures { IfOk result (λ s. s ≡ tsdus_of (size_of limit) (DT user_data.now)) }
    {
        let octets = limit.octets();
        if !Sent::is_whole(octets, user_data) {
            return Sent::in_parts(alloc, octets, user_data);
        }
        let sent = Sent::whole(alloc, user_data)?;
        Ok(sent)
    }

    /// Data that is longer than the limit, in parts. It is kept out of line: otherwise whole data would pay for the
    /// room of the parts.
    #[inline(never)]
    #[tactic(auto, using(crate::proofs::the_tsdus_of_a_message::sent_parted, crate::proofs::the_tsdus_of_a_message::some_octets, crate::proofs::the_tsdus_of_a_message::more_octets))]
    fn in_parts(alloc: Global, limit: u16, user_data: &[u8]) -> Result<Sent, AllocError>
        requires sized { is_size limit ≡ true }
        requires long { is_whole limit user_data.now ≡ false }
        ensures { IfOk result (λ s. s ≡ tsdus_of limit (DT user_data.now)) }
    {
        let tsdus = parts(alloc, limit as usize - 7, user_data)?;
        Ok(Sent {
            tsdus: Tsdus::Parts(tsdus),
        })
    }

    /// A minor point (MIP), in one TSDU. If it asks for its confirmation and has no user data, it is written directly, and
    /// needs no memory.
    #[inline]
    pub fn minor_point(
        alloc: Global,
        confirm: bool,
        number: Serial,
        user_data: &[u8],
    ) -> Result<Sent, AllocError>
        requires { length user_data.now < 65000 }
        ensures written { IfOk result (λ s. s ≡ in_one (MIP confirm number.number user_data.now)) }
        ensures memory { confirm ≡ true → user_data.now ≡ [] → IsOk result }
    {
        if confirm && user_data.is_empty() {
            let octets = plain::minor_point(number);
            return Ok(Sent::short(octets));
        }
        point_by_units(alloc, confirm, number, user_data)
    }

    /// The confirmation of a minor point (MIA), in one TSDU. If it has no user data, it is written directly, and needs no
    /// memory.
    #[inline]
    pub fn minor_ack(alloc: Global, number: Serial, user_data: &[u8]) -> Result<Sent, AllocError>
        requires { length user_data.now < 65000 }
        ensures written { IfOk result (λ s. s ≡ in_one (MIA number.number user_data.now)) }
        ensures memory { user_data.now ≡ [] → IsOk result }
    {
        if user_data.is_empty() {
            let octets = plain::minor_ack(number);
            return Ok(Sent::short(octets));
        }
        ack_by_units(alloc, number, user_data)
    }

    /// A message, if a TSDU may have at most this size: data as [`Sent::data`] writes it, any other message in one
    /// TSDU, as [`Sent::of`] writes it, so that the same messages need no memory.
    pub fn within(alloc: Global, limit: TsduSize, message: &Message) -> Result<Sent, AllocError>
        requires { length (user_data_of (meant_by message.now)) < 65000 }
        ensures written { IfOk result (λ s. s ≡ tsdus_of (size_of limit) (meant_by message.now)) }
        ensures memory { is_inline (meant_by message.now) ≡ true → IsOk result }
    {
        match *message {
            Message::Data { user_data } => Sent::data(alloc, limit, user_data),
            _ => Sent::of(alloc, message),
        }
    }

    /// The TSDUs, with the buffers that their octets are in.
    #[inline(always)]
    pub fn into_tsdus(self) -> Tsdus
        ensures octets { octets_in result ≡ self }
        ensures several { AreSeveral result }
    {
        self.tsdus
    }

    /// The octets of the TSDUs, in their order.
    pub fn tsdus(&self) -> LentTsdus<'_>
        ensures { octets_lent result ≡ self.now }
    {
        match &self.tsdus {
            Tsdus::Short(octets) => LentTsdus::One(octets.as_slice()),
            Tsdus::One(octets) => LentTsdus::One(octets.as_slice()),
            Tsdus::Parts(tsdus) => LentTsdus::Parts(tsdus.as_slice()),
        }
    }
}
