//! Joining data units into TSDUs, stream by stream.

ghost use Rattle.std.specs.Prelude.{◌≡◌, ◌==◌, ℕ, List, [], if◌then◌else◌, IfOk, IfSome, OnOk, IsTrue};
ghost use Rattle.osi_listing.specs.Streams.{joined, brought};
ghost use Rattle.osi_listing.specs.Streams.Join.{Begun};
ghost use Rattle.osi_listing.specs.Streams.Outcome.{Whole};
ghost use Rattle.osi_listing.specs.Joins.{join_value, outcome_value, join_at};

use osi_class::LONGEST_TSDU;
use osi_tpdu::Tpdu;
use std::alloc::{AllocError, Global};
use std::collections::BTreeMap;
use std::mem;

/// The joined octets of the unfinished TSDU of one stream.
#[derive(Drop)]
pub(crate) struct Join {
    /// The octets; none while parts are dropped.
    octets: Vec<u8>,
    /// Whether parts are dropped up to the next EOT, because the TSDU is too long.
    is_dropped: bool,
}

/// The outcome of taking a part.
#[derive(Drop)]
pub(crate) enum Outcome {
    /// The TSDU is not complete yet.
    Nothing,
    /// A complete TSDU.
    Whole(Vec<u8>),
    /// The TSDU became too long with this part.
    TooLong,
}

impl Join {
    /// A stream at the start of a TSDU.
    pub(crate) fn new(alloc: Global) -> Self
        ensures { join_value result ≡ Begun [] }
    {
        Join {
            octets: Vec::new(alloc),
            is_dropped: false,
        }
    }

    /// Whether nothing has to be kept of the stream, because it is between two TSDUs.
    fn is_between(&self) -> bool
        ensures { IsTrue result → join_value self.now ≡ Begun [] }
    {
        if self.is_dropped {
            return false;
        }
        self.octets.is_empty()
    }

    /// The octets of a part that is a TSDU by itself, if the stream is between two TSDUs.
    fn lone_tsdu<'a>(&self, end: bool, part: &'a [u8]) -> Option<&'a [u8]>
        ensures joined { IfSome result (λ tsdu. join_value self.now ≡ joined (join_value self.now) end part.now) }
        ensures brought { IfSome result (λ tsdu. Whole tsdu.now ≡ brought (join_value self.now) end part.now) }
    {
        if !self.is_between() {
            return None;
        }
        lone_part(end, part)
    }

    /// Takes the next part of the stream; EOT marks the last part of a TSDU.
    pub(crate) fn take(
        &mut self,
        alloc: Global,
        end: bool,
        part: &[u8],
    ) -> Result<Outcome, AllocError>
        ensures joined { IfOk result (λ o. join_value self.new ≡ joined (join_value self.old) end part.now) }
        ensures brought { IfOk result (λ o. outcome_value o ≡ brought (join_value self.old) end part.now) }
    {
        if self.is_dropped {
            self.octets.clear();
            self.is_dropped = !end;
            return Ok(Outcome::Nothing);
        }
        if self.octets.len().saturating_add(part.len()) > LONGEST_TSDU {
            self.octets.clear();
            self.is_dropped = !end;
            return Ok(Outcome::TooLong);
        }
        self.octets.extend_from_slice(part)?;
        if !end {
            return Ok(Outcome::Nothing);
        }
        Ok(Outcome::Whole(mem::replace(&mut self.octets, Vec::new(alloc))))
    }
}

/// The octets of a part that is a TSDU by itself, in a stream that is between two TSDUs.
fn lone_part(end: bool, part: &[u8]) -> Option<&[u8]>
    ensures joined { IfSome result (λ tsdu. joined (Begun []) end part.now ≡ Begun []) }
    ensures brought { IfSome result (λ tsdu. brought (Begun []) end part.now ≡ Whole tsdu.now) }
{
    if end && part.len() <= LONGEST_TSDU {
        Some(part)
    } else {
        None
    }
}

/// The streams of class 2 that are within a TSDU, each under its DST-REF.
type References = BTreeMap<u16, Join>;

/// The octets of a part that is a TSDU by itself, if the stream with this DST-REF is between two TSDUs.
fn lone_tsdu_for<'a>(
    references: &References,
    destination: u16,
    end: bool,
    part: &'a [u8],
) -> Option<&'a [u8]>
    ensures joined { IfSome result (λ tsdu. join_at references.now destination
        ≡ joined (join_at references.now destination) end part.now) }
    ensures brought { IfSome result (λ tsdu. Whole tsdu.now
        ≡ brought (join_at references.now destination) end part.now) }
{
    if references.contains_key(&destination) {
        return None;
    }
    lone_part(end, part)
}

/// Takes the next part of the stream with this DST-REF, and leaves the others as they were.
fn take_for(
    references: &mut References,
    alloc: Global,
    destination: u16,
    end: bool,
    part: &[u8],
) -> Result<Outcome, AllocError>
    ensures joined { IfOk result (λ o. (d : ℕ) → join_at references.new d
        ≡ (if d == destination then joined (join_at references.old destination) end part.now
        else join_at references.old d)) }
    ensures brought { IfOk result (λ o. outcome_value o
        ≡ brought (join_at references.old destination) end part.now) }
{
    let mut join = match references.remove(&destination) {
        Some(join) => join,
        None => Join::new(alloc),
    };
    let outcome = join.take(alloc, end, part)?;
    if join.is_between() {
        return Ok(outcome);
    }
    references.insert(destination, join)?;
    Ok(outcome)
}

/// All streams of a capture: one of class 0, and one of class 2 for each DST-REF.
#[derive(Drop)]
pub(crate) struct Streams {
    class_0: Join,
    class_2: References,
}

impl Streams {
    ghost use Rattle.std.specs.Prelude.{◌++◌, None, Some, option_to_list};
    ghost use Rattle.std.specs.BTreeMap.{btree_map_len};
    ghost use Rattle.osi_tpdu.specs.View.{value};
    ghost use Rattle.osi_listing.specs.Streams.{Part, part_of};
    ghost use Rattle.osi_listing.specs.Says.{Holds};
    ghost use Rattle.osi_listing.specs.Listing.{outcome_entries, part_entries};

    /// No stream has begun.
    pub(crate) fn new(alloc: Global) -> Self
        ensures holds { Holds result [] }
        ensures none { btree_map_len result.class_2 ≡ 0 }
    {
        Streams {
            class_0: Join::new(alloc),
            class_2: BTreeMap::new(alloc),
        }
    }

    /// How many streams of class 2 are within a TSDU.
    pub(crate) fn unfinished(&self) -> usize
        ensures { result ≡ btree_map_len self.now.class_2 }
    {
        self.class_2.len()
    }

    /// The octets of a data unit that is a TSDU by itself: its only part, in a stream that is between two TSDUs. It
    /// changes no stream, so it need not be taken.
    pub(crate) fn lone_tsdu<'a>(&self, unit: &Tpdu<'a>) -> Option<&'a [u8]>
        ensures entries { IfSome result (λ tsdu. (earlier : List Part) → Holds self.now earlier →
            outcome_entries (Whole tsdu.now) ≡ part_entries earlier (part_of (value unit.now))) }
        ensures holds { IfSome result (λ tsdu. (earlier : List Part) → Holds self.now earlier →
            Holds self.now (earlier ++ option_to_list (part_of (value unit.now)))) }
    {
        match unit {
            Tpdu::Dt0(data) => self.class_0.lone_tsdu(data.end, data.user),
            Tpdu::Dt2(data) => {
                let to = data.destination;
                lone_tsdu_for(&self.class_2, to, data.end, data.user)
            }
            _ => None,
        }
    }

    /// Takes a unit; a data unit adds to its stream.
    pub(crate) fn take(&mut self, alloc: Global, unit: &Tpdu) -> Result<Outcome, AllocError>
        ensures entries { IfOk result (λ o. (earlier : List Part) → Holds self.old earlier →
            outcome_entries (outcome_value o) ≡ part_entries earlier (part_of (value unit.now))) }
        ensures holds { OnOk result ((earlier : List Part) → Holds self.old earlier →
            Holds self.new (earlier ++ option_to_list (part_of (value unit.now)))) }
    {
        match unit {
            Tpdu::Dt0(data) => self.class_0.take(alloc, data.end, data.user),
            Tpdu::Dt2(data) => {
                take_for(
                    &mut self.class_2,
                    alloc,
                    data.destination,
                    data.end,
                    data.user,
                )
            }
            _ => Ok(Outcome::Nothing),
        }
    }
}
