//! Octets that are sent as TSDUs together, each piece of them after a head.

ghost use Rattle.std.specs.Prelude.{ℕ, List, ◌≡◌, false, true, ◌+◌, ◌^◌, ◌<◌, ◌≤◌, ◌++◌, ◌∷◌, [], length, map, IfOk, IfSome, IsSome, OnOk};
ghost use Rattle.osi_class.specs.Giving.{parts_needed, units_needed};
ghost use Rattle.osi_class.specs.Tsdus.{octets_of_tsdus};
ghost use Rattle.osi_carrier.specs.Pieces.{tsdus_in, left_after, FitsTsdu, FitTsdus};

use crate::links::joined;
use osi_class::{LONGEST_TSDU, Room};
use std::alloc::{AllocError, Global};

/// Octets that are sent as TSDUs together. They are cut into pieces of one size, and each TSDU has the octets of its
/// head, at most 123, and then its piece.
#[derive(Clone, Copy)]
pub struct Pieces<'a> {
    /// How many of the octets each TSDU but the last has, which has the rest. At least one; with a head at most
    /// 1,048,576.
    pub size: usize,
    /// The head of the first TSDU, if others follow it.
    pub first: &'a [u8],
    /// The head of each TSDU between the first and the last.
    pub middle: &'a [u8],
    /// The head of the last TSDU, or of the only one.
    pub last: &'a [u8],
    /// The octets that are cut.
    pub octets: &'a [u8],
}

/// The most octets of a head: those of a TSDU that each unit has room for.
const LONGEST_HEAD: usize = 123;

/// Whether a head is not too long, and its TSDU has room for so many octets.
fn has_room(head: &[u8], size: usize) -> bool
    ensures fits { result ≡ true → FitsTsdu size head.now }
    ensures unfit { result ≡ false → FitsTsdu size head.now → ⊥ }
{
    if head.len() > LONGEST_HEAD {
        return false;
    }
    size <= LONGEST_TSDU - head.len()
}

/// The number of units in which a TSDU of this many octets goes, each with at most `limit` of them.
fn count_units(limit: usize, octets: usize) -> usize
    requires { 123 ≤ limit }
    ensures { result ≡ parts_needed limit octets }
{
    octets.saturating_sub(1) / limit + 1
}

/// The units and octets of one TSDU more. `None` only if they don't fit a `usize`.
fn with_one(room: Room, limit: usize, octets: usize) -> Option<Room>
    requires { 123 ≤ limit }
    ensures units { IfSome result (λ r. r.units ≡ room.units + parts_needed limit octets) }
    ensures octets { IfSome result (λ r. r.octets ≡ room.octets + octets) }
    ensures fits { room.units + parts_needed limit octets < 2 ^ 64 → room.octets + octets < 2 ^ 64 → IsSome result }
{
    let units = room.units.checked_add(count_units(limit, octets))?;
    let octets = room.octets.checked_add(octets)?;
    Some(Room { units, octets })
}

/// Adds a copy of a head and its piece after the others.
fn put_copy(
    alloc: Global,
    head: &[u8],
    piece: &[u8],
    tsdus: &mut Vec<Vec<u8>>,
) -> Result<(), AllocError>
    requires { length head.now + length piece.now ≤ 1048576 }
    ensures { OnOk result (map (λ v. v.items) tsdus.new.items ≡ map (λ v. v.items) tsdus.old.items ++ (head.now ++ piece.now) ∷ []) }
{
    let tsdu = joined(alloc, head, piece)?;
    tsdus.push(tsdu)?;
    Ok(())
}

/// Adds a copy of what is left of a TSDU, if this many units of it and of those after it are sent. Returns how many of
/// the units are those of others.
fn put_rest(
    alloc: Global,
    limit: usize,
    units: usize,
    head: &[u8],
    piece: &[u8],
    tsdus: &mut Vec<Vec<u8>>,
) -> Result<usize, AllocError>
    requires limit { 123 ≤ limit }
    requires short { length head.now ≤ 123 }
    requires long { length head.now + length piece.now ≤ 1048576 }
    ensures { IfOk result (λ left. (others : List (List ℕ)) →
        map (λ v. v.items) tsdus.new.items ++ left_after left limit others ≡ map (λ v. v.items) tsdus.old.items
        ++ left_after units limit ((head.now ++ piece.now) ∷ others)) }
{
    if units == 0 {
        put_copy(alloc, head, piece, tsdus)?;
        return Ok(0);
    }
    let parts = count_units(limit, head.len() + piece.len());
    if parts <= units {
        return Ok(units - parts);
    }
    let (_, rest) = piece.split_at(units * limit - head.len());
    put_copy(alloc, &[], rest, tsdus)?;
    Ok(0)
}

impl Pieces<'_> {
    /// Whether each piece has an octet, and fits a TSDU with its head of at most 123 octets.
    pub(crate) fn fit(&self) -> bool
        ensures fit { result ≡ true → FitTsdus self.now }
        ensures unfit { result ≡ false → FitTsdus self.now → ⊥ }
    {
        if self.size == 0 {
            return false;
        }
        if !has_room(self.first, self.size) {
            return false;
        }
        if !has_room(self.middle, self.size) {
            return false;
        }
        has_room(self.last, self.size)
    }

    /// In how many units all the TSDUs go, each with at most `limit` octets of a TSDU, and how many octets the TSDUs
    /// have. `None` only if they don't fit a `usize`.
    pub(crate) fn room(&self, limit: usize) -> Option<Room>
        requires limit { 123 ≤ limit }
        requires fit { FitTsdus self.now }
        ensures units { IfSome result (λ r. r.units ≡ units_needed limit (tsdus_in self.now)) }
        ensures octets { IfSome result (λ r. r.octets ≡ octets_of_tsdus (tsdus_in self.now)) }
        ensures some { IfSome result (λ r. 0 < r.units) }
        ensures fits { units_needed limit (tsdus_in self.now) < 2 ^ 64 → octets_of_tsdus (tsdus_in self.now) < 2 ^ 64 → IsSome result }
    {
        let mut room = Room {
            units: 0,
            octets: 0,
        };
        let mut head = self.first;
        let mut rest = self.octets;
        'pieces: while rest.len() > self.size {
            room = with_one(room, limit, head.len() + self.size)?;
            let (_, behind) = rest.split_at(self.size);
            head = self.middle;
            rest = behind;
        }
        with_one(room, limit, self.last.len() + rest.len())
    }

    /// Copies of what is left of the TSDUs after so many of their units, each with at most `limit` octets of a TSDU.
    pub(crate) fn copies(
        &self,
        alloc: Global,
        limit: usize,
        units: usize,
    ) -> Result<Vec<Vec<u8>>, AllocError>
        requires limit { 123 ≤ limit }
        requires fit { FitTsdus self.now }
        ensures { IfOk result (λ tsdus. map (λ v. v.items) tsdus.items ≡ left_after units limit (tsdus_in self.now)) }
    {
        let mut tsdus = Vec::new(alloc);
        let mut left = units;
        let mut head = self.first;
        let mut rest = self.octets;
        'pieces: while rest.len() > self.size {
            let (piece, behind) = rest.split_at(self.size);
            left = put_rest(alloc, limit, left, head, piece, &mut tsdus)?;
            head = self.middle;
            rest = behind;
        }
        put_rest(alloc, limit, left, self.last, rest, &mut tsdus)?;
        Ok(tsdus)
    }
}
