//! The links of open connections: units that are received for them, and units that they give.

ghost use Rattle.std.specs.Prelude.{ℕ, List, ◌≡◌, ◌<◌, ◌≤◌, ◌+◌, ◌*◌, ◌^◌, ◌++◌, [], None, true, false, nat_lt, length, drop, map, IfOk};
ghost use Rattle.std.specs.Prelude.{IfSome, IsOk, IsSome, OnOk, OnErr};
ghost use Rattle.std.specs.Cow.{cow_slice_items, IsOwnedSlice};
ghost use Rattle.osi_class.specs.AnyLink.{any_standing};
ghost use Rattle.osi_class.specs.Giving.{most_given, octets_in_parts, one_by_one, units_needed, AllGoAtOnce};
ghost use Rattle.osi_class.specs.Link.{next, with_tsdu, with_tsdus};
ghost use Rattle.osi_class.specs.Tsdus.{octets_of_tsdus};
ghost use Rattle.osi_carrier.specs.Calls.{WaitsAlone, WaitTogether};
ghost use Rattle.osi_carrier.specs.Pieces.{tsdus_in, FitTsdus, SomeGo};
ghost use Rattle.osi_carrier.specs.Pump.{left_of, pumped, written_by, written_for, LeavesRest};
ghost use Rattle.osi_carrier.specs.State.{packets};

use crate::pieces::Pieces;
use crate::writing::{put_given, put_part};
use bytes::BytesMut;
use osi_class::laws::{
    all_go_at_once, all_is_given, giving_ends, many_go_as_one_by_one, what_units_take,
};
use osi_class::{AnyLink, Handed, Link, LinkFault, Room};
use std::alloc::{AllocError, Global};
use std::borrow::CowSlice;

/// The most octets of a packet's header and the header of a DT or AK in it: 4 and 5.
const MOST_HEADERS: usize = 9;

/// The most octets of a TSDU in one unit.
const MOST_OCTETS: usize = 8189;

/// The octets of a TSDU that each unit has room for.
const LEAST_LIMIT: usize = 123;

/// The result of handing a unit to the link of the connection with a reference.
#[derive(Drop)]
pub enum Step {
    /// No connection with this reference is open.
    NotOpen,
    /// The link took it, and perhaps a TSDU became complete.
    Took(Handed),
    /// The link of the connection at this place, open with this reference of the peer, refused it.
    Broke(usize, u16, LinkFault),
}

/// Writes all units that a link gives now, to this reference of the peer. An allocation failure leaves the octets of
/// `out` as they were; it is possible only if the link gives a unit, and not if there is room for all of them.
#[inline(always)]
pub fn pump(link: &mut AnyLink, peer: u16, out: &mut BytesMut) -> Result<(), AllocError>
    ensures link { OnOk result (any_standing link.new ≡ pumped (any_standing link.old)) }
    ensures ok { OnOk result (out.new.items ≡ out.old.items ++ packets (written_by peer (any_standing link.old))) }
    ensures pumped { OnOk result (next (any_standing link.new) ≡ None) }
    ensures err { OnErr result (out.new.items ≡ out.old.items) }
    ensures needs { OnErr result (nat_lt 0 (length (written_by peer (any_standing link.old))) ≡ true) }
    ensures enough { length (packets (written_by peer (any_standing link.old))) ≤ out.old.spare → IsOk result }
{
    giving_ends();
    all_is_given();
    let before = out.len();
    'units: while let Some(unit) = link.next_out() {
        let Ok(()) = put_given(out, peer, &unit) else {
            out.truncate(before);
            return Err(AllocError);
        };
    }
    Ok(())
}

/// Writes units as [`pump`] does, after the link took a unit and handed this out. Each case has code of its own: so what was
/// handed out is known where it is needed next, and is not kept while units are written.
#[inline(always)]
pub fn pump_after(
    handed: &Handed,
    link: &mut AnyLink,
    peer: u16,
    out: &mut BytesMut,
) -> Result<(), AllocError>
    ensures link { OnOk result (any_standing link.new ≡ pumped (any_standing link.old)) }
    ensures ok { OnOk result (out.new.items ≡ out.old.items ++ packets (written_by peer (any_standing link.old))) }
    ensures pumped { OnOk result (next (any_standing link.new) ≡ None) }
    ensures err { OnErr result (out.new.items ≡ out.old.items) }
    ensures needs { OnErr result (nat_lt 0 (length (written_by peer (any_standing link.old))) ≡ true) }
{
    match handed {
        Handed::Nothing => pump(link, peer, out),
        Handed::Whole => pump(link, peer, out),
        Handed::Joined(_) => pump(link, peer, out),
    }
}

/// Writes a TSDU, given as its first octets and the others, as one unit straight from these octets, if it fits one,
/// the link gives it now and there is memory. In all other cases `false`, and then nothing has changed.
#[inline(always)]
pub fn send_whole(
    link: &mut AnyLink,
    peer: u16,
    head: &[u8],
    body: &[u8],
    out: &mut BytesMut,
) -> bool
    ensures link { result ≡ true → any_standing link.new ≡ pumped (with_tsdu (any_standing link.old) (head.now ++ body.now)) }
    ensures written { result ≡ true →
        out.new.items ≡ out.old.items ++ packets (written_by peer (with_tsdu (any_standing link.old) (head.now ++ body.now))) }
    ensures pumped { result ≡ true → next (any_standing link.new) ≡ None }
    ensures none { result ≡ false → (any_standing link.new ≡ any_standing link.old) × (out.new.items ≡ out.old.items) }
{
    all_is_given();
    if head.len() > MOST_OCTETS {
        return false;
    }
    if body.len() > MOST_OCTETS - head.len() {
        return false;
    }
    let octets = head.len() + body.len();
    let Ok(()) = out.reserve(octets + MOST_HEADERS) else {
        return false;
    };
    if octets > link.limit() {
        return false;
    }
    let Some(slot) = link.give_slot() else {
        return false;
    };
    put_part(out, peer, slot, true, head, body);
    true
}

/// Hands in a TSDU that the link keeps: an owned one itself, and a copy of a borrowed one. An allocation failure
/// changes nothing.
fn keep(link: &mut AnyLink, tsdu: CowSlice<'_, u8, Global>) -> Result<(), AllocError>
    ensures ok { OnOk result (any_standing link.new ≡ with_tsdu (any_standing link.old) (cow_slice_items tsdu.entry)) }
    ensures err { OnErr result (link.new ≡ link.old) }
    ensures alone { IsOwnedSlice tsdu.entry → (any_standing link.old).ends.unsent ≡ [] → IsOk result }
{
    match tsdu {
        CowSlice::Borrowed(octets) => link.send_tsdu(octets),
        CowSlice::Owned(octets) => link.send_owned(octets),
    }
}

/// Hands in a TSDU at a link that gives nothing now, if it takes several units or not all of it may be sent now, and
/// writes all units that the link then gives. It is kept only if not all of it may be sent, and copied only if it was
/// borrowed. An allocation failure changes nothing: the room for the units is reserved first.
pub fn send_parts(
    link: &mut AnyLink,
    peer: u16,
    tsdu: CowSlice<'_, u8, Global>,
    out: &mut BytesMut,
) -> Result<(), AllocError>
    requires { next (any_standing link.old) ≡ None }
    ensures link { OnOk result (any_standing link.new ≡ pumped (with_tsdu (any_standing link.old) (cow_slice_items tsdu.entry))) }
    ensures ok { OnOk result (out.new.items ≡ out.old.items
        ++ packets (written_by peer (with_tsdu (any_standing link.old) (cow_slice_items tsdu.entry)))) }
    ensures pumped { OnOk result (next (any_standing link.new) ≡ None) }
    ensures err { OnErr result ((any_standing link.new ≡ any_standing link.old) × (out.new.items ≡ out.old.items)) }
    ensures kept { IsOwnedSlice tsdu.entry → WaitsAlone (any_standing link.old) (cow_slice_items tsdu.entry) → IsOk result }
{
    all_is_given();
    // Named for the proof: each unit has room for some octets.
    let _limit = link.limit();
    let octets = tsdu.as_slice();
    let room = link.room_for(octets.len());
    out.reserve(room.octets + MOST_HEADERS * room.units)?;
    if room.octets == octets.len() && room.units > 0 {
        write_parts(link, peer, octets, out);
        return Ok(());
    }
    keep(link, tsdu)?;
    let Ok(()) = pump(link, peer, out) else {
        unreachable!()
    };
    Ok(())
}

/// Hands in TSDUs together that the link keeps: owned ones themselves, and copies of borrowed ones. An allocation
/// failure changes nothing.
fn keep_all(link: &mut AnyLink, tsdus: CowSlice<'_, Vec<u8>, Global>) -> Result<(), AllocError>
    ensures ok { OnOk result (any_standing link.new
        ≡ with_tsdus (any_standing link.old) (map (λ v. v.items) (cow_slice_items tsdus.entry))) }
    ensures err { OnErr result (link.new ≡ link.old) }
    ensures alone { IsOwnedSlice tsdus.entry → (any_standing link.old).ends.unsent ≡ [] →
        octets_of_tsdus (map (λ v. v.items) (cow_slice_items tsdus.entry)) < 2 ^ 64 → IsOk result }
{
    match tsdus {
        CowSlice::Borrowed(tsdus) => link.send_tsdus(tsdus),
        CowSlice::Owned(tsdus) => link.send_owned_tsdus(tsdus),
    }
}

/// Writes all units of TSDUs straight from their octets, one TSDU after the other. They may all go now, and there is
/// room for them in `out`.
fn write_all(link: &mut AnyLink, peer: u16, tsdus: &[Vec<u8>], out: &mut BytesMut)
    requires go { AllGoAtOnce (any_standing link.old) (map (λ v. v.items) tsdus.now) }
    requires quiet { next (any_standing link.old) ≡ None }
    requires limit { 0 < (any_standing link.old).ends.limit }
    requires room { length (packets (written_for peer (any_standing link.old) (map (λ v. v.items) tsdus.now))) ≤ out.old.spare }
    ensures link { any_standing link.new ≡ one_by_one (any_standing link.old) (map (λ v. v.items) tsdus.now) }
    ensures written { out.new.items ≡ out.old.items ++ packets (written_for peer (any_standing link.old) (map (λ v. v.items) tsdus.now)) }
    ensures pumped { next (any_standing link.new) ≡ None }
{
    all_go_at_once();
    'tsdus: for tsdu in tsdus {
        write_parts(link, peer, tsdu, out);
    }
}

/// Hands in TSDUs together at a link that gives nothing now, and writes all units that it then gives. If all of them
/// may be sent now, they are written straight from the TSDUs, and no memory is needed but for their room. Otherwise the
/// link keeps the TSDUs. An allocation failure changes nothing: the room for the units is reserved first. Owned TSDUs
/// that only wait need no memory.
#[tactic(auto, using(crate::proofs::written::nothing_takes_no_room::nothing_takes_no_room))]
pub fn send_all_on(
    link: &mut AnyLink,
    peer: u16,
    tsdus: CowSlice<'_, Vec<u8>, Global>,
    out: &mut BytesMut,
) -> Result<(), AllocError>
    requires { next (any_standing link.old) ≡ None }
    ensures link { OnOk result (any_standing link.new
        ≡ one_by_one (any_standing link.old) (map (λ v. v.items) (cow_slice_items tsdus.entry))) }
    ensures ok { OnOk result (out.new.items ≡ out.old.items
        ++ packets (written_for peer (any_standing link.old) (map (λ v. v.items) (cow_slice_items tsdus.entry)))) }
    ensures pumped { OnOk result (next (any_standing link.new) ≡ None) }
    ensures err { OnErr result ((any_standing link.new ≡ any_standing link.old) × (out.new.items ≡ out.old.items)) }
    ensures kept { IsOwnedSlice tsdus.entry →
        WaitTogether (any_standing link.old) (map (λ v. v.items) (cow_slice_items tsdus.entry)) → IsOk result }
    ensures straight { AllGoAtOnce (any_standing link.old) (map (λ v. v.items) (cow_slice_items tsdus.entry)) →
        most_given 9 (with_tsdus (any_standing link.old) (map (λ v. v.items) (cow_slice_items tsdus.entry))) ≤ out.old.spare → IsOk result }
{
    many_go_as_one_by_one();
    what_units_take();
    let lent = tsdus.as_slice();
    let Some(room) = link.room_for_all(lent, MOST_HEADERS as u8) else {
        // Named for the proof: it fits a `usize`.
        let _capacity = out.capacity();
        return Err(AllocError);
    };
    out.reserve(room)?;
    if link.gives_all(lent) {
        write_all(link, peer, lent, out);
        return Ok(());
    }
    keep_all(link, tsdus)?;
    let Ok(()) = pump(link, peer, out) else {
        unreachable!()
    };
    Ok(())
}

/// Writes the units of a TSDU that may be sent now, part after part, straight from its octets. Whether these are all: if
/// not, what is left of it is still to be handed in. There is room for the units in `out`.
fn write_parts(link: &mut AnyLink, peer: u16, tsdu: &[u8], out: &mut BytesMut) -> bool
    requires quiet { next (any_standing link.old) ≡ None }
    requires alone { (any_standing link.old).ends.unsent ≡ [] }
    requires room { length (packets (written_by peer (with_tsdu (any_standing link.old) tsdu.now))) ≤ out.old.spare }
    ensures link { LeavesRest result (any_standing link.old) tsdu.now (any_standing link.new) }
    ensures written { out.new.items ≡ out.old.items ++ packets (written_by peer (with_tsdu (any_standing link.old) tsdu.now)) }
    ensures pumped { next (any_standing link.new) ≡ None }
    ensures alone { (any_standing link.new).ends.unsent ≡ [] }
    ensures spare { length out.old.items + out.old.spare ≤ length out.new.items + out.new.spare }
{
    let mut rest = tsdu;
    'parts: loop {
        let carried = link.limit().min(rest.len());
        let Some(slot) = link.give_slot() else {
            return false;
        };
        let (part, behind) = rest.split_at(carried);
        let end = behind.is_empty();
        put_part(out, peer, slot, end, &[], part);
        if end {
            return true;
        }
        rest = behind;
    }
}

/// The same for a TSDU whose first octets are given apart.
fn write_headed(link: &mut AnyLink, peer: u16, head: &[u8], body: &[u8], out: &mut BytesMut) -> bool
    requires short { length head.now ≤ 123 }
    requires quiet { next (any_standing link.old) ≡ None }
    requires alone { (any_standing link.old).ends.unsent ≡ [] }
    requires room { length (packets (written_by peer (with_tsdu (any_standing link.old) (head.now ++ body.now)))) ≤ out.old.spare }
    ensures link { LeavesRest result (any_standing link.old) (head.now ++ body.now) (any_standing link.new) }
    ensures written { out.new.items ≡ out.old.items
        ++ packets (written_by peer (with_tsdu (any_standing link.old) (head.now ++ body.now))) }
    ensures pumped { next (any_standing link.new) ≡ None }
    ensures alone { (any_standing link.new).ends.unsent ≡ [] }
    ensures spare { length out.old.items + out.old.spare ≤ length out.new.items + out.new.spare }
{
    let carried = (link.limit() - head.len()).min(body.len());
    let Some(slot) = link.give_slot() else {
        return false;
    };
    let (part, rest) = body.split_at(carried);
    let end = rest.is_empty();
    put_part(out, peer, slot, end, head, part);
    if end {
        return true;
    }
    write_parts(link, peer, rest, out)
}

/// The same, and lets the link keep `kept`: the octets that may not be sent yet.
fn write_keeping(
    link: &mut AnyLink,
    peer: u16,
    head: &[u8],
    body: &[u8],
    kept: Vec<u8>,
    out: &mut BytesMut,
)
    requires short { length head.now ≤ 123 }
    requires quiet { next (any_standing link.old) ≡ None }
    requires alone { (any_standing link.old).ends.unsent ≡ [] }
    requires kept { kept.items ≡ left_of (any_standing link.old) (head.now ++ body.now) }
    requires room { length (packets (written_by peer (with_tsdu (any_standing link.old) (head.now ++ body.now)))) ≤ out.old.spare }
    ensures link { any_standing link.new ≡ pumped (with_tsdu (any_standing link.old) (head.now ++ body.now)) }
    ensures written { out.new.items ≡ out.old.items
        ++ packets (written_by peer (with_tsdu (any_standing link.old) (head.now ++ body.now))) }
    ensures pumped { next (any_standing link.new) ≡ None }
{
    // Named for the proof: each unit has room for some octets.
    let _limit = link.limit();
    if write_headed(link, peer, head, body, out) {
        return;
    }
    let Ok(()) = link.send_owned(kept) else {
        unreachable!()
    };
}

/// A copy of what is left of a TSDU, given as its first octets and the others, after this many octets. No memory is
/// needed if nothing is left.
fn rest_behind(
    alloc: Global,
    head: &[u8],
    body: &[u8],
    octets: usize,
) -> Result<Vec<u8>, AllocError>
    requires headed { length head.now ≤ octets }
    requires within { octets ≤ length head.now + length body.now }
    ensures ok { IfOk result (λ v. v.items ≡ drop octets (head.now ++ body.now)) }
    ensures nothing { octets ≡ length head.now + length body.now → IsOk result }
{
    let (_, rest) = body.split_at(octets - head.len());
    if rest.is_empty() {
        return Ok(Vec::new(alloc));
    }
    Vec::from_slice(alloc, rest)
}

/// Both pieces in one buffer.
pub fn joined(alloc: Global, head: &[u8], body: &[u8]) -> Result<Vec<u8>, AllocError>
    requires { length head.now + length body.now ≤ 1048576 }
    ensures { IfOk result (λ v. v.items ≡ head.now ++ body.now) }
{
    let mut octets = Vec::with_capacity(alloc, head.len() + body.len())?;
    octets.extend_from_slice(head)?;
    octets.extend_from_slice(body)?;
    Ok(octets)
}

/// Hands in a TSDU, given as its first octets and the others, at a link that gives nothing now, if it takes several
/// units or not all of it may be sent now, and writes all units that the link then gives. They are written straight
/// from these octets. Only what may not be sent yet is kept, as a copy. An allocation failure changes nothing: the
/// room for the units and for what is kept is reserved first.
#[inline(never)]
pub fn send_headed_parts(
    alloc: Global,
    link: &mut AnyLink,
    peer: u16,
    head: &[u8],
    body: &[u8],
    out: &mut BytesMut,
) -> Result<(), AllocError>
    requires long { length head.now + length body.now ≤ 1048576 }
    requires quiet { next (any_standing link.old) ≡ None }
    ensures link { OnOk result (any_standing link.new ≡ pumped (with_tsdu (any_standing link.old) (head.now ++ body.now))) }
    ensures ok { OnOk result (out.new.items ≡ out.old.items
        ++ packets (written_by peer (with_tsdu (any_standing link.old) (head.now ++ body.now)))) }
    ensures pumped { OnOk result (next (any_standing link.new) ≡ None) }
    ensures err { OnErr result ((any_standing link.new ≡ any_standing link.old) × (out.new.items ≡ out.old.items)) }
{
    let octets = head.len() + body.len();
    let room = link.room_for(octets);
    out.reserve(room.octets + MOST_HEADERS * room.units)?;
    if room.units > 0 && head.len() <= LEAST_LIMIT {
        let kept = rest_behind(alloc, head, body, room.octets)?;
        write_keeping(link, peer, head, body, kept, out);
        return Ok(());
    }
    if head.is_empty() {
        return send_parts(link, peer, CowSlice::Borrowed(body), out);
    }
    let tsdu = joined(alloc, head, body)?;
    send_parts(link, peer, CowSlice::Owned(tsdu), out)
}

/// Whether so many units of data may be sent now: as many octets as they carry at most would go at once. `false` also if
/// those octets don't fit a `usize`.
fn may_send(link: &AnyLink, units: usize) -> bool
    requires quiet { next (any_standing link.now) ≡ None }
    requires some { 0 < units }
    ensures go { result ≡ true → (tsdus : List (List ℕ)) → units ≡ units_needed (any_standing link.now).ends.limit tsdus →
        AllGoAtOnce (any_standing link.now) tsdus }
    ensures all { (tsdus : List (List ℕ)) → units ≡ units_needed (any_standing link.now).ends.limit tsdus →
        AllGoAtOnce (any_standing link.now) tsdus →
        units * (any_standing link.now).ends.limit < 2 ^ 64 → result ≡ true }
{
    let Some(octets) = units.checked_mul(link.limit()) else {
        return false;
    };
    let room = link.room_for(octets);
    room.octets == octets
}

/// The room for all units of the TSDUs that are cut, if all of them may be sent now. `None` in all other cases, and if so
/// much room, or the octets of so many full units, don't fit a `usize`.
fn room_at_once(link: &AnyLink, pieces: &Pieces<'_>) -> Option<usize>
    requires quiet { next (any_standing link.now) ≡ None }
    requires fit { FitTsdus pieces.now }
    ensures go { IfSome result (λ _. AllGoAtOnce (any_standing link.now) (tsdus_in pieces.now)) }
    ensures enough { IfSome result (λ room. (peer : ℕ) →
        length (packets (written_for peer (any_standing link.now) (tsdus_in pieces.now))) ≤ room) }
    ensures exact { IfSome result (λ room. room ≡ octets_in_parts 9 (any_standing link.now).ends.limit (tsdus_in pieces.now)) }
    ensures some { AllGoAtOnce (any_standing link.now) (tsdus_in pieces.now) →
        units_needed (any_standing link.now).ends.limit (tsdus_in pieces.now) * (any_standing link.now).ends.limit < 2 ^ 64 →
        octets_in_parts 9 (any_standing link.now).ends.limit (tsdus_in pieces.now) < 2 ^ 64 → IsSome result }
{
    let room = pieces.room(link.limit())?;
    if !may_send(link, room.units) {
        return None;
    }
    let headers = room.units.checked_mul(MOST_HEADERS)?;
    room.octets.checked_add(headers)
}

/// How many units of the TSDUs that are cut may be sent now, and the room for them, if these are some and not all. `None`
/// in all other cases, and if so much room, or the octets of so many full units, don't fit a `usize`.
fn some_at_once(link: &AnyLink, pieces: &Pieces<'_>) -> Option<Room>
    requires quiet { next (any_standing link.now) ≡ None }
    requires fit { FitTsdus pieces.now }
    ensures go { IfSome result (λ some. SomeGo (any_standing link.now) some.units (tsdus_in pieces.now)) }
    ensures enough { IfSome result (λ some. (peer : ℕ) → length (packets (written_for peer (any_standing link.now) (tsdus_in pieces.now)))
        ≤ some.octets) }
{
    let limit = link.limit();
    let all = pieces.room(limit)?;
    let full = all.units.checked_mul(limit)?;
    let units = link.room_for(full).units;
    if units == 0 {
        return None;
    }
    if units == all.units {
        return None;
    }
    let headers = all.units.checked_mul(MOST_HEADERS)?;
    let octets = all.octets.checked_add(headers)?;
    let most = units.checked_mul(limit + MOST_HEADERS)?;
    Some(Room {
        units,
        octets: octets.min(most),
    })
}

/// Writes the units of the TSDUs that are cut that may be sent now, straight from their heads and pieces, one TSDU after
/// the other. What is left of them is still to be handed in. There is room for the units in `out`.
fn write_some(link: &mut AnyLink, peer: u16, pieces: &Pieces<'_>, out: &mut BytesMut)
    requires quiet { next (any_standing link.old) ≡ None }
    requires alone { (any_standing link.old).ends.unsent ≡ [] }
    requires limit { 0 < (any_standing link.old).ends.limit }
    requires fit { FitTsdus pieces.now }
    requires room { length (packets (written_for peer (any_standing link.old) (tsdus_in pieces.now))) ≤ out.old.spare }
    ensures link { with_tsdus (any_standing link.new) (one_by_one (any_standing link.old) (tsdus_in pieces.now)).ends.unsent
        ≡ one_by_one (any_standing link.old) (tsdus_in pieces.now) }
    ensures alone { (any_standing link.new).ends.unsent ≡ [] }
    ensures written { out.new.items ≡ out.old.items ++ packets (written_for peer (any_standing link.old) (tsdus_in pieces.now)) }
{
    let mut head = pieces.first;
    let mut rest = pieces.octets;
    'pieces: while rest.len() > pieces.size {
        let (piece, behind) = rest.split_at(pieces.size);
        if !write_headed(link, peer, head, piece, out) {
            return;
        }
        head = pieces.middle;
        rest = behind;
    }
    write_headed(link, peer, pieces.last, rest, out);
}

/// Writes all units of the TSDUs that are cut, as [`write_some`] does. They may all go now.
fn write_pieces(link: &mut AnyLink, peer: u16, pieces: &Pieces<'_>, out: &mut BytesMut)
    requires go { AllGoAtOnce (any_standing link.old) (tsdus_in pieces.now) }
    requires quiet { next (any_standing link.old) ≡ None }
    requires limit { 0 < (any_standing link.old).ends.limit }
    requires fit { FitTsdus pieces.now }
    requires room { length (packets (written_for peer (any_standing link.old) (tsdus_in pieces.now))) ≤ out.old.spare }
    ensures link { any_standing link.new ≡ one_by_one (any_standing link.old) (tsdus_in pieces.now) }
    ensures written { out.new.items ≡ out.old.items ++ packets (written_for peer (any_standing link.old) (tsdus_in pieces.now)) }
    ensures pumped { next (any_standing link.new) ≡ None }
{
    write_some(link, peer, pieces, out);
}

/// Hands in the TSDUs that are cut, of which this many units may be sent now, and writes these. They are written straight
/// from the pieces, and the link keeps a copy of what is left. An allocation failure changes nothing: all that is kept is
/// copied, and the room for the units is reserved, before the first is written.
fn send_some(
    alloc: Global,
    link: &mut AnyLink,
    peer: u16,
    pieces: &Pieces<'_>,
    some: Room,
    out: &mut BytesMut,
) -> Result<(), AllocError>
    requires quiet { next (any_standing link.old) ≡ None }
    requires fit { FitTsdus pieces.now }
    requires go { SomeGo (any_standing link.old) some.units (tsdus_in pieces.now) }
    requires enough { length (packets (written_for peer (any_standing link.old) (tsdus_in pieces.now))) ≤ some.octets }
    ensures link { OnOk result (any_standing link.new ≡ one_by_one (any_standing link.old) (tsdus_in pieces.now)) }
    ensures ok { OnOk result (out.new.items ≡ out.old.items ++ packets (written_for peer (any_standing link.old) (tsdus_in pieces.now))) }
    ensures pumped { OnOk result (next (any_standing link.new) ≡ None) }
    ensures err { OnErr result ((any_standing link.new ≡ any_standing link.old) × (out.new.items ≡ out.old.items)) }
{
    let kept = pieces.copies(alloc, link.limit(), some.units)?;
    out.reserve(some.octets)?;
    write_some(link, peer, pieces, out);
    let Ok(()) = link.send_owned_tsdus(kept) else {
        unreachable!()
    };
    Ok(())
}

/// The same for TSDUs of which not all units may be sent now. If none may, the link keeps copies of all. The function is
/// kept out of line: mostly all may be sent.
#[inline(never)]
fn send_waiting(
    alloc: Global,
    link: &mut AnyLink,
    peer: u16,
    pieces: &Pieces<'_>,
    out: &mut BytesMut,
) -> Result<(), AllocError>
    requires quiet { next (any_standing link.old) ≡ None }
    requires fit { FitTsdus pieces.now }
    ensures link { OnOk result (any_standing link.new ≡ one_by_one (any_standing link.old) (tsdus_in pieces.now)) }
    ensures ok { OnOk result (out.new.items ≡ out.old.items ++ packets (written_for peer (any_standing link.old) (tsdus_in pieces.now))) }
    ensures pumped { OnOk result (next (any_standing link.new) ≡ None) }
    ensures err { OnErr result ((any_standing link.new ≡ any_standing link.old) × (out.new.items ≡ out.old.items)) }
{
    if let Some(some) = some_at_once(link, pieces) {
        return send_some(alloc, link, peer, pieces, some, out);
    }
    let tsdus = pieces.copies(alloc, link.limit(), 0)?;
    send_all_on(link, peer, CowSlice::Owned(tsdus), out)
}

/// Hands in the TSDUs that are cut together at a link that gives nothing now, and writes all units that it then gives.
/// They are written straight from the pieces. If all of them may be sent now, no memory is needed but for their room:
/// none if `out` has it, and the octets of so many full units fit a `usize`. Otherwise the link keeps a copy of what may
/// not be sent yet. An allocation failure changes nothing: what is kept is copied, and the room for the units is
/// reserved, before the first is written.
pub fn send_pieces_on(
    alloc: Global,
    link: &mut AnyLink,
    peer: u16,
    pieces: &Pieces<'_>,
    out: &mut BytesMut,
) -> Result<(), AllocError>
    requires quiet { next (any_standing link.old) ≡ None }
    requires fit { FitTsdus pieces.now }
    ensures link { OnOk result (any_standing link.new ≡ one_by_one (any_standing link.old) (tsdus_in pieces.now)) }
    ensures ok { OnOk result (out.new.items ≡ out.old.items ++ packets (written_for peer (any_standing link.old) (tsdus_in pieces.now))) }
    ensures pumped { OnOk result (next (any_standing link.new) ≡ None) }
    ensures err { OnErr result ((any_standing link.new ≡ any_standing link.old) × (out.new.items ≡ out.old.items)) }
    ensures straight { AllGoAtOnce (any_standing link.old) (tsdus_in pieces.now) →
        units_needed (any_standing link.old).ends.limit (tsdus_in pieces.now) * (any_standing link.old).ends.limit < 2 ^ 64 →
        octets_in_parts 9 (any_standing link.old).ends.limit (tsdus_in pieces.now) ≤ out.old.spare → IsOk result }
{
    // Named for the proof: each unit has room for some octets, and the room in `out` fits a `usize`.
    let _limit = link.limit();
    let _capacity = out.capacity();
    if let Some(room) = room_at_once(link, pieces) {
        out.reserve(room)?;
        write_pieces(link, peer, pieces, out);
        return Ok(());
    }
    send_waiting(alloc, link, peer, pieces, out)
}
