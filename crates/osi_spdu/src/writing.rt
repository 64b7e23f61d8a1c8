//! The written form of units: only known parameters, in rising order of code.

ghost use Rattle.std.specs.Prelude.{◌≡◌, ◌≤◌, ◌<◌, ◌^◌, ◌+◌, ◌*◌, ◌++◌, [], ◌∷◌, true, length, get_or, set, nat_lt, is_some, Ok, OnOk};
ghost use Rattle.std.specs.Prelude.{OnErr, if◌then◌else◌};
ghost use Rattle.std.specs.List.{flat_map};
ghost use Rattle.bytes.specs.Filled.{UsesSpare};
ghost use Rattle.osi_spdu.specs.declared.kinds.Category.TheVariants.{Two};
ghost use Rattle.osi_spdu.specs.Codes.{number_of, is_group};
ghost use Rattle.osi_spdu.specs.Kinds.{codes_of, category_of};
ghost use Rattle.osi_spdu.specs.Known.{Known};
ghost use Rattle.osi_spdu.specs.Octets.{octets_of};
ghost use Rattle.osi_spdu.specs.Params.{known_of};
ghost use Rattle.osi_spdu.specs.Reading.{tsdu_at};
ghost use Rattle.osi_spdu.specs.Spelling.{length_octets, SpellsTsdu};
ghost use Rattle.osi_spdu.specs.Writing.{among, written_code, written_item, member_octets, members_octets, group_octets, parameter_octets};
ghost use Rattle.osi_spdu.specs.Writing.{body_octets, unit_octets, tsdu_octets, UnitFits, TsduFits};
ghost use Rattle.osi_spdu.specs.UnitLengths.{body_length, held, IsHeld, AreHeld, AreLengths};
ghost use Rattle.osi_spdu.specs.Units.{said_by};
ghost use Rattle.osi_spdu.specs.Groups.{first_of, behind_of, units_behind, units_of};

use crate::behind::Behind;
use crate::codes::Code;
use crate::groups::Group;
use crate::kinds::Kind;
use crate::octets::Value;
use crate::params::Params;
use crate::units::Spdu;
use bytes::BytesMut;
use osi_unit::laws::are_octets;
use std::alloc::AllocError;

/// The length of a code or SI, a length indicator and this many octets.
fn item_len(len: usize) -> usize
    requires { len < 2 ^ 63 + 6 }
    ensures { result ≡ 1 + (if nat_lt 254 len then 3 else 1) + len }
{
    if len > 254 { 4 + len } else { 2 + len }
}

/// Appends a code or SI, and a length indicator.
fn put_header(out: &mut BytesMut, code: u8, len: usize)
    requires small { len < 65536 }
    requires room { 1 + (if nat_lt 254 len then 3 else 1) ≤ out.old.spare }
    ensures items { out.new.items ≡ out.old.items ++ code ∷ length_octets (nat_lt 254 len) len }
    ensures spare { out.new.spare + (1 + (if nat_lt 254 len then 3 else 1)) ≡ out.old.spare }
{
    if len > 254 {
        out.extend_reserved(&[code, 255, (len / 256) as u8, (len % 256) as u8]);
    } else {
        out.extend_reserved(&[code, len as u8]);
    }
}

/// Appends a code, the length of a value and its octets; a short value is appended at once.
fn put_octets(out: &mut BytesMut, code: u8, octets: &[u8])
    requires small { length octets.now < 65536 }
    requires room { length (written_item code octets.now) ≤ out.old.spare }
    ensures items { out.new.items ≡ out.old.items ++ written_item code octets.now }
    ensures spare { out.new.spare + length (written_item code octets.now) ≡ out.old.spare }
{
    match octets {
        [] => out.extend_reserved(&[code, 0]),
        [a] => out.extend_reserved(&[code, 1, *a]),
        [a, b] => out.extend_reserved(&[code, 2, *a, *b]),
        [a, b, c] => out.extend_reserved(&[code, 3, *a, *b, *c]),
        [a, b, c, d] => out.extend_reserved(&[code, 4, *a, *b, *c, *d]),
        [a, b, c, d, e] => out.extend_reserved(&[code, 5, *a, *b, *c, *d, *e]),
        [a, b, c, d, e, f] => out.extend_reserved(&[code, 6, *a, *b, *c, *d, *e, *f]),
        _ => {
            put_header(out, code, octets.len());
            out.extend_reserved(octets);
        }
    }
}

/// Appends a code, the length of a value and its octets.
fn put_item(out: &mut BytesMut, code: u8, value: Value)
    requires small { length (octets_of value) < 65536 }
    requires room { length (written_item code (octets_of value)) ≤ out.old.spare }
    ensures items { out.new.items ≡ out.old.items ++ written_item code (octets_of value.entry) }
    ensures spare { out.new.spare + length (written_item code (octets_of value.entry)) ≡ out.old.spare }
{
    if value.lent().is_empty() {
        return put_octets(out, code, value.made());
    }
    if value.made().is_empty() {
        return put_octets(out, code, value.lent());
    }
    put_header(out, code, value.len());
    out.extend_reserved(value.made());
    out.extend_reserved(value.lent());
}

/// The code under which a value is written: a CN has another code for user data above 512 octets.
#[tactic(auto, unfolding(crate::specs::Writing::written_code))]
pub(crate) fn written_code(kind: Kind, code: Code, value: Value) -> Code
    ensures { result ≡ written_code kind code (octets_of value.entry) }
{
    if code.is_user_data() && kind.knows_extended() && value.len() > 512 {
        Code::ExtendedUserData
    } else {
        code
    }
}

/// The length of a parameter of a group, in octets.
fn member_len(params: &Params, code: Code) -> usize
    ensures { result ≡ length (member_octets code (known_of params.now code)) }
{
    match params.value(code) {
        None => 0,
        Some(value) => item_len(value.len()),
    }
}

fn put_member(out: &mut BytesMut, params: &Params, code: Code)
    requires small { length (member_octets code (known_of params.now code)) < 65536 }
    requires room { length (member_octets code (known_of params.now code)) ≤ out.old.spare }
    ensures items { out.new.items ≡ out.old.items ++ member_octets code (known_of params.now code) }
    ensures spare { out.new.spare + length (member_octets code (known_of params.now code))
        ≡ out.old.spare }
{
    if let Some(value) = params.value(code) {
        put_item(out, code.number(), value);
    }
}

/// The length of the parameters of a group, in octets.
fn members_len(params: &Params, codes: &[Code]) -> usize
    requires { length (members_octets (known_of params.now) codes.now) < 65536 }
    ensures { result ≡ length (members_octets (known_of params.now) codes.now) }
{
    let mut len = 0;
    'codes: for code in codes {
        len += member_len(params, *code);
    }
    len
}

fn put_members(out: &mut BytesMut, params: &Params, codes: &[Code])
    requires small { length (members_octets (known_of params.now) codes.now) < 65536 }
    requires room { length (members_octets (known_of params.now) codes.now) ≤ out.old.spare }
    ensures items { out.new.items ≡ out.old.items ++ members_octets (known_of params.now) codes.now }
    ensures spare { out.new.spare + length (members_octets (known_of params.now) codes.now)
        ≡ out.old.spare }
{
    'codes: for code in codes {
        put_member(out, params, *code);
    }
}

/// The length of the contents of a group of a unit, in octets, if the unit knows the group and it is there.
#[tactic(auto, unfolding(crate::specs::Writing::group_octets))]
fn group_len(kind: Kind, params: &Params, group: Code) -> usize
    requires group { is_group group ≡ true }
    requires small { length (body_octets kind (known_of params.now)) < 65536 }
    ensures { among (codes_of kind) group ≡ true → is_some (known_of params.now group) ≡ true →
        result ≡ length (group_octets kind (known_of params.now) group) }
{
    if !kind.knows(group) || params.value(group).is_none() {
        return 0;
    }
    members_len(params, kind.members(group))
}

/// The length of the contents of each group of a unit of this kind, in octets. An absent group does not count.
#[derive(Clone, Copy)]
struct GroupLengths {
    kind: Kind,
    connection_identifier: usize,
    connect_accept_item: usize,
}

impl GroupLengths {
    /// The lengths for a unit.
    fn of(kind: Kind, params: &Params) -> GroupLengths
        requires { length (body_octets kind (known_of params.now)) < 65536 }
        ensures kind { result.kind ≡ kind }
        ensures value { AreHeld result (known_of params.now) }
    {
        GroupLengths {
            kind,
            connection_identifier: group_len(kind, params, Code::ConnectionIdentifier),
            connect_accept_item: group_len(kind, params, Code::ConnectAcceptItem),
        }
    }

    /// A unit of category 2 knows no group.
    fn none(kind: Kind) -> GroupLengths
        requires { category_of kind ≡ Two }
        ensures kind { result.kind ≡ kind }
        ensures value { (known : Known) → AreHeld result known }
    {
        GroupLengths {
            kind,
            connection_identifier: 0,
            connect_accept_item: 0,
        }
    }

    /// The length of the contents of a group.
    #[tactic(auto, unfolding(crate::specs::UnitLengths::held))]
    fn held(self, group: Code) -> usize
        ensures { result ≡ held self group }
    {
        match group {
            Code::ConnectionIdentifier => self.connection_identifier,
            _ => self.connect_accept_item,
        }
    }
}

/// The length of a parameter or group of a unit, in octets.
fn parameter_len(groups: GroupLengths, params: &Params, code: Code) -> usize
    requires held { IsHeld groups (known_of params.now) code }
    requires small { length (parameter_octets groups.kind (known_of params.now) code (known_of params.now code))
        < 65536 }
    ensures { result
        ≡ length (parameter_octets groups.kind (known_of params.now) code (known_of params.now code)) }
{
    let Some(value) = params.value(code) else {
        return 0;
    };
    if code.is_group() {
        return item_len(groups.held(code));
    }
    item_len(value.len())
}

#[tactic(auto, unfolding(crate::specs::Writing::group_octets))]
fn put_parameter(out: &mut BytesMut, groups: GroupLengths, params: &Params, code: Code)
    requires held { IsHeld groups (known_of params.now) code }
    requires small { length (parameter_octets groups.kind (known_of params.now) code (known_of params.now code))
        < 65536 }
    requires room { length (parameter_octets groups.kind (known_of params.now) code (known_of params.now code))
        ≤ out.old.spare }
    ensures items { out.new.items ≡ out.old.items
        ++ parameter_octets groups.kind (known_of params.now) code (known_of params.now code) }
    ensures spare { out.new.spare
        + length (parameter_octets groups.kind (known_of params.now) code (known_of params.now code))
        ≡ out.old.spare }
{
    let Some(value) = params.value(code) else {
        return;
    };
    let number = written_code(groups.kind, code, value).number();
    if code.is_group() {
        put_header(out, number, groups.held(code));
        put_members(out, params, groups.kind.members(code));
        return;
    }
    put_item(out, number, value);
}

/// The length of the parameters and groups of a unit, in octets.
#[tactic(auto, unfolding(crate::specs::Writing::body_octets))]
fn body_len(groups: GroupLengths, params: &Params) -> usize
    requires held { AreHeld groups (known_of params.now) }
    requires small { length (body_octets groups.kind (known_of params.now)) < 65536 }
    ensures { result ≡ length (body_octets groups.kind (known_of params.now)) }
{
    let codes = groups.kind.codes();
    let mut len = 0;
    'codes: for code in codes {
        len += parameter_len(groups, params, *code);
    }
    len
}

#[tactic(auto, unfolding(crate::specs::Writing::body_octets))]
fn put_body(out: &mut BytesMut, groups: GroupLengths, params: &Params)
    requires held { AreHeld groups (known_of params.now) }
    requires small { length (body_octets groups.kind (known_of params.now)) < 65536 }
    requires room { length (body_octets groups.kind (known_of params.now)) ≤ out.old.spare }
    ensures items { out.new.items ≡ out.old.items ++ body_octets groups.kind (known_of params.now) }
    ensures spare { out.new.spare + length (body_octets groups.kind (known_of params.now))
        ≡ out.old.spare }
{
    let codes = groups.kind.codes();
    'codes: for code in codes {
        put_parameter(out, groups, params, *code);
    }
}

/// The length of a unit in octets, without the user information of a DT.
#[derive(Clone, Copy)]
struct UnitLength {
    /// The lengths of its groups.
    groups: GroupLengths,
    /// Its parameters and groups.
    body: usize,
    /// With its SI and its length indicator.
    whole: usize,
}

#[tactic(auto, unfolding(crate::specs::Writing::unit_octets))]
fn unit_len(unit: &Spdu) -> UnitLength
    requires { UnitFits (said_by unit.now) }
    ensures kind { result.groups.kind ≡ (said_by unit.now).kind }
    ensures groups { AreHeld result.groups (said_by unit.now).known }
    ensures body { result.body ≡ body_length (said_by unit.now) }
    ensures value { result.whole ≡ length (unit_octets (said_by unit.now)) }
    ensures short { result.whole < 65540 }
{
    let groups = GroupLengths::of(unit.kind(), unit.params());
    let body = body_len(groups, unit.params());
    UnitLength {
        groups,
        body,
        whole: item_len(body),
    }
}

#[tactic(auto, unfolding(crate::specs::Writing::unit_octets))]
fn put_unit(out: &mut BytesMut, unit: &Spdu, groups: GroupLengths, body: usize)
    requires small { UnitFits (said_by unit.now) }
    requires kind { groups.kind ≡ (said_by unit.now).kind }
    requires groups { AreHeld groups (said_by unit.now).known }
    requires body { body ≡ body_length (said_by unit.now) }
    requires room { length (unit_octets (said_by unit.now)) ≤ out.old.spare }
    ensures items { out.new.items ≡ out.old.items ++ unit_octets (said_by unit.now) }
    ensures spare { out.new.spare + length (unit_octets (said_by unit.now)) ≡ out.old.spare }
{
    put_header(out, unit.kind().si(), body);
    put_body(out, groups, unit.params());
}

/// The lengths of the first unit of a group, of the parameters of each unit after it, and of all units, in octets.
#[derive(Clone, Copy)]
struct Lengths {
    first: UnitLength,
    behind: [u16; 16],
    all: usize,
}

fn keep_length(lengths: &mut [u16], count: usize, body: usize)
    requires within { count < length lengths.old }
    requires small { body < 65536 }
    ensures { lengths.new ≡ set lengths.old count body }
{
    lengths[count] = body as u16;
}

fn kept_length(lengths: &[u16], count: usize) -> usize
    requires { count < length lengths.now }
    ensures { result ≡ get_or lengths.now count 0 }
{
    lengths[count] as usize
}

/// The length of the units after the first one, in octets. The length of each unit is stored.
fn count_units(mut behind: Behind, lengths: &mut [u16]) -> usize
    requires fits { TsduFits (units_behind behind) }
    requires room { length lengths.old ≡ 16 }
    ensures value { result ≡ length (tsdu_octets (units_behind behind.entry)) }
    ensures small { result ≤ 2 ^ 63 + 65540 * 16 }
    ensures lengths { AreLengths lengths.new (units_behind behind.entry) }
{
    let mut len = 0;
    let mut count = 0usize;
    'units: while let Some(unit) = behind.next() {
        let counted = unit_len(&unit);
        keep_length(lengths, count, counted.body);
        count += 1;
        len += counted.whole + unit.information().len();
    }
    len
}

/// The length of the units after the first one, in octets. The length of each unit is stored. The common case is one
/// unit, which is not copied.
fn count_behind(behind: &Behind, lengths: &mut [u16]) -> usize
    requires fits { TsduFits (units_behind behind.now) }
    requires room { length lengths.old ≡ 16 }
    ensures value { result ≡ length (tsdu_octets (units_behind behind.now)) }
    ensures small { result ≤ 2 ^ 63 + 65540 * 16 }
    ensures lengths { AreLengths lengths.new (units_behind behind.now) }
{
    let Some(unit) = behind.only() else {
        return count_units(*behind, lengths);
    };
    let counted = unit_len(unit);
    keep_length(lengths, 0, counted.body);
    counted.whole + unit.information().len()
}

/// Counts the octets of the units, each one once.
fn lengths_of(group: &Group) -> Lengths
    requires { TsduFits (units_of group.now) }
    ensures first { result.first.body ≡ body_length (first_of group.now) }
    ensures kind { result.first.groups.kind ≡ (first_of group.now).kind }
    ensures groups { AreHeld result.first.groups (first_of group.now).known }
    ensures behind { AreLengths result.behind (behind_of group.now) }
    ensures all { result.all ≡ length (tsdu_octets (units_of group.now)) }
{
    let counted = unit_len(group.first());
    let mut behind = [0u16; 16];
    let others = count_behind(group.others(), &mut behind);
    Lengths {
        first: counted,
        behind,
        all: counted.whole + others,
    }
}

/// The number of octets that `write_tsdu` appends.
pub fn written_len(group: &Group) -> usize
    requires { TsduFits (units_of group.now) }
    ensures { result ≡ length (tsdu_octets (units_of group.now)) }
{
    lengths_of(group).all
}

fn put_units(out: &mut BytesMut, mut behind: Behind, lengths: &[u16])
    requires small { TsduFits (units_behind behind) }
    requires lengths { AreLengths lengths.now (units_behind behind) }
    requires kept { length lengths.now ≡ 16 }
    requires room { length (tsdu_octets (units_behind behind)) ≤ out.old.spare }
    ensures items { out.new.items ≡ out.old.items ++ tsdu_octets (units_behind behind.entry) }
    ensures spare { out.new.spare + length (tsdu_octets (units_behind behind.entry)) ≡ out.old.spare }
{
    let mut count = 0usize;
    'units: while let Some(unit) = behind.next() {
        let groups = GroupLengths::none(unit.kind());
        put_unit(out, &unit, groups, kept_length(lengths, count));
        out.extend_reserved(unit.information());
        count += 1;
    }
}

fn put_behind(out: &mut BytesMut, behind: &Behind, lengths: &[u16])
    requires small { TsduFits (units_behind behind.now) }
    requires lengths { AreLengths lengths.now (units_behind behind.now) }
    requires kept { length lengths.now ≡ 16 }
    requires room { length (tsdu_octets (units_behind behind.now)) ≤ out.old.spare }
    ensures items { out.new.items ≡ out.old.items ++ tsdu_octets (units_behind behind.now) }
    ensures spare { out.new.spare + length (tsdu_octets (units_behind behind.now)) ≡ out.old.spare }
{
    let Some(unit) = behind.only() else {
        return put_units(out, *behind, lengths);
    };
    let groups = GroupLengths::none(unit.kind());
    put_unit(out, unit, groups, kept_length(lengths, 0));
    out.extend_reserved(unit.information());
}

#[tactic(auto, unfolding(crate::specs::Writing::tsdu_octets))]
fn put_group(out: &mut BytesMut, group: &Group, lengths: &Lengths)
    requires small { TsduFits (units_of group.now) }
    requires first { lengths.now.first.body ≡ body_length (first_of group.now) }
    requires kind { lengths.now.first.groups.kind ≡ (first_of group.now).kind }
    requires groups { AreHeld lengths.now.first.groups (first_of group.now).known }
    requires behind { AreLengths lengths.now.behind (behind_of group.now) }
    requires room { length (tsdu_octets (units_of group.now)) ≤ out.old.spare }
    ensures items { out.new.items ≡ out.old.items ++ tsdu_octets (units_of group.now) }
    ensures spare { out.new.spare + length (tsdu_octets (units_of group.now)) ≡ out.old.spare }
{
    put_unit(out, group.first(), lengths.first.groups, lengths.first.body);
    put_behind(out, group.others(), &lengths.behind);
}

/// Appends the written form of the units of a TSDU (X.225 section 8).
///
/// An `Err` leaves the octets of `out` as they were, and is possible only if `out` had too little room.
pub fn write_tsdu(group: &Group, out: &mut BytesMut) -> Result<(), AllocError>
    requires { TsduFits (units_of group.now) }
    ensures ok { OnOk result (out.new.items ≡ out.old.items ++ tsdu_octets (units_of group.now)) }
    ensures err { OnErr result (out.new.items ≡ out.old.items) }
    ensures full { OnErr result (out.old.spare < length (tsdu_octets (units_of group.now))) }
    // Spare room of the buffer is used for what is written, and for nothing else.
    ensures spare { UsesSpare result out.old.spare out.new.spare (length (tsdu_octets (units_of group.now))) }
    // What is appended spells the units and reads back as them.
    ensures spelled { OnOk result (SpellsTsdu (units_of group.now) (tsdu_octets (units_of group.now))) }
    ensures read { tsdu_at (tsdu_octets (units_of group.now)) ≡ Ok (units_of group.now) }
{
    let lengths = lengths_of(group);
    out.reserve(lengths.all)?;
    put_group(out, group, &lengths);
    are_octets(out.as_slice());
    Ok(())
}
