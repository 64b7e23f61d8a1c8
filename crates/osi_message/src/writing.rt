//! The units in which a meaning is sent.

ghost use Rattle.osi_spdu.specs.Fields.{unit_bits};
ghost use Rattle.std.specs.Prelude.{◌≡◌, ◌<◌, true, false, length, None, option_map};
ghost use Rattle.osi_spdu.specs.declared.kinds.Category.TheVariants.{Two};
ghost use Rattle.osi_spdu.specs.Kinds.{category_of};
ghost use Rattle.osi_spdu.specs.Groups.{units_of};
ghost use Rattle.osi_spdu.specs.Units.{said_by};
ghost use Rattle.osi_spdu.specs.Writing.{is_joined, UnitFits, TsduFits};
ghost use Rattle.osi_message.specs.Meanings.{selector_octets, meant_by, AC, RF, GT, PT, MIP};
ghost use Rattle.osi_message.specs.Written.{connect_unit, alone_units, behind_tokens, is_second, unit_of, spelled, written, user_data_of};

use crate::messages::Message;
use crate::tokens::Tokens;
use osi_spdu::{
    Group, Reason, Requirements, Selector, Serial, Spdu, SyncType, Terms, TokenSetting,
    TsduMaximumSize, written_len,
};

/// A unit of category 0 or 1 (X.225 section 6.3.7), alone.
fn alone<'a>(unit: Spdu<'a>) -> Group<'a>
    requires { is_joined (said_by unit).kind None ≡ true }
    ensures units { units_of result ≡ alone_units (said_by unit.entry) }
    ensures fits { UnitFits (said_by unit.entry) → TsduFits (units_of result) }
{
    Group::alone(unit)
}

/// A unit of category 2, after a GT with no token.
fn behind<'a>(unit: Spdu<'a>) -> Group<'a>
    requires { category_of (said_by unit).kind ≡ Two }
    ensures units { units_of result ≡ behind_tokens (said_by unit.entry) }
    ensures fits { UnitFits (said_by unit.entry) → TsduFits (units_of result) }
{
    Group::behind_give_tokens(unit)
}

fn connect<'a>(
    requirements: Requirements,
    serial: Option<Serial>,
    wishes: TokenSetting,
    calling: Option<Selector<'a>>,
    called: Option<Selector<'a>>,
    sizes: TsduMaximumSize,
    user_data: &'a [u8],
) -> Spdu<'a>
    ensures units { said_by result ≡ connect_unit (unit_bits requirements) (option_map (λ s. s.number) serial)
        wishes (selector_octets calling.entry) (selector_octets called.entry) sizes user_data.entry.now }
    ensures place { is_joined (said_by result).kind None ≡ true }
    ensures fits { length user_data.entry.now < 65000 → UnitFits (said_by result) }
{
    let terms = Terms {
        initial_number: serial,
        token_setting: wishes,
        user_requirements: requirements,
        tsdu_maximum_size: sizes,
    };
    Spdu::connect(terms, calling, called, user_data)
}

fn accept<'a>(
    requirements: Requirements,
    serial: Option<Serial>,
    sides: TokenSetting,
    sizes: TsduMaximumSize,
    user_data: &'a [u8],
) -> Spdu<'a>
    ensures units { said_by result
        ≡ unit_of (AC true (unit_bits requirements) (option_map (λ s. s.number) serial) sides sizes user_data.entry.now) }
    ensures place { is_joined (said_by result).kind None ≡ true }
    ensures fits { length user_data.entry.now < 65000 → UnitFits (said_by result) }
{
    let terms = Terms {
        initial_number: serial,
        token_setting: sides,
        user_requirements: requirements,
        tsdu_maximum_size: sizes,
    };
    Spdu::accept(terms, user_data)
}

fn refuse<'a>(reason: u8, user_data: &'a [u8]) -> Spdu<'a>
    ensures units { said_by result ≡ unit_of (RF reason user_data.entry.now) }
    ensures place { is_joined (said_by result).kind None ≡ true }
    ensures fits { length user_data.entry.now < 65000 → UnitFits (said_by result) }
{
    Spdu::refuse(Reason {
        code: reason,
        data_octets: user_data,
    })
}

fn give<'a>(tokens: Tokens) -> Spdu<'a>
    ensures units { said_by result ≡ unit_of (GT tokens) }
    ensures place { is_joined (said_by result).kind None ≡ true }
    ensures fits { UnitFits (said_by result) }
{
    Spdu::give_tokens(Some(tokens.set()))
}

fn please<'a>(tokens: Tokens, user_data: &'a [u8]) -> Spdu<'a>
    ensures units { said_by result ≡ unit_of (PT tokens user_data.entry.now) }
    ensures place { is_joined (said_by result).kind None ≡ true }
    ensures fits { length user_data.entry.now < 65000 → UnitFits (said_by result) }
{
    Spdu::please_tokens(Some(tokens.set()), user_data)
}

/// A minor point that asks for its confirmation has no sync type.
fn minor_point<'a>(confirm: bool, number: Serial, user_data: &'a [u8]) -> Spdu<'a>
    ensures units { said_by result ≡ unit_of (MIP confirm number.number user_data.entry.now) }
    ensures place { category_of (said_by result).kind ≡ Two }
    ensures fits { length user_data.entry.now < 65000 → UnitFits (said_by result) }
{
    if confirm {
        return Spdu::minor_point(None, number, user_data);
    }
    Spdu::minor_point(Some(SyncType::Open), number, user_data)
}

impl<'a> Message<'a> {
    /// Whether the unit is of category 2: data, and everything about points.
    #[tactic(auto, unfolding(crate::specs::Written::is_second))]
    fn is_second(self) -> bool
        ensures { result ≡ is_second (meant_by self.entry) }
    {
        matches!(
            self,
            Message::Data { .. }
                | Message::MinorPoint { .. }
                | Message::MinorAck { .. }
                | Message::MajorPoint { .. }
                | Message::MajorAck { .. }
                | Message::Restart { .. }
                | Message::RestartAck { .. }
        )
    }

    /// A unit of category 0 or 1.
    #[tactic(auto, unfolding(crate::specs::Written::is_second, crate::specs::Written::unit_of, crate::specs::Written::user_data_of))]
    fn first_unit(self) -> Spdu<'a>
        requires { is_second (meant_by self) ≡ false }
        ensures units { said_by result ≡ unit_of (meant_by self.entry) }
        ensures place { is_joined (said_by result).kind None ≡ true }
        ensures fits { length (user_data_of (meant_by self.entry)) < 65000 → UnitFits (said_by result) }
    {
        match self {
            Message::Connect {
                requirements,
                serial,
                wishes,
                calling,
                called,
                sizes,
                user_data,
                ..
            } => connect(
                requirements,
                serial,
                wishes,
                calling,
                called,
                sizes,
                user_data,
            ),
            Message::Accept {
                requirements,
                serial,
                sides,
                sizes,
                user_data,
                ..
            } => accept(requirements, serial, sides, sizes, user_data),
            Message::Refuse { reason, user_data } => refuse(reason, user_data),
            Message::Give { tokens } => give(tokens),
            Message::Please { tokens, user_data } => please(tokens, user_data),
            Message::Finish { user_data } => Spdu::finish(user_data),
            Message::Disconnect { user_data } => Spdu::disconnect(user_data),
            Message::NotFinished { user_data } => Spdu::not_finished(user_data),
            Message::Abort {
                transport_disconnect,
                user_data,
            } => Spdu::abort(transport_disconnect, user_data),
            Message::AbortAccept => Spdu::abort_accept(),
            _ => unreachable!(),
        }
    }

    /// A unit of category 2.
    #[tactic(auto, unfolding(crate::specs::Written::is_second, crate::specs::Written::unit_of, crate::specs::Written::user_data_of))]
    fn second_unit(self) -> Spdu<'a>
        requires { is_second (meant_by self) ≡ true }
        ensures units { said_by result ≡ unit_of (meant_by self.entry) }
        ensures place { category_of (said_by result).kind ≡ Two }
        ensures fits { length (user_data_of (meant_by self.entry)) < 65000 → UnitFits (said_by result) }
    {
        match self {
            Message::Data { user_data } => Spdu::data_transfer(user_data),
            Message::MinorPoint {
                confirm,
                number,
                user_data,
            } => minor_point(confirm, number, user_data),
            Message::MinorAck { number, user_data } => Spdu::minor_ack(number, user_data),
            Message::MajorPoint { number, user_data } => Spdu::major_point(number, user_data),
            Message::MajorAck { number, user_data } => Spdu::major_ack(number, user_data),
            Message::Restart {
                kind,
                number,
                wishes,
                user_data,
            } => Spdu::resynchronize(wishes, kind, number, user_data),
            Message::RestartAck {
                number,
                sides,
                user_data,
            } => Spdu::resynchronize_ack(sides, number, user_data),
            _ => unreachable!(),
        }
    }

    /// The units in which it is sent (X.225 sections 6.3.7 and 8). A CN and an AC name only version 2.
    pub fn group(self) -> Group<'a>
        ensures units { units_of result ≡ spelled (meant_by self.entry) }
        ensures fits { length (user_data_of (meant_by self.entry)) < 65000 → TsduFits (units_of result) }
    {
        if self.is_second() {
            behind(self.second_unit())
        } else {
            alone(self.first_unit())
        }
    }

    /// The length of its written form. It is kept out of line, because of the room for its units.
    #[inline(never)]
    pub fn written_len(&self) -> usize
        requires { length (user_data_of (meant_by self.now)) < 65000 }
        ensures { result ≡ length (written (meant_by self.now)) }
    {
        written_len(&self.group())
    }
}
