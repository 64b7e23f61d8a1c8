//! Where the transport of a side broke a rule, or is not judged any further.

ghost use Rattle.std.specs.Prelude.{◌≡◌, if◌then◌else◌};
ghost use Rattle.std.specs.Option.{option_or};
ghost use Rattle.osi_tpdu.specs.View.{value};
ghost use Rattle.osi_judge.specs.Courses.{kind_of, is_break, unmarked, breaks, halts, earlier, first_by};

use osi_rules::Rule;
use osi_side::Direction;
use osi_tpdu::{Tpdu, TpduFault};
use osi_tpkt::TpktFault;

/// The kind of a transport unit (X.224 section 13).
#[derive(Clone, Copy)]
pub enum UnitKind {
    Cr,
    Cc,
    Dr,
    Dc,
    Dt,
    Ak,
    Er,
}

/// What was found of the transport of a side.
#[derive(Clone, Copy)]
pub enum Cause {
    /// No packet begins there (RFC 1006 section 6).
    BadPacket(TpktFault),
    /// The units of the packet can't be read.
    BadUnit(TpduFault),
    /// A unit breaks this rule.
    Broke(Rule),
    /// A unit that X.224 allows and this product leaves out.
    Outside,
    /// A CR for one connection more than are looked at together. Or a unit of which nobody can tell whether it is right, since
    /// a connection is not judged any more (`osi_rules::Finding::TooMany`).
    TooMany,
}

/// A packet of a side, and what was found of it.
#[derive(Clone, Copy)]
pub struct Mark {
    /// The side that sent the packet.
    pub direction: Direction,
    /// The offset of the packet in its direction.
    pub offset: u64,
    /// The kind of the unit; `None` if no unit was read.
    pub unit: Option<UnitKind>,
    /// The connection of the unit, by its number; `None` if it is of no single connection.
    pub connection: Option<usize>,
    pub cause: Cause,
}

/// What a break is a break of.
#[derive(Clone, Copy)]
pub enum Layer {
    Transport,
    Session,
}

/// The break that passed first: of which side, of which layer, and on which connection.
#[derive(Clone, Copy)]
pub struct First {
    pub direction: Direction,
    pub layer: Layer,
    /// The number of the connection; `None` if the break is of no single one.
    pub connection: Option<usize>,
}

/// What was found of the transport of a side.
#[derive(Clone, Copy)]
pub(crate) struct Marks {
    /// Where it first broke a rule, or left what is judged here.
    pub(crate) broke: Option<Mark>,
    /// The packet, of either side, after which nothing more of this side is judged.
    pub(crate) halted: Option<Mark>,
}

/// The mark that is kept: the first one.
fn earlier(kept: Option<Mark>, mark: Mark) -> Option<Mark>
    ensures { result ≡ earlier kept mark }
{
    match kept {
        None => Some(mark),
        Some(kept) => Some(kept),
    }
}

/// The first of all breaks, after one that is of this side if there is one.
pub(crate) fn first_if(first: Option<First>, broke: bool, by: First) -> Option<First>
    ensures { result ≡ (if broke then option_or first (Some by) else first) }
{
    match first {
        Some(first) => Some(first),
        None => if broke { Some(by) } else { None },
    }
}

/// The first of all breaks, after this mark.
pub(crate) fn first_by(first: Option<First>, mark: Mark) -> Option<First>
    ensures { result ≡ first_by mark first }
{
    let by = First {
        direction: mark.direction,
        layer: Layer::Transport,
        connection: mark.connection,
    };
    match first {
        Some(first) => Some(first),
        None => if mark.cause.is_break() {
            Some(by)
        } else {
            None
        },
    }
}

impl UnitKind {
    pub(crate) fn of(unit: &Tpdu<'_>) -> UnitKind
        ensures { result ≡ kind_of (value unit.now) }
    {
        match unit {
            Tpdu::Cr(_) => UnitKind::Cr,
            Tpdu::Cc(_) => UnitKind::Cc,
            Tpdu::Dr(_) => UnitKind::Dr,
            Tpdu::Dc(_) => UnitKind::Dc,
            Tpdu::Dt0(_) => UnitKind::Dt,
            Tpdu::Dt2(_) => UnitKind::Dt,
            Tpdu::Ak(_) => UnitKind::Ak,
            Tpdu::Er(_) => UnitKind::Er,
        }
    }
}

impl Cause {
    /// Whether the side broke a rule, or left the profile. If not, it is one connection too many.
    pub fn is_break(self) -> bool
        ensures { result ≡ is_break self }
    {
        match self {
            Cause::BadPacket(_) | Cause::BadUnit(_) => true,
            Cause::Broke(_) | Cause::Outside => true,
            Cause::TooMany => false,
        }
    }
}

impl Marks {
    pub(crate) fn new() -> Marks
        ensures { result ≡ unmarked }
    {
        Marks {
            broke: None,
            halted: None,
        }
    }

    /// The side broke a rule, if it is the first that it broke.
    pub(crate) fn breaks(&mut self, mark: Mark)
        ensures { self.new ≡ breaks mark self.old }
    {
        if !mark.cause.is_break() {
            return;
        }
        self.broke = earlier(self.broke, mark);
    }

    /// Nothing more of the side is judged, if that was not so before.
    pub(crate) fn halts(&mut self, mark: Mark)
        ensures { self.new ≡ halts mark self.old }
    {
        self.halted = earlier(self.halted, mark);
    }
}
