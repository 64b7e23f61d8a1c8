//! What a unit for a connection means, and what its sender has sent after it.

ghost use Rattle.std.specs.Prelude.{◌≡◌, ◌==◌, ◌+◌, ◌≤◌, ◌^◌, true, option_map, length};
ghost use Rattle.osi_tpdu.specs.Limits.{size_code};
ghost use Rattle.osi_tpdu.specs.View.{value, confirm_content};
ghost use Rattle.osi_rules.specs.Rows.{fits_tsdu};
ghost use Rattle.osi_rules.specs.Sides.{own};
ghost use Rattle.osi_rules.specs.Traffic.{connection_after, found, meant, meaning_if, begun_after, half_after, sent_on, judged_on};
ghost use Rattle.osi_rules.specs.Traffic.{is_stray, class_of, course_after, course_after_none};

use crate::connections::Connection;
use crate::courses::Course;
use crate::directions::Direction;
use crate::findings::{Finding, Meaning, Reach, Rule};
use crate::halves::{Half, Phase};
use crate::rows::confirm;
use osi_class::{Class, LONGEST_TSDU};
use osi_tpdu::{ConnectConfirm, SizeCode, Tpdu};

/// What a unit means if it has its effect.
pub(crate) fn meant(unit: &Tpdu<'_>) -> Meaning
    ensures { result ≡ meant (value unit.now) }
{
    match unit {
        Tpdu::Cc(_) => Meaning::Opens,
        Tpdu::Dr(_) | Tpdu::Er(_) => Meaning::Closes,
        Tpdu::Dt0(data) => Meaning::Adds(data.end),
        Tpdu::Dt2(data) => Meaning::Adds(data.end),
        Tpdu::Cr(_) | Tpdu::Dc(_) | Tpdu::Ak(_) => Meaning::Nothing,
    }
}

/// What a unit means that has its effect or not.
pub(crate) fn meaning_if(applied: bool, meaning: Meaning) -> Meaning
    ensures { result ≡ meaning_if applied meaning }
{
    if applied { meaning } else { Meaning::Nothing }
}

/// The octets of the unfinished TSDU after a DT.
fn begun_after(half: &Half, end: bool, octets: usize) -> usize
    ensures { result ≡ begun_after half.now end octets }
{
    if end {
        return 0;
    }
    half.begun.saturating_add(octets).min(LONGEST_TSDU)
}

/// What the sender of a unit has sent after it.
fn half_after(unit: &Tpdu<'_>, half: &Half) -> Half
    ensures { result ≡ half_after (value unit.now) half.now }
{
    match unit {
        Tpdu::Cc(confirm) => Half {
            phase: Phase::Open,
            reference: confirm.fields.source,
            credit: confirm.fields.credit,
            ..*half
        },
        Tpdu::Dr(_) => {
            if half.phase.is_silent() {
                Half {
                    phase: Phase::Refused,
                    ..*half
                }
            } else {
                Half {
                    phase: Phase::Closing,
                    ..*half
                }
            }
        }
        Tpdu::Dc(_) => Half {
            phase: Phase::Closed,
            ..*half
        },
        Tpdu::Dt0(data) => Half {
            begun: begun_after(half, data.end, data.user.len()),
            ..*half
        },
        Tpdu::Dt2(data) => Half {
            next: half.next.wrapping_add(1) % 128,
            begun: begun_after(half, data.end, data.user.len()),
            ..*half
        },
        Tpdu::Ak(ack) => Half {
            awaited: ack.number,
            credit: ack.credit,
            ..*half
        },
        Tpdu::Er(_) => Half {
            phase: Phase::Refused,
            ..*half
        },
        Tpdu::Cr(_) => *half,
    }
}

/// The most octets of a DT, if a CC names a size.
fn most_octets(size: Option<SizeCode>) -> Option<usize>
    ensures { result ≡ option_map (λ code. 2 ^ code) (option_map size_code size) }
{
    match size {
        None => None,
        Some(size) => Some(size.octets()),
    }
}

impl Connection {
    /// The connection after a unit of this side that has its effect.
    pub(crate) fn sent_on(&self, direction: Direction, unit: &Tpdu<'_>) -> Connection
        ensures { result ≡ sent_on direction (value unit.now) self.now }
    {
        let sent = self.sending(direction, half_after(unit, self.own(direction)));
        match unit {
            Tpdu::Cc(confirm) => Connection {
                size: most_octets(confirm.fields.parameters.size),
                ..sent
            },
            Tpdu::Cr(_)
            | Tpdu::Dr(_)
            | Tpdu::Dc(_)
            | Tpdu::Dt0(_)
            | Tpdu::Dt2(_)
            | Tpdu::Ak(_)
            | Tpdu::Er(_) => sent,
        }
    }

    /// The connection where so much is not judged any more.
    pub(crate) fn judged_on(&self, reach: Reach) -> Connection
        ensures { result ≡ judged_on reach self.now }
    {
        match reach {
            Reach::Connection => Connection {
                is_judged: false,
                ..*self
            },
            Reach::Nothing | Reach::Side | Reach::Everything => *self,
        }
    }

    /// The connection after a unit of this side that has its effect or not, and after which so much is not judged any more.
    pub(crate) fn after(
        &self,
        direction: Direction,
        unit: &Tpdu<'_>,
        applied: bool,
        reach: Reach,
    ) -> Connection
        ensures { result ≡ connection_after direction (value unit.now) applied reach self.now }
    {
        if applied {
            return self.sent_on(direction, unit).judged_on(reach);
        }
        self.judged_on(reach)
    }

    /// Whether a DR of this side does not just close an open connection.
    fn is_stray(&self, direction: Direction, source: u16) -> bool
        ensures { result ≡ is_stray direction self.now source }
    {
        let own = self.own(direction);
        !own.phase.is_open() || source != own.reference || self.theirs(direction).phase.is_closing()
    }

    /// What is found of a unit of this side for the connection. `in_use`: the side has given the reference of its CC to
    /// another connection.
    pub(crate) fn find(
        &self,
        direction: Direction,
        course: &Course,
        in_use: bool,
        unit: &Tpdu<'_>,
    ) -> Finding
        ensures { result ≡ found direction course.now in_use self.now (value unit.now) }
    {
        match unit {
            Tpdu::Cc(answer) => self.find_answer(direction, course, in_use, answer),
            Tpdu::Dr(_) => self.disconnect(direction),
            Tpdu::Dc(answer) => self.disconnected(
                direction,
                answer.source,
                course.disconnects.may_answer(direction),
            ),
            Tpdu::Dt0(data) => self.data0(direction, data.user.len()),
            Tpdu::Dt2(data) => self.data2(direction, data.number, data.user.len()),
            Tpdu::Ak(ack) => self.acknowledge(direction, ack.number, ack.credit),
            Tpdu::Er(_) => self.error(direction, course.has_erred(direction.other())),
            Tpdu::Cr(_) => Finding::Broke(Rule::WrongForm),
        }
    }

    /// What is found of a CC.
    fn find_answer(
        &self,
        direction: Direction,
        course: &Course,
        in_use: bool,
        answer: &ConnectConfirm<'_>,
    ) -> Finding
        ensures { result ≡ found direction course.now in_use self.now (value (Tpdu.Cc answer.now)) }
    {
        match direction {
            Direction::Left => Finding::Broke(Rule::WrongForm),
            Direction::Right => confirm(self, course.class, in_use, course.loose, answer),
        }
    }
}

/// The class that a CC selects.
fn class_of(answer: &ConnectConfirm<'_>) -> Class
    ensures { result ≡ class_of (confirm_content answer.now) }
{
    if answer.fields.class == 2 {
        Class::Two
    } else {
        Class::Zero
    }
}

impl Course {
    /// After a unit of this side for this connection, which has its effect or not.
    pub(crate) fn after(
        self,
        direction: Direction,
        connection: &Connection,
        unit: &Tpdu<'_>,
        applied: bool,
    ) -> Course
        ensures { result ≡ course_after direction connection.now (value unit.now) applied self }
    {
        match unit {
            Tpdu::Cc(answer) => {
                if !applied {
                    return self;
                }
                Course {
                    class: Some(class_of(answer)),
                    ..self
                }
            }
            Tpdu::Dr(request) => {
                let stray = !applied || connection.is_stray(direction, request.source);
                Course {
                    disconnects: self.disconnects.with(direction, stray),
                    ..self
                }
            }
            _ => self,
        }
    }

    /// After a unit of this side for no connection.
    pub(crate) fn after_none(self, direction: Direction, unit: &Tpdu<'_>) -> Course
        ensures { result ≡ course_after_none direction (value unit.now) self }
    {
        match unit {
            Tpdu::Dr(_) => Course {
                disconnects: self.disconnects.with(direction, true),
                ..self
            },
            _ => self,
        }
    }
}
