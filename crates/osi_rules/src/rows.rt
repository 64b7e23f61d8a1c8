//! When a unit is right: a row for each kind of unit.

ghost use Rattle.std.specs.Prelude.{◌≡◌, ◌==◌, ◌+◌, ◌%◌, option_map};
ghost use Rattle.osi_tpdu.specs.Limits.{size_code};
ghost use Rattle.osi_class.specs.Flow.{steps_before};
ghost use Rattle.osi_tpdu.specs.View.{confirm_content};
ghost use Rattle.osi_rules.specs.Rows.{first_failed, steps_from, has_credit, is_tellable, has_passed, keeps_credit, fits_size, fits_tsdu};
ghost use Rattle.osi_rules.specs.Rows.{is_without_flow_control, is_extended};
ghost use Rattle.osi_rules.specs.Rows.{code_named, selects_expedited, are_offered, is_offered, is_inside, given_again, confirm_tests};
ghost use Rattle.osi_rules.specs.Rows.{data0_tests, data2_tests, acknowledge_tests, disconnect_tests, is_due, disconnected_tests};
ghost use Rattle.osi_rules.specs.Rows.{error_tests};

use crate::connections::{Connection, Offer};
use crate::directions::Direction;
use crate::findings::{Finding, Rule};
use osi_class::{Class, LONGEST_TSDU};
use osi_tpdu::{ConnectConfirm, SizeCode};

/// The octets of a DT of class 0 before its user data (X.224 section 13.7).
const DATA_0: u8 = 3;

/// The octets of a DT of class 2 before its user data (X.224 section 13.7).
const DATA_2: u8 = 5;

/// How many numbers there are from one up to another, modulo 128.
fn steps_from(first: u8, last: u8) -> u16
    ensures { result ≡ steps_from first last }
{
    (u16::from(last) + 128 - u16::from(first) % 128) % 128
}

/// Not longer than the size that the CC names, header included.
fn fits_size(most: Option<usize>, header: u8, octets: usize) -> bool
    ensures { result ≡ fits_size most (octets + header) }
{
    match most {
        None => true,
        Some(most) => most >= usize::from(header) && octets <= most - usize::from(header),
    }
}

/// The code of a size; 7, for 128 octets, if none is named.
pub(crate) fn code_named(size: Option<SizeCode>) -> u8
    ensures { result ≡ code_named (option_map size_code size) }
{
    match size {
        None => 7,
        Some(size) => size.code(),
    }
}

/// Whether a CC selects expedited data.
fn selects_expedited(options: Option<u8>) -> bool
    ensures { result ≡ selects_expedited options }
{
    match options {
        None => false,
        Some(options) => options % 2 == 1,
    }
}

/// Whether bit 1 of the options beside the class is set: class 2 without flow control (X.224 section 13.3.3).
pub(crate) fn is_without_flow_control(options: u8) -> bool
    ensures { result ≡ is_without_flow_control options }
{
    options % 2 == 1
}

/// Whether bit 2 of the options beside the class is set: extended formats (X.224 section 13.3.3).
pub(crate) fn is_extended(options: u8) -> bool
    ensures { result ≡ is_extended options }
{
    options % 4 >= 2
}

/// Whether a CC of class 2 selects only options that its CR offers.
fn are_offered(offer: &Offer, confirm: &ConnectConfirm<'_>) -> bool
    ensures { result ≡ are_offered offer.now (confirm_content confirm.now) }
{
    let expedited = selects_expedited(confirm.fields.parameters.additional_options);
    let options = confirm.fields.options;
    (offer.expedited || !expedited)
        && (offer.without_flow_control || !is_without_flow_control(options))
        && (offer.extended || !is_extended(options))
}

/// Whether a CC is an answer that its CR allows.
fn is_offered(offer: &Offer, held: Option<Class>, confirm: &ConnectConfirm<'_>) -> bool
    ensures { result ≡ is_offered offer.now held (confirm_content confirm.now) }
{
    match confirm.fields.class {
        0 => offer.class0 && held.is_none(),
        2 => offer.class2 && are_offered(offer, confirm),
        _ => offer.others,
    }
}

/// Whether a CC selects what this product has.
fn is_inside(confirm: &ConnectConfirm<'_>) -> bool
    ensures { result ≡ is_inside (confirm_content confirm.now) }
{
    let expedited = selects_expedited(confirm.fields.parameters.additional_options);
    let options = confirm.fields.options;
    let plain = !expedited && !is_without_flow_control(options) && !is_extended(options);
    confirm.fields.class == 0 || confirm.fields.class == 2 && plain
}

/// A CC with a reference that is in use. `loose`: a connection is not judged any more, whose reference may be free.
fn given_again(loose: bool) -> Finding
    ensures { result ≡ given_again loose }
{
    if loose {
        return Finding::TooMany;
    }
    Finding::Broke(Rule::ReferenceInUse)
}

/// CC of right. `in_use`: right has given its reference to another connection. `loose`: one is not judged any more.
pub(crate) fn confirm(
    connection: &Connection,
    held: Option<Class>,
    in_use: bool,
    loose: bool,
    confirm: &ConnectConfirm<'_>,
) -> Finding
    ensures { result ≡ first_failed (confirm_tests connection.now held in_use loose (confirm_content confirm.now)) }
{
    if !connection.right.phase.is_silent() {
        return Finding::Broke(Rule::WrongForm);
    }
    if !is_offered(&connection.offer, held, confirm) {
        return Finding::Broke(Rule::BadAnswer);
    }
    if !is_inside(confirm) {
        return Finding::Outside;
    }
    if in_use {
        return given_again(loose);
    }
    if code_named(confirm.fields.parameters.size) > connection.offer.size_code {
        return Finding::Broke(Rule::LargerSize);
    }
    Finding::Kept
}

impl Connection {
    /// Whether the next DT of this side is below the upper edge of the window.
    fn has_credit(&self, direction: Direction) -> bool
        ensures { result ≡ has_credit direction self.now }
    {
        let seen = self.seen(direction);
        steps_from(seen.awaited, self.own(direction).next) < u16::from(seen.credit)
    }

    /// Whether at most 127 DTs of this side are not acknowledged, the next one included.
    fn is_tellable(&self, direction: Direction) -> bool
        ensures { result ≡ is_tellable direction self.now }
    {
        steps_from(self.theirs(direction).awaited, self.own(direction).next) < 127
    }

    /// Whether an AK of this side with this number acknowledges only what had passed, and no less than the last one.
    fn has_passed(&self, direction: Direction, number: u8) -> bool
        ensures { result ≡ has_passed direction self.now number }
    {
        let awaited = self.own(direction).awaited;
        steps_from(awaited, number) <= steps_from(awaited, self.seen(direction).next)
    }

    /// Whether an AK of this side does not move the upper edge of the window down.
    fn keeps_credit(&self, direction: Direction, number: u8, credit: u8) -> bool
        ensures { result ≡ keeps_credit direction self.now number credit }
    {
        let own = self.own(direction);
        u16::from(own.credit) <= steps_from(own.awaited, number) + u16::from(credit)
    }

    /// Whether the TSDU is not too long with so many octets more.
    fn fits_tsdu(&self, direction: Direction, octets: usize) -> bool
        ensures { result ≡ fits_tsdu direction self.now octets }
    {
        self.own(direction).begun.saturating_add(octets) <= LONGEST_TSDU
    }

    /// DT of class 2 with so many octets of user data.
    pub(crate) fn data2(&self, direction: Direction, number: u8, octets: usize) -> Finding
        ensures { result ≡ first_failed (data2_tests direction self.now number octets) }
    {
        let own = self.own(direction);
        if own.phase.is_silent() {
            return Finding::Broke(Rule::UnknownReference);
        }
        if !own.phase.is_open() {
            return Finding::Broke(Rule::Closed);
        }
        if number != own.next {
            return Finding::Broke(Rule::OutOfSequence);
        }
        if !self.is_tellable(direction) {
            return Finding::Broke(Rule::OutOfSequence);
        }
        if !self.fits_tsdu(direction, octets) {
            return Finding::Broke(Rule::TsduTooLong);
        }
        if !self.has_credit(direction) {
            return Finding::Broke(Rule::NoCredit);
        }
        if !fits_size(self.size, DATA_2, octets) {
            return Finding::Broke(Rule::SizeExceeded);
        }
        Finding::Kept
    }

    /// DT of class 0 with so many octets of user data.
    pub(crate) fn data0(&self, direction: Direction, octets: usize) -> Finding
        ensures { result ≡ first_failed (data0_tests direction self.now octets) }
    {
        if !self.fits_tsdu(direction, octets) {
            return Finding::Broke(Rule::TsduTooLong);
        }
        if !fits_size(self.size, DATA_0, octets) {
            return Finding::Broke(Rule::SizeExceeded);
        }
        Finding::Kept
    }

    /// AK.
    pub(crate) fn acknowledge(&self, direction: Direction, number: u8, credit: u8) -> Finding
        ensures { result ≡ first_failed (acknowledge_tests direction self.now number credit) }
    {
        let phase = self.own(direction).phase;
        if phase.is_silent() {
            return Finding::Broke(Rule::UnknownReference);
        }
        if !phase.is_open() {
            return Finding::Broke(Rule::Closed);
        }
        if !self.has_passed(direction, number) {
            return Finding::Broke(Rule::OutOfSequence);
        }
        if !self.keeps_credit(direction, number, credit) {
            return Finding::Broke(Rule::CreditReduced);
        }
        Finding::Kept
    }

    /// DR.
    pub(crate) fn disconnect(&self, direction: Direction) -> Finding
        ensures { result ≡ first_failed (disconnect_tests direction self.now) }
    {
        let own = self.own(direction);
        if own.phase.is_silent() || own.phase.is_open() {
            return Finding::Kept;
        }
        Finding::Broke(Rule::Closed)
    }

    /// Whether a DC of this side, with this SRC-REF, answers a DR that closes the connection.
    fn is_due(&self, direction: Direction, source: u16) -> bool
        ensures { result ≡ is_due direction self.now source }
    {
        let own = self.own(direction);
        own.phase.is_open() && self.seen(direction).phase.is_closing() && source == own.reference
    }

    /// DC. `source`: its SRC-REF. `may_answer`: a DR has closed nothing, which this DC may answer.
    pub(crate) fn disconnected(
        &self,
        direction: Direction,
        source: u16,
        may_answer: bool,
    ) -> Finding
        ensures { result ≡ first_failed (disconnected_tests direction self.now source may_answer) }
    {
        if self.is_due(direction, source) {
            return Finding::Kept;
        }
        if may_answer {
            return Finding::NotJudged;
        }
        let answered = !self.own(direction).phase.is_silent();
        if !answered {
            return Finding::Broke(Rule::UnknownReference);
        }
        Finding::Broke(Rule::NothingToAnswer)
    }

    /// ER. `other_erred`: a unit of the other side has broken a rule, which this ER may answer.
    pub(crate) fn error(&self, direction: Direction, other_erred: bool) -> Finding
        ensures { result ≡ first_failed (error_tests direction other_erred self.now) }
    {
        if self.own(direction).phase.is_silent() {
            return Finding::Kept;
        }
        if other_erred {
            return Finding::NotJudged;
        }
        Finding::Broke(Rule::WrongForm)
    }
}
