//! The flow control of class 2 (X.224 section 6.16), at the sending and at the receiving side.

ghost use Rattle.std.specs.Prelude.{◌≡◌, ◌<◌, ◌≤◌, ◌+◌, ◌==◌, false, nat_lt, option_map, IfSome, IfNone};
ghost use Rattle.osi_class.specs.Limits.{credit_units};
ghost use Rattle.osi_class.specs.Flow.{fresh_sender, fresh_receiver, after_sent, acknowledged, is_awaited, after_taken, ack_number};
ghost use Rattle.osi_class.specs.Flow.{after_acked};
ghost use Rattle.osi_class.specs.Taking.{TakesUnit};

use crate::faults::LinkFault;
use crate::limits::Credit;
use osi_tpdu::Window;
use std::marker::Model;

/// How many numbers a data unit of class 2 may have (X.224 section 13.7.3).
const NUMBERS: u8 = 128;

/// The sending side of the flow control of class 2 (X.224 section 6.16).
#[derive(Drop)]
pub struct SendingFlow {
    /// The number of the next unit, 0 to 127.
    next: u8,
    /// How many units were sent and not yet acknowledged.
    unacknowledged: u8,
    /// How many units may be sent now.
    credit: u8,
}

impl Model for SendingFlow {
    ghost use Rattle.std.specs.Prelude.{◌<◌, ◌≤◌, ◌+◌};
    ghost use Rattle.osi_class.specs.Flow.{Sender};

    ghost Value = { Sender };

    ghost view = { λ s. record { next = s.next; unacknowledged = s.unacknowledged; credit = s.credit } };

    ghost invariant = { λ s. (s.next < 128) × (s.unacknowledged + s.credit ≤ 15) };
}

impl SendingFlow {
    /// Nothing was sent; the peer gave this first credit.
    pub fn new(credit: Credit) -> Self
        ensures { result ≡ fresh_sender (credit_units credit) }
    {
        SendingFlow {
            next: 0,
            unacknowledged: 0,
            credit: credit.units(),
        }
    }

    /// How many units may be sent now, 0 to 15 (X.224 section 6.16). Together with the unacknowledged units these are
    /// at most 15.
    pub fn credit(&self) -> u8
        ensures value { result ≡ self.now.credit }
        ensures next { self.now.next < 128 }
        ensures at_most { self.now.unacknowledged + self.now.credit ≤ 15 }
    {
        self.credit
    }

    /// Whether a unit may be sent now.
    pub fn has_credit(&self) -> bool
        ensures { result ≡ nat_lt 0 self.now.credit }
    {
        self.credit > 0
    }

    /// Counts a unit that is sent, and returns its number, 0 to 127.
    pub fn count_unit(&mut self) -> u8
        requires { 0 < self.old.credit }
        ensures number { result ≡ self.old.next }
        ensures in_range { result < 128 }
        ensures after { self.new ≡ after_sent self.old }
    {
        let number = self.next;
        self.next = (number + 1) % NUMBERS;
        self.unacknowledged += 1;
        self.credit -= 1;
        number
    }

    /// Takes an AK with this number, 0 to 127, and credit, 0 to 15.
    pub fn acknowledge(&mut self, number: u8, credit: u8) -> Result<(), LinkFault>
        requires number { number < 128 }
        requires credit { credit ≤ 15 }
        ensures { TakesUnit result false (acknowledged self.old number credit) self.old self.new }
    {
        let left = (self.next + NUMBERS - number) % NUMBERS;
        if left > self.unacknowledged {
            return Err(LinkFault::OutOfSequence);
        }
        if credit < self.credit + left {
            return Err(LinkFault::CreditReduced);
        }
        self.unacknowledged = left;
        self.credit = credit - left;
        Ok(())
    }
}

/// The receiving side of the flow control of class 2 (X.224 section 6.16).
///
/// Acks that are due are only counted: their numbers follow one another up to the expected number, and each has the
/// whole window as its credit. So there is always room for one more.
#[derive(Drop)]
pub struct ReceivingFlow {
    window: Window,
    /// The number expected next, 0 to 127.
    expected: u8,
    /// How many Acks are due, at most the window.
    waiting: u8,
}

impl Model for ReceivingFlow {
    ghost use Rattle.std.specs.Prelude.{◌<◌, ◌≤◌};
    ghost use Rattle.osi_tpdu.specs.Limits.{window_units};
    ghost use Rattle.osi_class.specs.Flow.{Receiver};

    ghost Value = { Receiver };

    ghost view = { λ r. record { window = window_units r.window; expected = r.expected; waiting = r.waiting } };

    ghost invariant = { λ r. (r.expected < 128) × (r.waiting ≤ window_units r.window) };
}

impl ReceivingFlow {
    ghost use Rattle.std.specs.Prelude.{◌≡◌, ◌<◌, ◌≤◌, true, false, nat_lt, IfSome, IfNone};
    ghost use Rattle.osi_tpdu.specs.Limits.{window_units};
    ghost use Rattle.osi_class.specs.Flow.{fresh_receiver, is_awaited, after_taken, ack_number, after_acked};

    /// Nothing was taken; this is the window.
    pub fn new(window: Window) -> Self
        ensures { result ≡ fresh_receiver (window_units window) }
    {
        ReceivingFlow {
            window,
            expected: 0,
            waiting: 0,
        }
    }

    /// The credit of each Ack, 1 to 15. At most this many Acks are due.
    pub fn window(&self) -> u8
        ensures value { result ≡ self.now.window }
        ensures at_least { 1 ≤ result }
        ensures at_most { result ≤ 15 }
        ensures expected { self.now.expected < 128 }
        ensures waiting { self.now.waiting ≤ self.now.window }
    {
        self.window.units()
    }

    /// The state after the unit with this number is taken: one more Ack is due. `None` if the unit is not expected, or
    /// beyond the window.
    #[inline(always)]
    pub fn after(&self, number: u8) -> Option<ReceivingFlow>
        ensures awaited { IfSome result (λ after. (is_awaited self.now number ≡ true) × (after ≡ after_taken self.now)) }
        ensures refused { IfNone result (is_awaited self.now number ≡ false) }
    {
        if number != self.expected || self.waiting >= self.window.units() {
            return None;
        }
        Some(ReceivingFlow {
            window: self.window,
            expected: (self.expected + 1) % NUMBERS,
            waiting: self.waiting + 1,
        })
    }

    /// Whether an Ack is due.
    #[inline(always)]
    pub fn has_ack(&self) -> bool
        ensures { result ≡ nat_lt 0 self.now.waiting }
    {
        self.waiting > 0
    }

    /// The number of the next Ack, 0 to 127, which is then no longer due; `None` if no Ack is due.
    pub fn next_ack(&mut self) -> Option<u8>
        ensures number { IfSome result (λ number. (0 < self.old.waiting) × (number ≡ ack_number self.old) × (self.new
            ≡ after_acked self.old)) }
        ensures in_range { IfSome result (λ number. number < 128) }
        ensures none { IfNone result ((self.old.waiting ≡ 0) × (self.new ≡ self.old)) }
    {
        if self.waiting == 0 {
            return None;
        }
        self.waiting -= 1;
        Some((self.expected + NUMBERS - self.waiting) % NUMBERS)
    }
}
