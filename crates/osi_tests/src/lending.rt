//! TSDUs that carriers lend from the piece of the stream in which they lie, and those that they give as events.

use crate::carriers::{OPEN_IN_CLASS_0, OPEN_IN_CLASS_2, Step, Told, caller_does};
use std::test::Fail;

/// A TSDU in one DT is lent. One in two DTs is an event, and so is one whose packet is cut over two pieces.
static LENT_IN_CLASS_0: [Step; 7] = [
    Step::Lend(&[3, 0, 0, 8, 2, 0xF0, 0x80, 0x41], Some(b"A")),
    Step::Lend(&[3, 0, 0, 8, 2, 0xF0, 0x00, 0x42], None),
    Step::Lend(&[3, 0, 0, 8, 2, 0xF0, 0x80, 0x43], None),
    Step::Tell(Told::Tsdu(b"BC")),
    Step::Lend(&[3, 0, 0, 8, 2], None),
    Step::Lend(&[0xF0, 0x80, 0x44], None),
    Step::Tell(Told::Tsdu(b"D")),
];

#[test]
fn a_tsdu_in_one_unit_is_lent_in_class_0(rt: HostRuntime) -> Result<(), Fail> {
    caller_does(&rt, &OPEN_IN_CLASS_0, &LENT_IN_CLASS_0)
}

/// The same, with an AK for each DT.
static LENT_IN_CLASS_2: [Step; 9] = [
    Step::Lend(&[3, 0, 0, 0x0A, 4, 0xF0, 0, 1, 0x80, 0x41], Some(b"A")),
    Step::Write(&[3, 0, 0, 9, 4, 0x64, 0, 1, 1]),
    Step::Lend(&[3, 0, 0, 0x0A, 4, 0xF0, 0, 1, 0x01, 0x42], None),
    Step::Lend(&[3, 0, 0, 0x0A, 4, 0xF0, 0, 1, 0x82, 0x43], None),
    Step::Tell(Told::Tsdu(b"BC")),
    Step::Carry,
    Step::Lend(&[3, 0, 0, 0x0A, 4, 0xF0, 0], None),
    Step::Lend(&[1, 0x83, 0x44], None),
    Step::Tell(Told::Tsdu(b"D")),
];

#[test]
fn a_tsdu_in_one_unit_is_lent_in_class_2(rt: HostRuntime) -> Result<(), Fail> {
    caller_does(&rt, &OPEN_IN_CLASS_2, &LENT_IN_CLASS_2)
}
