//! Cutting and writing packets.

use crate::checks::{Checks, OUT_OF_MEMORY};
use bytes::BytesMut;
use osi_tpkt::*;
use std::alloc::AllocError;
use std::test::Fail;

fn feed(cutter: &mut Cutter, piece: &[u8]) -> Result<Fed, TpktFault> {
    cutter.feed(piece)
}

/// The answer to a piece. If memory runs out, this must have changed nothing, and the piece is fed again.
fn fed(cutter: &mut Cutter, piece: &[u8], checks: &Checks) -> Result<Fed, TpktFault> {
    let before = cutter.rest_len();
    let answer = feed(cutter, piece);
    if answer != Err(TpktFault::OutOfMemory) {
        return answer;
    }
    checks.that(
        cutter.rest_len() == before,
        "want of memory has changed the cutter",
    );
    feed(cutter, piece)
}

/// A cutter uses this many octets of a piece, and then a packet is ready or not.
fn uses(cutter: &mut Cutter, piece: &[u8], wanted: Fed, checks: &Checks) {
    let answer = fed(cutter, piece, checks);
    checks.that(answer != Err(TpktFault::OutOfMemory), OUT_OF_MEMORY);
    checks.that(answer == Ok(wanted), "another answer to a piece");
}

/// A connect request of 22 octets, of which 18 are the transport unit.
static CONNECT_REQUEST: [u8; 22] = [
    0x03, 0x00, 0x00, 0x16, 0x11, 0xe0, 0x00, 0x00, 0x00, 0x01, 0x00, 0xc0, 0x01, 0x0a, 0xc1, 0x02,
    0x01, 0x00, 0xc2, 0x02, 0x01, 0x02,
];

/// The packet is ready, header and transport unit.
fn has_request(cutter: &Cutter, checks: &Checks) {
    checks.that(
        cutter.rest_len() == CONNECT_REQUEST.len(),
        "a packet of another length",
    );
    checks.that(
        cutter.packet() == Some(&CONNECT_REQUEST[4..]),
        "another packet",
    );
}

/// The packet arrives octet by octet.
fn comes_slowly(cutter: &mut Cutter, checks: &Checks) {
    for octet in &CONNECT_REQUEST[..21] {
        uses(
            cutter,
            &[*octet],
            Fed {
                used: 1,
                whole: false,
            },
            checks,
        );
    }
    uses(
        cutter,
        &CONNECT_REQUEST[21..],
        Fed {
            used: 1,
            whole: true,
        },
        checks,
    );
    has_request(cutter, checks);
}

fn two_come_slowly(cutter: &mut Cutter, checks: &Checks) {
    comes_slowly(cutter, checks);
    cutter.advance();
    comes_slowly(cutter, checks);
}

#[test]
fn octets_come_one_by_one(rt: HostRuntime) -> Result<(), Fail> {
    let checks = Checks::new();
    two_come_slowly(&mut Cutter::new(rt.alloc()), &checks);
    checks.end()
}

/// The length of the unit of any grammar at the front, if it is complete.
fn octets_read<'a, U: Unit<'a>>(octets: &'a [u8]) -> Option<usize> {
    match U::read(octets) {
        Ok(Some((_, used))) => Some(used),
        Ok(None) | Err(_) => None,
    }
}

/// Whether a unit of any grammar has this written form.
pub(crate) fn is_appended<'a, U: Unit<'a>>(
    unit: &U,
    octets: &[u8],
    out: &mut BytesMut,
) -> Result<bool, AllocError>
    requires { U.fits (U.value unit.now) }
{
    unit.write(out)?;
    Ok(unit.written_len() == octets.len() && out.as_slice() == octets)
}

/// The connect request is read and written.
fn is_written_again(out: &mut BytesMut, checks: &Checks) {
    match Packet::read(&CONNECT_REQUEST) {
        Ok(Some((packet, _))) => checks.made(
            is_appended(&packet, &CONNECT_REQUEST, out),
            "another written form",
        ),
        Ok(None) | Err(_) => checks.that(false, "no packet"),
    }
}

#[test]
fn a_packet_is_read_and_written(rt: HostRuntime) -> Result<(), Fail> {
    let checks = Checks::new();
    checks.that(
        octets_read::<Packet>(&CONNECT_REQUEST) == Some(22),
        "another length",
    );
    is_written_again(&mut BytesMut::new(rt.alloc()), &checks);
    checks.end()
}

/// Octets are a proper prefix of a packet.
fn is_cut(octets: &[u8]) -> bool {
    match Packet::read(octets) {
        Ok(None) => true,
        Ok(Some(_)) | Err(_) => false,
    }
}

fn has_fault(octets: &[u8], fault: TpktFault) -> bool {
    match Packet::read(octets) {
        Ok(_) => false,
        Err(found) => found == fault,
    }
}

#[test]
fn a_packet_is_cut_or_has_a_fault(rt: HostRuntime) {
    assert!(rt; is_cut(&CONNECT_REQUEST[..21]));
    assert!(rt; has_fault(&[3, 0, 0, 6], TpktFault::BadLength(0)));
}

/// A unit of this size fits no packet, and nothing is written.
fn has_a_bad_size(out: &mut BytesMut, unit: &[u8], checks: &Checks) {
    checks.that(
        write_packet(out, unit) == Err(WriteError::BadSize),
        "the size is not bad",
    );
    checks.that(out.is_empty(), "octets are written");
}

fn is_the_longest_packet(out: &mut BytesMut, unit: &[u8], checks: &Checks) {
    let answer = write_packet(out, unit);
    checks.that(answer != Err(WriteError::OutOfMemory), OUT_OF_MEMORY);
    checks.that(answer == Ok(()), "a packet is not written");
    checks.that(out.len() == 65_535, "a packet of another length");
    checks.that(
        out.as_slice().starts_with(&[3, 0, 0xff, 0xff, 7, 7]),
        "another packet",
    );
}

fn sizes_go_on(out: &mut BytesMut, checks: &Checks) {
    has_a_bad_size(out, &[7; 2], checks);
    has_a_bad_size(out, &[7; 65_532], checks);
    is_the_longest_packet(out, &[7; 65_531], checks);
}

#[test]
fn a_packet_carries_3_to_65531_octets(rt: HostRuntime) -> Result<(), Fail> {
    let checks = Checks::new();
    sizes_go_on(&mut BytesMut::new(rt.alloc()), &checks);
    checks.end()
}
