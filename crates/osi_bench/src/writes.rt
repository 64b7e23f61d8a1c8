//! Writing the units of a TSDU repeatedly.

use bytes::BytesMut;
use osi_spdu::{read_tsdu, write_tsdu};
use std::alloc::Global;

/// Reads a TSDU, and writes its units this many times into the same buffer; a checksum of the octets.
pub(crate) fn written(alloc: Global, tsdu: &[u8], rounds: usize) -> Option<u64> {
    let group = read_tsdu(tsdu).ok()?;
    let mut out = BytesMut::new(alloc);
    let mut sum = 1u64;
    for _ in 0..rounds {
        out.clear();
        write_tsdu(&group, &mut out).ok()?;
        let last = out.as_slice().last()?;
        sum = sum
            .wrapping_mul(31)
            .wrapping_add(out.len() as u64)
            .wrapping_add(u64::from(*last));
    }
    Some(sum)
}
