//! Round trips of units for the programs of `trials/`, as C functions over octets: each reads units, writes them and
//! reads them again. Each returns 0 if the octets are refused, 1 if everything came back unchanged, 2 if something did
//! not, and 3 if memory ran out.

ghost use Rattle.osi_tpdu.specs.View.{value};
ghost use Rattle.osi_tpdu.specs.Writing.{HasRoom};

use bytes::BytesMut;
use osi_spdu::{read_tsdu, write_tsdu};
use osi_tpdu::{Tpdu, read_units, write};
use std::alloc::{AllocError, Global};

const REFUSED: u32 = 0;

const ITSELF: u32 = 1;

const ANOTHER: u32 = 2;

const NO_MEMORY: u32 = 3;

/// Whether a transport unit that is written and read again comes back unchanged, with nothing after it.
fn comes_back(alloc: Global, unit: &Tpdu<'_>) -> Result<bool, AllocError>
    requires { HasRoom (value unit.now) }
{
    let mut out = BytesMut::new(alloc);
    write(unit, &mut out)?;
    let Ok(mut units) = read_units(out.as_slice()) else {
        return Ok(false);
    };
    let Some(again) = units.next() else {
        return Ok(false);
    };
    Ok(again == *unit && units.next().is_none())
}

/// Reads the transport units of a packet (X.224 section 13).
#[unsafe(no_mangle)]
pub extern "C" fn osi_trial_units(alloc: Global, packet: &[u8]) -> u32 {
    let Ok(units) = read_units(packet) else {
        return REFUSED;
    };
    'units: for unit in units {
        match comes_back(alloc, &unit) {
            Ok(true) => {}
            Ok(false) => return ANOTHER,
            Err(_) => return NO_MEMORY,
        }
    }
    ITSELF
}

/// Whether the units of a TSDU that are written and read again have the same written form.
fn group_comes_back(alloc: Global, tsdu: &[u8]) -> Result<u32, AllocError> {
    let Ok(group) = read_tsdu(tsdu) else {
        return Ok(REFUSED);
    };
    let mut once = BytesMut::new(alloc);
    write_tsdu(&group, &mut once)?;
    let Ok(again) = read_tsdu(once.as_slice()) else {
        return Ok(ANOTHER);
    };
    let mut twice = BytesMut::new(alloc);
    write_tsdu(&again, &mut twice)?;
    if once.as_slice() != twice.as_slice() {
        return Ok(ANOTHER);
    }
    Ok(ITSELF)
}

/// Reads the session units of a TSDU (X.225 section 8).
#[unsafe(no_mangle)]
pub extern "C" fn osi_trial_tsdu(alloc: Global, tsdu: &[u8]) -> u32 {
    match group_comes_back(alloc, tsdu) {
        Ok(found) => found,
        Err(_) => NO_MEMORY,
    }
}
