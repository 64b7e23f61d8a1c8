//! The addresses of a connection, for C.

ghost use Rattle.std.specs.Prelude.{◌≡◌, ◌≤◌, [], None, Some, length, option_map, unwrap_or};
ghost use Rattle.osi_tpdu.specs.Limits.{tsap_octets};
ghost use Rattle.osi_stack.specs.Addresses.{addresses as known_by};
ghost use Rattle.osi_stack.specs.Selectors.{session_selector};
ghost use Rattle.osi_c.specs.Addressed.{tsap_told, selector_told, told, addresses, asks};
ghost use Rattle.osi_c.specs.Codes.{fetched_of};

use crate::codes::{CLOSED, NOTHING, OK};
use crate::slots::OsiEnd;
use osi_carrier::Ref;
use osi_stack::{Addresses, SessionSelector};
use osi_tpdu::Tsap;

/// A transport address: the first `length` octets, followed by zeros. Length 0 means that there is no address.
#[repr(C)]
#[derive(Clone, Copy)]
pub struct OsiTsap {
    pub octets: [u8; 32],
    pub length: u8,
}

/// A session address, in the same form.
#[repr(C)]
#[derive(Clone, Copy)]
pub struct OsiSelector {
    pub octets: [u8; 16],
    pub length: u8,
}

/// The addresses of a connection.
#[repr(C)]
#[derive(Clone, Copy)]
pub struct OsiAddressing {
    pub calling_tsap: OsiTsap,
    pub called_tsap: OsiTsap,
    pub calling_selector: OsiSelector,
    pub called_selector: OsiSelector,
}

fn tsap(address: &[u8]) -> OsiTsap
    requires { length address.now ≤ 32 }
    ensures { result ≡ tsap_told address.now }
{
    let length = address.len();
    let mut octets = [0; 32];
    octets[..length].copy_from_slice(address);
    OsiTsap {
        octets,
        length: length as u8,
    }
}

fn tsap_or_none(address: &Option<Tsap>) -> OsiTsap
    ensures { result ≡ tsap_told (unwrap_or (option_map tsap_octets address.now) []) }
{
    match address {
        None => tsap(&[]),
        Some(address) => tsap(address.octets()),
    }
}

fn selector(address: &[u8]) -> OsiSelector
    requires { length address.now ≤ 16 }
    ensures { result ≡ selector_told address.now }
{
    let length = address.len();
    let mut octets = [0; 16];
    octets[..length].copy_from_slice(address);
    OsiSelector {
        octets,
        length: length as u8,
    }
}

fn selector_or_none(address: &Option<SessionSelector>) -> OsiSelector
    ensures { result ≡ selector_told (unwrap_or (option_map session_selector address.now) []) }
{
    match address {
        None => selector(&[]),
        Some(address) => selector(address.octets()),
    }
}

/// No address.
fn none() -> OsiAddressing
    ensures { result ≡ told None }
{
    OsiAddressing {
        calling_tsap: tsap(&[]),
        called_tsap: tsap(&[]),
        calling_selector: selector(&[]),
        called_selector: selector(&[]),
    }
}

/// The known addresses.
fn tell(known: &Addresses) -> OsiAddressing
    ensures { result ≡ told (Some (known_by known.now)) }
{
    OsiAddressing {
        calling_tsap: tsap_or_none(&known.calling_tsap),
        called_tsap: tsap_or_none(&known.called_tsap),
        calling_selector: selector_or_none(&known.calling_selector),
        called_selector: selector_or_none(&known.called_selector),
    }
}

/// The addresses of a connection, if there are any.
#[unsafe(no_mangle)]
pub extern "C" fn osi_addresses(end: &mut OsiEnd, reference: u16, shown: &mut OsiAddressing) -> u32
    ensures code { fetched_of result ≡ Some (asks reference end.old.inner.value) }
    ensures value { shown.new ≡ told (addresses reference end.old.inner.value) }
    ensures same { end.new.inner.value ≡ end.old.inner.value }
{
    *shown = none();
    if !end.full {
        return CLOSED;
    }
    match end.get_mut().stack.addresses(Ref(reference)) {
        None => NOTHING,
        Some(known) => {
            *shown = tell(&known);
            OK
        }
    }
}
