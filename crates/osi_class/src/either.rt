//! A link of either class.

use crate::class_two::Class2;
use crate::class_zero::Class0;
use crate::faults::LinkFault;
use crate::handing::Handed;
use crate::links::Link;
use crate::units::{Out, Room, Slot};
use osi_tpdu::Tpdu;
use std::alloc::AllocError;

/// A link of the class that was selected.
#[derive(Drop)]
pub enum AnyLink {
    /// Of class 0.
    Zero(Class0),
    /// Of class 2.
    Two(Class2),
}

impl Link for AnyLink {
    ghost use Rattle.osi_class.specs.AnyLink.{any_standing};

    ghost standing = { any_standing };

    fn send_tsdu(&mut self, tsdu: &[u8]) -> Result<(), AllocError> {
        match self {
            AnyLink::Zero(link) => link.send_tsdu(tsdu),
            AnyLink::Two(link) => link.send_tsdu(tsdu),
        }
    }

    fn send_tsdus(&mut self, tsdus: &[Vec<u8>]) -> Result<(), AllocError> {
        match self {
            AnyLink::Zero(link) => link.send_tsdus(tsdus),
            AnyLink::Two(link) => link.send_tsdus(tsdus),
        }
    }

    fn send_owned(&mut self, tsdu: Vec<u8>) -> Result<(), AllocError> {
        match self {
            AnyLink::Zero(link) => link.send_owned(tsdu),
            AnyLink::Two(link) => link.send_owned(tsdu),
        }
    }

    fn send_owned_tsdus(&mut self, tsdus: Vec<Vec<u8>>) -> Result<(), AllocError> {
        match self {
            AnyLink::Zero(link) => link.send_owned_tsdus(tsdus),
            AnyLink::Two(link) => link.send_owned_tsdus(tsdus),
        }
    }

    #[inline(always)]
    fn give_slot(&mut self) -> Option<Slot> {
        match self {
            AnyLink::Zero(link) => link.give_slot(),
            AnyLink::Two(link) => link.give_slot(),
        }
    }

    #[inline(always)]
    fn take(&mut self, unit: &Tpdu<'_>) -> Result<(), LinkFault> {
        match self {
            AnyLink::Zero(link) => link.take(unit),
            AnyLink::Two(link) => link.take(unit),
        }
    }

    #[inline(always)]
    fn receive(&mut self, unit: &Tpdu<'_>) -> Result<Handed, LinkFault> {
        match self {
            AnyLink::Zero(link) => link.receive(unit),
            AnyLink::Two(link) => link.receive(unit),
        }
    }

    #[inline(always)]
    fn next_out(&mut self) -> Option<Out<'_>> {
        match self {
            AnyLink::Zero(link) => link.next_out(),
            AnyLink::Two(link) => link.next_out(),
        }
    }

    #[inline(always)]
    fn next_tsdu(&mut self) -> Option<Vec<u8>> {
        match self {
            AnyLink::Zero(link) => link.whole.pop(),
            AnyLink::Two(link) => link.whole.pop(),
        }
    }

    #[inline(always)]
    fn limit(&self) -> usize {
        match self {
            AnyLink::Zero(link) => link.limit(),
            AnyLink::Two(link) => link.limit(),
        }
    }

    fn begun_octets(&self) -> usize {
        match self {
            AnyLink::Zero(link) => link.begun_octets(),
            AnyLink::Two(link) => link.begun_octets(),
        }
    }

    fn unsent(&self) -> usize {
        match self {
            AnyLink::Zero(link) => link.unsent(),
            AnyLink::Two(link) => link.unsent(),
        }
    }

    fn room_for(&self, octets: usize) -> Room {
        match self {
            AnyLink::Zero(link) => link.room_for(octets),
            AnyLink::Two(link) => link.room_for(octets),
        }
    }

    fn room_for_all(&self, tsdus: &[Vec<u8>], headers: u8) -> Option<usize> {
        match self {
            AnyLink::Zero(link) => link.room_for_all(tsdus, headers),
            AnyLink::Two(link) => link.room_for_all(tsdus, headers),
        }
    }

    fn gives_all(&self, tsdus: &[Vec<u8>]) -> bool {
        match self {
            AnyLink::Zero(link) => link.gives_all(tsdus),
            AnyLink::Two(link) => link.gives_all(tsdus),
        }
    }
}
