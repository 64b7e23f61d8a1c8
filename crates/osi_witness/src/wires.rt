//! What a side has sent on the current connection, found from the octets as they leave its end.

use osi_tpdu::{Tpdu, read_units};
use osi_tpkt::{Packet, Unit};
use std::alloc::{AllocError, Global};

/// The end of a TSDU that left an end.
#[derive(Clone, Copy)]
struct End {
    /// The octet of its direction after it.
    octet: usize,
    /// How many octets of user data its connection had sent by then.
    user: usize,
}

/// What a side has sent.
#[derive(Drop)]
pub(crate) struct Wire {
    /// How many octets of it were carried.
    carried: usize,
    /// How many octets of it were looked at, and how many octets of user data these have on the current connection.
    seen: usize,
    user: usize,
    /// Where the TSDUs end that left on the current connection.
    ends: Vec<End>,
    /// For each TSDU of the capture that its user has sent on it: how many octets of user data it sends up to its end. Those of TSDUs
    /// that wait for credit are counted.
    marks: Vec<usize>,
}

/// The transport units of a packet that is the first of these octets, and how many octets it has.
fn first_packet(octets: &[u8]) -> Option<(&[u8], usize)> {
    match Packet::read(octets) {
        Ok(Some((packet, used))) => Some((packet.unit(), used)),
        _ => None,
    }
}

/// How much user data a packet with these transport units has on the connection with this reference, and whether it ends a TSDU.
fn data_in(packet: &[u8], reference: u16) -> (usize, bool) {
    let Ok(units) = read_units(packet) else {
        return (0, false);
    };
    let mut user = 0usize;
    let mut ends = false;
    'units: for unit in units {
        match unit {
            Tpdu::Dt0(data) => {
                user = user.saturating_add(data.user.len());
                ends = ends || data.end;
            }
            Tpdu::Dt2(data) if data.destination == reference => {
                user = user.saturating_add(data.user.len());
                ends = ends || data.end;
            }
            _ => (),
        }
    }
    (user, ends)
}

/// Whether a packet with these transport units has only acknowledgements, and what closes a connection.
fn is_quiet(packet: &[u8]) -> bool {
    let Ok(units) = read_units(packet) else {
        return false;
    };
    'units: for unit in units {
        match unit {
            Tpdu::Ak(_) | Tpdu::Dr(_) | Tpdu::Dc(_) => (),
            _ => return false,
        }
    }
    true
}

/// How many of these octets come before the first packet that is not quiet.
fn quiet_octets(octets: &[u8]) -> usize {
    let mut rest = octets;
    'packets: for _ in 0..octets.len() {
        match first_packet(rest) {
            Some((packet, used)) if is_quiet(packet) => {
                rest = rest.get(used..).unwrap_or_default();
            }
            _ => break,
        }
    }
    octets.len().saturating_sub(rest.len())
}

impl Wire {
    pub(crate) fn new(alloc: Global) -> Wire {
        Wire {
            carried: 0,
            seen: 0,
            user: 0,
            ends: Vec::new(alloc),
            marks: Vec::new(alloc),
        }
    }

    /// Another connection begins.
    pub(crate) fn begin(&mut self) {
        self.user = 0;
        self.ends.clear();
        self.marks.clear();
    }

    /// How many octets were carried.
    pub(crate) fn carried(&self) -> usize {
        self.carried
    }

    /// All octets before this one were carried.
    pub(crate) fn carry(&mut self, end: usize) {
        self.carried = end;
    }

    /// Looks at those of the octets that are to be carried that were not looked at before.
    pub(crate) fn look(&mut self, outgoing: &[u8], reference: u16) -> Result<(), AllocError> {
        let from = self.seen.saturating_sub(self.carried);
        let mut rest = outgoing.get(from..).unwrap_or_default();
        'packets: for _ in 0..outgoing.len() {
            let Some((packet, used)) = first_packet(rest) else {
                break;
            };
            rest = rest.get(used..).unwrap_or_default();
            self.seen = self.seen.saturating_add(used);
            let (user, ends) = data_in(packet, reference);
            self.add(user, ends)?;
        }
        Ok(())
    }

    /// A packet has so much user data, and ends a TSDU or not.
    fn add(&mut self, user: usize, ends: bool) -> Result<(), AllocError> {
        self.user = self.user.saturating_add(user);
        if ends {
            self.ends.push(End {
                octet: self.seen,
                user: self.user,
            })?;
        }
        Ok(())
    }

    /// How many octets of user data have left on the current connection.
    pub(crate) fn user(&self) -> usize {
        self.user
    }

    /// How many TSDUs of the capture its user has sent.
    pub(crate) fn tsdus(&self) -> usize {
        self.marks.len()
    }

    /// Another TSDU of the capture ends after so many octets of user data.
    pub(crate) fn mark(&mut self, user: usize) -> Result<(), AllocError> {
        self.marks.push(user)?;
        Ok(())
    }

    /// Whether so many TSDUs of the capture have left the end.
    pub(crate) fn has_left(&self, count: usize) -> bool {
        match self.marks.get(count.saturating_sub(1)) {
            Some(mark) => count == 0 || *mark <= self.user,
            None => count == 0,
        }
    }

    /// The octet at which so many TSDUs of the capture end, of what has left; where the one before ends, if the end cut its user data
    /// in another way.
    pub(crate) fn end_of(&self, count: usize) -> usize {
        let mark = match count.checked_sub(1) {
            Some(last) => self.marks.get(last).copied().unwrap_or(usize::MAX),
            None => 0,
        };
        match self.ends.iter().rev().find(|end| end.user <= mark) {
            Some(end) => end.octet,
            None => 0,
        }
    }

    /// The octet before the next CR, CC or DT that comes at this octet or after it.
    pub(crate) fn quiet_from(&self, octet: usize, outgoing: &[u8]) -> usize {
        let from = octet.max(self.carried);
        let rest = outgoing
            .get(from.saturating_sub(self.carried)..)
            .unwrap_or_default();
        from.saturating_add(quiet_octets(rest))
    }
}
