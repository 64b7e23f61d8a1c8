//! A checksum of the session units of a TSDU.

use crate::units::Sum;
use osi_spdu::{Serial, Spdu, SpduFault, read_tsdu};

impl Sum {
    fn with_serial(self, weight: u64, serial: Option<Serial>) -> Self {
        match serial {
            Some(serial) => self.with(weight, u64::from(serial.number).wrapping_add(1)),
            None => self,
        }
    }

    // With one more unit. The order of units counts too.
    fn with_spdu(self, unit: &Spdu<'_>) -> Self {
        let params = unit.params();
        self.later()
            .with(1, u64::from(unit.kind().si()))
            .with(3, unit.information().len() as u64)
            .with_serial(5, params.number())
            .with_serial(7, params.initial_number())
    }

    // With a TSDU that holds no units because of this fault.
    fn with_spdu_fault(self, fault: SpduFault) -> Self {
        let (kind, at) = match fault {
            SpduFault::UnknownSi(at) => (101, at),
            SpduFault::LengthPastEnd(at) => (102, at),
            SpduFault::MissingParameter(_, at) => (103, at),
            SpduFault::DuplicateParameter(_, at) => (104, at),
            SpduFault::BadValue(_, at) => (105, at),
            SpduFault::BadConcatenation(at) => (106, at),
            SpduFault::TrailingOctets(at) => (107, at),
        };
        self.later().with(1, kind).with(53, at as u64)
    }

    /// With the units of one more TSDU.
    pub(crate) fn with_tsdu(self, tsdu: &[u8]) -> Self {
        let group = match read_tsdu(tsdu) {
            Ok(group) => group,
            Err(fault) => return self.with_spdu_fault(fault),
        };
        let mut sum = self.with_spdu(group.first());
        let mut behind = group.behind();
        'units: while let Some(unit) = behind.next() {
            sum = sum.with_spdu(&unit);
        }
        sum
    }
}
