//! A checksum of the units of packets.

use osi_tpdu::{
    ConnectConfirm, ConnectFields, ConnectParameters, ConnectRequest, DataAcknowledgement,
    DataClass0, DataClass2, DisconnectConfirm, DisconnectRequest, ErrorReport, Selector, Tpdu,
    TpduFault, read_units,
};

/// A checksum modulo 2^64: the sum of fields, each with a weight of its own.
#[derive(Clone, Copy)]
pub(crate) struct Sum(u64);

impl Sum {
    /// Nothing was seen.
    pub(crate) fn zero() -> Self {
        Sum(0)
    }

    /// The checksum.
    pub(crate) fn number(self) -> u64 {
        self.0
    }

    /// Before one more unit: earlier units get another weight, so that the order counts.
    pub(crate) fn later(self) -> Self {
        Sum(self.0.wrapping_mul(31))
    }

    /// With one more field.
    pub(crate) fn with(self, weight: u64, field: u64) -> Self {
        Sum(self.0.wrapping_add(weight.wrapping_mul(field)))
    }

    // With a length, if there is one.
    fn with_length(self, weight: u64, octets: Option<&[u8]>) -> Self {
        match octets {
            Some(octets) => self.with(weight, (octets.len() as u64).wrapping_add(1)),
            None => self,
        }
    }

    fn with_selector(self, weight: u64, selector: Option<Selector<'_>>) -> Self {
        match selector {
            Some(selector) => self.with_length(weight, Some(selector.octets())),
            None => self,
        }
    }

    fn with_parameters(self, p: ConnectParameters<'_>) -> Self {
        let sized = match p.size() {
            Some(size) => self.with(31, u64::from(size.code())),
            None => self,
        };
        let with_options = match p.additional_options() {
            Some(options) => sized.with(37, u64::from(options).wrapping_add(1)),
            None => sized,
        };
        with_options
            .with_selector(41, p.calling())
            .with_selector(43, p.called())
            .with_length(47, p.alternative_classes())
    }

    fn with_fields(self, f: &ConnectFields<'_>) -> Self {
        self.with(3, f.user().len() as u64)
            .with(7, u64::from(f.source()))
            .with(11, u64::from(f.credit()))
            .with(13, u64::from(f.class()))
            .with(17, u64::from(f.options()))
            .with_parameters(f.parameters())
    }

    fn with_request(self, r: &ConnectRequest<'_>) -> Self {
        self.with(1, 1).with_fields(r.fields())
    }

    fn with_confirm(self, c: &ConnectConfirm<'_>) -> Self {
        self.with(1, 2)
            .with(5, u64::from(c.destination()))
            .with_fields(c.fields())
    }

    fn with_disconnect(self, d: &DisconnectRequest<'_>) -> Self {
        self.with(1, 3)
            .with(3, d.user().len() as u64)
            .with(5, u64::from(d.destination()))
            .with(7, u64::from(d.source()))
            .with(19, u64::from(d.reason()))
    }

    fn with_disconnected(self, d: DisconnectConfirm) -> Self {
        self.with(1, 4)
            .with(5, u64::from(d.destination()))
            .with(7, u64::from(d.source()))
    }

    fn with_data0(self, d: &DataClass0<'_>) -> Self {
        self.with(1, 5)
            .with(3, d.user().len() as u64)
            .with(23, u64::from(d.end()))
    }

    fn with_data2(self, d: &DataClass2<'_>) -> Self {
        self.with(1, 6)
            .with(3, d.user().len() as u64)
            .with(5, u64::from(d.destination()))
            .with(23, u64::from(d.end()))
            .with(29, u64::from(d.number()))
    }

    fn with_acknowledge(self, a: DataAcknowledgement) -> Self {
        self.with(1, 7)
            .with(5, u64::from(a.destination()))
            .with(11, u64::from(a.credit()))
            .with(29, u64::from(a.number()))
    }

    fn with_error(self, e: ErrorReport) -> Self {
        self.with(1, 8)
            .with(5, u64::from(e.destination()))
            .with(19, u64::from(e.cause()))
    }

    // With one more unit. The order of units counts too.
    fn with_unit(self, unit: &Tpdu<'_>) -> Self {
        let before = self.later();
        match unit {
            Tpdu::Cr(r) => before.with_request(r),
            Tpdu::Cc(c) => before.with_confirm(c),
            Tpdu::Dr(d) => before.with_disconnect(d),
            Tpdu::Dc(d) => before.with_disconnected(*d),
            Tpdu::Dt0(d) => before.with_data0(d),
            Tpdu::Dt2(d) => before.with_data2(d),
            Tpdu::Ak(a) => before.with_acknowledge(*a),
            Tpdu::Er(e) => before.with_error(*e),
        }
    }

    // With a packet that holds no units because of this fault.
    fn with_fault(self, fault: TpduFault) -> Self {
        let (kind, at) = match fault {
            TpduFault::BadLi(at) => (101, at),
            TpduFault::UnknownCode(at) => (102, at),
            TpduFault::BadParameterLength(at) => (103, at),
            TpduFault::BadParameterValue(at) => (104, at),
            TpduFault::DuplicateParameter(at) => (105, at),
        };
        self.later().with(1, kind).with(53, at as u64)
    }

    // With the units of a packet that is not one DT.
    fn with_units(self, packet: &[u8]) -> Self {
        let units = match read_units(packet) {
            Ok(units) => units,
            Err(fault) => return self.with_fault(fault),
        };
        let mut sum = self;
        for unit in units {
            sum = sum.with_unit(&unit);
        }
        sum
    }

    /// With the units of one more packet.
    pub(crate) fn with_packet(self, packet: &[u8]) -> Self {
        if let Some(data) = DataClass0::from_packet(packet) {
            return self.later().with_data0(&data);
        }
        if let Some(data) = DataClass2::from_packet(packet) {
            return self.later().with_data2(&data);
        }
        self.with_units(packet)
    }
}
