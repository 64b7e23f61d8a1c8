//! A transport unit of any kind.

ghost use Rattle.std.specs.Prelude.{◌≡◌};
ghost use Rattle.osi_tpdu.specs.Value.{destination_of, may_be_followed};
ghost use Rattle.osi_tpdu.specs.View.{value};

use crate::acknowledgement::DataAcknowledgement;
use crate::connect_confirm::ConnectConfirm;
use crate::connect_request::ConnectRequest;
use crate::data_class_0::DataClass0;
use crate::data_class_2::DataClass2;
use crate::disconnect_confirm::DisconnectConfirm;
use crate::disconnect_request::DisconnectRequest;
use crate::report::ErrorReport;

/// A transport unit (TPDU) of class 0 or 2 (X.224 section 13). It borrows the octets from which it was read.
#[derive(Clone, Copy, PartialEq, Eq)]
pub enum Tpdu<'a> {
    /// CR, the connection request.
    Cr(ConnectRequest<'a>),
    /// CC, the connection confirm.
    Cc(ConnectConfirm<'a>),
    /// DR, the disconnect request.
    Dr(DisconnectRequest<'a>),
    /// DC, the disconnect confirm.
    Dc(DisconnectConfirm),
    /// DT of class 0.
    Dt0(DataClass0<'a>),
    /// DT of class 2.
    Dt2(DataClass2<'a>),
    /// AK, which acknowledges DT units of class 2.
    Ak(DataAcknowledgement),
    /// ER, the report of a protocol error.
    Er(ErrorReport),
}

impl Tpdu<'_> {
    /// Whether another unit may follow in the packet, as after AK, DC and ER: they have no user data (X.224 section
    /// 6.4).
    pub fn may_be_followed(&self) -> bool
        ensures { result ≡ may_be_followed (value self.now) }
    {
        matches!(self, Tpdu::Dc(_) | Tpdu::Ak(_) | Tpdu::Er(_))
    }

    /// DST-REF: the reference that the receiver gave the connection. A CR has none yet, and a DT of
    /// class 0 needs none.
    pub fn destination(&self) -> Option<u16>
        ensures { result ≡ destination_of (value self.now) }
    {
        match self {
            Tpdu::Cr(_) | Tpdu::Dt0(_) => None,
            Tpdu::Cc(confirm) => Some(confirm.destination),
            Tpdu::Dr(request) => Some(request.destination),
            Tpdu::Dc(confirm) => Some(confirm.destination),
            Tpdu::Dt2(data) => Some(data.destination),
            Tpdu::Ak(acknowledgement) => Some(acknowledgement.destination),
            Tpdu::Er(report) => Some(report.destination),
        }
    }
}
