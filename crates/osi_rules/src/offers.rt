//! What a CR offers (X.224 section 6.5).

ghost use Rattle.std.specs.Prelude.{◌≡◌, ◌==◌, ◌/◌};
ghost use Rattle.std.specs.List.{list_any};
ghost use Rattle.osi_class.specs.Negotiation.{proposes};
ghost use Rattle.osi_tpdu.specs.View.{request_content};
ghost use Rattle.osi_rules.specs.Rows.{asks_expedited};
ghost use Rattle.osi_rules.specs.Traffic.{offer_of, asked_by, silent_half};

use crate::connections::{Connection, Offer};
use crate::halves::{Half, Phase};
use crate::rows::{code_named, is_extended, is_without_flow_control};
use osi_tpdu::ConnectRequest;

/// Whether one of these octets has the class in its high half.
fn names_class(octets: &[u8], class: u8) -> bool
    ensures { result ≡ list_any (λ octet. octet / 16 == class) octets.now }
{
    octets.iter().any(|octet| *octet / 16 == class)
}

/// Whether a CR prefers a class or lists it.
fn proposes(request: &ConnectRequest<'_>, class: u8) -> bool
    ensures { result ≡ proposes (request_content request.now) class }
{
    if request.fields.class == class {
        return true;
    }
    match request.fields.parameters.alternative_classes {
        None => false,
        Some(octets) => names_class(octets, class),
    }
}

/// Whether a CR asks for expedited data.
fn asks_expedited(options: Option<u8>) -> bool
    ensures { result ≡ asks_expedited options }
{
    match options {
        None => true,
        Some(options) => options % 2 == 1,
    }
}

/// What a CR offers.
fn offer_of(request: &ConnectRequest<'_>) -> Offer
    ensures { result ≡ offer_of (request_content request.now) }
{
    let class = request.fields.class;
    Offer {
        class0: proposes(request, 0) || proposes(request, 1),
        class2: proposes(request, 2) || class == 3 || class == 4,
        others: proposes(request, 1) || proposes(request, 3) || proposes(request, 4),
        expedited: asks_expedited(request.fields.parameters.additional_options),
        without_flow_control: is_without_flow_control(request.fields.options),
        extended: is_extended(request.fields.options),
        size_code: code_named(request.fields.parameters.size),
    }
}

/// A side that has sent nothing.
const SILENT: Half = Half {
    phase: Phase::Silent,
    reference: 0,
    next: 0,
    awaited: 0,
    credit: 0,
    begun: 0,
};

/// The connection for which a CR asks.
pub(crate) fn asked_by(request: &ConnectRequest<'_>) -> Connection
    ensures { result ≡ asked_by (request_content request.now) }
{
    Connection {
        offer: offer_of(request),
        size: None,
        is_judged: true,
        left: Half {
            phase: Phase::Open,
            reference: request.fields.source,
            credit: request.fields.credit,
            ..SILENT
        },
        right: SILENT,
        seen_by_left: SILENT,
        seen_by_right: SILENT,
    }
}
