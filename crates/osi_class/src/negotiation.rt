//! The answer to a connect request (X.224 section 6.5).

ghost use Rattle.std.specs.Prelude.{◌≡◌, ◌==◌, ◌%◌, ◌/◌, min, option_map};
ghost use Rattle.std.specs.List.{list_any, list_all};
ghost use Rattle.osi_tpdu.specs.Limits.{size_code};
ghost use Rattle.osi_tpdu.specs.View.{request_content};
ghost use Rattle.osi_class.specs.Negotiation.{proposes, proposes_zero_alone, selection, selected_by};

use crate::sizes::smaller_size;
use crate::terms::{Answer, Class, Local};
use osi_tpdu::{ConnectRequest, SizeCode};

/// The reason of a DR that gives none (X.224 section 13.5.3).
const NOT_SPECIFIED: u8 = 0;

/// The reason of a DR after a failed negotiation, 128 + 2 (X.224 section 13.5.3).
const NEGOTIATION_FAILED: u8 = 130;

/// The answer to a CR (X.224 section 6.5).
///
/// Class 2 is selected if it is supported and the CR prefers or lists it, unless the CR asks for no explicit flow
/// control (option bit 1). Otherwise class 0 is selected if it is supported and the CR prefers or lists it. The size is
/// the smaller of the proposed one and this end's; if the CR proposes none, none is selected. In an octet of the
/// alternative classes only the high half counts. A refusal gives no reason if only class 0 was proposed.
pub fn answer(request: &ConnectRequest<'_>, local: &Local) -> Answer
    ensures { selection result ≡ selected_by (request_content request.now) local.now }
{
    let size = selected_size(request.fields.parameters.size, local.size);
    if local.class2 && is_proposed(request, 2) && !refuses_flow_control(request) {
        return Answer::Accept {
            class: Class::Two,
            size,
        };
    }
    if local.class0 && is_proposed(request, 0) {
        return Answer::Accept {
            class: Class::Zero,
            size,
        };
    }
    if is_zero_alone(request) {
        return Answer::Disconnect(NOT_SPECIFIED);
    }
    Answer::Disconnect(NEGOTIATION_FAILED)
}

/// Whether the CR prefers a class or lists it.
fn is_proposed(request: &ConnectRequest<'_>, class: u8) -> bool
    ensures { result ≡ proposes (request_content request.now) class }
{
    if request.fields.class == class {
        return true;
    }
    match request.fields.parameters.alternative_classes {
        None => false,
        Some(octets) => names_class(octets, class),
    }
}

/// Whether the CR prefers class 0 and lists no other.
fn is_zero_alone(request: &ConnectRequest<'_>) -> bool
    ensures { result ≡ proposes_zero_alone (request_content request.now) }
{
    if request.fields.class != 0 {
        return false;
    }
    match request.fields.parameters.alternative_classes {
        None => true,
        Some(octets) => names_zero_alone(octets),
    }
}

/// Whether one of these octets has the class in its high half.
fn names_class(octets: &[u8], class: u8) -> bool
    ensures { result ≡ list_any (λ octet. octet / 16 == class) octets.now }
{
    octets.iter().any(|octet| *octet / 16 == class)
}

/// Whether each of these octets has class 0 in its high half.
fn names_zero_alone(octets: &[u8]) -> bool
    ensures { result ≡ list_all (λ octet. octet / 16 == 0) octets.now }
{
    octets.iter().all(|octet| *octet / 16 == 0)
}

/// Whether the CR asks for class 2 without explicit flow control: option bit 1 (X.224 section
/// 13.3.3).
fn refuses_flow_control(request: &ConnectRequest<'_>) -> bool
    ensures { result ≡ (request.now.fields.options % 2 == 1) }
{
    request.fields.options % 2 == 1
}

/// The smaller of the proposed size and this end's, or none if none was proposed.
fn selected_size(proposed: Option<SizeCode>, local: SizeCode) -> Option<SizeCode>
    ensures { option_map size_code result ≡ option_map (λ code. min code (size_code local)) (option_map size_code proposed) }
{
    match proposed {
        None => None,
        Some(size) => Some(smaller_size(size, local)),
    }
}
