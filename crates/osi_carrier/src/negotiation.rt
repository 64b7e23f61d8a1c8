//! What is proposed in a CR and selected in a CC (X.224 sections 6.5, 13.3 and 13.4).

ghost use Rattle.std.specs.Prelude.{◌≡◌, ◌≤◌, None, option_map, option_copied};
ghost use Rattle.osi_tpdu.specs.Limits.{selector_octets, tsap_octets, size_code};
ghost use Rattle.osi_tpdu.specs.View.{request_content, confirm_content};
ghost use Rattle.osi_carrier.specs.Negotiation.{proposes_zero, alternatives, proposal, confirmed, agreed_size, selects_expedited};
ghost use Rattle.osi_carrier.specs.Negotiation.{opened_link, acceptance};
ghost use Rattle.osi_class.specs.AnyLink.{any_standing};
ghost use Rattle.osi_class.specs.Link.{next};

use osi_class::{AnyLink, Class, Class0, Class2, Credit, Local, smaller_size};
use osi_tpdu::{
    ConnectConfirm, ConnectFields, ConnectParameters, ConnectRequest, Selector, SizeCode, Tsap,
};
use std::alloc::Global;

/// Whether a CR proposes class 0: if class 0 is supported or class 2 is not, and no class is agreed yet.
fn proposes_zero(local: &Local, held: Option<Class>) -> bool
    ensures { result ≡ proposes_zero local.now held }
{
    held.is_none() && (local.class0 || !local.class2)
}

/// A selector as a unit holds it.
fn selector_of(tsap: &Option<Tsap>) -> Option<Selector<'_>>
    ensures { option_map selector_octets result ≡ option_map tsap_octets tsap.now }
{
    match tsap {
        None => None,
        Some(tsap) => Some(tsap.selector()),
    }
}

/// The CR for a connection with this reference: it prefers class 2 if that is supported, and proposes this end's size.
pub fn proposal<'x>(
    local: &Local,
    held: Option<Class>,
    calling: &'x Option<Tsap>,
    called: &'x Option<Tsap>,
    reference: u16,
) -> ConnectRequest<'x>
    ensures { request_content result
        ≡ proposal local.now held (option_map tsap_octets calling.now) (option_map tsap_octets called.now) reference }
{
    if !local.class2 {
        let fields = ConnectFields {
            credit: 0,
            source: reference,
            class: 0,
            options: 0,
            parameters: ConnectParameters {
                size: Some(local.size),
                calling: selector_of(calling),
                called: selector_of(called),
                additional_options: None,
                alternative_classes: None,
            },
            user: &[],
        };
        return ConnectRequest { fields };
    }
    let fields = ConnectFields {
        credit: local.window.units(),
        source: reference,
        class: 2,
        options: 0,
        parameters: ConnectParameters {
            size: Some(local.size),
            calling: selector_of(calling),
            called: selector_of(called),
            additional_options: Some(0),
            alternative_classes: alternatives(proposes_zero(local, held)),
        },
        user: &[],
    };
    ConnectRequest { fields }
}

/// The parameter of alternative classes, if class 0 is proposed after class 2.
fn alternatives(zero: bool) -> Option<&'static [u8]>
    ensures { option_copied result ≡ alternatives zero }
{
    if zero { Some(&[0]) } else { None }
}

/// Whether bit 1 of the additional options is set: transport expedited data (X.224 section 13.4.4).
fn selects_expedited(options: Option<u8>) -> bool
    ensures { result ≡ selects_expedited options }
{
    match options {
        None => false,
        Some(options) => options % 2 == 1,
    }
}

/// The class that a CC selects; `None` if that was not proposed.
pub fn confirmed(confirm: &ConnectConfirm<'_>, local: &Local, held: Option<Class>) -> Option<Class>
    ensures { result ≡ confirmed (confirm_content confirm.now) local.now held }
{
    if confirm.fields.class == 2
        && local.class2
        && !selects_expedited(confirm.fields.parameters.additional_options)
    {
        return Some(Class::Two);
    }
    if confirm.fields.class == 0 && proposes_zero(local, held) {
        return Some(Class::Zero);
    }
    None
}

/// The smaller of the peer's size and this end's; none if the peer names none.
pub fn agreed_size(size: Option<SizeCode>, local: &Local) -> Option<SizeCode>
    ensures { option_map size_code result ≡ agreed_size (option_map size_code size) local.now }
{
    match size {
        None => None,
        Some(size) => Some(smaller_size(size, local.size)),
    }
}

/// A fresh link for the class and the size that were agreed and the peer's first credit.
pub fn opened_link(
    alloc: Global,
    class: Class,
    size: Option<SizeCode>,
    local: &Local,
    credit: u8,
) -> AnyLink
    requires { credit ≤ 15 }
    ensures value { any_standing result ≡ opened_link class (option_map size_code size) local.now credit }
    ensures pumped { next (any_standing result) ≡ None }
{
    match class {
        Class::Zero => AnyLink::Zero(Class0::new(alloc, size)),
        Class::Two => {
            AnyLink::Two(Class2::new(alloc, size, local.window, Credit::up_to(credit)))
        }
    }
}

/// The CC for a CR: it repeats the selectors, and the size if the CR named one.
pub fn acceptance<'x>(
    class: Class,
    size: Option<SizeCode>,
    request: &ConnectRequest<'x>,
    local: &Local,
    reference: u16,
) -> ConnectConfirm<'x>
    ensures content { confirm_content result ≡ acceptance class (option_map size_code size) (request_content request.now)
        local.now reference }
    ensures destination { result.destination ≡ request.now.fields.source }
{
    match class {
        Class::Zero => ConnectConfirm {
            destination: request.fields.source,
            fields: ConnectFields {
                credit: 0,
                source: reference,
                class: 0,
                options: 0,
                parameters: repeated(size, request, None),
                user: &[],
            },
        },
        Class::Two => ConnectConfirm {
            destination: request.fields.source,
            fields: ConnectFields {
                credit: local.window.units(),
                source: reference,
                class: 2,
                options: 0,
                parameters: repeated(size, request, Some(0)),
                user: &[],
            },
        },
    }
}

/// The parameters of a CC for a CR.
fn repeated<'x>(
    size: Option<SizeCode>,
    request: &ConnectRequest<'x>,
    additional_options: Option<u8>,
) -> ConnectParameters<'x>
    ensures size { result.size ≡ size }
    ensures calling { result.calling ≡ request.now.fields.parameters.calling }
    ensures called { result.called ≡ request.now.fields.parameters.called }
    ensures additional { result.additional_options ≡ additional_options }
    ensures alternative { result.alternative_classes ≡ None }
{
    ConnectParameters {
        size,
        calling: request.fields.parameters.calling,
        called: request.fields.parameters.called,
        additional_options,
        alternative_classes: None,
    }
}
