//! The arguments that C passes.

ghost use Rattle.std.specs.Prelude.{◌≡◌, ◌≤◌, length, option_map, IfSome, OnSome, IfNone};
ghost use Rattle.osi_session.specs.Calls.{refusal_by};
ghost use Rattle.osi_spdu.specs.Sizes.{named_by};
ghost use Rattle.osi_tpdu.specs.Limits.{tsap_octets};
ghost use Rattle.osi_c.specs.Arguments.{side_of, wish_of, sides_of, wishes_of, serial_of, sizes_of, refusal_of, given, IsTerms, SaysTerms};
ghost use Rattle.osi_c.specs.Arguments.{IsOpening, SaysOpening};

use bitflags::Flags;
use osi_class::Local;
use osi_session::{Refusal, Sides};
use osi_spdu::{Requirements, Serial, Side, TokenSetting, TsduSize, TsduSizes, Wish};
use osi_stack::Connect;
use osi_tpdu::{SizeCode, Tsap, Window};

/// The transport protocol of an end.
#[repr(C)]
#[derive(Clone, Copy)]
pub struct OsiTerms {
    /// Whether class 0 is supported, and class 2: bits 1 and 2.
    pub classes: u8,
    /// The exponent of the largest TPDU size, 7 to 13.
    pub size: u8,
    /// The window of class 2, 1 to 15.
    pub window: u8,
}

/// The side for each token: 0 for the side that asks, 1 for the side that answers; in a wish also 2, if the answering
/// side is to choose.
#[repr(C)]
#[derive(Clone, Copy)]
pub struct OsiSides {
    pub data_token: u8,
    pub minor: u8,
    pub major: u8,
    pub release: u8,
}

/// A requested connection. An address without octets is no address, and a size of 0 is no limit.
#[repr(C)]
#[derive(Clone, Copy)]
pub struct OsiOpening<'a> {
    pub requirements: u16,
    pub serial: u32,
    pub wishes: OsiSides,
    pub calling_tsap: &'a [u8],
    pub called_tsap: &'a [u8],
    pub calling_selector: &'a [u8],
    pub called_selector: &'a [u8],
    pub user_data: &'a [u8],
    pub size_from_asker: u16,
    pub size_from_answerer: u16,
}

fn side(code: u8) -> Option<Side>
    ensures { result ≡ side_of code }
{
    match code {
        0 => Some(Side::Asker),
        1 => Some(Side::Answerer),
        _ => None,
    }
}

fn wish(code: u8) -> Option<Wish>
    ensures { result ≡ wish_of code }
{
    match code {
        0 => Some(Wish::Asker),
        1 => Some(Wish::Answerer),
        2 => Some(Wish::Choice),
        _ => None,
    }
}

/// The side that holds each token.
pub(crate) fn sides(codes: &OsiSides) -> Option<Sides>
    ensures { result ≡ sides_of codes.now }
{
    Some(Sides {
        data_token: side(codes.data_token)?,
        minor: side(codes.minor)?,
        major: side(codes.major)?,
        release: side(codes.release)?,
    })
}

/// The side wished for as the holder of each token.
pub(crate) fn wishes(codes: &OsiSides) -> Option<TokenSetting>
    ensures { result ≡ wishes_of codes.now }
{
    Some(TokenSetting {
        data_token: wish(codes.data_token)?,
        minor: wish(codes.minor)?,
        major: wish(codes.major)?,
        release: wish(codes.release)?,
    })
}

/// A serial number, 0 to 999,999.
pub(crate) fn serial(number: u32) -> Option<Serial>
    ensures { option_map (λ s. s.number) result ≡ serial_of number }
{
    Serial::new(number)
}

/// The largest TSDU that each side sends, in octets: at least 64, or 0 for no limit.
pub(crate) fn sizes(from_asker: u16, from_answerer: u16) -> Option<TsduSizes>
    ensures { option_map named_by result ≡ sizes_of from_asker from_answerer }
{
    Some(TsduSizes {
        from_asker: TsduSize::new(from_asker)?,
        from_answerer: TsduSize::new(from_answerer)?,
    })
}

/// The refusal for the octet of a reason. User data goes only with reason 2.
pub(crate) fn refusal_for<'a>(reason: u8, user_data: &'a [u8]) -> Option<Refusal<'a>>
    ensures { option_map refusal_by result ≡ refusal_of reason user_data.entry.now }
{
    if reason == 2 {
        return Some(Refusal::WithData(user_data));
    }
    if !user_data.is_empty() {
        return None;
    }
    match reason {
        0 => Some(Refusal::Unspecified),
        1 => Some(Refusal::Congestion),
        _ => None,
    }
}

/// The transport protocol of an end, if its numbers are in range.
pub(crate) fn terms(terms: &OsiTerms) -> Option<Local>
    ensures some { IfSome result (λ local. SaysTerms terms.now local) }
    ensures readable { OnSome result (IsTerms terms.now) }
    ensures none { IfNone result (IsTerms terms.now → ⊥) }
{
    if terms.classes > 3 {
        return None;
    }
    Some(Local {
        class0: terms.classes == 1 || terms.classes == 3,
        class2: terms.classes >= 2,
        size: SizeCode::new(terms.size)?,
        window: Window::new(terms.window)?,
    })
}

/// The octets of a session address; none if there are no octets.
fn address(octets: &[u8]) -> Option<&[u8]>
    ensures { option_map (λ o. o.now) result ≡ given octets.now }
{
    if octets.is_empty() {
        return None;
    }
    Some(octets)
}

/// A transport address; `Some(None)` if there are no octets, `None` if there are more than 32.
fn transport_address(octets: &[u8]) -> Option<Option<Tsap>>
    ensures some { IfSome result (λ tsap. option_map tsap_octets tsap ≡ given octets.now) }
    ensures none { IfNone result (length octets.now ≤ 32 → ⊥) }
{
    if octets.is_empty() {
        return Some(None);
    }
    Some(Some(Tsap::new(octets)?))
}

/// The request, if its numbers and lengths are in range.
pub(crate) fn opening<'a>(opening: &OsiOpening<'a>) -> Option<Connect<'a>>
    ensures some { IfSome result (λ connect. SaysOpening opening.now connect) }
    ensures none { IfNone result (IsOpening opening.now → ⊥) }
{
    let calling_tsap = transport_address(opening.calling_tsap)?;
    let called_tsap = transport_address(opening.called_tsap)?;
    Some(Connect {
        requirements: Requirements::from_bits_retain(opening.requirements),
        serial: serial(opening.serial)?,
        wishes: wishes(&opening.wishes)?,
        calling_tsap,
        called_tsap,
        calling_selector: address(opening.calling_selector),
        called_selector: address(opening.called_selector),
        sizes: sizes(opening.size_from_asker, opening.size_from_answerer)?,
        user_data: opening.user_data,
    })
}
