//! The call that makes a session send a message.

ghost use Rattle.std.specs.Prelude.{◌≡◌, IfSome, None, Some, if◌then◌else◌, option_map};
ghost use Rattle.std.specs.Int.RustNames.{bit_and};
ghost use Rattle.osi_message.specs.Meanings.{meant_by};
ghost use Rattle.osi_message.specs.Reading.{names};
ghost use Rattle.osi_session.specs.Calls.{Abort, called_by, refusal_with};
ghost use Rattle.osi_session.specs.Sides.{named_side};
ghost use Rattle.osi_spdu.specs.Fields.{unit_bits};
ghost use Rattle.osi_spdu.specs.Sizes.{are_sizes, named_by};
ghost use Rattle.osi_witness.specs.Requests.{accept_of, agreed_number, are_known, asks_by, call_of, connect_of, first_number};
ghost use Rattle.osi_witness.specs.Requests.{is_duplex};
ghost use Rattle.osi_witness.specs.Requests.{IsOffered, named_by_both, named_sides, number_of, offered_units, point_call, refuse_of};
ghost use Rattle.osi_witness.specs.Requests.{units_named_by};

use bitflags::Flags;
use osi_message::Message;
use osi_session::{Refusal, Request, Sides, is_profile};
use osi_spdu::{
    Requirements, Serial, Side, TokenSetting, TsduMaximumSize, TsduSize, TsduSizes, Wish,
};

/// The functional units that have a meaning here.
const KNOWN: u16 = 0x00BB;

/// The functional units that go together with half-duplex.
const WITH_HALF_DUPLEX: u16 = 0x00B9;

const HALF_DUPLEX: u16 = 0x0001;

const DUPLEX: u16 = 0x0002;

/// The bit of an AB of a user.
const BY_USER: u8 = 0x02;

/// What a CN offers that matters to the answer: its functional units and the number of the first point.
#[derive(Clone, Copy)]
pub struct Offer {
    pub requirements: u16,
    pub serial: Option<Serial>,
}

/// The fields of a connect.
#[derive(Clone, Copy)]
pub struct Asking<'a> {
    pub requirements: Requirements,
    pub serial: Serial,
    pub wishes: TokenSetting,
    pub sizes: TsduSizes,
    pub user_data: &'a [u8],
}

/// The number, or 0 if there is none.
fn serial_of(serial: Option<Serial>) -> Serial
    ensures { result.number ≡ first_number (number_of serial) }
{
    serial.unwrap_or(Serial { number: 0 })
}

/// The number of an answer, or that of the CN if the answer has none.
fn agreed(answered: Option<Serial>, asked: Option<Serial>) -> Serial
    ensures { result.number ≡ agreed_number (number_of answered) (number_of asked) }
{
    match answered {
        Some(serial) => serial,
        None => serial_of(asked),
    }
}

/// Sizes that a user may give; none for others.
fn sizes_of(sizes: TsduMaximumSize) -> Option<TsduSizes>
    ensures { option_map named_by result ≡ if are_sizes sizes then Some sizes else None }
{
    let from_asker = TsduSize::new(sizes.from_asker)?;
    let from_answerer = TsduSize::new(sizes.from_answerer)?;
    Some(TsduSizes {
        from_asker,
        from_answerer,
    })
}

fn side_of(wish: Wish) -> Side
    ensures { result ≡ named_side wish }
{
    match wish {
        Wish::Answerer => Side::Answerer,
        Wish::Asker | Wish::Choice => Side::Asker,
    }
}

/// The sides that an answer names.
fn sides_of(setting: TokenSetting) -> Sides
    ensures { result ≡ named_sides setting }
{
    Sides {
        data_token: side_of(setting.data_token),
        minor: side_of(setting.minor),
        major: side_of(setting.major),
        release: side_of(setting.release),
    }
}

/// Whether a connection is duplex whose CN has these functional units, if these are selected; if there is no answer, whether the CN
/// leaves half-duplex out.
fn is_duplex(bits: u16, selected: Option<u16>) -> bool
    ensures { result ≡ is_duplex bits selected }
{
    match selected {
        Some(both) => both & DUPLEX == DUPLEX,
        None => bits & HALF_DUPLEX != HALF_DUPLEX,
    }
}

/// The functional units that a connect offers in place of those of a CN, of which these are selected: a script offers half-duplex or
/// duplex, and not both.
fn offered(requirements: Requirements, selected: Option<u16>) -> Requirements
    ensures { unit_bits result ≡ offered_units (unit_bits requirements) selected }
{
    if is_profile(requirements) {
        return requirements;
    }
    let bits = requirements.bits();
    if is_duplex(bits, selected) {
        return Requirements::from_bits_retain(DUPLEX);
    }
    Requirements::from_bits_retain(bits & WITH_HALF_DUPLEX)
}

/// The functional units that an AC names, if the message is one.
pub fn selected_by(message: &Message<'_>) -> Option<u16>
    ensures { result ≡ units_named_by (meant_by message.now) }
{
    match message {
        Message::Accept { requirements, .. } => Some(requirements.bits()),
        _ => None,
    }
}

/// Of the functional units of a CN those that its AC names, if there is one.
fn both_of(bits: u16, selected: Option<u16>) -> Option<u16>
    ensures { result ≡ named_by_both bits selected }
{
    match selected {
        Some(named) => Some(named & bits),
        None => None,
    }
}

/// The connect that sends a CN, of which the AC names these functional units, and what the CN offers. None if a script can't say it: the
/// message is no CN of version 2, or has sizes that no user may give.
pub fn asked_by<'a>(message: &Message<'a>, selected: Option<u16>) -> Option<(Asking<'a>, Offer)>
    ensures asking { option_map (λ asked. asks_by asked.0) result ≡ connect_of selected (meant_by message.now) }
    ensures offer { IfSome result (λ asked. IsOffered asked.1 (meant_by message.now)) }
{
    match *message {
        Message::Connect {
            version_2,
            requirements,
            serial,
            wishes,
            sizes,
            user_data,
            ..
        } => {
            if !version_2 {
                return None;
            }
            let sizes = sizes_of(sizes)?;
            let bits = requirements.bits();
            let asking = Asking {
                requirements: offered(requirements, both_of(bits, selected)),
                serial: serial_of(serial),
                wishes,
                sizes,
                user_data,
            };
            Some((
                asking,
                Offer {
                    requirements: bits,
                    serial,
                },
            ))
        }
        _ => None,
    }
}

/// The call that sends an RF. A script has one for two reasons.
fn refusing(reason: u8, user_data: &[u8]) -> Option<Request<'_>>
    ensures { option_map called_by result ≡ refuse_of reason (refusal_with user_data.now) }
{
    let refusal = Refusal::with(user_data);
    if reason != refusal.reason() {
        return None;
    }
    Some(Request::Refuse { refusal })
}

/// The call that sends an AB. A provider's has none.
fn aborting(transport_disconnect: u8, user_data: &[u8]) -> Option<Request<'_>>
    ensures { option_map called_by result ≡ if names transport_disconnect 2 then Some (Abort user_data.now) else None }
{
    if transport_disconnect & BY_USER != BY_USER {
        return None;
    }
    Some(Request::Abort { user_data })
}

/// These functional units, if all of them have a meaning here.
fn known(bits: u16) -> Option<Requirements>
    ensures { option_map unit_bits result ≡ if are_known bits then Some bits else None }
{
    if bits & KNOWN != bits {
        return None;
    }
    Some(Requirements::from_bits_retain(bits))
}

/// The call that answers a CN with an AC of these functional units and this number. None if no script can select them.
fn accepting<'a>(
    bits: u16,
    serial: Serial,
    sides: TokenSetting,
    sizes: TsduMaximumSize,
    user_data: &'a [u8],
) -> Option<Request<'a>>
    ensures { option_map called_by result ≡ accept_of bits serial.number sides sizes user_data.now }
{
    let requirements = known(bits)?;
    let sizes = sizes_of(sizes)?;
    Some(Request::Accept {
        requirements,
        serial,
        sides: sides_of(sides),
        sizes,
        user_data,
    })
}

/// The call that sends a message about a point or a restart; none for another message.
fn pointing<'a>(message: &Message<'a>) -> Option<Request<'a>>
    ensures { option_map called_by result ≡ point_call (meant_by message.now) }
{
    match *message {
        Message::MinorPoint {
            confirm,
            user_data,
            ..
        } => Some(Request::Minor { confirm, user_data }),
        Message::MinorAck { number, user_data } => Some(Request::MinorConfirm {
            number: number.number,
            user_data,
        }),
        Message::MajorPoint { user_data, .. } => Some(Request::Major { user_data }),
        Message::MajorAck { user_data, .. } => Some(Request::MajorConfirm { user_data }),
        Message::Restart {
            number,
            wishes,
            user_data,
            ..
        } => Some(Request::Restart {
            number: number.number,
            wishes,
            user_data,
        }),
        Message::RestartAck {
            sides,
            user_data,
            ..
        } => Some(Request::RestartConfirm {
            sides: sides_of(sides),
            user_data,
        }),
        _ => None,
    }
}

/// The call that sends a message of a connection whose CN offers this. None if no call does: it is a CN, which a connect sends
/// ([`asked_by`]), an AA, an AB of a provider, an RF with a reason that no script gives, or an AC that selects what no script can.
pub fn request_of<'a>(message: &Message<'a>, offer: Offer) -> Option<Request<'a>>
    ensures { option_map called_by result ≡ call_of offer (meant_by message.now) }
{
    match *message {
        Message::Connect { .. } | Message::AbortAccept => None,
        Message::Accept {
            requirements,
            serial,
            sides,
            sizes,
            user_data,
            ..
        } => accepting(
            requirements.bits() & offer.requirements,
            agreed(serial, offer.serial),
            sides,
            sizes,
            user_data,
        ),
        Message::Refuse { reason, user_data } => refusing(reason, user_data),
        Message::Data { user_data } => Some(Request::Data { user_data }),
        Message::Give { tokens } => Some(Request::Give {
            tokens: tokens.set(),
        }),
        Message::Please { tokens, user_data } => Some(Request::Please {
            tokens: tokens.set(),
            user_data,
        }),
        Message::MinorPoint { .. }
        | Message::MinorAck { .. }
        | Message::MajorPoint { .. }
        | Message::MajorAck { .. }
        | Message::Restart { .. }
        | Message::RestartAck { .. } => pointing(message),
        Message::Finish { user_data } => Some(Request::Release { user_data }),
        Message::Disconnect { user_data } => Some(Request::ReleaseAccept { user_data }),
        Message::NotFinished { user_data } => Some(Request::ReleaseRefuse { user_data }),
        Message::Abort {
            transport_disconnect,
            user_data,
        } => aborting(transport_disconnect, user_data),
    }
}
