//! Indications for C.

ghost use Rattle.std.specs.Prelude.{◌≡◌, None, false, true};
ghost use Rattle.osi_spdu.specs.Fields.{bits_of, unit_bits};
ghost use Rattle.osi_session.specs.Shown.{shown_by, abort_shown};
ghost use Rattle.osi_c.specs.Told as told;
ghost use Rattle.osi_c.specs.Told.{is_common, is_opening, is_restart, Says, Tells};

use crate::arguments::OsiSides;
use crate::header;
use bitflags::Flags;
use osi_message::Octets;
use osi_session::{AbortCause, Indication, Sides, UnitFault};
use osi_spdu::{Requirements, Side, SpduFault, TokenSet, TokenSetting, TsduMaximumSize, Wish};

/// Why a received unit is bad: which fault, and the SI of the unit; if the octets are not session units, the fault of
/// their spelling, with the code of the parameter and the offset of the octet.
#[repr(C)]
#[derive(Clone, Copy)]
pub struct OsiFault {
    pub fault: u8,
    pub si: u8,
    pub spelling: u8,
    pub parameter: u8,
    pub offset: u64,
}

/// An indication: which one (0 for none), of which connection, and its fields. The user data is lent.
#[repr(C)]
#[derive(Clone, Copy)]
pub struct OsiIndication<'a> {
    pub tag: u32,
    pub number: u32,
    pub reference: u16,
    pub requirements: u16,
    pub has_number: u8,
    pub confirm: u8,
    pub tokens: u8,
    pub reason: u8,
    pub sides: OsiSides,
    pub fault: OsiFault,
    pub user_data: &'a [u8],
    pub size_from_asker: u16,
    pub size_from_answerer: u16,
}

fn side_code(side: Side) -> u8
    ensures { result ≡ told.side_told side }
{
    match side {
        Side::Asker => 0,
        Side::Answerer => 1,
    }
}

fn wish_code(wish: Wish) -> u8
    ensures { result ≡ told.wish_told wish }
{
    match wish {
        Wish::Asker => 0,
        Wish::Answerer => 1,
        Wish::Choice => 2,
    }
}

fn side_codes(sides: Sides) -> OsiSides
    ensures { result ≡ told.sides_told sides }
{
    OsiSides {
        data_token: side_code(sides.data_token),
        minor: side_code(sides.minor),
        major: side_code(sides.major),
        release: side_code(sides.release),
    }
}

fn wish_codes(wishes: TokenSetting) -> OsiSides
    ensures { result ≡ told.wishes_told wishes }
{
    OsiSides {
        data_token: wish_code(wishes.data_token),
        minor: wish_code(wishes.minor),
        major: wish_code(wishes.major),
        release: wish_code(wishes.release),
    }
}

fn spelled(spelling: u8, parameter: u8, offset: usize) -> OsiFault
    ensures { result ≡ told.spelled spelling parameter offset }
{
    OsiFault {
        fault: 1,
        si: 0,
        spelling,
        parameter,
        offset: offset as u64,
    }
}

fn spelling_fault(fault: SpduFault) -> OsiFault
    ensures { result ≡ told.spelling_told fault }
{
    match fault {
        SpduFault::UnknownSi(offset) => spelled(1, 0, offset),
        SpduFault::LengthPastEnd(offset) => spelled(2, 0, offset),
        SpduFault::MissingParameter(code, offset) => spelled(3, code, offset),
        SpduFault::DuplicateParameter(code, offset) => spelled(4, code, offset),
        SpduFault::BadValue(code, offset) => spelled(5, code, offset),
        SpduFault::BadConcatenation(offset) => spelled(6, 0, offset),
        SpduFault::TrailingOctets(offset) => spelled(7, 0, offset),
    }
}

fn of_unit(fault: u8, si: u8) -> OsiFault
    ensures { result ≡ told.of_unit fault si }
{
    OsiFault {
        fault,
        si,
        spelling: 0,
        parameter: 0,
        offset: 0,
    }
}

fn fault_codes(fault: UnitFault) -> OsiFault
    ensures { result ≡ told.fault_told fault }
{
    match fault {
        UnitFault::Spelling(spelling) => spelling_fault(spelling),
        UnitFault::Unexpected(si) => of_unit(2, si),
        UnitFault::NotSelected(si) => of_unit(3, si),
        UnitFault::TokenHeld(si) => of_unit(4, si),
        UnitFault::BadNumber(si) => of_unit(5, si),
        UnitFault::BadTokens(si) => of_unit(6, si),
        UnitFault::BadEnclosure(si) => of_unit(7, si),
        UnitFault::DataTooLong(si) => of_unit(8, si),
    }
}

/// An indication with only its tag and its user data.
fn plain(reference: u16, tag: u32, user_data: &[u8]) -> OsiIndication<'_>
    ensures { result ≡ told.plain reference tag user_data.entry }
{
    OsiIndication {
        tag,
        number: 0,
        reference,
        requirements: 0,
        has_number: 0,
        confirm: 0,
        tokens: 0,
        reason: 0,
        sides: OsiSides {
            data_token: 0,
            minor: 0,
            major: 0,
            release: 0,
        },
        fault: of_unit(0, 0),
        user_data,
        size_from_asker: 0,
        size_from_answerer: 0,
    }
}

/// None.
pub(crate) fn nothing<'a>() -> OsiIndication<'a>
    ensures { Tells result None }
{
    plain(0, header::NONE, &[])
}

fn opening<'a>(
    requirements: Requirements,
    serial: Option<u32>,
    sides: OsiSides,
    sizes: TsduMaximumSize,
    plain: OsiIndication<'a>,
) -> OsiIndication<'a>
    ensures { result ≡ told.opened (unit_bits requirements) serial sides sizes plain.entry }
{
    let (has_number, number) = match serial {
        None => (0, 0),
        Some(number) => (1, number),
    };
    OsiIndication {
        requirements: requirements.bits(),
        has_number,
        number,
        sides,
        size_from_asker: sizes.from_asker,
        size_from_answerer: sizes.from_answerer,
        ..plain
    }
}

fn tell_abort<'a>(reference: u16, cause: &AbortCause, shown: &mut OsiIndication<'a>)
    ensures { Says shown.new reference (abort_shown cause.now) }
{
    match cause {
        AbortCause::Lost => *shown = plain(reference, header::LOST, &[]),
        AbortCause::Peer(bits) => {
            *shown = OsiIndication {
                reason: *bits,
                ..plain(reference, header::PEER_ABORT, &[])
            };
        }
        AbortCause::Unit(fault) => {
            *shown = OsiIndication {
                fault: fault_codes(*fault),
                ..plain(reference, header::BAD_UNIT, &[])
            };
        }
    }
}

/// The fields of an opening: a CN, an AC or a refusal. Called with no other indication.
fn tell_opening<'a>(reference: u16, indication: &'a Indication, shown: &mut OsiIndication<'a>)
    ensures { is_opening (shown_by indication.now) ≡ true → Says shown.new reference (shown_by indication.now) }
{
    match indication {
        Indication::Connect {
            requirements,
            serial,
            wishes,
            sizes,
            user_data,
        } => {
            let plain = plain(reference, header::CONNECT, user_data.as_slice());
            *shown = opening(*requirements, *serial, wish_codes(*wishes), *sizes, plain);
        }
        Indication::Connected {
            requirements,
            serial,
            sides,
            sizes,
            user_data,
        } => {
            let plain = plain(reference, header::CONNECTED, user_data.as_slice());
            *shown = opening(*requirements, *serial, side_codes(*sides), *sizes, plain);
        }
        Indication::RefusedByTransport { reason } => {
            *shown = OsiIndication {
                reason: *reason,
                ..plain(reference, header::REFUSED_BY_TRANSPORT, &[])
            };
        }
        Indication::RefusedBySession { reason, user_data } => {
            *shown = OsiIndication {
                reason: *reason,
                ..plain(reference, header::REFUSED_BY_SESSION, user_data.as_slice())
            };
        }
        _ => *shown = nothing(),
    }
}

/// The fields of an indication with the number of a point and the wished holders of the tokens. Called with no other
/// indication.
fn tell_restart<'a>(reference: u16, indication: &'a Indication, shown: &mut OsiIndication<'a>)
    ensures { is_restart (shown_by indication.now) ≡ true → Says shown.new reference (shown_by indication.now) }
{
    match indication {
        Indication::Restart {
            number,
            wishes,
            user_data,
        } => {
            *shown = OsiIndication {
                number: *number,
                sides: wish_codes(*wishes),
                ..plain(reference, header::RESTART, user_data.as_slice())
            };
        }
        Indication::Restarted {
            number,
            sides,
            user_data,
        } => {
            *shown = OsiIndication {
                number: *number,
                sides: side_codes(*sides),
                ..plain(reference, header::RESTARTED, user_data.as_slice())
            };
        }
        _ => *shown = nothing(),
    }
}

/// The fields of any indication other than data, a minor point and its confirmation. It is kept out of line: otherwise
/// its fields would be built on the path of these three, too.
#[inline(never)]
fn tell_other<'a>(reference: u16, indication: &'a Indication, shown: &mut OsiIndication<'a>)
    ensures { is_common (shown_by indication.now) ≡ false → Says shown.new reference (shown_by indication.now) }
{
    match indication {
        Indication::Given { tokens } => {
            *shown = OsiIndication {
                tokens: tokens.bits(),
                ..plain(reference, header::GIVEN, &[])
            };
        }
        Indication::Asked { tokens, user_data } => {
            *shown = OsiIndication {
                tokens: tokens.bits(),
                ..plain(reference, header::ASKED, user_data.as_slice())
            };
        }
        Indication::Major { number, user_data } => {
            *shown = OsiIndication {
                number: *number,
                ..plain(reference, header::MAJOR, user_data.as_slice())
            };
        }
        Indication::MajorConfirmed { user_data } => {
            *shown = plain(reference, header::MAJOR_CONFIRMED, user_data.as_slice());
        }
        Indication::Restart { .. } | Indication::Restarted { .. } => {
            tell_restart(reference, indication, shown);
        }
        Indication::Release { user_data } => *shown = plain(
            reference,
            header::RELEASE,
            user_data.as_slice(),
        ),
        Indication::Released { user_data } => *shown = plain(
            reference,
            header::RELEASED,
            user_data.as_slice(),
        ),
        Indication::ReleaseRefused { user_data } => {
            *shown = plain(reference, header::RELEASE_REFUSED, user_data.as_slice());
        }
        Indication::Aborted { user_data } => *shown = plain(
            reference,
            header::ABORTED,
            user_data.as_slice(),
        ),
        Indication::ProviderAbort { cause } => tell_abort(reference, cause, shown),
        _ => tell_opening(reference, indication, shown),
    }
}

/// An indication for C. Each arm writes it in place: otherwise the fields of all arms would be put together first.
pub(crate) fn tell<'a>(reference: u16, indication: &'a Indication, shown: &mut OsiIndication<'a>)
    ensures { Says shown.new reference (shown_by indication.now) }
{
    match indication {
        Indication::Data { user_data } => *shown = plain(
            reference,
            header::DATA,
            user_data.as_slice(),
        ),
        Indication::Minor {
            number,
            confirm,
            user_data,
        } => {
            *shown = OsiIndication {
                number: *number,
                confirm: if *confirm { 1 } else { 0 },
                ..plain(reference, header::MINOR, user_data.as_slice())
            };
        }
        Indication::MinorConfirmed { number, user_data } => {
            *shown = OsiIndication {
                number: *number,
                ..plain(reference, header::MINOR_CONFIRMED, user_data.as_slice())
            };
        }
        _ => tell_other(reference, indication, shown),
    }
}
