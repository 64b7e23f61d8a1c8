//! The meaning of a unit's parameters, absent ones included.
#![tactic(auto)]

ghost use Rattle.osi_spdu.specs.Fields.{unit_bits};
ghost use Rattle.std.specs.Prelude.{◌≡◌, [], option_map};
ghost use Rattle.osi_spdu.specs.declared.codes.Code.TheVariants as code;
ghost use Rattle.osi_spdu.specs.Units.{said_by};
ghost use Rattle.osi_spdu.specs.Params.{known_of};
ghost use Rattle.osi_message.specs.Meanings.{meant_by};
ghost use Rattle.osi_message.specs.Reading.{meaning, meaning_by, has_version_2, requirements_in, serial_in, setting_in, data_in, tokens_in};
ghost use Rattle.osi_message.specs.Reading.{number_in, asks, octet_in, resync_named, sizes_in};

use crate::messages::Message;
use crate::tokens::Tokens;
use bitflags::Flags;
use osi_spdu::{
    Kind, Params, Requirements, ResyncType, Serial, Spdu, SyncType, TokenSetting, TsduMaximumSize,
    Wish, laws,
};

/// The requirements of a CN or AC without this parameter: half-duplex, minor synchronize, activity management,
/// capability data and exceptions (X.225 section 8).
const DEFAULT_REQUIREMENTS: u16 = 0x0349;

/// The bit of version 2.
const VERSION_2: u8 = 0x02;

/// An absent token setting: each token is the asker's.
const ALL_ASKER: TokenSetting = TokenSetting {
    data_token: Wish::Asker,
    minor: Wish::Asker,
    major: Wish::Asker,
    release: Wish::Asker,
};

fn has_version_2(params: &Params) -> bool
    ensures { result ≡ has_version_2 (known_of params.now) }
{
    match params.version() {
        None => false,
        Some(versions) => versions & VERSION_2 == VERSION_2,
    }
}

fn requirements(params: &Params) -> Requirements
    ensures { unit_bits result ≡ requirements_in (known_of params.now code.UserRequirements) }
{
    match params.user_requirements() {
        None => Requirements::from_bits_retain(DEFAULT_REQUIREMENTS),
        Some(requirements) => requirements,
    }
}

fn serial(params: &Params) -> Option<Serial>
    ensures { option_map (λ s. s.number) result ≡ serial_in (known_of params.now code.InitialNumber) }
{
    laws::serial_digits();
    params.initial_number()
}

fn number(params: &Params) -> Serial
    ensures { result.number ≡ number_in (known_of params.now code.Number) }
{
    laws::serial_digits();
    let Some(number) = params.number() else {
        return Serial { number: 0 };
    };
    number
}

fn setting(params: &Params) -> TokenSetting
    ensures { result ≡ setting_in (known_of params.now) }
{
    match params.token_setting() {
        None => ALL_ASKER,
        Some(setting) => setting,
    }
}

fn sizes(params: &Params) -> TsduMaximumSize
    ensures { result ≡ sizes_in (known_of params.now code.TsduMaximumSize) }
{
    match params.tsdu_maximum_size() {
        None => TsduMaximumSize::NONE,
        Some(sizes) => sizes,
    }
}

fn tokens(params: &Params) -> Tokens
    ensures { result ≡ tokens_in (known_of params.now) }
{
    match params.token_item() {
        None => Tokens::NONE,
        Some(tokens) => Tokens::of(tokens),
    }
}

/// A minor point without a sync type asks for its confirmation.
fn asks(params: &Params) -> bool
    ensures { result ≡ asks (known_of params.now) }
{
    !matches!(params.sync_type(), Some(SyncType::Open))
}

fn resync_type(params: &Params) -> ResyncType
    ensures { result ≡ resync_named (octet_in (known_of params.now code.ResyncType)) }
{
    match params.resync_type() {
        None => ResyncType::Restart,
        Some(kind) => kind,
    }
}

fn transport_disconnect(params: &Params) -> u8
    ensures { result ≡ octet_in (known_of params.now code.TransportDisconnect) }
{
    match params.transport_disconnect() {
        None => 0,
        Some(bits) => bits,
    }
}

fn user_data<'a>(params: &Params<'a>) -> &'a [u8]
    ensures { result.now ≡ data_in (known_of params.now) }
{
    match params.user_data() {
        None => &[],
        Some(octets) => octets,
    }
}

fn connect<'a>(params: &Params<'a>) -> Message<'a>
    ensures { meant_by result ≡ meaning_by Kind.Connect (known_of params.now) [] }
{
    Message::Connect {
        version_2: has_version_2(params),
        requirements: requirements(params),
        serial: serial(params),
        wishes: setting(params),
        calling: params.calling_selector(),
        called: params.called_selector(),
        sizes: sizes(params),
        user_data: user_data(params),
    }
}

fn accept<'a>(params: &Params<'a>) -> Message<'a>
    ensures { meant_by result ≡ meaning_by Kind.Accept (known_of params.now) [] }
{
    Message::Accept {
        version_2: has_version_2(params),
        requirements: requirements(params),
        serial: serial(params),
        sides: setting(params),
        sizes: sizes(params),
        user_data: user_data(params),
    }
}

fn refuse<'a>(params: &Params<'a>) -> Message<'a>
    ensures { meant_by result ≡ meaning_by Kind.Refuse (known_of params.now) [] }
{
    match params.reason() {
        None => Message::Refuse {
            reason: 0,
            user_data: &[],
        },
        Some(reason) => Message::Refuse {
            reason: reason.code,
            user_data: reason.data_octets,
        },
    }
}

fn please_tokens<'a>(params: &Params<'a>) -> Message<'a>
    ensures { meant_by result ≡ meaning_by Kind.PleaseTokens (known_of params.now) [] }
{
    Message::Please {
        tokens: tokens(params),
        user_data: user_data(params),
    }
}

fn minor_point<'a>(params: &Params<'a>) -> Message<'a>
    ensures { meant_by result ≡ meaning_by Kind.MinorSyncPoint (known_of params.now) [] }
{
    Message::MinorPoint {
        confirm: asks(params),
        number: number(params),
        user_data: user_data(params),
    }
}

fn restart<'a>(params: &Params<'a>) -> Message<'a>
    ensures { meant_by result ≡ meaning_by Kind.Resynchronize (known_of params.now) [] }
{
    Message::Restart {
        kind: resync_type(params),
        number: number(params),
        wishes: setting(params),
        user_data: user_data(params),
    }
}

fn restart_ack<'a>(params: &Params<'a>) -> Message<'a>
    ensures { meant_by result ≡ meaning_by Kind.ResynchronizeAck (known_of params.now) [] }
{
    Message::RestartAck {
        number: number(params),
        sides: setting(params),
        user_data: user_data(params),
    }
}

fn minor_ack<'a>(params: &Params<'a>) -> Message<'a>
    ensures { meant_by result ≡ meaning_by Kind.MinorSyncAck (known_of params.now) [] }
{
    Message::MinorAck {
        number: number(params),
        user_data: user_data(params),
    }
}

fn major_point<'a>(params: &Params<'a>) -> Message<'a>
    ensures { meant_by result ≡ meaning_by Kind.MajorSyncPoint (known_of params.now) [] }
{
    Message::MajorPoint {
        number: number(params),
        user_data: user_data(params),
    }
}

fn major_ack<'a>(params: &Params<'a>) -> Message<'a>
    ensures { meant_by result ≡ meaning_by Kind.MajorSyncAck (known_of params.now) [] }
{
    Message::MajorAck {
        number: number(params),
        user_data: user_data(params),
    }
}

fn abort<'a>(params: &Params<'a>) -> Message<'a>
    ensures { meant_by result ≡ meaning_by Kind.Abort (known_of params.now) [] }
{
    Message::Abort {
        transport_disconnect: transport_disconnect(params),
        user_data: user_data(params),
    }
}

/// A unit of this kind with these parameters, and for a DT its user information.
fn of_kind<'a>(kind: Kind, params: &Params<'a>, information: &'a [u8]) -> Message<'a>
    ensures { meant_by result ≡ meaning_by kind (known_of params.now) information.now }
{
    let user_data = user_data(params);
    match kind {
        Kind::Connect => connect(params),
        Kind::Accept => accept(params),
        Kind::Refuse => refuse(params),
        Kind::DataTransfer => Message::Data {
            user_data: information,
        },
        Kind::GiveTokens => Message::Give {
            tokens: tokens(params),
        },
        Kind::PleaseTokens => please_tokens(params),
        Kind::MinorSyncPoint => minor_point(params),
        Kind::MinorSyncAck => minor_ack(params),
        Kind::MajorSyncPoint => major_point(params),
        Kind::MajorSyncAck => major_ack(params),
        Kind::Resynchronize => restart(params),
        Kind::ResynchronizeAck => restart_ack(params),
        Kind::Finish => Message::Finish { user_data },
        Kind::Disconnect => Message::Disconnect { user_data },
        Kind::NotFinished => Message::NotFinished { user_data },
        Kind::Abort => abort(params),
        Kind::AbortAccept => Message::AbortAccept,
    }
}

impl<'a> Message<'a> {
    /// The meaning of a unit, with the default values of absent parameters (X.225 section 8).
    pub fn of(unit: &Spdu<'a>) -> Message<'a>
        ensures { meant_by result ≡ meaning (said_by unit.now) }
    {
        of_kind(unit.kind(), unit.params(), unit.information())
    }
}
