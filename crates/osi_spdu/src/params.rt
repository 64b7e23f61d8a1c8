//! The parameters of a session unit.

ghost use Rattle.std.specs.Prelude.{◌≡◌, ◌==◌, true, None, Some, [], ◌∷◌, is_some, option_map, set, length, if◌then◌else◌, IfSome, IfNone};
ghost use Rattle.osi_spdu.specs.Codes.{slot_of};
ghost use Rattle.osi_spdu.specs.Values.{canonical_in, digits_of};
ghost use Rattle.osi_spdu.specs.Known.{nothing, some_octets};
ghost use Rattle.osi_spdu.specs.Octets.{octets_of};
ghost use Rattle.osi_spdu.specs.Params.{cells_of, no_params, place_of, filled, slots_of, known_of, is_settled, present};
ghost use Rattle.osi_spdu.specs.Fields.{octet_list, enclosure_octet, token_octets, tokens_alone};

use crate::codes::Code;
use crate::fields::{Enclosure, Reason, ResyncType, SyncType, TsduMaximumSize, octet_of};
use crate::kinds::Kind;
use crate::octets::{Short, Value};
use crate::requirements::Requirements;
use crate::selectors::Selector;
use crate::serials::Serial;
use crate::settings::TokenSetting;
use crate::tokens::TokenSet;

/// The parameters of a session unit (X.225 section 8), each by its meaning, its code in brackets.
///
/// A parameter of a group counts only if the group is there.
#[derive(Clone, Copy)]
pub struct Params<'a> {
    /// Whether the group of the references is there (1).
    pub(crate) connection_identifier: bool,
    /// Whether the group of protocol options, version, first number and token setting is there (5).
    pub(crate) connect_accept_item: bool,
    /// Reference of the called session user (9).
    pub(crate) called_reference: Option<&'a [u8]>,
    /// Reference of the calling session user (10).
    pub(crate) calling_reference: Option<&'a [u8]>,
    /// Common reference (11).
    pub(crate) common_reference: Option<&'a [u8]>,
    /// Additional reference information (12).
    pub(crate) additional_reference: Option<&'a [u8]>,
    /// Whether a point asks for its confirmation (15).
    pub(crate) sync_type: Option<SyncType>,
    /// Tokens that are given or asked for (16).
    pub(crate) token_item: Option<TokenSet>,
    /// Whether the transport connection is kept (01 released), and who aborts (02 the user, 04 for
    /// a protocol error, 08 for no reason) (17).
    pub(crate) transport_disconnect: Option<u8>,
    /// Protocol options: bit 1 is extended concatenation (19).
    pub(crate) protocol_options: Option<u8>,
    /// The functional units (20).
    pub(crate) user_requirements: Option<Requirements>,
    /// The largest TSDU in each direction (21).
    pub(crate) tsdu_maximum_size: Option<TsduMaximumSize>,
    /// The versions of the protocol: bit 1 is version 1, bit 2 is version 2 (22).
    pub(crate) version: Option<u8>,
    /// The first synchronization point serial number (23).
    pub(crate) initial_number: Option<Serial>,
    /// Where the user data begins and ends (25).
    pub(crate) enclosure: Option<Enclosure>,
    /// The side that is to hold each token (26).
    pub(crate) token_setting: Option<TokenSetting>,
    /// What a resynchronization does (27).
    pub(crate) resync_type: Option<ResyncType>,
    /// A synchronization point serial number (42).
    pub(crate) number: Option<Serial>,
    /// Reflected parameter values (49).
    pub(crate) reflect: Option<&'a [u8]>,
    /// Why a connection is refused (50).
    pub(crate) reason: Option<Reason<'a>>,
    /// The calling session selector (51).
    pub(crate) calling_selector: Option<Selector<'a>>,
    /// The called session selector (52).
    pub(crate) called_selector: Option<Selector<'a>>,
    /// User data (193, or 194 in a CN above 512 octets).
    pub(crate) user_data: Option<&'a [u8]>,
}

impl Params<'static> {
    /// No parameter.
    pub(crate) const NONE: Params<'static> = Params {
        connection_identifier: false,
        connect_accept_item: false,
        called_reference: None,
        calling_reference: None,
        common_reference: None,
        additional_reference: None,
        sync_type: None,
        token_item: None,
        transport_disconnect: None,
        protocol_options: None,
        user_requirements: None,
        tsdu_maximum_size: None,
        version: None,
        initial_number: None,
        enclosure: None,
        token_setting: None,
        resync_type: None,
        number: None,
        reflect: None,
        reason: None,
        calling_selector: None,
        called_selector: None,
        user_data: None,
    };
}

impl<'a> Params<'a> {
    /// The parameters of a unit before any has been read.
    #[tactic(auto, using(crate::proofs::parameters::a_slot_is_filled::no_slots))]
    pub(crate) fn none() -> Params<'a>
        ensures { slots_of result ≡ nothing }
    {
        Params::NONE
    }

    /// Puts a serial number into its slot.
    #[inline(always)]
    #[tactic(auto, unfolding(crate::specs::Params::cells_of))]
    pub(crate) fn put_number(&mut self, number: Serial)
        ensures { cells_of self.new ≡ set (cells_of self.old) 17 (Some (digits_of number.number)) }
    {
        self.number = Some(number);
    }

    /// Normalises the parameters: a token item keeps only the bits that name a token, and empty user data counts as
    /// none.
    #[inline(always)]
    pub(crate) fn settle(&mut self)
        ensures value { known_of self.new ≡ known_of self.old }
        ensures settled { is_settled self.new ≡ true }
    {
        self.token_item = tokens_alone(self.token_item);
        self.user_data = some_octets(self.user_data);
    }

    /// The value of a parameter in its written form, empty user data included. The value of a group is empty.
    #[tactic(auto, unfolding(crate::specs::Params::slots_of, crate::specs::Params::cells_of, crate::specs::Params::place_of))]
    fn slot(&self, code: Code) -> Option<Value<'a>>
        ensures { option_map octets_of result ≡ slots_of self.now code }
    {
        match code {
            Code::ConnectionIdentifier => present(self.connection_identifier),
            Code::ConnectAcceptItem => present(self.connect_accept_item),
            Code::CalledReference => octets_value(self.called_reference),
            Code::CallingReference => octets_value(self.calling_reference),
            Code::CommonReference => octets_value(self.common_reference),
            Code::AdditionalReference => octets_value(self.additional_reference),
            Code::SyncType => Some(self.sync_type?.value()),
            Code::TokenItem => Some(self.token_item?.value()),
            Code::TransportDisconnect => octet_value(self.transport_disconnect),
            Code::ProtocolOptions => octet_value(self.protocol_options),
            Code::UserRequirements => Some(self.user_requirements?.value()),
            Code::TsduMaximumSize => Some(self.tsdu_maximum_size?.value()),
            Code::Version => octet_value(self.version),
            Code::InitialNumber => serial_value(self.initial_number),
            Code::Enclosure => Some(self.enclosure?.value()),
            Code::TokenSetting => Some(self.token_setting?.value()),
            Code::ResyncType => Some(self.resync_type?.value()),
            Code::Number => serial_value(self.number),
            Code::Reflect => octets_value(self.reflect),
            Code::Reason => Some(self.reason?.value()),
            Code::CallingSelector => selector_value(self.calling_selector),
            Code::CalledSelector => selector_value(self.called_selector),
            Code::UserData => octets_value(self.user_data),
            Code::ExtendedUserData => None,
        }
    }

    /// The value of a parameter in its written form, if it is there. The value of a group is empty.
    pub fn value(&self, code: Code) -> Option<Value<'a>>
        ensures { option_map octets_of result ≡ known_of self.now code }
    {
        let value = self.slot(code)?;
        if code.is_user_data() && value.is_empty() {
            return None;
        }
        Some(value)
    }

    /// Whether a parameter is there, empty user data included.
    #[tactic(auto, using(crate::proofs::parameters::a_slot_is_filled::has_mapped, crate::proofs::parameters::a_slot_is_filled::has_present), unfolding(crate::specs::Params::slots_of, crate::specs::Params::cells_of, crate::specs::Params::place_of))]
    pub(crate) fn has(&self, code: Code) -> bool
        ensures { result ≡ is_some (slots_of self.now code) }
    {
        match code {
            Code::ConnectionIdentifier => self.connection_identifier,
            Code::ConnectAcceptItem => self.connect_accept_item,
            Code::CalledReference => self.called_reference.is_some(),
            Code::CallingReference => self.calling_reference.is_some(),
            Code::CommonReference => self.common_reference.is_some(),
            Code::AdditionalReference => self.additional_reference.is_some(),
            Code::SyncType => self.sync_type.is_some(),
            Code::TokenItem => self.token_item.is_some(),
            Code::TransportDisconnect => self.transport_disconnect.is_some(),
            Code::ProtocolOptions => self.protocol_options.is_some(),
            Code::UserRequirements => self.user_requirements.is_some(),
            Code::TsduMaximumSize => self.tsdu_maximum_size.is_some(),
            Code::Version => self.version.is_some(),
            Code::InitialNumber => self.initial_number.is_some(),
            Code::Enclosure => self.enclosure.is_some(),
            Code::TokenSetting => self.token_setting.is_some(),
            Code::ResyncType => self.resync_type.is_some(),
            Code::Number => self.number.is_some(),
            Code::Reflect => self.reflect.is_some(),
            Code::Reason => self.reason.is_some(),
            Code::CallingSelector => self.calling_selector.is_some(),
            Code::CalledSelector => self.called_selector.is_some(),
            Code::UserData => self.user_data.is_some(),
            Code::ExtendedUserData => false,
        }
    }

    /// Puts the value of a parameter into its slot, and returns whether there was one before. `None` if the value is
    /// not allowed for this code in a unit of this kind.
    #[inline(always)]
    #[tactic(auto, using(crate::proofs::parameters::a_slot_is_filled::has_mapped, crate::proofs::parameters::a_slot_is_filled::has_present), unfolding(crate::specs::Params::slots_of, crate::specs::Params::cells_of, crate::specs::Params::place_of, crate::specs::Codes::slot_of, crate::specs::Codes::number_of, crate::specs::Values::canonical_in, crate::specs::Values::may_enclose, crate::specs::Values::canonical))]
    pub(crate) fn fill(&mut self, kind: Kind, code: Code, value: &'a [u8]) -> Option<bool>
        ensures value { is_some result ≡ is_some (canonical_in kind code value.now) }
        ensures taken { IfSome result (λ taken. taken ≡ is_some (slots_of self.old (slot_of code))) }
        ensures cells { cells_of self.new
            ≡ filled (cells_of self.old) (place_of (slot_of code)) (canonical_in kind code value.now) }
    {
        match code {
            Code::ConnectionIdentifier => mark(&mut self.connection_identifier),
            Code::ConnectAcceptItem => mark(&mut self.connect_accept_item),
            Code::CalledReference => keep(&mut self.called_reference, value),
            Code::CallingReference => keep(&mut self.calling_reference, value),
            Code::CommonReference => keep(&mut self.common_reference, value),
            Code::AdditionalReference => keep(&mut self.additional_reference, value),
            Code::SyncType => keep_read(&mut self.sync_type, SyncType::read(value)),
            Code::TokenItem => keep_read(&mut self.token_item, TokenSet::read(value)),
            Code::TransportDisconnect => keep_read(&mut self.transport_disconnect, octet_of(value)),
            Code::ProtocolOptions => keep_read(&mut self.protocol_options, octet_of(value)),
            Code::UserRequirements => keep_read(
                &mut self.user_requirements,
                Requirements::read(value),
            ),
            Code::TsduMaximumSize => keep_read(
                &mut self.tsdu_maximum_size,
                TsduMaximumSize::read(value),
            ),
            Code::Version => keep_read(&mut self.version, octet_of(value)),
            Code::InitialNumber => keep_read(&mut self.initial_number, Serial::read(value)),
            Code::Enclosure => keep_read(&mut self.enclosure, enclosure_in(kind, value)),
            Code::TokenSetting => keep_read(&mut self.token_setting, TokenSetting::read(value)),
            Code::ResyncType => keep_read(&mut self.resync_type, ResyncType::read(value)),
            Code::Number => keep_read(&mut self.number, Serial::read(value)),
            Code::Reflect => keep(&mut self.reflect, value),
            Code::Reason => keep_read(&mut self.reason, Reason::read(value)),
            Code::CallingSelector => keep_read(&mut self.calling_selector, Selector::read(value)),
            Code::CalledSelector => keep_read(&mut self.called_selector, Selector::read(value)),
            Code::UserData => keep(&mut self.user_data, value),
            Code::ExtendedUserData => keep(&mut self.user_data, value),
        }
    }
}

/// The enclosure in a unit of this kind: only a DT may have a part of user data.
#[inline(always)]
#[tactic(auto, unfolding(crate::specs::Values::canonical_in))]
fn enclosure_in(kind: Kind, value: &[u8]) -> Option<Enclosure>
    ensures { canonical_in kind Code.Enclosure value.now ≡ option_map (λ e. enclosure_octet e ∷ []) result }
{
    if kind.may_enclose(Code::Enclosure, value) {
        Enclosure::read(value)
    } else {
        None
    }
}

/// Puts a value into a slot, and returns whether there was one before.
#[inline(always)]
fn keep<T: Copy>(slot: &mut Option<T>, value: T) -> Option<bool>
    ensures taken { result ≡ Some (is_some slot.old) }
    ensures kept { slot.new ≡ Some value }
{
    let taken = slot.is_some();
    *slot = Some(value);
    Some(taken)
}

/// Puts what was read into a slot, and returns whether there was a value before. `None`, and the slot as it was, if
/// nothing could be read.
#[inline(always)]
fn keep_read<T: Copy>(slot: &mut Option<T>, read: Option<T>) -> Option<bool>
    ensures value { is_some result ≡ is_some read }
    ensures taken { IfSome result (λ taken. taken ≡ is_some slot.old) }
    ensures kept { IfSome read (λ value. slot.new ≡ Some value) }
    ensures left { IfNone read (slot.new ≡ slot.old) }
{
    keep(slot, read?)
}

/// Marks a group as there, and returns whether it was before.
#[inline(always)]
fn mark(there: &mut bool) -> Option<bool>
    ensures taken { result ≡ Some there.old }
    ensures marked { there.new ≡ true }
{
    let taken = *there;
    *there = true;
    Some(taken)
}

/// The tokens, without bits that name no token.
fn tokens_alone(tokens: Option<TokenSet>) -> Option<TokenSet>
    ensures same { option_map token_octets result ≡ option_map token_octets tokens }
    ensures alone { tokens_alone result ≡ true }
{
    let tokens = tokens?;
    Some(tokens.alone())
}

/// The octets, unless there are none.
pub(crate) fn some_octets(octets: Option<&[u8]>) -> Option<&[u8]>
    ensures same { option_map (λ s. s.now) result ≡ some_octets (option_map (λ s. s.now) octets.entry) }
{
    let octets = octets?;
    if octets.is_empty() {
        None
    } else {
        Some(octets)
    }
}

/// These octets as the value of a parameter, if they are there.
fn octets_value(octets: Option<&[u8]>) -> Option<Value<'_>>
    ensures { option_map octets_of result ≡ option_map (λ s. s.now) octets.entry }
{
    Some(Value::of_slice(octets?))
}

/// An octet as the value of a parameter, if it is there.
fn octet_value<'a>(octet: Option<u8>) -> Option<Value<'a>>
    ensures { option_map octets_of result ≡ option_map octet_list octet }
{
    Some(Value::of_octet(octet?))
}

/// A serial number as the value of a parameter, if it is there.
fn serial_value<'a>(number: Option<Serial>) -> Option<Value<'a>>
    ensures { option_map octets_of result ≡ option_map (λ s. digits_of s.number) number }
{
    Some(number?.value())
}

/// A selector as the value of a parameter, if it is there.
fn selector_value(selector: Option<Selector<'_>>) -> Option<Value<'_>>
    ensures { option_map octets_of result ≡ option_map (λ s. s.octets.now) selector.entry }
{
    Some(selector?.value())
}

/// The value of a group is empty.
fn present<'a>(there: bool) -> Option<Value<'a>>
    ensures { option_map octets_of result ≡ present there }
{
    if there {
        Some(Value::of_slice(&[]))
    } else {
        None
    }
}
