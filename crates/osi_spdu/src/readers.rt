//! Accessors of the parameters. Each gives the value by its meaning; the code is in brackets.

ghost use Rattle.std.specs.Prelude.{◌≡◌, [], ◌∷◌, is_some, option_map};
ghost use Rattle.osi_spdu.specs.Fields.{sync_octet, token_octets, octet_list, requirement_octets, size_octets, enclosure_octet};
ghost use Rattle.osi_spdu.specs.Fields.{setting_octets, resync_octet, reason_octets};
ghost use Rattle.osi_spdu.specs.Params.{known_of};
ghost use Rattle.osi_spdu.specs.Values.{digits_of};

use crate::codes::Code;
use crate::fields::{Enclosure, Reason, ResyncType, SyncType, TsduMaximumSize};
use crate::params::{Params, some_octets};
use crate::requirements::Requirements;
use crate::selectors::Selector;
use crate::serials::Serial;
use crate::settings::TokenSetting;
use crate::tokens::TokenSet;

#[tactic(auto, unfolding(crate::specs::Params::known_of, crate::specs::Params::slots_of, crate::specs::Params::cells_of, crate::specs::Params::place_of, crate::specs::Codes::number_of))]
impl<'a> Params<'a> {
    /// Whether the group of the references is there (1).
    pub fn connection_identifier(&self) -> bool
        ensures { result ≡ is_some (known_of self.now Code.ConnectionIdentifier) }
    {
        self.connection_identifier
    }

    /// Whether the group of protocol options, version, first number and token setting is there (5).
    pub fn connect_accept_item(&self) -> bool
        ensures { result ≡ is_some (known_of self.now Code.ConnectAcceptItem) }
    {
        self.connect_accept_item
    }

    /// Reference of the called session user (9).
    pub fn called_reference(&self) -> Option<&'a [u8]>
        ensures { option_map (λ s. s.now) result ≡ known_of self.now Code.CalledReference }
    {
        self.called_reference
    }

    /// Reference of the calling session user (10).
    pub fn calling_reference(&self) -> Option<&'a [u8]>
        ensures { option_map (λ s. s.now) result ≡ known_of self.now Code.CallingReference }
    {
        self.calling_reference
    }

    /// Common reference (11).
    pub fn common_reference(&self) -> Option<&'a [u8]>
        ensures { option_map (λ s. s.now) result ≡ known_of self.now Code.CommonReference }
    {
        self.common_reference
    }

    /// Additional reference information (12).
    pub fn additional_reference(&self) -> Option<&'a [u8]>
        ensures { option_map (λ s. s.now) result ≡ known_of self.now Code.AdditionalReference }
    {
        self.additional_reference
    }

    /// Whether a point asks for its confirmation (15).
    pub fn sync_type(&self) -> Option<SyncType>
        ensures { option_map (λ s. sync_octet s ∷ []) result ≡ known_of self.now Code.SyncType }
    {
        self.sync_type
    }

    /// Tokens that are given or asked for (16).
    pub fn token_item(&self) -> Option<TokenSet>
        ensures { option_map token_octets result ≡ known_of self.now Code.TokenItem }
    {
        self.token_item
    }

    /// Whether the transport connection is kept (01 released), and who aborts (02 the user, 04 for a
    /// protocol error, 08 for no reason) (17).
    pub fn transport_disconnect(&self) -> Option<u8>
        ensures { option_map octet_list result ≡ known_of self.now Code.TransportDisconnect }
    {
        self.transport_disconnect
    }

    /// Protocol options: bit 1 is extended concatenation (19).
    pub fn protocol_options(&self) -> Option<u8>
        ensures { option_map octet_list result ≡ known_of self.now Code.ProtocolOptions }
    {
        self.protocol_options
    }

    /// The functional units (20).
    pub fn user_requirements(&self) -> Option<Requirements>
        ensures { option_map requirement_octets result ≡ known_of self.now Code.UserRequirements }
    {
        self.user_requirements
    }

    /// The largest TSDU in each direction (21).
    pub fn tsdu_maximum_size(&self) -> Option<TsduMaximumSize>
        ensures { option_map size_octets result ≡ known_of self.now Code.TsduMaximumSize }
    {
        self.tsdu_maximum_size
    }

    /// The versions of the protocol: bit 1 is version 1, bit 2 is version 2 (22).
    pub fn version(&self) -> Option<u8>
        ensures { option_map octet_list result ≡ known_of self.now Code.Version }
    {
        self.version
    }

    /// The first synchronization point serial number (23).
    pub fn initial_number(&self) -> Option<Serial>
        ensures { option_map (λ s. digits_of s.number) result ≡ known_of self.now Code.InitialNumber }
    {
        self.initial_number
    }

    /// Where the user data begins and ends (25).
    pub fn enclosure(&self) -> Option<Enclosure>
        ensures { option_map (λ e. enclosure_octet e ∷ []) result ≡ known_of self.now Code.Enclosure }
    {
        self.enclosure
    }

    /// The side that is to hold each token (26).
    pub fn token_setting(&self) -> Option<TokenSetting>
        ensures { option_map setting_octets result ≡ known_of self.now Code.TokenSetting }
    {
        self.token_setting
    }

    /// What a resynchronization does (27).
    pub fn resync_type(&self) -> Option<ResyncType>
        ensures { option_map (λ r. resync_octet r ∷ []) result ≡ known_of self.now Code.ResyncType }
    {
        self.resync_type
    }

    /// A synchronization point serial number (42).
    pub fn number(&self) -> Option<Serial>
        ensures { option_map (λ s. digits_of s.number) result ≡ known_of self.now Code.Number }
    {
        self.number
    }

    /// Reflected parameter values (49).
    pub fn reflect(&self) -> Option<&'a [u8]>
        ensures { option_map (λ s. s.now) result ≡ known_of self.now Code.Reflect }
    {
        self.reflect
    }

    /// Why a connection is refused (50): at least one octet, of which the first is the reason code,
    /// and user data may follow (X.225 section 8.3.5).
    pub fn reason(&self) -> Option<Reason<'a>>
        ensures { option_map reason_octets result ≡ known_of self.now Code.Reason }
    {
        self.reason
    }

    /// The calling session selector (51).
    pub fn calling_selector(&self) -> Option<Selector<'a>>
        ensures { option_map (λ s. s.octets.now) result ≡ known_of self.now Code.CallingSelector }
    {
        self.calling_selector
    }

    /// The called session selector (52).
    pub fn called_selector(&self) -> Option<Selector<'a>>
        ensures { option_map (λ s. s.octets.now) result ≡ known_of self.now Code.CalledSelector }
    {
        self.called_selector
    }

    /// User data (193, or 194 in a CN above 512 octets): at least one octet.
    pub fn user_data(&self) -> Option<&'a [u8]>
        ensures { option_map (λ s. s.now) result ≡ known_of self.now Code.UserData }
    {
        some_octets(self.user_data)
    }
}
