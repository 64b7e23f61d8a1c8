//! Whether a session unit has a parameter.

ghost use Rattle.std.specs.Prelude.{◌≡◌, is_some};
ghost use Rattle.osi_spdu.specs.Params.{known_of};

use osi_spdu::{Code, Params};

/// Whether a parameter or a group is there. It looks at no value, so it costs less than asking for one.
#[inline(always)]
#[tactic(auto, using(crate::proofs::fields_one_after_the_other::mapped), unfolding(osi_spdu::specs::Params::known_of, osi_spdu::specs::Params::slots_of, osi_spdu::specs::Params::cells_of, osi_spdu::specs::Params::place_of, osi_spdu::specs::Codes::number_of))]
pub(crate) fn is_there(params: &Params, code: Code) -> bool
    ensures { result ≡ is_some (known_of params.now code) }
{
    match code {
        Code::ConnectionIdentifier => params.connection_identifier(),
        Code::ConnectAcceptItem => params.connect_accept_item(),
        Code::CalledReference => params.called_reference().is_some(),
        Code::CallingReference => params.calling_reference().is_some(),
        Code::CommonReference => params.common_reference().is_some(),
        Code::AdditionalReference => params.additional_reference().is_some(),
        Code::SyncType => params.sync_type().is_some(),
        Code::TokenItem => params.token_item().is_some(),
        Code::TransportDisconnect => params.transport_disconnect().is_some(),
        Code::ProtocolOptions => params.protocol_options().is_some(),
        Code::UserRequirements => params.user_requirements().is_some(),
        Code::TsduMaximumSize => params.tsdu_maximum_size().is_some(),
        Code::Version => params.version().is_some(),
        Code::InitialNumber => params.initial_number().is_some(),
        Code::Enclosure => params.enclosure().is_some(),
        Code::TokenSetting => params.token_setting().is_some(),
        Code::ResyncType => params.resync_type().is_some(),
        Code::Number => params.number().is_some(),
        Code::Reflect => params.reflect().is_some(),
        Code::Reason => params.reason().is_some(),
        Code::CallingSelector => params.calling_selector().is_some(),
        Code::CalledSelector => params.called_selector().is_some(),
        Code::UserData => params.user_data().is_some(),
        Code::ExtendedUserData => false,
    }
}
