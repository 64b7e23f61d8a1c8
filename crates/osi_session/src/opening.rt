//! A caller's request.

ghost use Rattle.std.specs.Prelude.{◌≡◌};
ghost use Rattle.osi_message.specs.Meanings.{meant_by};
ghost use Rattle.osi_message.specs.Written.{user_data_of};
ghost use Rattle.osi_session.specs.Openings.{asked_for};

use crate::selected::FunctionalUnits;
use crate::sides::offered;
use osi_message::Message;
use osi_spdu::{Requirements, Selector, Serial, TokenSetting, TsduSizes};

/// The contents of a CN (X.225 section 8, connect).
#[derive(Clone, Copy)]
pub struct Opening<'a> {
    /// The functional units that are offered (X.225 section 8, session user requirements).
    pub requirements: Requirements,
    /// The number of the first synchronization point, 0 to 999,999. It is sent if minor synchronize, major synchronize
    /// or resynchronize is offered, and left out otherwise.
    pub serial: Serial,
    /// The side wished for as the first holder of each token (X.225 section 8, token setting). For a token whose
    /// functional unit is not offered, the asker is written.
    pub wishes: TokenSetting,
    /// The address of the calling user, 0 to 16 octets.
    pub calling_selector: Option<Selector<'a>>,
    /// The address of the called user, 0 to 16 octets.
    pub called_selector: Option<Selector<'a>>,
    /// The largest TSDU in each direction (X.225 section 8, TSDU maximum size).
    pub sizes: TsduSizes,
    /// User data, at most 10,240 octets.
    pub user_data: &'a [u8],
}

impl<'a> Opening<'a> {
    /// The CN, of version 2 (X.225 section 8, connect).
    #[tactic(auto, unfolding(osi_message::specs::Written::user_data_of))]
    pub(crate) fn message(&self) -> Message<'a>
        ensures meaning { meant_by result ≡ asked_for self.now }
        ensures data { user_data_of (meant_by result) ≡ self.now.user_data.now }
    {
        let units = FunctionalUnits::of(self.requirements);
        Message::Connect {
            version_2: true,
            requirements: self.requirements,
            serial: units.initial_number(self.serial),
            wishes: offered(units, self.wishes),
            calling: self.calling_selector,
            called: self.called_selector,
            sizes: self.sizes.named(),
            user_data: self.user_data,
        }
    }
}
