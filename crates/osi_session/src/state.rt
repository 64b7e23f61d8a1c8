//! The state of a session.

ghost use Rattle.std.specs.Prelude.{◌≡◌};
ghost use Rattle.osi_session.specs.Sessions.{asking};

use crate::numbers::Numbers;
use crate::opening::Opening;
use crate::phases::Phase;
use crate::selected::FunctionalUnits;
use crate::sides::offered;
use osi_message::Tokens;
use osi_spdu::{TokenSetting, TsduMaximumSize, Wish};

/// The state of a session, without octets.
#[derive(Clone, Copy)]
pub(crate) struct State {
    pub(crate) phase: Phase,
    /// Whether this end requested the connection.
    pub(crate) is_caller: bool,
    /// The functional units that the CN names until it is answered, then the selected ones.
    pub(crate) units: FunctionalUnits,
    /// The wishes of the CN or RS that waits for its answer.
    pub(crate) wishes: TokenSetting,
    /// The tokens that this end holds.
    pub(crate) held: Tokens,
    /// The first number that the CN proposes; 0 if it names none.
    pub(crate) proposed: u32,
    /// The first number of the connection; 0 until the CN is answered.
    pub(crate) base: u32,
    pub(crate) numbers: Numbers,
    /// The sizes that the CN names until it is answered, then the agreed ones.
    pub(crate) sizes: TsduMaximumSize,
}

impl State {
    /// The called side, which waits for a CN.
    pub(crate) const AWAITING: State = State {
        phase: Phase::WaitCn,
        is_caller: false,
        units: FunctionalUnits::NONE,
        wishes: TokenSetting {
            data_token: Wish::Asker,
            minor: Wish::Asker,
            major: Wish::Asker,
            release: Wish::Asker,
        },
        held: Tokens::NONE,
        proposed: 0,
        base: 0,
        numbers: Numbers {
            next: 0,
            confirmed: 0,
            lowest: 0,
            answers: false,
        },
        sizes: TsduMaximumSize::NONE,
    };

    /// The calling side, before the transport connection is open.
    pub(crate) fn asking(opening: &Opening) -> State
        ensures { result ≡ asking opening.now }
    {
        let units = FunctionalUnits::of(opening.requirements);
        State {
            phase: Phase::WaitTransport,
            is_caller: true,
            units,
            wishes: offered(units, opening.wishes),
            proposed: units.base(opening.serial.number),
            sizes: opening.sizes.named(),
            ..State::AWAITING
        }
    }
}
