//! What is told of the session of one side of a connection.

ghost use Rattle.std.specs.Prelude.{◌≡◌};
ghost use Rattle.osi_judge.specs.Outcomes.{state_of, violation_of};

use osi_session::{Numbers, Phase, Reply, Standing};
use osi_side::{Break, Rule};
use osi_spdu::{Kind, TokenSet};

/// What is told of the state of a session.
#[derive(Clone, Copy)]
pub struct SessionState {
    /// Its phase.
    pub phase: Phase,
    /// The tokens that it holds.
    pub held: TokenSet,
    /// The numbers of synchronization points.
    pub numbers: Numbers,
}

/// How a side broke the protocol, or left the profile.
#[derive(Clone, Copy)]
pub struct Violation {
    /// The unit that it sent; `None` if the TSDU is not session units.
    pub said: Option<Kind>,
    /// Why no session may send it: the rule for the session that came nearest.
    pub rule: Rule,
    /// How many TSDUs of the other side had passed before it.
    pub before: usize,
    /// How many of them that session had taken.
    pub taken: usize,
    /// The state of that session.
    pub state: SessionState,
}

/// What was found of the session of a side, by what both sides sent.
#[derive(Clone, Copy)]
pub enum Outcome {
    /// It sent this many TSDUs, and kept the protocol; so it stands, and this is the answer that it owes to the next TSDU, if it
    /// takes that.
    Kept(usize, SessionState, Option<Reply>),
    /// It broke the protocol with the packet at this offset, in which the TSDU ends.
    Broke(u64, Violation),
    /// It left the profile with the packet at this offset: it sent something that X.225 allows and a session of this library
    /// never sends.
    Left(u64, Violation),
    /// Too many sessions explain it, so it is judged no further.
    TooMany,
}

/// What is told of the state of a session.
pub(crate) fn state_of(standing: &Standing) -> SessionState
    ensures { result ≡ state_of standing.now }
{
    SessionState {
        phase: standing.phase(),
        held: standing.held(),
        numbers: standing.numbers(),
    }
}

/// What is told of a break.
pub(crate) fn violation_of(by: &Break) -> Violation
    ensures { result ≡ violation_of by.now }
{
    Violation {
        said: by.said,
        rule: by.rule,
        before: by.before,
        taken: by.taken,
        state: state_of(&by.standing),
    }
}
