//! The calls of a user, by the words of a script.

ghost use Rattle.std.specs.Prelude.{◌≡◌, ◌≤◌, length};
ghost use Rattle.osi_script.specs.Names.{verb_name, all_verbs};

/// What a call of the user of a session asks for (X.215 section 10), as a script names it.
#[derive(Clone, Copy)]
pub enum Verb {
    /// Accepts the connection.
    Accept,
    /// Refuses the connection.
    Refuse,
    /// Sends data.
    Data,
    /// Gives tokens.
    Give,
    /// Asks for tokens.
    Please,
    /// Sets a minor synchronization point.
    Minor,
    /// Confirms minor points.
    MinorConfirm,
    /// Sets a major synchronization point.
    Major,
    /// Confirms the major point.
    MajorConfirm,
    /// Restarts at a point.
    Restart,
    /// Answers a restart.
    RestartConfirm,
    /// Asks for the release.
    Release,
    /// Accepts the release.
    ReleaseAccept,
    /// Refuses the release.
    ReleaseRefuse,
    /// Aborts the connection.
    Abort,
}

impl Verb {
    /// All of them.
    pub(crate) fn all() -> &'static [Verb]
        ensures { result.now ≡ all_verbs }
    {
        &[
            Verb::Accept,
            Verb::Refuse,
            Verb::Data,
            Verb::Give,
            Verb::Please,
            Verb::Minor,
            Verb::MinorConfirm,
            Verb::Major,
            Verb::MajorConfirm,
            Verb::Restart,
            Verb::RestartConfirm,
            Verb::Release,
            Verb::ReleaseAccept,
            Verb::ReleaseRefuse,
            Verb::Abort,
        ]
    }

    /// The word for the call.
    #[tactic(auto, unfolding(crate::specs::Names::verb_name))]
    pub fn name(self) -> &'static str
        ensures value { result.now ≡ verb_name self }
        ensures short { length result.now ≤ 14 }
    {
        match self {
            Verb::Accept => "accept",
            Verb::Refuse => "refuse",
            Verb::Data => "data",
            Verb::Give => "give",
            Verb::Please => "please",
            Verb::Minor => "minor",
            Verb::MinorConfirm => "minorconfirm",
            Verb::Major => "major",
            Verb::MajorConfirm => "majorconfirm",
            Verb::Restart => "restart",
            Verb::RestartConfirm => "restartconfirm",
            Verb::Release => "release",
            Verb::ReleaseAccept => "releaseaccept",
            Verb::ReleaseRefuse => "releaserefuse",
            Verb::Abort => "abort",
        }
    }
}
