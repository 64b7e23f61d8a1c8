//! The words that say how files are run.

/// How an argument of the program is to be taken.
#[derive(Clone, Copy)]
pub(crate) enum Kind {
    Pair,
    EachWay,
    Again,
    Octets,
    Show,
    Damaged,
    Long,
    Together,
    Texts,
    Judge,
    Seen,
    Runs,
    Fed,
}

/// The words, and how the names after each are run.
const KINDS: [(&str, Kind); 13] = [
    ("pair", Kind::Pair),
    ("each-way", Kind::EachWay),
    ("again", Kind::Again),
    ("octets", Kind::Octets),
    ("show", Kind::Show),
    ("damaged", Kind::Damaged),
    ("long", Kind::Long),
    ("together", Kind::Together),
    ("texts", Kind::Texts),
    ("judge", Kind::Judge),
    ("seen", Kind::Seen),
    ("runs", Kind::Runs),
    ("fed", Kind::Fed),
];

impl Kind {
    /// How the names after this word are run.
    pub(crate) fn behind(word: &str) -> Option<Kind> {
        for (name, kind) in KINDS {
            if name == word {
                return Some(kind);
            }
        }
        None
    }

    /// The kind of the file that is run.
    pub(crate) fn given(self) -> &'static str {
        match self {
            Kind::Pair | Kind::EachWay | Kind::Again | Kind::Long | Kind::Together | Kind::Seen =>
                "script",
            Kind::Octets | Kind::Fed => "octets",
            Kind::Show | Kind::Damaged => "hex",
            Kind::Texts => "texts",
            Kind::Judge => "disputes",
            Kind::Runs => "scripts",
        }
    }

    /// The kind of the file with the wanted result; none if the file that is run has it.
    pub(crate) fn wanted(self) -> Option<&'static str> {
        match self {
            Kind::Pair | Kind::EachWay | Kind::Again | Kind::Long => Some("transcript"),
            Kind::Show => Some("listing"),
            Kind::Octets
            | Kind::Damaged
            | Kind::Together
            | Kind::Texts
            | Kind::Judge
            | Kind::Seen
            | Kind::Runs
            | Kind::Fed => None,
        }
    }
}
