//! Laws of judgements: what one text can be judged to be. Each function does nothing; its clauses are the laws.

ghost use Rattle.std.specs.Prelude.{◌≡◌, ◌++◌, true, false, ℕ, List, []};
ghost use Rattle.osi_side.specs.declared.directions.Direction.{Direction};
ghost use Rattle.osi_side.specs.declared.directions.Direction.TheVariants.{Left, Right};
ghost use Rattle.osi_side.specs.Captures.{Capture, other, stream};
ghost use Rattle.osi_side.specs.Judging.{Observed};
ghost use Rattle.osi_report.specs.Blaming.{BlameNowhere, IsBlameless};
ghost use Rattle.osi_report.specs.Disputes.{IsJudgement};
ghost use Rattle.osi_report.specs.Reports.{IsLast, IsReport, Report, all_keep, carried, is_clear, some_over};
ghost use Rattle.osi_report.specs.News.{Announces, IsNews, IsPartOf};
ghost use Rattle.osi_report.specs.ReportTexts.{last_line, report_text};
ghost use Rattle.osi_report.specs.declared.reports.Last.{Last};
ghost use Rattle.osi_report.specs.declared.reports.Last.TheVariants.{BothKept, OneDirection};
ghost use Rattle.osi_report.specs.declared.reports.Pair.{Pair};
ghost use Rattle.osi_report.specs.Rows.{IsCaptureOf};
ghost use Rattle.osi_judge.specs.Blaming.{NobodyIs};
ghost use Rattle.osi_judge.specs.Connections.{Joined};
ghost use Rattle.osi_judge.specs.KnownSessions.{IsSession};
ghost use Rattle.osi_judge.specs.States.{State, comes_to};

/// A text is one capture, and one thing is found of the session of a side on a connection.
pub fn a_text_has_one_finding()
    ensures text { (text : List ℕ) (some others : Capture) → IsCaptureOf text some → IsCaptureOf text others → some ≡ others }
    ensures finding { (d : Direction) (j : Joined) (some others : Observed) → IsSession d j some → IsSession d j others
        → some.finding ≡ others.finding }
{}

/// What a capture comes to has one report, and a text has one judgement: the lines and the status are a function of the text.
pub fn a_text_has_one_judgement()
    ensures report { (s : State) (r q : Report) → IsReport s r → IsReport s q → r ≡ q }
    ensures text { (text lines others : List ℕ) (status other : ℕ) → IsJudgement text lines status
        → IsJudgement text others other → (lines ≡ others) × (status ≡ other) }
{}

/// The last line says who is to blame, that both sides kept the protocol, or why that is not known: it is never empty.
pub fn a_judgement_ends_with_a_line()
    ensures { (last : Last) → last_line last ≡ [] → ⊥ }
{}

/// If the last line says that both sides kept the protocol, all was judged: the transport of both sides broke no rule and was judged to
/// its end, no session of any connection is to blame, each kept the protocol, and of each all that passed was judged.
pub fn both_kept_means_that_all_was_judged()
    ensures { (s : State) (pairs : List Pair) → IsLast s pairs BothKept → (is_clear (carried Left s) ≡ true)
        × (is_clear (carried Right s) ≡ true) × (all_keep pairs ≡ true) × (some_over pairs ≡ false) × NobodyIs s.course.sessions }
{}

/// If a side sent no octet, nothing is judged: no line of the judgement says of either side that it broke the protocol or left the
/// profile, and the status is 1 (`quiet`). If the other side sent some, the last line says that only one direction is here (`last`).
pub fn one_direction_is_not_judged()
    ensures quiet { (d e : Direction) (text lines : List ℕ) (status : ℕ) (j : IsJudgement text lines status) → stream e j.capture ≡ []
        → BlameNowhere d lines × (status ≡ 1) }
    ensures last { (e : Direction) (text lines : List ℕ) (status : ℕ) (j : IsJudgement text lines status) → stream e j.capture ≡ []
        → (stream (other e) j.capture ≡ [] → ⊥) → (front : List ℕ) × (lines ≡ front ++ last_line OneDirection) }
{}

/// What a hearing tells of a capture while it is heard ([`crate::Hearing::news`]): each line is one of the report of what has passed by
/// then (`line`). As long as a side has sent no octet, nothing is told (`quiet`).
pub fn what_is_told_is_a_line_of_the_report()
    ensures line { (s : State) (r : Report) (line : List ℕ) → IsNews s line → IsReport s r → IsPartOf line (report_text r) }
    ensures quiet { (e : Direction) (capture : Capture) (old new : List ℕ) → stream e capture ≡ [] → Announces capture old new
        → new ≡ old }
{}

/// What is printed of a side is found of it. If what the capture comes to has no break of the side, neither of its transport nor of a
/// session on any connection ([`IsBlameless`]), no line of the judgement says that the side broke the protocol or left the profile:
/// no line of a connection or of its transport, none that says after which packet a side is not judged, and not the last line
/// ([`BlameNowhere`]).
///
/// [`IsBlameless`]: ../specs/Blaming.antt
/// [`BlameNowhere`]: ../specs/Blaming.antt
pub fn what_is_printed_of_a_side_is_found()
    ensures { (d : Direction) (text lines : List ℕ) (status : ℕ) (j : IsJudgement text lines status) → IsBlameless d (comes_to j.capture)
        → BlameNowhere d lines }
{}
