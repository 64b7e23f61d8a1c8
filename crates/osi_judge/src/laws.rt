//! What holds of all captures. Each law is the contract of a function that does nothing.

ghost use Rattle.std.specs.Prelude.{◌≡◌, ◌≤◌, ◌+◌, ◌++◌, ◌∷◌, [], ℕ, List, Option, None, Some, true, false, length};
ghost use Rattle.osi_side.specs.Captures.{Capture, other, piece};
ghost use Rattle.osi_side.specs.Keeping.{kept_in, once, room_in};
ghost use Rattle.osi_side.specs.Outlines.{outline};
ghost use Rattle.osi_side.specs.declared.findings.Finding.{Finding};
ghost use Rattle.osi_side.specs.declared.directions.Direction.{Direction as Side};
ghost use Rattle.osi_judge.specs.declared.marks.First.{First};
ghost use Rattle.osi_judge.specs.declared.marks.Layer.{Layer};
ghost use Rattle.osi_judge.specs.Blaming.{IsFirstOf, IsMarkOf, NobodyIs, SomeoneIs};
ghost use Rattle.osi_judge.specs.declared.connections.Connection.{Connection};
ghost use Rattle.osi_judge.specs.Bounds.{IsWithin};
ghost use Rattle.osi_judge.specs.Connections.{Joined, numbered, spoken};
ghost use Rattle.osi_judge.specs.Courses.{Moment};
ghost use Rattle.osi_judge.specs.Holding.{line_in, streamed, HoldsJoined, IsHeard};
ghost use Rattle.osi_judge.specs.Pasts.{StayOver};
ghost use Rattle.osi_judge.specs.Lines.{Spoken, added, begun_octets, heard, kept_of};
ghost use Rattle.osi_judge.specs.Standing.{pick, HoldsState, IsFed, IsJudged, IsPart, first_in};
ghost use Rattle.osi_judge.specs.States.{State, stream_of, octets_pass, after, begin_within, comes_to, GoesOn};
ghost use Rattle.osi_judge.specs.declared.rooms.Room.TheVariants.{Octets};
ghost use Rattle.osi_judge.specs.declared.judge.Judge.{Judge};

/// It doesn't matter in which pieces a capture passes. If a capture has two parts, the second continues from what
/// the first came to (`join`). And octets of one packet that pass at once come to the same as one after the other
/// (`octets`).
pub fn pieces_do_not_matter()
    ensures join { (a b : Capture) (s : State) → after (a ++ b) s ≡ after b (after a s) }
    ensures octets { (d : Side) (o : ℕ) (os : List ℕ) (s : State) → (stream_of d s).spent ≡ false → GoesOn (stream_of d s).held (o ∷ os)
        → octets_pass d (o ∷ os) s ≡ after (piece d (o ∷ os)) s }
{}

/// A judge that was fed a capture holds what the capture comes to, octet by octet, whatever the pieces were. So two judges that
/// were fed one capture hold the same, and say the same.
pub fn a_judge_holds_what_passed()
    ensures { (capture : Capture) (t : Judge) → IsFed capture t → HoldsState t (comes_to capture) }
{}

/// A judge that was fed a capture tells the first break of all, of transport and of sessions, once all that passed
/// is judged: no unit that passed before it had one (`first`). If it tells none, no unit of the capture had a
/// break, and no session of any connection is to blame (`nobody`). If the first break is of transport, it is the
/// one that is told of its side, with its packet, unit and cause (`transport`). If a session broke the protocol
/// first, that session is to blame for all that passed (`session`).
///
/// So a capture has one first break, whatever the pieces were (`one`). The units pass in the order of the octets
/// that complete their packets: those of a prefix of the capture pass before all others (`order`).
pub fn the_first_break_is_the_earliest()
    ensures first { (capture : Capture) (t : Judge) → IsFed capture t → IsJudged t → IsFirstOf (first_in t) (comes_to capture).course.past }
    ensures nobody { (capture : Capture) (t : Judge) → IsFed capture t → IsJudged t → first_in t ≡ None
        → NobodyIs (comes_to capture).course.sessions }
    ensures transport { (capture : Capture) (t : Judge) (f : First) → IsFed capture t → IsJudged t → first_in t ≡ Some f
        → f.layer ≡ Layer.Transport → IsMarkOf f.direction f (comes_to capture).course }
    ensures session { (capture : Capture) (t : Judge) (f : First) → IsFed capture t → IsJudged t → first_in t ≡ Some f
        → f.layer ≡ Layer.Session → SomeoneIs f.direction f.connection (comes_to capture).course.sessions }
    ensures one { (past : List Moment) (f g : Option First) → IsFirstOf f past → IsFirstOf g past → f ≡ g }
    ensures order { (capture more : Capture) → (rest : List Moment)
        × ((comes_to (capture ++ more)).course.past ≡ (comes_to capture).course.past ++ rest) }
{}

/// What a judge keeps. Once all that passed is judged, it keeps at most a part of a packet of each direction
/// (`packets`). Of a session that kept the protocol it keeps at most 4,096 sessions that explain it; with more, the
/// session is judged no further (`sessions`).
///
/// Of what a side of a connection sent, it keeps the outline of each TSDU, of equal outlines in a row only one, and
/// the octets of the unfinished TSDU. That is no more than what the side sent, if for each outline and each TSDU
/// the seven octets count with which a packet and a DT begin (`octets`). If each outline counts for 48 octets more
/// than it has, that is the room by which a bound counts (`room`).
pub fn no_more_is_kept_than_passed()
    ensures packets { (d : Side) (t : Judge) (s : State) → HoldsState t s → IsJudged t
        → IsPart (pick d (streamed t.left) (streamed t.right)) }
    ensures sessions { (d : Side) (c : Connection) (j : Joined) → HoldsJoined c j → (line_in d c).side.finding ≡ Finding.Kept
        → length (line_in d c).side.members ≤ 4096 }
    ensures octets { (d : Side) (c : Connection) (j : Joined) → HoldsJoined c j → IsHeard c
        → kept_in (once (line_in (other d) c).side.heard) + length (line_in d c).begun
        ≤ kept_in (heard (spoken d j)) + length (begun_octets (spoken d j).begun) }
    ensures room { (d : Side) (c : Connection) (j : Joined) → HoldsJoined c j → IsHeard c
        → room_in (once (line_in (other d) c).side.heard) + length (line_in d c).begun ≡ kept_of (spoken d j) }
{}

/// If a judge has a bound for each connection ([`crate::Judge::within`]), it keeps no more of a connection than the
/// bound, whatever passes (`bound`). What counts are the outlines of the TSDUs of both sides, of equal ones in a
/// row only one, each with 48 octets more, and the unfinished TSDUs. A TSDU that has the outline of the one before
/// it takes no room (`again`).
pub fn a_connection_is_kept_within_its_bound()
    ensures bound { (capture : Capture) (most number : ℕ) (j : Joined)
        → numbered number (after capture (begin_within (Octets most))).course.sessions ≡ Some j → IsWithin most j }
    ensures again { (at : ℕ) (octets last : List ℕ) (front : List (List ℕ)) (s : Spoken) → heard s ≡ front ++ last ∷ []
        → outline (begun_octets s.begun ++ octets) ≡ outline last → kept_of (added at true octets s) ≤ kept_of s }
{}

/// A connection that is over and whose place was given to another keeps its place among those that are over
/// ([`crate::Judge::replaced`]), whatever passes, and so does what was found of it. So a reader that has looked at the first of them
/// needs to look only at those that come after these.
pub fn what_is_over_stays()
    ensures { (capture : Capture) (s : State) → StayOver s.course.sessions.done (after capture s).course.sessions.done }
{}
