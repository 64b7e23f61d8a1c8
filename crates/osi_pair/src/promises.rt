//! What the users of two ends may rely on. Each function does nothing: its clauses are the laws.

ghost use Rattle.std.specs.Prelude.{◌≡◌, ℕ, List};
ghost use Rattle.osi_machine.specs.Machine.{Step};
ghost use Rattle.osi_pair.specs.Ends.{TwoEnds};
ghost use Rattle.osi_pair.specs.Promises.{AgreeUnlessDuplex, AllWereAskedFor, AreAtRest, AreTakenInOrder, ConfirmedIsSeen};
ghost use Rattle.osi_pair.specs.Promises.{EndsForFewReasons, HasNoFault, HaveOneHolder, IsAllTaken, IsLegalJournal, IsOpenAt, IsSafe};
ghost use Rattle.osi_pair.specs.Promises.{IsShownAsAsked, LoseAsTheyEnd, OfEachConnection, kept_at};
ghost use Rattle.osi_pair.specs.Reached.{HoldLess, IsReached};
ghost use Rattle.osi_pair.specs.Standing.{StandsAt};
ghost use Rattle.osi_pair.specs.declared.sides.Side.{Side};

use osi_between::laws::whatever_becomes_of_two_carriers;
use osi_machine::laws::{the_tables_are_the_machine, what_is_heard_was_said, what_two_tables_tell};

/// What the users of two ends may rely on, read from the journal and from the state that each end reports of its
/// connections. The journal is an execution of the machine. For each connection, no token is held by both ends. Unless
/// duplex is selected, one of the two views that the journal tells is a prefix of the other; so each synchronization
/// point that both users have seen has the same number, kind and octets, and the same items before it. With duplex, as
/// soon as one of the two sides has sent or seen the answer that selects it, the data that a user receives is a prefix
/// of the data that the other asked to send. Each point in the view of a side with a number below its V(A) is in the
/// view of the other, unless the other has requested a restart and has seen no answer. No entry of the journal,
/// whatever its reference, indicates a fault to a user, of his side or of the other, or ends an end with one. An end
/// ends only by a break, by an allocation failure, or by its own close. A user is told of a loss only if his end was
/// told of a break or ran out of memory. All of this, and that units are taken as they were sent
/// ([`what_is_taken_was_sent`]), holds of two ends that match some list of steps, as those of every pair do.
pub fn what_two_ends_tell()
    ensures legal_journal { (p : TwoEnds) (steps : List Step) → StandsAt p steps → IsLegalJournal p }
    ensures asked { (p : TwoEnds) (steps : List Step) → StandsAt p steps → AllWereAskedFor p }
    ensures one_holder { (p : TwoEnds) (steps : List Step) → StandsAt p steps → HaveOneHolder p }
    ensures agreement { (p : TwoEnds) (steps : List Step) → StandsAt p steps → OfEachConnection AgreeUnlessDuplex p }
    ensures duplex { (p : TwoEnds) (steps : List Step) → StandsAt p steps → OfEachConnection IsShownAsAsked p }
    ensures confirmed_is_seen { (p : TwoEnds) (steps : List Step) → StandsAt p steps → OfEachConnection (ConfirmedIsSeen p) p }
    ensures no_fault { (p : TwoEnds) (steps : List Step) → StandsAt p steps → HasNoFault p }
    ensures ends { (p : TwoEnds) (steps : List Step) → StandsAt p steps → EndsForFewReasons p }
    ensures lost { (p : TwoEnds) (steps : List Step) → StandsAt p steps → LoseAsTheyEnd p }
    ensures all { (p : TwoEnds) → IsReached p → IsSafe p }
{
    the_tables_are_the_machine();
    what_two_tables_tell();
    what_is_taken_was_sent();
}

/// For each connection and each way, the units that one session has taken are a prefix of those that the other's
/// session has sent, whole and in order, whatever the cuts, the credit and the other connections. They are all of them,
/// and neither end keeps an octet of the connection, if there was no break, neither end has ended or has octets to hand
/// over, and the connection is open at both ends. Then neither end keeps any received octet at all. Both statements
/// need that an end holds less than a packet, as those of every pair do between two events.
pub fn what_is_taken_was_sent()
    ensures prefix { (p : TwoEnds) (steps : List Step) → StandsAt p steps → AreTakenInOrder steps p }
    ensures all_taken { (p : TwoEnds) (steps : List Step) (r : ℕ) → StandsAt p steps → HoldLess p → AreAtRest p → IsOpenAt r p.left.end →
        IsOpenAt r p.right.end →
        IsAllTaken r p steps }
    ensures nothing_kept { (p : TwoEnds) (steps : List Step) → StandsAt p steps → HoldLess p → AreAtRest p → (side : Side) →
        kept_at side p ≡ 0 }
{
    whatever_becomes_of_two_carriers();
    what_is_heard_was_said();
}
