//! Laws of listings. Each function does nothing: its clauses are the laws.

ghost use Rattle.std.specs.Prelude.{◌≡◌, ◌++◌, ℕ, List};
ghost use Rattle.std.specs.List.{flat_map};
ghost use Rattle.osi_listing.specs.declared.counting.Counts.{Counts};
ghost use Rattle.osi_listing.specs.declared.pieces.Lister.{Lister};
ghost use Rattle.osi_listing.specs.declared.pieces.Stage.TheVariants.{Going};
ghost use Rattle.osi_listing.specs.declared.traces.Keeping.TheVariants.{Lines};
ghost use Rattle.osi_listing.specs.declared.traces.Trace.{Trace};
ghost use Rattle.osi_listing.specs.Fed.{IsFed, Feeds, FeedsAll};
ghost use Rattle.osi_listing.specs.Listing.{IsListing};
ghost use Rattle.osi_listing.specs.SoFar.{IsListedSoFar};
ghost use Rattle.osi_listing.specs.Traced.{IsTraced, IsListedInPart, KeepsLittle, counted, octets_taken, unfetched};

use osi_tpkt::laws::a_stream_has_one_cut;

/// A capture has one listing: its octets determine the lines and the status.
pub fn a_capture_has_one_listing()
    ensures { (octets lines others : List ℕ) (status other : ℕ) → IsListing octets lines status → IsListing octets others other →
        (lines ≡ others) × (status ≡ other) }
{
    a_stream_has_one_cut();
}

/// However a stream is cut into the pieces that a lister is fed, the result is the same as if it were fed all at once.
/// The octets that were fed determine the lines so far and the counts.
pub fn the_pieces_do_not_matter()
    ensures pieces { (old new : Lister) (pieces : List (List ℕ)) (before after : List ℕ) → FeedsAll old pieces before after new →
        Feeds old (flat_map (λ piece. piece) pieces) before after new }
    ensures lines { (octets lines others : List ℕ) (counts other : Counts) → IsListedSoFar octets lines counts →
        IsListedSoFar octets others other → (lines ≡ others) × (counts ≡ other) }
{
    a_stream_has_one_cut();
}

/// The lines that were fetched of a trace are always a prefix of the listing of the octets that passed, or of a prefix
/// of these octets if the trace has stopped. That listing has what the trace has counted. As long as it keeps lines, the
/// fetched lines and those that nobody has fetched yet are the whole listing so far.
pub fn what_is_fetched_is_the_listing()
    ensures whole { (trace : Trace) (octets fetched : List ℕ) → IsTraced trace octets fetched → trace.keeping ≡ Lines →
        IsListedSoFar octets (fetched ++ unfetched trace) (counted trace) }
    ensures begins { (trace : Trace) (octets fetched : List ℕ) → IsTraced trace octets fetched →
        IsListedInPart octets fetched (octets_taken trace) (counted trace) }
{}

/// A lister keeps at most 65,535 octets of a packet, and of each stream at most 1,048,576 octets of a TSDU, until the stream has
/// a fault.
pub fn a_lister_keeps_little()
    ensures { (lister : Lister) (octets lines : List ℕ) → IsFed lister octets lines → lister.stage ≡ Going → KeepsLittle lister }
{}
