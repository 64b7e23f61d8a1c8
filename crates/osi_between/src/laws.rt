//! Laws of two carriers and the units between them. Each function does nothing: its clauses are the
//! laws.

ghost use Rattle.std.specs.Prelude.{◌≡◌, ◌<◌, ◌≤◌, ◌++◌, ◌+◌, ◌⊎◌, ℕ, Bool, true, false, not, List, [], ◌∷◌, Option, Some, None, length};
ghost use Rattle.std.specs.Prelude.{map, take};
ghost use Rattle.std.specs.List.{AllByRecursion};
ghost use Rattle.osi_tpkt.specs.declared.cutting.Fed.{Fed};
ghost use Rattle.osi_unit.specs.Octets.{IsOctets};
ghost use Rattle.osi_tpdu.specs.Value.{Value};
ghost use Rattle.osi_tpdu.specs.Writing.{written};
ghost use Rattle.osi_class.specs.Between.{IsShortTsdu};
ghost use Rattle.osi_class.specs.Link.{Standing};
ghost use Rattle.osi_class.specs.declared.terms.Local.{Local};
ghost use Rattle.osi_carrier.specs.declared.ends.EndReason.{EndReason};
ghost use Rattle.osi_carrier.specs.declared.ends.EndReason.TheVariants.{Closed, NoMemory};
ghost use Rattle.osi_between.specs.Addresses.{reference_of};
ghost use Rattle.osi_between.specs.Between.{Both, side, arriving, Between, last_of, units_from, lost_from, under_way, answers_in};
ghost use Rattle.osi_between.specs.Between.{AreBetween, Acted, becomes, Took, Same, handed_over, still_to_tell, Lost, ended_at, broken_at};
ghost use Rattle.osi_between.specs.Between.{fresh_both, fresh_between, IsStill, IsAllThere};
ghost use Rattle.osi_between.specs.Terms.{Terms, by_two, by_zero, terms_of};
ghost use Rattle.osi_tpkt.specs.Packet.{IsPacket, IsFaultOf, packet_of};
ghost use Rattle.osi_tpkt.specs.declared.faults.TpktFault.{TpktFault};
ghost use Rattle.osi_carrier.specs.Calls.{fresh_state, may_connect, asks, sent, sent_all, closed_with};
ghost use Rattle.osi_carrier.specs.Coming.{IsSendable, AreComing};
ghost use Rattle.osi_carrier.specs.Place.{place_at};
ghost use Rattle.osi_carrier.specs.Happenings.{Happening};
ghost use Rattle.osi_carrier.specs.Packets.{Carrying, Feeds, after_packet, Acts, Starves};
ghost use Rattle.osi_carrier.specs.React.{react};
ghost use Rattle.osi_carrier.specs.Rows.{value_at};
ghost use Rattle.osi_carrier.specs.State.{Connection, asked, State, linked, packets, ends};
ghost use Rattle.osi_between.specs.Carried.{tsdus_in, all_told, all_handed_in, AreFirstOf};
ghost use Rattle.osi_between.specs.Taking.{TakesSome};
ghost use Rattle.osi_between.specs.Course.{progress_of, answers_at, IsTsap};
ghost use Rattle.osi_between.specs.Joined.{AreJoined, JoinedFrom, Did, IsEmpty, under_way_for};
ghost use Rattle.osi_between.specs.Journey.{Move, MayAll, StayBetween};
ghost use Rattle.osi_between.specs.Linked.{AreLinked, WasFed, with_state, with_events};
ghost use Rattle.osi_between.specs.Meeting.{Meeting, mirror, here, there, out, back, Stands, IsAt, answers_of, Moves};
ghost use Rattle.osi_between.specs.Messages.{Message, ask, message, bye};
ghost use Rattle.osi_between.specs.Progress.{in_use};

/// A connection of class 2 that both carriers have had open, seen from one of them. This carrier can always take
/// the oldest unit in flight to it, without a fault and without ending. The unit is a DT or an AK that the link
/// expects, one that a closing connection ignores, or the DR or DC that ends the connection here. In this step and
/// in each call, what was in flight to this carrier arrives in order and is reported, and what this carrier sends
/// is in flight after what was in flight before. A connection that is closed loses only TSDUs that it had not yet
/// cut into units. No other connection changes. The same holds seen from the other carrier.
pub fn what_a_connection_carries()
    ensures taken { (n : ℕ) (s : State) (m : Meeting) (unit : Value) (rest : List Value) → IsAt n s m → back n m ≡ unit ∷ rest →
        Moves n m s (react unit s) (unit ∷ []) (answers_of (here n m) unit) }
    ensures sent { (n : ℕ) (s : State) (m : Meeting) (link : Standing) (tsdu : List ℕ) → IsAt n s m → here n m ≡ Some (linked n link) →
        IsShortTsdu tsdu → IsOctets tsdu →
        Moves n m s (sent n tsdu s) [] (message tsdu ∷ []) }
    ensures closed { (n : ℕ) (s : State) (m : Meeting) (link : Standing) (reason : ℕ) → IsAt n s m → here n m ≡ Some (linked n link) →
        reason < 256 →
        Moves n m s (closed_with n reason s) [] (bye reason ∷ []) }
    ensures mirrored { (m : Meeting) → Stands m → Stands (mirror m) }
    ensures twice { (m : Meeting) → mirror (mirror m) ≡ m }
{}

/// Take the octets of a packet that a carrier holds, followed by the octets that its peer has still to hand over.
/// They are the packets of at most one list of units (`one`), and units that the peer then writes are added at its
/// end (`more`). However many of these octets are fed, the carrier takes the units one after the other, up to one
/// that stops it or at which memory runs out (`fed`). The octets are never at fault.
pub fn what_was_written_is_taken()
    ensures one { (held outgoing : List ℕ) (us vs : List Value) → AreComing held outgoing us → AreComing held outgoing vs → us ≡ vs }
    ensures more { (held outgoing : List ℕ) (coming units : List Value) → AreComing held outgoing coming → AllByRecursion IsSendable units →
        AreComing held (outgoing ++ packets units) (coming ++ units) }
    ensures fed { (old new : Carrying) (outgoing : List ℕ) (coming : List Value) (k : ℕ) (fed : Fed) → k ≤ length outgoing →
        AreComing old.held.octets outgoing coming → old.state.ended ≡ None → Feeds old (take k outgoing) fed new →
        TakesSome old outgoing coming fed.used new }
{}

/// Two carriers that both support class 2, and the units in flight between them, seen from one of them: `going`
/// away from it, `coming` to it; `end` is true for the caller. New ones are joined, and they stay so whatever unit
/// is taken, the oldest first, and whatever call is made. So neither carrier ends because of what the other wrote:
/// there is no fault of a link, no unknown reference, no bad answer and no unexpected unit, and each CR is
/// accepted, under the number that the caller gave. `ActsFor` says what is in flight for each connection. If no
/// unit is in flight, a connection that is open at both has nothing unfinished either.
pub fn two_carriers_stay_joined()
    ensures begins { (caller called : Local) → caller.class2 ≡ true → called.class2 ≡ true →
        AreJoined (fresh_state true caller) (fresh_state false called) [] [] }
    ensures turned { (end : Bool) (this other : State) (going coming : List Value) → JoinedFrom end this other going coming →
        JoinedFrom (not end) other this coming going }
    ensures taken { (end : Bool) (this other : State) (going coming rest : List Value) (unit : Value) →
        JoinedFrom end this other going coming →
        coming ≡ unit ∷ rest →
        Did end (reference_of unit) this other (react unit this) going coming rest (answers_at (place_at (reference_of unit) this) unit) }
    ensures asked { (caller called : State) (going coming : List Value) (calling to : Option (List ℕ)) →
        AreJoined caller called going coming →
        may_connect caller ≡ None → IsTsap calling → IsTsap to →
        Did true (caller.given + 1) caller called (asks calling to caller) going coming coming (ask ∷ []) }
    ensures handed_in { (end : Bool) (this other : State) (going coming : List Value) (n : ℕ) (link : Standing) (tsdu : List ℕ) →
        JoinedFrom end this other going coming → value_at n this.live ≡ Some (linked n link) → IsShortTsdu tsdu → IsOctets tsdu →
        Did end n this other (sent n tsdu this) going coming coming (message tsdu ∷ []) }
    ensures closed { (end : Bool) (this other : State) (going coming : List Value) (n : ℕ) (link : Standing) (reason : ℕ) →
        JoinedFrom end this other going coming → value_at n this.live ≡ Some (linked n link) → reason < 256 →
        Did end n this other (closed_with n reason this) going coming coming (bye reason ∷ []) }
    ensures empty { (caller called : State) (n : ℕ) (here there : Standing) → AreJoined caller called [] [] →
        value_at n caller.live ≡ Some (linked n here) → value_at n called.live ≡ Some (linked n there) → IsEmpty here there }
    ensures nothing_under_way { (caller called : State) (n : ℕ) (here there : Standing) → AreJoined caller called [] [] →
        value_at n caller.live ≡ Some (linked n here) → value_at n called.live ≡ Some (linked n there) →
        (under_way_for n caller called [] ≡ []) × (under_way_for n called caller [] ≡ []) }
{}

/// The same with the octets between them in place of units. New carriers that both support class 2 are linked. They
/// stay linked after any number of octets of one is fed to the other, in whatever pieces, unless that carrier runs
/// out of memory; after each call of [`two_carriers_stay_joined`]; and after an event is reported. Feeding takes
/// units, one after the other.
pub fn two_carriers_stay_linked()
    ensures begins { (caller called : Carrying) (a b : Local) → a.class2 ≡ true → b.class2 ≡ true → caller.state ≡ fresh_state true a →
        called.state ≡ fresh_state false b → caller.held.octets ≡ [] → called.held.octets ≡ [] → AreLinked true caller called [] [] }
    ensures turned { (end : Bool) (this other : Carrying) (going coming : List Value) → AreLinked end this other going coming →
        AreLinked (not end) other this coming going }
    ensures fed { (end : Bool) (this other next : Carrying) (going coming : List Value) (k : ℕ) (fed : Fed) →
        AreLinked end this other going coming →
        k ≤ length other.state.outgoing → Feeds this (take k other.state.outgoing) fed next →
        WasFed end this other next going coming fed.used }
    ensures called { (end : Bool) (this other : Carrying) (next : State) (n : ℕ) (going coming : List Value) (put : List Message) →
        AreLinked end this other going coming → (did : Did end n this.state other.state next going coming coming put) →
        AreLinked end (with_state next this) other did.behind coming }
    ensures told { (end : Bool) (this other : Carrying) (events : List Happening) (going coming : List Value) →
        AreLinked end this other going coming →
        AreLinked end (with_events events this) other going coming }
{}

/// The carriers of a caller and a called end, and the octets between them, whatever they agree on: class 2, class
/// 0, or that each connection is refused. `AreBetween` holds of new ones. It still holds after the next packet that
/// an end holds, after each call, when octets are handed over and events are reported, when an end ends for
/// whatever reason, out of memory included, and when the byte connection breaks.
///
/// A packet is one unit, and nothing that the other end wrote ends this end or is a fault. What was in flight to
/// the end that takes or calls has arrived and was reported, or is still in flight; only an end that is closing
/// drops octets, at the beginning of the first message. What was in flight from it stays, and what it sends
/// follows, except for what a close discards. If an end ends or the connection breaks, the last part of what is in
/// flight is lost, and after a break nothing that is sent arrives.
///
/// A reference is given for each connection that is requested or accepted, and for no other. A CC, or a CR that is
/// accepted, settles the class. In class 0 a close ends the carrier.
pub fn whatever_becomes_of_two_carriers()
    ensures begins { (caller called : Local) →
        AreBetween (terms_of caller called) (fresh_both caller called) (fresh_between caller called) }
    ensures taken { (terms : Terms) (end : Bool) (both : Both) (b : Between) (packet octets behind : List ℕ) → AreBetween terms both b →
        (side end both).state.ended ≡ None → IsPacket packet octets → (side end both).held ≡ octets ++ behind →
        Took terms end packet behind both b }
    ensures taken_first { (terms : Terms) (end : Bool) (both : Both) (b : Between) (unit : Value) (rest : List Value) (behind : List ℕ) →
        AreBetween terms both b → (side end both).state.ended ≡ None → units_from (not end) b ≡ unit ∷ rest →
        (side end both).held ≡ packet_of (written unit) ++ behind →
        Acted terms end (reference_of unit) both (becomes end (react unit (side end both).state) behind both) b (unit ∷ [])
        (answers_in terms (place_at (reference_of unit) (last_of end b)) unit) }
    ensures asked { (terms : Terms) (both : Both) (b : Between) (calling to : Option (List ℕ)) → AreBetween terms both b →
        both.caller.state.ended ≡ None → may_connect both.caller.state ≡ None → IsTsap calling → IsTsap to →
        Acted terms true (both.caller.state.given + 1) both (becomes true (asks calling to both.caller.state) both.caller.held both) b
        [] (ask ∷ []) }
    ensures handed_in { (terms : Terms) (end : Bool) (both : Both) (b : Between) (n peer : ℕ) (link : Standing) (tsdu : List ℕ) →
        AreBetween terms both b → (side end both).state.ended ≡ None → value_at n (side end both).state.live ≡ Some (linked peer link) →
        IsShortTsdu tsdu → IsOctets tsdu →
        Acted terms end n both (becomes end (sent n tsdu (side end both).state) (side end both).held both) b [] (message tsdu ∷ []) }
    ensures handed_in_all { (terms : Terms) (end : Bool) (both : Both) (b : Between) (n : ℕ) (tsdus : List (List ℕ)) →
        AreBetween terms both b →
        (side end both).state.ended ≡ None → progress_of (place_at n (last_of end b)) ≡ in_use →
        AllByRecursion IsShortTsdu tsdus → AllByRecursion IsOctets tsdus →
        Acted terms end n both (becomes end (sent_all n tsdus (side end both).state) (side end both).held both) b [] (map message tsdus) }
    ensures closed { (end : Bool) (both : Both) (b : Between) (n peer : ℕ) (link : Standing) (reason : ℕ) → AreBetween by_two both b →
        (side end both).state.ended ≡ None → value_at n (side end both).state.live ≡ Some (linked peer link) → reason < 256 →
        Acted by_two end n both (becomes end (closed_with n reason (side end both).state) (side end both).held both) b
        [] (bye reason ∷ []) }
    ensures closed_in_0 { (end : Bool) (both : Both) (b : Between) (n peer : ℕ) (link : Standing) (reason : ℕ) → AreBetween by_zero both b →
        (side end both).state.ended ≡ None → value_at n (side end both).state.live ≡ Some (linked peer link) →
        closed_with n reason (side end both).state ≡ ends Closed (side end both).state }
    ensures carried { (terms : Terms) (end : Bool) (both : Both) (b : Between) (k : ℕ) → AreBetween terms both b →
        k ≤ length (arriving end both) →
        Same terms both (handed_over end k both) b }
    ensures told { (terms : Terms) (end : Bool) (both : Both) (b : Between) (events : List Happening) → AreBetween terms both b →
        Same terms both (still_to_tell end events both) b }
    ensures ended { (terms : Terms) (end : Bool) (both : Both) (b : Between) (reason : EndReason) → AreBetween terms both b →
        Lost terms both (ended_at end reason both) b }
    ensures broken { (terms : Terms) (both : Both) (b : Between) (k l : ℕ) → AreBetween terms both b → both.reach ≡ None →
        k ≤ length both.caller.state.outgoing → l ≤ length both.called.state.outgoing → Lost terms both (broken_at k l both) b }
    ensures empty { (terms : Terms) (both : Both) (b : Between) (n p q : ℕ) (x y : Standing) → AreBetween terms both b → IsStill both →
        value_at n both.caller.state.live ≡ Some (linked p x) → value_at n both.called.state.live ≡ Some (linked q y) →
        IsAllThere n both b x y }
{}

/// Take an end that has not ended: the octets that it holds, those that will still arrive, and those that a break
/// discarded. They are the packets of all units that are in flight to it or were lost (`coming`), and it finds no
/// fault of the stream in them (`sound`). A packet is one unit; it takes effect, or memory runs out at it and
/// nothing of it is done.
pub fn what_an_end_holds()
    ensures coming { (terms : Terms) (end : Bool) (both : Both) (b : Between) →
        AreBetween terms both b → (side (not end) both).state.ended ≡ None →
        (never : List ℕ) × AreComing (side (not end) both).held (arriving end both ++ never) (units_from end b ++ lost_from end b) }
    ensures sound { (terms : Terms) (end : Bool) (both : Both) (b : Between) (at : ℕ) (fault : TpktFault) → AreBetween terms both b →
        (side end both).state.ended ≡ None → IsFaultOf at (side end both).held fault → ⊥ }
    ensures starved { (terms : Terms) (end : Bool) (both : Both) (b : Between) (packet octets behind : List ℕ) (new : State) →
        AreBetween terms both b → (side end both).state.ended ≡ None → IsPacket packet octets → (side end both).held ≡ octets ++ behind →
        Starves (side end both).state packet new → new ≡ ends NoMemory (side end both).state }
    ensures acts { (terms : Terms) (end : Bool) (both : Both) (b : Between) (packet octets behind : List ℕ) (new : State) →
        AreBetween terms both b → (side end both).state.ended ≡ None → IsPacket packet octets → (side end both).held ≡ octets ++ behind →
        Acts (side end both).state packet new → (new ≡ after_packet (side end both).state packet) ⊎ (new
        ≡ ends NoMemory (side end both).state) }
{}

/// Over every list of what can happen to two new carriers: calls at both, octets handed over in whatever pieces,
/// packets taken, events reported, ends and a break, in any possible order. For each connection, the TSDUs that are
/// reported at one end are a prefix of those handed in at the other, in order and with their octets (`told`). From
/// a later state on they are a prefix of those in flight followed by those handed in (`told_on`). `AreBetween`
/// holds after each such list (`stays`, `goes_on`).
///
/// An end has ended only for a reason that the list gives: a close of the connection of class 0, or an end of its
/// own. So neither ends because of what the other wrote.
pub fn what_no_list_of_calls_can_do()
    ensures stays { (caller called : Local) (moves : List Move) → MayAll moves (fresh_both caller called) →
        StayBetween (terms_of caller called) moves (fresh_both caller called) }
    ensures told { (caller called : Local) (moves : List Move) (from : Bool) (n : ℕ) → MayAll moves (fresh_both caller called) →
        AreFirstOf (all_told (not from) n moves (fresh_both caller called)) (all_handed_in from n moves) }
    ensures told_on { (terms : Terms) (moves : List Move) (both : Both) (b : Between) (from : Bool) (n : ℕ) → AreBetween terms both b →
        MayAll moves both →
        AreFirstOf (all_told (not from) n moves both) (tsdus_in (under_way from n both b) ++ all_handed_in from n moves) }
    ensures goes_on { (terms : Terms) (moves : List Move) (both : Both) (b : Between) → AreBetween terms both b → MayAll moves both →
        StayBetween terms moves both }
{}

/// For a reference that the caller has not given, nothing is in flight, and the called end has given no reference
/// that the caller has not. Before a class is agreed, each connection that is live at the caller awaits its answer.
pub fn what_two_carriers_have()
    ensures ahead { (terms : Terms) (both : Both) (b : Between) (end : Bool) (n : ℕ) → AreBetween terms both b →
        b.caller.given < n → under_way end n both b ≡ [] }
    ensures behind { (terms : Terms) (both : Both) (b : Between) → AreBetween terms both b → b.called.given ≤ b.caller.given }
    ensures awaits { (terms : Terms) (both : Both) (b : Between) (n : ℕ) (x : Connection) → AreBetween terms both b →
        b.caller.class ≡ None →
        value_at n b.caller.live ≡ Some x → x ≡ asked }
    ensures roles { (terms : Terms) (both : Both) (b : Between) →
        AreBetween terms both b → (b.caller.is_caller ≡ true) × (b.called.is_caller ≡ false) }
{}
