//! Laws of carriers. Each function does nothing: its clauses are the laws.

ghost use Rattle.std.specs.Prelude.{◌≡◌, ◌≢◌, ◌<◌, ◌≤◌, ◌^◌, ◌==◌, ◌&&◌, not, ◌⊎◌, ℕ, Bool, List, [], Option, Some, None, is_some};
ghost use Rattle.std.specs.List.{flat_map};
ghost use Rattle.osi_tpkt.specs.Packet.{IsPartial};
ghost use Rattle.osi_tpdu.specs.Value.{Value};
ghost use Rattle.osi_class.specs.declared.terms.Local.{Local};
ghost use Rattle.osi_carrier.specs.Calls.{fresh_state, may_connect, asks, sent, sent_all, closed_with, ended_by, tsaps_at};
ghost use Rattle.osi_carrier.specs.Happenings.{Happening};
ghost use Rattle.osi_carrier.specs.Named.{AreNamed, KeepsTsaps};
ghost use Rattle.osi_carrier.specs.Orderly.{IsOrderly, ChangesOne, connection_of};
ghost use Rattle.osi_carrier.specs.Packets.{Carrying, after_packet};
ghost use Rattle.osi_carrier.specs.React.{react};
ghost use Rattle.osi_carrier.specs.Rows.{value_at};
ghost use Rattle.osi_carrier.specs.Runs.{Call, CallsAlong, Reads, AreAlike, EndAlike, called_in, used_in};
ghost use Rattle.osi_carrier.specs.State.{State, ends};
ghost use Rattle.osi_carrier.specs.Told.{TellsOpen, is_open};
ghost use Rattle.osi_carrier.specs.declared.ends.EndReason.{EndReason};
ghost use Rattle.osi_carrier.specs.declared.ends.EndReason.TheVariants.{NoMemory};

use osi_tpkt::laws::{a_prefix_of_a_packet, a_stream_has_one_cut, no_packet_begins_another};

/// A unit is for one connection: the one with the reference that it names, and in class 0 the only one. All other
/// connections stay as they were, unless the unit ends the carrier; and at most one event is reported, of this
/// connection.
pub fn a_unit_changes_one_connection()
    ensures { (unit : Value) (s : State) → (react unit s).ended ≡ None → ChangesOne (connection_of unit s) s (react unit s) }
{}

/// The live connections of a carrier have references that were given, in rising order. At most 64 are live and at most
/// 65,535 references were given, and each live connection has its transport selectors. This holds of a new carrier, and
/// whatever is received and called preserves it.
pub fn references_rise()
    ensures begins { (is_caller : Bool) (local : Local) → IsOrderly (fresh_state is_caller local) }
    ensures unit { (unit : Value) (s : State) → IsOrderly s → IsOrderly (react unit s) }
    ensures packet { (packet : List ℕ) (s : State) → IsOrderly s → IsOrderly (after_packet s packet) }
    ensures asks { (calling called : Option (List ℕ)) (s : State) → may_connect s ≡ None → IsOrderly s → IsOrderly (asks calling called s) }
    ensures sent { (r : ℕ) (tsdu : List ℕ) (s : State) → IsOrderly s → IsOrderly (sent r tsdu s) }
    ensures sent_all { (r : ℕ) (tsdus : List (List ℕ)) (s : State) → IsOrderly s → IsOrderly (sent_all r tsdus s) }
    ensures closed { (r reason : ℕ) (s : State) → IsOrderly s → IsOrderly (closed_with r reason s) }
    ensures ends { (reason : EndReason) (s : State) → IsOrderly s → IsOrderly (ends reason s) }
    ensures ended { (reason : EndReason) (s : State) → IsOrderly s → IsOrderly (ended_by reason s) }
    ensures queues { (s : State) (outgoing : List ℕ) (events : List Happening) → IsOrderly s →
        IsOrderly (record s { outgoing = outgoing; events = events }) }
{}

/// A reference is never given again once its connection is gone.
pub fn no_reference_is_given_twice()
    ensures unit { (unit : Value) (s : State) (r : ℕ) → r ≤ s.given → value_at r s.live ≡ None → value_at r (react unit s).live ≡ None }
    ensures asks { (calling called : Option (List ℕ)) (s : State) (r : ℕ) → r ≤ s.given → value_at r s.live ≡ None →
        value_at r (asks calling called s).live ≡ None }
    ensures sent { (q r : ℕ) (tsdu : List ℕ) (s : State) → value_at r s.live ≡ None → value_at r (sent q tsdu s).live ≡ None }
    ensures sent_all { (q r : ℕ) (tsdus : List (List ℕ)) (s : State) → value_at r s.live ≡ None →
        value_at r (sent_all q tsdus s).live ≡ None }
    ensures closed { (q r reason : ℕ) (s : State) → value_at r s.live ≡ None → value_at r (closed_with q reason s).live ≡ None }
{}

/// Exactly the live connections have transport selectors. This holds of a new carrier, and whatever is received and
/// called preserves it. The selectors stay as they were received or requested until the connection is gone
/// (`unit_keeps` and the clauses after it).
pub fn each_live_connection_has_its_tsaps()
    ensures known { (r : ℕ) (s : State) → AreNamed s → is_some (tsaps_at r s) ≡ is_some (value_at r s.live) }
    ensures begins { (is_caller : Bool) (local : Local) → AreNamed (fresh_state is_caller local) }
    ensures unit { (unit : Value) (s : State) → AreNamed s → AreNamed (react unit s) }
    ensures asks { (calling called : Option (List ℕ)) (s : State) → AreNamed s → AreNamed (asks calling called s) }
    ensures sent { (r : ℕ) (tsdu : List ℕ) (s : State) → AreNamed s → AreNamed (sent r tsdu s) }
    ensures sent_all { (r : ℕ) (tsdus : List (List ℕ)) (s : State) → AreNamed s → AreNamed (sent_all r tsdus s) }
    ensures closed { (r reason : ℕ) (s : State) → AreNamed s → AreNamed (closed_with r reason s) }
    ensures ended { (reason : EndReason) (s : State) → AreNamed s → AreNamed (ended_by reason s) }
    ensures unit_keeps { (unit : Value) (s : State) → IsOrderly s → KeepsTsaps s (react unit s) }
    ensures asks_keeps { (calling called : Option (List ℕ)) (s : State) → IsOrderly s → KeepsTsaps s (asks calling called s) }
    ensures sent_keeps { (r : ℕ) (tsdu : List ℕ) (s : State) → IsOrderly s → KeepsTsaps s (sent r tsdu s) }
    ensures sent_all_keeps { (r : ℕ) (tsdus : List (List ℕ)) (s : State) → IsOrderly s → KeepsTsaps s (sent_all r tsdus s) }
    ensures closed_keeps { (r reason : ℕ) (s : State) → IsOrderly s → KeepsTsaps s (closed_with r reason s) }
{}

/// The pieces don't matter. Over every list of calls after which the carrier has not ended, the packets of the octets
/// that it held and used took effect, each whole and in order, with the user's calls between them, and nothing else
/// did. So if the user only takes events and octets, the result does not depend on the pieces in which the octets
/// arrived. If they end the carrier in one list of pieces, they end it in every other, for the same reason and with the
/// same state, unless memory runs out.
pub fn the_pieces_do_not_matter()
    ensures calls { (old new : Carrying) (calls : List Call) → CallsAlong old calls new → new.state.ended ≡ None → Reads old calls new }
    ensures pieces { (old a b : Carrying) (xs ys : List Call) → IsPartial old.held.octets → old.held.offset < 2 ^ 64 →
        CallsAlong old xs a → CallsAlong old ys b → flat_map called_in xs ≡ [] → flat_map called_in ys ≡ [] →
        flat_map used_in xs ≡ flat_map used_in ys → a.state.ended ≡ None → b.state.ended ≡ None → AreAlike a xs b ys }
    ensures lasts { (old a b : Carrying) (xs ys : List Call) → IsPartial old.held.octets → old.state.ended ≡ None →
        CallsAlong old xs a → CallsAlong old ys b → flat_map called_in xs ≡ [] → flat_map called_in ys ≡ [] →
        flat_map used_in xs ≡ flat_map used_in ys → a.state.ended ≡ None → (b.state.ended ≡ None) ⊎ (b.state.ended ≡ Some NoMemory) }
    ensures ends { (old a b : Carrying) (xs ys : List Call) → IsPartial old.held.octets → old.held.offset < 2 ^ 64 →
        old.state.ended ≡ None →
        CallsAlong old xs a → CallsAlong old ys b → flat_map called_in xs ≡ [] → flat_map called_in ys ≡ [] →
        flat_map used_in xs ≡ flat_map used_in ys → a.state.ended ≢ None → a.state.ended ≢ Some NoMemory → b.state.ended ≢ Some NoMemory →
        EndAlike a xs b ys }
{
    a_prefix_of_a_packet();
    a_stream_has_one_cut();
    no_packet_begins_another();
}

/// The events tell which connections are open. If the carrier has not ended, a connection is open exactly if it was
/// open and no event reported that it closed or faulted, or if an event reported that it opened. Of the user's calls
/// only a close changes that.
pub fn what_is_open_is_told()
    ensures unit { (unit : Value) (s : State) (r : ℕ) → IsOrderly s → (react unit s).ended ≡ None → TellsOpen r s (react unit s) }
    ensures packet { (packet : List ℕ) (s : State) (r : ℕ) → IsOrderly s → (after_packet s packet).ended ≡ None →
        TellsOpen r s (after_packet s packet) }
    ensures asks { (calling called : Option (List ℕ)) (s : State) (r : ℕ) → IsOrderly s → is_open r (asks calling called s) ≡ is_open r s }
    ensures sent { (q r : ℕ) (tsdu : List ℕ) (s : State) → is_open r (sent q tsdu s) ≡ is_open r s }
    ensures sent_all { (q r : ℕ) (tsdus : List (List ℕ)) (s : State) → is_open r (sent_all q tsdus s) ≡ is_open r s }
    ensures closed { (q r reason : ℕ) (s : State) → (closed_with q reason s).ended ≡ None →
        is_open r (closed_with q reason s) ≡ (is_open r s && not (q == r)) }
{}
