//! How two ends match the machine of whole messages. Each function does nothing: its clauses are the laws.

ghost use Rattle.std.specs.Prelude.{◌≡◌, ℕ, List, [], ◌∷◌, ◌++◌, None, true, is_some};
ghost use Rattle.osi_unit.specs.Octets.{IsOctets};
ghost use Rattle.osi_class.specs.declared.terms.Local.{Local};
ghost use Rattle.osi_session.specs.Allowed.{octets_of};
ghost use Rattle.osi_session.specs.Calls.{Call, HasSerial};
ghost use Rattle.osi_machine.specs.Machine.{Step, connects, calls};
ghost use Rattle.osi_stack.specs.declared.connecting.Connect.{Connect};
ghost use Rattle.osi_pair.specs.Asked.{asked_of, CanBeAsked};
ghost use Rattle.osi_pair.specs.Carrying.{CarriesFrom};
ghost use Rattle.osi_pair.specs.Ends.{TwoEnds, end_at, fresh_ends, after_connect, after_call, after_break};
ghost use Rattle.osi_pair.specs.Events.{Does, TellsBreak};
ghost use Rattle.osi_pair.specs.Reached.{IsReached};
ghost use Rattle.osi_pair.specs.SameEnds.{AreSameEnds, FoundMemory};
ghost use Rattle.osi_pair.specs.Sides.{other};
ghost use Rattle.osi_pair.specs.Standing.{side_in, offer_in, StandsAt, StandsAtArrivals, StandsAtBreak, StandsAtTold};
ghost use Rattle.osi_pair.specs.declared.events.Event.{Event};
ghost use Rattle.osi_pair.specs.declared.sides.Side.{Side};

use osi_between::laws::{
    what_an_end_holds, what_two_carriers_have, whatever_becomes_of_two_carriers,
};
use osi_machine::laws::{
    data_is_no_fault_behind, what_is_under_way_can_be_sent, what_stands_at_a_reference,
    what_two_tables_tell, who_is_left_is_over,
};
use osi_message::laws::{
    what_a_part_says, what_is_sent_is_octets, what_is_sent_is_read, what_leaves_in_parts,
};
use osi_session::laws::{
    an_empty_token_item_changes_nothing, numbers_stay_in_order, what_an_accepted_call_passed,
    what_becomes_of_a_unit, what_closes_sends_nothing, what_happens_has_numbers,
    what_is_sent_can_be_sent, what_two_units_do,
};
use osi_spdu::laws::{few_octets_fit, serial_digits};
use osi_stack::laws::{
    a_call_is_answered_by_its_session, a_session_is_what_its_inputs_made_it,
    a_session_that_is_called_has_a_connection, all_that_is_told_is_heard, lines_rise_by_reference,
    what_a_call_says,
};

/// Two fresh ends match the empty list of steps of the machine. If two ends match a list of steps and the byte
/// connection breaks, they match that list followed by one break. If it has broken and a side is told of it, they match
/// that list followed by the end of that side, or the same list if the side had ended.
pub fn how_two_ends_stand()
    ensures begins { (caller called : Local) → StandsAt (fresh_ends caller called) [] }
    ensures broken { (p : TwoEnds) (steps : List Step) (k l : ℕ) → StandsAt p steps → p.reach ≡ None →
        StandsAtBreak (after_break k l p) steps }
    ensures tells { (side : Side) (old new : TwoEnds) (steps : List Step) → StandsAt old steps → is_some old.reach ≡ true →
        TellsBreak side old new →
        StandsAtTold (end_at side old).end.carrier.ended side new steps }
{
    whatever_becomes_of_two_carriers();
    a_session_that_is_called_has_a_connection();
    data_is_no_fault_behind();
    who_is_left_is_over();
}

/// If two ends match a list of steps and the user of the left end requests a connection, or the user of a connection
/// makes a call, they match that list followed by the request or call, accepted or refused.
pub fn how_two_ends_are_called()
    ensures connects { (p : TwoEnds) (steps : List Step) (c : Connect) → CanBeAsked c → StandsAt p steps →
        StandsAt (after_connect c p) (steps ++ connects (offer_in (asked_of c)) ∷ []) }
    ensures calls { (p : TwoEnds) (steps : List Step) (side : Side) (r : ℕ) (call : Call) → HasSerial call → IsOctets (octets_of call) →
        StandsAt p steps →
        StandsAt (after_call side r call p) (steps ++ calls (side_in side) r call ∷ []) }
{
    whatever_becomes_of_two_carriers();
    what_a_call_says();
    a_call_is_answered_by_its_session();
    a_session_that_is_called_has_a_connection();
    a_session_is_what_its_inputs_made_it();
    all_that_is_told_is_heard();
    lines_rise_by_reference();
    what_leaves_in_parts();
    what_is_sent_can_be_sent();
    what_an_accepted_call_passed();
    what_is_under_way_can_be_sent();
    what_stands_at_a_reference();
    what_two_carriers_have();
}

/// If two ends match a list of steps and any number of octets of a side is carried, cut in any way, they match that
/// list followed by deliveries to the other side: one for each message that arrives, and none for a part of one. If
/// that side runs out of memory, its end follows.
///
/// The same number of octets has the same effect, however they are cut into pieces, unless a side ends because memory
/// runs out.
pub fn how_two_ends_carry()
    ensures carries { (side : Side) (most : ℕ) (old new : TwoEnds) (octets : ℕ) (steps : List Step) → StandsAt old steps →
        CarriesFrom side most old octets new → StandsAtArrivals (other side) new steps }
    ensures once { (side : Side) (most : ℕ) (p q a b : TwoEnds) (octets : ℕ) → IsReached p → IsReached q → AreSameEnds p q →
        CarriesFrom side most p octets a → CarriesFrom side most q octets b → FoundMemory a → FoundMemory b → AreSameEnds a b }
{
    whatever_becomes_of_two_carriers();
    what_two_carriers_have();
    what_an_end_holds();
    a_session_that_is_called_has_a_connection();
    a_session_is_what_its_inputs_made_it();
    few_octets_fit();
    serial_digits();
    what_is_sent_is_octets();
    what_is_sent_is_read();
    what_a_part_says();
    what_is_sent_can_be_sent();
    what_becomes_of_a_unit();
    an_empty_token_item_changes_nothing();
    what_two_units_do();
    what_closes_sends_nothing();
    what_happens_has_numbers();
    what_an_accepted_call_passed();
    numbers_stay_in_order();
    what_is_under_way_can_be_sent();
    data_is_no_fault_behind();
    who_is_left_is_over();
    what_two_tables_tell();
}

/// An event is deterministic. If two pairs of ends have the same state, and the same event happens to both and carries
/// equally many octets, they have the same state afterwards, unless a side has ended because memory ran out: the same
/// connections, the same octets and the same journal. Only the room that a side keeps ready for the octets of a packet
/// may differ.
pub fn an_event_does_one_thing()
    ensures { (event : Event) (p q a b : TwoEnds) (octets : ℕ) → IsReached p → IsReached q → IsReached a → IsReached b → AreSameEnds p q →
        Does event p octets a → Does event q octets b → FoundMemory a → FoundMemory b → AreSameEnds a b }
{
    how_two_ends_carry();
}
