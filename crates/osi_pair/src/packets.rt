//! How two ends match the machine of whole messages when an end takes a packet. Each function does nothing: its clauses
//! are the laws.

ghost use Rattle.std.specs.Prelude.{◌≡◌, ℕ, List, [], ◌++◌, None};
ghost use Rattle.osi_tpkt.specs.Held.{Held};
ghost use Rattle.osi_tpkt.specs.Packet.{IsPacket};
ghost use Rattle.osi_carrier.specs.Packets.{after_packet};
ghost use Rattle.osi_machine.specs.Machine.{Step};
ghost use Rattle.osi_pair.specs.Ends.{TwoEnds, end_at};
ghost use Rattle.osi_pair.specs.Standing.{packet_taken, StandsAt, StandsAtDeliveries};
ghost use Rattle.osi_pair.specs.declared.sides.Side.{Side};

use osi_between::laws::{what_two_carriers_have, whatever_becomes_of_two_carriers};
use osi_stack::laws::{
    a_session_is_what_its_inputs_made_it, a_session_that_is_called_has_a_connection,
};

/// Two ends match a list of steps of the machine, and an end that has not ended takes the first packet that it holds,
/// which its carrier does not report. Then the two match that list followed by deliveries to that end: none for a part
/// of a TSDU, for an AK, and for a part of a Data that is not the last; one for what arrives at a closing connection,
/// and for a CR that is refused.
pub fn what_an_untold_packet_does()
    ensures { (p : TwoEnds) (steps : List Step) (side : Side) (packet octets : List ℕ) (held : Held) → StandsAt p steps →
        (end_at side p).end.carrier.ended ≡ None → IsPacket packet octets → (end_at side p).held.octets ≡ octets ++ held.octets →
        (after_packet (end_at side p).end.carrier packet).events ≡ [] → StandsAtDeliveries side (packet_taken side packet held p) steps }
{
    whatever_becomes_of_two_carriers();
    what_two_carriers_have();
    a_session_is_what_its_inputs_made_it();
    a_session_that_is_called_has_a_connection();
}
