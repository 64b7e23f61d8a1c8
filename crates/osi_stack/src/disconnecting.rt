//! Giving up a single connection.

ghost use Rattle.std.specs.Prelude.{◌≡◌, true, IfErr, OnOk, OnErr};
ghost use Rattle.osi_carrier.specs.Calls.{closed_with};
ghost use Rattle.osi_carrier.specs.Growth.{grows};
ghost use Rattle.osi_stack.specs.Disconnecting.{disconnects};
ghost use Rattle.osi_stack.specs.State.{holding};

use crate::lines::Lines;
use crate::transport::close;
use osi_carrier::Carrier;
use osi_session::CallError;

/// Closes the transport connection of a reference if it is open, and gives up its session. Memory is needed only for a
/// DR; an allocation failure changes nothing.
pub fn give_up(carrier: &mut Carrier, lines: &mut Lines, reference: u16) -> Result<(), CallError>
    ensures ok { OnOk result (holding carrier.new lines.new
        ≡ record (holding carrier.old lines.old) { end = disconnects reference (holding carrier.old lines.old).end }) }
    ensures err { OnErr result (holding carrier.new lines.new ≡ holding carrier.old lines.old) }
    ensures refused { IfErr result (λ e. e ≡ CallError.OutOfMemory) }
    ensures needed { OnErr result (grows carrier.old.state (closed_with reference 128 carrier.old.state) ≡ true) }
{
    let Ok(()) = close(carrier, reference) else {
        return Err(CallError::OutOfMemory);
    };
    lines.give_up(reference);
    if carrier.ended().is_some() {
        lines.lose_all();
    }
    Ok(())
}
