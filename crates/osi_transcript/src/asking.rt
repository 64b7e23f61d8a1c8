//! What a line of a script asks of two ends.

ghost use Rattle.std.specs.Prelude.{◌≡◌, IfSome, IfNone};
ghost use Rattle.osi_script.specs.Commands.{command_by};
ghost use Rattle.osi_transcript.specs.Asking.{side_in, IsEvent, IsNoEvent};
ghost use Rattle.osi_transcript.specs.Entries.{name_of};

use osi_carrier::Ref;
use osi_pair::Event;
use osi_stack::Connect;

/// The end of a side.
pub fn side_of(side: osi_script::Side) -> osi_pair::Side
    ensures { result ≡ side_in side }
{
    match side {
        osi_script::Side::Left => osi_pair::Side::Left,
        osi_script::Side::Right => osi_pair::Side::Right,
    }
}

/// The side of an end.
pub fn named(side: osi_pair::Side) -> osi_script::Side
    ensures { result ≡ name_of side }
{
    match side {
        osi_pair::Side::Left => osi_script::Side::Left,
        osi_pair::Side::Right => osi_script::Side::Right,
    }
}

/// The event that a line asks for. The line that declares the two ends asks for none.
pub fn event_of<'a>(command: osi_script::Command<'a>) -> Option<Event<'a>>
    ensures some { IfSome result (λ event. IsEvent (command_by command.entry) event) }
    ensures none { IfNone result (IsNoEvent (command_by command.entry)) }
{
    match command {
        osi_script::Command::Ends { .. } => None,
        osi_script::Command::Connect {
            requirements,
            serial,
            wishes,
            sizes,
            user_data,
        } => Some(Event::Connect(Connect {
            requirements,
            serial,
            wishes,
            calling_tsap: None,
            called_tsap: None,
            calling_selector: None,
            called_selector: None,
            sizes,
            user_data,
        })),
        osi_script::Command::Call {
            side,
            reference,
            request,
        } => Some(Event::Call(side_of(side), Ref(reference), request)),
        osi_script::Command::Carry { side, octets } => {
            Some(Event::Carry(side_of(side), octets as usize))
        }
        osi_script::Command::Break { left, right } => {
            Some(Event::Break(left as usize, right as usize))
        }
        osi_script::Command::Told { side } => Some(Event::Told(side_of(side))),
    }
}
