//! What sessions hand to the carrier.

ghost use Rattle.std.specs.Prelude.{◌≡◌, [], ◌||◌, map, true, None, is_some, unwrap_or, IfErr, OnOk, OnErr};
ghost use Rattle.osi_carrier.specs.Calls.{closed_with, sent_all, send_all_error, open_link, call_error as sending_error};
ghost use Rattle.osi_carrier.specs.Growth.{grows};
ghost use Rattle.osi_carrier.specs.Pieces.{tsdus_in, FitTsdus};
ghost use Rattle.osi_message.specs.Tsdus.{octets_lent};
ghost use Rattle.osi_stack.specs.Calls.{send_refusal, Refuses};
ghost use Rattle.osi_stack.specs.Transport.{hands, answers_by};

use osi_carrier::{Carrier, Pieces, Ref, SendError};
use osi_message::{LentTsdus, Sent, Tsdus};
use osi_session::CallError;
use std::alloc::AllocError;

/// The reason of a DR by which a session closes its transport connection: 128, a normal disconnect
/// (X.224 section 13.5.3).
const NORMAL: u8 = 128;

/// Sends TSDUs together. An error changes nothing.
#[tactic(auto, using(crate::proofs::called::tsdus_that_are_handed_together::one_error))]
fn send(carrier: &mut Carrier, reference: u16, tsdus: LentTsdus<'_>) -> Result<(), SendError>
    ensures ok { OnOk result (carrier.new ≡ record carrier.old { state = sent_all reference (octets_lent tsdus.entry) carrier.old.state }) }
    ensures allowed { OnOk result (send_all_error (octets_lent tsdus.entry) (open_link reference carrier.old.state) ≡ None) }
    ensures refused { IfErr result (λ e.
        sending_error e ≡ send_all_error (octets_lent tsdus.entry) (open_link reference carrier.old.state)) }
    ensures err { OnErr result (carrier.new ≡ carrier.old) }
{
    match tsdus {
        LentTsdus::One(tsdu) => carrier.send(Ref(reference), tsdu),
        LentTsdus::Parts(tsdus) => carrier.send_all(Ref(reference), tsdus),
    }
}

/// Sends what a session sends, if the carrier takes it, that is on an open connection. An allocation failure changes
/// nothing.
fn hand(carrier: &mut Carrier, reference: u16, sent: &Sent) -> Result<(), AllocError>
    ensures ok { OnOk result (carrier.new ≡ record carrier.old { state = hands reference sent.now carrier.old.state }) }
    ensures err { OnErr result (carrier.new ≡ carrier.old) }
{
    match send(carrier, reference, sent.tsdus()) {
        Ok(()) => Ok(()),
        Err(SendError::NotOpen) => Ok(()),
        Err(SendError::TooLong) => Ok(()),
        Err(SendError::OutOfMemory) => Err(AllocError),
    }
}

/// Sends what a session sends, if it sends anything.
#[tactic(auto, using(crate::proofs::called::tsdus_that_are_handed_together::hands_none))]
fn hand_some(carrier: &mut Carrier, reference: u16, sent: Option<Sent>) -> Result<(), AllocError>
    ensures ok { OnOk result (carrier.new ≡ record carrier.old { state = hands reference (unwrap_or sent []) carrier.old.state }) }
    ensures err { OnErr result (carrier.new ≡ carrier.old) }
    ensures needed { OnErr result (is_some sent ≡ true) }
{
    match sent {
        None => Ok(()),
        Some(sent) => hand(carrier, reference, &sent),
    }
}

/// Closes an open connection. Memory is needed for a DR; an allocation failure changes nothing.
#[tactic(auto, using(crate::proofs::stream::what_needs_memory_does_something::closing_needs))]
pub fn close(carrier: &mut Carrier, reference: u16) -> Result<(), AllocError>
    ensures ok { OnOk result (carrier.new ≡ record carrier.old { state = closed_with reference 128 carrier.old.state }) }
    ensures err { OnErr result (carrier.new ≡ carrier.old) }
    ensures needed { OnErr result (grows carrier.old.state (closed_with reference 128 carrier.old.state) ≡ true) }
{
    match carrier.close(Ref(reference), NORMAL) {
        Ok(()) => Ok(()),
        Err(SendError::NotOpen) => Ok(()),
        Err(SendError::TooLong) => Ok(()),
        Err(SendError::OutOfMemory) => Err(AllocError),
    }
}

/// Closes the connection of a session if the session says so, or sends what it sends. Memory is needed for what is
/// sent and for a DR; an allocation failure changes nothing.
pub fn answer(
    carrier: &mut Carrier,
    reference: u16,
    sent: Option<Sent>,
    closes: bool,
) -> Result<(), AllocError>
    ensures ok { OnOk result (carrier.new
        ≡ record carrier.old { state = answers_by closes reference (unwrap_or sent []) carrier.old.state }) }
    ensures err { OnErr result (carrier.new ≡ carrier.old) }
    ensures needed { OnErr
        result ((is_some sent || grows carrier.old.state (answers_by closes reference (unwrap_or sent []) carrier.old.state)) ≡ true) }
{
    if closes {
        return close(carrier, reference);
    }
    hand_some(carrier, reference, sent)
}

/// The error of a call of the user if the carrier does not take what it sends.
pub fn call_error(error: SendError) -> CallError
    ensures { Refuses result None (send_refusal (sending_error error)) }
{
    match error {
        SendError::NotOpen => CallError::Ended,
        SendError::TooLong => CallError::TooLong,
        SendError::OutOfMemory => CallError::OutOfMemory,
    }
}

/// Sends what a call of the user sends. An error changes nothing.
pub fn send_call(carrier: &mut Carrier, reference: u16, sent: &Sent) -> Result<(), CallError>
    ensures ok { OnOk result (carrier.new ≡ record carrier.old { state = hands reference sent.now carrier.old.state }) }
    ensures allowed { OnOk result (send_refusal (send_all_error sent.now (open_link reference carrier.old.state)) ≡ None) }
    ensures refused { IfErr result (λ e. Refuses e None (send_refusal (send_all_error sent.now (open_link reference carrier.old.state)))) }
    ensures err { OnErr result (carrier.new ≡ carrier.old) }
{
    match send(carrier, reference, sent.tsdus()) {
        Ok(()) => Ok(()),
        Err(error) => Err(call_error(error)),
    }
}

/// Sends the parts of one Data, all of them or none. The function is kept out of line: otherwise code that drops parts
/// would be on the path of whole data, too.
#[inline(never)]
fn send_parts(carrier: &mut Carrier, reference: u16, tsdus: Vec<Vec<u8>>) -> Result<(), CallError>
    ensures ok { OnOk result (carrier.new
        ≡ record carrier.old { state = hands reference (map (λ v. v.items) tsdus.items) carrier.old.state }) }
    ensures allowed { OnOk
        result (send_refusal (send_all_error (map (λ v. v.items) tsdus.items) (open_link reference carrier.old.state)) ≡ None) }
    ensures refused { IfErr result (λ e.
        Refuses e None (send_refusal (send_all_error (map (λ v. v.items) tsdus.items) (open_link reference carrier.old.state)))) }
    ensures err { OnErr result (carrier.new ≡ carrier.old) }
{
    match carrier.send_all_owned(Ref(reference), tsdus) {
        Ok(()) => Ok(()),
        Err(error) => Err(call_error(error)),
    }
}

/// The same as [`send_call`], and takes over the buffers: what may not be sent yet is not copied.
#[tactic(auto, using(crate::proofs::called::tsdus_that_are_handed_together::one_error))]
pub fn send_owned_call(carrier: &mut Carrier, reference: u16, sent: Sent) -> Result<(), CallError>
    ensures ok { OnOk result (carrier.new ≡ record carrier.old { state = hands reference sent carrier.old.state }) }
    ensures allowed { OnOk result (send_refusal (send_all_error sent (open_link reference carrier.old.state)) ≡ None) }
    ensures refused { IfErr result (λ e. Refuses e None (send_refusal (send_all_error sent (open_link reference carrier.old.state)))) }
    ensures err { OnErr result (carrier.new ≡ carrier.old) }
{
    match sent.into_tsdus() {
        Tsdus::Short(tsdu) => match carrier.send_headed(Ref(reference), &[], tsdu.as_slice()) {
            Ok(()) => Ok(()),
            Err(error) => Err(call_error(error)),
        },
        Tsdus::One(tsdu) => match carrier.send_owned(Ref(reference), tsdu) {
            Ok(()) => Ok(()),
            Err(error) => Err(call_error(error)),
        },
        Tsdus::Parts(tsdus) => send_parts(carrier, reference, tsdus),
    }
}

/// Sends TSDUs that are cut from octets, all of them or none.
pub fn send_pieces_call(
    carrier: &mut Carrier,
    reference: u16,
    pieces: &Pieces<'_>,
) -> Result<(), CallError>
    requires { FitTsdus pieces.now }
    ensures ok { OnOk result (carrier.new ≡ record carrier.old { state = hands reference (tsdus_in pieces.now) carrier.old.state }) }
    ensures allowed { OnOk result (send_refusal (send_all_error (tsdus_in pieces.now) (open_link reference carrier.old.state)) ≡ None) }
    ensures refused { IfErr result (λ e.
        Refuses e None (send_refusal (send_all_error (tsdus_in pieces.now) (open_link reference carrier.old.state)))) }
    ensures err { OnErr result (carrier.new ≡ carrier.old) }
{
    match carrier.send_all_headed(Ref(reference), pieces) {
        Ok(()) => Ok(()),
        Err(error) => Err(call_error(error)),
    }
}
