//! The script that tells what both sides of a capture did.

ghost use Rattle.std.specs.Prelude.{◌≡◌, ◌<◌, ◌≤◌, ◌⊎◌, [], Err, IfOk, length};
ghost use Rattle.osi_listing.specs.Capture.{IsNoCapture};
ghost use Rattle.osi_witness.specs.Witnesses.{IsPlayed, Witnesses};

use crate::ends::ends_of;
use crate::players::{LONGEST, Player};
use crate::telling::Telling;
use crate::texts::capture_of;
use crate::{Capture, Conversation, Halt, Stop, is_before, push_comment};
use osi_listing::{CaptureFault, octets_of};
use osi_script::Side;
use osi_transcript::transcribe;
use std::alloc::{AllocError, Global};

/// A script that tells what both sides of a capture did.
#[derive(Drop)]
pub struct Witness {
    /// Its text.
    pub script: Vec<u8>,
    /// 0 if it tells all TSDUs of both sides, 1 if it stops before one, which its last line names.
    pub status: u8,
}

/// How late a connection is told. One that left sends nothing on is told after those on which it does, since what is carried for
/// these would make left go on with it; and one that is not answered is told last.
fn lateness(conversation: &Conversation) -> u8 {
    match conversation.answer {
        Some(_) => if conversation.left.said.is_empty() {
            1
        } else {
            0
        },
        None => 2,
    }
}

/// Whether a connection is told: it is requested before the script stops. One that is refused is left out if others are accepted,
/// since no end refuses one and accepts another; it has no session.
fn is_told(capture: &Capture, conversation: &Conversation, bound: Option<Stop>) -> bool {
    if conversation.is_refused() && capture.accepted().is_some() {
        return false;
    }
    match bound {
        Some(stop) => is_before(Side::Left, conversation.request.place, &stop),
        None => true,
    }
}

/// Tells the connections that are as late as this, in the order of their CRs.
fn tell_some(
    alloc: Global,
    capture: &Capture,
    late: u8,
    bound: Option<Stop>,
    player: &mut Player,
) -> Result<(), Stop> {
    'conversations: for conversation in capture.conversations.iter() {
        if lateness(conversation) == late && is_told(capture, conversation, bound) {
            Telling::new(alloc, conversation, bound, player).tell()?;
        }
    }
    Ok(())
}

/// Tells all connections, one after the other.
fn tell_all(
    alloc: Global,
    capture: &Capture,
    bound: Option<Stop>,
    player: &mut Player,
) -> Result<(), Stop> {
    'late: for late in 0u8..3 {
        tell_some(alloc, capture, late, bound, player)?;
    }
    Ok(())
}

/// A script of a capture in which left asks for no connection.
fn unopened(alloc: Global, capture: &Capture) -> Result<Witness, AllocError>
    ensures { IfOk result (λ w. w.status < 2) }
{
    finished(capture, Vec::new(alloc), capture.first_stop())
}

/// Whether a script that stops there stops earlier than this.
fn is_earlier(stop: &Stop, bound: Option<Stop>) -> bool {
    match bound {
        Some(bound) => is_before(stop.side, stop.place, &bound),
        None => true,
    }
}

/// A script of a capture in which left asks for connections. If one of several stops at what no call sends, the others are told anew
/// up to there.
fn opened(alloc: Global, capture: &Capture, request: &Conversation) -> Result<Witness, AllocError>
    ensures { IfOk result (λ w. w.status < 2) }
{
    let mut bound = capture.first_stop();
    let count = capture.conversations.len();
    'again: for _ in 0..count {
        let mut player = Player::new(alloc, &ends_of(capture, request))?;
        match tell_all(alloc, capture, bound, &mut player) {
            Ok(()) => return finished(capture, player.take_script(), bound),
            Err(stop) => {
                if count == 1 || stop.halt.is_final() || !is_earlier(&stop, bound) {
                    return finished(capture, player.take_script(), Some(stop));
                }
                bound = Some(stop);
            }
        }
    }
    Ok(Witness {
        script: Vec::new(alloc),
        status: 1,
    })
}

/// A script that tells all, or stops: then its last line says where, and why.
fn finished(capture: &Capture, script: Vec<u8>, stop: Option<Stop>) -> Result<Witness, AllocError>
    ensures { IfOk result (λ w. w.status < 2) }
{
    let Some(stop) = stop else {
        return Ok(Witness { script, status: 0 });
    };
    if let Halt::OutOfMemory = stop.halt {
        return Err(AllocError);
    }
    let mut script = script;
    let offset = stop.place.offset.min(capture.offset(stop.side));
    push_comment(&mut script, stop.side, offset, stop.halt.words())?;
    Ok(Witness { script, status: 1 })
}

/// A script that two ends play to its end, or none.
fn checked(alloc: Global, witness: Witness) -> Result<Witness, AllocError>
    requires { witness.status < 2 }
    ensures short { IfOk result (λ w. length w.script.items ≤ 16777216) }
    ensures played { IfOk result (λ w. IsPlayed w.script.items ⊎ ((w.script.items ≡ []) × (w.status ≡ 1))) }
    ensures status { IfOk result (λ w. w.status < 2) }
{
    if witness.script.len() <= LONGEST {
        let transcript = transcribe(alloc, witness.script.as_slice())?;
        if transcript.status == 0 {
            return Ok(witness);
        }
    }
    Ok(Witness {
        script: Vec::new(alloc),
        status: 1,
    })
}

/// The script that tells what both sides of a capture did, before it is played.
fn witness_of_capture(alloc: Global, capture: &Capture) -> Result<Witness, AllocError>
    ensures { IfOk result (λ w. w.status < 2) }
{
    match capture.conversations.first() {
        Some(first) => opened(alloc, capture, first),
        None => unopened(alloc, capture),
    }
}

fn witness_of_octets(alloc: Global, text: &[u8], octets: &[u8]) -> Result<Witness, AllocError>
    ensures short { IfOk result (λ w. length w.script.items ≤ 16777216) }
    ensures played { IfOk result (λ w. IsPlayed w.script.items ⊎ ((w.script.items ≡ []) × (w.status ≡ 1))) }
    ensures status { IfOk result (λ w. w.status < 2) }
{
    let capture = capture_of(alloc, text, octets)?;
    let witness = witness_of_capture(alloc, &capture);
    drop(capture);
    checked(alloc, witness?)
}

/// The script that tells what both sides of the capture did that a text is. [`CaptureFault::BadHex`] comes if the text has
/// another character than digits, blanks and comments, or an odd number of digits.
pub fn witness_of(alloc: Global, text: &[u8]) -> Result<Witness, CaptureFault>
    ensures witnesses { IfOk result (λ w. Witnesses text.now w.script.items w.status) }
    ensures status { IfOk result (λ w. w.status < 2) }
    ensures bad_hex { result ≡ Err CaptureFault.BadHex → IsNoCapture text.now }
    ensures no_capture { IsNoCapture text.now → (result ≡ Err CaptureFault.BadHex) ⊎ (result ≡ Err CaptureFault.OutOfMemory) }
{
    let octets = octets_of(alloc, text)?;
    match witness_of_octets(alloc, text, octets.as_slice()) {
        Ok(witness) => Ok(witness),
        Err(_) => Err(CaptureFault::OutOfMemory),
    }
}
