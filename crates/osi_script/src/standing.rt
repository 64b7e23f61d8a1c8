//! The lines of a transcript for the states of connections.

ghost use Rattle.std.specs.Prelude.{◌≡◌, ◌+◌, ◌≤◌, ◌++◌, vec_len, vec_capacity, OnOk, OnErr};
ghost use Rattle.osi_script.specs.Standing.{standing_line, standing_numbers, standing_text};

use crate::naming::phase as phase_name;
use crate::sides::Side;
use crate::texts::{LINE, put, put_decimal, put_octet, put_side, put_word};
use bitflags::Flags;
use osi_session::Phase;
use osi_spdu::TokenSet;
use std::alloc::{AllocError, Global};
use std::mem;

/// The state of a connection at one side.
#[derive(Clone, Copy)]
pub struct Standing {
    /// The side.
    pub side: Side,
    /// The connection.
    pub reference: u16,
    /// Its phase.
    pub phase: Phase,
    /// The tokens that are held.
    pub held: TokenSet,
    /// The number of the next synchronization point.
    pub next_serial: u32,
    /// All points below this number are confirmed.
    pub confirmed_below: u32,
    /// The lowest number at which a restart may be asked for.
    pub lowest_restart: u32,
}

#[tactic(auto, unfolding(crate::specs::Standing::standing_text))]
fn put_text(text: Vec<u8>, standing: &Standing) -> Vec<u8>
    requires { vec_len text + 64 ≤ vec_capacity text }
    ensures items { result.items ≡ text.items ++ standing_text standing.now }
    ensures len { vec_len result ≤ vec_len text + 64 }
    ensures capacity { vec_capacity text ≤ vec_capacity result }
{
    let text = put_side(text, standing.side);
    let text = put_decimal(text, u64::from(standing.reference));
    let text = put(text, " phase ");
    let text = put_word(text, phase_name(standing.phase));
    let text = put(text, " held ");
    put_octet(text, standing.held.bits())
}

#[tactic(auto, unfolding(crate::specs::Standing::standing_numbers))]
fn put_numbers(text: Vec<u8>, standing: &Standing) -> Vec<u8>
    requires { vec_len text + 81 ≤ vec_capacity text }
    ensures items { result.items ≡ text.items ++ standing_numbers standing.now }
    ensures len { vec_len result ≤ vec_len text + 81 }
    ensures capacity { vec_capacity text ≤ vec_capacity result }
{
    let text = put(text, " next ");
    let text = put_decimal(text, u64::from(standing.next_serial));
    let text = put(text, " below ");
    let text = put_decimal(text, u64::from(standing.confirmed_below));
    let text = put(text, " lowest ");
    put_decimal(text, u64::from(standing.lowest_restart))
}

/// Adds the line of the state of a connection to a transcript; if memory runs out, the transcript is unchanged.
#[tactic(auto, unfolding(crate::specs::Standing::standing_line))]
pub fn push_standing(
    alloc: Global,
    out: &mut Vec<u8>,
    standing: &Standing,
) -> Result<(), AllocError>
    ensures ok { OnOk result (out.new.items ≡ out.old.items ++ standing_line standing.now) }
    ensures err { OnErr result (out.new.items ≡ out.old.items) }
{
    out.reserve(LINE)?;
    let text = mem::replace(out, Vec::new(alloc));
    let text = put_text(text, standing);
    let text = put_numbers(text, standing);
    *out = put(text, "\n");
    Ok(())
}
