//! The listing of a text.

ghost use Rattle.std.specs.Prelude.{◌≡◌, ◌<◌, ◌≤◌, ◌⊎◌, ◌↔◌, length, Err, IfOk};
ghost use Rattle.osi_listing.specs.Capture.{Captures, IsNoCapture};
ghost use Rattle.osi_tool.specs.Show.{Lists};

use crate::faults::ToolFault;
use osi_listing::{CaptureFault, list, octets_of};
use std::alloc::Global;

/// The most octets of a text that is listed.
pub const LONGEST_INPUT: usize = 16_777_216;

/// The listing of a text.
#[derive(Drop)]
pub struct Listed {
    /// Its lines.
    pub lines: Vec<u8>,
    /// 0 if everything was read, 1 if something was refused.
    pub status: u8,
}

/// The octets that a text captures.
fn captured(alloc: Global, text: &[u8]) -> Result<Vec<u8>, ToolFault>
    ensures ok { IfOk result (λ octets. Captures text.now octets.items) }
    ensures bad_hex { result ≡ Err ToolFault.BadHex → IsNoCapture text.now }
    ensures input { result ≡ Err ToolFault.Input → ⊥ }
    ensures write { result ≡ Err ToolFault.Write → ⊥ }
{
    match octets_of(alloc, text) {
        Ok(octets) => Ok(octets),
        Err(CaptureFault::BadHex) => Err(ToolFault::BadHex),
        Err(CaptureFault::OutOfMemory) => Err(ToolFault::OutOfMemory),
    }
}

/// Lists the capture in a text. Nothing is read or written.
///
/// Returns [`ToolFault::Input`] exactly for a text of more than 16,777,216 octets, and [`ToolFault::BadHex`] for a
/// shorter one that is not a capture, unless memory runs out first.
pub fn list_text(alloc: Global, text: &[u8]) -> Result<Listed, ToolFault>
    ensures listed { IfOk result (λ listed. Lists text.now listed.lines.items listed.status) }
    ensures status { IfOk result (λ listed. listed.status < 2) }
    ensures input { (result ≡ Err ToolFault.Input) ↔ (16777216 < length text.now) }
    ensures bad_hex { result ≡ Err ToolFault.BadHex →
        IsNoCapture text.now × (length text.now ≤ 16777216) }
    ensures no_capture { IsNoCapture text.now → length text.now ≤ 16777216 →
        (result ≡ Err ToolFault.BadHex) ⊎ (result ≡ Err ToolFault.OutOfMemory) }
    ensures write { result ≡ Err ToolFault.Write → ⊥ }
{
    if text.len() > LONGEST_INPUT {
        return Err(ToolFault::Input);
    }
    let octets = captured(alloc, text)?;
    let mut lines = Vec::new(alloc);
    let Ok(status) = list(alloc, &mut lines, octets.as_slice()) else {
        return Err(ToolFault::OutOfMemory);
    };
    Ok(Listed { lines, status })
}
