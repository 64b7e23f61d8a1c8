//! Reading both directions of a capture from its text.

use crate::Capture;
use osi_report::Pieces;
use osi_script::Side;
use std::alloc::{AllocError, Global};

/// The side whose line begins with a tab or not.
fn side_of(is_tabbed: bool) -> Side {
    if is_tabbed { Side::Right } else { Side::Left }
}

/// The capture of a text, with the runs of its connections, which captures these octets.
pub(crate) fn capture_of(alloc: Global, text: &[u8], octets: &[u8]) -> Result<Capture, AllocError> {
    let mut capture = Capture::new(alloc);
    let mut pieces = Pieces::of(text, octets);
    let mut number = 0usize;
    'pieces: while let Some(piece) = pieces.next_piece() {
        capture.pass(side_of(piece.is_tabbed), piece.octets, number)?;
        number = number.saturating_add(1);
    }
    capture.trace()?;
    Ok(capture)
}
