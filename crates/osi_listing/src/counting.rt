//! What is counted of a listing.

ghost use Rattle.std.specs.Prelude.{◌≡◌, ◌+◌};
ghost use Rattle.osi_listing.specs.Counting.{capped, none};

/// How many lines of each kind a listing has. Each count stops at 2^64 - 1.
#[derive(Clone, Copy, PartialEq, Eq)]
pub struct Counts {
    /// Packets (RFC 1006 section 6).
    pub packets: u64,
    /// Transport units (X.224 section 13), of packets in which all units can be read.
    pub units: u64,
    /// Complete TSDUs.
    pub tsdus: u64,
    /// Session units (X.225 section 8), of TSDUs in which all units can be read.
    pub session_units: u64,
    /// Lines that say that something was refused: a packet, the units of a packet or of a TSDU, or a TSDU that is too
    /// long.
    pub refused: u64,
}

impl Counts {
    /// No line.
    pub(crate) fn new() -> Self
        ensures { result ≡ none }
    {
        Counts {
            packets: 0,
            units: 0,
            tsdus: 0,
            session_units: 0,
            refused: 0,
        }
    }

    /// One more packet.
    pub(crate) fn add_packet(&mut self)
        ensures { self.new ≡ record self.old { packets = capped (self.old.packets + 1) } }
    {
        self.packets = self.packets.saturating_add(1);
    }

    /// One more transport unit.
    pub(crate) fn add_unit(&mut self)
        ensures { self.new ≡ record self.old { units = capped (self.old.units + 1) } }
    {
        self.units = self.units.saturating_add(1);
    }

    /// One more complete TSDU.
    pub(crate) fn add_tsdu(&mut self)
        ensures { self.new ≡ record self.old { tsdus = capped (self.old.tsdus + 1) } }
    {
        self.tsdus = self.tsdus.saturating_add(1);
    }

    /// One more session unit.
    pub(crate) fn add_session_unit(&mut self)
        ensures { self.new ≡ record self.old { session_units = capped (self.old.session_units + 1) } }
    {
        self.session_units = self.session_units.saturating_add(1);
    }

    /// One more line that says that something was refused.
    pub(crate) fn add_refused(&mut self)
        ensures { self.new ≡ record self.old { refused = capped (self.old.refused + 1) } }
    {
        self.refused = self.refused.saturating_add(1);
    }
}
