//! The transport selectors of the live connections (X.224 section 13.3.4).

ghost use Rattle.std.specs.Prelude.{◌≡◌, ◌∷◌, ◌++◌, ◌==◌, [], None, Some, length, take, option_map, OnOk, OnErr};
ghost use Rattle.osi_carrier.specs.React.{tsaps_of};
ghost use Rattle.osi_carrier.specs.Rows.{value_at, place_of, without};
ghost use Rattle.osi_carrier.specs.Selectors.{tsap_ids};
ghost use Rattle.osi_tpdu.specs.Limits.{selector_octets, tsap_octets};
ghost use Rattle.osi_tpdu.specs.View.{request_content};

use osi_tpdu::{ConnectRequest, Selector, Tsap};
use std::alloc::{AllocError, Global};
use std::marker::Model;

/// The transport selectors that the CR of a connection names (X.224 section 13.3.4).
#[derive(Clone, Copy)]
pub struct Tsaps {
    /// The selector of the requesting user.
    pub calling: Option<Tsap>,
    /// The selector of the requested user.
    pub called: Option<Tsap>,
}

/// A selector held inline.
fn held(selector: Option<Selector<'_>>) -> Option<Tsap>
    ensures { option_map tsap_octets result ≡ option_map selector_octets selector.entry }
{
    match selector {
        None => None,
        Some(selector) => Tsap::new(selector.octets()),
    }
}

impl Tsaps {
    /// The selectors that a CR names.
    pub fn of(request: &ConnectRequest<'_>) -> Self
        ensures { tsap_ids result ≡ tsaps_of (request_content request.now) }
    {
        Tsaps {
            calling: held(request.fields.parameters.calling),
            called: held(request.fields.parameters.called),
        }
    }
}

/// A reference, and the transport selectors of its connection.
#[derive(Drop)]
struct Named {
    reference: u16,
    tsaps: Tsaps,
}

impl Model for Named {
    ghost use Rattle.std.specs.Prelude.{ℕ};
    ghost use Rattle.osi_carrier.specs.State.{TsapIds};

    ghost Value = { ℕ × TsapIds };

    ghost use Rattle.osi_carrier.specs.Selectors.{tsap_ids};

    ghost view = { λ n. (n.reference, tsap_ids n.tsaps) };
}

impl Named {
    /// Whether it has this reference.
    fn has(&self, reference: u16) -> bool
        ensures { result ≡ (self.now.0 == reference) }
    {
        self.reference == reference
    }

    /// The selectors.
    fn tsaps(&self) -> Tsaps
        ensures { tsap_ids result ≡ self.now.1 }
    {
        self.tsaps
    }
}

/// The transport selectors of the live connections, by reference.
#[derive(Drop)]
pub struct Names {
    rows: Vec<Named>,
}

impl Model for Names {
    ghost use Rattle.osi_carrier.specs.Rows.{Rows};
    ghost use Rattle.osi_carrier.specs.State.{TsapIds};

    ghost Value = { Rows TsapIds };

    ghost view = { λ n. n.rows.items };
}

/// The place of a reference.
fn place_in(rows: &[Named], reference: u16) -> Option<usize>
    ensures { result ≡ place_of reference rows.now }
{
    rows.iter().position(|named| named.has(reference))
}

impl Names {
    /// An empty table.
    pub fn new(alloc: Global) -> Self
        ensures { result ≡ [] }
    {
        Names {
            rows: Vec::new(alloc),
        }
    }

    /// The number of connections.
    pub fn len(&self) -> usize
        ensures { result ≡ length self.now }
    {
        self.rows.len()
    }

    /// The selectors of a reference.
    #[tactic(auto, using(crate::proofs::references::the_row_at_a_place::nowhere))]
    pub fn find(&self, reference: u16) -> Option<Tsaps>
        ensures { option_map tsap_ids result ≡ value_at reference self.now }
    {
        match place_in(self.rows.as_slice(), reference) {
            None => None,
            Some(place) => Some(self.at(place, reference)),
        }
    }

    /// The selectors at this place.
    fn at(&self, place: usize, reference: u16) -> Tsaps
        requires { place_of reference self.now ≡ Some place }
        ensures { Some (tsap_ids result) ≡ value_at reference self.now }
    {
        self.rows[place].tsaps()
    }

    /// Adds the selectors of a new reference. An allocation failure changes nothing.
    pub fn push(&mut self, reference: u16, tsaps: Tsaps) -> Result<(), AllocError>
        ensures ok { OnOk result (self.new ≡ self.old ++ (reference, tsap_ids tsaps) ∷ []) }
        ensures err { OnErr result (self.new ≡ self.old) }
    {
        self.rows.push(Named { reference, tsaps })?;
        Ok(())
    }

    /// Keeps only the first `len`.
    pub fn truncate(&mut self, len: usize)
        ensures { self.new ≡ take len self.old }
    {
        self.rows.truncate(len);
    }

    /// Drops the selectors of a reference.
    #[tactic(auto, using(crate::proofs::references::a_reference_without_a_row::nothing_dropped))]
    pub fn remove(&mut self, reference: u16)
        ensures { self.new ≡ without reference self.old }
    {
        let Some(place) = place_in(self.rows.as_slice(), reference) else {
            return;
        };
        let _dropped = self.rows.remove(place);
    }

    /// Drops all.
    pub fn clear(&mut self)
        ensures { self.new ≡ [] }
    {
        self.rows.clear();
    }
}
