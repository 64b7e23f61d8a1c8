//! Transport selectors.

ghost use Rattle.std.specs.Prelude.{◌≡◌, ◌≤◌, ◌↔◌, ℕ, length, slice_index, IsSome, IfSome};

/// A transport selector of at most 32 octets, borrowed from the octets that were read: it names a transport service
/// access point at an address (X.224 section 13.3.4).
#[derive(Clone, Copy, PartialEq, Eq)]
pub struct Selector<'a> {
    octets: &'a [u8],
    pub ghost at_most: { length octets.now ≤ 32 },
}

impl<'a> Selector<'a> {
    ghost use Rattle.osi_tpdu.specs.Limits.{selector_octets};

    /// The selector with these octets, at most 32; `None` for more.
    pub fn new(octets: &'a [u8]) -> Option<Self>
        ensures range { IsSome result ↔ (length octets.now ≤ 32) }
        ensures value { IfSome result (λ s. selector_octets s ≡ octets.now) }
    {
        if octets.len() <= 32 {
            Some(Selector { octets })
        } else {
            None
        }
    }

    /// The selector with these octets, which are known to be at most 32.
    #[inline(always)]
    pub(crate) fn known(octets: &'a [u8]) -> Self
        requires { length octets.now ≤ 32 }
        ensures { selector_octets result ≡ octets.now }
    {
        Selector { octets }
    }

    /// The octets of the selector, at most 32.
    pub fn octets(self) -> &'a [u8]
        ensures value { result.now ≡ selector_octets self.entry }
        ensures at_most { length result.now ≤ 32 }
    {
        self.octets
    }
}

/// A transport selector held inline, without an allocation. The octets past its length are 0, so two selectors are
/// equal if their octets are.
#[derive(Clone, Copy, PartialEq, Eq)]
pub struct Tsap {
    octets: [u8; 32],
    len: usize,
    pub ghost at_most: { len ≤ 32 },
    pub ghost zeros: { (i : ℕ) → len ≤ i → slice_index octets i ≡ 0 },
}

impl Tsap {
    ghost use Rattle.osi_tpdu.specs.Limits.{selector_octets, tsap_octets};

    /// The selector with these octets, at most 32; `None` for more.
    pub fn new(octets: &[u8]) -> Option<Self>
        ensures range { IsSome result ↔ (length octets.now ≤ 32) }
        ensures value { IfSome result (λ t. tsap_octets t ≡ octets.now) }
    {
        let len = octets.len();
        if len > 32 {
            return None;
        }
        let mut held = [0; 32];
        held[..len].copy_from_slice(octets);
        Some(Tsap { octets: held, len })
    }

    /// The octets of the selector, at most 32.
    pub fn octets(&self) -> &[u8]
        ensures value { result.now ≡ tsap_octets self.now }
        ensures at_most { length result.now ≤ 32 }
    {
        &self.octets[..self.len]
    }

    /// The selector as a unit holds it.
    pub fn selector(&self) -> Selector<'_>
        ensures { selector_octets result ≡ tsap_octets self.now }
    {
        Selector {
            octets: self.octets(),
        }
    }
}
