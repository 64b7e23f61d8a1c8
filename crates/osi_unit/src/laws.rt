//! What holds of octets. The function does nothing: its contract is the law.

ghost use Rattle.osi_unit.specs.Octets.{IsOctets};

/// Each item of a slice of octets is a number from 0 to 255. A proof that calls this law with a slice has that fact
/// of it.
#[inline(always)]
pub fn are_octets(octets: &[u8])
    ensures { IsOctets octets.now }
{
    let _octets = octets;
}
