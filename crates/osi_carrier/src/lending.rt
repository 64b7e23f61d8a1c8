//! TSDUs that are lent from the octets in which they arrived.

ghost use Rattle.std.specs.Prelude.{◌≡◌};
ghost use Rattle.osi_class.specs.Handing.{user_of};
ghost use Rattle.osi_tpdu.specs.View.{value};

use crate::events::Ref;
use osi_tpdu::Tpdu;
use osi_tpkt::Fed;

/// A whole TSDU of a connection, lent from the piece of the stream in which it lies.
#[derive(Clone, Copy, PartialEq, Eq)]
pub struct Lent<'a> {
    /// The connection.
    pub reference: Ref,
    /// The octets of the TSDU.
    pub octets: &'a [u8],
}

impl<'a> Lent<'a> {
    /// No TSDU: what is there before one is lent.
    #[inline(always)]
    pub(crate) fn none() -> Lent<'a> {
        Lent {
            reference: Ref(0),
            octets: &[],
        }
    }
}

/// What a call of [`Carrier::feed_lent`] did.
///
/// [`Carrier::feed_lent`]: crate::Carrier::feed_lent
#[derive(Clone, Copy, PartialEq, Eq)]
pub struct FedLent<'a> {
    /// How many octets were used, and whether an event is pending or a TSDU is lent.
    pub fed: Fed,
    /// The TSDU that the last packet that was used brought, in place of an event.
    pub lent: Option<Lent<'a>>,
}

/// What a unit did that was handed to the link of a connection.
#[derive(Clone, Copy, PartialEq, Eq)]
pub(crate) enum Reached {
    /// Nothing: the connection is not open.
    NotOpen,
    /// All of its effect.
    Settled,
    /// All but the event of a TSDU: the octets of the unit, which its caller lends.
    Whole,
}

/// The octets of a DT; of any other unit none.
pub(crate) fn user_data<'a>(unit: &Tpdu<'a>) -> &'a [u8]
    ensures { result.now ≡ user_of (value unit.now) }
{
    match unit {
        Tpdu::Dt0(data) => data.user,
        Tpdu::Dt2(data) => data.user,
        Tpdu::Cr(_) | Tpdu::Cc(_) | Tpdu::Dr(_) | Tpdu::Dc(_) | Tpdu::Ak(_) | Tpdu::Er(_) => &[],
    }
}
