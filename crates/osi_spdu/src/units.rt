//! One session unit.

ghost use Rattle.std.specs.Prelude.{◌≡◌, ◌≤◌, true, length, MatchOption, option_map, []};
ghost use Rattle.osi_spdu.specs.Kinds.{codes_of, members_of};
ghost use Rattle.osi_spdu.specs.Octets.{octets_of};
ghost use Rattle.osi_spdu.specs.Params.{known_of, lent_len, is_settled};
ghost use Rattle.osi_spdu.specs.Writing.{is_formed, is_informed, written_code, UnitFits};

use crate::codes::Code;
use crate::kinds::Kind;
use crate::octets::Value;
use crate::params::Params;
use crate::writing::written_code;

/// A session protocol data unit (X.225 section 8).
///
/// It has only parameters that its kind knows, and all mandatory ones.
#[derive(Clone, Copy)]
pub struct Spdu<'a> {
    kind: Kind,
    params: Params<'a>,
    information: &'a [u8],
    ghost settled: { is_settled params ≡ true },
    ghost formed: { is_formed kind (known_of params) ≡ true },
    ghost informed: { is_informed kind information.now ≡ true },
}

impl<'a> Spdu<'a> {
    ghost use Rattle.osi_spdu.specs.Units.{said_by};

    /// A unit with these parameters.
    #[inline(always)]
    pub(crate) fn new(kind: Kind, params: Params<'a>) -> Spdu<'a>
        requires { is_formed kind (known_of params) ≡ true }
        ensures value { said_by result
            ≡ record { kind = kind; known = known_of params.entry; information = [] } }
        ensures kind { (said_by result).kind ≡ kind }
        // If the values of variable length have at most 65,000 octets, the unit's length fits.
        ensures fits { lent_len params.entry ≤ 65000 → UnitFits (said_by result) }
    {
        let mut params = params;
        params.settle();
        Spdu {
            kind,
            params,
            information: &[],
        }
    }

    /// A unit with these parameters, and the user information of a DT.
    #[inline(always)]
    pub(crate) fn with(kind: Kind, params: Params<'a>, information: &'a [u8]) -> Spdu<'a>
        requires formed { is_formed kind (known_of params) ≡ true }
        requires informed { is_informed kind information.now ≡ true }
        ensures value { said_by result
            ≡ record { kind = kind; known = known_of params.entry; information = information.now } }
        ensures kind { (said_by result).kind ≡ kind }
        // If the values of variable length have at most 65,000 octets, the unit's length fits.
        ensures fits { lent_len params.entry ≤ 65000 → UnitFits (said_by result) }
    {
        let mut params = params;
        params.settle();
        Spdu {
            kind,
            params,
            information,
        }
    }

    /// A unit with these parameters, which are normalised already, and the user information of a DT.
    #[inline(always)]
    pub(crate) fn settled(kind: Kind, params: Params<'a>, octets: &'a [u8]) -> Spdu<'a>
        requires settled { is_settled params ≡ true }
        requires formed { is_formed kind (known_of params) ≡ true }
        requires informed { is_informed kind octets.now ≡ true }
        ensures value { said_by result
            ≡ record { kind = kind; known = known_of params.entry; information = octets.now } }
        ensures kind { (said_by result).kind ≡ kind }
    {
        Spdu {
            kind,
            params,
            information: octets,
        }
    }

    /// The kind of the unit.
    pub fn kind(&self) -> Kind
        ensures { result ≡ (said_by self.now).kind }
    {
        self.kind
    }

    /// The parameters, those of its groups included. A token item has only bits that name a token, and empty user data
    /// counts as none.
    pub fn params(&self) -> &Params<'a>
        ensures known { known_of result.now ≡ (said_by self.now).known }
        ensures settled { is_settled result.now ≡ true }
    {
        &self.params
    }

    /// The user information of a DT. It is empty for every other unit.
    pub fn information(&self) -> &'a [u8]
        ensures { result.now ≡ (said_by self.now).information }
    {
        self.information
    }

    /// The value of a parameter in its written form, if it is there. The value of a group is empty.
    pub fn value(&self, code: Code) -> Option<Value<'a>>
        ensures { option_map octets_of result ≡ (said_by self.now).known code }
    {
        self.params.value(code)
    }

    /// The code under which a parameter is written: a CN has another code for user data above 512 octets.
    pub fn written_code(&self, code: Code) -> Code
        ensures { MatchOption ((said_by self.now).known code) (result ≡ code)
            (λ value. result ≡ written_code (said_by self.now).kind code value) }
    {
        // Only user data has two codes, so no other value has to be looked at.
        if !code.is_user_data() {
            return code;
        }
        match self.value(code) {
            None => code,
            Some(value) => written_code(self.kind, code, value),
        }
    }
}
