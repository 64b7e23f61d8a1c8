//! What is found of a transport unit, and what it means.

ghost use Rattle.std.specs.Prelude.{◌≡◌};
ghost use Rattle.osi_rules.specs.Reaches.{reach_of, is_applied, is_break};

use osi_class::Class;
use thiserror::Error;

/// The rules of transport that a unit may break.
#[derive(Clone, Copy, PartialEq, Eq, Debug, Error)]
pub enum Rule {
    /// A unit that the other side takes at no reference now: a CR of right, any unit but a CR or an answer to it before
    /// the class is known, a DT of class 0 in class 2.
    #[error("unexpected unit")]
    UnexpectedUnit,
    /// A CR in class 0, which has one connection.
    #[error("class 0 has one connection")]
    OneConnection,
    /// A CR while another one is unanswered and the class is not known.
    #[error("the class is being negotiated")]
    Negotiating,
    /// A CR or CC with a reference that its sender has given another connection.
    #[error("reference in use")]
    ReferenceInUse,
    /// A unit for a reference of no connection, or for a connection that its sender has not answered.
    #[error("unknown reference")]
    UnknownReference,
    /// A unit that a connection of this class does not have now.
    #[error("unit of the wrong form")]
    WrongForm,
    /// A CC that selects what its CR does not offer.
    #[error("answer not proposed")]
    BadAnswer,
    /// A CC with a larger TPDU size than its CR.
    #[error("larger size selected")]
    LargerSize,
    /// A DT, AK or DR on a connection that its sender has closed.
    #[error("connection closed")]
    Closed,
    /// A DT without the next number, an AK below the last one, or one that acknowledges what had not passed.
    #[error("number out of sequence")]
    OutOfSequence,
    /// A DT at or above the upper edge of the window.
    #[error("no credit")]
    NoCredit,
    /// A DT that is longer than the size that the CC selects.
    #[error("TPDU size exceeded")]
    SizeExceeded,
    /// A TSDU of more than 1,048,576 octets.
    #[error("TSDU too long")]
    TsduTooLong,
    /// An AK that moves the upper edge of the window down.
    #[error("credit reduced")]
    CreditReduced,
    /// A DC without a DR that it answers, or one whose SRC-REF is not the reference of its sender.
    #[error("nothing to answer")]
    NothingToAnswer,
}

/// What is found of a unit.
#[derive(Clone, Copy, PartialEq, Eq)]
pub enum Finding {
    /// It is right by what its sender had sent and by what had passed.
    Kept,
    /// It breaks this rule.
    Broke(Rule),
    /// X.224 allows it, and this product leaves it out: a class other than 0 and 2, expedited data, extended formats, or class 2
    /// without flow control, which the CR offers.
    Outside,
    /// It is one connection more than are looked at together. Or a connection is not judged any more, and it can't be told
    /// whether this is right: a CR or CC gives a reference that may be free, or a unit is for a reference of no connection.
    TooMany,
    /// It is of what is not judged any more.
    NotJudged,
}

/// How much is not judged any more after a unit.
#[derive(Clone, Copy, PartialEq, Eq)]
pub enum Reach {
    /// Everything is judged on.
    Nothing,
    /// Both sides of its connection.
    Connection,
    /// All that its sender sends. The other side is judged on.
    Side,
    /// Both sides of the byte connection.
    Everything,
}

/// What a unit means for the sessions above.
#[derive(Clone, Copy, PartialEq, Eq)]
pub enum Meaning {
    /// Nothing.
    Nothing,
    /// A connection is requested.
    Asks,
    /// The connection is opened.
    Opens,
    /// The octets of the DT are added to a TSDU, and end it or not.
    Adds(bool),
    /// The connection is refused or closed.
    Closes,
}

/// What is found of a unit, and what it means.
#[derive(Clone, Copy, PartialEq, Eq)]
pub struct Told {
    pub finding: Finding,
    pub meaning: Meaning,
    /// The place of its connection. A place is given to another connection only once both sides have closed this one.
    pub place: Option<usize>,
    pub reach: Reach,
}

impl Finding {
    /// Whether its sender has broken a rule.
    pub(crate) fn is_break(self) -> bool
        ensures { result ≡ is_break self }
    {
        matches!(self, Finding::Broke(_))
    }

    /// Whether the unit has its effect: it is right, or a break that the other side does not look at.
    pub(crate) fn is_applied(self) -> bool
        ensures { result ≡ is_applied self }
    {
        match self {
            Finding::Kept => true,
            Finding::Broke(rule) => {
                matches!(rule, Rule::NoCredit | Rule::SizeExceeded | Rule::LargerSize)
            }
            Finding::Outside | Finding::TooMany | Finding::NotJudged => false,
        }
    }

    /// How much is not judged any more after a unit of which this is found, in this class.
    pub(crate) fn reach(self, class: Option<Class>) -> Reach
        ensures { result ≡ reach_of class self }
    {
        match self {
            Finding::Kept | Finding::NotJudged => Reach::Nothing,
            Finding::Outside | Finding::TooMany => Reach::Everything,
            Finding::Broke(rule) => reach_of_rule(class, rule),
        }
    }
}

/// How much is not judged any more after a break.
fn reach_of_rule(class: Option<Class>, rule: Rule) -> Reach
    ensures { result ≡ reach_of class (Finding.Broke rule) }
{
    match (rule, class) {
        (Rule::NoCredit | Rule::SizeExceeded | Rule::LargerSize | Rule::Closed, _) =>
            Reach::Nothing,
        (_, None) => Reach::Everything,
        (_, Some(Class::Zero)) => Reach::Side,
        (
            Rule::WrongForm
            | Rule::OutOfSequence
            | Rule::TsduTooLong
            | Rule::CreditReduced
            | Rule::NothingToAnswer,
            Some(Class::Two),
        ) => Reach::Connection,
        (_, Some(Class::Two)) => Reach::Everything,
    }
}
