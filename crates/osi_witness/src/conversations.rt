//! One connection of a capture.

ghost use Rattle.std.specs.Prelude.{◌≡◌, IfOk, OnOk};
ghost use Rattle.osi_session.specs.Standing.{Seen};
ghost use Rattle.osi_witness.specs.Conversations.{stream_of, answered_by, class_by, is_refused_by, limit_of, Begins};
ghost use Rattle.osi_witness.specs.Linked.{IsFollowed};
ghost use Rattle.osi_witness.specs.Places.{other_side};
ghost use Rattle.osi_witness.specs.Streams.{tsdus_of, Adds, Keeps};
ghost use Rattle.osi_witness.specs.Told.{IsTraced};
ghost use Rattle.osi_witness.specs.Whole.{HasRunsOn, IsUntold, IsUntoldOn, IsWhole, IsWholeOn};
ghost use Rattle.osi_session.specs.Standing.{seen_calling, seen_called};

use crate::places::{Place, Stop, earlier};
use crate::streams::Stream;
use crate::trails::run_from;
use osi_script::Side;
use osi_session::Standing;
use osi_side::Side as Judged;
use osi_tpdu::{ConnectFields, SizeCode};
use std::alloc::{AllocError, Global};

/// The CR of a connection, or what answers it.
#[derive(Clone, Copy)]
pub struct Opening {
    /// It is a DR, which refuses the connection.
    pub is_refusal: bool,
    /// The class that a CR prefers or a CC selects.
    pub class: u8,
    /// A CR offers class 0.
    pub offers_class_0: bool,
    /// The credit that it gives.
    pub credit: u8,
    /// The TPDU size that it names.
    pub size: Option<SizeCode>,
    pub place: Place,
}

/// One connection of a capture.
#[derive(Drop)]
pub struct Conversation {
    /// Its CR.
    pub request: Opening,
    /// Its CC or DR.
    pub answer: Option<Opening>,
    /// What the calling side sent.
    pub left: Stream,
    /// What the called side sent.
    pub right: Stream,
}

/// Whether one of these octets has class 0 in its high half.
fn names_class_0(octets: &[u8]) -> bool {
    octets.iter().any(|octet| *octet / 16 == 0)
}

/// Whether a CR prefers class 0 or lists it (X.224 section 6.5).
fn offers_class_0(fields: &ConnectFields<'_>) -> bool {
    if fields.class == 0 {
        return true;
    }
    match fields.parameters.alternative_classes {
        None => false,
        Some(octets) => names_class_0(octets),
    }
}

impl Opening {
    /// A CR or a CC.
    pub(crate) fn of(fields: &ConnectFields<'_>, place: Place) -> Opening {
        Opening {
            is_refusal: false,
            class: fields.class,
            offers_class_0: offers_class_0(fields),
            credit: fields.credit,
            size: fields.parameters.size,
            place,
        }
    }

    /// A DR that refuses the connection.
    pub(crate) fn refusal(place: Place) -> Opening {
        Opening {
            is_refusal: true,
            class: 0,
            offers_class_0: false,
            credit: 0,
            size: None,
            place,
        }
    }
}

/// A part of a TSDU of a side passes, which the other side may take then.
fn pass(
    alloc: Global,
    own: &mut Stream,
    heard: &mut Stream,
    end: bool,
    user: &[u8],
    place: Place,
) -> Result<(), AllocError>
    ensures adds { OnOk result (IsWhole own.old → Adds end user.now own.old own.new) }
    ensures own { OnOk result (IsUntold own.old → IsUntold own.new) }
    ensures keeps { OnOk result (Keeps heard.old heard.new) }
    ensures heard { OnOk result (IsUntold heard.old → IsUntold heard.new) }
    ensures followed { OnOk result ((begin other : Seen) → IsUntold own.old → IsFollowed own.old heard.old begin
        → IsFollowed heard.old own.old other → IsFollowed own.new heard.new begin × IsFollowed heard.new own.new other) }
{
    if own.add(alloc, heard, end, user, place)? {
        return heard.hear(own);
    }
    Ok(())
}

impl Conversation {
    /// A connection that a CR requests.
    pub(crate) fn new(alloc: Global, request: Opening) -> Result<Conversation, AllocError>
        ensures begins { IfOk result (Begins request) }
        ensures untold { IfOk result IsUntoldOn }
    {
        let left = Stream::new(
            alloc,
            Side::Left,
            Judged::caller(alloc)?,
            Standing::calling(),
        )?;
        let right = Stream::new(
            alloc,
            Side::Right,
            Judged::called(alloc)?,
            Standing::called(),
        )?;
        Ok(Conversation {
            request,
            answer: None,
            left,
            right,
        })
    }

    /// What a side sent.
    pub fn stream(&self, side: Side) -> &Stream
        ensures { result.now ≡ stream_of self.now side }
    {
        match side {
            Side::Left => &self.left,
            Side::Right => &self.right,
        }
    }

    /// The class that its CC selects; none if it was not accepted.
    pub fn class(&self) -> Option<u8>
        ensures { result ≡ class_by self.now.answer }
    {
        match self.answer {
            Some(answer) if !answer.is_refusal => Some(answer.class),
            _ => None,
        }
    }

    /// Whether its CR was refused.
    pub fn is_refused(&self) -> bool
        ensures { result ≡ is_refused_by self.now.answer }
    {
        match self.answer {
            Some(answer) => answer.is_refusal,
            None => false,
        }
    }

    /// The CR is answered, if it was not answered before.
    pub(crate) fn answer(&mut self, answer: Opening)
        ensures { self.new ≡ record self.old { answer = answered_by self.old.answer answer } }
    {
        if self.answer.is_none() {
            self.answer = Some(answer);
        }
    }

    /// A part of a TSDU of a side passes.
    pub(crate) fn add(
        &mut self,
        alloc: Global,
        side: Side,
        end: bool,
        user: &[u8],
        place: Place,
    ) -> Result<(), AllocError>
        ensures adds { OnOk result (IsUntoldOn self.old → Adds end user.now (stream_of self.old side) (stream_of self.new side)) }
        ensures other { OnOk result (Keeps (stream_of self.old (other_side side)) (stream_of self.new (other_side side))) }
        ensures request { self.new.request ≡ self.old.request }
        ensures answer { self.new.answer ≡ self.old.answer }
        ensures untold { OnOk result (IsUntoldOn self.old → IsUntoldOn self.new) }
    {
        match side {
            Side::Left => pass(alloc, &mut self.left, &mut self.right, end, user, place),
            Side::Right => pass(alloc, &mut self.right, &mut self.left, end, user, place),
        }
    }

    /// The run of each side is read off.
    #[tactic(auto, using(crate::proofs::a_run_explains_what_a_side_sent::traced_side))]
    pub(crate) fn trace(&mut self, alloc: Global) -> Result<(), AllocError>
        ensures left { OnOk result (IsTraced self.old.left self.new.left self.new.right seen_calling) }
        ensures right { OnOk result (IsTraced self.old.right self.new.right self.new.left seen_called) }
        ensures whole { OnOk result (IsWholeOn self.old → IsWholeOn self.new) }
        ensures found { OnOk result (IsUntoldOn self.old → HasRunsOn self.new) }
    {
        // In class 2 each end acknowledges what it takes, so the runs take what they can before they send.
        let is_late = self.class() == Some(2);
        let left = run_from(alloc, &self.left, &self.right, Standing::calling(), is_late)?;
        let right = run_from(alloc, &self.right, &self.left, Standing::called(), is_late)?;
        self.left.has_run(left);
        self.right.has_run(right);
        Ok(())
    }

    /// The first TSDU with which a side has no run.
    pub fn limit(&self) -> Option<Stop>
        ensures { result ≡ limit_of self.now }
    {
        earlier(self.left.limit, self.right.limit)
    }
}
