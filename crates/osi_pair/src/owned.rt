//! Copies of requests that own their octets.

ghost use Rattle.std.specs.Prelude.{◌≡◌, option_map, IfOk};
ghost use Rattle.osi_session.specs.Calls.{called_by, refusal_by, refusal_octets};
ghost use Rattle.osi_pair.specs.Asked.{asked_of, asked_by, octets_of, owned_call, owned_refusal};

use osi_message::Octets;
use osi_session::{Refusal, Request, Sides};
use osi_spdu::{Requirements, Serial, TokenSet, TokenSetting, TsduSizes};
use osi_stack::Connect;
use osi_tpdu::Tsap;
use std::alloc::{AllocError, Global};

/// A requested connection, as in [`Connect`].
#[derive(Drop)]
pub struct OwnedConnect {
    /// The functional units that are offered.
    pub requirements: Requirements,
    /// The number of the first synchronization point, 0 to 999,999.
    pub serial: Serial,
    /// The side wished for as the first holder of each token.
    pub wishes: TokenSetting,
    /// The transport address of the left end, 0 to 32 octets.
    pub calling_tsap: Option<Tsap>,
    /// The transport address of the right end, 0 to 32 octets.
    pub called_tsap: Option<Tsap>,
    /// The session address of the requesting user.
    pub calling_selector: Option<Octets>,
    /// The session address of the requested user.
    pub called_selector: Option<Octets>,
    /// The largest TSDU that each side sends, in octets.
    pub sizes: TsduSizes,
    /// User data.
    pub user_data: Octets,
}

/// Why a user refused a connection, as in [`Refusal`].
#[derive(Drop)]
pub enum OwnedRefusal {
    /// No reason is given.
    Unspecified,
    /// There is temporary congestion.
    Congestion,
    /// With this user data.
    WithData(Octets),
}

/// A call of a user, as in [`Request`].
#[derive(Drop)]
pub enum OwnedRequest {
    /// Accepts the connection.
    Accept {
        /// The functional units that are selected.
        requirements: Requirements,
        /// The number of the first point, 0 to 999,999.
        serial: Serial,
        /// The side that holds each token.
        sides: Sides,
        /// The largest TSDU that each side sends, in octets.
        sizes: TsduSizes,
        /// User data.
        user_data: Octets,
    },
    /// Refuses the connection.
    Refuse(OwnedRefusal),
    /// Sends data.
    Data(Octets),
    /// Gives tokens.
    Give(TokenSet),
    /// Asks for tokens.
    Please(TokenSet, Octets),
    /// Sets a minor synchronization point, and asks for its confirmation or not.
    Minor(bool, Octets),
    /// Confirms the minor points up to this number.
    MinorConfirm(u32, Octets),
    /// Sets a major synchronization point.
    Major(Octets),
    /// Confirms the major point.
    MajorConfirm(Octets),
    /// Restarts at this number, with a wish for each token.
    Restart(u32, TokenSetting, Octets),
    /// Answers a restart.
    RestartConfirm(Sides, Octets),
    /// Asks for the release.
    Release(Octets),
    /// Accepts the release.
    ReleaseAccept(Octets),
    /// Refuses the release.
    ReleaseRefuse(Octets),
    /// Aborts the connection.
    Abort(Octets),
}

/// A copy of an address, if one is given.
fn copied(alloc: Global, octets: Option<&[u8]>) -> Result<Option<Octets>, AllocError>
    ensures { IfOk result (λ copy. copy ≡ option_map (λ o. o.now) octets.entry) }
{
    match octets {
        None => Ok(None),
        Some(octets) => Ok(Some(Octets::copy(alloc, octets)?)),
    }
}

impl OwnedConnect {
    /// A copy of a requested connection.
    pub fn copy(alloc: Global, connect: &Connect) -> Result<OwnedConnect, AllocError>
        ensures { IfOk result (λ copy. asked_by copy ≡ asked_of connect.now) }
    {
        let calling_selector = copied(alloc, connect.calling_selector)?;
        let called_selector = copied(alloc, connect.called_selector)?;
        let user_data = Octets::copy(alloc, connect.user_data)?;
        Ok(OwnedConnect {
            requirements: connect.requirements,
            serial: connect.serial,
            wishes: connect.wishes,
            calling_tsap: connect.calling_tsap,
            called_tsap: connect.called_tsap,
            calling_selector,
            called_selector,
            sizes: connect.sizes,
            user_data,
        })
    }

    /// The same, in memory of its own.
    pub(crate) fn boxed(alloc: Global, connect: &Connect) -> Result<Box<OwnedConnect>, AllocError>
        ensures { IfOk result (λ copy. asked_by copy.value ≡ asked_of connect.now) }
    {
        let copy = OwnedConnect::copy(alloc, connect)?;
        match Box::new(alloc, copy) {
            Ok(boxed) => Ok(boxed),
            Err(_) => Err(AllocError),
        }
    }
}

/// The user data of a call; none for a Give.
pub(crate) fn user_data<'a>(request: Request<'a>) -> &'a [u8]
    ensures { result.now ≡ octets_of (called_by request.entry) }
{
    match request {
        Request::Give { .. } => &[],
        Request::Refuse { refusal } => refusal.user_data(),
        Request::Accept { user_data, .. }
        | Request::Data { user_data }
        | Request::Please { user_data, .. }
        | Request::Minor { user_data, .. }
        | Request::MinorConfirm { user_data, .. }
        | Request::Major { user_data }
        | Request::MajorConfirm { user_data }
        | Request::Restart { user_data, .. }
        | Request::RestartConfirm { user_data, .. }
        | Request::Release { user_data }
        | Request::ReleaseAccept { user_data }
        | Request::ReleaseRefuse { user_data }
        | Request::Abort { user_data } => user_data,
    }
}

/// A refusal with this copy of its user data.
fn owned_refusal(refusal: Refusal, octets: Octets) -> OwnedRefusal
    ensures { octets ≡ refusal_octets (refusal_by refusal.entry) → owned_refusal result ≡ refusal_by refusal.entry }
{
    match refusal {
        Refusal::Unspecified => OwnedRefusal::Unspecified,
        Refusal::Congestion => OwnedRefusal::Congestion,
        Refusal::WithData(_) => OwnedRefusal::WithData(octets),
    }
}

/// A call with this copy of its user data.
fn owned(request: Request, octets: Octets) -> OwnedRequest
    ensures { octets ≡ octets_of (called_by request.entry) → owned_call result ≡ called_by request.entry }
{
    match request {
        Request::Accept {
            requirements,
            serial,
            sides,
            sizes,
            ..
        } => OwnedRequest::Accept {
            requirements,
            serial,
            sides,
            sizes,
            user_data: octets,
        },
        Request::Refuse { refusal } => OwnedRequest::Refuse(owned_refusal(refusal, octets)),
        Request::Data { .. } => OwnedRequest::Data(octets),
        Request::Give { tokens } => OwnedRequest::Give(tokens),
        Request::Please { tokens, .. } => OwnedRequest::Please(tokens, octets),
        Request::Minor { confirm, .. } => OwnedRequest::Minor(confirm, octets),
        Request::MinorConfirm { number, .. } => OwnedRequest::MinorConfirm(number, octets),
        Request::Major { .. } => OwnedRequest::Major(octets),
        Request::MajorConfirm { .. } => OwnedRequest::MajorConfirm(octets),
        Request::Restart { number, wishes, .. } => OwnedRequest::Restart(number, wishes, octets),
        Request::RestartConfirm { sides, .. } => OwnedRequest::RestartConfirm(sides, octets),
        Request::Release { .. } => OwnedRequest::Release(octets),
        Request::ReleaseAccept { .. } => OwnedRequest::ReleaseAccept(octets),
        Request::ReleaseRefuse { .. } => OwnedRequest::ReleaseRefuse(octets),
        Request::Abort { .. } => OwnedRequest::Abort(octets),
    }
}

impl OwnedRequest {
    /// A copy of a call.
    pub fn copy(alloc: Global, request: Request) -> Result<OwnedRequest, AllocError>
        ensures { IfOk result (λ copy. owned_call copy ≡ called_by request.entry) }
    {
        let octets = Octets::copy(alloc, user_data(request))?;
        Ok(owned(request, octets))
    }
}
