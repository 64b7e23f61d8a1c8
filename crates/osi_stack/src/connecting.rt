//! Requesting a connection: what a user asks for, what is done, and why it is refused.

ghost use Rattle.std.specs.Prelude.{◌≡◌, ◌+◌, true, false, None, Some, OnOk, OnErr, IfOk, IfErr, option_map};
ghost use Rattle.osi_message.specs.Meanings.{selector_octets};
ghost use Rattle.osi_stack.specs.Calls.{connect_error, refusal, connects, calls_with, terms_error, is_long_address};
ghost use Rattle.osi_stack.specs.Selectors.{selectors_sent, session_selectors};
ghost use Rattle.osi_stack.specs.State.{holding};

use crate::lines::{Line, Lines, room};
use crate::selectors::SessionSelectors;
use osi_carrier::{Carrier, OpenError, Ref};
use osi_session::{CallError, Opening, Session, is_profile};
use osi_spdu::{Requirements, Selector, Serial, TokenSetting, TsduSizes};
use osi_tpdu::Tsap;
use std::alloc::Global;
use thiserror::Error;

/// A request for a connection: the addresses of the transport protocol (X.224 section 13.3.4), and the contents of the
/// CN (X.225 section 8, connect).
#[derive(Clone, Copy)]
pub struct Connect<'a> {
    /// The functional units that are offered: half-duplex with any of minor, major, resynchronize and negotiated
    /// release; or only duplex.
    pub requirements: Requirements,
    /// The number of the first synchronization point, 0 to 999,999. It is sent only if points or restarts are offered.
    pub serial: Serial,
    /// The side wished for as the first holder of each token.
    pub wishes: TokenSetting,
    /// The transport address of this end, 0 to 32 octets.
    pub calling_tsap: Option<Tsap>,
    /// The transport address of the other end, 0 to 32 octets.
    pub called_tsap: Option<Tsap>,
    /// The session address of the calling user, at most 16 octets.
    pub calling_selector: Option<&'a [u8]>,
    /// The session address of the called user, at most 16 octets.
    pub called_selector: Option<&'a [u8]>,
    /// The largest TSDU that each side may send, in octets: the CN names the sizes (X.225 section 8, TSDU maximum
    /// size), and the answer may name smaller ones.
    pub sizes: TsduSizes,
    /// User data, at most 10,240 octets.
    pub user_data: &'a [u8],
}

/// Why no connection was requested. It is the first reason that applies: one of the first six of [`OpenError`], then
/// one of the other two here, then an allocation failure.
#[derive(Clone, Copy, PartialEq, Eq, Debug, Error)]
pub enum ConnectError {
    /// The carrier can't request a connection, or memory ran out.
    #[error("no connection: {0}")]
    Open(OpenError),
    /// The functional units can't be selected together.
    #[error("functional units that do not go together")]
    NotSelected,
    /// An address has more than 16 octets, or there are more than 10,240 octets of user data.
    #[error("too long")]
    TooLong,
}

/// The address with these octets, if any are given.
fn address(octets: Option<&[u8]>) -> Result<Option<Selector<'_>>, ConnectError>
    ensures ok { IfOk result (λ s. selector_octets s ≡ option_map (λ o. o.now) octets.entry) }
    ensures short { OnOk result (is_long_address (option_map (λ o. o.now) octets.entry) ≡ false) }
    ensures long { IfErr result (λ e. (is_long_address (option_map (λ o. o.now) octets.entry) ≡ true) × (e ≡ ConnectError.TooLong)) }
{
    let Some(octets) = octets else {
        return Ok(None);
    };
    match Selector::new(octets) {
        Some(selector) => Ok(Some(selector)),
        None => Err(ConnectError::TooLong),
    }
}

/// The session of a caller with a CN to be sent, and the session selectors of that CN.
fn session_for(
    alloc: Global,
    connect: &Connect,
) -> Result<(Session, SessionSelectors), ConnectError>
    ensures ok { IfOk result (λ p. p.0 ≡ calls_with connect.now) }
    ensures selectors { IfOk result (λ p. Some (session_selectors p.1) ≡ selectors_sent (calls_with connect.now).waiting) }
    ensures allowed { OnOk result (terms_error connect.now ≡ None) }
    ensures refused { IfErr result (λ e. refusal e ≡ terms_error connect.now) }
{
    if !is_profile(connect.requirements) {
        return Err(ConnectError::NotSelected);
    }
    let calling_selector = address(connect.calling_selector)?;
    let called_selector = address(connect.called_selector)?;
    let opening = Opening {
        requirements: connect.requirements,
        serial: connect.serial,
        wishes: connect.wishes,
        calling_selector,
        called_selector,
        sizes: connect.sizes,
        user_data: connect.user_data,
    };
    match Session::caller(alloc, &opening) {
        Ok(session) => {
            let selectors = SessionSelectors::of(calling_selector, called_selector);
            Ok((session, selectors))
        }
        Err(CallError::OutOfMemory) => Err(ConnectError::Open(OpenError::OutOfMemory)),
        Err(_) => Err(ConnectError::TooLong),
    }
}

/// Requests a connection. All allocations are made before anything changes.
pub fn request_connection(
    alloc: Global,
    carrier: &mut Carrier,
    lines: &mut Lines,
    connect: &Connect,
) -> Result<Ref, ConnectError>
    ensures ok { OnOk result (holding carrier.new lines.new
        ≡ record (holding carrier.old lines.old) { end = connects connect.now (holding carrier.old lines.old).end }) }
    ensures reference { IfOk result (λ r. r.0 ≡ carrier.old.state.given + 1) }
    ensures allowed { OnOk result (connect_error connect.now (holding carrier.old lines.old).end ≡ None) }
    ensures refused { IfErr result (λ e. refusal e ≡ connect_error connect.now (holding carrier.old lines.old).end) }
    ensures err { OnErr result (holding carrier.new lines.new ≡ holding carrier.old lines.old) }
{
    if let Err(error) = carrier.may_connect() {
        return Err(ConnectError::Open(error));
    }
    let (session, selectors) = session_for(alloc, connect)?;
    let Ok(waiting) = room(alloc) else {
        return Err(ConnectError::Open(OpenError::OutOfMemory));
    };
    let before = lines.len();
    let reference = carrier.given() + 1;
    let line = Line::new(reference, session, waiting, Some(selectors));
    let Ok(()) = lines.push(line) else {
        return Err(ConnectError::Open(OpenError::OutOfMemory));
    };
    match carrier.connect(connect.calling_tsap, connect.called_tsap) {
        Ok(reference) => {
            lines.sweep(carrier);
            Ok(reference)
        }
        Err(error) => {
            lines.truncate(before);
            Err(ConnectError::Open(error))
        }
    }
}
