//! A call of the user: what it sends is handed to the carrier, and then the session changes its state.

ghost use Rattle.std.specs.Prelude.{◌≡◌, true, None, IfErr, OnOk, OnErr};
ghost use Rattle.osi_carrier.specs.Calls.{send_all_error, open_link};
ghost use Rattle.osi_session.specs.Calls.{Data, Minor, MinorConfirm, called_by};
ghost use Rattle.osi_session.specs.Listening.{called, react};
ghost use Rattle.osi_session.specs.Points.{advanced, may_advance};
ghost use Rattle.osi_session.specs.Sizes.{limit_of};
ghost use Rattle.osi_stack.specs.Calls.{move_refusal, send_refusal, Refuses};
ghost use Rattle.osi_stack.specs.Moving.{answers};
ghost use Rattle.osi_stack.specs.Transport.{hands};

use crate::transport::{call_error, send_call, send_owned_call, send_pieces_call};
use osi_carrier::{Carrier, Pieces, Ref};
use osi_session::{CallError, PlannedPoint, Request, Session};

/// Sends a point, and then the session continues after it. An error changes nothing.
#[inline(always)]
fn send_point(
    session: &mut Session,
    carrier: &mut Carrier,
    reference: u16,
    plan: PlannedPoint,
) -> Result<(), CallError>
    requires { may_advance session.old.state plan.point ≡ true }
    ensures session { OnOk result (session.new ≡ advanced session.old plan.point) }
    ensures carrier { OnOk result (carrier.new ≡ record carrier.old { state = hands reference plan.sent carrier.old.state }) }
    ensures allowed { OnOk result (send_refusal (send_all_error plan.sent (open_link reference carrier.old.state)) ≡ None) }
    ensures refused { IfErr result (λ e. Refuses e None (send_refusal (send_all_error plan.sent (open_link reference carrier.old.state)))) }
    ensures err { OnErr result ((session.new ≡ session.old) × (carrier.new ≡ carrier.old)) }
{
    let PlannedPoint { sent, point } = plan;
    match send_owned_call(carrier, reference, sent) {
        Ok(()) => {}
        Err(error) => return Err(error),
    }
    if !session.advance(point) {
        unreachable!()
    }
    Ok(())
}

/// Sends a minor point, which changes only the numbers of the session. An error changes nothing. The function is kept
/// out of line, because data is sent more often.
#[inline(never)]
fn make_minor_call(
    session: &mut Session,
    carrier: &mut Carrier,
    reference: u16,
    confirm: bool,
    user_data: &[u8],
) -> Result<(), CallError>
    ensures session { OnOk result (session.new ≡ (react session.old (called (Minor confirm user_data.now))).next) }
    ensures carrier { OnOk result (carrier.new
        ≡ record carrier.old {
          state = answers reference (limit_of session.old.state)
              (react session.old (called (Minor confirm user_data.now))) carrier.old.state;
        }) }
    ensures allowed { OnOk
        result (move_refusal reference (limit_of session.old.state) (react session.old (called (Minor confirm user_data.now)))
        carrier.old.state ≡ None) }
    ensures refused { IfErr result (λ e.
        Refuses e (react session.old (called (Minor confirm user_data.now))).error (move_refusal
        reference (limit_of session.old.state) (react session.old (called (Minor confirm user_data.now))) carrier.old.state)) }
    ensures err { OnErr result ((session.new ≡ session.old) × (carrier.new ≡ carrier.old)) }
{
    let plan = session.plan_minor(confirm, user_data)?;
    send_point(session, carrier, reference, plan)
}

/// Sends the confirmation of a minor point, in the same way.
#[inline(never)]
fn make_minor_confirm_call(
    session: &mut Session,
    carrier: &mut Carrier,
    reference: u16,
    number: u32,
    user_data: &[u8],
) -> Result<(), CallError>
    ensures session { OnOk result (session.new ≡ (react session.old (called (MinorConfirm number user_data.now))).next) }
    ensures carrier { OnOk result (carrier.new
        ≡ record carrier.old {
          state = answers reference (limit_of session.old.state)
              (react session.old (called (MinorConfirm number user_data.now))) carrier.old.state;
        }) }
    ensures allowed { OnOk
        result (move_refusal reference (limit_of session.old.state) (react session.old (called (MinorConfirm number user_data.now)))
        carrier.old.state ≡ None) }
    ensures refused { IfErr result (λ e.
        Refuses e (react session.old (called (MinorConfirm number user_data.now))).error (move_refusal
        reference (limit_of session.old.state) (react session.old (called (MinorConfirm number user_data.now))) carrier.old.state)) }
    ensures err { OnErr result ((session.new ≡ session.old) × (carrier.new ≡ carrier.old)) }
{
    let plan = session.plan_minor_confirm(number, user_data)?;
    send_point(session, carrier, reference, plan)
}

/// Sends what a call of the user sends, and then the session carries the call out. An error changes nothing. The
/// function is kept out of line: otherwise stack space for the plan would be reserved on the data path, too.
#[inline(never)]
fn make_planned_call(
    session: &mut Session,
    carrier: &mut Carrier,
    reference: u16,
    request: Request,
) -> Result<(), CallError>
    ensures session { OnOk result (session.new ≡ (react session.old (called (called_by request.entry))).next) }
    ensures carrier { OnOk result (carrier.new
        ≡ record carrier.old {
          state = answers reference (limit_of session.old.state) (react session.old (called (called_by request.entry)))
              carrier.old.state;
        }) }
    ensures allowed { OnOk
        result (move_refusal reference (limit_of session.old.state) (react session.old (called (called_by request.entry)))
        carrier.old.state ≡ None) }
    ensures refused { IfErr result (λ e.
        Refuses e (react session.old (called (called_by request.entry))).error (move_refusal
        reference (limit_of session.old.state) (react session.old (called (called_by request.entry))) carrier.old.state)) }
    ensures err { OnErr result ((session.new ≡ session.old) × (carrier.new ≡ carrier.old)) }
{
    let plan = session.plan(request)?;
    match send_call(carrier, reference, plan.sent()) {
        Ok(()) => {}
        Err(error) => return Err(error),
    }
    let Some(_sent) = session.commit(plan) else {
        unreachable!()
    };
    Ok(())
}

/// Sends data in parts, straight from its octets, or returns why data is refused. The function is kept out of line:
/// otherwise stack space for the parts would be reserved on the path of other data, too.
#[inline(never)]
fn make_parted_call(
    session: &Session,
    carrier: &mut Carrier,
    reference: u16,
    user_data: &[u8],
) -> Result<(), CallError>
    ensures session { OnOk result (session.now ≡ (react session.now (called (Data user_data.now))).next) }
    ensures carrier { OnOk result (carrier.new
        ≡ record carrier.old {
          state = answers reference (limit_of session.now.state) (react session.now (called (Data user_data.now)))
              carrier.old.state;
        }) }
    ensures allowed { OnOk result (move_refusal reference (limit_of session.now.state) (react session.now (called (Data user_data.now)))
        carrier.old.state ≡ None) }
    ensures refused { IfErr result (λ e.
        Refuses e (react session.now (called (Data user_data.now))).error (move_refusal
        reference (limit_of session.now.state) (react session.now (called (Data user_data.now))) carrier.old.state)) }
    ensures err { OnErr result (carrier.new ≡ carrier.old) }
{
    let parts = session.data_parts(user_data)?;
    let pieces = Pieces {
        size: parts.size,
        first: parts.first,
        middle: parts.middle,
        last: parts.last,
        octets: user_data,
    };
    send_pieces_call(carrier, reference, &pieces)
}

/// Sends what a call of the user sends, and then the session carries the call out. Data leaves its state unchanged, and
/// what of it may be sent now is written straight from its octets. An error changes nothing.
pub fn make_call(
    session: &mut Session,
    carrier: &mut Carrier,
    reference: u16,
    request: Request,
) -> Result<(), CallError>
    ensures session { OnOk result (session.new ≡ (react session.old (called (called_by request.entry))).next) }
    ensures carrier { OnOk result (carrier.new
        ≡ record carrier.old {
          state = answers reference (limit_of session.old.state) (react session.old (called (called_by request.entry)))
              carrier.old.state;
        }) }
    ensures allowed { OnOk
        result (move_refusal reference (limit_of session.old.state) (react session.old (called (called_by request.entry)))
        carrier.old.state ≡ None) }
    ensures refused { IfErr result (λ e.
        Refuses e (react session.old (called (called_by request.entry))).error (move_refusal
        reference (limit_of session.old.state) (react session.old (called (called_by request.entry))) carrier.old.state)) }
    ensures err { OnErr result ((session.new ≡ session.old) × (carrier.new ≡ carrier.old)) }
{
    match request {
        Request::Data { user_data } => {
            let Some(head) = session.data_head(user_data) else {
                return make_parted_call(session, carrier, reference, user_data);
            };
            match carrier.send_headed(Ref(reference), head, user_data) {
                Ok(()) => Ok(()),
                Err(error) => Err(call_error(error)),
            }
        }
        Request::Minor { confirm, user_data } => {
            make_minor_call(session, carrier, reference, confirm, user_data)
        }
        Request::MinorConfirm { number, user_data } => {
            make_minor_confirm_call(session, carrier, reference, number, user_data)
        }
        _ => make_planned_call(session, carrier, reference, request),
    }
}
