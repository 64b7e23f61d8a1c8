//! The calls of the user of a connection (X.215 section 10, requests and responses).

ghost use Rattle.std.specs.Prelude.{◌≡◌, ◌==◌, not, option_map, Some, None};
ghost use Rattle.osi_message.specs.Tokens.{named};
ghost use Rattle.osi_session.specs.Calls.{called_by, refusal_with, Accept, Refuse, Data, Give, Please, Minor, MinorConfirm, Major};
ghost use Rattle.osi_session.specs.Calls.{MajorConfirm, Restart, RestartConfirm, Release, ReleaseAccept, ReleaseRefuse, Abort};
ghost use Rattle.osi_spdu.specs.Sizes.{named_by, no_sizes};
ghost use Rattle.osi_c.specs.Arguments.{accept_of, accept_with, refuse_of, restart_of, restart_confirm_of};
ghost use Rattle.osi_c.specs.Codes.{answer_of};
ghost use Rattle.osi_c.specs.Ends.{Calls, CallsIf, Disconnects};

use crate::arguments::{OsiSides, refusal_for, serial, sides, sizes, wishes};
use crate::codes::{BAD_ARGUMENT, CLOSED, OK, refusal};
use crate::slots::OsiEnd;
use bitflags::Flags;
use osi_carrier::Ref;
use osi_session::{Refusal, Request};
use osi_spdu::{Requirements, TokenSet, TsduSizes};

fn call(end: &mut OsiEnd, reference: u16, request: Request<'_>) -> u32
    ensures { Calls reference (called_by request.entry) (answer_of result) end.old.inner.value end.new.inner.value }
{
    if !end.full {
        return CLOSED;
    }
    match end.get_mut().stack.call(Ref(reference), request) {
        Ok(()) => OK,
        Err(error) => refusal(error),
    }
}

fn accept(
    end: &mut OsiEnd,
    reference: u16,
    requirements: u16,
    number: u32,
    settled: &OsiSides,
    sizes: TsduSizes,
    user_data: &[u8],
) -> u32
    ensures { CallsIf reference (accept_with requirements number settled.now (named_by sizes) user_data.now) (answer_of result)
        end.old.inner.value end.new.inner.value }
{
    let Some(serial) = serial(number) else {
        return BAD_ARGUMENT;
    };
    let Some(sides) = sides(settled) else {
        return BAD_ARGUMENT;
    };
    let requirements = Requirements::from_bits_retain(requirements);
    let request = Request::Accept {
        requirements,
        serial,
        sides,
        sizes,
        user_data,
    };
    call(end, reference, request)
}

/// Accepts the connection (AC). This user sets no limit of its own to the length of a TSDU.
#[unsafe(no_mangle)]
pub extern "C" fn osi_accept(
    end: &mut OsiEnd,
    reference: u16,
    requirements: u16,
    number: u32,
    settled: &OsiSides,
    user_data: &[u8],
) -> u32
    ensures { CallsIf reference (accept_with requirements number settled.now no_sizes user_data.now) (answer_of result) end.old.inner.value
        end.new.inner.value }
{
    accept(
        end,
        reference,
        requirements,
        number,
        settled,
        TsduSizes::NONE,
        user_data,
    )
}

/// Accepts the connection (AC), with the largest TSDU that each side may send, in octets: at least 64, or 0 if this
/// user sets no limit.
#[unsafe(no_mangle)]
pub extern "C" fn osi_accept_sized(
    end: &mut OsiEnd,
    reference: u16,
    requirements: u16,
    number: u32,
    settled: &OsiSides,
    from_asker: u16,
    from_answerer: u16,
    user_data: &[u8],
) -> u32
    ensures { CallsIf reference (accept_of requirements number settled.now from_asker from_answerer user_data.now) (answer_of result)
        end.old.inner.value end.new.inner.value }
{
    let Some(sizes) = sizes(from_asker, from_answerer) else {
        return BAD_ARGUMENT;
    };
    accept(
        end,
        reference,
        requirements,
        number,
        settled,
        sizes,
        user_data,
    )
}

/// Refuses the connection (RF): with reason 2 and the user data, or with reason 0 if there is none.
#[unsafe(no_mangle)]
pub extern "C" fn osi_refuse(end: &mut OsiEnd, reference: u16, user_data: &[u8]) -> u32
    ensures { Calls reference (Refuse (refusal_with user_data.now)) (answer_of result) end.old.inner.value end.new.inner.value }
{
    let refusal = Refusal::with(user_data);
    call(end, reference, Request::Refuse { refusal })
}

/// Refuses the connection (RF) with one of the reasons of a user: 0 gives no reason, 1 is temporary congestion, and 2
/// has the user data. `BAD_ARGUMENT` for any other reason, and for user data with 0 or 1.
#[unsafe(no_mangle)]
pub extern "C" fn osi_refuse_with(
    end: &mut OsiEnd,
    reference: u16,
    reason: u8,
    user_data: &[u8],
) -> u32
    ensures { CallsIf reference (refuse_of reason user_data.now) (answer_of result) end.old.inner.value end.new.inner.value }
{
    let Some(refusal) = refusal_for(reason, user_data) else {
        return BAD_ARGUMENT;
    };
    call(end, reference, Request::Refuse { refusal })
}

/// Sends data (DT).
#[unsafe(no_mangle)]
pub extern "C" fn osi_data(end: &mut OsiEnd, reference: u16, user_data: &[u8]) -> u32
    ensures { Calls reference (Data user_data.now) (answer_of result) end.old.inner.value end.new.inner.value }
{
    call(end, reference, Request::Data { user_data })
}

/// Gives tokens (GT).
#[unsafe(no_mangle)]
pub extern "C" fn osi_give(end: &mut OsiEnd, reference: u16, tokens: u8) -> u32
    ensures { Calls reference (Give (named tokens)) (answer_of result) end.old.inner.value end.new.inner.value }
{
    let tokens = TokenSet::from_bits_retain(tokens);
    call(end, reference, Request::Give { tokens })
}

/// Asks for tokens (PT).
#[unsafe(no_mangle)]
pub extern "C" fn osi_please(end: &mut OsiEnd, reference: u16, tokens: u8, user_data: &[u8]) -> u32
    ensures { Calls reference (Please (named tokens) user_data.now) (answer_of result) end.old.inner.value end.new.inner.value }
{
    let tokens = TokenSet::from_bits_retain(tokens);
    call(end, reference, Request::Please { tokens, user_data })
}

/// Sets a minor synchronization point (MIP), and asks for its confirmation unless `confirm` is 0.
#[unsafe(no_mangle)]
pub extern "C" fn osi_minor(end: &mut OsiEnd, reference: u16, confirm: u8, user_data: &[u8]) -> u32
    ensures { Calls reference (Minor (not (confirm == 0)) user_data.now) (answer_of result) end.old.inner.value end.new.inner.value }
{
    let confirm = confirm != 0;
    call(end, reference, Request::Minor { confirm, user_data })
}

/// Confirms the minor points up to this one (MIA).
#[unsafe(no_mangle)]
pub extern "C" fn osi_minor_confirm(
    end: &mut OsiEnd,
    reference: u16,
    number: u32,
    user_data: &[u8],
) -> u32
    ensures { Calls reference (MinorConfirm number user_data.now) (answer_of result) end.old.inner.value end.new.inner.value }
{
    call(end, reference, Request::MinorConfirm { number, user_data })
}

/// Sets a major synchronization point (MAP).
#[unsafe(no_mangle)]
pub extern "C" fn osi_major(end: &mut OsiEnd, reference: u16, user_data: &[u8]) -> u32
    ensures { Calls reference (Major user_data.now) (answer_of result) end.old.inner.value end.new.inner.value }
{
    call(end, reference, Request::Major { user_data })
}

/// Confirms the major point (MAA).
#[unsafe(no_mangle)]
pub extern "C" fn osi_major_confirm(end: &mut OsiEnd, reference: u16, user_data: &[u8]) -> u32
    ensures { Calls reference (MajorConfirm user_data.now) (answer_of result) end.old.inner.value end.new.inner.value }
{
    call(end, reference, Request::MajorConfirm { user_data })
}

/// Restarts at a point (RS).
#[unsafe(no_mangle)]
pub extern "C" fn osi_restart(
    end: &mut OsiEnd,
    reference: u16,
    number: u32,
    wished: &OsiSides,
    user_data: &[u8],
) -> u32
    ensures { CallsIf reference (restart_of number wished.now user_data.now) (answer_of result) end.old.inner.value end.new.inner.value }
{
    let Some(wishes) = wishes(wished) else {
        return BAD_ARGUMENT;
    };
    let request = Request::Restart {
        number,
        wishes,
        user_data,
    };
    call(end, reference, request)
}

/// Answers a restart (RA).
#[unsafe(no_mangle)]
pub extern "C" fn osi_restart_confirm(
    end: &mut OsiEnd,
    reference: u16,
    settled: &OsiSides,
    user_data: &[u8],
) -> u32
    ensures { CallsIf reference (restart_confirm_of settled.now user_data.now) (answer_of result) end.old.inner.value end.new.inner.value }
{
    let Some(sides) = sides(settled) else {
        return BAD_ARGUMENT;
    };
    call(end, reference, Request::RestartConfirm { sides, user_data })
}

/// Asks for the release (FN).
#[unsafe(no_mangle)]
pub extern "C" fn osi_release(end: &mut OsiEnd, reference: u16, user_data: &[u8]) -> u32
    ensures { Calls reference (Release user_data.now) (answer_of result) end.old.inner.value end.new.inner.value }
{
    call(end, reference, Request::Release { user_data })
}

/// Accepts the release (DN).
#[unsafe(no_mangle)]
pub extern "C" fn osi_release_accept(end: &mut OsiEnd, reference: u16, user_data: &[u8]) -> u32
    ensures { Calls reference (ReleaseAccept user_data.now) (answer_of result) end.old.inner.value end.new.inner.value }
{
    call(end, reference, Request::ReleaseAccept { user_data })
}

/// Refuses the release (NF).
#[unsafe(no_mangle)]
pub extern "C" fn osi_release_refuse(end: &mut OsiEnd, reference: u16, user_data: &[u8]) -> u32
    ensures { Calls reference (ReleaseRefuse user_data.now) (answer_of result) end.old.inner.value end.new.inner.value }
{
    call(end, reference, Request::ReleaseRefuse { user_data })
}

/// Aborts the connection (AB).
#[unsafe(no_mangle)]
pub extern "C" fn osi_abort(end: &mut OsiEnd, reference: u16, user_data: &[u8]) -> u32
    ensures { Calls reference (Abort user_data.now) (answer_of result) end.old.inner.value end.new.inner.value }
{
    call(end, reference, Request::Abort { user_data })
}

/// Gives up one connection at once: its pending indications are dropped, and its transport connection is closed by a DR
/// or, in class 0, by the end of this end.
#[unsafe(no_mangle)]
pub extern "C" fn osi_disconnect(end: &mut OsiEnd, reference: u16) -> u32
    ensures { Disconnects reference (answer_of result) end.old.inner.value end.new.inner.value }
{
    if !end.full {
        return CLOSED;
    }
    match end.get_mut().stack.disconnect(Ref(reference)) {
        Ok(()) => OK,
        Err(error) => refusal(error),
    }
}
