//! The text of each fault and of each error.

use crate::output::Output;
use osi_carrier::{CarrierFault, OpenError, SendError};
use osi_class::LinkFault;
use osi_pair::{PairError, RunError};
use osi_session::{CallError, UnitFault};
use osi_spdu::SpduFault;
use osi_stack::ConnectError;
use osi_tpdu::TpduFault;
use osi_tpkt::{TpktFault, WriteError};
use std::alloc::Global;
use std::fmt::{Debug, Display};

/// A line for each fault and each error: its name, a colon and its text.
pub(crate) fn all_texts(alloc: Global) -> Output {
    let mut out = Output::new(alloc);
    push_texts(&mut out);
    out
}

fn push_texts(out: &mut Output) {
    push_packets(out);
    push_transport_units(out);
    push_links(out);
    push_carriers(out);
    push_session_units(out);
    push_sessions(out);
    push_ends(out);
    push_two_ends(out);
}

fn push_all<T: Debug + Display>(out: &mut Output, all: &[T]) {
    for one in all {
        push_one(out, one);
    }
}

fn push_one<T: Debug + Display>(out: &mut Output, one: &T) {
    let line = format!(in out.alloc(); "{one:?}: {one}\n");
    out.say_made(line);
}

fn push_packets(out: &mut Output) {
    let faults = [
        TpktFault::BadVersion(1),
        TpktFault::BadLength(2),
        TpktFault::OutOfMemory,
    ];
    push_all(out, &faults);
    push_all(out, &[WriteError::BadSize, WriteError::OutOfMemory]);
}

fn push_transport_units(out: &mut Output) {
    let faults = [
        TpduFault::BadLi(1),
        TpduFault::UnknownCode(2),
        TpduFault::BadParameterLength(3),
        TpduFault::BadParameterValue(4),
        TpduFault::DuplicateParameter(5),
    ];
    push_all(out, &faults);
}

fn push_links(out: &mut Output) {
    let faults = [
        LinkFault::WrongForm,
        LinkFault::OutOfSequence,
        LinkFault::CreditReduced,
        LinkFault::TsduTooLong,
        LinkFault::OutOfMemory,
    ];
    push_all(out, &faults);
}

fn push_carriers(out: &mut Output) {
    let faults = [
        CarrierFault::Tpkt(TpktFault::BadLength(1)),
        CarrierFault::Tpdu(TpduFault::UnknownCode(2)),
        CarrierFault::Link(LinkFault::CreditReduced),
        CarrierFault::UnknownReference,
        CarrierFault::BadAnswer,
        CarrierFault::UnexpectedUnit,
    ];
    let opening = [
        OpenError::NotCaller,
        OpenError::Ended,
        OpenError::Negotiating,
        OpenError::OneConnection,
        OpenError::TooMany,
        OpenError::ReferencesUsedUp,
        OpenError::OutOfMemory,
    ];
    let sending = [
        SendError::NotOpen,
        SendError::TooLong,
        SendError::OutOfMemory,
    ];
    push_all(out, &faults);
    push_all(out, &opening);
    push_all(out, &sending);
}

fn push_session_units(out: &mut Output) {
    let faults = [
        SpduFault::UnknownSi(1),
        SpduFault::LengthPastEnd(2),
        SpduFault::MissingParameter(42, 3),
        SpduFault::DuplicateParameter(23, 4),
        SpduFault::BadValue(25, 5),
        SpduFault::BadConcatenation(6),
        SpduFault::TrailingOctets(7),
    ];
    push_all(out, &faults);
}

fn push_sessions(out: &mut Output) {
    let errors = [
        CallError::NoSuchConnection,
        CallError::Ended,
        CallError::BadState,
        CallError::NotSelected,
        CallError::TokenNotHeld,
        CallError::TokenAlreadyHeld,
        CallError::BadNumber,
        CallError::SerialsUsedUp,
        CallError::Empty,
        CallError::TooLong,
        CallError::OutOfMemory,
    ];
    let faults = [
        UnitFault::Spelling(SpduFault::UnknownSi(1)),
        UnitFault::Unexpected(2),
        UnitFault::NotSelected(3),
        UnitFault::TokenHeld(4),
        UnitFault::BadNumber(5),
        UnitFault::BadTokens(6),
        UnitFault::BadEnclosure(7),
        UnitFault::DataTooLong(8),
    ];
    push_all(out, &errors);
    push_all(out, &faults);
}

fn push_ends(out: &mut Output) {
    let errors = [
        ConnectError::Open(OpenError::TooMany),
        ConnectError::NotSelected,
        ConnectError::TooLong,
    ];
    push_all(out, &errors);
}

fn push_two_ends(out: &mut Output) {
    let errors = [
        PairError::NotBroken,
        PairError::AlreadyBroken,
        PairError::OutOfMemory,
    ];
    let run = RunError {
        place: 7,
        error: PairError::NotBroken,
    };
    push_all(out, &errors);
    push_all(out, &[run]);
}
