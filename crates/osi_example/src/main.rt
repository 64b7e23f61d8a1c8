//! Two ends of a byte connection, a caller and a called one, joined by two byte buffers. The caller asks for an
//! association, the other side accepts it, and data is sent. The program prints what the two users receive.
#![tactic(auto)]

use bitflags::Flags;
use osi_carrier::Ref;
use osi_class::Local;
use osi_session::{Indication, Request, Sides};
use osi_spdu::{Requirements, Serial, Side, TokenSetting, TsduSizes, Wish};
use osi_stack::{Connect, Stack};
use osi_tpdu::{SizeCode, Window};
use std::alloc::Global;
use std::io;

/// Half-duplex and minor synchronize.
const UNITS: u16 = 0x0009;

/// A caller and a called end.
#[derive(Drop)]
struct Ends {
    caller: Stack,
    called: Stack,
}

/// The error with which the program ends if something went wrong.
fn failed() -> io::Error {
    io::Error::from(io::ErrorKind::Other)
}

/// Both classes, the largest size of a TPDU, and a window of 15.
fn local() -> Option<Local> {
    Some(Local {
        class0: true,
        class2: true,
        size: SizeCode::new(13)?,
        window: Window::new(15)?,
    })
}

/// A connection whose first synchronization point has number 0, and whose caller holds each token.
fn asked<'a>(serial: Serial) -> Connect<'a> {
    Connect {
        requirements: Requirements::from_bits_retain(UNITS),
        serial,
        wishes: TokenSetting {
            data_token: Wish::Asker,
            minor: Wish::Asker,
            major: Wish::Asker,
            release: Wish::Asker,
        },
        calling_tsap: None,
        called_tsap: None,
        calling_selector: None,
        called_selector: None,
        sizes: TsduSizes::NONE,
        user_data: b"who is there?",
    }
}

/// The request that accepts it.
fn accepted<'a>(serial: Serial) -> Request<'a> {
    Request::Accept {
        requirements: Requirements::from_bits_retain(UNITS),
        serial,
        sides: Sides {
            data_token: Side::Asker,
            minor: Side::Asker,
            major: Side::Asker,
            release: Side::Asker,
        },
        sizes: TsduSizes::NONE,
        user_data: b"a gateway",
    }
}

/// The name of an indication, and its user data.
fn said(indication: &Indication) -> (&str, &[u8]) {
    match indication {
        Indication::Connect { user_data, .. } => ("asked for", user_data.as_slice()),
        Indication::Connected { user_data, .. } => ("opened", user_data.as_slice()),
        Indication::Data { user_data } => ("data", user_data.as_slice()),
        _ => ("something else", &[]),
    }
}

/// Prints an indication that the user of an end receives for a connection.
fn show<R: Print>(rt: &R, name: &str, of: Ref, indication: &Indication) -> io::Result<()> {
    let (what, user_data) = said(indication);
    let reference = of.0;
    let text = match str::from_utf8(user_data) {
        Ok(text) => text,
        Err(_) => "octets",
    };
    println!(rt; "{name}, connection {reference}, {what}: {text}")
}

/// The next pending indication of an end, and its connection.
fn next(end: &mut Stack) -> Option<(Ref, Indication)> {
    end.next_indication()
}

/// Prints the next indication of an end; false if there is none.
fn show_next<R: Print>(rt: &R, end: &mut Stack, name: &str) -> io::Result<bool> {
    match next(end) {
        Some((reference, indication)) => {
            show(rt, name, reference, &indication)?;
            Ok(true)
        }
        None => Ok(false),
    }
}

/// Feeds octets to an end, and prints what its user receives.
fn feed<R: Print>(rt: &R, to: &mut Stack, octets: &[u8], name: &str) -> io::Result<()> {
    let mut rest = octets;
    for _ in 0..=octets.len() {
        let fed = to.feed(rest);
        rest = &rest[fed.used..];
        if !show_next(rt, to, name)? {
            return Ok(());
        }
    }
    Ok(())
}

/// Carries the octets that one end has written to the other, and prints what the user there receives. In a gateway the
/// buffer would be a socket: what is read from it is fed.
fn carry<R: Print + AllocGlobal>(
    rt: &R,
    from: &mut Stack,
    to: &mut Stack,
    name: &str,
) -> io::Result<()> {
    let buffer = Vec::from_slice(rt.alloc(), from.outgoing())?;
    from.taken(buffer.len());
    feed(rt, to, buffer.as_slice(), name)
}

/// Carries both ways, there and back, until nothing is left.
fn exchange<R: Print + AllocGlobal>(rt: &R, ends: &mut Ends) -> io::Result<()> {
    for _ in 0..3 {
        carry(rt, &mut ends.caller, &mut ends.called, "called end")?;
        carry(rt, &mut ends.called, &mut ends.caller, "caller")?;
    }
    Ok(())
}

/// Two fresh ends.
fn two_ends(alloc: Global, local: Local) -> Ends {
    Ends {
        caller: Stack::caller(alloc, local),
        called: Stack::called(alloc, local),
    }
}

/// Asks for a connection.
fn ask(caller: &mut Stack, serial: Serial) -> io::Result<Ref> {
    match caller.connect(&asked(serial)) {
        Ok(reference) => Ok(reference),
        Err(_) => Err(failed()),
    }
}

/// Makes a call for the user of an end.
fn call(end: &mut Stack, reference: Ref, request: Request) -> io::Result<()> {
    match end.call(reference, request) {
        Ok(()) => Ok(()),
        Err(_) => Err(failed()),
    }
}

/// The whole run: ask, accept, send data.
fn talk<R: Print + AllocGlobal>(rt: &R, ends: &mut Ends, serial: Serial) -> io::Result<()> {
    let reference = ask(&mut ends.caller, serial)?;
    exchange(rt, ends)?;
    call(&mut ends.called, reference, accepted(serial))?;
    exchange(rt, ends)?;
    let data = Request::Data {
        user_data: b"hello",
    };
    call(&mut ends.caller, reference, data)?;
    exchange(rt, ends)
}

fn main(rt: HostRuntime) -> io::Result<()> {
    let (Some(local), Some(serial)) = (local(), Serial::new(0)) else {
        return Err(failed());
    };
    talk(&rt, &mut two_ends(rt.alloc(), local), serial)
}
