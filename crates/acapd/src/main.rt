//! The program `acapd`: an ACAP dataset server (RFC 2244).
#![tactic(auto)]

ghost use Rattle.std.specs.Prelude.{◌≡◌, ◌<◌};

use acap_calls::run_call;
use acap_entries::Steps;
use acap_serving::serve;
use std::alloc::AllocGlobal;
use std::fs::Files;
use std::io::ErrorKind;
use std::marker::Brand;
use std::net::{Net, SocketAddr, TcpListener, TcpStream};
use std::process::ExitCode;
use std::random::RandomSource;
use std::sync::Wait;
use std::sync::ledger::{Blank, Ledger};
use std::thread::Threads;
use std::time::Clock;
use std::{env, io};

// The words after the program's name.
fn words(rt: &HostRuntime) -> io::Result<Vec<String>> {
    let mut words = env::args(rt)?;
    let _program = words.next();
    let mut listed = Vec::new(rt.alloc());
    for word in words {
        listed.push(word)?;
    }
    Ok(listed)
}

// Says on standard output where a server listens. Where that can't be written it serves all the same.
fn announce(rt: &HostRuntime, address: SocketAddr) {
    let _ = println!(rt; "acapd: listening on {}", address);
}

// Does what the words after the program's name ask for. What its searches look at is counted. A server is given the handle.
fn run<H, L: Ledger>(rt: &HostRuntime, handle: &H, blank: Blank) -> io::Result<ExitCode>
where
    H: Threads
        + Wait
        + Clock
        + Net<Listener = TcpListener, Stream = TcpStream>
        + RandomSource
        + AllocGlobal
        + Files
        + Sync,
    requires name { blank.name ≡ L.name }
    requires parts { blank.parts ≡ L.parts }
    requires some { 0 < L.parts }
{
    let mut steps = Steps::<L>::new(blank);
    let words = words(rt).map_err(|error| error.kind());
    let status = run_call(
        rt.alloc(),
        &words,
        &mut rt.reader(),
        &mut io::writer(rt),
        &mut rt.stderr(),
        &mut steps,
        |file| serve(handle, file.as_str(), |address| announce(rt, address)),
    );
    match status {
        Ok(status) => Ok(ExitCode::from(status)),
        Err(_) => Err(io::Error::from(ErrorKind::Other)),
    }
}

fn main(rt: HostRuntime) -> io::Result<ExitCode> {
    run::<HostRuntime, Brand>(&rt, &rt, Blank::new(1))
}
