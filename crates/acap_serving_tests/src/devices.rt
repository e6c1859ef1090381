//! A session over devices in memory alone: what it writes, and what its desk was asked, is compared whole.
ghost use Rattle.std.specs.Prelude.{◌≡◌, ◌≤◌, IfOk};
ghost use Rattle.acap_task.specs.Told.{new_desk, new_source};

use crate::stage::{no_bell, wire};
use acap_commands::{Command, Event, Fault, Reply, Said, Verb};
use acap_entries::{ContextName, Copying, Memory, Moment, NameFault, Octets, UserName};
use acap_locked::{Answer, Call};
use acap_login::Users;
use acap_task::{Conn, MemBell, MemDesk, MemSource, MemWire, Over, SessionTask, TaskEnd};
use futures::executor::block_on;
use std::alloc::{AllocGlobal, Global};
use std::collections::VecDeque;
use std::io;
use std::marker::Brand;
use std::random::RandomSource;
use std::sync::Wait;
use std::sync::ledger::{Blank, Ledger};

/// What the clock shows at the first turns, and from then on.
const MOMENTS: [i64; 4] = [
    697_170_952_000_000,
    697_170_953_000_000,
    697_170_954_000_000,
    697_170_955_000_000,
];

const MOMENT: i64 = 697_170_956_000_000;

/// The nonces of the first turns, and the one from then on.
const NONCES: [u64; 2] = [1896, 1897];

const NONCE: u64 = 1898;

/// The secret of joe is `secret`, and so this is his answer to the challenge below.
static INPUT: &[u8] =
    b"A1 AUTHENTICATE \"CRAM-MD5\"\r\n\"joe d4497fc142dd741d2fe286c803fc3255\"\r\nA2 FREECONTEXT \"c\"\r\nA3 LOGOUT\r\n";

/// The greeting takes the first turn, and finding nothing more to say the second. The challenge has the moment of the third.
static OUTPUT: &[u8] =
    b"* ACAP (IMPLEMENTATION \"acapd\") (SASL \"CRAM-MD5\") (CONTEXTLIMIT \"200\")\r\n+ \"<1898.697170954@postoffice.reston.mci.net>\"\r\nA1 OK \"AUTHENTICATE done\"\r\nA2 OK \"FREECONTEXT done\"\r\n* BYE \"Good bye\"\r\nA3 OK \"LOGOUT done\"\r\n";

// A name that isn't read fails as memory does: there is none here.
fn read<T>(name: Result<T, NameFault>) -> Result<T, Memory> {
    name.map_err(|_| Memory)
}

// That moment.
fn moment(micros: i64) -> Moment {
    Moment::new(micros).unwrap_or(Moment::first())
}

// A call, with its answer.
fn call(event: Event, micros: i64, said: Said) -> Call {
    Call {
        event,
        moment: moment(micros),
        reply: Reply::new(said),
    }
}

// The calls of the session, with their answers. Joe enters in the fourth turn.
fn calls(alloc: Global) -> io::Result<Vec<Call>> {
    let joe = read(UserName::read(alloc, b"joe"))?;
    let free = Command::FreeContext(read(ContextName::read(alloc, b"c"))?);
    let mut calls = Vec::new(alloc);
    calls.push(call(Event::Enter(joe), MOMENTS[3], Said::Greeting))?;
    calls.push(call(Event::Command(free), MOMENT, Said::Done(Verb::FreeContext)))?;
    calls.push(call(Event::Leave, MOMENT, Said::Left))?;
    Ok(calls)
}

// A desk that gives these answers.
fn desk(alloc: Global, calls: &[Call]) -> io::Result<MemDesk>
    ensures { IfOk result (λ d. d.0 ≡ new_desk) }
{
    let mut answers: VecDeque<Result<Answer, Fault>> = VecDeque::new(alloc);
    for call in calls {
        answers.push_back(Ok(Answer {
            epoch: 0,
            place: 0,
            reply: call.reply.copy()?,
            kept: None,
            rings: 0,
        }))?;
    }
    Ok(MemDesk::new(alloc, answers))
}

// A source of the moments and nonces.
fn source<L: Ledger>(alloc: Global, blank: Blank) -> io::Result<MemSource<L>>
    requires name { blank.name ≡ L.name }
    requires parts { blank.parts ≡ L.parts }
    requires two { 2 ≤ L.parts }
    ensures { IfOk result (λ s. s.0 ≡ new_source) }
{
    let mut moments = Vec::new(alloc);
    for micros in MOMENTS {
        moments.push(moment(micros))?;
    }
    let nonces = Vec::from_array(alloc, NONCES)?;
    Ok(MemSource::new(blank, moments, moment(MOMENT), nonces, NONCE))
}

// Joe and his secret.
fn joe(alloc: Global) -> io::Result<Users> {
    let mut users = Vec::new(alloc);
    let name = read(UserName::read(alloc, b"joe"))?;
    users.push((name, Vec::from_slice(alloc, b"secret")?))?;
    Ok(Users::new(users))
}

// Whether two lists of calls are equal.
fn are_same(calls: &[Call], others: &[Call]) -> bool {
    let same = |pair: (&Call, &Call)| pair.0.equals(pair.1);
    calls.len() == others.len() && calls.iter().zip(others).all(same)
}

// A session over such devices, from its beginning to its end.
fn run<'u, L: Ledger, R: Wait + RandomSource + AllocGlobal>(
    rt: &R,
    blank: Blank,
    users: &'u Users,
    calls: &[Call],
) -> io::Result<Over<'u, MemWire, MemDesk, MemSource<L>, MemBell>>
    requires name { blank.name ≡ L.name }
    requires parts { blank.parts ≡ L.parts }
    requires two { 2 ≤ L.parts }
{
    let alloc = rt.alloc();
    let conn = Conn {
        wire: wire(alloc, INPUT, 1_000)?,
        user: None,
        source: source::<L>(alloc, blank)?,
    };
    let (desk, bell) = (desk(alloc, calls)?, no_bell(alloc)?);
    let host = Octets::from_slice(alloc, b"postoffice.reston.mci.net")?;
    let task = SessionTask::new(alloc, conn, desk, bell, users, host, 10);
    Ok(block_on(rt, task)?)
}

// Whether such a session writes what it should, and asks its desk what it should.
fn is_written<L: Ledger, R: Wait + RandomSource + AllocGlobal>(
    rt: &R,
    blank: Blank,
) -> io::Result<bool>
    requires name { blank.name ≡ L.name }
    requires parts { blank.parts ≡ L.parts }
    requires two { 2 ≤ L.parts }
{
    let alloc = rt.alloc();
    let users = joe(alloc)?;
    let calls = calls(alloc)?;
    let over = run::<L, R>(rt, blank, &users, calls.as_slice())?;
    let written = over.running.wire.output() == OUTPUT;
    let asked = are_same(over.running.desk.calls(), calls.as_slice());
    Ok(written && asked && over.end == TaskEnd::Ended)
}

#[test]
fn devices_report_all(rt: HostRuntime) {
    let written = is_written::<Brand, _>(&rt, Blank::new(2));
    assert!(rt; written.unwrap_or(false));
}
