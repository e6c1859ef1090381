//! Tests of sessions on several workers.
ghost use Rattle.std.specs.Prelude.{◌≡◌, None};
ghost use Rattle.acap_serving.specs.Devices.{silent_wire};

use crate::gate::{Sign, Stop, WaitingWire};
use crate::workers::{Outcome, conn_of, run_all, was_sent};
use acap_entries::Memory;
use acap_task::Wire;
use std::alloc::{AllocGlobal, Global};
use std::net::{Net, TcpListener, TcpStream};
use std::random::RandomSource;
use std::sync::Wait;
use std::sync::atomic::AtomicBool;
use std::test::Fail;
use std::thread::Threads;
use std::time::Clock;

/// One of two sessions: its user, what it sends, where its reader waits, when it sets its flag, and what should be answered after the
/// greeting.
#[derive(Clone, Copy)]
struct Side {
    user: &'static [u8],
    text: &'static [u8],
    stop: Stop,
    sign: Sign,
    answers: &'static [u8],
}

/// Two sessions, each on a worker of its own.
#[derive(Clone, Copy)]
struct Pair {
    one: Side,
    other: Side,
}

/// Joe stops within a literal, after `hel`, and sets his flag there. He goes on once the other's is set.
const JOE: Side = Side {
    user: b"joe",
    text: b"A1 STORE (\"/option/~/e\" \"option.value\" {5+}\r\nhello)\r\nA2 SEARCH \"/option/~/\" RETURN (\"modtime\") ALL\r\n",
    stop: Stop::At(48),
    sign: Sign::Waiting,
    answers: b"A1 OK \"STORE done\"\r\nA2 ENTRY \"e\" \"00000101000000000002\"\r\nA2 MODTIME \"00000101000000000002\"\r\nA2 OK \"SEARCH done\"\r\n",
};

/// Ann begins once the other's flag is set, and sets hers when both her commands are answered.
const ANN: Side = Side {
    user: b"ann",
    text: b"B1 STORE (\"/option/~/e\" \"option.value\" \"x\")\r\nB2 SEARCH \"/option/~/\" RETURN (\"option.value\") ALL\r\n",
    stop: Stop::At(0),
    sign: Sign::Written(b"B2 OK \"SEARCH done\"\r\n"),
    answers: b"B1 OK \"STORE done\"\r\nB2 ENTRY \"e\" \"x\"\r\nB2 MODTIME \"00000101000000000001\"\r\nB2 OK \"SEARCH done\"\r\n",
};

/// Who stops within a literal, from poll to poll and within one poll, and who is answered meanwhile.
static GATES: [Pair; 2] = [
    Pair {
        one: JOE,
        other: ANN,
    },
    Pair {
        one: Side {
            stop: Stop::Within(48),
            ..JOE
        },
        other: ANN,
    },
];

/// Each sets its flag, and then looks within one poll for that of the other.
static FLAGS: Pair = Pair {
    one: Side {
        user: b"joe",
        text: b"A1 NOOP\r\n",
        stop: Stop::Within(0),
        sign: Sign::Waiting,
        answers: b"A1 OK \"NOOP done\"\r\n",
    },
    other: Side {
        user: b"ann",
        text: b"B1 NOOP\r\n",
        stop: Stop::Within(0),
        sign: Sign::Waiting,
        answers: b"B1 OK \"NOOP done\"\r\n",
    },
};

// A wire of that side, with its own flag and that of the other.
fn wire_of<'a>(
    side: Side,
    mine: &'a AtomicBool,
    other: &'a AtomicBool,
    output: Vec<u8>,
) -> WaitingWire<'a>
    ensures { ⟦<WaitingWire<'a> as Wire>⟧.told result ≡ silent_wire }
{
    WaitingWire::new(side.text, side.stop, side.sign, (mine, other), output)
}

impl Pair {
    // Whether both were sent what they should be.
    fn was_sent(&self, outcome: Option<Outcome>) -> bool {
        match outcome {
            Some(Outcome { sessions, .. }) => match sessions.as_slice() {
                [one, other] => was_sent(one, self.one.answers)
                    && was_sent(other, self.other.answers),
                _ => false,
            },
            None => false,
        }
    }

    // Whether both are sent what they should be, on two workers.
    fn comes_true<R>(&self, rt: &R) -> Result<bool, Memory>
    where
        R: Threads
            + Wait
            + Clock
            + Net<Listener = TcpListener, Stream = TcpStream>
            + RandomSource
            + AllocGlobal
            + Sync,
    {
        let alloc = rt.alloc();
        let (one, other) = (AtomicBool::new(false), AtomicBool::new(false));
        let first = wire_of(self.one, &one, &other, Vec::new(alloc));
        let second = wire_of(self.other, &other, &one, Vec::new(alloc));
        let mut conns = Vec::new(alloc);
        conns.push(conn_of(alloc, self.one.user, first)?)?;
        conns.push(conn_of(alloc, self.other.user, second)?)?;
        Ok(self.was_sent(run_all(rt, conns, 2)?))
    }
}

// A session that stops within a literal doesn't hold up another, which stores and searches: it goes on once that one is answered.
#[test]
fn a_session_waits_within_a_literal_until_another_is_answered(rt: HostRuntime) -> Result<(), Fail> {
    for pair in &GATES {
        assert!(rt; pair.comes_true(&rt)?);
    }
    Ok(())
}

// Two sessions are polled at the same time: each reader sees the other's flag within one poll.
#[test]
fn two_sessions_are_polled_at_one_time(rt: HostRuntime) -> Result<(), Fail> {
    assert!(rt; FLAGS.comes_true(&rt)?);
    Ok(())
}

// `count` STOREs, and their answers.
fn stores(alloc: Global, count: u32) -> Result<(Vec<u8>, Vec<u8>), Memory> {
    let mut said = String::new(alloc);
    let mut answered = String::new(alloc);
    for number in 0..count {
        let command = format!(in alloc;
            "A{number} STORE (\"/option/~/e{number}\" \"option.value\" \"v\")\r\n"
        )?;
        said.push_str(command.as_str())?;
        let answer = format!(in alloc; "A{number} OK \"STORE done\"\r\n")?;
        answered.push_str(answer.as_str())?;
    }
    Ok((said.into_bytes(), answered.into_bytes()))
}

// A crowd of sessions is answered, and the history has all their events: each enters, stores 50 times and leaves.
#[test]
fn a_crowd_is_answered(rt: HostRuntime) -> Result<(), Fail> {
    let alloc = rt.alloc();
    let (said, answers) = stores(alloc, 50)?;
    let flag = AtomicBool::new(false);
    let mut conns = Vec::new(alloc);
    for number in 0..64 {
        let user = format!(in alloc; "u{number}")?;
        let flags = (&flag, &flag);
        let wire = WaitingWire::new(&said, Stop::Nowhere, Sign::Waiting, flags, Vec::new(alloc));
        conns.push(conn_of(alloc, user.as_bytes(), wire)?)?;
    }
    let Some(came) = run_all(&rt, conns, 16)? else {
        return Err(Fail::new("not run or not closed"));
    };
    assert_eq!(rt; came.sessions.len(), 64);
    assert!(rt;
        came.sessions
            .iter()
            .all(|one| was_sent(one, &answers) && one.calls == 52)
    );
    assert_eq!(rt; came.events, 64 * 52);
    Ok(())
}
