//! Tests of a server with clients over loopback.
use crate::meeting::{Action, Meeting, Step};
use crate::server::{is_served, setup_of};
use acap_entries::Octets;
use acap_serving::{ServeFault, Setup, open, serve};
use std::alloc::Global;
use std::fs;
use std::net::TcpListener;
use std::test::Fail;

/// A STORE, and its answer.
const STORE: Action = Action::IsAnswered(
    b"A1 STORE (\"/option/~/font\" \"option.value\" \"mono\")\r\n",
    b"A1 OK \"STORE done\"\r\n",
);

/// A LOGOUT, and its answer.
const LOGOUT: Action = Action::IsAnswered(
    b"A2 LOGOUT\r\n",
    b"* BYE \"Good bye\"\r\nA2 OK \"LOGOUT done\"\r\n",
);

/// A NOOP, and its answer.
const NOOP: Action = Action::IsAnswered(b"A3 NOOP\r\n", b"A3 OK \"NOOP done\"\r\n");

/// Joe logs in.
const JOE: Step = Step::LogsIn(b"joe", b"secret");

/// Ann logs in.
const ANN: Step = Step::LogsIn(b"ann", b"hush");

static MEETINGS: [Meeting; 8] = [
    Meeting {
        name: "one stores, and another finds it and is sent a change",
        start: None,
        sessions: 2,
        rounds: 1,
        steps: &[
            JOE,
            JOE,
            Step::By(0, STORE),
            Step::By(
                1,
                Action::IsAnswered(
                    b"B1 SEARCH \"/option/~/\" MAKECONTEXT NOTIFY \"c\" RETURN (\"option.value\") EQUAL \"entry\" \"i;octet\" \"font\"\r\n",
                    b"B1 ENTRY \"font\" \"mono\"\r\n",
                ),
            ),
            Step::By(1, Action::HearsALine),
            Step::By(1, Action::Hears(1, b"B1 OK \"SEARCH done\"\r\n")),
            Step::By(
                0,
                Action::IsAnswered(
                    b"A2 STORE (\"/option/~/font\" \"option.value\" \"serif\")\r\n",
                    b"A2 OK \"STORE done\"\r\n",
                ),
            ),
            Step::By(
                1,
                Action::Hears(1, b"* CHANGE \"c\" \"font\" 0 0 \"serif\"\r\n"),
            ),
        ],
    },
    Meeting {
        name: "what the start file stores is found",
        start: Some(
            b"A1 STORE (\"/option/site/motd\" \"option.value\" \"hello\")\r\nA2 LOGOUT\r\n",
        ),
        sessions: 1,
        rounds: 1,
        steps: &[
            ANN,
            Step::By(
                0,
                Action::IsAnswered(
                    b"A1 SEARCH \"/option/site/\" RETURN (\"option.value\") EQUAL \"entry\" \"i;octet\" \"motd\"\r\n",
                    b"A1 ENTRY \"motd\" \"hello\"\r\n",
                ),
            ),
        ],
    },
    Meeting {
        name: "octets come one by one, and one side of a stream is closed",
        start: None,
        sessions: 1,
        rounds: 1,
        steps: &[
            Step::Come(1),
            Step::By(0, Action::SendsSlowly(b"A1 NOOP\r\n")),
            Step::By(0, Action::Hears(1, b"A1 OK \"NOOP done\"\r\n")),
            Step::By(0, Action::Sends(200, b"A2 NOOP\r\n")),
            Step::By(0, Action::Finishes),
            Step::By(0, Action::Hears(200, b"A2 OK \"NOOP done\"\r\n")),
            Step::By(0, Action::IsLeft),
        ],
    },
    Meeting {
        name: "there are 64 sessions at most; one ends, and one is cut off within a literal",
        start: None,
        sessions: 66,
        rounds: 1,
        steps: &[
            Step::Come(64),
            Step::IsRefused,
            Step::By(63, LOGOUT),
            Step::By(63, Action::IsLeft),
            Step::Come(1),
            Step::By(
                64,
                Action::IsAnswered(b"A1 NOOP {5}\r\nhel", b"+ \"Ready\"\r\n"),
            ),
            Step::GoesAway,
            Step::ComesAtLast,
        ],
    },
    Meeting {
        name: "one never reads, another sends garbage, and others are answered",
        start: None,
        sessions: 3,
        rounds: 1,
        steps: &[
            JOE,
            Step::By(0, STORE),
            Step::By(0, Action::IsDeaf),
            ANN,
            Step::By(1, NOOP),
            Step::Come(1),
            Step::By(2, Action::IsNoisy),
            Step::By(1, NOOP),
        ],
    },
    Meeting {
        name: "no two logins have the same nonce",
        start: None,
        sessions: 2,
        rounds: 1,
        steps: &[Step::Come(2), Step::AreChallenged(&[0, 1, 1])],
    },
    Meeting {
        name: "the moments of two STOREs are as far apart as the two",
        start: None,
        sessions: 1,
        rounds: 1,
        steps: &[JOE, Step::By(0, Action::IsDated)],
    },
    Meeting {
        name: "a place is used again",
        start: None,
        sessions: 10,
        rounds: 10,
        steps: &[
            JOE,
            Step::By(0, STORE),
            Step::By(0, LOGOUT),
            Step::By(0, Action::IsLeft),
        ],
    },
];

#[test]
fn what_meetings_say_comes_true(rt: HostRuntime) -> Result<(), Fail> {
    for meeting in &MEETINGS {
        if !is_served(&rt, meeting)? {
            return Err(Fail::new(meeting.name));
        }
    }
    Ok(())
}

// A setup that listens there.
fn listening(alloc: Global, listen: &[u8]) -> Result<Setup, ServeFault> {
    let mut setup = setup_of(alloc, 1, None)?;
    setup.settings.listen = Octets::from_slice(alloc, listen)?;
    Ok(setup)
}

#[test]
fn a_port_in_use_and_no_address_are_refused(rt: HostRuntime) -> Result<(), Fail> {
    let alloc = rt.alloc();
    let listener = TcpListener::bind(&rt, "127.0.0.1:0")?;
    let used = format!(in alloc; "{}", listener.local_addr()?)?;
    for listen in [used.as_bytes(), b"nowhere", b"127.0.0.1", b""] {
        let ended = match listening(alloc, listen) {
            Ok(setup) => open(&rt, &setup.settings).map(|_| ()),
            Err(fault) => Err(fault),
        };
        assert!(rt; ended == Err(ServeFault::Listen));
    }
    Ok(())
}

/// Texts of settings files, and the faults that they are refused by.
static FILES: [(&[u8], ServeFault); 4] = [
    (b"listen = 1", ServeFault::Settings),
    (b"no settings", ServeFault::Settings),
    (b"\xff\xfe", ServeFault::Settings),
    (
        b"listen = \"\"\nhost = \"\"\nworkers = 1\nturns = 1\nsessions = 1\nadministrators = [\"root\"]\nstart = \"/nowhere/start\"\n[users]\n",
        ServeFault::Read,
    ),
];

#[test]
fn files_that_are_missing_or_no_settings_are_refused(rt: HostRuntime) -> Result<(), Fail> {
    let alloc = rt.alloc();
    // Nobody else has a port while it is held, so nobody else has a file of its name.
    let held = TcpListener::bind(&rt, "127.0.0.1:0")?;
    let name = format!(in alloc; "/tmp/acapd_{}", held.local_addr()?.port())?;
    assert!(rt; serve(&rt, name.as_str(), |_| ()) == Err(ServeFault::Read));
    for (text, fault) in &FILES {
        fs::write(&rt, name.as_str(), *text)?;
        let refused = serve(&rt, name.as_str(), |_| ());
        fs::remove_file(&rt, name.as_str())?;
        assert!(rt; refused == Err(*fault));
    }
    Ok(())
}
