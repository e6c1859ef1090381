//! A test of a session that says each turn's octets in memory of their own, which no program asks for.
ghost use Rattle.std.specs.Prelude.{◌≡◌, true};
ghost use Rattle.acap_dialogue.specs.Session.{is_asked};

use acap_commands::{Command, Event, Fault, Reply, Said, Verb};
use acap_dialogue::{Next, Session};
use acap_entries::{ContextName, Moment, Octets, UserName};
use acap_login::Users;
use std::alloc::Global;

/// An event that a session may ask for.
#[derive(Clone, Copy)]
enum Asks {
    /// Its user enters.
    Enters,
    /// Its user gives up a context.
    Frees,
}

/// A turn of a session: a piece of its client's octets, what it asks for then, what it says then, and whether
/// it is over.
struct Turn {
    piece: &'static [u8],
    asks: Option<Asks>,
    said: &'static [u8],
    closes: bool,
}

/// The turns of a session of joe.
const TURNS: [Turn; 8] = [
    Turn {
        piece: b"",
        asks: Some(Asks::Enters),
        said: b"* ACAP (IMPLEMENTATION \"acapd\") (SASL \"CRAM-MD5\") (CONTEXTLIMIT \"200\")\r\n",
        closes: false,
    },
    Turn {
        piece: b"A1 NO",
        asks: None,
        said: b"",
        closes: false,
    },
    Turn {
        piece: b"OP\r\nA2 FREECONTEXT \"v\"\r\nA3 LOGOUT 1\r\n",
        asks: None,
        said: b"A1 OK \"NOOP done\"\r\n",
        closes: false,
    },
    Turn {
        piece: b"",
        asks: Some(Asks::Frees),
        said: b"A2 OK \"FREECONTEXT done\"\r\n",
        closes: false,
    },
    Turn {
        piece: b"",
        asks: None,
        said: b"A3 BAD \"Bad arguments\"\r\n",
        closes: false,
    },
    Turn {
        piece: b"",
        asks: None,
        said: b"",
        closes: false,
    },
    Turn {
        piece: b"A4 LOGOUT\r\n",
        asks: None,
        said: b"* BYE \"Good bye\"\r\nA4 OK \"LOGOUT done\"\r\n",
        closes: true,
    },
    Turn {
        piece: b"A5 NOOP\r\n",
        asks: None,
        said: b"",
        closes: false,
    },
];

// A session of joe.
fn begin(alloc: Global) -> Option<Session> {
    let host = Octets::from_slice(alloc, b"localhost").ok()?;
    let joe = UserName::read(alloc, b"joe").ok()?;
    Some(Session::new(alloc, host, Some(joe)))
}

// Whether that is the event that was to be asked for.
fn is_event(alloc: Global, event: &Event, asks: Option<Asks>) -> bool {
    match (event, asks) {
        (Event::Enter(user), Some(Asks::Enters)) => user.as_slice() == b"joe".as_slice(),
        (Event::Command(command), Some(Asks::Frees)) => {
            match ContextName::read(alloc, b"v") {
                Ok(name) => command.equals(&Command::FreeContext(name)),
                Err(_) => false,
            }
        }
        _ => false,
    }
}

// What the machine answers.
fn reply_to(event: &Event) -> Result<Reply, Fault> {
    match event {
        Event::Enter(_) => Ok(Reply::new(Said::Greeting)),
        _ => Ok(Reply::new(Said::Done(Verb::FreeContext))),
    }
}

// Whether that is what was to be said, and nothing is asked for.
fn is_said(next: &Next, turn: &Turn) -> bool {
    match next {
        Next::More => turn.said.is_empty() && !turn.closes,
        Next::Say(octets) => octets.as_slice() == turn.said
            && !turn.said.is_empty()
            && !turn.closes,
        Next::Ask(_) => false,
        Next::Close(octets) => octets.as_slice() == turn.said && turn.closes,
    }
}

// Whether a session asks for what it should, and says to the answer what it should.
fn is_answered(alloc: Global, session: &mut Session, event: &Event, turn: &Turn) -> Option<bool>
    requires { is_asked session.old.stage ≡ true }
{
    let said = session.answer(reply_to(event)).ok()?;
    Some(is_event(alloc, event, turn.asks) && is_said(&said, turn))
}

// Whether a session takes that turn. What it asks for is answered at once.
fn takes(alloc: Global, session: &mut Session, users: &Users, turn: &Turn) -> Option<bool> {
    let taken = session.push(turn.piece).ok()?;
    let next = session.next(users, 0, Moment::first()).ok()?;
    let right = match next {
        Next::Ask(event) => is_answered(alloc, session, &event, turn)?,
        next => turn.asks.is_none() && is_said(&next, turn),
    };
    Some(taken == turn.piece.len() && right)
}

#[test]
fn says_what_is_next(rt: HostRuntime) {
    let users = Users::new(Vec::new(rt.alloc()));
    let begun = begin(rt.alloc());
    assert!(rt; begun.is_some());
    if let Some(mut session) = begun {
        for turn in &TURNS {
            let taken = takes(rt.alloc(), &mut session, &users, turn);
            assert!(rt; taken == Some(true));
        }
        assert!(rt; session.is_closed());
    }
}
