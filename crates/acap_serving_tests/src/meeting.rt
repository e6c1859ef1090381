//! Meetings: who comes to a server, what each client sends, and what it must be sent.
use crate::client::Client;
use crate::sources::{are_challenged, is_dated};
use crate::stage::HELLO;
use acap_serving::Sockets;
use std::alloc::AllocGlobal;
use std::io;
use std::net::SocketAddr;
use std::time::Clock;

/// What a client is sent for which no seat is free.
const FULL: &[u8] = b"* BYE \"Too many sessions\"\r\n";

/// What a client does, or must hear next.
#[derive(Clone, Copy)]
pub(crate) enum Action {
    /// It sends this, this many times.
    Sends(u32, &'static [u8]),
    /// It sends this octet by octet.
    SendsSlowly(&'static [u8]),
    /// It hears this, this many times.
    Hears(u32, &'static [u8]),
    /// It hears a line, whatever stands there.
    HearsALine,
    /// It sends this, and hears that.
    IsAnswered(&'static [u8], &'static [u8]),
    /// It sends no more.
    Finishes,
    /// It hears nothing more until the server closes.
    IsLeft,
    /// It asks for so much as the server takes, and reads nothing.
    IsDeaf,
    /// It sends 300,000 octets of garbage, or as many as the server takes.
    IsNoisy,
    /// It stores, waits a second, and stores again: the moments of both are as far apart.
    IsDated,
}

/// What happens at a meeting. Clients have numbers from 0 on, in the order in which they come.
#[derive(Clone, Copy)]
pub(crate) enum Step {
    /// This many clients come, and are greeted.
    Come(u32),
    /// One more comes, is refused since no seat is free, and gets no number.
    IsRefused,
    /// One more comes once a seat is free: a session that was cut off may not have ended yet.
    ComesAtLast,
    /// A user comes and logs in with a secret.
    LogsIn(&'static [u8], &'static [u8]),
    /// The last that came goes away without a word.
    GoesAway,
    /// The clients with these numbers ask to log in, one after the other: no nonce comes twice.
    AreChallenged(&'static [usize]),
    /// The client with that number does this.
    By(usize, Action),
}

// Puts a client after the others.
fn put<T: Drop>(clients: &mut Vec<T>, client: T) -> io::Result<()> {
    match clients.push(client) {
        Ok(()) => Ok(()),
        Err(_) => Err(io::Error::other("no memory")),
    }
}

// A client that has connected and was greeted.
fn connect<R: Sockets + AllocGlobal>(rt: &R, at: SocketAddr) -> io::Result<Client> {
    let mut client = Client::connect(rt, rt.alloc(), at)?;
    if client.hears(HELLO)? {
        Ok(client)
    } else {
        Err(io::Error::other("no greeting"))
    }
}

// `count` clients come.
fn come<R: Sockets + AllocGlobal>(
    rt: &R,
    at: SocketAddr,
    count: u32,
    clients: &mut Vec<Client>,
) -> io::Result<()> {
    for _ in 0..count {
        put(clients, connect(rt, at)?)?;
    }
    Ok(())
}

// A client comes once a seat is free.
fn come_at_last<R: Sockets + AllocGlobal>(
    rt: &R,
    at: SocketAddr,
    clients: &mut Vec<Client>,
) -> io::Result<()> {
    for _ in 0..10_000 {
        if let Ok(client) = connect(rt, at) {
            return put(clients, client);
        }
    }
    Err(io::Error::other("no seat"))
}

// Whether a client that comes is refused since no seat is free.
fn is_refused<R: Sockets + AllocGlobal>(rt: &R, at: SocketAddr) -> io::Result<bool> {
    let mut client = Client::connect(rt, rt.alloc(), at)?;
    Ok(client.rest()? == FULL)
}

// Sends as many SEARCHes as the other side takes, up to a number, and reads nothing.
fn flood(client: &Client) -> io::Result<()> {
    client.set_impatient()?;
    for _ in 0..100_000 {
        if client
            .send(b"A1 SEARCH \"/option/~/\" RETURN (\"option.value\") ALL\r\n")
            .is_err()
        {
            break;
        }
    }
    Ok(())
}

// Sends garbage.
fn throw(client: &Client) {
    let mut octet: u8 = 7;
    for _ in 0..3000 {
        let mut piece = [0u8; 100];
        for place in &mut piece {
            octet = octet.wrapping_mul(181).wrapping_add(59);
            *place = octet;
        }
        if client.send(&piece).is_err() {
            return;
        }
    }
}

impl Client {
    // Sends octets `times` times.
    fn send_times(&self, times: u32, octets: &[u8]) -> io::Result<()> {
        for _ in 0..times {
            self.send(octets)?;
        }
        Ok(())
    }

    // Whether the next lines are these, `times` times.
    fn hears_times(&mut self, times: u32, wanted: &[u8]) -> io::Result<bool> {
        for _ in 0..times {
            if !self.hears(wanted)? {
                return Ok(false);
            }
        }
        Ok(true)
    }

    // Does what it should, and says whether it heard what it should.
    fn does<R: Clock>(&mut self, rt: &R, action: Action) -> io::Result<bool> {
        match action {
            Action::Sends(times, octets) => self.send_times(times, octets)?,
            Action::SendsSlowly(octets) => self.send_slowly(octets)?,
            Action::Hears(times, wanted) => return self.hears_times(times, wanted),
            Action::HearsALine => drop(self.line()?),
            Action::IsAnswered(said, wanted) => return self.is_answered(said, wanted),
            Action::Finishes => self.finish()?,
            Action::IsLeft => return Ok(self.rest()?.is_empty()),
            Action::IsDeaf => flood(self)?,
            Action::IsNoisy => throw(self),
            Action::IsDated => return is_dated(rt, self),
        }
        Ok(true)
    }
}

impl Step {
    // Whether the step came true.
    fn comes_true<R: Clock + Sockets + AllocGlobal>(
        self,
        rt: &R,
        at: SocketAddr,
        clients: &mut Vec<Client>,
    ) -> io::Result<bool> {
        match self {
            Step::Come(count) => come(rt, at, count, clients)?,
            Step::IsRefused => return is_refused(rt, at),
            Step::ComesAtLast => come_at_last(rt, at, clients)?,
            Step::LogsIn(user, secret) => {
                come(rt, at, 1, clients)?;
                return match clients.last_mut() {
                    Some(client) => client.logs_in(user, secret),
                    None => Ok(false),
                };
            }
            Step::GoesAway => drop(clients.pop()),
            Step::AreChallenged(numbers) => return are_challenged(rt.alloc(), clients, numbers),
            Step::By(number, action) => {
                return match clients.get_mut(number) {
                    Some(client) => client.does(rt, action),
                    None => Ok(false),
                };
            }
        }
        Ok(true)
    }
}

/// What happens at a server that ends after a number of sessions, and may run a start file first: the steps, in rounds, each
/// with clients of its own.
pub(crate) struct Meeting {
    pub(crate) name: &'static str,
    pub(crate) start: Option<&'static [u8]>,
    pub(crate) sessions: u32,
    pub(crate) rounds: u32,
    pub(crate) steps: &'static [Step],
}

// Whether all steps come true, one after the other.
fn come_true<R: Clock + Sockets + AllocGlobal>(
    steps: &[Step],
    rt: &R,
    at: SocketAddr,
) -> io::Result<bool> {
    let mut clients = Vec::new(rt.alloc());
    for step in steps {
        if !step.comes_true(rt, at, &mut clients)? {
            return Ok(false);
        }
    }
    Ok(true)
}

impl Meeting {
    /// Whether all steps of all rounds come true, at that address.
    pub(crate) fn comes_true<R: Clock + Sockets + AllocGlobal>(
        &self,
        rt: &R,
        at: SocketAddr,
    ) -> io::Result<bool> {
        for _ in 0..self.rounds {
            if !come_true(self.steps, rt, at)? {
                return Ok(false);
            }
        }
        Ok(true)
    }
}
