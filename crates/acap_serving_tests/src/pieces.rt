//! Sessions whose octets come in pieces of any size are sent what the same clients are sent by a script, and by a pipe.
ghost use Rattle.std.specs.Prelude.{◌≡◌, ◌<◌};

use crate::stage::{Done, Play, Visit, is_true, no_bell, run, wire};
use acap_entries::{Moment, Steps, UserName};
use acap_locked::{Pass, Served, Site};
use acap_login::Users;
use acap_session::{run_pipe, run_script};
use acap_task::TaskEnd;
use std::alloc::{AllocGlobal, Global};
use std::io;
use std::marker::Brand;
use std::random::RandomSource;
use std::sync::Wait;
use std::sync::ledger::{Blank, Ledger};

/// A client: its user, or nobody, and what it sends.
type Client = (Option<&'static [u8]>, &'static [u8]);

/// Clients one after the other, the same as lines of a script, and what the clock shows.
struct PieceRow {
    clients: &'static [Client],
    script: &'static [u8],
    clock: i64,
}

const JOE: Option<&[u8]> = Some(b"joe");

const STORE: &[u8] = b"A1 STORE (\"/option/~/font\" \"option.value\" \"mono\")\r\n";

const SEARCH: &[u8] = b"B1 SEARCH \"/option/~/\" RETURN (\"option.value\" \"modtime\") ALL\r\n";

const STORE_AND_SEARCH: &[u8] =
    b"A1 STORE (\"/option/~/font\" \"option.value\" \"mono\")\r\nA2 SEARCH \"/option/~/\" RETURN (\"option.value\" \"modtime\") ALL\r\n";

const LITERALS: &[u8] =
    b"A1 STORE (\"/option/~/font\" \"option.value\" {5}\r\nhello)\r\nA2 STORE (\"/option/~/size\" \"option.value\" {2+}\r\n10)\r\nA3 NOOP\r\n";

const LOGIN: &[u8] =
    b"A1 AUTHENTICATE \"CRAM-MD5\"\r\n\"tim b913a602c7eda7a495b4e6e7334d3890\"\r\nA2 MYRIGHTS (\"/option/~/\")\r\nA3 LOGOUT\r\n";

static ROWS: [PieceRow; 5] = [
    PieceRow {
        clients: &[(JOE, b"A1 NOOP\r\n")],
        script: b"enter 0 joe\nsend 0 A1 NOOP\n",
        clock: 0,
    },
    PieceRow {
        clients: &[(JOE, STORE_AND_SEARCH)],
        script: b"enter 0 joe\nsend 0 A1 STORE (\"/option/~/font\" \"option.value\" \"mono\")\nsend 0 A2 SEARCH \"/option/~/\" RETURN (\"option.value\" \"modtime\") ALL\n",
        clock: 0,
    },
    PieceRow {
        clients: &[(JOE, LITERALS)],
        script: b"enter 0 joe\nsend 0 A1 STORE (\"/option/~/font\" \"option.value\" {5}\nsend 0 hello)\nsend 0 A2 STORE (\"/option/~/size\" \"option.value\" {2+}\nsend 0 10)\nsend 0 A3 NOOP\n",
        clock: 0,
    },
    PieceRow {
        clients: &[(JOE, STORE), (JOE, SEARCH)],
        script: b"clock 697170952000000\nenter 0 joe\nsend 0 A1 STORE (\"/option/~/font\" \"option.value\" \"mono\")\nleave 0\nenter 1 joe\nsend 1 B1 SEARCH \"/option/~/\" RETURN (\"option.value\" \"modtime\") ALL\nleave 1\n",
        clock: 697_170_952_000_000,
    },
    PieceRow {
        clients: &[(None, LOGIN)],
        script: b"user tim tanstaaftanstaaf\nhost postoffice.reston.mci.net\nnonce 1896\nclock 697170952000000\nopen 0\nsend 0 A1 AUTHENTICATE \"CRAM-MD5\"\nsend 0 \"tim b913a602c7eda7a495b4e6e7334d3890\"\nsend 0 A2 MYRIGHTS (\"/option/~/\")\nsend 0 A3 LOGOUT\n",
        clock: 697_170_952_000_000,
    },
];

// Tim and his secret.
fn tim(alloc: Global) -> io::Result<Users> {
    let mut users = Vec::new(alloc);
    if let Ok(name) = UserName::read(alloc, b"tim") {
        users.push((name, Vec::from_slice(alloc, b"tanstaaftanstaaf")?))?;
    }
    Ok(Users::new(users))
}

// What a session was sent, as a script writes it: each line after the seat.
fn add_lines(seat: u8, sent: &[u8], text: &mut Vec<u8>) -> io::Result<()> {
    let mut starts = true;
    for octet in sent {
        if starts {
            text.extend_from_slice(&[b'0' + seat % 10, b':', b' '])?;
        }
        if *octet != b'\r' {
            text.push(*octet)?;
        }
        starts = *octet == b'\n';
    }
    Ok(())
}

// What a script of the same clients writes.
fn run_as_script<L: Ledger>(alloc: Global, row: &PieceRow, blank: Blank) -> Option<Vec<u8>>
    requires name { blank.name ≡ L.name }
    requires parts { blank.parts ≡ L.parts }
    requires some { 0 < L.parts }
{
    let mut text = Vec::new(alloc);
    let mut steps = Steps::<L>::new(blank);
    run_script(alloc, &mut &*row.script, &mut text, &mut steps).ok()?;
    Some(text)
}

// What a pipe of joe writes for the same octets.
fn run_as_pipe<L: Ledger>(alloc: Global, input: &[u8], blank: Blank) -> Option<Vec<u8>>
    requires name { blank.name ≡ L.name }
    requires parts { blank.parts ≡ L.parts }
    requires some { 0 < L.parts }
{
    let mut text = Vec::new(alloc);
    let mut steps = Steps::<L>::new(blank);
    let joe = UserName::read(alloc, b"joe").ok()?;
    run_pipe(alloc, &mut &*input, &mut text, joe, &mut steps).ok()?;
    Some(text)
}

impl PieceRow {
    // Whether this is what a script writes, and, where a pipe has the same client and clock, that what a pipe writes.
    fn is_written(&self, alloc: Global, text: Vec<u8>, last: Vec<u8>) -> bool {
        if run_as_script::<Brand>(alloc, self, Blank::new(1)) != Some(text) {
            return false;
        }
        match self.clients {
            [(Some(_), input)] => run_as_pipe::<Brand>(alloc, *input, Blank::new(1)) == Some(last),
            _ => true,
        }
    }
}

/// The clients of a row one after the other, each at a seat of its own, with their octets in pieces of that size.
#[derive(Drop)]
struct Pieces<'r> {
    row: &'r PieceRow,
    width: usize,
}

impl Pieces<'_> {
    // The session of a client at a pass.
    fn run<S: Site, L: Ledger, R: Wait + RandomSource + AllocGlobal>(
        &self,
        rt: &R,
        served: &Served<S, L>,
        users: &Users,
        pass: Pass<S>,
        client: Client,
    ) -> io::Result<Done<S>> {
        let (user, input) = client;
        let visit = Visit {
            user,
            wire: wire(rt.alloc(), input, self.width)?,
            bell: no_bell(rt.alloc())?,
            clock: Moment::new(self.row.clock).unwrap_or(Moment::first()),
            turns: 100_000,
        };
        run(rt, served, pass, users, visit)
    }
}

impl<R: Wait + RandomSource + AllocGlobal> Play<R> for Pieces<'_> {
    fn comes_true<S: Site, L: Ledger>(
        &self,
        rt: &R,
        served: Served<S, L>,
        passes: Vec<Pass<S>>,
    ) -> io::Result<bool> {
        let alloc = rt.alloc();
        let users = tim(alloc)?;
        let mut used = Vec::new(alloc);
        let mut text = Vec::new(alloc);
        let mut last = Vec::new(alloc);
        let mut clients = self.row.clients.iter();
        for pass in passes {
            let Some(client) = clients.next() else {
                used.push(pass)?;
                continue;
            };
            let seat = pass.seat().number();
            let done = self.run(rt, &served, &users, pass, *client)?;
            if done.end != TaskEnd::Ended || done.lease.owes_leave {
                return Ok(false);
            }
            add_lines(seat, done.output.as_slice(), &mut text)?;
            last = done.output;
            used.push(done.lease.pass)?;
        }
        Ok(served.close(used).is_ok() && self.row.is_written(alloc, text, last))
    }
}

#[test]
fn pieces_of_any_size_come_to_the_same(rt: HostRuntime) {
    for row in &ROWS {
        for width in [1, 2, 3, 7, 10_000] {
            assert!(rt; is_true(&rt, &Pieces { row, width }));
        }
    }
}
