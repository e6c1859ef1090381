//! Tests of the parts of a client: lines in pieces, faults, commands and the answer to a challenge.

use acap_client::{Heard, Line, ReadFault, Reader, answer_line, command_line};
use acap_commands::{Command, ContextNames};
use acap_entries::{ContextName, Label};
use std::alloc::Global;

/// The most octets of a line.
const LIMIT: u32 = 60;

// How many lines are answered where the octets come in pieces of this length, and the fault that is answered last.
fn read(alloc: Global, octets: &[u8], piece: usize) -> Option<(usize, Option<ReadFault>)> {
    let mut reader = Reader::new(alloc, LIMIT);
    let mut lines: usize = 0;
    let mut left = octets;
    for _ in 0..octets.len() {
        let taken = piece.min(left.len());
        let (front, rest) = left.split_at(taken);
        reader.push(front).ok()?;
        left = rest;
        for _ in 0..octets.len() {
            match reader.next().ok()? {
                Heard::More => break,
                Heard::Line(_) => lines = lines.saturating_add(1),
                Heard::Fault(fault) => return Some((lines, Some(fault))),
            }
        }
    }
    Some((lines, None))
}

/// Octets of a server, how many lines are answered of them, and the fault that follows.
const ROWS: [(&[u8], usize, Option<ReadFault>); 8] = [
    (
        b"* ACAP (IMPLEMENTATION \"x\") (SASL \"CRAM-MD5\")\r\n",
        1,
        None,
    ),
    (b"A1 OK \"done\"\r\nA2 NO (TOOOLD) \"no\"\r\nA3", 2, None),
    (
        b"A1 ENTRY \"\\\"\" {3}\r\na\r\n NIL (\"x\" ())\r\n",
        1,
        None,
    ),
    (
        b"A1 OK \"done\"\r\nA2 WHAT \"no\"\r\n",
        1,
        Some(ReadFault::Unknown),
    ),
    (b"A1 OK \"done\"\r\n\r\n", 1, Some(ReadFault::Astray)),
    (b"A1 OK (\"done\"\r\n", 0, Some(ReadFault::Astray)),
    (b"A1 OK {99}\r\n", 0, Some(ReadFault::TooLong)),
    (
        b"A1 OK \"0123456789012345678901234567890123456789012345678901234567890\"\r\n",
        0,
        Some(ReadFault::TooLong),
    ),
];

#[test]
fn reads_lines(rt: HostRuntime) {
    for (octets, lines, fault) in ROWS {
        for piece in 1..5 {
            assert!(rt; read(rt.alloc(), octets, piece) == Some((lines, fault)));
        }
        assert!(rt; read(rt.alloc(), octets, octets.len()) == Some((lines, fault)));
    }
}

// The entry, the old and the new position, and the first string of a change.
fn change(alloc: Global) -> Option<bool> {
    let mut reader = Reader::new(alloc, 1000);
    reader
        .push(b"* CHANGE \"c\" \"e\" 3 12 (\"v\" \"w\") NIL\r\n")
        .ok()?;
    let Heard::Line(response) = reader.next().ok()? else {
        return None;
    };
    let Some(Line::Change(context, entry, old, new, data)) = response.line() else {
        return None;
    };
    let (inner, rest) = data.group()?;
    let (first, _) = inner.text()?;
    let (word, end) = rest.word()?;
    let positions = old.at_most(20) == Some(3)
        && new.at_most(20) == Some(12)
        && new.at_most(11) == None;
    let names = context == b"c".as_slice() && entry == b"e".as_slice();
    Some(
        positions
            && names
            && first == b"v".as_slice()
            && word == b"NIL".as_slice()
            && end.is_empty(),
    )
}

#[test]
fn reads_a_change(rt: HostRuntime) {
    assert!(rt; change(rt.alloc()) == Some(true));
}

// Whether a command under the tag `A1` is this line.
fn is_line(alloc: Global, command: &Command, line: &[u8]) -> Option<bool> {
    let made = command_line(alloc, b"A1", command).ok()?;
    Some(made.as_slice() == line)
}

fn commands(alloc: Global) -> Option<bool> {
    let plain = Command::Authenticate(Label::from_slice(alloc, b"CRAM-MD5").ok()?);
    let odd = Command::Authenticate(Label::from_slice(alloc, b"a\nb").ok()?);
    let mut names = ContextNames::new(alloc);
    names.push(ContextName::read(alloc, b"c").ok()?).ok()?;
    names.push(ContextName::read(alloc, b"d\"").ok()?).ok()?;
    let update = Command::UpdateContext(names);
    let first = is_line(alloc, &plain, b"A1 AUTHENTICATE \"CRAM-MD5\"\r\n")?;
    let second = is_line(alloc, &odd, b"A1 AUTHENTICATE {3+}\r\na\nb\r\n")?;
    let third = is_line(alloc, &update, b"A1 UPDATECONTEXT \"c\" \"d\\\"\"\r\n")?;
    Some(first && second && third && is_line(alloc, &Command::Noop, b"A1 NOOP\r\n")?)
}

#[test]
fn writes_commands(rt: HostRuntime) {
    assert!(rt; commands(rt.alloc()) == Some(true));
}

/// The exchange of RFC 2195, section 2.
const CHALLENGE: &[u8] = b"<1896.697170952@postoffice.reston.mci.net>";

#[test]
fn answers_a_challenge(rt: HostRuntime) {
    match answer_line(rt.alloc(), b"tim", b"tanstaaftanstaaf", CHALLENGE) {
        Ok(line) => assert!(rt;
            line.as_slice() == b"\"tim b913a602c7eda7a495b4e6e7334d3890\"\r\n".as_slice()
        ),
        Err(_) => assert!(rt; false),
    }
}
