//! Tests of what a client holds of its contexts: steps one after the other, and what is held after each.

use crate::machine::command_of;
use acap_client::{FollowFault, Follower, Heard, Kept, Reader, Row};
use std::alloc::Global;

/// What a client does: it sends a command, or reads a line.
#[derive(Clone, Copy)]
enum Step {
    /// It sends this command.
    Sends(&'static [u8]),
    /// It reads this line.
    Reads(&'static [u8]),
}

use Step::{Reads, Sends};

/// Steps, and what is held after each: the rows of an enumerated context in `[]`, those of another in `{}`, `+` where it is
/// complete and `-` where it was freed. Before them the context of a misfit.
static ROWS: [(Step, &[u8]); 56] = [
    (
        Sends(b"A1 SEARCH \"/x/\" MAKECONTEXT ENUMERATE NOTIFY \"c\" RETURN (\"k\") ALL"),
        b"",
    ),
    (Reads(b"A1 ENTRY \"x\" \"1\""), b""),
    (Reads(b"A1 ENTRY \"y\" \"2\""), b""),
    (Reads(b"A2 ENTRY \"w\" \"2\""), b""),
    (Reads(b"A1 MODTIME \"20260101000000000000\""), b""),
    (Reads(b"A2 OK \"done\""), b""),
    (Reads(b"A1 OK \"done\""), b" c[x=1 y=2]"),
    (Reads(b"A1 ENTRY \"z\" \"3\""), b" c[x=1 y=2]"),
    // notices, each fits
    (Reads(b"* ADDTO \"c\" \"z\" 2 \"3\""), b" c[x=1 z=3 y=2]"),
    (
        Reads(b"* MODTIME \"c\" \"20260101000000000000\""),
        b" c[x=1 z=3 y=2]+",
    ),
    // the new position is counted when the entry has been taken out
    (Reads(b"* CHANGE \"c\" \"x\" 1 3 \"4\""), b" c[z=3 y=2 x=4]"),
    // misfits: no such position, held already, another one stands there, no such context
    (
        Reads(b"* CHANGE \"c\" \"x\" 3 4 \"5\""),
        b"c! c[z=3 y=2 x=4]",
    ),
    (
        Reads(b"* CHANGE \"c\" \"x\" 2 1 \"5\""),
        b"c! c[z=3 y=2 x=4]",
    ),
    (
        Reads(b"* CHANGE \"c\" \"x\" 3 0 \"5\""),
        b"c! c[z=3 y=2 x=4]",
    ),
    (Reads(b"* ADDTO \"c\" \"y\" 1 \"9\""), b"c! c[z=3 y=2 x=4]"),
    (Reads(b"* ADDTO \"c\" \"v\" 5 \"9\""), b"c! c[z=3 y=2 x=4]"),
    (
        Reads(b"* ADDTO \"c\" \"v\" 18446744073709551617 \"9\""),
        b"c! c[z=3 y=2 x=4]",
    ),
    (Reads(b"* REMOVEFROM \"c\" \"y\" 1"), b"c! c[z=3 y=2 x=4]"),
    (Reads(b"* REMOVEFROM \"c\" \"x\" 0"), b"c! c[z=3 y=2 x=4]"),
    (Reads(b"* REMOVEFROM \"c\" \"y\" 2"), b" c[z=3 x=4]"),
    (Reads(b"* ADDTO \"d\" \"y\" 1 \"9\""), b"d! c[z=3 x=4]"),
    (
        Reads(b"* MODTIME \"d\" \"20260101000000000000\""),
        b"d! c[z=3 x=4]",
    ),
    // a SEARCH that is refused makes nothing
    (
        Sends(b"B1 SEARCH \"/x/\" MAKECONTEXT NOTIFY \"c\" ALL"),
        b" c[z=3 x=4]",
    ),
    (Reads(b"B1 ENTRY \"w\" \"7\""), b" c[z=3 x=4]"),
    (Reads(b"B1 NO \"no\""), b" c[z=3 x=4]"),
    (Reads(b"B1 OK \"done\""), b" c[z=3 x=4]"),
    // one that succeeds takes the place of the other
    (
        Sends(b"B2 SEARCH \"/x/\" MAKECONTEXT ENUMERATE NOTIFY \"c\" ALL"),
        b" c[z=3 x=4]",
    ),
    (Reads(b"B2 ENTRY \"w\" \"7\""), b" c[z=3 x=4]"),
    (Reads(b"* ADDTO \"c\" \"v\" 1 \"8\""), b" c[v=8 z=3 x=4]"),
    (Reads(b"B2 OK \"done\""), b" c[w=7]"),
    // rows by name: of each name the first
    (
        Sends(b"C1 SEARCH \"/x/\" MAKECONTEXT NOTIFY \"d\" ALL"),
        b" c[w=7]",
    ),
    (Reads(b"C1 ENTRY \"y\" \"1\""), b" c[w=7]"),
    (Reads(b"C1 ENTRY \"x\" \"2\""), b" c[w=7]"),
    (Reads(b"C1 ENTRY \"y\" \"3\""), b" c[w=7]"),
    (Reads(b"C1 OK \"done\""), b" c[w=7] d{x=2 y=1}"),
    (
        Reads(b"* ADDTO \"d\" \"xx\" 0 \"5\""),
        b" c[w=7] d{x=2 xx=5 y=1}",
    ),
    (
        Reads(b"* CHANGE \"d\" \"x\" 0 0 \"6\""),
        b" c[w=7] d{x=6 xx=5 y=1}",
    ),
    (Reads(b"* REMOVEFROM \"d\" \"y\" 0"), b" c[w=7] d{x=6 xx=5}"),
    (
        Reads(b"* ADDTO \"d\" \"x\" 0 \"1\""),
        b"d! c[w=7] d{x=6 xx=5}",
    ),
    (
        Reads(b"* CHANGE \"d\" \"y\" 0 0 \"1\""),
        b"d! c[w=7] d{x=6 xx=5}",
    ),
    (
        Reads(b"* REMOVEFROM \"d\" \"y\" 0"),
        b"d! c[w=7] d{x=6 xx=5}",
    ),
    (
        Reads(b"* MODTIME \"d\" \"20260101000000000000\""),
        b" c[w=7] d{x=6 xx=5}+",
    ),
    // a context that the server has freed
    (
        Reads(b"* ALERT \"Context freed. d\""),
        b" c[w=7] d{x=6 xx=5}+",
    ),
    (
        Reads(b"* ALERT \"Context freed: e\""),
        b" c[w=7] d{x=6 xx=5}+",
    ),
    (
        Reads(b"* ALERT \"Context freed: d\""),
        b" c[w=7] d{x=6 xx=5}+-",
    ),
    (
        Reads(b"* ADDTO \"d\" \"z\" 0 \"1\""),
        b"d! c[w=7] d{x=6 xx=5}+-",
    ),
    (
        Reads(b"* MODTIME \"d\" \"20260101000000000000\""),
        b"d! c[w=7] d{x=6 xx=5}+-",
    ),
    // one that the client frees
    (Sends(b"G1 FREECONTEXT \"c\""), b" c[w=7] d{x=6 xx=5}+-"),
    (Reads(b"G1 ENTRY \"w\" \"8\""), b" c[w=7] d{x=6 xx=5}+-"),
    (Reads(b"G1 BAD \"no\""), b" c[w=7] d{x=6 xx=5}+-"),
    (Sends(b"G2 FREECONTEXT \"c\""), b" c[w=7] d{x=6 xx=5}+-"),
    (Reads(b"G2 OK \"done\""), b" c[w=7]- d{x=6 xx=5}+-"),
    // a SEARCH that makes no context, and lines of none
    (Sends(b"E1 SEARCH \"/x/\" ALL"), b" c[w=7]- d{x=6 xx=5}+-"),
    (Reads(b"E1 ENTRY \"w\" \"8\""), b" c[w=7]- d{x=6 xx=5}+-"),
    (Reads(b"E1 OK \"done\""), b" c[w=7]- d{x=6 xx=5}+-"),
    (Reads(b"* BYE \"bye\""), b" c[w=7]- d{x=6 xx=5}+-"),
];

// A command is sent under the tag that its line begins with, which has two octets.
fn send(alloc: Global, follower: &mut Follower, line: &[u8]) -> Option<()> {
    let tag = line.get(..2)?;
    let command = command_of(alloc, line).ok()?;
    follower.ask(tag, &command).ok()
}

// A line is read: the name of its context is put out if it is a misfit.
fn hear(alloc: Global, follower: &mut Follower, line: &[u8], out: &mut Vec<u8>) -> Option<()> {
    let mut reader = Reader::new(alloc, 1000);
    reader.push(line).ok()?;
    reader.push(b"\r\n").ok()?;
    let Heard::Line(response) = reader.next().ok()? else {
        return None;
    };
    match follower.follow(&response.line()?) {
        Ok(()) => Some(()),
        Err(FollowFault::Misfit(context)) => {
            out.extend_from_slice(context).ok()?;
            out.push(b'!').ok()
        }
        Err(FollowFault::Memory) => None,
    }
}

// A row as `name=value`.
fn put_row(row: &Row, out: &mut Vec<u8>) -> Option<()> {
    let (value, rest) = row.items().text()?;
    if !rest.is_empty() {
        return None;
    }
    out.extend_from_slice(row.name()).ok()?;
    out.push(b'=').ok()?;
    out.extend_from_slice(value).ok()
}

// The rows, with a blank between two.
fn put_rows(rows: &[Row], out: &mut Vec<u8>) -> Option<()> {
    let mut is_first = true;
    for row in rows {
        if !is_first {
            out.push(b' ').ok()?;
        }
        is_first = false;
        put_row(row, out)?;
    }
    Some(())
}

// What is held of a context.
fn put_kept(kept: &Kept, out: &mut Vec<u8>) -> Option<()> {
    let (open, close) = if kept.held().is_enumerated() {
        (b'[', b']')
    } else {
        (b'{', b'}')
    };
    out.push(open).ok()?;
    put_rows(kept.held().rows(), out)?;
    out.push(close).ok()?;
    if kept.is_complete() {
        out.push(b'+').ok()?;
    }
    if kept.is_freed() {
        out.push(b'-').ok()?;
    }
    Some(())
}

// What is held of all contexts.
fn put_contexts(follower: &Follower, out: &mut Vec<u8>) -> Option<()> {
    for (name, kept) in follower.contexts() {
        out.push(b' ').ok()?;
        out.extend_from_slice(name.as_slice()).ok()?;
        put_kept(kept, out)?;
    }
    Some(())
}

// What a step puts out.
fn take(alloc: Global, follower: &mut Follower, step: Step) -> Option<Vec<u8>> {
    let mut out = Vec::new(alloc);
    match step {
        Sends(line) => send(alloc, follower, line)?,
        Reads(line) => hear(alloc, follower, line, &mut out)?,
    }
    put_contexts(follower, &mut out)?;
    Some(out)
}

#[test]
fn follows_contexts(rt: HostRuntime) {
    let mut follower = Follower::new(rt.alloc());
    for (step, held) in &ROWS {
        match take(rt.alloc(), &mut follower, *step) {
            Some(out) => assert!(rt; out.as_slice() == *held),
            None => assert!(rt; false),
        }
    }
}

// Makes all steps, whatever is held after each.
fn take_all(alloc: Global, follower: &mut Follower) -> Option<()> {
    for (step, _) in &ROWS {
        take(alloc, follower, *step)?;
    }
    Some(())
}

// Whether the right rows are found under names, after the steps.
fn finds_rows(follower: &Follower) -> Option<bool> {
    let listed = follower.context(b"c")?.held();
    let mapped = follower.context(b"d")?.held();
    let (first, _) = listed.row(b"w")?.items().text()?;
    let (second, _) = mapped.row(b"xx")?.items().text()?;
    Some(
        first == b"7".as_slice()
            && second == b"5".as_slice()
            && listed.row(b"x").is_none()
            && mapped.row(b"y").is_none()
            && follower.context(b"e").is_none(),
    )
}

#[test]
fn looks_up_rows(rt: HostRuntime) {
    let mut follower = Follower::new(rt.alloc());
    let made = take_all(rt.alloc(), &mut follower);
    assert!(rt; made.is_some());
    assert!(rt; finds_rows(&follower) == Some(true));
}
