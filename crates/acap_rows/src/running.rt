//! Runs a row once for each way of cutting its octets.

use crate::difference::{Lines, first_lines};
use crate::pieces::{PieceSizes, Pieces};
use crate::row_file::{FileRow, RowKind};
use acap_calls::run_call;
use acap_entries::{Memory, Steps, UserName};
use acap_serving::ServeFault;
use acap_session::{ScriptFault, run_pipe, run_script};
use std::alloc::Global;
use std::sync::ledger::Ledger;

/// What a session says first.
const GREETING: &[u8] =
    b"* ACAP (IMPLEMENTATION \"acapd\") (SASL \"CRAM-MD5\") (CONTEXTLIMIT \"200\")\r\n";

/// What stands in an answer where the run ended by a fault.
const FAULT: &[u8] = b"(ended by a fault)";

/// What has more octets than these isn't cut at each of them.
const MOST_CUT: usize = 256;

/// How a row is wrong.
#[derive(Drop)]
pub(crate) struct Wrong {
    /// How its octets were cut.
    pub(crate) sizes: PieceSizes,
    /// The first line that differs.
    pub(crate) lines: Lines,
}

// What a session of that user writes that reads these octets.
fn run_session<L: Ledger>(
    alloc: Global,
    user: &str,
    sent: &[u8],
    sizes: PieceSizes,
    steps: &mut Steps<L>,
) -> Result<Vec<u8>, Memory> {
    let mut text = Vec::new(alloc);
    let reader = &mut Pieces { left: sent, sizes };
    let done = match UserName::read(alloc, user.as_bytes()) {
        Ok(user) => run_pipe(alloc, reader, &mut text, user, steps).is_ok(),
        Err(_) => false,
    };
    if !done {
        text.extend_from_slice(FAULT)?;
    }
    Ok(text)
}

// Adds what the program says of a script that ends by a fault.
fn add_fault(fault: ScriptFault, text: &mut Vec<u8>) -> Result<(), Memory> {
    match fault {
        ScriptFault::Line(number) => {
            let line = format!(in *text.allocator(); "acapd: bad script line {number}\n")?;
            text.extend_from_slice(line.as_bytes())
        }
        ScriptFault::Read | ScriptFault::Write | ScriptFault::Memory => {
            text.extend_from_slice(FAULT)
        }
    }
}

// What a script writes, and, after it, the fault that it ends by.
fn play_script<L: Ledger>(
    alloc: Global,
    script: &[u8],
    sizes: PieceSizes,
    steps: &mut Steps<L>,
) -> Result<Vec<u8>, Memory> {
    let mut text = Vec::new(alloc);
    let left = script;
    let reader = &mut Pieces { left, sizes };
    match run_script(alloc, reader, &mut text, steps) {
        Ok(()) => {}
        Err(fault) => add_fault(fault, &mut text)?,
    }
    Ok(text)
}

// The words of a call, each with a space before it.
fn words_of(alloc: Global, text: &str) -> Result<Vec<String>, Memory> {
    let mut words = Vec::new(alloc);
    for word in text.split(' ').skip(1) {
        words.push(String::from_str(alloc, word)?)?;
    }
    Ok(words)
}

// What a call writes, and, after it, what it prints on standard error, and its status.
fn make_call<L: Ledger>(
    alloc: Global,
    words: &str,
    sent: &[u8],
    sizes: PieceSizes,
    steps: &mut Steps<L>,
) -> Result<Vec<u8>, Memory> {
    let words = Ok(words_of(alloc, words)?);
    let mut text = Vec::new(alloc);
    let mut told = Vec::new(alloc);
    let reader = &mut Pieces { left: sent, sizes };
    match run_call(
        alloc,
        &words,
        reader,
        &mut text,
        &mut told,
        steps,
        |_file| Err(ServeFault::Listen),
    ) {
        Ok(status) => {
            text.extend_from_slice(told.as_slice())?;
            let line = format!(in alloc; "status {status}\n")?;
            text.extend_from_slice(line.as_bytes())?;
        }
        Err(_) => text.extend_from_slice(FAULT)?,
    }
    Ok(text)
}

// What is written for what a row sends, cut so.
fn send_row<L: Ledger>(
    alloc: Global,
    row: &FileRow,
    sizes: PieceSizes,
    steps: &mut Steps<L>,
) -> Result<Vec<u8>, Memory> {
    match row.kind {
        RowKind::Session(user) => run_session(alloc, user, row.sent.as_slice(), sizes, steps),
        RowKind::Script => play_script(alloc, row.sent.as_slice(), sizes, steps),
        RowKind::Call(words) => make_call(alloc, words, row.sent.as_slice(), sizes, steps),
    }
}

// All that a row wants: a session's greeting goes before what its row says.
fn expect(alloc: Global, row: &FileRow) -> Result<Vec<u8>, Memory> {
    let mut wanted = match row.kind {
        RowKind::Session(_) => Vec::from_slice(alloc, GREETING)?,
        RowKind::Script | RowKind::Call(_) => Vec::new(alloc),
    };
    wanted.extend_from_slice(row.wanted.as_slice())?;
    Ok(wanted)
}

// How a row is wrong that is cut into such pieces, if it is.
fn wrong_at<L: Ledger>(
    alloc: Global,
    row: &FileRow,
    wanted: &[u8],
    sizes: PieceSizes,
    steps: &mut Steps<L>,
) -> Result<Option<Wrong>, Memory> {
    let got = send_row(alloc, row, sizes, steps)?;
    if got.as_slice() == wanted {
        return Ok(None);
    }
    let lines = first_lines(alloc, wanted, got.as_slice())?;
    Ok(Some(Wrong { sizes, lines }))
}

/// How a row is wrong, if it is: whole, octet by octet, or, where it isn't long, cut in two after any octet.
pub(crate) fn first_wrong<L: Ledger>(
    alloc: Global,
    row: &FileRow,
    steps: &mut Steps<L>,
) -> Result<Option<Wrong>, Memory> {
    let wanted = expect(alloc, row)?;
    for sizes in [PieceSizes::WHOLE, PieceSizes::SINGLE] {
        if let Some(wrong) = wrong_at(alloc, row, wanted.as_slice(), sizes, steps)? {
            return Ok(Some(wrong));
        }
    }
    let length = row.sent.len();
    let end = if length > MOST_CUT { 0 } else { length };
    for first in 1..end {
        let sizes = PieceSizes {
            first,
            size: MOST_CUT,
        };
        if let Some(wrong) = wrong_at(alloc, row, wanted.as_slice(), sizes, steps)? {
            return Ok(Some(wrong));
        }
    }
    Ok(None)
}
