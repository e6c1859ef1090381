//! Tests of sessions and scripts over a reader and a writer that count their failures: each call fails in
//! turn, and what is read is cut after each octet.
ghost use Rattle.std.specs.Prelude.{◌≡◌, ◌<◌};

use crate::counting::{Sink, Source};
use acap_entries::{Steps, UserName};
use acap_session::{PipeFault, ScriptFault, run_pipe, run_script};
use std::alloc::Global;
use std::marker::Brand;
use std::sync::ledger::{Blank, Ledger};

/// No call has that number.
const NEVER: u64 = 0;

/// The calls each of which fails in turn.
const CALLS: u64 = 40;

/// What is read by a session of joe, or by a script.
#[derive(Clone, Copy)]
struct RunRow {
    is_script: bool,
    input: &'static [u8],
}

/// Runs of more than 40 reads and of more than 40 writes (RFC 2244 sections 6.4.1 and 6.6.1).
const ROWS: [RunRow; 2] = [
    RunRow {
        is_script: false,
        input: b"A1 STORE (\"/option/~/font\" \"option.value\" \"mono\")\r\nA2 SEARCH \"/option/~/\" RETURN (\"option.value\" \"modtime\") ALL\r\nA3 STORE (\"/option/~/size\" \"option.value\" \"10\")\r\nA4 SEARCH \"/option/~/\" RETURN (\"option.value\" \"modtime\") ALL\r\nA5 SEARCH \"/option/~/\" RETURN (\"modtime\") ALL\r\n",
    },
    RunRow {
        is_script: true,
        input: b"clock 7\nenter 0 joe\nsend 0 A1 STORE (\"/option/~/font\" \"option.value\" \"mono\")\nsend 0 A2 SEARCH \"/option/~/\" RETURN (\"option.value\" \"modtime\") ALL\nenter 1 joe\nsend 1 A1 STORE (\"/option/~/size\" \"option.value\" \"10\")\nsend 1 A2 SEARCH \"/option/~/\" RETURN (\"option.value\" \"modtime\") ALL\n",
    },
];

/// A STORE and a SEARCH.
const STORE_AND_SEARCH: RunRow = RunRow {
    is_script: false,
    input: b"A1 STORE (\"/option/~/font\" \"option.value\" \"mono\")\r\nA2 SEARCH \"/option/~/\" RETURN (\"option.value\" \"modtime\") ALL\r\n",
};

/// How a run ends.
type End = Result<(), PipeFault>;

/// How a session of joe, or a script, ends over these.
fn end_of<'a, L: Ledger>(
    alloc: Global,
    is_script: bool,
    source: &mut Source<'a>,
    sink: &mut Sink,
    steps: &mut Steps<L>,
) -> End {
    if is_script {
        return match run_script(alloc, source, sink, steps) {
            Ok(()) => Ok(()),
            Err(ScriptFault::Read) => Err(PipeFault::Read),
            Err(ScriptFault::Write) => Err(PipeFault::Write),
            Err(_) => Err(PipeFault::Memory),
        };
    }
    match UserName::read(alloc, b"joe") {
        Ok(user) => run_pipe(alloc, source, sink, user, steps),
        Err(_) => Err(PipeFault::Memory),
    }
}

/// What a run writes whose reader and writer fail at these calls, if it ends so and its reader and its writer
/// count that.
fn written<L: Ledger>(
    alloc: Global,
    row: RunRow,
    fails_at: (u64, u64),
    wanted: End,
    steps: &mut Steps<L>,
) -> Option<Vec<u8>> {
    let mut source = Source {
        left: row.input,
        fails_at: fails_at.0,
        reads: 0,
        failures: 0,
    };
    let mut sink = Sink {
        text: Vec::new(alloc),
        fails_at: fails_at.1,
        writes: 0,
        failures: 0,
    };
    let end = end_of(alloc, row.is_script, &mut source, &mut sink, steps);
    let counted = match (source.failures, sink.failures) {
        (0, 0) => Ok(()),
        (1, 0) => Err(PipeFault::Read),
        (0, 1) => Err(PipeFault::Write),
        _ => Err(PipeFault::Memory),
    };
    if end != wanted || counted != wanted {
        return None;
    }
    Some(sink.text)
}

/// Whether a run ends so, and has written a prefix of that.
fn is_right<L: Ledger>(
    alloc: Global,
    row: RunRow,
    whole: &[u8],
    fails_at: (u64, u64),
    wanted: End,
    steps: &mut Steps<L>,
) -> bool {
    match written(alloc, row, fails_at, wanted, steps) {
        Some(text) => whole.starts_with(text.as_slice()),
        None => false,
    }
}

/// Whether a run is right to fail where each of the first calls of its reader fails, and of its writer.
fn fails_rightly<L: Ledger>(alloc: Global, row: RunRow, steps: &mut Steps<L>) -> bool {
    let Some(whole) = written(alloc, row, (NEVER, NEVER), Ok(()), steps) else {
        return false;
    };
    for call in 1..=CALLS {
        if !is_right(
            alloc,
            row,
            &whole,
            (call, NEVER),
            Err(PipeFault::Read),
            steps,
        ) {
            return false;
        }
        if !is_right(
            alloc,
            row,
            &whole,
            (NEVER, call),
            Err(PipeFault::Write),
            steps,
        ) {
            return false;
        }
    }
    true
}

/// Whether a run that is cut after any octet ends well, and writes a prefix of what the whole one writes.
fn is_cut_rightly<L: Ledger>(alloc: Global, row: RunRow, steps: &mut Steps<L>) -> bool {
    let Some(whole) = written(alloc, row, (NEVER, NEVER), Ok(()), steps) else {
        return false;
    };
    for count in 0..=row.input.len() {
        let (input, _) = row.input.split_at(count);
        let part = RunRow {
            is_script: row.is_script,
            input,
        };
        if !is_right(alloc, part, &whole, (NEVER, NEVER), Ok(()), steps) {
            return false;
        }
    }
    true
}

/// Whether all that is so.
fn all_right<L: Ledger>(alloc: Global, blank: Blank) -> bool
    requires name { blank.name ≡ L.name }
    requires parts { blank.parts ≡ L.parts }
    requires some { 0 < L.parts }
{
    let mut steps = Steps::<L>::new(blank);
    fails_rightly(alloc, ROWS[0], &mut steps)
        && fails_rightly(alloc, ROWS[1], &mut steps)
        && is_cut_rightly(alloc, STORE_AND_SEARCH, &mut steps)
}

#[test]
fn answers_a_failure_exactly_where_one_is_counted(rt: HostRuntime) {
    assert!(rt; all_right::<Brand>(rt.alloc(), Blank::new(1)));
}
