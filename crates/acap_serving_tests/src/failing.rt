//! Sessions whose reader or writer fails.
ghost use Rattle.std.specs.Prelude.{◌≡◌, IfOk};
ghost use Rattle.acap_task.specs.Told.{new_wire};

use crate::stage::{Done, HELLO, Play, Visit, is_true, no_bell, plan, run, wire, wire_of};
use acap_entries::Moment;
use acap_locked::{Pass, Served, Site};
use acap_login::Users;
use acap_task::{Bell, MemWire, TaskEnd, WireAnswer};
use std::alloc::{AllocGlobal, Global};
use std::io;
use std::random::RandomSource;
use std::sync::Wait;
use std::sync::ledger::Ledger;

/// What a session before sends; what the session that is cut sends, and what it should be sent after the greeting.
type FailingRow = (&'static [u8], &'static [u8], &'static [u8]);

const STORED: &[u8] = b"A1 STORE (\"/option/~/font\" \"option.value\" \"mono\")\r\n";

static ROWS: [FailingRow; 3] = [
    (b"", STORED, b"A1 OK \"STORE done\"\r\n"),
    (
        b"",
        b"A1 STORE (\"/option/~/font\" \"option.value\" \"mono\")\r\nA2 SEARCH \"/option/~/\" RETURN (\"option.value\") ALL\r\n",
        b"A1 OK \"STORE done\"\r\nA2 ENTRY \"font\" \"mono\"\r\nA2 MODTIME \"19920204023552000000\"\r\nA2 OK \"SEARCH done\"\r\n",
    ),
    (
        STORED,
        b"B1 SEARCH \"/option/~/\" RETURN (\"option.value\") ALL\r\n",
        b"B1 ENTRY \"font\" \"mono\"\r\nB1 MODTIME \"19920204023552000000\"\r\nB1 OK \"SEARCH done\"\r\n",
    ),
];

/// A session of joe over such devices, on a day of 1992.
pub(crate) fn visit<B: Bell>(wire: MemWire, bell: B, turns: u64) -> Visit<'static, B>
    ensures wire { result.wire ≡ wire }
    ensures bell { result.bell ≡ bell }
    ensures turns { result.turns ≡ turns }
{
    Visit {
        user: Some(b"joe"),
        wire,
        bell,
        clock: Moment::new(697_170_952_000_000).unwrap_or(Moment::first()),
        turns,
    }
}

// Whether a prefix of the greeting and the answers was written.
fn begins(output: &[u8], answers: &[u8]) -> bool {
    let greeted = output.len().min(HELLO.len());
    output[..greeted] == HELLO[..greeted] && answers.starts_with(&output[greeted..])
}

// Whether a session that ended by a fault wrote a prefix of what it should, all of it where it ended well, and left.
fn is_cut<S: Site>(done: &Done<S>, answers: &[u8], fault: TaskEnd) -> bool {
    let all = done.output.len() == HELLO.len() + answers.len();
    let ended = done.end == fault || done.end == TaskEnd::Ended && all;
    ended && done.entered && done.left && begins(done.output.as_slice(), answers)
}

/// A session whose reader or writer fails at that poll, after a session that doesn't fail.
#[derive(Drop)]
struct Cut<'r> {
    row: &'r FailingRow,
    at: usize,
    fault: TaskEnd,
}

impl Cut<'_> {
    // Its wire, whose reader and writer move seven octets at once, until one of them fails.
    fn wire(&self, alloc: Global) -> io::Result<MemWire>
        ensures { IfOk result (λ w. w.told ≡ new_wire) }
    {
        let moves = WireAnswer::Moves(7);
        let (reads, writes) = match self.fault {
            TaskEnd::ReadFault => (WireAnswer::Fails, moves),
            _ => (moves, WireAnswer::Fails),
        };
        let reads = plan(alloc, self.at, moves, reads)?;
        let writes = plan(alloc, self.at, moves, writes)?;
        wire_of(alloc, self.row.1, reads, writes)
    }

    // The pass of the session before, which has ended.
    fn run_before<S: Site, L: Ledger, R: Wait + RandomSource + AllocGlobal>(
        &self,
        rt: &R,
        served: &Served<S, L>,
        users: &Users,
        pass: Pass<S>,
    ) -> io::Result<Pass<S>> {
        let alloc = rt.alloc();
        let before = visit(wire(alloc, self.row.0, 1_000)?, no_bell(alloc)?, 1_000);
        let done = run(rt, served, pass, users, before)?;
        Ok(done.lease.pass)
    }

    // The pass of the session that is cut, and whether it was cut as it should be.
    fn run_cut<S: Site, L: Ledger, R: Wait + RandomSource + AllocGlobal>(
        &self,
        rt: &R,
        served: &Served<S, L>,
        users: &Users,
        pass: Pass<S>,
    ) -> io::Result<(Pass<S>, bool)> {
        let alloc = rt.alloc();
        let cut = visit(self.wire(alloc)?, no_bell(alloc)?, 1_000);
        let done = run(rt, served, pass, users, cut)?;
        let was_cut = is_cut(&done, self.row.2, self.fault);
        Ok((done.lease.pass, was_cut))
    }
}

impl<R: Wait + RandomSource + AllocGlobal> Play<R> for Cut<'_> {
    fn comes_true<S: Site, L: Ledger>(
        &self,
        rt: &R,
        served: Served<S, L>,
        passes: Vec<Pass<S>>,
    ) -> io::Result<bool> {
        let users = Users::new(Vec::new(rt.alloc()));
        let mut passes = passes;
        let (Some(first), Some(pass)) = (passes.pop(), passes.pop()) else {
            return Ok(false);
        };
        passes.push(self.run_before(rt, &served, &users, first)?)?;
        let (pass, was_cut) = self.run_cut(rt, &served, &users, pass)?;
        passes.push(pass)?;
        Ok(was_cut && served.close(passes).is_ok())
    }
}

#[test]
fn faults_cut_a_session_and_it_leaves(rt: HostRuntime) {
    for row in &ROWS {
        for at in 0..40 {
            for fault in [TaskEnd::ReadFault, TaskEnd::WriteFault] {
                assert!(rt; is_true(&rt, &Cut { row, at, fault }));
            }
        }
    }
}
