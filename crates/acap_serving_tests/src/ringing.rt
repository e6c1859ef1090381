//! A session whose client says nothing more, whose bell rings, and which ends at its last poll.
use crate::calling::does;
use crate::calls::Act;
use crate::failing::visit;
use crate::stage::{Done, HELLO, Play, is_true, plan, run, wire_of};
use acap_locked::{Pass, Served, Site};
use acap_login::Users;
use acap_task::{Bell, Ring, TaskEnd, WireAnswer, count_up};
use futures::task::{Context, Poll};
use std::alloc::AllocGlobal;
use std::io;
use std::random::RandomSource;
use std::sync::Wait;
use std::sync::ledger::Ledger;

// A client that watches what joe's other programs store, and what it is sent.
static WATCH: &[u8] =
    b"A0 STORE (\"/option/~/size\" \"option.value\" \"9\")\r\nA1 SEARCH \"/option/~/\" MAKECONTEXT NOTIFY \"c\" RETURN (\"option.value\") EQUAL \"entry\" \"i;octet\" \"font\"\r\n";

const STORE: &[u8] = b"B1 STORE (\"/option/~/font\" \"option.value\" \"mono\")\r\n";

static WATCHED: &[u8] =
    b"A0 OK \"STORE done\"\r\nA1 MODTIME \"19920204023552000000\"\r\nA1 OK \"SEARCH done\"\r\n* ADDTO \"c\" \"font\" 0 \"mono\"\r\n";

// A bell that rings once, at its third poll, when another session has stored.
#[derive(Drop)]
struct Storing<'a, S: Site, L: Ledger, R: Wait + AllocGlobal> {
    rt: &'a R,
    served: &'a Served<S, L>,
    pass: Option<Pass<S>>,
    ended: bool,
    waits: u64,
}

impl<S: Site, L: Ledger, R: Wait + AllocGlobal> Storing<'_, S, L, R> {
    // Joe enters through another pass, and stores.
    fn store(&self, pass: Pass<S>) -> bool {
        let mut pass = pass;
        does(self.rt, self.served, &mut pass, Act::Enters(b"joe"))
            && does(self.rt, self.served, &mut pass, Act::Sends(STORE))
    }
}

impl<S: Site, L: Ledger, R: Wait + AllocGlobal> Bell for Storing<'_, S, L, R> {
    ghost use Rattle.std.specs.Prelude.{None};

    ghost told = { λ b. record { rings = None; ended = b.ended; waits = b.waits } };

    fn poll_ring(&mut self, cx: &mut Context<'_>) -> Poll<Ring> {
        if self.waits < 2 {
            self.waits = count_up(self.waits);
            return cx.yield_now();
        }
        if let Some(pass) = self.pass.take() {
            let _stored = self.store(pass);
            return Poll::Ready(Ring::Rung);
        }
        self.ended = true;
        Poll::Ready(Ring::End)
    }
}

// A session whose reader isn't ready once it has read what its client sends, and whose bell rings when another has stored.
fn watch<'a, S: Site, L: Ledger, R: Wait + RandomSource + AllocGlobal>(
    rt: &'a R,
    served: &'a Served<S, L>,
    users: &'a Users,
    pass: Pass<S>,
    other: Option<Pass<S>>,
) -> io::Result<Done<S>> {
    let alloc = rt.alloc();
    let reads = plan(alloc, 1, WireAnswer::Moves(1_000), WireAnswer::Waits)?;
    let writes = plan(alloc, 0, WireAnswer::Waits, WireAnswer::Moves(1_000))?;
    let wire = wire_of(alloc, WATCH, reads, writes)?;
    let bell = Storing {
        rt,
        served,
        pass: other,
        ended: false,
        waits: 0,
    };
    run(rt, served, pass, users, visit(wire, bell, 3))
}

/// Such a session is sent what its bell rang for, and ends at its last poll.
struct Ringing;

impl<R: Wait + RandomSource + AllocGlobal> Play<R> for Ringing {
    fn comes_true<S: Site, L: Ledger>(
        &self,
        rt: &R,
        served: Served<S, L>,
        passes: Vec<Pass<S>>,
    ) -> io::Result<bool> {
        let users = Users::new(Vec::new(rt.alloc()));
        let mut passes = passes;
        let (Some(pass), other) = (passes.pop(), passes.pop()) else {
            return Ok(false);
        };
        let done = watch(rt, &served, &users, pass, other)?;
        let sent = done.output.as_slice().strip_prefix(HELLO) == Some(WATCHED);
        Ok(sent && done.end == TaskEnd::TurnsSpent && done.polls == 3)
    }
}

#[test]
fn a_bell_is_answered_and_the_last_poll_ends_a_session(rt: HostRuntime) {
    assert!(rt; is_true(&rt, &Ringing));
}
