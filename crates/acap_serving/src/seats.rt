//! Sessions before they run: each with its seat's pass and bell, dealt out to the workers.
ghost use Rattle.std.specs.Prelude.{◌≡◌, ◌<◌, ◌≤◌, ◌+◌, All, IfOk, Some, length, map, vec_len, vec_capacity};
ghost use Rattle.acap_serving.specs.Dealing.{dealt, owners};
ghost use Rattle.acap_serving.specs.Devices.{IsReady};
ghost use Rattle.acap_serving.specs.Ends.{between, seated};

use crate::bells::{Bells, DeskOf};
use crate::deal::deal;
use crate::flag_bell::{FlagBell, SharedBell};
use crate::lent_session::{Advance, LentSession};
use acap_entries::{Copying, Memory, Octets};
use acap_locked::{Pass, Served, Site};
use acap_login::Users;
use acap_task::{Conn, PassDesk, SessionTask, Source, Wire};
use std::alloc::{AllocGlobal, Global};
use std::sync::ledger::Ledger;
use std::sync::{Arc, Wait};

/// What a session needs beside its connection and its pass: its seat's bell, and a host's name of its own.
#[derive(Drop)]
pub(crate) struct SeatBell {
    bell: Arc<SharedBell, Global>,
    host: Octets,
}

/// The bells of the seats of passes, and the first `count` of them for sessions. Fails only for want of memory.
pub(crate) fn seat_bells<S: Site>(
    alloc: Global,
    passes: &[Pass<S>],
    count: usize,
    host: &Octets,
) -> Result<(Bells, Vec<SeatBell>), Memory>
    requires { count ≤ length passes.now }
    ensures len { IfOk result (λ made. vec_len made.1 ≡ count) }
    ensures hosts { IfOk result (λ made. All (λ seat_bell. seat_bell.host ≡ host.now) made.1.items) }
{
    let (bells, heard) = Bells::new(alloc, passes)?;
    let mut heard = heard;
    heard.truncate(count);
    Ok((bells, seat_bells_of(alloc, heard, host)?))
}

// Those of seats, one for each bell. Fails only for want of memory.
fn seat_bells_of(
    alloc: Global,
    bells: Vec<Arc<SharedBell, Global>>,
    host: &Octets,
) -> Result<Vec<SeatBell>, Memory>
    ensures len { IfOk result (λ made. vec_len made ≡ vec_len bells) }
    ensures hosts { IfOk result (λ made. All (λ seat_bell. seat_bell.host ≡ host.now) made.items) }
{
    let mut seat_bells = Vec::with_capacity(alloc, bells.len())?;
    for bell in bells {
        let name = host.copy()?;
        seat_bells.push(SeatBell { bell, host: name })?;
    }
    Ok(seat_bells)
}

/// What all sessions share that are run together. Each may make `turns` polls.
#[derive(Drop)]
pub(crate) struct RunEnv<'u, 'b, R, S: Site, L: Ledger> {
    pub(crate) rt: &'b R,
    pub(crate) served: &'b Served<S, L>,
    pub(crate) bells: &'b Bells,
    pub(crate) users: &'u Users,
    pub(crate) host: &'b Octets,
    pub(crate) turns: u64,
    ghost some: { 0 < turns },
}

/// A session that lies with whoever starts the workers.
pub(crate) type LentSessionOf<'u, 'b, R, S, L, W, O> = LentSession<
    'u,
    W,
    DeskOf<'b, R, S, L>,
    O,
    FlagBell,
>;

// That of a connection.
#[tactic(auto, using(crate::proofs::Untold::untold_with))]
fn lent_session_of<'u, 'b, R: Wait + AllocGlobal, S: Site, L: Ledger, W: Wire, O: Source>(
    env: &RunEnv<'u, 'b, R, S, L>,
    pass: Pass<S>,
    seat_bell: SeatBell,
    conn: Conn<W, O>,
) -> LentSessionOf<'u, 'b, R, S, L, W, O>
    requires untold { IsReady (W.told conn.wire) (O.told conn.source) }
    requires host { seat_bell.host ≡ env.now.host.now }
    ensures { ⟦<LentSessionOf<'u, 'b, R, S, L, W, O> as Advance>⟧.whose result
        ≡ Some (between env.now.users env.now.host.now conn.user, pass.seat) }
{
    let alloc = env.rt.alloc();
    let SeatBell { bell, host } = seat_bell;
    let desk = PassDesk::new(alloc, env.rt, env.served, env.bells, pass);
    let bell = FlagBell::new(bell);
    LentSession::new(SessionTask::new(alloc, conn, desk, bell, env.users, host, env.turns))
}

/// Makes the sessions of connections, each with its pass, and deals them out, the last of them first.
pub(crate) fn fill<'u, 'b, R: Wait + AllocGlobal, S: Site, L: Ledger, W: Wire, O: Source>(
    env: &RunEnv<'u, 'b, R, S, L>,
    passes: Vec<Pass<S>>,
    conns: Vec<Conn<W, O>>,
    seat_bells: Vec<SeatBell>,
    loads: &mut Vec<Vec<LentSessionOf<'u, 'b, R, S, L, W, O>>>,
)
    requires untold { All (λ conn. IsReady (W.told conn.wire) (O.told conn.source)) conns.items }
    requires len { (vec_len passes ≡ vec_len conns) × (vec_len seat_bells ≡ vec_len conns) }
    requires hosts { All (λ seat_bell. seat_bell.host ≡ env.now.host.now) seat_bells.items }
    requires some { 0 < vec_len loads.old }
    requires room { All (λ load. vec_len load + vec_len conns ≤ vec_capacity load) loads.old.items }
    ensures dealt { owners (⟦<LentSessionOf<'u, 'b, R, S, L, W, O> as Advance>⟧.whose) loads.new.items
        ≡ dealt (owners (⟦<LentSessionOf<'u, 'b, R, S, L, W, O> as Advance>⟧.whose) loads.old.items)
        (map Some (seated (between env.now.users env.now.host.now) (map (λ conn. conn.user) conns.items)
        (map (λ pass. pass.seat) passes.items))) }
    ensures len { vec_len loads.new ≡ vec_len loads.old }
{
    let (mut passes, mut conns, mut seat_bells) = (passes, conns, seat_bells);
    for _ in 0..conns.len() {
        let pass = passes.pop().unwrap();
        let conn = conns.pop().unwrap();
        let seat_bell = seat_bells.pop().unwrap();
        deal(loads, lent_session_of(env, pass, seat_bell, conn));
    }
}
