//! `run_sessions`: runs sessions that are given, on several threads, and gives their ends back.
ghost use denote.Param.Send.{IsSend, IsSync};
ghost use Rattle.std.specs.Prelude.{◌≡◌, ◌<◌, ◌≤◌, ◌++◌, [], false, length, map, vec_len, vec_capacity, All, IfErr, IfOk, OnOk, OnErr, drop, take, replicate, ◌+◌};
ghost use Rattle.acap_serving.specs.Devices.{IsReady};
ghost use Rattle.acap_serving.specs.Ends.{between};
ghost use Rattle.acap_serving.specs.Dealing.{owners};
ghost use Rattle.acap_serving.specs.Faults.{IfTooMany};

use crate::bells::Bells;
use crate::collect::{Collected, collect, put_back, split};
use crate::deal::no_loads;
use crate::flag_bell::FlagBell;
use crate::handles::Handles;
use crate::lent_session::{Advance, LentSession};
use crate::seats::{RunEnv, SeatBell, fill, seat_bells};
use crate::worker_sessions::run_loads;
use acap_entries::{Memory, Octets};
use acap_locked::{Pass, Served, Site};
use acap_login::Users;
use acap_task::{Bell, Conn, Desk, DeskRecord, Over, SeatLease, Source, Wire};
use std::alloc::Global;
use std::sync::ledger::Ledger;
use thiserror::Error;

/// A session that ended: how, what it stood on but for its pass, its steps, and the record of its calls.
pub type Done<'u, W, O> = Over<'u, W, DeskRecord, O, FlagBell>;

/// What sessions left.
#[derive(Drop)]
pub struct Ran<'u, S: Site, L: Ledger, W: Wire, O: Source> {
    /// The machine.
    pub served: Served<S, L>,
    /// All passes, in their order, each with whether it owes a Leave.
    pub passes: Vec<SeatLease<S>>,
    /// The sessions, in their order.
    pub done: Vec<Done<'u, W, O>>,
}

/// Why no session was run.
#[derive(Clone, Copy, Debug, PartialEq, Eq, Error)]
pub enum RunFault {
    /// There are more sessions than passes.
    #[error("more sessions than passes")]
    TooManySessions,
    /// Memory was refused.
    #[error("out of memory")]
    Memory,
}

/// What was handed in, where no session was run.
#[derive(Drop)]
pub struct NotRun<S: Site, L: Ledger, W, O> {
    /// Why.
    pub fault: RunFault,
    /// The machine.
    pub served: Served<S, L>,
    /// The passes.
    pub passes: Vec<Pass<S>>,
    /// What the sessions were to stand on.
    pub conns: Vec<Conn<W, O>>,
}

impl<S: Site, L: Ledger, W, O> NotRun<S, L, W, O> {
    // All that was handed in, and why.
    fn new(
        fault: RunFault,
        served: Served<S, L>,
        passes: Vec<Pass<S>>,
        conns: Vec<Conn<W, O>>,
    ) -> NotRun<S, L, W, O>
        ensures why { result.fault ≡ fault }
        ensures served { result.served ≡ served }
        ensures passes { result.passes ≡ passes }
        ensures conns { result.conns ≡ conns }
    {
        NotRun {
            fault,
            served,
            passes,
            conns,
        }
    }
}

// Loads without sessions, room for how sessions end, and passes that are left over.
type Stock<'u, S, W, D, O, B> = (
    Vec<Vec<LentSession<'u, W, D, O, B>>>,
    Vec<Over<'u, W, D, O, B>>,
    Vec<Pass<S>>,
);

// Runs each load on a worker of its own.
fn run_lent<'u, R, W, D, O, B>(rt: &R, loads: &mut Vec<Vec<LentSession<'u, W, D, O, B>>>)
where
    R: Handles,
    W: Wire + Send,
    D: Desk + Send,
    O: Source + Send,
    B: Bell + Send,
    ensures same { owners (⟦<LentSession<'u, W, D, O, B> as Advance>⟧.whose) loads.new.items
        ≡ owners (⟦<LentSession<'u, W, D, O, B> as Advance>⟧.whose) loads.old.items }
    ensures len { vec_len loads.new ≡ vec_len loads.old }
{
    run_loads(rt, loads);
}

// Loads with room for `count` sessions, room for how these end, and the passes that are left over. Fails only for want of memory;
// all passes stay then.
fn stock<'u, S: Site, W: Wire, D: Desk, O: Source, B: Bell>(
    alloc: Global,
    workers: usize,
    count: usize,
    passes: &mut Vec<Pass<S>>,
) -> Result<Stock<'u, S, W, D, O, B>, Memory>
    requires { count ≤ vec_len passes.old }
    ensures len { IfOk result (λ made. vec_len made.0 ≡ workers) }
    ensures none { IfOk result (λ made. map (λ load. load.items) made.0.items ≡ replicate workers []) }
    ensures room { IfOk result (λ made. All (λ load. vec_len load + count ≤ vec_capacity load) made.0.items) }
    ensures overs { IfOk result (λ made. (made.1.items ≡ []) × (count ≤ vec_capacity made.1)) }
    ensures spare { IfOk result (λ made. (made.2.items ≡ drop count passes.old.items)
        × (vec_len made.2 + count ≡ vec_len passes.old)) }
    ensures first { OnOk result ((passes.new.items ≡ take count passes.old.items)
        × (vec_len passes.new ≡ count)) }
    ensures err { OnErr result (passes.new ≡ passes.old) }
{
    let loads = no_loads(alloc, workers, count)?;
    let overs = Vec::with_capacity(alloc, count)?;
    let spare = passes.split_off(count)?;
    Ok((loads, overs, spare))
}

// Runs sessions, and gives what they left. Where memory is refused before the first of them begins, passes and conns come back.
fn run_in<'u, 'b, R, S, L, W, O>(
    env: &RunEnv<'u, 'b, R, S, L>,
    passes: Vec<Pass<S>>,
    conns: Vec<Conn<W, O>>,
    seat_bells: Vec<SeatBell>,
    workers: usize,
    lists: Collected<'u, S, W, O>,
) -> Result<Collected<'u, S, W, O>, (Vec<Pass<S>>, Vec<Conn<W, O>>)>
where
    R: Handles,
    S: Site + Send + Sync,
    L: Ledger + Send + Sync,
    W: Wire + Send,
    O: Source + Send,
    requires workers { 0 < workers }
    requires few { vec_len conns ≤ vec_len passes }
    requires seat_bells { vec_len seat_bells ≡ vec_len conns }
    requires hosts { All (λ seat_bell. seat_bell.host ≡ env.now.host.now) seat_bells.items }
    requires untold { All (λ conn. IsReady (W.told conn.wire) (O.told conn.source)) conns.items }
    requires lists { (lists.done.items ≡ []) × (lists.passes.items ≡ [])
        × (vec_len conns ≤ vec_capacity lists.done) × (vec_len passes ≤ vec_capacity lists.passes) }
    ensures ends { IfOk result (λ made. map (λ end. end.running.parties) made.done.items
        ≡ map (λ conn. between env.now.users env.now.host.now conn.user) conns.items) }
    ensures seats { IfOk result (λ made. map (λ place. place.pass.seat) made.passes.items
        ≡ map (λ pass. pass.seat) passes.items) }
    ensures owes { IfOk result (λ made. map (λ place. place.owes_leave) made.passes.items
        ≡ map (λ end. end.running.desk.owes_leave) made.done.items
        ++ map (λ _. false) (drop (length conns.items) passes.items)) }
    ensures err { IfErr result (λ back. (back.0.items ≡ passes.items) × (back.1.items ≡ conns.items)) }
{
    let count = conns.len();
    let mut passes = passes;
    let Ok((mut loads, overs, spare)) = stock(env.rt.alloc(), workers, count, &mut passes) else {
        return Err((passes, conns));
    };
    fill(env, passes, conns, seat_bells, &mut loads);
    run_lent(env.rt, &mut loads);
    let overs = collect(loads, count, overs);
    Ok(put_back(split(overs, lists), spare))
}

// Room for what sessions leave. Fails only for want of memory.
fn room<'u, S: Site, W: Wire, O: Source>(
    alloc: Global,
    sessions: usize,
    passes: usize,
) -> Result<Collected<'u, S, W, O>, Memory>
    ensures { IfOk result (λ lists. (lists.done.items ≡ []) × (lists.passes.items ≡ [])
        × (sessions ≤ vec_capacity lists.done) × (passes ≤ vec_capacity lists.passes)) }
{
    Ok(Collected {
        passes: Vec::with_capacity(alloc, passes)?,
        done: Vec::with_capacity(alloc, sessions)?,
    })
}

/// Runs sessions, session i on worker i modulo `workers`, each worker a thread with a runtime of its own, until all have ended. Session
/// i has pass i, and may make `turns` polls. What each of them leaves comes back in their order, and so do the passes. A session that has
/// not ended when its worker has, or whose worker has no runtime, ends with `Memory`, after its Leave. Where the system refuses a thread,
/// the worker runs on the one that was to start it. Nothing is run, and all comes back, where there are more sessions than passes, or
/// memory is refused before the first of them begins.
pub fn run_sessions<'u, R, S, L, W, O>(
    rt: &R,
    served: Served<S, L>,
    passes: Vec<Pass<S>>,
    conns: Vec<Conn<W, O>>,
    workers: usize,
    users: &'u Users,
    host: &Octets,
    turns: u64,
) -> Result<Ran<'u, S, L, W, O>, NotRun<S, L, W, O>>
where
    R: Handles,
    S: Site + Send + Sync,
    L: Ledger + Send + Sync,
    W: Wire + Send,
    O: Source + Send,
    requires workers { 0 < workers }
    requires turns { 0 < turns }
    requires untold { All (λ conn. IsReady (W.told conn.wire) (O.told conn.source)) conns.items }
    ensures few { OnOk result (length conns.items ≤ length passes.items) }
    ensures ends { IfOk result (λ ran. map (λ end. end.running.parties) ran.done.items
        ≡ map (λ conn. between users.entry host.now conn.user) conns.items) }
    ensures seats { IfOk result (λ ran. map (λ place. place.pass.seat) ran.passes.items
        ≡ map (λ pass. pass.seat) passes.items) }
    ensures owes { IfOk result (λ ran. map (λ place. place.owes_leave) ran.passes.items
        ≡ map (λ end. end.running.desk.owes_leave) ran.done.items
        ++ map (λ _. false) (drop (length conns.items) passes.items)) }
    ensures many { IfErr result (λ n. IfTooMany n.fault (length passes.items < length conns.items)) }
    ensures served { IfErr result (λ n. n.served ≡ served) }
    ensures passes { IfErr result (λ n. n.passes.items ≡ passes.items) }
    ensures conns { IfErr result (λ n. n.conns.items ≡ conns.items) }
{
    let alloc = rt.alloc();
    let count = conns.len();
    if count > passes.len() {
        return Err(NotRun::new(RunFault::TooManySessions, served, passes, conns));
    }
    let stock = seat_bells(alloc, &passes, count, host);
    let lists = room(alloc, count, passes.len());
    let (Ok((bells, seat_bells)), Ok(lists)) = (stock, lists) else {
        return Err(NotRun::new(RunFault::Memory, served, passes, conns));
    };
    let env = RunEnv {
        rt,
        served: &served,
        bells: &bells,
        users,
        host,
        turns,
    };
    match run_in(&env, passes, conns, seat_bells, workers, lists) {
        Ok(Collected { passes, done }) => Ok(Ran {
            served,
            passes,
            done,
        }),
        Err((passes, conns)) => Err(NotRun::new(RunFault::Memory, served, passes, conns)),
    }
}
