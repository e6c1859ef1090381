//! Sessions on several workers over a new machine, and what they come to.
ghost use Rattle.std.specs.Prelude.{◌≡◌, ◌<◌, All, IfOk, None};
ghost use Rattle.acap_serving.specs.Devices.{silent_wire};
ghost use Rattle.acap_serving.specs.Histories.{IsBlankFor};

use crate::gate::{OneMoment, WaitingWire};
use crate::stage::{HELLO, empty};
use acap_entries::{Memory, Octets, Steps, UserName};
use acap_locked::{Pass, Served, Site};
use acap_login::Users;
use acap_machine::State;
use acap_serving::{Done, Handles, Ran, run_sessions};
use acap_task::{Conn, Over, Running, SeatLease, TaskEnd, Wire};
use std::alloc::{AllocGlobal, Global};
use std::marker::Brand;
use std::net::{Net, TcpListener, TcpStream};
use std::random::RandomSource;
use std::sync::Wait;
use std::sync::ledger::{Blank, Ledger};
use std::thread::Threads;
use std::time::Clock;

/// The polls after which a session ends.
const TURNS: u64 = 10_000_000;

/// What one session came to: how it ended, what it was sent, and how many of its calls were answered.
#[derive(Drop)]
pub(crate) struct Ended {
    pub(crate) end: TaskEnd,
    pub(crate) sent: Vec<u8>,
    pub(crate) calls: usize,
}

/// What sessions came to, in their order, and how many events the history has.
#[derive(Drop)]
pub(crate) struct Outcome {
    pub(crate) sessions: Vec<Ended>,
    pub(crate) events: usize,
}

/// A session of a user over a wire.
pub(crate) fn conn_of<'a>(
    alloc: Global,
    user: &[u8],
    wire: WaitingWire<'a>,
) -> Result<Conn<WaitingWire<'a>, OneMoment>, Memory>
    ensures { IfOk result (λ conn. conn.wire ≡ wire.entry) }
{
    match UserName::read(alloc, user) {
        Ok(user) => Ok(Conn {
            wire,
            user: Some(user),
            source: OneMoment,
        }),
        Err(_) => Err(Memory),
    }
}

// The passes of places at which no Leave is owed. `None` where one is.
fn passes_of<S: Site>(
    alloc: Global,
    places: Vec<SeatLease<S>>,
) -> Result<Option<Vec<Pass<S>>>, Memory> {
    let mut passes = Vec::with_capacity(alloc, places.len())?;
    for place in places {
        if place.owes_leave {
            return Ok(None);
        }
        passes.push(place.pass).map_err(|_| Memory)?;
    }
    Ok(Some(passes))
}

// What each session came to.
fn ended_of<'u, 'w>(
    alloc: Global,
    done: Vec<Done<'u, WaitingWire<'w>, OneMoment>>,
) -> Result<Vec<Ended>, Memory> {
    let mut sessions = Vec::with_capacity(alloc, done.len())?;
    for one in done {
        let Over { running, end, .. } = one;
        let Running { wire, desk, .. } = running;
        let ended = Ended {
            end,
            calls: desk.calls.len(),
            sent: wire.output,
        };
        sessions.push(ended).map_err(|_| Memory)?;
    }
    Ok(sessions)
}

// What sessions came to, where they left all places and their machine can be closed.
fn outcome_of<'u, 'w, S: Site, L: Ledger>(
    alloc: Global,
    ran: Ran<'u, S, L, WaitingWire<'w>, OneMoment>,
) -> Result<Option<Outcome>, Memory> {
    let Ran {
        served,
        passes,
        done,
    } = ran;
    let sessions = ended_of(alloc, done)?;
    let Some(passes) = passes_of(alloc, passes)? else {
        return Ok(None);
    };
    Ok(match served.close(passes) {
        Ok(report) => Some(Outcome {
            sessions,
            events: report.history.len(),
        }),
        Err(_) => None,
    })
}

// Runs sessions on `workers` workers over a new machine, and closes it.
fn run_on<'w, R: Handles, S: Site + Send + Sync, L: Ledger + Send + Sync>(
    rt: &R,
    blank: Blank,
    state: State,
    counter: Blank,
    conns: Vec<Conn<WaitingWire<'w>, OneMoment>>,
    workers: usize,
) -> Result<Option<Outcome>, Memory>
    requires blank { IsBlankFor S.name S.parts S.base L.name L.parts blank state.machine counter }
    requires workers { 0 < workers }
    requires untold { All (λ conn. ⟦<WaitingWire<'w> as Wire>⟧.told conn.wire ≡ silent_wire) conns.items }
{
    let alloc = rt.alloc();
    let (served, passes) = Served::<S, L>::new(alloc, blank, state, Steps::<L>::new(counter))?;
    let users = Users::new(Vec::new(alloc));
    let host = Octets::from_slice(alloc, b"localhost")?;
    match run_sessions(rt, served, passes, conns, workers, &users, &host, TURNS) {
        Ok(ran) => outcome_of(alloc, ran),
        Err(_) => Ok(None),
    }
}

/// Runs sessions on `workers` workers over an empty machine with a ledger of its own, and closes it. `None` where they weren't run, or it
/// couldn't be closed.
pub(crate) fn run_all<'w, R>(
    rt: &R,
    conns: Vec<Conn<WaitingWire<'w>, OneMoment>>,
    workers: usize,
) -> Result<Option<Outcome>, Memory>
where
    R: Threads
        + Wait
        + Clock
        + Net<Listener = TcpListener, Stream = TcpStream>
        + RandomSource
        + AllocGlobal
        + Sync,
    requires workers { 0 < workers }
    requires untold { All (λ conn. ⟦<WaitingWire<'w> as Wire>⟧.told conn.wire ≡ silent_wire) conns.items }
{
    let state = empty(rt.alloc());
    run_on::<R, Brand, Brand>(rt, Blank::new(64), state, Blank::new(1), conns, workers)
}

/// Whether a session ended well, and was sent this after the greeting.
pub(crate) fn was_sent(one: &Ended, wanted: &[u8]) -> bool {
    match one.sent.strip_prefix(HELLO) {
        Some(sent) => one.end == TaskEnd::Ended && sent == wanted,
        None => false,
    }
}
