//! `serve`: from a settings file to the report of the server's machine.
ghost use denote.Param.Send.{IsSend, IsSync};
ghost use Rattle.std.specs.Prelude.{◌≡◌, ◌<◌, IfOk};
ghost use Rattle.acap_serving.specs.Histories.{IsBlankFor, IsReported, first_machine};

use crate::accept::AcceptTask;
use crate::bells::Bells;
use crate::fault::ServeFault;
use crate::handles::{Handles, Sockets};
use crate::seat_pool::{Job, SeatPool};
use crate::server::Server;
use crate::setup::Setup;
use crate::start::run_start;
use crate::workers::Worker;
use acap_entries::{Memory, Octets, Steps};
use acap_locked::{Pass, Report, Served, Site};
use acap_login::Users;
use acap_machine::State;
use acap_rights::Realm;
use acap_settings::Settings;
use mio::{Events, Interest, Poll, Token, Waker};
use std::alloc::Global;
use std::fs::Files;
use std::marker::Brand;
use std::net::{Net, SocketAddr, TcpListener};
use std::sync::ledger::{Blank, Ledger};
use std::sync::{Mutex, Wait};
use std::thread::Threads;
use std::time::Clock;
use std::{io, thread};
use tokio::sync::mpsc::{UnboundedReceiver, UnboundedSender, unbounded_channel};

const LISTENER: Token = Token(0);

const WAKER: Token = Token(1);

/// How many events a wait reports at once.
const EVENTS: usize = 16;

// A listener at an address and port.
fn bind<R: Sockets>(rt: &R, listen: &Octets) -> io::Result<TcpListener> {
    match std::str::from_utf8(listen.as_slice()) {
        Ok(address) => TcpListener::bind(rt, address),
        Err(_) => Err(io::ErrorKind::InvalidInput.into()),
    }
}

/// A listener at the address and port that settings name.
pub fn open<R: Sockets>(rt: &R, settings: &Settings) -> Result<TcpListener, ServeFault> {
    bind(rt, &settings.listen).map_err(ServeFault::of_listening)
}

// The listener as mio has it: what is accepted there never waits.
fn unwaiting(listener: TcpListener) -> io::Result<mio::net::TcpListener> {
    listener.set_nonblocking(true)?;
    Ok(mio::net::TcpListener::from_std(listener))
}

// What waits for the listener, and what ends such a wait.
fn wait_for<R: Net>(rt: &R, listener: &mut mio::net::TcpListener) -> io::Result<(Poll, Waker)> {
    let poll = Poll::new(rt)?;
    let waker = Waker::new(poll.registry(), WAKER)?;
    poll.registry()
        .register(listener, LISTENER, Interest::READABLE)?;
    Ok((poll, waker))
}

// Serves sessions until `sessions` have ended: what comes by a channel is worked off on a thread of its own. Says whether all
// threads began, and one was left.
fn serve_sessions<R, S, K, J>(
    rt: &R,
    worker: &K,
    pool: &Mutex<SeatPool<S>>,
    task: AcceptTask<S>,
    channels: Vec<J>,
    sessions: u64,
) -> bool
where
    R: Threads + Wait + Clock + Sync,
    S: Site + Send + Sync,
    K: Worker<J> + Sync,
    J: Send + Drop,
{
    thread::scope(
        thread::scope_env(),
        rt,
        move |scope|
            requires { IsSync R.row × IsSync K.row × IsSend J.row }
        {
            let mut task = task;
            for jobs in channels {
                if scope.spawn(move || worker.work(jobs)).is_err() {
                    pool.lock(rt).end_worker();
                }
            }
            task.have_begun(rt, pool) && task.accept(rt, pool, sessions)
        },
    )
}

// A channel to each worker.
fn channels<S: Site>(
    alloc: Global,
    workers: u32,
) -> Result<(Vec<UnboundedSender<Job<S>>>, Vec<UnboundedReceiver<Job<S>>>), Memory> {
    let mut senders = Vec::new(alloc);
    let mut receivers = Vec::new(alloc);
    for _ in 0..workers {
        let (sender, receiver) = unbounded_channel(alloc)?;
        senders.push(sender).map_err(|_| Memory)?;
        receivers.push(receiver).map_err(|_| Memory)?;
    }
    Ok((senders, receivers))
}

/// What of its settings a server needs once it listens.
#[derive(Drop)]
struct ServeParams {
    host: Octets,
    workers: u32,
    turns: u64,
    sessions: u64,
    users: Users,
}

// Serves sessions until as many have ended as the settings say, and gives the passes back.
fn listen<R: Handles, S: Site + Send + Sync, L: Ledger + Send + Sync>(
    rt: &R,
    served: &Served<S, L>,
    bells: &Bells,
    pool: SeatPool<S>,
    params: &ServeParams,
    listener: TcpListener,
) -> Result<Vec<Pass<S>>, ServeFault>
    requires turns { 0 < params.now.turns }
{
    let alloc = rt.alloc();
    let mut listener = unwaiting(listener).map_err(ServeFault::of_listening)?;
    let (poll, waker) = wait_for(rt, &mut listener).map_err(ServeFault::of_listening)?;
    let (workers, receivers) = channels(alloc, params.workers)?;
    let events = Events::with_capacity(alloc, EVENTS)?;
    let task = AcceptTask::new(poll, events, listener, workers);
    let pool = Mutex::new(pool);
    let server = Server {
        rt,
        served,
        bells,
        pool: &pool,
        waker: &waker,
        users: &params.users,
        host: &params.host,
        turns: params.turns,
    };
    if !serve_sessions(rt, &server, &pool, task, receivers, params.sessions) {
        return Err(ServeFault::Memory);
    }
    Ok(pool.into_inner().into_passes(alloc)?)
}

// A server over a machine of its own, from its start to its close.
fn run_site<R: Handles, S: Site + Send + Sync, L: Ledger + Send + Sync>(
    rt: &R,
    blank: Blank,
    state: State,
    counter: Blank,
    params: &ServeParams,
    start: Option<Vec<u8>>,
    listener: TcpListener,
) -> Result<Report, ServeFault>
    requires blank { IsBlankFor S.name S.parts S.base L.name L.parts blank state.machine counter }
    requires turns { 0 < params.now.turns }
    ensures { IfOk result (IsReported S.base) }
{
    let alloc = rt.alloc();
    let steps = Steps::<L>::new(counter);
    let (served, passes) = Served::<S, L>::new(alloc, blank, state, steps)?;
    let (bells, heard) = Bells::new(alloc, &passes)?;
    let mut pool = SeatPool::new(alloc, passes, heard)?;
    if let Some(text) = start {
        if let Some(seat) = pool.take() {
            let seat = run_start(rt, &served, &bells, seat, &params.users, &params.host, text)?;
            pool.give(seat);
        }
    }
    let passes = listen(rt, &served, &bells, pool, params, listener)?;
    Ok(served.close(passes)?)
}

/// Serves what was set up, as `serve` does, whoever comes to that listener, and gives the report of its machine.
pub fn serve_at<R: Handles>(
    rt: &R,
    setup: Setup,
    listener: TcpListener,
) -> Result<Report, ServeFault>
    ensures { IfOk result (IsReported (first_machine setup.settings)) }
{
    let alloc = rt.alloc();
    let Setup { settings, start } = setup;
    let realm = Realm {
        administrators: settings.administrators,
        groups: settings.groups,
    };
    let params = ServeParams {
        host: settings.host,
        workers: settings.workers,
        turns: u64::from(settings.turns).max(1),
        sessions: u64::from(settings.sessions),
        users: settings.users,
    };
    let state = State::new(alloc, realm);
    run_site::<R, Brand, Brand>(
        rt,
        Blank::new(64),
        state,
        Blank::new(1),
        &params,
        start,
        listener,
    )
}

/// Serves sessions over TCP as a settings file says. Once it listens it lets `opened` know at which address.
pub fn serve<R, F>(rt: &R, file: &str, opened: F) -> Result<(), ServeFault>
where
    R: Handles + Files,
    F: FnOnce(SocketAddr),
    requires { (address : _) → F.pre opened address }
{
    let setup = Setup::read(rt, file)?;
    let listener = open(rt, &setup.settings)?;
    opened(listener.local_addr().map_err(ServeFault::of_listening)?);
    let _report = serve_at(rt, setup, listener)?;
    Ok(())
}
