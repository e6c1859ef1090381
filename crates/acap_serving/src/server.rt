//! `Server`: what all sessions of a server share, and how a session begins and ends.
ghost use Rattle.std.specs.Prelude.{◌≡◌, ◌<◌, IfOk, IfSome};
ghost use Rattle.acap_serving.specs.Devices.{silent_wire};

use crate::bells::{Bells, DeskOf};
use crate::client::ClientSession;
use crate::drain_stream::{MILLIS, StreamDrain};
use crate::ended::Ended;
use crate::flag_bell::FlagBell;
use crate::host_source::HostSource;
use crate::seat_pool::{FreeSeat, Job, SeatPool};
use crate::tcp_wire::TcpWire;
use acap_entries::{Copying, Octets};
use acap_locked::{Pass, Served, Site};
use acap_login::Users;
use acap_task::{Conn, Over, PassDesk, SessionTask, Source, Wire};
use mio::Waker;
use std::alloc::AllocGlobal;
use std::io;
use std::net::TcpStream;
use std::random::RandomSource;
use std::sync::ledger::Ledger;
use std::sync::{Mutex, Wait};
use std::time::{Clock, Duration};
use tokio::runtime::Handle;
use tokio::time::Sleep;

/// What all sessions of a server stand on.
#[derive(Drop)]
pub(crate) struct Server<'a, R: Wait, S: Site, L: Ledger> {
    pub(crate) rt: &'a R,
    pub(crate) served: &'a Served<S, L>,
    pub(crate) bells: &'a Bells,
    pub(crate) pool: &'a Mutex<SeatPool<S>>,
    pub(crate) waker: &'a Waker,
    pub(crate) users: &'a Users,
    pub(crate) host: &'a Octets,
    pub(crate) turns: u64,
    ghost some: { 0 < turns },
}

/// A session of a server.
pub(crate) type Task<'a, R, S, L> = SessionTask<
    'a,
    TcpWire,
    DeskOf<'a, R, S, L>,
    HostSource<'a, R>,
    FlagBell,
>;

/// One that is over.
pub(crate) type TaskOver<'a, R, S, L> = Over<
    'a,
    TcpWire,
    DeskOf<'a, R, S, L>,
    HostSource<'a, R>,
    FlagBell,
>;

// A stream as a wire of the thread with that runtime. What is written goes out at once.
fn wire_over(stream: TcpStream, handle: &Handle) -> io::Result<TcpWire>
    ensures { IfOk result (λ wire. ⟦<TcpWire as Wire>⟧.told wire ≡ silent_wire) }
{
    stream.set_nodelay(true)?;
    let stream = tokio::net::TcpStream::from_std(stream, handle.reactor())?;
    Ok(TcpWire::new(stream))
}

impl<'a, R, S, L> Server<'a, R, S, L>
where
    R: Wait + Clock + RandomSource + AllocGlobal,
    S: Site,
    L: Ledger,
{
    // A timer for the time in which a stream is read to its end.
    fn timer(&self, handle: &Handle) -> Option<Sleep> {
        let most = Duration::from_millis(MILLIS);
        handle.time().sleep(self.rt, most).ok()
    }

    // What a session stands on beside its seat. `None` where the system or memory refuses it.
    fn conn(
        &self,
        stream: TcpStream,
        handle: &Handle,
    ) -> Option<(Conn<TcpWire, HostSource<'a, R>>, Octets)>
        ensures { IfSome result (λ made. ⟦<TcpWire as Wire>⟧.told made.0.wire ≡ silent_wire) }
    {
        let host = self.host.copy().ok()?;
        let source = HostSource::new(self.rt, self.rt).ok()?;
        let Ok(wire) = wire_over(stream, handle) else {
            return None;
        };
        let conn = Conn {
            wire,
            user: None,
            source,
        };
        Some((conn, host))
    }

    // The session of a stream at a seat, or the seat where there can be none.
    #[tactic(auto, using(crate::proofs::Untold::untold))]
    fn open(
        &self,
        seat: FreeSeat<S>,
        stream: TcpStream,
        handle: &Handle,
    ) -> Result<Task<'a, R, S, L>, FreeSeat<S>> {
        let Some((mut conn, host)) = self.conn(stream, handle) else {
            return Err(seat);
        };
        let FreeSeat { lease, bell } = seat;
        let alloc = self.rt.alloc();
        let now = conn.source.moment();
        match PassDesk::begin(alloc, self.rt, self.served, self.bells, lease, now) {
            Ok(desk) => Ok(SessionTask::new(
                alloc,
                conn,
                desk,
                FlagBell::new(bell),
                self.users,
                host,
                self.turns,
            )),
            Err(lease) => Err(FreeSeat { lease, bell }),
        }
    }

    // A stream that is read to its end, for which leave was given.
    fn drain(&self, stream: TcpStream, handle: &Handle) -> Option<StreamDrain> {
        let timer = self.timer(handle)?;
        let stream = tokio::net::TcpStream::from_std(stream, handle.reactor()).ok()?;
        StreamDrain::new(self.rt, stream, timer)
    }

    /// Notes that a worker has begun.
    pub(crate) fn begin_worker(&self) {
        self.pool.lock(self.rt).begin_worker();
        let _ = self.waker.wake();
    }

    /// Notes that a worker has ended.
    pub(crate) fn end_worker(&self) {
        self.pool.lock(self.rt).end_worker();
        let _ = self.waker.wake();
    }

    /// Takes back a job that was not begun, for another worker.
    pub(crate) fn leave(&self, job: Job<S>) {
        self.pool.lock(self.rt).leave(job);
    }

    // Begins a session. Where there can be none, its seat is free again.
    fn serve(
        &'a self,
        seat: FreeSeat<S>,
        stream: TcpStream,
        handle: &Handle,
    ) -> Option<ClientSession<'a, R, S, L, Task<'a, R, S, L>>> {
        let Some(timer) = self.timer(handle) else {
            self.pool.lock(self.rt).give(seat);
            return None;
        };
        match self.open(seat, stream, handle) {
            Ok(task) => Some(ClientSession::new(self, task, timer)),
            Err(seat) => {
                self.pool.lock(self.rt).give(seat);
                None
            }
        }
    }

    /// Begins a job.
    pub(crate) fn begin(
        &'a self,
        job: Job<S>,
        handle: &Handle,
    ) -> Option<ClientSession<'a, R, S, L, Task<'a, R, S, L>>> {
        match job {
            Job::Serve(seat, stream) => self.serve(seat, stream, handle),
            Job::Drain(stream) => match self.drain(stream, handle) {
                Some(drain) => Some(ClientSession::drain(self, drain)),
                None => {
                    self.end_drain();
                    None
                }
            },
        }
    }
}

impl<R: Wait, S: Site, L: Ledger> Server<'_, R, S, L> {
    /// Ends a session: its seat is free again. What is left is its stream.
    pub(crate) fn end(&self, ended: Ended<S>) -> tokio::net::TcpStream {
        let Ended { seat, stream } = ended;
        self.pool.lock(self.rt).end(seat);
        let _ = self.waker.wake();
        stream
    }

    /// Ends a session that is polled no more: its seat is free again, and its stream is closed.
    pub(crate) fn cut_off(&self, ended: Option<Ended<S>>) {
        if let Some(ended) = ended {
            drop(self.end(ended));
        }
    }

    /// Frees a few calls that passes of free seats have of epochs which were over at the last call of this pass, unless somebody else
    /// has the pool just now.
    pub(crate) fn tidy(&self, latest: &Pass<S>) {
        if let Some(mut pool) = self.pool.try_lock() {
            pool.tidy(latest);
        }
    }

    /// Notes that a stream is read to its end no longer.
    pub(crate) fn end_drain(&self) {
        self.pool.lock(self.rt).end_drain();
    }
}

impl<R: Wait + Clock, S: Site, L: Ledger> Server<'_, R, S, L> {
    /// Reads a stream to its end after its session, if there aren't too many of them.
    pub(crate) fn drain_after(
        &self,
        stream: tokio::net::TcpStream,
        timer: Option<Sleep>,
    ) -> Option<StreamDrain> {
        let timer = timer?;
        if !self.pool.lock(self.rt).may_drain() {
            return None;
        }
        let drain = StreamDrain::new(self.rt, stream, timer);
        if drain.is_none() {
            self.end_drain();
        }
        drain
    }
}
