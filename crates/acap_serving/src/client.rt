//! A client of a worker: its session, and then its stream until that is closed.
use crate::drain_stream::StreamDrain;
use crate::ended::EndingSession;
use crate::seat_pool::Job;
use crate::server::{Server, Task};
use acap_locked::Site;
use futures::task::{Context, Poll};
use futures::{Future, Stream, ready};
use std::alloc::AllocGlobal;
use std::random::RandomSource;
use std::sync::Wait;
use std::sync::ledger::Ledger;
use std::time::Clock;
use tokio::runtime::Handle;
use tokio::sync::mpsc::UnboundedReceiver;
use tokio::time::Sleep;

/// The most jobs without a session that are looked at in one poll.
const BUDGET: u32 = 64;

/// A client at a worker: its session, and then its stream until that is closed. Where it is let go before, as when the worker's runtime
/// ends, the session is ended then, and its seat is free again.
pub(crate) struct ClientSession<'a, R: Wait, S: Site, L: Ledger, T: EndingSession<S>> {
    server: &'a Server<'a, R, S, L>,
    task: Option<T>,
    timer: Option<Sleep>,
    drain: Option<StreamDrain>,
}

impl<'a, R: Wait, S: Site, L: Ledger, T: EndingSession<S>> ClientSession<'a, R, S, L, T> {
    /// A session, with a timer for its stream's end.
    pub(crate) fn new(
        server: &'a Server<'a, R, S, L>,
        task: T,
        timer: Sleep,
    ) -> ClientSession<'a, R, S, L, T> {
        ClientSession {
            server,
            task: Some(task),
            timer: Some(timer),
            drain: None,
        }
    }

    /// A stream that is read to its end.
    pub(crate) fn drain(
        server: &'a Server<'a, R, S, L>,
        drain: StreamDrain,
    ) -> ClientSession<'a, R, S, L, T> {
        ClientSession {
            server,
            task: None,
            timer: None,
            drain: Some(drain),
        }
    }
}

impl<R: Wait + Clock, S: Site, L: Ledger, T: EndingSession<S>> Future
    for ClientSession<'_, R, S, L, T> {
    type Output = ();

    fn poll(&mut self, cx: &mut Context<'_>) -> Poll<()> {
        if let Some(task) = &mut self.task {
            if let Some(pass) = task.pass() {
                self.server.tidy(pass);
            }
            let ended = ready!(task.go_on(cx));
            self.task = None;
            let stream = self.server.end(ended);
            self.drain = self.server.drain_after(stream, self.timer.take());
        }
        if let Some(drain) = &mut self.drain {
            ready!(drain.go_on(cx));
            self.drain = None;
            self.server.end_drain();
        }
        Poll::Ready(())
    }
}

impl<R: Wait, S: Site, L: Ledger, T: EndingSession<S>> Drop for ClientSession<'_, R, S, L, T> {
    fn drop(self) {
        let ClientSession {
            server,
            task,
            timer,
            drain: stream,
        } = self;
        drop(timer);
        if let Some(task) = task {
            server.cut_off(task.end());
        }
        if let Some(stream) = stream {
            drop(stream);
            server.end_drain();
        }
    }
}

/// A client at a worker, in memory of its own. At each poll of the worker several enums are written that may hold a client, each of them
/// in its full length.
#[derive(Drop)]
pub(crate) struct BoxedSession<'a, R: Wait, S: Site, L: Ledger, T: EndingSession<S>> {
    session: Box<ClientSession<'a, R, S, L, T>>,
}

impl<R: Wait + Clock, S: Site, L: Ledger, T: EndingSession<S>> Future
    for BoxedSession<'_, R, S, L, T> {
    type Output = ();

    fn poll(&mut self, cx: &mut Context<'_>) -> Poll<()> {
        self.session.as_mut().poll(cx)
    }
}

/// The clients of the jobs of a channel, as the jobs come. That the worker has begun is noted at the first look.
#[derive(Drop)]
pub(crate) struct ClientSessions<'a, R: Wait, S: Site, L: Ledger> {
    server: &'a Server<'a, R, S, L>,
    jobs: &'a mut UnboundedReceiver<Job<S>>,
    handle: Handle,
    begun: bool,
}

impl<'a, R: Wait + Clock + RandomSource + AllocGlobal, S: Site, L: Ledger> ClientSessions<
    'a,
    R,
    S,
    L,
> {
    /// Those of the thread with that runtime.
    pub(crate) fn new(
        server: &'a Server<'a, R, S, L>,
        jobs: &'a mut UnboundedReceiver<Job<S>>,
        handle: Handle,
    ) -> ClientSessions<'a, R, S, L> {
        ClientSessions {
            server,
            jobs,
            handle,
            begun: false,
        }
    }

    // Notes once that the worker has begun.
    fn begin(&mut self) {
        if !self.begun {
            self.begun = true;
            self.server.begin_worker();
        }
    }

    // The client of a job, if there is to be one. Where memory is refused, what the client had comes back, as where it is let go.
    fn admit(&self, job: Job<S>) -> Option<BoxedSession<'a, R, S, L, Task<'a, R, S, L>>> {
        let session = self.server.begin(job, &self.handle)?;
        let session = Box::new(self.server.rt.alloc(), session).ok()?;
        Some(BoxedSession { session })
    }
}

impl<'a, R, S, L> Stream for ClientSessions<'a, R, S, L>
where
    R: Wait + Clock + RandomSource + AllocGlobal,
    S: Site,
    L: Ledger,
{
    type Item = BoxedSession<'a, R, S, L, Task<'a, R, S, L>>;

    fn poll_next(
        &mut self,
        cx: &mut Context<'_>,
    ) -> Poll<Option<BoxedSession<'a, R, S, L, Task<'a, R, S, L>>>> {
        self.begin();
        for _ in 0..BUDGET {
            let Some(job) = ready!(self.jobs.poll_recv(cx)) else {
                return Poll::Ready(None);
            };
            if let Some(client) = self.admit(job) {
                return Poll::Ready(Some(client));
            }
        }
        cx.yield_now()
    }
}
