//! A worker thread: its runtime, and the jobs that it takes.
ghost use Rattle.futures.specs.Runs.{AllItems};

use crate::client::ClientSessions;
use crate::seat_pool::Job;
use crate::server::Server;
use acap_locked::Site;
use futures::{Future, Stream, StreamExt};
use std::alloc::AllocGlobal;
use std::io;
use std::net::Net;
use std::random::RandomSource;
use std::sync::Wait;
use std::sync::ledger::Ledger;
use std::time::Clock;
use tokio::runtime::LocalRuntime;
use tokio::sync::mpsc::UnboundedReceiver;

/// The most futures at once: 64 sessions, and 64 streams that are read to their ends.
const FUTURES: usize = 128;

/// Polls the futures of a stream until it ends and all of them have ended, each once it is woken.
pub(crate) fn run_stream<R, T, F>(rt: &R, runtime: &mut LocalRuntime, stream: T) -> io::Result<()>
where
    R: Wait + Clock + RandomSource + AllocGlobal,
    T: Stream<Item = F>,
    F: Future<Output = ()>,
    requires stream { T.can_poll stream }
    requires items { AllItems (T.yields stream) F.can_poll }
{
    let all = stream.buffer_unordered(rt.alloc(), FUTURES)?.count();
    let _count = runtime.block_on(rt, all)?;
    Ok(())
}

// Serves the jobs of a channel until it ends and their sessions have ended.
fn serve_jobs<R: Wait + Clock + Net + RandomSource + AllocGlobal, S: Site, L: Ledger>(
    server: &Server<'_, R, S, L>,
    jobs: &mut UnboundedReceiver<Job<S>>,
) -> io::Result<()> {
    let mut runtime = LocalRuntime::new(server.rt)?;
    let handle = runtime.handle().clone()?;
    let sessions = ClientSessions::new(server, jobs, handle);
    run_stream(server.rt, &mut runtime, sessions)
}

/// What works off the jobs of a channel.
pub(crate) trait Worker<J> {
    /// Works them off, until the channel ends and all are done.
    fn work(&self, jobs: J);
}

/// A worker: a thread with a runtime of its own, which polls each session that comes by its channel once that is woken. It ends with
/// the channel, when its sessions have ended, or where its runtime can't go on: its sessions are ended then, and the jobs that it has
/// not begun are left to others.
impl<R, S, L> Worker<UnboundedReceiver<Job<S>>> for Server<'_, R, S, L>
where
    R: Wait + Clock + Net + RandomSource + AllocGlobal,
    S: Site,
    L: Ledger,
{
    fn work(&self, jobs: UnboundedReceiver<Job<S>>) {
        let mut jobs = jobs;
        let _ = serve_jobs(self, &mut jobs);
        jobs.close();
        for _ in self.rt.forever() {
            let Ok(job) = jobs.try_recv() else {
                break;
            };
            self.leave(job);
        }
        self.end_worker();
    }
}
