//! Runs the sessions of one worker side by side, each in its turn.
ghost use Rattle.std.specs.Prelude.{◌≡◌, map, vec_len};
ghost use Rattle.acap_serving.specs.Dealing.{owners};
ghost use Rattle.futures.specs.Poll.{OnPending};
ghost use Rattle.futures.specs.Task.{IsArmed, Keeps};

use crate::handles::Handles;
use crate::lent_session::Advance;
use crate::workers::run_stream;
use futures::task::{Context, Poll};
use futures::{Future, stream};
use std::alloc::{AllocGlobal, Global};
use std::cell::RefCell;
use std::marker::{Brand, PhantomData};
use std::net::Net;
use std::random::RandomSource;
use std::sync::Wait;
use std::time::Clock;
use std::{io, mem, thread};
use tokio::runtime::LocalRuntime;

/// Whose the sessions of a worker are, in their order.
pub(crate) trait Sessions {
    ghost use Rattle.std.specs.Prelude.{List, Option};
    ghost use Rattle.acap_serving.specs.Ends.{Whose};

    ghost whose: { List (Option Whose) };
}

impl Sessions for Brand {
    ghost use Rattle.std.specs.Prelude.{[]};

    ghost whose = { [] };
}

/// The sessions of one worker while they are polled. Whose they are stays as it is.
#[derive(Drop)]
struct WorkerSessions<T: Advance, K: Sessions> {
    sessions: Vec<T>,
    of: PhantomData<K>,
    ghost same: { map T.whose sessions.items ≡ K.whose },
}

impl<T: Advance, K: Sessions> WorkerSessions<T, K> {
    // One poll of the session with that number. Where there is none, it has ended.
    fn advance(&mut self, number: usize, cx: &mut Context<'_>) -> Poll<()>
        ensures armed { OnPending result (IsArmed cx.new) }
        ensures kept { Keeps cx.old cx.new }
    {
        match self.sessions.get_mut(number) {
            Some(session) => session.advance(cx),
            None => Poll::Ready(()),
        }
    }
}

/// A session of a worker as a future.
#[derive(Drop)]
struct WorkerSession<'a, T: Advance, K: Sessions> {
    all: &'a RefCell<WorkerSessions<T, K>>,
    number: usize,
}

impl<T: Advance, K: Sessions> Future for WorkerSession<'_, T, K> {
    type Output = ();

    fn poll(&mut self, cx: &mut Context<'_>) -> Poll<()> {
        match self.all.try_borrow_mut() {
            Ok(mut all) => all.advance(self.number, cx),
            Err(_) => cx.yield_now(),
        }
    }
}

// `count` sessions of a worker, as futures. Fails only for want of memory.
fn futures_of<'a, T: Advance, K: Sessions>(
    alloc: Global,
    all: &'a RefCell<WorkerSessions<T, K>>,
    count: usize,
) -> io::Result<Vec<WorkerSession<'a, T, K>>> {
    let mut futures = Vec::with_capacity(alloc, count)?;
    for number in 0..count {
        futures.push(WorkerSession { all, number })?;
    }
    Ok(futures)
}

// Polls `count` sessions until all have ended.
fn poll_all<R: Wait + Clock + Net + RandomSource + AllocGlobal, T: Advance, K: Sessions>(
    rt: &R,
    all: &RefCell<WorkerSessions<T, K>>,
    count: usize,
) -> io::Result<()> {
    let mut runtime = LocalRuntime::new(rt)?;
    let futures = futures_of(rt.alloc(), all, count)?;
    run_stream(rt, &mut runtime, stream::iter(futures))
}

// Polls sessions until all have ended. Those for which a runtime or memory is refused stay as they are.
fn run<R: Wait + Clock + Net + RandomSource + AllocGlobal, T: Advance, K: Sessions>(
    rt: &R,
    sessions: Vec<T>,
) -> Vec<T>
    requires { map T.whose sessions.items ≡ K.whose }
    ensures { map T.whose result.items ≡ K.whose }
{
    let count = sessions.len();
    let all = RefCell::new(WorkerSessions::<T, K> {
        sessions,
        of: PhantomData,
    });
    let _ = poll_all(rt, &all, count);
    all.into_inner().sessions
}

/// Runs the load of one worker on this thread until all its sessions have ended. Those for which a runtime or memory is refused stay as
/// they are.
pub(crate) fn run_load<R, T>(rt: &R, load: &mut Vec<T>)
where
    R: Wait + Clock + Net + RandomSource + AllocGlobal,
    T: Advance,
    ensures { map T.whose load.new.items ≡ map T.whose load.old.items }
{
    let sessions = mem::replace(load, Vec::new(rt.alloc()));
    *load = run::<R, T, Brand>(rt, sessions);
}

/// Runs each load on a thread of its own, as `run_load` does. Where the system refuses a thread, a load is run on the one that was to
/// start it.
pub(crate) fn run_loads<R: Handles, T: Advance + Send>(rt: &R, loads: &mut Vec<Vec<T>>)
    ensures same { owners T.whose loads.new.items ≡ owners T.whose loads.old.items }
    ensures len { vec_len loads.new ≡ vec_len loads.old }
{
    let threads = loads.len().max(1);
    thread::for_each_mut(
        rt,
        loads.as_mut_slice(),
        threads,
        &|_, load| run_load(rt, load),
    );
}
