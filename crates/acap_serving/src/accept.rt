//! `AcceptTask`: the thread that accepts connections and hands them to workers.
use crate::seat_pool::{Job, SeatPool};
use acap_locked::Site;
use mio::net::TcpListener;
use mio::{Events, Poll};
use std::alloc::Global;
use std::io::Write;
use std::net::{Shutdown, TcpStream};
use std::sync::{Mutex, Wait};
use std::time::{Clock, Duration};
use std::{io, thread};
use tokio::sync::mpsc::UnboundedSender;
use tokio::sync::mpsc::error::SendError;

/// What a client is sent for which no seat is free.
const REFUSAL: &[u8] = b"* BYE \"Too many sessions\"\r\n";

/// How long is waited where the system refuses something.
const MILLIS: u64 = 10;

/// Accepts streams, and hands each to a worker (RFC 2244 section 2): the listener and the waits for it, and a channel to each worker. It
/// runs on the thread that started the workers, and not as a future of one of them.
#[derive(Drop)]
pub struct AcceptTask<S: Site> {
    poll: Poll,
    events: Events<Global>,
    listener: TcpListener,
    workers: Vec<UnboundedSender<Job<S>>>,
    turn: usize,
}

// Refuses a client. What the socket doesn't take at once is not written.
fn refuse(stream: &TcpStream) {
    let mut writer = stream;
    let _ = writer.write(REFUSAL);
    let _ = stream.shutdown(Shutdown::Write);
}

impl<S: Site> AcceptTask<S> {
    /// One for that listener, whose events these are, and those workers.
    pub(crate) fn new(
        poll: Poll,
        events: Events<Global>,
        listener: TcpListener,
        workers: Vec<UnboundedSender<Job<S>>>,
    ) -> AcceptTask<S> {
        AcceptTask {
            poll,
            events,
            listener,
            workers,
            turn: 0,
        }
    }

    // Waits until somebody knocks, a worker begins or ends, or a session ends.
    fn wait<R: Clock>(&mut self, rt: &R) {
        if self.poll.poll(&mut self.events, None).is_err() {
            thread::sleep(rt, Duration::from_millis(MILLIS));
        }
    }

    /// Whether all workers have begun, once that is known.
    pub(crate) fn have_begun<R: Wait + Clock>(
        &mut self,
        rt: &R,
        pool: &Mutex<SeatPool<S>>,
    ) -> bool {
        for _ in rt.forever() {
            let count = self.workers.len() as u64;
            if let Some(begun) = pool.lock(rt).have_begun(count) {
                return begun;
            }
            self.wait(rt);
        }
        unreachable!()
    }

    // The worker whose turn it is; then it is the next one's.
    fn next(&mut self) -> Option<&UnboundedSender<Job<S>>> {
        let turn = if self.turn < self.workers.len() {
            self.turn
        } else {
            0
        };
        self.turn = turn + 1;
        self.workers.get(turn)
    }

    // Hands a job to the next worker that takes it. Where none does, its client is refused.
    fn hand<R: Wait>(&mut self, rt: &R, pool: &Mutex<SeatPool<S>>, job: Job<S>) {
        let mut job = job;
        for _ in 0..self.workers.len() {
            let Some(worker) = self.next() else {
                break;
            };
            match worker.send(job) {
                Ok(()) => return,
                Err(SendError::Closed(back) | SendError::OutOfMemory(back)) => job = back,
            }
        }
        if let Job::Serve(_, stream) = &job {
            refuse(stream);
        }
        pool.lock(rt).drop_job(job);
    }

    // Hands a stream to a worker, with a free seat. Where there is none, the client is refused, and the worker reads on to the stream's
    // end, if there aren't too many of them.
    fn seat<R: Wait>(&mut self, rt: &R, pool: &Mutex<SeatPool<S>>, stream: TcpStream) {
        let taken = pool.lock(rt).take();
        if let Some(seat) = taken {
            return self.hand(rt, pool, Job::Serve(seat, stream));
        }
        refuse(&stream);
        let may = pool.lock(rt).may_drain();
        if may {
            self.hand(rt, pool, Job::Drain(stream));
        }
    }

    // Hands on the jobs that workers left.
    fn hand_on<R: Wait>(&mut self, rt: &R, pool: &Mutex<SeatPool<S>>) {
        for _ in rt.forever() {
            let left = pool.lock(rt).left();
            let Some(job) = left else {
                return;
            };
            self.hand(rt, pool, job);
        }
    }

    /// Accepts streams until `sessions` sessions have ended, with 0 for ever. Where the system refuses a stream it waits 10 ms. Says
    /// whether a worker is left.
    pub(crate) fn accept<R: Wait + Clock>(
        &mut self,
        rt: &R,
        pool: &Mutex<SeatPool<S>>,
        sessions: u64,
    ) -> bool {
        let workers = self.workers.len() as u64;
        for _ in rt.forever() {
            self.hand_on(rt, pool);
            if pool.lock(rt).is_over(sessions) {
                return true;
            }
            if pool.lock(rt).have_ended(workers) {
                return false;
            }
            match self.listener.accept() {
                Ok((stream, _)) => self.seat(rt, pool, TcpStream::from(stream)),
                Err(error) if error.kind() == io::ErrorKind::WouldBlock => self.wait(rt),
                Err(_) => thread::sleep(rt, Duration::from_millis(MILLIS)),
            }
        }
        unreachable!()
    }
}
