//! `SeatPool`: the free seats, and counts of the workers and sessions that have ended.
ghost use Rattle.std.specs.Prelude.{◌≡◌, ◌<◌, ◌≤◌, ◌↔◌, length, IfOk, IsTrue};
ghost use Rattle.acap_task.specs.Told.{up};

use crate::flag_bell::SharedBell;
use acap_entries::Memory;
use acap_locked::{Pass, Site};
use acap_task::{SeatLease, count_up};
use std::alloc::Global;
use std::collections::VecDeque;
use std::net::TcpStream;
use std::sync::Arc;

/// The most streams that are read to their ends at once, after their sessions.
const STREAMS: u64 = 64;

/// The most old calls of free seats that are freed at once: as many as a session makes at most in one poll.
const CALLS: usize = 64;

/// The most jobs that wait at once: one for each seat, and one for each of those streams.
const JOBS: usize = 128;

/// What one session after another has at a seat: the pass, and the seat's bell.
#[derive(Drop)]
pub(crate) struct FreeSeat<S: Site> {
    pub(crate) lease: SeatLease<S>,
    pub(crate) bell: Arc<SharedBell, Global>,
}

/// What a worker is to do with a client's stream.
#[derive(Drop)]
pub(crate) enum Job<S: Site> {
    /// To serve it at this seat.
    Serve(FreeSeat<S>, TcpStream),
    /// To read it to its end: its client was refused.
    Drain(TcpStream),
}

/// The seats that are free, each at its number; how many sessions have ended; how many workers have begun, and how many have ended; the
/// jobs that workers left when they ended; how many streams are read to their ends. It takes no memory once it is made.
#[derive(Drop)]
pub(crate) struct SeatPool<S: Site> {
    free: Vec<Option<FreeSeat<S>>>,
    ended: u64,
    workers_begun: u64,
    workers_ended: u64,
    left: VecDeque<Job<S>>,
    draining: u64,
    // At which seat the next calls are freed: its number, and any multiple of 64.
    tidied: u8,
    ghost seats: { length free.items ≡ 64 },
}

impl<S: Site> SeatPool<S> {
    /// A pool with a free seat for each of the 64 passes, in the order of the seats. Fails only for want of memory.
    pub(crate) fn new(
        alloc: Global,
        passes: Vec<Pass<S>>,
        bells: Vec<Arc<SharedBell, Global>>,
    ) -> Result<SeatPool<S>, Memory> {
        let mut pool = SeatPool::empty(alloc)?;
        for (pass, bell) in passes.into_iter().zip(bells) {
            let lease = SeatLease {
                pass,
                owes_leave: false,
            };
            pool.give(FreeSeat { lease, bell });
        }
        Ok(pool)
    }

    // A pool without a seat. Fails only for want of memory.
    fn empty(alloc: Global) -> Result<SeatPool<S>, Memory> {
        let free = vec_of_none(alloc)?;
        let left = VecDeque::with_capacity(alloc, JOBS)?;
        Ok(SeatPool {
            free,
            ended: 0,
            workers_begun: 0,
            workers_ended: 0,
            left,
            draining: 0,
            tidied: 0,
        })
    }

    /// Takes the free seat with the lowest number, if one is free.
    pub(crate) fn take(&mut self) -> Option<FreeSeat<S>> {
        let number = self.free.iter().position(|seat| seat.is_some())?;
        self.free[number].take()
    }

    /// Takes a seat back.
    pub(crate) fn give(&mut self, seat: FreeSeat<S>)
        ensures { self.new.ended ≡ self.old.ended }
    {
        let number = usize::from(seat.lease.pass.seat().number());
        self.free[number] = Some(seat);
    }

    /// Takes a seat back at which a session has ended.
    pub(crate) fn end(&mut self, seat: FreeSeat<S>)
        ensures { self.new.ended ≡ up self.old.ended }
    {
        self.give(seat);
        self.ended = count_up(self.ended);
    }

    /// Frees a few calls that the pass of a free seat has of epochs which were over at the last call of another pass: at one seat after
    /// another, at each until all are gone.
    pub(crate) fn tidy(&mut self, latest: &Pass<S>) {
        let number = usize::from(self.tidied) % 64;
        let has_more = match &mut self.free[number] {
            Some(seat) => seat.lease.pass.let_go(latest, CALLS),
            None => false,
        };
        if !has_more {
            self.tidied = self.tidied.wrapping_add(1);
        }
    }

    /// Whether `sessions` sessions have ended; never with 0.
    pub(crate) fn is_over(&self, sessions: u64) -> bool
        ensures { IsTrue result ↔ ((0 < sessions) × (sessions ≤ self.now.ended)) }
    {
        sessions > 0 && self.ended >= sessions
    }

    /// The passes of the seats that are free, in the order of the seats. Fails only for want of memory.
    pub(crate) fn into_passes(self, alloc: Global) -> Result<Vec<Pass<S>>, Memory> {
        let mut passes = Vec::with_capacity(alloc, 64)?;
        for seat in self.free {
            if let Some(seat) = seat {
                passes.push(seat.lease.pass)?;
            }
        }
        Ok(passes)
    }
}

impl<S: Site> SeatPool<S> {
    ghost use Rattle.std.specs.Prelude.{◌≡◌, ◌≤◌, ◌↔◌, IsTrue};
    ghost use Rattle.acap_task.specs.Told.{up};

    /// Notes that a worker has begun.
    pub(crate) fn begin_worker(&mut self)
        ensures { self.new.workers_begun ≡ up self.old.workers_begun }
    {
        self.workers_begun = count_up(self.workers_begun);
    }

    /// Notes that a worker has ended, or could not begin.
    pub(crate) fn end_worker(&mut self)
        ensures { self.new.workers_ended ≡ up self.old.workers_ended }
    {
        self.workers_ended = count_up(self.workers_ended);
    }

    /// Whether `workers` workers have begun, once that is known: not where one has ended by then.
    pub(crate) fn have_begun(&self, workers: u64) -> Option<bool> {
        if self.workers_ended > 0 {
            Some(false)
        } else if self.workers_begun >= workers {
            Some(true)
        } else {
            None
        }
    }

    /// Whether `workers` workers have ended.
    pub(crate) fn have_ended(&self, workers: u64) -> bool
        ensures { IsTrue result ↔ workers ≤ self.now.workers_ended }
    {
        self.workers_ended >= workers
    }

    /// Takes a job that a worker left, for another. Where there is no room for it, its seat is free again.
    pub(crate) fn leave(&mut self, job: Job<S>) {
        match self.left.push_back(job) {
            Ok(()) => {}
            Err(full) => self.drop_job(full.value),
        }
    }

    /// The first job that was left, if one was.
    pub(crate) fn left(&mut self) -> Option<Job<S>> {
        self.left.pop_front()
    }

    /// Drops a job: its seat is free again, and its stream is closed.
    pub(crate) fn drop_job(&mut self, job: Job<S>) {
        match job {
            Job::Serve(seat, _stream) => self.give(seat),
            Job::Drain(_stream) => self.end_drain(),
        }
    }

    /// Whether one more stream may be read to its end.
    pub(crate) fn may_drain(&mut self) -> bool {
        let may = self.draining < STREAMS;
        if may {
            self.draining += 1;
        }
        may
    }

    /// Notes that a stream is read to its end no longer.
    pub(crate) fn end_drain(&mut self) {
        self.draining = self.draining.saturating_sub(1);
    }
}

// No seat for each of the 64.
fn vec_of_none<S: Site>(alloc: Global) -> Result<Vec<Option<FreeSeat<S>>>, Memory>
    ensures { IfOk result (λ made. length made.items ≡ 64) }
{
    let mut free = Vec::with_capacity(alloc, 64)?;
    for _ in 0..64u8 {
        free.push(None)?;
    }
    Ok(free)
}
