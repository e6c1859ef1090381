//! `SessionTask`: a session as a future; `Over`: how it ended.
ghost use Rattle.std.specs.Prelude.{◌≡◌, ◌<◌, ◌≤◌, Some, IfSome};
ghost use Rattle.acap_task.specs.Kept.{roles_of};
ghost use Rattle.acap_task.specs.Progress.{progress};
ghost use Rattle.acap_task.specs.Waiting.{IsOver, EndsAt};

use crate::bell::Bell;
use crate::conn::Conn;
use crate::desk::Desk;
use crate::running::Running;
use crate::source::Source;
use crate::wire::Wire;
use acap_entries::Octets;
use acap_login::Users;
use futures::Future;
use futures::task::{Context, Poll};
use std::alloc::Global;

/// How a session ended.
#[derive(Clone, Copy, Debug, PartialEq, Eq)]
pub enum TaskEnd {
    /// The session closed, or its client sent no more and was sent all.
    Ended,
    /// The reader failed.
    ReadFault,
    /// The writer failed.
    WriteFault,
    /// The task was polled as often as it may be.
    TurnsSpent,
    /// Memory was refused.
    Memory,
}

/// A session that ended: how, the four that it stood on, and its steps. Its type keeps how what these report
/// fits the steps.
#[derive(Drop)]
pub struct Over<'u, W: Wire, D: Desk, S: Source, B: Bell> {
    /// The session, with its steps and the four that it stood on.
    pub running: Running<'u, W, D, S, B>,
    /// How it ended.
    pub end: TaskEnd,
    /// How often it was polled.
    pub polls: u64,
    /// How often it might be polled.
    pub turns: u64,
    ghost bounded: { polls ≤ turns },
    ghost over: { ∥ IsOver (roles_of running.parties)
        (W.told running.wire) (D.told running.desk) (S.told running.source) (B.told running.bell)
        (progress running.progress) end polls turns ∥₁ },
}

/// A session that runs, as a future (RFC 2244 section 2). Each poll makes at most 64 rounds; the last that it
/// may have ends it. Its type keeps how what its wire, desk, source and bell report fits its steps.
#[derive(Drop)]
pub struct SessionTask<'u, W: Wire, D: Desk, S: Source, B: Bell> {
    /// The session, until it has ended.
    pub running: Option<Running<'u, W, D, S, B>>,
    /// How often it was polled.
    pub polls: u64,
    /// How often it may be polled.
    pub turns: u64,
    ghost bounded: { polls < turns },
}

impl<'u, W: Wire, D: Desk, S: Source, B: Bell> SessionTask<'u, W, D, S, B> {
    ghost use Rattle.std.specs.Prelude.{◌≡◌, ◌<◌, IfSome, IsSome};
    ghost use Rattle.acap_task.specs.Kept.{IsUntold};

    /// A session at that host, over four that have reported nothing yet, which may be polled `turns` times. Where
    /// memory is refused for it, it ends at its first poll.
    pub fn new(
        alloc: Global,
        conn: Conn<W, S>,
        desk: D,
        bell: B,
        users: &'u Users,
        host: Octets,
        turns: u64,
    ) -> SessionTask<'u, W, D, S, B>
        requires untold { IsUntold (W.told conn.wire) (D.told desk) (S.told conn.source) (B.told bell) }
        requires turns { 0 < turns }
        ensures count { (result.polls ≡ 0) × (result.turns ≡ turns) × IsSome result.running }
        ensures parties { IfSome result.running (λ r. (r.parties.users ≡ users.entry)
            × (r.parties.host ≡ host) × (r.parties.user ≡ conn.user)) }
        ensures seat { IfSome result.running (λ r. D.seat r.desk ≡ D.seat desk) }
    {
        SessionTask {
            running: Some(Running::new(alloc, conn, desk, bell, users, host)),
            polls: 0,
            turns,
        }
    }
}

impl<'u, W: Wire, D: Desk, S: Source, B: Bell> SessionTask<'u, W, D, S, B> {
    ghost use Rattle.std.specs.Prelude.{◌≡◌, ◌≤◌, IfSome, IsSomeAnd};
    ghost use Rattle.acap_task.specs.Progress.{progress};
    ghost use Rattle.acap_task.specs.Waiting.{EndsAt};
    ghost use Rattle.acap_task.specs.declared.task.TaskEnd.TheVariants as ends;

    // The end of the session that runs, after `polls` polls: its seat is left, if it has one.
    fn end_at(&mut self, end: TaskEnd, polls: u64) -> Over<'u, W, D, S, B>
        requires polls { polls ≤ self.old.turns }
        requires ends { IsSomeAnd self.old.running (λ r. EndsAt end r.parties.users.now (W.told r.wire)
            (progress r.progress) polls self.old.turns) }
        ensures count { (result.turns ≡ self.old.turns) × (result.polls ≡ polls) × (result.end ≡ end) }
        ensures same { IfSome self.old.running (λ r. (result.running.parties ≡ r.parties)
            × (D.seat result.running.desk ≡ D.seat r.desk)) }
    {
        let mut running = self.running.take().unwrap();
        running.leave();
        Over {
            running,
            end,
            polls,
            turns: self.turns,
        }
    }

    /// Ends the session before its next poll, for want of memory: its seat is left, if it has one. `None`
    /// where it has ended already.
    pub fn end(self) -> Option<Over<'u, W, D, S, B>>
        ensures { IfSome self.entry.running (λ r. IsSomeAnd result (λ over. (over.end ≡ ends.Memory)
            × (over.running.parties ≡ r.parties) × (D.seat over.running.desk ≡ D.seat r.desk))) }
    {
        let mut task = self;
        let polls = task.polls;
        if task.running.is_none() {
            return None;
        }
        Some(task.end_at(TaskEnd::Memory, polls))
    }
}

impl<'u, W: Wire, D: Desk, S: Source, B: Bell> Future for SessionTask<'u, W, D, S, B> {
    ghost use Rattle.std.specs.Prelude.{◌≡◌, ◌<◌, ◌≤◌, ◌+◌, IfSome, IsSomeAnd};
    ghost use Rattle.futures.specs.Poll.{IfReady, OnPending};
    ghost use Rattle.futures.specs.Task.{Covers, Keeps};
    ghost use Rattle.acap_task.specs.Progress.{progress};
    ghost use Rattle.acap_task.specs.Waiting.{Waits};

    type Output = Over<'u, W, D, S, B>;

    ghost gives = { λ t over. (over.turns ≡ t.turns) × (t.polls < over.polls)
        × IfSome t.running (λ r. over.running.parties ≡ r.parties) };

    /// One poll, which is counted. Where it leaves the session waiting, octets wait for a writer that wasn't
    /// ready; or nothing is left to be done until its client or its bell is ready; or at least 64 steps were
    /// made, so that others come to their turns. The last poll that the session may have ends it.
    fn poll(&mut self, cx: &mut Context<'_>) -> Poll<Over<'u, W, D, S, B>>
        ensures over { IfReady result (λ over. (over.turns ≡ self.old.turns)
            × (over.polls ≡ self.old.polls + 1)
            × IfSome self.old.running (λ r. over.running.parties ≡ r.parties)) }
        ensures seat { IfReady result (λ over.
            IfSome self.old.running (λ r. D.seat over.running.desk ≡ D.seat r.desk)) }
        ensures count { OnPending result ((self.new.turns ≡ self.old.turns)
            × (self.old.polls ≤ self.new.polls)
            × IfSome self.old.running (λ _. self.new.polls ≡ self.old.polls + 1)) }
        ensures waits { OnPending result (IfSome self.old.running (λ r. IsSomeAnd self.new.running (λ q.
            (q.parties ≡ r.parties) × (D.seat q.desk ≡ D.seat r.desk)
            × Waits q.parties.users.now (W.told r.wire) (W.told q.wire)
            (B.told r.bell) (B.told q.bell) (progress r.progress) (progress q.progress)))) }
        ensures registered { OnPending result (Covers cx.new (λ _. ⊥)) }
        ensures kept { Keeps cx.old cx.new }
    {
        let turns = self.turns;
        let polls = self.polls + 1;
        let Some(running) = &mut self.running else {
            return cx.yield_now();
        };
        match running.advance(cx) {
            Poll::Ready(end) => Poll::Ready(self.end_at(end, polls)),
            Poll::Pending if polls < turns => {
                self.polls = polls;
                Poll::Pending
            }
            Poll::Pending => Poll::Ready(self.end_at(TaskEnd::TurnsSpent, polls)),
        }
    }
}
