//! A session that its worker runs and its owner gets back.
ghost use Rattle.std.specs.Prelude.{◌≡◌, ◌+◌, ◌≤◌, None, Some, IfSome, IsSomeAnd};
ghost use Rattle.std.specs.Option.{option_map};
ghost use Rattle.acap_serving.specs.Ends.{whose_of};
ghost use Rattle.futures.specs.Poll.{IfReady, OnPending};
ghost use Rattle.futures.specs.Task.{IsArmed, Keeps};

use acap_task::{Bell, Desk, Over, SessionTask, Source, Wire};
use futures::Future;
use futures::task::{Context, Poll};

/// What is polled until it has ended, and may be polled at any time.
pub(crate) trait Advance: Drop {
    ghost use Rattle.std.specs.Prelude.{Option};
    ghost use Rattle.acap_serving.specs.Ends.{Whose};

    // Whose it is, if it is anybody's.
    ghost whose: { Self → Option Whose };

    /// One poll, which leaves it whose it was.
    fn advance(&mut self, cx: &mut Context<'_>) -> Poll<()>
        ensures same { whose self.new ≡ whose self.old }
        ensures armed { OnPending result (IsArmed cx.new) }
        ensures kept { Keeps cx.old cx.new };
}

/// A session, and what is left of it once it has ended. It lies with whoever started the workers, so that none is lost where a worker
/// can't be started.
#[derive(Drop)]
pub(crate) struct LentSession<'u, W: Wire, D: Desk, O: Source, B: Bell> {
    task: SessionTask<'u, W, D, O, B>,
    over: Option<Over<'u, W, D, O, B>>,
}

impl<'u, W: Wire, D: Desk, O: Source, B: Bell> LentSession<'u, W, D, O, B> {
    /// One that has not ended.
    pub(crate) fn new(task: SessionTask<'u, W, D, O, B>) -> LentSession<'u, W, D, O, B>
        ensures { (result.task ≡ task.entry) × (result.over ≡ None) }
    {
        LentSession { task, over: None }
    }

    /// How its session ended. One that has not ended ends with `Memory`, after its Leave. `None` where there is no session.
    pub(crate) fn into_over(self) -> Option<Over<'u, W, D, O, B>>
        ensures over { IfSome self.entry.over (λ o. result ≡ Some o) }
        ensures task { self.entry.over ≡ None → IfSome self.entry.task.running (λ r. IsSomeAnd result (λ o.
            (o.running.parties ≡ r.parties) × (D.seat o.running.desk ≡ D.seat r.desk))) }
    {
        let LentSession { task, over } = self;
        match over {
            Some(over) => Some(over),
            None => task.end(),
        }
    }
}

impl<W: Wire, D: Desk, O: Source, B: Bell> Advance for LentSession<'_, W, D, O, B> {
    ghost use Rattle.std.specs.Prelude.{◌≡◌, ◌+◌, ◌≤◌, None, IfSome, IsSomeAnd};
    ghost use Rattle.std.specs.Option.{option_map};
    ghost use Rattle.acap_serving.specs.Ends.{whose_of};
    ghost use Rattle.futures.specs.Poll.{IfReady, OnPending};
    ghost use Rattle.futures.specs.Task.{IsArmed, Keeps};
    ghost use Rattle.acap_task.specs.Progress.{progress};
    ghost use Rattle.acap_task.specs.Waiting.{Waits};

    ghost whose = { λ s. whose_of (option_map (λ o. (o.running.parties, D.seat o.running.desk)) s.over)
        (option_map (λ r. (r.parties, D.seat r.desk)) s.task.running) };

    fn advance(&mut self, cx: &mut Context<'_>) -> Poll<()>
        ensures same { whose_of (option_map (λ o. (o.running.parties, D.seat o.running.desk)) self.new.over)
            (option_map (λ r. (r.parties, D.seat r.desk)) self.new.task.running)
            ≡ whose_of (option_map (λ o. (o.running.parties, D.seat o.running.desk)) self.old.over)
            (option_map (λ r. (r.parties, D.seat r.desk)) self.old.task.running) }
        ensures over { IfReady result (λ _. self.old.over ≡ None → IfSome self.old.task.running (λ r.
            IsSomeAnd self.new.over (λ o. (o.turns ≡ self.old.task.turns)
            × (o.polls ≡ self.old.task.polls + 1) × (o.running.parties ≡ r.parties)))) }
        ensures count { OnPending result ((self.new.task.turns ≡ self.old.task.turns)
            × IfSome self.old.task.running (λ _. self.new.task.polls ≡ self.old.task.polls + 1)) }
        ensures waits { OnPending result (IfSome self.old.task.running (λ r.
            IsSomeAnd self.new.task.running (λ q.
            (q.parties ≡ r.parties) × Waits q.parties.users.now (W.told r.wire) (W.told q.wire)
            (B.told r.bell) (B.told q.bell) (progress r.progress) (progress q.progress)))) }
        ensures armed { OnPending result (IsArmed cx.new) }
        ensures kept { Keeps cx.old cx.new }
    {
        if self.over.is_some() || self.task.running.is_none() {
            return Poll::Ready(());
        }
        match self.task.poll(cx) {
            Poll::Ready(over) => {
                self.over = Some(over);
                Poll::Ready(())
            }
            Poll::Pending => Poll::Pending,
        }
    }
}
