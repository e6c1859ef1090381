//! A poll of a session: rounds of reading, turns and writing, until something isn't ready.
use crate::bell::{Bell, Ring};
use crate::desk::Desk;
use crate::running::Running;
use crate::source::Source;
use crate::task::TaskEnd;
use crate::wire::{Wire, WireFault};
use futures::ready;
use futures::task::{Context, Poll};

// How many rounds are made in a poll, so that others come to their turns.
const ROUNDS_A_POLL: usize = 64;

impl<W: Wire, D: Desk, S: Source, B: Bell> Running<'_, W, D, S, B> {
    ghost use Rattle.std.specs.Prelude.{◌≡◌, [], false};
    ghost use Rattle.futures.specs.Poll.{IfReady, OnPending};
    ghost use Rattle.futures.specs.Task.{IsArmed, Keeps};
    ghost use Rattle.acap_task.specs.Progress.{HasRoom, progress};
    ghost use Rattle.acap_task.specs.Waiting.{Comes, EndsAs, Flushes, Hears, IfWritten, IsQuiet, Later, Stalls};
    ghost use Rattle.acap_task.specs.Waiting.{Stops, Waits};

    // Writes all that waits to be written.
    fn flush(&mut self, cx: &mut Context<'_>) -> Poll<Result<(), WireFault>>
        ensures parties { self.new.parties ≡ self.old.parties }
        ensures seat { D.seat self.new.desk ≡ D.seat self.old.desk }
        ensures bell { self.new.bell ≡ self.old.bell }
        ensures flushed { Flushes (W.told self.old.wire) (W.told self.new.wire)
            (progress self.old.progress) (progress self.new.progress) }
        ensures written { IfReady result (λ r. IfWritten r (W.told self.old.wire) (W.told self.new.wire)
            (progress self.new.progress)) }
        ensures stuck { OnPending result
            (Stalls (W.told self.old.wire) (W.told self.new.wire) (progress self.new.progress)) }
        ensures armed { OnPending result (IsArmed cx.new) }
        ensures kept { Keeps cx.old cx.new }
    {
        while !self.progress.unsent.as_slice().is_empty() {
            match ready!(self.write(cx)) {
                Ok(0) | Err(_) => return Poll::Ready(Err(WireFault)),
                Ok(_) => {}
            }
        }
        Poll::Ready(Ok(()))
    }

    // Listens to the client.
    fn hear(&mut self, cx: &mut Context<'_>) -> Poll<Option<TaskEnd>>
        requires room { HasRoom self.old.progress }
        requires whole { self.old.progress.lost ≡ false }
        requires sent { self.old.progress.unsent ≡ [] }
        requires quiet { IsQuiet self.old.parties.users.now self.old.progress.session }
        ensures parties { self.new.parties ≡ self.old.parties }
        ensures seat { D.seat self.new.desk ≡ D.seat self.old.desk }
        ensures comes { IfReady result (λ end. Comes end self.new.parties.users.now (W.told self.new.wire)
            (progress self.old.progress) (progress self.new.progress)) }
        ensures hears { OnPending result (Hears self.new.parties.users.now
            (W.told self.old.wire) (W.told self.new.wire) (progress self.new.progress)) }
        ensures later { Later (W.told self.old.wire) (W.told self.new.wire)
            (B.told self.old.bell) (B.told self.new.bell) }
        ensures bell { self.new.bell ≡ self.old.bell }
        ensures armed { OnPending result (IsArmed cx.new) }
        ensures kept { Keeps cx.old cx.new }
    {
        if !self.is_readable() {
            return Poll::Ready(Some(TaskEnd::Memory));
        }
        match self.read(cx) {
            Poll::Ready(Ok(0)) => Poll::Ready(Some(TaskEnd::Ended)),
            Poll::Ready(Ok(_)) if self.progress.lost => Poll::Ready(Some(TaskEnd::Memory)),
            Poll::Ready(Ok(_)) => Poll::Ready(None),
            Poll::Ready(Err(_)) => Poll::Ready(Some(TaskEnd::ReadFault)),
            Poll::Pending => Poll::Pending,
        }
    }

    // Listens to the bell, and then to the client.
    fn listen(&mut self, cx: &mut Context<'_>) -> Poll<Option<TaskEnd>>
        requires room { HasRoom self.old.progress }
        requires whole { self.old.progress.lost ≡ false }
        requires sent { self.old.progress.unsent ≡ [] }
        requires quiet { IsQuiet self.old.parties.users.now self.old.progress.session }
        ensures parties { self.new.parties ≡ self.old.parties }
        ensures seat { D.seat self.new.desk ≡ D.seat self.old.desk }
        ensures comes { IfReady result (λ end. Comes end self.new.parties.users.now (W.told self.new.wire)
            (progress self.old.progress) (progress self.new.progress)) }
        ensures stops { OnPending result (Stops self.new.parties.users.now
            (W.told self.old.wire) (W.told self.new.wire) (B.told self.old.bell) (B.told self.new.bell)
            (progress self.new.progress)) }
        ensures later { Later (W.told self.old.wire) (W.told self.new.wire)
            (B.told self.old.bell) (B.told self.new.bell) }
        ensures armed { OnPending result (IsArmed cx.new) }
        ensures kept { Keeps cx.old cx.new }
    {
        match self.ring(cx) {
            Poll::Ready(Ring::Rung) => Poll::Ready(None),
            _ => self.hear(cx),
        }
    }

    // Writes all that waits to be written, and then makes a turn, or listens where nothing is next.
    fn round(&mut self, cx: &mut Context<'_>) -> Poll<Option<TaskEnd>>
        ensures parties { self.new.parties ≡ self.old.parties }
        ensures seat { D.seat self.new.desk ≡ D.seat self.old.desk }
        ensures comes { IfReady result (λ end. Comes end self.new.parties.users.now (W.told self.new.wire)
            (progress self.old.progress) (progress self.new.progress)) }
        ensures stops { OnPending result (Stops self.new.parties.users.now
            (W.told self.old.wire) (W.told self.new.wire) (B.told self.old.bell) (B.told self.new.bell)
            (progress self.new.progress)) }
        ensures later { Later (W.told self.old.wire) (W.told self.new.wire)
            (B.told self.old.bell) (B.told self.new.bell) }
        ensures armed { OnPending result (IsArmed cx.new) }
        ensures kept { Keeps cx.old cx.new }
    {
        if ready!(self.flush(cx)).is_err() {
            return Poll::Ready(Some(TaskEnd::WriteFault));
        }
        if self.progress.lost {
            return Poll::Ready(Some(TaskEnd::Memory));
        }
        if self.progress.session.is_closed() {
            return Poll::Ready(Some(TaskEnd::Ended));
        }
        match self.turn() {
            Err(_) => Poll::Ready(Some(TaskEnd::Memory)),
            Ok(true) => Poll::Ready(None),
            Ok(false) => self.listen(cx),
        }
    }

    /// Goes on until something isn't ready, at most 64 rounds.
    pub(crate) fn advance(&mut self, cx: &mut Context<'_>) -> Poll<TaskEnd>
        ensures parties { self.new.parties ≡ self.old.parties }
        ensures seat { D.seat self.new.desk ≡ D.seat self.old.desk }
        ensures ends { IfReady result (λ end. EndsAs end self.new.parties.users.now (W.told self.new.wire)
            (progress self.new.progress)) }
        ensures waits { OnPending result (Waits self.new.parties.users.now
            (W.told self.old.wire) (W.told self.new.wire) (B.told self.old.bell) (B.told self.new.bell)
            (progress self.old.progress) (progress self.new.progress)) }
        ensures armed { OnPending result (IsArmed cx.new) }
        ensures kept { Keeps cx.old cx.new }
    {
        for _ in 0..ROUNDS_A_POLL {
            if let Some(end) = ready!(self.round(cx)) {
                return Poll::Ready(end);
            }
        }
        cx.yield_now()
    }
}
