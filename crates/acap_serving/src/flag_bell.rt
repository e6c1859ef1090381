//! `FlagBell`: the bell of one session, a flag that other threads raise.
ghost use Rattle.std.specs.Prelude.{◌≡◌, None, true, false};
ghost use Rattle.futures.specs.Poll.{IfReady, OnPending};
ghost use Rattle.futures.specs.Task.{Covers, Keeps};
ghost use Rattle.acap_serving.specs.Devices.{silent_bell};

use acap_entries::Memory;
use acap_task::{Bell, Ring, count_up};
use futures::spin::lock;
use futures::task::{Context, Poll, Source, Waker};
use std::alloc::Global;
use std::sync::{Arc, Mutex};

// Whether a bell has rung since it was last looked at, and who waits for it to ring.
#[derive(Drop)]
struct Flag {
    has_rung: bool,
    waiting: Option<Waker>,
    ghost nobody: { has_rung ≡ true → waiting ≡ None },
}

impl Flag {
    // It rings, and gives who is to be woken.
    fn strike(&mut self) -> Option<Waker>
        ensures { (self.new.has_rung ≡ true) × (result ≡ self.old.waiting) }
    {
        let waiting = self.waiting.take();
        self.has_rung = true;
        waiting
    }

    // Whether it has rung since it was last looked at. If it hasn't, the task is woken once it does.
    fn poll(&mut self, source: &Source, cx: &mut Context<'_>) -> Poll<()>
        ensures rung { IfReady result (λ _. (self.old.has_rung ≡ true) × (self.new.has_rung ≡ false)) }
        ensures silent { OnPending result (self.old.has_rung ≡ false) }
        ensures registered { OnPending result (Covers cx.new (λ s. s ≡ source.now.id)) }
        ensures kept { Keeps cx.old cx.new }
    {
        if self.has_rung {
            self.has_rung = false;
            return Poll::Ready(());
        }
        cx.register(source, &mut self.waiting)
    }
}

/// A bell that any thread rings. It takes no memory once it is made, and rings that nobody has heard yet are one.
#[derive(Drop)]
pub struct SharedBell {
    source: Source,
    flag: Mutex<Flag>,
}

impl SharedBell {
    /// A bell that hasn't rung. Fails only for want of memory.
    pub(crate) fn new(alloc: Global) -> Result<Arc<SharedBell, Global>, Memory> {
        let flag = Flag {
            has_rung: false,
            waiting: None,
        };
        let bell = SharedBell {
            source: Source::new(),
            flag: Mutex::new(flag),
        };
        Ok(Arc::new(alloc, bell)?)
    }

    // It rings, and gives who is to be woken.
    fn strike(&self) -> Option<Waker> {
        match lock(&self.flag) {
            Some(mut flag) => flag.strike(),
            None => None,
        }
    }

    /// Rings it. Who waits for it is woken once its lock is free, since a thread that is woken looks at the flag at once.
    pub(crate) fn ring(&self) {
        let waiting = self.strike();
        drop(waiting);
    }

    // Whether it has rung since it was last looked at. If it hasn't, the task is woken once it does.
    fn poll(&self, cx: &mut Context<'_>) -> Poll<()>
        ensures registered { OnPending result (Covers cx.new (λ s. s ≡ self.now.source.id)) }
        ensures kept { Keeps cx.old cx.new }
    {
        let Some(mut flag) = lock(&self.flag) else {
            return cx.yield_now();
        };
        flag.poll(&self.source, cx)
    }
}

/// A bell that is shared, as one session hears it. Whoever rings it is in another thread, so it reports no ring.
#[derive(Drop)]
pub struct FlagBell {
    bell: Arc<SharedBell, Global>,
    waits: u64,
}

impl FlagBell {
    /// A bell that was not listened to yet.
    pub fn new(bell: Arc<SharedBell, Global>) -> FlagBell
        ensures { ⟦<FlagBell as Bell>⟧.told result ≡ silent_bell }
    {
        FlagBell { bell, waits: 0 }
    }

    /// The bell, for the next session of its seat.
    pub(crate) fn into_shared(self) -> Arc<SharedBell, Global> {
        self.bell
    }
}

impl Bell for FlagBell {
    ghost use Rattle.std.specs.Arc.{arc_value};

    ghost needs = { λ b s. s ≡ (arc_value b.bell).source.id };

    ghost told = { λ b. record { rings = None; ended = false; waits = b.waits } };

    fn poll_ring(&mut self, cx: &mut Context<'_>) -> Poll<Ring> {
        match self.bell.poll(cx) {
            Poll::Ready(()) => Poll::Ready(Ring::Rung),
            Poll::Pending => {
                self.waits = count_up(self.waits);
                Poll::Pending
            }
        }
    }
}
