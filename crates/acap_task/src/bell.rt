//! `Bell`: wakes a session when notices wait; `Ringer`: wakes those at other seats.
ghost use Rattle.std.specs.Prelude.{◌≡◌, ℕ};
ghost use Rattle.futures.specs.Task.{Covers, Keeps};
ghost use Rattle.futures.specs.Poll.{OnPending};

use futures::task::{Context, Poll};

/// What a bell says.
#[derive(Clone, Copy, Debug, PartialEq, Eq)]
pub enum Ring {
    /// Notices wait for the session's user.
    Rung,
    /// It will not ring any more.
    End,
}

/// What rings where notices wait for a session's user (RFC 2244 section 6.5). A pending poll has registered,
/// so that the task is polled again.
pub trait Bell: Drop {
    ghost use Rattle.acap_task.specs.Told.{BellTold, after_ring};

    // Holds of each source that a pending poll waits for.
    ghost needs: { Self → ℕ → Type 0 } = { λ _ _. ⊥ };

    // What the bell reports of its past.
    ghost told: { Self → BellTold };

    /// A ring, or that there will be none any more.
    fn poll_ring(&mut self, cx: &mut Context<'_>) -> Poll<Ring>
        ensures told { told self.new ≡ after_ring (told self.old) result }
        ensures registered { OnPending result (Covers cx.new (needs self.new)) }
        ensures kept { Keeps cx.old cx.new };
}

/// What rings the bells of seats where notices wait (RFC 2244 section 6.5).
pub trait Ringer {
    /// Rings the bells of these seats, a bit for each, the lowest for the first. A ring may be lost, where
    /// memory is refused for it.
    fn ring(&self, seats: u64);
}
