//! `Wire`: octets from a client and to it.
ghost use Rattle.std.specs.Prelude.{◌≡◌, ◌<◌, ◌≤◌, ℕ, length, IfOk};
ghost use Rattle.futures.specs.Task.{Covers, Keeps};
ghost use Rattle.futures.specs.Poll.{IfReady, OnPending};

use futures::task::{Context, Poll};
use thiserror::Error;

/// A reader or a writer failed.
#[derive(Clone, Copy, Debug, PartialEq, Eq, Error)]
#[error("a wire failed")]
pub struct WireFault;

/// Octets from a client, by its reader, and to it, by its writer (RFC 2244 section 2). A pending poll has
/// registered, so that the task is polled again.
pub trait Wire: Drop {
    ghost use Rattle.acap_task.specs.Told.{WireTold, after_read, after_write};

    // Holds of each source that a pending read waits for.
    ghost read_needs: { Self → ℕ → Type 0 } = { λ _ _. ⊥ };

    // Holds of each source that a pending write waits for.
    ghost write_needs: { Self → ℕ → Type 0 } = { λ _ _. ⊥ };

    // What the wire reports of its past.
    ghost told: { Self → WireTold };

    /// Reads octets into the first places of the buffer, and says how many; none means that there will be no
    /// more.
    fn poll_read(
        &mut self,
        cx: &mut Context<'_>,
        buffer: &mut [u8],
    ) -> Poll<Result<usize, WireFault>>
        requires { 0 < length buffer.old }
        ensures bound { IfReady result (λ r. IfOk r (λ n. n ≤ length buffer.new)) }
        ensures told { told self.new ≡ after_read (told self.old) result buffer.new }
        ensures registered { OnPending result (Covers cx.new (read_needs self.new)) }
        ensures kept { Keeps cx.old cx.new };

    /// Writes the first of these octets, and says how many. A writer that takes none of them has failed.
    fn poll_write(&mut self, cx: &mut Context<'_>, octets: &[u8]) -> Poll<Result<usize, WireFault>>
        requires { 0 < length octets.now }
        ensures bound { IfReady result (λ r. IfOk r (λ n. n ≤ length octets.now)) }
        ensures told { told self.new ≡ after_write (told self.old) result octets.now }
        ensures registered { OnPending result (Covers cx.new (write_needs self.new)) }
        ensures kept { Keeps cx.old cx.new };
}
