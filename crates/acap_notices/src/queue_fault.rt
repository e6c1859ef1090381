//! `QueueFault`: why a notice isn't added.
ghost use Rattle.acap_notices.specs.declared.queue_fault.QueueFault.TheVariants as fault;
ghost use Rattle.std.specs.Prelude.{◌≡◌};

use acap_entries::Memory;
use thiserror::Error;

/// Why a notice wasn't added to a queue.
#[derive(Clone, Copy, Debug, PartialEq, Eq, Error)]
pub enum QueueFault {
    /// As many are waiting as may wait.
    #[error("too many notices are waiting")]
    Full,
    /// Memory was refused.
    #[error("out of memory")]
    Memory,
}

impl From<Memory> for QueueFault {
    ghost from_gives = { λ _ e. e ≡ fault.Memory };

    fn from(_error: Memory) -> QueueFault {
        QueueFault::Memory
    }
}
