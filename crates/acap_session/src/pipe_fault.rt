//! `PipeFault`: why a session between a reader and a writer ends.

use acap_entries::Memory;
use thiserror::Error;

/// Why a session between a reader and a writer could not go on.
#[derive(Clone, Copy, Debug, PartialEq, Eq, Error)]
pub enum PipeFault {
    /// The reader failed, or was read 1,000,000,000 times.
    #[error("the input can't be read")]
    Read,
    /// The writer failed.
    #[error("the output can't be written")]
    Write,
    /// Memory was refused.
    #[error("out of memory")]
    Memory,
}

impl From<Memory> for PipeFault {
    ghost use Rattle.std.specs.Prelude.{◌≡◌};
    ghost use Rattle.acap_session.specs.declared.pipe_fault.PipeFault.TheVariants as faults;

    ghost from_gives = { λ memory made. made ≡ faults.Memory };

    fn from(_memory: Memory) -> PipeFault {
        PipeFault::Memory
    }
}
