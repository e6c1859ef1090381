//! `HeldFault`: why a notice doesn't fit the rows that are held.
ghost use Rattle.acap_notices.specs.declared.held_fault.HeldFault.TheVariants as fault;
ghost use Rattle.std.specs.Prelude.{◌≡◌};

use acap_entries::Memory;
use std::alloc::AllocFailed;
use thiserror::Error;

/// Why a notice wasn't applied.
#[derive(Clone, Copy, Debug, PartialEq, Eq, Error)]
pub enum HeldFault {
    /// It doesn't fit what is held.
    #[error("the notice does not fit the list")]
    Misfit,
    /// Memory was refused.
    #[error("out of memory")]
    Memory,
}

impl From<Memory> for HeldFault {
    ghost from_gives = { λ _ e. e ≡ fault.Memory };

    fn from(_error: Memory) -> HeldFault {
        HeldFault::Memory
    }
}

impl<T: Drop> From<AllocFailed<T>> for HeldFault {
    ghost from_gives = { λ _ e. e ≡ fault.Memory };

    fn from(_error: AllocFailed<T>) -> HeldFault {
        HeldFault::Memory
    }
}
