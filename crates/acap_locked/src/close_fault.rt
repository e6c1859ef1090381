//! `CloseFault`: why a book isn't closed.
use acap_entries::{Memory, Seat};
use std::fmt;
use thiserror::Error;

/// Why a book is not closed; it and the passes are gone.
#[derive(Clone, Copy, PartialEq, Eq, Error)]
pub enum CloseFault {
    /// No pass of that seat was handed in, the least such seat.
    #[error("the pass of a seat is missing")]
    PassMissing(Seat),
    /// A pass of that seat doesn't hold what the history has of it, the least such seat.
    #[error("a pass does not hold what the history has of its seat")]
    Unequal(Seat),
    /// Memory was refused.
    #[error("out of memory")]
    Memory,
}

impl From<Memory> for CloseFault {
    ghost use Rattle.std.specs.Prelude.{◌≡◌};
    ghost use Rattle.acap_locked.specs.declared.close_fault.CloseFault.TheVariants as fault;

    ghost from_gives = { λ memory made. made ≡ fault.Memory };

    fn from(_memory: Memory) -> CloseFault {
        CloseFault::Memory
    }
}

impl fmt::Debug for CloseFault {
    fn fmt<W: fmt::Write>(&self, f: &mut fmt::Formatter<W>) -> fmt::Result {
        fmt::Display::fmt(self, f)
    }
}
