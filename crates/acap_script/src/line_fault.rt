//! `LineFault`: why a line of a script can't be done.

use acap_entries::Memory;
use thiserror::Error;

/// Why a line of a script can't be done.
#[derive(Clone, Copy, Debug, PartialEq, Eq, Error)]
pub enum LineFault {
    /// It is none, or can't stand where it does.
    #[error("no line of a script, or not one that may stand there")]
    Wrong,
    /// Memory was refused.
    #[error("out of memory")]
    Memory,
}

impl From<Memory> for LineFault {
    ghost use Rattle.std.specs.Prelude.{◌≡◌};
    ghost use Rattle.acap_script.specs.declared.line_fault.LineFault.TheVariants as faults;

    ghost from_gives = { λ memory made. made ≡ faults.Memory };

    fn from(_memory: Memory) -> LineFault {
        LineFault::Memory
    }
}
