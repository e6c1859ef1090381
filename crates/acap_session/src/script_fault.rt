//! `ScriptFault`: why a script ends.

use acap_entries::Memory;
use thiserror::Error;

/// Why a script could not go on.
#[derive(Clone, Copy, Debug, PartialEq, Eq, Error)]
pub enum ScriptFault {
    /// This line, counted from 1, is none, or can't stand where it does.
    #[error("line {0} is no line of a script, or not one that may stand there")]
    Line(u64),
    /// The reader failed, or was read 1,000,000,000 times.
    #[error("the script can't be read")]
    Read,
    /// The writer failed.
    #[error("the output can't be written")]
    Write,
    /// Memory was refused.
    #[error("out of memory")]
    Memory,
}

impl From<Memory> for ScriptFault {
    ghost use Rattle.std.specs.Prelude.{◌≡◌};
    ghost use Rattle.acap_session.specs.declared.script_fault.ScriptFault.TheVariants as faults;

    ghost from_gives = { λ memory made. made ≡ faults.Memory };

    fn from(_memory: Memory) -> ScriptFault {
        ScriptFault::Memory
    }
}
