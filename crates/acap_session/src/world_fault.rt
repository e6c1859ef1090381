//! `WorldFault`: why a step of the world can't be made.

use acap_entries::Memory;
use acap_script::LineFault;
use thiserror::Error;

/// Why a step of the world can't be made.
#[derive(Clone, Copy, Debug, PartialEq, Eq, Error)]
pub enum WorldFault {
    /// No session is open at the seat.
    #[error("no session is open at the seat")]
    NoSeat,
    /// A session is open at the seat.
    #[error("a session is open at the seat")]
    Taken,
    /// Memory was refused.
    #[error("out of memory")]
    Memory,
}

impl From<Memory> for WorldFault {
    ghost use Rattle.std.specs.Prelude.{◌≡◌};
    ghost use Rattle.acap_session.specs.declared.world_fault.WorldFault.TheVariants as faults;

    ghost from_gives = { λ memory made. made ≡ faults.Memory };

    fn from(_memory: Memory) -> WorldFault {
        WorldFault::Memory
    }
}

impl From<WorldFault> for LineFault {
    ghost use Rattle.std.specs.Prelude.{◌≡◌};
    ghost use Rattle.acap_session.specs.Script.{fault_of};

    ghost from_gives = { λ fault made. made ≡ fault_of fault };

    fn from(fault: WorldFault) -> LineFault {
        match fault {
            WorldFault::NoSeat | WorldFault::Taken => LineFault::Wrong,
            WorldFault::Memory => LineFault::Memory,
        }
    }
}
