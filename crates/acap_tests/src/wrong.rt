//! What can go wrong in a trial.

use acap_commands::Fault;
use acap_entries::{Memory, NameFault};
use acap_notices::HeldFault;

/// What went wrong in a trial.
#[derive(Clone, Copy, Debug, PartialEq, Eq)]
pub(crate) enum Wrong {
    /// Memory was refused.
    Memory,
    /// A line isn't read as a command.
    Unread,
    /// The machine doesn't perform an event.
    Fault,
    /// Another answer than the ones that may come.
    Answer,
    /// An entry has two rows in one list.
    Twice,
    /// A notice doesn't fit what its client holds.
    Misfit,
    /// The server has freed a context.
    Freed,
    /// Something was sent though nothing was waiting, or nothing though something was.
    Waiting,
    /// An UPDATECONTEXT doesn't end with a moment for each context, or a drain has one.
    Moments,
    /// A client holds other rows than a search finds.
    Held,
    /// Too many changes were refused.
    Refused,
    /// A search over the context finds other rows than one over its dataset.
    Range,
}

impl From<Memory> for Wrong {
    fn from(_memory: Memory) -> Wrong {
        Wrong::Memory
    }
}

impl From<NameFault> for Wrong {
    fn from(fault: NameFault) -> Wrong {
        if fault == NameFault::Memory {
            Wrong::Memory
        } else {
            Wrong::Unread
        }
    }
}

impl From<Fault> for Wrong {
    fn from(fault: Fault) -> Wrong {
        if fault == Fault::Memory {
            Wrong::Memory
        } else {
            Wrong::Fault
        }
    }
}

impl From<HeldFault> for Wrong {
    fn from(fault: HeldFault) -> Wrong {
        if fault == HeldFault::Memory {
            Wrong::Memory
        } else {
            Wrong::Misfit
        }
    }
}

/// What went wrong in a test that answers whether all its rows hold.
pub(crate) fn trouble_in(holds: Result<bool, Wrong>) -> Option<Wrong> {
    match holds {
        Ok(true) => None,
        Ok(false) => Some(Wrong::Held),
        Err(wrong) => Some(wrong),
    }
}
