//! `StoryFault`: why nothing is shown of a story.

use acap_entries::Memory;
use acap_notices::HeldFault;
use acap_session::WorldFault;
use thiserror::Error;

/// Why nothing is shown of a story.
#[derive(Clone, Copy, Debug, PartialEq, Eq, Error)]
pub enum StoryFault {
    /// Memory was refused.
    #[error("out of memory")]
    Memory,
    /// No session is open at that seat, or one is where one opens.
    #[error("no session is open at the seat, or one is where one opens")]
    Seat,
    /// An entry has two rows in one list.
    #[error("an entry has two rows in one list")]
    Twice,
    /// A notice doesn't fit what its client holds.
    #[error("a notice does not fit what its client holds")]
    Misfit,
    /// The last step isn't one in which an UPDATECONTEXT of the context ends.
    #[error("the last step does not end an UPDATECONTEXT of the context")]
    Untold,
    /// The client didn't begin with a whole list.
    #[error("the client did not begin with a whole list")]
    Unbegun,
}

impl From<Memory> for StoryFault {
    fn from(_memory: Memory) -> StoryFault {
        StoryFault::Memory
    }
}

impl From<WorldFault> for StoryFault {
    fn from(fault: WorldFault) -> StoryFault {
        if fault == WorldFault::Memory {
            StoryFault::Memory
        } else {
            StoryFault::Seat
        }
    }
}

impl From<HeldFault> for StoryFault {
    fn from(fault: HeldFault) -> StoryFault {
        if fault == HeldFault::Memory {
            StoryFault::Memory
        } else {
            StoryFault::Misfit
        }
    }
}
