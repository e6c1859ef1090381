//! `GrammarFault`: why a command isn't read: its fault, or no memory.

use crate::command_fault::CommandFault;
use acap_entries::Memory;
use std::alloc::AllocFailed;
use thiserror::Error;

/// Why a command wasn't read: a fault of its own, or want of memory.
#[derive(Clone, Copy, Debug, PartialEq, Eq, Error)]
pub enum GrammarFault {
    /// The first fault from the left (RFC 2244 sections 2.2 and 8).
    #[error("{0}")]
    Fault(CommandFault),
    /// Memory was refused.
    #[error("out of memory")]
    Memory,
}

impl From<Memory> for GrammarFault {
    ghost use Rattle.std.specs.Prelude.{◌≡◌};
    ghost use Rattle.acap_grammar.specs.declared.grammar_fault.GrammarFault.TheVariants as error;

    ghost from_gives = { λ _ e. e ≡ error.Memory };

    fn from(_error: Memory) -> GrammarFault {
        GrammarFault::Memory
    }
}

impl<T: Drop> From<AllocFailed<T>> for GrammarFault {
    ghost use Rattle.std.specs.Prelude.{◌≡◌};
    ghost use Rattle.acap_grammar.specs.declared.grammar_fault.GrammarFault.TheVariants as error;

    ghost from_gives = { λ _ e. e ≡ error.Memory };

    fn from(_error: AllocFailed<T>) -> GrammarFault {
        GrammarFault::Memory
    }
}
