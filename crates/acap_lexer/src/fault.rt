//! `LexFault` and `LexError`: what is wrong with a line, or no memory.

ghost use Rattle.std.specs.Prelude.{◌≡◌};
ghost use Rattle.acap_lexer.specs.declared.fault.LexError.TheVariants as errors;

use std::alloc::AllocFailed;

/// Memory was refused.
pub use std::alloc::AllocError as Memory;
use thiserror::Error;

/// What is wrong with a line or a command: the first fault from the left (RFC 2244, sections 2.2 and 2.6).
#[derive(Clone, Copy, Debug, PartialEq, Eq, Error)]
pub enum LexFault {
    /// No tag of 1 to 32 octets, followed by a space or the CR LF, begins the command.
    #[error("no tag")]
    BadTag,
    /// An octet that may stand in no token at its place, a space too many or too few, or a string that isn't one.
    #[error("an octet that may not stand there")]
    BadToken,
    /// A `{` that doesn't begin a literal mark at the end of its part.
    #[error("no literal mark")]
    BadLiteral,
    /// The command would have more than 262,144 octets. Nothing is read after it.
    #[error("the command is too long")]
    CommandTooLong,
    /// The first 8,192 octets of a part have no CR LF. Nothing is read after it.
    #[error("the line is too long")]
    LineTooLong,
}

/// Why a part wasn't read.
#[derive(Clone, Copy, PartialEq, Eq)]
pub(crate) enum LexError {
    Memory,
    Fault(LexFault),
}

impl From<Memory> for LexError {
    ghost from_gives = { λ _ e. e ≡ errors.Memory };

    fn from(_error: Memory) -> LexError {
        LexError::Memory
    }
}

impl<T: Drop> From<AllocFailed<T>> for LexError {
    ghost from_gives = { λ _ e. e ≡ errors.Memory };

    fn from(_error: AllocFailed<T>) -> LexError {
        LexError::Memory
    }
}
