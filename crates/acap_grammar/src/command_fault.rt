//! `CommandFault`: what is wrong with a command.

use thiserror::Error;

/// Why tokens stand for no command: the first fault from the left (RFC 2244 sections 2.2 and 8).
#[derive(Clone, Copy, Debug, PartialEq, Eq, Error)]
pub enum CommandFault {
    /// No verb, or none that is known.
    #[error("unknown command")]
    UnknownCommand,
    /// Another shape than the verb's: a token of the wrong kind, one too few or one too many.
    #[error("wrong arguments")]
    Arguments,
    /// What may stand once stands again: a modifier, a path of a STORE, an attribute of an entry.
    #[error("not permitted twice")]
    NotPermittedTwice,
    /// A string that is no such name.
    #[error("bad name")]
    BadName,
    /// A string that is no time.
    #[error("bad time")]
    BadTime,
    /// A string that is no comparator, or none that may stand there.
    #[error("bad comparator")]
    BadComparator,
    /// A key of more than 32 levels.
    #[error("too many levels of keys")]
    TooDeep,
    /// More items than may stand in one list.
    #[error("too many items")]
    TooMany,
}
