//! How far a command has been read, and the literal that it waits for.

use crate::draft::Draft;
use crate::lexed::Mode;

/// A literal whose octets come next: where its mark begins in the command, and how many octets it has.
#[derive(Clone, Copy)]
pub(crate) struct Literal {
    pub(crate) start: usize,
    pub(crate) count: usize,
}

/// What has been read of a command up to the beginning of its current part, or literal.
#[derive(Drop)]
pub(crate) struct Scan {
    /// What the command is read as.
    pub(crate) mode: Mode,
    /// The tokens so far.
    pub(crate) draft: Draft,
    /// How many octets they took, each CR LF counted.
    pub(crate) octets: usize,
    /// How many octets of the current part have been looked at, and have no CR LF.
    pub(crate) looked: usize,
    /// How many continuations are due up to here.
    pub(crate) waits: usize,
    /// The literal whose octets come next, if no part does.
    pub(crate) literal: Option<Literal>,
}
