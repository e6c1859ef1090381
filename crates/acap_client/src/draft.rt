//! A line that is being read: its tokens so far.
ghost use Rattle.acap_client.specs.Drafting.{IsDraft};

use crate::place::Place;
use acap_entries::{Copying, Memory, Octets};
use std::alloc::Global;

/// A token of a line from the server (RFC 2244 section 2.2).
#[derive(Clone, Drop)]
pub enum Token {
    /// A word, as `OK`, `NIL` or a number.
    Word(Octets),
    /// A string: the octets that it stands for, whether it was quoted or a literal.
    Text(Octets),
    /// `(`
    Open,
    /// `)`
    Close,
}

impl Copying for Token {
    fn copy(&self) -> Result<Token, Memory> {
        self.clone()
    }
}

/// The line that is being read: its tokens so far, the octets so far of the one that has begun, how many parentheses
/// are open, and where the last octet left the reader.
#[derive(Drop)]
pub(crate) struct Draft {
    pub(crate) tokens: Vec<Token>,
    pub(crate) word: Vec<u8>,
    pub(crate) depth: usize,
    pub(crate) place: Place,
}
