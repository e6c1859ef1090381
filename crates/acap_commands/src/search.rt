//! `Search`: the arguments of a SEARCH.
ghost use Rattle.std.specs.Prelude.{◌≡◌, ◌↔◌, IsTrue};

use crate::key::Key;
use crate::search_modifiers::SearchModifiers;
use crate::target::Target;
use acap_entries::{Copying, Memory};

/// A SEARCH: what is looked through, what is wanted, and what is printed of it (RFC 2244 section 6.4.1).
#[derive(Clone, Drop)]
pub struct Search {
    /// What is looked through.
    pub target: Target,
    /// How, and what is printed.
    pub modifiers: SearchModifiers,
    /// Which entries are wanted.
    pub key: Key,
}

impl Search {
    /// Whether two of them are equal. Takes no memory.
    pub fn equals(&self, other: &Search) -> bool
        ensures { IsTrue result ↔ (self.now ≡ other.now) }
    {
        self.target.equals(&other.target)
            && self.modifiers.equals(&other.modifiers)
            && self.key.equals(&other.key)
    }
}

impl Copying for Search {
    fn copy(&self) -> Result<Search, Memory> {
        self.clone()
    }
}
