//! `Reply`: what is said, and the tag under which it is said.
ghost use Rattle.std.specs.Prelude.{◌≡◌, ◌↔◌, IsTrue};

use crate::said::Said;
use acap_entries::{Copying, Memory, Octets};

/// A reply: what is said, and the tag of the command that it answers (RFC 2244 section 6.2).
#[derive(Clone, PartialEq, Eq, Drop)]
pub struct Reply {
    /// The tag under which it is printed; without one a `*` stands in its place.
    pub tag: Option<Octets>,
    /// What is said.
    pub said: Said,
}

impl Reply {
    ghost use Rattle.std.specs.Prelude.{◌≡◌, None};

    /// A reply without a tag.
    pub fn new(said: Said) -> Reply
        ensures { result ≡ record { tag = None; said = said } }
    {
        Reply { tag: None, said }
    }

    /// Whether two of them are equal, as `==` says it. Takes no memory.
    pub fn equals(&self, other: &Reply) -> bool
        ensures { IsTrue result ↔ (self.now ≡ other.now) }
    {
        *self == *other
    }
}

impl Copying for Reply {
    fn copy(&self) -> Result<Reply, Memory> {
        self.clone()
    }
}
