//! The target of a SEARCH: a dataset or a context.
ghost use Rattle.std.specs.Prelude.{◌≡◌, ◌↔◌, IsTrue};

use acap_entries::{ContextName, Copying, Dataset, Memory};

/// What a SEARCH looks through (RFC 2244 section 6.4.1).
#[derive(Clone, PartialEq, Eq, Drop)]
pub enum Target {
    /// The entries of a dataset, as sent but with its closing `/`: a component `~` stands.
    Dataset(Dataset),
    /// The entries that a context shows.
    Context(ContextName),
}

impl Target {
    /// Whether two of them are equal, as `==` says it. Takes no memory.
    pub fn equals(&self, other: &Target) -> bool
        ensures { IsTrue result ↔ (self.now ≡ other.now) }
    {
        *self == *other
    }
}

impl Copying for Target {
    fn copy(&self) -> Result<Target, Memory> {
        self.clone()
    }
}
