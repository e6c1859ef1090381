//! `Told`: one thing that a client is sent of a context: a notice, a MODTIME, or that it was freed.

use crate::notice::Notice;
use acap_entries::{ContextName, Copying, Memory, Moment};

/// What a client is sent of one of its contexts (RFC 2244 section 6.5).
#[derive(Clone, PartialEq, Eq, Drop)]
pub enum Told {
    /// A change of an entry.
    Note(ContextName, Notice),
    /// All changes up to a moment have been sent: the end of an UPDATECONTEXT.
    Upto(ContextName, Moment),
    /// The server has freed the context: nothing more will be sent of it.
    Freed(ContextName),
}

impl Copying for Told {
    fn copy(&self) -> Result<Told, Memory> {
        self.clone()
    }
}
