//! `Batch`: what a client is sent of one context at once.

use crate::notice::Notice;
use acap_entries::{ContextName, Copying, Memory, Moment, Shared};

/// How what a client is sent of a context ends (RFC 2244 section 6.5).
#[derive(Clone, Copy, PartialEq, Eq)]
pub enum Ending {
    /// All changes up to a moment have been sent: the end of an UPDATECONTEXT.
    Upto(Moment),
    /// The server has freed the context: nothing more will be sent of it.
    Freed,
}

/// What a client is sent of one of its contexts at once: notices, which others may hold too, and an ending, if
/// there is one (RFC 2244 section 6.5). A copy holds the same notices.
#[derive(Clone, Drop)]
pub struct Batch {
    /// The name of the context.
    pub context: ContextName,
    /// The notices, the oldest first.
    pub notices: Shared<Notice>,
    /// What is sent after them.
    pub ending: Option<Ending>,
}

impl Copying for Batch {
    fn copy(&self) -> Result<Batch, Memory> {
        self.clone()
    }
}
