//! `Told`, borrowed from its batch.

use crate::notice::Notice;
use acap_entries::{ContextName, Moment};

/// One thing that a client is sent of a context, as it is lent: nothing is copied (RFC 2244 section 6.5).
#[derive(Clone, Copy)]
pub enum ToldRef<'a> {
    /// A change of an entry.
    Note(&'a ContextName, &'a Notice),
    /// All changes up to a moment have been sent: the end of an UPDATECONTEXT.
    Upto(&'a ContextName, Moment),
    /// The server has freed the context: nothing more will be sent of it.
    Freed(&'a ContextName),
}
