//! What a command does to a context once it is completed.

use crate::row::Row;
use acap_commands::MakeContext;
use acap_entries::ContextName;

/// What a command that waits is to do of a context.
#[derive(Drop)]
pub(crate) enum Wish {
    /// To make it of these rows, which have come so far (RFC 2244 section 6.4.1).
    Make(MakeContext, Vec<Row>),
    /// To free it (RFC 2244 section 6.5.1).
    Free(ContextName),
}
