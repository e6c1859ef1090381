//! The lists of one context: live ones, a snapshot, or none once it is freed.

use crate::live_lists::LiveLists;
use acap_search::Hits;

/// What is kept of the entries of a context (RFC 2244 section 3.3).
#[derive(Drop)]
pub(crate) enum ContextLists {
    /// What its search found, which stays as it is.
    Snapshot(Hits),
    /// A list that follows the store.
    Live(LiveLists),
    /// Nothing: too many notices came.
    Freed,
}

/// Where the list of a context lies that was sent last.
#[derive(Drop)]
pub(crate) enum LentLists<'a> {
    /// In a snapshot.
    Snapshot(&'a Hits),
    /// In the lists of a live context.
    Live(&'a LiveLists),
}
