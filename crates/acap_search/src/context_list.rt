//! A context as a search over it sees it: its list, its last MODTIME, and whether it has positions.

use crate::hit::Hit;
use acap_entries::Moment;

/// What a context shows, for a search over it (RFC 2244 section 3.3).
#[derive(Clone, Copy)]
pub struct ContextList<'a> {
    /// Its hits, in its order.
    pub hits: &'a [&'a Hit],
    /// The moment that was last sent of it.
    pub told: Moment,
    /// Whether its entries have positions.
    pub enumerated: bool,
}
