//! `LentContext`: the query and the last sent list that a SEARCH over a context starts from.

use crate::last_sent_list::LastSentList;
use acap_entries::Moment;
use acap_search::SearchSpec;

/// What a search over a context starts from (RFC 2244 sections 3.3 and 6.4.1).
#[derive(Drop)]
pub struct LentContext<'a> {
    /// What the search looked for that made it.
    pub sought: &'a SearchSpec,
    /// Whether its entries have positions.
    pub enumerated: bool,
    /// Up to which moment its client has been sent all.
    pub told: Moment,
    /// The list that was sent last, in which these positions count.
    pub shown: LastSentList<'a>,
}
