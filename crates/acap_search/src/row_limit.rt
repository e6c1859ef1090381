//! Whether all matches are wanted, or the first rows that LIMIT prints.
use acap_commands::Limit;

/// What is wanted of what a search finds.
#[derive(Clone, Copy)]
pub(crate) enum RowLimit {
    /// All of it.
    All,
    /// The rows of the first of it, as many as LIMIT lets through, and how many there are.
    First(Option<Limit>),
}
