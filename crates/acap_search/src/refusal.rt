//! `SearchRefusal`: why a SEARCH is refused.
ghost use Rattle.std.specs.Prelude.{◌≡◌};
ghost use Rattle.acap_search.specs.declared.refusal.SearchRefusal.TheVariants as refusal;

use acap_entries::Memory;
use thiserror::Error;

/// Why a search over a dataset or a context is refused, by the first of these that holds (RFC 2244 section 6.4.1).
#[derive(Clone, Copy, Debug, PartialEq, Eq, Error)]
pub enum SearchRefusal {
    /// The key asks for positions, which only the entries of an enumerated context have.
    #[error("positions without an enumerated context")]
    RangeHere,
    /// The dataset doesn't exist.
    #[error("no such dataset")]
    NoExist,
    /// The key asks for positions in a context as they were at a moment before the last one that was sent.
    #[error("positions of too long ago")]
    TooOld,
    /// More entries match than HARDLIMIT allows.
    #[error("too many matches")]
    WayTooMany,
    /// Memory was refused.
    #[error("out of memory")]
    Memory,
}

impl From<Memory> for SearchRefusal {
    ghost from_gives = { λ _ e. e ≡ refusal.Memory };

    fn from(_error: Memory) -> SearchRefusal {
        SearchRefusal::Memory
    }
}
