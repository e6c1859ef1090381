//! One SORT term: what a string, a number, NIL or a list is ordered by.

use acap_entries::{Copying, Label, Memory, Sequence};

/// What a string is compared by, made once for an entry and not for each comparison (RFC 2244 section 3.4).
#[derive(Clone, PartialEq, Eq, Drop)]
pub enum Rank {
    /// Its octets, or those in upper case.
    Octets(Label),
    /// The digits of the number that it begins with, without leading zeros.
    Number(Label),
    /// It begins with no number.
    NoNumber,
}

/// Where an entry stands for one item of SORT (RFC 2244 section 6.4.1).
#[derive(Clone, PartialEq, Eq, Drop)]
pub enum SortTerm {
    /// As its string does.
    Rising(Rank),
    /// The other way round, by a comparator with `-`.
    Falling(Rank),
    /// After all strings: it has a list there, NIL, or what the user may not read.
    Behind,
}

/// Where an entry stands for each item of SORT, the first deciding first.
pub type SortPlaces = Sequence<SortTerm>;

impl Copying for Rank {
    fn copy(&self) -> Result<Rank, Memory> {
        self.clone()
    }
}

impl Copying for SortTerm {
    fn copy(&self) -> Result<SortTerm, Memory> {
        self.clone()
    }
}
