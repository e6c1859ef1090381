//! The names of the entries that a chain gives, in their order.
ghost use Rattle.std.specs.Prelude.{◌≡◌};
ghost use Rattle.std.specs.Iterator.{YieldsFirstBy, item_count};
ghost use Rattle.acap_inherit.specs.EntryNames as rule;

use crate::lineage::Lineage;
use crate::merging::{least_of, pass_all};
use crate::range::Range;
use acap_entries::{EntryName, Tree};
use arrayvec::ArrayVec;
use std::marker::Model;

/// Names of entries, each once, in the order of their octets: an iterator, seen as the list of those that are still to
/// come. Takes no memory.
#[derive(Drop)]
pub struct EntryNames<'a> {
    ranges: ArrayVec<Range<'a>, 8>,
}

impl<'a> Model for EntryNames<'a> {
    ghost use Rattle.std.specs.Prelude.{◌≡◌, ℕ, true, List};
    ghost use Rattle.std.specs.List.{list_all};
    ghost use Rattle.acap_inherit.specs.EntryNames.{union_of};
    ghost use Rattle.acap_inherit.specs.Merging.{is_rising};

    ghost Value = { List (List ℕ) };

    ghost view = { λ n. union_of n.ranges.items };

    ghost invariant = { λ n. list_all is_rising n.ranges.items ≡ true };
}

impl<'a> Iterator for EntryNames<'a> {
    type Item = &'a EntryName;

    ghost next_gives = { YieldsFirstBy (λ name. name.now) (λ names. names) };

    ghost remaining = { item_count (λ names. names) };

    fn next(&mut self) -> Option<&'a EntryName> {
        let name = least_of(self.ranges.as_slice())?;
        pass_all(self.ranges.as_mut_slice(), name);
        Some(name)
    }
}

/// The names that have a record in a dataset of a chain, each once, in the order of their octets: also those of deleted
/// entries, and the empty name of management entries. Takes no memory, and looks at the first name of each dataset for each
/// that it gives.
pub fn names_on<'a>(tree: &'a Tree, chain: &Lineage<'a>) -> EntryNames<'a>
    ensures { result ≡ rule.names_on tree.now.store.records chain.now }
{
    let mut ranges = ArrayVec::new();
    for dataset in chain.names() {
        ranges.push(Range::of(tree.entries_of(*dataset)));
    }
    EntryNames { ranges }
}
