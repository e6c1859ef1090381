//! The rows of the first matches, as many as LIMIT prints. Later matches are counted alone.
ghost use Rattle.std.specs.Prelude.{◌≡◌, ◌∷◌, [], OnOk};
ghost use Rattle.acap_search.specs.Gathering as rule;
ghost use Rattle.acap_search.specs.Views.{match_at};

use crate::entry_match::tell_row;
use crate::entry_view::EntryView;
use crate::query::SearchSpec;
use acap_entries::{Memory, Records, Row, Sequence};
use std::alloc::Global;

/// The rows of the first of what is found, and how much is found in all.
#[derive(Drop)]
pub(crate) struct FirstRows {
    /// The rows.
    pub(crate) rows: Sequence<Row>,
    /// How many there are of them at most.
    pub(crate) most: usize,
    /// How much is found.
    pub(crate) count: usize,
}

impl FirstRows {
    /// Nothing yet, of which at most `most` rows are printed. Takes no memory.
    pub(crate) fn new(alloc: Global, most: usize) -> FirstRows
        ensures { result ≡ rule.none_told most }
    {
        FirstRows {
            rows: Sequence::new(alloc),
            most,
            count: 0,
        }
    }

    /// Adds a match. Its row is made only where it is one of those that are printed. Fails for want of memory, and
    /// where there are more than can be counted.
    pub(crate) fn add<R: Records>(
        &mut self,
        alloc: Global,
        spot: &EntryView<'_, R>,
        sought: &SearchSpec,
    ) -> Result<(), Memory>
        ensures { OnOk result
            (self.new ≡ rule.told_with self.old (match_at sought.now spot.now ∷ [])) }
    {
        if self.count == usize::MAX {
            return Err(Memory);
        }
        if self.count < self.most {
            self.rows.push(tell_row(alloc, spot, sought)?)?;
        }
        self.count += 1;
        Ok(())
    }
}
