//! `After`: a store as it will be once a change is committed.
ghost use Rattle.std.specs.Prelude.{◌≡◌};
ghost use Rattle.acap_entries.specs.Ahead.{IsReadAhead};
ghost use Rattle.acap_entries.specs.Leaving.{store_ahead};

use crate::change::{Change, RecordEdit};
use crate::moment::Moment;
use crate::record::Record;
use crate::records::Records;
use crate::tree::Tree;
use crate::writes::Writes;

/// The store that a change will leave, read before it is committed: the records are those of afterwards, the last
/// moment is the change's, and what is known of deletions is as before. Takes no memory.
#[derive(Clone, Copy, Drop)]
pub struct After<'a> {
    /// The tree before the change.
    pub tree: &'a Tree,
    /// What is written.
    pub writes: &'a Writes,
    /// The moment that the store then has.
    pub moment: Moment,
}

impl<'a> After<'a> {
    /// The store that a change of this tree will leave: its records and its last moment.
    #[tactic(auto, using(crate::proofs::AfterLemmas::read_ahead))]
    pub fn of(tree: &'a Tree, change: &'a Change) -> After<'a>
        ensures tree { result.tree.now ≡ tree.now }
        ensures writes { result.writes.now ≡ change.now.writes }
        ensures moment { result.moment ≡ change.now.moment }
        ensures store { IsReadAhead change.now tree.now.store (store_ahead result) }
    {
        After {
            tree,
            writes: &change.writes,
            moment: change.moment,
        }
    }
}

#[tactic(auto, using(crate::proofs::AfterLemmas::get_after))]
impl<'a> Records for After<'a> {
    ghost store = { store_ahead };

    fn find(&self, dataset: &[u8], name: &[u8]) -> Option<&Record> {
        match self.writes.find(dataset, name) {
            Some(RecordEdit::Put(record)) => Some(record.get()),
            Some(RecordEdit::Remove) => None,
            None => self.tree.find(dataset, name),
        }
    }

    fn last(&self) -> Moment {
        self.moment
    }
}
