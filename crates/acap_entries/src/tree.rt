//! `Tree`: all records of a store, in the order of their paths, and its deletions.
ghost use Rattle.std.specs.Prelude.{◌≡◌, ◌≤◌, IfOk, IfSome, OnOk};
ghost use Rattle.std.specs.Option.{option_copied, option_map};
ghost use Rattle.std.specs.FinMap as map;
ghost use Rattle.acap_entries.specs.FullPaths.{AreWellFormed, path_of};
ghost use Rattle.acap_entries.specs.Store.{empty_store};
ghost use Rattle.acap_entries.specs.Changes.{HasRoom, IsStoreAfter};
ghost use Rattle.acap_entries.specs.Datasets as rule;

use crate::applying::put_all;
use crate::boxed::Boxed;
use crate::change::Change;
use crate::dataset::Dataset;
use crate::deletions::{Deletion, Deletions};
use crate::keys::{Edge, PathText};
use crate::listing::{Listing, between};
use crate::moment::Moment;
use crate::path::Path;
use crate::record::Record;
use crate::records::Records;
use acap_ordmap::{Leaves, Memory, Whole, entry_among, find_among};
use std::alloc::Global;
use std::collections::VecDeque;
use std::marker::Model;

/// The store in memory: seen as a finite map from paths to records with its last moment and newest deletions, and
/// beside it what it has room for, which no equality speaks of (RFC 2244 section 3.1).
#[derive(Drop)]
pub struct Tree {
    entries: Leaves<Path, Boxed<Record>>,
    last: Moment,
    deletions: Deletions,
}

impl Model for Tree {
    ghost use Rattle.std.specs.FinMap as map;
    ghost use Rattle.acap_entries.specs.FullPaths.{AreInForm};
    ghost use Rattle.acap_entries.specs.Store.{Roomy, roomy_code};

    ghost Value = { Roomy };

    ghost coded = { roomy_code };

    ghost view = { λ t. record {
      store = record {
        records = map.from_sorted t.entries.0;
        last = t.last;
        deletions = t.deletions.kept;
        forgotten = t.deletions.forgotten;
      };
      spare = t.entries.1;
      slots = t.deletions.slots;
    } };

    ghost invariant = { λ t. AreInForm t.entries.0 };
}

#[tactic(auto, using(crate::proofs::Kept::kept))]
impl Tree {
    /// The empty store, whose last moment is the first of all moments. Takes no memory.
    pub fn new(alloc: Global) -> Tree
        ensures { result.store ≡ empty_store }
    {
        Tree {
            entries: Leaves::new(alloc),
            last: Moment::first(),
            deletions: Deletions::new(alloc),
        }
    }

    /// The moment of the last change.
    pub fn last(&self) -> Moment
        ensures { result ≡ self.now.store.last }
    {
        self.last
    }

    /// The newest 4,096 deletions, in the order in which they came.
    pub fn deletions(&self) -> &VecDeque<Deletion>
        ensures { result.now.items ≡ self.now.store.deletions }
    {
        self.deletions.kept()
    }

    /// The moment of the newest deletion that is not among those, if there is one.
    pub fn forgotten(&self) -> Option<Moment>
        ensures { result ≡ self.now.store.forgotten }
    {
        self.deletions.forgotten()
    }

    /// The record at a path, if there is one. Takes as many comparisons as the number of records has binary digits.
    pub fn get(&self, path: &Path) -> Option<&Record>
        ensures { option_copied result ≡ map.get self.now.store.records path.now }
    {
        let record = find_among(self.entries.as_slice(), &Whole { key: path })?;
        Some(record.get())
    }

    /// The same for a path that is given by its octets.
    pub fn find(&self, dataset: &[u8], name: &[u8]) -> Option<&Record>
        ensures { option_copied result ≡ map.get self.now.store.records (path_of dataset.now name.now) }
    {
        let record = find_among(self.entries.as_slice(), &PathText { dataset, name })?;
        Some(record.get())
    }

    /// The path and the record at the path that is given by its octets, if there is one.
    pub fn entry(&self, dataset: &[u8], name: &[u8]) -> Option<(&Path, &Record)>
        ensures path { IfSome result (λ e. e.0.now ≡ path_of dataset.now name.now) }
        ensures record { option_map (λ e. e.1.now) result
            ≡ map.get self.now.store.records (path_of dataset.now name.now) }
    {
        match entry_among(self.entries.as_slice(), &PathText { dataset, name }) {
            Some((path, record)) => Some((path, record.get())),
            None => None,
        }
    }

    /// Whether a dataset exists: `/` does, and any other where its own entry in the parent has `subdataset` `(".")`
    /// (RFC 2244 section 3.1.1).
    pub fn dataset_exists(&self, dataset: &[u8]) -> bool
        ensures { result ≡ rule.dataset_exists self.now.store.records dataset.now }
    {
        Records::dataset_exists(self, dataset)
    }

    /// All records, by dataset and then by name.
    pub fn entries(&self) -> Listing<'_>
        ensures { result ≡ map.entries self.now.store.records }
    {
        Listing {
            front: &[],
            leaves: self.entries.as_slice(),
            left: self.entries.len(),
        }
    }

    /// The records of one dataset, by name: they lie together, and both ends are found by halving.
    pub fn entries_of(&self, dataset: &[u8]) -> Listing<'_>
        ensures { result ≡ rule.entries_of self.now.store.records dataset.now }
    {
        let low = Edge {
            front: dataset,
            last: b"",
        };
        let high = Edge {
            front: dataset,
            last: b"\0",
        };
        between(self.entries.as_slice(), &low, &high)
    }

    /// The records of a dataset and of the datasets beneath it, by dataset and then by name. Their datasets' names
    /// begin with its name, so that they lie together too.
    pub fn entries_beneath(&self, dataset: &Dataset) -> Listing<'_>
        ensures { result ≡ rule.entries_beneath self.now.store.records dataset.now }
    {
        let front = dataset.open_ended();
        let low = Edge { front, last: b"/" };
        let high = Edge { front, last: b"0" };
        between(self.entries.as_slice(), &low, &high)
    }

    /// The path of each record is well formed: does nothing.
    #[inline]
    pub fn form_law(&self)
        ensures { AreWellFormed self.now.store.records }
    {
        let _ = &self.last;
    }

    /// How many records there are, those of deleted entries included.
    pub fn len(&self) -> usize
        ensures { result ≡ map.len self.now.store.records }
    {
        self.entries.len()
    }

    /// A tree with an equal store. Fails only for want of memory.
    pub fn copy(&self) -> Result<Tree, Memory>
        ensures { IfOk result (λ made. made.store ≡ self.now.store) }
    {
        let entries = self.entries.copy()?;
        let deletions = self.deletions.copy()?;
        Ok(Tree {
            entries,
            last: self.last,
            deletions,
        })
    }

    /// Makes room for a change. The store stays as it is, and room never shrinks, also where memory is refused.
    pub fn reserve(&mut self, change: &Change) -> Result<(), Memory>
        ensures store { self.new.store ≡ self.old.store }
        ensures spare { self.old.spare ≤ self.new.spare }
        ensures slots { self.old.slots ≤ self.new.slots }
        ensures room { OnOk result (HasRoom change.now self.new) }
    {
        self.entries.reserve(change.writes.len())?;
        self.deletions.reserve(change.deleted.len())
    }

    /// Performs a change, in the room that `reserve` made for it. Takes no memory and cannot fail.
    pub fn commit(&mut self, change: Change)
        requires { HasRoom change self.old }
        ensures { IsStoreAfter change self.old.store self.new.store }
    {
        let Change {
            writes,
            moment,
            deleted,
        } = change;
        writes.form_law();
        put_all(&mut self.entries, writes);
        self.deletions.add_all(deleted, moment);
        self.last = moment;
    }
}

impl Records for Tree {
    ghost store = { λ t. t.store };

    fn find(&self, dataset: &[u8], name: &[u8]) -> Option<&Record> {
        self.find(dataset, name)
    }

    fn last(&self) -> Moment {
        self.last()
    }
}
