//! A cursor over the records of one dataset, for names that ascend.
ghost use Rattle.std.specs.Prelude.{◌≡◌, Some, IfSome};
ghost use Rattle.std.specs.Option.{option_copied};
ghost use Rattle.acap_inherit.specs.Records.{record_at};
ghost use Rattle.acap_search.specs.RecordCaches.{AreKept};
ghost use Rattle.acap_search.specs.RecordCursors.{all_records};

use acap_entries::{Dataset, EntryName, Listing, Path, Record, Records, Tree};
use std::marker::Model;

/// The records of a dataset, sought one after the other. They lie at hand in their order: the next is found at once, if it is the one
/// that is asked for.
#[derive(Drop)]
pub struct RecordCursor<'a> {
    tree: &'a Tree,
    dataset: &'a Dataset,
    next: Option<(&'a Path, &'a Record)>,
    others: Listing<'a>,
}

impl<'a> Model for RecordCursor<'a> {
    ghost use Rattle.acap_search.specs.RecordCaches.{AreKept};
    ghost use Rattle.acap_search.specs.RecordCursors.{RecordCursor as Seen, shelf_code, all_records};

    ghost Value = { Seen };

    ghost coded = { shelf_code };

    ghost view = { λ s. record { records = s.tree.now.store.records; dataset = s.dataset.now } };

    ghost invariant = { λ s. AreKept s.tree.now.store.records s.dataset.now (all_records s.next s.others) };
}

// The first of some records whose name doesn't come before another one.
#[tactic(auto, using(crate::proofs::CursorLemmas::others_kept))]
fn first_from<'a>(
    tree: &Tree,
    dataset: &Dataset,
    next: Option<(&'a Path, &'a Record)>,
    others: &mut Listing<'a>,
    name: &EntryName,
) -> Option<(&'a Path, &'a Record)>
    requires { AreKept tree.now.store.records dataset.now (all_records next others.old) }
    ensures { AreKept tree.now.store.records dataset.now (all_records result others.new) }
{
    if let Some((path, _)) = next
        && *name <= path.name
    {
        return next;
    }
    'passed: while let Some(entry) = others.next() {
        if *name <= entry.0.name {
            return Some(entry);
        }
    }
    None
}

impl<'a> RecordCursor<'a> {
    /// Those of a dataset. Takes no memory.
    pub fn of(tree: &'a Tree, dataset: &'a Dataset) -> RecordCursor<'a>
        ensures records { result.records ≡ tree.now.store.records }
        ensures dataset { result.dataset ≡ dataset.now }
    {
        RecordCursor {
            tree,
            dataset,
            next: None,
            others: tree.entries_of(dataset.as_slice()),
        }
    }

    // The next record, taken if it is of this name.
    fn take_next(&mut self, name: &EntryName) -> Option<&'a Record>
        ensures same { self.new ≡ self.old }
        ensures found { IfSome result (λ entry.
            record_at self.old.records self.old.dataset name.now ≡ Some entry.now) }
    {
        if let Some((path, record)) = self.next
            && path.name == *name
        {
            self.next = None;
            return Some(record);
        }
        None
    }

    /// The record of an entry, which is often the next. Takes no memory.
    pub fn find(&mut self, name: &EntryName) -> Option<&'a Record>
        ensures same { self.new ≡ self.old }
        ensures found { option_copied result ≡ record_at self.old.records self.old.dataset name.now }
    {
        let tree = self.tree;
        let dataset = self.dataset;
        if self.next.is_none() {
            self.next = self.others.next();
        }
        if let Some(record) = self.take_next(name) {
            return Some(record);
        }
        self.next = first_from(tree, dataset, self.next, &mut self.others, name);
        match self.take_next(name) {
            Some(record) => Some(record),
            None => tree.find(dataset.as_slice(), name.as_slice()),
        }
    }
}
