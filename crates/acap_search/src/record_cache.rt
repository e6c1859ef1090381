//! The records of one entry, in its dataset and in the base, and both management entries, looked up once.
ghost use Rattle.std.specs.Prelude.{◌≡◌};
ghost use Rattle.std.specs.Option.{option_copied};
ghost use Rattle.acap_inherit.specs.Records.{record_at};
ghost use Rattle.acap_search.specs.DatasetHeads.{IsFront};

use crate::dataset_head::DatasetHead;
use crate::dataset_view::DatasetView;
use crate::dataset_walk::base_of;
use acap_entries::{EntryName, Moment, Record, Records, is_same};
use std::marker::Model;

/// A store that has at hand what a dataset and its base keep of the entry of a name, and their management entries: none of them
/// is sought again for each attribute that is asked for.
#[derive(Drop)]
pub(crate) struct RecordCache<'a, R: Records> {
    records: &'a R,
    name: &'a [u8],
    own: DatasetHead<'a>,
    entry: Option<&'a Record>,
    base: DatasetHead<'a>,
    inherited: Option<&'a Record>,
}

impl<'a, R: Records> Model for RecordCache<'a, R> {
    ghost use Rattle.std.specs.Option.{option_copied};
    ghost use Rattle.acap_entries.specs.Store.{Store, store_code};
    ghost use Rattle.acap_search.specs.DatasetHeads.{IsAtHand};

    ghost Value = { Store };

    ghost coded = { store_code };

    ghost view = { λ n. R.store n.records.now };

    ghost invariant = { λ n.
        IsAtHand (R.store n.records.now).records n.own n.name.now (option_copied n.entry)
        × IsAtHand (R.store n.records.now).records n.base n.name.now (option_copied n.inherited) };
}

// What a store has of a dataset's base, which is often that dataset.
fn base_head<'a, R: Records>(
    records: &'a R,
    own: DatasetHead<'a>,
    base: &'a [u8],
) -> DatasetHead<'a>
    requires { IsFront (R.store records.now).records own }
    ensures { IsFront (R.store records.now).records result }
{
    if is_same(base, own.dataset) {
        own
    } else {
        DatasetHead::of(records, base)
    }
}

/// What is near the entry of a name, to one who looks: its dataset, and the one that most is inherited from.
pub(crate) fn near_by<'a, R: Records>(
    by: &DatasetView<'a, R>,
    name: &'a EntryName,
) -> RecordCache<'a, R>
    ensures { result.records ≡ by.now.records }
{
    let own = DatasetHead::of(by.records, by.dataset.as_slice());
    let base = base_head(by.records, own, base_of(&by.chain));
    RecordCache::new(by.records, own, base, name.as_slice())
}

// The record of a name in one of two datasets, which are often one.
fn find_in<'a, R: Records>(
    records: &'a R,
    own: &DatasetHead<'a>,
    entry: Option<&'a Record>,
    base: &DatasetHead<'a>,
    name: &[u8],
) -> Option<&'a Record>
    requires { option_copied entry ≡ record_at (R.store records.now).records own.now.dataset.now name.now }
    ensures { option_copied result ≡ record_at (R.store records.now).records base.now.dataset.now name.now }
{
    if is_same(base.dataset, own.dataset) {
        entry
    } else {
        records.find(base.dataset, name)
    }
}

impl<'a, R: Records> RecordCache<'a, R> {
    /// The store from near the entry of a name.
    pub(crate) fn new(
        records: &'a R,
        own: DatasetHead<'a>,
        base: DatasetHead<'a>,
        name: &'a [u8],
    ) -> RecordCache<'a, R>
        requires own { IsFront (R.store records.now).records own }
        requires base { IsFront (R.store records.now).records base }
        ensures { result ≡ R.store records.now }
    {
        let entry = records.find(own.dataset, name);
        let inherited = find_in(records, &own, entry, &base, name);
        RecordCache {
            records,
            name,
            own,
            entry,
            base,
            inherited,
        }
    }
}

impl<'a, R: Records> Records for RecordCache<'a, R> {
    ghost store = { λ n. n };

    fn find(&self, dataset: &[u8], name: &[u8]) -> Option<&Record> {
        if is_same(dataset, self.own.dataset) {
            if is_same(name, self.name) {
                return self.entry;
            }
            if is_same(name, b"") {
                return self.own.management;
            }
        } else if is_same(dataset, self.base.dataset) {
            if is_same(name, self.name) {
                return self.inherited;
            }
            if is_same(name, b"") {
                return self.base.management;
            }
        }
        self.records.find(dataset, name)
    }

    fn last(&self) -> Moment {
        self.records.last()
    }
}
