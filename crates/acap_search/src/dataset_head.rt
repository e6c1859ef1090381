//! A dataset with its management entry, looked up once for all of its entries.
ghost use Rattle.std.specs.Prelude.{◌≡◌};
ghost use Rattle.acap_search.specs.DatasetHeads.{IsFront};

use acap_entries::{Record, Records};

/// A dataset, and its management entry, if it has one.
#[derive(Clone, Copy)]
pub(crate) struct DatasetHead<'a> {
    /// The dataset.
    pub(crate) dataset: &'a [u8],
    /// Its management entry.
    pub(crate) management: Option<&'a Record>,
}

impl<'a> DatasetHead<'a> {
    /// That of a dataset, found once for all of its entries.
    pub(crate) fn of<R: Records>(records: &'a R, dataset: &'a [u8]) -> DatasetHead<'a>
        ensures dataset { result.dataset.now ≡ dataset.now }
        ensures front { IsFront (R.store records.now).records result }
    {
        DatasetHead {
            dataset,
            management: records.find(dataset, b""),
        }
    }
}
