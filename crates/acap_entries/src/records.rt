//! `Records`: a store that can be read, as it is or as a change will leave it.
ghost use Rattle.std.specs.Prelude.{◌≡◌};
ghost use Rattle.std.specs.Option.{option_copied};
ghost use Rattle.std.specs.FinMap as map;
ghost use Rattle.acap_entries.specs.FullPaths.{path_of};
ghost use Rattle.acap_entries.specs.Store.{Store};
ghost use Rattle.acap_entries.specs.Datasets as rule;

use crate::moment::Moment;
use crate::names::own_entry_of;
use crate::path::Path;
use crate::record::{Record, makes_dataset};

/// What can be read as a store. No call here takes memory.
pub trait Records {
    ghost store: { Self → Store };

    /// The record at a path that is given by its octets, if there is one.
    fn find(&self, dataset: &[u8], name: &[u8]) -> Option<&Record>
        ensures { option_copied result ≡ map.get (store self.now).records (path_of dataset.now name.now) };

    /// The moment of the last change.
    fn last(&self) -> Moment
        ensures { result ≡ (store self.now).last };

    /// The record at a path, if there is one.
    fn get(&self, path: &Path) -> Option<&Record>
        ensures { option_copied result ≡ map.get (store self.now).records path.now }
    {
        self.find(path.dataset.as_slice(), path.name.as_slice())
    }

    /// Whether a dataset exists: `/` does, and any other where its own entry in the parent has `subdataset`
    /// `(".")` (RFC 2244 section 3.1.1).
    fn dataset_exists(&self, dataset: &[u8]) -> bool
        ensures { result ≡ rule.dataset_exists (store self.now).records dataset.now }
    {
        if dataset == b"/".as_slice() {
            return true;
        }
        let Some((parent, name)) = own_entry_of(dataset) else {
            return false;
        };
        match self.find(parent, name) {
            Some(record) => makes_dataset(record),
            None => false,
        }
    }
}
