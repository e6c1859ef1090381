//! A store with the management entry of one dataset looked up already.
use acap_entries::{Moment, Record, Records, is_same};
use std::marker::Model;

/// A store of which a dataset's management entry is at hand: whoever looks along chains and asks for rights asks for it again and
/// again.
#[derive(Drop)]
pub(crate) struct WithRecord<'a, R: Records> {
    records: &'a R,
    dataset: &'a [u8],
    management: Option<&'a Record>,
}

impl<'a, R: Records> Model for WithRecord<'a, R> {
    ghost use Rattle.std.specs.Option.{option_copied};
    ghost use Rattle.acap_entries.specs.Store.{Store, store_code};
    ghost use Rattle.acap_views.specs.ContextViews.{IsAtHand};

    ghost Value = { Store };

    ghost coded = { store_code };

    ghost view = { λ b. R.store b.records.now };

    ghost invariant = { λ b. IsAtHand (R.store b.records.now) b.dataset.now (option_copied b.management) };
}

impl<'a, R: Records> WithRecord<'a, R> {
    ghost use Rattle.std.specs.Prelude.{◌≡◌};

    /// The store, with what it has of a dataset.
    pub(crate) fn of(records: &'a R, dataset: &'a [u8]) -> WithRecord<'a, R>
        ensures { result ≡ R.store records.now }
    {
        WithRecord {
            records,
            dataset,
            management: records.find(dataset, b""),
        }
    }
}

impl<'a, R: Records> Records for WithRecord<'a, R> {
    ghost store = { λ b. b };

    fn find(&self, dataset: &[u8], name: &[u8]) -> Option<&Record> {
        if is_same(name, b"") && is_same(dataset, self.dataset) {
            return self.management;
        }
        self.records.find(dataset, name)
    }

    fn last(&self) -> Moment {
        self.records.last()
    }
}
