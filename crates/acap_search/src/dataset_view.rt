//! A dataset as a user sees it: the store, the groups, the user, and the chain along which entries are inherited.
use acap_entries::{Dataset, Records, UserName};
use acap_inherit::Lineage;
use acap_rights::Realm;
use std::marker::Model;

/// Who looks at the entries of a dataset, and along which chain (RFC 2244 sections 3.5 and 5.2). It is made once for a dataset,
/// and not for each entry.
#[derive(Drop)]
pub struct DatasetView<'a, R: Records> {
    /// The store.
    pub records: &'a R,
    /// Who is who.
    pub realm: &'a Realm,
    /// The user who looks.
    pub user: &'a UserName,
    /// The dataset.
    pub dataset: &'a Dataset,
    /// From which datasets its entries are: its chain, or the dataset alone where nothing is to be inherited.
    pub chain: Lineage<'a>,
}

impl<'a, R: Records> Model for DatasetView<'a, R> {
    ghost use Rattle.acap_search.specs.Views.{View, view_code};

    ghost Value = { View };

    ghost coded = { view_code };

    ghost view = { λ v. record {
      records = (R.store v.records.now).records;
      realm = v.realm.now;
      user = v.user.now;
      dataset = v.dataset.now;
      chain = v.chain;
    } };
}

impl<'a, R: Records> DatasetView<'a, R> {
    ghost use Rattle.std.specs.Prelude.{◌≡◌};

    /// The same view of another store that has the same records.
    pub(crate) fn over<'b, S: Records>(&'b self, records: &'b S) -> DatasetView<'b, S>
        requires { (S.store records.now).records ≡ self.now.records }
        ensures { result ≡ self.now }
    {
        DatasetView {
            records,
            realm: self.realm,
            user: self.user,
            dataset: self.dataset,
            chain: self.chain.again(),
        }
    }
}
