//! Where a search looks: its dataset, DEPTH and NOINHERIT.
ghost use Rattle.std.specs.Prelude.{◌≡◌};
ghost use Rattle.acap_search.specs.Scoped as rule;

use crate::query::SearchSpec;
use crate::reaching::lies_within;
use acap_entries::{Dataset, Records, is_same};
use std::marker::Model;

/// Where a search looks: in a dataset, with DEPTH also beneath it, and whether what is inherited counts (RFC 2244 section 6.4.1).
#[derive(Drop)]
pub struct Scope<'a> {
    /// The dataset that is searched.
    pub dataset: &'a Dataset,
    /// DEPTH: how many levels of datasets are looked through, 0 standing for all; one where it isn't sent.
    pub depth: Option<u32>,
    /// NOINHERIT: nothing is inherited.
    pub no_inherit: bool,
}

impl<'a> Model for Scope<'a> {
    ghost use Rattle.acap_search.specs.Scopes as scopes;
    ghost use Rattle.acap_search.specs.Scoped.{scope_code};

    ghost Value = { scopes.Scope };

    ghost coded = { scope_code };

    ghost view = { λ s. record { dataset = s.dataset.now; depth = s.depth; no_inherit = s.no_inherit } };
}

impl<'a> Scope<'a> {
    ghost use Rattle.std.specs.Prelude.{IsTrue};
    ghost use Rattle.acap_entries.specs.Names.{is_closed_dataset};

    // The octets of the searched dataset.
    fn dataset(&self) -> &[u8]
        ensures value { result.now ≡ self.now.dataset }
        ensures formed { IsTrue (is_closed_dataset self.now.dataset) }
    {
        self.dataset.as_slice()
    }
}

impl SearchSpec {
    ghost use Rattle.acap_search.specs.Scopes.{scope_of};

    /// Where it looks.
    pub fn scope(&self) -> Scope<'_>
        ensures { result ≡ scope_of self.now }
    {
        Scope {
            dataset: &self.dataset,
            depth: self.depth,
            no_inherit: self.no_inherit,
        }
    }
}

// The same by the octets of the name.
fn is_looked_in<R: Records>(scope: &Scope<'_>, records: &R, dataset: &[u8]) -> bool
    ensures { result ≡ rule.is_looked_in (R.store records.now).records scope.now dataset.now }
{
    let searched = scope.dataset();
    if is_same(dataset, searched) {
        return true;
    }
    match scope.depth {
        Some(depth) => lies_within(searched, depth, dataset) && records.dataset_exists(dataset),
        None => false,
    }
}

/// Whether a dataset is among those that a search looks through: by the octets of its name, and with DEPTH also by how deep it lies
/// and whether it exists (RFC 2244 section 6.4.1). Takes no memory, and walks through nothing.
pub fn looks_in<R: Records>(scope: &Scope<'_>, records: &R, dataset: &Dataset) -> bool
    ensures { rule.SaysWhether (R.store records.now).records scope.now dataset.now result }
{
    let _searched = scope.dataset();
    is_looked_in(scope, records, dataset.as_slice())
}
