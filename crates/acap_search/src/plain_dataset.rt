//! Datasets that inherit nothing, whose entries share one set of rights.
ghost use Rattle.std.specs.Prelude.{◌≡◌, ◌∷◌, [], IfOk, IsSome, IsTrue};
ghost use Rattle.std.specs.Option.{ForSome};
ghost use Rattle.acap_search.specs.RecordCaches.{IsPlain};

use crate::dataset_view::DatasetView;
use acap_entries::{Memory, Records};
use acap_inherit::Lineage;
use acap_rights::{SharedRights, shared_rights};
use std::alloc::Global;

/// Whether a chain is the dataset alone.
pub(crate) fn is_alone(chain: &Lineage<'_>, dataset: &[u8]) -> bool
    ensures alone { IsTrue result → chain.now ≡ dataset.now ∷ [] }
    ensures found { chain.now ≡ dataset.now ∷ [] → IsTrue result }
{
    match chain.names().split_first() {
        Some((first, others)) => others.is_empty() && *first == dataset,
        None => false,
    }
}

/// The rights that the entries of a dataset share, where it inherits nothing (RFC 2244 sections 3.5 and 5.2). Fails only for
/// want of memory.
pub fn share_rights<R: Records>(
    alloc: Global,
    by: &DatasetView<'_, R>,
) -> Result<Option<SharedRights>, Memory>
    ensures rights { IfOk result (λ shared. ForSome shared (IsPlain by.now)) }
    ensures made { IfOk result (λ shared. by.now.chain ≡ by.now.dataset ∷ [] → IsSome shared) }
{
    let dataset = by.dataset.as_slice();
    if !is_alone(&by.chain, dataset) {
        return Ok(None);
    }
    Ok(Some(shared_rights(alloc, by.records, by.realm, by.user, dataset)?))
}
