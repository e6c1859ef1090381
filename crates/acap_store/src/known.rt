//! The rights in the datasets of a command, worked out once for each dataset.
ghost use Rattle.std.specs.Prelude.{◌≡◌, ◌<◌, ◌≤◌, length, slice_index_or, vec_len, IfOk, IsTrue, OnOk};
ghost use Rattle.acap_store.specs.Known as asking;

use crate::write_env::WriteEnv;
use acap_entries::Memory;
use acap_rights::{SharedRights, shared_rights};
use std::alloc::Global;

/// A dataset, and the rights on the attributes of its entries, but for those that have lists.
#[derive(Drop)]
pub(crate) struct Known<'a> {
    /// The dataset.
    pub(crate) dataset: &'a [u8],
    /// These rights.
    pub(crate) shared: SharedRights,
}

// Where the rights in a dataset stand, or belong, among those that are known, in the order of the datasets'
// octets.
fn place_of(known: &[Known<'_>], dataset: &[u8]) -> usize
    ensures { result ≤ length known.now }
{
    known.partition_point(|other| other.dataset < dataset)
}

// Whether the rights in a dataset stand at a place.
fn stand_at(known: &[Known<'_>], at: usize, dataset: &[u8]) -> bool
    ensures within { IsTrue result → at < length known.now }
    ensures dataset { IsTrue result → asking.AreOf known.now at dataset.now }
{
    match known.get(at) {
        Some(known) => known.dataset == dataset,
        None => false,
    }
}

/// The place of the rights in a dataset among those that are known. Where they aren't, they are worked out
/// and put there.
pub(crate) fn learn_rights<'a>(
    alloc: Global,
    by: &WriteEnv<'_>,
    known: &mut Vec<Known<'a>>,
    dataset: &'a [u8],
) -> Result<usize, Memory>
    requires { asking.AreKnown by.now known.old.items }
    ensures known { OnOk result (asking.AreKnown by.now known.new.items) }
    ensures within { IfOk result (λ at. at < vec_len known.new) }
    ensures shared { IfOk result (λ at. asking.AreKnownAt by.now known.new.items at dataset.now) }
{
    let at = place_of(known.as_slice(), dataset);
    if !stand_at(known.as_slice(), at, dataset) {
        let shared = shared_rights(alloc, by.tree, by.realm, by.user, dataset)?;
        known.insert(at, Known { dataset, shared })?;
    }
    Ok(at)
}
