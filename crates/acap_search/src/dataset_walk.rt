//! What a search finds in one dataset: among its own records, among all names along its chain, or at the only name that the key can hold
//! for.
ghost use Rattle.std.specs.Prelude.{◌≡◌, ◌+◌, ◌<◌, IfOk, None, OnOk, Some};
ghost use Rattle.std.specs.List.{filter};
ghost use Rattle.std.specs.FinMap as map;
ghost use Rattle.acap_rights.specs.Sharing.{AreShared};
ghost use Rattle.acap_search.specs.Counting.{IsCounted};
ghost use Rattle.acap_search.specs.Gathering.{with_more, with_one};
ghost use Rattle.acap_search.specs.Named as naming;
ghost use Rattle.acap_search.specs.RecordCaches as near;
ghost use Rattle.acap_search.specs.RecordCaches.{AreAlong};
ghost use Rattle.acap_search.specs.Views.{found_at, spot_in};
ghost use Rattle.acap_search.specs.Walks as walks;

use crate::cached::{ChainRights, OwnRecord};
use crate::dataset_head::DatasetHead;
use crate::dataset_view::DatasetView;
use crate::entry_view::EntryView;
use crate::found_matches::FoundMatches;
use crate::name_key::{find_name, only_name};
use crate::names_count::{count_all, count_others};
use crate::plain_dataset::{is_alone, share_rights};
use crate::query::SearchSpec;
use crate::record_cache::{RecordCache, near_by};
use crate::walk::Walk;
use acap_entries::{Dataset, EntryName, Listing, Memory, Path, Record, Records, Steps, Tree};
use acap_inherit::{Lineage, chain_unless, names_law, names_on};
use acap_rights::{SharedRights, shared_rights};
use std::alloc::Global;
use std::sync::ledger::Ledger;

// Adds what is found among the records of a dataset that inherits nothing.
#[tactic(auto, using(crate::proofs::FoundLemmas::gathered_next))]
fn add_own<'a: 'b, 'b, L: Ledger>(
    alloc: Global,
    by: &'b DatasetView<'b, Tree>,
    entries: Listing<'a>,
    shared: &'b SharedRights,
    sought: &SearchSpec,
    found: &mut FoundMatches<'a>,
    steps: &mut Steps<L>,
) -> Result<(), Memory>
    requires plain { near.IsPlain by.now shared.now }
    requires all { entries ≡ filter (near.lies_in by.now.dataset) (map.entries by.now.records) }
    ensures count { IsCounted result steps.old steps.new (walks.names_count by.now) }
    ensures found { OnOk result (found.new ≡ with_more found.old (walks.hits_along by.now sought.now)) }
{
    for (path, entry) in entries {
        let spot = EntryView::near(by, &path.name, OwnRecord { entry, shared });
        found.add_at(alloc, &spot, Some(path), sought, None, steps)?;
    }
    Ok(())
}

/// The second dataset of a chain, which is the one that most is inherited from; in a chain of one that.
pub(crate) fn base_of<'a>(chain: &Lineage<'a>) -> &'a [u8] {
    match chain.names() {
        [_, base, ..] => *base,
        names => names[0],
    }
}

// Adds what is found at a name along a chain, with its records at hand. The rights may be.
fn add_near<'a, L: Ledger>(
    alloc: Global,
    by: &DatasetView<'_, Tree>,
    near: &RecordCache<'_, Tree>,
    name: &EntryName,
    along: Option<ChainRights<'_>>,
    sought: &SearchSpec,
    found: &mut FoundMatches<'a>,
    steps: &mut Steps<L>,
) -> Result<(), Memory>
    requires records { near.now.records ≡ by.now.records }
    requires rights { AreAlong by.now along }
    ensures count { steps.new ≡ steps.old + 1 }
    ensures found { OnOk result
        (found.new ≡ with_one found.old (found_at sought.now None (spot_in by.now name.now))) }
{
    let nearer = by.over(near);
    let spot = EntryView::along(&nearer, name, along);
    found.add_at(alloc, &spot, None, sought, None, steps)
}

// The rights that the entries of a dataset share.
fn rights_in(
    alloc: Global,
    by: &DatasetView<'_, Tree>,
    dataset: &[u8],
) -> Result<SharedRights, Memory>
    ensures { IfOk result (λ shared. AreShared by.now.records by.now.realm by.now.user dataset.now shared) }
{
    shared_rights(alloc, by.records, by.realm, by.user, dataset)
}

// Adds what is found at all names along a chain.
#[tactic(auto, using(crate::proofs::FoundLemmas::gathered_none, crate::proofs::FoundLemmas::gathered_next))]
fn add_far<'a, L: Ledger>(
    alloc: Global,
    by: &DatasetView<'_, Tree>,
    sought: &SearchSpec,
    found: &mut FoundMatches<'a>,
    steps: &mut Steps<L>,
) -> Result<(), Memory>
    ensures count { IsCounted result steps.old steps.new (walks.names_count by.now) }
    ensures found { OnOk result (found.new ≡ with_more found.old (walks.hits_along by.now sought.now)) }
{
    let below = base_of(&by.chain);
    let own_rights = rights_in(alloc, by, by.dataset.as_slice())?;
    let base_rights = rights_in(alloc, by, below)?;
    let along = Some(ChainRights {
        own: &own_rights,
        base: below,
        inherited: &base_rights,
    });
    let own = DatasetHead::of(by.records, by.dataset.as_slice());
    let base = DatasetHead::of(by.records, below);
    for name in names_on(by.records, &by.chain) {
        let near = RecordCache::new(by.records, own, base, name.as_slice());
        add_near(alloc, by, &near, name, along, sought, found, steps)?;
    }
    Ok(())
}

// Adds what is found at the only name that the key can hold for, and counts the others, at which nothing is found. Where nothing is
// inherited its record is at hand, and the rights are made once.
fn add_named<'a, L: Ledger>(
    alloc: Global,
    by: &DatasetView<'_, Tree>,
    name: &EntryName,
    sought: &SearchSpec,
    found: &mut FoundMatches<'a>,
    steps: &mut Steps<L>,
) -> Result<(), Memory>
    requires { 0 < walks.names_count by.now }
    ensures count { IsCounted result steps.old steps.new (walks.names_count by.now) }
    ensures found { OnOk result
        (found.new ≡ with_one found.old (found_at sought.now None (spot_in by.now name.now))) }
{
    count_others(by, steps);
    if let Some(shared) = share_rights(alloc, by)?
        && let Some(entry) = by.records.find(by.dataset.as_slice(), name.as_slice())
    {
        let spot = EntryView::near(
            by,
            name,
            OwnRecord {
                entry,
                shared: &shared,
            },
        );
        return found.add_at(alloc, &spot, None, sought, None, steps);
    }
    let near = near_by(by, name);
    add_near(alloc, by, &near, name, None, sought, found, steps)
}

// Adds what is found where the key gives the only name that it can hold for: one entry is looked at.
#[tactic(auto, using(crate::proofs::FoundLemmas::gathered_none))]
fn add_only<'a, L: Ledger>(
    alloc: Global,
    by: &DatasetView<'_, Tree>,
    name: &[u8],
    sought: &SearchSpec,
    found: &mut FoundMatches<'a>,
    steps: &mut Steps<L>,
) -> Result<(), Memory>
    requires { naming.only_name sought.now.key ≡ Some name.now }
    ensures count { IsCounted result steps.old steps.new (walks.names_count by.now) }
    ensures found { OnOk result (found.new ≡ with_more found.old (walks.hits_along by.now sought.now)) }
{
    names_law();
    match find_name(by.records, &by.chain, name) {
        Some(name) => add_named(alloc, by, name, sought, found, steps),
        None => {
            count_all(by, steps);
            Ok(())
        }
    }
}

/// Adds what is found in one dataset, whose chain is made once.
#[tactic(auto, unfolding(crate::specs::Walks::hits_in, crate::specs::Walks::count_in))]
pub(crate) fn add_in<'a, L: Ledger>(
    alloc: Global,
    search: &Walk<'a>,
    dataset: &Dataset,
    found: &mut FoundMatches<'a>,
    steps: &mut Steps<L>,
) -> Result<(), Memory>
    ensures count { IsCounted result steps.old steps.new (walks.count_in search.now dataset.now) }
    ensures found { OnOk result (found.new ≡ with_more found.old (walks.hits_in search.now dataset.now)) }
{
    let sought = search.sought;
    let by = DatasetView {
        records: search.tree,
        realm: search.realm,
        user: search.user,
        dataset,
        chain: chain_unless(search.tree, dataset, sought.no_inherit),
    };
    if let Some(name) = only_name(&sought.key) {
        return add_only(alloc, &by, name, sought, found, steps);
    }
    if !is_alone(&by.chain, dataset.as_slice()) {
        return add_far(alloc, &by, sought, found, steps);
    }
    let shared = rights_in(alloc, &by, dataset.as_slice())?;
    let entries = search.tree.entries_of(dataset.as_slice());
    add_own(alloc, &by, entries, &shared, sought, found, steps)
}
