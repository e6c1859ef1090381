//! A walk over the entries of one dataset, in the order of their names, with what they share looked up once.
ghost use Rattle.std.specs.Prelude.{◌≡◌, ◌↔◌, ◌+◌, IfOk, IsTrue, OnOk};
ghost use Rattle.std.specs.List.{Contains};
ghost use Rattle.std.specs.Option.{option_copied};
ghost use Rattle.acap_inherit.specs.Records.{record_at};
ghost use Rattle.acap_search.specs.Gathering.{with_one};
ghost use Rattle.acap_search.specs.DatasetCursors.{IsGroundOf};
ghost use Rattle.acap_search.specs.Views.{found_at, match_at, spot_in};
ghost use Rattle.acap_search.specs.Walks as walks;

use crate::cached::OwnRecord;
use crate::dataset_head::DatasetHead;
use crate::dataset_view::DatasetView;
use crate::dataset_walk::base_of;
use crate::entry_match::tell_row;
use crate::entry_view::EntryView;
use crate::found_matches::FoundMatches;
use crate::plain_dataset::share_rights;
use crate::query::SearchSpec;
use crate::record_cache::RecordCache;
use crate::record_cursor::RecordCursor;
use crate::scope::looks_in;
use crate::walk::Walk;
use acap_entries::{Dataset, Memory, Path, Record, Records, Row, Steps, Tree, is_same};
use acap_inherit::chain_unless;
use acap_rights::SharedRights;
use std::alloc::Global;
use std::marker::Model;
use std::sync::ledger::Ledger;

/// A dataset whose entries are looked at one after the other, with what is made once for all of them.
#[derive(Drop)]
pub(crate) struct DatasetCursor<'a> {
    by: DatasetView<'a, Tree>,
    is_searched: bool,
    own: DatasetHead<'a>,
    base: DatasetHead<'a>,
    shared: Option<SharedRights>,
    shelf: RecordCursor<'a>,
}

impl<'a> Model for DatasetCursor<'a> {
    ghost use Rattle.std.specs.Option.{ForSome};
    ghost use Rattle.acap_search.specs.DatasetHeads.{IsFront};
    ghost use Rattle.acap_search.specs.DatasetCursors.{DatasetCursor, ground_code};
    ghost use Rattle.acap_search.specs.RecordCaches.{IsPlain};
    ghost use Rattle.std.specs.Prelude.{◌≡◌};

    ghost Value = { DatasetCursor };

    ghost coded = { ground_code };

    ghost view = { λ g. record { view = g.by; is_searched = g.is_searched } };

    ghost invariant = { λ g. IsFront g.by.records g.own × IsFront g.by.records g.base
        × ForSome g.shared (IsPlain g.by)
        × (g.shelf ≡ record { records = g.by.records; dataset = g.by.dataset }) };
}

// Whether a dataset is one that is looked through.
fn is_searched(search: &Walk<'_>, dataset: &Dataset) -> bool
    ensures { IsTrue result ↔ Contains (walks.datasets_by search.now) dataset.now }
{
    search.tree.form_law();
    looks_in(&search.sought.scope(), search.tree, dataset)
}

impl<'a> DatasetCursor<'a> {
    /// That of a dataset. Fails only for want of memory.
    pub(crate) fn at(
        alloc: Global,
        search: &Walk<'a>,
        dataset: &'a Dataset,
    ) -> Result<DatasetCursor<'a>, Memory>
        ensures made { IfOk result (λ made. IsGroundOf search.now made) }
        ensures at { IfOk result (λ made. made.view.dataset ≡ dataset.now) }
    {
        let sought = search.sought;
        let by = DatasetView {
            records: search.tree,
            realm: search.realm,
            user: search.user,
            dataset,
            chain: chain_unless(search.tree, dataset, sought.no_inherit),
        };
        let shared = share_rights(alloc, &by)?;
        let own = DatasetHead::of(by.records, dataset.as_slice());
        let base = DatasetHead::of(by.records, base_of(&by.chain));
        Ok(DatasetCursor {
            by,
            is_searched: is_searched(search, dataset),
            own,
            base,
            shared,
            shelf: RecordCursor::of(search.tree, dataset),
        })
    }

    /// Goes to a dataset, where it stands in another one. Fails only for want of memory.
    pub(crate) fn go_to(
        &mut self,
        alloc: Global,
        search: &Walk<'a>,
        dataset: &'a Dataset,
    ) -> Result<(), Memory>
        requires { IsGroundOf search.now self.old }
        ensures made { OnOk result (IsGroundOf search.now self.new) }
        ensures at { OnOk result (self.new.view.dataset ≡ dataset.now) }
    {
        if !is_same(self.by.dataset.as_slice(), dataset.as_slice()) {
            *self = DatasetCursor::at(alloc, search, dataset)?;
        }
        Ok(())
    }

    /// Whether it is one that is searched.
    pub(crate) fn is_searched(&self) -> bool
        ensures { result ≡ self.now.is_searched }
    {
        self.is_searched
    }

    // Adds what a search makes of an entry of it whose record is at hand, if there is one: one step.
    fn add_with<L: Ledger>(
        &self,
        alloc: Global,
        path: &'a Path,
        entry: Option<&'a Record>,
        sought: &SearchSpec,
        place: Option<u32>,
        found: &mut FoundMatches<'a>,
        steps: &mut Steps<L>,
    ) -> Result<(), Memory>
        requires here { self.now.view.dataset ≡ path.now.dataset }
        requires entry { option_copied entry
            ≡ record_at self.now.view.records self.now.view.dataset path.now.name }
        ensures count { steps.new ≡ steps.old + 1 }
        ensures found { OnOk result (found.new
            ≡ with_one found.old (found_at sought.now place (spot_in self.now.view path.now.name))) }
    {
        if let Some(shared) = &self.shared
            && let Some(entry) = entry
        {
            let spot = EntryView::near(&self.by, &path.name, OwnRecord { entry, shared });
            return found.add_at(alloc, &spot, Some(path), sought, place, steps);
        }
        let near = RecordCache::new(self.by.records, self.own, self.base, path.name.as_slice());
        let nearer = self.by.over(&near);
        let spot = EntryView::far(&nearer, &path.name);
        found.add_at(alloc, &spot, Some(path), sought, place, steps)
    }

    /// Adds what a search makes of an entry of it: one step. Fails for want of memory, and where there are more than can be counted.
    pub(crate) fn add<L: Ledger>(
        &mut self,
        alloc: Global,
        path: &'a Path,
        sought: &SearchSpec,
        place: Option<u32>,
        found: &mut FoundMatches<'a>,
        steps: &mut Steps<L>,
    ) -> Result<(), Memory>
        requires here { self.old.view.dataset ≡ path.now.dataset }
        ensures same { self.new ≡ self.old }
        ensures count { steps.new ≡ steps.old + 1 }
        ensures found { OnOk result (found.new
            ≡ with_one found.old (found_at sought.now place (spot_in self.old.view path.now.name))) }
    {
        let entry = self.shelf.find(&path.name);
        self.add_with(alloc, path, entry, sought, place, found, steps)
    }

    /// What is printed of an entry of it. Fails only for want of memory.
    pub(crate) fn tell(
        &self,
        alloc: Global,
        path: &Path,
        sought: &SearchSpec,
    ) -> Result<Row, Memory>
        requires { self.now.view.dataset ≡ path.now.dataset }
        ensures { IfOk result
            (λ row. row ≡ (match_at sought.now (spot_in self.now.view path.now.name)).row) }
    {
        let dataset = self.by.dataset.as_slice();
        if let Some(shared) = &self.shared
            && let Some(entry) = self.by.records.find(dataset, path.name.as_slice())
        {
            let spot = EntryView::near(&self.by, &path.name, OwnRecord { entry, shared });
            return tell_row(alloc, &spot, sought);
        }
        let near = RecordCache::new(self.by.records, self.own, self.base, path.name.as_slice());
        let nearer = self.by.over(&near);
        tell_row(alloc, &EntryView::far(&nearer, &path.name), sought)
    }
}
