//! A reader of one dataset's entries, as live contexts read them: with the rights that the entries share.
ghost use Rattle.std.specs.Prelude.{◌≡◌, ◌+◌, None, Some, IfOk, IfSome};
ghost use Rattle.acap_inherit.specs.Records.{record_at};
ghost use Rattle.acap_search.specs.Views.{found_at, spot_in, standing_at};

use crate::cached::OwnRecord;
use crate::dataset_view::DatasetView;
use crate::entry_match::{hit_at, places_by, row_of};
use crate::entry_view::EntryView;
use crate::hit::Hit;
use crate::placing::places_at;
use crate::query::SearchSpec;
use crate::sort_term::SortPlaces;
use acap_entries::{Memory, Path, Record, Records, Steps};
use acap_rights::SharedRights;
use std::alloc::Global;
use std::marker::Model;
use std::sync::ledger::Ledger;

/// Who looks at the entries of a dataset. The rights that they share may be at hand where it inherits nothing:
/// of an entry whose record is at hand too nothing is then sought in the store (RFC 2244 sections 3.5 and 5.2).
#[derive(Drop)]
pub struct EntryReader<'a, R: Records> {
    by: DatasetView<'a, R>,
    shared: Option<&'a SharedRights>,
}

impl<'a, R: Records> Model for EntryReader<'a, R> {
    ghost use Rattle.acap_search.specs.RecordCaches.{AreSharedBy};
    ghost use Rattle.acap_search.specs.Views.{View, view_code};

    ghost Value = { View };

    ghost coded = { view_code };

    ghost view = { λ s. s.by };

    ghost invariant = { λ s. AreSharedBy s.by s.shared };
}

impl<'a, R: Records> EntryReader<'a, R> {
    ghost use Rattle.acap_search.specs.RecordCaches.{AreSharedBy};

    /// One that looks as a viewer does, with the rights that are at hand. Takes no memory.
    pub fn new(by: DatasetView<'a, R>, shared: Option<&'a SharedRights>) -> EntryReader<'a, R>
        requires { AreSharedBy by shared }
        ensures { result ≡ by.entry }
    {
        EntryReader { by, shared }
    }

    /// What a search makes of an entry, whose record may be at hand: one step, as `row_of`. Fails only for want of
    /// memory.
    pub fn row<L: Ledger>(
        &self,
        alloc: Global,
        path: &Path,
        entry: Option<&Record>,
        sought: &SearchSpec,
        steps: &mut Steps<L>,
    ) -> Result<Option<Hit>, Memory>
        requires here { self.now.dataset ≡ path.now.dataset }
        requires entry { IfSome entry
            (λ entry. record_at self.now.records self.now.dataset path.now.name ≡ Some entry.now) }
        ensures count { steps.new ≡ steps.old + 1 }
        ensures made { IfOk result
            (λ hit. hit ≡ found_at sought.now None (spot_in self.now path.now.name)) }
    {
        let by = &self.by;
        let name = &path.name;
        if let Some(shared) = self.shared
            && let Some(entry) = entry
        {
            let spot = EntryView::near(by, name, OwnRecord { entry, shared });
            return hit_at(alloc, &spot, Some(path), sought, None, steps);
        }
        row_of(alloc, by, name, sought, None, steps)
    }

    /// Where an entry stands for SORT, whose record may be at hand, as `places_at`. Fails only for want of memory.
    pub fn places(
        &self,
        alloc: Global,
        path: &Path,
        entry: Option<&Record>,
        sought: &SearchSpec,
    ) -> Result<SortPlaces, Memory>
        requires here { self.now.dataset ≡ path.now.dataset }
        requires entry { IfSome entry
            (λ entry. record_at self.now.records self.now.dataset path.now.name ≡ Some entry.now) }
        ensures { IfOk result (λ places. places ≡ standing_at sought.now (spot_in self.now path.now.name)) }
    {
        let by = &self.by;
        let name = &path.name;
        if let Some(shared) = self.shared
            && let Some(entry) = entry
        {
            let spot = EntryView::near(by, name, OwnRecord { entry, shared });
            return places_by(alloc, &spot, sought);
        }
        places_at(alloc, by, name, sought)
    }
}
