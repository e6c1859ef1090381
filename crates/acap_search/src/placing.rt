//! The SORT terms of an entry, whether it matches or not.
ghost use Rattle.std.specs.Prelude.{◌≡◌, IfOk};
ghost use Rattle.acap_search.specs.Views.{standing_at, spot_in};

use crate::dataset_view::DatasetView;
use crate::entry_match::places_by;
use crate::entry_view::EntryView;
use crate::query::SearchSpec;
use crate::sort_term::SortPlaces;
use acap_entries::{EntryName, Memory, Records};
use std::alloc::Global;

/// Where an entry stands for SORT, by what the user may read of it, whether it is seen and wanted or not (RFC 2244 section 6.4.1):
/// no hit is made. Fails only for want of memory.
pub fn places_at<'a, R: Records>(
    alloc: Global,
    by: &DatasetView<'a, R>,
    name: &'a EntryName,
    sought: &SearchSpec,
) -> Result<SortPlaces, Memory>
    ensures { IfOk result (λ places. places ≡ standing_at sought.now (spot_in by.now name.now)) }
{
    places_by(alloc, &EntryView::far(by, name), sought)
}
