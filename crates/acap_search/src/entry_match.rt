//! One entry judged by a search: whether it matches, where it stands for SORT, and its row.
ghost use Rattle.std.specs.Prelude.{◌≡◌, ◌+◌, ◌&&◌, IfOk, IfSome};
ghost use Rattle.std.specs.Option.{option_map};
ghost use Rattle.acap_search.specs.Keys.{holds};
ghost use Rattle.acap_search.specs.PathRefs.{path_in, places_on, untold};
ghost use Rattle.acap_search.specs.Sight.{is_seen};
ghost use Rattle.acap_search.specs.Views.{answers_of, found_at, match_at, path_of, spot_in};

use crate::dataset_view::DatasetView;
use crate::entry_view::EntryView;
use crate::found::Found;
use crate::hit::Hit;
use crate::match_key::MatchKey;
use crate::matching::wants;
use crate::path_ref::PathRef;
use crate::query::SearchSpec;
use crate::ranking::{footing_of, places_of};
use crate::record_cache::near_by;
use crate::rows::items_of;
use crate::sort_key::SortKey;
use crate::sort_term::SortPlaces;
use crate::values::sees;
use acap_entries::{
    Boxed, Copying, EntryName, Items, Label, Memory, Octets, Path, Records, Row, Steps,
};
use std::alloc::Global;
use std::sync::ledger::Ledger;

// The name of an entry as it is printed.
fn tell_name<R: Records>(
    alloc: Global,
    spot: &EntryView<'_, R>,
    sought: &SearchSpec,
) -> Result<Label, Memory>
    ensures { IfOk result (λ told. told ≡ (match_at sought.now spot.now).row.name) }
{
    let name = spot.name.as_slice();
    if sought.depth.is_none() {
        return Label::from_slice(alloc, name);
    }
    let by = spot.by;
    let mut full = Vec::with_capacity(alloc, by.dataset.as_slice().len() + name.len())?;
    full.extend_from_slice(by.dataset.as_slice())?;
    full.extend_from_slice(name)?;
    Ok(Label::new(Octets::from_vec(full)))
}

/// Where an entry stands for a SORT. Fails only for want of memory.
pub(crate) fn places_by<R: Records>(
    alloc: Global,
    spot: &EntryView<'_, R>,
    sought: &SearchSpec,
) -> Result<SortPlaces, Memory>
    ensures { IfOk result (λ places. places ≡ (match_at sought.now spot.now).places) }
{
    match &sought.sort {
        Some(sort) => places_of(alloc, spot, sort.as_slice()),
        None => Ok(SortPlaces::new(alloc)),
    }
}

// The same for what is found.
fn footing_by<R: Records>(
    alloc: Global,
    spot: &EntryView<'_, R>,
    sought: &SearchSpec,
) -> Result<SortKey, Memory>
    ensures { IfOk result (λ footing. places_on footing ≡ (match_at sought.now spot.now).places) }
{
    match &sought.sort {
        Some(sort) => footing_of(alloc, spot, sort.as_slice()),
        None => Ok(SortKey::Each(SortPlaces::new(alloc))),
    }
}

// What a RETURN prints of an entry.
fn items_by<R: Records>(
    alloc: Global,
    spot: &EntryView<'_, R>,
    sought: &SearchSpec,
) -> Result<Items, Memory>
    ensures { IfOk result (λ items. items ≡ (match_at sought.now spot.now).row.items) }
{
    match &sought.returns {
        Some(returns) => items_of(alloc, spot, returns.as_slice()),
        None => Ok(Items::new(alloc)),
    }
}

// The path of an entry: that of its record where it is at hand, else one that is made.
fn lying_at<'p, R: Records>(
    alloc: Global,
    spot: &EntryView<'_, R>,
    path: Option<&'p Path>,
) -> Result<PathRef<'p>, Memory>
    requires { IfSome path (λ path. path.now ≡ path_of spot.now) }
    ensures { IfOk result (λ lying. path_in lying ≡ path_of spot.now) }
{
    if let Some(path) = path {
        return Ok(PathRef::Kept(path));
    }
    let by = spot.by;
    let dataset = by.dataset.copy()?;
    let name = spot.name.copy()?;
    Ok(PathRef::Made(Boxed::new(alloc, Path { dataset, name })?))
}

// Where an entry is, and where it stands for a SORT.
fn stand_of<'p, R: Records>(
    alloc: Global,
    spot: &EntryView<'_, R>,
    path: Option<&'p Path>,
    sought: &SearchSpec,
) -> Result<MatchKey<'p>, Memory>
    requires { IfSome path (λ path. path.now ≡ path_of spot.now) }
    ensures { IfOk result (λ stand. stand ≡ untold (match_at sought.now spot.now)) }
{
    let lying = lying_at(alloc, spot, path)?;
    let footing = footing_by(alloc, spot, sought)?;
    Ok(MatchKey { lying, footing })
}

/// Whether the user sees an entry and the key wants it: one step, whatever comes of it.
pub(crate) fn is_found<R: Records, L: Ledger>(
    spot: &EntryView<'_, R>,
    sought: &SearchSpec,
    place: Option<u32>,
    steps: &mut Steps<L>,
) -> bool
    ensures count { steps.new ≡ steps.old + 1 }
    ensures found { result
        ≡ (is_seen (answers_of spot.now) && holds sought.now.key place (answers_of spot.now)) }
{
    steps.tick();
    sees(spot) && wants(spot, &sought.key, place)
}

/// What is printed of an entry. Fails only for want of memory.
pub(crate) fn tell_row<R: Records>(
    alloc: Global,
    spot: &EntryView<'_, R>,
    sought: &SearchSpec,
) -> Result<Row, Memory>
    ensures { IfOk result (λ row. row ≡ (match_at sought.now spot.now).row) }
{
    let name = tell_name(alloc, spot, sought)?;
    let items = items_by(alloc, spot, sought)?;
    Ok(Row { name, items })
}

/// Where an entry that is looked at is and stands, where it is found: one step. The path is that of its
/// record, where it is at hand.
pub(crate) fn stand_at<'p, R: Records, L: Ledger>(
    alloc: Global,
    spot: &EntryView<'_, R>,
    path: Option<&'p Path>,
    sought: &SearchSpec,
    place: Option<u32>,
    steps: &mut Steps<L>,
) -> Result<Option<MatchKey<'p>>, Memory>
    requires { IfSome path (λ path. path.now ≡ path_of spot.now) }
    ensures count { steps.new ≡ steps.old + 1 }
    ensures made { IfOk result
        (λ stand. stand ≡ option_map untold (found_at sought.now place spot.now)) }
{
    if !is_found(spot, sought, place, steps) {
        return Ok(None);
    }
    Ok(Some(stand_of(alloc, spot, path, sought)?))
}

/// What a search makes of an entry that is looked at: one step. The path is that of its record, where it is at hand.
pub(crate) fn finding_at<'p, R: Records, L: Ledger>(
    alloc: Global,
    spot: &EntryView<'_, R>,
    path: Option<&'p Path>,
    sought: &SearchSpec,
    place: Option<u32>,
    steps: &mut Steps<L>,
) -> Result<Option<Found<'p>>, Memory>
    requires { IfSome path (λ path. path.now ≡ path_of spot.now) }
    ensures count { steps.new ≡ steps.old + 1 }
    ensures made { IfOk result (λ found. found ≡ found_at sought.now place spot.now) }
{
    if !is_found(spot, sought, place, steps) {
        return Ok(None);
    }
    let stand = stand_of(alloc, spot, path, sought)?;
    let row = tell_row(alloc, spot, sought)?;
    Ok(Some(Found { stand, row }))
}

/// The same as a hit.
pub(crate) fn hit_at<'p, R: Records, L: Ledger>(
    alloc: Global,
    spot: &EntryView<'_, R>,
    path: Option<&'p Path>,
    sought: &SearchSpec,
    place: Option<u32>,
    steps: &mut Steps<L>,
) -> Result<Option<Hit>, Memory>
    requires { IfSome path (λ path. path.now ≡ path_of spot.now) }
    ensures count { steps.new ≡ steps.old + 1 }
    ensures made { IfOk result (λ hit. hit ≡ found_at sought.now place spot.now) }
{
    match finding_at(alloc, spot, path, sought, place, steps)? {
        Some(found) => Ok(Some(found.into_hit(alloc)?)),
        None => Ok(None),
    }
}

/// What a search makes of an entry: none where the user doesn't see it or the key doesn't want it, else where it stands and what
/// is printed of it (RFC 2244 section 6.4.1). The place is the entry's position in the context that is searched, and none over a
/// dataset. Fails only for want of memory. It counts as one step, whatever comes of it.
pub fn row_of<'a, R: Records, L: Ledger>(
    alloc: Global,
    by: &DatasetView<'a, R>,
    name: &'a EntryName,
    sought: &SearchSpec,
    place: Option<u32>,
    steps: &mut Steps<L>,
) -> Result<Option<Hit>, Memory>
    ensures count { steps.new ≡ steps.old + 1 }
    ensures made { IfOk result (λ hit. hit ≡ found_at sought.now place (spot_in by.now name.now)) }
{
    let near = near_by(by, name);
    let nearer = by.over(&near);
    hit_at(
        alloc,
        &EntryView::far(&nearer, name),
        None,
        sought,
        place,
        steps,
    )
}
