//! Which of the entries that a change touches a context looks at.
ghost use Rattle.std.specs.Prelude.{◌≡◌, IfOk, IfSome};
ghost use Rattle.acap_inherit.specs.Leaving.{AreTouchedAt};
ghost use Rattle.acap_views.specs.Touching as rule;

use crate::planned_change::PlannedChange;
use crate::touched_cache::{CachedPaths, TouchedCache};
use acap_entries::{Boxed, Copying, Dataset, Memory, Paths, Ranked, is_same};
use acap_search::{SearchSpec, looks_in};
use std::alloc::Global;

/// Whether a change touches something in a dataset.
pub(crate) fn is_touched_in(ahead: &PlannedChange<'_, '_>, dataset: &Dataset) -> bool
    ensures { result ≡ rule.is_touched_in ahead.now dataset.now }
{
    ahead.reach.has(dataset)
}

// The datasets in which something may be touched.
fn reached_datasets(ahead: &PlannedChange<'_, '_>) -> Result<Ranked<Boxed<Dataset>>, Memory>
    ensures { IfOk result (λ made. rule.AreReached ahead.now made.0) }
{
    ahead.reach.datasets()
}

// Whether a search looks through a dataset.
fn is_looked_into(ahead: &PlannedChange<'_, '_>, sought: &SearchSpec, dataset: &Dataset) -> bool
    ensures { result ≡ rule.looks_into ahead.now sought.now dataset.now }
{
    looks_in(&sought.scope(), ahead.after, dataset)
}

// Those of some datasets through which a search looks.
fn looked_into<'n>(
    alloc: Global,
    ahead: &PlannedChange<'_, '_>,
    sought: &SearchSpec,
    datasets: &'n Ranked<Boxed<Dataset>>,
) -> Result<Vec<&'n Dataset>, Memory>
    ensures { IfOk result (λ made. rule.AreLookedInto ahead.now sought.now datasets.now.0 made.items) }
{
    let mut made = Vec::new(alloc);
    for dataset in datasets.iter() {
        let dataset = dataset.get();
        if is_looked_into(ahead, sought, dataset) {
            made.push(dataset)?;
        }
    }
    Ok(made)
}

// The touched entries that a search looks at, of which the datasets are among some.
fn in_datasets(
    alloc: Global,
    ahead: &PlannedChange<'_, '_>,
    sought: &SearchSpec,
    datasets: &Ranked<Boxed<Dataset>>,
) -> Result<Paths, Memory>
    requires { rule.AreReached ahead.now datasets.now.0 }
    ensures { IfOk result (λ paths. paths ≡ rule.looked_at_by ahead.now sought.now) }
{
    let looked = looked_into(alloc, ahead, sought, datasets)?;
    ahead.reach.touched_among(alloc, looked.as_slice())
}

// The touched entries of all datasets that a search with DEPTH looks through. The datasets in which something
// may be touched are listed once for a change.
fn beneath(
    alloc: Global,
    ahead: &PlannedChange<'_, '_>,
    sought: &SearchSpec,
    noted: &mut TouchedCache<'_>,
) -> Result<Paths, Memory>
    requires { rule.IsNoted ahead.now noted.old }
    ensures noted { rule.IsNoted ahead.now noted.new }
    ensures paths { IfOk result (λ paths. paths ≡ rule.looked_at_by ahead.now sought.now) }
{
    if let Some(datasets) = &noted.datasets {
        return in_datasets(alloc, ahead, sought, datasets);
    }
    let datasets = reached_datasets(ahead)?;
    let paths = in_datasets(alloc, ahead, sought, &datasets)?;
    noted.datasets = Some(datasets);
    Ok(paths)
}

// The touched entries of a dataset, where it is the one of which they are kept.
fn known_paths<'n>(
    ahead: &PlannedChange<'_, '_>,
    sought: &SearchSpec,
    noted: &'n TouchedCache<'_>,
) -> Option<&'n Paths>
    requires { rule.IsNoted ahead.now noted.now }
    ensures { IfSome result (λ paths. rule.AreLookedAt ahead.now sought.now paths.now) }
{
    let known = noted.last.as_ref()?;
    if is_same(known.dataset, sought.dataset.as_slice()) {
        Some(&known.paths)
    } else {
        None
    }
}

// The touched entries of a dataset.
fn touched_in(
    alloc: Global,
    ahead: &PlannedChange<'_, '_>,
    dataset: &Dataset,
) -> Result<Paths, Memory>
    ensures { IfOk result (AreTouchedAt ahead.now.change ahead.now.old dataset.now) }
{
    ahead.reach.touched_in(alloc, dataset)
}

// Lists the touched entries of a dataset, and keeps them if there are any.
fn note_paths<'a>(
    alloc: Global,
    ahead: &PlannedChange<'_, '_>,
    sought: &'a SearchSpec,
    noted: &mut TouchedCache<'a>,
) -> Result<Paths, Memory>
    requires { rule.IsNoted ahead.now noted.old }
    ensures noted { rule.IsNoted ahead.now noted.new }
    ensures paths { IfOk result (rule.AreLookedAt ahead.now sought.now) }
{
    let paths = touched_in(alloc, ahead, &sought.dataset)?;
    if paths.is_empty() {
        return Ok(paths);
    }
    let dataset = sought.dataset.as_slice();
    noted.last = Some(CachedPaths {
        dataset,
        paths: paths.copy()?,
    });
    Ok(paths)
}

// The touched entries of the one dataset that a search without DEPTH looks through.
fn in_dataset<'a>(
    alloc: Global,
    ahead: &PlannedChange<'_, '_>,
    sought: &'a SearchSpec,
    noted: &mut TouchedCache<'a>,
) -> Result<Paths, Memory>
    requires { rule.IsNoted ahead.now noted.old }
    ensures noted { rule.IsNoted ahead.now noted.new }
    ensures paths { IfOk result (rule.AreLookedAt ahead.now sought.now) }
{
    if let Some(paths) = known_paths(ahead, sought, noted) {
        return paths.copy();
    }
    note_paths(alloc, ahead, sought, noted)
}

/// The touched entries that a search looks at, in the order of their full octets. Where it looks through one
/// dataset, no name of another one is listed, and those that are listed are kept for the next search. Fails
/// only for want of memory.
pub(crate) fn list_touched<'a>(
    alloc: Global,
    ahead: &PlannedChange<'_, '_>,
    sought: &'a SearchSpec,
    noted: &mut TouchedCache<'a>,
) -> Result<Paths, Memory>
    requires { rule.IsNoted ahead.now noted.old }
    ensures noted { rule.IsNoted ahead.now noted.new }
    ensures paths { IfOk result (λ paths. paths ≡ rule.looked_at_by ahead.now sought.now) }
{
    if sought.depth.is_none() {
        return in_dataset(alloc, ahead, sought, noted);
    }
    beneath(alloc, ahead, sought, noted)
}
