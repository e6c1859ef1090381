//! Which of many touched entries change their match in a live context.
ghost use Rattle.std.specs.Prelude.{◌≡◌, ◌∷◌, ◌+◌, ◌≤◌, [], IfOk, OnOk, length, nat_lt, map as each};
ghost use Rattle.std.specs.List.{cons_option, filter};
ghost use Rattle.std.specs.Option.{option_copied};
ghost use Rattle.acap_search.specs.Counting.{IsCounted};
ghost use Rattle.acap_views.specs.Notices.{same_match, same_tuple};
ghost use Rattle.acap_views.specs.ContextViews.{shift_in};
ghost use Rattle.acap_views.specs.EntryUpdates.{few, has_changed, due_shifts, until_full};

use crate::dataset_change::DatasetChange;
use crate::delta::Shifts;
use crate::entry_update::EntryUpdate;
use crate::entry_updates::{all_shifts, count_on, needed_shifts, news_of};
use crate::hit_cursor::HitCursor;
use crate::live_lists::LiveLists;
use acap_entries::{Memory, Path, Paths, Steps};
use acap_notices::NOTICES_PENDING;
use acap_search::{BoxedHit, Hit, HitKey};
use std::alloc::Global;
use std::sync::ledger::Ledger;

// The most touched entries that are taken as they are: to look for those that stay takes longer than to keep them.
const FEW: usize = 256;

// Whether two hits are the same.
fn is_same(hit: &Hit, other: &Hit) -> bool
    ensures { result ≡ same_match hit.now other.now }
{
    hit.equals(other)
}

// Whether what is found of an entry is what stood in the list.
fn stays(known: Option<&BoxedHit>, found: &Option<Hit>) -> bool
    ensures { result ≡ same_tuple (option_copied known.entry) found.now }
{
    match (known, found) {
        (None, None) => true,
        (Some(placed), Some(hit)) => is_same(placed.hit(), hit),
        (Some(_), None) | (None, Some(_)) => false,
    }
}

// What becomes of an entry, where its match has changed. A hit that stays is not put into a box, nor is its row copied.
fn change_at<L: Ledger>(
    alloc: Global,
    field: &mut DatasetChange<'_>,
    hits: &mut HitCursor<'_>,
    path: Path,
    steps: &mut Steps<L>,
) -> Result<Option<EntryUpdate>, Memory>
    ensures field { field.new ≡ field.old }
    ensures hits { hits.new ≡ hits.old }
    ensures least { steps.old ≤ steps.new }
    ensures most { steps.new ≤ steps.old + 1 }
    ensures count { OnOk result (steps.new ≡ steps.old + 1) }
    ensures shift { IfOk result
        (λ made. cons_option made [] ≡ filter (has_changed hits.old) (shift_in field.old path ∷ [])) }
{
    let (places, found) = field.look(alloc, &path, steps)?;
    let old = HitKey {
        places: &places,
        path: &path,
    };
    if stays(hits.find(&old), &found) {
        return Ok(None);
    }
    let news = news_of(alloc, &path, field.sought(), found)?;
    Ok(Some(EntryUpdate { places, path, news }))
}

// What becomes of those entries whose match has changed, and of no more once the context is certain to be freed. Those that are
// left out count as well.
fn changing_shifts<L: Ledger>(
    alloc: Global,
    field: &mut DatasetChange<'_>,
    watch: &LiveLists,
    paths: Paths,
    steps: &mut Steps<L>,
) -> Result<Shifts, Memory>
    ensures same { field.new ≡ field.old }
    ensures count { IsCounted result steps.old steps.new (length paths) }
    ensures shifts { IfOk result (λ shifts. shifts ≡ until_full watch.now.present (length watch.now.pending)
        (filter (has_changed watch.now.present) (each (shift_in field.old) paths))) }
{
    let mut hits = HitCursor::over(&watch.hits);
    let mut shifts = Vec::new(alloc);
    let mut count = watch.pending().len();
    for path in paths.into_vec() {
        if count > NOTICES_PENDING {
            steps.tick();
        } else if let Some(shift) = change_at(alloc, field, &mut hits, path, steps)? {
            count = count_on(watch, &shift, count);
            shifts.push(shift)?;
        }
    }
    Ok(Shifts::from_vec(shifts))
}

// What becomes of so few entries that none is left out before the context is certain to be freed. Where all of them may wait no
// notice is counted.
fn few_shifts<L: Ledger>(
    alloc: Global,
    field: &mut DatasetChange<'_>,
    watch: &LiveLists,
    paths: Paths,
    steps: &mut Steps<L>,
) -> Result<Shifts, Memory>
    ensures same { field.new ≡ field.old }
    ensures count { IsCounted result steps.old steps.new (length paths) }
    ensures shifts { IfOk result (λ shifts.
        shifts ≡ until_full watch.now.present (length watch.now.pending) (each (shift_in field.old) paths)) }
{
    if paths.len() <= NOTICES_PENDING - watch.pending.len() {
        return all_shifts(alloc, field, paths, steps);
    }
    needed_shifts(alloc, field, watch, paths, steps)
}

/// Whether enough entries are touched that it is worth while to look for those that stay.
pub(crate) fn are_many(paths: &Paths) -> bool
    ensures { result ≡ nat_lt few (length paths.now) }
{
    paths.len() > FEW
}

/// What is due of some entries that a live context looks at, one after the other: of many of them those whose match has changed,
/// and none once the context is certain to be freed. Each counts as a step, also those that are left out. Fails only for want of
/// memory.
pub(crate) fn shifts_at<L: Ledger>(
    alloc: Global,
    field: &mut DatasetChange<'_>,
    watch: &LiveLists,
    paths: Paths,
    steps: &mut Steps<L>,
) -> Result<Shifts, Memory>
    ensures same { field.new ≡ field.old }
    ensures count { IsCounted result steps.old steps.new (length paths) }
    ensures shifts { IfOk result (λ shifts. shifts ≡ due_shifts watch.now (each (shift_in field.old) paths)) }
{
    if are_many(&paths) {
        return changing_shifts(alloc, field, watch, paths, steps);
    }
    few_shifts(alloc, field, watch, paths, steps)
}
