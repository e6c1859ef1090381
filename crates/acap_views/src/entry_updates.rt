//! What a change does to each entry that a live context looks at, and the notices that come of it.
ghost use Rattle.std.specs.Prelude.{◌≡◌, ◌+◌, ◌≤◌, IfOk, OnOk, length, map as each};
ghost use Rattle.acap_notices.specs.Waiting.{notices_pending};
ghost use Rattle.acap_search.specs.Counting.{IsCounted};
ghost use Rattle.acap_search.specs.Tuples as tuples;
ghost use Rattle.acap_views.specs.EntryOutcomes.{name_in, come_in, name_for, IsTold};
ghost use Rattle.acap_views.specs.ContextViews.{shift_in};
ghost use Rattle.acap_views.specs.EntryUpdates as moves;
ghost use Rattle.acap_views.specs.EntryUpdates.{until_full};

use crate::dataset_change::DatasetChange;
use crate::delta::Shifts;
use crate::entry_update::{EntryOutcome, EntryUpdate};
use crate::live_lists::LiveLists;
use acap_entries::{Copying, Label, Memory, Octets, Path, Paths, Steps};
use acap_notices::NOTICES_PENDING;
use acap_search::{BoxedHit, Hit, HitKey, SearchSpec};
use std::alloc::Global;
use std::sync::ledger::Ledger;

// The name under which an entry is sent.
fn tell_name(alloc: Global, path: &Path, sought: &SearchSpec) -> Result<Label, Memory>
    ensures { IfOk result (λ name. name ≡ tuples.name_told sought.now.depth path.now) }
{
    let name = path.name.as_slice();
    if sought.depth.is_none() {
        return Label::from_slice(alloc, name);
    }
    let dataset = path.dataset.as_slice();
    let mut full = Vec::with_capacity(alloc, dataset.len() + name.len())?;
    full.extend_from_slice(dataset)?;
    full.extend_from_slice(name)?;
    Ok(Label::new(Octets::from_vec(full)))
}

/// What is to be sent of an entry, of which this is found. Fails only for want of memory.
pub(crate) fn news_of(
    alloc: Global,
    path: &Path,
    sought: &SearchSpec,
    found: Option<Hit>,
) -> Result<EntryOutcome, Memory>
    ensures come { IfOk result (λ news. come_in news ≡ found) }
    ensures told { IfOk result (λ news. IsTold news) }
    ensures name { IfOk result (λ news. name_in news ≡ name_for sought.now path.now found) }
{
    match found {
        Some(hit) => {
            let row = hit.row().copy()?;
            Ok(EntryOutcome::Here(BoxedHit::new(alloc, hit)?, row))
        }
        None => Ok(EntryOutcome::Gone(tell_name(alloc, path, sought)?)),
    }
}

// What becomes of one entry.
fn shift_at<L: Ledger>(
    alloc: Global,
    field: &mut DatasetChange<'_>,
    path: Path,
    steps: &mut Steps<L>,
) -> Result<EntryUpdate, Memory>
    ensures same { field.new ≡ field.old }
    ensures least { steps.old ≤ steps.new }
    ensures most { steps.new ≤ steps.old + 1 }
    ensures count { OnOk result (steps.new ≡ steps.old + 1) }
    ensures shift { IfOk result (λ shift. shift ≡ shift_in field.old path) }
{
    let (places, found) = field.look(alloc, &path, steps)?;
    let news = news_of(alloc, &path, field.sought(), found)?;
    Ok(EntryUpdate { places, path, news })
}

// Whether something is sent for certain with what becomes of an entry.
fn surely_tells(watch: &LiveLists, shift: &EntryUpdate) -> bool
    ensures { result ≡ moves.surely_tells watch.now.present shift.now }
{
    let old = HitKey {
        places: &shift.places,
        path: &shift.path,
    };
    match (&shift.news, watch.hits.find(&old)) {
        (EntryOutcome::Gone(_), None) => false,
        (EntryOutcome::Gone(_), Some(_)) | (EntryOutcome::Here(..), None) => true,
        (EntryOutcome::Here(_, row), Some(hit)) => *hit.hit().row() != *row,
    }
}

/// How many notices wait or will for certain, with one entry more.
pub(crate) fn count_on(watch: &LiveLists, shift: &EntryUpdate, count: usize) -> usize
    requires { count ≤ notices_pending }
    ensures { result ≡ moves.count_with watch.now.present shift.now count }
{
    if surely_tells(watch, shift) {
        count + 1
    } else {
        count
    }
}

/// What becomes of some entries, one after the other. Each counts as a step. Fails only for want of memory.
pub(crate) fn all_shifts<L: Ledger>(
    alloc: Global,
    field: &mut DatasetChange<'_>,
    paths: Paths,
    steps: &mut Steps<L>,
) -> Result<Shifts, Memory>
    ensures same { field.new ≡ field.old }
    ensures count { IsCounted result steps.old steps.new (length paths) }
    ensures shifts { IfOk result (λ shifts. shifts ≡ each (shift_in field.old) paths) }
{
    let mut shifts = Vec::with_capacity(alloc, paths.len())?;
    for path in paths.into_vec() {
        shifts.push(shift_at(alloc, field, path, steps)?)?;
    }
    Ok(Shifts::from_vec(shifts))
}

/// The same of no more entries once the context is certain to be freed. Those that are left out count as well.
pub(crate) fn needed_shifts<L: Ledger>(
    alloc: Global,
    field: &mut DatasetChange<'_>,
    watch: &LiveLists,
    paths: Paths,
    steps: &mut Steps<L>,
) -> Result<Shifts, Memory>
    ensures same { field.new ≡ field.old }
    ensures count { IsCounted result steps.old steps.new (length paths) }
    ensures shifts { IfOk result (λ shifts.
        shifts ≡ until_full watch.now.present (length watch.now.pending) (each (shift_in field.old) paths)) }
{
    let mut shifts = Vec::with_capacity(alloc, paths.len())?;
    let mut count = watch.pending().len();
    for path in paths.into_vec() {
        if count > NOTICES_PENDING {
            steps.tick();
        } else {
            let shift = shift_at(alloc, field, path, steps)?;
            count = count_on(watch, &shift, count);
            shifts.push(shift)?;
        }
    }
    Ok(Shifts::from_vec(shifts))
}
