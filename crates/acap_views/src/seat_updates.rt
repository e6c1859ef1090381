//! What a change does to the contexts of each seat, in the order in which they are kept.
ghost use Rattle.std.specs.Prelude.{◌≡◌, ◌+◌, false, IfOk, OnOk, length, map as each};
ghost use Rattle.std.specs.Option.{ForSome};
ghost use Rattle.acap_entries.specs.Orders.{octets_eq};
ghost use Rattle.acap_search.specs.Counting.{IsCounted};
ghost use Rattle.acap_views.specs.Keeping.{occupant_in};
ghost use Rattle.acap_views.specs.Plans as rule;
ghost use Rattle.acap_views.specs.Plans.{live_needed};
ghost use Rattle.acap_views.specs.SharedRights.{AreLentFor, scene_by};
ghost use Rattle.acap_views.specs.Touching as touching;
ghost use Rattle.acap_views.specs.Touching.{IsNoted, looked_at_by};

use crate::change_view::ChangeView;
use crate::changed_entries::{are_many, shifts_at};
use crate::context_lists::ContextLists;
use crate::context_view::ContextView;
use crate::dataset_change::DatasetChange;
use crate::delta::{SeatUpdates, Shifts};
use crate::first_written::lies_in;
use crate::live_lists::LiveLists;
use crate::open_context::OpenContext;
use crate::planned_change::PlannedChange;
use crate::seat_contexts::SeatContexts;
use crate::share_rights::{are_noted, lend_shares, note_shares};
use crate::shared_rights::LentRightsPair;
use crate::touched_cache::TouchedCache;
use crate::touching::{is_touched_in, list_touched};
use crate::with_record::WithRecord;
use acap_entries::{ContextName, Memory, Paths, Sequence, Steps, UserName, is_same};
use acap_search::SearchSpec;
use std::alloc::Global;
use std::sync::ledger::Ledger;

// The sum of both counts. Memory could not hold more than are counted.
fn and_more(count: u64, more: usize) -> Result<u64, Memory>
    ensures { IfOk result (λ sum. sum ≡ count + more) }
{
    match count.checked_add(more as u64) {
        Some(sum) => Ok(sum),
        None => Err(Memory),
    }
}

// What becomes of entries that a live context looks at. The rights that they share may be at hand.
fn looked_turn<L: Ledger>(
    alloc: Global,
    lookout: &ChangeView<'_, '_, '_>,
    user: &UserName,
    sought: &SearchSpec,
    watch: &LiveLists,
    paths: Paths,
    lent: LentRightsPair<'_>,
    steps: &mut Steps<L>,
) -> Result<Shifts, Memory>
    requires paths { paths ≡ looked_at_by lookout.now sought.now }
    requires lent { AreLentFor (scene_by lookout.now user.now sought.now) lent }
    ensures count { IsCounted result steps.old steps.new (length paths) }
    ensures shifts { IfOk result (λ shifts. shifts ≡ live_needed lookout.now user.now sought.now watch.now) }
{
    let ahead = lookout.ahead;
    let after = WithRecord::of(&lookout.beside, sought.dataset.as_slice());
    let scene = ContextView {
        before: ahead.tree,
        ahead: ahead.after,
        first: lookout.first,
        after: &after,
        realm: ahead.realm,
        user,
        sought,
    };
    let mut field = DatasetChange::of(&scene, lent, are_many(&paths));
    shifts_at(alloc, &mut field, watch, paths, steps)
}

// The same, where there may be none. A dataset that inherits nothing is touched only where it is written.
fn live_turn<'a, L: Ledger>(
    alloc: Global,
    lookout: &ChangeView<'_, '_, '_>,
    user: &'a UserName,
    sought: &'a SearchSpec,
    watch: &LiveLists,
    paths: Paths,
    noted: &mut TouchedCache<'a>,
    steps: &mut Steps<L>,
) -> Result<Shifts, Memory>
    requires paths { paths ≡ looked_at_by lookout.now sought.now }
    requires noted { IsNoted lookout.now noted.old }
    ensures noted { IsNoted lookout.now noted.new }
    ensures count { IsCounted result steps.old steps.new (length paths) }
    ensures shifts { IfOk result (λ shifts. shifts ≡ live_needed lookout.now user.now sought.now watch.now) }
{
    if paths.is_empty() {
        return Ok(Shifts::new(alloc));
    }
    if !are_noted(noted, user, sought) {
        if !lies_in(lookout.first, &sought.dataset) {
            let none = LentRightsPair::nothing();
            return looked_turn(alloc, lookout, user, sought, watch, paths, none, steps);
        }
        note_shares(alloc, lookout.ahead, user, sought, noted)?;
    }
    let lent = lend_shares(lookout.ahead, noted, user, sought);
    looked_turn(alloc, lookout, user, sought, watch, paths, lent, steps)
}

// What becomes of the entries that a context looks at, and how many these are: none where it isn't live.
fn turn_of<'a, L: Ledger>(
    alloc: Global,
    lookout: &ChangeView<'_, '_, '_>,
    user: &'a UserName,
    context: &'a OpenContext,
    noted: &mut TouchedCache<'a>,
    work: &mut u64,
    steps: &mut Steps<L>,
) -> Result<Shifts, Memory>
    requires { IsNoted lookout.now noted.old }
    ensures noted { IsNoted lookout.now noted.new }
    ensures count { IsCounted result steps.old steps.new (rule.work_in lookout.now context.now.context) }
    ensures work { OnOk result (work.new ≡ work.old + rule.work_in lookout.now context.now.context) }
    ensures shifts { IfOk result
        (λ shifts. shifts ≡ rule.needed_in lookout.now user.now context.now.context) }
{
    let sought = &context.sought;
    match &context.held {
        ContextLists::Live(watch) => {
            let paths = list_touched(alloc, lookout.ahead, sought, noted)?;
            *work = and_more(*work, paths.len())?;
            live_turn(alloc, lookout, user, sought, watch, paths, noted, steps)
        }
        ContextLists::Snapshot(_) | ContextLists::Freed => Ok(Shifts::new(alloc)),
    }
}

// Whether a search may look at a touched entry: with DEPTH any may.
fn is_asked(ahead: &PlannedChange<'_, '_>, sought: &SearchSpec) -> bool
    ensures { result ≡ touching.is_asked ahead.now sought.now }
{
    sought.depth.is_some() || is_touched_in(ahead, &sought.dataset)
}

// Whether a context may look at one: whether it is live, and its search may.
fn may_look(ahead: &PlannedChange<'_, '_>, context: &OpenContext) -> bool
    ensures { result ≡ touching.may_look ahead.now context.now.context }
{
    is_asked(ahead, &context.sought) && context.is_live()
}

// Whether one of some contexts may.
fn any_may_look(ahead: &PlannedChange<'_, '_>, contexts: &[(ContextName, OpenContext)]) -> bool
    ensures { result ≡ touching.any_may_look ahead.now contexts.now }
{
    contexts.iter().any(|entry| may_look(ahead, &entry.1))
}

// Whether two datasets are one: most have other lengths.
fn is_that(dataset: &[u8], other: &[u8]) -> bool
    ensures { result ≡ octets_eq dataset.now other.now }
{
    dataset.len() == other.len() && is_same(dataset, other)
}

// Whether a context may, where nothing is touched outside of a dataset.
fn may_be_in(only: &[u8], context: &OpenContext) -> bool
    ensures { result ≡ touching.may_be_in only.now context.now.context.sought }
{
    context.sought.depth.is_some() || is_that(only, context.sought.dataset.as_slice())
}

// The same of some contexts.
fn any_may_be_in(only: &[u8], contexts: &[(ContextName, OpenContext)]) -> bool
    ensures { result ≡ touching.any_may_be_in only.now contexts.now }
{
    contexts.iter().any(|entry| may_be_in(only, &entry.1))
}

// Whether it may be that one of some contexts looks at a touched entry. No chain is looked up where all that is
// touched lies in one dataset.
fn some_may_look(ahead: &PlannedChange<'_, '_>, contexts: &[(ContextName, OpenContext)]) -> bool
    ensures { result ≡ false → touching.any_may_look ahead.now contexts.now ≡ false }
{
    match ahead.reach.only() {
        Some(only) => any_may_be_in(only, contexts),
        None => any_may_look(ahead, contexts),
    }
}

// Whether no context of a seat looks at a touched entry.
fn are_still(turns: &[Shifts]) -> bool
    ensures { result ≡ rule.is_still turns.now }
{
    turns.iter().all(|shifts| shifts.is_empty())
}

// What becomes of the contexts of a seat: nothing where none of them looks at a touched entry.
fn trim(alloc: Global, turns: SeatUpdates) -> SeatUpdates
    ensures { result ≡ rule.unless_still turns }
{
    if are_still(turns.as_slice()) {
        SeatUpdates::new(alloc)
    } else {
        turns
    }
}

// What becomes of the entries that the contexts of a seat look at, where one of them may look at one.
fn turns_at<'a, L: Ledger>(
    alloc: Global,
    view: &ChangeView<'_, '_, '_>,
    sitting: &'a SeatContexts,
    noted: &mut TouchedCache<'a>,
    work: &mut u64,
    steps: &mut Steps<L>,
) -> Result<SeatUpdates, Memory>
    requires { IsNoted view.now noted.old }
    ensures noted { IsNoted view.now noted.new }
    ensures count { IsCounted result steps.old steps.new (rule.work_at view.now (occupant_in sitting.now)) }
    ensures work { OnOk result (work.new ≡ work.old + rule.work_at view.now (occupant_in sitting.now)) }
    ensures turns { IfOk result (λ turns. turns ≡ rule.needed_at view.now (occupant_in sitting.now)) }
{
    let mut turns = Vec::with_capacity(alloc, sitting.contexts.len())?;
    for entry in &sitting.contexts {
        turns.push(turn_of(alloc, view, &sitting.user, &entry.1, noted, work, steps)?)?;
    }
    Ok(trim(alloc, SeatUpdates::from_vec(turns)))
}

/// What becomes of the entries that the contexts of a seat look at, context by context, and how many these
/// are. Nothing is made where none of them may look at one. Each entry counts as a step for each context that
/// looks at it. What is at hand of the change is made at the first seat that asks. Fails only for want of memory.
pub(crate) fn turns_of<'a, 'l, 's, 'r, L: Ledger>(
    alloc: Global,
    ahead: &'l PlannedChange<'s, 'r>,
    kept: &mut Option<ChangeView<'l, 's, 'r>>,
    sitting: &'a SeatContexts,
    noted: &mut TouchedCache<'a>,
    work: &mut u64,
    steps: &mut Steps<L>,
) -> Result<SeatUpdates, Memory>
    requires kept { ForSome kept.old (λ lookout. lookout ≡ ahead.now) }
    requires noted { IsNoted ahead.now noted.old }
    ensures kept { ForSome kept.new (λ lookout. lookout ≡ ahead.now) }
    ensures noted { IsNoted ahead.now noted.new }
    ensures count { IsCounted result steps.old steps.new (rule.work_at ahead.now (occupant_in sitting.now)) }
    ensures work { OnOk result (work.new ≡ work.old + rule.work_at ahead.now (occupant_in sitting.now)) }
    ensures turns { IfOk result (λ turns. turns ≡ rule.needed_at ahead.now (occupant_in sitting.now)) }
{
    if !some_may_look(ahead, sitting.contexts()) {
        return Ok(SeatUpdates::new(alloc));
    }
    if let Some(lookout) = kept {
        return turns_at(alloc, lookout, sitting, noted, work, steps);
    }
    let lookout = ChangeView::of(ahead);
    let turns = turns_at(alloc, &lookout, sitting, noted, work, steps);
    *kept = Some(lookout);
    turns
}
