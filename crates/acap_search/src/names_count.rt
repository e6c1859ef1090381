//! Counts the names along chains, without a look at what is stored for them.
ghost use Rattle.std.specs.Prelude.{◌≡◌, ◌+◌, ◌<◌, IfSome};
ghost use Rattle.acap_search.specs.Walks as walks;

use crate::dataset_view::DatasetView;
use crate::plain_dataset::is_alone;
use acap_entries::{Steps, Tree};
use acap_inherit::names_on;
use std::sync::ledger::Ledger;

// How many names there are along a chain that is its dataset alone: no record is looked at.
fn own_count(by: &DatasetView<'_, Tree>) -> Option<usize>
    ensures { IfSome result (λ count. count ≡ walks.names_count by.now) }
{
    let dataset = by.dataset.as_slice();
    if is_alone(&by.chain, dataset) {
        Some(by.records.entries_of(dataset).len())
    } else {
        None
    }
}

/// Counts the names along a chain, but for one.
pub(crate) fn count_others<L: Ledger>(by: &DatasetView<'_, Tree>, steps: &mut Steps<L>)
    requires { 0 < walks.names_count by.now }
    ensures { steps.new + 1 ≡ steps.old + walks.names_count by.now }
{
    match own_count(by) {
        Some(count) => steps.add(count - 1),
        None => {
            let mut names = names_on(by.records, &by.chain);
            let _first = names.next();
            for _name in names {
                steps.tick();
            }
        }
    }
}

/// Counts the names along a chain.
pub(crate) fn count_all<L: Ledger>(by: &DatasetView<'_, Tree>, steps: &mut Steps<L>)
    ensures { steps.new ≡ steps.old + walks.names_count by.now }
{
    match own_count(by) {
        Some(count) => steps.add(count),
        None => {
            for _name in names_on(by.records, &by.chain) {
                steps.tick();
            }
        }
    }
}
