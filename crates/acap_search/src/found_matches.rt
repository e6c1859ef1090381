//! The matches of a walk as they come: in their order, to be sorted, or cut by LIMIT at once.
ghost use Rattle.std.specs.Prelude.{◌≡◌, ◌+◌, IfOk, IfSome, OnOk, take};
ghost use Rattle.acap_search.specs.Gathering as rule;
ghost use Rattle.acap_search.specs.Views.{found_at, path_of};

use crate::cutting::most_told;
use crate::entry_match::{finding_at, is_found, stand_at};
use crate::entry_view::EntryView;
use crate::first_rows::FirstRows;
use crate::found::Found;
use crate::match_key::MatchKey;
use crate::match_rows::tell_stands;
use crate::ordering::{sort_found, sort_stands};
use crate::query::SearchSpec;
use crate::row_limit::RowLimit;
use crate::walk::Walk;
use acap_entries::{Memory, Path, Records, Row, Sequence, Steps};
use std::alloc::Global;
use std::sync::ledger::Ledger;

/// What is gathered of what is found.
#[derive(Drop)]
pub(crate) enum FoundMatches<'a> {
    /// All of it.
    Findings(Sequence<Found<'a>>),
    /// Where all of it is and stands: rows are made of the first, once it is known which these are.
    Stands(Sequence<MatchKey<'a>>),
    /// What is printed of the first, where it comes in order.
    First(FirstRows),
}

impl<'a> FoundMatches<'a> {
    /// Nothing yet, where it comes in the order in which it is printed.
    pub(crate) fn in_order(alloc: Global, wish: RowLimit) -> FoundMatches<'a>
        ensures { result ≡ rule.none_in_order wish }
    {
        match wish {
            RowLimit::All => FoundMatches::Findings(Sequence::new(alloc)),
            RowLimit::First(limit) => FoundMatches::First(FirstRows::new(alloc, most_told(limit))),
        }
    }

    /// Nothing yet, where it doesn't come so. Without LIMIT all is printed, and its rows may be made at once.
    pub(crate) fn in_turn(alloc: Global, wish: RowLimit) -> FoundMatches<'a>
        ensures { result ≡ rule.none_in_turn wish }
    {
        match wish {
            RowLimit::All | RowLimit::First(None) => FoundMatches::Findings(Sequence::new(alloc)),
            RowLimit::First(Some(_)) => FoundMatches::Stands(Sequence::new(alloc)),
        }
    }

    /// One more, where something is found: one step. The path is that of the entry's record, where it is at
    /// hand; the place is the entry's position in the context that is searched, and none over a dataset. Fails
    /// for want of memory, and where there are more than can be counted.
    #[tactic(auto, unfolding(crate::specs::Gathering::with_more))]
    pub(crate) fn add_at<R: Records, L: Ledger>(
        &mut self,
        alloc: Global,
        spot: &EntryView<'_, R>,
        path: Option<&'a Path>,
        sought: &SearchSpec,
        place: Option<u32>,
        steps: &mut Steps<L>,
    ) -> Result<(), Memory>
        requires { IfSome path (λ path. path.now ≡ path_of spot.now) }
        ensures count { steps.new ≡ steps.old + 1 }
        ensures found { OnOk result
            (self.new ≡ rule.with_one self.old (found_at sought.now place spot.now)) }
    {
        match self {
            FoundMatches::Findings(findings) => {
                if let Some(finding) = finding_at(alloc, spot, path, sought, place, steps)? {
                    findings.push(finding)?;
                }
            }
            FoundMatches::Stands(stands) => {
                if let Some(stand) = stand_at(alloc, spot, path, sought, place, steps)? {
                    stands.push(stand)?;
                }
            }
            FoundMatches::First(told) => {
                if is_found(spot, sought, place, steps) {
                    told.add(alloc, spot, sought)?;
                }
            }
        }
        Ok(())
    }

    /// How many there are.
    pub(crate) fn count(&self) -> usize
        ensures { result ≡ rule.count_of self.now }
    {
        match self {
            FoundMatches::Findings(findings) => findings.len(),
            FoundMatches::Stands(stands) => stands.len(),
            FoundMatches::First(told) => told.count,
        }
    }

    /// Put in order, where it isn't of rows alone. Fails only for want of memory.
    pub(crate) fn sort(self) -> Result<FoundMatches<'a>, Memory>
        ensures { IfOk result (λ sorted. sorted ≡ rule.put_in_order self.entry) }
    {
        match self {
            FoundMatches::Findings(findings) => {
                let mut findings = findings.into_vec();
                sort_found(&mut findings)?;
                Ok(FoundMatches::Findings(Sequence::from_vec(findings)))
            }
            FoundMatches::Stands(stands) => {
                let mut stands = stands.into_vec();
                sort_stands(&mut stands)?;
                Ok(FoundMatches::Stands(Sequence::from_vec(stands)))
            }
            FoundMatches::First(told) => Ok(FoundMatches::First(told)),
        }
    }

    /// All of it, and nothing where not all is gathered.
    pub(crate) fn into_findings(self, alloc: Global) -> Vec<Found<'a>>
        ensures { result.items ≡ rule.all_in self.entry }
    {
        match self {
            FoundMatches::Findings(findings) => findings.into_vec(),
            FoundMatches::Stands(_) | FoundMatches::First(_) => Vec::new(alloc),
        }
    }
}

// What is printed of the first of what is found.
fn tell_findings(alloc: Global, found: Vec<Found<'_>>, most: usize) -> Result<Sequence<Row>, Memory>
    ensures { IfOk result (λ rows. rows ≡ rule.rows_of (take most found.entry.items)) }
{
    let mut found = found;
    found.truncate(most);
    let mut rows = Vec::with_capacity(alloc, found.len())?;
    for finding in found {
        rows.push(finding.into_row())?;
    }
    Ok(Sequence::from_vec(rows))
}

// The first of some rows.
fn first_of(rows: Sequence<Row>, most: usize) -> Sequence<Row>
    ensures { result ≡ take most rows }
{
    let mut rows = rows.into_vec();
    rows.truncate(most);
    rows.shrink_to_fit();
    Sequence::from_vec(rows)
}

/// What is printed of the first of what is gathered. Fails only for want of memory.
pub(crate) fn tell_first(
    alloc: Global,
    search: &Walk<'_>,
    found: FoundMatches<'_>,
    most: usize,
) -> Result<Sequence<Row>, Memory>
    ensures { IfOk result (λ rows. rows ≡ rule.first_in search.now most found.entry) }
{
    match found {
        FoundMatches::Findings(findings) => tell_findings(alloc, findings.into_vec(), most),
        FoundMatches::Stands(stands) => tell_stands(alloc, search, stands.into_vec(), most),
        FoundMatches::First(told) => Ok(first_of(told.rows, most)),
    }
}
