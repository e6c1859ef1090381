//! SEARCH over a context: RANGE, the walk over its list, HARDLIMIT and the answer (RFC 2244 section 6.4.1).
ghost use Rattle.std.specs.Prelude.{◌≡◌, ◌+◌, suc, length, not, is_some, IfOk, OnOk};
ghost use Rattle.acap_search.specs.Counting.{IsCounted};
ghost use Rattle.acap_search.specs.Gathering.{IsGathered, with_more, with_one};
ghost use Rattle.acap_search.specs.DatasetCursors.{IsGroundOf};
ghost use Rattle.acap_search.specs.Walks as walks;
ghost use Rattle.acap_search.specs.Within as rule;

use crate::context_list::ContextList;
use crate::dataset_cursor::DatasetCursor;
use crate::found::hits_of;
use crate::found_matches::FoundMatches;
use crate::hit::{Hit, Hits};
use crate::query::Query;
use crate::refusal::SearchRefusal;
use crate::row_limit::RowLimit;
use crate::searching::{has_range, is_over};
use crate::walk::Walk;
use acap_commands::{Key, Node, Test};
use acap_entries::{Memory, Moment, Path, Steps, Tree, UserName};
use acap_inherit::{names_law, nothing_law};
use acap_rights::Realm;
use std::alloc::Global;
use std::sync::ledger::Ledger;

// Whether a key asks for positions as they were before a moment, whether that is needed or not.
fn has_old(key: &Key, told: Moment) -> bool
    ensures { result ≡ rule.has_old told key.now }
{
    match key.node() {
        Node::One(Test::Range(_, _, since)) => *since < told,
        Node::One(_) => false,
        Node::And(first, second) => has_old(first, told) || has_old(second, told),
        Node::Or(first, second) => has_old(first, told) || has_old(second, told),
        Node::Not(key) => has_old(key, told),
    }
}

// The position, as RANGE counts it, of the entry after `count` others.
fn position_behind(count: usize) -> Option<u32>
    ensures { result ≡ rule.position_of (suc count) }
{
    if count < u32::MAX as usize {
        Some(count as u32 + 1)
    } else {
        None
    }
}

// Adds what is made of an entry at its position, in the dataset where it lies: one step.
#[tactic(auto, using(crate::proofs::FoundLemmas::gathered_none))]
fn add_here<'a, L: Ledger>(
    alloc: Global,
    search: &Walk<'a>,
    here: &mut DatasetCursor<'a>,
    path: &'a Path,
    place: Option<u32>,
    found: &mut FoundMatches<'a>,
    steps: &mut Steps<L>,
) -> Result<(), Memory>
    requires here { IsGroundOf search.now here.old }
    requires at { here.old.view.dataset ≡ path.now.dataset }
    ensures same { here.new ≡ here.old }
    ensures count { steps.new ≡ steps.old + 1 }
    ensures found { OnOk result
        (found.new ≡ with_one found.old (walks.tuple_by search.now place path.now)) }
{
    nothing_law();
    names_law();
    if here.is_searched() {
        here.add(alloc, path, search.sought, place, found, steps)
    } else {
        steps.tick();
        Ok(())
    }
}

// Adds what is made of an entry of a context, at its position, wherever it lies: one step.
fn add_found<'a, L: Ledger>(
    alloc: Global,
    search: &Walk<'a>,
    here: &mut DatasetCursor<'a>,
    path: &'a Path,
    place: Option<u32>,
    found: &mut FoundMatches<'a>,
    steps: &mut Steps<L>,
) -> Result<(), Memory>
    requires here { IsGroundOf search.now here.old }
    ensures here { OnOk result (IsGroundOf search.now here.new) }
    ensures count { IsCounted result steps.old steps.new 1 }
    ensures found { OnOk result
        (found.new ≡ with_one found.old (walks.tuple_by search.now place path.now)) }
{
    here.go_to(alloc, search, &path.dataset)?;
    add_here(alloc, search, here, path, place, found, steps)
}

// What is found among the entries of a context, in its order, beside nothing yet. Those that lie in one dataset one after the
// other share what is made for it.
#[tactic(auto, using(crate::proofs::FoundLemmas::gathered_none))]
fn find_among<'a, L: Ledger>(
    alloc: Global,
    search: &Walk<'a>,
    shown: &'a [&'a Hit],
    none: FoundMatches<'a>,
    steps: &mut Steps<L>,
) -> Result<FoundMatches<'a>, Memory>
    ensures found { IfOk result
        (λ found. found ≡ with_more none.entry (walks.tuples_by search.now shown.now)) }
    ensures count { IsCounted result steps.old steps.new (length shown.now) }
{
    let mut found = none;
    let Some(first) = shown.first() else {
        return Ok(found);
    };
    let mut here = DatasetCursor::at(alloc, search, &first.path.dataset)?;
    for (count, hit) in shown.iter().enumerate() {
        let place = position_behind(count);
        add_found(
            alloc, search, &mut here, &hit.path, place, &mut found, steps,
        )?;
    }
    Ok(found)
}

// Whether what is found stays in the order of the context.
fn keeps_order(search: &Walk<'_>) -> bool
    ensures { result ≡ not (is_some search.now.sought.sort) }
{
    let sought = search.sought;
    sought.sort.is_none()
}

// What is found among them, in the order that is asked for.
fn find_within<'a, L: Ledger>(
    alloc: Global,
    search: &Walk<'a>,
    shown: &'a [&'a Hit],
    wish: RowLimit,
    steps: &mut Steps<L>,
) -> Result<FoundMatches<'a>, Memory>
    ensures found { IfOk result
        (λ found. IsGathered wish found (walks.matches_among search.now shown.now)) }
    ensures count { IsCounted result steps.old steps.new (length shown.now) }
{
    if keeps_order(search) {
        let none = FoundMatches::in_order(alloc, wish);
        let found = find_among(alloc, search, shown, none, steps)?;
        return Ok(found);
    }
    let none = FoundMatches::in_turn(alloc, wish);
    let found = find_among(alloc, search, shown, none, steps)?;
    let sorted = found.sort()?;
    Ok(sorted)
}

/// What is answered to a search over a context: all that it finds, whose paths need not be made, or enough of it to print the first.
#[tactic(auto, using(crate::proofs::FoundLemmas::as_many, crate::proofs::WithinLemmas::refused_within))]
pub(crate) fn answer_within<'a, L: Ledger>(
    alloc: Global,
    tree: &'a Tree,
    realm: &'a Realm,
    user: &'a UserName,
    query: &'a Query,
    context: ContextList<'a>,
    wish: RowLimit,
    steps: &mut Steps<L>,
) -> Result<FoundMatches<'a>, SearchRefusal>
    ensures answer { let kept = rule.context_shown context.entry in
        rule.IsWithin tree.now.store.records realm.now user.now query.now kept (IsGathered wish) result }
    ensures count { IsCounted result steps.old steps.new (length context.entry.hits.now) }
{
    if !context.enumerated && has_range(&query.sought.key) {
        return Err(SearchRefusal::RangeHere);
    }
    if has_old(&query.sought.key, context.told) {
        return Err(SearchRefusal::TooOld);
    }
    let search = Walk {
        tree,
        realm,
        user,
        sought: &query.sought,
    };
    let found = find_within(alloc, &search, context.hits, wish, steps)?;
    if is_over(query.hard_limit, found.count()) {
        return Err(SearchRefusal::WayTooMany);
    }
    Ok(found)
}

/// What a search over a context finds: of the entries that it shows, in its order, those that the user sees now and the key wants, as
/// they are now (RFC 2244 sections 3.3 and 6.4.1). Dataset, DEPTH and NOINHERIT of the query are the context's, and its key, SORT,
/// RETURN and HARDLIMIT those of the new search; SORT reorders. The position that RANGE asks for is that in the whole list, also where
/// entries before are no longer seen. It is refused where the key asks for positions and the context has none, where it asks for those
/// of a time before the last that was sent, where more entries match than HARDLIMIT allows, and for want of memory: the first of
/// these is answered. Each entry of the list counts as a step.
pub fn within<'a, L: Ledger>(
    alloc: Global,
    tree: &'a Tree,
    realm: &'a Realm,
    user: &'a UserName,
    query: &'a Query,
    context: ContextList<'a>,
    steps: &mut Steps<L>,
) -> Result<Hits, SearchRefusal>
    ensures answer { let kept = rule.context_shown context.entry in
        rule.IsWithin tree.now.store.records realm.now user.now query.now kept (λ h m. h ≡ m) result }
    ensures count { IsCounted result steps.old steps.new (length context.entry.hits.now) }
{
    let showing = ContextList {
        hits: context.hits,
        told: context.told,
        enumerated: context.enumerated,
    };
    match answer_within(
        alloc,
        tree,
        realm,
        user,
        query,
        showing,
        RowLimit::All,
        steps,
    ) {
        Ok(found) => match hits_of(alloc, found.into_findings(alloc)) {
            Ok(hits) => Ok(Hits::from_vec(hits)),
            Err(_) => Err(SearchRefusal::Memory),
        },
        Err(refusal) => Err(refusal),
    }
}
