//! SEARCH over datasets: the walk, HARDLIMIT and the answer (RFC 2244 section 6.4.1).
ghost use Rattle.std.specs.Prelude.{◌≡◌, IfOk, IsTrue, None, OnOk};
ghost use Rattle.acap_search.specs.Counting.{IsCounted, paths_count};
ghost use Rattle.acap_search.specs.Fresh as rule;
ghost use Rattle.acap_search.specs.Fresh.{IsAnswer};
ghost use Rattle.acap_search.specs.Gathering.{IsGathered, with_more};
ghost use Rattle.acap_search.specs.Walks as walks;

use crate::dataset_walk::add_in;
use crate::found::hits_of;
use crate::found_matches::FoundMatches;
use crate::hit::Hits;
use crate::query::Query;
use crate::reaching::find_reached;
use crate::refusal::SearchRefusal;
use crate::row_limit::RowLimit;
use crate::walk::Walk;
use acap_commands::{Key, Node, Test};
use acap_entries::{Memory, Path, Record, Steps, Tree, UserName};
use acap_inherit::names_law;
use acap_rights::Realm;
use std::alloc::Global;
use std::sync::ledger::Ledger;

/// Whether a key asks for positions.
pub(crate) fn has_range(key: &Key) -> bool
    ensures { result ≡ rule.has_range key.now }
{
    match key.node() {
        Node::One(Test::Range(_, _, _)) => true,
        Node::One(_) => false,
        Node::And(first, second) => has_range(first) || has_range(second),
        Node::Or(first, second) => has_range(first) || has_range(second),
        Node::Not(key) => has_range(key),
    }
}

/// Whether there are more matches than HARDLIMIT allows.
pub(crate) fn is_over(most: Option<u32>, count: usize) -> bool
    ensures { result ≡ rule.is_over most count }
{
    match most {
        Some(most) => (most as usize) < count,
        None => false,
    }
}

// Adds what is found in the dataset that an entry makes, where that is reached in `depth` levels.
#[tactic(auto, using(crate::proofs::FoundLemmas::gathered_none), unfolding(crate::specs::Walks::hits_by, crate::specs::Walks::count_by))]
fn add_reached<'a, L: Ledger>(
    alloc: Global,
    search: &Walk<'a>,
    depth: u32,
    path: &Path,
    entry: &Record,
    found: &mut FoundMatches<'a>,
    steps: &mut Steps<L>,
) -> Result<(), Memory>
    ensures count { IsCounted result steps.old steps.new
        (walks.count_by search.now depth (path.now, entry.now)) }
    ensures found { OnOk result
        (found.new ≡ with_more found.old (walks.hits_by search.now depth (path.now, entry.now))) }
{
    match find_reached(&search.sought.dataset, depth, path, entry)? {
        Some(dataset) => add_in(alloc, search, &dataset, found, steps),
        None => Ok(()),
    }
}

// Adds what is found beneath the searched dataset, in `depth` levels: with one level nothing, and nothing is walked through.
#[tactic(auto, using(crate::proofs::FoundLemmas::gathered_twice))]
fn add_beneath<'a, L: Ledger>(
    alloc: Global,
    search: &Walk<'a>,
    depth: u32,
    found: &mut FoundMatches<'a>,
    steps: &mut Steps<L>,
) -> Result<(), Memory>
    ensures count { IsCounted result steps.old steps.new (walks.count_beneath search.now depth) }
    ensures found { OnOk result (found.new ≡ with_more found.old (walks.hits_beneath search.now depth)) }
{
    if depth == 1 {
        return Ok(());
    }
    for (path, entry) in search.tree.entries_beneath(&search.sought.dataset) {
        add_reached(alloc, search, depth, path, entry, found, steps)?;
    }
    Ok(())
}

// What is found, in the order of the store, beside nothing yet.
#[tactic(auto, using(crate::proofs::FoundLemmas::gathered_twice), unfolding(crate::specs::Walks::count_over))]
fn walk<'a, L: Ledger>(
    alloc: Global,
    search: &Walk<'a>,
    none: FoundMatches<'a>,
    steps: &mut Steps<L>,
) -> Result<FoundMatches<'a>, Memory>
    ensures count { IsCounted result steps.old steps.new (walks.count_over search.now) }
    ensures found { IfOk result
        (λ found. found ≡ with_more none.entry (walks.hits_over search.now)) }
{
    let mut found = none;
    let sought = search.sought;
    add_in(alloc, search, &sought.dataset, &mut found, steps)?;
    if let Some(depth) = sought.depth {
        add_beneath(alloc, search, depth, &mut found, steps)?;
    }
    Ok(found)
}

// Whether all comes in order.
fn is_in_order(search: &Walk<'_>) -> bool
    ensures depth { IsTrue result → search.now.sought.depth ≡ None }
    ensures sort { IsTrue result → search.now.sought.sort ≡ None }
{
    let sought = search.sought;
    sought.depth.is_none() && sought.sort.is_none()
}

// What is found, in order: without DEPTH and SORT it comes so, and of the first rows alone are gathered.
#[tactic(auto, using(crate::proofs::CountingLemmas::count_over_is))]
fn find_by<'a, L: Ledger>(
    alloc: Global,
    search: &Walk<'a>,
    wish: RowLimit,
    steps: &mut Steps<L>,
) -> Result<FoundMatches<'a>, Memory>
    ensures count { IsCounted result steps.old steps.new (walks.paths_by search.now) }
    ensures found { IfOk result (λ found. IsGathered wish found (walks.matches_by search.now)) }
{
    names_law();
    if is_in_order(search) {
        let found = walk(alloc, search, FoundMatches::in_order(alloc, wish), steps)?;
        return Ok(found);
    }
    let found = walk(alloc, search, FoundMatches::in_turn(alloc, wish), steps)?;
    let sorted = found.sort()?;
    Ok(sorted)
}

/// What is answered to a search over a dataset: all that it finds, whose paths need not be made, or enough of
/// it to print the first.
#[tactic(auto, using(crate::proofs::FoundLemmas::as_many, crate::proofs::RefusalLemmas::refused))]
pub(crate) fn answer<'a, L: Ledger>(
    alloc: Global,
    tree: &'a Tree,
    realm: &'a Realm,
    user: &'a UserName,
    query: &'a Query,
    wish: RowLimit,
    steps: &mut Steps<L>,
) -> Result<FoundMatches<'a>, SearchRefusal>
    ensures count { IsCounted result steps.old steps.new (paths_count tree.now.store query.now.sought) }
    ensures found { let records = tree.now.store.records in
        IsAnswer records realm.now user.now query.now (IsGathered wish) result }
{
    if has_range(&query.sought.key) {
        return Err(SearchRefusal::RangeHere);
    }
    if !tree.dataset_exists(query.sought.dataset.as_slice()) {
        return Err(SearchRefusal::NoExist);
    }
    let search = Walk {
        tree,
        realm,
        user,
        sought: &query.sought,
    };
    let found = find_by(alloc, &search, wish, steps)?;
    if is_over(query.hard_limit, found.count()) {
        return Err(SearchRefusal::WayTooMany);
    }
    Ok(found)
}

/// What a search over a dataset finds: all entries that the user sees and the key wants, in order, whatever LIMIT says (RFC 2244
/// section 6.4.1). It is refused where the key asks for positions, where the dataset doesn't exist, where more entries match
/// than HARDLIMIT allows, and for want of memory: the first of these is answered. Each path in the scope at which a record is or may
/// be inherited counts as a step.
pub fn fresh<L: Ledger>(
    alloc: Global,
    tree: &Tree,
    realm: &Realm,
    user: &UserName,
    query: &Query,
    steps: &mut Steps<L>,
) -> Result<Hits, SearchRefusal>
    ensures count { IsCounted result steps.old steps.new (paths_count tree.now.store query.now.sought) }
    ensures found { IsAnswer tree.now.store.records realm.now user.now query.now (λ h m. h ≡ m) result }
{
    match answer(alloc, tree, realm, user, query, RowLimit::All, steps) {
        Ok(found) => match hits_of(alloc, found.into_findings(alloc)) {
            Ok(hits) => Ok(Hits::from_vec(hits)),
            Err(_) => Err(SearchRefusal::Memory),
        },
        Err(refusal) => Err(refusal),
    }
}
