//! The answer of a SEARCH: its rows, and how many matches there are where LIMIT keeps some back.
ghost use Rattle.std.specs.Prelude.{◌≡◌, ◌≤◌, IfOk, length};
ghost use Rattle.acap_search.specs.Counting.{IsCounted, paths_count};
ghost use Rattle.acap_search.specs.Cutting.{IsExcerpt, IsWished};
ghost use Rattle.acap_search.specs.Fresh.{IsAnswer};
ghost use Rattle.acap_search.specs.Gathering as rule;
ghost use Rattle.acap_search.specs.Within.{IsWithin, context_shown};

use crate::context::answer_within;
use crate::context_list::ContextList;
use crate::cutting::{cut_by, most_told};
use crate::found_matches::{FoundMatches, tell_first};
use crate::query::Query;
use crate::refusal::SearchRefusal;
use crate::row_limit::RowLimit;
use crate::searching::answer;
use crate::walk::Walk;
use acap_commands::Limit;
use acap_entries::{Memory, Row, Sequence, Steps, Tree, UserName};
use acap_rights::Realm;
use std::alloc::Global;
use std::sync::ledger::Ledger;

/// What a SEARCH over a dataset prints of its matches (RFC 2244 section 6.4.1).
#[derive(Drop)]
pub struct SearchAnswer {
    /// The rows of the first of them, as many as LIMIT lets through.
    pub rows: Sequence<Row>,
    /// How many there are in all, where LIMIT keeps some back.
    pub total: Option<usize>,
}

// What is gathered for LIMIT of what is found among about `count` entries: where it may keep nothing back,
// all of it, so that rows are made at once. Either is right.
fn wished(limit: Option<Limit>, count: usize) -> Option<Limit>
    ensures { IsWished limit result }
{
    if most_told(limit) < count {
        limit
    } else {
        None
    }
}

// What is printed of what is gathered, of which LIMIT may keep some back.
fn excerpt_of(
    alloc: Global,
    search: &Walk<'_>,
    limit: Option<Limit>,
    found: FoundMatches<'_>,
) -> Result<SearchAnswer, Memory>
    ensures told { IfOk result (λ excerpt. excerpt ≡ rule.excerpt_in search.now limit found.entry) }
    ensures count { rule.count_of found.entry ≤ 18_446_744_073_709_551_615 }
{
    let cut = cut_by(limit, found.count());
    let rows = tell_first(alloc, search, found, cut.told)?;
    Ok(SearchAnswer {
        rows,
        total: cut.total,
    })
}

/// What a SEARCH over a dataset prints: the rows of what `fresh` finds, of which LIMIT may keep some back. It is refused as
/// `fresh` is, and counts as `fresh` does. Takes less memory than the hits would.
pub fn tell<L: Ledger>(
    alloc: Global,
    tree: &Tree,
    realm: &Realm,
    user: &UserName,
    query: &Query,
    limit: Option<Limit>,
    steps: &mut Steps<L>,
) -> Result<SearchAnswer, SearchRefusal>
    ensures count { IsCounted result steps.old steps.new (paths_count tree.now.store query.now.sought) }
    ensures told { IsAnswer tree.now.store.records realm.now user.now query.now (IsExcerpt limit) result }
{
    let wish = RowLimit::First(wished(limit, tree.len()));
    match answer(alloc, tree, realm, user, query, wish, steps) {
        Ok(found) => {
            let search = Walk {
                tree,
                realm,
                user,
                sought: &query.sought,
            };
            match excerpt_of(alloc, &search, limit, found) {
                Ok(excerpt) => Ok(excerpt),
                Err(_) => Err(SearchRefusal::Memory),
            }
        }
        Err(refusal) => Err(refusal),
    }
}

/// What a SEARCH over a context prints: the rows of what `within` finds, of which LIMIT may keep some back. It is refused as `within`
/// is, and counts as `within` does. Takes less memory than the hits would.
pub fn tell_within<'a, L: Ledger>(
    alloc: Global,
    tree: &'a Tree,
    realm: &'a Realm,
    user: &'a UserName,
    query: &'a Query,
    context: ContextList<'a>,
    limit: Option<Limit>,
    steps: &mut Steps<L>,
) -> Result<SearchAnswer, SearchRefusal>
    ensures count { IsCounted result steps.old steps.new (length context.entry.hits.now) }
    ensures told { IsWithin tree.now.store.records realm.now user.now query.now (context_shown context.entry)
        (IsExcerpt limit) result }
{
    let wish = RowLimit::First(wished(limit, context.hits.len()));
    let showing = ContextList {
        hits: context.hits,
        told: context.told,
        enumerated: context.enumerated,
    };
    match answer_within(alloc, tree, realm, user, query, showing, wish, steps) {
        Ok(found) => {
            let search = Walk {
                tree,
                realm,
                user,
                sought: &query.sought,
            };
            match excerpt_of(alloc, &search, limit, found) {
                Ok(excerpt) => Ok(excerpt),
                Err(_) => Err(SearchRefusal::Memory),
            }
        }
        Err(refusal) => Err(refusal),
    }
}
