//! Tests of what a search finds among hits that are handed in, and of what is sent of it: a program asks for
//! what is sent alone.
ghost use Rattle.std.specs.Prelude.{◌≡◌, ◌<◌};

use crate::dice::join;
use crate::machine::search_of;
use crate::world::World;
use crate::wrong::{Wrong, trouble_in};
use acap_commands::{Limit, Search, Target};
use acap_entries::{Memory, Moment, Row, Steps, UserName};
use acap_machine::State;
use acap_search::{
    ContextList, Hit, Hits, Query, SearchAnswer, SearchRefusal, SearchRequest, fresh, tell_within,
    within,
};
use std::alloc::Global;
use std::marker::Brand;
use std::sync::ledger::{Blank, Ledger};

/// What is sent at a seat of joe's.
static SENT: [&[u8]; 3] = [
    b"T STORE (\"/option/~/a\" \"option.value\" \"3\")",
    b"T STORE (\"/option/~/b\" \"option.value\" \"1\")",
    b"T STORE (\"/option/~/c\" \"option.value\" \"2\")",
];

/// What of the entries `a`, `b` and `c` is handed in, and searched.
const LISTED: &[u8] = b"RETURN (\"entry\") ALL";

/// A search over the three: what it asks for, LIMIT, the names of the hits in their order, and the total where
/// LIMIT keeps some back.
struct SearchRow {
    asked: &'static [u8],
    limit: Option<Limit>,
    found: &'static [&'static [u8]],
    total: Option<usize>,
}

static SEARCHED: [SearchRow; 7] = [
    SearchRow {
        asked: b"RETURN (\"entry\") ALL",
        limit: None,
        found: &[b"a", b"b", b"c"],
        total: None,
    },
    SearchRow {
        asked: b"SORT (\"option.value\" \"i;octet\") RETURN (\"entry\") ALL",
        limit: None,
        found: &[b"b", b"c", b"a"],
        total: None,
    },
    SearchRow {
        asked: b"SORT (\"option.value\" \"i;octet\") RETURN (\"entry\") ALL",
        limit: Some(Limit { over: 2, most: 1 }),
        found: &[b"b", b"c", b"a"],
        total: Some(3),
    },
    SearchRow {
        asked: b"RETURN (\"entry\") ALL",
        limit: Some(Limit { over: 2, most: 1 }),
        found: &[b"a", b"b", b"c"],
        total: Some(3),
    },
    SearchRow {
        asked: b"RETURN (\"entry\") ALL",
        limit: Some(Limit { over: 3, most: 1 }),
        found: &[b"a", b"b", b"c"],
        total: None,
    },
    SearchRow {
        asked: b"RETURN (\"entry\") RANGE 2 3 \"19700101000000\"",
        limit: None,
        found: &[b"b", b"c"],
        total: None,
    },
    SearchRow {
        asked: b"RETURN (\"entry\") EQUAL \"option.value\" \"i;octet\" \"2\"",
        limit: None,
        found: &[b"c"],
        total: None,
    },
];

// What a user asks for in the dataset.
fn query_of(alloc: Global, user: &UserName, asked: &[u8]) -> Result<Query, Wrong> {
    let line = join(alloc, &[b"T SEARCH \"/option/~/\" ", asked])?;
    let Search {
        target,
        modifiers,
        key,
    } = search_of(alloc, line.as_slice())?.into_value();
    let Target::Dataset(dataset) = target else {
        return Err(Wrong::Answer);
    };
    Ok(SearchRequest::new(user, &dataset, modifiers, key)?.query)
}

// What a refusal comes to, of which none is wanted.
fn wrong_of(refusal: SearchRefusal) -> Wrong {
    if refusal == SearchRefusal::Memory {
        Wrong::Memory
    } else {
        Wrong::Refused
    }
}

// Whether these are hits of those names.
fn are_named(hits: &Hits, names: &[&[u8]]) -> bool {
    let same = |pair: (&Hit, &&[u8])| pair.0.row().name.as_slice() == *pair.1;
    hits.len() == names.len() && hits.as_slice().iter().zip(names).all(same)
}

// Whether these are the rows of the first of some hits.
fn are_first(rows: &[Row], hits: &Hits) -> bool {
    let same = |pair: (&Row, &Hit)| pair.0.equals(pair.1.row());
    rows.len() <= hits.len() && rows.iter().zip(hits.as_slice()).all(same)
}

// Whether what is sent of some hits is what LIMIT lets through.
fn is_told(row: &SearchRow, told: &SearchAnswer, hits: &Hits) -> bool {
    let most = match row.limit {
        Some(limit) if told.total.is_some() => limit.most as usize,
        _ => hits.len(),
    };
    told.total == row.total && told.rows.len() == most && are_first(told.rows.as_slice(), hits)
}

// What a context shows that has these hits, of which nothing was sent since the first of all moments.
fn showing<'a>(hits: &'a [&'a Hit]) -> ContextList<'a> {
    ContextList {
        hits,
        told: Moment::first(),
        enumerated: true,
    }
}

// Whether a row holds over some hits.
fn holds<'a, L: Ledger>(
    alloc: Global,
    state: &'a State,
    user: &'a UserName,
    shown: &'a [&'a Hit],
    row: &SearchRow,
    steps: &mut Steps<L>,
) -> Result<bool, Wrong> {
    let query = query_of(alloc, user, row.asked)?;
    let tree = state.tree();
    let hits = within(
        alloc,
        tree,
        state.realm(),
        user,
        &query,
        showing(shown),
        steps,
    )
    .map_err(wrong_of)?;
    let told = tell_within(
        alloc,
        tree,
        state.realm(),
        user,
        &query,
        showing(shown),
        row.limit,
        steps,
    )
    .map_err(wrong_of)?;
    Ok(are_named(&hits, row.found) && is_told(row, &told, &hits))
}

// Hits, as they are lent.
fn lend_all(alloc: Global, hits: &Hits) -> Result<Vec<&Hit>, Memory> {
    let mut lent = Vec::with_capacity(alloc, hits.len())?;
    for hit in hits.as_slice() {
        lent.push(hit)?;
    }
    Ok(lent)
}

// The hits that are handed in.
fn listed<L: Ledger>(
    alloc: Global,
    state: &State,
    user: &UserName,
    steps: &mut Steps<L>,
) -> Result<Hits, Wrong> {
    let query = query_of(alloc, user, LISTED)?;
    fresh(alloc, state.tree(), state.realm(), user, &query, steps).map_err(wrong_of)
}

// Whether all rows hold over some hits.
fn all_hold<L: Ledger>(
    alloc: Global,
    state: &State,
    user: &UserName,
    shown: &[&Hit],
    steps: &mut Steps<L>,
) -> Result<bool, Wrong> {
    for row in &SEARCHED {
        if !holds(alloc, state, user, shown, row, steps)? {
            return Ok(false);
        }
    }
    Ok(true)
}

// Whether all rows hold over a machine to which these lines were sent.
fn are_right<L: Ledger>(alloc: Global, steps: &mut Steps<L>) -> Result<bool, Wrong> {
    let world = World::filled(alloc, &SENT, steps)?;
    let user = UserName::read(alloc, b"joe")?;
    let hits = listed(alloc, world.state(), &user, steps)?;
    let shown = lend_all(alloc, &hits)?;
    all_hold(alloc, world.state(), &user, shown.as_slice(), steps)
}

fn trouble<L: Ledger>(alloc: Global, blank: Blank) -> Option<Wrong>
    requires name { blank.name ≡ L.name }
    requires parts { blank.parts ≡ L.parts }
    requires some { 0 < L.parts }
{
    let mut steps = Steps::<L>::new(blank);
    trouble_in(are_right(alloc, &mut steps))
}

#[test]
fn searches_hits(rt: HostRuntime) {
    assert_eq!(rt; trouble::<Brand>(rt.alloc(), Blank::new(1)), None);
}
