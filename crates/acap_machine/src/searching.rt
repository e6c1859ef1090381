//! Makes ready: SEARCH over datasets and over contexts, and MAKECONTEXT.
ghost use Rattle.std.specs.Prelude.{◌≡◌, ◌≤◌, Some, Ok, IfOk, IsSome, option_map, map as each};
ghost use Rattle.std.specs.FinMap as table;
ghost use Rattle.acap_ordmap.specs.Ranks.{Ascending};
ghost use Rattle.acap_machine.specs.Changing.{IsOpenable};
ghost use Rattle.acap_machine.specs.Readied.{IsReadyOf};
ghost use Rattle.acap_machine.specs.Searching as rule;
ghost use Rattle.acap_machine.specs.Stepping.{answer_at as asking, reply_of};
ghost use Rattle.acap_search.specs.Matches.{match_cmp};
ghost use Rattle.acap_views.specs.Ranging.{range_at};
ghost use Rattle.acap_views.specs.Started.{as_ranged};

use crate::effect::Effect;
use crate::ready::Ready;
use crate::refusing::{refuse_query, refuse_view};
use crate::state::State;
use acap_commands::{
    Fault, Key, Limit, MakeContext, Refusal, Rows, Said, Search, SearchModifiers, SearchReply,
    Target,
};
use acap_entries::{
    Boxed, ContextName, Copying, Memory, Moment, Row, Seat, Sequence, Steps, UserName,
};
use acap_search::{
    ContextList, Hit, Hits, Query, SearchAnswer, SearchRequest, SearchSpec, cut_by, fresh, hit_law,
    tell, tell_within,
};
use acap_views::{LentContext, is_full};
use std::alloc::Global;
use std::sync::ledger::Ledger;

// How many matches a reply sends.
fn number_told(count: usize) -> u32
    ensures { result ≡ rule.number_told count }
{
    count.min(u32::MAX as usize) as u32
}

// How many matches are sent, if their number is.
fn total_told(total: Option<usize>) -> Option<u32>
    ensures { result ≡ option_map rule.number_told total }
{
    match total {
        Some(count) => Some(number_told(count)),
        None => None,
    }
}

// What a reply has of what is sent of the matches.
fn reply_with(
    last: Moment,
    sought: &SearchSpec,
    excerpt: SearchAnswer,
) -> Result<SearchReply, Memory>
    ensures { IfOk result (λ found. found ≡ rule.found_with last sought.now excerpt.rows excerpt.total) }
{
    let total = total_told(excerpt.total);
    if sought.returns.is_none() {
        return Ok(SearchReply {
            rows: Rows::none(),
            last: None,
            total,
        });
    }
    let rows = Rows::new(excerpt.rows)?;
    Ok(SearchReply {
        rows,
        last: Some(last),
        total,
    })
}

// What is sent of each of these hits, copied.
fn copy_rows(alloc: Global, hits: &[Hit]) -> Result<Sequence<Row>, Memory>
    ensures { IfOk result (λ rows. rows ≡ each (λ hit. hit.row) hits.now) }
{
    let mut rows = Vec::with_capacity(alloc, hits.len())?;
    for hit in hits {
        rows.push(hit.row().copy()?)?;
    }
    Ok(Sequence::from_vec(rows))
}

// What a reply has of these hits, which stay for a context. Without RETURN no row is sent, and none copied.
#[tactic(auto, using(crate::proofs::FoundLemmas::copied_is))]
fn reply_of(
    alloc: Global,
    last: Moment,
    sought: &SearchSpec,
    limit: Option<Limit>,
    hits: &Hits,
) -> Result<SearchReply, Memory>
    ensures { IfOk result (λ found. found ≡ rule.found_of last sought.now limit hits.now) }
{
    let cut = cut_by(limit, hits.len());
    let told = if sought.returns.is_some() {
        cut.told
    } else {
        0
    };
    let rows = copy_rows(alloc, &hits.as_slice()[..told.min(hits.len())])?;
    let excerpt = SearchAnswer {
        rows,
        total: cut.total,
    };
    reply_with(last, sought, excerpt)
}

// The query of a search over a context that another one made.
fn query_within(own: &SearchSpec, modifiers: SearchModifiers, key: Key) -> Result<Query, Memory>
    ensures { IfOk result (λ query. query ≡ rule.query_within own.now modifiers key) }
{
    let dataset = own.dataset.copy()?;
    let SearchModifiers {
        hard_limit,
        returns,
        sort,
        ..
    } = modifiers;
    let sought = SearchSpec {
        dataset,
        depth: own.depth,
        no_inherit: own.no_inherit,
        key,
        sort,
        returns,
    };
    Ok(Query { sought, hard_limit })
}

impl State {
    /// A SEARCH (RFC 2244 section 6.4.1).
    pub(crate) fn ready_search<L: Ledger>(
        &mut self,
        seat: Seat,
        search: Boxed<Search>,
        steps: &mut Steps<L>,
    ) -> Result<Ready, Fault>
        ensures answer { IsReadyOf result self.old
            (asking self.old.machine seat (λ m u. rule.search_answer m seat u search)) self.new }
        ensures same { self.new.machine ≡ self.old.machine }
        ensures last { self.new.work ≡ self.old.work }
        ensures none { IfOk result (λ r. r.work ≡ 0) }
        ensures count { steps.old ≤ steps.new }
    {
        let state = &*self;
        state.kept_law();
        let user = state.user(seat)?;
        let Search {
            target,
            modifiers,
            key,
        } = search.into_value();
        match target {
            Target::Dataset(dataset) => {
                let asked = SearchRequest::new(user, &dataset, modifiers, key)?;
                self.ready_over(seat, asked, steps)
            }
            Target::Context(name) => {
                let words = state.words_within(seat, user, &name, modifiers, key, steps)?;
                Ok(Ready::saying(seat, words))
            }
        }
    }

    // What is said to a search over a context.
    fn words_within<L: Ledger>(
        &self,
        seat: Seat,
        user: &UserName,
        name: &ContextName,
        modifiers: SearchModifiers,
        key: Key,
        steps: &mut Steps<L>,
    ) -> Result<Said, Memory>
        ensures words { IfOk result (λ words. words ≡ rule.searched_within
            self.now.machine.store self.now.machine.realm user.now
            (range_at self.now.machine.seats seat name.now) modifiers key) }
        ensures count { steps.old ≤ steps.new }
    {
        match self.views.range(seat, name) {
            Ok(from) => self.words_from(user, from, modifiers, key, steps),
            Err(why) => refuse_view(why),
        }
    }

    // What is said to a search over a context, which starts from there.
    #[tactic(auto, unfolding(crate::specs::Searching::searched_from), using(crate::proofs::FoundLemmas::found_is))]
    fn words_from<L: Ledger>(
        &self,
        user: &UserName,
        from: LentContext<'_>,
        modifiers: SearchModifiers,
        key: Key,
        steps: &mut Steps<L>,
    ) -> Result<Said, Memory>
        ensures words { IfOk result (λ words. words ≡ rule.searched_from
            self.now.machine.store self.now.machine.realm user.now (as_ranged from.entry)
            (rule.query_within from.entry.sought.now modifiers key) modifiers.limit) }
        ensures count { steps.old ≤ steps.new }
    {
        let LentContext {
            sought,
            enumerated,
            told,
            shown,
        } = from;
        let limit = modifiers.limit;
        let query = query_within(sought, modifiers, key)?;
        let shown = shown.hits(self.alloc)?;
        match tell_within(
            self.alloc,
            &self.tree,
            &self.realm,
            user,
            &query,
            ContextList {
                hits: shown.as_slice(),
                told,
                enumerated,
            },
            limit,
            steps,
        ) {
            Ok(excerpt) => {
                let last = self.tree.last();
                let found = reply_with(last, &query.sought, excerpt)?;
                Ok(Said::Searched(found))
            }
            Err(refusal) => refuse_query(query, refusal),
        }
    }

    // What is said to a search over a dataset that makes no context.
    #[tactic(auto, using(crate::proofs::FoundLemmas::found_is))]
    fn words_over<L: Ledger>(
        &self,
        user: &UserName,
        query: Query,
        limit: Option<Limit>,
        steps: &mut Steps<L>,
    ) -> Result<Said, Memory>
        ensures words { IfOk result
            (λ words. words ≡ rule.searched_alone self.now.machine user.now query limit) }
        ensures count { steps.old ≤ steps.new }
    {
        match tell(
            self.alloc,
            &self.tree,
            &self.realm,
            user,
            &query,
            limit,
            steps,
        ) {
            Ok(excerpt) => {
                let last = self.tree.last();
                let found = reply_with(last, &query.sought, excerpt)?;
                Ok(Said::Searched(found))
            }
            Err(refusal) => refuse_query(query, refusal),
        }
    }

    // A search over a dataset.
    #[tactic(auto, unfolding(crate::specs::Searching::searched_over))]
    fn ready_over<L: Ledger>(
        &mut self,
        seat: Seat,
        asked: SearchRequest,
        steps: &mut Steps<L>,
    ) -> Result<Ready, Fault>
        ensures answer { IsReadyOf result self.old
            (asking self.old.machine seat (λ m u. rule.searched_over m seat u asked)) self.new }
        ensures same { self.new.machine ≡ self.old.machine }
        ensures last { self.new.work ≡ self.old.work }
        ensures none { IfOk result (λ r. r.work ≡ 0) }
        ensures count { steps.old ≤ steps.new }
    {
        hit_law();
        let state = &*self;
        state.kept_law();
        let user = state.user(seat)?;
        let SearchRequest {
            query,
            limit,
            make_context,
        } = asked;
        let Some(make) = make_context else {
            let words = state.words_over(user, query, limit, steps)?;
            return Ok(Ready::saying(seat, words));
        };
        match fresh(state.alloc, &state.tree, &state.realm, user, &query, steps) {
            Ok(hits) => self.ready_context(seat, make, query.sought, limit, hits),
            Err(refusal) => {
                let words = refuse_query(query, refusal)?;
                Ok(Ready::saying(seat, words))
            }
        }
    }

    // The context that a search makes which found these hits.
    fn ready_context(
        &mut self,
        seat: Seat,
        make: MakeContext,
        sought: SearchSpec,
        limit: Option<Limit>,
        hits: Hits,
    ) -> Result<Ready, Fault>
        requires somebody { IsSome (table.get self.old.machine.seats seat) }
        requires order { Ascending match_cmp hits }
        requires current { IsOpenable self.old.machine seat make sought hits }
        ensures answer { IsReadyOf result self.old
            (Ok (reply_of (rule.context_answer self.old.machine seat make sought limit hits))) self.new }
        ensures same { self.new.machine ≡ self.old.machine }
        ensures last { self.new.work ≡ self.old.work }
        ensures none { IfOk result (λ r. r.work ≡ 0) }
    {
        self.kept_law();
        if is_full(&self.views, seat, &make.name) {
            let words = Said::Refused(Refusal::TryFreeContext);
            return Ok(Ready::saying(seat, words));
        }
        let last = self.tree.last();
        let found = reply_of(self.alloc, last, &sought, limit, &hits)?;
        match self.views.make_context(seat, make, sought, hits, last) {
            Ok(new) => Ok(Ready::new(seat, Effect::Makes(new), Said::Searched(found))),
            Err(why) => Ok(Ready::saying(seat, refuse_view(why)?)),
        }
    }
}
