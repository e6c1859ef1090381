//! The parts of a SEARCH: its key, SORT, RETURN, HARDLIMIT and LIMIT, and the dataset that is meant.
ghost use Rattle.std.specs.Prelude.{◌≡◌, IfOk};
ghost use Rattle.acap_search.specs.Asking.{asked_of};

use acap_commands::{Key, Limit, MakeContext, Returns, SearchModifiers, SortItems};
use acap_entries::{Copying, Dataset, Memory, UserName};

/// What a search over a dataset looks for, and what is printed of each match (RFC 2244 section 6.4.1): all that a context keeps of
/// the SEARCH that made it, and all that the list of its matches depends on.
#[derive(Drop)]
pub struct SearchSpec {
    /// The dataset, in which no component stands for the user.
    pub dataset: Dataset,
    /// DEPTH: how many levels of datasets are looked through, 0 standing for all; one where it isn't sent.
    pub depth: Option<u32>,
    /// NOINHERIT: nothing is inherited.
    pub no_inherit: bool,
    /// Which entries are wanted.
    pub key: Key,
    /// SORT: in which order they are printed.
    pub sort: Option<SortItems>,
    /// RETURN: what is printed of each.
    pub returns: Option<Returns>,
}

/// A search over a dataset: what it looks for, and when it has found too much (RFC 2244 section 6.4.1).
#[derive(Clone, Drop)]
pub struct Query {
    /// What is looked for.
    pub sought: SearchSpec,
    /// HARDLIMIT: with more matches than these the search fails.
    pub hard_limit: Option<u32>,
}

/// What a SEARCH over a dataset asks for (RFC 2244 section 6.4.1).
#[derive(Drop)]
pub struct SearchRequest {
    /// What is searched for.
    pub query: Query,
    /// LIMIT: how many matches are printed.
    pub limit: Option<Limit>,
    /// MAKECONTEXT: the context that keeps the matches.
    pub make_context: Option<MakeContext>,
}

impl SearchRequest {
    /// What a user asks for by a SEARCH over a dataset, as it was sent: its parts are moved, and only the name of the dataset is
    /// copied, with the user's in place of a second component `~`. Fails only for want of memory.
    pub fn new(
        user: &UserName,
        dataset: &Dataset,
        modifiers: SearchModifiers,
        key: Key,
    ) -> Result<SearchRequest, Memory>
        ensures { IfOk result (λ asked. asked ≡ asked_of user.now dataset.now modifiers key) }
    {
        let dataset = dataset.for_user(user)?;
        let SearchModifiers {
            depth,
            hard_limit,
            limit,
            make_context,
            no_inherit,
            returns,
            sort,
        } = modifiers;
        Ok(SearchRequest {
            query: Query {
                sought: SearchSpec {
                    dataset,
                    depth,
                    no_inherit,
                    key,
                    sort,
                    returns,
                },
                hard_limit,
            },
            limit,
            make_context,
        })
    }
}

impl Clone for SearchSpec {
    ghost is_clone = { λ x y. y ≡ x };

    fn clone(&self) -> Result<SearchSpec, Memory> {
        let dataset = self.dataset.copy()?;
        let sort = self.sort.copy()?;
        let returns = self.returns.copy()?;
        let key = self.key.copy()?;
        Ok(SearchSpec {
            dataset,
            depth: self.depth,
            no_inherit: self.no_inherit,
            key,
            sort,
            returns,
        })
    }
}

impl Copying for SearchSpec {
    fn copy(&self) -> Result<SearchSpec, Memory> {
        self.clone()
    }
}

impl Copying for Query {
    fn copy(&self) -> Result<Query, Memory> {
        self.clone()
    }
}
