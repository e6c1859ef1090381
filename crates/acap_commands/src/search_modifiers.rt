//! The modifiers of a SEARCH: DEPTH, HARDLIMIT, LIMIT, MAKECONTEXT, NOINHERIT, RETURN and SORT.
ghost use Rattle.std.specs.Prelude.{◌≡◌, ◌↔◌, IsTrue};

use crate::lists::{Returns, SortItems};
use acap_entries::{Attribute, ContextName, Copying, Memory};
use acap_order::Comparator;

/// LIMIT: how many entries a SEARCH prints where many match (RFC 2244 section 6.4.1).
#[derive(Clone, Copy, PartialEq, Eq)]
pub struct Limit {
    /// Up to this many matches are all printed.
    pub over: u32,
    /// Where there are more, this many of them are printed.
    pub most: u32,
}

/// MAKECONTEXT: what a SEARCH finds is to be kept as a context (RFC 2244 section 6.4.1).
#[derive(Clone, PartialEq, Eq, Drop)]
pub struct MakeContext {
    /// ENUMERATE: its entries have positions.
    pub enumerate: bool,
    /// NOTIFY: it follows the store.
    pub notify: bool,
    /// Its name.
    pub name: ContextName,
}

impl Copying for MakeContext {
    fn copy(&self) -> Result<MakeContext, Memory> {
        self.clone()
    }
}

/// An item of SORT (RFC 2244 section 6.4.1).
#[derive(Clone, PartialEq, Eq, Drop)]
pub struct SortItem {
    /// The attribute whose values order the entries.
    pub attribute: Attribute,
    /// How they do.
    pub comparator: Comparator,
}

impl Copying for SortItem {
    fn copy(&self) -> Result<SortItem, Memory> {
        self.clone()
    }
}

/// How a SEARCH is made, and what is printed of it (RFC 2244 section 6.4.1).
#[derive(PartialEq, Eq, Drop)]
pub struct SearchModifiers {
    /// DEPTH: how many levels of datasets are looked through, 0 standing for all; one where it isn't sent.
    pub depth: Option<u32>,
    /// HARDLIMIT: with more matches than these the search fails.
    pub hard_limit: Option<u32>,
    /// LIMIT: how many matches are printed.
    pub limit: Option<Limit>,
    /// MAKECONTEXT: the context that keeps the matches.
    pub make_context: Option<MakeContext>,
    /// NOINHERIT: nothing is inherited.
    pub no_inherit: bool,
    /// RETURN: what is printed of each match.
    pub returns: Option<Returns>,
    /// SORT: in which order they are printed.
    pub sort: Option<SortItems>,
}

impl SearchModifiers {
    ghost use Rattle.acap_commands.specs.Modifiers.{no_modifiers};

    /// A SEARCH without modifiers.
    pub fn none() -> SearchModifiers
        ensures { result ≡ no_modifiers }
    {
        SearchModifiers {
            depth: None,
            hard_limit: None,
            limit: None,
            make_context: None,
            no_inherit: false,
            returns: None,
            sort: None,
        }
    }

    /// Whether two of them are equal, as `==` says it. Takes no memory.
    pub fn equals(&self, other: &SearchModifiers) -> bool
        ensures { IsTrue result ↔ (self.now ≡ other.now) }
    {
        *self == *other
    }
}

impl Clone for SearchModifiers {
    ghost is_clone = { λ x y. y ≡ x };

    fn clone(&self) -> Result<SearchModifiers, Memory> {
        let make_context = self.make_context.copy()?;
        let returns = self.returns.copy()?;
        let sort = self.sort.copy()?;
        Ok(SearchModifiers {
            depth: self.depth,
            hard_limit: self.hard_limit,
            limit: self.limit,
            make_context,
            no_inherit: self.no_inherit,
            returns,
            sort,
        })
    }
}

impl Copying for SearchModifiers {
    fn copy(&self) -> Result<SearchModifiers, Memory> {
        self.clone()
    }
}
