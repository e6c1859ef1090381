//! The list that a client was sent last, lent to a SEARCH over the context.
ghost use Rattle.std.specs.Prelude.{◌≡◌, IfOk, map as each};

use crate::context_lists::LentLists;
use acap_entries::Memory;
use acap_search::{Hit, Hits};
use std::alloc::Global;
use std::marker::Model;

/// The list of a context that was sent last, in which positions count (RFC 2244 sections 3.3 and 6.4.1).
#[derive(Drop)]
pub struct LastSentList<'a> {
    pub(crate) list: LentLists<'a>,
}

impl<'a> Model for LastSentList<'a> {
    ghost use Rattle.std.specs.Prelude.{List};
    ghost use Rattle.std.specs.Coded.{coded_list};
    ghost use Rattle.acap_search.specs.Matches.{Match, match_code};
    ghost use Rattle.acap_views.specs.Lending.{told_matches};

    ghost Value = { List Match };

    ghost coded = { coded_list match_code };

    ghost view = { λ s. told_matches s.list };
}

/// Hits one by one. Fails only for want of memory.
pub(crate) fn each_hit(alloc: Global, hits: &Hits) -> Result<Vec<&Hit>, Memory>
    ensures { IfOk result (λ made. each (λ hit. hit.now) made.items ≡ hits.now) }
{
    let mut made = Vec::with_capacity(alloc, hits.len())?;
    for hit in hits.as_slice() {
        made.push(hit)?;
    }
    Ok(made)
}

impl<'a> LastSentList<'a> {
    /// The hits in their order (RFC 2244 section 6.4.1). Fails only for want of memory.
    pub fn hits(&self, alloc: Global) -> Result<Vec<&Hit>, Memory>
        ensures { IfOk result (λ made. each (λ hit. hit.now) made.items ≡ self.now) }
    {
        match &self.list {
            LentLists::Snapshot(hits) => each_hit(alloc, hits),
            LentLists::Live(watch) => watch.shown_hits(alloc),
        }
    }
}
