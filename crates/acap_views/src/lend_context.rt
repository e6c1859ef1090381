//! `LentContext` of a live context or a snapshot.
ghost use Rattle.std.specs.Prelude.{◌≡◌, IfOk, IfErr, Ok, Err};
ghost use Rattle.acap_views.specs.Ranging.{ranged_if};
ghost use Rattle.acap_views.specs.Started.{as_ranged};

use crate::context_lists::{ContextLists, LentLists};
use crate::last_sent_list::LastSentList;
use crate::lent_context::LentContext;
use crate::open_context::OpenContext;
use crate::refusal::ViewRefusal;

impl OpenContext {
    /// What a search over it starts from. Refused exactly where the server has freed it.
    pub(crate) fn lend(&self) -> Result<LentContext<'_>, ViewRefusal>
        ensures ok { IfOk result
            (λ lent. ranged_if self.now.context self.now.context.kept ≡ Ok (as_ranged lent)) }
        ensures refused { IfErr result (λ why. ranged_if self.now.context self.now.context.kept ≡ Err why) }
    {
        let list = match &self.held {
            ContextLists::Snapshot(hits) => LentLists::Snapshot(hits),
            ContextLists::Live(watch) => LentLists::Live(watch),
            ContextLists::Freed => return Err(ViewRefusal::FreedContext),
        };
        Ok(LentContext {
            sought: &self.sought,
            enumerated: self.enumerated,
            told: self.told,
            shown: LastSentList { list },
        })
    }
}
