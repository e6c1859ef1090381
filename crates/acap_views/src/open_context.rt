//! `OpenContext`: one context with its name, query, lists and pending notices.
ghost use Rattle.std.specs.Prelude.{◌≡◌, IfOk};
ghost use Rattle.acap_ordmap.specs.Ranks.{Ascending};
ghost use Rattle.acap_search.specs.Matches.{match_cmp};
ghost use Rattle.acap_views.specs.Contexts.{context_of, kept_of};
ghost use Rattle.acap_views.specs.Holds.{kept_in, pending_in, is_freed};
ghost use Rattle.acap_views.specs.Telling.{shown_now, updated_to, fault_in};
ghost use Rattle.acap_views.specs.Waiting.{waits};
ghost use Rattle.acap_views.specs.Work.{is_live};

use crate::context_lists::ContextLists;
use crate::live_lists::LiveLists;
use crate::refusal::ViewRefusal;
use acap_commands::MakeContext;
use acap_entries::{Copying, Memory, Moment, Shared};
use acap_notices::Notice;
use acap_search::{Hits, SearchSpec};
use std::alloc::Global;
use std::marker::Model;

/// A context: what its search looked for, whether its entries have positions, up to which moment its client has been sent all, and its lists
/// (RFC 2244 section 3.3).
#[derive(Drop)]
pub(crate) struct OpenContext {
    pub(crate) sought: SearchSpec,
    pub(crate) enumerated: bool,
    pub(crate) told: Moment,
    pub(crate) held: ContextLists,
}

impl Model for OpenContext {
    ghost use Rattle.acap_views.specs.Keeping.{RoomyContext, roomy_context_code};
    ghost use Rattle.acap_views.specs.Holds.{kept_in, space_in};

    ghost Value = { RoomyContext };

    ghost coded = { roomy_context_code };

    ghost view = { λ c. record {
      context = record { sought = c.sought; enumerated = c.enumerated; told = c.told; kept = kept_in c.held };
      space = space_in c.held;
    } };
}

// What is kept of what a search found.
fn hold(alloc: Global, notify: bool, hits: Hits) -> Result<ContextLists, Memory>
    requires { Ascending match_cmp hits }
    ensures { IfOk result (λ made. kept_in made ≡ kept_of notify hits) }
{
    if notify {
        Ok(ContextLists::Live(LiveLists::new(alloc, hits)?))
    } else {
        Ok(ContextLists::Snapshot(hits))
    }
}

// What is kept of a context, again.
fn copy_held(held: &ContextLists) -> Result<ContextLists, Memory>
    ensures { IfOk result (λ made. kept_in made ≡ kept_in held.now) }
{
    match held {
        ContextLists::Snapshot(hits) => Ok(ContextLists::Snapshot(hits.copy()?)),
        ContextLists::Live(watch) => Ok(ContextLists::Live(watch.copy()?)),
        ContextLists::Freed => Ok(ContextLists::Freed),
    }
}

// All that waits has been sent.
fn tell(alloc: Global, held: &mut ContextLists)
    ensures { kept_in held.new ≡ shown_now (kept_in held.old) }
{
    if let ContextLists::Live(watch) = held {
        watch.tell(alloc);
    }
}

// What waits is put where a reply can hold it too.
fn gather(held: &mut ContextLists) -> Result<(), Memory>
    ensures { kept_in held.new ≡ kept_in held.old }
{
    match held {
        ContextLists::Live(watch) => watch.gather(),
        ContextLists::Snapshot(_) | ContextLists::Freed => Ok(()),
    }
}

impl OpenContext {
    /// The context that a search makes which found these hits. Fails only for want of memory.
    pub(crate) fn new(
        alloc: Global,
        make: &MakeContext,
        sought: SearchSpec,
        hits: Hits,
        last: Moment,
    ) -> Result<OpenContext, Memory>
        requires { Ascending match_cmp hits }
        ensures { IfOk result (λ made. made.context ≡ context_of make.now sought hits last) }
    {
        let held = hold(alloc, make.notify, hits)?;
        Ok(OpenContext {
            sought,
            enumerated: make.enumerate,
            told: last,
            held,
        })
    }

    /// The notices that wait, the oldest first.
    pub(crate) fn pending(&self) -> &[Notice]
        ensures { result.now ≡ pending_in self.now.context.kept }
    {
        match &self.held {
            ContextLists::Live(watch) => watch.pending(),
            ContextLists::Snapshot(_) | ContextLists::Freed => &[],
        }
    }

    /// The notices that wait, the oldest first, which the context holds too. Fails only for want of memory.
    pub(crate) fn share(&self) -> Result<Shared<Notice>, Memory>
        ensures { IfOk result (λ notices. notices ≡ pending_in self.now.context.kept) }
    {
        match &self.held {
            ContextLists::Live(watch) => watch.share(),
            ContextLists::Snapshot(_) | ContextLists::Freed => Ok(Shared::none()),
        }
    }

    /// Puts the notices that wait where a reply can hold them too. The context stays, also where memory is refused.
    pub(crate) fn gather(&mut self) -> Result<(), Memory>
        ensures { self.new.context ≡ self.old.context }
    {
        gather(&mut self.held)
    }

    /// Whether too many notices came.
    pub(crate) fn is_freed(&self) -> bool
        ensures { result ≡ is_freed self.now.context.kept }
    {
        matches!(self.held, ContextLists::Freed)
    }

    /// Whether it follows the store.
    pub(crate) fn is_live(&self) -> bool
        ensures { result ≡ is_live self.now.context.kept }
    {
        matches!(self.held, ContextLists::Live(_))
    }

    /// Whether a drain sends something of it.
    pub(crate) fn waits(&self) -> bool
        ensures { result ≡ waits self.now.context.kept }
    {
        match &self.held {
            ContextLists::Snapshot(_) => false,
            ContextLists::Live(watch) => !watch.pending().is_empty(),
            ContextLists::Freed => true,
        }
    }

    /// Why nothing is sent of it at an UPDATECONTEXT.
    pub(crate) fn fault(&self) -> Option<ViewRefusal>
        ensures { result ≡ fault_in self.now.context.kept }
    {
        match &self.held {
            ContextLists::Snapshot(_) => Some(ViewRefusal::NotNotify),
            ContextLists::Live(_) => None,
            ContextLists::Freed => Some(ViewRefusal::FreedContext),
        }
    }

    /// All that waits has been sent: a live context shows its present list. Takes no memory.
    pub(crate) fn tell(&mut self, alloc: Global)
        ensures { self.new.context ≡ record self.old.context { kept = shown_now self.old.context.kept } }
    {
        tell(alloc, &mut self.held);
    }

    /// All that waits has been sent, and the moment of the store's last change with it. Takes no memory.
    pub(crate) fn tell_upto(&mut self, alloc: Global, last: Moment)
        ensures { self.new.context ≡ updated_to last self.old.context }
    {
        self.told = last;
        tell(alloc, &mut self.held);
    }

    /// An equal context. Fails only for want of memory.
    pub(crate) fn copy(&self) -> Result<OpenContext, Memory>
        ensures { IfOk result (λ made. made.context ≡ self.now.context) }
    {
        let held = copy_held(&self.held)?;
        Ok(OpenContext {
            sought: self.sought.copy()?,
            enumerated: self.enumerated,
            told: self.told,
            held,
        })
    }
}
