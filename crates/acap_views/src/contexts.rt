//! The contexts of one session, in the order of their names: sending, draining and copying them.
ghost use Rattle.std.specs.Prelude.{◌≡◌, not, IfOk, map as each};
ghost use Rattle.std.specs.List.{filter};
ghost use Rattle.acap_entries.specs.Orders.{octets_cmp};
ghost use Rattle.acap_ordmap.specs.Sorted.{InOrder};
ghost use Rattle.acap_views.specs.Holds.{is_freed};
ghost use Rattle.acap_views.specs.Listing.{as_contexts, bare, told_entry};
ghost use Rattle.acap_views.specs.Maps.{each_kept};
ghost use Rattle.acap_views.specs.Telling.{after_update, after_updates, after_drain};

use crate::open_context::OpenContext;
use acap_entries::{ContextName, Copying, Memory, Moment, Whole, place_of};
use std::alloc::Global;

// The context of a name is sent all that waits, and then the moment of the store's last change. Takes no memory.
fn tell_one(
    alloc: Global,
    contexts: &mut Vec<(ContextName, OpenContext)>,
    name: &ContextName,
    last: Moment,
)
    requires { InOrder octets_cmp contexts.old.items }
    ensures order { InOrder octets_cmp contexts.new.items }
    ensures told { as_contexts contexts.new.items
        ≡ after_update (as_contexts contexts.old.items) name.now last }
{
    let (at, tied) = place_of(contexts.as_slice(), &Whole { key: name });
    if !tied {
        return;
    }
    contexts[at].1.tell_upto(alloc, last);
}

/// The contexts of these names are sent all that waits, and then the moment of the store's last change. Takes no memory.
pub(crate) fn tell_named(
    alloc: Global,
    contexts: &mut Vec<(ContextName, OpenContext)>,
    names: &[ContextName],
    last: Moment,
)
    requires { InOrder octets_cmp contexts.old.items }
    ensures order { InOrder octets_cmp contexts.new.items }
    ensures told { as_contexts contexts.new.items
        ≡ after_updates (as_contexts contexts.old.items) names.now last }
{
    for name in names {
        tell_one(alloc, contexts, name, last);
    }
}

// What waits of each context is put where a reply can hold it too.
fn gather_each(contexts: &mut Vec<(ContextName, OpenContext)>) -> Result<(), Memory>
    ensures { each bare contexts.new.items ≡ each bare contexts.old.items }
{
    for at in 0..contexts.len() {
        contexts[at].1.gather()?;
    }
    Ok(())
}

/// What waits of each context is put where a reply can hold it too. The contexts stay, also where memory is refused.
pub(crate) fn gather(contexts: &mut Vec<(ContextName, OpenContext)>) -> Result<(), Memory>
    requires { InOrder octets_cmp contexts.old.items }
    ensures order { InOrder octets_cmp contexts.new.items }
    ensures same { as_contexts contexts.new.items ≡ as_contexts contexts.old.items }
{
    gather_each(contexts)
}

// Each context is sent all that waits. Takes no memory.
fn tell_all(alloc: Global, contexts: &mut Vec<(ContextName, OpenContext)>)
    ensures { each bare contexts.new.items ≡ each told_entry (each bare contexts.old.items) }
{
    for entry in contexts.iter_mut() {
        entry.1.tell(alloc);
    }
}

// Freed contexts are taken out. Takes no memory.
fn drop_freed(contexts: &mut Vec<(ContextName, OpenContext)>)
    ensures { contexts.new.items ≡ filter (λ entry. not (is_freed entry.1.context.kept)) contexts.old.items }
{
    contexts.retain(|entry| !entry.1.is_freed());
}

/// Each context is sent all that waits, and freed ones are taken out. Takes no memory.
pub(crate) fn drain(alloc: Global, contexts: &mut Vec<(ContextName, OpenContext)>)
    requires { InOrder octets_cmp contexts.old.items }
    ensures order { InOrder octets_cmp contexts.new.items }
    ensures told { as_contexts contexts.new.items ≡ each_kept after_drain (as_contexts contexts.old.items) }
{
    tell_all(alloc, contexts);
    drop_freed(contexts);
}

// The same contexts under the same names. Fails only for want of memory.
fn copy_each(
    contexts: &Vec<(ContextName, OpenContext)>,
) -> Result<Vec<(ContextName, OpenContext)>, Memory>
    ensures { IfOk result (λ made. each bare made.items ≡ each bare contexts.now.items) }
{
    let mut made = Vec::with_capacity(*contexts.allocator(), contexts.len())?;
    for entry in contexts {
        made.push((entry.0.copy()?, entry.1.copy()?))?;
    }
    Ok(made)
}

/// Equal contexts. Fails only for want of memory.
pub(crate) fn copy_contexts(
    contexts: &Vec<(ContextName, OpenContext)>,
) -> Result<Vec<(ContextName, OpenContext)>, Memory>
    requires { InOrder octets_cmp contexts.now.items }
    ensures order { IfOk result (λ made. InOrder octets_cmp made.items) }
    ensures same { IfOk result (λ made. as_contexts made.items ≡ as_contexts contexts.now.items) }
{
    let made = copy_each(contexts)?;
    Ok(made)
}
