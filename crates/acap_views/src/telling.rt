//! The pending notices of one session's contexts, as UPDATECONTEXT and a drain send them.
ghost use Rattle.std.specs.Prelude.{◌≡◌, [], ℤ, IfOk, flat_map};
ghost use Rattle.std.specs.Option.{option_map_or};
ghost use Rattle.acap_notices.specs.Batches as batches;
ghost use Rattle.acap_notices.specs.Batches.{all_told, told_in};
ghost use Rattle.std.specs.FinMap as table;
ghost use Rattle.std.specs.List.{list_any};
ghost use Rattle.acap_entries.specs.Orders.{octets_cmp};
ghost use Rattle.acap_ordmap.specs.Sorted.{InOrder};
ghost use Rattle.acap_views.specs.Listing.{as_contexts, waiting_after, told_by};
ghost use Rattle.acap_views.specs.Telling as rule;
ghost use Rattle.acap_views.specs.Waiting as waiting;

use crate::open_context::OpenContext;
use crate::refusal::ViewRefusal;
use acap_entries::{ContextName, Copying, Memory, Moment, Sequence, Shared, Whole, lookup};
use acap_notices::{Batch, Ending, Notice};
use std::alloc::Global;

// Why the context of a name isn't served.
fn fault_at(contexts: &[(ContextName, OpenContext)], name: &ContextName) -> Option<ViewRefusal>
    requires { InOrder octets_cmp contexts.now }
    ensures { result ≡ rule.fault_at (as_contexts contexts.now) name.now }
{
    match lookup(contexts, &Whole { key: name }) {
        Some(context) => context.fault(),
        None => Some(ViewRefusal::NoContext),
    }
}

/// Why some context isn't served: the first fault in the order of the names.
pub(crate) fn fault_of(
    contexts: &[(ContextName, OpenContext)],
    names: &[ContextName],
) -> Option<ViewRefusal>
    requires { InOrder octets_cmp contexts.now }
    ensures { result ≡ rule.fault_of (as_contexts contexts.now) names.now }
{
    for name in names {
        if let Some(fault) = fault_at(contexts, name) {
            return Some(fault);
        }
    }
    None
}

// The notices that wait of the context of a name, when those of the names before it have been sent.
fn notices_after(
    contexts: &[(ContextName, OpenContext)],
    seen: &[ContextName],
    name: &ContextName,
) -> Result<Shared<Notice>, Memory>
    requires { InOrder octets_cmp contexts.now }
    ensures { IfOk result (λ notices. (last : ℤ) → batches.notes_of name.now notices
        ≡ waiting_after (as_contexts contexts.now) seen.now last name.now) }
{
    if seen.contains(name) {
        return Ok(Shared::none());
    }
    match lookup(contexts, &Whole { key: name }) {
        Some(context) => context.share(),
        None => Ok(Shared::none()),
    }
}

// What is sent of the context of a name, when those of the names before it have been sent.
fn batch_after(
    contexts: &[(ContextName, OpenContext)],
    seen: &[ContextName],
    name: &ContextName,
    last: Moment,
) -> Result<Batch, Memory>
    requires { InOrder octets_cmp contexts.now }
    ensures { IfOk result (λ batch. told_in batch ≡ told_by contexts.now seen.now last name.now) }
{
    let notices = notices_after(contexts, seen, name)?;
    Ok(Batch {
        context: name.copy()?,
        notices,
        ending: Some(Ending::Upto(last)),
    })
}

/// What is sent of the contexts of these names, one after the other. Fails only for want of memory.
pub(crate) fn tell_in_turn(
    alloc: Global,
    contexts: &[(ContextName, OpenContext)],
    names: &[ContextName],
    last: Moment,
) -> Result<Sequence<Batch>, Memory>
    requires { InOrder octets_cmp contexts.now }
    ensures { IfOk result
        (λ made. all_told made ≡ rule.told_in_turn (as_contexts contexts.now) names.now last) }
{
    let mut batches = Vec::with_capacity(alloc, names.len())?;
    for at in 0..names.len() {
        let (seen, _) = names.split_at(at);
        batches.push(batch_after(contexts, seen, &names[at], last)?)?;
    }
    Ok(Sequence::from_vec(batches))
}

// What a drain sends of a context, if it sends something.
fn batch_drained(name: &ContextName, context: &OpenContext) -> Result<Option<Batch>, Memory>
    ensures { IfOk result
        (λ batch. option_map_or told_in batch [] ≡ rule.drain_told name.now context.now.context.kept) }
{
    if context.is_freed() {
        return Ok(Some(Batch {
            context: name.copy()?,
            notices: Shared::none(),
            ending: Some(Ending::Freed),
        }));
    }
    let notices = context.share()?;
    if notices.is_empty() {
        return Ok(None);
    }
    Ok(Some(Batch {
        context: name.copy()?,
        notices,
        ending: None,
    }))
}

/// What a drain sends of the contexts, in the order of their names. Fails only for want of memory.
pub(crate) fn drain(
    alloc: Global,
    contexts: &[(ContextName, OpenContext)],
) -> Result<Sequence<Batch>, Memory>
    requires { InOrder octets_cmp contexts.now }
    ensures { IfOk result (λ made. all_told made
        ≡ flat_map (λ e. rule.drain_told e.0 e.1.kept) (table.entries (as_contexts contexts.now))) }
{
    let mut batches = Vec::new(alloc);
    for entry in contexts {
        if let Some(batch) = batch_drained(&entry.0, &entry.1)? {
            batches.push(batch)?;
        }
    }
    Ok(Sequence::from_vec(batches))
}

/// Whether a drain sends something of them.
pub(crate) fn any_waits(contexts: &[(ContextName, OpenContext)]) -> bool
    requires { InOrder octets_cmp contexts.now }
    ensures { result
        ≡ list_any (λ context. waiting.waits context.kept) (table.values (as_contexts contexts.now)) }
{
    for entry in contexts {
        if entry.1.waits() {
            return true;
        }
    }
    false
}
