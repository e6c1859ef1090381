//! The checks of a STORE, in the order of their refusals.
ghost use Rattle.std.specs.Prelude.{◌≡◌, IfOk};
ghost use Rattle.acap_commands.specs.Answers.{IsCheck};
ghost use Rattle.acap_commands.specs.declared.refusal.Refusal.TheVariants as refusal;
ghost use Rattle.acap_store.specs.Asking as asking;
ghost use Rattle.acap_store.specs.Refusing as rule;
ghost use Rattle.acap_store.specs.Rising.{rising};

use crate::conditions::{check_datasets, check_unchanged};
use crate::invalid::check_items;
use crate::permission::check_rights;
use crate::write::ResolvedWrite;
use crate::write_env::WriteEnv;
use acap_commands::{EntryOrder, Refusal, StoreEntry};
use acap_entries::Memory;
use std::alloc::Global;
use std::cmp::Ordering;

// Whether each path is greater than the one before it: then none stands twice.
fn ascend(entries: &[StoreEntry]) -> bool
    ensures { result ≡ rising entries.now }
{
    let mut left = entries;
    while let Some((first, others)) = left.split_first() {
        let Some(next) = others.first() else {
            return true;
        };
        match first.path.cmp(&next.path) {
            Ordering::Less => left = others,
            Ordering::Equal | Ordering::Greater => return false,
        }
    }
    true
}

// Whether two entries have one path. Where paths ascend, none have. Else each is sought by halving among those before it.
fn has_twice(alloc: Global, entries: &[StoreEntry]) -> Result<bool, Memory>
    ensures { IfOk result (λ found. found ≡ rule.has_twice entries.now) }
{
    if ascend(entries) {
        return Ok(false);
    }
    let mut order = EntryOrder::new(alloc);
    for at in 0..entries.len() {
        let (seen, others) = entries.split_at(at);
        if !order.add(seen, &others[0])? {
            return Ok(true);
        }
    }
    Ok(false)
}

// That no two entries have one path.
fn check_once(alloc: Global, entries: &[StoreEntry]) -> Result<(), Refusal>
    ensures { IsCheck (rule.refused_if (rule.has_twice entries.now) refusal.NotPermittedTwice) result }
{
    if has_twice(alloc, entries)? {
        return Err(Refusal::NotPermittedTwice);
    }
    Ok(())
}

/// That nothing stands against a change, or the first refusal: each is asked of all entries before the next.
pub(crate) fn check(alloc: Global, by: &WriteEnv<'_>, meant: &ResolvedWrite) -> Result<(), Refusal>
    ensures { IsCheck (asking.terms_refusal by.now meant.now) result }
{
    let entries = meant.entries.as_slice();
    check_once(alloc, entries)?;
    check_rights(alloc, by, entries)?;
    check_datasets(by.tree, entries)?;
    check_unchanged(alloc, by.tree, entries)?;
    check_items(alloc, by.tree, meant)
}
