//! The conditions of a STORE: NOCREATE and UNCHANGEDSINCE.
ghost use Rattle.std.specs.Prelude.{◌≡◌, find};
ghost use Rattle.std.specs.Option.{option_copied};
ghost use Rattle.acap_commands.specs.Answers.{IsCheck};
ghost use Rattle.acap_store.specs.Refusing as rule;

use crate::item_tests::exists_at;
use acap_commands::{Refusal, StoreEntry};
use acap_entries::{Boxed, Copying, Moment, Path, Tree};
use acap_inherit::{chain, modtime};
use std::alloc::Global;

// Whether NOCREATE is said where the dataset doesn't exist.
fn lacks_dataset(tree: &Tree, entry: &StoreEntry) -> bool
    ensures { result ≡ rule.lacks_dataset tree.now.store.records entry.now }
{
    entry.modifiers.no_create && !tree.dataset_exists(entry.path.dataset.as_slice())
}

// The first entry whose dataset has to exist and doesn't.
fn first_lacking<'a>(tree: &Tree, entries: &'a [StoreEntry]) -> Option<&'a StoreEntry>
    ensures { option_copied result ≡ find (rule.lacks_dataset tree.now.store.records) entries.now }
{
    entries.iter().find(|entry| lacks_dataset(tree, entry))
}

/// That each dataset that has to exist does, or the refusal for the first that doesn't.
#[tactic(auto, unfolding(crate::specs::Refusing::no_exist))]
pub(crate) fn check_datasets(tree: &Tree, entries: &[StoreEntry]) -> Result<(), Refusal>
    ensures { IsCheck (rule.no_exist tree.now.store.records entries.now) result }
{
    match first_lacking(tree, entries) {
        Some(entry) => Err(Refusal::NoExist(entry.path.dataset.copy()?)),
        None => Ok(()),
    }
}

// The moment of the last change of the entry at a path.
fn modtime_at(tree: &Tree, path: &Path) -> Option<Moment>
    ensures { result ≡ rule.modtime_at tree.now.store.records path.now }
{
    let chain = chain(tree, &path.dataset);
    modtime(tree, &chain, path.name.as_slice())
}

// Whether a change is later.
fn is_later(changed: Option<Moment>, since: Moment) -> bool
    ensures { result ≡ rule.is_later changed since }
{
    match changed {
        Some(moment) => since < moment,
        None => false,
    }
}

// Whether UNCHANGEDSINCE is said of an entry that changed later.
fn has_changed(tree: &Tree, entry: &StoreEntry) -> bool
    ensures { result ≡ rule.has_changed tree.now.store.records entry.now }
{
    match entry.modifiers.unchanged_since {
        Some(since) => {
            exists_at(tree, &entry.path) && is_later(modtime_at(tree, &entry.path), since)
        }
        None => false,
    }
}

// The first entry that changed later than it says.
fn first_changed<'a>(tree: &Tree, entries: &'a [StoreEntry]) -> Option<&'a StoreEntry>
    ensures { option_copied result ≡ find (rule.has_changed tree.now.store.records) entries.now }
{
    entries.iter().find(|entry| has_changed(tree, entry))
}

/// That no entry changed later than it says, or the refusal for the first that did.
#[tactic(auto, unfolding(crate::specs::Refusing::modified))]
pub(crate) fn check_unchanged(
    alloc: Global,
    tree: &Tree,
    entries: &[StoreEntry],
) -> Result<(), Refusal>
    ensures { IsCheck (rule.modified tree.now.store.records entries.now) result }
{
    match first_changed(tree, entries) {
        Some(entry) => Err(Refusal::Modified(Boxed::new(alloc, entry.path.copy()?)?)),
        None => Ok(()),
    }
}
