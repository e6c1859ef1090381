//! INVALID: what may not be stored.
ghost use Rattle.std.specs.Prelude.{◌≡◌, find};
ghost use Rattle.std.specs.Option.{option_copied};
ghost use Rattle.acap_commands.specs.Answers.{IsCheck};
ghost use Rattle.acap_store.specs.Invalid as rule;

use crate::ending::may_end;
use crate::item_tests::{is_management, is_nothing, is_value};
use crate::permission::is_list;
use crate::write::ResolvedWrite;
use acap_commands::{Given, Refusal, StoreEntry, StoreItem};
use acap_entries::{Boxed, Cell, Copying, Tree, is_dataset_argument};
use acap_rights::is_acl;
use std::alloc::Global;

// Whether the list of the one string `.` is given.
fn is_dot(given: &Given) -> bool
    ensures { result ≡ rule.is_dot given.now }
{
    match given {
        Given::Put(Cell::Multi(values)) => match values.as_slice() {
            [value] => value.as_slice() == b".".as_slice(),
            _ => false,
        },
        Given::Put(Cell::Nil) => false,
        Given::Put(Cell::Single(_)) => false,
        Given::Default => false,
    }
}

// Whether that string is given.
fn is_string(text: &[u8], given: &Given) -> bool
    ensures { result ≡ rule.is_string text.now given.now }
{
    match given {
        Given::Put(Cell::Single(value)) => value.as_slice() == text,
        Given::Put(Cell::Nil) => false,
        Given::Put(Cell::Multi(_)) => false,
        Given::Default => false,
    }
}

// Whether an access control list may have that.
fn may_be_list(given: &Given) -> bool
    ensures { result ≡ rule.may_be_list given.now }
{
    match given {
        Given::Put(Cell::Nil) => true,
        Given::Put(Cell::Single(_)) => false,
        Given::Put(Cell::Multi(acl)) => is_acl(acl.as_slice()),
        Given::Default => true,
    }
}

// Whether `dataset.inherit` may have that.
fn may_be_base(given: &Given) -> bool
    ensures { result ≡ rule.may_be_base given.now }
{
    match given {
        Given::Put(Cell::Nil) => true,
        Given::Put(Cell::Single(value)) => is_dataset_argument(value.as_slice()),
        Given::Put(Cell::Multi(_)) => false,
        Given::Default => true,
    }
}

// Whether `entry` may have that.
fn may_be_entry(tree: &Tree, all: &[StoreEntry], entry: &StoreEntry, given: &Given) -> bool
    ensures { result ≡ rule.may_be_entry tree.now.store.records all.now entry.now given.now }
{
    if is_nothing(given) {
        may_end(tree, all, entry)
    } else {
        is_string(entry.path.name.as_slice(), given)
    }
}

// Whether the attribute may have that value.
fn may_be_value(tree: &Tree, all: &[StoreEntry], entry: &StoreEntry, item: &StoreItem) -> bool
    ensures { result ≡ rule.may_be_value tree.now.store.records all.now entry.now item.now }
{
    let attribute = item.attribute.as_slice();
    if attribute == b"subdataset".as_slice() {
        is_dot(&item.given)
    } else if attribute == b"entry".as_slice() {
        may_be_entry(tree, all, entry, &item.given)
    } else if is_management(&entry.path) && attribute == b"dataset.inherit".as_slice() {
        may_be_base(&item.given)
    } else {
        true
    }
}

// Whether an item may not be stored.
#[tactic(auto, unfolding(crate::specs::Invalid::is_invalid))]
fn is_invalid(tree: &Tree, all: &[StoreEntry], entry: &StoreEntry, item: &StoreItem) -> bool
    ensures { result ≡ rule.is_invalid tree.now.store.records all.now entry.now item.now }
{
    item.attribute.as_slice() == b"modtime".as_slice()
        || (is_list(&entry.path, item) && !may_be_list(&item.given))
        || (is_value(item.metadata) && !may_be_value(tree, all, entry, item))
}

// The first item of an entry that may not be stored.
fn first_in<'a>(tree: &Tree, meant: &ResolvedWrite, entry: &'a StoreEntry) -> Option<&'a StoreItem>
    ensures { option_copied result ≡ rule.first_refused tree.now.store.records meant.now entry.now }
{
    entry.items.as_slice().iter().find(|item| {
        meant.drops_dataset_list || is_invalid(tree, meant.entries.as_slice(), entry, item)
    })
}

// That each item of an entry may be stored, or the refusal for the first that may not.
fn check_items_in(
    alloc: Global,
    tree: &Tree,
    meant: &ResolvedWrite,
    entry: &StoreEntry,
) -> Result<(), Refusal>
    ensures { IsCheck (rule.invalid_in tree.now.store.records meant.now entry.now) result }
{
    match first_in(tree, meant, entry) {
        Some(item) => {
            let path = Boxed::new(alloc, entry.path.copy()?)?;
            let attribute = item.attribute.copy()?;
            Err(Refusal::Invalid(path, attribute))
        }
        None => Ok(()),
    }
}

/// That each item of all may be stored, or the refusal for the first that may not.
#[tactic(auto, unfolding(crate::specs::Invalid::invalid))]
pub(crate) fn check_items(alloc: Global, tree: &Tree, meant: &ResolvedWrite) -> Result<(), Refusal>
    ensures { IsCheck (rule.invalid tree.now.store.records meant.now) result }
{
    for entry in meant.entries.as_slice() {
        check_items_in(alloc, tree, meant, entry)?;
    }
    Ok(())
}
