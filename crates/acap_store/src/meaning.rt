//! The entries that STORE, SETACL or DELETEACL writes.
ghost use Rattle.std.specs.Prelude.{◌≡◌, ◌∷◌, [], IfOk};
ghost use Rattle.acap_entries.specs.Made.{IsMade};
ghost use Rattle.acap_store.specs.Meaning as rule;

use crate::objects::{lent_object, object_for};
use crate::write::{ResolvedWrite, Write};
use acap_commands::{
    Entries, Given, ObjectName, StoreEntry, StoreItem, StoreItems, StoreMetadata, StoreModifiers,
};
use acap_entries::{
    Attribute, Cell, Copying, Dataset, EntryName, Memory, Path, Tree, UserName, Value,
};
use acap_rights::{Acl, decided_list, list_attribute};
use std::alloc::Global;

// The entries as their user means them: `~` is replaced in each path.
fn entries_for(user: &UserName, entries: Entries) -> Result<Entries, Memory>
    ensures { IfOk result (λ made. made ≡ rule.entries_for user.now entries) }
{
    let mut made = entries.into_vec();
    for entry in made.iter_mut() {
        entry.path.set_user(user)?;
    }
    Ok(Entries::from_vec(made))
}

// The entries of one entry, with NOCREATE, that gets one item.
fn one_entry(alloc: Global, path: Path, item: StoreItem) -> Result<Entries, Memory>
    ensures { IsMade (rule.entry_with path item ∷ []) result }
{
    let mut items = StoreItems::new(alloc);
    items.push(item)?;
    let modifiers = StoreModifiers {
        no_create: true,
        unchanged_since: None,
    };
    let mut entries = Entries::new(alloc);
    entries.push(StoreEntry {
        path,
        modifiers,
        items,
    })?;
    Ok(entries)
}

// The STORE of a value in the management entry of a dataset.
fn management_store(
    alloc: Global,
    dataset: Dataset,
    attribute: Attribute,
    given: Given,
) -> Result<Entries, Memory>
    ensures { IsMade (rule.management_entry dataset attribute given ∷ []) result }
{
    let name = EntryName::of_management(alloc);
    let item = StoreItem {
        attribute,
        metadata: StoreMetadata::Value,
        given,
    };
    one_entry(alloc, Path { dataset, name }, item)
}

// The STORE of the list of an object.
fn list_store(alloc: Global, object: ObjectName, given: Given) -> Result<Entries, Memory>
    ensures { IsMade (rule.list_entry (rule.target_in object) given ∷ []) result }
{
    match object {
        ObjectName::Dataset { dataset } => {
            let attribute = Attribute::from_slice(alloc, b"dataset.acl")?;
            management_store(alloc, dataset, attribute, given)
        }
        ObjectName::Attribute { dataset, attribute } => {
            let attribute = list_attribute(alloc, attribute.get().as_slice())?;
            management_store(alloc, dataset, attribute, given)
        }
        ObjectName::Entry {
            dataset,
            attribute,
            name,
        } => {
            let name = name.into_value();
            let item = StoreItem {
                attribute: attribute.into_value(),
                metadata: StoreMetadata::Acl,
                given,
            };
            one_entry(alloc, Path { dataset, name }, item)
        }
    }
}

// The STORE of a list that was edited.
fn put_list(alloc: Global, object: ObjectName, acl: Acl) -> Result<ResolvedWrite, Memory>
    ensures { IsMade (rule.list_store (rule.target_in object) acl) result }
{
    let given = Given::Put(Cell::Multi(acl.into_values()?));
    let entries = list_store(alloc, object, given)?;
    Ok(ResolvedWrite {
        entries,
        drops_dataset_list: false,
    })
}

// The STORE that SETACL is.
fn set(
    alloc: Global,
    tree: &Tree,
    object: ObjectName,
    identifier: &[u8],
    letters: &[u8],
) -> Result<ResolvedWrite, Memory>
    ensures { IsMade (rule.set_in tree.now.store.records object identifier.now letters.now) result }
{
    let acl = decided_list(alloc, tree, &lent_object(&object))?;
    let acl = acl.with_pair(identifier, letters)?;
    put_list(alloc, object, acl)
}

// The STORE that DELETEACL of an identifier is.
fn take_off(
    alloc: Global,
    tree: &Tree,
    object: ObjectName,
    identifier: &[u8],
) -> Result<ResolvedWrite, Memory>
    ensures { IsMade (rule.taken_off_in tree.now.store.records object identifier.now) result }
{
    let acl = decided_list(alloc, tree, &lent_object(&object))?;
    let acl = acl.without(identifier);
    put_list(alloc, object, acl)
}

// The STORE that DELETEACL of a whole list is.
fn drop_list(alloc: Global, object: ObjectName) -> Result<ResolvedWrite, Memory>
    ensures { IsMade (rule.list_removal (rule.target_in object)) result }
{
    let drops_dataset_list = matches!(&object, ObjectName::Dataset { .. });
    let entries = list_store(alloc, object, Given::Default)?;
    Ok(ResolvedWrite {
        entries,
        drops_dataset_list,
    })
}

/// What a command stores in that tree (RFC 2244 sections 6.6.1 and 6.7).
#[tactic(auto, unfolding(crate::specs::Meaning::meaning))]
pub(crate) fn meaning(
    alloc: Global,
    tree: &Tree,
    user: &UserName,
    write: Write,
) -> Result<ResolvedWrite, Memory>
    ensures { IfOk result (λ meant. meant ≡ rule.meaning tree.now.store.records user.now write) }
{
    match write {
        Write::Store(entries) => Ok(ResolvedWrite {
            entries: entries_for(user, entries)?,
            drops_dataset_list: false,
        }),
        Write::SetAcl(object, identifier, letters) => {
            let object = object_for(user, object.into_value())?;
            set(
                alloc,
                tree,
                object,
                identifier.get().as_slice(),
                letters.get().as_slice(),
            )
        }
        Write::DeleteAcl(object, listed) => {
            let object = object_for(user, object.into_value())?;
            match listed {
                Some(identifier) => take_off(alloc, tree, object, identifier.get().as_slice()),
                None => drop_list(alloc, object),
            }
        }
    }
}
