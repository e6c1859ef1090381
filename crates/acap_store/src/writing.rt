//! The writes of a STORE.
ghost use Rattle.std.specs.Prelude.{◌≡◌, IfOk, OnOk};
ghost use Rattle.std.specs.List.{list_any};
ghost use Rattle.std.specs.Option.{option_copied};
ghost use Rattle.acap_entries.specs.Made.{IsMade};
ghost use Rattle.acap_store.specs.Forms.{is_of};
ghost use Rattle.acap_store.specs.Writing as writing;
ghost use Rattle.acap_store.specs.Writing.{edits_in};

use crate::item_tests::{is_ending, is_of};
use crate::missing::steps_for;
use crate::records::{acls_of, cells_of, deleted_record, give_item, renew};
use acap_commands::{Entries, Given, StoreEntry, StoreItem, StoreItems};
use acap_entries::{
    Acls, Boxed, Cell, Cells, Memory, Moment, Path, Record, RecordEdit, Tree, UserName, Writes,
};
use std::alloc::Global;

// Whether NIL is given.
fn is_nil(given: &Given) -> bool
    ensures { result ≡ writing.is_nil given.now }
{
    match given {
        Given::Put(Cell::Nil) => true,
        Given::Put(Cell::Single(_)) => false,
        Given::Put(Cell::Multi(_)) => false,
        Given::Default => false,
    }
}

// Whether an item is `entry` NIL.
fn is_deleting(item: &StoreItem) -> bool
    ensures { result ≡ writing.is_deleting item.now }
{
    is_of(b"entry", item) && is_nil(&item.given)
}

// Whether `entry` NIL is given.
fn deletes(items: &[StoreItem]) -> bool
    ensures { result ≡ list_any writing.is_deleting items.now }
{
    items.iter().any(is_deleting)
}

/// Whether `entry` NIL or DEFAULT is given.
pub(crate) fn ends(entry: &StoreEntry) -> bool
    ensures { result ≡ writing.ends entry.now }
{
    entry.items.as_slice().iter().any(is_ending)
}

// What a path has when the missing datasets have been made.
fn record_there<'a>(tree: &'a Tree, steps: &'a Writes, path: &Path) -> Option<&'a Record>
    ensures { option_copied result ≡ writing.record_with_steps tree.now.store.records steps.now path.now }
{
    match steps.get(path) {
        Some(RecordEdit::Put(record)) => Some(record.get()),
        Some(RecordEdit::Remove) => None,
        None => tree.get(path),
    }
}

// The items of an entry are stored.
#[tactic(auto, using(crate::proofs::WriteLemmas::with_values_push, crate::proofs::WriteLemmas::with_lists_push))]
fn give_items(
    alloc: Global,
    user: &UserName,
    path: &Path,
    cells: &mut Cells,
    acls: &mut Acls,
    items: StoreItems,
) -> Result<(), Memory>
    ensures cells { OnOk result (cells.new ≡ writing.with_values user.now path.now cells.old items) }
    ensures acls { OnOk result (acls.new ≡ writing.with_lists acls.old items) }
{
    for item in items.into_vec() {
        give_item(alloc, user, path, cells, acls, item)?;
    }
    Ok(())
}

// What a path has once items are stored in its entry.
fn given_record(
    alloc: Global,
    user: &UserName,
    path: &Path,
    old: Option<&Record>,
    items: StoreItems,
    moment: Moment,
) -> Result<Record, Memory>
    ensures { IsMade (writing.given_record user.now path.now (option_copied old.entry) items moment) result }
{
    let mut cells = cells_of(alloc, old)?;
    let mut acls = acls_of(alloc, old)?;
    give_items(alloc, user, path, &mut cells, &mut acls, items)?;
    Ok(renew(old, cells, acls, moment))
}

// What one entry writes at its path, by what the path had.
fn edit_of(
    alloc: Global,
    user: &UserName,
    old: Option<&Record>,
    moment: Moment,
    entry: StoreEntry,
) -> Result<(Path, RecordEdit), Memory>
    ensures { IsMade (entry.path, writing.edit_of user.now (option_copied old.entry) moment entry) result }
{
    let deleting = deletes(entry.items.as_slice());
    let ending = ends(&entry);
    let StoreEntry { path, items, .. } = entry;
    if ending && !deleting {
        return Ok((path, RecordEdit::Remove));
    }
    let record = if deleting {
        deleted_record(alloc, moment)
    } else {
        given_record(alloc, user, &path, old, items, moment)?
    };
    Ok((path, RecordEdit::Put(Boxed::new(alloc, record)?)))
}

// What the entries write, each by itself.
fn entries_at(
    alloc: Global,
    tree: &Tree,
    user: &UserName,
    steps: &Writes,
    entries: Entries,
    moment: Moment,
) -> Result<Vec<(Path, RecordEdit)>, Memory>
    ensures { IfOk result (λ all. all.items ≡ edits_in tree.now.store user.now steps.now moment entries) }
{
    let mut made = Vec::with_capacity(alloc, entries.len())?;
    for entry in entries.into_vec() {
        let old = record_there(tree, steps, &entry.path);
        made.push(edit_of(alloc, user, old, moment, entry)?)?;
    }
    Ok(made)
}

// Adds writes.
#[tactic(auto, using(crate::proofs::WriteLemmas::put_all_append))]
fn put_all(writes: &mut Writes, added: Vec<(Path, RecordEdit)>) -> Result<(), Memory>
    ensures { OnOk result (writes.new ≡ writing.put_all added.items writes.old) }
{
    let mut left = added;
    while let Some((path, edit)) = left.pop() {
        writes.set(path, edit)?;
    }
    Ok(())
}

// Writes over others: where there are no others and the paths ascend, they are all there is, in the memory that they have.
#[tactic(auto, using(crate::proofs::WriteLemmas::put_all_ascending))]
fn over(writes: Writes, added: Vec<(Path, RecordEdit)>) -> Result<Writes, Memory>
    ensures { IfOk result (λ made. made ≡ writing.put_all added.items writes) }
{
    let mut writes = writes;
    if writes.len() > 0 {
        put_all(&mut writes, added)?;
        return Ok(writes);
    }
    match Writes::from_ascending(added) {
        Ok(made) => Ok(made),
        Err(added) => {
            put_all(&mut writes, added)?;
            Ok(writes)
        }
    }
}

/// All that a STORE of entries writes at a moment.
#[tactic(auto, unfolding(crate::specs::Writing::written_for))]
pub(crate) fn write_for(
    alloc: Global,
    tree: &Tree,
    user: &UserName,
    entries: Entries,
    moment: Moment,
) -> Result<Writes, Memory>
    ensures { IsMade (writing.written_for tree.now.store.records user.now entries moment) result }
{
    let steps = steps_for(alloc, tree, entries.as_slice(), moment)?;
    let added = entries_at(alloc, tree, user, &steps, entries, moment)?;
    over(steps, added)
}
