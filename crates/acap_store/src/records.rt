//! The record of an entry once items are given to it.
ghost use Rattle.std.specs.Prelude.{◌≡◌, IfOk, OnOk};
ghost use Rattle.std.specs.Option.{option_copied};
ghost use Rattle.acap_entries.specs.Homes.{for_user};
ghost use Rattle.acap_store.specs.Writing as writing;

use crate::item_tests::{is_management, is_value};
use acap_commands::{Given, StoreItem};
use acap_entries::{
    Acls, Attribute, Cell, Cells, Copying, Dataset, Memory, Moment, NameFault, Path, Record,
    UserName, Value,
};
use std::alloc::Global;

/// The cells of what a path had.
pub(crate) fn cells_of(alloc: Global, old: Option<&Record>) -> Result<Cells, Memory>
    ensures { IfOk result (λ made. made ≡ writing.cells_of (option_copied old.entry)) }
{
    match old {
        Some(entry) => entry.cells.copy(),
        None => Ok(Cells::new(alloc)),
    }
}

/// The access control lists of what a path had.
pub(crate) fn acls_of(alloc: Global, old: Option<&Record>) -> Result<Acls, Memory>
    ensures { IfOk result (λ made. made ≡ writing.acls_of (option_copied old.entry)) }
{
    match old {
        Some(entry) => entry.acls.copy(),
        None => Ok(Acls::new(alloc)),
    }
}

/// What a path has once it is written with those cells and lists. Takes no memory.
pub(crate) fn renew(old: Option<&Record>, cells: Cells, acls: Acls, moment: Moment) -> Record
    ensures { result ≡ writing.record_after (option_copied old.entry) cells acls moment }
{
    let blocks_inheritance = match old {
        Some(entry) => entry.blocks_inheritance,
        None => false,
    };
    Record {
        present: true,
        blocks_inheritance,
        cells,
        acls,
        modtime: moment,
    }
}

/// What a path has once its entry is deleted. Takes no memory.
pub(crate) fn deleted_record(alloc: Global, moment: Moment) -> Record
    ensures { result ≡ writing.deleted_record moment }
{
    Record {
        present: false,
        blocks_inheritance: true,
        cells: Cells::new(alloc),
        acls: Acls::new(alloc),
        modtime: moment,
    }
}

// The name of a dataset that is inherited from, as it is kept.
fn base_for(alloc: Global, user: &UserName, text: Value) -> Result<Value, Memory>
    ensures { IfOk result (λ made. made ≡ writing.base_for user.now text) }
{
    match Dataset::read(alloc, text.as_slice()) {
        Ok(dataset) => Value::from_slice(alloc, dataset.for_user(user)?.as_slice()),
        Err(NameFault::BadName) => Ok(text),
        Err(NameFault::Memory) => Err(Memory),
    }
}

// A value as it is kept.
fn keep_as(
    alloc: Global,
    user: &UserName,
    path: &Path,
    attribute: &Attribute,
    value: Cell,
) -> Result<Cell, Memory>
    ensures { IfOk result (λ made. made ≡ writing.kept_as user.now path.now attribute.now value) }
{
    if !(is_management(path) && attribute.as_slice() == b"dataset.inherit".as_slice()) {
        return Ok(value);
    }
    match value {
        Cell::Single(text) => Ok(Cell::Single(base_for(alloc, user, text)?)),
        Cell::Nil => Ok(Cell::Nil),
        Cell::Multi(texts) => Ok(Cell::Multi(texts)),
    }
}

/// An attribute gets its value, or loses it; an entry's `entry` is its name, and isn't kept.
pub(crate) fn give_value(
    alloc: Global,
    user: &UserName,
    path: &Path,
    cells: &mut Cells,
    attribute: Attribute,
    given: Given,
) -> Result<(), Memory>
    ensures { OnOk result (cells.new ≡ writing.with_named user.now path.now cells.old attribute given) }
{
    if attribute.as_slice() == b"entry".as_slice() {
        return Ok(());
    }
    match given {
        Given::Put(value) => {
            let value = keep_as(alloc, user, path, &attribute, value)?;
            cells.set(attribute, value)
        }
        Given::Default => {
            cells.remove(&attribute);
            Ok(())
        }
    }
}

/// An attribute gets its list, or loses it.
pub(crate) fn give_list(acls: &mut Acls, attribute: Attribute, given: Given) -> Result<(), Memory>
    ensures { OnOk result (acls.new ≡ writing.with_list_given acls.old attribute given) }
{
    match given {
        Given::Put(Cell::Multi(acl)) => acls.set(attribute, acl),
        Given::Put(Cell::Single(_)) => Ok(()),
        Given::Put(Cell::Nil) => {
            acls.remove(&attribute);
            Ok(())
        }
        Given::Default => {
            acls.remove(&attribute);
            Ok(())
        }
    }
}

/// An item of an entry is stored.
pub(crate) fn give_item(
    alloc: Global,
    user: &UserName,
    path: &Path,
    cells: &mut Cells,
    acls: &mut Acls,
    item: StoreItem,
) -> Result<(), Memory>
    ensures cells { OnOk result (cells.new ≡ writing.with_value user.now path.now cells.old item) }
    ensures acls { OnOk result (acls.new ≡ writing.with_list acls.old item) }
{
    let StoreItem {
        attribute,
        metadata,
        given,
    } = item;
    if is_value(metadata) {
        give_value(alloc, user, path, cells, attribute, given)
    } else {
        give_list(acls, attribute, given)
    }
}
