//! The commands of `set` and `unset` (RFC 2244 section 6.6.1).

ghost use Rattle.std.specs.Prelude.{◌≡◌, IfOk};
ghost use Rattle.acap_shell.specs.Stores as store;

use crate::searches::entry_attribute;
use acap_commands::{
    Command, Entries, Given, StoreEntry, StoreItem, StoreItems, StoreMetadata, StoreModifiers,
};
use acap_entries::{Attribute, Cell, Dataset, EntryName, Memory, Path, Sequence, Value, Values};
use std::alloc::Global;

/// A STORE of one item.
pub(crate) fn store_one(alloc: Global, path: Path, item: StoreItem) -> Result<Command, Memory>
    ensures { IfOk result (λ made. made ≡ store.store_item path item) }
{
    let mut items = StoreItems::new(alloc);
    items.push(item)?;
    let mut entries = Entries::new(alloc);
    entries.push(StoreEntry {
        path,
        modifiers: StoreModifiers::none(),
        items,
    })?;
    Ok(Command::Store(entries))
}

/// A STORE of one value.
fn store(alloc: Global, path: Path, attribute: Attribute, given: Given) -> Result<Command, Memory>
    ensures { IfOk result (λ made. made ≡ store.store path attribute given) }
{
    let item = StoreItem {
        attribute,
        metadata: StoreMetadata::Value,
        given,
    };
    store_one(alloc, path, item)
}

/// A value alone, or several as a list.
fn given_of(mut values: Vec<Value>) -> Result<Given, Memory>
    ensures { IfOk result (λ made. made ≡ store.given_of values.items) }
{
    if values.len() == 1 {
        if let Some(value) = values.pop() {
            return Ok(Given::Put(Cell::Single(value)));
        }
    }
    let values = Values::new(Sequence::from_vec(values))?;
    Ok(Given::Put(Cell::Multi(values)))
}

/// The STORE that gives an attribute a value, or a list where there are several or none. Fails only for want of memory.
pub fn set(
    alloc: Global,
    path: Path,
    attribute: Attribute,
    values: Vec<Value>,
) -> Result<Command, Memory>
    ensures { IfOk result (λ made. made ≡ store.set path attribute values.items) }
{
    let given = given_of(values)?;
    store(alloc, path, attribute, given)
}

/// The STORE that takes the value off an attribute, or ends the entry where none is named. Fails only for want of memory.
pub fn unset(alloc: Global, path: Path, attribute: Option<Attribute>) -> Result<Command, Memory>
    ensures { IfOk result (λ made. made ≡ store.unset path attribute) }
{
    let attribute = match attribute {
        Some(attribute) => attribute,
        None => entry_attribute(alloc)?,
    };
    store(alloc, path, attribute, Given::Put(Cell::Nil))
}
