//! What a store holds, as the commands that make it again (RFC 2244 sections 6.4.1 and 6.6.1).

ghost use Rattle.std.specs.Prelude.{◌≡◌, ◌++◌, IfOk, OnOk, codes, option_map, option_to_list};
ghost use Rattle.std.specs.Str.{bytes_eq};
ghost use Rattle.acap_client.specs.Arguments.{data_in};
ghost use Rattle.acap_shell.specs.Dumping as dumping;
ghost use Rattle.acap_shell.specs.Rows.{first_texts};

use crate::searches::{entry_attribute, returning, search};
use acap_client::Data;
use acap_commands::{
    Command, Given, Key, MakeContext, Metadata, MetadataList, ReturnName, SearchModifiers,
    StoreItem, StoreMetadata, Test,
};
use acap_entries::{
    Attribute, Cell, ContextName, Dataset, Label, Memory, Path, Sequence, Value, Values,
};
use std::alloc::Global;

/// The attribute whose value says what a dataset inherits from (RFC 2244 section 5.1).
const INHERIT: &[u8] = b"dataset.inherit";

/// All of an attribute that may be stored.
fn all_metadata(alloc: Global) -> Result<MetadataList, Memory>
    ensures { IfOk result (λ made. made ≡ dumping.all_metadata) }
{
    let mut metadata = MetadataList::new(alloc);
    metadata.push(Metadata::Attribute)?;
    metadata.push(Metadata::Value)?;
    metadata.push(Metadata::Acl)?;
    Ok(metadata)
}

/// All of each attribute, in all datasets, without what is inherited.
fn all_stored(alloc: Global) -> Result<SearchModifiers, Memory>
    ensures { IfOk result (λ made. made ≡ dumping.all_stored) }
{
    let metadata = all_metadata(alloc)?;
    let all = Label::from_slice(alloc, b"")?;
    let mut modifiers = returning(alloc, ReturnName::Beginning(all), metadata)?;
    modifiers.depth = Some(0);
    modifiers.no_inherit = true;
    Ok(modifiers)
}

/// The SEARCH for all that a store holds, without what is inherited. Fails only for want of memory.
pub fn dump(alloc: Global, root: Dataset) -> Result<Command, Memory>
    ensures { IfOk result (λ made. made ≡ dumping.dump root) }
{
    let modifiers = all_stored(alloc)?;
    search(alloc, root, modifiers, Key::one(Test::All))
}

/// The SEARCH for the same, by a context that follows the store. Its rows have no positions. Fails only for want of memory.
pub fn follow_all(alloc: Global, root: Dataset, context: ContextName) -> Result<Command, Memory>
    ensures { IfOk result (λ made. made ≡ dumping.follow_all root context) }
{
    let mut modifiers = all_stored(alloc)?;
    modifiers.make_context = Some(MakeContext {
        enumerate: false,
        notify: true,
        name: context,
    });
    search(alloc, root, modifiers, Key::one(Test::All))
}

/// Whether an attribute is stored: the server has made `modtime`, and `entry` is the name.
fn is_stored(attribute: &[u8]) -> bool
    ensures { result ≡ dumping.is_stored attribute.now }
{
    attribute != b"modtime".as_slice() && attribute != b"entry".as_slice()
}

/// Adds the strings that stand first.
fn add_texts(texts: &Data, made: &mut Vec<Value>, alloc: Global) -> Result<(), Memory>
    ensures { OnOk result (made.new.items ≡ made.old.items ++ first_texts (data_in texts.now)) }
{
    let mut left = *texts;
    'texts: while let Some((text, others)) = left.text() {
        made.push(Value::from_slice(alloc, text)?)?;
        left = others;
    }
    Ok(())
}

/// The strings of a list.
fn list_of(alloc: Global, list: &Data) -> Result<Cell, Memory>
    ensures { IfOk result (λ made. made ≡ dumping.list_of (data_in list.now)) }
{
    let mut values = Vec::new(alloc);
    add_texts(list, &mut values, alloc)?;
    Ok(Cell::Multi(Values::new(Sequence::from_vec(values))?))
}

/// What stands first in data: NIL, a string or a list of strings; and the data after it.
fn cell_at<'a>(alloc: Global, items: &Data<'a>) -> Result<Option<(Cell, Data<'a>)>, Memory>
    ensures { IfOk result (λ made. option_map (λ x. (x.0, data_in x.1)) made
        ≡ dumping.cell_at (data_in items.now)) }
{
    if let Some((list, others)) = items.group() {
        return Ok(Some((list_of(alloc, &list)?, others)));
    }
    if let Some((text, others)) = items.text() {
        return Ok(Some((Cell::Single(Value::from_slice(alloc, text)?), others)));
    }
    match items.word() {
        Some((_, others)) => Ok(Some((Cell::Nil, others))),
        None => Ok(None),
    }
}

/// What an attribute is given: nothing, where that is NIL.
fn item_of(
    alloc: Global,
    attribute: &[u8],
    metadata: StoreMetadata,
    cell: Cell,
) -> Result<Option<StoreItem>, Memory>
    ensures { IfOk result (λ made. made ≡ dumping.item_of attribute.now metadata cell) }
{
    match cell {
        Cell::Nil => Ok(None),
        cell => Ok(Some(StoreItem {
            attribute: Attribute::from_slice(alloc, attribute)?,
            metadata,
            given: Given::Put(cell),
        })),
    }
}

/// Adds what an attribute is given.
fn add_item(
    made: &mut Vec<StoreItem>,
    attribute: &[u8],
    metadata: StoreMetadata,
    cell: Cell,
) -> Result<(), Memory>
    ensures { OnOk result (made.new.items
        ≡ made.old.items ++ option_to_list (dumping.item_of attribute.now metadata cell)) }
{
    if let Some(item) = item_of(*made.allocator(), attribute, metadata, cell)? {
        made.push(item)?;
    }
    Ok(())
}

/// Adds what is stored of an attribute: its value, unless the server makes that, and its access list.
fn add_cells(
    made: &mut Vec<StoreItem>,
    attribute: &[u8],
    value: Cell,
    acl: Cell,
) -> Result<(), Memory>
    ensures { OnOk result (made.new.items
        ≡ made.old.items ++ dumping.cells_of attribute.now value acl) }
{
    if is_stored(attribute) {
        add_item(made, attribute, StoreMetadata::Value, value)?;
    }
    add_item(made, attribute, StoreMetadata::Acl, acl)
}

/// Adds what is stored of an attribute whose value and access list these are.
fn add_pair(made: &mut Vec<StoreItem>, attribute: &[u8], pair: &Data) -> Result<(), Memory>
    ensures { OnOk result (made.new.items
        ≡ made.old.items ++ dumping.pair_items attribute.now (data_in pair.now)) }
{
    let alloc = *made.allocator();
    let Some((value, others)) = cell_at(alloc, pair)? else {
        return Ok(());
    };
    let Some((acl, _)) = cell_at(alloc, &others)? else {
        return Ok(());
    };
    add_cells(made, attribute, value, acl)
}

/// Adds what is stored of an attribute whose name, value and access list these are.
fn add_triple(made: &mut Vec<StoreItem>, triple: &Data) -> Result<(), Memory>
    ensures { OnOk result (made.new.items
        ≡ made.old.items ++ dumping.items_of (data_in triple.now)) }
{
    match triple.text() {
        Some((attribute, pair)) => add_pair(made, attribute, &pair),
        None => Ok(()),
    }
}

/// Adds what is stored of each attribute.
fn add_triples(made: &mut Vec<StoreItem>, triples: &Data) -> Result<(), Memory>
    ensures { OnOk result (made.new.items
        ≡ made.old.items ++ dumping.all_items (data_in triples.now)) }
{
    let mut left = *triples;
    'triples: while let Some((triple, others)) = left.group() {
        add_triple(made, &triple)?;
        left = others;
    }
    Ok(())
}

/// What is stored of all attributes.
fn items_of(alloc: Global, triples: &Data) -> Result<Vec<StoreItem>, Memory>
    ensures { IfOk result (λ made. made.items ≡ dumping.all_items (data_in triples.now)) }
{
    let mut made = Vec::new(alloc);
    add_triples(&mut made, triples)?;
    Ok(made)
}

// What is stored of an entry: of each attribute its value, but of `modtime` and `entry`, and its access list, in their order.
fn stored_items(alloc: Global, items: &Data) -> Result<Vec<StoreItem>, Memory>
    ensures { IfOk result (λ made. made.items ≡ dumping.stored_items (data_in items.now)) }
{
    match items.group() {
        Some((triples, _)) => items_of(alloc, &triples),
        None => Ok(Vec::new(alloc)),
    }
}

// What makes an entry without attributes: its own name.
fn own_item(alloc: Global, path: &Path) -> Result<StoreItem, Memory>
    ensures { IfOk result (λ made. made ≡ dumping.own_item path.now) }
{
    Ok(StoreItem {
        attribute: entry_attribute(alloc)?,
        metadata: StoreMetadata::Value,
        given: Given::Put(Cell::Single(Value::from_slice(alloc, path.name.as_slice())?)),
    })
}

/// What makes an entry again, of which an ENTRY that answers `dump` has these data: what is stored of it, or its own name where that is
/// nothing. What is stored is of each attribute its value, but of `modtime` and `entry`, and its access list, in their order. Fails only
/// for want of memory.
pub fn stores_of(alloc: Global, path: &Path, items: &Data) -> Result<Vec<StoreItem>, Memory>
    ensures { IfOk result (λ made. made.items ≡ dumping.stores_of path.now (data_in items.now)) }
{
    let mut made = stored_items(alloc, items)?;
    if made.is_empty() {
        made.push(own_item(alloc, path)?)?;
    }
    Ok(made)
}

/// Whether an item says what a dataset inherits from (RFC 2244 section 5.1).
pub fn is_inheritance(item: &StoreItem) -> bool
    ensures { result ≡ bytes_eq item.now.attribute (codes "dataset.inherit") }
{
    item.attribute.as_slice() == INHERIT
}
