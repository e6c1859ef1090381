//! RETURN: what is printed of an entry, its metadata and names with `*` counted (RFC 2244 sections 3.1.2 and 6.4.1).
ghost use Rattle.std.specs.Prelude.{◌≡◌, ◌∷◌, [], IfOk, OnOk, map as each};
ghost use Rattle.std.specs.FinMap as map;
ghost use Rattle.acap_entries.specs.declared.row.Item.TheVariants.{One};
ghost use Rattle.acap_search.specs.Rows as rule;
ghost use Rattle.acap_search.specs.SeenValues as shown;
ghost use Rattle.acap_search.specs.Views.{acl_at, answers_of, data_at, item_at, items_at, stars_along, stars_among, stars_at, stars_by};

use crate::entry_view::EntryView;
use crate::values::{is_nil, look, read};
use acap_commands::{Metadata, ReturnItem, ReturnName};
use acap_entries::{
    Attribute, Cell, CellList, CellLists, Cells, Copying, Item, Items, Memory, Octets, Records,
    Sequence, Table, Value, Values,
};
use acap_inherit::Lent;
use std::alloc::Global;

// A number in decimal digits.
fn digits_of(alloc: Global, count: usize) -> Result<Value, Memory>
    ensures { IfOk result (λ made. made ≡ rule.digits count) }
{
    let digits = count.to_string(alloc)?;
    Value::new(Octets::from_vec(digits.into_bytes()))
}

// How many octets each of some strings has.
fn list_sizes(alloc: Global, texts: &[Value]) -> Result<Values, Memory>
    ensures { IfOk result (λ made. made ≡ each rule.size_of texts.now) }
{
    let mut made = Vec::with_capacity(alloc, texts.len())?;
    for text in texts {
        made.push(digits_of(alloc, text.as_slice().len())?)?;
    }
    Values::new(Sequence::from_vec(made))
}

// How many octets a value has.
fn sizes_of(alloc: Global, value: Option<Lent<'_>>) -> Result<Cell, Memory>
    ensures { IfOk result (λ cell. cell ≡ rule.sizes_of (shown.cell_of value.entry)) }
{
    match value {
        Some(Lent::Name(text)) => Ok(Cell::Single(digits_of(alloc, text.len())?)),
        Some(Lent::Single(text)) => Ok(Cell::Single(digits_of(alloc, text.as_slice().len())?)),
        Some(Lent::Stamp(digits)) => Ok(Cell::Single(digits_of(alloc, digits.len())?)),
        Some(Lent::Multi(texts)) => Ok(Cell::Multi(list_sizes(alloc, texts.as_slice())?)),
        None => Ok(Cell::Nil),
    }
}

// A value in memory of its own.
fn value_of(alloc: Global, value: Option<Lent<'_>>) -> Result<Cell, Memory>
    ensures { IfOk result (λ cell. cell ≡ shown.cell_of value.entry) }
{
    match value {
        Some(Lent::Name(text)) => Ok(Cell::Single(Value::from_slice(alloc, text)?)),
        Some(Lent::Single(value)) => Ok(Cell::Single(value.copy()?)),
        Some(Lent::Stamp(digits)) => Ok(Cell::Single(Value::from_slice(alloc, &digits)?)),
        Some(Lent::Multi(texts)) => Ok(Cell::Multi(texts.copy()?)),
        None => Ok(Cell::Nil),
    }
}

// The list of an attribute in the record of the searched dataset, if there is one.
fn acl_of<R: Records>(spot: &EntryView<'_, R>, attribute: &[u8]) -> Result<Cell, Memory>
    ensures { IfOk result (λ cell. cell ≡ rule.list_cell (acl_at spot.now attribute.now)) }
{
    let by = spot.by;
    match by.records.find(by.dataset.as_slice(), spot.name.as_slice()) {
        Some(record) => match record.acls.find(attribute) {
            Some(list) => Ok(Cell::Multi(list.copy()?)),
            None => Ok(Cell::Nil),
        },
        None => Ok(Cell::Nil),
    }
}

// The same where it is seen.
fn seen_acl<R: Records>(spot: &EntryView<'_, R>, attribute: &[u8]) -> Result<Cell, Memory>
    ensures { IfOk result (λ cell. cell ≡ rule.list_cell ((answers_of spot.now).acl attribute.now)) }
{
    if look(spot, attribute).is_readable {
        acl_of(spot, attribute)
    } else {
        Ok(Cell::Nil)
    }
}

// What is printed of an attribute.
fn datum<R: Records>(
    alloc: Global,
    spot: &EntryView<'_, R>,
    attribute: &[u8],
    wanted: Metadata,
) -> Result<Cell, Memory>
    ensures { IfOk result (λ cell. cell ≡ rule.datum (answers_of spot.now) attribute.now wanted) }
{
    match wanted {
        Metadata::Acl => seen_acl(spot, attribute),
        Metadata::Attribute => Ok(Cell::Single(Value::from_slice(alloc, attribute)?)),
        Metadata::MyRights => Ok(Cell::Single(look(spot, attribute).rights.letters())),
        Metadata::Size => sizes_of(alloc, read(spot, attribute)),
        Metadata::Value => value_of(alloc, read(spot, attribute)),
    }
}

// What is printed of an attribute for each metadata.
#[tactic(auto, unfolding(crate::specs::Rows::data_of))]
fn data_of<R: Records>(
    alloc: Global,
    spot: &EntryView<'_, R>,
    attribute: &[u8],
    wanted: &[Metadata],
) -> Result<CellList, Memory>
    ensures { IfOk result (λ cells. cells ≡ data_at spot.now wanted.now attribute.now) }
{
    let mut cells = Vec::with_capacity(alloc, wanted.len())?;
    for metadata in wanted {
        cells.push(datum(alloc, spot, attribute, *metadata)?)?;
    }
    Ok(CellList::from_vec(cells))
}

// Adds an attribute that begins with some octets and has a value that is seen.
fn add_star<R: Records>(
    alloc: Global,
    spot: &EntryView<'_, R>,
    front: &[u8],
    attribute: &[u8],
    stars: &mut Table<bool>,
) -> Result<(), Memory>
    ensures { OnOk result (stars.new ≡ stars_among spot.now front.now (attribute.now ∷ []) stars.old) }
{
    if attribute.starts_with(front) && !is_nil(read(spot, attribute)) {
        stars.set(Attribute::from_slice(alloc, attribute)?, true)?;
    }
    Ok(())
}

// Adds those of the attributes for which cells are kept.
fn add_stars<R: Records>(
    alloc: Global,
    spot: &EntryView<'_, R>,
    front: &[u8],
    cells: &Cells,
    stars: &mut Table<bool>,
) -> Result<(), Memory>
    ensures { OnOk result (stars.new ≡ stars_among spot.now front.now (map.keys cells.now) stars.old) }
{
    for (attribute, _) in cells.entries() {
        add_star(alloc, spot, front, attribute.as_slice(), stars)?;
    }
    Ok(())
}

// Adds those of the attributes in the record of one dataset.
fn add_record_stars<R: Records>(
    alloc: Global,
    spot: &EntryView<'_, R>,
    front: &[u8],
    dataset: &[u8],
    stars: &mut Table<bool>,
) -> Result<(), Memory>
    ensures { OnOk result (stars.new ≡ stars_by spot.now front.now dataset.now stars.old) }
{
    let by = spot.by;
    match by.records.find(dataset, spot.name.as_slice()) {
        Some(record) => add_stars(alloc, spot, front, &record.cells, stars),
        None => Ok(()),
    }
}

// Adds those of the attributes in the records along the chain.
fn add_chain_stars<R: Records>(
    alloc: Global,
    spot: &EntryView<'_, R>,
    front: &[u8],
    stars: &mut Table<bool>,
) -> Result<(), Memory>
    ensures { OnOk result (stars.new ≡ stars_along spot.now front.now spot.now.by.chain stars.old) }
{
    let by = spot.by;
    for dataset in by.chain.names() {
        add_record_stars(alloc, spot, front, dataset, stars)?;
    }
    Ok(())
}

// The attributes that begin with some octets and have a value that is seen.
#[tactic(auto, unfolding(crate::specs::Rows::stars_of))]
fn stars_of<R: Records>(
    alloc: Global,
    spot: &EntryView<'_, R>,
    front: &[u8],
) -> Result<Table<bool>, Memory>
    ensures { IfOk result (λ stars. stars ≡ stars_at spot.now front.now) }
{
    let mut stars = Table::new(alloc);
    add_star(alloc, spot, front, b"entry", &mut stars)?;
    add_star(alloc, spot, front, b"modtime", &mut stars)?;
    add_chain_stars(alloc, spot, front, &mut stars)?;
    Ok(stars)
}

// What is printed of each of some attributes.
fn lists_of<R: Records>(
    alloc: Global,
    spot: &EntryView<'_, R>,
    stars: &Table<bool>,
    wanted: &[Metadata],
) -> Result<CellLists, Memory>
    ensures { IfOk result (λ lists. lists ≡ each (data_at spot.now wanted.now) (map.keys stars.now)) }
{
    let mut lists = CellLists::new(alloc);
    for (attribute, _) in stars.entries() {
        lists.push(data_of(alloc, spot, attribute.as_slice(), wanted)?)?;
    }
    Ok(lists)
}

// What is printed of one attribute: one datum bare, several in one parenthesis.
#[tactic(auto, unfolding(crate::specs::Rows::data_of))]
fn named_item<R: Records>(
    alloc: Global,
    spot: &EntryView<'_, R>,
    attribute: &[u8],
    wanted: &[Metadata],
) -> Result<Item, Memory>
    ensures { IfOk result (λ item. item ≡ rule.item_of_cells (data_at spot.now wanted.now attribute.now)) }
{
    match wanted {
        [] => Ok(Item::Several(CellList::new(alloc))),
        [metadata] => Ok(Item::One(datum(alloc, spot, attribute, *metadata)?)),
        [_, _, ..] => Ok(Item::Several(data_of(alloc, spot, attribute, wanted)?)),
    }
}

// What one item of RETURN prints.
fn item_of<R: Records>(
    alloc: Global,
    spot: &EntryView<'_, R>,
    asked: &ReturnItem,
) -> Result<Item, Memory>
    ensures { IfOk result (λ item. item ≡ item_at spot.now asked.now) }
{
    let wanted = asked.metadata.as_slice();
    match &asked.name {
        ReturnName::Named(attribute) => { named_item(alloc, spot, attribute.as_slice(), wanted) }
        ReturnName::Beginning(front) => {
            let stars = stars_of(alloc, spot, front.as_slice())?;
            Ok(Item::PerAttribute(lists_of(alloc, spot, &stars, wanted)?))
        }
    }
}

// What is printed of one value alone. Mostly it is one string, which is shared at once.
fn one_value(alloc: Global, value: Option<Lent<'_>>) -> Result<Items, Memory>
    ensures { IfOk result (λ items. items ≡ One (shown.cell_of value.entry) ∷ []) }
{
    match value {
        Some(Lent::Single(text)) => Items::one(alloc, Item::One(Cell::Single(text.copy()?))),
        value => Items::one(alloc, Item::One(value_of(alloc, value)?)),
    }
}

// What the only item of RETURN prints.
#[tactic(auto, unfolding(crate::specs::Rows::data_of))]
fn one_item<R: Records>(
    alloc: Global,
    spot: &EntryView<'_, R>,
    asked: &ReturnItem,
) -> Result<Items, Memory>
    ensures { IfOk result (λ items. items ≡ item_at spot.now asked.now ∷ []) }
{
    if let ReturnName::Named(attribute) = &asked.name
        && let [Metadata::Value] = asked.metadata.as_slice()
    {
        return one_value(alloc, read(spot, attribute.as_slice()));
    }
    let item = item_of(alloc, spot, asked)?;
    Items::one(alloc, item)
}

// What each item of RETURN prints.
fn all_items<R: Records>(
    alloc: Global,
    spot: &EntryView<'_, R>,
    returns: &[ReturnItem],
) -> Result<Vec<Item>, Memory>
    ensures { IfOk result (λ items. items.items ≡ items_at spot.now returns.now) }
{
    let mut items = Vec::with_capacity(alloc, returns.len())?;
    for asked in returns {
        items.push(item_of(alloc, spot, asked)?)?;
    }
    Ok(items)
}

/// What a RETURN prints of an entry that is looked at.
pub(crate) fn items_of<R: Records>(
    alloc: Global,
    spot: &EntryView<'_, R>,
    returns: &[ReturnItem],
) -> Result<Items, Memory>
    ensures { IfOk result (λ items. items ≡ items_at spot.now returns.now) }
{
    match returns {
        [asked] => one_item(alloc, spot, asked),
        _ => {
            let items = all_items(alloc, spot, returns)?;
            Ok(Items::from_list(Sequence::from_vec(items)))
        }
    }
}
