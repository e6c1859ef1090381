//! The commands of `get`, `list` and `find` (RFC 2244 section 6.4.1).

ghost use Rattle.std.specs.Prelude.{◌≡◌, [], IfOk};
ghost use Rattle.acap_commands.specs.Wanted.{Not};
ghost use Rattle.acap_shell.specs.Searches as search;

use crate::both::both;
use acap_commands::{
    Command, Key, Metadata, MetadataList, Relation, ReturnItem, ReturnName, Returns, Search,
    SearchModifiers, Target, Test,
};
use acap_entries::{Attribute, Boxed, Dataset, EntryName, Label, Memory, Value};
use acap_order::{Collation, Comparator, Direction};
use std::alloc::Global;

/// `i;octet` (RFC 2244 section 3.4).
pub(crate) const OCTET: Comparator = Comparator {
    collation: Collation::Octet,
    direction: Direction::Ascending,
};

/// The attribute whose value is the name of its entry (RFC 2244 section 3.1.1).
pub(crate) fn entry_attribute(alloc: Global) -> Result<Attribute, Memory>
    ensures { IfOk result (λ made. made ≡ search.entry) }
{
    Ok(Attribute::from_slice(alloc, b"entry")?)
}

/// That an attribute has this value.
fn equals(alloc: Global, attribute: Attribute, value: &[u8]) -> Result<Key, Memory>
    ensures { IfOk result (λ made. made ≡ search.equals attribute value.now) }
{
    let value = Label::from_slice(alloc, value)?;
    Ok(Key::one(Test::Meets(Relation::Equal, attribute, OCTET, value)))
}

/// That an entry has this name.
pub(crate) fn is_named(alloc: Global, name: &[u8]) -> Result<Key, Memory>
    ensures { IfOk result (λ made. made ≡ search.is_named name.now) }
{
    let attribute = entry_attribute(alloc)?;
    equals(alloc, attribute, name)
}

/// That an entry isn't the management entry.
pub(crate) fn but_management(alloc: Global) -> Result<Key, Memory>
    ensures { IfOk result (λ made. made ≡ Not (search.is_named [])) }
{
    let management = is_named(alloc, b"")?;
    Ok(Key::not(alloc, management)?)
}

/// An item of RETURN, alone.
pub(crate) fn returning(
    alloc: Global,
    name: ReturnName,
    metadata: MetadataList,
) -> Result<SearchModifiers, Memory>
    ensures { IfOk result (λ made. made ≡ search.returning name metadata) }
{
    let mut returns = Returns::new(alloc);
    returns.push(ReturnItem { name, metadata })?;
    let mut modifiers = SearchModifiers::none();
    modifiers.returns = Some(returns);
    Ok(modifiers)
}

/// The value of an attribute.
pub(crate) fn value_of(alloc: Global, attribute: Attribute) -> Result<SearchModifiers, Memory>
    ensures { IfOk result (λ made. made ≡ search.value_of attribute) }
{
    let mut metadata = MetadataList::new(alloc);
    metadata.push(Metadata::Value)?;
    returning(alloc, ReturnName::Named(attribute), metadata)
}

/// The names of entries.
pub(crate) fn names(alloc: Global) -> Result<SearchModifiers, Memory>
    ensures { IfOk result (λ made. made ≡ search.value_of search.entry) }
{
    let attribute = entry_attribute(alloc)?;
    value_of(alloc, attribute)
}

/// The name and the value of each attribute.
fn all_values(alloc: Global) -> Result<SearchModifiers, Memory>
    ensures { IfOk result (λ made. made ≡ search.all_values) }
{
    let mut metadata = MetadataList::new(alloc);
    metadata.push(Metadata::Attribute)?;
    metadata.push(Metadata::Value)?;
    let all = Label::from_slice(alloc, b"")?;
    returning(alloc, ReturnName::Beginning(all), metadata)
}

/// A SEARCH over a dataset.
pub(crate) fn search(
    alloc: Global,
    dataset: Dataset,
    modifiers: SearchModifiers,
    key: Key,
) -> Result<Command, Memory>
    ensures { IfOk result (λ made. made ≡ search.search dataset modifiers key) }
{
    let target = Target::Dataset(dataset);
    let search = Search {
        target,
        modifiers,
        key,
    };
    Ok(Command::Search(Boxed::new(alloc, search)?))
}

/// What is printed of each entry: an attribute's value, or the name and value of each.
fn wanted_values(alloc: Global, attribute: Option<Attribute>) -> Result<SearchModifiers, Memory>
    ensures { IfOk result (λ made. made ≡ search.wanted_values attribute) }
{
    match attribute {
        Some(attribute) => value_of(alloc, attribute),
        None => all_values(alloc),
    }
}

/// Which entries are wanted: one, or all.
fn wanted_entries(alloc: Global, entry: Option<EntryName>) -> Result<Key, Memory>
    ensures { IfOk result (λ made. made ≡ search.wanted_entries entry) }
{
    match entry {
        Some(entry) => is_named(alloc, entry.as_slice()),
        None => Ok(Key::one(Test::All)),
    }
}

/// The SEARCH for the values of a dataset, of an entry of it, or of an attribute of that. Fails only for want of memory.
pub fn get(
    alloc: Global,
    dataset: Dataset,
    entry: Option<EntryName>,
    attribute: Option<Attribute>,
) -> Result<Command, Memory>
    ensures { IfOk result (λ made. made ≡ search.get dataset entry attribute) }
{
    let modifiers = wanted_values(alloc, attribute);
    let (modifiers, key) = both(modifiers, wanted_entries(alloc, entry))?;
    search(alloc, dataset, modifiers, key)
}

/// The SEARCH for the names of the entries of a dataset but its management entry, through `depth` levels of datasets, 0
/// standing for all; through one where none is given. Fails only for want of memory.
pub fn list(alloc: Global, dataset: Dataset, depth: Option<u32>) -> Result<Command, Memory>
    ensures { IfOk result (λ made. made ≡ search.list dataset depth) }
{
    let (mut modifiers, key) = both(names(alloc), but_management(alloc))?;
    modifiers.depth = depth;
    search(alloc, dataset, modifiers, key)
}

/// The SEARCH for the names of the entries of a dataset in which an attribute has this value, octet by octet. Fails only
/// for want of memory.
pub fn find(
    alloc: Global,
    dataset: Dataset,
    attribute: Attribute,
    value: &[u8],
) -> Result<Command, Memory>
    ensures { IfOk result (λ made. made ≡ search.find dataset attribute value.now) }
{
    let key = equals(alloc, attribute, value);
    let (modifiers, key) = both(names(alloc), key)?;
    search(alloc, dataset, modifiers, key)
}
