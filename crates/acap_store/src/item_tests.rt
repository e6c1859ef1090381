//! Tests of an item of a STORE, and of the entry that it is for.
ghost use Rattle.std.specs.Prelude.{◌≡◌, is_none};
ghost use Rattle.acap_store.specs.Forms as rule;

use acap_commands::{Given, StoreItem, StoreMetadata};
use acap_entries::{Cell, Path, Records};
use acap_inherit::{chain, entry_exists, resolve};

/// Whether a path is a management entry's.
pub(crate) fn is_management(path: &Path) -> bool
    ensures { result ≡ rule.is_management path.now }
{
    path.name.as_slice().is_empty()
}

/// Whether the value is given, and not the list.
pub(crate) fn is_value(metadata: StoreMetadata) -> bool
    ensures { result ≡ rule.is_value metadata }
{
    metadata == StoreMetadata::Value
}

/// Whether NIL or DEFAULT is given.
pub(crate) fn is_nothing(given: &Given) -> bool
    ensures { result ≡ rule.is_nothing given.now }
{
    match given {
        Given::Put(Cell::Nil) => true,
        Given::Put(Cell::Single(_)) => false,
        Given::Put(Cell::Multi(_)) => false,
        Given::Default => true,
    }
}

/// Whether the item is the value of an attribute.
pub(crate) fn is_of(attribute: &[u8], item: &StoreItem) -> bool
    ensures { result ≡ rule.is_of attribute.now item.now }
{
    is_value(item.metadata) && item.attribute.as_slice() == attribute
}

/// Whether the item is `entry` NIL or DEFAULT.
pub(crate) fn is_ending(item: &StoreItem) -> bool
    ensures { result ≡ rule.is_ending item.now }
{
    is_of(b"entry", item) && is_nothing(&item.given)
}

/// Whether an attribute of the entry at a path resolves to NIL.
pub(crate) fn is_nil_at<R: Records>(records: &R, path: &Path, attribute: &[u8]) -> bool
    ensures { result ≡ is_none (rule.resolved_at (R.store records.now).records path.now attribute.now) }
{
    resolve(records, &path.dataset, path.name.as_slice(), attribute).is_nil()
}

/// Whether the entry at a path exists.
pub(crate) fn exists_at<R: Records>(records: &R, path: &Path) -> bool
    ensures { result ≡ rule.exists_at (R.store records.now).records path.now }
{
    let chain = chain(records, &path.dataset);
    entry_exists(records, &chain, path.name.as_slice())
}
