//! Writes a STORE (RFC 2244 section 6.6.1).

ghost use Rattle.std.specs.Prelude.{◌≡◌, IfOk, OnOk, bytes_eq};
ghost use Rattle.acap_grammar.specs.Spelling as spelling;
ghost use Rattle.acap_client.specs.Parts.{LeavesItems, one_item, path_string, two_items};
ghost use Rattle.acap_client.specs.Writing.{Writes};

use crate::listing::values;
use crate::seeking::flag;
use crate::writing::{Writing, close, open, string, time, word};
use acap_commands::{Given, StoreEntry, StoreItem, StoreMetadata, StoreModifiers};
use acap_entries::{Cell, Memory, Moment, Path};

/// What is given to an attribute.
fn given(writing: &mut Writing, given: &Given) -> Result<(), Memory>
    ensures { OnOk result (Writes (spelling.given_tokens given.now) writing.old writing.new) }
{
    match given {
        Given::Put(Cell::Nil) => word(writing, b"NIL"),
        Given::Put(Cell::Single(text)) => string(writing, text.as_slice()),
        Given::Put(Cell::Multi(texts)) => {
            open(writing)?;
            values(writing, texts.as_slice())?;
            close(writing)
        }
        Given::Default => word(writing, b"DEFAULT"),
    }
}

/// The name of what is stored.
fn stored_name(metadata: StoreMetadata) -> &'static [u8]
    ensures { result.now ≡ spelling.stored_name metadata }
{
    match metadata {
        StoreMetadata::Value => b"value",
        StoreMetadata::Acl => b"acl",
    }
}

/// What is stored, and what is given.
fn gift(writing: &mut Writing, item: &StoreItem) -> Result<(), Memory>
    ensures { OnOk result (Writes (spelling.gift item.now) writing.old writing.new) }
{
    string(writing, stored_name(item.metadata))?;
    given(writing, &item.given)
}

/// Whether it stands without its metadata.
fn is_bare(item: &StoreItem) -> bool
    ensures { result ≡ spelling.is_bare item.now.metadata item.now.given }
{
    match (item.metadata, &item.given) {
        (StoreMetadata::Acl, _) => false,
        (StoreMetadata::Value, Given::Put(Cell::Multi(_))) => false,
        _ => true,
    }
}

/// One item of an attribute.
fn one_gift(writing: &mut Writing, item: &StoreItem) -> Result<(), Memory>
    ensures { OnOk result (Writes (spelling.one_gift item.now) writing.old writing.new) }
{
    if is_bare(item) {
        return given(writing, &item.given);
    }
    open(writing)?;
    gift(writing, item)?;
    close(writing)
}

/// An attribute and its item.
fn one_item(writing: &mut Writing, item: &StoreItem) -> Result<(), Memory>
    ensures { OnOk result (Writes (one_item item.now) writing.old writing.new) }
{
    string(writing, item.attribute.as_slice())?;
    one_gift(writing, item)
}

/// An attribute and both its items.
fn two_items(writing: &mut Writing, item: &StoreItem, other: &StoreItem) -> Result<(), Memory>
    ensures { OnOk result (Writes (two_items item.now other.now) writing.old writing.new) }
{
    string(writing, item.attribute.as_slice())?;
    open(writing)?;
    gift(writing, item)?;
    gift(writing, other)?;
    close(writing)
}

fn are_same(text: &[u8], other: &[u8]) -> bool
    ensures { result ≡ bytes_eq text.now other.now }
{
    text == other
}

/// The attribute that comes first and its items. Gives the items that are left.
fn first_items<'a>(
    writing: &mut Writing,
    item: &'a StoreItem,
    others: &'a [StoreItem],
) -> Result<&'a [StoreItem], Memory>
    ensures { IfOk result
        (λ left. LeavesItems item.entry.now others.entry.now writing.old left.now writing.new) }
{
    let Some((other, left)) = others.split_first() else {
        one_item(writing, item)?;
        return Ok(others);
    };
    if are_same(item.attribute.as_slice(), other.attribute.as_slice()) {
        two_items(writing, item, other)?;
        return Ok(left);
    }
    one_item(writing, item)?;
    Ok(others)
}

/// Attributes and their items.
fn items(writing: &mut Writing, items: &[StoreItem]) -> Result<(), Memory>
    ensures { OnOk result (Writes (spelling.items items.now) writing.old writing.new) }
{
    let mut left = items;
    'items: while let Some((item, others)) = left.split_first() {
        left = first_items(writing, item, others)?;
    }
    Ok(())
}

/// UNCHANGEDSINCE.
fn since(writing: &mut Writing, moment: Moment) -> Result<(), Memory>
    ensures { OnOk result (Writes (spelling.unchanged_since moment) writing.old writing.new) }
{
    word(writing, b"UNCHANGEDSINCE")?;
    time(writing, moment)
}

/// UNCHANGEDSINCE, if it stands there.
fn unchanged_since(writing: &mut Writing, modified: Option<Moment>) -> Result<(), Memory>
    ensures { OnOk result
        (Writes (spelling.if_there spelling.unchanged_since modified) writing.old writing.new) }
{
    match modified {
        None => Ok(()),
        Some(moment) => since(writing, moment),
    }
}

/// The modifiers of an entry.
fn conditions(writing: &mut Writing, modifiers: &StoreModifiers) -> Result<(), Memory>
    ensures { OnOk result (Writes (spelling.conditions modifiers.now) writing.old writing.new) }
{
    flag(writing, b"NOCREATE", modifiers.no_create)?;
    unchanged_since(writing, modifiers.unchanged_since)
}

/// A path.
fn path(writing: &mut Writing, path: &Path) -> Result<(), Memory>
    ensures { OnOk result (Writes (path_string path.now) writing.old writing.new) }
{
    let mut text = Vec::from_slice(*writing.octets.allocator(), path.dataset.as_slice())?;
    text.extend_from_slice(path.name.as_slice())?;
    string(writing, &text)
}

/// An entry.
fn entry(writing: &mut Writing, entry: &StoreEntry) -> Result<(), Memory>
    ensures { OnOk result (Writes (spelling.entry entry.now) writing.old writing.new) }
{
    open(writing)?;
    path(writing, &entry.path)?;
    conditions(writing, &entry.modifiers)?;
    items(writing, entry.items.as_slice())?;
    close(writing)
}

/// Entries, one after the other.
pub(crate) fn entries(writing: &mut Writing, entries: &[StoreEntry]) -> Result<(), Memory>
    ensures { OnOk result (Writes (spelling.each spelling.entry entries.now) writing.old writing.new) }
{
    for item in entries {
        entry(writing, item)?;
    }
    Ok(())
}
