//! The limits of the store, of an entry and of a value: `Limit reached`.
ghost use Rattle.std.specs.Prelude.{◌≡◌, ◌+◌, ◌||◌, length, filter};
ghost use Rattle.std.specs.List.{list_any};
ghost use Rattle.acap_store.specs.Limits as limits;
ghost use Rattle.acap_store.specs.Counting as counting;

use acap_commands::{Given, StoreEntry};
use acap_entries::{Cell, Path, RecordEdit, Tree, Value, Writes};

/// How many octets a string may have.
const STRING_OCTETS: usize = 65_536;

/// How many strings a list may have.
const LIST_STRINGS: usize = 256;

/// How many cells a record may have.
const RECORD_CELLS: usize = 256;

/// How many records the store may have, those of deleted entries included.
const STORE_RECORDS: u128 = 65_536;

// Whether a string is too long.
fn is_long(text: &Value) -> bool
    ensures { result ≡ limits.is_long text.now }
{
    STRING_OCTETS < text.as_slice().len()
}

// Whether one of some strings is too long.
fn has_long(texts: &[Value]) -> bool
    ensures { result ≡ list_any limits.is_long texts.now }
{
    texts.iter().any(is_long)
}

// Whether too long a string is given, or too many of them.
fn is_large(given: &Given) -> bool
    ensures { result ≡ limits.is_large given.now }
{
    match given {
        Given::Put(Cell::Nil) => false,
        Given::Put(Cell::Single(text)) => is_long(text),
        Given::Put(Cell::Multi(texts)) => LIST_STRINGS < texts.as_slice().len()
            || has_long(texts.as_slice()),
        Given::Default => false,
    }
}

// Whether an entry gives too much to one of its attributes.
fn entry_gives_large(entry: &StoreEntry) -> bool
    ensures { result ≡ list_any (λ item. limits.is_large item.given) entry.now.items }
{
    entry
        .items
        .as_slice()
        .iter()
        .any(|item| is_large(&item.given))
}

/// Whether one of the entries gives too much to one of its attributes.
pub(crate) fn gives_large(entries: &[StoreEntry]) -> bool
    ensures { result ≡ limits.gives_large entries.now }
{
    entries.iter().any(entry_gives_large)
}

// Whether too many cells are written.
fn is_crowded(edit: &RecordEdit) -> bool
    ensures { result ≡ limits.is_crowded edit.now }
{
    match edit {
        RecordEdit::Put(entry) => RECORD_CELLS < entry.get().cells.len(),
        RecordEdit::Remove => false,
    }
}

// Whether too many cells are written somewhere.
fn are_crowded(writes: &Writes) -> bool
    ensures { result ≡ limits.writes_crowded writes.now }
{
    writes.entries().iter().any(|(_, edit)| is_crowded(edit))
}

// Whether a write makes a record where there was none.
fn is_new(tree: &Tree, path: &Path, edit: &RecordEdit) -> bool
    ensures { result ≡ counting.is_new tree.now.store.records (path.now, edit.now) }
{
    matches!(edit, RecordEdit::Put(_)) && tree.get(path).is_none()
}

// Whether a write removes a record.
fn is_gone(tree: &Tree, path: &Path, edit: &RecordEdit) -> bool
    ensures { result ≡ counting.is_gone tree.now.store.records (path.now, edit.now) }
{
    matches!(edit, RecordEdit::Remove) && tree.get(path).is_some()
}

// How many writes make a record where there was none.
fn count_new(tree: &Tree, writes: &[(Path, RecordEdit)]) -> usize
    ensures { result ≡ length (filter (counting.is_new tree.now.store.records) writes.now) }
{
    let mut count = 0;
    for (path, edit) in writes {
        if is_new(tree, path, edit) {
            count += 1;
        }
    }
    count
}

// How many writes remove a record.
fn count_gone(tree: &Tree, writes: &[(Path, RecordEdit)]) -> usize
    ensures { result ≡ length (filter (counting.is_gone tree.now.store.records) writes.now) }
{
    let mut count = 0;
    for (path, edit) in writes {
        if is_gone(tree, path, edit) {
            count += 1;
        }
    }
    count
}

// Whether there are too many records afterwards. They aren't counted where there is room for as many as are written.
#[tactic(auto, using(crate::proofs::CountLemmas::full_by_count, crate::proofs::CountLemmas::not_full))]
fn is_full_after(tree: &Tree, writes: &Writes) -> bool
    ensures { result ≡ limits.is_full_after tree.now.store.records writes.now }
{
    if tree.len() as u128 + writes.len() as u128 <= STORE_RECORDS {
        return false;
    }
    let gone = count_gone(tree, writes.entries()) as u128;
    let made = count_new(tree, writes.entries()) as u128;
    STORE_RECORDS + gone < tree.len() as u128 + made
}

/// Whether it is too much for the store: what is given, as said, or what is written.
pub(crate) fn is_too_much(tree: &Tree, gives_large: bool, writes: &Writes) -> bool
    ensures { result ≡ limits.is_too_much tree.now.store.records gives_large writes.now }
{
    gives_large || are_crowded(writes) || is_full_after(tree, writes)
}
