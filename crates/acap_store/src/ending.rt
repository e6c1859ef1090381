//! Which entries a STORE may end: no management entry, and none with a dataset beneath it.
ghost use Rattle.std.specs.Prelude.{◌≡◌, ◌++◌, nat_eq};
ghost use Rattle.std.specs.List.{list_any, starts_with};
ghost use Rattle.acap_store.specs.Invalid as rule;

use crate::item_tests::{is_management, is_nil_at};
use acap_commands::StoreEntry;
use acap_entries::{Path, Tree};

// Whether a text begins with one text and, after it, another.
fn begins_with_both(text: &[u8], first: &[u8], second: &[u8]) -> bool
    ensures { result ≡ starts_with nat_eq text.now (first.now ++ second.now) }
{
    text.starts_with(first) && text[first.len()..].starts_with(second)
}

// Whether a text begins with three texts, one after the other.
fn begins_with_all(text: &[u8], first: &[u8], second: &[u8], third: &[u8]) -> bool
    ensures { result ≡ starts_with nat_eq text.now (first.now ++ (second.now ++ third.now)) }
{
    text.starts_with(first) && begins_with_both(&text[first.len()..], second, third)
}

// Whether another path lies beneath a path.
fn lies_beneath(path: &Path, other: &Path) -> bool
    ensures { result ≡ rule.lies_beneath path.now other.now }
{
    begins_with_all(
        other.dataset.as_slice(),
        path.dataset.as_slice(),
        path.name.as_slice(),
        b"/",
    )
}

// Whether one of the entries lies beneath a path.
fn has_beneath(entries: &[StoreEntry], path: &Path) -> bool
    ensures { result ≡ list_any (λ other. rule.lies_beneath path.now other.path) entries.now }
{
    entries.iter().any(|entry| lies_beneath(path, &entry.path))
}

/// Whether an entry may end, beside all entries of the command.
pub(crate) fn may_end(tree: &Tree, all: &[StoreEntry], entry: &StoreEntry) -> bool
    ensures { result ≡ rule.may_end tree.now.store.records all.now entry.now }
{
    entry.items.len() == 1
        && !is_management(&entry.path)
        && is_nil_at(tree, &entry.path, b"subdataset")
        && !has_beneath(all, &entry.path)
}
