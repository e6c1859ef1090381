//! Whether a write puts a record, or removes one that is there.
ghost use Rattle.std.specs.Prelude.{◌≡◌, Some};
ghost use Rattle.std.specs.FinMap as map;
ghost use Rattle.acap_inherit.specs.Touched as rule;
ghost use Rattle.acap_inherit.specs.Touching.{changes};

use acap_entries::{Path, RecordEdit, Tree, Writes};

/// Whether a write puts a record, or removes one that is there.
pub(crate) fn is_change(tree: &Tree, path: &Path, edit: &RecordEdit) -> bool
    ensures { result ≡ changes tree.now.store.records (path.now, edit.now) }
{
    match edit {
        RecordEdit::Put(_) => true,
        RecordEdit::Remove => tree.get(path).is_some(),
    }
}

/// Whether writes do so at a path that is given by its octets.
pub(crate) fn is_written(tree: &Tree, writes: &Writes, dataset: &[u8], name: &[u8]) -> bool
    ensures { result ≡ rule.is_written writes.now tree.now.store.records dataset.now name.now }
{
    match writes.find(dataset, name) {
        Some(RecordEdit::Put(_)) => true,
        Some(RecordEdit::Remove) => tree.find(dataset, name).is_some(),
        None => false,
    }
}
