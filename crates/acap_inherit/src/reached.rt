//! The datasets in which a change puts or removes a record.
ghost use Rattle.std.specs.Prelude.{◌≡◌, IfOk, OnOk, IsTrue};
ghost use Rattle.acap_inherit.specs.Reaching as rule;

use crate::heirs::has_heir;
use crate::link::Link;
use crate::written::is_change;
use acap_entries::{Boxed, Memory, Path, Ranked, RecordEdit, Tree, Writes};
use std::alloc::Global;

/// Whether a dataset is among some.
pub(crate) fn is_known(known: &[&[u8]], dataset: &[u8]) -> bool
    ensures { result ≡ rule.is_known known.now dataset.now }
{
    known.iter().any(|other| *other == dataset)
}

/// Whether any dataset inherits from one of these.
pub(crate) fn is_any_inherited(links: &Ranked<Boxed<Link>>, known: &[&[u8]]) -> bool
    ensures { result ≡ rule.is_any_inherited links.now.0 known.now }
{
    known.iter().any(|base| has_heir(links, *base))
}

// Whether a dataset is the last of some.
fn is_last(known: &[&[u8]], dataset: &[u8]) -> bool
    ensures { IsTrue result → IsTrue (rule.is_known known.now dataset.now) }
{
    match known.last() {
        Some(last) => *last == dataset,
        None => false,
    }
}

// Notes the dataset of a write that puts or removes a record, unless it was noted last.
fn note_write<'a>(
    tree: &Tree,
    path: &'a Path,
    edit: &RecordEdit,
    known: &mut Vec<&'a [u8]>,
) -> Result<(), Memory>
    ensures { OnOk result
        (rule.Notes (path.now, edit.now) tree.now.store.records known.old.items known.new.items) }
{
    let dataset = path.dataset.as_slice();
    if is_last(known.as_slice(), dataset) {
        return Ok(());
    }
    if is_change(tree, path, edit) {
        known.push(dataset)?;
    }
    Ok(())
}

/// The datasets in which a record is put or removed. Writes to one dataset lie together, so that each comes
/// once. Fails only for want of memory.
pub(crate) fn written_datasets<'a>(
    alloc: Global,
    tree: &Tree,
    writes: &'a Writes,
) -> Result<Vec<&'a [u8]>, Memory>
    ensures { IfOk result (λ made. rule.AreWritten writes.now tree.now.store.records made.items) }
{
    let mut known = Vec::new(alloc);
    for (path, edit) in writes.entries() {
        note_write(tree, path, edit, &mut known)?;
    }
    Ok(known)
}
