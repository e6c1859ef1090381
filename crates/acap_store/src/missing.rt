//! The own entries of datasets that a STORE makes.
ghost use Rattle.acap_entries.specs.Names.{is_closed_dataset, own_entry};
ghost use Rattle.std.specs.Prelude.{◌≡◌, [], ◌∷◌, codes, IfOk, IsTrue, OnOk};
ghost use Rattle.acap_entries.specs.declared.record.Cell.TheVariants as cell;
ghost use Rattle.acap_store.specs.Writing as writing;
ghost use Rattle.acap_store.specs.Writing.{with_own_step, with_steps_to};

use crate::records::{acls_of, cells_of, renew};
use acap_commands::StoreEntry;
use acap_entries::{
    Attribute, Boxed, Cell, Memory, Moment, Path, RecordEdit, Sequence, Tree, Value, Values,
    Writes, own_entry_of,
};
use std::alloc::Global;

// The list of the one string `.`.
fn dot_list(alloc: Global) -> Result<Cell, Memory>
    ensures { IfOk result (λ made. made ≡ cell.Multi (codes "." ∷ [])) }
{
    let mut strings = Sequence::new(alloc);
    strings.push(Value::from_static(b"."))?;
    Ok(Cell::Multi(Values::new(strings)?))
}

// What the own entry of a missing dataset gets.
fn step_at(
    alloc: Global,
    tree: &Tree,
    path: Path,
    moment: Moment,
) -> Result<(Path, RecordEdit), Memory>
    ensures { IfOk result (λ made. made ≡ writing.step_at tree.now.store.records moment path) }
{
    let old = tree.get(&path);
    let mut cells = cells_of(alloc, old)?;
    let attribute = Attribute::from_slice(alloc, b"subdataset")?;
    cells.set(attribute, dot_list(alloc)?)?;
    let acls = acls_of(alloc, old)?;
    let record = renew(old, cells, acls, moment);
    Ok((path, RecordEdit::Put(Boxed::new(alloc, record)?)))
}

// Writes the own entry of a dataset, if that is missing.
fn write_step(
    alloc: Global,
    tree: &Tree,
    writes: &mut Writes,
    dataset: &[u8],
    moment: Moment,
) -> Result<(), Memory>
    requires { IsTrue (is_closed_dataset dataset.now) }
    ensures { OnOk result (writes.new ≡ with_own_step tree.now.store.records moment dataset.now writes.old) }
{
    if tree.dataset_exists(dataset) {
        return Ok(());
    }
    let Some(path) = Path::own_entry(alloc, dataset)? else {
        return Ok(());
    };
    let (path, edit) = step_at(alloc, tree, path, moment)?;
    writes.set(path, edit)
}

// Writes the own entries of the datasets that are missing on the way to a dataset.
fn write_steps(
    alloc: Global,
    tree: &Tree,
    writes: &mut Writes,
    dataset: &[u8],
    moment: Moment,
) -> Result<(), Memory>
    requires { IsTrue (is_closed_dataset dataset.now) }
    ensures { OnOk result (writes.new ≡ with_steps_to tree.now.store.records moment dataset.now writes.old) }
{
    let mut way = dataset;
    while let Some((parent, _)) = own_entry_of(way) {
        write_step(alloc, tree, writes, way, moment)?;
        way = parent;
    }
    Ok(())
}

/// The own entries of all datasets that are missing for entries. Most entries have the dataset of the one after them, whose
/// way isn't gone again.
#[tactic(auto, unfolding(crate::specs::Writing::steps_for))]
pub(crate) fn steps_for(
    alloc: Global,
    tree: &Tree,
    entries: &[StoreEntry],
    moment: Moment,
) -> Result<Writes, Memory>
    ensures { IfOk result (λ made. made ≡ writing.steps_for tree.now.store.records entries.now moment) }
{
    let mut writes = Writes::new(alloc);
    let mut left = entries;
    let mut done: &[u8] = b"";
    while let Some((entry, others)) = left.split_last() {
        let dataset = entry.path.dataset.as_slice();
        if dataset != done {
            write_steps(alloc, tree, &mut writes, dataset, moment)?;
            done = dataset;
        }
        left = others;
    }
    Ok(writes)
}
