//! The paths that a change touches, inherited ones too.
ghost use Rattle.std.specs.Prelude.{◌≡◌, ◌++◌, [], ◌∷◌, IfOk, OnOk};
ghost use Rattle.acap_entries.specs.Made.{IsMade};
ghost use Rattle.acap_inherit.specs.Leaving as rule;
ghost use Rattle.acap_inherit.specs.Leaving.{paths_kept};
ghost use Rattle.acap_inherit.specs.Touched.{in_order};
ghost use Rattle.acap_inherit.specs.Touching.{path_at};

use crate::chains::chain;
use crate::full_path::FullPath;
use crate::heirs::put_among;
use crate::lineage::Lineage;
use crate::written::{is_change, is_written};
use acap_entries::{
    After, Boxed, Change, Copying, Dataset, EntryName, Memory, Path, Paths, Ranked, Records, Tree,
};
use std::alloc::Global;

// Adds a path.
fn add_path(
    dataset: &Dataset,
    name: &EntryName,
    to: &mut Vec<Boxed<FullPath>>,
) -> Result<(), Memory>
    ensures { OnOk result (to.new.items ≡ to.old.items ++ path_at dataset.now name.now ∷ []) }
{
    let dataset = dataset.copy()?;
    let name = name.copy()?;
    let path = Path { dataset, name };
    to.push(Boxed::new(*to.allocator(), FullPath { path })?)?;
    Ok(())
}

// Adds the paths of a dataset whose names are written in a member of its chain.
fn add_written(
    after: &After<'_>,
    member: &[u8],
    dataset: &Dataset,
    to: &mut Vec<Boxed<FullPath>>,
) -> Result<(), Memory>
    ensures { OnOk result (to.new.items
        ≡ to.old.items ++ rule.written_along after.now dataset.now member.now) }
{
    for (path, edit) in after.writes.entries() {
        if member == path.dataset.as_slice() && is_change(after.tree, path, edit) {
            add_path(dataset, &path.name, to)?;
        }
    }
    Ok(())
}

// Adds the paths of a dataset whose names have a record in a member of its chain.
fn add_stored(
    tree: &Tree,
    member: &[u8],
    dataset: &Dataset,
    to: &mut Vec<Boxed<FullPath>>,
) -> Result<(), Memory>
    ensures { OnOk result (to.new.items ≡ to.old.items ++ paths_kept tree.now.store dataset.now member.now) }
{
    for (path, _) in tree.entries_of(member) {
        add_path(dataset, &path.name, to)?;
    }
    Ok(())
}

// Adds the paths of a dataset whose names are along a chain: those that are written there, or all of them.
fn add_along(
    after: &After<'_>,
    members: &Lineage<'_>,
    all: bool,
    dataset: &Dataset,
    to: &mut Vec<Boxed<FullPath>>,
) -> Result<(), Memory>
    ensures { OnOk result (to.new.items ≡ to.old.items ++ rule.along after.now all dataset.now members.now) }
{
    for member in members.names() {
        add_written(after, member, dataset, to)?;
        if all {
            add_stored(after.tree, member, dataset, to)?;
        }
    }
    Ok(())
}

// Whether the management entry of a member of a chain is written.
fn is_managed(after: &After<'_>, members: &Lineage<'_>) -> bool
    ensures { result ≡ rule.is_managed after.now members.now }
{
    for member in members.names() {
        if is_written(after.tree, after.writes, member, b"") {
            return true;
        }
    }
    false
}

// Adds the touched paths of a dataset that exists.
fn add_below(
    after: &After<'_>,
    dataset: &Dataset,
    to: &mut Vec<Boxed<FullPath>>,
) -> Result<(), Memory>
    ensures { OnOk result (to.new.items ≡ to.old.items ++ rule.below_ahead after.now dataset.now) }
{
    let before = chain(after.tree, dataset);
    let all = is_managed(after, &before);
    add_along(after, &before, all, dataset, to)?;
    if all {
        let members = chain(after, dataset);
        add_along(after, &members, true, dataset, to)?;
    }
    Ok(())
}

/// Adds the touched paths of a dataset, if it exists afterwards.
pub(crate) fn add_touched(
    after: &After<'_>,
    dataset: &Dataset,
    to: &mut Vec<Boxed<FullPath>>,
) -> Result<(), Memory>
    ensures { OnOk result (to.new.items ≡ to.old.items ++ rule.in_ahead after.now dataset.now) }
{
    if after.dataset_exists(dataset.as_slice()) {
        add_below(after, dataset, to)?;
    }
    Ok(())
}

// Copies of paths.
fn copy_paths(paths: &Ranked<Boxed<FullPath>>, mut made: Paths) -> Result<Paths, Memory>
    requires { made ≡ [] }
    ensures { IfOk result (λ made. made ≡ paths.now.0) }
{
    for path in paths.iter() {
        made.push(path.get().path.copy()?)?;
    }
    Ok(made)
}

/// Paths in the order of their full octets, each once. Fails only for want of memory.
pub(crate) fn in_order(found: Vec<Boxed<FullPath>>) -> Result<Paths, Memory>
    ensures { IfOk result (λ paths. paths ≡ in_order found.items) }
{
    let alloc = *found.allocator();
    let mut paths = Ranked::new(alloc);
    put_among(&mut paths, found)?;
    copy_paths(&paths, Paths::new(alloc))
}

/// The touched paths of some datasets. Fails only for want of memory.
pub(crate) fn paths_found(
    tree: &Tree,
    change: &Change,
    datasets: &Ranked<Boxed<Dataset>>,
) -> Result<Paths, Memory>
    ensures { IsMade (rule.paths_left change.now tree.now.store datasets.now.0) result }
{
    let alloc = change.deleted.allocator();
    let after = After::of(tree, change);
    let mut found = Vec::new(alloc);
    for dataset in datasets.iter() {
        add_touched(&after, dataset.get(), &mut found)?;
    }
    in_order(found)
}

// The touched paths of one dataset.
fn paths_at(alloc: Global, tree: &Tree, change: &Change, dataset: &Dataset) -> Result<Paths, Memory>
    ensures { IsMade (rule.paths_left_in change.now tree.now.store dataset.now) result }
{
    let after = After::of(tree, change);
    let mut found = Vec::new(alloc);
    add_touched(&after, dataset, &mut found)?;
    in_order(found)
}

/// The paths of one dataset that a change touches, in the order of their names. Looks at the dataset's chains
/// alone, and fails only for want of memory.
pub(crate) fn touched_at(
    alloc: Global,
    tree: &Tree,
    change: &Change,
    dataset: &Dataset,
) -> Result<Paths, Memory>
    ensures { IfOk result (rule.AreTouchedAt change.now tree.now.store dataset.now) }
{
    paths_at(alloc, tree, change, dataset)
}
