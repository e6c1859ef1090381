//! Which datasets inherit from a dataset, looked up in the index.
ghost use Rattle.std.specs.Prelude.{◌≡◌, ◌++◌, [], IfOk, OnOk};
ghost use Rattle.std.specs.List.{flat_map};
ghost use Rattle.acap_inherit.specs.Index.{heirs_in};
ghost use Rattle.acap_inherit.specs.Leaving.{datasets_before};
ghost use Rattle.acap_inherit.specs.Reaching.{is_inherited};
ghost use Rattle.acap_inherit.specs.Touched.{ordered_among};
ghost use Rattle.acap_inherit.specs.Touching as rule;

use crate::link::Link;
use crate::written::is_change;
use acap_entries::{Boxed, Change, Copying, Dataset, Memory, Probe, Ranked, Tree, Writes};
use std::alloc::Global;
use std::cmp::Ordering;

/// The place before all heirs of a base.
#[derive(Drop)]
struct FirstHeir<'a> {
    base: &'a [u8],
}

impl<'a> Probe<Boxed<Link>> for FirstHeir<'a> {
    ghost key = { λ p. record { base = p.base.now; heir = [] } };

    fn compare(&self, known: &Boxed<Link>) -> Ordering {
        let link = known.get();
        match self.base.cmp(link.base.as_slice()) {
            Ordering::Equal => b"".as_slice().cmp(link.heir.as_slice()),
            unequal => unequal,
        }
    }
}

// A copy of a dataset in a box.
fn box_copy(alloc: Global, dataset: &Dataset) -> Result<Boxed<Dataset>, Memory>
    ensures { IfOk result (λ made. made ≡ dataset.now) }
{
    Boxed::new(alloc, dataset.copy()?)
}

// Adds the heirs of a base. They lie together, and the first is found by halving.
fn add_heirs(
    links: &Ranked<Boxed<Link>>,
    base: &[u8],
    heirs: &mut Vec<Boxed<Dataset>>,
) -> Result<(), Memory>
    ensures { OnOk result (heirs.new.items ≡ heirs.old.items ++ heirs_in links.now.0 base.now) }
{
    let alloc = *heirs.allocator();
    links.ascends();
    for index in links.rank(&FirstHeir { base })..links.len() {
        let Some(link) = links.get(index) else {
            return Ok(());
        };
        let link = link.get();
        if base != link.base.as_slice() {
            return Ok(());
        }
        heirs.push(box_copy(alloc, &link.heir)?)?;
    }
    Ok(())
}

/// Whether a dataset inherits from a base: a look at the pair that stands first of those with it.
pub(crate) fn has_heir(links: &Ranked<Boxed<Link>>, base: &[u8]) -> bool
    ensures { result ≡ is_inherited links.now.0 base.now }
{
    links.ascends();
    let first = links.rank(&FirstHeir { base });
    match links.get(first) {
        Some(link) => base == link.get().base.as_slice(),
        None => false,
    }
}

// The heirs of some datasets.
fn heirs_of(
    links: &Ranked<Boxed<Link>>,
    level: &Vec<Boxed<Dataset>>,
) -> Result<Vec<Boxed<Dataset>>, Memory>
    ensures { IfOk result (λ heirs. heirs.items ≡ flat_map (heirs_in links.now.0) level.now.items) }
{
    let mut heirs = Vec::new(*level.allocator());
    for dataset in level {
        add_heirs(links, dataset.get().as_slice(), &mut heirs)?;
    }
    Ok(heirs)
}

/// Puts items in their places among others. Fails only for want of memory.
pub(crate) fn put_among<T: Ord + Drop>(
    ranked: &mut Ranked<T>,
    mut items: Vec<T>,
) -> Result<(), Memory>
    ensures { OnOk result (ranked.new.0 ≡ ordered_among T.cmp items.items ranked.old.0) }
{
    while let Some(item) = items.pop() {
        ranked.reserve(1)?;
        ranked.put(item);
    }
    Ok(())
}

// Copies of the datasets in which a record is put or removed, one for each record.
fn copy_written(alloc: Global, tree: &Tree, writes: &Writes) -> Result<Vec<Boxed<Dataset>>, Memory>
    ensures { IfOk result (λ made. made.items ≡ rule.datasets_each writes.now tree.now.store.records) }
{
    let mut datasets = Vec::new(alloc);
    for (path, edit) in writes.entries() {
        if is_change(tree, path, edit) {
            datasets.push(box_copy(alloc, &path.dataset)?)?;
        }
    }
    Ok(datasets)
}

// Each dataset in which a record is put or removed.
fn datasets_written(
    alloc: Global,
    tree: &Tree,
    writes: &Writes,
) -> Result<Vec<Boxed<Dataset>>, Memory>
    ensures { IfOk result (λ made. made.items ≡ rule.datasets_written writes.now tree.now.store.records) }
{
    let mut ranked = Ranked::new(alloc);
    put_among(&mut ranked, copy_written(alloc, tree, writes)?)?;
    let mut datasets = Vec::with_capacity(alloc, ranked.len())?;
    for dataset in ranked.iter() {
        datasets.push(box_copy(alloc, dataset.get())?)?;
    }
    Ok(datasets)
}

// Some datasets and their heirs, down to seven levels of them.
fn with_heirs(
    links: &Ranked<Boxed<Link>>,
    mut level: Vec<Boxed<Dataset>>,
) -> Result<Ranked<Boxed<Dataset>>, Memory>
    ensures { IfOk result (λ found. found.0 ≡ rule.with_heirs 7 links.now.0 level.items []) }
{
    let mut found = Ranked::new(*level.allocator());
    for _ in 0..7u8 {
        let heirs = heirs_of(links, &level)?;
        put_among(&mut found, level)?;
        if heirs.is_empty() {
            return Ok(found);
        }
        level = heirs;
    }
    put_among(&mut found, level)?;
    Ok(found)
}

/// The datasets on whose chains, as they are before it, a change puts or removes a record. Fails only for want of memory.
pub(crate) fn datasets_reached(
    tree: &Tree,
    change: &Change,
    links: &Ranked<Boxed<Link>>,
) -> Result<Ranked<Boxed<Dataset>>, Memory>
    ensures { IfOk result (λ found. found.0 ≡ datasets_before change.now tree.now.store links.now.0) }
{
    let alloc = change.deleted.allocator();
    with_heirs(links, datasets_written(alloc, tree, &change.writes)?)
}
