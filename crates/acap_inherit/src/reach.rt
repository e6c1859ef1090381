//! `Reach`: which datasets a change touches, and which of their entries.
ghost use Rattle.std.specs.Prelude.{◌≡◌, ◌++◌, false, IfOk, IfSome, OnOk, map as each};
ghost use Rattle.std.specs.List.{flat_map};
ghost use Rattle.acap_inherit.specs.Index.{IsIndexOf};
ghost use Rattle.acap_inherit.specs.Leaving.{AreTouchedAt, in_ahead};
ghost use Rattle.acap_inherit.specs.Reaching as rule;

use crate::chains::chain;
use crate::full_path::FullPath;
use crate::heirs::datasets_reached;
use crate::lineage::Lineage;
use crate::reached::{is_any_inherited, is_known, written_datasets};
use crate::resolved::Resolved;
use crate::touching::{add_touched, in_order, touched_at};
use acap_entries::{After, Boxed, Change, Dataset, Memory, Paths, Ranked, Records, Tree};
use std::alloc::Global;
use std::marker::Model;

/// A change that is about to be committed, with what decides in which datasets it touches something: those in
/// which it puts or removes a record, and whether any dataset inherits from one of these (RFC 2244 section
/// 5.2).
#[derive(Drop)]
pub struct Reach<'a> {
    index: &'a Resolved,
    tree: &'a Tree,
    change: &'a Change,
    written: Vec<&'a [u8]>,
    inherited: bool,
}

impl<'a> Model for Reach<'a> {
    ghost use Rattle.acap_inherit.specs.Reaching.{Reaching, reaching_code, IsReach};

    ghost Value = { Reaching };

    ghost coded = { reaching_code };

    ghost view = { λ r. record { change = r.change.now; old = r.tree.now.store } };

    ghost invariant = { λ r. IsReach r.change r.tree r.index r.written.items r.inherited };
}

impl Resolved {
    /// What decides in which datasets a change touches something. No heir is listed. Fails only for want of
    /// memory.
    pub fn reach<'a>(&'a self, tree: &'a Tree, change: &'a Change) -> Result<Reach<'a>, Memory>
        requires { IsIndexOf tree.now.store.records self.now.0 }
        ensures { IfOk result (λ made. made ≡ record { change = change.now; old = tree.now.store }) }
    {
        let written = written_datasets(change.deleted.allocator(), tree, &change.writes)?;
        let inherited = is_any_inherited(&self.links, written.as_slice());
        Ok(Reach {
            index: self,
            tree,
            change,
            written,
            inherited,
        })
    }
}

// Adds the touched paths of some datasets.
fn add_each(
    after: &After<'_>,
    datasets: &[&Dataset],
    to: &mut Vec<Boxed<FullPath>>,
) -> Result<(), Memory>
    ensures { OnOk result
        (to.new.items ≡ to.old.items ++ flat_map (in_ahead after.now) (each (λ d. d.now) datasets.now)) }
{
    for dataset in datasets {
        add_touched(after, *dataset, to)?;
    }
    Ok(())
}

impl<'a> Reach<'a> {
    // Whether a record is put or removed in one of some datasets.
    fn is_written_along(&self, members: &Lineage<'_>) -> bool
        ensures { result ≡ rule.is_written_along self.now members.now }
    {
        for member in members.names() {
            if is_known(self.written.as_slice(), member) {
                return true;
            }
        }
        false
    }

    // Whether a record is put or removed in a dataset of the chain that a dataset has before the change.
    // Where nothing inherits from a written dataset, that can be the dataset itself alone.
    fn is_reached(&self, dataset: &Dataset) -> bool
        ensures { result ≡ rule.is_reached self.now dataset.now }
    {
        if is_known(self.written.as_slice(), dataset.as_slice()) {
            return true;
        }
        self.inherited && self.is_written_along(&chain(self.tree, dataset))
    }

    // Whether the change may touch something in a dataset: a record is put or removed there, or some dataset
    // inherits from one where that is so. No chain is looked up.
    fn may_have(&self, dataset: &Dataset) -> bool
        ensures { result ≡ false → rule.SaysWhether self.now dataset.now false }
    {
        if is_known(self.written.as_slice(), dataset.as_slice()) {
            return true;
        }
        self.inherited
    }

    /// A dataset outside of which the change touches nothing, if that is so without a look at any chain: the only one in which a
    /// record is put or removed, from which none inherits. Takes no memory.
    pub fn only(&self) -> Option<&[u8]>
        ensures { IfSome result (λ only. rule.TouchesNoOther self.now only.now) }
    {
        if self.inherited {
            return None;
        }
        match self.written.as_slice() {
            [only] => Some(*only),
            _ => None,
        }
    }

    /// Whether the change touches something in a dataset: the dataset exists afterwards, and of the chain
    /// that it has before the change one is written in (RFC 2244 section 5.2). Looks at no other dataset, and
    /// takes no memory.
    pub fn has(&self, dataset: &Dataset) -> bool
        ensures { rule.SaysWhether self.now dataset.now result }
    {
        self.is_reached(dataset)
            && After::of(self.tree, self.change).dataset_exists(dataset.as_slice())
    }

    /// Datasets, among which are all in which the change touches something, each once, in the order of their
    /// octets: the written ones, and all that inherit from them. Fails only for want of memory.
    pub fn datasets(&self) -> Result<Ranked<Boxed<Dataset>>, Memory>
        ensures { IfOk result (λ made. rule.AreAllReached self.now made.0) }
    {
        let index = self.index;
        datasets_reached(self.tree, self.change, &index.links)
    }

    /// The paths that the change touches in a dataset, in the order of their names. Looks at the dataset's chains
    /// alone, and at none where nothing can be touched. Fails only for want of memory.
    pub fn touched_in(&self, alloc: Global, dataset: &Dataset) -> Result<Paths, Memory>
        ensures { IfOk result (AreTouchedAt self.now.change self.now.old dataset.now) }
    {
        if self.may_have(dataset) {
            return touched_at(alloc, self.tree, self.change, dataset);
        }
        Ok(Paths::new(alloc))
    }

    /// The paths that the change touches in some datasets, each once, in the order of their full octets.
    /// Looks at the chains of these datasets alone. Fails only for want of memory.
    pub fn touched_among(&self, alloc: Global, datasets: &[&Dataset]) -> Result<Paths, Memory>
        ensures { IfOk result (rule.AreTouchedAmong self.now (each (λ d. d.now) datasets.now)) }
    {
        let after = After::of(self.tree, self.change);
        let mut found = Vec::new(alloc);
        add_each(&after, datasets, &mut found)?;
        in_order(found)
    }
}
