//! `Resolved`: the index from a dataset to those that inherit from it.
ghost use Rattle.std.specs.Prelude.{◌≡◌, ◌≤◌, length, IfOk, OnOk};
ghost use Rattle.acap_entries.specs.Store.{empty_store};
ghost use Rattle.acap_inherit.specs.Index.{IsIndexOf, index_with};
ghost use Rattle.acap_inherit.specs.Leaving.{IsPrepared, AreTouched};
ghost use Rattle.acap_inherit.specs.Values.{Resolves};

use crate::chains::chain_unless;
use crate::found::Found;
use crate::heirs::datasets_reached;
use crate::link::Link;
use crate::linking::{links_written, put_all, take_all};
use crate::prepared::Prepared;
use crate::resolving::lookup;
use crate::touching::paths_found;
use acap_entries::{After, Boxed, Change, Dataset, Memory, Paths, Ranked, Records, Tree};
use std::alloc::Global;
use std::marker::Model;

/// Which datasets inherit from which, seen as the list of pairs of base and heir, and beside it the number of pairs more
/// that there is room for. Chains and values are not kept: each is read anew by at most eight look-ups (RFC 2244 section
/// 5.2).
#[derive(Drop)]
pub struct Resolved {
    pub(crate) links: Ranked<Boxed<Link>>,
}

impl Model for Resolved {
    ghost use Rattle.std.specs.Prelude.{ℕ, List};
    ghost use Rattle.acap_inherit.specs.declared.link.Link.{Link};

    ghost Value = { List Link × ℕ };

    ghost view = { λ r. r.links };
}

impl Resolved {
    /// The index of the empty store. Takes no memory.
    pub fn new(alloc: Global) -> Resolved
        ensures { IsIndexOf empty_store.records result.0 }
    {
        Resolved {
            links: Ranked::new(alloc),
        }
    }

    /// What an attribute of an entry resolves to, as `resolve` answers it, or in the dataset alone where
    /// nothing is to be inherited. Each dataset of the chain is looked up. Takes no memory (RFC 2244 sections
    /// 5.1 and 5.2).
    pub fn get<'a, R: Records>(
        &self,
        records: &'a R,
        dataset: &'a Dataset,
        no_inherit: bool,
        name: &'a [u8],
        attribute: &[u8],
    ) -> Found<'a>
        ensures { Resolves (R.store records.now) dataset.now no_inherit name.now attribute.now result }
    {
        let chain = chain_unless(records, dataset, no_inherit);
        lookup(records, &chain, name, attribute)
    }

    /// What a change of the store does to the index, made before the change is committed. Fails only for want of memory.
    pub fn prepare(&self, tree: &Tree, change: &Change) -> Result<Prepared, Memory>
        requires { IsIndexOf tree.now.store.records self.now.0 }
        ensures { IfOk result (IsPrepared change.now tree.now.store self.now.0) }
    {
        let taken = links_written(tree, change)?;
        let put = links_written(&After::of(tree, change), change)?;
        Ok(Prepared { taken, put })
    }

    /// Makes room for what was prepared. The index stays, and room never shrinks, also where memory is refused.
    pub fn reserve(&mut self, prepared: &Prepared) -> Result<(), Memory>
        ensures links { self.new.0 ≡ self.old.0 }
        ensures grows { self.old.1 ≤ self.new.1 }
        ensures room { OnOk result (length prepared.now.1 ≤ self.new.1) }
    {
        self.links.reserve(prepared.put.len())
    }

    /// Does what was prepared, in the room that there is. Takes no memory and cannot fail.
    pub fn commit(&mut self, prepared: Prepared)
        requires { length prepared.1 ≤ self.old.1 }
        ensures { self.new.0 ≡ index_with prepared self.old.0 }
    {
        let Prepared { taken, put } = prepared;
        take_all(&mut self.links, taken);
        put_all(&mut self.links, put);
    }

    /// The paths that a change touches, each once, in the order of their full octets: each may show something else afterwards,
    /// and no other does. Looks at the heirs of written datasets and not at the rest of the store. Fails only for want of
    /// memory.
    pub fn touched(&self, tree: &Tree, change: &Change) -> Result<Paths, Memory>
        requires { IsIndexOf tree.now.store.records self.now.0 }
        ensures { IfOk result (AreTouched change.now tree.now.store) }
    {
        let datasets = datasets_reached(tree, change, &self.links)?;
        paths_found(tree, change, &datasets)
    }

    /// An equal index. Fails only for want of memory.
    pub fn copy(&self) -> Result<Resolved, Memory>
        ensures { IfOk result (λ made. made.0 ≡ self.now.0) }
    {
        let links = self.links.copy()?;
        Ok(Resolved { links })
    }
}
