//! `Writes`: what a change puts at each path, in the order of the paths.
ghost use Rattle.std.specs.Prelude.{◌≡◌, ◌↔◌, IsOk, IfOk, IfErr, OnOk, OnErr, vec_len, true};
ghost use Rattle.std.specs.Option.{option_copied};
ghost use Rattle.std.specs.FinMap as map;
ghost use Rattle.std.specs.List.{list_all};
ghost use Rattle.acap_entries.specs.FullPaths.{AreWellFormed, is_well_formed, path_of};
ghost use Rattle.acap_ordmap.specs.Sorted.{InOrder};
ghost use Rattle.acap_entries.specs.Store.{path_cmp};

use crate::change::RecordEdit;
use crate::keys::PathText;
use crate::path::Path;
use acap_ordmap::{Copying, Memory, Whole, ascends, copy_all, lookup, set_in, take_out};
use std::alloc::Global;
use std::marker::Model;

/// What is written at some paths, a record or its removal: seen as a finite map.
#[derive(Drop)]
pub struct Writes {
    entries: Vec<(Path, RecordEdit)>,
}

impl Model for Writes {
    ghost use Rattle.std.specs.FinMap as map;
    ghost use Rattle.acap_entries.specs.FullPaths.{AreInForm};
    ghost use Rattle.acap_entries.specs.Store.{Written, written_code};

    ghost Value = { Written };

    ghost coded = { written_code };

    ghost view = { λ w. map.from_sorted w.entries.items };

    ghost invariant = { λ w. AreInForm w.entries.items };
}

// Each path is well formed: goes over them and does nothing.
fn form_all(entries: &[(Path, RecordEdit)])
    ensures { list_all (λ e. is_well_formed e.0) entries.now ≡ true }
{
    let mut left = entries;
    while let Some((first, others)) = left.split_first() {
        first.0.form_law();
        left = others;
    }
}

#[tactic(auto, using(crate::proofs::Kept::kept))]
impl Writes {
    /// Nothing written yet. Takes no memory.
    pub fn new(alloc: Global) -> Writes
        ensures { result ≡ map.empty }
    {
        Writes {
            entries: Vec::new(alloc),
        }
    }

    /// Those writes, in the memory that they have, if each path is greater than the one before it; else they are given back.
    pub fn from_ascending(
        entries: Vec<(Path, RecordEdit)>,
    ) -> Result<Writes, Vec<(Path, RecordEdit)>>
        ensures order { IsOk result ↔ InOrder path_cmp entries.items }
        ensures value { IfOk result (λ made. made ≡ map.from_sorted entries.items) }
        ensures same { IfErr result (λ same. same.items ≡ entries.items) }
    {
        if ascends(entries.as_slice()) {
            form_all(entries.as_slice());
            Ok(Writes { entries })
        } else {
            Err(entries)
        }
    }

    /// How many paths are written.
    pub fn len(&self) -> usize
        ensures { result ≡ map.len self.now }
    {
        self.entries.len()
    }

    /// What is written at a path, if anything is.
    pub fn get(&self, path: &Path) -> Option<&RecordEdit>
        ensures { option_copied result ≡ map.get self.now path.now }
    {
        lookup(self.entries.as_slice(), &Whole { key: path })
    }

    /// The same for a path that is given by its octets.
    pub fn find(&self, dataset: &[u8], name: &[u8]) -> Option<&RecordEdit>
        ensures { option_copied result ≡ map.get self.now (path_of dataset.now name.now) }
    {
        lookup(self.entries.as_slice(), &PathText { dataset, name })
    }

    /// All that is written, by dataset and then by name.
    pub fn entries(&self) -> &[(Path, RecordEdit)]
        ensures { result.now ≡ map.entries self.now }
    {
        self.entries.as_slice()
    }

    /// Writes a record at a path, or its removal, in place of what was written there.
    /// Fails only for want of memory, and then nothing has changed.
    pub fn set(&mut self, path: Path, edit: RecordEdit) -> Result<(), Memory>
        ensures ok { OnOk result (self.new ≡ map.insert self.old path edit) }
        ensures err { OnErr result (self.new ≡ self.old) }
    {
        path.form_law();
        set_in(&mut self.entries, path, edit)?;
        Ok(())
    }

    /// Writes nothing at a path after all. Takes no memory.
    pub fn remove(&mut self, path: &Path)
        ensures { self.new ≡ map.remove self.old path.now }
    {
        let _ = take_out(&mut self.entries, &Whole { key: path });
    }

    /// Each path that is written at is well formed: does nothing.
    #[inline]
    pub fn form_law(&self)
        ensures { AreWellFormed self.now }
    {
        let _ = &self.entries;
    }

    /// The writes in their order, in their memory.
    pub(crate) fn into_entries(self) -> Vec<(Path, RecordEdit)>
        ensures len { vec_len result ≡ map.len self }
        ensures sorted { InOrder path_cmp result.items }
        ensures writes { map.from_sorted result.items ≡ self }
    {
        self.entries
    }
}

impl Clone for Writes {
    ghost is_clone = { λ x y. y ≡ x };

    fn clone(&self) -> Result<Writes, Memory> {
        let entries = copy_all(&self.entries)?;
        Ok(Writes { entries })
    }
}

impl Copying for Writes {
    fn copy(&self) -> Result<Writes, Memory> {
        self.clone()
    }
}
