//! `Path`: the dataset and the name of an entry.
ghost use Rattle.std.specs.Prelude.{◌≡◌, ◌↔◌, IfOk, OnOk, OnErr, IsTrue, Err, false};
ghost use Rattle.std.specs.Option.{option_map};
ghost use Rattle.acap_entries.specs.Names as rule;
ghost use Rattle.acap_entries.specs.FullPaths.{parts_of, path_for, path_in, path_of};

use crate::dataset::Dataset;
use crate::keys::cmp_pairs;
use crate::name_fault::NameFault;
use crate::names;
use crate::sequence::Sequence;
use crate::text::{EntryName, UserName};
use acap_ordmap::{Copying, Memory};
use std::alloc::Global;
use std::cmp::Ordering;

/// Where an entry is: its dataset and its name there (RFC 2244 section 3.1). Ordered by dataset, then by name.
#[derive(Clone, PartialEq, Eq, PartialOrd, Ord, Drop)]
pub struct Path {
    /// The dataset.
    pub dataset: Dataset,
    /// The entry's name in the dataset.
    pub name: EntryName,
}

impl Path {
    /// Reads a path as a client sends it: its dataset is all through the last `/`, its name the rest. `BadName`
    /// exactly where the octets are no such name; a component `~` stays (`for_user`).
    pub fn read(alloc: Global, octets: &[u8]) -> Result<Path, NameFault>
        ensures good { OnOk result (IsTrue (rule.is_path octets.now)) }
        ensures value { IfOk result (λ path. path ≡ path_in octets.now) }
        ensures bad { (result ≡ Err NameFault.BadName) ↔ (rule.is_path octets.now ≡ false) }
    {
        if !names::is_path(octets) {
            return Err(NameFault::BadName);
        }
        let (dataset, name) = names::split_path(octets);
        Ok(Path::of_closed(alloc, dataset, name)?)
    }

    /// The path of that very dataset and name, copied. `BadName` exactly where one of them is none.
    pub fn from_slices(alloc: Global, dataset: &[u8], name: &[u8]) -> Result<Path, NameFault>
        ensures good { OnOk result (IsTrue (rule.are_parts dataset.now name.now)) }
        ensures value { IfOk result (λ path. path ≡ path_of dataset.now name.now) }
        ensures bad { (result ≡ Err NameFault.BadName) ↔ (rule.are_parts dataset.now name.now ≡ false) }
    {
        if !names::is_closed_dataset(dataset) || !names::is_entry_name(name) {
            return Err(NameFault::BadName);
        }
        Ok(Path::of_closed(alloc, dataset, name)?)
    }

    // The path of a dataset with its closing `/` and a name.
    fn of_closed(alloc: Global, dataset: &[u8], name: &[u8]) -> Result<Path, Memory>
        requires dataset { IsTrue (rule.is_closed_dataset dataset.now) }
        requires name { IsTrue (rule.is_entry_name name.now) }
        ensures { IfOk result (λ path. path ≡ path_of dataset.now name.now) }
    {
        let dataset = Dataset::of_closed(alloc, dataset)?;
        let name = EntryName::copy_octets(alloc, name)?;
        Ok(Path { dataset, name })
    }

    /// The own entry of a dataset other than `/`, in its parent. Fails only for want of memory.
    pub fn own_entry(alloc: Global, dataset: &[u8]) -> Result<Option<Path>, Memory>
        requires { IsTrue (rule.is_closed_dataset dataset.now) }
        ensures { IfOk result (λ made. option_map parts_of made ≡ rule.own_entry dataset.now) }
    {
        match names::own_entry_of(dataset) {
            Some((parent, name)) => Ok(Some(Path::of_closed(alloc, parent, name)?)),
            None => Ok(None),
        }
    }

    /// Becomes the path that a user means: its dataset is the one that the user means. Takes memory where that is another
    /// and long, and where memory is refused it stays.
    pub fn set_user(&mut self, user: &UserName) -> Result<(), Memory>
        ensures ok { OnOk result (self.new ≡ path_for user.now self.old) }
        ensures err { OnErr result (self.new ≡ self.old) }
    {
        self.dataset.set_user(user)
    }
}

impl Copying for Path {
    fn copy(&self) -> Result<Path, Memory> {
        self.clone()
    }
}

impl Path {
    ghost use Rattle.acap_entries.specs.FullPaths.{full_path_cmp, IsWellFormed};

    /// Each path is well formed: does nothing.
    #[inline]
    pub fn form_law(&self)
        ensures { IsWellFormed self.now }
    {
        let _octets = self.dataset.as_slice();
        self.name.form_law();
    }

    /// How the full octets of this path, its dataset and then its name, compare with those of another. This is another
    /// order than that of paths. Takes no memory.
    pub fn cmp_full(&self, other: &Path) -> Ordering
        ensures { result ≡ full_path_cmp self.now other.now }
    {
        cmp_pairs(
            self.dataset.as_slice(),
            self.name.as_slice(),
            other.dataset.as_slice(),
            other.name.as_slice(),
        )
    }
}

/// Paths in an order.
pub type Paths = Sequence<Path>;
