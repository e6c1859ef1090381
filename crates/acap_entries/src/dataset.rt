//! `Dataset`: the name of a dataset.
ghost use Rattle.std.specs.Prelude.{◌≡◌, ◌↔◌, ◌<◌, ◌++◌, ◌∷◌, [], length, false};
ghost use Rattle.std.specs.Prelude.{IfOk, OnOk, OnErr, IsTrue, Err};
ghost use Rattle.acap_entries.specs.Names as name;
ghost use Rattle.acap_entries.specs.Homes as home;

use crate::name_fault::NameFault;
use crate::text::{DatasetText, EntryName, UserName};
use crate::{homes, names};
use acap_ordmap::{Copying, Memory};
use std::alloc::Global;
use std::marker::Model;

/// The name of a dataset: components with a `/` before each, and one after the last (RFC 2244 section 3.1).
#[derive(Clone, PartialEq, Eq, PartialOrd, Ord, Drop)]
pub struct Dataset {
    octets: DatasetText,
}

impl Model for Dataset {
    ghost use Rattle.std.specs.Prelude.{ℕ, List};

    ghost Value = { List ℕ };

    ghost view = { λ v. v.octets };

    ghost use Rattle.std.specs.Prelude.{IsTrue};
    ghost use Rattle.acap_entries.specs.Names.{is_closed_dataset};

    ghost invariant = { λ v. IsTrue (is_closed_dataset v.octets) };

    ghost inverse = { λ octets. record { octets = octets } };
}

impl Dataset {
    /// Reads a dataset as a client sends it, with its closing `/` or without, and gives it that. `BadName` exactly
    /// where the octets are no such name; a component `~` stays (`for_user`).
    pub fn read(alloc: Global, octets: &[u8]) -> Result<Dataset, NameFault>
        ensures good { OnOk result (IsTrue (name.is_dataset_argument octets.now)) }
        ensures value { IfOk result (λ made. made ≡ name.with_slash octets.now) }
        ensures bad { (result ≡ Err NameFault.BadName) ↔ (name.is_dataset_argument octets.now ≡ false) }
    {
        if !names::is_dataset_argument(octets) {
            return Err(NameFault::BadName);
        }
        let octets = close(alloc, octets)?;
        Ok(Dataset { octets })
    }

    /// The dataset of that very name, copied. `BadName` exactly where the octets are no dataset with its closing `/`.
    pub fn from_slice(alloc: Global, octets: &[u8]) -> Result<Dataset, NameFault>
        ensures good { OnOk result (IsTrue (name.is_closed_dataset octets.now)) }
        ensures value { IfOk result (λ made. made ≡ octets.now) }
        ensures bad { (result ≡ Err NameFault.BadName) ↔ (name.is_closed_dataset octets.now ≡ false) }
    {
        if !names::is_closed_dataset(octets) {
            return Err(NameFault::BadName);
        }
        Ok(Dataset::of_closed(alloc, octets)?)
    }

    /// The dataset of octets that are one with its closing `/`, copied. Fails only for want of memory.
    pub(crate) fn of_closed(alloc: Global, octets: &[u8]) -> Result<Dataset, Memory>
        requires { IsTrue (name.is_closed_dataset octets.now) }
        ensures { IfOk result (λ made. made ≡ octets.now) }
    {
        let octets = DatasetText::from_slice(alloc, octets)?;
        Ok(Dataset { octets })
    }

    /// The dataset that a user means: where the second component is `~` it is `user/USER`, else an equal copy.
    /// Fails only for want of memory.
    pub fn for_user(&self, user: &UserName) -> Result<Dataset, Memory>
        ensures { IfOk result (λ made. made ≡ home.for_user user.now self.now) }
    {
        user.form_law();
        let octets = homes::for_user(&self.octets, user.as_slice())?;
        Ok(Dataset { octets })
    }

    /// Becomes the dataset that a user means. Where memory is refused it stays.
    pub(crate) fn set_user(&mut self, user: &UserName) -> Result<(), Memory>
        ensures ok { OnOk result (self.new ≡ home.for_user user.now self.old) }
        ensures err { OnErr result (self.new ≡ self.old) }
    {
        user.form_law();
        if let Some(octets) = homes::other_for_user(&self.octets, user.as_slice())? {
            self.octets = octets;
        }
        Ok(())
    }

    /// The octets without the closing `/`.
    pub(crate) fn open_ended(&self) -> &[u8]
        ensures { result.now ++ name.slash ∷ [] ≡ self.now }
    {
        let octets = self.as_slice();
        &octets[..octets.len() - 1]
    }

    /// The octets.
    pub fn as_slice(&self) -> &[u8]
        ensures value { result.now ≡ self.now }
        ensures closed { IsTrue (name.ends_with name.slash self.now) }
        ensures formed { IsTrue (name.is_closed_dataset self.now) }
    {
        self.octets.as_slice()
    }

    /// The dataset that an entry of this one makes, if it makes one: its name is the next component. Fails only for
    /// want of memory.
    pub fn beneath(&self, entry: &EntryName) -> Result<Dataset, Memory>
        requires { 0 < length entry.now }
        ensures { IfOk result (λ made. made ≡ self.now ++ entry.now ++ name.slash ∷ []) }
    {
        entry.form_law();
        let alloc = self.octets.allocator();
        let octets = DatasetText::join(alloc, self.as_slice(), entry.as_slice(), b"/", b"")?;
        Ok(Dataset { octets })
    }
}

impl Copying for Dataset {
    fn copy(&self) -> Result<Dataset, Memory> {
        self.clone()
    }
}

// The octets with a closing `/`.
fn close(alloc: Global, octets: &[u8]) -> Result<DatasetText, Memory>
    ensures { IfOk result (λ made. made ≡ name.with_slash octets.now) }
{
    let missing: &[u8] = if names::ends_with(octets, b'/') {
        b""
    } else {
        b"/"
    };
    DatasetText::join(alloc, octets, missing, b"", b"")
}
