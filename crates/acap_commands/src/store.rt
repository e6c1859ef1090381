//! The arguments of a STORE: its entries, their items and modifiers.
ghost use Rattle.std.specs.Prelude.{◌≡◌};

use crate::lists::StoreItems;
use acap_entries::{Attribute, Cell, Copying, Memory, Moment, Path};

/// What a STORE gives to an attribute or to its access control list (RFC 2244 section 6.6.1).
#[derive(Clone, PartialEq, Eq, Drop)]
pub enum Given {
    /// A value to be stored: NIL, one string, or a list of strings.
    Put(Cell),
    /// DEFAULT: what is stored is to be removed.
    Default,
}

impl Copying for Given {
    fn copy(&self) -> Result<Given, Memory> {
        self.clone()
    }
}

/// What of an attribute is stored (RFC 2244 sections 3.1.2 and 6.6.1).
#[derive(Clone, Copy, PartialEq, Eq)]
pub enum StoreMetadata {
    /// `value`: its value.
    Value,
    /// `acl`: its access control list.
    Acl,
}

impl Copying for StoreMetadata {
    fn copy(&self) -> Result<StoreMetadata, Memory> {
        Ok(*self)
    }
}

/// What a STORE gives to one attribute of an entry (RFC 2244 section 6.6.1).
#[derive(Clone, PartialEq, Eq, Drop)]
pub struct StoreItem {
    /// The attribute.
    pub attribute: Attribute,
    /// Whether its value or its access control list is stored.
    pub metadata: StoreMetadata,
    /// What it is given.
    pub given: Given,
}

impl Copying for StoreItem {
    fn copy(&self) -> Result<StoreItem, Memory> {
        self.clone()
    }
}

/// On what the STORE of an entry depends (RFC 2244 section 6.6.1).
#[derive(Clone, PartialEq, Eq, Drop)]
pub struct StoreModifiers {
    /// NOCREATE: the entry's dataset must exist.
    pub no_create: bool,
    /// UNCHANGEDSINCE: the entry may not have changed later than this.
    pub unchanged_since: Option<Moment>,
}

impl StoreModifiers {
    ghost use Rattle.acap_commands.specs.Modifiers.{unconditional};

    /// A STORE that depends on nothing.
    pub fn none() -> StoreModifiers
        ensures { result ≡ unconditional }
    {
        StoreModifiers {
            no_create: false,
            unchanged_since: None,
        }
    }
}

impl Copying for StoreModifiers {
    fn copy(&self) -> Result<StoreModifiers, Memory> {
        self.clone()
    }
}

/// One entry of a STORE (RFC 2244 section 6.6.1).
#[derive(Clone, PartialEq, Eq, Drop)]
pub struct StoreEntry {
    /// Where it is, as sent: a component `~` stands.
    pub path: Path,
    /// On what its STORE depends.
    pub modifiers: StoreModifiers,
    /// What is given to its attributes, at least one.
    pub items: StoreItems,
}

impl Copying for StoreEntry {
    fn copy(&self) -> Result<StoreEntry, Memory> {
        self.clone()
    }
}
