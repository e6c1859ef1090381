//! RETURN: the attributes and metadata that a SEARCH prints of each entry.

use crate::lists::MetadataList;
use acap_entries::{Attribute, Copying, Label, Memory};

/// What is printed of an attribute (RFC 2244 sections 3.1.2 and 6.4.1).
#[derive(Clone, Copy, PartialEq, Eq)]
pub enum Metadata {
    /// `acl`: its access control list.
    Acl,
    /// `attribute`: its name.
    Attribute,
    /// `myrights`: the rights that the user has on it.
    MyRights,
    /// `size`: the octets of its value.
    Size,
    /// `value`: its value.
    Value,
}

impl Copying for Metadata {
    fn copy(&self) -> Result<Metadata, Memory> {
        Ok(*self)
    }
}

/// Which attributes an item of RETURN prints (RFC 2244 section 6.4.1).
#[derive(Clone, PartialEq, Eq, Drop)]
pub enum ReturnName {
    /// The attribute of this name.
    Named(Attribute),
    /// A name with `*` at its end: those attributes whose names begin with what stands before it.
    Beginning(Label),
}

impl Copying for ReturnName {
    fn copy(&self) -> Result<ReturnName, Memory> {
        self.clone()
    }
}

/// An item of RETURN (RFC 2244 section 6.4.1).
#[derive(Clone, PartialEq, Eq, Drop)]
pub struct ReturnItem {
    /// Which attributes it prints.
    pub name: ReturnName,
    /// What it prints of each, at least one thing.
    pub metadata: MetadataList,
}

impl Copying for ReturnItem {
    fn copy(&self) -> Result<ReturnItem, Memory> {
        self.clone()
    }
}
