//! `Change`: what a command writes, its moment, and the entries that it deletes.

use crate::boxed::Boxed;
use crate::moment::Moment;
use crate::path::Paths;
use crate::record::Record;
use crate::writes::Writes;
use acap_ordmap::{Copying, Memory};

/// A step from one store to the next: what is written, the moment that the store then has, and which entries stop
/// existing (RFC 2244 sections 3.1 and 6.6.2).
#[derive(Clone, Drop)]
pub struct Change {
    /// The records put and removed, by path.
    pub writes: Writes,
    /// The moment of the change.
    pub moment: Moment,
    /// The paths of the entries that stop existing, in the order in which they were named.
    pub deleted: Paths,
}

impl Copying for Change {
    fn copy(&self) -> Result<Change, Memory> {
        self.clone()
    }
}

/// What a change does at a path. A record lies in a box, so that it moves as a whole in eight octets.
#[derive(Clone, Drop)]
pub enum RecordEdit {
    /// Puts a record there, in place of one that may be there.
    Put(Boxed<Record>),
    /// Removes the record, if one is there.
    Remove,
}

impl Copying for RecordEdit {
    fn copy(&self) -> Result<RecordEdit, Memory> {
        self.clone()
    }
}
