//! `Record` and `Cell`: what the store keeps of an entry, and of one attribute.
ghost use Rattle.std.specs.Prelude.{◌≡◌};
ghost use Rattle.std.specs.Option.{option_copied};
ghost use Rattle.acap_entries.specs.Datasets as rule;

use crate::moment::Moment;
use crate::sequence::Sequence;
use crate::shared::Values;
use crate::table::{Acls, Cells};
use crate::value::Value;
use acap_ordmap::{Copying, Memory};

/// What the store keeps at a path (RFC 2244 section 3.1).
#[derive(Clone, PartialEq, Eq, Drop)]
pub struct Record {
    /// Whether the entry exists here; a deleted one leaves its record.
    pub present: bool,
    /// Whether inheritance ends at this record (RFC 2244 section 5.1).
    pub blocks_inheritance: bool,
    /// The values by attribute.
    pub cells: Cells,
    /// The access control lists by attribute.
    pub acls: Acls,
    /// The moment of the last change.
    pub modtime: Moment,
}

impl Copying for Record {
    fn copy(&self) -> Result<Record, Memory> {
        self.clone()
    }
}

/// What an attribute has: NIL, one string, or a list of strings (RFC 2244 section 3.1).
#[derive(Clone, PartialEq, Eq, Drop)]
pub enum Cell {
    /// NIL.
    Nil,
    /// One string.
    Single(Value),
    /// A list of strings, which may be empty.
    Multi(Values),
}

impl Copying for Cell {
    fn copy(&self) -> Result<Cell, Memory> {
        self.clone()
    }
}

/// The data that are printed in one parenthesis (RFC 2244 section 6.4.1).
pub type CellList = Sequence<Cell>;

/// A parenthesis of data for each of some attributes (RFC 2244 section 6.4.1).
pub type CellLists = Sequence<CellList>;

// Whether a cell is the list of the one string `.`.
fn is_dot_list(cell: Option<&Cell>) -> bool
    ensures { result ≡ rule.is_dot_list (option_copied cell.entry) }
{
    match cell {
        Some(Cell::Multi(values)) => match values.as_slice() {
            [value] => value.as_slice() == b".".as_slice(),
            _ => false,
        },
        _ => false,
    }
}

/// Whether an entry makes the dataset of its name: it is present with `subdataset` `(".")` (RFC 2244 section 3.1.1).
/// Takes no memory.
pub fn makes_dataset(entry: &Record) -> bool
    ensures { result ≡ rule.makes_dataset entry.now }
{
    entry.present && is_dot_list(entry.cells.find(b"subdataset"))
}
