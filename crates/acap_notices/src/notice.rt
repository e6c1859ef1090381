//! `Notice`: one change in the list of a live context: an entry is added, removed, or changed.

use acap_entries::{Copying, Label, Memory, Row};

/// A change of one entry in the list of a live search. The entry goes by its name as it is printed, which is its row's. Positions
/// are counted from 1, and are 0 where the context isn't enumerated (RFC 2244 section 6.5).
#[derive(Clone, PartialEq, Eq, Drop)]
pub enum Notice {
    /// An entry has come in.
    AddTo {
        /// Where it stands now.
        position: usize,
        /// Its row.
        row: Row,
    },
    /// An entry has gone.
    RemoveFrom {
        /// Its name.
        entry: Label,
        /// Where it stood.
        position: usize,
    },
    /// An entry has another position or another row.
    Change {
        /// Where it stood.
        from: usize,
        /// Where it stands now: counted when it has been taken out, and put in again.
        to: usize,
        /// Its row now.
        row: Row,
    },
}

impl Copying for Notice {
    fn copy(&self) -> Result<Notice, Memory> {
        self.clone()
    }
}
