//! Writes put into a tree that has room for them.
ghost use Rattle.std.specs.Prelude.{◌≤◌};
ghost use Rattle.std.specs.FinMap as map;
ghost use Rattle.acap_ordmap.specs.Sorted.{InOrder};
ghost use Rattle.acap_entries.specs.Store.{path_cmp, IsPathByPath};

use crate::boxed::Boxed;
use crate::change::RecordEdit;
use crate::path::Path;
use crate::record::Record;
use crate::writes::Writes;
use acap_ordmap::{Leaves, Whole};

// Performs the writes from the last to the first.
#[tactic(auto, using(crate::proofs::Kept::kept))]
pub(crate) fn put_all(entries: &mut Leaves<Path, Boxed<Record>>, writes: Writes)
    requires room { map.len writes ≤ entries.old.1 }
    requires sorted { InOrder path_cmp entries.old.0 }
    ensures sorted { InOrder path_cmp entries.new.0 }
    ensures paths { IsPathByPath writes (map.from_sorted entries.old.0) (map.from_sorted entries.new.0) }
{
    let mut left = writes.into_entries();
    while let Some((path, edit)) = left.pop() {
        match edit {
            RecordEdit::Put(record) => entries.put(path, record),
            RecordEdit::Remove => {
                let _ = entries.take_out(&Whole { key: &path });
                drop(path);
            }
        }
    }
}
