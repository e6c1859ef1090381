//! Rows that are made last, for those matches that are printed.
ghost use Rattle.std.specs.Prelude.{◌≡◌, IfOk, OnOk, take};
ghost use Rattle.acap_search.specs.Gathering.{rows_at};
ghost use Rattle.acap_search.specs.DatasetCursors.{IsGroundOf};
ghost use Rattle.acap_search.specs.Walks.{match_in};

use crate::dataset_cursor::DatasetCursor;
use crate::match_key::MatchKey;
use crate::walk::Walk;
use acap_entries::{Memory, Row, Sequence};
use std::alloc::Global;

// What is printed of an entry, in the dataset where it lies.
fn tell_there<'a>(
    alloc: Global,
    search: &Walk<'a>,
    here: &mut DatasetCursor<'a>,
    stand: &'a MatchKey<'a>,
) -> Result<Row, Memory>
    requires { IsGroundOf search.now here.old }
    ensures here { OnOk result (IsGroundOf search.now here.new) }
    ensures told { IfOk result (λ row. row ≡ (match_in search.now stand.now.path).row) }
{
    let path = stand.path();
    here.go_to(alloc, search, &path.dataset)?;
    here.tell(alloc, path, search.sought)
}

// What is printed of all of it. Entries that lie in one dataset one after the other share what is made for it.
fn tell_all<'a>(
    alloc: Global,
    search: &Walk<'a>,
    stands: &'a [MatchKey<'a>],
) -> Result<Sequence<Row>, Memory>
    ensures { IfOk result (λ rows. rows ≡ rows_at search.now stands.now) }
{
    let mut rows = Vec::with_capacity(alloc, stands.len())?;
    let Some(first) = stands.first() else {
        return Ok(Sequence::from_vec(rows));
    };
    let mut here = DatasetCursor::at(alloc, search, &first.path().dataset)?;
    for stand in stands {
        rows.push(tell_there(alloc, search, &mut here, stand)?)?;
    }
    Ok(Sequence::from_vec(rows))
}

/// What is printed of the first of what is found. Fails only for want of memory.
pub(crate) fn tell_stands(
    alloc: Global,
    search: &Walk<'_>,
    found: Vec<MatchKey<'_>>,
    most: usize,
) -> Result<Sequence<Row>, Memory>
    ensures { IfOk result (λ rows. rows ≡ rows_at search.now (take most found.entry.items)) }
{
    let mut found = found;
    found.truncate(most);
    tell_all(alloc, search, found.as_slice())
}
