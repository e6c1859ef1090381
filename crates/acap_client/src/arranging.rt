//! Rows of a SEARCH without positions, put in the order of their names.

ghost use Rattle.std.specs.Prelude.{◌≡◌, ◌<◌, ◌≤◌, ◌+◌, [], IfOk, OnErr, length, vec_len, vec_capacity};
ghost use Rattle.acap_entries.specs.Orders.{octets_cmp};
ghost use Rattle.acap_ordmap.specs.Sorted.{InOrder};
ghost use Rattle.acap_grammar.specs.Printed.{printed_by_name};
ghost use Rattle.acap_client.specs.Placing.{keyed, by_order, with_first};

use crate::by_name::place_of;
use crate::row::Row;
use acap_entries::Memory;
use std::alloc::Global;

/// Sorts rows by their names, those of one name in the order that they have, and makes room in which they can be
/// held. Where memory is refused, they stay.
pub(crate) fn prepare(alloc: Global, rows: &mut Vec<Row>) -> Result<Vec<Row>, Memory>
    ensures same { printed_by_name rows.new.items ≡ printed_by_name rows.old.items }
    ensures none { IfOk result (λ room. room.items ≡ []) }
    ensures room { IfOk result (λ room. length rows.new.items ≤ vec_capacity room) }
    ensures err { OnErr result (rows.new.items ≡ rows.old.items) }
{
    let room = Vec::with_capacity(alloc, rows.len())?;
    rows.sort_by(|one, other| one.name().cmp(other.name()))?;
    Ok(room)
}

/// Puts in a row, if none of its name is held, in the room that there is. Takes no memory.
fn put_first(rows: &mut Vec<Row>, row: Row)
    requires order { InOrder octets_cmp (keyed rows.old.items) }
    requires room { vec_len rows.old < vec_capacity rows.old }
    ensures order { InOrder octets_cmp (keyed rows.new.items) }
    ensures rows { by_order rows.new.items ≡ with_first row (by_order rows.old.items) }
    ensures len { vec_len rows.new ≤ vec_len rows.old + 1 }
    ensures capacity { vec_capacity rows.new ≡ vec_capacity rows.old }
{
    let (at, tied) = place_of(rows.as_slice(), row.name());
    if !tied {
        rows.insert(at, row).unwrap();
    }
}

/// Rows in the order of their names, of each name the first, in the room that there is for them. Takes no memory, and
/// moves each row once where they are sorted.
pub(crate) fn arranged(rows: Vec<Row>, room: Vec<Row>) -> Vec<Row>
    requires none { room.items ≡ [] }
    requires room { length rows.items ≤ vec_capacity room }
    ensures order { InOrder octets_cmp (keyed result.items) }
    ensures rows { by_order result.items ≡ printed_by_name rows.items }
{
    let mut arranged = room;
    for row in rows {
        put_first(&mut arranged, row);
    }
    arranged
}
